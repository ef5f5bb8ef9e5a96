//! A command with its values, and why words are no command.

use std::alloc::AllocError;
use tb_core::Event;
use tb_match::Strategy;
use tb_syntax::Attr;

/// A command with its values. Where `db` is `None`, the desk is one in memory.
#[derive(Debug, Drop)]
pub enum Line {
    Check,
    New {
        db: String,
    },
    Migrate {
        db: String,
    },
    Import {
        db: Option<String>,
        user: String,
        name: String,
    },
    Event {
        db: Option<String>,
        user: String,
        name: String,
        event: Event,
    },
    Correct {
        db: Option<String>,
        user: String,
        no: u64,
        base: u64,
    },
    Pull {
        db: Option<String>,
        user: String,
        no: u64,
    },
    Restore {
        db: Option<String>,
        user: String,
        no: u64,
    },
    Show {
        db: Option<String>,
        no: u64,
        rev: Option<u64>,
    },
    Export {
        db: Option<String>,
        name: Option<String>,
    },
    Totals {
        db: Option<String>,
    },
    Moves {
        db: Option<String>,
    },
    Search {
        db: Option<String>,
        strategy: Strategy,
        context: u8,
        query: String,
    },
    Count {
        db: Option<String>,
        strategy: Strategy,
        attribute: Attr,
        query: String,
    },
    Serve {
        db: Option<String>,
        port: u16,
        requests: u64,
    },
}

/// A list that `deskview` prints.
#[derive(Debug, Drop)]
pub enum ViewList {
    Batches,
    /// The sentences of the batch with this name.
    Sentences { name: String },
    /// The revisions of the sentence with this number.
    Revisions { no: u64 },
    /// The sentence with this `sent_id`.
    Find { sent_id: String },
    /// The tree of the sentence with this number.
    Tree { no: u64 },
}

/// A command of `deskview` with its values. Each but `Trees` and `Check` reads the desk in a file.
#[derive(Debug, Drop)]
pub enum ViewLine {
    List { db: String, list: ViewList },
    /// Draws the trees of the file on standard input.
    Trees,
    /// Lists the first faults of the file on standard input, at most so many.
    Check { most: u32 },
    /// Serves the page, and the desk beside it.
    Page { db: String, port: u16 },
}

/// Why words are no line.
#[derive(Debug, Drop)]
pub enum LineFault {
    /// Words that clap does not accept: unknown, missing, repeated or surplus ones. Help and the version come this way
    /// too.
    Clap(clap::Error),
    /// No command, or a value that does not have its form.
    Usage,
    /// Memory ran out.
    Memory,
}

impl From<AllocError> for LineFault {
    ghost use Rattle.tb_cli.specs.Fault.{IsMemory};

    ghost from_gives = { λ _ e. IsMemory e };

    fn from(_error: AllocError) -> LineFault {
        LineFault::Memory
    }
}
