ghost use Rattle.tb_rules.specs.declared.filefault.FileFault.TheVariants.{Memory};
ghost use Rattle.std.specs.Prelude.{◌≡◌, Some};
ghost use Rattle.tb_rules.specs.FaultText.{file_fault_text};

use crate::fault::RuleFault;
use std::alloc::AllocError;
use std::error::Error;
use std::fmt;

/// Why the sentences of a file break the rules.
#[derive(Clone, Copy, Debug, PartialEq, Eq)]
pub enum FileFault {
    /// The first sentence at fault, counted from 1, and its least broken rule, 1 to 12. For rules 4 to 8 also its first
    /// row at fault, counted from 1, else 0.
    At {
        sentence: usize,
        rule: u8,
        row: usize,
    },
    /// Memory ran out.
    Memory,
}

impl From<AllocError> for FileFault {
    ghost from_gives = { λ _ e. e ≡ Memory };

    fn from(_: AllocError) -> Self {
        FileFault::Memory
    }
}

impl fmt::Display for FileFault {
    ghost output = { λ e. Some (file_fault_text e) };

    fn fmt<W: fmt::Write>(&self, f: &mut fmt::Formatter<W>) -> fmt::Result {
        match *self {
            FileFault::At {
                sentence,
                rule,
                row,
            } => write!(f, "sentence {sentence}, {}", RuleFault::At { rule, row }),
            FileFault::Memory => f.write_str("out of memory"),
        }
    }
}

impl Error for FileFault {}
