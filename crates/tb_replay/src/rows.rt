//! The rows of a desk, which borrow their texts. Contracts see each text as its bytes.

ghost use Rattle.tb_core.specs.Machine.{Batch};
ghost use Rattle.tb_replay.specs.Summaries.{RevisionRow, SummaryRow};

use std::marker::Model;
use tb_core::State;

/// A batch.
#[derive(Drop)]
pub struct BatchRow<'a> {
    pub name: &'a str,
    pub state: State,
    /// Who works on it, or the empty text.
    pub worker: &'a str,
}

impl<'a> Model for BatchRow<'a> {
    ghost Value = { Batch };

    ghost view = { λ b. record { name = b.name.now; state = b.state; worker = b.worker.now } };
}

/// A revision, without its text.
#[derive(Drop)]
pub struct Revision<'a> {
    /// The user who made it.
    pub who: &'a str,
    /// How many words its text has.
    pub words: u64,
}

impl<'a> Model for Revision<'a> {
    ghost Value = { RevisionRow };

    ghost view = { λ r. record { who = r.who.now; words = r.words } };
}

/// A sentence, without its texts.
#[derive(Drop)]
pub struct SentenceSummary<'a> {
    /// The number of its batch, from 1.
    pub batch: u64,
    pub pulled: bool,
    /// Its revisions, oldest first.
    pub revisions: Vec<Revision<'a>>,
}

impl<'a> Model for SentenceSummary<'a> {
    ghost Value = { SummaryRow };

    ghost view = { λ e. record { batch = e.batch; pulled = e.pulled; revisions = e.revisions.items } };
}
