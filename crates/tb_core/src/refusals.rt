//! Why a command or a question is refused, and why a call fails.

ghost use Rattle.std.specs.Prelude.{◌≡◌, Some};

use crate::kinds::State;
use std::alloc::{AllocError, AllocFailed};
use std::error::Error;
use std::fmt;

/// Why a command or a question is refused. Where several reasons hold, the first in the command's own order is
/// reported.
#[derive(Clone, Copy, PartialEq, Eq, Debug)]
pub enum Refusal {
    /// The name of a batch or of a user does not have the form of a name.
    BadName,
    NoSuchBatch,
    NoSuchSentence,
    /// The state of the batch, or of the sentence.
    WrongState(State),
    /// Only the worker may do it.
    NotYours,
    /// Anyone but the worker may do it.
    OwnWork,
    /// The base is not the current revision, which has this number, from 1.
    Stale(u64),
    /// The body is not CoNLL-U: the first line, from 1, after which no continuation is a file, and its least code.
    Read(u64, u8),
    /// A sentence of the body breaks a rule: its number, from 1, the least broken rule, and its row at fault.
    ///
    /// For rules 4 to 8 the row is the first at fault, from 1; for the others it is 0.
    Rule(u64, u8, u64),
    /// The body holds no sentence.
    Empty,
    /// The body of a correction holds more than one sentence.
    NotOne,
    SentIdChanged,
    TextChanged,
    NothingChanged,
    /// A batch has this name.
    NameTaken,
    /// The place in the body, from 1, of the first sentence whose `sent_id` a sentence of the desk has.
    SentIdTaken(u64),
    /// The command would pass a limit of the desk.
    Full,
    NoSuchRevision,
    /// The text is no query: the code of its first fault, and the fault's byte or literal, else 0.
    Query(u8, u64),
    Pulled,
    NotPulled,
    TooManyHits,
}

impl Refusal {
    ghost use Rattle.tb_core.specs.Refusals.{refusal_number};

    /// Its number, 1 to 22. Takes no memory.
    pub fn number(self) -> u8
        ensures { result ≡ refusal_number self }
    {
        match self {
            Refusal::BadName => 1,
            Refusal::NoSuchBatch => 2,
            Refusal::NoSuchSentence => 3,
            Refusal::WrongState(_) => 4,
            Refusal::NotYours => 5,
            Refusal::OwnWork => 6,
            Refusal::Stale(_) => 7,
            Refusal::Read(_, _) => 8,
            Refusal::Rule(_, _, _) => 9,
            Refusal::Empty => 10,
            Refusal::NotOne => 11,
            Refusal::SentIdChanged => 12,
            Refusal::TextChanged => 13,
            Refusal::NothingChanged => 14,
            Refusal::NameTaken => 15,
            Refusal::SentIdTaken(_) => 16,
            Refusal::Full => 17,
            Refusal::NoSuchRevision => 18,
            Refusal::Query(_, _) => 19,
            Refusal::Pulled => 20,
            Refusal::NotPulled => 21,
            Refusal::TooManyHits => 22,
        }
    }
}

impl fmt::Display for Refusal {
    ghost use Rattle.tb_core.specs.Refusals.{refusal_text};

    ghost output = { λ r. Some (refusal_text r) };

    fn fmt<W: fmt::Write>(&self, f: &mut fmt::Formatter<W>) -> fmt::Result {
        match self {
            Refusal::BadName => f.write_str("refused 1 BadName"),
            Refusal::NoSuchBatch => f.write_str("refused 2 NoSuchBatch"),
            Refusal::NoSuchSentence => f.write_str("refused 3 NoSuchSentence"),
            Refusal::WrongState(state) => write!(f, "refused 4 WrongState {}", state.word()),
            Refusal::NotYours => f.write_str("refused 5 NotYours"),
            Refusal::OwnWork => f.write_str("refused 6 OwnWork"),
            Refusal::Stale(current) => write!(f, "refused 7 Stale {current}"),
            Refusal::Read(line, code) => write!(f, "refused 8 Read {line} {code}"),
            Refusal::Rule(sentence, rule, row) => write!(
                f,
                "refused 9 Rule {sentence} {rule} {row}"
            ),
            Refusal::Empty => f.write_str("refused 10 Empty"),
            Refusal::NotOne => f.write_str("refused 11 NotOne"),
            Refusal::SentIdChanged => f.write_str("refused 12 SentIdChanged"),
            Refusal::TextChanged => f.write_str("refused 13 TextChanged"),
            Refusal::NothingChanged => f.write_str("refused 14 NothingChanged"),
            Refusal::NameTaken => f.write_str("refused 15 NameTaken"),
            Refusal::SentIdTaken(sentence) => write!(f, "refused 16 SentIdTaken {sentence}"),
            Refusal::Full => f.write_str("refused 17 Full"),
            Refusal::NoSuchRevision => f.write_str("refused 18 NoSuchRevision"),
            Refusal::Query(code, number) => write!(f, "refused 19 Query {code} {number}"),
            Refusal::Pulled => f.write_str("refused 20 Pulled"),
            Refusal::NotPulled => f.write_str("refused 21 NotPulled"),
            Refusal::TooManyHits => f.write_str("refused 22 TooManyHits"),
        }
    }
}

impl Error for Refusal {}

/// Why a call fails.
#[derive(Clone, Copy, PartialEq, Eq, Debug)]
pub enum Fault {
    Refused(Refusal),
    /// Memory was refused.
    Memory,
    /// The store failed.
    Device,
    /// The tables are not those of a desk.
    NotADesk,
    /// The writer of the output failed.
    Output,
}

impl fmt::Display for Fault {
    ghost use Rattle.tb_core.specs.Refusals.{fault_text};

    ghost output = { λ e. Some (fault_text e) };

    fn fmt<W: fmt::Write>(&self, f: &mut fmt::Formatter<W>) -> fmt::Result {
        match self {
            Fault::Refused(refusal) => write!(f, "{refusal}"),
            Fault::Memory => f.write_str("refused memory"),
            Fault::Device => f.write_str("refused device"),
            Fault::NotADesk => f.write_str("refused desk"),
            Fault::Output => f.write_str("the writer failed"),
        }
    }
}

impl Error for Fault {}

impl From<Refusal> for Fault {
    ghost use Rattle.tb_core.specs.declared.refusals.Fault.TheVariants.{Refused};

    ghost from_gives = { λ r e. e ≡ Refused r };

    fn from(refusal: Refusal) -> Self {
        Fault::Refused(refusal)
    }
}

impl From<AllocError> for Fault {
    ghost use Rattle.tb_core.specs.declared.refusals.Fault.TheVariants.{Memory};

    ghost from_gives = { λ _ e. e ≡ Memory };

    fn from(_: AllocError) -> Self {
        Fault::Memory
    }
}

impl<T: Drop> From<AllocFailed<T>> for Fault {
    ghost use Rattle.tb_core.specs.declared.refusals.Fault.TheVariants.{Memory};

    ghost from_gives = { λ _ e. e ≡ Memory };

    fn from(_: AllocFailed<T>) -> Self {
        Fault::Memory
    }
}
