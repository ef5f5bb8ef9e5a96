//! Faults of the text of a query.

ghost use Rattle.std.specs.Prelude.{◌≡◌, Some};
ghost use Rattle.tb_query.specs.FaultText.{fault_text};
ghost use Rattle.tb_query.specs.declared.fault.QueryFault.TheVariants.{Memory};
ghost use Rattle.tb_query.specs.Reported.{query_fault};

use std::alloc::{AllocError, AllocFailed};
use std::error::Error;
use std::fmt;
use tb_syntax::Fault;

/// Why a text is no query. The first that holds, in this order, is reported.
#[derive(Clone, Copy, PartialEq, Eq, Debug)]
pub enum QueryFault {
    /// It has more than 2,000 bytes.
    TooLong,
    /// It is outside the grammar. The byte, counted from 0, is the beginning of the first lexeme that no query can have
    /// there, or of a part that is no lexeme. It is the length of the text where the text only ends too early.
    Syntax(u64),
    /// It has more than 32 token expressions.
    TooMany,
    /// More than 16 round parentheses are open at one place.
    TooDeep,
    /// A repetition has a number above 32, an upper number of 0, or one below its lower number.
    Repeat,
    /// A literal is no valid pattern. It is the first such one, counted from 1 over all literals of the text, those
    /// with `%l` too.
    Pattern(u64),
    /// Memory was refused, or a compiled pattern is too large.
    Memory,
}

impl fmt::Display for QueryFault {
    ghost output = { λ e. Some (fault_text e) };

    fn fmt<W: fmt::Write>(&self, f: &mut fmt::Formatter<W>) -> fmt::Result {
        match self {
            QueryFault::TooLong => f.write_str("longer than 2,000 bytes"),
            QueryFault::Syntax(byte) => write!(f, "outside the grammar at byte {byte}"),
            QueryFault::TooMany => f.write_str("more than 32 token expressions"),
            QueryFault::TooDeep => f.write_str("more than 16 round parentheses open at one place"),
            QueryFault::Repeat => f.write_str(
                "a repetition with a number that is too large or too small",
            ),
            QueryFault::Pattern(literal) => write!(f, "literal {literal} is no pattern"),
            QueryFault::Memory => f.write_str("out of memory, or a pattern is too large"),
        }
    }
}

impl Error for QueryFault {}

impl From<AllocError> for QueryFault {
    ghost from_gives = { λ _ e. e ≡ Memory };

    fn from(_: AllocError) -> Self {
        QueryFault::Memory
    }
}

impl<T: Drop> From<AllocFailed<T>> for QueryFault {
    ghost from_gives = { λ _ e. e ≡ Memory };

    fn from(_: AllocFailed<T>) -> Self {
        QueryFault::Memory
    }
}

impl From<Fault> for QueryFault {
    ghost from_gives = { λ f e. e ≡ query_fault f };

    fn from(fault: Fault) -> Self {
        match fault {
            Fault::TooLong => QueryFault::TooLong,
            Fault::Syntax(byte) => QueryFault::Syntax(byte as u64),
            Fault::TooMany => QueryFault::TooMany,
            Fault::TooDeep => QueryFault::TooDeep,
            Fault::Repeat => QueryFault::Repeat,
            Fault::Memory => QueryFault::Memory,
        }
    }
}
