//! Faults of the text of a query.

ghost use Rattle.std.specs.Prelude.{◌≡◌};
ghost use Rattle.tb_syntax.specs.declared.fault.Fault.TheVariants.{Memory};

use std::alloc::AllocError;

/// Why a text is no query. The first that holds, in this order, is reported.
#[derive(Clone, Copy, PartialEq, Eq, Debug)]
pub enum Fault {
    /// It has more than 2,000 bytes.
    TooLong,
    /// It is outside the grammar. The byte, counted from 0, is the beginning of the first lexeme that no query can have
    /// there, or of a part that is no lexeme. It is the length of the text where the text only ends too early.
    Syntax(usize),
    /// It has more than 32 token expressions.
    TooMany,
    /// More than 16 round parentheses are open at one place.
    TooDeep,
    /// A repetition has a number above 32, an upper number of 0, or one below its lower number.
    Repeat,
    /// Memory was refused.
    Memory,
}

impl From<AllocError> for Fault {
    ghost from_gives = { λ _ e. e ≡ Memory };

    fn from(_: AllocError) -> Self {
        Fault::Memory
    }
}
