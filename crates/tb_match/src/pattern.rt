//! Patterns over the words of a sentence.

/// A pattern over the words of a sentence, as the CQP query language has them between its brackets: token expressions
/// in sequence, in choice, and repeated.
///
/// A match goes from one place of the sentence to another, where place `i` is after the first `i` words. A table
/// ([`Truth`](crate::truth::Truth)) says which expression holds of which word, so a pattern names expressions by
/// number.
///
/// A pattern may have any depth, but each walk over it takes stack for each level, and so does dropping it. See
/// [`find`](crate::finding::find) for how many levels a stack holds.
#[derive(Debug, PartialEq, Eq, Drop)]
pub enum Pat {
    /// One word of which the expression with this number, counted from 0, holds.
    Tok(u16),
    /// The parts, one after another. Without a part it matches only the empty piece.
    Cat(Vec<Pat>),
    /// One of the parts. Without a part it matches nowhere.
    Alt(Vec<Pat>),
    /// The pattern, repeated: at least as often as the first number says, and at most as often as the second, if it is
    /// given.
    Rep(Box<Pat>, u8, Option<u8>),
}
