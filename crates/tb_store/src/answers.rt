//! The answer of a desk for a sentence.

/// The current revision of a sentence.
#[derive(Debug, Drop)]
pub struct Current {
    /// Its number, from 1.
    pub rev: u64,
    /// The text of the sentence, its blank line included.
    pub body: String,
}

/// How many batches, sentences and moves a desk has.
#[derive(Clone, Copy, Debug, PartialEq, Eq)]
pub struct DeskCounts {
    pub batches: u64,
    pub sentences: u64,
    pub moves: u64,
}
