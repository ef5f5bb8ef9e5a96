//! Questions, which change nothing of a desk.

/// A question.
#[derive(Clone, Copy, Debug, PartialEq, Eq)]
pub enum Question {
    /// The current revision of the sentence with this number, from 1.
    Sentence { number: u64 },
    /// One of the sentence's revisions, from 1.
    Revision { number: u64, rev: u64 },
    /// Sentences and words in each state, as CSV.
    Totals,
    /// All moves, as CSV.
    Moves,
}

/// The text that answers a question.
#[derive(Debug, Drop)]
pub struct Body {
    pub text: Vec<u8>,
    /// The number of the revision, where the question was for the current one.
    pub rev: Option<u64>,
}
