//! Rows of the tables. States and kinds of moves are numbers, as in the file.

/// A batch; its number is its place among the batches, from 1.
#[derive(Debug, Drop)]
pub struct BatchRow {
    pub name: String,
    pub state: u32,
    /// Who works on the batch, or the empty text.
    pub worker: String,
}

/// A sentence; its number is its place among the sentences, from 1.
#[derive(Debug, Drop)]
pub struct SentenceRow {
    pub sent_id: String,
    /// The number of its batch.
    pub batch: u32,
    /// The number of its current revision.
    pub rev: u32,
    /// Words of the current revision.
    pub words: u32,
}

/// A revision of a sentence.
#[derive(Debug, Drop)]
pub struct RevisionRow {
    /// The number of the sentence.
    pub sent: u32,
    /// The number of the revision, from 1 within its sentence.
    pub rev: u32,
    /// The user who wrote it.
    pub who: String,
    /// The text of the sentence, its blank line included.
    pub body: String,
}

/// A revision to be written.
#[derive(Clone, Copy, Debug)]
pub struct RevisionWrite<'a> {
    /// The number of the sentence, from 1.
    pub sent: u32,
    /// The number of the revision, from 1 within its sentence.
    pub rev: u32,
    /// How many words it has.
    pub words: u32,
    /// The user who wrote it.
    pub who: &'a str,
    /// The text of the sentence, its blank line included.
    pub body: &'a str,
}

/// A move; its number is its place among the moves, from 1.
#[derive(Debug, Drop)]
pub struct MoveRow {
    pub kind: u32,
    /// The number of the batch.
    pub batch: u32,
    /// The number of the sentence, or 0.
    pub sent: u32,
    /// The state before it.
    pub from: u32,
    /// The state after it.
    pub to: u32,
    /// How many sentences it moves.
    pub sentences: u32,
    /// The words that leave the state before it.
    pub words_out: u32,
    /// The words that come into the state after it.
    pub words_in: u32,
    /// The user who made it.
    pub who: String,
}

/// The sentences and words in one state; its number is that of the state, from 1.
#[derive(Clone, Copy, Debug, PartialEq, Eq)]
pub struct TotalRow {
    pub sentences: u32,
    pub words: u32,
}
