//! The replies to accepted commands.

use crate::kinds::State;

/// The reply to an import. It has the numbers of the batch and of its first sentence, from 1, how many sentences there
/// are, and the words of their first revisions.
#[derive(Clone, Copy, PartialEq, Eq, Debug)]
pub struct Imported {
    pub batch: u64,
    pub first: u64,
    pub sentences: u64,
    pub words: u64,
}

/// The reply to an event: the number of the batch, its new state, how many of its sentences are not pulled, and their
/// words.
#[derive(Clone, Copy, PartialEq, Eq, Debug)]
pub struct Moved {
    pub batch: u64,
    pub state: State,
    pub sentences: u64,
    pub words: u64,
}

/// The reply to a correction: the numbers of the sentence and of its new revision, and the words of that.
#[derive(Clone, Copy, PartialEq, Eq, Debug)]
pub struct Corrected {
    pub sentence: u64,
    pub rev: u64,
    pub words: u64,
}

/// The reply to a pull: the number of the sentence, and its words.
#[derive(Clone, Copy, PartialEq, Eq, Debug)]
pub struct Pulled {
    pub sentence: u64,
    pub words: u64,
}

/// The reply to a restore: the number of the sentence, the state that it is in again, and its words.
#[derive(Clone, Copy, PartialEq, Eq, Debug)]
pub struct Restored {
    pub sentence: u64,
    pub state: State,
    pub words: u64,
}
