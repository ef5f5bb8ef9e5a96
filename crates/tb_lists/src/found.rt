//! A sentence, as it is found by its `sent_id`.

ghost use Rattle.std.specs.Prelude.{◌≡◌, string_bytes};
ghost use Rattle.tb_lists.specs.Found.{FoundText};

use std::marker::Model;
use tb_tables::{BatchRow, SentenceRow};

/// A sentence, its current revision, and its batch.
#[derive(Drop)]
pub struct FoundLine {
    /// Its number, from 1.
    pub no: u64,
    /// The name of its batch.
    pub batch: String,
    /// The number of its current revision, from 1.
    pub rev: u64,
    /// The words of its current revision.
    pub words: u64,
    /// Whether it is pulled.
    pub pulled: bool,
}

impl Model for FoundLine {
    ghost Value = { FoundText };

    ghost view = { λ x. record {
      no = x.no;
      batch = string_bytes x.batch;
      rev = x.rev;
      words = x.words;
      pulled = x.pulled;
    } };
}

/// The sentence of a row, with its number, in the batch of a row.
pub(crate) fn line_of(no: u32, row: &SentenceRow, batch: BatchRow, is_pulled: bool) -> FoundLine
    ensures { result ≡ record {
      no = no;
      batch = string_bytes batch.name;
      rev = row.now.rev;
      words = row.now.words;
      pulled = is_pulled;
    } }
{
    FoundLine {
        no: u64::from(no),
        batch: batch.name,
        rev: u64::from(row.rev),
        words: u64::from(row.words),
        pulled: is_pulled,
    }
}
