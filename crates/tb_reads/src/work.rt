//! The sentences of a batch.

ghost use Rattle.std.specs.Prelude.{◌≡◌, ◌<◌, ◌^◌, length, List, All, is_ok};
ghost use Rattle.tb_reads.specs.Prelude.{FailsOnlyAs, IsFaultless, numbered, Reads, Sentence, sentence_shown};
ghost use Rattle.tb_reads.specs.Prelude.{sentence_view, Shows};
ghost use Rattle.tb_reads.specs.Readable.{IsSentence};
ghost use Rattle.tb_reads.specs.Found.{work_of};
ghost use Rattle.tb_reads.specs.Failing.{HasNoForm, IsReadFault, IsReadWant};
ghost use Rattle.tb_reads.specs.ReadOnly.{IsReadOnly};

use crate::error::ReadError;
use crate::fetch::fetch_all;
use sqlite::{Alter, Connection, params};
use std::alloc::Global;

/// A sentence of a batch, with what the sums of the batch count.
#[derive(Clone, Copy, Debug, PartialEq, Eq)]
pub struct BatchSentence {
    /// The number of the sentence.
    pub number: u32,
    /// The number of its current revision.
    pub rev: u32,
    /// The words of the current revision.
    pub words: u32,
}

/// The sentences of a batch, by number.
///
/// # Errors
///
/// `Form`, only where the rows are those of no list of fewer than 2^32 sentences; else `Store`.
pub fn sentences_of<S: Alter>(
    alloc: Global,
    conn: &mut Connection<S>,
    batch: u32,
) -> Result<Vec<BatchSentence>, ReadError>
    ensures ok { Reads S.Store conn.old conn.new result (λ v trees. (xs : List Sentence)
        → Shows sentence_view (numbered sentence_shown 1 xs) (trees 3) → v.items ≡ work_of batch 1 xs) }
    ensures form { HasNoForm S.Store conn.old conn.new result (λ trees. (xs : List Sentence) → All IsSentence xs
        → length xs < 2 ^ 32 → ¬ Shows sentence_view (numbered sentence_shown 1 xs) (trees 3)) }
    ensures fails { FailsOnlyAs IsReadFault S.Store conn.old conn.new result }
    ensures cause { IsFaultless S.Store conn.old conn.new → FailsOnlyAs IsReadWant S.Store conn.old conn.new result }
    ensures read_only { IsReadOnly S.Store conn.old conn.new (is_ok result) }
{
    fetch_all(
        alloc,
        conn,
        "SELECT no, rev, words FROM sentences WHERE batch = ?1 ORDER BY no",
        params![batch],
    )
}
