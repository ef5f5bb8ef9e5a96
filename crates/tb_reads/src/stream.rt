//! Rows one at a time, while the connection is borrowed: what a walk over the whole treebank reads.

ghost use Rattle.std.specs.Prelude.{◌≡◌, map, List, All, is_ok};
ghost use Rattle.tb_reads.specs.Prelude.{FailsOnlyAs, IsFaultless, numbered, Reads, Sentence, sentence_shown};
ghost use Rattle.tb_reads.specs.Prelude.{sentence_view, Shows};
ghost use Rattle.tb_reads.specs.Readable.{IsSentence};
ghost use Rattle.tb_reads.specs.Failing.{HasNoForm, IsReadFault, IsReadWant};
ghost use Rattle.tb_reads.specs.Streams.{head_of};
ghost use Rattle.tb_reads.specs.ReadOnly.{IsReadOnly};

use crate::error::ReadError;
use crate::records::FromRow;
use sqlite::{Alter, Connection, Error, ErrorCode};
use std::alloc::Global;

/// The batch of a sentence and the number of its current revision.
#[derive(Clone, Copy, Debug, PartialEq, Eq)]
pub struct CurrentRev {
    /// The number of the batch.
    pub batch: u32,
    /// The number of the current revision.
    pub rev: u32,
}

/// The batch and the current revision of each sentence, by number. One row is in memory at a time.
///
/// # Errors
///
/// `Form`, only where the rows are those of no such list; else `Store`.
pub fn heads<S: Alter>(
    alloc: Global,
    conn: &mut Connection<S>,
) -> Result<Vec<CurrentRev>, ReadError>
    ensures ok { Reads S.Store conn.old conn.new result (λ v trees. (xs : List Sentence)
        → Shows sentence_view (numbered sentence_shown 1 xs) (trees 3) → v.items ≡ map head_of xs) }
    ensures form { HasNoForm S.Store conn.old conn.new result (λ trees. (xs : List Sentence) → All IsSentence xs
        → ¬ Shows sentence_view (numbered sentence_shown 1 xs) (trees 3)) }
    ensures fails { FailsOnlyAs IsReadFault S.Store conn.old conn.new result }
    ensures cause { IsFaultless S.Store conn.old conn.new → FailsOnlyAs IsReadWant S.Store conn.old conn.new result }
    ensures read_only { IsReadOnly S.Store conn.old conn.new (is_ok result) }
{
    let mut found = Vec::new(alloc);
    let mut rows = conn.query("SELECT batch, rev FROM sentences ORDER BY no", &[])?;
    'rows: for _ in 0..u64::MAX {
        let Some(row) = rows.next()? else {
            return Ok(found);
        };
        found.push(CurrentRev::from_row(row, 0)?)?;
    }
    Err(ReadError::Store(Error::SqliteFailure(ErrorCode::OutOfMemory)))
}
