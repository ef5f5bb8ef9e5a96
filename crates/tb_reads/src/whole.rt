//! Whole tables, in the order of their keys, as typed records: what the opening of a file reads.

ghost use Rattle.std.specs.Prelude.{ℕ, ◌≡◌, ◌<◌, ◌^◌, map, List, All, is_ok};
ghost use Rattle.tb_reads.specs.Prelude.{Batch, batch_of, batch_shown, batch_view, FailsOnlyAs, IsAscending};
ghost use Rattle.tb_reads.specs.Prelude.{IsFaultless, meta_view, Move, move_of, move_shown, move_view, number_shown};
ghost use Rattle.tb_reads.specs.Prelude.{number_view, numbered, Reads, Revision, revision_of, revision_shown};
ghost use Rattle.tb_reads.specs.Prelude.{revision_view, Sentence, sentence_of, sentence_shown, sentence_view, Shows};
ghost use Rattle.tb_reads.specs.Prelude.{Total, total_of, total_shown, total_view};
ghost use Rattle.tb_reads.specs.Readable.{IsBatch, IsSentence, IsRevision, IsMove, IsTotal, ComesBefore};
ghost use Rattle.tb_reads.specs.Failing.{HasNoForm, IsReadFault, IsUnchangedOnForm, SeesAsBefore, IsReadWant};
ghost use Rattle.tb_reads.specs.ReadOnly.{IsReadOnly};

use crate::error::ReadError;
use crate::fetch::fetch_all;
use crate::records::FromRow;
use sqlite::{Alter, Connection, Error, ErrorCode};
use std::alloc::Global;
use tb_tables::{BatchRow, MoveRow, RevisionRow, SentenceRow, TotalRow};

/// The batches, by number.
///
/// # Errors
///
/// `Form`, exactly where the rows are those of no such list; else `Store`.
pub fn batches<S: Alter>(
    alloc: Global,
    conn: &mut Connection<S>,
) -> Result<Vec<BatchRow>, ReadError>
    ensures ok { Reads S.Store conn.old conn.new result (λ v trees.
        Shows batch_view (numbered batch_shown 1 (map batch_of v.items)) (trees 1)) }
    ensures form { HasNoForm S.Store conn.old conn.new result (λ trees. (xs : List Batch) → All IsBatch xs
        → ¬ Shows batch_view (numbered batch_shown 1 xs) (trees 1)) }
    ensures untouched { IsUnchangedOnForm S.Store conn.old conn.new result }
    ensures sees { SeesAsBefore S.Store conn.old conn.new }
    ensures fails { FailsOnlyAs IsReadFault S.Store conn.old conn.new result }
    ensures cause { IsFaultless S.Store conn.old conn.new → FailsOnlyAs IsReadWant S.Store conn.old conn.new result }
    ensures read_only { IsReadOnly S.Store conn.old conn.new (is_ok result) }
{
    fetch_all(
        alloc,
        conn,
        "SELECT no, name, state, worker FROM batches ORDER BY no",
        &[],
    )
}

/// The sentences, by number.
///
/// # Errors
///
/// `Form`, exactly where the rows are those of no such list; else `Store`.
pub fn sentences<S: Alter>(
    alloc: Global,
    conn: &mut Connection<S>,
) -> Result<Vec<SentenceRow>, ReadError>
    ensures ok { Reads S.Store conn.old conn.new result (λ v trees.
        Shows sentence_view (numbered sentence_shown 1 (map sentence_of v.items)) (trees 3)) }
    ensures form { HasNoForm S.Store conn.old conn.new result (λ trees. (xs : List Sentence) → All IsSentence xs
        → ¬ Shows sentence_view (numbered sentence_shown 1 xs) (trees 3)) }
    ensures untouched { IsUnchangedOnForm S.Store conn.old conn.new result }
    ensures sees { SeesAsBefore S.Store conn.old conn.new }
    ensures fails { FailsOnlyAs IsReadFault S.Store conn.old conn.new result }
    ensures cause { IsFaultless S.Store conn.old conn.new → FailsOnlyAs IsReadWant S.Store conn.old conn.new result }
    ensures read_only { IsReadOnly S.Store conn.old conn.new (is_ok result) }
{
    fetch_all(
        alloc,
        conn,
        "SELECT no, sent_id, batch, rev, words FROM sentences ORDER BY no",
        &[],
    )
}

/// The moves, in the order in which they were made.
///
/// # Errors
///
/// `Form`, exactly where the rows are those of no such list; else `Store`.
pub fn moves<S: Alter>(alloc: Global, conn: &mut Connection<S>) -> Result<Vec<MoveRow>, ReadError>
    ensures ok { Reads S.Store conn.old conn.new result (λ v trees.
        Shows move_view (numbered move_shown 1 (map move_of v.items)) (trees 7)) }
    ensures form { HasNoForm S.Store conn.old conn.new result (λ trees. (xs : List Move) → All IsMove xs
        → ¬ Shows move_view (numbered move_shown 1 xs) (trees 7)) }
    ensures untouched { IsUnchangedOnForm S.Store conn.old conn.new result }
    ensures sees { SeesAsBefore S.Store conn.old conn.new }
    ensures fails { FailsOnlyAs IsReadFault S.Store conn.old conn.new result }
    ensures cause { IsFaultless S.Store conn.old conn.new → FailsOnlyAs IsReadWant S.Store conn.old conn.new result }
    ensures read_only { IsReadOnly S.Store conn.old conn.new (is_ok result) }
{
    fetch_all(
        alloc,
        conn,
        "SELECT no, kind, batch, sent, from_state, to_state, sentences, words_out, words_in, who FROM moves ORDER BY no",
        &[],
    )
}

/// The totals of each state, by its number.
///
/// # Errors
///
/// `Form`, exactly where the rows are those of no such list; else `Store`.
pub fn totals<S: Alter>(alloc: Global, conn: &mut Connection<S>) -> Result<Vec<TotalRow>, ReadError>
    ensures ok { Reads S.Store conn.old conn.new result (λ v trees.
        Shows total_view (numbered total_shown 1 (map total_of v.items)) (trees 8)) }
    ensures form { HasNoForm S.Store conn.old conn.new result (λ trees. (xs : List Total) → All IsTotal xs
        → ¬ Shows total_view (numbered total_shown 1 xs) (trees 8)) }
    ensures untouched { IsUnchangedOnForm S.Store conn.old conn.new result }
    ensures sees { SeesAsBefore S.Store conn.old conn.new }
    ensures fails { FailsOnlyAs IsReadFault S.Store conn.old conn.new result }
    ensures cause { IsFaultless S.Store conn.old conn.new → FailsOnlyAs IsReadWant S.Store conn.old conn.new result }
    ensures read_only { IsReadOnly S.Store conn.old conn.new (is_ok result) }
{
    fetch_all(
        alloc,
        conn,
        "SELECT state, sentences, words FROM totals ORDER BY state",
        &[],
    )
}

/// The revisions, by sentence and number.
///
/// One row is in memory at a time, beside the records, since the texts are most of a file.
///
/// # Errors
///
/// `Form`, exactly where the rows are those of no such list; else `Store`.
pub fn revisions<S: Alter>(
    alloc: Global,
    conn: &mut Connection<S>,
) -> Result<Vec<RevisionRow>, ReadError>
    ensures ok { Reads S.Store conn.old conn.new result (λ v trees.
        Shows revision_view (map revision_shown (map revision_of v.items)) (trees 5)) }
    ensures order { Reads S.Store conn.old conn.new result (λ v trees. (xs : List Revision) → All IsRevision xs
        → IsAscending ComesBefore xs → Shows revision_view (map revision_shown xs) (trees 5)
        → map revision_of v.items ≡ xs) }
    ensures form { HasNoForm S.Store conn.old conn.new result (λ trees. (xs : List Revision) → All IsRevision xs
        → IsAscending ComesBefore xs → ¬ Shows revision_view (map revision_shown xs) (trees 5)) }
    ensures untouched { IsUnchangedOnForm S.Store conn.old conn.new result }
    ensures sees { SeesAsBefore S.Store conn.old conn.new }
    ensures fails { FailsOnlyAs IsReadFault S.Store conn.old conn.new result }
    ensures cause { IsFaultless S.Store conn.old conn.new → FailsOnlyAs IsReadWant S.Store conn.old conn.new result }
    ensures read_only { IsReadOnly S.Store conn.old conn.new (is_ok result) }
{
    let mut found = Vec::new(alloc);
    let mut rows = conn.query(
        "SELECT sent, rev, who, body FROM revisions ORDER BY sent, rev",
        &[],
    )?;
    'rows: for _ in 0..u64::MAX {
        let Some(row) = rows.next()? else {
            return Ok(found);
        };
        found.push(RevisionRow::from_row(row, 0)?)?;
    }
    Err(ReadError::Store(Error::SqliteFailure(ErrorCode::OutOfMemory)))
}

/// The numbers of the pulled sentences, ascending.
///
/// # Errors
///
/// `Form`, exactly where the rows are those of no such list; else `Store`.
pub fn pulled<S: Alter>(alloc: Global, conn: &mut Connection<S>) -> Result<Vec<u32>, ReadError>
    ensures ok { Reads S.Store conn.old conn.new result (λ v trees. Shows number_view (map number_shown v.items)
        (trees 9)) }
    ensures order { Reads S.Store conn.old conn.new result (λ v trees. (xs : List ℕ)
        → IsAscending (λ a b. a < b) xs → Shows number_view (map number_shown xs) (trees 9) → v.items ≡ xs) }
    ensures form { HasNoForm S.Store conn.old conn.new result (λ trees. (xs : List ℕ) → All (λ n. n < 2 ^ 32) xs
        → IsAscending (λ a b. a < b) xs → ¬ Shows number_view (map number_shown xs) (trees 9)) }
    ensures untouched { IsUnchangedOnForm S.Store conn.old conn.new result }
    ensures sees { SeesAsBefore S.Store conn.old conn.new }
    ensures fails { FailsOnlyAs IsReadFault S.Store conn.old conn.new result }
    ensures cause { IsFaultless S.Store conn.old conn.new → FailsOnlyAs IsReadWant S.Store conn.old conn.new result }
    ensures read_only { IsReadOnly S.Store conn.old conn.new (is_ok result) }
{
    fetch_all(alloc, conn, "SELECT sent FROM pulled ORDER BY sent", &[])
}

/// The versions that the file names, ascending: in the file of a desk the number 2 alone.
///
/// # Errors
///
/// `Form`, exactly where the rows are those of no such list; else `Store`.
pub fn versions<S: Alter>(alloc: Global, conn: &mut Connection<S>) -> Result<Vec<u32>, ReadError>
    ensures ok { Reads S.Store conn.old conn.new result (λ v trees. Shows meta_view (map number_shown v.items)
        (trees 0)) }
    ensures order { Reads S.Store conn.old conn.new result (λ v trees. (xs : List ℕ)
        → IsAscending (λ a b. a < b) xs → Shows meta_view (map number_shown xs) (trees 0) → v.items ≡ xs) }
    ensures form { HasNoForm S.Store conn.old conn.new result (λ trees. (xs : List ℕ) → All (λ n. n < 2 ^ 32) xs
        → IsAscending (λ a b. a < b) xs → ¬ Shows meta_view (map number_shown xs) (trees 0)) }
    ensures untouched { IsUnchangedOnForm S.Store conn.old conn.new result }
    ensures sees { SeesAsBefore S.Store conn.old conn.new }
    ensures fails { FailsOnlyAs IsReadFault S.Store conn.old conn.new result }
    ensures cause { IsFaultless S.Store conn.old conn.new → FailsOnlyAs IsReadWant S.Store conn.old conn.new result }
    ensures read_only { IsReadOnly S.Store conn.old conn.new (is_ok result) }
{
    fetch_all(
        alloc,
        conn,
        "SELECT version FROM meta ORDER BY version",
        &[],
    )
}
