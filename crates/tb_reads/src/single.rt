//! Single records, by their number or their name.

ghost use Rattle.std.specs.Prelude.{ℕ, ◌≡◌, ◌<◌, ◌^◌, ◌-◌, ◌↔◌, map, length, is_ok, IsTrue, List, Contains, All, Err};
ghost use Rattle.std.specs.Prelude.{option_map, slice_get};
ghost use Rattle.tb_reads.specs.Prelude.{Batch, batch_of, batch_shown, batch_view, FailsOnlyAs, IsFaultless};
ghost use Rattle.tb_reads.specs.Prelude.{number_shown, number_view, numbered, Reads, Revision, revision_of};
ghost use Rattle.tb_reads.specs.Prelude.{revision_shown, revision_view, Sentence, sentence_of, sentence_shown};
ghost use Rattle.tb_reads.specs.Prelude.{sentence_view, Shows};
ghost use Rattle.tb_reads.specs.Readable.{IsBatch, IsSentence, IsRevision};
ghost use Rattle.tb_reads.specs.Found.{IsNumberOf, IsRevisionAt};
ghost use Rattle.tb_reads.specs.Failing.{HasNoForm, IsReadFault, IsReadWant};
ghost use Rattle.tb_reads.specs.ReadOnly.{IsReadOnly};

use crate::error::ReadError;
use crate::fetch::{fetch_first, fetch_rows};
use sqlite::{Alter, Connection, params};
use tb_tables::{BatchRow, RevisionRow, SentenceRow};

/// The batch that has this number, if there is one.
///
/// # Errors
///
/// `Form`, only where the rows of the table are those of no list of batches; else `Store`.
pub fn batch<S: Alter>(conn: &mut Connection<S>, number: u32) -> Result<Option<BatchRow>, ReadError>
    requires row { 0 < number }
    ensures ok { Reads S.Store conn.old conn.new result (λ found trees. (xs : List Batch)
        → Shows batch_view (numbered batch_shown 1 xs) (trees 1)
        → option_map batch_of found ≡ slice_get xs (number - 1)) }
    ensures form { HasNoForm S.Store conn.old conn.new result (λ trees. (xs : List Batch) → All IsBatch xs
        → ¬ Shows batch_view (numbered batch_shown 1 xs) (trees 1)) }
    ensures fails { FailsOnlyAs IsReadFault S.Store conn.old conn.new result }
    ensures cause { IsFaultless S.Store conn.old conn.new → FailsOnlyAs IsReadWant S.Store conn.old conn.new result }
    ensures read_only { IsReadOnly S.Store conn.old conn.new (is_ok result) }
{
    fetch_first(
        conn,
        "SELECT no, name, state, worker FROM batches WHERE no = ?1",
        params![number],
        u64::from(number),
    )
}

/// The sentence that has this number, if there is one.
///
/// # Errors
///
/// `Form`, only where the rows of the table are those of no list of sentences; else `Store`.
pub fn sentence<S: Alter>(
    conn: &mut Connection<S>,
    number: u32,
) -> Result<Option<SentenceRow>, ReadError>
    requires row { 0 < number }
    ensures ok { Reads S.Store conn.old conn.new result (λ found trees. (xs : List Sentence)
        → Shows sentence_view (numbered sentence_shown 1 xs) (trees 3)
        → option_map sentence_of found ≡ slice_get xs (number - 1)) }
    ensures form { HasNoForm S.Store conn.old conn.new result (λ trees. (xs : List Sentence) → All IsSentence xs
        → ¬ Shows sentence_view (numbered sentence_shown 1 xs) (trees 3)) }
    ensures fails { FailsOnlyAs IsReadFault S.Store conn.old conn.new result }
    ensures cause { IsFaultless S.Store conn.old conn.new → FailsOnlyAs IsReadWant S.Store conn.old conn.new result }
    ensures read_only { IsReadOnly S.Store conn.old conn.new (is_ok result) }
{
    fetch_first(
        conn,
        "SELECT no, sent_id, batch, rev, words FROM sentences WHERE no = ?1",
        params![number],
        u64::from(number),
    )
}

/// The number of a batch with this name, if there is one.
///
/// # Errors
///
/// `Form`, only where the rows of the table are those of no list of fewer than 2^32 batches; else `Store`.
pub fn batch_named<S: Alter>(conn: &mut Connection<S>, name: &str) -> Result<Option<u32>, ReadError>
    ensures ok { Reads S.Store conn.old conn.new result (λ found trees. (xs : List Batch)
        → Shows batch_view (numbered batch_shown 1 xs) (trees 1) → IsNumberOf (λ x. x.name) name.now xs found) }
    ensures form { HasNoForm S.Store conn.old conn.new result (λ trees. (xs : List Batch) → length xs < 2 ^ 32
        → ¬ Shows batch_view (numbered batch_shown 1 xs) (trees 1)) }
    ensures fails { FailsOnlyAs IsReadFault S.Store conn.old conn.new result }
    ensures cause { IsFaultless S.Store conn.old conn.new → FailsOnlyAs IsReadWant S.Store conn.old conn.new result }
    ensures read_only { IsReadOnly S.Store conn.old conn.new (is_ok result) }
{
    fetch_first(
        conn,
        "SELECT no FROM batches WHERE name = ?1",
        params![name],
        0,
    )
}

/// The number of a sentence with this `sent_id`, if there is one.
///
/// # Errors
///
/// `Form`, only where the rows of the table are those of no list of fewer than 2^32 sentences; else `Store`.
pub fn sentence_named<S: Alter>(
    conn: &mut Connection<S>,
    sent_id: &str,
) -> Result<Option<u32>, ReadError>
    ensures ok { Reads S.Store conn.old conn.new result (λ found trees. (xs : List Sentence)
        → Shows sentence_view (numbered sentence_shown 1 xs) (trees 3)
        → IsNumberOf (λ x. x.sent_id) sent_id.now xs found) }
    ensures form { HasNoForm S.Store conn.old conn.new result (λ trees. (xs : List Sentence) → length xs < 2 ^ 32
        → ¬ Shows sentence_view (numbered sentence_shown 1 xs) (trees 3)) }
    ensures fails { FailsOnlyAs IsReadFault S.Store conn.old conn.new result }
    ensures cause { IsFaultless S.Store conn.old conn.new → FailsOnlyAs IsReadWant S.Store conn.old conn.new result }
    ensures read_only { IsReadOnly S.Store conn.old conn.new (is_ok result) }
{
    fetch_first(
        conn,
        "SELECT no FROM sentences WHERE sent_id = ?1",
        params![sent_id],
        0,
    )
}

/// The revision of a sentence that has this number, if there is one.
///
/// # Errors
///
/// `Form`, only where the rows of the table are those of no list of revisions; else `Store`.
pub fn revision<S: Alter>(
    conn: &mut Connection<S>,
    sent: u32,
    rev: u32,
) -> Result<Option<RevisionRow>, ReadError>
    ensures ok { Reads S.Store conn.old conn.new result (λ found trees. (xs : List Revision)
        → Shows revision_view (map revision_shown xs) (trees 5)
        → IsRevisionAt sent rev xs (option_map revision_of found)) }
    ensures form { HasNoForm S.Store conn.old conn.new result (λ trees. (xs : List Revision) → All IsRevision xs
        → ¬ Shows revision_view (map revision_shown xs) (trees 5)) }
    ensures fails { FailsOnlyAs IsReadFault S.Store conn.old conn.new result }
    ensures cause { IsFaultless S.Store conn.old conn.new → FailsOnlyAs IsReadWant S.Store conn.old conn.new result }
    ensures read_only { IsReadOnly S.Store conn.old conn.new (is_ok result) }
{
    fetch_first(
        conn,
        "SELECT sent, rev, who, body FROM revisions WHERE sent = ?1 AND rev = ?2",
        params![sent, rev],
        0,
    )
}

/// Whether the sentence with this number is pulled.
///
/// # Errors
///
/// `Store`; `Form` never comes.
pub fn is_pulled<S: Alter>(conn: &mut Connection<S>, sent: u32) -> Result<bool, ReadError>
    ensures ok { Reads S.Store conn.old conn.new result (λ found trees. (xs : List ℕ)
        → Shows number_view (map number_shown xs) (trees 9) → (IsTrue found ↔ Contains xs sent)) }
    ensures form { ¬ (result ≡ Err ReadError.Form) }
    ensures fails { FailsOnlyAs IsReadFault S.Store conn.old conn.new result }
    ensures cause { IsFaultless S.Store conn.old conn.new → FailsOnlyAs IsReadWant S.Store conn.old conn.new result }
    ensures read_only { IsReadOnly S.Store conn.old conn.new (is_ok result) }
{
    let rows = fetch_rows(
        conn,
        "SELECT sent FROM pulled WHERE sent = ?1",
        params![sent],
    )?;
    Ok(!rows.is_empty())
}
