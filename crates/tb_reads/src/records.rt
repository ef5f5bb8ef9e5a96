//! Rows as records, and which rows are no records.

ghost use Rattle.std.specs.Prelude.{ℕ, ◌≡◌, ◌≢◌, ◌+◌, ◌<◌, ◌^◌, length, map, pos, List, All, ◌↔◌, ⊤, Some, slice_get};
ghost use Rattle.std.specs.Prelude.{[], Err, IfOk, IsOk, IsTrue, cond, string_bytes, IfErr};
ghost use Rattle.tb_reads.specs.Prelude.{Batch, batch_of, batch_shown, column, Int, Move, move_of, move_shown};
ghost use Rattle.tb_reads.specs.Prelude.{numbered, OutOfMemory, Revision, revision_of, revision_shown, Sentence};
ghost use Rattle.tb_reads.specs.Prelude.{sentence_of, sentence_shown, Text, Total, total_of, total_shown};
ghost use Rattle.tb_reads.specs.Readable.{IsBatch, IsSentence, IsRevision, IsMove, IsTotal, ShowsText};
ghost use Rattle.tb_reads.specs.Found.{HasUnreadable, ShowsFirst};
ghost use Rattle.tb_reads.specs.Failing.{IsReadFault, IsReadWant, IsUnread};

use crate::error::ReadError;
use crate::stream::CurrentRev;
use crate::texts::ColumnText;
use crate::work::BatchSentence;
use sqlite::types::ValueRef;
use sqlite::{Error, ErrorCode, Row};
use std::alloc::Global;
use tb_tables::{BatchRow, MoveRow, RevisionRow, SentenceRow, TotalRow};

/// A record that a row shows.
pub(crate) trait FromRow: Sized + Drop {
    ghost use Rattle.std.specs.Prelude.{ℕ, ◌≡◌, ◌≢◌, Err, IfOk, IfErr};
    ghost use Rattle.sqlite.specs.Order.{Row as Columns};
    ghost use Rattle.tb_reads.specs.Failing.{IsReadFault, IsReadWant};

    // the record as plain data
    ghost Plain: { Type 0 };

    ghost plain: { Self → Plain };

    // what the row shows of it; where the table numbers its records, the row has this number
    ghost shown: { ℕ → Plain → Columns };

    // the columns can be read back
    ghost Fits: { Plain → Type 0 };

    // it has texts, which take memory
    ghost HasTexts: { Type 0 };

    /// The record of a row that has this number.
    fn from_row(row: &Row, number: u64) -> Result<Self, ReadError>
        ensures ok { IfOk result (λ x. row.now ≡ shown number (plain x)) }
        ensures form { result ≡ Err ReadError.Form → (x : Plain) → Fits x → row.now ≢ shown number x }
        ensures want { IfErr result (λ e. e ≢ ReadError.Form
            → HasTexts × (x : Plain) × Fits x × (row.now ≡ shown number x)) }
        ensures fails { IfErr result IsReadFault }
        ensures cause { IfErr result IsReadWant };
}

/// The records of these rows, which are numbered from 1. `Form` comes exactly where the rows are those of no such
/// list.
pub(crate) fn all_in<T: FromRow>(alloc: Global, rows: &[Row]) -> Result<Vec<T>, ReadError>
    ensures ok { IfOk result (λ v. rows.now ≡ numbered T.shown 1 (map T.plain v.items)) }
    ensures form { result ≡ Err ReadError.Form → (xs : List T.Plain) → All T.Fits xs
        → rows.now ≢ numbered T.shown 1 xs }
    ensures want { IfErr result (λ e. e ≢ ReadError.Form
        → (x : T.Plain) × (slice_get rows.now 0 ≡ Some (T.shown 1 x))) }
    ensures sure { rows.now ≡ [] → IsOk result }
    ensures fails { IfErr result IsReadFault }
    ensures cause { IfErr result IsReadWant }
{
    let mut found = Vec::new(alloc);
    let mut number = 0u64;
    for row in rows {
        number += 1;
        found.push(T::from_row(row, number)?)?;
    }
    Ok(found)
}

/// The record in the first row, if there is a row.
pub(crate) fn first_in<T: FromRow>(rows: &[Row], number: u64) -> Result<Option<T>, ReadError>
    ensures first { IfOk result (ShowsFirst (λ x. T.shown number (T.plain x)) rows.now) }
    ensures form { result ≡ Err ReadError.Form → HasUnreadable T.Fits (T.shown number) rows.now }
    ensures want { IfErr result (λ e. e ≢ ReadError.Form
        → T.HasTexts × (x : T.Plain) × T.Fits x × (slice_get rows.now 0 ≡ Some (T.shown number x))) }
    ensures fails { IfErr result IsReadFault }
    ensures cause { IfErr result IsReadWant }
{
    match rows.first() {
        Some(row) => Ok(Some(T::from_row(row, number)?)),
        None => Ok(None),
    }
}

/// The number in a column. This needs no memory.
pub(crate) fn number_at(row: &Row, at: usize) -> Result<u32, ReadError>
    requires { at < length row.now }
    ensures ok { IfOk result (λ n. column row.now at ≡ Int (pos n)) }
    ensures form { result ≡ Err ReadError.Form → (n : ℕ) → n < 2 ^ 32 → column row.now at ≢ Int (pos n) }
    ensures fault { IfErr result (λ e. e ≡ ReadError.Form) }
{
    match row.get_ref(at) {
        Ok(ValueRef::Int(n)) => match u32::try_from(n) {
            Ok(n) => Ok(n),
            Err(_) => Err(ReadError::Form),
        },
        _ => Err(ReadError::Form),
    }
}

/// The number of the row itself, which is its first column. This needs no memory.
fn key_at(row: &Row) -> Result<u64, ReadError>
    requires { 0 < length row.now }
    ensures ok { IfOk result (λ n. column row.now 0 ≡ Int (pos n)) }
    ensures form { result ≡ Err ReadError.Form → (n : ℕ) → column row.now 0 ≢ Int (pos n) }
    ensures fault { IfErr result (λ e. e ≡ ReadError.Form) }
{
    match row.get_ref(0) {
        Ok(ValueRef::Int(n)) => match u64::try_from(n) {
            Ok(n) => Ok(n),
            Err(_) => Err(ReadError::Form),
        },
        _ => Err(ReadError::Form),
    }
}

/// Whether a column is a text in UTF-8.
fn is_text(row: &Row, at: usize) -> bool
    requires { at < length row.now }
    ensures { IsTrue result ↔ ShowsText (column row.now at) }
{
    match row.get_ref(at) {
        Ok(ValueRef::Text(bytes)) => str::from_utf8(bytes).is_ok(),
        _ => false,
    }
}

/// Why columns were not copied as texts: memory was wanting if they are texts, else they are no record's.
fn unread(are_texts: bool) -> ReadError
    ensures value { result ≡ cond are_texts (ReadError.Store (Error.SqliteFailure OutOfMemory)) ReadError.Form }
{
    if are_texts {
        ReadError::Store(Error::SqliteFailure(ErrorCode::OutOfMemory))
    } else {
        ReadError::Form
    }
}

/// The text in a column.
fn text_at(row: &Row, at: usize) -> Result<String, ReadError>
    requires { at < length row.now }
    ensures ok { IfOk result (λ s. column row.now at ≡ Text (string_bytes s)) }
    ensures fault { IfErr result (IsUnread (ShowsText (column row.now at))) }
{
    match row.get::<ColumnText>(at) {
        Ok(column) => Ok(column.text),
        Err(_) => Err(unread(is_text(row, at))),
    }
}

/// The texts in two columns.
fn texts_at(row: &Row, first: usize, second: usize) -> Result<(String, String), ReadError>
    requires first { first < length row.now }
    requires second { second < length row.now }
    ensures ok { IfOk result (λ p. (column row.now first ≡ Text (string_bytes p.0))
        × (column row.now second ≡ Text (string_bytes p.1))) }
    ensures fault { IfErr result (IsUnread (ShowsText (column row.now first) × ShowsText (column row.now second))) }
{
    let Ok(text) = row.get::<ColumnText>(first) else {
        return Err(unread(is_text(row, first) && is_text(row, second)));
    };
    let Ok(next) = row.get::<ColumnText>(second) else {
        return Err(unread(is_text(row, first) && is_text(row, second)));
    };
    Ok((text.text, next.text))
}

impl FromRow for BatchRow {
    ghost use Rattle.tb_tables.specs.Records.{Batch, batch_shown};
    ghost use Rattle.tb_tables.specs.Values.{batch_of};
    ghost use Rattle.tb_reads.specs.Readable.{IsBatch};

    ghost Plain = { Batch };

    ghost plain = { batch_of };

    ghost shown = { batch_shown };

    ghost Fits = { IsBatch };

    ghost HasTexts = { ⊤ };

    fn from_row(row: &Row, number: u64) -> Result<BatchRow, ReadError> {
        if row.column_count() != 4 {
            return Err(ReadError::Form);
        }
        if key_at(row)? != number {
            return Err(ReadError::Form);
        }
        let state = number_at(row, 2)?;
        let (name, worker) = texts_at(row, 1, 3)?;
        Ok(BatchRow {
            name,
            state,
            worker,
        })
    }
}

impl FromRow for SentenceRow {
    ghost use Rattle.tb_tables.specs.Records.{Sentence, sentence_shown};
    ghost use Rattle.tb_tables.specs.Values.{sentence_of};
    ghost use Rattle.tb_reads.specs.Readable.{IsSentence};

    ghost Plain = { Sentence };

    ghost plain = { sentence_of };

    ghost shown = { sentence_shown };

    ghost Fits = { IsSentence };

    ghost HasTexts = { ⊤ };

    fn from_row(row: &Row, number: u64) -> Result<SentenceRow, ReadError> {
        if row.column_count() != 5 {
            return Err(ReadError::Form);
        }
        if key_at(row)? != number {
            return Err(ReadError::Form);
        }
        let batch = number_at(row, 2)?;
        let rev = number_at(row, 3)?;
        let words = number_at(row, 4)?;
        let sent_id = text_at(row, 1)?;
        Ok(SentenceRow {
            sent_id,
            batch,
            rev,
            words,
        })
    }
}

impl FromRow for MoveRow {
    ghost use Rattle.tb_tables.specs.Records.{Move, move_shown};
    ghost use Rattle.tb_tables.specs.Values.{move_of};
    ghost use Rattle.tb_reads.specs.Readable.{IsMove};

    ghost Plain = { Move };

    ghost plain = { move_of };

    ghost shown = { move_shown };

    ghost Fits = { IsMove };

    ghost HasTexts = { ⊤ };

    fn from_row(row: &Row, number: u64) -> Result<MoveRow, ReadError> {
        if row.column_count() != 10 {
            return Err(ReadError::Form);
        }
        if key_at(row)? != number {
            return Err(ReadError::Form);
        }
        let kind = number_at(row, 1)?;
        let batch = number_at(row, 2)?;
        let sent = number_at(row, 3)?;
        let from = number_at(row, 4)?;
        let to = number_at(row, 5)?;
        let sentences = number_at(row, 6)?;
        let words_out = number_at(row, 7)?;
        let words_in = number_at(row, 8)?;
        let who = text_at(row, 9)?;
        Ok(MoveRow {
            kind,
            batch,
            sent,
            from,
            to,
            sentences,
            words_out,
            words_in,
            who,
        })
    }
}

impl FromRow for TotalRow {
    ghost use Rattle.tb_tables.specs.Records.{Total, total_shown};
    ghost use Rattle.tb_tables.specs.Values.{total_of};
    ghost use Rattle.tb_reads.specs.Readable.{IsTotal};

    ghost Plain = { Total };

    ghost plain = { total_of };

    ghost shown = { total_shown };

    ghost Fits = { IsTotal };

    ghost HasTexts = { ⊥ };

    fn from_row(row: &Row, number: u64) -> Result<TotalRow, ReadError> {
        if row.column_count() != 3 {
            return Err(ReadError::Form);
        }
        if key_at(row)? != number {
            return Err(ReadError::Form);
        }
        let sentences = number_at(row, 1)?;
        let words = number_at(row, 2)?;
        Ok(TotalRow { sentences, words })
    }
}

impl FromRow for RevisionRow {
    ghost use Rattle.tb_tables.specs.Records.{Revision, revision_shown};
    ghost use Rattle.tb_tables.specs.Values.{revision_of};
    ghost use Rattle.tb_reads.specs.Readable.{IsRevision};

    ghost Plain = { Revision };

    ghost plain = { revision_of };

    ghost shown = { λ _. revision_shown };

    ghost Fits = { IsRevision };

    ghost HasTexts = { ⊤ };

    fn from_row(row: &Row, _number: u64) -> Result<RevisionRow, ReadError> {
        if row.column_count() != 4 {
            return Err(ReadError::Form);
        }
        let sent = number_at(row, 0)?;
        let rev = number_at(row, 1)?;
        let (who, body) = texts_at(row, 2, 3)?;
        Ok(RevisionRow {
            sent,
            rev,
            who,
            body,
        })
    }
}

impl FromRow for u32 {
    ghost use Rattle.std.specs.Prelude.{ℕ, ◌<◌, ◌^◌};
    ghost use Rattle.tb_tables.specs.Records.{number_shown};

    ghost Plain = { ℕ };

    ghost plain = { λ n. n };

    ghost shown = { λ _. number_shown };

    ghost Fits = { λ n. n < 2 ^ 32 };

    ghost HasTexts = { ⊥ };

    fn from_row(row: &Row, _number: u64) -> Result<u32, ReadError> {
        if row.column_count() != 1 {
            return Err(ReadError::Form);
        }
        number_at(row, 0)
    }
}

impl FromRow for BatchSentence {
    ghost use Rattle.tb_reads.specs.declared.work.BatchSentence.{BatchSentence};
    ghost use Rattle.tb_reads.specs.Found.{work_shown};
    ghost use Rattle.tb_reads.specs.Readable.{IsWork};

    ghost Plain = { BatchSentence };

    ghost plain = { λ x. x };

    ghost shown = { λ _. work_shown };

    ghost Fits = { IsWork };

    ghost HasTexts = { ⊥ };

    fn from_row(row: &Row, _number: u64) -> Result<BatchSentence, ReadError> {
        if row.column_count() != 3 {
            return Err(ReadError::Form);
        }
        let number = number_at(row, 0)?;
        let rev = number_at(row, 1)?;
        let words = number_at(row, 2)?;
        Ok(BatchSentence { number, rev, words })
    }
}

impl FromRow for CurrentRev {
    ghost use Rattle.tb_reads.specs.declared.stream.CurrentRev.{CurrentRev};
    ghost use Rattle.tb_reads.specs.Readable.{IsHead};
    ghost use Rattle.tb_reads.specs.Streams.{head_shown};

    ghost Plain = { CurrentRev };

    ghost plain = { λ x. x };

    ghost shown = { λ _. head_shown };

    ghost Fits = { IsHead };

    ghost HasTexts = { ⊥ };

    fn from_row(row: &Row, _number: u64) -> Result<CurrentRev, ReadError> {
        if row.column_count() != 2 {
            return Err(ReadError::Form);
        }
        let batch = number_at(row, 0)?;
        let rev = number_at(row, 1)?;
        Ok(CurrentRev { batch, rev })
    }
}

/// The batches of rows of four columns, as `batches` selects them, numbered from 1.
///
/// # Errors
///
/// `Form`, exactly where the rows are those of no such list; else `Store`.
pub fn batches_in(alloc: Global, rows: &[Row]) -> Result<Vec<BatchRow>, ReadError>
    ensures ok { IfOk result (λ v. rows.now ≡ numbered batch_shown 1 (map batch_of v.items)) }
    ensures form { result ≡ Err ReadError.Form → (xs : List Batch) → All IsBatch xs
        → rows.now ≢ numbered batch_shown 1 xs }
    ensures sure { rows.now ≡ [] → IsOk result }
    ensures fails { IfErr result IsReadFault }
    ensures cause { IfErr result IsReadWant }
{
    all_in(alloc, rows)
}

/// The sentences of such rows of five columns.
///
/// # Errors
///
/// `Form`, exactly where the rows are those of no list of sentences; else `Store`.
pub fn sentences_in(alloc: Global, rows: &[Row]) -> Result<Vec<SentenceRow>, ReadError>
    ensures ok { IfOk result (λ v. rows.now ≡ numbered sentence_shown 1 (map sentence_of v.items)) }
    ensures form { result ≡ Err ReadError.Form → (xs : List Sentence) → All IsSentence xs
        → rows.now ≢ numbered sentence_shown 1 xs }
    ensures sure { rows.now ≡ [] → IsOk result }
    ensures fails { IfErr result IsReadFault }
    ensures cause { IfErr result IsReadWant }
{
    all_in(alloc, rows)
}

/// The moves of such rows of ten columns.
///
/// # Errors
///
/// `Form`, exactly where the rows are those of no list of moves; else `Store`.
pub fn moves_in(alloc: Global, rows: &[Row]) -> Result<Vec<MoveRow>, ReadError>
    ensures ok { IfOk result (λ v. rows.now ≡ numbered move_shown 1 (map move_of v.items)) }
    ensures form { result ≡ Err ReadError.Form → (xs : List Move) → All IsMove xs
        → rows.now ≢ numbered move_shown 1 xs }
    ensures sure { rows.now ≡ [] → IsOk result }
    ensures fails { IfErr result IsReadFault }
    ensures cause { IfErr result IsReadWant }
{
    all_in(alloc, rows)
}

/// The totals of such rows of three columns.
///
/// # Errors
///
/// `Form`, exactly where the rows are those of no list of totals; else `Store`.
pub fn totals_in(alloc: Global, rows: &[Row]) -> Result<Vec<TotalRow>, ReadError>
    ensures ok { IfOk result (λ v. rows.now ≡ numbered total_shown 1 (map total_of v.items)) }
    ensures form { result ≡ Err ReadError.Form → (xs : List Total) → All IsTotal xs
        → rows.now ≢ numbered total_shown 1 xs }
    ensures sure { rows.now ≡ [] → IsOk result }
    ensures fails { IfErr result IsReadFault }
    ensures cause { IfErr result IsReadWant }
{
    all_in(alloc, rows)
}

/// The revisions of rows of four columns.
///
/// # Errors
///
/// `Form`, exactly where the rows are those of no list of revisions; else `Store`.
pub fn revisions_in(alloc: Global, rows: &[Row]) -> Result<Vec<RevisionRow>, ReadError>
    ensures ok { IfOk result (λ v. rows.now ≡ map revision_shown (map revision_of v.items)) }
    ensures form { result ≡ Err ReadError.Form → (xs : List Revision) → All IsRevision xs
        → rows.now ≢ map revision_shown xs }
    ensures sure { rows.now ≡ [] → IsOk result }
    ensures fails { IfErr result IsReadFault }
    ensures cause { IfErr result IsReadWant }
{
    all_in(alloc, rows)
}
