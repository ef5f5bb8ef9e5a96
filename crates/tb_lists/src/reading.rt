//! Lists, read from the tables of a desk. Contracts state them as facts of the state that the tables represent. No
//! read changes that state, also after an error.

ghost use Rattle.std.specs.Prelude.{◌≡◌, ◌≢◌, ◌-◌, ◌<◌, ◌≤◌, ◌^◌, Err, IfErr, IfOk, IsOk, List, Some, length, map};
ghost use Rattle.std.specs.Prelude.{slice_get};
ghost use Rattle.tb_lists.specs.Prelude.{AnyRefusal, batch_of, batch_record, IsNoDevice, IsRead, IsReadWhere};
ghost use Rattle.tb_lists.specs.Prelude.{pulled_from, rev, Sentence, sentence_of, sentence_record, Tells};
ghost use Rattle.tb_lists.specs.Batches.{batch_lines};
ghost use Rattle.tb_lists.specs.Counted.{AreCounts};
ghost use Rattle.tb_lists.specs.Revisions.{revision_lines};
ghost use Rattle.tb_lists.specs.Sentences.{sentence_lines};

use crate::batches::{BatchLine, lines_of};
use crate::counting::{Count, count_rows};
use crate::current::read_lines;
use crate::revisions::{RevisionLine, lines_by};
use crate::sentences::SentenceLine;
use sqlite::{Alter, Connection};
use std::alloc::Global;
use tb_core::Fault;
use tb_refine::{
    all_moves, desk_rows_are_readable, faults, one_list_for_the_rows, read_pulled, sentence_row,
};
use tb_tables::{BatchRow, SentenceRow};

/// All rows of a table.
macro_rules! read_all {
    ($rows:ident, $alloc:ident, $conn:ident) => {{
        desk_rows_are_readable();
        one_list_for_the_rows();
        faults::reported(tb_reads::$rows($alloc, $conn))
    }};
}

/// The rows of all batches, by number.
fn read_batches<S: Alter>(alloc: Global, conn: &mut Connection<S>) -> Result<Vec<BatchRow>, Fault>
    ensures answered { Tells S.Store conn.old conn.new result (λ s v.
        map batch_of v.items ≡ map batch_record s.batches) }
    ensures read { IsRead S.Store conn.old conn.new result }
{
    read_all!(batches, alloc, conn)
}

/// The rows of all sentences, by number.
fn read_sentences<S: Alter>(
    alloc: Global,
    conn: &mut Connection<S>,
) -> Result<Vec<SentenceRow>, Fault>
    ensures answered { Tells S.Store conn.old conn.new result (λ s v.
        map sentence_of v.items ≡ map sentence_record s.sentences) }
    ensures read { IsRead S.Store conn.old conn.new result }
{
    read_all!(sentences, alloc, conn)
}

/// The counts of so many batches, from rows that were read.
fn counts_of(
    alloc: Global,
    batches: usize,
    rows: &[SentenceRow],
    pulled: &[u32],
) -> Result<Vec<Count>, Fault>
    ensures answered { IfOk result (λ v. (xs : List Sentence) → map sentence_of rows.now ≡ map sentence_record xs
        → pulled.now ≡ pulled_from 1 xs → AreCounts batches xs v.items) }
    ensures never_refuses { (r : AnyRefusal) → result ≢ Err (Fault.Refused r) }
    ensures output { result ≢ Err Fault.Output }
    ensures fails { result ≡ Err Fault.NotADesk → length rows.now < 2 ^ 32 → ⊥ }
    ensures cause { IfErr result IsNoDevice }
    ensures many { 2 ^ 32 ≤ length rows.now → result ≡ Err Fault.NotADesk }
    ensures sure { batches ≡ 0 → length rows.now < 2 ^ 32 → IsOk result }
{
    if rows.len() > u32::MAX as usize {
        return Err(Fault::NotADesk);
    }
    count_rows(alloc, batches, rows, pulled)
}

/// The counts of so many batches, by number.
fn read_counts<S: Alter>(
    alloc: Global,
    conn: &mut Connection<S>,
    batches: usize,
) -> Result<Vec<Count>, Fault>
    ensures answered { Tells S.Store conn.old conn.new result (λ s v. AreCounts batches s.sentences v.items) }
    ensures read { IsRead S.Store conn.old conn.new result }
{
    let rows = read_sentences(alloc, conn)?;
    let pulled = read_pulled(alloc, conn)?;
    counts_of(alloc, batches, rows.as_slice(), pulled.as_slice())
}

/// The batches of a desk, by number, each with its state, its worker and its counts. Nothing is refused.
///
/// # Errors
///
/// `NotADesk`, with no limit on steps only where the store is no desk; want of memory; or a fault of the device.
pub fn list_batches<S: Alter>(
    alloc: Global,
    conn: &mut Connection<S>,
) -> Result<Vec<BatchLine>, Fault>
    ensures answered { Tells S.Store conn.old conn.new result (λ s v. v.items ≡ batch_lines s) }
    ensures read { IsRead S.Store conn.old conn.new result }
{
    let batches = read_batches(alloc, conn)?;
    let counts = read_counts(alloc, conn, batches.len())?;
    lines_of(alloc, batches.as_slice(), counts.as_slice())
}

/// The revisions of the sentence with this number, which exists, each with the move that made it. No text of a revision is
/// read: the user who wrote a revision is the one who made its move. Nothing is refused.
///
/// # Errors
///
/// `NotADesk`, with no limit on steps only where the store is no desk; want of memory; or a fault of the device.
pub fn list_revisions<S: Alter>(
    alloc: Global,
    conn: &mut Connection<S>,
    number: u32,
) -> Result<Vec<RevisionLine>, Fault>
    requires { 0 < number }
    ensures answered { Tells S.Store conn.old conn.new result (λ s v. (x : Sentence)
        → slice_get s.sentences (number - 1) ≡ Some x
        → (v.items ≡ revision_lines s number x) × (length v.items ≡ rev x)) }
    ensures read { IsReadWhere S.Store conn.old conn.new result (λ s so. (x : Sentence)
        → slice_get s.sentences (number - 1) ≡ Some x → so) }
{
    let row = sentence_row(conn, number)?;
    let steps = all_moves(alloc, conn)?;
    lines_by(
        alloc,
        steps.as_slice(),
        u64::from(number),
        u64::from(row.batch),
    )
}

/// The sentences of the batch with this number, among the rows of all sentences.
fn sentences_of<S: Alter>(
    alloc: Global,
    conn: &mut Connection<S>,
    rows: &[SentenceRow],
    batch: u32,
) -> Result<Vec<SentenceLine>, Fault>
    ensures answered { Tells S.Store conn.old conn.new result (λ s v.
        map sentence_of rows.now ≡ map sentence_record s.sentences → v.items ≡ sentence_lines s batch) }
    ensures read { IsReadWhere S.Store conn.old conn.new result (λ s so.
        map sentence_of rows.now ≡ map sentence_record s.sentences → so) }
    ensures many { 2 ^ 32 ≤ length rows.now → result ≡ Err Fault.NotADesk }
{
    if rows.len() > u32::MAX as usize {
        Err(Fault::NotADesk)
    } else {
        read_lines(alloc, conn, rows, batch)
    }
}

/// The sentences of the batch with this number, pulled ones too, by number. Nothing is refused: a number that no batch has
/// gives none. The rows of all sentences are in memory once, beside the list, and one revision at a time.
///
/// # Errors
///
/// `NotADesk`, with no limit on steps only where the store is no desk; want of memory; or a fault of the device.
pub fn list_sentences<S: Alter>(
    alloc: Global,
    conn: &mut Connection<S>,
    batch: u32,
) -> Result<Vec<SentenceLine>, Fault>
    ensures answered { Tells S.Store conn.old conn.new result (λ s v. v.items ≡ sentence_lines s batch) }
    ensures read { IsRead S.Store conn.old conn.new result }
{
    let rows = read_sentences(alloc, conn)?;
    sentences_of(alloc, conn, rows.as_slice(), batch)
}
