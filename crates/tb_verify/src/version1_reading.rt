//! The rows of the six tables of version 1, read one table after another. No read changes anything, also after an
//! error.

ghost use Rattle.std.specs.Prelude.{◌≡◌, ◌≢◌, ℤ, false, pos, [], ◌∷◌, map, IfErr, IsTrue, OnOk};
ghost use Rattle.tb_verify.specs.Prelude.{batch_of, batch_shown, batch_view, move_of, move_shown, move_view, numbered};
ghost use Rattle.tb_verify.specs.Prelude.{sentence_of, sentence_shown, sentence_view, Shows, total_of, total_shown};
ghost use Rattle.tb_verify.specs.Prelude.{total_view};
ghost use Rattle.sqlite.specs.declared.types.Value.TheVariants.{Int};
ghost use Rattle.tb_verify.specs.Version1.{TellsFirst};
ghost use Rattle.tb_verify.specs.Version1Reads.{HasReadVersion1, AreTheRevisions, AreTheRows};

use crate::faults::{answered, reported};
use crate::summary::TableRows;
use sqlite::types::ValueRef;
use sqlite::{Alter, Connection, Row};
use std::alloc::Global;
use tb_core::Fault;
use tb_reads::{batches_in, moves_in, revisions_in, sentences_in, totals_in};
use tb_refine::{desk_rows_are_readable, one_list_for_the_rows};
use tb_tables::{BatchRow, MoveRow, RevisionRow, SentenceRow, TotalRow};

/// Whether a row has two integers, the second 1.
fn is_first(row: &Row) -> bool
    ensures tells { IsTrue result → (n : ℤ) × (row.now ≡ Int n ∷ Int (pos 1) ∷ []) }
    ensures differs { result ≡ false → (n : ℤ) → row.now ≢ Int n ∷ Int (pos 1) ∷ [] }
{
    if row.column_count() != 2 {
        return false;
    }
    match (row.get_ref(0), row.get_ref(1)) {
        (Ok(ValueRef::Int(_)), Ok(ValueRef::Int(version))) => version == 1,
        _ => false,
    }
}

fn is_first_version(rows: &[Row]) -> bool
    ensures tells { IsTrue result → (n : ℤ) × (rows.now ≡ (Int n ∷ Int (pos 1) ∷ []) ∷ []) }
    ensures differs { result ≡ false → (n : ℤ) → rows.now ≢ (Int n ∷ Int (pos 1) ∷ []) ∷ [] }
{
    match rows {
        [row] => is_first(row),
        _ => false,
    }
}

/// Nothing where 1 is the only version, and `NotADesk` where it is not. This needs no memory.
fn test_first_version(rows: &[Row]) -> Result<(), Fault>
    ensures right { OnOk result ((n : ℤ) × (rows.now ≡ (Int n ∷ Int (pos 1) ∷ []) ∷ [])) }
    ensures wrong { IfErr result (λ e. (e ≡ Fault.NotADesk)
        × ((n : ℤ) → rows.now ≢ (Int n ∷ Int (pos 1) ∷ []) ∷ [])) }
{
    if !is_first_version(rows) {
        return Err(Fault::NotADesk);
    }
    Ok(())
}

/// Tests that the file names one version, 1.
fn read_version1<S: Alter>(conn: &mut Connection<S>) -> Result<(), Fault>
    ensures { HasReadVersion1 S.Store conn.old conn.new result (λ _ trees. TellsFirst trees) }
{
    let rows = answered(conn.query_all("SELECT rowid, version FROM meta", &[]))?;
    test_first_version(rows.as_slice())
}

/// The rows of batches, by number.
fn read_version1_batches<S: Alter>(
    alloc: Global,
    conn: &mut Connection<S>,
) -> Result<Vec<BatchRow>, Fault>
    ensures { HasReadVersion1 S.Store conn.old conn.new result (λ v trees.
        Shows batch_view (numbered batch_shown 1 (map batch_of v.items)) (trees 1)) }
{
    desk_rows_are_readable();
    let rows = answered(conn.query_all(
        "SELECT no, name, state, worker FROM batches ORDER BY no",
        &[],
    ))?;
    reported(batches_in(alloc, rows.as_slice()))
}

/// The rows of sentences, by number.
fn read_version1_sentences<S: Alter>(
    alloc: Global,
    conn: &mut Connection<S>,
) -> Result<Vec<SentenceRow>, Fault>
    ensures { HasReadVersion1 S.Store conn.old conn.new result (λ v trees.
        Shows sentence_view (numbered sentence_shown 1 (map sentence_of v.items)) (trees 3)) }
{
    desk_rows_are_readable();
    let rows = answered(conn.query_all(
        "SELECT no, sent_id, batch, rev, words FROM sentences ORDER BY no",
        &[],
    ))?;
    reported(sentences_in(alloc, rows.as_slice()))
}

/// The rows of revisions, by sentence and number.
fn read_version1_revisions<S: Alter>(
    alloc: Global,
    conn: &mut Connection<S>,
) -> Result<Vec<RevisionRow>, Fault>
    ensures { HasReadVersion1 S.Store conn.old conn.new result (λ v trees. AreTheRevisions v.items trees) }
{
    desk_rows_are_readable();
    let rows = answered(conn.query_all(
        "SELECT sent, rev, who, body FROM revisions ORDER BY sent, rev",
        &[],
    ))?;
    reported(revisions_in(alloc, rows.as_slice()))
}

/// The rows of moves, by number.
fn read_version1_moves<S: Alter>(
    alloc: Global,
    conn: &mut Connection<S>,
) -> Result<Vec<MoveRow>, Fault>
    ensures { HasReadVersion1 S.Store conn.old conn.new result (λ v trees.
        Shows move_view (numbered move_shown 1 (map move_of v.items)) (trees 7)) }
{
    desk_rows_are_readable();
    let rows = answered(conn.query_all(
        "SELECT no, kind, batch, sent, from_state, to_state, sentences, words_out, words_in, who FROM moves ORDER BY no",
        &[],
    ))?;
    reported(moves_in(alloc, rows.as_slice()))
}

/// The rows of totals, by the number of the state.
fn read_version1_totals<S: Alter>(
    alloc: Global,
    conn: &mut Connection<S>,
) -> Result<Vec<TotalRow>, Fault>
    ensures { HasReadVersion1 S.Store conn.old conn.new result (λ v trees.
        Shows total_view (numbered total_shown 1 (map total_of v.items)) (trees 8)) }
{
    desk_rows_are_readable();
    let rows = answered(conn.query_all(
        "SELECT state, sentences, words FROM totals ORDER BY state",
        &[],
    ))?;
    reported(totals_in(alloc, rows.as_slice()))
}

/// The rows of all tables of version 1, and no pulled sentence.
///
/// # Errors
///
/// `NotADesk`, where the rows are those of no records, or the version is not 1; want of memory; or the store's.
pub(crate) fn read_version1_rows<S: Alter>(
    alloc: Global,
    conn: &mut Connection<S>,
) -> Result<TableRows, Fault>
    ensures { HasReadVersion1 S.Store conn.old conn.new result (λ r trees. AreTheRows r trees) }
{
    one_list_for_the_rows();
    read_version1(conn)?;
    let batches = read_version1_batches(alloc, conn)?;
    let sentences = read_version1_sentences(alloc, conn)?;
    let revisions = read_version1_revisions(alloc, conn)?;
    let moves = read_version1_moves(alloc, conn)?;
    let totals = read_version1_totals(alloc, conn)?;
    Ok(TableRows {
        batches,
        sentences,
        revisions,
        moves,
        totals,
        pulled: Vec::new(alloc),
    })
}
