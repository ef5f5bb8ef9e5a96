//! The rows of all tables of a desk, read one table after another. No read changes anything, also after an error.

ghost use Rattle.std.specs.Prelude.{◌≡◌, ◌≢◌, ◌↔◌, [], ◌∷◌, map, IsTrue, OnOk, IfErr};
ghost use Rattle.tb_verify.specs.Prelude.{AreStored, batch_of, batch_shown, batch_view, meta_view, move_of, move_shown};
ghost use Rattle.tb_verify.specs.Prelude.{ListsDesk, move_view, number_shown, number_view, numbered, revision_of, revision_shown};
ghost use Rattle.tb_verify.specs.Prelude.{revision_view, sentence_of, sentence_shown, sentence_view, Shows, total_of};
ghost use Rattle.tb_verify.specs.Prelude.{total_shown, total_view};
ghost use Rattle.tb_verify.specs.Summary.{tables_in};
ghost use Rattle.tb_verify.specs.TableReads.{HasReadTable};

use crate::faults::reported;
use crate::summary::TableRows;
use sqlite::{Alter, Connection};
use std::alloc::Global;
use tb_core::Fault;
use tb_refine::{desk_rows_are_readable, one_list_for_the_rows};
use tb_tables::{BatchRow, MoveRow, RevisionRow, SentenceRow, TotalRow};

fn is_second(versions: &[u32]) -> bool
    ensures { IsTrue result ↔ versions.now ≡ 2 ∷ [] }
{
    match versions {
        [version] => *version == 2,
        _ => false,
    }
}

/// Nothing where 2 is the only version, and `NotADesk` where it is not. This needs no memory.
fn test_version(versions: &[u32]) -> Result<(), Fault>
    ensures right { OnOk result (versions.now ≡ 2 ∷ []) }
    ensures wrong { IfErr result (λ e. (e ≡ Fault.NotADesk) × (versions.now ≢ 2 ∷ [])) }
{
    if !is_second(versions) {
        return Err(Fault::NotADesk);
    }
    Ok(())
}

/// The versions that the file names.
fn read_versions<S: Alter>(alloc: Global, conn: &mut Connection<S>) -> Result<Vec<u32>, Fault>
    ensures { HasReadTable S.Store conn.old conn.new result (λ v trees. Shows meta_view (map number_shown v.items)
        (trees 0)) (λ v d. v.items ≡ 2 ∷ []) }
{
    reported(tb_reads::versions(alloc, conn))
}

/// Tests that the file names one version, 2.
fn read_version<S: Alter>(alloc: Global, conn: &mut Connection<S>) -> Result<(), Fault>
    ensures { HasReadTable S.Store conn.old conn.new result (λ _ trees. Shows meta_view (number_shown 2 ∷ [])
        (trees 0)) (λ _ _. Unit {0}) }
{
    let versions = read_versions(alloc, conn)?;
    test_version(versions.as_slice())
}

/// The rows of batches, by number.
fn read_batches<S: Alter>(alloc: Global, conn: &mut Connection<S>) -> Result<Vec<BatchRow>, Fault>
    ensures { HasReadTable S.Store conn.old conn.new result (λ v trees.
        Shows batch_view (numbered batch_shown 1 (map batch_of v.items)) (trees 1)) (λ v d. Unit {0}) }
{
    desk_rows_are_readable();
    reported(tb_reads::batches(alloc, conn))
}

/// The rows of sentences, by number.
fn read_sentences<S: Alter>(
    alloc: Global,
    conn: &mut Connection<S>,
) -> Result<Vec<SentenceRow>, Fault>
    ensures { HasReadTable S.Store conn.old conn.new result (λ v trees.
        Shows sentence_view (numbered sentence_shown 1 (map sentence_of v.items)) (trees 3)) (λ v d. Unit {0}) }
{
    desk_rows_are_readable();
    reported(tb_reads::sentences(alloc, conn))
}

/// The rows of revisions, by sentence and number.
fn read_revisions<S: Alter>(
    alloc: Global,
    conn: &mut Connection<S>,
) -> Result<Vec<RevisionRow>, Fault>
    ensures { HasReadTable S.Store conn.old conn.new result (λ v trees.
        Shows revision_view (map revision_shown (map revision_of v.items)) (trees 5)) (λ v d. map revision_of v.items
        ≡ d.revisions) }
{
    desk_rows_are_readable();
    reported(tb_reads::revisions(alloc, conn))
}

/// The rows of moves, by number.
fn read_moves<S: Alter>(alloc: Global, conn: &mut Connection<S>) -> Result<Vec<MoveRow>, Fault>
    ensures { HasReadTable S.Store conn.old conn.new result (λ v trees.
        Shows move_view (numbered move_shown 1 (map move_of v.items)) (trees 7)) (λ v d. Unit {0}) }
{
    desk_rows_are_readable();
    reported(tb_reads::moves(alloc, conn))
}

/// The rows of totals, by the number of the state.
fn read_totals<S: Alter>(alloc: Global, conn: &mut Connection<S>) -> Result<Vec<TotalRow>, Fault>
    ensures { HasReadTable S.Store conn.old conn.new result (λ v trees.
        Shows total_view (numbered total_shown 1 (map total_of v.items)) (trees 8)) (λ v d. Unit {0}) }
{
    desk_rows_are_readable();
    reported(tb_reads::totals(alloc, conn))
}

/// The numbers of pulled sentences, ascending.
fn read_pulled<S: Alter>(alloc: Global, conn: &mut Connection<S>) -> Result<Vec<u32>, Fault>
    ensures { HasReadTable S.Store conn.old conn.new result (λ v trees. Shows number_view (map number_shown v.items)
        (trees 9)) (λ v d. v.items ≡ d.pulled) }
{
    desk_rows_are_readable();
    reported(tb_reads::pulled(alloc, conn))
}

/// The rows of all tables.
///
/// # Errors
///
/// `NotADesk`, where the rows are those of no records, or the version is not 2; want of memory; or the store's.
pub(crate) fn read_rows<S: Alter>(
    alloc: Global,
    conn: &mut Connection<S>,
) -> Result<TableRows, Fault>
    ensures { HasReadTable S.Store conn.old conn.new result
        (λ r trees. ListsDesk trees → AreStored (tables_in r) trees) (λ r d. tables_in r ≡ d) }
{
    one_list_for_the_rows();
    read_version(alloc, conn)?;
    let batches = read_batches(alloc, conn)?;
    let sentences = read_sentences(alloc, conn)?;
    let revisions = read_revisions(alloc, conn)?;
    let moves = read_moves(alloc, conn)?;
    let totals = read_totals(alloc, conn)?;
    let pulled = read_pulled(alloc, conn)?;
    Ok(TableRows {
        batches,
        sentences,
        revisions,
        moves,
        totals,
        pulled,
    })
}
