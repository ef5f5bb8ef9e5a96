//! Rows as batches and moves of the machine.

ghost use Rattle.std.specs.Prelude.{◌≡◌, [], List, map, true, false, Err, IfErr, IfOk, IsOk};
ghost use Rattle.tb_verify.specs.Prelude.{AreNumbered, Batch, batch_of, batch_record, move_of, move_record, MoveText};
ghost use Rattle.tb_verify.specs.declared.unfit.Unfit.TheVariants.{NotADesk};

use crate::unfit::{Unfit, push};
use std::alloc::Global;
use tb_core::{Fault, Move};
use tb_refine::{read_moves, state_numbered};
use tb_tables::{BatchRow, MoveRow};

/// The batch of a row. It borrows the names, and needs no memory.
fn batch_in<'a>(row: &'a BatchRow) -> Result<tb_replay::BatchRow<'a>, Unfit>
    ensures record { IfOk result (λ b. batch_record b ≡ batch_of row.now) }
    ensures none { IfErr result (λ e. (e ≡ NotADesk)
        × ((b : Batch) → batch_record b ≡ batch_of row.now → ⊥)) }
{
    let Some(state) = state_numbered(row.state) else {
        return Err(Unfit::NotADesk);
    };
    Ok(tb_replay::BatchRow {
        name: row.name.as_str(),
        state,
        worker: row.worker.as_str(),
    })
}

/// Whether the row is that of a batch. This needs no memory.
fn is_batch(row: &BatchRow) -> bool
    ensures no { result ≡ false → (b : Batch) → batch_record b ≡ batch_of row.now → ⊥ }
    ensures yes { result ≡ true → ((b : Batch) → batch_record b ≡ batch_of row.now → ⊥) → ⊥ }
{
    match batch_in(row) {
        Ok(_) => true,
        Err(_) => false,
    }
}

/// Whether all rows are those of batches. This needs no memory.
fn are_batches(rows: &[BatchRow]) -> bool
    ensures no { result ≡ false → (bs : List Batch) → map batch_record bs ≡ map batch_of rows.now → ⊥ }
    ensures yes { result ≡ true → ((bs : List Batch) → map batch_record bs ≡ map batch_of rows.now → ⊥)
        → ⊥ }
{
    for row in rows {
        if !is_batch(row) {
            return false;
        }
    }
    true
}

/// The batches of rows. They borrow the names.
fn collected<'a>(alloc: Global, rows: &'a [BatchRow]) -> Result<Vec<tb_replay::BatchRow<'a>>, Unfit>
    ensures records { IfOk result (λ v. map batch_record v.items ≡ map batch_of rows.now) }
    ensures unfit { result ≡ Err NotADesk → (bs : List Batch)
        → map batch_record bs ≡ map batch_of rows.now → ⊥ }
    ensures sure { rows.now ≡ [] → IsOk result }
{
    let mut batches: Vec<tb_replay::BatchRow<'a>> = Vec::new(alloc);
    for row in rows {
        let batch = batch_in(row)?;
        push(&mut batches, batch)?;
    }
    Ok(batches)
}

/// The batches of rows. They borrow the names. All rows are tested before memory is taken, so a row of no batch is
/// never told as want of memory.
///
/// # Errors
///
/// `NotADesk`, where a row has a number that no state has; or want of memory.
pub(crate) fn batches_in<'a>(
    alloc: Global,
    rows: &'a [BatchRow],
) -> Result<Vec<tb_replay::BatchRow<'a>>, Unfit>
    ensures records { IfOk result (λ v. map batch_record v.items ≡ map batch_of rows.now) }
    ensures unfit { result ≡ Err NotADesk → (bs : List Batch)
        → map batch_record bs ≡ map batch_of rows.now → ⊥ }
    ensures wrong { ((bs : List Batch) → map batch_record bs ≡ map batch_of rows.now → ⊥)
        → result ≡ Err NotADesk }
    ensures sure { rows.now ≡ [] → IsOk result }
{
    if !are_batches(rows) {
        return Err(Unfit::NotADesk);
    }
    collected(alloc, rows)
}

/// Why rows of moves cannot be read back.
fn unfit_of(fault: Fault) -> Unfit
    ensures form { result ≡ NotADesk → fault ≡ Fault.NotADesk }
    ensures desk { fault ≡ Fault.NotADesk → result ≡ NotADesk }
{
    match fault {
        Fault::NotADesk => Unfit::NotADesk,
        _ => Unfit::Memory,
    }
}

/// The moves of rows, numbered from 1.
///
/// # Errors
///
/// `NotADesk`, where a row has a number that no kind or no state has; or want of memory.
pub(crate) fn moves_in(alloc: Global, rows: &[MoveRow]) -> Result<Vec<Move>, Unfit>
    ensures records { IfOk result (λ v. map move_record v.items ≡ map move_of rows.now) }
    ensures numbers { IfOk result (λ v. AreNumbered 1 v.items) }
    ensures unfit { result ≡ Err NotADesk → (ms : List MoveText)
        → map move_record ms ≡ map move_of rows.now → ⊥ }
    ensures wrong { ((ms : List MoveText) → map move_record ms ≡ map move_of rows.now → ⊥)
        → result ≡ Err NotADesk }
    ensures sure { rows.now ≡ [] → IsOk result }
{
    match read_moves(alloc, rows) {
        Ok(moves) => Ok(moves),
        Err(fault) => Err(unfit_of(fault)),
    }
}
