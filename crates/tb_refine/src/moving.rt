//! Rows of the table of moves, as moves of the machine.

ghost use Rattle.std.specs.Prelude.{◌≡◌, ◌≢◌, [], List, map, true, false, Err, IfOk, IfErr, IsOk};
ghost use Rattle.tb_refine.specs.Prelude.{AnyRefusal, move_of, MoveText};
ghost use Rattle.tb_refine.specs.DeskTables.{move_record};
ghost use Rattle.tb_refine.specs.Numbers.{state_number, from_number, kind_number};
ghost use Rattle.tb_refine.specs.Numbered.{AreNumbered};
ghost use Rattle.tb_refine.specs.Faults.{IsNoDevice};

use crate::{kind_numbered, state_before, state_numbered};
use std::alloc::Global;
use tb_core::{Fault, Kind, Move, State};
use tb_tables::MoveRow;

/// The kind of the move of a row, the state before it and the state after it. This needs no memory.
fn steps_in(row: &MoveRow) -> Result<(Kind, Option<State>, State), Fault>
    ensures steps { IfOk result (λ p. (row.now.kind ≡ kind_number p.0) × (row.now.from ≡ from_number p.1)
        × (row.now.to ≡ state_number p.2)) }
    ensures known { IfErr result (λ e. (e ≡ Fault.NotADesk)
        × ((m : MoveText) → move_of row.now ≢ move_record m)) }
{
    let Some(kind) = kind_numbered(row.kind) else {
        return Err(Fault::NotADesk);
    };
    let Some(from) = state_before(row.from) else {
        return Err(Fault::NotADesk);
    };
    let Some(to) = state_numbered(row.to) else {
        return Err(Fault::NotADesk);
    };
    Ok((kind, from, to))
}

/// The move of a row, with its number. A row of no move needs no memory.
fn read_move(alloc: Global, row: &MoveRow, no: u64) -> Result<Move, Fault>
    ensures record { IfOk result (λ m. move_record m ≡ move_of row.now) }
    ensures number { IfOk result (λ m. m.no ≡ no) }
    ensures known { result ≡ Err Fault.NotADesk → (m : MoveText) → move_of row.now ≢ move_record m }
    ensures wrong { ((m : MoveText) → move_of row.now ≢ move_record m) → result ≡ Err Fault.NotADesk }
    ensures cause { IfErr result IsNoDevice }
    ensures output { result ≢ Err Fault.Output }
    ensures never_refuses { (r : AnyRefusal) → result ≢ Err (Fault.Refused r) }
{
    let (kind, from, to) = steps_in(row)?;
    let who = String::from_str(alloc, &row.who)?;
    Ok(Move {
        no,
        kind,
        batch: u64::from(row.batch),
        sent: u64::from(row.sent),
        from,
        to,
        sentences: u64::from(row.sentences),
        words_out: u64::from(row.words_out),
        words_in: u64::from(row.words_in),
        who,
    })
}

/// Whether the row is that of a move. This needs no memory.
fn is_move(row: &MoveRow) -> bool
    ensures no { result ≡ false → (m : MoveText) → move_of row.now ≢ move_record m }
    ensures yes { result ≡ true → ((m : MoveText) → move_of row.now ≢ move_record m) → ⊥ }
{
    match steps_in(row) {
        Ok(_) => true,
        Err(_) => false,
    }
}

/// Whether all rows are those of moves. This needs no memory.
fn are_moves(rows: &[MoveRow]) -> bool
    ensures no { result ≡ false → (ms : List MoveText) → map move_of rows.now ≢ map move_record ms }
    ensures yes { result ≡ true → ((ms : List MoveText) → map move_of rows.now ≢ map move_record ms) → ⊥ }
{
    for row in rows {
        if !is_move(row) {
            return false;
        }
    }
    true
}

/// The moves of rows, numbered from 1 in this order.
fn numbered_moves(alloc: Global, rows: &[MoveRow]) -> Result<Vec<Move>, Fault>
    ensures records { IfOk result (λ v. map move_record v.items ≡ map move_of rows.now) }
    ensures numbers { IfOk result (λ v. AreNumbered 1 v.items) }
    ensures known { result ≡ Err Fault.NotADesk → (ms : List MoveText)
        → map move_of rows.now ≢ map move_record ms }
    ensures sure { rows.now ≡ [] → IsOk result }
    ensures cause { IfErr result IsNoDevice }
    ensures output { result ≢ Err Fault.Output }
    ensures never_refuses { (r : AnyRefusal) → result ≢ Err (Fault.Refused r) }
{
    let mut moves = Vec::new(alloc);
    let mut no = 0u64;
    for row in rows {
        no += 1;
        moves.push(read_move(alloc, row, no)?)?;
    }
    Ok(moves)
}

/// The moves of rows, numbered from 1 in this order. All rows are tested before memory is taken, so a row of no move is
/// never told as want of memory.
///
/// # Errors
///
/// `NotADesk` where a row has a number that no kind or no state has; or want of memory.
pub fn read_moves(alloc: Global, rows: &[MoveRow]) -> Result<Vec<Move>, Fault>
    ensures records { IfOk result (λ v. map move_record v.items ≡ map move_of rows.now) }
    ensures numbers { IfOk result (λ v. AreNumbered 1 v.items) }
    ensures known { result ≡ Err Fault.NotADesk → (ms : List MoveText)
        → map move_of rows.now ≢ map move_record ms }
    ensures wrong { ((ms : List MoveText) → map move_of rows.now ≢ map move_record ms)
        → result ≡ Err Fault.NotADesk }
    ensures sure { rows.now ≡ [] → IsOk result }
    ensures cause { IfErr result IsNoDevice }
    ensures output { result ≢ Err Fault.Output }
    ensures never_refuses { (r : AnyRefusal) → result ≢ Err (Fault.Refused r) }
{
    if !are_moves(rows) {
        return Err(Fault::NotADesk);
    }
    numbered_moves(alloc, rows)
}
