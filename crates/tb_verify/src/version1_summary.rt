//! Whether rows are those of a state without pulls. This module uses no database.

ghost use Rattle.std.specs.Prelude.{◌≡◌, ◌≢◌, ◌↔◌, All, Err, IsTrue, IfOk, IfErr};
ghost use Rattle.tb_verify.specs.Prelude.{AnyFault, AnyMoveRow, AnyRefusal, IsReachable, Machine, tables_of};
ghost use Rattle.tb_verify.specs.Summary.{IsSummaryOf, tables_in};
ghost use Rattle.tb_verify.specs.Called.{HasFewCounts};
ghost use Rattle.tb_verify.specs.Version1Desk.{HasNoPull};

use crate::summary::{DeskSummary, TableRows, summary_of_desk};
use std::alloc::Global;
use tb_core::Fault;
use tb_tables::MoveRow;

/// Whether a move is neither a pull nor a restore.
fn is_no_pull(row: &MoveRow) -> bool
    ensures { IsTrue result ↔ (row.now.kind ≢ 11) × (row.now.kind ≢ 12) }
{
    row.kind != 11 && row.kind != 12
}

fn has_no_pull(moves: &[MoveRow]) -> bool
    ensures { IsTrue result ↔ All (λ (m : AnyMoveRow). (m.kind ≢ 11) × (m.kind ≢ 12)) moves.now }
{
    moves.iter().all(|row| is_no_pull(row))
}

/// The counts and totals of the state that has these rows. Accepted commands, none of them a pull or a restore, reach
/// it within the largest limits.
///
/// # Errors
///
/// `NotADesk`, where no such state has these rows; or want of memory.
pub(crate) fn summary_without_pulls(alloc: Global, rows: &TableRows) -> Result<DeskSummary, Fault>
    ensures summary { IfOk result (λ x. (s : Machine) × IsReachable s × HasNoPull s
        × (tables_in rows.now ≡ tables_of s) × IsSummaryOf x s) }
    ensures counts { IfOk result HasFewCounts }
    ensures unfit { result ≡ Err Fault.NotADesk → (s : Machine) → IsReachable s → HasNoPull s
        → tables_in rows.now ≡ tables_of s → ⊥ }
    ensures never_refuses { (r : AnyRefusal) → result ≢ Err (Fault.Refused r) }
    ensures output { result ≢ Err Fault.Output }
    ensures cause { IfErr result (λ (fault : AnyFault). fault ≢ Fault.Device) }
    ensures wants { result ≡ Err Fault.Memory
        → All (λ (m : AnyMoveRow). (m.kind ≢ 11) × (m.kind ≢ 12)) rows.now.moves.items }
{
    if !has_no_pull(rows.moves.as_slice()) {
        return Err(Fault::NotADesk);
    }
    summary_of_desk(alloc, rows)
}
