//! The rows that every accepted command writes, and the totals after it.

ghost use Rattle.std.specs.Prelude.{◌≡◌, ◌≢◌, Err, IfOk, IfErr};
ghost use Rattle.tb_refine.specs.Prelude.{Act, after, AnyRefusal, IsAllowed, IsReachable, Machine, move_made, Reached};
ghost use Rattle.tb_refine.specs.Counted.{IsCounted, IsPrepared};
ghost use Rattle.tb_refine.specs.Faults.{IsNoDevice};

use crate::counters::Counters;
use crate::desk_rows_are_readable;
use crate::recording::record;
use tb_core::{Fault, Move, Totals, stored_totals_hold, stored_totals_take_moves};
use tb_tables::MoveWrite;

/// The rows that a command writes, and the totals after it.
#[derive(Debug, Drop)]
pub struct PreparedMove {
    pub change: MoveWrite,
    pub totals: Totals,
}

/// What a command with this move writes.
///
/// # Errors
///
/// `NotADesk` where the totals do not take the move, which never happens on a desk. It is never refused.
pub fn prepare(counts: &Counters, step: Move) -> Result<PreparedMove, Fault>
    ensures prepared { IfOk result (λ p. (s : Machine) (a : Act) → Reached s → IsAllowed s a
        → IsCounted counts.now s → step ≡ move_made s a → IsPrepared s a p) }
    ensures never_refuses { (r : AnyRefusal) → result ≢ Err (Fault.Refused r) }
    ensures fails { (s : Machine) (a : Act) → IsReachable s → IsAllowed s a → IsReachable (after s a)
        → IsCounted counts.now s → step ≡ move_made s a → result ≢ Err Fault.NotADesk }
    ensures cause { IfErr result IsNoDevice }
    ensures fault { IfErr result (λ e. e ≡ Fault.NotADesk) }
{
    stored_totals_take_moves();
    stored_totals_hold();
    desk_rows_are_readable();
    let mut totals = counts.totals;
    let change = record(&mut totals, step)?;
    Ok(PreparedMove { change, totals })
}
