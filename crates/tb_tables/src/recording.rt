//! The last writes of every command: a move, and the totals that it changes.

ghost use Rattle.std.specs.Prelude.{◌≡◌, ◌≤◌, IsOk, length};
ghost use Rattle.sqlite.specs.State.{Survives};
ghost use Rattle.sqlite.specs.Held.{state};
ghost use Rattle.tb_tables.specs.Values.{move_of, total_of};
ghost use Rattle.tb_tables.specs.Commands.{with_total, recorded};
ghost use Rattle.tb_tables.specs.Failing.{IsStoreFault, AreUnique, NeedsNoFault, IsShort};
ghost use Rattle.tb_tables.specs.Premises.{Follows};
ghost use Rattle.tb_tables.specs.Leaving.{FailsInside, AreStoredIn, StaysInside, Turns, BlamesNoDisk};
ghost use Rattle.tb_tables.specs.Leaving.{WantsInside};

use crate::{MoveRow, TotalRow, insert_move, update_total};
use sqlite::{Alter, Error, Transaction};

/// A move, and the totals that it changes.
#[derive(Debug, Drop)]
pub struct MoveWrite {
    /// The number of the move, from 1.
    pub number: u32,
    pub row: MoveRow,
    /// The totals, after the move, of the state that it leaves; ignored where it leaves none.
    pub left: TotalRow,
    /// The totals, after the move, of the state that it reaches.
    pub reached: TotalRow,
}

/// Writes the totals of a state. State 0 is none: nothing is written for it, which needs no memory.
fn write_total<S: Alter>(
    tx: &mut Transaction<'_, S>,
    in_state: u32,
    total: &TotalRow,
) -> Result<(), Error>
    ensures same_reference { tx.new.conn.ghost_name ≡ tx.old.conn.ghost_name }
    ensures none { in_state ≡ 0 → IsOk result }
    ensures ok { Turns S.Store tx.old.conn.now tx.new.conn.now result (λ d into. in_state ≤ length d.totals
        → AreStoredIn S.Store tx.old.conn.now d → into (with_total d in_state (total_of total.now))) }
    ensures fails { FailsInside IsStoreFault S.Store tx.old.conn.now tx.new.conn.now result (λ d fails.
        AreStoredIn S.Store tx.old.conn.now d → AreUnique d → fails) }
    ensures wants { WantsInside S.Store tx.old.conn.now tx.new.conn.now result (λ d wants.
        AreStoredIn S.Store tx.old.conn.now d → AreUnique d → wants) }
    ensures cause { BlamesNoDisk NeedsNoFault S.Store tx.old.conn.now tx.new.conn.now result }
    ensures inside { StaysInside S.Store tx.old.conn.now tx.new.conn.now result }
    ensures survives { Survives (state S.Store tx.old.conn.now) (state S.Store tx.new.conn.now) (λ _. ⊥) }
{
    if in_state == 0 {
        return Ok(());
    }
    update_total(tx, in_state, total.sentences, total.words)?;
    Ok(())
}

/// Writes a move and its totals. Where it leaves and reaches the same state, the totals `reached` are the last.
pub(crate) fn record<S: Alter>(tx: &mut Transaction<'_, S>, change: &MoveWrite) -> Result<(), Error>
    ensures same_reference { tx.new.conn.ghost_name ≡ tx.old.conn.ghost_name }
    ensures ok { Turns S.Store tx.old.conn.now tx.new.conn.now result (λ d into. Follows d change.now
        → AreStoredIn S.Store tx.old.conn.now d → into (recorded d (move_of change.now.row)
        (total_of change.now.left) (total_of change.now.reached))) }
    ensures fails { FailsInside IsStoreFault S.Store tx.old.conn.now tx.new.conn.now result (λ d fails.
        Follows d change.now → AreStoredIn S.Store tx.old.conn.now d → AreUnique d → fails) }
    ensures wants { WantsInside S.Store tx.old.conn.now tx.new.conn.now result (λ d wants.
        Follows d change.now → AreStoredIn S.Store tx.old.conn.now d → AreUnique d
        → IsShort (move_of change.now.row).who → wants) }
    ensures cause { BlamesNoDisk NeedsNoFault S.Store tx.old.conn.now tx.new.conn.now result }
    ensures inside { StaysInside S.Store tx.old.conn.now tx.new.conn.now result }
    ensures survives { Survives (state S.Store tx.old.conn.now) (state S.Store tx.new.conn.now) (λ _. ⊥) }
{
    insert_move(tx, change.number, &change.row)?;
    write_total(tx, change.row.from, &change.left)?;
    write_total(tx, change.row.to, &change.reached)?;
    Ok(())
}
