//! A step of a batch.

ghost use Rattle.std.specs.Prelude.{◌≡◌, ◌<◌, ◌-◌, Some, slice_get, false};
ghost use Rattle.sqlite.specs.State.{Survives};
ghost use Rattle.sqlite.specs.Held.{state};
ghost use Rattle.tb_tables.specs.Records.{Batch};
ghost use Rattle.tb_tables.specs.Values.{move_of, total_of};
ghost use Rattle.tb_tables.specs.Commands.{after_event};
ghost use Rattle.tb_tables.specs.Failing.{IsStoreFault, AreUnique, NeedsNoFault, IsShort};
ghost use Rattle.tb_tables.specs.Premises.{Follows};
ghost use Rattle.tb_tables.specs.Leaving.{CrashesInto, FailsInside, FailsOn, KeepsRecordsOnErr, Leads};
ghost use Rattle.tb_tables.specs.Leaving.{AreStoredIn, StaysInside, Turns, BlamesNoDisk, WantsInside, WantsOn};

use crate::recording::{MoveWrite, record};
use crate::update_batch;
use sqlite::{Alter, Connection, Error, Transaction};

/// Writes the new state and worker of a batch, and the move.
fn step<S: Alter>(
    tx: &mut Transaction<'_, S>,
    number: u32,
    in_state: u32,
    worker: &str,
    change: &MoveWrite,
) -> Result<(), Error>
    requires row { 0 < number }
    ensures same_reference { tx.new.conn.ghost_name ≡ tx.old.conn.ghost_name }
    ensures ok { Turns S.Store tx.old.conn.now tx.new.conn.now result (λ d into. (b : Batch)
        → slice_get d.batches (number - 1) ≡ Some b → Follows d change.now
        → AreStoredIn S.Store tx.old.conn.now d → into (after_event d number b in_state worker.now
        (move_of change.now.row) (total_of change.now.left) (total_of change.now.reached))) }
    ensures fails { FailsInside IsStoreFault S.Store tx.old.conn.now tx.new.conn.now result (λ d fails. (b : Batch)
        → slice_get d.batches (number - 1) ≡ Some b → Follows d change.now
        → AreStoredIn S.Store tx.old.conn.now d → AreUnique d → fails) }
    ensures wants { WantsInside S.Store tx.old.conn.now tx.new.conn.now result (λ d wants.
        (b : Batch) → slice_get d.batches (number - 1) ≡ Some b → Follows d change.now
        → AreStoredIn S.Store tx.old.conn.now d → AreUnique d
        → IsShort b.name → IsShort worker.now → IsShort (move_of change.now.row).who → wants) }
    ensures cause { BlamesNoDisk NeedsNoFault S.Store tx.old.conn.now tx.new.conn.now result }
    ensures inside { StaysInside S.Store tx.old.conn.now tx.new.conn.now result }
    ensures survives { Survives (state S.Store tx.old.conn.now) (state S.Store tx.new.conn.now) (λ _. ⊥) }
{
    update_batch(tx, number, in_state, worker)?;
    record(tx, change)?;
    Ok(())
}

/// Gives the batch with this number, from 1, a state and a worker (the empty text for none), in one transaction with
/// the move.
///
/// # Errors
///
/// The error of the database. The records are then unchanged.
pub fn write_event<S: Alter>(
    conn: &mut Connection<S>,
    number: u32,
    in_state: u32,
    worker: &str,
    change: &MoveWrite,
) -> Result<(), Error>
    requires autocommit { conn.old.in_transaction ≡ false }
    requires row { 0 < number }
    ensures ok { Leads S.Store conn.old conn.new result (λ d into. (b : Batch) → slice_get d.batches (number - 1)
        ≡ Some b → Follows d change.now → into (after_event d number b in_state worker.now
        (move_of change.now.row) (total_of change.now.left) (total_of change.now.reached))) }
    ensures fails { FailsOn IsStoreFault S.Store conn.old conn.new result (λ d fails. (b : Batch)
        → slice_get d.batches (number - 1) ≡ Some b → Follows d change.now → AreUnique d → fails) }
    ensures wants { WantsOn S.Store conn.old conn.new result (λ d wants.
        (b : Batch) → slice_get d.batches (number - 1) ≡ Some b → Follows d change.now → AreUnique d
        → IsShort b.name → IsShort worker.now → IsShort (move_of change.now.row).who → wants) }
    ensures cause { BlamesNoDisk NeedsNoFault S.Store conn.old conn.new result }
    ensures err { KeepsRecordsOnErr S.Store conn.old conn.new result }
    ensures crash { CrashesInto S.Store conn.old conn.new (λ d into. (b : Batch) → slice_get d.batches (number - 1)
        ≡ Some b → Follows d change.now → into (after_event d number b in_state worker.now
        (move_of change.now.row) (total_of change.now.left) (total_of change.now.reached))) }
    ensures autocommit { conn.new.in_transaction ≡ false }
{
    let mut tx = conn.transaction();
    step(&mut tx, number, in_state, worker, change)?;
    tx.commit()?;
    Ok(())
}
