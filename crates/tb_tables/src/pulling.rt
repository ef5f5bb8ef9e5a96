//! Pulled sentences: pulls one from those released, and restores it.

ghost use Rattle.std.specs.Prelude.{◌≡◌, false};
ghost use Rattle.sqlite.specs.State.{Survives};
ghost use Rattle.sqlite.specs.Held.{state};
ghost use Rattle.tb_tables.specs.Values.{move_of, total_of};
ghost use Rattle.tb_tables.specs.Commands.{after_pull, after_restore};
ghost use Rattle.tb_tables.specs.Failing.{IsStoreFault, Lacks, AreUnique, NeedsNoFault, IsShort};
ghost use Rattle.tb_tables.specs.Premises.{Follows};
ghost use Rattle.tb_tables.specs.Leaving.{CrashesInto, FailsInside, FailsOn, KeepsRecordsOnErr, Leads};
ghost use Rattle.tb_tables.specs.Leaving.{AreStoredIn, StaysInside, Turns, BlamesNoDisk, WantsInside, WantsOn};

use crate::recording::{MoveWrite, record};
use crate::{delete_pulled, insert_pulled};
use sqlite::{Alter, Connection, Error, Transaction};

/// Adds a sentence to those that are pulled, with the move.
fn pull<S: Alter>(tx: &mut Transaction<'_, S>, number: u32, change: &MoveWrite) -> Result<(), Error>
    ensures same_reference { tx.new.conn.ghost_name ≡ tx.old.conn.ghost_name }
    ensures ok { Turns S.Store tx.old.conn.now tx.new.conn.now result (λ d into. Follows d change.now
        → AreStoredIn S.Store tx.old.conn.now d → into (after_pull d number (move_of change.now.row)
        (total_of change.now.left) (total_of change.now.reached))) }
    ensures fails { FailsInside IsStoreFault S.Store tx.old.conn.now tx.new.conn.now result (λ d fails.
        Follows d change.now → AreStoredIn S.Store tx.old.conn.now d → Lacks d.pulled number → AreUnique d
        → fails) }
    ensures wants { WantsInside S.Store tx.old.conn.now tx.new.conn.now result (λ d wants.
        Follows d change.now → AreStoredIn S.Store tx.old.conn.now d → Lacks d.pulled number → AreUnique d
        → IsShort (move_of change.now.row).who → wants) }
    ensures cause { BlamesNoDisk NeedsNoFault S.Store tx.old.conn.now tx.new.conn.now result }
    ensures inside { StaysInside S.Store tx.old.conn.now tx.new.conn.now result }
    ensures survives { Survives (state S.Store tx.old.conn.now) (state S.Store tx.new.conn.now) (λ _. ⊥) }
{
    insert_pulled(tx, number)?;
    record(tx, change)?;
    Ok(())
}

/// Adds the sentence with this number to those that are pulled, with the move, in one transaction.
///
/// # Errors
///
/// The error of the database. The records are then unchanged.
pub fn write_pull<S: Alter>(
    conn: &mut Connection<S>,
    number: u32,
    change: &MoveWrite,
) -> Result<(), Error>
    requires autocommit { conn.old.in_transaction ≡ false }
    ensures ok { Leads S.Store conn.old conn.new result (λ d into. Follows d change.now
        → into (after_pull d number (move_of change.now.row) (total_of change.now.left)
        (total_of change.now.reached))) }
    ensures fails { FailsOn IsStoreFault S.Store conn.old conn.new result (λ d fails. Follows d change.now
        → Lacks d.pulled number → AreUnique d → fails) }
    ensures wants { WantsOn S.Store conn.old conn.new result (λ d wants.
        Follows d change.now → Lacks d.pulled number → AreUnique d
        → IsShort (move_of change.now.row).who → wants) }
    ensures cause { BlamesNoDisk NeedsNoFault S.Store conn.old conn.new result }
    ensures err { KeepsRecordsOnErr S.Store conn.old conn.new result }
    ensures crash { CrashesInto S.Store conn.old conn.new (λ d into. Follows d change.now
        → into (after_pull d number (move_of change.now.row) (total_of change.now.left)
        (total_of change.now.reached))) }
    ensures autocommit { conn.new.in_transaction ≡ false }
{
    let mut tx = conn.transaction();
    pull(&mut tx, number, change)?;
    tx.commit()?;
    Ok(())
}

/// Removes a sentence from those that are pulled, with the move.
fn restore<S: Alter>(
    tx: &mut Transaction<'_, S>,
    number: u32,
    change: &MoveWrite,
) -> Result<(), Error>
    ensures same_reference { tx.new.conn.ghost_name ≡ tx.old.conn.ghost_name }
    ensures ok { Turns S.Store tx.old.conn.now tx.new.conn.now result (λ d into. Follows d change.now
        → AreStoredIn S.Store tx.old.conn.now d → into (after_restore d number (move_of change.now.row)
        (total_of change.now.left) (total_of change.now.reached))) }
    ensures fails { FailsInside IsStoreFault S.Store tx.old.conn.now tx.new.conn.now result (λ d fails.
        Follows d change.now → AreStoredIn S.Store tx.old.conn.now d → AreUnique d → fails) }
    ensures wants { WantsInside S.Store tx.old.conn.now tx.new.conn.now result (λ d wants.
        Follows d change.now → AreStoredIn S.Store tx.old.conn.now d → AreUnique d
        → IsShort (move_of change.now.row).who → wants) }
    ensures cause { BlamesNoDisk NeedsNoFault S.Store tx.old.conn.now tx.new.conn.now result }
    ensures inside { StaysInside S.Store tx.old.conn.now tx.new.conn.now result }
    ensures survives { Survives (state S.Store tx.old.conn.now) (state S.Store tx.new.conn.now) (λ _. ⊥) }
{
    delete_pulled(tx, number)?;
    record(tx, change)?;
    Ok(())
}

/// Removes the sentence with this number from those that are pulled, with the move, in one transaction.
///
/// # Errors
///
/// The error of the database. The records are then unchanged.
pub fn write_restore<S: Alter>(
    conn: &mut Connection<S>,
    number: u32,
    change: &MoveWrite,
) -> Result<(), Error>
    requires autocommit { conn.old.in_transaction ≡ false }
    ensures ok { Leads S.Store conn.old conn.new result (λ d into. Follows d change.now
        → into (after_restore d number (move_of change.now.row) (total_of change.now.left)
        (total_of change.now.reached))) }
    ensures fails { FailsOn IsStoreFault S.Store conn.old conn.new result (λ d fails. Follows d change.now
        → AreUnique d → fails) }
    ensures wants { WantsOn S.Store conn.old conn.new result (λ d wants.
        Follows d change.now → AreUnique d → IsShort (move_of change.now.row).who → wants) }
    ensures cause { BlamesNoDisk NeedsNoFault S.Store conn.old conn.new result }
    ensures err { KeepsRecordsOnErr S.Store conn.old conn.new result }
    ensures crash { CrashesInto S.Store conn.old conn.new (λ d into. Follows d change.now
        → into (after_restore d number (move_of change.now.row) (total_of change.now.left)
        (total_of change.now.reached))) }
    ensures autocommit { conn.new.in_transaction ≡ false }
{
    let mut tx = conn.transaction();
    restore(&mut tx, number, change)?;
    tx.commit()?;
    Ok(())
}
