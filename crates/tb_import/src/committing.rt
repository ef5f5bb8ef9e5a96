//! Writes an accepted import in one transaction, after which the tables store the next state.

ghost use Rattle.std.specs.Prelude.{◌≡◌, ◌≢◌, ◌+◌, ◌^◌, ◌<◌, List, length, Err, None, false, OnOk};
ghost use Rattle.tb_import.specs.Prelude.{after, AnyRefusal, AreStored, BlamesNoDevice, BlockText, HasCleanDisk};
ghost use Rattle.tb_import.specs.Prelude.{HasRevisionRowids, importing, IsAllowed, IsDeskOf, IsReachable, IsShort};
ghost use Rattle.tb_import.specs.Prelude.{IsWritten, KeepsRecordsOnErr, Machine, state, Survives, tables_of, text_of};
ghost use Rattle.tb_import.specs.Planned.{IsMadeBatch};

use sqlite::{Alter, Connection};
use tb_core::{Fault, reached_states_are_well};
use tb_refine::faults;
use tb_tables::{MoveWrite, NewSentenceRow, write_import};

/// Writes an import in one transaction: the batch with this number, and its sentences from the number `first` on. Both
/// count from 1.
///
/// # Errors
///
/// Only errors of the store. The tables are then unchanged where the store is still open.
pub(crate) fn commit_import<S: Alter>(
    conn: &mut Connection<S>,
    number: u32,
    first: u32,
    name: &str,
    who: &str,
    items: &[NewSentenceRow<'_>],
    change: &MoveWrite,
) -> Result<(), Fault>
    requires autocommit { conn.old.in_transaction ≡ false }
    requires fits { first + length items.now < 2 ^ 32 }
    ensures made { HasCleanDisk (state S.Store conn.new) → OnOk result ((s : Machine) (bodies : List BlockText)
        → IsDeskOf S.Store conn.old s → IsMadeBatch s number first bodies items.now
        → IsAllowed s (importing name.now who.now bodies)
        → IsReachable (after s (importing name.now who.now bodies))
        → IsWritten s (importing name.now who.now bodies) change.now
        → IsDeskOf S.Store conn.new (after s (importing name.now who.now bodies))) }
    ensures never_refuses { (r : AnyRefusal) → result ≢ Err (Fault.Refused r) }
    ensures output { result ≢ Err Fault.Output }
    ensures fails { HasCleanDisk (state S.Store conn.new) → (state S.Store conn.old).step_limit ≡ None
        → (s : Machine) (bodies : List BlockText) → IsDeskOf S.Store conn.old s
        → IsMadeBatch s number first bodies items.now → IsAllowed s (importing name.now who.now bodies)
        → IsReachable (after s (importing name.now who.now bodies))
        → IsWritten s (importing name.now who.now bodies) change.now → result ≢ Err Fault.NotADesk }
    ensures cause { BlamesNoDevice S.Store conn.old conn.new result (λ s so. (bodies : List BlockText)
        → IsMadeBatch s number first bodies items.now → IsAllowed s (importing name.now who.now bodies)
        → IsReachable (after s (importing name.now who.now bodies))
        → IsWritten s (importing name.now who.now bodies) change.now → IsShort (text_of bodies)
        → HasRevisionRowids (state S.Store conn.old) (length bodies) → so) }
    ensures keeps_records { KeepsRecordsOnErr S.Store conn.old conn.new result }
    ensures crash { Survives (state S.Store conn.old) (state S.Store conn.new) (λ db.
        (s : Machine) (bodies : List BlockText) → IsDeskOf S.Store conn.old s
        → IsMadeBatch s number first bodies items.now → IsAllowed s (importing name.now who.now bodies)
        → IsWritten s (importing name.now who.now bodies) change.now
        → AreStored (tables_of (after s (importing name.now who.now bodies))) db) }
    ensures autocommit { conn.new.in_transaction ≡ false }
{
    reached_states_are_well();
    faults::reported_write(write_import(conn, number, first, name, who, items, change))
}
