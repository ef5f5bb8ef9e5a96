//! Whether a store is a desk of version 1, and the change of one into a desk.

ghost use Rattle.std.specs.Prelude.{◌≡◌, ◌≢◌, [], false, None, Err, IsTrue, IfOk, OnOk, OnErr};
ghost use Rattle.tb_verify.specs.Prelude.{AnyFault, AnyRefusal, AreStored, AreUnique, BlamesNoDisk, HasCleanDisk};
ghost use Rattle.tb_verify.specs.Prelude.{HasMetaRowids, Holds, IsDeskOf, IsUnchanged, Machine, state, Survives, Tables, tables_of};
ghost use Rattle.tb_verify.specs.Summary.{IsSummaryOf};
ghost use Rattle.tb_verify.specs.Called.{CallsNoneOf, HasFewCounts, LeavesNoDesk};
ghost use Rattle.tb_verify.specs.Version1.{AreStoredInVersion1, HoldsFirst};
ghost use Rattle.tb_verify.specs.Version1Desk.{IsFirstDesk, LooksFirst};

use crate::faults::answered;
use crate::summary::DeskSummary;
use crate::upgrading::upgrade;
use crate::version1_reading::read_version1_rows;
use crate::version1_summary::summary_without_pulls;
use sqlite::{Alter, Connection};
use std::alloc::Global;
use tb_core::{Fault, reached_states_are_well};
use tb_tables::has_version_one_schema;

/// Whether the connection is in no transaction, and its database has exactly the tables of version 1.
fn may_be_first_desk<S: Alter>(conn: &Connection<S>) -> bool
    ensures looks { IsTrue result → LooksFirst S.Store conn.now }
    ensures differs { result ≡ false → (s : Machine) → IsFirstDesk S.Store conn.now s → ⊥ }
{
    conn.is_autocommit() && has_version_one_schema(conn)
}

/// Reads all tables of a store, and tests whether it is a desk of version 1. Returns the counts and totals of the
/// state that the tables represent. Nothing is changed, also after an error.
fn read_first_desk<S: Alter>(alloc: Global, conn: &mut Connection<S>) -> Result<DeskSummary, Fault>
    ensures answered { HasCleanDisk (state S.Store conn.new) → IfOk result (λ x. (s : Machine)
        × IsFirstDesk S.Store conn.old s × IsSummaryOf x s) }
    ensures in_autocommit { OnOk result (conn.new.in_transaction ≡ false) }
    ensures counts { IfOk result HasFewCounts }
    ensures unfit { CallsNoneOf (IsFirstDesk S.Store conn.old) S.Store conn.new result }
    ensures untouched { LeavesNoDesk S.Store conn.old conn.new result }
    ensures never_refuses { (r : AnyRefusal) → result ≢ Err (Fault.Refused r) }
    ensures output { result ≢ Err Fault.Output }
    ensures looks { result ≢ Err Fault.NotADesk → LooksFirst S.Store conn.old }
    ensures cause { (state S.Store conn.old).step_limit ≡ None
        → BlamesNoDisk (λ (fault : AnyFault). fault ≢ Fault.Device) S.Store conn.old conn.new result }
    ensures unchanged { HasCleanDisk (state S.Store conn.new)
        → OnOk result (IsUnchanged (state S.Store conn.old) (state S.Store conn.new)) }
    ensures autocommit { conn.old.in_transaction ≡ false → conn.new.in_transaction ≡ false }
    ensures kept { HasCleanDisk (state S.Store conn.new) → IsTrue (state S.Store conn.new).is_open → (d : Tables)
        → HoldsFirst S.Store conn.old d → HoldsFirst S.Store conn.new d }
    ensures survives { Survives (state S.Store conn.old) (state S.Store conn.new) (λ _. ⊥) }
{
    if !may_be_first_desk(conn) {
        return Err(Fault::NotADesk);
    }
    let rows = read_version1_rows(alloc, conn)?;
    summary_without_pulls(alloc, &rows)
}

/// Converts the tables of version 1 into those of a desk, with the fault for an error. That is never `NotADesk`.
fn convert<S: Alter>(conn: &mut Connection<S>) -> Result<(), Fault>
    requires autocommit { conn.old.in_transaction ≡ false }
    ensures ok { HasCleanDisk (state S.Store conn.new) → OnOk result ((d : Tables) → d.pulled ≡ []
        → HoldsFirst S.Store conn.old d → Holds S.Store conn.new d) }
    ensures err { HasCleanDisk (state S.Store conn.new) → IsTrue (state S.Store conn.new).is_open
        → OnErr result ((d : Tables) → HoldsFirst S.Store conn.old d → HoldsFirst S.Store conn.new d) }
    ensures cause { (state S.Store conn.old).step_limit ≡ None → (d : Tables) → HoldsFirst S.Store conn.old d
        → AreUnique d → HasMetaRowids (state S.Store conn.old).now.trees
        → BlamesNoDisk (λ (fault : AnyFault). fault ≢ Fault.Device) S.Store conn.old conn.new result }
    ensures no_form { result ≢ Err Fault.NotADesk }
    ensures never_refuses { (r : AnyRefusal) → result ≢ Err (Fault.Refused r) }
    ensures output { result ≢ Err Fault.Output }
    ensures autocommit { conn.new.in_transaction ≡ false }
    ensures crash { Survives (state S.Store conn.old) (state S.Store conn.new) (λ db. (d : Tables) → d.pulled ≡ []
        → HoldsFirst S.Store conn.old d → AreStored d db) }
{
    answered(upgrade(conn))
}

/// Makes a desk of a store that is one of version 1 without pulls. Returns the counts and totals of the state that its
/// tables represent.
///
/// All rows are read and tested first, and are in memory at once. Then the tables are changed in one transaction.
///
/// # Errors
///
/// `NotADesk`, where the store is the desk of version 1 of no such state, and it is as it was; want of memory; or the
/// store's. After each of them a desk of version 1 is still one.
pub fn migrate<S: Alter>(alloc: Global, conn: &mut Connection<S>) -> Result<DeskSummary, Fault>
    ensures migrated { HasCleanDisk (state S.Store conn.new) → IfOk result (λ x. (s : Machine)
        × IsFirstDesk S.Store conn.old s × IsDeskOf S.Store conn.new s × IsSummaryOf x s) }
    ensures in_autocommit { OnOk result (conn.new.in_transaction ≡ false) }
    ensures counts { IfOk result HasFewCounts }
    ensures unfit { CallsNoneOf (IsFirstDesk S.Store conn.old) S.Store conn.new result }
    ensures untouched { LeavesNoDesk S.Store conn.old conn.new result }
    ensures unwritten { result ≡ Err Fault.NotADesk → Survives (state S.Store conn.old) (state S.Store conn.new)
        (λ _. ⊥) }
    ensures only_desks { ((s : Machine) → IsFirstDesk S.Store conn.old s → ⊥)
        → HasCleanDisk (state S.Store conn.new)
        → Survives (state S.Store conn.old) (state S.Store conn.new) (λ _. ⊥) }
    ensures never_refuses { (r : AnyRefusal) → result ≢ Err (Fault.Refused r) }
    ensures output { result ≢ Err Fault.Output }
    ensures wants { result ≡ Err Fault.Memory → LooksFirst S.Store conn.old }
    ensures cause { ((s : Machine) → IsFirstDesk S.Store conn.old s
        → HasMetaRowids (state S.Store conn.old).now.trees) → (state S.Store conn.old).step_limit ≡ None
        → BlamesNoDisk (λ (fault : AnyFault). fault ≢ Fault.Device) S.Store conn.old conn.new result }
    ensures autocommit { conn.old.in_transaction ≡ false → conn.new.in_transaction ≡ false }
    ensures again { HasCleanDisk (state S.Store conn.new) → IsTrue (state S.Store conn.new).is_open
        → OnErr result ((s : Machine) → IsFirstDesk S.Store conn.old s → IsFirstDesk S.Store conn.new s) }
    ensures crash { Survives (state S.Store conn.old) (state S.Store conn.new) (λ db. (s : Machine)
        → IsFirstDesk S.Store conn.old s → AreStored (tables_of s) db) }
{
    reached_states_are_well();
    let summary = read_first_desk(alloc, conn)?;
    convert(conn)?;
    Ok(summary)
}

/// What a crash may leave of a desk of version 1 whose connection is open and in no transaction: its tables, whole.
pub fn left_by_a_crash<S: Alter>(_conn: &Connection<S>)
    ensures { (s : Machine) → IsFirstDesk S.Store _conn.now s → (db : _) → (state S.Store _conn.now).may_leave db
        → AreStoredInVersion1 (tables_of s) db }
{}
