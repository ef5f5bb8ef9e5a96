//! Whether a store is a desk.
//!
//! A store is the desk of a state where four things hold. The connection is open and in no transaction. It sees what
//! the last commit left. The schema is exactly that of the seven tables. Their rows are those of a state that accepted
//! commands reach within the largest limits.
//!
//! The second follows from the first, and a connection is known to be open once a read has answered. So all four are
//! tested here, and `NotADesk` is exact: the connection is in a transaction, the schema is another, or no such state
//! has the rows. A read that the store cuts short, for any reason, is a fault of the device.

ghost use Rattle.std.specs.Prelude.{◌≡◌, ◌≢◌, false, None, Err, IsTrue, IfOk, OnOk};
ghost use Rattle.tb_verify.specs.Prelude.{AnyFault, AnyRefusal, BlamesNoDisk, HasCleanDisk, IsDeskOf, IsUnchanged};
ghost use Rattle.tb_verify.specs.Prelude.{KeepsRecords, Machine, state, Survives};
ghost use Rattle.tb_verify.specs.Summary.{IsSummaryOf};
ghost use Rattle.tb_verify.specs.Called.{CallsNoneOf, HasFewCounts, LeavesNoDesk};
ghost use Rattle.tb_verify.specs.Looks.{LooksLikeDesk};

use crate::reading::read_rows;
use crate::summary::{DeskSummary, summary_of_desk};
use sqlite::{Alter, Connection};
use std::alloc::Global;
use tb_core::Fault;
use tb_tables::{desk_schema_is_listed, has_desk_schema};

/// Whether the connection is in no transaction, and its database has exactly the tables of a desk.
fn may_be_desk<S: Alter>(conn: &Connection<S>) -> bool
    ensures looks { IsTrue result → LooksLikeDesk S.Store conn.now }
    ensures differs { result ≡ false → (s : Machine) → IsDeskOf S.Store conn.now s → ⊥ }
{
    // law: the file lists these tables and no others
    desk_schema_is_listed(conn);
    conn.is_autocommit() && has_desk_schema(conn)
}

/// Reads all tables of a store, and tests whether it is a desk. Returns the counts and totals of the state that the
/// tables represent.
///
/// The rows of all tables are in memory at once, with the texts of all revisions. Each text is parsed once. Nothing is
/// changed, also after an error.
///
/// # Errors
///
/// `NotADesk`, where the store is the desk of no state; want of memory; or the store's, only where the disk failed or
/// the store was shut.
pub fn read_desk<S: Alter>(alloc: Global, conn: &mut Connection<S>) -> Result<DeskSummary, Fault>
    ensures answered { HasCleanDisk (state S.Store conn.new) → IfOk result (λ x. (s : Machine)
        × IsDeskOf S.Store conn.old s × IsDeskOf S.Store conn.new s × IsSummaryOf x s) }
    ensures in_autocommit { OnOk result (conn.new.in_transaction ≡ false) }
    ensures counts { IfOk result HasFewCounts }
    ensures unfit { CallsNoneOf (IsDeskOf S.Store conn.old) S.Store conn.new result }
    ensures untouched { LeavesNoDesk S.Store conn.old conn.new result }
    ensures sees { HasCleanDisk (state S.Store conn.new) → IsTrue (state S.Store conn.new).is_open
        → (state S.Store conn.new).now ≡ (state S.Store conn.old).now }
    ensures never_refuses { (r : AnyRefusal) → result ≢ Err (Fault.Refused r) }
    ensures output { result ≢ Err Fault.Output }
    ensures wants { result ≡ Err Fault.Memory → LooksLikeDesk S.Store conn.old }
    ensures cause { (state S.Store conn.old).step_limit ≡ None
        → BlamesNoDisk (λ (fault : AnyFault). fault ≢ Fault.Device) S.Store conn.old conn.new result }
    ensures unchanged { HasCleanDisk (state S.Store conn.new)
        → OnOk result (IsUnchanged (state S.Store conn.old) (state S.Store conn.new)) }
    ensures autocommit { conn.old.in_transaction ≡ false → conn.new.in_transaction ≡ false }
    ensures keeps_records { KeepsRecords S.Store conn.old conn.new }
    ensures survives { Survives (state S.Store conn.old) (state S.Store conn.new) (λ _. ⊥) }
{
    if !may_be_desk(conn) {
        return Err(Fault::NotADesk);
    }
    let rows = read_rows(alloc, conn)?;
    summary_of_desk(alloc, &rows)
}
