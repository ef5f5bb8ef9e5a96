//! Converts the tables of version 1 into those of a desk.

ghost use Rattle.std.specs.Prelude.{◌≡◌, [], false, None, IsTrue, IfErr, OnOk, OnErr};
ghost use Rattle.tb_verify.specs.Prelude.{AreStored, AreUnique, BlamesNoDisk, HasCleanDisk, HasMetaRowids};
ghost use Rattle.tb_verify.specs.Prelude.{Holds, IsDiskFaultOrWant, IsInside, KeepsCommitted, NeedsNoFault, state, Survives, Tables};
ghost use Rattle.tb_verify.specs.Version1.{AreStoredInVersion1, HoldsFirst, IsInsideFirst};

use sqlite::{Alter, Connection, Error, Transaction};

/// Makes the table of pulled sentences, without a row.
fn make_pulled<S: Alter>(tx: &mut Transaction<'_, S>) -> Result<(), Error>
    ensures same_reference { tx.new.conn.ghost_name ≡ tx.old.conn.ghost_name }
    ensures ok { HasCleanDisk (state S.Store tx.new.conn.now)
        → OnOk result (IsInsideFirst (state S.Store tx.old.conn.now) → IsInside (state S.Store tx.new.conn.now)
        × ((state S.Store tx.new.conn.now).now.trees 9 ≡ [])
        × ((d : Tables) → AreStoredInVersion1 d (state S.Store tx.old.conn.now).now.trees
        → AreStoredInVersion1 d (state S.Store tx.new.conn.now).now.trees)
        × ((state S.Store tx.new.conn.now).now.trees 0 ≡ (state S.Store tx.old.conn.now).now.trees 0)) }
    ensures fails { HasCleanDisk (state S.Store tx.new.conn.now) → IsInsideFirst (state S.Store tx.old.conn.now)
        → IfErr result IsDiskFaultOrWant }
    ensures cause { BlamesNoDisk NeedsNoFault S.Store tx.old.conn.now tx.new.conn.now result }
    ensures keeps_committed { KeepsCommitted S.Store tx.old.conn.now tx.new.conn.now }
    ensures survives { Survives (state S.Store tx.old.conn.now) (state S.Store tx.new.conn.now) (λ _. ⊥) }
{
    tx.execute("CREATE TABLE pulled(sent INTEGER PRIMARY KEY) STRICT", &[])?;
    Ok(())
}

/// The version becomes 2.
fn update_version<S: Alter>(tx: &mut Transaction<'_, S>) -> Result<(), Error>
    ensures same_reference { tx.new.conn.ghost_name ≡ tx.old.conn.ghost_name }
    ensures ok { HasCleanDisk (state S.Store tx.new.conn.now) → OnOk result (IsInside (state S.Store tx.old.conn.now)
        → (state S.Store tx.old.conn.now).now.trees 9 ≡ [] → IsInside (state S.Store tx.new.conn.now)
        × ((d : Tables) → d.pulled ≡ [] → AreStoredInVersion1 d (state S.Store tx.old.conn.now).now.trees
        → AreStored d (state S.Store tx.new.conn.now).now.trees)) }
    ensures fails { HasCleanDisk (state S.Store tx.new.conn.now) → (state S.Store tx.old.conn.now).step_limit ≡ None
        → IsInside (state S.Store tx.old.conn.now) → (d : Tables)
        → AreStoredInVersion1 d (state S.Store tx.old.conn.now).now.trees → AreUnique d
        → HasMetaRowids (state S.Store tx.old.conn.now).now.trees → IfErr result IsDiskFaultOrWant }
    ensures cause { BlamesNoDisk NeedsNoFault S.Store tx.old.conn.now tx.new.conn.now result }
    ensures keeps_committed { KeepsCommitted S.Store tx.old.conn.now tx.new.conn.now }
    ensures survives { Survives (state S.Store tx.old.conn.now) (state S.Store tx.new.conn.now) (λ _. ⊥) }
{
    tx.execute("UPDATE meta SET version = 2", &[])?;
    Ok(())
}

fn change_tables<S: Alter>(tx: &mut Transaction<'_, S>) -> Result<(), Error>
    ensures same_reference { tx.new.conn.ghost_name ≡ tx.old.conn.ghost_name }
    ensures ok { HasCleanDisk (state S.Store tx.new.conn.now)
        → OnOk result (IsInsideFirst (state S.Store tx.old.conn.now) → IsInside (state S.Store tx.new.conn.now)
        × ((d : Tables) → d.pulled ≡ [] → AreStoredInVersion1 d (state S.Store tx.old.conn.now).now.trees
        → AreStored d (state S.Store tx.new.conn.now).now.trees)) }
    ensures fails { HasCleanDisk (state S.Store tx.new.conn.now) → (state S.Store tx.old.conn.now).step_limit ≡ None
        → IsInsideFirst (state S.Store tx.old.conn.now) → (d : Tables)
        → AreStoredInVersion1 d (state S.Store tx.old.conn.now).now.trees → AreUnique d
        → HasMetaRowids (state S.Store tx.old.conn.now).now.trees → IfErr result IsDiskFaultOrWant }
    ensures cause { BlamesNoDisk NeedsNoFault S.Store tx.old.conn.now tx.new.conn.now result }
    ensures keeps_committed { KeepsCommitted S.Store tx.old.conn.now tx.new.conn.now }
    ensures survives { Survives (state S.Store tx.old.conn.now) (state S.Store tx.new.conn.now) (λ _. ⊥) }
{
    make_pulled(tx)?;
    update_version(tx)?;
    Ok(())
}

/// Converts the tables of version 1 into those of a desk, in one transaction: the same records, and no sentence is
/// pulled.
///
/// An error leaves the tables of version 1, and so does a crash before the commit. A crash after it leaves the whole
/// tables of the desk.
pub fn upgrade<S: Alter>(conn: &mut Connection<S>) -> Result<(), Error>
    requires autocommit { conn.old.in_transaction ≡ false }
    ensures ok { HasCleanDisk (state S.Store conn.new) → OnOk result ((d : Tables) → d.pulled ≡ []
        → HoldsFirst S.Store conn.old d → Holds S.Store conn.new d) }
    ensures err { HasCleanDisk (state S.Store conn.new) → IsTrue (state S.Store conn.new).is_open
        → OnErr result ((d : Tables) → HoldsFirst S.Store conn.old d → HoldsFirst S.Store conn.new d) }
    ensures fails { HasCleanDisk (state S.Store conn.new) → (state S.Store conn.old).step_limit ≡ None
        → (d : Tables) → HoldsFirst S.Store conn.old d → AreUnique d
        → HasMetaRowids (state S.Store conn.old).now.trees → IfErr result IsDiskFaultOrWant }
    ensures cause { BlamesNoDisk NeedsNoFault S.Store conn.old conn.new result }
    ensures autocommit { conn.new.in_transaction ≡ false }
    ensures crash { Survives (state S.Store conn.old) (state S.Store conn.new) (λ db. (d : Tables) → d.pulled ≡ []
        → HoldsFirst S.Store conn.old d → AreStored d db) }
{
    let mut tx = conn.transaction();
    change_tables(&mut tx)?;
    tx.commit()?;
    Ok(())
}
