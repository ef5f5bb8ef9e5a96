//! The tables of a new desk.

ghost use Rattle.std.specs.Prelude.{◌≡◌, ◌↔◌, false, None, IsTrue, IfErr, OnOk, OnErr};
ghost use Rattle.sqlite.specs.State.{HasCleanDisk, Survives};
ghost use Rattle.sqlite.specs.Held.{state};
ghost use Rattle.sqlite.specs.Table.{Table};
ghost use Rattle.sqlite.specs.Schema.{Schema};
ghost use Rattle.sqlite.specs.Change.{created};
ghost use Rattle.tb_tables.specs.Layout.{desk_schema};
ghost use Rattle.tb_tables.specs.Records.{AreStored};
ghost use Rattle.tb_tables.specs.Changes.{IsInside, Holds};
ghost use Rattle.tb_tables.specs.Making.{no_schema, first_schema, empty_tables, IsBlank, IsBare, IsVersioned, Makes};
ghost use Rattle.tb_tables.specs.Making.{Takes};
ghost use Rattle.tb_tables.specs.Failing.{IsDiskFaultOrWant, NeedsNoFault};
ghost use Rattle.tb_tables.specs.Leaving.{BlamesNoDisk, KeepsCommitted};

use sqlite::{Alter, Connection, Error, Transaction};

/// Makes one table.
fn make<S: Alter>(tx: &mut Transaction<'_, S>, text: &str) -> Result<(), Error>
    ensures same_reference { tx.new.conn.ghost_name ≡ tx.old.conn.ghost_name }
    ensures ok { HasCleanDisk (state S.Store tx.new.conn.now) → OnOk result ((schema : Schema) (table : Table)
        → IsBare (state S.Store tx.old.conn.now) schema → Makes schema text.now table
        → IsBare (state S.Store tx.new.conn.now) (created schema table)) }
    ensures fails { HasCleanDisk (state S.Store tx.new.conn.now) → (schema : Schema) → (table : Table)
        → IsBare (state S.Store tx.old.conn.now) schema → Makes schema text.now table → Takes schema text.now
        → IfErr result IsDiskFaultOrWant }
    ensures cause { BlamesNoDisk NeedsNoFault S.Store tx.old.conn.now tx.new.conn.now result }
    ensures keeps_committed { KeepsCommitted S.Store tx.old.conn.now tx.new.conn.now }
    ensures survives { Survives (state S.Store tx.old.conn.now) (state S.Store tx.new.conn.now) (λ _. ⊥) }
{
    tx.execute(text, &[])?;
    Ok(())
}

/// Makes the tables of the version, the batches, the sentences and their revisions.
fn make_first<S: Alter>(tx: &mut Transaction<'_, S>) -> Result<(), Error>
    ensures same_reference { tx.new.conn.ghost_name ≡ tx.old.conn.ghost_name }
    ensures ok { HasCleanDisk (state S.Store tx.new.conn.now)
        → OnOk result (IsBare (state S.Store tx.old.conn.now) no_schema
        → IsBare (state S.Store tx.new.conn.now) first_schema) }
    ensures fails { HasCleanDisk (state S.Store tx.new.conn.now) → IsBare (state S.Store tx.old.conn.now) no_schema
        → IfErr result IsDiskFaultOrWant }
    ensures cause { BlamesNoDisk NeedsNoFault S.Store tx.old.conn.now tx.new.conn.now result }
    ensures keeps_committed { KeepsCommitted S.Store tx.old.conn.now tx.new.conn.now }
    ensures survives { Survives (state S.Store tx.old.conn.now) (state S.Store tx.new.conn.now) (λ _. ⊥) }
{
    make(tx, "CREATE TABLE meta(version INTEGER NOT NULL) STRICT")?;
    make(
        tx,
        "CREATE TABLE batches(no INTEGER PRIMARY KEY, name TEXT NOT NULL UNIQUE, state INTEGER NOT NULL, worker TEXT NOT NULL) STRICT",
    )?;
    make(
        tx,
        "CREATE TABLE sentences(no INTEGER PRIMARY KEY, sent_id TEXT NOT NULL UNIQUE, batch INTEGER NOT NULL, rev INTEGER NOT NULL, words INTEGER NOT NULL) STRICT",
    )?;
    make(
        tx,
        "CREATE TABLE revisions(sent INTEGER NOT NULL, rev INTEGER NOT NULL, who TEXT NOT NULL, body TEXT NOT NULL, PRIMARY KEY(sent, rev)) STRICT",
    )?;
    Ok(())
}

/// Makes the tables of the moves, the totals and the pulled sentences.
fn make_last<S: Alter>(tx: &mut Transaction<'_, S>) -> Result<(), Error>
    ensures same_reference { tx.new.conn.ghost_name ≡ tx.old.conn.ghost_name }
    ensures ok { HasCleanDisk (state S.Store tx.new.conn.now)
        → OnOk result (IsBare (state S.Store tx.old.conn.now) first_schema
        → IsBare (state S.Store tx.new.conn.now) desk_schema) }
    ensures fails { HasCleanDisk (state S.Store tx.new.conn.now) → IsBare (state S.Store tx.old.conn.now) first_schema
        → IfErr result IsDiskFaultOrWant }
    ensures cause { BlamesNoDisk NeedsNoFault S.Store tx.old.conn.now tx.new.conn.now result }
    ensures keeps_committed { KeepsCommitted S.Store tx.old.conn.now tx.new.conn.now }
    ensures survives { Survives (state S.Store tx.old.conn.now) (state S.Store tx.new.conn.now) (λ _. ⊥) }
{
    make(
        tx,
        "CREATE TABLE moves(no INTEGER PRIMARY KEY, kind INTEGER NOT NULL, batch INTEGER NOT NULL, sent INTEGER NOT NULL, from_state INTEGER NOT NULL, to_state INTEGER NOT NULL, sentences INTEGER NOT NULL, words_out INTEGER NOT NULL, words_in INTEGER NOT NULL, who TEXT NOT NULL) STRICT",
    )?;
    make(
        tx,
        "CREATE TABLE totals(state INTEGER PRIMARY KEY, sentences INTEGER NOT NULL, words INTEGER NOT NULL) STRICT",
    )?;
    make(tx, "CREATE TABLE pulled(sent INTEGER PRIMARY KEY) STRICT")?;
    Ok(())
}

/// Inserts the version of the tables.
fn insert_version<S: Alter>(tx: &mut Transaction<'_, S>) -> Result<(), Error>
    ensures same_reference { tx.new.conn.ghost_name ≡ tx.old.conn.ghost_name }
    ensures ok { HasCleanDisk (state S.Store tx.new.conn.now)
        → OnOk result (IsBare (state S.Store tx.old.conn.now) desk_schema
        → IsVersioned (state S.Store tx.new.conn.now)) }
    ensures fails { HasCleanDisk (state S.Store tx.new.conn.now) → (state S.Store tx.old.conn.now).step_limit ≡ None
        → IsBare (state S.Store tx.old.conn.now) desk_schema → IfErr result IsDiskFaultOrWant }
    ensures cause { BlamesNoDisk NeedsNoFault S.Store tx.old.conn.now tx.new.conn.now result }
    ensures keeps_committed { KeepsCommitted S.Store tx.old.conn.now tx.new.conn.now }
    ensures survives { Survives (state S.Store tx.old.conn.now) (state S.Store tx.new.conn.now) (λ _. ⊥) }
{
    tx.execute("INSERT INTO meta(version) VALUES (2)", &[])?;
    Ok(())
}

/// Inserts zeros for each of the six states.
fn insert_totals<S: Alter>(tx: &mut Transaction<'_, S>) -> Result<(), Error>
    ensures same_reference { tx.new.conn.ghost_name ≡ tx.old.conn.ghost_name }
    ensures ok { HasCleanDisk (state S.Store tx.new.conn.now)
        → OnOk result (IsVersioned (state S.Store tx.old.conn.now) → IsInside (state S.Store tx.new.conn.now)
        × AreStored empty_tables (state S.Store tx.new.conn.now).now.trees) }
    ensures fails { HasCleanDisk (state S.Store tx.new.conn.now) → (state S.Store tx.old.conn.now).step_limit ≡ None
        → IsVersioned (state S.Store tx.old.conn.now) → IfErr result IsDiskFaultOrWant }
    ensures cause { BlamesNoDisk NeedsNoFault S.Store tx.old.conn.now tx.new.conn.now result }
    ensures keeps_committed { KeepsCommitted S.Store tx.old.conn.now tx.new.conn.now }
    ensures survives { Survives (state S.Store tx.old.conn.now) (state S.Store tx.new.conn.now) (λ _. ⊥) }
{
    tx.execute(
        "INSERT INTO totals(state, sentences, words) VALUES (1, 0, 0), (2, 0, 0), (3, 0, 0), (4, 0, 0), (5, 0, 0), (6, 0, 0)",
        &[],
    )?;
    Ok(())
}

/// Makes all tables with their first rows.
fn make_all<S: Alter>(tx: &mut Transaction<'_, S>) -> Result<(), Error>
    ensures same_reference { tx.new.conn.ghost_name ≡ tx.old.conn.ghost_name }
    ensures ok { HasCleanDisk (state S.Store tx.new.conn.now)
        → OnOk result (IsBare (state S.Store tx.old.conn.now) no_schema → IsInside (state S.Store tx.new.conn.now)
        × AreStored empty_tables (state S.Store tx.new.conn.now).now.trees) }
    ensures fails { HasCleanDisk (state S.Store tx.new.conn.now) → (state S.Store tx.old.conn.now).step_limit ≡ None
        → IsBare (state S.Store tx.old.conn.now) no_schema → IfErr result IsDiskFaultOrWant }
    ensures cause { BlamesNoDisk NeedsNoFault S.Store tx.old.conn.now tx.new.conn.now result }
    ensures keeps_committed { KeepsCommitted S.Store tx.old.conn.now tx.new.conn.now }
    ensures survives { Survives (state S.Store tx.old.conn.now) (state S.Store tx.new.conn.now) (λ _. ⊥) }
{
    make_first(tx)?;
    make_last(tx)?;
    insert_version(tx)?;
    insert_totals(tx)?;
    Ok(())
}

/// Whether a database has no table, index or view.
pub fn is_blank<S: Alter>(conn: &Connection<S>) -> bool
    ensures { IsTrue result ↔ (state S.Store conn.now).now.schema ≡ no_schema }
{
    let schema = conn.schema();
    schema.tables.is_empty() && schema.indexes.is_empty() && schema.views.is_empty()
}

/// Makes the tables of a new desk in a blank database, in one transaction.
///
/// After an error, or a crash before the commit, the database is blank. After the commit, a crash leaves all tables of
/// the new desk.
pub fn create<S: Alter>(conn: &mut Connection<S>) -> Result<(), Error>
    requires autocommit { conn.old.in_transaction ≡ false }
    ensures ok { HasCleanDisk (state S.Store conn.new) → OnOk result (IsBlank S.Store conn.old
        → Holds S.Store conn.new empty_tables) }
    ensures err { HasCleanDisk (state S.Store conn.new) → IsTrue (state S.Store conn.new).is_open
        → OnErr result (IsBlank S.Store conn.old → IsBlank S.Store conn.new) }
    ensures fails { HasCleanDisk (state S.Store conn.new) → (state S.Store conn.old).step_limit ≡ None
        → IsBlank S.Store conn.old → IfErr result IsDiskFaultOrWant }
    ensures cause { BlamesNoDisk NeedsNoFault S.Store conn.old conn.new result }
    ensures autocommit { conn.new.in_transaction ≡ false }
    ensures crash { Survives (state S.Store conn.old) (state S.Store conn.new) (λ db. IsBlank S.Store conn.old
        → AreStored empty_tables db) }
{
    let mut tx = conn.transaction();
    make_all(&mut tx)?;
    tx.commit()?;
    Ok(())
}

/// What a crash may leave of a desk whose connection is open and in no transaction: all its records.
pub fn left_by_a_crash<S: Alter>(_conn: &Connection<S>)
    ensures { (d : _) → Holds S.Store _conn.now d → (db : _) → (state S.Store _conn.now).may_leave db
        → AreStored d db }
{}
