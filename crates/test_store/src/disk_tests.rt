//! Desks in files, on a disk in memory. One is made, left and opened again, and a file that is no desk is refused.

ghost use Rattle.std.specs.Prelude.{◌≡◌, IsTrue, false};
ghost use Rattle.sqlite_disk.specs.Memory.{memory_is_usable};

use crate::asking::assert_obeyed;
use crate::telling::{assert_holds, assert_same};
use sqlite::{Alter, Connection, FileStore, Options};
use sqlite_disk::{Files, Memory};
use std::alloc::Global;
use std::process::Abort;
use tb_core::{Fault, Limits};
use tb_store::{Desk, Unmade};

type Store = FileStore<Memory>;

const LIMITS: Limits = Limits {
    sentences: 1000,
    moves: 1000,
    hits: 1000,
};

/// A connection over a file whose log is empty.
fn connect(rt: &impl Abort, alloc: Global, db: Memory) -> Connection<Store>
    requires usable { IsTrue (memory_is_usable db) }
    ensures { result.in_transaction ≡ false }
{
    let log = Memory::new(alloc);
    let options = Options {
        cache_pages: 16,
        ..Options::new(1)
    };
    match Connection::open_files(alloc, Files { log, db }, options) {
        Ok(conn) => conn,
        Err((error, _)) => rt.panic(error),
    }
}

/// The file that a connection leaves. Desks are over any store here, which costs the prover less than over files.
fn leave(rt: &impl Abort, conn: Connection<Store>) -> Memory
    ensures { IsTrue (memory_is_usable result) }
{
    match conn.close_files() {
        Ok(Files { log: _, db }) => db,
        Err((error, _)) => rt.panic(error),
    }
}

/// The desk that was made.
fn made<S: Alter + Drop>(rt: &impl Abort, desk: Result<Desk<S>, Unmade<S>>) -> Desk<S> {
    match desk {
        Ok(desk) => desk,
        Err(unmade) => rt.panic(unmade.fault),
    }
}

/// Asserts that there is no desk, since the file is none.
fn assert_no_desk<S: Alter + Drop>(rt: &impl Abort, desk: Result<Desk<S>, Unmade<S>>, of: &str) {
    match desk {
        Ok(_) => rt.panic(of),
        Err(unmade) => assert_same(rt, &unmade.fault, &Fault::NotADesk, of),
    }
}

fn assert_not_made<S: Alter + Drop>(rt: &impl Abort, alloc: Global, conn: Connection<S>)
    requires { conn.in_transaction ≡ false }
{
    let desk = Desk::make(alloc, conn, LIMITS);
    assert_no_desk(rt, desk, "a desk that is made");
}

fn assert_not_adopted<S: Alter + Drop>(rt: &impl Abort, alloc: Global, conn: Connection<S>) {
    let desk = Desk::adopt(alloc, conn, LIMITS);
    assert_no_desk(rt, desk, "a desk that is adopted");
}

fn assert_not_migrated<S: Alter + Drop>(rt: &impl Abort, alloc: Global, conn: Connection<S>) {
    let desk = Desk::migrate(alloc, conn, LIMITS);
    assert_no_desk(rt, desk, "a desk that is migrated");
}

fn assert_open<S: Alter>(rt: &impl Abort, desk: &mut Desk<S>) {
    assert_same(rt, &desk.is_open(), &Ok(true), "whether the desk is open");
}

/// Imports one batch. The desk is open before and after that.
fn fill<S: Alter>(rt: &impl Abort, alloc: Global, desk: &mut Desk<S>) {
    assert_open(rt, desk);
    let wanted = "imported batch=1 first=1 sentences=1 words=3";
    assert_obeyed(rt, alloc, desk, "import b1 ann dogs", wanted);
    assert_open(rt, desk);
}

/// Makes a desk, and imports one batch.
fn filled<S: Alter + Drop>(rt: &impl Abort, alloc: Global, conn: Connection<S>) -> Connection<S>
    requires { conn.in_transaction ≡ false }
{
    let mut desk = made(rt, Desk::make(alloc, conn, LIMITS));
    fill(rt, alloc, &mut desk);
    desk.into_connection()
}

/// The file of a desk with one batch.
fn one_batch(rt: &impl Abort, alloc: Global) -> Memory
    ensures { IsTrue (memory_is_usable result) }
{
    let conn = connect(rt, alloc, Memory::new(alloc));
    leave(rt, filled(rt, alloc, conn))
}

/// Asserts what a desk with one batch holds.
fn assert_filled<S: Alter + Drop>(rt: &impl Abort, alloc: Global, conn: Connection<S>) {
    let mut desk = made(rt, Desk::adopt(alloc, conn, LIMITS));
    assert_open(rt, &mut desk);
    assert_holds(rt, !desk.is_in_doubt(), "a desk in doubt");
    let standing = "desk open,1,3 1,import,1,0,none,open,1,0,3,ann";
    assert_obeyed(rt, alloc, &mut desk, "standing", standing);
}

/// What is asserted of a file.
#[derive(Clone, Copy)]
enum Asserted {
    NotMade,
    NotAdopted,
    NotMigrated,
    Filled,
}

fn assert_over<S: Alter + Drop>(
    rt: &impl Abort,
    alloc: Global,
    conn: Connection<S>,
    asserted: Asserted,
)
    requires { conn.in_transaction ≡ false }
{
    match asserted {
        Asserted::NotMade => assert_not_made(rt, alloc, conn),
        Asserted::NotAdopted => assert_not_adopted(rt, alloc, conn),
        Asserted::NotMigrated => assert_not_migrated(rt, alloc, conn),
        Asserted::Filled => assert_filled(rt, alloc, conn),
    }
}

/// Opens a file, and asserts this of it. Each function that opens one costs the prover much.
fn assert_of(rt: &impl Abort, alloc: Global, db: Memory, asserted: Asserted)
    requires usable { IsTrue (memory_is_usable db) }
{
    assert_over(rt, alloc, connect(rt, alloc, db), asserted);
}

/// A desk that was left is opened again as it was, and is open.
#[test]
fn a_desk_is_left_and_adopted(rt: HostRuntime) {
    let db = one_batch(&rt, rt.alloc());
    assert_of(&rt, rt.alloc(), db, Asserted::Filled);
}

/// A blank file is no desk, and no desk of version 1.
#[test]
fn a_blank_file_is_no_desk(rt: HostRuntime) {
    let alloc = rt.alloc();
    assert_of(&rt, alloc, Memory::new(alloc), Asserted::NotAdopted);
    assert_of(&rt, alloc, Memory::new(alloc), Asserted::NotMigrated);
}

/// A desk is not made over another, and a desk of today is none of version 1.
#[test]
fn a_desk_is_not_made_twice(rt: HostRuntime) {
    let alloc = rt.alloc();
    let db = one_batch(&rt, alloc);
    assert_of(&rt, alloc, db, Asserted::NotMade);
    let db = one_batch(&rt, alloc);
    assert_of(&rt, alloc, db, Asserted::NotMigrated);
}
