//! Desks in files. This module is tested, not proved: no contract ties a file to its path.

ghost use Rattle.std.specs.Prelude.{◌≡◌, ◌≢◌, ◌↔◌, ◌+◌, ◌/◌, ℕ, [], ◌∷◌, Bool, false, true, min, IfErr, IfOk, IsErrAnd, IsOk, IsOkAnd};
ghost use Rattle.std.specs.Prelude.{IsTrue, MatchOption, MatchResult, None, Ok as Opened, Err as ErrOf, Option, Result, string_bytes};
ghost use Rattle.std.specs.declared.io.Error.{Error as SystemError};
ghost use Rattle.sqlite.specs.Files.{IsOpened, file_state, over_files};
ghost use Rattle.sqlite.specs.State.{HasCleanDisk};
ghost use Rattle.sqlite.specs.Steps.{over_memory};
ghost use Rattle.tb_host.specs.Awaiting.{HasWaited, Makes, closed, dropped, undone};
ghost use Rattle.tb_host.specs.Causes.{IsErrorCause, IsFaultCause, reply_of, reply_of_error, reply_of_fault};
ghost use Rattle.tb_host.specs.declared.causes.FileCause.{FileCause as AnyFileCause};
ghost use Rattle.sqlite.specs.declared.error.Error.{Error as DatabaseError};
ghost use Rattle.tb_host.specs.Contents.{IsLogName, IsReserved, IsUndone, cause_to_migrate, is_empty_log, is_missing};
ghost use Rattle.tb_host.specs.Contents.{Path, log_name, may_be_opened, size_of, was_there, what_to_undo};
ghost use Rattle.tb_host.specs.declared.misfit.Misfit.{Misfit as AnyMisfit};
ghost use Rattle.tb_host.specs.declared.found.Found.{Found as FoundFile};
ghost use Rattle.tb_host.specs.Opened.{IsEmptyDesk, IsMadeDesk, IsSomeDesk};

use crate::causes::FileCause;
use crate::contents::{PAGE_BYTES, Version};
use crate::found::Found;
use crate::looking::{beside, may_become_desk, version_of};
use crate::misfit::{Misfit, Rows};
use crate::system::System;
use crate::turns::{Awaited, Turn, locked};
use sqlite::{Connection, Error, ErrorCode, File, FileStore, Leftover, MemStore, Options};
use sqlite_disk::{Disk, Files};
use std::alloc::Global;
use std::hash::{BuildHasher, RandomState};
use std::io;
use std::io::ErrorKind;
use tb_core::{Fault, Limits};
use tb_http::Reply;
use tb_store::{Desk, Unmade};

/// A desk in a file.
#[derive(Drop)]
pub struct FileDesk {
    pub desk: Desk<FileStore<File>>,
}

impl FileDesk {
    /// Closes the file, so that it is complete without its log. A failure here loses nothing: the log beside the file
    /// keeps what was done, and the next command finds it.
    pub fn close(self) {
        let _ = self.desk.into_connection().close();
    }
}

/// The limits of every desk of the program.
const LIMITS: Limits = Limits {
    sentences: 1_000_000,
    moves: 1_000_000_000,
    hits: 1_000_000,
};

/// The cause for a file that the database does not open.
fn cause_of_error(error: Error) -> FileCause
    ensures reply { reply_of result ≡ reply_of_error error }
    ensures cause { IsErrorCause error result }
{
    match error {
        Error::SqliteFailure(ErrorCode::OutOfMemory) => FileCause::Memory,
        Error::SqliteFailure(ErrorCode::DiskFull) => FileCause::of_device(FileCause::Full),
        Error::SqliteFailure(ErrorCode::DatabaseBusy) => FileCause::Busy,
        Error::SqliteFailure(ErrorCode::SystemIoFailure) => FileCause::of_device(FileCause::Failed),
        _ => FileCause::Damaged,
    }
}

/// The cause for a database that cannot be opened as a desk; `not_a_desk` where its tables or rows do not allow it.
fn cause_of_fault(fault: Fault, not_a_desk: FileCause) -> FileCause
    ensures reply { reply_of not_a_desk ≡ Reply.Desk → reply_of result ≡ reply_of_fault fault }
    ensures cause { IsFaultCause fault not_a_desk result }
{
    match fault {
        Fault::Memory => FileCause::Memory,
        Fault::Device | Fault::Output => FileCause::of_device(FileCause::Failed),
        Fault::NotADesk | Fault::Refused(_) => not_a_desk,
    }
}

/// What there is to undo at a log, once opening a file that is no desk has written there.
#[derive(Clone, Copy, PartialEq, Eq)]
enum Undoing {
    /// It had commits, and opening the file wrote nothing.
    Nothing,
    /// It was an empty file, and becomes one again.
    Emptying,
    /// There was none, and it is removed.
    Removing,
}

/// What there is to undo at a log that was empty when the file was locked, or was not, and that was there before, or was
/// not.
fn what_to_undo(is_empty: bool, was_there: bool) -> Undoing
    ensures { result ≡ what_to_undo is_empty was_there }
{
    if !is_empty {
        Undoing::Nothing
    } else if was_there {
        Undoing::Emptying
    } else {
        Undoing::Removing
    }
}

/// What undoing that came to, at the log of this path.
fn undone<S: System>(system: &S, undoing: Undoing, path: &str) -> io::Result<()>
    ensures { IsUndone (S.IsEmptied system.now path.now) (S.IsRemoved system.now path.now) undoing result }
{
    match undoing {
        Undoing::Nothing => Ok(()),
        Undoing::Emptying => system.empty(path),
        Undoing::Removing => system.remove(path),
    }
}

/// Whether an error at a path says that the file there is missing.
fn is_missing(kind: ErrorKind) -> bool
    ensures { result ≡ is_missing kind }
{
    match kind {
        ErrorKind::NotFound => true,
        _ => false,
    }
}

/// Whether a log was there before, by what the system says of it.
fn was_there(found: io::Result<Found>) -> bool
    ensures { result ≡ was_there found }
{
    match found {
        Ok(_) => true,
        Err(error) => !is_missing(error.kind()),
    }
}

/// Whether a log is an empty file, by what the system says of it.
fn is_empty_log(found: io::Result<Found>) -> bool
    ensures { result ≡ is_empty_log found }
{
    match found {
        Ok(found) => found.size == 0,
        Err(_) => false,
    }
}

/// The log beside a file, as it is before the database opens it.
#[derive(Drop)]
struct Log {
    path: String,
    was_there: bool,
    /// Whether the log is an empty file, as seen once the file is locked.
    is_empty: bool,
}

/// The path of the log beside the file at this path, or beside the one to which a link there leads.
fn log_path<S: System>(system: &S, path: &str) -> Result<String, FileCause>
    ensures name { IfOk result (λ name. IsLogName (string_bytes name)) }
    ensures beside { IfOk result (λ name. (real : Result Path AnyFileCause) × S.IsReal system.now path.now real
        × (string_bytes name ≡ log_name path.now real)) }
    ensures cause { IfErr result (λ cause. cause ≡ FileCause.Memory) }
{
    match system.real(path) {
        Ok(real) => beside(system.memory(), real.as_str(), "-wal"),
        Err(_) => beside(system.memory(), path, "-wal"),
    }
}

impl Log {
    /// The log at this path, as it is now. Only the locked file's log is looked into.
    fn unlocked<S: System>(system: &S, path: String) -> Log
        ensures path { result.path ≡ path }
        ensures unseen { result.is_empty ≡ false }
        ensures there { (found : Result FoundFile SystemError) × S.IsFound system.now (string_bytes path) found
            × (result.was_there ≡ was_there found) }
    {
        Log {
            was_there: was_there(system.find(path.as_str())),
            path,
            is_empty: false,
        }
    }

    fn before<S: System>(system: &S, path: &str) -> Result<Log, FileCause>
        ensures name { IfOk result (λ log. IsLogName (string_bytes log.path)) }
        ensures beside { IfOk result (λ log. (real : Result Path AnyFileCause) × S.IsReal system.now path.now real
            × (string_bytes log.path ≡ log_name path.now real)) }
        ensures there { IfOk result (λ log. (found : Result FoundFile SystemError)
            × S.IsFound system.now (string_bytes log.path) found × (log.was_there ≡ was_there found)) }
        ensures unseen { IfOk result (λ log. log.is_empty ≡ false) }
        ensures cause { IfErr result (λ cause. cause ≡ FileCause.Memory) }
    {
        let name = log_path(system, path)?;
        Ok(Log::unlocked(system, name))
    }

    /// Looks at the log again. The file is locked now, so nobody else writes the log.
    fn look<S: System>(&mut self, system: &S)
        ensures same { (self.new.path ≡ self.old.path) × (self.new.was_there ≡ self.old.was_there) }
        ensures seen { (found : Result FoundFile SystemError) × S.IsFound system.now (string_bytes self.old.path) found
            × (self.new.is_empty ≡ is_empty_log found) }
    {
        self.is_empty = is_empty_log(system.find(self.path.as_str()));
    }

    /// Undoes what opening a file that is no desk has written there. The file is still locked.
    fn undo<S: System>(&self, system: &S) -> io::Result<()>
        ensures { IsUndone (S.IsEmptied system.now (string_bytes self.now.path))
            (S.IsRemoved system.now (string_bytes self.now.path))
            (what_to_undo self.now.is_empty self.now.was_there) result }
    {
        undone(
            system,
            what_to_undo(self.is_empty, self.was_there),
            self.path.as_str(),
        )
    }
}

/// The most pages of a file that are kept in memory: 192 MiB.
const MOST_PAGES: u64 = 49_152;

/// How many pages beyond those of the file are kept for a command that adds few or none.
pub const ROOM: u64 = 64;

/// The same for a command that may add many.
pub const ROOM_TO_GROW: u64 = 2_000;

/// The same for a server: 84 MiB, the pages of 64 MB of text. Each search reads the pages beyond this room again.
pub const ROOM_TO_SERVE: u64 = 21_504;

/// How many pages are kept in memory for a file of so many bytes, so that each is read once: all pages of the file, and
/// room for more. Memory for all of them is reserved at once, so a small desk has to take little.
fn pages_kept(bytes: u64, room: u64) -> u64
    ensures { result ≡ min (bytes / 4096 + room) 49152 }
{
    (bytes / PAGE_BYTES).saturating_add(room).min(MOST_PAGES)
}

/// The size of a file, by what the system says of it.
fn size_of(found: io::Result<Found>) -> u64
    ensures { result ≡ size_of found }
{
    match found {
        Ok(found) => found.size,
        Err(_) => 0,
    }
}

/// How many pages are kept for the file at this path.
fn pages_to_keep<S: System>(system: &S, path: &str, room: u64) -> usize
    ensures { (found : Result FoundFile SystemError) × S.IsFound system.now path.now found
        × (result ≡ min (size_of found / 4096 + room) 49152) }
{
    pages_kept(size_of(system.find(path)), room) as usize
}

/// The options with which the database opens a file, where the system gives random numbers.
fn options_by(random: io::Result<RandomState>, pages: usize) -> Result<Options, FileCause>
    ensures pages { IfOk result (λ o. o.cache_pages ≡ pages) }
    ensures some { IsOk result ↔ IsOk random }
    ensures cause { IfErr result (λ cause. cause ≡ FileCause.NoRandom) }
{
    match random {
        Ok(state) => Ok(Options {
            cache_pages: pages,
            ..Options::new(state.hash_one(&0u8))
        }),
        Err(_) => Err(FileCause::NoRandom),
    }
}

fn options(rt: &HostRuntime, path: &str, room: u64) -> Result<Options, FileCause>
    ensures pages { IfOk result (λ o. (bytes : ℕ) × (o.cache_pages ≡ min (bytes / 4096 + room) 49152)) }
    ensures cause { IfErr result (λ cause. cause ≡ FileCause.NoRandom) }
{
    options_by(RandomState::new(rt), pages_to_keep(rt, path, room))
}

/// The connection that the database has opened over files, or the cause for which it has not. Where they are no
/// database, the log stays as it was.
fn connection<S: System, D: Disk + Drop>(
    system: &S,
    log: &Log,
    opened: Result<Connection<FileStore<D>>, (Error, Leftover<D>)>,
) -> Result<Connection<FileStore<D>>, FileCause>
    ensures { MatchResult opened (λ c. result ≡ Opened c)
        (λ e. IsErrAnd result (λ cause. (reply_of cause ≡ reply_of_error e.0) × IsErrorCause e.0 cause)) }
{
    match opened {
        Ok(conn) => Ok(conn),
        Err((error, left)) => {
            let cause = cause_of_error(error);
            if cause.is_no_desk() {
                let _ = log.undo(system);
            }
            drop(left);
            Err(cause)
        }
    }
}

/// A connection over these files, in no transaction. Where they are no database, the log stays as it was.
fn over<S: System, D: Disk + Drop>(
    system: &S,
    files: Files<D>,
    log: &Log,
    options: Options,
) -> Result<Connection<FileStore<D>>, FileCause>
    requires log { IsTrue (D.Disk.is_usable files.log) }
    requires db { IsTrue (D.Disk.is_usable files.db) }
    ensures new { IfOk result (λ c. c.in_transaction ≡ false) }
    ensures opened { IfOk result (λ c. HasCleanDisk (file_state c) → IsOpened c) }
    ensures cause { IfErr result (λ cause. (e : DatabaseError) × (reply_of cause ≡ reply_of_error e)
        × IsErrorCause e cause) }
{
    connection(
        system,
        log,
        Connection::open_files(system.memory(), files, options),
    )
}

/// The same once the files are locked: only then nobody else writes the log, and it is looked at again.
fn over_locked<S: System, D: Disk + Drop>(
    system: &S,
    files: Files<D>,
    log: &mut Log,
    options: Options,
) -> Result<Connection<FileStore<D>>, FileCause>
    requires log { IsTrue (D.Disk.is_usable files.log) }
    requires db { IsTrue (D.Disk.is_usable files.db) }
    ensures new { IfOk result (λ c. c.in_transaction ≡ false) }
    ensures opened { IfOk result (λ c. HasCleanDisk (file_state c) → IsOpened c) }
    ensures cause { IfErr result (λ cause. (e : DatabaseError) × (reply_of cause ≡ reply_of_error e)
        × IsErrorCause e cause) }
    ensures same { (log.new.path ≡ log.old.path) × (log.new.was_there ≡ log.old.was_there) }
    ensures seen { (found : Result FoundFile SystemError) × S.IsFound system.now (string_bytes log.old.path) found
        × (log.new.is_empty ≡ is_empty_log found) }
{
    log.look(system);
    over(system, files, log, options)
}

/// A connection to a file that a command waits for, in no transaction. Until it is locked, its log is not looked at.
fn connect_to<S: System, D: Disk + Drop, A: Awaited<D>>(
    system: &S,
    awaited: &mut A,
    log: &mut Log,
    options: Options,
) -> Result<Connection<FileStore<D>>, FileCause>
    ensures new { IfOk result (λ c. c.in_transaction ≡ false) }
    ensures opened { IfOk result (λ c. HasCleanDisk (file_state c) → IsOpened c) }
    ensures same { (log.new.path ≡ log.old.path) × (log.new.was_there ≡ log.old.was_there) }
    ensures waited { (ended : Option AnyFileCause) × HasWaited (A.calls awaited.old) (A.calls awaited.new) ended
        × MatchOption ended
        ((found : Result FoundFile SystemError) × S.IsFound system.now (string_bytes log.old.path) found
        × (log.new.is_empty ≡ is_empty_log found)
        × IfErr result (λ cause. (e : DatabaseError) × IsErrorCause e cause))
        (λ cause. (result ≡ ErrOf cause) × (log.new ≡ log.old)) }
{
    match locked(awaited) {
        Ok(files) => over_locked(system, files, log, options),
        Err(cause) => Err(cause),
    }
}

/// A connection to the file at this path, in no transaction, with room for so many pages more. It waits for a file
/// that another command has open.
fn connect(
    rt: &HostRuntime,
    program: &str,
    path: &str,
    log: &mut Log,
    room: u64,
) -> Result<Connection<FileStore<File>>, FileCause>
    ensures new { IfOk result (λ c. c.in_transaction ≡ false) }
    ensures opened { IfOk result (λ c. HasCleanDisk (file_state c) → IsOpened c) }
{
    let options = options(rt, path, room)?;
    let mut turn = Turn::new(rt, program, path)?;
    connect_to(rt, &mut turn, log, options)
}

/// What is wrong first with rows, where words are wanted.
fn misfit_if<R: Rows>(is_wanted: bool, alloc: Global, rows: &mut R) -> Option<Misfit>
    ensures wanted { is_wanted ≡ true → R.IsMisfit rows.old result }
    ensures unwanted { is_wanted ≡ false → (result ≡ None) × (rows.new ≡ rows.old) }
{
    if is_wanted {
        rows.first_misfit(alloc)
    } else {
        None
    }
}

/// What is wrong first with the rows of a file that is no desk, where words are wanted.
fn misfit_of<S: System, R: Rows>(system: &S, fault: Fault, rows: &mut R) -> Option<Misfit>
    ensures other { fault ≢ Fault.NotADesk → (result ≡ None) × (rows.new ≡ rows.old) }
    ensures no_desk { fault ≡ Fault.NotADesk → (wanted : Bool) × S.WantsWords system.now wanted
        × (wanted ≡ true → R.IsMisfit rows.old result)
        × (wanted ≡ false → (result ≡ None) × (rows.new ≡ rows.old)) }
{
    // Of a device that failed the system is asked nothing more here: its last error is the device's.
    if fault != Fault::NotADesk {
        return None;
    }
    misfit_if(system.wants_words(), system.memory(), rows)
}

/// A file that is let go, in which no desk was opened or made.
trait Parts {
    ghost use Rattle.std.specs.Prelude.{[], ◌∷◌, List, Option, string_bytes};
    ghost use Rattle.tb_host.specs.Awaiting.{Makes, Parting, closed, dropped, undone};

    // what was done to it, where that is kept
    ghost done: { Self → Option (List Parting) };

    /// Undoes what opening it has written to its log.
    fn undo(&mut self, log: &Log)
        ensures { Makes (done self.old) (done self.new) (undone (string_bytes log.now.path) ∷ []) };

    /// Lets it go as it is.
    fn let_go(&mut self)
        ensures { Makes (done self.old) (done self.new) (dropped ∷ []) };

    /// Writes its log into it, and lets it go.
    fn close(&mut self)
        ensures { Makes (done self.old) (done self.new) (closed ∷ []) };
}

/// A connection to a file of the system's, until it is let go.
#[derive(Drop)]
struct Connected<'a, S> {
    system: &'a S,
    conn: Option<Connection<FileStore<File>>>,
}

impl<S: System> Parts for Connected<'_, S> {
    ghost use Rattle.std.specs.Prelude.{None};

    ghost done = { λ _. None };

    fn undo(&mut self, log: &Log) {
        let _ = log.undo(self.system);
    }

    fn let_go(&mut self) {
        self.conn = None;
    }

    fn close(&mut self) {
        if let Some(conn) = self.conn.take() {
            let _ = conn.close();
        }
    }
}

/// Lets a file go that is no desk. Its log becomes what it was before that, while the file is still locked.
fn leave<P: Parts>(file: &mut P, log: &Log)
    ensures { Makes (P.done file.old) (P.done file.new) (undone (string_bytes log.now.path) ∷ (dropped ∷ [])) }
{
    file.undo(log);
    file.let_go();
}

/// Lets a file go. What is no desk stays as it was.
fn part_with<P: Parts>(file: &mut P, log: &Log, is_no_desk: bool)
    ensures no_desk { is_no_desk ≡ true → Makes (P.done file.old) (P.done file.new)
        (undone (string_bytes log.now.path) ∷ (dropped ∷ [])) }
    ensures desk { is_no_desk ≡ false → Makes (P.done file.old) (P.done file.new) (closed ∷ []) }
{
    if is_no_desk {
        leave(file, log);
    } else {
        file.close();
    }
}

/// Why no desk was made of a connection. The file is closed, and what is no desk stays as it was.
fn given_up<S: System>(
    system: &S,
    log: &Log,
    fault: Fault,
    conn: Connection<FileStore<File>>,
    not_a_desk: FileCause,
) -> FileCause
    ensures reply { reply_of not_a_desk ≡ Reply.Desk → reply_of result ≡ reply_of_fault fault }
    ensures cause { IsFaultCause fault not_a_desk result }
{
    let cause = cause_of_fault(fault, not_a_desk);
    let mut file = Connected {
        system,
        conn: Some(conn),
    };
    part_with(&mut file, log, cause.is_no_desk());
    cause
}

/// The desk that was opened over a connection to a file, or the cause for which none was. Its words name the row that is
/// wrong.
fn opened_in_file<S: System>(
    system: &S,
    log: &Log,
    adopted: Result<Desk<FileStore<File>>, Unmade<FileStore<File>>>,
) -> Result<FileDesk, FileCause>
    ensures opened { MatchResult adopted (λ d. IsOkAnd result (λ file. file.desk ≡ d))
        (λ u. IsErrAnd result (λ cause. reply_of cause ≡ reply_of_fault u.fault)) }
    ensures cause { IfErr adopted (λ u. (misfit : Option AnyMisfit)
        × IsErrAnd result (IsFaultCause u.fault (FileCause.Rows misfit))) }
{
    match adopted {
        Ok(desk) => Ok(FileDesk { desk }),
        Err(Unmade { fault, mut conn }) => {
            let not_a_desk = FileCause::Rows(misfit_of(system, fault, &mut conn));
            Err(given_up(system, log, fault, conn, not_a_desk))
        }
    }
}

/// The desk that was made or migrated over a connection to a file, or the cause for which none was.
fn made_in_file<S: System>(
    system: &S,
    log: &Log,
    made: Result<Desk<FileStore<File>>, Unmade<FileStore<File>>>,
    not_a_desk: FileCause,
) -> Result<FileDesk, FileCause>
    ensures made { reply_of not_a_desk ≡ Reply.Desk → MatchResult made
        (λ d. IsOkAnd result (λ file. file.desk ≡ d))
        (λ u. IsErrAnd result (λ cause. reply_of cause ≡ reply_of_fault u.fault)) }
    ensures cause { IfErr made (λ u. IsErrAnd result (IsFaultCause u.fault not_a_desk)) }
{
    match made {
        Ok(desk) => Ok(FileDesk { desk }),
        Err(Unmade { fault, conn }) => Err(given_up(system, log, fault, conn, not_a_desk)),
    }
}

/// Refuses a desk of another version than today's.
fn may_be_opened(version: Version) -> Result<(), FileCause>
    ensures { result ≡ may_be_opened version }
{
    match version {
        Version::Two => Ok(()),
        Version::One => Err(FileCause::Version1),
    }
}

/// The cause for a desk of this version that cannot be migrated: its rows, or its version.
fn cause_to_migrate(version: Version) -> FileCause
    ensures { result ≡ cause_to_migrate version }
{
    match version {
        Version::One => FileCause::Rows(None),
        Version::Two => FileCause::Version2,
    }
}

/// Refuses a file that by its first bytes, and those of its log, is not a desk of version 2. The file is not changed.
pub fn look(rt: &HostRuntime, path: &str) -> Result<(), FileCause>
    ensures { IsReserved path.now → result ≡ ErrOf FileCause.ReservedName }
{
    may_be_opened(version_of(rt, path)?)
}

/// A desk in memory, without a batch.
pub fn in_memory(rt: &HostRuntime) -> Result<Desk<MemStore>, Fault>
    ensures { IfOk result (IsEmptyDesk over_memory) }
{
    Desk::in_memory(rt.alloc(), LIMITS)
}

/// The desk of the file at this path, with room for so many pages more.
pub fn open(rt: &HostRuntime, program: &str, path: &str, room: u64) -> Result<FileDesk, FileCause>
    ensures desk { IfOk result (λ opened. IsSomeDesk over_files opened.desk) }
    ensures reserved { IsReserved path.now → result ≡ ErrOf FileCause.ReservedName }
{
    look(rt, path)?;
    let mut log = Log::before(rt, path)?;
    let conn = connect(rt, program, path, &mut log, room)?;
    opened_in_file(rt, &log, Desk::adopt(rt.alloc(), conn, LIMITS))
}

/// Migrates the desk of version 1 in the file at this path to version 2.
pub fn migrate(rt: &HostRuntime, program: &str, path: &str) -> Result<FileDesk, FileCause>
    ensures desk { IfOk result (λ migrated. IsSomeDesk over_files migrated.desk) }
    ensures reserved { IsReserved path.now → result ≡ ErrOf FileCause.ReservedName }
{
    let not_a_desk = cause_to_migrate(version_of(rt, path)?);
    let mut log = Log::before(rt, path)?;
    let conn = connect(rt, program, path, &mut log, ROOM)?;
    made_in_file(
        rt,
        &log,
        Desk::migrate(rt.alloc(), conn, LIMITS),
        not_a_desk,
    )
}

/// Makes a desk in the file at this path. The file is missing, empty or a blank database.
pub fn make(rt: &HostRuntime, program: &str, path: &str) -> Result<FileDesk, FileCause>
    ensures desk { IfOk result (λ made. IsMadeDesk over_files made.desk) }
    ensures reserved { IsReserved path.now → result ≡ ErrOf FileCause.ReservedName }
{
    may_become_desk(rt, path)?;
    let mut log = Log::before(rt, path)?;
    let conn = match connect(rt, program, path, &mut log, ROOM) {
        Ok(conn) => conn,
        Err(cause) => return Err(cause.of_new()),
    };
    made_in_file(
        rt,
        &log,
        Desk::make(rt.alloc(), conn, LIMITS),
        FileCause::NotBlank,
    )
}
