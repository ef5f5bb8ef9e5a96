//! What a file is, by its own bytes, before the database opens it. Opening a file writes a log beside it, even where
//! the file is no desk.

ghost use Rattle.std.specs.Prelude.{◌≡◌, ◌⊎◌, ◌↔◌, ◌++◌, ◌<◌, ◌≤◌, ℕ, List, Bool, IfErr, IfOk, IsOkAnd, IsSomeAnd};
ghost use Rattle.std.specs.Prelude.{IsTrue, Err as ErrOf, MatchResult, None, OnOk, Option, Some, codes, false};
ghost use Rattle.std.specs.Prelude.{[], string_bytes, true};
ghost use Rattle.std.specs.Fs.{IsDir, IsFile, IsSymlink, file_type, metadata_len};
ghost use Rattle.std.specs.Path.{path_buf_bytes};
ghost use Rattle.std.specs.declared.fs.attrs.Metadata.{Metadata};
ghost use Rattle.tb_host.specs.Contents.{BeginsWith, HasNoJournal, HasOwnLog, IsBlank, IsListed, IsOtherFile};
ghost use Rattle.tb_host.specs.Contents.{HasDeskAt, HasJournal, HasOtherLog, IsUnlisted, IsUnlistedAlone, IsUnversioned};
ghost use Rattle.tb_host.specs.Contents.{HasNoLink, IsDead, IsFailedAt, IsNameCause, IsNotPlain, IsReserved, LeadsTo, ListsDesk};
ghost use Rattle.tb_host.specs.Contents.{IsNoPlace, IsUnmakeable, ListsTables, MayBeOwnLog, MayBecomeDesk, Path};
ghost use Rattle.tb_host.specs.Contents.{is_hot, is_looked_at_again, odd_cause, own_log_limit, place_of, version_by};

use crate::causes::FileCause;
use crate::contents::{Version, is_blank, listed_in};
use crate::logs::has_commits;
use crate::system::System;
use std::alloc::Global;
use std::fs;
use std::path::PathBuf;

/// The first bytes of a database file (the file format of SQLite, section 1.3).
const HEADER: &[u8] = b"SQLite format 3\0";

/// How many bytes of a file are read: the size of the largest page.
const LOOKED_AT: u64 = 65_536;

/// How many bytes of a log are read. Its first frames make the tables where the file does not have them yet.
const LOG_LOOKED_AT: u64 = 4_194_304;

/// The greatest length of the log that an interrupted `new` leaves.
const HALF_MADE_LOG: u64 = 1_048_576;

/// The path of a file beside another, which has this ending.
pub(crate) fn beside(alloc: Global, path: &str, ending: &str) -> Result<String, FileCause>
    ensures name { IfOk result (λ name. string_bytes name ≡ path.now ++ ending.now) }
    ensures cause { IfErr result (λ cause. cause ≡ FileCause.Memory) }
{
    match format!(in alloc; "{path}{ending}") {
        Ok(beside) => Ok(beside),
        Err(_) => Err(FileCause::Memory),
    }
}

/// What is found beside a file, where that may be a link.
fn there_beside<S: System>(
    system: &S,
    path: &str,
    ending: &str,
) -> Result<Option<fs::Metadata>, FileCause>
    ensures there { IfOk result (S.IsThere system.now (path.now ++ ending.now)) }
    ensures cause { IfErr result (IsFailedAt (S.IsFailure system.now) (path.now ++ ending.now)) }
{
    let name = beside(system.memory(), path, ending)?;
    system.there(name.as_str())
}

/// The first bytes of what is beside a file, at most so many.
fn beginning_beside<S: System>(
    system: &S,
    path: &str,
    ending: &str,
    most: u64,
) -> Result<Vec<u8>, FileCause>
    ensures bytes { IfOk result (λ bytes. S.IsBeginning system.now (path.now ++ ending.now) most bytes.items) }
    ensures cause { IfErr result (IsFailedAt (S.IsFailure system.now) (path.now ++ ending.now)) }
{
    let name = beside(system.memory(), path, ending)?;
    system.beginning(name.as_str(), most)
}

/// Whether what is found at a path is no plain file, such as a link, or a pipe on which a read would wait.
fn is_no_file(found: Option<fs::Metadata>) -> bool
    ensures { IsTrue result ↔ IsSomeAnd found (λ m. ¬ IsFile (file_type m)) }
{
    match found {
        Some(found) => !found.is_file(),
        None => false,
    }
}

/// Whether a journal with this beginning has to be played back.
fn is_hot(first: &[u8]) -> bool
    ensures { result ≡ is_hot first.now }
{
    match first {
        [byte, ..] => *byte != 0,
        [] => false,
    }
}

/// Whether another program has left a journal that has to be played back.
fn has_journal<S: System>(system: &S, path: &str) -> Result<bool, FileCause>
    ensures none { IfOk result (λ has. has ≡ false → HasNoJournal (S.IsBeginning system.now) path.now) }
    ensures some { IfOk result (λ has. has ≡ true
        → HasJournal (S.IsThere system.now) (S.IsBeginning system.now) path.now) }
    ensures cause { IfErr result (IsFailedAt (S.IsFailure system.now) (path.now ++ codes "-journal")) }
{
    if is_no_file(there_beside(system, path, "-journal")?) {
        return Ok(true);
    }
    let first = beginning_beside(system, path, "-journal", 1)?;
    Ok(is_hot(&first))
}

/// Whether a file begins as a database does.
fn has_header(head: &[u8]) -> bool
    ensures { IsTrue result ↔ BeginsWith head.now (codes "SQLite format 3\0") }
{
    head.starts_with(HEADER)
}

/// Whether a file holds something that is no database.
fn is_other_file(head: &[u8]) -> bool
    ensures { IsTrue result ↔ IsOtherFile head.now }
{
    !head.is_empty() && !has_header(head)
}

/// The version by the tables in the log, or by those in the file where the log has none.
fn version_by(in_log: Option<Version>, in_file: Option<Version>) -> Result<Version, FileCause>
    ensures { result ≡ version_by in_log in_file }
{
    in_log.or(in_file).ok_or(FileCause::OtherDatabase)
}

/// The version by the tables in the log, where they do not show in the file.
fn listed_in_log<S: System>(
    system: &S,
    path: &str,
    in_file: Option<Version>,
) -> Result<Version, FileCause>
    ensures listed { IfOk result (λ version. (in_file ≡ Some version)
        ⊎ ((log : List ℕ) × S.IsBeginning system.now (path.now ++ codes "-wal") 4194304 log
        × IsListed log (Some version))) }
    ensures unlisted { IfErr result (λ cause. IsFailedAt (S.IsFailure system.now) (path.now ++ codes "-wal") cause
        ⊎ ((cause ≡ FileCause.OtherDatabase) × (in_file ≡ None)
        × ((log : List ℕ) × S.IsBeginning system.now (path.now ++ codes "-wal") 4194304 log
        × IsListed log None))) }
{
    let log = beginning_beside(system, path, "-wal", LOG_LOOKED_AT)?;
    version_by(listed_in(&log), in_file)
}

/// The version of desk that a file may be, by the first bytes of it and its log, read once. The log has tables that
/// the file itself does not have yet.
fn listed_now<S: System>(system: &S, path: &str) -> Result<Version, FileCause>
    ensures lists { IfOk result (ListsDesk (S.IsBeginning system.now) path.now) }
    ensures unlisted { IfErr result (IsUnlisted (S.IsFailure system.now) (S.IsThere system.now)
        (S.IsBeginning system.now) path.now) }
{
    let head = system.beginning(path, LOOKED_AT)?;
    if is_other_file(&head) {
        return Err(FileCause::NotSqlite);
    }
    let in_file = listed_in(&head);
    if in_file == Some(Version::Two) {
        return Ok(Version::Two);
    }
    if is_no_file(there_beside(system, path, "-wal")?) {
        return in_file.ok_or(FileCause::OddLog);
    }
    // The library does not use a log beside an empty file: it would truncate the log, and make a database in the file.
    if head.is_empty() {
        return Err(FileCause::Empty);
    }
    listed_in_log(system, path, in_file)
}

/// Whether a file is looked at a second time, by what the first look has found.
fn is_looked_at_again(found: Result<Version, FileCause>) -> bool
    ensures { result ≡ is_looked_at_again found }
{
    match found {
        Err(FileCause::Empty) => true,
        Err(FileCause::OtherDatabase) => true,
        _ => false,
    }
}

/// The version of desk that a file may be. While another command closes a desk, its tables move from the log into the
/// file. If neither has them at the first look, the file has them at the second.
fn listed<S: System>(system: &S, path: &str) -> Result<Version, FileCause>
    ensures lists { IfOk result (ListsDesk (S.IsBeginning system.now) path.now) }
    ensures unlisted { IfErr result (IsUnlisted (S.IsFailure system.now) (S.IsThere system.now)
        (S.IsBeginning system.now) path.now) }
{
    let found = listed_now(system, path);
    if is_looked_at_again(found) {
        return listed_now(system, path);
    }
    found
}

/// Whether SQLite gives the name a meaning of its own, so that it is no file.
pub(crate) fn is_no_path(path: &str) -> bool
    ensures { IsTrue result ↔ IsReserved path.now }
{
    path == ":memory:" || path.starts_with("file:")
}

/// The cause for a path that has a folder, or something else than a plain file.
fn odd_cause(is_folder: bool) -> FileCause
    ensures { result ≡ odd_cause is_folder }
{
    if is_folder {
        FileCause::Folder
    } else {
        FileCause::NotPlain
    }
}

/// Refuses what is found at a path where it is no plain file.
fn plain(found: &fs::Metadata) -> Result<(), FileCause>
    ensures { MatchResult result (λ _. IsFile (file_type found.now)) (λ cause. (¬ IsFile (file_type found.now))
        × ((folder : Bool) × (IsTrue folder ↔ IsDir (file_type found.now)) × (cause ≡ odd_cause folder))) }
{
    if found.is_file() {
        return Ok(());
    }
    Err(odd_cause(found.is_dir()))
}

/// The version of desk that a file may be, where no other program has left a journal beside it.
fn listed_alone<S: System>(system: &S, path: &str) -> Result<Version, FileCause>
    ensures lists { IfOk result (λ version. ListsDesk (S.IsBeginning system.now) path.now version
        × HasNoJournal (S.IsBeginning system.now) path.now) }
    ensures unlisted { IfErr result (IsUnlistedAlone (S.IsFailure system.now) (S.IsThere system.now)
        (S.IsBeginning system.now) path.now) }
{
    if has_journal(system, path)? {
        return Err(FileCause::Journal);
    }
    listed(system, path)
}

/// Whether what is found at a path itself is a link.
fn is_link(found: Option<fs::Metadata>) -> bool
    ensures { IsTrue result ↔ IsSomeAnd found (λ m. IsSymlink (file_type m)) }
{
    match found {
        Some(found) => found.is_symlink(),
        None => false,
    }
}

/// Refuses a link at a path that leads to nothing.
fn no_link_at<S: System>(system: &S, path: &str) -> Result<(), FileCause>
    ensures none { IfOk result (λ _. HasNoLink (S.IsThere system.now path.now)) }
    ensures dead { IfErr result (IsDead (S.IsFailure system.now path.now) (S.IsThere system.now path.now)) }
{
    if is_link(system.there(path)?) {
        return Err(FileCause::DeadLink);
    }
    Ok(())
}

/// The path without links of the plain file to which a path leads. `None` where nothing is there.
fn plain_at<S: System>(system: &S, path: &str) -> Result<Option<PathBuf>, FileCause>
    ensures leads { IfOk result (LeadsTo (S.IsTarget system.now path.now) (S.IsReal system.now path.now)
        (S.IsThere system.now path.now)) }
    ensures refused { IfErr result (IsNotPlain (S.IsTarget system.now path.now) (S.IsReal system.now path.now)
        (S.IsFailure system.now path.now) (S.IsThere system.now path.now)) }
{
    let Some(found) = system.target(path)? else {
        no_link_at(system, path)?;
        return Ok(None);
    };
    plain(&found)?;
    Ok(Some(system.real(path)?))
}

/// The same, where the name is not empty, and SQLite gives it no meaning of its own.
fn file_at<S: System>(system: &S, path: &str) -> Result<Option<PathBuf>, FileCause>
    ensures reserved { IsReserved path.now → result ≡ ErrOf FileCause.ReservedName }
    ensures leads { IfOk result (LeadsTo (S.IsTarget system.now path.now) (S.IsReal system.now path.now)
        (S.IsThere system.now path.now)) }
    ensures empty { path.now ≡ [] → result ≡ ErrOf FileCause.NoName }
    ensures refused { IfErr result (λ cause. IsNameCause path.now cause
        ⊎ IsNotPlain (S.IsTarget system.now path.now) (S.IsReal system.now path.now)
        (S.IsFailure system.now path.now) (S.IsThere system.now path.now) cause) }
{
    if is_no_path(path) {
        return Err(FileCause::ReservedName);
    }
    if path.is_empty() {
        return Err(FileCause::NoName);
    }
    plain_at(system, path)
}

/// The version of the desk that a plain file may be, by its first bytes.
pub(crate) fn version_of<S: System>(system: &S, path: &str) -> Result<Version, FileCause>
    ensures reserved { IsReserved path.now → result ≡ ErrOf FileCause.ReservedName }
    ensures lists { IfOk result (HasDeskAt (S.IsTarget system.now path.now) (S.IsReal system.now path.now)
        (S.IsThere system.now path.now) (S.IsBeginning system.now)) }
    ensures unlisted { IfErr result (IsUnversioned (S.IsTarget system.now path.now) (S.IsReal system.now path.now)
        (S.IsFailure system.now) (S.IsThere system.now) (S.IsBeginning system.now) path.now) }
{
    match file_at(system, path)? {
        Some(real) => listed_alone(system, real.as_str()),
        None => Err(FileCause::Missing),
    }
}

/// Whether a log is longer than one that a stopped `new` leaves.
fn is_long_log(bytes: u64) -> bool
    ensures { IsTrue result ↔ own_log_limit < bytes }
{
    bytes > HALF_MADE_LOG
}

/// Whether a log is short enough to be looked into, where it is a plain file.
fn may_be_own(found: &fs::Metadata) -> Result<bool, FileCause>
    ensures odd { ¬ IsFile (file_type found.now) → result ≡ ErrOf FileCause.OddLog }
    ensures plain { IsFile (file_type found.now)
        → IsOkAnd result (λ short. IsTrue short ↔ metadata_len found.now ≤ own_log_limit) }
    ensures cause { IfErr result (λ cause. (cause ≡ FileCause.OddLog) × ¬ IsFile (file_type found.now)) }
    ensures file { IfOk result (λ _. IsFile (file_type found.now)) }
{
    if !found.is_file() {
        return Err(FileCause::OddLog);
    }
    Ok(!is_long_log(found.len()))
}

/// Whether a log that is short enough to be looked into holds commits of another desk.
fn has_commits_of_another<S: System>(system: &S, path: &str) -> Result<bool, FileCause>
    ensures own { IfOk result (λ has. (bytes : List ℕ)
        × S.IsBeginning system.now (path.now ++ codes "-wal") own_log_limit bytes
        × ((has ≡ false) ↔ MayBeOwnLog bytes)) }
    ensures cause { IfErr result (IsFailedAt (S.IsFailure system.now) (path.now ++ codes "-wal")) }
{
    let bytes = beginning_beside(system, path, "-wal", HALF_MADE_LOG)?;
    has_commits(system.memory(), &bytes)
}

/// Whether there is a log that a new desk would take for its own, though it holds commits of another desk.
fn has_log_of_another<S: System>(system: &S, path: &str) -> Result<bool, FileCause>
    ensures none { IfOk result (λ has. has ≡ false
        → HasOwnLog (S.IsThere system.now) (S.IsBeginning system.now) path.now) }
    ensures some { IfOk result (λ has. has ≡ true
        → HasOtherLog (S.IsThere system.now) (S.IsBeginning system.now) path.now) }
    ensures cause { IfErr result (λ cause. IsFailedAt (S.IsFailure system.now) (path.now ++ codes "-wal") cause
        ⊎ ((cause ≡ FileCause.OddLog) × ((found : Metadata)
        × S.IsThere system.now (path.now ++ codes "-wal") (Some found) × ¬ IsFile (file_type found)))) }
{
    let Some(found) = there_beside(system, path, "-wal")? else {
        return Ok(false);
    };
    if !may_be_own(&found)? {
        return Ok(true);
    }
    has_commits_of_another(system, path)
}

/// The cause for a file that is not blank, by what it holds.
fn held_by(head: &[u8]) -> FileCause
    ensures desk { ListsTables head.now → result ≡ FileCause.DeskAlready }
    ensures other { ¬ ListsTables head.now → result ≡ FileCause.NotBlank }
{
    if listed_in(head).is_some() {
        FileCause::DeskAlready
    } else {
        FileCause::NotBlank
    }
}

/// Refuses a file that is not blank, by its first bytes.
fn blank(head: &[u8]) -> Result<(), FileCause>
    ensures { MatchResult result (λ _. IsBlank head.now) (λ cause. (¬ IsBlank head.now)
        × (ListsTables head.now → cause ≡ FileCause.DeskAlready)
        × ((¬ ListsTables head.now) → cause ≡ FileCause.NotBlank)) }
{
    if is_blank(head) {
        return Ok(());
    }
    Err(held_by(head))
}

/// Refuses a file in which no desk may be made, by the first bytes of it and of the files beside it.
fn look_at_new<S: System>(system: &S, path: &str) -> Result<(), FileCause>
    ensures new { OnOk result (MayBecomeDesk (S.IsThere system.now) (S.IsBeginning system.now) path.now) }
    ensures refused { IfErr result (IsNoPlace (S.IsFailure system.now) (S.IsThere system.now)
        (S.IsBeginning system.now) path.now) }
{
    let head = system.beginning(path, LOOKED_AT)?;
    blank(&head)?;
    if has_journal(system, path)? {
        return Err(FileCause::Journal);
    }
    if has_log_of_another(system, path)? {
        return Err(FileCause::OtherLog);
    }
    Ok(())
}

/// Refuses a path at which no desk may be made. One may be made where there is nothing, an empty file or a blank
/// database, and no log of another desk.
pub(crate) fn may_become_desk<S: System>(system: &S, path: &str) -> Result<(), FileCause>
    ensures reserved { IsReserved path.now → result ≡ ErrOf FileCause.ReservedName }
    ensures new { OnOk result ((real : Option Path)
        × LeadsTo (S.IsTarget system.now path.now) (S.IsReal system.now path.now) (S.IsThere system.now path.now) real
        × MayBecomeDesk (S.IsThere system.now) (S.IsBeginning system.now) (place_of path.now real)) }
    ensures refused { IfErr result (IsUnmakeable (S.IsTarget system.now path.now) (S.IsReal system.now path.now)
        (S.IsFailure system.now) (S.IsThere system.now) (S.IsBeginning system.now) path.now) }
{
    match file_at(system, path)? {
        Some(real) => look_at_new(system, real.as_str()),
        None => look_at_new(system, path),
    }
}
