//! Where a desk's files are, while the desk is served.

ghost use Rattle.std.specs.Prelude.{◌≡◌, ◌⊎◌, ◌↔◌, ◌≤◌, IfErr, IfOk, IsTrue, Ok as Seen, None, false};
ghost use Rattle.std.specs.Prelude.{length, take, drop, string_bytes};
ghost use Rattle.tb_host.specs.Causes.{IsSystemCause};
ghost use Rattle.tb_host.specs.Contents.{HasLeft, HasStayed, IsAnother, IsLogName, is_gone, kept_of, number_in};
ghost use Rattle.tb_host.specs.Contents.{numbers_in};
ghost use Rattle.tb_host.specs.declared.found.Found.{Found as FoundFile};

use crate::causes::FileCause;
use crate::contents::PAGE_BYTES;
use crate::found::Found;
use crate::looking::beside;
use crate::system::System;
use std::io::ErrorKind;

/// A file, identified by its device and its inode. Later its path may have another file, or a truncated one.
#[derive(Clone, Copy)]
struct Numbers {
    device: u64,
    file: u64,
    /// The least size that the file has to keep, in bytes.
    least: u64,
}

/// The places of a desk's file and its log.
#[derive(Drop)]
pub struct Place {
    path: String,
    file: Numbers,
    log_path: String,
    log: Numbers,
}

/// What identifies a file that was found, and that has to keep so many bytes.
fn numbers_in(found: Found, least: u64) -> Numbers
    ensures { result ≡ numbers_in found least }
{
    Numbers {
        device: found.device,
        file: found.file,
        least,
    }
}

/// What identifies the file to which a path leads, and which has to keep so many bytes.
fn numbers_of<S: System>(system: &S, path: &str, least: u64) -> Result<Numbers, FileCause>
    ensures found { IfOk result (λ numbers. (found : FoundFile) × S.IsFound system.now path.now (Seen found)
        × (numbers ≡ numbers_in found least)) }
    ensures cause { IfErr result IsSystemCause }
{
    match system.find(path) {
        Ok(found) => Ok(numbers_in(found, least)),
        Err(error) => Err(FileCause::of_system(error)),
    }
}

/// The number that four bytes are, the greatest first.
fn number_in(bytes: &[u8]) -> u64
    ensures { result ≡ number_in bytes.now }
{
    match bytes {
        [a, b, c, d] => u64::from(u32::from_be_bytes([*a, *b, *c, *d])),
        _ => 0,
    }
}

/// The number of pages in the database header (the file format of SQLite, section 1.3.8).
fn pages_of(head: &[u8]) -> u64
    ensures { 32 ≤ length head.now → result ≡ number_in (take 4 (drop 28 head.now)) }
{
    match head.get(28..32) {
        Some(bytes) => number_in(bytes),
        None => 0,
    }
}

/// Whether what is found at a path is another file than the one that was there, or was cut off.
fn is_another(found: Found, numbers: Numbers) -> bool
    ensures { IsTrue result ↔ IsAnother found numbers }
{
    found.device != numbers.device || found.file != numbers.file || found.size < numbers.least
}

/// How many bytes a file of this size with so many pages has to keep.
fn kept_of(size: u64, pages: u64) -> u64
    ensures { result ≡ kept_of size pages }
{
    size.min(pages.saturating_mul(PAGE_BYTES))
}

/// How many bytes a desk's file has to keep: those of its pages that exist. Bytes after them are not part of the
/// database.
fn kept_bytes(rt: &HostRuntime, path: &str) -> Result<u64, FileCause>
    ensures { IfErr result IsSystemCause }
{
    let pages = pages_of(&rt.beginning(path, 100)?);
    match rt.find(path) {
        Ok(found) => Ok(kept_of(found.size, pages)),
        Err(error) => Err(FileCause::of_system(error)),
    }
}

/// Whether an error at a path says that nothing is there any more.
fn is_gone(kind: ErrorKind) -> bool
    ensures { result ≡ is_gone kind }
{
    match kind {
        ErrorKind::NotFound => true,
        ErrorKind::NotADirectory => true,
        _ => false,
    }
}

/// Whether the path has another file, none, or a truncated one. Any other error of the system counts as no change.
fn has_another<S: System>(system: &S, path: &str, numbers: Numbers) -> bool
    ensures left { IsTrue result → HasLeft (S.IsFound system.now path.now) numbers }
    ensures stayed { result ≡ false → HasStayed (S.IsFound system.now path.now) numbers }
{
    match system.find(path) {
        Ok(found) => is_another(found, numbers),
        Err(error) => is_gone(error.kind()),
    }
}

impl Place {
    /// The file and its log as they are now at these paths. The file has to keep so many bytes, and the log none: it
    /// starts again from time to time.
    fn seen<S: System>(
        system: &S,
        path: String,
        log_path: String,
        least: u64,
    ) -> Result<Place, FileCause>
        ensures paths { IfOk result (λ place. (place.path ≡ path) × (place.log_path ≡ log_path)) }
        ensures file { IfOk result (λ place. (found : FoundFile)
            × S.IsFound system.now (string_bytes path) (Seen found) × (place.file ≡ numbers_in found least)) }
        ensures log { IfOk result (λ place. (found : FoundFile)
            × S.IsFound system.now (string_bytes log_path) (Seen found) × (place.log ≡ numbers_in found 0)) }
    {
        let file = numbers_of(system, path.as_str(), least)?;
        let log = numbers_of(system, log_path.as_str(), 0)?;
        Ok(Place {
            path,
            file,
            log_path,
            log,
        })
    }

    /// Where the files are now.
    pub fn new(rt: &HostRuntime, path: &str) -> Result<Place, FileCause>
        ensures path { IfOk result (λ place. string_bytes place.path ≡ path.now) }
        ensures log { IfOk result (λ place. IsLogName (string_bytes place.log_path) × (place.log.least ≡ 0)) }
    {
        let log_path = beside(rt.alloc(), rt.real(path)?.as_str(), "-wal")?;
        let least = kept_bytes(rt, path)?;
        Place::seen(rt, beside(rt.alloc(), path, "")?, log_path, least)
    }

    /// Whether one of them was moved, removed or replaced since, or the desk's file was truncated.
    pub(crate) fn has_changed<S: System>(&self, system: &S) -> bool
        ensures left { IsTrue result → HasLeft (S.IsFound system.now (string_bytes self.now.path)) self.now.file
            ⊎ HasLeft (S.IsFound system.now (string_bytes self.now.log_path)) self.now.log }
        ensures file { result ≡ false
            → HasStayed (S.IsFound system.now (string_bytes self.now.path)) self.now.file }
        ensures log { result ≡ false
            → HasStayed (S.IsFound system.now (string_bytes self.now.log_path)) self.now.log }
    {
        has_another(system, self.path.as_str(), self.file)
            || has_another(system, self.log_path.as_str(), self.log)
    }
}

/// Whether the files of a desk are no longer in their place. A desk in memory has no files.
pub fn has_changed(rt: &HostRuntime, place: Option<&Place>) -> bool
    ensures { place.entry ≡ None → result ≡ false }
{
    match place {
        Some(place) => place.has_changed(rt),
        None => false,
    }
}
