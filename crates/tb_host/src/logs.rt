//! Whether a log holds commits of another desk, by its bytes. Then `new` does not write over it.

ghost use Rattle.std.specs.Prelude.{◌≡◌, ◌⊎◌, ◌↔◌, [], false, IfErr, IfOk, IsTrue};
ghost use Rattle.sqlite_disk.specs.Memory.{memory_bytes, memory_is_usable};
ghost use Rattle.sqlite_wal.specs.PageSize.{bytes_of};
ghost use Rattle.tb_host.specs.Contents.{AreBegun, HasBegunAlone, MayBeOwnLog};

use crate::causes::FileCause;
use crate::contents::{are_begun, is_unwritten};
use sqlite_disk::{Disk, Files, Memory};
use sqlite_wal::{Error, PageSize, probe_frames, probe_page_size};
use std::alloc::Global;

/// A log of these bytes, in memory.
fn log_of(alloc: Global, bytes: &[u8]) -> Result<Memory, FileCause>
    ensures usable { IfOk result (λ log. IsTrue (memory_is_usable log)) }
    ensures holds { IfOk result (λ log. memory_bytes log ≡ bytes.now) }
    ensures failed { IfErr result (λ cause. cause ≡ FileCause.Memory) }
{
    let mut log = Memory::new(alloc);
    match log.write_at(0, bytes) {
        Ok(()) => Ok(log),
        Err(_) => Err(FileCause::Memory),
    }
}

/// Whether a log has pages other than the first one that `new` writes.
fn are_others(log: &[u8], pages: &[u32]) -> bool
    ensures { (result ≡ false) ↔ (pages.now ≡ []) ⊎ AreBegun log.now pages.now }
{
    match pages {
        [] => false,
        _ => !are_begun(log, pages),
    }
}

/// Whether a log with pages of this size has commits other than the first page that `new` writes. A log that the
/// database does not read counts as one with such commits.
fn has_other_pages(
    alloc: Global,
    log: &mut Memory,
    bytes: &[u8],
    size: PageSize,
) -> Result<bool, FileCause>
    requires usable { IsTrue (memory_is_usable log.old) }
    requires holds { memory_bytes log.old ≡ bytes.now }
    ensures begun { IfOk result (λ has. (has ≡ false) ↔ HasBegunAlone (bytes_of size) bytes.now) }
    ensures failed { IfErr result (λ cause. cause ≡ FileCause.Memory) }
{
    match probe_frames(alloc, log, size) {
        Ok(pages) => Ok(are_others(bytes, &pages)),
        Err(Error::Corrupt) => Ok(true),
        // Bytes in memory are read without a fault, and are too few for more frames than can be numbered.
        Err(_) => Err(FileCause::Memory),
    }
}

/// Whether a log has commits other than the first page that `new` writes. Bytes that are no log count as commits,
/// unless they may be a log whose header was not written yet.
pub(crate) fn has_commits(alloc: Global, bytes: &[u8]) -> Result<bool, FileCause>
    ensures own { IfOk result (λ has. (has ≡ false) ↔ MayBeOwnLog bytes.now) }
    ensures failed { IfErr result (λ cause. cause ≡ FileCause.Memory) }
{
    let mut files = Files {
        log: log_of(alloc, bytes)?,
        db: Memory::new(alloc),
    };
    match probe_page_size(&mut files) {
        Ok(Some(size)) => has_other_pages(alloc, &mut files.log, bytes, size),
        Ok(None) => Ok(!is_unwritten(bytes)),
        Err(_) => Err(FileCause::Memory),
    }
}
