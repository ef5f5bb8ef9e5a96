//! What the system says of the files at paths, and what it does to them.
//!
//! What is made of its answers is elsewhere. It is proved over any system, so over one whose answers have names too.

ghost use Rattle.std.specs.Prelude.{◌≡◌, IfErr, IfOk, IfSome, take};
ghost use Rattle.std.specs.Fs.{metadata_len};
ghost use Rattle.tb_host.specs.Causes.{IsSystemCause};

use crate::causes::{FileCause, told, told_if_there};
use crate::diagnostics::wants_words;
use crate::found::Found;
use std::alloc::Global;
use std::fs::{self, OpenOptions};
use std::io::{self, Read};
use std::os::unix::fs::MetadataExt;
use std::path::PathBuf;

/// A system with files. What it did before may change what it says.
pub(crate) trait System {
    ghost use Rattle.std.specs.Prelude.{ℕ, Bool, List, Option, Result};
    ghost use Rattle.std.specs.declared.fs.attrs.Metadata.{Metadata};
    ghost use Rattle.std.specs.Global.{Global};
    ghost use Rattle.std.specs.declared.io.Error.{Error};
    ghost use Rattle.std.specs.declared.path.buf.PathBuf.{PathBuf as Path};
    ghost use Rattle.tb_host.specs.declared.causes.FileCause.{FileCause};
    ghost use Rattle.tb_host.specs.declared.found.Found.{Found};

    // what it says of the file to which a path leads
    ghost IsFound: { Self → List ℕ → Result Found Error → Type 0 };

    // what it says of the kind of that file; none where it is missing
    ghost IsTarget: { Self → List ℕ → Result (Option Metadata) FileCause → Type 0 };

    // what it says of the path without links
    ghost IsReal: { Self → List ℕ → Result (Path Global) FileCause → Type 0 };

    // what it says of what is at a path itself, where that may be a link; none where it is missing
    ghost IsThere: { Self → List ℕ → Option Metadata → Type 0 };

    // the first bytes of the file to which a path leads, at most so many; none of a missing one
    ghost IsBeginning: { Self → List ℕ → ℕ → List ℕ → Type 0 };

    // why it does not say what is at a path, or does not give the first bytes there
    ghost IsFailure: { Self → List ℕ → FileCause → Type 0 };

    // what it says where the file at a path is to become empty
    ghost IsEmptied: { Self → List ℕ → Result (Unit {0}) Error → Type 0 };

    // what it says where the file at a path is to be removed
    ghost IsRemoved: { Self → List ℕ → Result (Unit {0}) Error → Type 0 };

    // whether words are wanted on standard error
    ghost WantsWords: { Self → Bool → Type 0 };

    /// Finds the file to which a path leads.
    fn find(&self, path: &str) -> io::Result<Found>
        ensures { IsFound self.now path.now result };

    /// Finds the file to which a path leads, and says of what kind it is.
    fn target(&self, path: &str) -> Result<Option<fs::Metadata>, FileCause>
        ensures said { IsTarget self.now path.now result }
        ensures cause { IfErr result IsSystemCause };

    /// Finds what is at a path itself, where that may be a link.
    fn there(&self, path: &str) -> Result<Option<fs::Metadata>, FileCause>
        ensures there { IfOk result (IsThere self.now path.now) }
        ensures cause { IfErr result (IsFailure self.now path.now) };

    /// The path without links: a log is beside the file to which a link leads.
    fn real(&self, path: &str) -> Result<PathBuf, FileCause>
        ensures said { IsReal self.now path.now result }
        ensures cause { IfErr result IsSystemCause };

    /// Reads the first bytes of a file, at most so many; none of a missing one.
    fn beginning(&self, path: &str, most: u64) -> Result<Vec<u8>, FileCause>
        ensures bytes { IfOk result (λ bytes. IsBeginning self.now path.now most bytes.items) }
        ensures cause { IfErr result (IsFailure self.now path.now) };

    /// Its memory.
    fn memory(&self) -> Global;

    /// Whether words are wanted on standard error.
    fn wants_words(&self) -> bool
        ensures { WantsWords self.now result };

    /// Makes the file at a path empty.
    fn empty(&self, path: &str) -> io::Result<()>
        ensures { IsEmptied self.now path.now result };

    /// Removes the file at a path.
    fn remove(&self, path: &str) -> io::Result<()>
        ensures { IsRemoved self.now path.now result };
}

/// What a system has noted of a file.
trait Noted {
    ghost use Rattle.std.specs.Prelude.{ℕ};

    // the number of the device that has the file
    ghost IsDevice: { Self → ℕ → Type 0 };

    // the file's number on that device
    ghost IsInode: { Self → ℕ → Type 0 };

    // its size in bytes
    ghost IsSize: { Self → ℕ → Type 0 };

    fn device(&self) -> u64
        ensures { IsDevice self.now result };

    fn inode(&self) -> u64
        ensures { IsInode self.now result };

    fn size_in_bytes(&self) -> u64
        ensures { IsSize self.now result };
}

impl Noted for fs::Metadata {
    ghost IsDevice = { λ _ _. Unit {0} };

    ghost IsInode = { λ _ _. Unit {0} };

    ghost IsSize = { λ noted size. size ≡ metadata_len noted };

    fn device(&self) -> u64 {
        self.dev()
    }

    fn inode(&self) -> u64 {
        self.ino()
    }

    fn size_in_bytes(&self) -> u64 {
        self.len()
    }
}

/// What is known of a file by what the system has noted.
fn found_in<N: Noted>(noted: &N) -> Found
    ensures device { N.IsDevice noted.now result.device }
    ensures file { N.IsInode noted.now result.file }
    ensures size { N.IsSize noted.now result.size }
{
    Found {
        device: noted.device(),
        file: noted.inode(),
        size: noted.size_in_bytes(),
    }
}

/// The first bytes that a reader gives, at most so many.
fn first_bytes<R: Read + Drop>(alloc: Global, reader: R, most: u64) -> Result<Vec<u8>, FileCause>
    ensures bytes { IfOk result (λ bytes. IfSome (R.remaining reader) (λ given. bytes.items ≡ take most given)) }
    ensures cause { IfErr result IsSystemCause }
{
    let mut bytes = Vec::new(alloc);
    match reader.take(most).read_to_end(&mut bytes) {
        Ok(_) => Ok(bytes),
        Err(error) => Err(FileCause::of_system(error)),
    }
}

impl System for HostRuntime {
    ghost IsFound = { λ _ _ _. Unit {0} };

    ghost IsTarget = { λ _ _ _. Unit {0} };

    ghost IsReal = { λ _ _ _. Unit {0} };

    ghost IsThere = { λ _ _ _. Unit {0} };

    ghost IsBeginning = { λ _ _ _ _. Unit {0} };

    ghost IsFailure = { λ _ _ cause. IsSystemCause cause };

    ghost IsEmptied = { λ _ _ _. Unit {0} };

    ghost IsRemoved = { λ _ _ _. Unit {0} };

    ghost WantsWords = { λ _ _. Unit {0} };

    fn find(&self, path: &str) -> io::Result<Found> {
        match fs::metadata(self, path) {
            Ok(noted) => Ok(found_in(&noted)),
            Err(error) => Err(error),
        }
    }

    fn target(&self, path: &str) -> Result<Option<fs::Metadata>, FileCause> {
        told_if_there(fs::metadata(self, path))
    }

    fn there(&self, path: &str) -> Result<Option<fs::Metadata>, FileCause> {
        told_if_there(fs::symlink_metadata(self, path))
    }

    fn real(&self, path: &str) -> Result<PathBuf, FileCause> {
        told(fs::canonicalize(self, path))
    }

    fn beginning(&self, path: &str, most: u64) -> Result<Vec<u8>, FileCause> {
        match told_if_there(fs::File::open(self, path))? {
            Some(file) => first_bytes(self.alloc(), file, most),
            None => Ok(Vec::new(self.alloc())),
        }
    }

    fn memory(&self) -> Global {
        self.alloc()
    }

    fn wants_words(&self) -> bool {
        wants_words(self)
    }

    fn empty(&self, path: &str) -> io::Result<()> {
        let file = OpenOptions::new().write(true).open(self, path)?;
        file.set_len(0)
    }

    fn remove(&self, path: &str) -> io::Result<()> {
        fs::remove_file(self, path)
    }
}
