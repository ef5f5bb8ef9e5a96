//! Where read bytes come from: a reader of std, or any other source.

ghost use Rattle.std.specs.Prelude.{ℕ, List, [], ◌∷◌, take, Option, None, Some, Result, IfOk, IfErr, OnErr};
ghost use Rattle.std.specs.Io.{ReadsAtMost};
ghost use Rattle.std.specs.Io.KnownBytes.{ReadConsumes};
ghost use Rattle.tb_conllu.specs.Pieces.{Gives};
ghost use Rattle.tb_conllu.specs.declared.sink.Stop.{Stop};
ghost use Rattle.tb_conllu.specs.Tries.{Answers, HasFailed, HasRead};

use crate::sink::Stop;
use std::convert::Infallible;
use std::io::Read;

/// Gives bytes, some at a time.
///
/// All that reads here is generic over a source, and reports a failure only where the source failed. So a read fails
/// only where the source's contract allows a failure: never over a source that never fails. Each reader of std is a
/// source whose contract says nothing of failures.
pub trait Source {
    /// Why no bytes come.
    type Failure: Drop;

    // the bytes that it will give, where its contract names them
    ghost left: { Self → Option (List ℕ) };

    // the pieces that it gave, one for each call, where they are counted
    ghost pieces: { Self → Option (List (List ℕ)) };

    // what is known of a failure, and of the source after it
    ghost IsFailure: { Self → Self.Failure → Type 0 };

    /// Gives a first part of the bytes, and none only at their end or where there is no room.
    ///
    /// # Errors
    ///
    /// It failed, and gave none.
    fn pull(&mut self, buf: &mut [u8]) -> Result<usize, Self::Failure>
        ensures bound { ReadsAtMost result buf.new }
        ensures bytes { ReadConsumes (left self.old) (left self.new) result buf.new }
        ensures piece { IfOk result (λ n. Gives (pieces self.old) (pieces self.new) (take n buf.new ∷ [])) }
        ensures failed { IfErr result (IsFailure self.new) };
}

/// A reader failed.
#[derive(Clone, Copy, Debug, Drop)]
pub struct SourceFault;

/// Gives bytes, some at a time.
///
/// Each reader of std is one that does not count its answers.
trait PartReader {
    // the bytes that it will give, where its contract names them
    ghost unread: { Self → Option (List ℕ) };

    // its answers, one for each call, where they are counted
    ghost answers: { Self → Option (List (Result ℕ Stop)) };

    /// Gives a first part of the bytes, and none only at their end or where there is no room.
    ///
    /// # Errors
    ///
    /// It gave none.
    fn read_once(&mut self, buf: &mut [u8]) -> Result<usize, Stop>
        ensures bound { ReadsAtMost result buf.new }
        ensures bytes { ReadConsumes (unread self.old) (unread self.new) result buf.new }
        ensures counted { Answers (answers self.old) (answers self.new) (result ∷ []) };
}

impl<R: Read> PartReader for R {
    ghost unread = { R.remaining };

    ghost answers = { λ _. None };

    fn read_once(&mut self, buf: &mut [u8]) -> Result<usize, Stop> {
        match self.read(buf) {
            Ok(count) => Ok(count),
            Err(error) => Err(Stop::of(error)),
        }
    }
}

/// After how many interruptions in a row by a signal a read counts as failed.
const INTERRUPTIONS: u32 = 1000;

/// Reads once, and again after a signal interrupted it.
///
/// # Errors
///
/// The reader failed, or was interrupted by a signal for the thousandth time.
fn read_on<R: PartReader>(reader: &mut R, buf: &mut [u8]) -> Result<usize, SourceFault>
    ensures bound { ReadsAtMost result buf.new }
    ensures bytes { ReadConsumes (R.unread reader.old) (R.unread reader.new) result buf.new }
    ensures read { IfOk result (HasRead (R.answers reader.old) (R.answers reader.new)) }
    ensures failed { OnErr result (HasFailed (R.answers reader.old) (R.answers reader.new)) }
{
    for attempt in 0..INTERRUPTIONS {
        match reader.read_once(buf) {
            Ok(count) => return Ok(count),
            Err(Stop::Failed) => return Err(SourceFault),
            Err(Stop::Interrupted) => {}
        }
    }
    Err(SourceFault)
}

impl<R: Read> Source for R {
    type Failure = SourceFault;

    ghost left = { R.remaining };

    ghost pieces = { λ _. None };

    ghost IsFailure = { λ _ _. Unit {0} };

    fn pull(&mut self, buf: &mut [u8]) -> Result<usize, SourceFault> {
        read_on(self, buf)
    }
}

/// Bytes in memory, which never fail.
#[derive(Drop)]
pub struct SliceSource<'a> {
    pub bytes: &'a [u8],
}

impl<'a> Source for SliceSource<'a> {
    type Failure = Infallible;

    ghost left = { λ s. Some s.bytes.now };

    ghost pieces = { λ _. None };

    ghost IsFailure = { λ _ _. ⊥ };

    fn pull(&mut self, buf: &mut [u8]) -> Result<usize, Infallible> {
        let all = self.bytes;
        let n = all.len().min(buf.len());
        buf[..n].copy_from_slice(&all[..n]);
        self.bytes = &all[n..];
        Ok(n)
    }
}
