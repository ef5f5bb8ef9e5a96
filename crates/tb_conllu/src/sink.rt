//! Where written bytes go: a writer of std, or any other sink.

ghost use Rattle.std.specs.Prelude.{◌≡◌, ◌↔◌, ◌≤◌, ℕ, List, [], ◌∷◌, length, Option, None, Some, Result};
ghost use Rattle.std.specs.Prelude.{IfErr, IfOk};
ghost use Rattle.std.specs.Prelude.{OnOk, OnErr};
ghost use Rattle.std.specs.Io.KnownBytes.{Appends, WriteAppends};
ghost use Rattle.std.specs.IoError.{error_kind};
ghost use Rattle.std.specs.declared.io.ErrorKind.TheVariants.{Interrupted};
ghost use Rattle.tb_conllu.specs.Sunk.{AppendsPart};
ghost use Rattle.tb_conllu.specs.declared.sink.Stop.{Stop};
ghost use Rattle.tb_conllu.specs.Tries.{Answers, HasGivenUp, HasStopped, HasTaken};

use crate::fault::WriteFault;
use std::alloc::AllocError;
use std::io::{self, ErrorKind, Write};

/// Takes bytes, one piece after another.
///
/// All that is written here is generic over a sink. It passes on a refusal of the sink, makes none of its own, and puts
/// nothing after one. So writing fails only where the sink's contract allows a refusal: never over a sink that never
/// refuses. Each writer of std is a sink whose contract says nothing of refusals.
pub trait Sink {
    /// Why a piece is refused.
    type Refusal: Drop;

    // the bytes that it holds, where its contract names them
    ghost held: { Self → Option (List ℕ) };

    // what is known of a refusal, and of the sink after it
    ghost IsRefusal: { Self → Self.Refusal → Type 0 };

    /// Takes all the bytes, after those that it holds.
    ///
    /// # Errors
    ///
    /// The bytes are refused. The sink may hold a first part of them.
    fn put(&mut self, bytes: &[u8]) -> Result<(), Self::Refusal>
        ensures taken { OnOk result (Appends (held self.old) (held self.new) bytes.now) }
        ensures part { OnErr result (AppendsPart (held self.old) (held self.new) bytes.now) }
        ensures refused { IfErr result (IsRefusal self.new) };
}

/// Why a writer took no byte, or a reader gave none.
#[derive(Clone, Copy, Drop)]
pub(crate) enum Stop {
    /// A signal interrupted it.
    Interrupted,
    /// It failed.
    Failed,
}

impl Stop {
    /// Why a call of std failed.
    pub(crate) fn of(error: io::Error) -> Stop
        ensures { (result ≡ Stop.Interrupted) ↔ (error_kind error ≡ Interrupted) }
    {
        if error.kind() == ErrorKind::Interrupted {
            Stop::Interrupted
        } else {
            Stop::Failed
        }
    }
}

/// Takes bytes, some at a time.
///
/// Each writer of std is one that does not count its answers, and whose contract says nothing of them.
trait PartWriter {
    // the bytes that it holds, where its contract names them
    ghost stored: { Self → Option (List ℕ) };

    // its answers, one for each call, where they are counted
    ghost answers: { Self → Option (List (Result ℕ Stop)) };

    // what is known of an answer, and of the writer after it
    ghost IsAnswer: { Self → Result ℕ Stop → Type 0 };

    /// Takes a first part of the bytes, after those that it holds.
    ///
    /// # Errors
    ///
    /// It took none.
    fn write_once(&mut self, bytes: &[u8]) -> Result<usize, Stop>
        ensures bound { IfOk result (λ n. n ≤ length bytes.now) }
        ensures bytes { WriteAppends (stored self.old) (stored self.new) result bytes.now }
        ensures counted { Answers (answers self.old) (answers self.new) (result ∷ []) }
        ensures known { IsAnswer self.new result };
}

impl<W: Write> PartWriter for W {
    ghost stored = { W.contents };

    ghost answers = { λ _. None };

    ghost IsAnswer = { λ _ _. Unit {0} };

    fn write_once(&mut self, bytes: &[u8]) -> Result<usize, Stop> {
        match self.write(bytes) {
            Ok(count) => Ok(count),
            Err(error) => Err(Stop::of(error)),
        }
    }
}

/// After how many interruptions by a signal writing counts as failed.
const INTERRUPTIONS: usize = 1000;

/// Writes the bytes. A writer that fails keeps what it took before, and nothing is written after that.
///
/// # Errors
///
/// The writer took no byte, or failed, or was interrupted by a signal for the thousandth time.
fn put_all<W: PartWriter>(bytes: &[u8], out: &mut W) -> Result<(), WriteFault>
    ensures taken { OnOk result (Appends (W.stored out.old) (W.stored out.new) bytes.now) }
    ensures part { OnErr result (AppendsPart (W.stored out.old) (W.stored out.new) bytes.now) }
    ensures known { OnErr result (HasStopped (W.IsAnswer out.new)) }
    ensures whole { OnOk result (HasTaken (W.answers out.old) (W.answers out.new) (length bytes.now)) }
    ensures stopped { OnErr result (HasGivenUp (W.answers out.old) (W.answers out.new) (length bytes.now)) }
{
    let mut written = 0;
    let mut interruptions = 0;
    'writes: while written < bytes.len() {
        match out.write_once(&bytes[written..]) {
            Ok(0) => return Err(WriteFault),
            Ok(count) => written += count,
            Err(Stop::Failed) => return Err(WriteFault),
            Err(Stop::Interrupted) => {
                interruptions += 1;
                if interruptions == INTERRUPTIONS {
                    return Err(WriteFault);
                }
            }
        }
    }
    Ok(())
}

impl<W: Write> Sink for W {
    type Refusal = WriteFault;

    ghost held = { W.contents };

    ghost IsRefusal = { λ _ _. Unit {0} };

    fn put(&mut self, bytes: &[u8]) -> Result<(), WriteFault> {
        put_all(bytes, self)
    }
}

/// A list of bytes in memory.
#[derive(Drop)]
pub struct Bytes {
    pub bytes: Vec<u8>,
}

impl Sink for Bytes {
    type Refusal = AllocError;

    ghost held = { λ s. Some s.bytes.items };

    ghost IsRefusal = { λ _ _. Unit {0} };

    fn put(&mut self, bytes: &[u8]) -> Result<(), AllocError> {
        self.bytes.extend_from_slice(bytes)
    }
}
