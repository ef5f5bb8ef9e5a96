//! Sinks that keep back what they take, until they are to hand it on.

ghost use Rattle.std.specs.Prelude.{IfErr, OnOk};
ghost use Rattle.std.specs.Io.KnownBytes.{Keeps};

use std::io::Write;
use tb_conllu::{Sink, WriteFault};

/// A sink that may keep back what it takes. The system's say of handing on no more than that the bytes stay.
pub trait Keeper: Sink {
    // it has handed on all that it had taken
    ghost HasHandedOn: { Self → Type 0 };

    /// Hands on all that it has taken.
    ///
    /// # Errors
    ///
    /// A part of it is lost, for a reason for which the sink may refuse bytes.
    fn hand_on(&mut self) -> Result<(), Self::Refusal>
        ensures kept { Keeps (Self.held self.old) (Self.held self.new) }
        ensures handed { OnOk result (HasHandedOn self.new) }
        ensures refused { IfErr result (Self.IsRefusal self.new) };
}

impl<W: Write> Keeper for W {
    ghost HasHandedOn = { λ _. Unit {0} };

    fn hand_on(&mut self) -> Result<(), WriteFault> {
        match self.flush() {
            Ok(()) => Ok(()),
            Err(_) => Err(WriteFault),
        }
    }
}
