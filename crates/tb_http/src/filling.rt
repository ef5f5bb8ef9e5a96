//! Sources that may note the room that they are handed.

ghost use Rattle.std.specs.Prelude.{◌∷◌, List, [], None, Option, IfErr, IfOk, length, take};
ghost use Rattle.std.specs.Io.{ReadsAtMost};
ghost use Rattle.std.specs.Io.KnownBytes.{ReadConsumes};
ghost use Rattle.tb_conllu.specs.Pieces.{Gives};
ghost use Rattle.tb_http.specs.Rooms.{Fill, Notes, given};

use tb_conllu::Source;

/// A source that may note each call: the room that it was handed, and what it gave. Each source is one that notes none.
pub trait Filler: Source {
    // its calls, where they are noted
    ghost fills: { Self → Option (List Fill) };

    /// Gives bytes, as [`Source::pull`] does.
    ///
    /// # Errors
    ///
    /// It failed, and gave none.
    fn fill(&mut self, buf: &mut [u8]) -> Result<usize, Self::Failure>
        ensures bound { ReadsAtMost result buf.new }
        ensures bytes { ReadConsumes (Self.left self.old) (Self.left self.new) result buf.new }
        ensures piece { IfOk result (λ n.
            Gives (Self.pieces self.old) (Self.pieces self.new) (take n buf.new ∷ [])) }
        ensures failed { IfErr result (Self.IsFailure self.new) }
        ensures noted { Notes (fills self.old) (fills self.new)
            (record { room = length buf.new; part = given result buf.new } ∷ []) };
}

impl<R: Source> Filler for R {
    ghost fills = { λ _. None };

    fn fill(&mut self, buf: &mut [u8]) -> Result<usize, R::Failure> {
        self.pull(buf)
    }
}
