//! What a walk does with the texts that it visits.

ghost use Rattle.std.specs.Prelude.{◌≡◌, ℕ, List, Err, IfErr, OnOk};

use crate::stopped::Stopped;

/// What a walk does with each text that it visits: it may fill something. One text is in memory at a time.
pub(crate) trait BodyVisitor<O> {
    ghost use Rattle.std.specs.Prelude.{ℕ, List};
    ghost use Rattle.tb_search.specs.declared.stopped.Stopped.{Stopped};
    ghost use Rattle.tb_search.specs.Visited.{IsStopFault, IsStopWant};

    // what a text changes in the visitor and in what is filled
    ghost Takes: { Self → O → List ℕ → Self → O → Type 0 };

    // what is filled where the walk stops at a text
    ghost Stops: { Self → O → List ℕ → Stopped → O → Type 0 };

    // what is known of what is filled where it refused a piece
    ghost Refused: { O → Type 0 };

    /// Visits a text.
    fn visit(&mut self, body: &[u8], filled: &mut O) -> Result<(), Stopped>
        ensures taken { OnOk result (Takes self.old filled.old body.now self.new filled.new) }
        ensures stopped { IfErr result (λ e. Stops self.old filled.old body.now e filled.new) }
        ensures refused { result ≡ Err Stopped.Output → Refused filled.new }
        ensures fails { IfErr result IsStopFault }
        ensures cause { IfErr result IsStopWant };
}
