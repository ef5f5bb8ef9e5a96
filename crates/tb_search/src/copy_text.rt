//! Writes texts as they are stored.

ghost use Rattle.std.specs.Prelude.{◌≡◌, Err};
ghost use Rattle.tb_search.specs.Prelude.{Appends, AppendsPart};

use crate::stopped::Stopped;
use crate::visitor::BodyVisitor;
use tb_conllu::Sink;

/// Writes each text to a sink.
#[derive(Drop)]
pub(crate) struct CopyText;

impl<W: Sink> BodyVisitor<W> for CopyText {
    ghost use Rattle.std.specs.Prelude.{◌≡◌};
    ghost use Rattle.tb_search.specs.Prelude.{Appends, AppendsPart};
    ghost use Rattle.tb_search.specs.declared.stopped.Stopped.TheVariants.{Output};
    ghost use Rattle.tb_search.specs.Visited.{HasReason};

    ghost Takes = { λ _ o body _ p. Appends (W.held o) (W.held p) body };

    ghost Stops = { λ _ o body e p. (e ≡ Output) × AppendsPart (W.held o) (W.held p) body };

    ghost Refused = { λ p. HasReason (W.IsRefusal p) };

    fn visit(&mut self, body: &[u8], filled: &mut W) -> Result<(), Stopped> {
        match filled.put(body) {
            Ok(()) => Ok(()),
            Err(_) => Err(Stopped::Output),
        }
    }
}
