//! Counts hits.

ghost use Rattle.std.specs.Prelude.{◌≡◌};

use crate::searcher::{SentenceSearcher, raised, sentence_in};
use crate::stopped::Stopped;
use crate::visitor::BodyVisitor;

/// Counts the hits of a query.
#[derive(Drop)]
pub(crate) struct CountHits<'q> {
    pub seeker: SentenceSearcher<'q>,
}

impl<'q> BodyVisitor<u64> for CountHits<'q> {
    ghost use Rattle.std.specs.Prelude.{◌≡◌, ◌+◌, length};
    ghost use Rattle.tb_search.specs.Prelude.{BlockText, HasNeedles};
    ghost use Rattle.tb_search.specs.Visited.{IsFault};
    ghost use Rattle.tb_search.specs.Searched.{IsValidText, Meets};

    ghost Takes = { λ v o body w p. Meets v.seeker.strategy v.seeker.searcher.asked body (λ found. (w ≡ v) × (p ≡ o + length found)) };

    ghost Stops = { λ v _ body e _. HasNeedles v.seeker.searcher body × ((b : BlockText) → IsValidText b body → IsFault e) };

    ghost Refused = { λ _. ⊥ };

    fn visit(&mut self, body: &[u8], filled: &mut u64) -> Result<(), Stopped> {
        if !self.seeker.may_hit(body) {
            return Ok(());
        }
        let block = sentence_in(self.seeker.alloc, body)?;
        let hits = self.seeker.hits(&block)?;
        let total = raised(*filled, hits.len())?;
        *filled = total;
        Ok(())
    }
}
