//! What a text needs to have for a hit, and the texts that have it not.

ghost use Rattle.std.specs.Prelude.{◌≡◌, All, [], ◌∷◌, IfOk, IsOk, true, false};
ghost use Rattle.tb_conllu.specs.Text.{BlockText};
ghost use Rattle.tb_conllu.specs.Reported.{IsFile};
ghost use Rattle.tb_match.specs.declared.strategy.Strategy.{Strategy as AnyStrategy};
ghost use Rattle.tb_query.specs.Search.{Asked, AreHitsIn};
ghost use Rattle.tb_prefilter.specs.Needed.{AreNeeded, IsSubstring, NeedsNothing};

use crate::gathering::gather;
use crate::needing::is_needed;
use memchr::memmem;
use std::alloc::{AllocError, Global};
use tb_query::Query;

/// Needles: bytes that are in the text of each sentence in which the query has a hit. There may be none.
///
/// # Errors
///
/// Memory was refused, which comes only where an expression that each match needs has a plain literal.
pub fn needles_of(alloc: Global, query: &Query) -> Result<Vec<Vec<u8>>, AllocError>
    ensures needed { IfOk result (λ v. AreNeeded query.now v.items) }
    ensures sure { NeedsNothing query.now → IsOk result }
{
    let mut needles = Vec::new(alloc);
    for (number, expr) in query.exprs().iter().enumerate() {
        if is_needed(query.pat(), number as u16) {
            gather(alloc, expr, &mut needles)?;
        }
    }
    Ok(needles)
}

/// Whether all needles are in the text. Where one is not, the sentence has no hit.
pub fn may_hit(needles: &[Vec<u8>], body: &[u8]) -> bool
    ensures none { result ≡ false → (s : AnyStrategy) (q : Asked) (b : BlockText) → AreNeeded q needles.now
        → IsFile body.now (b ∷ []) → AreHitsIn s q b [] }
    ensures all { result ≡ true → All (λ n. IsSubstring n.items body.now) needles.now }
{
    for needle in needles {
        if memmem::find(body, needle.as_slice()).is_none() {
            return false;
        }
    }
    true
}
