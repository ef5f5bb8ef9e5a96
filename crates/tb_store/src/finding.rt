//! How many hits an answer may have.

ghost use Rattle.std.specs.Prelude.{◌≡◌, ◌↔◌, Err, IfErr, IfOk, IsTrue};
ghost use Rattle.tb_store.specs.Prelude.{AnyRefusal};
ghost use Rattle.tb_store.specs.Found.{IsAbove};

use tb_core::{Fault, Refusal};
use tb_match::Strategy;

/// Whether this number of hits is above the limit. Only `Every` has one.
fn is_above(strategy: Strategy, limit: u64, number: u64) -> bool
    ensures { IsTrue result ↔ IsAbove strategy limit number }
{
    match strategy {
        Strategy::Every => number > limit,
        Strategy::Shortest | Strategy::Longest => false,
    }
}

/// This number of hits, where it is not above the limit. It takes no memory.
pub(crate) fn within(strategy: Strategy, limit: u64, number: u64) -> Result<u64, Fault>
    ensures below { IfOk result (λ n. (n ≡ number) × (IsAbove strategy limit n → ⊥)) }
    ensures above { (r : AnyRefusal) → result ≡ Err (Fault.Refused r)
        → (r ≡ Refusal.TooManyHits) × IsAbove strategy limit number }
    ensures fault { IfErr result (λ e. e ≡ Fault.Refused Refusal.TooManyHits) }
{
    if is_above(strategy, limit, number) {
        return Err(Fault::Refused(Refusal::TooManyHits));
    }
    Ok(number)
}
