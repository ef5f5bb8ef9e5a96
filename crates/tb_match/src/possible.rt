//! Whether a pattern can match at all in a sentence. The test is far cheaper than the matches.

ghost use Rattle.std.specs.Prelude.{◌≡◌, ℕ, IsTrue, false};
ghost use Rattle.tb_match.specs.Facts.{Holds};
ghost use Rattle.tb_match.specs.Match.{Match};
ghost use Rattle.tb_match.specs.Possible.{MayMatch, PartsMatch, PartsMayMatch};
ghost use Rattle.tb_match.specs.Trees.{tree, trees};
ghost use Rattle.tb_match.specs.Weight.{AllProper, IsProper};

use crate::pattern::Pat;
use crate::truth::Truth;

/// Whether all of the parts may match, or, where any of them is enough, whether one may. False only where no match has
/// them.
#[cycle(can_match)]
fn can_parts_match(parts: &[Pat], truth: &Truth, all: bool) -> bool
    requires { AllProper truth.now.exprs (trees parts.now) }
    ensures yes { IsTrue result → PartsMayMatch all truth.now (trees parts.now) }
    ensures no { result ≡ false → (i j : ℕ) → PartsMatch all (Holds truth.now) (trees parts.now) i j → ⊥ }
{
    for part in parts {
        let may = can_match(part, truth);
        if may != all {
            return may;
        }
    }
    all
}

/// Whether each expression that all matches need holds of some word. False only where the pattern matches nowhere.
#[cycle(can_match)]
pub(crate) fn can_match(pat: &Pat, truth: &Truth) -> bool
    requires { IsProper truth.now.exprs (tree pat.now) }
    ensures yes { IsTrue result → MayMatch truth.now (tree pat.now) }
    ensures no { result ≡ false → (i j : ℕ) → Match (Holds truth.now) (tree pat.now) i j → ⊥ }
{
    match pat {
        Pat::Tok(expr) => truth.holds_somewhere(*expr),
        Pat::Cat(parts) => can_parts_match(parts, truth, true),
        Pat::Alt(parts) => can_parts_match(parts, truth, false),
        Pat::Rep(inner, least, _) => *least == 0 || can_match(inner, truth),
    }
}
