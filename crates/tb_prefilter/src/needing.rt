//! Which token expressions each match of a pattern needs.

ghost use Rattle.std.specs.Prelude.{◌≡◌};
ghost use Rattle.tb_match.specs.Trees.{tree, trees};
ghost use Rattle.tb_prefilter.specs.Needed.{needs, some_needs};

use tb_match::Pat;

/// Whether one of the parts needs the expression.
#[cycle(is_needed)]
fn is_needed_by_some(parts: &[Pat], expr: u16) -> bool
    ensures { result ≡ some_needs (trees parts.now) expr }
{
    for part in parts {
        if is_needed(part, expr) {
            return true;
        }
    }
    false
}

/// Whether each match of the pattern has a word of which the expression holds. Choices are not looked into.
#[cycle(is_needed)]
pub fn is_needed(pat: &Pat, expr: u16) -> bool
    ensures { result ≡ needs (tree pat.now) expr }
{
    match pat {
        Pat::Tok(own) => *own == expr,
        Pat::Cat(parts) => is_needed_by_some(parts, expr),
        Pat::Alt(_) => false,
        Pat::Rep(inner, least, _) => *least > 0 && is_needed(inner, expr),
    }
}
