//! Patterns over token expressions.

ghost use Rattle.std.specs.Prelude.{◌≡◌, None, map, IfOk, IsOk};
ghost use Rattle.tb_match.specs.Trees.{tok, tree};
ghost use Rattle.tb_syntax.specs.Pattern.{cat_of, alt_of, repeated_within};

use crate::lone::lone;
use std::alloc::{AllocError, Global};
use tb_match::Pat;

/// A word of which this expression holds.
pub(crate) fn tok(expr: u16) -> Pat
    ensures { tree result ≡ tok expr }
{
    Pat::Tok(expr)
}

/// The pattern, repeated this many times; the pattern itself where there is no repetition.
pub(crate) fn repeated(
    alloc: Global,
    pat: Pat,
    bounds: Option<(u8, Option<u8>)>,
) -> Result<Pat, AllocError>
    ensures value { IfOk result (λ p. tree p ≡ repeated_within bounds (tree pat)) }
    ensures sure { bounds ≡ None → IsOk result }
{
    match bounds {
        Some((least, most)) => Ok(Pat::Rep(Box::new(alloc, pat)?, least, most)),
        None => Ok(pat),
    }
}

/// The sequence of the parts; the part itself where there is one.
pub(crate) fn cat_of(parts: Vec<Pat>) -> Pat
    ensures { tree result ≡ cat_of (map tree parts.items) }
{
    match lone(parts) {
        Ok(part) => part,
        Err(parts) => Pat::Cat(parts),
    }
}

/// The choice between the parts; the part itself where there is one.
pub(crate) fn alt_of(parts: Vec<Pat>) -> Pat
    ensures { tree result ≡ alt_of (map tree parts.items) }
{
    match lone(parts) {
        Ok(part) => part,
        Err(parts) => Pat::Alt(parts),
    }
}
