//! The weight of a pattern, and whether it is within the limits.

ghost use Rattle.std.specs.Prelude.{◌≡◌, ◌+◌, ◌<◌, ◌≤◌, ◌↔◌, ℕ, IsTrue, SomeIff};
ghost use Rattle.tb_match.specs.declared.pattern.Pat.{Pat};
ghost use Rattle.tb_match.specs.Trees.{Tree, tree, trees};
ghost use Rattle.tb_match.specs.Weight.{AllProper, Fits, IsBetween, IsProper, turns, weight_of, weight_of_all};

use crate::pattern::Pat;

/// The greatest weight of a pattern that fits.
const HEAVIEST: u64 = 1_000_000;

/// The greatest number of a repetition.
const MOST_TIMES: u8 = 32;

/// The weight, where it is within the limit.
fn limited(weight: u64) -> Option<u64>
    ensures { SomeIff result (weight ≤ 1000000) weight }
{
    if weight <= HEAVIEST {
        Some(weight)
    } else {
        None
    }
}

/// What a repetition adds to the weight of the repeated pattern.
fn turns_of(least: u8, most: Option<u8>) -> u64
    ensures count { result ≡ turns least most }
    ensures limit { result ≤ 257 }
{
    match most {
        None => u64::from(least) + 2,
        Some(most) => u64::from(most) + 1,
    }
}

/// The weights of the parts, and one more for each.
#[cycle(weight)]
fn weight_of_parts(parts: &[Pat]) -> Option<u64>
    ensures { SomeIff result (weight_of_all (trees parts.now) ≤ 1000000) (weight_of_all (trees parts.now)) }
{
    let mut sum = 0;
    for part in parts {
        let more = weight(part)?;
        sum = limited(sum + more + 1)?;
    }
    Some(sum)
}

/// The weight of the pattern, or None where it is above 1,000,000. It bounds the work of
/// [`find`](crate::finding::find).
///
/// - A word weighs 1.
/// - A sequence or a choice weighs what its parts weigh, and 1 more for each.
/// - A repetition weighs what its pattern weighs, and its greatest number and 1; without a greatest number, its least
///   number and 2.
///
/// It takes no memory, and one stack frame of less than 50 bytes for each level of the pattern: 2 MiB hold some 43,000
/// levels.
#[cycle(weight)]
pub fn weight(pat: &Pat) -> Option<u64>
    ensures { SomeIff result (weight_of (tree pat.now) ≤ 1000000) (weight_of (tree pat.now)) }
{
    match pat {
        Pat::Tok(_) => Some(1),
        Pat::Cat(parts) => weight_of_parts(parts),
        Pat::Alt(parts) => weight_of_parts(parts),
        Pat::Rep(inner, least, most) => limited(weight(inner)? + turns_of(*least, *most)),
    }
}

/// Whether the numbers of a repetition are within the limits.
fn is_between(least: u8, most: Option<u8>) -> bool
    ensures { IsTrue result ↔ IsBetween least most }
{
    match most {
        None => least <= MOST_TIMES,
        Some(most) => least <= most && 1 <= most && most <= MOST_TIMES,
    }
}

/// Whether each of the parts is proper.
#[cycle(is_proper)]
fn are_proper(parts: &[Pat], exprs: u16) -> bool
    ensures { IsTrue result ↔ AllProper exprs (trees parts.now) }
{
    for part in parts {
        if !is_proper(part, exprs) {
            return false;
        }
    }
    true
}

/// Whether the pattern names only the first `exprs` expressions, and each of its repetitions has numbers within the
/// limits.
#[cycle(is_proper)]
fn is_proper(pat: &Pat, exprs: u16) -> bool
    ensures { IsTrue result ↔ IsProper exprs (tree pat.now) }
{
    match pat {
        Pat::Tok(expr) => *expr < exprs,
        Pat::Cat(parts) => are_proper(parts, exprs),
        Pat::Alt(parts) => are_proper(parts, exprs),
        Pat::Rep(inner, least, most) => is_between(*least, *most) && is_proper(inner, exprs),
    }
}

/// Whether the pattern can be searched for in a table of `exprs` expressions.
///
/// It names no other expression, and its weight is at most 1,000,000. The numbers of each repetition are at most 32. A
/// greatest number is at least 1, and not below the least.
///
/// It takes no memory, and one stack frame of less than 50 bytes for each level of the pattern: 2 MiB hold some 43,000
/// levels.
pub fn fits(pat: &Pat, exprs: u16) -> bool
    ensures { IsTrue result ↔ Fits exprs (tree pat.now) }
{
    is_proper(pat, exprs) && weight(pat).is_some()
}

/// A law: each tree that fits is that of a pattern. So facts of the trees that fit are facts of patterns that a program
/// can have, whose expressions have numbers of 16 bits.
pub fn what_fits_is_a_pattern()
    ensures { (exprs : ℕ) (t : Tree) → exprs ≤ 65536 → Fits exprs t → (p : Pat) × (tree p ≡ t) }
{}
