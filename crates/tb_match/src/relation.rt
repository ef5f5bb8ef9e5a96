//! Computes the relation of a pattern as a table of bit rows.

ghost use Rattle.std.specs.Prelude.{◌≡◌, ◌+◌, ◌-◌, ◌*◌, ◌<◌, ◌≤◌, ◌^◌, ◌↔◌, ◌⊎◌, ℕ, IfOk, IsTrue, length, None};
ghost use Rattle.tb_match.specs.Bits.{InTable, IsForward, Link, triangle};
ghost use Rattle.tb_match.specs.Match.{AnyOf, Chain, EachInTurn, IsAtMost, Match};
ghost use Rattle.tb_match.specs.Trees.{tree, trees};
ghost use Rattle.tb_match.specs.Weight.{AllProper, IsProper, turns, weight_of, weight_of_all};
ghost use Rattle.tb_match.specs.Facts.{Holds};

use crate::bounded::{leave, limit};
use crate::bounds::Bounds;
use crate::doubling::repeat;
use crate::narrow::chain_words;
use crate::pattern::Pat;
use crate::shape::Shape;
use crate::step::Step;
use crate::table::{close, compose, diagonal, empty, merge};
use crate::token::{optional_token_of, run_on, short_run_of, step_over, token_of, token_rows};
use crate::truth::Truth;
use crate::walk::next_place;
use std::alloc::{AllocError, Global};

/// The rows of chains of links, and whether they are the chains without a greatest number.
#[derive(Drop)]
struct Chains {
    rows: Vec<u64>,
    unlimited: bool,
}

/// The rows of the chains of links that may follow the least number of them.
fn further(
    alloc: Global,
    links: &[u64],
    bounds: Bounds,
    spare: &mut [u64],
    shape: Shape,
    steps: &mut u64,
) -> Result<Chains, AllocError>
    requires spare { length spare.old ≡ shape.width }
    requires links { length links.now ≡ (shape.last + 1) * shape.width }
    requires forward { IsForward links.now shape.width shape.last }
    requires countable { steps.old + turns bounds.least bounds.most * triangle (shape.last + 1) < 2 ^ 64 }
    ensures whole { IfOk result (λ v. length v.rows.items ≡ (shape.last + 1) * shape.width) }
    ensures rows { IfOk result (λ v. (i j : ℕ) → i ≤ shape.last → j ≤ shape.last →
        (InTable v.rows.items shape.width i j ↔ ((k : ℕ) × IsAtMost (bounds.least + k) bounds.most
        × Chain (Link links.now shape.width shape.last) k i j))) }
    ensures unlimited { IfOk result (λ v. IsTrue v.unlimited → (i j : ℕ) → i ≤ shape.last
        → j ≤ shape.last →
        (InTable v.rows.items shape.width i j ↔ ((k : ℕ) × IsAtMost (bounds.least + k) None
        × Chain (Link links.now shape.width shape.last) k i j))) }
    ensures more { steps.old ≤ steps.new }
    ensures bound { steps.new + bounds.least * triangle
        (shape.last + 1) ≤ steps.old + turns bounds.least bounds.most * triangle (shape.last + 1) }
{
    let mut rows = empty(alloc, shape)?;
    close(links, &mut rows, spare, shape, steps);
    let Some(most) = bounds.most else {
        return Ok(Chains {
            rows,
            unlimited: true,
        });
    };
    let times = (most - bounds.least) as usize;
    let unlimited = limit(&mut rows, spare, links, shape, times, steps);
    Ok(Chains { rows, unlimited })
}

/// The rows of the chains of links that may follow all but one of the least number of them.
fn begun(
    alloc: Global,
    links: &[u64],
    bounds: Bounds,
    spare: &mut [u64],
    shape: Shape,
    steps: &mut u64,
) -> Result<Chains, AllocError>
    requires spare { length spare.old ≡ shape.width }
    requires links { length links.now ≡ (shape.last + 1) * shape.width }
    requires forward { IsForward links.now shape.width shape.last }
    requires countable { steps.old + turns bounds.least bounds.most * triangle (shape.last + 1) < 2 ^ 64 }
    ensures whole { IfOk result (λ v. length v.rows.items ≡ (shape.last + 1) * shape.width) }
    ensures rows { IfOk result (λ v. (i j : ℕ) → i ≤ shape.last → j ≤ shape.last →
        (InTable v.rows.items shape.width i j ↔ ((k : ℕ) × (bounds.least ≤ bounds.least - 1 + k)
        × IsAtMost (bounds.least - 1 + k) bounds.most × Chain (Link links.now shape.width shape.last) k i j))) }
    ensures unlimited { IfOk result (λ v. IsTrue v.unlimited → (i j : ℕ) → i ≤ shape.last
        → j ≤ shape.last →
        (InTable v.rows.items shape.width i j ↔ ((k : ℕ) × (bounds.least ≤ bounds.least - 1 + k)
        × IsAtMost (bounds.least - 1 + k) None × Chain (Link links.now shape.width shape.last) k i j))) }
    ensures more { steps.old ≤ steps.new }
    ensures bound { steps.new + (bounds.least - 1) * triangle
        (shape.last + 1) ≤ steps.old + turns bounds.least bounds.most * triangle (shape.last + 1) }
{
    if bounds.least == 0 {
        return further(alloc, links, bounds, spare, shape, steps);
    }
    let fewer = Bounds {
        least: bounds.least - 1,
        most: bounds.most,
    };
    let Chains {
        mut rows,
        unlimited,
    } = further(alloc, links, fewer, spare, shape, steps)?;
    leave(&mut rows, links, shape);
    Ok(Chains { rows, unlimited })
}

/// The rows of chains of as many links as the bounds allow, in a new table.
fn swept(
    alloc: Global,
    links: &mut [u64],
    bounds: Bounds,
    spare: &mut [u64],
    shape: Shape,
    steps: &mut u64,
) -> Result<Vec<u64>, AllocError>
    requires spare { length spare.old ≡ shape.width }
    requires links { length links.old ≡ (shape.last + 1) * shape.width }
    requires forward { IsForward links.old shape.width shape.last }
    requires countable { steps.old + turns bounds.least bounds.most * triangle (shape.last + 1) < 2 ^ 64 }
    ensures whole { IfOk result (λ v. length v.items ≡ (shape.last + 1) * shape.width) }
    ensures rows { IfOk result (λ v. (i j : ℕ) → i ≤ shape.last → j ≤ shape.last →
        (InTable v.items shape.width i j ↔ ((k : ℕ) × (bounds.least ≤ k) × IsAtMost k bounds.most
        × Chain (Link links.old shape.width shape.last) k i j))) }
    ensures more { steps.old ≤ steps.new }
    ensures bound { steps.new ≤ steps.old + turns bounds.least bounds.most * triangle (shape.last + 1) }
{
    let Chains {
        mut rows,
        unlimited,
    } = begun(alloc, links, bounds, spare, shape, steps)?;
    let times = bounds.least.saturating_sub(1) as usize;
    repeat(links, &mut rows, spare, shape, times, unlimited, steps);
    Ok(rows)
}

/// Whether a link leads from each place to itself, as where the pattern matches no words.
fn all_stay(links: &[u64], shape: Shape) -> bool
    requires links { length links.now ≡ (shape.last + 1) * shape.width }
    ensures { IsTrue result → (i : ℕ) → i ≤ shape.last → InTable links.now shape.width i i }
{
    for place in 0..shape.last + 1 {
        if next_place(links, place * shape.width, place, place) > place {
            return false;
        }
    }
    true
}

/// The least number of links that has to be required. Where a link leads from each place to itself, a chain of fewer
/// links is also one of more.
fn least_needed(links: &[u64], least: u8, shape: Shape) -> u8
    requires links { length links.now ≡ (shape.last + 1) * shape.width }
    ensures fewer { result ≤ least }
    ensures unchanged { (result ≡ least) ⊎ ((i : ℕ) → i ≤ shape.last → InTable links.now shape.width i i) }
{
    if least > 1 && all_stay(links, shape) {
        0
    } else {
        least
    }
}

/// Whether to chain the links in their own table: for the numbers of `+`, where a row is one machine word.
fn is_chained_in_place(bounds: Bounds, shape: Shape) -> bool
    ensures { IsTrue result → (bounds.least ≡ 1) × (bounds.most ≡ None) × (shape.width ≡ 1) }
{
    bounds.least == 1 && bounds.most.is_none() && shape.width == 1
}

/// The rows of chains of as many links as the bounds allow.
fn repetition(
    alloc: Global,
    mut links: Vec<u64>,
    bounds: Bounds,
    spare: &mut [u64],
    shape: Shape,
    steps: &mut u64,
) -> Result<Vec<u64>, AllocError>
    requires spare { length spare.old ≡ shape.width }
    requires links { length links.items ≡ (shape.last + 1) * shape.width }
    requires forward { IsForward links.items shape.width shape.last }
    requires countable { steps.old + turns bounds.least bounds.most * triangle (shape.last + 1) < 2 ^ 64 }
    ensures whole { IfOk result (λ v. length v.items ≡ (shape.last + 1) * shape.width) }
    ensures rows { IfOk result (λ v. (i j : ℕ) → i ≤ shape.last → j ≤ shape.last →
        (InTable v.items shape.width i j ↔ ((k : ℕ) × (bounds.least ≤ k) × IsAtMost k bounds.most
        × Chain (Link links.items shape.width shape.last) k i j))) }
    ensures more { steps.old ≤ steps.new }
    ensures bound { steps.new ≤ steps.old + turns bounds.least bounds.most * triangle (shape.last + 1) }
{
    if is_chained_in_place(bounds, shape) {
        chain_words(&mut links, shape.last, steps);
        return Ok(links);
    }
    let least = least_needed(&links, bounds.least, shape);
    let needed = Bounds {
        least,
        most: bounds.most,
    };
    swept(alloc, &mut links, needed, spare, shape, steps)
}

/// The rows of the parts, one after another.
#[cycle(rows)]
fn sequence(
    alloc: Global,
    parts: &[Pat],
    truth: &Truth,
    spare: &mut [u64],
    shape: Shape,
    steps: &mut u64,
) -> Result<Vec<u64>, AllocError>
    requires proper { AllProper truth.now.exprs (trees parts.now) }
    requires words { shape.last ≡ truth.now.words }
    requires spare { length spare.old ≡ shape.width }
    requires countable { steps.old + weight_of_all (trees parts.now) * triangle (truth.now.words + 1) < 2 ^ 64 }
    ensures whole { IfOk result (λ v. length v.items ≡ (truth.now.words + 1) * shape.width) }
    ensures rows { IfOk result (λ v. (i j : ℕ) → i ≤ truth.now.words → j ≤ truth.now.words →
        (InTable v.items shape.width i j ↔ EachInTurn (Holds truth.now) (trees parts.now) i j)) }
    ensures more { steps.old ≤ steps.new }
    ensures bound { steps.new ≤ steps.old + weight_of_all (trees parts.now) * triangle (truth.now.words + 1) }
{
    let Some((first, rest)) = parts.split_first() else {
        return diagonal(alloc, shape);
    };
    let mut table = rows(alloc, first, truth, spare, shape, steps)?;
    for part in rest {
        table = followed(alloc, table, part, truth, spare, shape, steps)?;
    }
    Ok(table)
}

/// The rows of the table followed by the part. A word, an optional word or a run of words needs no rows of its own.
#[cycle(rows)]
fn followed(
    alloc: Global,
    mut table: Vec<u64>,
    part: &Pat,
    truth: &Truth,
    spare: &mut [u64],
    shape: Shape,
    steps: &mut u64,
) -> Result<Vec<u64>, AllocError>
    requires proper { IsProper truth.now.exprs (tree part.now) }
    requires words { shape.last ≡ truth.now.words }
    requires spare { length spare.old ≡ shape.width }
    requires table { length table.items ≡ (truth.now.words + 1) * shape.width }
    requires forward { (i j : ℕ) → i ≤ truth.now.words → j ≤ truth.now.words
        → InTable table.items shape.width i j → i ≤ j }
    requires countable { steps.old + (weight_of (tree part.now) + 1) * triangle (truth.now.words + 1) < 2 ^ 64 }
    ensures whole { IfOk result (λ v. length v.items ≡ (truth.now.words + 1) * shape.width) }
    ensures rows { IfOk result (λ v. (i j : ℕ) → i ≤ truth.now.words → j ≤ truth.now.words →
        (InTable v.items shape.width i j ↔
        ((k : ℕ) × (k ≤ truth.now.words) × InTable table.items shape.width i k
        × Match (Holds truth.now) (tree part.now) k j))) }
    ensures more { steps.old ≤ steps.new }
    ensures bound { steps.new ≤ steps.old + (weight_of (tree part.now) + 1) * triangle (truth.now.words + 1) }
{
    if let Some(expr) = token_of(part) {
        return step_over(alloc, table, expr, truth, shape, Step::Required);
    }
    if let Some(expr) = optional_token_of(part) {
        return step_over(alloc, table, expr, truth, shape, Step::Optional);
    }
    if let Some(expr) = short_run_of(part, truth) {
        run_on(&mut table, expr, truth, shape);
        return Ok(table);
    }
    let mut next = rows(alloc, part, truth, spare, shape, steps)?;
    compose(&table, &mut next, spare, shape, false, steps);
    Ok(next)
}

/// The rows of any of the parts.
#[cycle(rows)]
fn choice(
    alloc: Global,
    parts: &[Pat],
    truth: &Truth,
    spare: &mut [u64],
    shape: Shape,
    steps: &mut u64,
) -> Result<Vec<u64>, AllocError>
    requires proper { AllProper truth.now.exprs (trees parts.now) }
    requires words { shape.last ≡ truth.now.words }
    requires spare { length spare.old ≡ shape.width }
    requires countable { steps.old + weight_of_all (trees parts.now) * triangle (truth.now.words + 1) < 2 ^ 64 }
    ensures whole { IfOk result (λ v. length v.items ≡ (truth.now.words + 1) * shape.width) }
    ensures rows { IfOk result (λ v. (i j : ℕ) → i ≤ truth.now.words → j ≤ truth.now.words →
        (InTable v.items shape.width i j ↔ AnyOf (Holds truth.now) (trees parts.now) i j)) }
    ensures more { steps.old ≤ steps.new }
    ensures bound { steps.new ≤ steps.old + weight_of_all (trees parts.now) * triangle (truth.now.words + 1) }
{
    let mut table = empty(alloc, shape)?;
    for part in parts {
        let next = rows(alloc, part, truth, spare, shape, steps)?;
        merge(&mut table, &next, shape, steps);
    }
    Ok(table)
}

/// The rows of a pattern.
#[cycle(rows)]
pub(crate) fn rows(
    alloc: Global,
    pat: &Pat,
    truth: &Truth,
    spare: &mut [u64],
    shape: Shape,
    steps: &mut u64,
) -> Result<Vec<u64>, AllocError>
    requires proper { IsProper truth.now.exprs (tree pat.now) }
    requires words { shape.last ≡ truth.now.words }
    requires spare { length spare.old ≡ shape.width }
    requires countable { steps.old + weight_of (tree pat.now) * triangle (truth.now.words + 1) < 2 ^ 64 }
    ensures whole { IfOk result (λ v. length v.items ≡ (truth.now.words + 1) * shape.width) }
    ensures rows { IfOk result (λ v. (i j : ℕ) → i ≤ truth.now.words → j ≤ truth.now.words →
        (InTable v.items shape.width i j ↔ Match (Holds truth.now) (tree pat.now) i j)) }
    ensures more { steps.old ≤ steps.new }
    ensures bound { steps.new ≤ steps.old + weight_of (tree pat.now) * triangle (truth.now.words + 1) }
{
    if let Some(expr) = optional_token_of(pat) {
        return token_rows(alloc, expr, truth, shape, Step::Optional);
    }
    match pat {
        Pat::Tok(expr) => token_rows(alloc, *expr, truth, shape, Step::Required),
        Pat::Cat(parts) => sequence(alloc, parts, truth, spare, shape, steps),
        Pat::Alt(parts) => choice(alloc, parts, truth, spare, shape, steps),
        Pat::Rep(inner, least, most) => {
            let links = rows(alloc, inner, truth, spare, shape, steps)?;
            let bounds = Bounds {
                least: *least,
                most: *most,
            };
            repetition(alloc, links, bounds, spare, shape, steps)
        }
    }
}
