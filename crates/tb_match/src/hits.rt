//! Chooses the hits among the pairs of places in a table of bit rows.

ghost use Rattle.std.specs.Prelude.{◌≡◌, ◌+◌, ◌*◌, ◌<◌, ◌≤◌, ◌↔◌, ◌⊎◌, ℕ, IfOk, IsOk, OnOk, length};
ghost use Rattle.std.specs.List.{AllPairs, Contains};
ghost use Rattle.tb_match.specs.Bits.{Forward};
ghost use Rattle.tb_match.specs.Facts.{Holds};
ghost use Rattle.tb_match.specs.Hits.{AreHits, ComesBefore, IsWord};
ghost use Rattle.tb_match.specs.declared.strategy.Strategy.{Strategy};

use crate::shape::Shape;
use crate::strategy::Strategy;
use crate::truth::Truth;
use crate::walk::next_place;
use std::alloc::{AllocError, Global};

/// The least end of a pair from `place`, or one past the last place where there is no pair.
fn least_end(table: &[u64], shape: Shape, place: usize) -> usize
    requires table { length table.now ≡ (shape.last + 1) * shape.width }
    requires order { place ≤ shape.last }
    ensures limit { result ≤ shape.last + 1 }
    ensures there { result ≤ shape.last → Forward table.now shape.width shape.last place result }
    ensures least { (j : ℕ) → Forward table.now shape.width shape.last place j → result ≤ j }
{
    next_place(table, place * shape.width, place + 1, shape.last)
}

/// The greatest end of a pair from `place` if it is beyond `reached`, else `reached`.
fn furthest_end(table: &[u64], shape: Shape, place: usize, reached: usize) -> usize
    requires table { length table.now ≡ (shape.last + 1) * shape.width }
    requires order { place ≤ shape.last }
    requires reached { reached ≤ shape.last }
    ensures limit { result ≤ shape.last }
    ensures there { reached < result → Forward table.now shape.width shape.last place result }
    ensures greatest { (j : ℕ) → Forward table.now shape.width shape.last place j → j ≤ result }
{
    let row = place * shape.width;
    let mut furthest = reached;
    let mut end = next_place(table, row, reached.max(place) + 1, shape.last);
    while end <= shape.last {
        furthest = end;
        end = next_place(table, row, end + 1, shape.last);
    }
    furthest
}

/// The pairs that strictly contain no other. Going back from the last place, only the least end of a place can give
/// one. It does if it is before those of all later places.
fn shortest(alloc: Global, table: &[u64], shape: Shape) -> Result<Vec<(u32, u32)>, AllocError>
    requires table { length table.now ≡ (shape.last + 1) * shape.width }
    ensures { IfOk result (λ v. AreHits Strategy.Shortest (Forward table.now shape.width shape.last) v.items) }
{
    let mut hits = Vec::new(alloc);
    let mut soonest = shape.last + 1;
    for place in (0..shape.last + 1).rev() {
        let end = least_end(table, shape, place);
        if end < soonest {
            hits.push((place as u32, end as u32))?;
            soonest = end;
        }
    }
    hits.reverse();
    Ok(hits)
}

/// The pairs that no other strictly contains: the greatest end of a place, if it is beyond those of all earlier places.
fn longest(alloc: Global, table: &[u64], shape: Shape) -> Result<Vec<(u32, u32)>, AllocError>
    requires table { length table.now ≡ (shape.last + 1) * shape.width }
    ensures { IfOk result (λ v. AreHits Strategy.Longest (Forward table.now shape.width shape.last) v.items) }
{
    let mut hits = Vec::new(alloc);
    let mut reached = 0;
    for place in 0..shape.last + 1 {
        let end = furthest_end(table, shape, place, reached);
        if reached < end {
            hits.push((place as u32, end as u32))?;
            reached = end;
        }
    }
    Ok(hits)
}

/// Appends the pairs from `place` to those of earlier places.
fn push_pairs(
    hits: &mut Vec<(u32, u32)>,
    table: &[u64],
    shape: Shape,
    place: usize,
) -> Result<(), AllocError>
    requires table { length table.now ≡ (shape.last + 1) * shape.width }
    requires order { place ≤ shape.last }
    requires ascending { AllPairs ComesBefore hits.old.items }
    requires earlier { (i j : ℕ) → Contains hits.old.items (i, j) → i < place }
    ensures ascending { OnOk result (AllPairs ComesBefore hits.new.items) }
    ensures pairs { OnOk result ((i j : ℕ) → (Contains hits.new.items (i, j)
        ↔ (Contains hits.old.items (i, j) ⊎ ((i ≡ place) × Forward table.now shape.width shape.last place j)))) }
{
    let row = place * shape.width;
    let mut end = next_place(table, row, place + 1, shape.last);
    while end <= shape.last {
        let pair = (place as u32, end as u32);
        hits.push(pair)?;
        end = next_place(table, row, end + 1, shape.last);
    }
    Ok(())
}

/// All pairs.
fn every(alloc: Global, table: &[u64], shape: Shape) -> Result<Vec<(u32, u32)>, AllocError>
    requires table { length table.now ≡ (shape.last + 1) * shape.width }
    ensures { IfOk result (λ v. AreHits Strategy.Every (Forward table.now shape.width shape.last) v.items) }
{
    let mut hits = Vec::new(alloc);
    for place in 0..shape.last + 1 {
        push_pairs(&mut hits, table, shape, place)?;
    }
    Ok(hits)
}

/// The words of which the expression holds. None contains another, so by each strategy they are the hits of a lone
/// token.
pub(crate) fn word_hits(
    alloc: Global,
    expr: u16,
    truth: &Truth,
) -> Result<Vec<(u32, u32)>, AllocError>
    requires { expr < truth.now.exprs }
    ensures sure { ((w : ℕ) → Holds truth.now expr w → ⊥) → IsOk result }
    ensures hits { IfOk result (λ v. (s : Strategy) → AreHits s (IsWord truth.now expr) v.items) }
{
    let mut hits = Vec::new(alloc);
    for place in 0..truth.words() {
        if truth.get(expr, place + 1) {
            hits.push((place as u32, place as u32 + 1))?;
        }
    }
    Ok(hits)
}

/// The pairs that are hits by the strategy.
pub(crate) fn hits_by(
    alloc: Global,
    strategy: Strategy,
    table: &[u64],
    shape: Shape,
) -> Result<Vec<(u32, u32)>, AllocError>
    requires table { length table.now ≡ (shape.last + 1) * shape.width }
    ensures { IfOk result (λ v. AreHits strategy (Forward table.now shape.width shape.last) v.items) }
{
    match strategy {
        Strategy::Shortest => shortest(alloc, table, shape),
        Strategy::Longest => longest(alloc, table, shape),
        Strategy::Every => every(alloc, table, shape),
    }
}
