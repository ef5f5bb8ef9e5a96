//! Puts links before a table as many times as the least number of a repetition. It takes one turn at a time or, where
//! links are many, takes links that lead two, four and more at once.

ghost use Rattle.std.specs.Prelude.{◌≡◌, ◌+◌, ◌-◌, ◌*◌, ◌<◌, ◌≤◌, ◌^◌, ◌↔◌, ◌≢◌, ℕ, IsTrue, length};
ghost use Rattle.tb_match.specs.Bits.{InTable, IsClosed, IsCounted, IsForward, HasLinksOf, Link, Repeated};
ghost use Rattle.tb_match.specs.Bits.{Through, triangle};
ghost use Rattle.tb_match.specs.Match.{Chain};

use crate::shape::Shape;
use crate::table::{clear, compose, gather_all, store};

/// Makes row `place` the places that two links lead to. This is faster where the links are closed.
#[inline(always)]
fn square_row(
    links: &mut [u64],
    spare: &mut [u64],
    shape: Shape,
    place: usize,
    closed: bool,
    steps: &mut u64,
)
    requires spare { length spare.old ≡ shape.width }
    requires links { length links.old ≡ (shape.last + 1) * shape.width }
    requires order { place ≤ shape.last }
    requires countable { steps.old + (shape.last + 1 - place) < 2 ^ 64 }
    requires closed { IsTrue closed → IsClosed links.old shape.width place shape.last }
    ensures row { (j : ℕ) → j ≤ shape.last →
        (InTable links.new shape.width place j ↔ Through links.old links.old shape.width place (shape.last + 1) j) }
    ensures others { (i j : ℕ) → i ≢ place → j ≤ shape.last →
        (InTable links.new shape.width i j ↔ InTable links.old shape.width i j) }
    ensures counted { IsCounted links.old shape.width shape.last place steps.old steps.new }
    ensures more { steps.old ≤ steps.new }
    ensures bound { steps.new ≤ steps.old + (shape.last + 1 - place) }
{
    if shape.width == 1 {
        let mut row = [0; 1];
        clear(&mut row);
        gather_all(
            &mut row,
            shape.of_one_word(),
            links,
            links,
            place,
            closed,
            steps,
        );
        store(links, &row, place);
    } else {
        clear(spare);
        gather_all(spare, shape, links, links, place, closed, steps);
        store(links, spare, place);
    }
}

/// Makes the links their own composition: two of them in a row. A row needs only later rows, which are still the old
/// ones.
fn square(links: &mut [u64], spare: &mut [u64], shape: Shape, closed: bool, steps: &mut u64)
    requires spare { length spare.old ≡ shape.width }
    requires links { length links.old ≡ (shape.last + 1) * shape.width }
    requires countable { steps.old + triangle (shape.last + 1) < 2 ^ 64 }
    requires onward { IsForward links.old shape.width shape.last }
    requires closed { IsTrue closed → IsClosed links.old shape.width 0 shape.last }
    ensures rows { (i j : ℕ) → i ≤ shape.last → j ≤ shape.last →
        (InTable links.new shape.width i j ↔ Through links.old links.old shape.width i (shape.last + 1) j) }
    ensures counted { (i : ℕ) → i ≤ shape.last
        → IsCounted links.old shape.width shape.last i steps.old steps.new }
    ensures more { steps.old ≤ steps.new }
    ensures bound { steps.new ≤ steps.old + triangle (shape.last + 1) }
{
    for place in 0..shape.last + 1 {
        square_row(links, spare, shape, place, closed, steps);
    }
}

/// Takes one turn, or makes the links twice as long where an even number of turns is left. Returns how many turns are
/// left.
fn take_turn(
    links: &mut [u64],
    table: &mut [u64],
    spare: &mut [u64],
    shape: Shape,
    left: usize,
    double: bool,
    closed: bool,
    steps: &mut u64,
) -> usize
    requires spare { length spare.old ≡ shape.width }
    requires links { length links.old ≡ (shape.last + 1) * shape.width }
    requires table { length table.old ≡ (shape.last + 1) * shape.width }
    requires some { 0 < left }
    requires countable { steps.old + left * triangle (shape.last + 1) < 2 ^ 64 }
    requires onward { IsForward links.old shape.width shape.last }
    requires chained { IsTrue double → IsTrue closed → IsClosed links.old shape.width 0 shape.last }
    requires closed { IsTrue closed → IsClosed table.old shape.width 0 shape.last }
    requires linked { IsTrue closed → HasLinksOf table.old links.old shape.width shape.last }
    requires forward { IsTrue closed → IsForward table.old shape.width shape.last }
    ensures fewer { result < left }
    ensures rows { (i j : ℕ) → i ≤ shape.last → j ≤ shape.last →
        (Repeated links.new table.new shape.width shape.last result i j
        ↔ Repeated links.old table.old shape.width shape.last left i j) }
    ensures onward { IsForward links.new shape.width shape.last }
    ensures chained { IsTrue double → IsTrue closed → IsClosed links.new shape.width 0 shape.last }
    ensures closed { IsTrue closed → IsClosed table.new shape.width 0 shape.last }
    ensures linked { IsTrue closed → HasLinksOf table.new links.new shape.width shape.last }
    ensures forward { IsTrue closed → IsForward table.new shape.width shape.last }
    ensures counted { (i : ℕ) → i ≤ shape.last
        → IsCounted links.old shape.width shape.last i steps.old steps.new }
    ensures more { steps.old ≤ steps.new }
    ensures bound { steps.new + result * triangle (shape.last + 1) ≤ steps.old + left * triangle (shape.last + 1) }
{
    if double && left % 2 == 0 {
        square(links, spare, shape, closed, steps);
        return left / 2;
    }
    compose(links, table, spare, shape, closed, steps);
    left - 1
}

/// Links are many if they are at least one in this many of all pairs of places.
const SHARE: usize = 8;

/// Whether links are many. It only chooses between two ways with the same result. A few links are put before the table
/// quickly, while links of many steps may be far more.
fn are_many(links: &[u64], last: usize) -> bool
    requires small { last ≤ 1000 }
{
    let mut count: usize = 0;
    for word in links {
        count = count.wrapping_add(word.count_ones() as usize);
    }
    count >= (last + 1) * (last + 1) / (2 * SHARE)
}

/// Returns whether to take turns two, four and more at once. If so, and the table is closed, the links become the
/// table's own, which are chains of them: closed links are faster.
fn prepare(links: &mut [u64], table: &[u64], shape: Shape, times: usize, closed: bool) -> bool
    requires links { length links.old ≡ (shape.last + 1) * shape.width }
    requires table { length table.now ≡ (shape.last + 1) * shape.width }
    requires onward { IsForward links.old shape.width shape.last }
    requires closed { IsTrue closed → IsClosed table.now shape.width 0 shape.last }
    requires linked { IsTrue closed → HasLinksOf table.now links.old shape.width shape.last }
    requires forward { IsTrue closed → IsForward table.now shape.width shape.last }
    requires chains { IsTrue closed → 1 < times → (i j : ℕ) → i ≤ shape.last → j ≤ shape.last →
        (InTable table.now shape.width i j ↔ ((k : ℕ) × (1 ≤ k)
        × Chain (Link links.old shape.width shape.last) k i j)) }
    ensures rows { (n i j : ℕ) → i ≤ shape.last → j ≤ shape.last →
        (Repeated links.new table.now shape.width shape.last n i j
        ↔ Repeated links.old table.now shape.width shape.last n i j) }
    ensures onward { IsForward links.new shape.width shape.last }
    ensures chained { IsTrue result → IsTrue closed → IsClosed links.new shape.width 0 shape.last }
    ensures linked { IsTrue closed → HasLinksOf table.now links.new shape.width shape.last }
{
    if times < 2 || !are_many(links, shape.last) {
        return false;
    }
    if !closed {
        return true;
    }
    links.copy_from_slice(table);
    true
}

/// Puts the links before the table's relation `times` times. This is faster where the table is closed and has the links
/// of each of its places. The links are used up.
pub(crate) fn repeat(
    links: &mut [u64],
    table: &mut [u64],
    spare: &mut [u64],
    shape: Shape,
    times: usize,
    closed: bool,
    steps: &mut u64,
)
    requires spare { length spare.old ≡ shape.width }
    requires links { length links.old ≡ (shape.last + 1) * shape.width }
    requires table { length table.old ≡ (shape.last + 1) * shape.width }
    requires countable { steps.old + times * triangle (shape.last + 1) < 2 ^ 64 }
    requires onward { IsForward links.old shape.width shape.last }
    requires closed { IsTrue closed → IsClosed table.old shape.width 0 shape.last }
    requires linked { IsTrue closed → HasLinksOf table.old links.old shape.width shape.last }
    requires forward { IsTrue closed → IsForward table.old shape.width shape.last }
    requires chains { IsTrue closed → 1 < times → (i j : ℕ) → i ≤ shape.last → j ≤ shape.last →
        (InTable table.old shape.width i j ↔ ((k : ℕ) × (1 ≤ k)
        × Chain (Link links.old shape.width shape.last) k i j)) }
    ensures rows { (i j : ℕ) → i ≤ shape.last → j ≤ shape.last →
        (InTable table.new shape.width i j ↔ Repeated links.old table.old shape.width shape.last times i j) }
    ensures more { steps.old ≤ steps.new }
    ensures bound { steps.new ≤ steps.old + times * triangle (shape.last + 1) }
{
    let double = prepare(links, table, shape, times, closed);
    let mut left = times;
    while left > 0 {
        left = take_turn(links, table, spare, shape, left, double, closed, steps);
    }
}
