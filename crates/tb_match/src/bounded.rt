//! Chains of at most a given number of links: in each turn, from each place, the links of the places that are new.

ghost use Rattle.std.specs.Prelude.{◌≡◌, ◌+◌, ◌-◌, ◌*◌, ◌/◌, ◌<◌, ◌≤◌, ◌^◌, ◌↔◌, ◌⊎◌, ◌≢◌, ℕ, IsTrue, length};
ghost use Rattle.tb_match.specs.Bits.{InRow, InTable, IsForward, Link, Within, triangle};
ghost use Rattle.tb_match.specs.Match.{Chain};

use crate::narrow::without_place;
use crate::shape::{Shape, WIDEST};
use crate::table::{begin, clear, store};
use crate::uniting::unite;
use crate::walk::{next_place, next_unknown};

/// Unites into the row the links of each place that `before` has and `done` has not.
#[inline(always)]
fn follow(
    row: &mut [u64],
    before: &[u64],
    done: &[u64],
    links: &[u64],
    shape: Shape,
    first: usize,
    steps: &mut u64,
)
    requires row { length row.old ≡ shape.width }
    requires before { length before.now ≡ shape.width }
    requires done { length done.now ≡ shape.width }
    requires links { length links.now ≡ (shape.last + 1) * shape.width }
    requires order { first ≤ shape.last }
    requires countable { steps.old + (shape.last + 1 - first) < 2 ^ 64 }
    ensures only { (j : ℕ) → j ≤ shape.last → InRow row.new 0 j →
        (InRow row.old 0 j ⊎ ((k : ℕ) × (k ≤ shape.last) × InRow before.now 0 k
        × InTable links.now shape.width k j)) }
    ensures kept { (j : ℕ) → j ≤ shape.last → InRow row.old 0 j → InRow row.new 0 j }
    ensures followed { (k j : ℕ) → first ≤ k → k ≤ shape.last → j ≤ shape.last
        → InRow before.now 0 k →
        InTable links.now shape.width k j → (InRow done.now 0 k ⊎ InRow row.new 0 j) }
    ensures more { steps.old ≤ steps.new }
    ensures bound { steps.new ≤ steps.old + (shape.last + 1 - first) }
{
    let mut place = next_unknown(before, 0, done, first, shape.last);
    while place <= shape.last {
        unite(row, &links[shape.row(place)], steps);
        place = next_unknown(before, 0, done, place + 1, shape.last);
    }
}

/// Adds to the row the places that one link leads to from its places. Before the call, the row has the links of the
/// places in `done`; after it, those of all places that it had.
#[inline(always)]
fn extend(
    row: &mut [u64],
    before: &mut [u64],
    done: &mut [u64],
    links: &[u64],
    shape: Shape,
    first: usize,
    steps: &mut u64,
)
    requires row { length row.old ≡ shape.width }
    requires before { length before.old ≡ shape.width }
    requires done { length done.old ≡ shape.width }
    requires links { length links.now ≡ (shape.last + 1) * shape.width }
    requires order { first ≤ shape.last }
    requires countable { steps.old + (shape.last + 1 - first) < 2 ^ 64 }
    requires from { (k : ℕ) → k ≤ shape.last → InRow row.old 0 k → first ≤ k }
    requires followed { (k j : ℕ) → k ≤ shape.last → j ≤ shape.last → InRow done.old 0 k
        → InTable links.now shape.width k j → InRow row.old 0 j }
    ensures extended { (j : ℕ) → j ≤ shape.last → (InRow row.new 0 j ↔
        (InRow row.old 0 j ⊎ ((k : ℕ) × (k ≤ shape.last) × InRow row.old 0 k
        × InTable links.now shape.width k j))) }
    ensures followed { (k j : ℕ) → k ≤ shape.last → j ≤ shape.last → InRow done.new 0 k
        → InTable links.now shape.width k j → InRow row.new 0 j }
    ensures more { steps.old ≤ steps.new }
    ensures bound { steps.new ≤ steps.old + (shape.last + 1 - first) }
{
    before.copy_from_slice(row);
    follow(row, before, done, links, shape, first, steps);
    done.copy_from_slice(before);
}

/// Whether the two rows are equal.
#[inline(always)]
fn is_same(row: &[u64], other: &[u64]) -> bool
    ensures { IsTrue result → row.now ≡ other.now }
{
    *row == *other
}

/// Makes the row the places that at most `times` links lead to from the place. Returns whether it is the row `closed`
/// of any number of links. Once it is, further turns add nothing.
#[inline(always)]
fn limit_row(
    row: &mut [u64],
    closed: &[u64],
    before: &mut [u64],
    done: &mut [u64],
    links: &[u64],
    shape: Shape,
    place: usize,
    times: usize,
    steps: &mut u64,
) -> bool
    requires row { length row.old ≡ shape.width }
    requires before { length before.old ≡ shape.width }
    requires done { length done.old ≡ shape.width }
    requires links { length links.now ≡ (shape.last + 1) * shape.width }
    requires order { place ≤ shape.last }
    requires forward { IsForward links.now shape.width shape.last }
    requires closed { (j : ℕ) → j ≤ shape.last → (InRow closed.now 0 j
        ↔ ((k : ℕ) × Chain (Link links.now shape.width shape.last) k place j)) }
    requires countable { steps.old + times * (shape.last + 1 - place) < 2 ^ 64 }
    ensures row { (j : ℕ) → j ≤ shape.last → (InRow row.new 0 j
        ↔ Within links.now shape.width shape.last times place j) }
    ensures unchanged { IsTrue result → row.new ≡ closed.now }
    ensures more { steps.old ≤ steps.new }
    ensures bound { steps.new ≤ steps.old + times * (shape.last + 1 - place) }
{
    begin(row, place);
    clear(done);
    for turn in 0..times {
        if is_same(row, closed) {
            return true;
        }
        extend(row, before, done, links, shape, place, steps);
    }
    is_same(row, closed)
}

/// The same for a row of a table, which is that of any number of links.
#[inline(always)]
fn limit_place(
    table: &mut [u64],
    spare: &mut [u64],
    before: &mut [u64],
    done: &mut [u64],
    links: &[u64],
    shape: Shape,
    place: usize,
    times: usize,
    steps: &mut u64,
) -> bool
    requires spare { length spare.old ≡ shape.width }
    requires before { length before.old ≡ shape.width }
    requires done { length done.old ≡ shape.width }
    requires links { length links.now ≡ (shape.last + 1) * shape.width }
    requires table { length table.old ≡ (shape.last + 1) * shape.width }
    requires order { place ≤ shape.last }
    requires forward { IsForward links.now shape.width shape.last }
    requires closed { (j : ℕ) → j ≤ shape.last → (InTable table.old shape.width place j
        ↔ ((k : ℕ) × Chain (Link links.now shape.width shape.last) k place j)) }
    requires countable { steps.old + times * (shape.last + 1 - place) < 2 ^ 64 }
    ensures row { (j : ℕ) → j ≤ shape.last → (InTable table.new shape.width place j
        ↔ Within links.now shape.width shape.last times place j) }
    ensures unchanged { IsTrue result → (j : ℕ) → j ≤ shape.last → (InTable table.new shape.width place j
        ↔ InTable table.old shape.width place j) }
    ensures others { (i j : ℕ) → i ≢ place → j ≤ shape.last → (InTable table.new shape.width i j
        ↔ InTable table.old shape.width i j) }
    ensures more { steps.old ≤ steps.new }
    ensures bound { steps.new ≤ steps.old + times * (shape.last + 1 - place) }
{
    let closed = &table[shape.row(place)];
    let same = limit_row(
        spare, closed, before, done, links, shape, place, times, steps,
    );
    store(table, spare, place);
    same
}

/// Makes the rows of any number of links those of at most `times`. Returns whether they are the same.
pub(crate) fn limit(
    table: &mut [u64],
    spare: &mut [u64],
    links: &[u64],
    shape: Shape,
    times: usize,
    steps: &mut u64,
) -> bool
    requires spare { length spare.old ≡ shape.width }
    requires links { length links.now ≡ (shape.last + 1) * shape.width }
    requires table { length table.old ≡ (shape.last + 1) * shape.width }
    requires forward { IsForward links.now shape.width shape.last }
    requires closed { (i j : ℕ) → i ≤ shape.last → j ≤ shape.last → (InTable table.old shape.width i j
        ↔ ((k : ℕ) × Chain (Link links.now shape.width shape.last) k i j)) }
    requires countable { steps.old + times * triangle (shape.last + 1) < 2 ^ 64 }
    ensures rows { (i j : ℕ) → i ≤ shape.last → j ≤ shape.last → (InTable table.new shape.width i j
        ↔ Within links.now shape.width shape.last times i j) }
    ensures unchanged { IsTrue result → (i j : ℕ) → i ≤ shape.last → j ≤ shape.last
        → (InTable table.new shape.width i j ↔ InTable table.old shape.width i j) }
    ensures more { steps.old ≤ steps.new }
    ensures bound { steps.new ≤ steps.old + times * triangle (shape.last + 1) }
{
    let mut before = [0; WIDEST];
    let mut done = [0; WIDEST];
    let before = &mut before[..shape.width];
    let done = &mut done[..shape.width];
    let mut same = true;
    for place in 0..shape.last + 1 {
        same &= limit_place(
            table, spare, before, done, links, shape, place, times, steps,
        );
    }
    same
}

/// Removes the place from the row.
#[inline(always)]
fn remove(row: &mut [u64], place: usize)
    requires { place / 64 < length row.old }
    ensures { (j : ℕ) → (InRow row.new 0 j ↔ (InRow row.old 0 j × (j ≢ place))) }
{
    row[place / 64] = without_place(row[place / 64], place % 64);
}

/// Removes the place from its own row of the table, unless a link leads from it to itself.
#[inline(always)]
fn leave_place(table: &mut [u64], links: &[u64], shape: Shape, place: usize)
    requires links { length links.now ≡ (shape.last + 1) * shape.width }
    requires table { length table.old ≡ (shape.last + 1) * shape.width }
    requires order { place ≤ shape.last }
    ensures row { (j : ℕ) → j ≤ shape.last → (InTable table.new shape.width place j ↔
        (InTable table.old shape.width place j × ((j ≢ place) ⊎ InTable links.now shape.width place place))) }
    ensures others { (i j : ℕ) → i ≢ place → j ≤ shape.last → (InTable table.new shape.width i j
        ↔ InTable table.old shape.width i j) }
{
    if next_place(links, place * shape.width, place, place) > place {
        remove(&mut table[shape.row(place)], place);
    }
}

/// Removes each place from its own row, unless a link leads from it to itself. What is left are the chains of at least
/// one link.
pub(crate) fn leave(table: &mut [u64], links: &[u64], shape: Shape)
    requires links { length links.now ≡ (shape.last + 1) * shape.width }
    requires table { length table.old ≡ (shape.last + 1) * shape.width }
    ensures rows { (i j : ℕ) → i ≤ shape.last → j ≤ shape.last → (InTable table.new shape.width i j ↔
        (InTable table.old shape.width i j × ((j ≢ i) ⊎ InTable links.now shape.width i i))) }
{
    for place in 0..shape.last + 1 {
        leave_place(table, links, shape, place);
    }
}
