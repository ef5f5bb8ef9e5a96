//! Tables of bit rows, one row after another in one slice.

ghost use Rattle.std.specs.Prelude.{◌≡◌, ◌+◌, ◌-◌, ◌*◌, ◌/◌, ◌<◌, ◌≤◌, ◌^◌, ◌↔◌, ◌⊎◌, ◌≢◌, ℕ, IsTrue, IfOk, length};
ghost use Rattle.tb_match.specs.Bits.{InRow, InTable, IsCounted, Through, Link, IsClosed, IsForward};
ghost use Rattle.tb_match.specs.Bits.{HasRowsOf, triangle};
ghost use Rattle.tb_match.specs.Match.{Chain};

use crate::shape::Shape;
use crate::uniting::unite;
use crate::walk::{next_place, next_unknown};
use std::alloc::{AllocError, Global};

/// Adds the place to the row.
#[inline(always)]
fn put(row: &mut [u64], place: usize)
    requires { place / 64 < length row.old }
    ensures { (j : ℕ) → (InRow row.new 0 j ↔ (InRow row.old 0 j ⊎ (j ≡ place))) }
{
    row[place / 64] |= 1 << (place % 64);
}

/// Unites into `spare` the row of each place that a link from `first` leads to.
#[inline(always)]
fn gather(
    spare: &mut [u64],
    shape: Shape,
    links: &[u64],
    table: &[u64],
    first: usize,
    steps: &mut u64,
)
    requires spare { length spare.old ≡ shape.width }
    requires links { length links.now ≡ (shape.last + 1) * shape.width }
    requires table { length table.now ≡ (shape.last + 1) * shape.width }
    requires order { first ≤ shape.last }
    requires countable { steps.old + (shape.last + 1 - first) < 2 ^ 64 }
    ensures united { (j : ℕ) → j ≤ shape.last →
        (InRow spare.new 0 j ↔ (InRow spare.old 0 j
        ⊎ Through links.now table.now shape.width first (shape.last + 1) j)) }
    ensures counted { IsCounted links.now shape.width shape.last first steps.old steps.new }
    ensures more { steps.old ≤ steps.new }
    ensures bound { steps.new ≤ steps.old + (shape.last + 1 - first) }
{
    let from = first * shape.width;
    let mut place = next_place(links, from, first, shape.last);
    while place <= shape.last {
        unite(spare, &table[shape.row(place)], steps);
        place = next_place(links, from, place + 1, shape.last);
    }
}

/// The same where the rows are closed: the row of a place includes the row of each place in it. So the row of a place
/// that `spare` already has adds nothing, and is left out.
#[inline(always)]
fn gather_closed(
    spare: &mut [u64],
    shape: Shape,
    links: &[u64],
    table: &[u64],
    first: usize,
    steps: &mut u64,
)
    requires spare { length spare.old ≡ shape.width }
    requires links { length links.now ≡ (shape.last + 1) * shape.width }
    requires table { length table.now ≡ (shape.last + 1) * shape.width }
    requires order { first ≤ shape.last }
    requires countable { steps.old + (shape.last + 1 - first) < 2 ^ 64 }
    requires closed { IsClosed table.now shape.width first shape.last }
    requires whole { HasRowsOf spare.old table.now shape.width shape.last }
    ensures united { (j : ℕ) → j ≤ shape.last →
        (InRow spare.new 0 j ↔ (InRow spare.old 0 j
        ⊎ Through links.now table.now shape.width first (shape.last + 1) j)) }
    ensures counted { (k : ℕ) → Link links.now shape.width shape.last first k
        → (InRow spare.old 0 k ⊎ (steps.old < steps.new)) }
    ensures more { steps.old ≤ steps.new }
    ensures bound { steps.new ≤ steps.old + (shape.last + 1 - first) }
{
    let from = first * shape.width;
    let mut place = next_unknown(links, from, spare, first, shape.last);
    while place <= shape.last {
        unite(spare, &table[shape.row(place)], steps);
        place = next_unknown(links, from, spare, place + 1, shape.last);
    }
}

/// Makes the row empty.
#[inline(always)]
pub(crate) fn clear(row: &mut [u64])
    ensures { (j : ℕ) → InRow row.new 0 j → ⊥ }
{
    row.fill(0);
}

/// Makes the row the one place.
#[inline(always)]
pub(crate) fn begin(row: &mut [u64], place: usize)
    requires { place / 64 < length row.old }
    ensures { (j : ℕ) → (InRow row.new 0 j ↔ (j ≡ place)) }
{
    clear(row);
    put(row, place);
}

/// Adds the place to a row of the table.
#[inline(always)]
pub(crate) fn mark(table: &mut [u64], shape: Shape, row: usize, place: usize)
    requires table { length table.old ≡ (shape.last + 1) * shape.width }
    requires row { row ≤ shape.last }
    requires place { place ≤ shape.last }
    ensures { (i j : ℕ) → j ≤ shape.last →
        (InTable table.new shape.width i j ↔ (InTable table.old shape.width i j ⊎ ((i ≡ row) × (j ≡ place)))) }
{
    put(&mut table[shape.row(row)], place);
}

/// Copies the row into the table.
#[inline(always)]
pub(crate) fn store(table: &mut [u64], row: &[u64], place: usize)
    requires { place * length row.now + length row.now ≤ length table.old }
    ensures stored { (j : ℕ) → j / 64 < length row.now → (InTable table.new (length row.now) place j
        ↔ InRow row.now 0 j) }
    ensures others { (i j : ℕ) → i ≢ place → j / 64 < length row.now →
        (InTable table.new (length row.now) i j ↔ InTable table.old (length row.now) i j) }
{
    let at = place * row.len();
    table[at..at + row.len()].copy_from_slice(row);
}

/// Unites into the empty row the row of each place that a link from `first` leads to. Where the rows are closed, those
/// that the row already has are left out.
#[inline(always)]
pub(crate) fn gather_all(
    spare: &mut [u64],
    shape: Shape,
    links: &[u64],
    table: &[u64],
    first: usize,
    closed: bool,
    steps: &mut u64,
)
    requires spare { length spare.old ≡ shape.width }
    requires links { length links.now ≡ (shape.last + 1) * shape.width }
    requires table { length table.now ≡ (shape.last + 1) * shape.width }
    requires order { first ≤ shape.last }
    requires countable { steps.old + (shape.last + 1 - first) < 2 ^ 64 }
    requires closed { IsTrue closed → IsClosed table.now shape.width first shape.last }
    requires empty { (j : ℕ) → j ≤ shape.last → InRow spare.old 0 j → ⊥ }
    ensures united { (j : ℕ) → j ≤ shape.last →
        (InRow spare.new 0 j ↔ Through links.now table.now shape.width first (shape.last + 1) j) }
    ensures counted { IsCounted links.now shape.width shape.last first steps.old steps.new }
    ensures more { steps.old ≤ steps.new }
    ensures bound { steps.new ≤ steps.old + (shape.last + 1 - first) }
{
    if closed {
        gather_closed(spare, shape, links, table, first, steps);
    } else {
        gather(spare, shape, links, table, first, steps);
    }
}

/// Makes row `place` of the table the places that its links lead on to.
#[inline(always)]
fn set_row(
    links: &[u64],
    table: &mut [u64],
    spare: &mut [u64],
    shape: Shape,
    place: usize,
    closed: bool,
    steps: &mut u64,
)
    requires spare { length spare.old ≡ shape.width }
    requires links { length links.now ≡ (shape.last + 1) * shape.width }
    requires table { length table.old ≡ (shape.last + 1) * shape.width }
    requires order { place ≤ shape.last }
    requires countable { steps.old + (shape.last + 1 - place) < 2 ^ 64 }
    requires closed { IsTrue closed → IsClosed table.old shape.width place shape.last }
    ensures row { (j : ℕ) → j ≤ shape.last →
        (InTable table.new shape.width place j ↔ Through links.now table.old shape.width place (shape.last + 1) j) }
    ensures others { (i j : ℕ) → i ≢ place → j ≤ shape.last →
        (InTable table.new shape.width i j ↔ InTable table.old shape.width i j) }
    ensures counted { IsCounted links.now shape.width shape.last place steps.old steps.new }
    ensures more { steps.old ≤ steps.new }
    ensures bound { steps.new ≤ steps.old + (shape.last + 1 - place) }
{
    if shape.width == 1 {
        let mut row = [0; 1];
        clear(&mut row);
        gather_all(
            &mut row,
            shape.of_one_word(),
            links,
            table,
            place,
            closed,
            steps,
        );
        store(table, &row, place);
    } else {
        clear(spare);
        gather_all(spare, shape, links, table, place, closed, steps);
        store(table, spare, place);
    }
}

/// The same where the rows are closed and the row is empty, with `place` itself added.
#[inline(always)]
fn set_closed_row(
    links: &[u64],
    table: &mut [u64],
    spare: &mut [u64],
    shape: Shape,
    place: usize,
    steps: &mut u64,
)
    requires spare { length spare.old ≡ shape.width }
    requires links { length links.now ≡ (shape.last + 1) * shape.width }
    requires table { length table.old ≡ (shape.last + 1) * shape.width }
    requires order { place ≤ shape.last }
    requires countable { steps.old + (shape.last + 1 - place) < 2 ^ 64 }
    requires closed { IsClosed table.old shape.width place shape.last }
    requires empty { (j : ℕ) → j ≤ shape.last → InTable table.old shape.width place j → ⊥ }
    ensures row { (j : ℕ) → j ≤ shape.last →
        (InTable table.new shape.width place j ↔ ((j ≡ place)
        ⊎ Through links.now table.old shape.width place (shape.last + 1) j)) }
    ensures others { (i j : ℕ) → i ≢ place → j ≤ shape.last →
        (InTable table.new shape.width i j ↔ InTable table.old shape.width i j) }
    ensures counted { (k : ℕ) → Link links.now shape.width shape.last place k → k ≢ place
        → steps.old < steps.new }
    ensures more { steps.old ≤ steps.new }
    ensures bound { steps.new ≤ steps.old + (shape.last + 1 - place) }
{
    if shape.width == 1 {
        let mut row = [0; 1];
        begin(&mut row, place);
        gather_closed(&mut row, shape.of_one_word(), links, table, place, steps);
        store(table, &row, place);
    } else {
        begin(spare, place);
        gather_closed(spare, shape, links, table, place, steps);
        store(table, spare, place);
    }
}

/// Makes the table's relation the links' relation followed by the table's. This is faster where the table is closed.
pub(crate) fn compose(
    links: &[u64],
    table: &mut [u64],
    spare: &mut [u64],
    shape: Shape,
    closed: bool,
    steps: &mut u64,
)
    requires spare { length spare.old ≡ shape.width }
    requires links { length links.now ≡ (shape.last + 1) * shape.width }
    requires table { length table.old ≡ (shape.last + 1) * shape.width }
    requires countable { steps.old + triangle (shape.last + 1) < 2 ^ 64 }
    requires closed { IsTrue closed → IsClosed table.old shape.width 0 shape.last }
    requires forward { IsTrue closed → IsForward table.old shape.width shape.last }
    ensures rows { (i j : ℕ) → i ≤ shape.last → j ≤ shape.last →
        (InTable table.new shape.width i j ↔ Through links.now table.old shape.width i (shape.last + 1) j) }
    ensures counted { (i : ℕ) → i ≤ shape.last
        → IsCounted links.now shape.width shape.last i steps.old steps.new }
    ensures more { steps.old ≤ steps.new }
    ensures bound { steps.new ≤ steps.old + triangle (shape.last + 1) }
{
    for place in 0..shape.last + 1 {
        set_row(links, table, spare, shape, place, closed, steps);
    }
}

/// Closes the links: chains of any number of them, in one sweep from the last place to the first. The rows of later
/// places are closed by then, so no row has to be united twice.
pub(crate) fn close(
    links: &[u64],
    table: &mut [u64],
    spare: &mut [u64],
    shape: Shape,
    steps: &mut u64,
)
    requires spare { length spare.old ≡ shape.width }
    requires links { length links.now ≡ (shape.last + 1) * shape.width }
    requires table { length table.old ≡ (shape.last + 1) * shape.width }
    requires empty { (i j : ℕ) → i ≤ shape.last → j ≤ shape.last
        → InTable table.old shape.width i j → ⊥ }
    requires countable { steps.old + triangle (shape.last + 1) < 2 ^ 64 }
    ensures rows { (i j : ℕ) → i ≤ shape.last → j ≤ shape.last →
        (InTable table.new shape.width i j ↔ ((k : ℕ) × Chain (Link links.now shape.width shape.last) k i j)) }
    ensures counted { (i k : ℕ) → Link links.now shape.width shape.last i k → k ≢ i → steps.old < steps.new }
    ensures more { steps.old ≤ steps.new }
    ensures bound { steps.new ≤ steps.old + triangle (shape.last + 1) }
{
    for place in (0..shape.last + 1).rev() {
        set_closed_row(links, table, spare, shape, place, steps);
    }
}

/// Unites into each row of the table the same row of the other.
pub(crate) fn merge(table: &mut [u64], other: &[u64], shape: Shape, steps: &mut u64)
    requires other { length other.now ≡ (shape.last + 1) * shape.width }
    requires table { length table.old ≡ (shape.last + 1) * shape.width }
    requires countable { steps.old + (shape.last + 1) < 2 ^ 64 }
    ensures rows { (i j : ℕ) → i ≤ shape.last → j ≤ shape.last →
        (InTable table.new shape.width i j ↔ (InTable table.old shape.width i j
        ⊎ InTable other.now shape.width i j)) }
    ensures counted { steps.new ≡ steps.old + (shape.last + 1) }
    ensures more { steps.old ≤ steps.new }
    ensures bound { steps.new ≤ steps.old + (shape.last + 1) }
{
    for place in 0..shape.last + 1 {
        merge_row(table, other, shape, place, steps);
    }
}

/// Unites into one row of the table the same row of the other.
#[inline(always)]
fn merge_row(table: &mut [u64], other: &[u64], shape: Shape, place: usize, steps: &mut u64)
    requires other { length other.now ≡ (shape.last + 1) * shape.width }
    requires table { length table.old ≡ (shape.last + 1) * shape.width }
    requires order { place ≤ shape.last }
    requires countable { steps.old + 1 < 2 ^ 64 }
    ensures row { (j : ℕ) → j ≤ shape.last →
        (InTable table.new shape.width place j ↔ (InTable table.old shape.width place j
        ⊎ InTable other.now shape.width place j)) }
    ensures others { (i j : ℕ) → i ≢ place → j ≤ shape.last → (InTable table.new shape.width i j
        ↔ InTable table.old shape.width i j) }
    ensures counted { steps.new ≡ steps.old + 1 }
{
    unite(
        &mut table[shape.row(place)],
        &other[shape.row(place)],
        steps,
    );
}

/// A table whose rows have no place.
pub(crate) fn empty(alloc: Global, shape: Shape) -> Result<Vec<u64>, AllocError>
    ensures whole { IfOk result (λ v. length v.items ≡ (shape.last + 1) * shape.width) }
    ensures none { IfOk result (λ v. (i j : ℕ) → InTable v.items shape.width i j → ⊥) }
{
    Vec::from_elem(alloc, 0, (shape.last + 1) * shape.width)
}

/// A table in which each row has only its own place.
pub(crate) fn diagonal(alloc: Global, shape: Shape) -> Result<Vec<u64>, AllocError>
    ensures whole { IfOk result (λ v. length v.items ≡ (shape.last + 1) * shape.width) }
    ensures rows { IfOk result (λ v. (i j : ℕ) → i ≤ shape.last → j ≤ shape.last
        → (InTable v.items shape.width i j ↔ (i ≡ j))) }
{
    let mut table = empty(alloc, shape)?;
    for place in 0..shape.last + 1 {
        mark(&mut table, shape, place, place);
    }
    Ok(table)
}
