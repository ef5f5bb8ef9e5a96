//! Rows of one machine word, which sentences of fewer than 64 words have. All places of a row step over a word at once,
//! and links are chained in their own table.

ghost use Rattle.std.specs.Prelude.{◌≡◌, ◌+◌, ◌-◌, ◌^◌, ◌<◌, ◌≤◌, ◌≢◌, ◌↔◌, ◌⊎◌, ℕ, length};
ghost use Rattle.std.specs.Int.{bit_at};
ghost use Rattle.tb_match.specs.Bits.{InRow, InTable, Link, triangle};
ghost use Rattle.tb_match.specs.Facts.{Holds};
ghost use Rattle.tb_match.specs.Match.{Chain};
ghost use Rattle.tb_match.specs.Stays.{MayStay};

use crate::step::Step;
use crate::truth::Truth;
use crate::uniting::unite;
use crate::walk::bits_from;

/// The bits and the bit of the place.
#[inline(always)]
fn with_place(bits: u64, place: usize) -> u64
    requires { place < 64 }
    ensures { (j : ℕ) → ((bit_at result j ≡ 1) ↔ ((bit_at bits j ≡ 1) ⊎ (j ≡ place))) }
{
    bits | 1 << place
}

/// The places where the words end of which the expression holds.
pub(crate) fn ends_of(expr: u16, truth: &Truth) -> u64
    requires expr { expr < truth.now.exprs }
    requires short { truth.now.words < 64 }
    ensures { (j : ℕ) → ((bit_at result j ≡ 1) ↔ Holds truth.now expr j) }
{
    let mut ends = 0;
    for word in 1..truth.words() + 1 {
        if truth.get(expr, word) {
            ends = with_place(ends, word);
        }
    }
    ends
}

/// The places one word further on, where a word may end. An optional step keeps the row's own places too.
#[inline(always)]
fn step_word(row: u64, ends: u64, stay: Step) -> u64
    ensures places { (j : ℕ) → j < 64 → ((bit_at result j ≡ 1) ↔ ((MayStay stay × (bit_at row j ≡ 1)) ⊎
        ((k : ℕ) × (j ≡ k + 1) × (bit_at row k ≡ 1) × (bit_at ends j ≡ 1)))) }
    ensures grows { MayStay stay → row ≤ result }
{
    let next = row << 1 & ends;
    match stay {
        Step::Optional => row | next,
        Step::Required => next,
    }
}

/// The places any number of words further on, where a word may end at each.
#[inline(always)]
fn run_word(row: u64, ends: u64) -> u64
    ensures { (j : ℕ) → j < 64 → ((bit_at result j ≡ 1) ↔ ((k : ℕ) × (bit_at row k ≡ 1) ×
        ((n : ℕ) × Chain (λ a b. (b ≡ a + 1) × (bit_at ends b ≡ 1)) n k j))) }
{
    let mut all = row;
    let mut next = step_word(row, ends, Step::Optional);
    while next != all {
        all = next;
        next = step_word(all, ends, Step::Optional);
    }
    all
}

/// Makes each row its places one word further on. An optional step keeps its own places too.
pub(crate) fn step_words(table: &mut [u64], ends: u64, stay: Step)
    ensures rows { (i j : ℕ) → i < length table.old → j < 64 → (InTable table.new 1 i j ↔
        ((MayStay stay × InTable table.old 1 i j) ⊎
        ((k : ℕ) × (j ≡ k + 1) × InTable table.old 1 i k × (bit_at ends j ≡ 1)))) }
{
    for row in 0..table.len() {
        table[row] = step_word(table[row], ends, stay);
    }
}

/// Makes each row its places any number of words further on.
pub(crate) fn run_words(table: &mut [u64], ends: u64)
    ensures rows { (i j : ℕ) → i < length table.old → j < 64 → (InTable table.new 1 i j ↔
        ((k : ℕ) × (k < 64) × InTable table.old 1 i k ×
        ((n : ℕ) × Chain (λ a b. (b ≡ a + 1) × (bit_at ends b ≡ 1)) n k j))) }
{
    for row in 0..table.len() {
        table[row] = run_word(table[row], ends);
    }
}

/// The bits without the bit of the place.
#[inline(always)]
pub(crate) fn without_place(bits: u64, place: usize) -> u64
    requires { place < 64 }
    ensures places { (j : ℕ) → j < 64 → ((bit_at result j ≡ 1) ↔ ((bit_at bits j ≡ 1) × (j ≢ place))) }
    ensures shrinks { result ≤ bits }
{
    bits & !(1 << place)
}

/// The bits without those of the other word.
#[inline(always)]
fn without(bits: u64, known: u64) -> u64
    ensures places { (j : ℕ) → j < 64 → ((bit_at result j ≡ 1) ↔ ((bit_at bits j ≡ 1)
        × (bit_at known j ≡ 1 → ⊥))) }
    ensures shrinks { result ≤ bits }
{
    bits & !known
}

/// The places of the row up to the last one.
#[inline(always)]
fn places_to(row: u64, last: usize) -> u64
    requires { last < 64 }
    ensures { (j : ℕ) → j < 64 → ((bit_at result j ≡ 1) ↔ ((bit_at row j ≡ 1) × (j ≤ last))) }
{
    row & (u64::MAX >> (63 - last))
}

/// The lowest place of the bits.
#[inline(always)]
fn lowest_place(bits: u64) -> usize
    requires { bits ≢ 0 }
    ensures limit { result < 64 }
    ensures there { bit_at bits result ≡ 1 }
    ensures least { (j : ℕ) → j < result → bit_at bits j ≡ 0 }
{
    bits.trailing_zeros() as usize
}

/// Unites into the row the row of a place of the table.
#[inline(always)]
fn unite_word(row: &mut [u64], table: &[u64], place: usize, steps: &mut u64)
    requires one { length row.old ≡ 1 }
    requires inside { place < length table.now }
    requires countable { steps.old + 1 < 2 ^ 64 }
    ensures united { (j : ℕ) → j < 64 → (InRow row.new 0 j ↔ (InRow row.old 0 j
        ⊎ InTable table.now 1 place j)) }
    ensures counted { steps.new ≡ steps.old + 1 }
{
    unite(row, &table[place..place + 1], steps);
}

/// The row of a place whose links are in the table: its links, and the rows of the places that they lead to. The later
/// rows are closed. The row of a place that came with another adds nothing, and is left out.
#[inline(always)]
fn chained_word(table: &[u64], place: usize, last: usize, steps: &mut u64) -> u64
    requires table { length table.now ≡ last + 1 }
    requires short { last < 64 }
    requires order { place ≤ last }
    requires countable { steps.old + (last + 1 - place) < 2 ^ 64 }
    requires closed { (i k j : ℕ) → place < i → i ≤ last → k ≤ last → j ≤ last →
        InTable table.now 1 i k → InTable table.now 1 k j → InTable table.now 1 i j }
    ensures places { (j : ℕ) → j ≤ last → ((bit_at result j ≡ 1)
        ↔ (((place ≤ j) × InTable table.now 1 place j) ⊎
        ((k : ℕ) × (place < k) × (k ≤ last) × InTable table.now 1 place k × InTable table.now 1 k j))) }
    ensures more { steps.old ≤ steps.new }
    ensures bound { steps.new ≤ steps.old + (last + 1 - place) }
{
    let links = places_to(bits_from(table[place], 0, place), last);
    let mut gathered = [0; 1];
    let mut ahead = without_place(links, place);
    while ahead != 0 {
        let next = lowest_place(ahead);
        unite_word(&mut gathered, table, next, steps);
        ahead = without(without_place(ahead, next), gathered[0]);
    }
    links | gathered[0]
}

/// Makes the links their chains of one or more, in one sweep from the last place to the first.
pub(crate) fn chain_words(table: &mut [u64], last: usize, steps: &mut u64)
    requires table { length table.old ≡ last + 1 }
    requires short { last < 64 }
    requires countable { steps.old + triangle (last + 1) < 2 ^ 64 }
    ensures rows { (i j : ℕ) → i ≤ last → j ≤ last →
        (InTable table.new 1 i j ↔ ((k : ℕ) × (1 ≤ k) × Chain (Link table.old 1 last) k i j)) }
    ensures more { steps.old ≤ steps.new }
    ensures bound { steps.new ≤ steps.old + triangle (last + 1) }
{
    for place in (0..last + 1).rev() {
        table[place] = chained_word(table, place, last, steps);
    }
}
