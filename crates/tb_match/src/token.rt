//! Parts of a pattern that are one word, an optional word or a run of words. They need no table of their own: the
//! places of a row step over the words.

ghost use Rattle.std.specs.Prelude.{◌≡◌, ◌+◌, ◌*◌, ◌<◌, ◌≤◌, ◌↔◌, ◌⊎◌, ◌≢◌, ℕ, IsTrue, IfOk, length, Some, None};
ghost use Rattle.tb_match.specs.Bits.{InTable};
ghost use Rattle.tb_match.specs.Facts.{Facts, Holds};
ghost use Rattle.tb_match.specs.Hits.{IsWord};
ghost use Rattle.tb_match.specs.Match.{Chain, Match};
ghost use Rattle.tb_match.specs.Stays.{MayStay};
ghost use Rattle.tb_match.specs.Trees.{tree};
ghost use Rattle.tb_match.specs.Weight.{IsProper};

use crate::narrow::{ends_of, run_words, step_words};
use crate::pattern::Pat;
use crate::shape::Shape;
use crate::step::Step;
use crate::table::{diagonal, empty, mark};
use crate::truth::Truth;
use crate::walk::next_place;
use std::alloc::{AllocError, Global};

/// The expression of a pattern that is one word.
pub(crate) fn token_of(pat: &Pat) -> Option<u16>
    ensures word { (e : ℕ) → result ≡ Some e → (t : Facts) (i j : ℕ) → (Match (Holds t) (tree pat.now) i j
        ↔ IsWord t e i j) }
    ensures proper { (e n : ℕ) → result ≡ Some e → IsProper n (tree pat.now) → e < n }
{
    match pat {
        Pat::Tok(expr) => Some(*expr),
        _ => None,
    }
}

/// Whether the numbers are those of `?`.
fn is_optional(least: u8, most: Option<u8>) -> bool
    ensures { IsTrue result → (least ≡ 0) × (most ≡ Some 1) }
{
    match most {
        Some(most) => least == 0 && most == 1,
        None => false,
    }
}

/// Whether the numbers are those of `*`.
fn is_starred(least: u8, most: Option<u8>) -> bool
    ensures { IsTrue result → (least ≡ 0) × (most ≡ None) }
{
    least == 0 && most.is_none()
}

/// The expression of a pattern that is one word or nothing.
pub(crate) fn optional_token_of(pat: &Pat) -> Option<u16>
    ensures word { (e : ℕ) → result ≡ Some e → (t : Facts) (i j : ℕ) →
        (Match (Holds t) (tree pat.now) i j ↔ ((j ≡ i) ⊎ IsWord t e i j)) }
    ensures proper { (e n : ℕ) → result ≡ Some e → IsProper n (tree pat.now) → e < n }
{
    match pat {
        Pat::Rep(inner, least, most) if is_optional(*least, *most) => token_of(inner),
        _ => None,
    }
}

/// The expression of a pattern that is any number of words in a row.
fn starred_token_of(pat: &Pat) -> Option<u16>
    ensures words { (e : ℕ) → result ≡ Some e → (t : Facts) (i j : ℕ) →
        (Match (Holds t) (tree pat.now) i j ↔ ((k : ℕ) × Chain (IsWord t e) k i j)) }
    ensures proper { (e n : ℕ) → result ≡ Some e → IsProper n (tree pat.now) → e < n }
{
    match pat {
        Pat::Rep(inner, least, most) if is_starred(*least, *most) => token_of(inner),
        _ => None,
    }
}

/// The longest run of words that is walked word by word.
const SHORT_RUN: usize = 8;

/// Whether the expression holds of only a few words in a row. It only chooses between two ways with the same result:
/// walking is fast for short runs, and slow for long ones.
fn has_short_runs(expr: u16, truth: &Truth) -> bool
    requires expr { expr < truth.now.exprs }
{
    let mut start = 0;
    for word in 1..truth.words() + 1 {
        if !truth.get(expr, word) {
            start = word;
        } else if word > SHORT_RUN && word - SHORT_RUN > start {
            return false;
        }
    }
    true
}

/// The expression of a pattern that is any number of words in a row, if it holds of only a few in a row.
pub(crate) fn short_run_of(pat: &Pat, truth: &Truth) -> Option<u16>
    requires { IsProper truth.now.exprs (tree pat.now) }
    ensures words { (e : ℕ) → result ≡ Some e → (t : Facts) (i j : ℕ) →
        (Match (Holds t) (tree pat.now) i j ↔ ((k : ℕ) × Chain (IsWord t e) k i j)) }
    ensures proper { (e n : ℕ) → result ≡ Some e → IsProper n (tree pat.now) → e < n }
{
    let Some(expr) = starred_token_of(pat) else {
        return None;
    };
    if has_short_runs(expr, truth) {
        Some(expr)
    } else {
        None
    }
}

/// Adds to the row the place itself if the step is optional, and the next place if the expression holds of the word
/// between them.
#[inline(always)]
fn mark_step(
    table: &mut [u64],
    row: usize,
    place: usize,
    expr: u16,
    truth: &Truth,
    shape: Shape,
    stay: Step,
)
    requires expr { expr < truth.now.exprs }
    requires words { shape.last ≡ truth.now.words }
    requires table { length table.old ≡ (shape.last + 1) * shape.width }
    requires row { row ≤ shape.last }
    requires place { place ≤ truth.now.words }
    ensures marked { (i j : ℕ) → j ≤ truth.now.words →
        (InTable table.new shape.width i j ↔ (InTable table.old shape.width i j ⊎
        ((i ≡ row) × ((MayStay stay × (j ≡ place)) ⊎ IsWord truth.now expr place j)))) }
{
    match stay {
        Step::Optional => mark(table, shape, row, place),
        Step::Required => {}
    }
    if place < truth.words() && truth.get(expr, place + 1) {
        mark(table, shape, row, place + 1);
    }
}

/// The rows of one word of which the expression holds. If the step is optional, they include those of no word.
pub(crate) fn token_rows(
    alloc: Global,
    expr: u16,
    truth: &Truth,
    shape: Shape,
    stay: Step,
) -> Result<Vec<u64>, AllocError>
    requires expr { expr < truth.now.exprs }
    requires words { shape.last ≡ truth.now.words }
    ensures whole { IfOk result (λ v. length v.items ≡ (truth.now.words + 1) * shape.width) }
    ensures rows { IfOk result (λ v. (i j : ℕ) → i ≤ truth.now.words → j ≤ truth.now.words →
        (InTable v.items shape.width i j ↔ ((MayStay stay × (j ≡ i)) ⊎ IsWord truth.now expr i j))) }
{
    if shape.width == 1 {
        let places = diagonal(alloc, shape)?;
        return step_over(alloc, places, expr, truth, shape, stay);
    }
    let mut table = empty(alloc, shape)?;
    for place in 0..shape.last + 1 {
        mark_step(&mut table, place, place, expr, truth, shape, stay);
    }
    Ok(table)
}

/// Adds to the row of `next` the places one word further on from the row of `table`. If the step is optional, it adds
/// those of the row itself too.
#[inline(always)]
fn step_row(
    table: &[u64],
    next: &mut [u64],
    row: usize,
    expr: u16,
    truth: &Truth,
    shape: Shape,
    stay: Step,
)
    requires expr { expr < truth.now.exprs }
    requires words { shape.last ≡ truth.now.words }
    requires table { length table.now ≡ (truth.now.words + 1) * shape.width }
    requires next { length next.old ≡ (truth.now.words + 1) * shape.width }
    requires row { row ≤ truth.now.words }
    ensures stepped { (i j : ℕ) → j ≤ truth.now.words →
        (InTable next.new shape.width i j ↔ (InTable next.old shape.width i j ⊎
        ((i ≡ row) × ((k : ℕ) × (k < truth.now.words + 1) × InTable table.now shape.width row k ×
        ((MayStay stay × (j ≡ k)) ⊎ IsWord truth.now expr k j))))) }
{
    let from = row * shape.width;
    let mut place = next_place(table, from, 0, shape.last);
    while place <= shape.last {
        mark_step(next, row, place, expr, truth, shape, stay);
        place = next_place(table, from, place + 1, shape.last);
    }
}

/// The rows of the table followed by one word of which the expression holds, walked place by place. If the step is
/// optional, they include those of the table itself.
fn walk_over(
    alloc: Global,
    table: &[u64],
    expr: u16,
    truth: &Truth,
    shape: Shape,
    stay: Step,
) -> Result<Vec<u64>, AllocError>
    requires expr { expr < truth.now.exprs }
    requires words { shape.last ≡ truth.now.words }
    requires table { length table.now ≡ (truth.now.words + 1) * shape.width }
    ensures whole { IfOk result (λ v. length v.items ≡ (truth.now.words + 1) * shape.width) }
    ensures rows { IfOk result (λ v. (i j : ℕ) → i ≤ truth.now.words → j ≤ truth.now.words →
        (InTable v.items shape.width i j ↔ ((k : ℕ) × (k < truth.now.words + 1)
        × InTable table.now shape.width i k ×
        ((MayStay stay × (j ≡ k)) ⊎ IsWord truth.now expr k j)))) }
{
    let mut next = empty(alloc, shape)?;
    for row in 0..shape.last + 1 {
        step_row(table, &mut next, row, expr, truth, shape, stay);
    }
    Ok(next)
}

/// The rows of the table followed by one word of which the expression holds. If the step is optional, they include
/// those of the table itself.
pub(crate) fn step_over(
    alloc: Global,
    mut table: Vec<u64>,
    expr: u16,
    truth: &Truth,
    shape: Shape,
    stay: Step,
) -> Result<Vec<u64>, AllocError>
    requires expr { expr < truth.now.exprs }
    requires words { shape.last ≡ truth.now.words }
    requires table { length table.items ≡ (truth.now.words + 1) * shape.width }
    ensures whole { IfOk result (λ v. length v.items ≡ (truth.now.words + 1) * shape.width) }
    ensures rows { IfOk result (λ v. (i j : ℕ) → i ≤ truth.now.words → j ≤ truth.now.words →
        (InTable v.items shape.width i j ↔ ((k : ℕ) × (k < truth.now.words + 1)
        × InTable table.items shape.width i k ×
        ((MayStay stay × (j ≡ k)) ⊎ IsWord truth.now expr k j)))) }
{
    if shape.width == 1 {
        step_words(&mut table, ends_of(expr, truth), stay);
        return Ok(table);
    }
    walk_over(alloc, &table, expr, truth, shape, stay)
}

/// Adds to the row each place that a run of words of which the expression holds leads to. An added place is walked over
/// in its turn.
#[inline(always)]
fn run_row(table: &mut [u64], row: usize, expr: u16, truth: &Truth, shape: Shape)
    requires expr { expr < truth.now.exprs }
    requires words { shape.last ≡ truth.now.words }
    requires table { length table.old ≡ (truth.now.words + 1) * shape.width }
    requires row { row ≤ truth.now.words }
    ensures row { (j : ℕ) → j ≤ truth.now.words → (InTable table.new shape.width row j ↔
        ((k : ℕ) × (k ≤ truth.now.words) × InTable table.old shape.width row k
        × ((n : ℕ) × Chain (IsWord truth.now expr) n k j))) }
    ensures others { (i j : ℕ) → i ≢ row → j ≤ truth.now.words → (InTable table.new shape.width i j
        ↔ InTable table.old shape.width i j) }
{
    let from = row * shape.width;
    let mut place = next_place(table, from, 0, shape.last);
    while place <= shape.last {
        mark_step(table, row, place, expr, truth, shape, Step::Required);
        place = next_place(table, from, place + 1, shape.last);
    }
}

/// Makes the table's relation its own followed by any number of words of which the expression holds.
pub(crate) fn run_on(table: &mut [u64], expr: u16, truth: &Truth, shape: Shape)
    requires expr { expr < truth.now.exprs }
    requires words { shape.last ≡ truth.now.words }
    requires table { length table.old ≡ (truth.now.words + 1) * shape.width }
    ensures rows { (i j : ℕ) → i ≤ truth.now.words → j ≤ truth.now.words
        → (InTable table.new shape.width i j ↔
        ((k : ℕ) × (k ≤ truth.now.words) × InTable table.old shape.width i k
        × ((n : ℕ) × Chain (IsWord truth.now expr) n k j))) }
{
    if shape.width == 1 {
        run_words(table, ends_of(expr, truth));
        return;
    }
    for row in 0..shape.last + 1 {
        run_row(table, row, expr, truth, shape);
    }
}
