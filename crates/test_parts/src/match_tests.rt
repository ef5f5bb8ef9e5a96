//! Tables, unions, weights and limits of patterns.

use crate::patterns::{mark, pattern};
use crate::telling::{assert_holds, assert_same};
use std::alloc::Global;
use std::process::Abort;
use tb_match::{Found, Pat, Strategy, Truth, find, fits, unite, weight};

/// The hits of a pattern in a table.
pub(crate) fn search(
    rt: &impl Abort,
    alloc: Global,
    pat: &Pat,
    truth: &Truth,
    strategy: Strategy,
) -> Found {
    let ready = fits(pat, truth.exprs());
    assert!(rt; ready, "the pattern is within the limits");
    find(alloc, pat, truth, strategy).expect(rt, "error")
}

/// The row that a union changes, the one that it adds, and their union.
#[derive(Clone, Copy)]
enum Row {
    To,
    From,
    Union,
}

/// The machine word of a row at this place.
fn word_of(row: Row, k: u64) -> u64 {
    let to = 0x0123_4567_89ab_cdef ^ k;
    let from = 0xf0f0_f0f0_0000_ffff ^ (k << 32);
    match row {
        Row::To => to,
        Row::From => from,
        Row::Union => to | from,
    }
}

/// A row of so many machine words.
fn words_of(rt: &impl Abort, alloc: Global, row: Row, length: u64) -> Vec<u64> {
    let mut words = Vec::new(alloc);
    for k in 0..length {
        words.push(word_of(row, k)).expect(rt, "error");
    }
    words
}

fn assert_united(rt: &impl Abort, to: &mut [u64], from: &[u64], wanted: &[u64]) {
    let mut steps = 7;
    assert!(rt; to.len() == from.len());
    unite(to, from, &mut steps);
    assert_holds(rt, *to == *wanted, "a union");
    assert_same(rt, &steps, &8, "the steps");
}

/// Asserts the union of rows of so many machine words.
fn assert_length(rt: &impl Abort, alloc: Global, length: u64) {
    let mut to = words_of(rt, alloc, Row::To, length);
    let from = words_of(rt, alloc, Row::From, length);
    let wanted = words_of(rt, alloc, Row::Union, length);
    assert_united(rt, &mut to, &from, &wanted);
}

#[test]
fn unions_of_all_lengths(rt: HostRuntime) {
    for length in 0..21 {
        assert_length(&rt, rt.alloc(), length);
    }
}

fn assert_size(rt: &impl Abort, truth: &Truth) {
    assert_same(rt, &truth.exprs(), &2, "the expressions");
    assert_same(rt, &truth.words(), &3, "the words");
}

/// Asserts whether the expression holds of the word.
fn assert_mark(rt: &impl Abort, truth: &Truth, expr: u16, word: usize, wanted: bool) {
    assert!(rt; expr < truth.exprs() && 1 <= word && word <= truth.words());
    assert_same(rt, &truth.get(expr, word), &wanted, "a mark");
}

fn assert_marks(rt: &impl Abort, truth: &mut Truth) {
    assert_size(rt, truth);
    assert_mark(rt, truth, 1, 2, false);
    mark(truth, 1, 2);
    assert_size(rt, truth);
    assert_mark(rt, truth, 0, 1, false);
    assert_mark(rt, truth, 0, 2, false);
    assert_mark(rt, truth, 0, 3, false);
    assert_mark(rt, truth, 1, 1, false);
    assert_mark(rt, truth, 1, 3, false);
    assert_mark(rt, truth, 1, 2, true);
}

#[test]
fn one_mark_at_a_time(rt: HostRuntime) {
    let mut truth = Truth::new(rt.alloc(), 3, 2).expect(&rt, "error");
    assert_marks(&rt, &mut truth);
}

/// A sequence of so many words: the heaviest pattern has 500,000.
fn sequence(rt: &impl Abort, alloc: Global, count: u32) -> Pat {
    let mut parts = Vec::new(alloc);
    for _ in 0..count {
        parts.push(Pat::Tok(0)).expect(rt, "error");
    }
    Pat::Cat(parts)
}

fn add_part(rt: &impl Abort, alloc: Global, pat: &mut Pat) {
    if let Pat::Cat(parts) = pat {
        parts.push(Pat::Cat(Vec::new(alloc))).expect(rt, "error");
    }
}

/// Asserts the weight of a pattern, and whether it fits one expression.
fn assert_weight(rt: &impl Abort, pat: &Pat, wanted: Option<u64>, fit: bool) {
    assert_same(rt, &weight(pat), &wanted, "a weight");
    assert_same(rt, &fits(pat, 1), &fit, "a pattern");
}

/// Five nested stars, and the heaviest pattern.
#[test]
fn patterns_weigh(rt: HostRuntime) {
    let stars = pattern(&rt, rt.alloc(), "0 5×*");
    assert_weight(&rt, &stars, Some(11), true);
    let mut pat = sequence(&rt, rt.alloc(), 500_000);
    assert_weight(&rt, &pat, Some(1_000_000), true);
    assert_holds(&rt, !fits(&pat, 0), "no expression");
    add_part(&rt, rt.alloc(), &mut pat);
    assert_weight(&rt, &pat, None, false);
}

/// Asserts whether a word may be repeated so many times.
fn assert_times(rt: &impl Abort, alloc: Global, least: u8, most: Option<u8>, fit: bool) {
    let word = Box::new(alloc, Pat::Tok(0)).expect(rt, "error");
    let pat = Pat::Rep(word, least, most);
    assert_same(rt, &fits(&pat, 1), &fit, "a repetition");
}

#[test]
fn numbers_of_repetitions(rt: HostRuntime) {
    assert_times(&rt, rt.alloc(), 0, None, true);
    assert_times(&rt, rt.alloc(), 32, None, true);
    assert_times(&rt, rt.alloc(), 33, None, false);
    assert_times(&rt, rt.alloc(), 0, Some(0), false);
    assert_times(&rt, rt.alloc(), 0, Some(1), true);
    assert_times(&rt, rt.alloc(), 1, Some(1), true);
    assert_times(&rt, rt.alloc(), 2, Some(1), false);
    assert_times(&rt, rt.alloc(), 32, Some(32), true);
    assert_times(&rt, rt.alloc(), 0, Some(33), false);
}
