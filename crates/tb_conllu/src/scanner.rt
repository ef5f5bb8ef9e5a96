//! Splits text at tabs and line feeds, which are found 64 bytes at a time.

ghost use Rattle.std.specs.Prelude.{◌≡◌, ◌≢◌, ◌↔◌, ℕ, ◌+◌, ◌<◌, ◌≤◌, ◌∷◌};
ghost use Rattle.std.specs.Prelude.{◌++◌, MatchOption, false, length, slice_index, true};
ghost use Rattle.std.specs.Int.{bit_at};
ghost use Rattle.std.specs.List.{list_any};
ghost use Rattle.tb_conllu.specs.Marks.{AreMarks, is_mark};

use std::marker::Model;
use std::simd::prelude::*;

/// The place of the lowest bit.
#[inline(always)]
fn lowest(marks: u64) -> usize
    requires { marks ≢ 0 }
    ensures bound { result < 64 }
    ensures set { bit_at marks result ≡ 1 }
    ensures below { (k : ℕ) → k < result → bit_at marks k ≡ 0 }
{
    marks.trailing_zeros() as usize
}

/// All bits but the lowest.
#[inline(always)]
fn without_lowest(marks: u64) -> u64
    requires { marks ≢ 0 }
    ensures { (low k : ℕ) → bit_at marks low ≡ 1 → ((i : ℕ) → i < low → bit_at marks i ≡ 0)
        → (bit_at result k ≡ 1) ↔ ((low < k) × (bit_at marks k ≡ 1)) }
{
    marks & (marks - 1)
}

/// The tabs and line feeds among 64 bytes: bit k is that of byte k.
#[inline(always)]
fn marks_of(bytes: u8x64) -> u64
    ensures { (k : ℕ) → (bit_at result k ≡ 1) ↔ ((k < 64) × (is_mark (slice_index bytes k) ≡ true)) }
{
    (bytes - u8x64::splat(9))
        .simd_le(u8x64::splat(1))
        .to_bitmask()
}

/// Up to 64 bytes, filled with zeros, which are no marks.
fn filled_up(rest: &[u8]) -> [u8; 64]
    requires { length rest.now ≤ 64 }
    ensures { (k : ℕ) → slice_index result k ≡ slice_index rest.now k }
{
    let mut bytes = [0; 64];
    bytes[..rest.len()].copy_from_slice(rest);
    bytes
}

/// The 64 bytes from `base` on.
#[inline(always)]
fn loaded(bytes: &[u8], base: usize) -> u8x64
    requires { base + 64 ≤ length bytes.now }
    ensures { (k : ℕ) → k < 64 → slice_index result k ≡ slice_index bytes.now (base + k) }
{
    u8x64::from_slice(&bytes[base..])
}

/// The marks of the 64 bytes from `base` on. The last of these may be past the end.
#[inline(always)]
fn marks_at(bytes: &[u8], base: usize) -> u64
    requires { base ≤ length bytes.now }
    ensures { AreMarks bytes.now base base result }
{
    if 64 <= bytes.len() - base {
        return marks_of(loaded(bytes, base));
    }
    marks_of(u8x64::from_array(filled_up(&bytes[base..])))
}

/// The next 64 bytes with a mark, after those from `base` on: their place, and their marks, which are 0 where the text
/// ends before one.
#[inline(always)]
fn next_marks(bytes: &[u8], base: usize) -> (usize, u64)
    requires { base ≤ length bytes.now }
    ensures known { AreMarks bytes.now (base + 64) result.0 result.1 }
    ensures ended { result.1 ≡ 0 → length bytes.now ≤ result.0 + 64 }
{
    let mut at = base;
    while 64 < bytes.len() - at {
        at += 64;
        let marks = marks_at(bytes, at);
        if marks != 0 {
            return (at, marks);
        }
    }
    (at, 0)
}

/// The current 64 bytes if they have a mark left, else the next with one.
#[inline(always)]
fn marks_left(bytes: &[u8], base: usize, marks: u64) -> (usize, u64)
    requires { base ≤ length bytes.now }
    ensures known { (start : ℕ) → AreMarks bytes.now start base marks
        → AreMarks bytes.now start result.0 result.1 }
    ensures ended { result.1 ≡ 0 → length bytes.now ≤ result.0 + 64 }
{
    if marks != 0 {
        return (base, marks);
    }
    next_marks(bytes, base)
}

/// The rest of a text that is split at tabs and line feeds.
#[derive(Drop)]
pub struct FieldScanner<'a> {
    text: &'a str,
    /// The place where the rest begins.
    start: usize,
    /// The place of the 64 bytes whose marks are known.
    base: usize,
    /// The marks among them that are in the rest.
    marks: u64,
}

impl<'a> Model for FieldScanner<'a> {
    ghost use Rattle.std.specs.Prelude.{ℕ, List, drop};
    ghost use Rattle.tb_conllu.specs.Marks.{AreMarks, IsCutAt};

    ghost Value = { List ℕ };

    ghost view = { λ c. drop c.start c.text.now };

    ghost invariant = { λ c. IsCutAt c.text.now c.start × AreMarks c.text.now c.start c.base c.marks };
}

impl<'a> FieldScanner<'a> {
    /// The whole text.
    pub fn new(text: &'a str) -> Self
        ensures { result ≡ text.now }
    {
        FieldScanner {
            text,
            start: 0,
            base: 0,
            marks: marks_at(text.as_bytes(), 0),
        }
    }

    /// The rest of the text.
    #[inline(always)]
    pub fn left(&self) -> &'a str
        ensures { result.now ≡ self.now }
    {
        &self.text[self.start..]
    }

    /// The text before the next tab or line feed, which is passed; `None` where there is none.
    #[inline(always)]
    pub fn cut(&mut self) -> Option<&'a str>
        ensures { MatchOption result ((list_any is_mark self.old ≡ false) × (self.new ≡ self.old)) (λ part.
            (list_any is_mark part.now ≡ false) × ((mark : ℕ) × (is_mark mark ≡ true)
            × (self.old ≡ part.now ++ mark ∷ self.new))) }
    {
        let (base, marks) = marks_left(self.text.as_bytes(), self.base, self.marks);
        self.base = base;
        self.marks = marks;
        if marks == 0 {
            return None;
        }
        let end = base + lowest(marks);
        let part = &self.text[self.start..end];
        self.start = end + 1;
        self.marks = without_lowest(marks);
        Some(part)
    }
}
