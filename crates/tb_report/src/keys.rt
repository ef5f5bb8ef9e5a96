//! Keys of hits of one word, one hit after another.

ghost use Rattle.std.specs.Prelude.{◌≡◌, ◌+◌, ◌<◌, ◌≤◌, MatchOption, drop, filter};
ghost use Rattle.tb_conllu.specs.Words.{is_word, words_of};
ghost use Rattle.tb_report.specs.Keywords.{key_of};

use crate::words::{after_words, first_value};
use std::marker::Model;
use tb_conllu::{BlockOf, RowOf, Text};
use tb_syntax::Attr;

/// A walk over the rows of a sentence, from one hit to the next. Where hits ascend, each row is passed once.
///
/// Contracts see it as the sentence.
#[derive(Drop)]
pub struct KeyWalk<'b, T: Text> {
    block: &'b BlockOf<T>,
    /// The rows after the first `passed` words.
    rest: &'b [RowOf<T>],
    passed: u32,
}

impl<'b, T: Text> Model for KeyWalk<'b, T> {
    ghost use Rattle.std.specs.Prelude.{◌≡◌, drop, filter};
    ghost use Rattle.tb_conllu.specs.Text.{BlockText};
    ghost use Rattle.tb_conllu.specs.Words.{is_word};

    ghost Value = { BlockText };

    ghost view = { λ w. w.block.now };

    ghost invariant = { λ w. filter is_word w.rest.now ≡ drop w.passed (filter is_word w.block.now.rows) };
}

/// The rows after the first `words` words, where `rest` are those after the first `passed` words.
fn rows_after<'b, T: Text>(
    rows: &'b [RowOf<T>],
    rest: &'b [RowOf<T>],
    passed: u32,
    words: u32,
) -> &'b [RowOf<T>]
    requires { filter is_word rest.now ≡ drop passed (filter is_word rows.now) }
    ensures { filter is_word result.now ≡ drop words (filter is_word rows.now) }
{
    if words < passed {
        return after_words(rows, words as usize);
    }
    after_words(rest, (words - passed) as usize)
}

impl<'b, T: Text> KeyWalk<'b, T> {
    /// A walk that begins with the first row.
    pub fn new(block: &'b BlockOf<T>) -> Self
        ensures { result ≡ block.now }
    {
        KeyWalk {
            block,
            rest: &block.rows,
            passed: 0,
        }
    }

    /// The sentence.
    pub fn sentence(&self) -> &'b BlockOf<T>
        ensures { result.now ≡ self.now }
    {
        self.block
    }

    /// The key of a hit of one word: its value in the column. `None` for a hit of more words. Takes no memory.
    pub fn word_key(&mut self, hit: (u32, u32), column: Attr) -> Option<&'b str>
        requires first { hit.0 < hit.1 }
        requires last { hit.1 ≤ words_of self.old }
        ensures key { MatchOption result (hit.0 + 1 < hit.1) (λ value. value.now ≡ key_of column self.old hit) }
        ensures unchanged { self.new ≡ self.old }
    {
        let (start, end) = hit;
        if start + 1 < end {
            return None;
        }
        let block = self.block;
        let rest = rows_after(&block.rows, self.rest, self.passed, start);
        self.rest = rest;
        self.passed = start;
        first_value(rest, column)
    }
}
