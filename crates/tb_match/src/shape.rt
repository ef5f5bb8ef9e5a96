//! The shape of tables of bit rows.

ghost use Rattle.std.specs.Prelude.{◌≡◌, ◌+◌, ◌*◌, ◌/◌, ◌<◌, ◌≤◌};

use std::ops::Range;

/// The machine words of a row of the longest sentence.
pub(crate) const WIDEST: usize = 16;

/// The last place of a row of one word.
const LAST_OF_WORD: usize = 63;

/// The shape of a table of bit rows: a row for each place up to `last`, each of `width` machine words. A row has a bit
/// for each place, and a sentence has at most 1,000 words.
#[derive(Clone, Copy)]
pub(crate) struct Shape {
    pub(crate) width: usize,
    pub(crate) last: usize,
    ghost wide: { last / 64 < width },
    ghost narrow: { width ≤ 16 },
    ghost small: { last ≤ 1000 },
}

impl Shape {
    /// The shape of the tables for a sentence of this many words.
    pub(crate) fn of_words(words: usize) -> Shape
        requires { words ≤ 1000 }
        ensures width { result.width ≡ words / 64 + 1 }
        ensures last { result.last ≡ words }
    {
        Shape {
            width: words / 64 + 1,
            last: words,
        }
    }

    /// The range of the row of a place in a table.
    #[inline(always)]
    pub(crate) fn row(self, place: usize) -> Range<usize>
        requires { place ≤ self.last }
        ensures words { result ≡ record { start = place * self.width; end = (place + 1) * self.width } }
        ensures within { result.end ≤ (self.last + 1) * self.width }
    {
        place * self.width..(place + 1) * self.width
    }

    /// The same shape, where the compiler knows that a row is one word.
    #[inline(always)]
    pub(crate) fn of_one_word(self) -> Shape
        requires { self.width ≡ 1 }
        ensures width { result.width ≡ 1 }
        ensures last { result.last ≡ self.last }
    {
        Shape {
            width: 1,
            last: self.last.min(LAST_OF_WORD),
        }
    }
}
