//! The words that explain a refusal, and values in the form in which they are shown.

ghost use Rattle.std.specs.Fmt.{WritesOnOk};
ghost use Rattle.std.specs.Prelude.{◌≡◌, [], chars, codes, encode_utf8_all, if◌then◌else◌, map, None, Some, take};
ghost use Rattle.std.specs.Result.{result_ok};
ghost use Rattle.tb_words.specs.Shown.{is_long, visible};
ghost use Rattle.tb_words.specs.WordsShown.{page_shown, picture_shown, place_shown};

use std::alloc::AllocError;
use std::fmt::{self, Display, Formatter};
use tb_conllu::LineId;

/// The page that says more.
#[derive(Clone, Copy)]
pub(crate) enum Page {
    Code(u8),
    Rule(u8),
    Queries,
    Batches,
}

impl Display for Page {
    ghost use Rattle.std.specs.Prelude.{Some};
    ghost use Rattle.tb_words.specs.WordsShown.{page_text};

    ghost output = { λ page. Some (page_text page) };

    fn fmt<W: fmt::Write>(&self, f: &mut Formatter<W>) -> fmt::Result {
        match self {
            Page::Code(code) => write!(f, "FORMAT.md, code {code}"),
            Page::Rule(rule) => write!(f, "FORMAT.md, rule {rule}"),
            Page::Queries => f.write_str("QUERIES.md"),
            Page::Batches => f.write_str("STATES.md"),
        }
    }
}

/// An explanation: a place and what is there, a sentence, the page that says more, and the line of a query with a mark
/// under the place.
#[derive(Drop)]
pub struct Words {
    place: Option<String>,
    sentence: &'static str,
    page: Option<Page>,
    picture: Option<String>,
}

impl Words {
    /// A sentence that needs no place.
    pub(crate) fn alone(sentence: &'static str) -> Words
        ensures { result ≡ record { place = None; sentence = sentence.entry; page = None; picture = None } }
    {
        Words {
            place: None,
            sentence,
            page: None,
            picture: None,
        }
    }

    /// A sentence after a place. Without memory for the place it is the sentence alone.
    pub(crate) fn at(place: Result<String, AllocError>, sentence: &'static str) -> Words
        ensures { result ≡ record {
          place = result_ok place;
          sentence = sentence.entry;
          page = None;
          picture = None;
        } }
    {
        Words {
            place: place.ok(),
            sentence,
            page: None,
            picture: None,
        }
    }

    /// Adds the page that says more.
    pub(crate) fn on(mut self, page: Page) -> Words
        ensures { result ≡ record {
          place = self.place;
          sentence = self.sentence;
          page = Some page;
          picture = self.picture;
        } }
    {
        self.page = Some(page);
        self
    }

    /// Adds a picture under the sentence.
    pub(crate) fn with_picture(mut self, picture: Option<String>) -> Words
        ensures { result ≡ record {
          place = self.place;
          sentence = self.sentence;
          page = self.page;
          picture = picture;
        } }
    {
        self.picture = picture;
        self
    }
}

/// Writes the place, where there is one.
fn put_place<W: fmt::Write>(place: &Option<String>, f: &mut Formatter<W>) -> fmt::Result
    ensures { WritesOnOk W.write_str_gives f.old result (place_shown place.now) f.new }
{
    match place {
        Some(place) => write!(f, "{place}: "),
        None => Ok(()),
    }
}

/// Writes the page, where one is named.
fn put_page<W: fmt::Write>(page: Option<Page>, f: &mut Formatter<W>) -> fmt::Result
    ensures { WritesOnOk W.write_str_gives f.old result (page_shown page) f.new }
{
    match page {
        Some(page) => write!(f, " ({page})"),
        None => Ok(()),
    }
}

/// Writes the picture on lines of its own, where there is one.
fn put_picture<W: fmt::Write>(picture: &Option<String>, f: &mut Formatter<W>) -> fmt::Result
    ensures { WritesOnOk W.write_str_gives f.old result (picture_shown picture.now) f.new }
{
    match picture {
        Some(picture) => write!(f, "\n{picture}"),
        None => Ok(()),
    }
}

impl Display for Words {
    ghost use Rattle.std.specs.Prelude.{Some};
    ghost use Rattle.tb_words.specs.WordsShown.{words_text};

    ghost output = { λ words. Some (words_text words) };

    fn fmt<W: fmt::Write>(&self, f: &mut Formatter<W>) -> fmt::Result {
        put_place(&self.place, f)?;
        f.write_str(self.sentence)?;
        put_page(self.page, f)?;
        put_picture(&self.picture, f)
    }
}

/// How many characters of a value are shown.
const MOST: usize = 40;

/// A value as it is shown. Control characters, which could move a terminal's cursor, are replaced, and a long value is
/// cut.
#[derive(Clone, Copy)]
pub(crate) struct Excerpt<'a> {
    value: &'a str,
}

pub(crate) fn shown(value: &str) -> Excerpt<'_>
    ensures { result.value.now ≡ value.now }
{
    Excerpt { value }
}

/// A character, or U+FFFD in the place of a control character.
pub(crate) fn visible(c: char) -> char
    ensures { result ≡ visible c }
{
    if c.is_control() { '\u{FFFD}' } else { c }
}

/// Whether a value has more characters than are shown.
fn is_long(value: &str) -> bool
    ensures { result ≡ is_long value.now }
{
    value.chars().nth(MOST).is_some()
}

/// Writes the characters of a value that are shown.
fn put_front<W: fmt::Write>(value: &str, f: &mut Formatter<W>) -> fmt::Result
    ensures { WritesOnOk W.write_str_gives f.old result
        (encode_utf8_all (map visible (take 40 (chars value.now)))) f.new }
{
    for c in value.chars().take(MOST) {
        let seen = visible(c);
        write!(f, "{seen}")?;
    }
    Ok(())
}

/// Writes dots after a value that was cut.
fn put_dots<W: fmt::Write>(value: &str, f: &mut Formatter<W>) -> fmt::Result
    ensures { WritesOnOk W.write_str_gives f.old result (if is_long value.now then codes ".." else []) f.new }
{
    if is_long(value) {
        f.write_str("..")
    } else {
        Ok(())
    }
}

impl Display for Excerpt<'_> {
    ghost use Rattle.std.specs.Prelude.{Some};
    ghost use Rattle.tb_words.specs.Shown.{excerpt};

    ghost output = { λ shown. Some (excerpt shown.value.now) };

    fn fmt<W: fmt::Write>(&self, f: &mut Formatter<W>) -> fmt::Result {
        put_front(self.value, f)?;
        put_dots(self.value, f)
    }
}

/// A row by its ID.
#[derive(Clone, Copy)]
pub(crate) struct RowName {
    id: LineId,
}

pub(crate) fn named(id: LineId) -> RowName
    ensures { result.id ≡ id }
{
    RowName { id }
}

impl Display for RowName {
    ghost use Rattle.std.specs.Prelude.{Some};
    ghost use Rattle.tb_words.specs.Shown.{row_name};

    ghost output = { λ name. Some (row_name name.id) };

    fn fmt<W: fmt::Write>(&self, f: &mut Formatter<W>) -> fmt::Result {
        match self.id {
            LineId::Word(word) => write!(f, "word {word}"),
            LineId::Span(first, last) => write!(f, "range {first}-{last}"),
            LineId::Empty(word, node) => write!(f, "node {word}.{node}"),
        }
    }
}
