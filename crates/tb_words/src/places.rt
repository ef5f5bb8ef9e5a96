//! Where something is in a file.

ghost use Rattle.std.specs.Prelude.{◌≡◌, ◌+◌, ◌-◌, ◌<◌, ◌^◌, ◌∷◌, IfNone, IfOk, IfSome, List, drop, length, max, min};
ghost use Rattle.std.specs.Prelude.{[], option_map, position, slice_index_or, ℕ};
ghost use Rattle.std.specs.Str.{IsUtf8};
ghost use Rattle.tb_conllu.specs.Left.{IsNext};
ghost use Rattle.tb_conllu.specs.Text.{block_lines};
ghost use Rattle.tb_words.specs.FileLines.{IsAtLine, is_line_feed, lines_in, lines_left};
ghost use Rattle.tb_rules.specs.Named.{is_word_numbered};
ghost use Rattle.tb_words.specs.FileSentences.{HasRead, IsSentenceAfter, comment_line_of, line_of_word, row_line_of};
ghost use Rattle.tb_words.specs.FileSentences.{IsAtEnd, row_of_word};

use std::alloc::{AllocError, Global};
use tb_conllu::{BlockRef, LineId, ReadFault, RowRef, Sentences};

/// A line of a file and the line before it, without their line feeds. What is not there is empty.
#[derive(Clone, Copy)]
pub(crate) struct NumberedLine<'a> {
    /// Its number, from 1.
    pub(crate) number: usize,
    pub(crate) bytes: &'a [u8],
    pub(crate) before: &'a [u8],
}

impl<'a> NumberedLine<'a> {
    /// Its text; empty where it is not UTF-8.
    pub(crate) fn text(&self) -> &'a str
        ensures { IsUtf8 self.now.bytes.now → result.now ≡ self.now.bytes.now }
    {
        str::from_utf8(self.bytes).unwrap_or("")
    }
}

/// The place of the first line feed.
fn line_end(bytes: &[u8]) -> Option<usize>
    ensures first { result ≡ position is_line_feed bytes.now }
    ensures within { IfSome result (λ end. end < length bytes.now) }
{
    bytes.iter().position(|byte| *byte == b'\n')
}

/// The bytes after the one at `end`.
fn after(bytes: &[u8], end: usize) -> &[u8]
    requires { end < length bytes.now }
    ensures { result.now ≡ drop (end + 1) bytes.now }
{
    &bytes[end + 1..]
}

/// The first line of bytes, and what comes after its line feed, if it has one.
fn first_line(bytes: &[u8]) -> (&[u8], Option<&[u8]>)
    ensures { lines_in bytes.now ≡ result.0.now ∷ lines_left (option_map (λ rest. rest.now) result.1) }
{
    match line_end(bytes) {
        Some(end) => (&bytes[..end], Some(after(bytes, end))),
        None => (bytes, None),
    }
}

/// The first line of what is left, and what comes after it.
fn next_line(unread: Option<&[u8]>) -> (&[u8], Option<&[u8]>)
    ensures line { result.0.now ≡ slice_index_or (lines_left (option_map (λ rest. rest.now) unread.entry)) 0 [] }
    ensures left { lines_left (option_map (λ rest. rest.now) result.1)
        ≡ drop 1 (lines_left (option_map (λ rest. rest.now) unread.entry)) }
{
    match unread {
        Some(unread) => first_line(unread),
        None => (b"".as_slice(), None),
    }
}

/// The lines of a file, one after another.
#[derive(Drop)]
pub(crate) struct Lines<'a> {
    here: NumberedLine<'a>,
    unread: Option<&'a [u8]>,
}

impl<'a> Lines<'a> {
    pub(crate) fn new(file: &'a [u8]) -> Lines<'a>
        ensures start { result.here.number ≡ 0 }
        ensures at { IsAtLine file.now result }
    {
        Lines {
            here: NumberedLine {
                number: 0,
                bytes: &[],
                before: &[],
            },
            unread: Some(file),
        }
    }

    fn read_next(&mut self)
        requires { self.old.here.number + 1 < 2 ^ 64 }
        ensures number { self.new.here.number ≡ self.old.here.number + 1 }
        ensures at { (file : List ℕ) → IsAtLine file self.old → IsAtLine file self.new }
    {
        let (bytes, unread) = next_line(self.unread);
        self.here = NumberedLine {
            number: self.here.number + 1,
            bytes,
            before: self.here.bytes,
        };
        self.unread = unread;
    }

    /// Reads on to the line with this number, from 1.
    pub(crate) fn read_to(&mut self, number: usize) -> NumberedLine<'a>
        ensures number { result.number ≡ max self.old.here.number number }
        ensures here { result ≡ self.new.here }
        ensures at { (file : List ℕ) → IsAtLine file self.old → IsAtLine file self.new }
    {
        while self.here.number < number {
            self.read_next();
        }
        self.here
    }
}

/// A sentence, and how many lines precede it.
#[derive(Drop)]
pub(crate) struct Placed<'a> {
    pub(crate) block: BlockRef<'a>,
    before: usize,
}

fn comments_of(block: &BlockRef<'_>) -> usize
    ensures { result ≡ length block.now.comments }
{
    block.comments.len()
}

fn rows_of(block: &BlockRef<'_>) -> usize
    ensures { result ≡ length block.now.rows }
{
    block.rows.len()
}

fn has_number(row: &RowRef<'_>, word: u32) -> bool
    ensures { result ≡ is_word_numbered word row.now.id }
{
    match row.id {
        LineId::Word(number) => number == word,
        LineId::Span(..) | LineId::Empty(..) => false,
    }
}

/// The place among the rows at which a word is, counted from 0.
fn row_of(rows: &[RowRef<'_>], word: u32) -> Option<usize>
    ensures { result ≡ row_of_word word rows.now }
{
    rows.iter().position(|row| has_number(row, word))
}

/// The number of lines of a sentence, with its blank line.
fn lines_of(block: &BlockRef<'_>) -> usize
    ensures { result ≡ min (length (block_lines block.now)) (2 ^ 64 - 1) }
{
    comments_of(block)
        .saturating_add(rows_of(block))
        .saturating_add(1)
}

impl Placed<'_> {
    /// The line of a comment, counted from 0.
    pub(crate) fn comment_line(&self, at: usize) -> usize
        ensures { result ≡ comment_line_of self.now at }
    {
        self.before.saturating_add(at).saturating_add(1)
    }

    /// The line of a row, counted from 0.
    pub(crate) fn row_line(&self, at: usize) -> usize
        ensures { result ≡ row_line_of self.now at }
    {
        self.comment_line(comments_of(&self.block).saturating_add(at))
    }

    /// The line of a word.
    pub(crate) fn word_line(&self, word: u32) -> usize
        ensures { result ≡ line_of_word self.now word }
    {
        match row_of(self.block.rows.as_slice(), word) {
            Some(at) => self.row_line(at),
            None => self.comment_line(0),
        }
    }
}

/// The sentences of a file one after another, each with its place.
#[derive(Drop)]
pub(crate) struct Places<'a> {
    alloc: Global,
    unread: Sentences<'a>,
    before: usize,
}

impl<'a> Places<'a> {
    pub(crate) fn new(alloc: Global, file: &'a [u8]) -> Places<'a>
        ensures { HasRead file.now 0 result }
    {
        Places {
            alloc,
            unread: Sentences::new(file),
            before: 0,
        }
    }

    /// The next sentence, if there is one that can be read.
    pub(crate) fn read_next(&mut self) -> Result<Option<Placed<'a>>, AllocError>
        ensures here { (file : List ℕ) (count : ℕ) → HasRead file count self.old
            → IfOk result (λ next. IfSome next (IsSentenceAfter file count)) }
        ensures left { (file : List ℕ) (count : ℕ) → HasRead file count self.old
            → IfOk result (λ next. IfSome next (λ _. HasRead file (count + 1) self.new)) }
        ensures next { IfOk result (λ next. IfSome next (λ placed.
            IsNext self.old.unread self.new.unread placed.block)) }
        ensures end { IfOk result (λ next. IfNone next (IsAtEnd self.old self.new)) }
    {
        let block = match self.unread.read_next(self.alloc) {
            Ok(Some(block)) => block,
            Ok(None) => return Ok(None),
            Err(ReadFault::At { .. }) => return Ok(None),
            Err(ReadFault::Memory) => return Err(AllocError),
        };
        let before = self.before;
        self.before = before.saturating_add(lines_of(&block));
        Ok(Some(Placed { block, before }))
    }

    /// The next sentence, if there is one and memory for it.
    pub(crate) fn next(&mut self) -> Option<Placed<'a>>
        ensures here { (file : List ℕ) (count : ℕ) → HasRead file count self.old
            → IfSome result (IsSentenceAfter file count) }
        ensures left { (file : List ℕ) (count : ℕ) → HasRead file count self.old
            → IfSome result (λ _. HasRead file (count + 1) self.new) }
    {
        self.read_next().unwrap_or(None)
    }
}

/// The sentence with this number, counted from 1.
pub(crate) fn sentence_at<'a>(alloc: Global, file: &'a [u8], number: u64) -> Option<Placed<'a>>
    ensures { IfSome result (IsSentenceAfter file.now (number - 1)) }
{
    let mut places = Places::new(alloc, file);
    let mut read = 1;
    while read < number {
        places.next()?;
        read += 1;
    }
    places.next()
}
