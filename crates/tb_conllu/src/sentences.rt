//! Reads sentences one after another.

ghost use Rattle.std.specs.Prelude.{◌≡◌, ◌≢◌, ◌+◌, ◌<◌, ◌≤◌, ◌-◌, ◌^◌, List, [], ◌∷◌};
ghost use Rattle.std.specs.Prelude.{◌++◌, IfOk, IfErr, IfSome, IsOk, OnOk, MatchOption, length, map, take};
ghost use Rattle.std.specs.Prelude.{false};
ghost use Rattle.std.specs.List.{AllByRecursion, list_any};
ghost use Rattle.std.specs.Str.{IsUtf8};
ghost use Rattle.tb_chars.specs.Digits.{is_digit};
ghost use Rattle.tb_conllu.specs.Fault.{IsFaultAfter, MayWantMemory};
ghost use Rattle.tb_conllu.specs.declared.fault.ReadFault.TheVariants.{Memory};
ghost use Rattle.tb_conllu.specs.Left.{BeginsNoSentence, IsNext, IsReadFrom, Left};
ghost use Rattle.tb_conllu.specs.Shape.{IsRowShaped, IsShaped};
ghost use Rattle.tb_conllu.specs.Tested.{HoldsOf};
ghost use Rattle.tb_conllu.specs.Text.{BlockText, RowText, block_lines, ended, row_line, text_of};
ghost use Rattle.tb_conllu.specs.Reported.{IsFile};

use crate::fault::ReadFault;
use crate::fields::is_empty_text;
use crate::growing::{any_row, count_rows, no_block, take_line};
use crate::linetext::{Tested, line_text, test_all};
use crate::pieces::cut_once;
use crate::quick::{is_numbered, take_rows};
use crate::rows::BlockRef;
use std::alloc::{AllocError, Global};
use std::marker::Model;

/// A sentence, and its end.
#[derive(Drop)]
struct Found<'a> {
    block: BlockRef<'a>,
    /// The bytes after the sentence.
    rest: &'a [u8],
    /// The number of its last line.
    line: usize,
}

/// The text of bytes that are known to be UTF-8.
fn known_text(bytes: &[u8]) -> &str
    requires { IsUtf8 bytes.now }
    ensures { result.now ≡ bytes.now }
{
    // their lines were tested, or all bytes at once
    unsafe { std::str::from_utf8_unchecked(bytes) }
}

/// Adds the rows at the beginning of bytes to the sentence, up to one at fault, if the pass over all bytes allows it.
/// Returns the bytes after them.
#[inline(always)]
fn quick_rows<'a>(
    alloc: Global,
    block: &mut BlockRef<'a>,
    bytes: &'a [u8],
    tested: Tested,
) -> Result<&'a [u8], AllocError>
    requires { HoldsOf tested bytes.now }
    ensures none { list_any is_digit (take 1 bytes.now) ≡ false → IsOk result }
    ensures rows { IfOk result (λ left. (rs : List RowText) × AllByRecursion IsRowShaped rs
        × (block.new ≡ record { comments = block.old.comments; rows = block.old.rows ++ rs })
        × (bytes.now ≡ ended (map row_line rs) ++ left.now)) }
{
    if !(tested.utf8 && tested.quiet && is_numbered(bytes)) {
        return Ok(bytes);
    }
    Ok(take_rows(alloc, block, known_text(bytes), tested)?.as_bytes())
}

/// The first sentence of bytes that come after this many lines.
fn read_block<'a>(
    alloc: Global,
    bytes: &'a [u8],
    line: usize,
    tested: Tested,
) -> Result<Found<'a>, ReadFault>
    requires room { line + length bytes.now < 2 ^ 63 }
    requires tested { HoldsOf tested bytes.now }
    requires filled { 0 < length bytes.now }
    ensures shaped { IfOk result (λ found. IsShaped found.block) }
    ensures text { IfOk result (λ found. bytes.now ≡ text_of (found.block ∷ []) ++ found.rest.now) }
    ensures place { IfOk result (λ found. found.line ≡ line + length (block_lines found.block)) }
    ensures room { IfOk result (λ found. found.line + length found.rest.now ≤ line + length bytes.now) }
    ensures tested { IfOk result (λ found. HoldsOf tested found.rest.now) }
    ensures fault { IfErr result (IsFaultAfter line bytes.now) }
    ensures first { IfErr result (λ e. e ≢ Memory → BeginsNoSentence bytes.now) }
    ensures memory { IfErr result (λ e. e ≡ Memory → MayWantMemory bytes.now) }
{
    let mut block = no_block(alloc);
    let mut rest = bytes;
    let mut at = line;
    while let Some((raw, after)) = cut_once(b'\n', rest) {
        rest = after;
        at += 1;
        let text = line_text(alloc, raw, tested, at)?;
        if is_empty_text(text) {
            if any_row(&block) {
                return Ok(Found {
                    block,
                    rest,
                    line: at,
                });
            }
            return Err(ReadFault::At { line: at, code: 9 });
        }
        take_line(&mut block, text, at)?;
        let before = count_rows(&block);
        rest = quick_rows(alloc, &mut block, rest, tested)?;
        at += count_rows(&block) - before;
    }
    Err(ReadFault::At {
        line: at + 1,
        code: 10,
    })
}

/// A sentence, and its text in the file.
#[derive(Drop)]
pub struct SourcedSentence<'a> {
    pub block: BlockRef<'a>,
    pub text: &'a str,
}

/// The bytes before the last `left`.
fn before_rest(bytes: &[u8], left: usize) -> &[u8]
    requires { left ≤ length bytes.now }
    ensures { result.now ≡ take (length bytes.now - left) bytes.now }
{
    &bytes[..bytes.len() - left]
}

/// The rest of a file that is read one sentence after another. One sentence at a time is in memory.
#[derive(Drop)]
pub struct Sentences<'a> {
    rest: &'a [u8],
    line: usize,
    tested: Tested,
}

impl<'a> Model for Sentences<'a> {
    ghost Value = { Left };

    ghost view = { λ s. record { rest = s.rest.now; line = s.line } };

    ghost invariant = { λ s. (s.line + length s.rest.now < 2 ^ 63) × HoldsOf s.tested s.rest.now };
}

impl<'a> Sentences<'a> {
    /// The whole file.
    pub fn new(bytes: &'a [u8]) -> Self
        ensures { result ≡ record { rest = bytes.now; line = 0 } }
    {
        Sentences {
            rest: bytes,
            line: 0,
            tested: test_all(bytes),
        }
    }

    /// The next sentence, which borrows its texts; `None` at the end. After an `Err` nothing has changed.
    pub fn read_next(&mut self, alloc: Global) -> Result<Option<BlockRef<'a>>, ReadFault>
        ensures next { IfOk result (λ o. MatchOption o ((self.old.rest ≡ [])
            × (self.new ≡ self.old)) (IsNext self.old self.new)) }
        ensures fault { IfErr result (λ e. IsFaultAfter self.old.line self.old.rest e × (self.new ≡ self.old)) }
        ensures first { IfErr result (λ e. e ≢ Memory → BeginsNoSentence self.old.rest) }
        ensures memory { IfErr result (λ e. e ≡ Memory → MayWantMemory self.old.rest) }
    {
        if self.rest.is_empty() {
            return Ok(None);
        }
        let found = read_block(alloc, self.rest, self.line, self.tested)?;
        self.rest = found.rest;
        self.line = found.line;
        Ok(Some(found.block))
    }

    /// The next sentence with its text; `None` at the end. After an `Err` nothing has changed.
    ///
    /// The texts of all sentences, one after another, are the file. No byte is copied, and none is tested again.
    pub fn read_passage(&mut self, alloc: Global) -> Result<Option<SourcedSentence<'a>>, ReadFault>
        ensures next { IfOk result (λ o. MatchOption o ((self.old.rest ≡ []) × (self.new ≡ self.old)) (λ p.
            IsNext self.old self.new p.block)) }
        ensures text { IfOk result (λ o. IfSome o (λ p. p.text.now ≡ text_of (p.block ∷ []))) }
        ensures fault { IfErr result (λ e. IsFaultAfter self.old.line self.old.rest e × (self.new ≡ self.old)) }
        ensures first { IfErr result (λ e. e ≢ Memory → BeginsNoSentence self.old.rest) }
        ensures memory { IfErr result (λ e. e ≡ Memory → MayWantMemory self.old.rest) }
    {
        let unread = self.rest;
        let Some(block) = self.read_next(alloc)? else {
            return Ok(None);
        };
        let text = known_text(before_rest(unread, self.rest.len()));
        Ok(Some(SourcedSentence { block, text }))
    }

    /// Reads the rest to its end, and keeps nothing. After an `Err` the sentences before the fault were read, and what
    /// is left has this fault.
    ///
    /// # Errors
    ///
    /// The fault of the rest, or want of memory.
    pub fn read_rest(&mut self, alloc: Global) -> Result<(), ReadFault>
        ensures file { OnOk result ((bs : List BlockText) × IsFile self.old.rest bs) }
        ensures end { OnOk result (self.new.rest ≡ []) }
        ensures fault { IfErr result (IsFaultAfter self.old.line self.old.rest) }
        ensures taken { (bs : List BlockText) × IsReadFrom self.old bs self.new }
        ensures left { IfErr result (IsFaultAfter self.new.line self.new.rest) }
        ensures first { IfErr result (λ e. e ≢ Memory → BeginsNoSentence self.new.rest) }
        ensures memory { IfErr result (λ e. e ≡ Memory → MayWantMemory self.old.rest) }
        ensures sure { IfErr result (λ e. e ≡ Memory → MayWantMemory self.new.rest) }
    {
        while let Some(block) = self.read_next(alloc)? {
            drop(block);
        }
        Ok(())
    }
}
