//! Reads sentences from texts that are known to be those of sentences, as a desk keeps them. They are split into
//! fields, and tested for nothing but UTF-8.

ghost use Rattle.std.specs.Prelude.{◌≡◌, ◌<◌, ℕ, List, [], ◌∷◌, ◌++◌, map, length, nat_le, true};
ghost use Rattle.std.specs.Prelude.{false, Some, IfOk, IfSome, IsOk, OnOk, MatchOption};
ghost use Rattle.std.specs.List.{AllByRecursion};
ghost use Rattle.tb_conllu.specs.Lines.{is_comment};
ghost use Rattle.tb_conllu.specs.Marks.{parts};
ghost use Rattle.tb_conllu.specs.Shape.{IsCommentText, IsRowShaped};
ghost use Rattle.tb_conllu.specs.TenFields.{list_of};
ghost use Rattle.tb_conllu.specs.Text.{RowText, BlockText, ended, fields_of, row_line};
ghost use Rattle.tb_conllu.specs.Reported.{IsFile, IsLine};

use crate::fields::{TenFields, fields_by, is_empty_text};
use crate::growing::{add_comment, add_row, is_hashed};
use crate::ids::{head_of, id_of};
use crate::rowline::row_from;
use crate::rows::{BlockOf, BlockRef, RowRef};
use crate::scanner::FieldScanner;
use memchr::memchr;
use simdutf8::basic::from_utf8;
use std::alloc::{AllocError, Global};

/// The first line of a text, and the text after it; `None` where no line feed is left.
fn next_line(text: &str) -> Option<(&str, &str)>
    ensures { MatchOption result (IsLine text.now) (λ p. IsLine p.0.now × (text.now ≡ p.0.now ++ 10 ∷ p.1.now)) }
{
    let end = memchr(b'\n', text.as_bytes())?;
    Some((&text[..end], &text[end + 1..]))
}

/// Adds the comments at the beginning of a text to the sentence. Returns the text after them.
fn take_comments<'a>(block: &mut BlockRef<'a>, text: &'a str) -> Result<&'a str, AllocError>
    ensures none { is_comment text.now ≡ false → IsOk result }
    ensures taken { (cs : List (List ℕ)) (rest : List ℕ) → AllByRecursion IsCommentText cs
        → is_comment rest ≡ false → text.now ≡ ended cs ++ rest
        → OnOk result (block.new ≡ record { comments = block.old.comments ++ cs; rows = block.old.rows }) }
    ensures left { (cs : List (List ℕ)) (rest : List ℕ) → AllByRecursion IsCommentText cs
        → is_comment rest ≡ false → text.now ≡ ended cs ++ rest → IfOk result (λ left. left.now ≡ rest) }
{
    let mut left = text;
    while is_hashed(left) {
        let Some((line, after)) = next_line(left) else {
            return Ok(left);
        };
        add_comment(block, line)?;
        left = after;
    }
    Ok(left)
}

/// The text before the next tab or line feed, which the scanner passes; `None` where there is none.
#[inline(always)]
fn next_part<'a>(cutter: &mut FieldScanner<'a>) -> Option<&'a str>
    ensures { MatchOption result (parts cutter.old ≡ cutter.old ∷ []) (λ part.
        parts cutter.old ≡ part.now ∷ parts cutter.new) }
{
    cutter.cut()
}

/// The ten fields of a row whose first field is `id`; `None` where fewer are left.
#[inline(always)]
fn fields_after<'a>(id: &'a str, cutter: &mut FieldScanner<'a>) -> Option<TenFields<'a>>
    ensures { MatchOption result (nat_le (length (parts cutter.old)) 9 ≡ true) (λ p. id.now ∷ parts cutter.old
        ≡ list_of p ++ parts cutter.new) }
{
    Some(fields_by!(id, next_part(cutter)?, next_part(cutter)?))
}

/// The row whose first field is `id`.
#[inline(always)]
fn row_after<'a>(id: &'a str, cutter: &mut FieldScanner<'a>) -> Option<RowRef<'a>>
    ensures row { (r : RowText) (rest : List (List ℕ)) → IsRowShaped r → 0 < length rest
        → id.now ∷ parts cutter.old ≡ fields_of r ++ rest → MatchOption result ⊥ (λ x. x ≡ r) }
    ensures rest { (r : RowText) (rest : List (List ℕ)) → IsRowShaped r → 0 < length rest
        → id.now ∷ parts cutter.old ≡ fields_of r ++ rest → parts cutter.new ≡ rest }
    ensures fewer { IfSome result (λ _. length (parts cutter.new) < length (parts cutter.old)) }
{
    let Some(fields) = fields_after(id, cutter) else {
        return None;
    };
    let Some(id) = id_of(fields.id) else {
        return None;
    };
    let Some(head) = head_of(fields.head) else {
        return None;
    };
    Some(row_from(fields, id, head))
}

/// An empty sentence, with room for the rows of a text of this many bytes, at 48 bytes a row. Most rows take more. A
/// list that grows would copy what it has.
fn roomy_block<'a>(alloc: Global, bytes: usize) -> Result<BlockRef<'a>, AllocError>
    ensures { IfOk result (λ b. b ≡ record { comments = []; rows = [] }) }
{
    Ok(BlockOf {
        comments: Vec::new(alloc),
        rows: Vec::with_capacity(alloc, bytes / 48)?,
    })
}

/// Adds the rows of a text to the sentence, up to a blank line. Returns whether there was one.
fn take_rows<'a>(block: &mut BlockRef<'a>, text: &'a str) -> Result<bool, AllocError>
    ensures whole { (rs : List RowText) → AllByRecursion IsRowShaped rs
        → text.now ≡ ended (map row_line rs ++ [] ∷ []) → IfOk result (λ whole. whole ≡ true) }
    ensures taken { (rs : List RowText) → AllByRecursion IsRowShaped rs
        → text.now ≡ ended (map row_line rs ++ [] ∷ [])
        → OnOk result (block.new ≡ record { comments = block.old.comments; rows = block.old.rows ++ rs }) }
{
    let mut cutter = FieldScanner::new(text);
    while let Some(id) = next_part(&mut cutter) {
        if is_empty_text(id) {
            return Ok(true);
        }
        let Some(row) = row_after(id, &mut cutter) else {
            return Ok(false);
        };
        add_row(block, row)?;
    }
    Ok(false)
}

/// The sentence with this text, which is known to be a sentence's, as those that a desk keeps. It borrows its texts
/// from the bytes.
///
/// The bytes are split at line feeds and tabs, and only what the split needs is tested. This takes half the time of
/// [`crate::read_ref`]. For bytes that are no sentence's text the answer is `None` or any sentence.
///
/// # Errors
///
/// Memory was refused.
pub fn known_block(alloc: Global, bytes: &[u8]) -> Result<Option<BlockRef<'_>>, AllocError>
    ensures { (b : BlockText) → IsFile bytes.now (b ∷ []) → IfOk result (λ found. found ≡ Some b) }
{
    let Ok(text) = from_utf8(bytes) else {
        return Ok(None);
    };
    let mut block = roomy_block(alloc, bytes.len())?;
    let rows = take_comments(&mut block, text)?;
    if !take_rows(&mut block, rows)? {
        return Ok(None);
    }
    Ok(Some(block))
}
