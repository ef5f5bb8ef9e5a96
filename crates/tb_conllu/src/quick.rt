//! Reads rows quickly from a text that was tested as a whole. Its tabs and line feeds are found 64 bytes at a time. A
//! row that may have a fault is left to the functions that report it.

ghost use Rattle.std.specs.Prelude.{◌≡◌, ℕ, List, ◌∷◌, ◌++◌, map, take, slice_index, IfOk};
ghost use Rattle.std.specs.Prelude.{IfSome, IsOk, IsTrue, ◌||◌, false};
ghost use Rattle.std.specs.List.{AllByRecursion, join_with_byte, list_any};
ghost use Rattle.tb_chars.specs.Digits.{is_digit};
ghost use Rattle.tb_chars.specs.Spaces.{has_space};
ghost use Rattle.tb_conllu.specs.Lines.{fields};
ghost use Rattle.tb_conllu.specs.Shape.{IsRowShaped};
ghost use Rattle.tb_conllu.specs.TenFields.{IsParted, list_of};
ghost use Rattle.tb_conllu.specs.Tested.{HoldsOf};
ghost use Rattle.tb_conllu.specs.Text.{RowText, ended, row_line};
ghost use Rattle.tb_conllu.specs.Reported.{IsLine};

use crate::fields::{TenFields, fields_by};
use crate::growing::add_row;
use crate::ids::{head_of, id_of};
use crate::linetext::{Tested, is_composed};
use crate::rowline::{any_field_spaced, row_from};
use crate::rows::{BlockRef, RowRef};
use crate::scanner::FieldScanner;
use crate::spaces::any_wide_near;
use std::alloc::{AllocError, Global};
use tb_chars::is_digit_byte;

/// The field before this mark; `None` where it is empty, or where another mark ends it.
#[inline(always)]
fn field_before<'a>(cutter: &mut FieldScanner<'a>, mark: u8) -> Option<&'a str>
    ensures { IfSome result (λ field. IsParted field.now × (cutter.old ≡ field.now ++ mark ∷ cutter.new)) }
{
    let unread = cutter.left();
    let field = cutter.cut()?;
    if field.is_empty() || unread.as_bytes()[field.len()] != mark {
        return None;
    }
    Some(field)
}

/// The fields of the next line, which the scanner passes; `None` where it has not ten, all of them filled.
#[inline(always)]
fn fields_next<'a>(cutter: &mut FieldScanner<'a>) -> Option<TenFields<'a>>
    ensures { IfSome result (λ p. AllByRecursion IsParted (list_of p)
        × (cutter.old ≡ join_with_byte 9 (list_of p) ++ 10 ∷ cutter.new)) }
{
    Some(fields_by!(
        field_before(cutter, b'\t')?,
        field_before(cutter, b'\t')?,
        field_before(cutter, b'\n')?
    ))
}

/// The text before the line feed at `end`.
#[inline(always)]
fn before_feed(text: &str, end: usize) -> &str
    requires { slice_index text.now end ≡ 10 }
    ensures { result.now ≡ take end text.now }
{
    &text[..end]
}

/// Whether one of the fields that may not hold white space holds some. The line is the first of `unread`.
#[inline(always)]
fn any_spaced_next(unread: &str, line: &str, p: TenFields<'_>) -> bool
    requires first { (rest : List ℕ) × (unread.now ≡ line.now ++ 10 ∷ rest) }
    requires cut { IsLine line.now }
    requires fields { fields line.now ≡ list_of p }
    ensures { result ≡
        (has_space p.entry.upos.now || has_space p.entry.xpos.now || has_space p.entry.feats.now
        || has_space p.entry.head.now || has_space p.entry.deprel.now || has_space p.entry.deps.now) }
{
    any_wide_near(unread.as_bytes(), line.len()) && any_field_spaced(p)
}

/// The next row, which the scanner passes; `None` where the next line is no row without a fault. Only a line beyond
/// Latin wants memory.
#[inline(always)]
fn row_next<'a>(
    alloc: Global,
    cutter: &mut FieldScanner<'a>,
    tested: Tested,
) -> Result<Option<RowRef<'a>>, AllocError>
    requires tested { HoldsOf tested cutter.now }
    requires quiet { IsTrue tested.quiet }
    ensures latin { IsTrue tested.latin → IsOk result }
    ensures row { IfOk result (λ row. IfSome row (λ r. IsRowShaped r
        × (cutter.old ≡ row_line r ++ 10 ∷ cutter.new))) }
{
    let unread = cutter.left();
    let Some(fields) = fields_next(cutter) else {
        return Ok(None);
    };
    let line = before_feed(unread, unread.len() - cutter.left().len() - 1);
    let Some(id) = id_of(fields.id) else {
        return Ok(None);
    };
    let Some(head) = head_of(fields.head) else {
        return Ok(None);
    };
    if any_spaced_next(unread, line, fields) || !is_composed(alloc, line, tested.latin)? {
        return Ok(None);
    }
    Ok(Some(row_from(fields, id, head)))
}

/// Whether bytes begin with a digit, as each row does.
#[inline(always)]
pub fn is_numbered(bytes: &[u8]) -> bool
    ensures { result ≡ list_any is_digit (take 1 bytes.now) }
{
    match bytes.first() {
        Some(b) => is_digit_byte(*b),
        None => false,
    }
}

/// Adds the rows at the beginning of a text to the sentence, up to one at fault. Returns the text after them.
pub fn take_rows<'a>(
    alloc: Global,
    block: &mut BlockRef<'a>,
    text: &'a str,
    tested: Tested,
) -> Result<&'a str, AllocError>
    requires tested { HoldsOf tested text.now }
    requires quiet { IsTrue tested.quiet }
    ensures none { list_any is_digit (take 1 text.now) ≡ false → IsOk result }
    ensures rows { IfOk result (λ left. (rs : List RowText) × AllByRecursion IsRowShaped rs
        × (block.new ≡ record { comments = block.old.comments; rows = block.old.rows ++ rs })
        × (text.now ≡ ended (map row_line rs) ++ left.now)) }
{
    let mut cutter = FieldScanner::new(text);
    let mut left = text;
    while is_numbered(left.as_bytes()) {
        let Some(row) = row_next(alloc, &mut cutter, tested)? else {
            return Ok(left);
        };
        add_row(block, row)?;
        left = cutter.left();
    }
    Ok(left)
}
