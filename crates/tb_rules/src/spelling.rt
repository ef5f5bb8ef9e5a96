ghost use Rattle.std.specs.Prelude.{◌≡◌, ◌↔◌, IsTrue, ◌++◌, ◌∷◌, [], ℕ, List, Err, IfOk, IsOk, IsOkAnd, OnOk};
ghost use Rattle.std.specs.Prelude.{bytes_eq, string_bytes, chars, encode_utf8, encode_utf8_all, length, not, ◌==◌};
ghost use Rattle.std.specs.Prelude.{◌&&◌, MatchResult, None, true, false};
ghost use Rattle.std.specs.Char.{is_whitespace};
ghost use Rattle.std.specs.List.{list_all, list_any, slice_split};
ghost use Rattle.tb_fields.specs.Feats.{is_bar};
ghost use Rattle.tb_rules.specs.Leading.{RangesLead, is_token_after};
ghost use Rattle.tb_rules.specs.Restored.{is_token_id, has_no_space_after, form_and_space, token_text, text_of_rows};
ghost use Rattle.tb_rules.specs.Restored.{restored_text, folded, folded_text, IsRestored};
ghost use Rattle.tb_rules.specs.Comments.{only, texts};
ghost use Rattle.tb_rules.specs.Expected.{continued};

use crate::comments::text;
use crate::covering::{comes_out, ranges_lead};
use crate::matching::spell;
use crate::spans::end_of;
use std::alloc::{AllocError, Global};
use tb_conllu::{BlockOf, RowOf, Text};
use tb_fields::is_blank_field;

/// The item of MISC that says that no space follows. In most rows it is the only one.
const NO_SPACE: &str = "SpaceAfter=No";

/// A text whose white space is folded while characters come.
#[derive(Drop)]
struct Folding {
    text: String,
    gap: bool,
}

fn push_char(text: &mut String, c: char) -> Result<(), AllocError>
    ensures { OnOk result (string_bytes text.new ≡ string_bytes text.old ++ encode_utf8 c) }
{
    text.push(c)?;
    Ok(())
}

fn push_spaced(text: &mut String, c: char) -> Result<(), AllocError>
    ensures { OnOk result (string_bytes text.new ≡ (string_bytes text.old ++ encode_utf8 32) ++ encode_utf8 c) }
{
    push_char(text, ' ')?;
    push_char(text, c)
}

fn needs_space(folding: &Folding) -> bool
    ensures { result ≡ (not (length (string_bytes folding.now.text) == 0) && folding.now.gap) }
{
    !folding.text.is_empty() && folding.gap
}

fn put(folding: &mut Folding, c: char) -> Result<(), AllocError>
    ensures put { OnOk result ((next : List ℕ) → continued (string_bytes folding.new.text) folding.new.gap next
        ≡ continued (string_bytes folding.old.text) folding.old.gap (c ∷ next)) }
    ensures white { is_whitespace c ≡ true → IsOk result }
{
    if c.is_whitespace() {
        folding.gap = true;
        return Ok(());
    }
    if needs_space(folding) {
        push_spaced(&mut folding.text, c)?;
        folding.gap = false;
        return Ok(());
    }
    push_char(&mut folding.text, c)?;
    folding.gap = false;
    Ok(())
}

fn put_text(folding: &mut Folding, text: &str) -> Result<(), AllocError>
    ensures white { list_all is_whitespace (chars text.now) ≡ true → IsOk result }
    ensures put { OnOk result ((next : List ℕ) → continued (string_bytes folding.new.text) folding.new.gap next
        ≡ continued (string_bytes folding.old.text) folding.old.gap (chars text.now ++ next)) }
{
    for c in text.chars() {
        put(folding, c)?;
    }
    Ok(())
}

/// The text with each run of white space as one space, and none at the ends.
fn fold(alloc: Global, text: &str) -> Result<String, AllocError>
    ensures white { list_all is_whitespace (chars text.now) ≡ true → IsOk result }
    ensures value { IfOk result (λ s. string_bytes s ≡ folded_text text.now) }
{
    let mut folding = Folding {
        text: String::new(alloc),
        gap: false,
    };
    put_text(&mut folding, text)?;
    Ok(folding.text)
}

fn has_item(misc: &str, wanted: &str) -> bool
    ensures { result ≡ list_any (bytes_eq wanted.now) (slice_split is_bar misc.now) }
{
    let mut left = misc;
    while let Some((item, more)) = left.split_once('|') {
        if wanted == item {
            return true;
        }
        left = more;
    }
    wanted == left
}

pub(crate) fn has_no_space<T: Text>(row: &RowOf<T>) -> bool
    ensures { result ≡ has_no_space_after row.now }
{
    let misc = row.misc.text();
    if is_blank_field(misc) {
        return false;
    }
    misc == NO_SPACE || has_item(misc, NO_SPACE)
}

fn put_row<T: Text>(folding: &mut Folding, row: &RowOf<T>) -> Result<(), AllocError>
    ensures white { list_all is_whitespace (chars row.now.form) ≡ true → IsOk result }
    ensures put { OnOk result ((next : List ℕ) → continued (string_bytes folding.new.text) folding.new.gap next
        ≡ continued (string_bytes folding.old.text) folding.old.gap (form_and_space row.now ++ next)) }
{
    put_text(folding, row.form.text())?;
    if !has_no_space(row) {
        put(folding, ' ')?;
    }
    Ok(())
}

fn put_token<T: Text>(
    folding: &mut Folding,
    row: &RowOf<T>,
    rows: &[RowOf<T>],
    lead: bool,
    end: u32,
) -> Result<(), AllocError>
    requires { lead ≡ true → is_token_id rows.now row.now.id ≡ is_token_after end row.now.id }
    ensures put { OnOk result ((next : List ℕ) → continued (string_bytes folding.new.text) folding.new.gap next
        ≡ continued (string_bytes folding.old.text) folding.old.gap (token_text rows.now row.now ++ next)) }
    ensures sure { is_token_id rows.now row.now.id ≡ false → IsOk result }
{
    if !comes_out(row.id, rows, lead, end) {
        return Ok(());
    }
    put_row(folding, row)
}

fn put_rows<T: Text>(folding: &mut Folding, rows: &[RowOf<T>], lead: bool) -> Result<(), AllocError>
    requires { lead ≡ true → RangesLead rows.now }
    ensures none { rows.now ≡ [] → IsOk result }
    ensures put { OnOk result ((next : List ℕ) → continued (string_bytes folding.new.text) folding.new.gap next
        ≡ continued (string_bytes folding.old.text) folding.old.gap (text_of_rows rows.now ++ next)) }
{
    let mut end: u32 = 0;
    for row in rows {
        put_token(folding, row, rows, lead, end)?;
        end = end.max(end_of(row.id));
    }
    Ok(())
}

fn spelled<T: Text>(alloc: Global, rows: &[RowOf<T>]) -> Result<String, AllocError>
    ensures none { rows.now ≡ [] → IsOk result }
    ensures value { IfOk result (λ s. string_bytes s ≡ encode_utf8_all (folded (text_of_rows rows.now))) }
{
    let mut folding = Folding {
        text: String::new(alloc),
        gap: false,
    };
    put_rows(&mut folding, rows, ranges_lead(rows))?;
    Ok(folding.text)
}

/// The text of the rows: the forms of ranges and of words in no range, with a space after each unless MISC has
/// `SpaceAfter=No`. Each run of white space is one space, and there is none at the ends.
///
/// CoNLL-U format page, "Words, Tokens and Empty Nodes" and "Miscellaneous".
pub fn restored<T: Text>(alloc: Global, block: &BlockOf<T>) -> Result<String, AllocError>
    ensures none { block.now.rows ≡ [] → IsOk result }
    ensures value { IfOk result (λ s. string_bytes s ≡ restored_text block.now) }
{
    spelled(alloc, &block.rows)
}

/// Whether the text of the rows is the folded text, where there was memory for that.
fn spells_folded<T: Text>(
    rows: &[RowOf<T>],
    made: Result<String, AllocError>,
) -> Result<bool, AllocError>
    ensures { MatchResult made (λ s. IsOkAnd result (λ b. IsTrue b
        ↔ (encode_utf8_all (folded (text_of_rows rows.now)) ≡ string_bytes s))) (λ e. result ≡ Err e) }
{
    match made {
        Ok(text) => Ok(spell(rows, text.as_str())),
        Err(error) => Err(error),
    }
}

/// Whether the text of the rows is the value. Differences in white space do not count.
fn is_spelled<T: Text>(alloc: Global, rows: &[RowOf<T>], value: &str) -> Result<bool, AllocError>
    ensures value { IfOk result (λ b. IsTrue b ↔ (encode_utf8_all (folded (text_of_rows rows.now))
        ≡ folded_text value.now)) }
    ensures sure { encode_utf8_all (folded (text_of_rows rows.now)) ≡ value.now → IsOk result }
{
    // The text of rows is folded, so a value equal to it is folded too.
    if spell(rows, value) {
        return Ok(true);
    }
    spells_folded(rows, fold(alloc, value))
}

/// Whether the text of the rows is that of the comment. Differences in white space do not count.
pub(crate) fn is_restored<T: Text>(alloc: Global, block: &BlockOf<T>) -> Result<bool, AllocError>
    ensures value { IfOk result (λ b. IsTrue b ↔ IsRestored block.now) }
    ensures sure { only (texts block.now) ≡ None → IsOk result }
{
    let Some(value) = text(block) else {
        return Ok(false);
    };
    is_spelled(alloc, &block.rows, value)
}
