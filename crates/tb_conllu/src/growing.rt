//! A sentence that grows line by line.

ghost use Rattle.std.specs.Prelude.{◌≡◌, [], ◌∷◌, ◌++◌, OnOk, IfErr, length, false};
ghost use Rattle.tb_conllu.specs.declared.fault.ReadFault.TheVariants.{Memory};
ghost use Rattle.tb_conllu.specs.Begun.{IsSound, has_rows};
ghost use Rattle.tb_conllu.specs.Lines.{is_comment, is_empty, line_code};
ghost use Rattle.tb_conllu.specs.Refusal.{IsRefusal, begun, lines_begun};
ghost use Rattle.tb_conllu.specs.Shape.{IsLineText};

use crate::fault::ReadFault;
use crate::rowline::row_of;
use crate::rows::{BlockOf, BlockRef, RowOf};
use crate::text::Text;
use std::alloc::{AllocError, Global};

/// A sentence with nothing in it.
pub fn no_block<T: Text>(alloc: Global) -> BlockOf<T>
    ensures { result ≡ record { comments = []; rows = [] } }
{
    BlockOf {
        comments: Vec::new(alloc),
        rows: Vec::new(alloc),
    }
}

/// Whether the sentence has a row.
pub fn any_row<T: Text>(block: &BlockOf<T>) -> bool
    ensures { result ≡ has_rows block.now.rows }
{
    !block.rows.is_empty()
}

/// How many rows the sentence has.
#[inline(always)]
pub fn count_rows<T: Text>(block: &BlockOf<T>) -> usize
    ensures { result ≡ length block.now.rows }
{
    block.rows.len()
}

/// Whether the text begins with a hash.
pub fn is_hashed(text: &str) -> bool
    ensures { result ≡ is_comment text.now }
{
    match text.as_bytes().first() {
        Some(b) => *b == b'#',
        None => false,
    }
}

pub fn add_comment<T: Text>(block: &mut BlockOf<T>, text: T) -> Result<(), AllocError>
    ensures ok { OnOk result (block.new ≡ record {
      comments = block.old.comments ++ T.bytes text ∷ [];
      rows = block.old.rows;
    }) }
{
    block.comments.push(text)?;
    Ok(())
}

#[inline(always)]
pub fn add_row<T: Text>(block: &mut BlockOf<T>, row: RowOf<T>) -> Result<(), AllocError>
    ensures ok { OnOk result (block.new ≡ record {
      comments = block.old.comments;
      rows = block.old.rows ++ row ∷ [];
    }) }
{
    block.rows.push(row)?;
    Ok(())
}

/// Adds the line with this number, which is not blank, to the sentence, or refuses it with its least code.
pub fn take_line<'a>(block: &mut BlockRef<'a>, text: &'a str, line: usize) -> Result<(), ReadFault>
    requires text { IsLineText text.now }
    requires filled { is_empty text.now ≡ false }
    ensures lines { OnOk result (lines_begun block.new ≡ lines_begun block.old ++ text.now ∷ []) }
    ensures sound { OnOk result (IsSound (begun block.old) → IsSound (begun block.new)) }
    ensures err { IfErr result (IsRefusal line (has_rows block.old.rows) text.now) }
    ensures clean { OnOk result (line_code (has_rows block.old.rows) text.now ≡ 0) }
    ensures memory { IfErr result (λ e. e ≡ Memory → line_code (has_rows block.old.rows) text.now ≡ 0) }
{
    if is_hashed(text) {
        if any_row(block) {
            return Err(ReadFault::At { line, code: 8 });
        }
        add_comment(block, text)?;
        return Ok(());
    }
    match row_of(text) {
        Ok(row) => {
            add_row(block, row)?;
            Ok(())
        }
        Err(code) => Err(ReadFault::At { line, code }),
    }
}
