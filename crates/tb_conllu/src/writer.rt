//! Writes sentences as text.

ghost use Rattle.std.specs.Prelude.{◌≡◌, [], ◌∷◌, ◌++◌, decimal, IfErr, IfOk, IsOk, OnErr, OnOk};
ghost use Rattle.std.specs.Io.KnownBytes.{Appends};
ghost use Rattle.std.specs.List.{flat_map};
ghost use Rattle.tb_conllu.specs.Sunk.{AppendsPart};
ghost use Rattle.tb_conllu.specs.Text.{head_text, id_text, row_line, text_of};

use crate::fault::WriteFault;
use crate::id::LineId;
use crate::rows::{BlockOf, RowOf};
use crate::sink::{Bytes, Sink};
use crate::text::Text;
use itoa::Buffer;
use std::alloc::{AllocError, Global};
use std::io::Write;

/// Writes a number in decimal digits. Takes no memory.
///
/// # Errors
///
/// The reason for which the sink refused a piece. It may hold a first part of the digits.
pub fn put_number<S: Sink>(number: u32, out: &mut S) -> Result<(), S::Refusal>
    ensures put { OnOk result (Appends (S.held out.old) (S.held out.new) (decimal number)) }
    ensures part { OnErr result (AppendsPart (S.held out.old) (S.held out.new) (decimal number)) }
    ensures refused { IfErr result (S.IsRefusal out.new) }
{
    let mut digits = Buffer::new();
    out.put(digits.format(number).as_bytes())
}

/// Writes two numbers with a mark between them.
fn put_pair<S: Sink>(first: u32, mark: u8, second: u32, out: &mut S) -> Result<(), S::Refusal>
    ensures put { OnOk result (Appends (S.held out.old) (S.held out.new) (decimal first ++ mark ∷ decimal second)) }
    ensures part { OnErr result (AppendsPart (S.held out.old) (S.held out.new)
        (decimal first ++ mark ∷ decimal second)) }
    ensures refused { IfErr result (S.IsRefusal out.new) }
{
    put_number(first, out)?;
    out.put(&[mark])?;
    put_number(second, out)
}

fn put_id<S: Sink>(id: LineId, out: &mut S) -> Result<(), S::Refusal>
    ensures put { OnOk result (Appends (S.held out.old) (S.held out.new) (id_text id)) }
    ensures part { OnErr result (AppendsPart (S.held out.old) (S.held out.new) (id_text id)) }
    ensures refused { IfErr result (S.IsRefusal out.new) }
{
    match id {
        LineId::Word(number) => put_number(number, out),
        LineId::Span(first, last) => put_pair(first, b'-', last, out),
        LineId::Empty(word, place) => put_pair(word, b'.', place, out),
    }
}

/// Writes a tab and a head.
fn put_head<S: Sink>(head: Option<u32>, out: &mut S) -> Result<(), S::Refusal>
    ensures put { OnOk result (Appends (S.held out.old) (S.held out.new) (9 ∷ head_text head)) }
    ensures part { OnErr result (AppendsPart (S.held out.old) (S.held out.new) (9 ∷ head_text head)) }
    ensures refused { IfErr result (S.IsRefusal out.new) }
{
    match head {
        Some(number) => {
            out.put(b"\t")?;
            put_number(number, out)
        }
        None => out.put(b"\t_"),
    }
}

/// Writes each text after a tab.
fn put_fields<S: Sink>(fields: &[&str], out: &mut S) -> Result<(), S::Refusal>
    ensures put { OnOk result (Appends (S.held out.old) (S.held out.new) (flat_map (λ field.
        9 ∷ field.now) fields.now)) }
    ensures part { OnErr result (AppendsPart (S.held out.old) (S.held out.new) (flat_map (λ field.
        9 ∷ field.now) fields.now)) }
    ensures refused { IfErr result (S.IsRefusal out.new) }
{
    for field in fields {
        out.put(b"\t")?;
        out.put(field.as_bytes())?;
    }
    Ok(())
}

fn put_row<T: Text, S: Sink>(row: &RowOf<T>, out: &mut S) -> Result<(), S::Refusal>
    ensures put { OnOk result (Appends (S.held out.old) (S.held out.new) (row_line row.now ++ 10 ∷ [])) }
    ensures part { OnErr result (AppendsPart (S.held out.old) (S.held out.new) (row_line row.now ++ 10 ∷ [])) }
    ensures refused { IfErr result (S.IsRefusal out.new) }
{
    put_id(row.id, out)?;
    put_fields(
        &[
            row.form.text(),
            row.lemma.text(),
            row.upos.text(),
            row.xpos.text(),
            row.feats.text(),
        ],
        out,
    )?;
    put_head(row.head, out)?;
    put_fields(&[row.deprel.text(), row.deps.text(), row.misc.text()], out)?;
    out.put(b"\n")
}

fn put_rows<T: Text, S: Sink>(rows: &[RowOf<T>], out: &mut S) -> Result<(), S::Refusal>
    ensures put { OnOk result (Appends (S.held out.old) (S.held out.new) (flat_map (λ row.
        row_line row ++ 10 ∷ []) rows.now)) }
    ensures part { OnErr result (AppendsPart (S.held out.old) (S.held out.new) (flat_map (λ row.
        row_line row ++ 10 ∷ []) rows.now)) }
    ensures refused { IfErr result (S.IsRefusal out.new) }
{
    for row in rows {
        put_row(row, out)?;
    }
    Ok(())
}

fn put_comments<T: Text, S: Sink>(comments: &[T], out: &mut S) -> Result<(), S::Refusal>
    ensures put { OnOk result (Appends (S.held out.old) (S.held out.new) (flat_map (λ comment.
        T.bytes comment ++ 10 ∷ []) comments.now)) }
    ensures part { OnErr result (AppendsPart (S.held out.old) (S.held out.new) (flat_map (λ comment.
        T.bytes comment ++ 10 ∷ []) comments.now)) }
    ensures refused { IfErr result (S.IsRefusal out.new) }
{
    for comment in comments {
        out.put(comment.text().as_bytes())?;
        out.put(b"\n")?;
    }
    Ok(())
}

/// Writes the text of one sentence: its comments, its rows and a blank line. Takes no memory.
///
/// Any sentence is written as it is. It reads back if it has the shape that the format requires.
///
/// # Errors
///
/// The reason for which the sink refused a piece. It may hold a first part of the text.
pub fn put_block<T: Text, S: Sink>(block: &BlockOf<T>, out: &mut S) -> Result<(), S::Refusal>
    ensures put { OnOk result (Appends (S.held out.old) (S.held out.new) (text_of (block.now ∷ []))) }
    ensures part { OnErr result (AppendsPart (S.held out.old) (S.held out.new) (text_of (block.now ∷ []))) }
    ensures refused { IfErr result (S.IsRefusal out.new) }
{
    put_comments(&block.comments, out)?;
    put_rows(&block.rows, out)?;
    out.put(b"\n")
}

/// Writes the text of the sentences, in order. Takes no memory.
///
/// # Errors
///
/// The reason for which the sink refused a piece. It may hold a first part of the text.
pub fn put_blocks<T: Text, S: Sink>(blocks: &[BlockOf<T>], out: &mut S) -> Result<(), S::Refusal>
    ensures put { OnOk result (Appends (S.held out.old) (S.held out.new) (text_of blocks.now)) }
    ensures part { OnErr result (AppendsPart (S.held out.old) (S.held out.new) (text_of blocks.now)) }
    ensures refused { IfErr result (S.IsRefusal out.new) }
    ensures sure { blocks.now ≡ [] → IsOk result }
{
    for sentence in blocks {
        put_block(sentence, out)?;
    }
    Ok(())
}

/// Writes the text of one sentence to a writer, as `put_block` does. Takes no memory.
///
/// # Errors
///
/// The writer failed. It took a first part of the text, and it is unknown how much.
pub fn write_block_to<T: Text, W: Write>(block: &BlockOf<T>, out: &mut W) -> Result<(), WriteFault>
    ensures put { OnOk result (Appends (W.contents out.old) (W.contents out.new) (text_of (block.now ∷ []))) }
    ensures part { OnErr result (AppendsPart (W.contents out.old) (W.contents out.new) (text_of (block.now ∷ []))) }
{
    put_block(block, out)
}

/// Writes the text of the sentences, in order, to a writer, as `put_blocks` does. Takes no memory.
///
/// # Errors
///
/// The writer failed. It took a first part of the text, and it is unknown how much.
pub fn write_to<T: Text, W: Write>(blocks: &[BlockOf<T>], out: &mut W) -> Result<(), WriteFault>
    ensures put { OnOk result (Appends (W.contents out.old) (W.contents out.new) (text_of blocks.now)) }
    ensures part { OnErr result (AppendsPart (W.contents out.old) (W.contents out.new) (text_of blocks.now)) }
{
    put_blocks(blocks, out)
}

/// The text of the sentences.
///
/// # Errors
///
/// Memory was refused, which comes only where there is a sentence.
pub fn write<T: Text>(alloc: Global, blocks: &[BlockOf<T>]) -> Result<Vec<u8>, AllocError>
    ensures text { IfOk result (λ v. v.items ≡ text_of blocks.now) }
    ensures sure { blocks.now ≡ [] → IsOk result }
{
    let mut out = Bytes {
        bytes: Vec::new(alloc),
    };
    put_blocks(blocks, &mut out)?;
    Ok(out.bytes)
}
