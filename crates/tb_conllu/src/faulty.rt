//! Finds every line at fault.

ghost use Rattle.std.specs.Prelude.{◌≡◌, ◌≤◌, ◌∷◌, [], ◌++◌, IfOk, IsOk, List, OnErr, OnOk, false, take, vec_len};
ghost use Rattle.std.specs.List.{list_any};
ghost use Rattle.tb_conllu.specs.FaultyLines.{AreFaultyLines, end_code, fault_at};
ghost use Rattle.tb_conllu.specs.Lines.{came_after, is_empty, line_code};
ghost use Rattle.tb_conllu.specs.Plain.{is_beyond_latin};
ghost use Rattle.tb_conllu.specs.Shape.{IsLineText};
ghost use Rattle.tb_conllu.specs.Tested.{HoldsOfLine};
ghost use Rattle.tb_conllu.specs.declared.faulty.FaultyLine.{FaultyLine};

use crate::fault::ReadFault;
use crate::fields::is_empty_text;
use crate::growing::is_hashed;
use crate::linetext::{Tested, line_text, test_all};
use crate::pieces::cut_once;
use crate::rowline::row_of;
use std::alloc::{AllocError, Global};

/// A line at fault.
#[derive(Clone, Copy, Debug, PartialEq, Eq)]
pub struct FaultyLine {
    /// Its number, counted from 1.
    pub line: usize,
    /// Its least code, 1 to 9. Or 10, where the file ends without a blank line after its last sentence. The line is
    /// then the one after the last line feed.
    pub code: u8,
}

/// Adds an item to the first of a list, while these are fewer than `most`. A list with so many takes no memory.
///
/// # Errors
///
/// Memory was refused. The list is as it was.
pub fn push_within<X: Drop>(first: &mut Vec<X>, item: X, most: usize) -> Result<(), AllocError>
    ensures added { OnOk result ((all : List X) → first.old.items ≡ take most all
        → first.new.items ≡ take most (all ++ item ∷ [])) }
    ensures full { most ≤ vec_len first.old → IsOk result }
    ensures kept { OnErr result (first.new.items ≡ first.old.items) }
{
    if first.len() < most {
        first.push(item)?;
    }
    Ok(())
}

/// Adds the fault of the line with this number, if it has a code.
fn push_fault(
    found: &mut Vec<FaultyLine>,
    line: usize,
    code: u8,
    most: usize,
) -> Result<(), AllocError>
    ensures added { OnOk result ((all : List FaultyLine) → found.old.items ≡ take most all
        → found.new.items ≡ take most (all ++ fault_at line code)) }
    ensures none { code ≡ 0 → IsOk result }
    ensures full { most ≤ vec_len found.old → IsOk result }
{
    if code == 0 {
        return Ok(());
    }
    push_within(found, FaultyLine { line, code }, most)
}

/// The least code of a line with this text, 0 where it has none.
fn text_code(text: &str, came: bool) -> u8
    requires { IsLineText text.now }
    ensures { result ≡ line_code came text.now }
{
    if is_empty_text(text) {
        return if came { 0 } else { 9 };
    }
    if is_hashed(text) {
        return if came { 8 } else { 0 };
    }
    match row_of(text) {
        Ok(_) => 0,
        Err(code) => code,
    }
}

/// The least code of a line, 0 where it has none. `came` says whether a word line of its sentence came before.
fn code_of(alloc: Global, raw: &[u8], tested: Tested, came: bool) -> Result<u8, AllocError>
    requires { HoldsOfLine tested raw.now }
    ensures code { IfOk result (λ code. code ≡ line_code came raw.now) }
    ensures sure { list_any is_beyond_latin raw.now ≡ false → IsOk result }
{
    match line_text(alloc, raw, tested, 1) {
        Ok(text) => Ok(text_code(text, came)),
        Err(ReadFault::At { code, .. }) => Ok(code),
        Err(ReadFault::Memory) => Err(AllocError),
    }
}

/// Whether a word line of its sentence came before the line that follows this one.
fn comes_after(raw: &[u8], came: bool) -> bool
    ensures { result ≡ came_after came raw.now }
{
    match raw.first() {
        None => false,
        Some(b) => came || *b != b'#',
    }
}

/// Whether a line has no byte.
fn is_blank(raw: &[u8]) -> bool
    ensures { result ≡ is_empty raw.now }
{
    raw.is_empty()
}

/// The code of the end of a file. `closed` says that the last line is blank, or that there is none.
fn code_of_end(closed: bool, rest: &[u8]) -> u8
    ensures { result ≡ end_code closed rest.now }
{
    if closed && is_blank(rest) { 0 } else { 10 }
}

/// The first faults of a file, at most so many: each line that has a code, with its least code, and the end.
///
/// # Errors
///
/// Memory was refused, which comes only where there is a byte.
pub fn faulty_lines(alloc: Global, bytes: &[u8], most: usize) -> Result<Vec<FaultyLine>, AllocError>
    ensures faults { IfOk result (λ v. (all : List FaultyLine) × AreFaultyLines bytes.now all
        × (v.items ≡ take most all)) }
    ensures sure { bytes.now ≡ [] → IsOk result }
{
    let tested = test_all(bytes);
    let mut found = Vec::new(alloc);
    let mut rest = bytes;
    let mut line = 0;
    let mut came = false;
    let mut closed = true;
    while let Some((raw, after)) = cut_once(b'\n', rest) {
        line += 1;
        push_fault(&mut found, line, code_of(alloc, raw, tested, came)?, most)?;
        came = comes_after(raw, came);
        closed = is_blank(raw);
        rest = after;
    }
    push_fault(&mut found, line + 1, code_of_end(closed, rest), most)?;
    Ok(found)
}
