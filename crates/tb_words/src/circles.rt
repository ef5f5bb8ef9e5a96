//! Words that hang from one another: cycles of HEADs.

ghost use Rattle.std.specs.Prelude.{◌≡◌, ◌++◌, codes, decimal, None, IfOk, IfSome, OnOk};
ghost use Rattle.std.specs.String.{string_bytes};
ghost use Rattle.tb_rules.specs.Tree.{head_number};
ghost use Rattle.tb_words.specs.Circles.{IsCircleText, IsLeft, NoneIsLeft, head_after, heads_in, steps_from};

use std::alloc::{AllocError, Global};
use tb_conllu::{RowRef, is_word_row};

/// The most words of a circle that are shown.
const MOST: usize = 8;

/// The HEAD of a row; 0 where it has none.
fn head_or_root(row: &RowRef<'_>) -> u32
    ensures { result ≡ head_number row.now.head }
{
    match row.head {
        Some(head) => head,
        None => 0,
    }
}

/// The HEADs of the words of a sentence, in order.
pub(crate) fn heads_of(alloc: Global, rows: &[RowRef<'_>]) -> Result<Vec<u32>, AllocError>
    ensures { IfOk result (λ heads. heads.items ≡ heads_in rows.now) }
{
    rows.iter()
        .filter(|row| is_word_row(*row))
        .map(|row| head_or_root(row))
        .collect(alloc)
}

/// The HEAD of a word; 0 for a number that no word has.
fn head_of(heads: &[u32], word: u32) -> u32
    ensures { result ≡ head_after heads.now word }
{
    let at = (word as usize).wrapping_sub(1);
    heads.get(at).copied().unwrap_or(0)
}

/// The word that so many steps along HEAD reach.
fn after(heads: &[u32], word: u32, steps: usize) -> u32
    ensures { result ≡ steps_from heads.now steps word }
{
    let mut here = word;
    for _ in 0..steps {
        here = head_of(heads, here);
    }
    here
}

/// A word that lies on a circle of HEADs, if there is one.
pub(crate) fn on_circle(heads: &[u32]) -> Option<u32>
    ensures some { IfSome result (IsLeft heads.now) }
    ensures none { result ≡ None → NoneIsLeft heads.now }
{
    for head in heads {
        let end = after(heads, *head, heads.len());
        if end != 0 {
            return Some(end);
        }
    }
    None
}

/// Adds the word that a step leads to.
fn push_step(alloc: Global, text: &mut String, word: u32) -> Result<(), AllocError>
    ensures { OnOk result (string_bytes text.new ≡ string_bytes text.old ++ (codes " -> " ++ decimal word)) }
{
    let step = format!(in alloc; " -> {word}")?;
    text.push_str(step.as_str())
}

/// The circle, from this word on.
pub(crate) fn circle_text(alloc: Global, heads: &[u32], word: u32) -> Result<String, AllocError>
    ensures { IfOk result (λ text. IsCircleText heads.now word (string_bytes text)) }
{
    let mut text = format!(in alloc; "{word}")?;
    let mut here = word;
    for _ in 0..MOST {
        here = head_of(heads, here);
        push_step(alloc, &mut text, here)?;
        if here == word {
            return Ok(text);
        }
    }
    text.push_str(" -> ..")?;
    Ok(text)
}
