//! Keyword lines and keys of hits.

ghost use Rattle.std.specs.Prelude.{◌≡◌, ℕ, ◌+◌, ◌-◌, ◌<◌, ◌≤◌, ◌∷◌, ◌++◌, []};
ghost use Rattle.std.specs.Prelude.{IfErr, IfOk, List, MatchOption, OnOk, decimal, filter, map, string_bytes, take};
ghost use Rattle.std.specs.Io.KnownBytes.{Appends};
ghost use Rattle.tb_conllu.specs.Words.{is_word, words_of};
ghost use Rattle.tb_core.specs.Machine.{sent_id_of};
ghost use Rattle.tb_report.specs.Keywords.{after, before, joined, key_of, keyword_line, of_hit};
ghost use Rattle.tb_rules.specs.Rules.{KeepsRules};

use crate::keys::KeyWalk;
use crate::words::{after_words, push_words, put_words};
use std::alloc::{AllocError, Global};
use tb_conllu::{BlockOf, RowOf, Sink, Text, put_number};
use tb_rules::sent_id;
use tb_syntax::Attr;

/// Writes a number and a tab.
fn put_number_column<S: Sink>(number: u32, out: &mut S) -> Result<(), S::Refusal>
    ensures put { OnOk result (Appends (S.held out.old) (S.held out.new) (decimal number ++ 9 ∷ [])) }
    ensures refused { IfErr result (S.IsRefusal out.new) }
{
    put_number(number, out)?;
    out.put(b"\t")
}

/// Writes words and a tab.
fn put_words_column<T: Text, S: Sink>(
    rows: &[RowOf<T>],
    words: usize,
    out: &mut S,
) -> Result<(), S::Refusal>
    ensures put { OnOk result (Appends (S.held out.old) (S.held out.new)
        (joined (take words (map (λ row. row.form) (filter is_word rows.now))) ++ 9 ∷ [])) }
    ensures refused { IfErr result (S.IsRefusal out.new) }
{
    put_words(rows, words, out)?;
    out.put(b"\t")
}

/// Writes the first three columns, each with a tab after it.
fn put_place<S: Sink>(name: &str, hit: (u32, u32), out: &mut S) -> Result<(), S::Refusal>
    requires { hit.0 < hit.1 }
    ensures put { OnOk result (Appends (S.held out.old) (S.held out.new)
        (name.now ++ 9 ∷ (decimal (hit.0 + 1) ++ 9 ∷ (decimal hit.1 ++ 9 ∷ [])))) }
    ensures refused { IfErr result (S.IsRefusal out.new) }
{
    let (start, end) = hit;
    out.put(name.as_bytes())?;
    out.put(b"\t")?;
    put_number_column(start + 1, out)?;
    put_number_column(end, out)
}

/// Writes the last three columns, with a tab between each two, and the end of the line.
fn put_forms<T: Text, S: Sink>(
    rows: &[RowOf<T>],
    hit: (u32, u32),
    context: u8,
    out: &mut S,
) -> Result<(), S::Refusal>
    requires { hit.0 < hit.1 }
    ensures put { OnOk result ((forms : List (List ℕ))
        → (forms ≡ map (λ row. row.form) (filter is_word rows.now))
        → Appends (S.held out.old) (S.held out.new)
        (joined (before context hit.0 forms) ++ 9 ∷ (joined (of_hit hit.0 hit.1 forms) ++ 9 ∷
        (joined (after context hit.1 forms) ++ 10 ∷ [])))) }
    ensures refused { IfErr result (S.IsRefusal out.new) }
{
    let start = hit.0 as usize;
    let end = hit.1 as usize;
    let context = context as usize;
    let first = start.saturating_sub(context);
    let left = after_words(rows, first);
    let matched = after_words(left, start - first);
    let right = after_words(matched, end - start);
    put_words_column(left, start - first, out)?;
    put_words_column(matched, end - start, out)?;
    put_words(right, context, out)?;
    out.put(b"\n")
}

/// Writes the keyword line of a hit. Takes no memory.
///
/// Its columns are `sent_id`, the numbers of the first and the last word of the hit, and three columns of forms. These
/// are `context` words before the hit, the words of the hit, and `context` words after it. On a side with fewer words,
/// all are written. Columns are separated by a tab, words by one space. The line ends with LF.
///
/// A hit `(i, j)` covers the words `i + 1` to `j`.
///
/// # Errors
///
/// The reason for which the sink refused a piece.
pub fn kwic<T: Text, S: Sink>(
    block: &BlockOf<T>,
    hit: (u32, u32),
    context: u8,
    out: &mut S,
) -> Result<(), S::Refusal>
    requires first { hit.0 < hit.1 }
    requires last { hit.1 ≤ words_of block.now }
    requires context { context ≤ 20 }
    requires rules { KeepsRules block.now }
    ensures put { OnOk result (Appends (S.held out.old) (S.held out.new) (keyword_line block.now hit context)) }
    ensures refused { IfErr result (S.IsRefusal out.new) }
{
    let name = sent_id(block).unwrap();
    kwic_named(name, block, hit, context, out)
}

/// Writes the keyword line of a hit in a sentence whose `sent_id` is `name`.
///
/// Where a sentence has many lines, its name is then found once. The sentence need not keep the other rules.
///
/// # Errors
///
/// The reason for which the sink refused a piece.
pub fn kwic_named<T: Text, S: Sink>(
    name: &str,
    block: &BlockOf<T>,
    hit: (u32, u32),
    context: u8,
    out: &mut S,
) -> Result<(), S::Refusal>
    requires named { name.now ≡ sent_id_of block.now }
    requires first { hit.0 < hit.1 }
    requires last { hit.1 ≤ words_of block.now }
    ensures put { OnOk result (Appends (S.held out.old) (S.held out.new) (keyword_line block.now hit context)) }
    ensures refused { IfErr result (S.IsRefusal out.new) }
{
    put_place(name, hit, out)?;
    put_forms(&block.rows, hit, context, out)
}

/// The key of a hit of one word: its value in the column. `None` for a hit of more words. Takes no memory.
pub fn word_key<T: Text>(block: &BlockOf<T>, hit: (u32, u32), column: Attr) -> Option<&str>
    requires first { hit.0 < hit.1 }
    requires last { hit.1 ≤ words_of block.now }
    ensures { MatchOption result (hit.0 + 1 < hit.1) (λ value. value.now ≡ key_of column block.now hit) }
{
    KeyWalk::new(block).word_key(hit, column)
}

/// The values of a hit's words in one column, with one space between each two.
///
/// A hit `(i, j)` covers the words `i + 1` to `j`.
///
/// # Errors
///
/// Memory was refused.
pub fn key<T: Text>(
    alloc: Global,
    block: &BlockOf<T>,
    hit: (u32, u32),
    column: Attr,
) -> Result<String, AllocError>
    requires first { hit.0 < hit.1 }
    requires last { hit.1 ≤ words_of block.now }
    ensures { IfOk result (λ s. string_bytes s ≡ key_of column block.now hit) }
{
    let start = hit.0 as usize;
    let end = hit.1 as usize;
    let rows = after_words(&block.rows, start);
    let mut key = String::new(alloc);
    push_words(rows, end - start, column, &mut key)?;
    Ok(key)
}
