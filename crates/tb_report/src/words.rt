//! Words of a sentence, from a given word on, joined by spaces.

ghost use Rattle.std.specs.Prelude.{◌≡◌, ◌∷◌, ◌++◌, [], IfErr, MatchOption, OnOk, drop, filter};
ghost use Rattle.std.specs.Prelude.{if◌then◌else◌, map, string_bytes, take};
ghost use Rattle.std.specs.Io.KnownBytes.{Appends};
ghost use Rattle.tb_conllu.specs.Words.{is_word};
ghost use Rattle.tb_query.specs.Meaning.{value_of};
ghost use Rattle.tb_report.specs.Keywords.{joined};

use std::alloc::AllocError;
use tb_conllu::{RowOf, Sink, Text, is_word_row};
use tb_query::value_of;
use tb_syntax::Attr;

/// The rows after the first `words` words.
pub(crate) fn after_words<T: Text>(rows: &[RowOf<T>], words: usize) -> &[RowOf<T>]
    ensures { filter is_word result.now ≡ drop words (filter is_word rows.now) }
{
    let mut rest = rows;
    let mut left = words;
    while left > 0 {
        let Some((row, more)) = rest.split_first() else {
            return rest;
        };
        if is_word_row(row) {
            left -= 1;
        }
        rest = more;
    }
    rest
}

/// Writes a text, after a space if it is not the first.
fn put_next<S: Sink>(is_first: bool, text: &str, out: &mut S) -> Result<(), S::Refusal>
    ensures put { OnOk result (Appends (S.held out.old) (S.held out.new)
        (if is_first then text.now else 32 ∷ text.now)) }
    ensures refused { IfErr result (S.IsRefusal out.new) }
{
    if !is_first {
        out.put(b" ")?;
    }
    out.put(text.as_bytes())
}

/// Writes the forms of the first `words` words, or of all where there are fewer.
pub(crate) fn put_words<T: Text, S: Sink>(
    rows: &[RowOf<T>],
    words: usize,
    out: &mut S,
) -> Result<(), S::Refusal>
    ensures put { OnOk result (Appends (S.held out.old) (S.held out.new)
        (joined (take words (map (λ row. row.form) (filter is_word rows.now))))) }
    ensures refused { IfErr result (S.IsRefusal out.new) }
{
    let mut done = 0;
    for row in rows {
        if done == words {
            return Ok(());
        }
        if !is_word_row(row) {
            continue;
        }
        put_next(done == 0, row.form.text(), out)?;
        done += 1;
    }
    Ok(())
}

/// Appends a text, after a space if it is not the first.
fn push_next(is_first: bool, text: &str, key: &mut String) -> Result<(), AllocError>
    ensures { OnOk result (string_bytes key.new ≡ string_bytes key.old ++
        (if is_first then text.now else 32 ∷ text.now)) }
{
    if !is_first {
        key.push(' ')?;
    }
    key.push_str(text)
}

/// Appends the values of the first `words` words to the key, or of all where there are fewer.
pub(crate) fn push_words<T: Text>(
    rows: &[RowOf<T>],
    words: usize,
    column: Attr,
    key: &mut String,
) -> Result<(), AllocError>
    requires { string_bytes key.old ≡ [] }
    ensures { OnOk result (string_bytes key.new ≡ joined
        (take words (map (value_of column) (filter is_word rows.now)))) }
{
    let mut done = 0;
    for row in rows {
        if done == words {
            return Ok(());
        }
        if !is_word_row(row) {
            continue;
        }
        push_next(done == 0, value_of(column, row), key)?;
        done += 1;
    }
    Ok(())
}

/// The value of the first word; `None` where there is none.
pub(crate) fn first_value<T: Text>(rows: &[RowOf<T>], column: Attr) -> Option<&str>
    ensures { MatchOption result (filter is_word rows.now ≡ []) (λ value.
        take 1 (map (value_of column) (filter is_word rows.now)) ≡ value.now ∷ []) }
{
    for row in rows {
        if is_word_row(row) {
            return Some(value_of(column, row));
        }
    }
    None
}
