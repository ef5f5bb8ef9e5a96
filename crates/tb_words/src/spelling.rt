//! Where the forms of a sentence differ from its text.

ghost use Rattle.std.specs.Prelude.{◌≡◌, ◌↔◌, drop, IfOk, IfSome, IsTrue, OnOk, string_bytes};
ghost use Rattle.std.specs.Str.{IsCharBoundary};
ghost use Rattle.tb_words.specs.Spelled.{IsByteAt, IsCommonFront, IsFolded, IsLastCut, IsSame, IsWordStart, MayCut, SaysDifference};
ghost use Rattle.tb_words.specs.Spelled.{SaysSpellings, difference_sentence, forms_shown, spellings_text, text_shown};
ghost use Rattle.tb_words.specs.Spelled.{with_word};

use crate::findings::{Detail, Finding};
use crate::places::Placed;
use crate::rules::keyed;
use crate::sentences as reported;
use crate::words::shown;
use std::alloc::{AllocError, Global};
use tb_rules::restored;

/// Adds a word after a space, unless it is the first.
fn put_word(all: &mut String, word: &str) -> Result<(), AllocError>
    ensures { OnOk result (string_bytes all.new ≡ with_word (string_bytes all.old) word.now) }
{
    if all.is_empty() {
        return all.push_str(word);
    }
    all.push_str(" ")?;
    all.push_str(word)
}

/// A text in which each run of white space is one space, and none is at the ends.
fn folded(alloc: Global, text: &str) -> Result<String, AllocError>
    ensures { IfOk result (λ all. IsFolded text.now (string_bytes all)) }
{
    let mut all = String::new(alloc);
    for word in text.split_whitespace() {
        put_word(&mut all, word)?;
    }
    Ok(all)
}

/// Whether this byte is at a place.
fn is_at(bytes: &[u8], at: usize, byte: u8) -> bool
    ensures { IsTrue result ↔ IsByteAt bytes.now at byte }
{
    match bytes.get(at) {
        Some(other) => *other == byte,
        None => false,
    }
}

/// How many bytes at the front of two texts are the same.
fn same_bytes(first: &[u8], second: &[u8]) -> usize
    ensures { IsCommonFront first.now second.now result }
{
    for (at, byte) in first.iter().enumerate() {
        if !is_at(second, at, *byte) {
            return at;
        }
    }
    first.len()
}

/// Whether both texts may be cut at a place.
fn may_cut(first: &str, second: &str, at: usize) -> bool
    ensures { IsTrue result ↔ MayCut first.now second.now at }
{
    first.is_char_boundary(at) && second.is_char_boundary(at)
}

/// The last place up to this one at which both texts may be cut.
fn cut_before(first: &str, second: &str, from: usize) -> usize
    ensures { IsLastCut first.now second.now from result }
{
    let mut at = from;
    while !may_cut(first, second, at) {
        at = at.saturating_sub(1);
    }
    at
}

/// The length of the common beginning of two texts, in bytes, up to a whole character.
fn same(first: &str, second: &str) -> usize
    ensures { IsSame first.now second.now result }
{
    let count = same_bytes(first.as_bytes(), second.as_bytes());
    cut_before(first, second, count)
}

fn rest(text: &str, from: usize) -> &str
    ensures { IsCharBoundary text.now from → result.now ≡ drop from text.now }
{
    text.get(from..).unwrap_or("")
}

/// The beginning of the word in which the texts first differ.
fn word_start(text: &str, at: usize) -> usize
    ensures { IsCharBoundary text.now at → IsWordStart text.now at result }
{
    match text.get(..at).unwrap_or("").rfind(' ') {
        Some(before) => before.saturating_add(1),
        None => 0,
    }
}

fn sentence_of(text: &str, forms: &str) -> &'static str
    ensures { result.now ≡ difference_sentence text.now forms.now }
{
    if forms.starts_with(' ') {
        reported::FORMS_HAVE_SPACE
    } else if text.starts_with(' ') {
        reported::TEXT_HAS_SPACE
    } else {
        reported::TEXT_DIFFERS
    }
}

fn text_shown(alloc: Global, text: &str) -> Result<String, AllocError>
    ensures { IfOk result (λ said. string_bytes said ≡ text_shown text.now) }
{
    let written = shown(text);
    format!(in alloc; "the text has `{written}`")
}

fn forms_shown(alloc: Global, forms: &str) -> Result<String, AllocError>
    ensures { IfOk result (λ said. string_bytes said ≡ forms_shown forms.now) }
{
    let spelled = shown(forms);
    format!(in alloc; ", the forms `{spelled}`")
}

fn spellings(alloc: Global, text: &str, forms: &str) -> Result<String, AllocError>
    ensures { IfOk result (λ said. string_bytes said ≡ spellings_text text.now forms.now) }
{
    let mut said = text_shown(alloc, text)?;
    let spelled = forms_shown(alloc, forms)?;
    said.push_str(spelled.as_str())?;
    Ok(said)
}

/// Where a text and forms differ, as it is told on this line.
fn difference_on<'a>(alloc: Global, line: usize, text: &str, forms: &str) -> Option<Finding<'a>>
    ensures { IfSome result (SaysSpellings line text.now forms.now) }
{
    let at = same(text, forms);
    let start = word_start(text, at);
    let sentence = sentence_of(rest(text, at), rest(forms, at));
    let Ok(detail) = spellings(alloc, rest(text, start), rest(forms, start)) else {
        return None;
    };
    Some(Finding::on(line, sentence).and(Detail::Spelled(detail)))
}

/// Where the text and the forms differ.
pub(crate) fn difference<'a>(alloc: Global, placed: &Placed<'a>) -> Option<Finding<'a>>
    ensures { IfSome result (SaysDifference placed.now) }
{
    let given = keyed(&placed.block, "text", 0)?;
    let Ok(text) = folded(alloc, given.value) else {
        return None;
    };
    let Ok(forms) = restored(alloc, &placed.block) else {
        return None;
    };
    let line = placed.comment_line(given.at);
    difference_on(alloc, line, text.as_str(), forms.as_str())
}
