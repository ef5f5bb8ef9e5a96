ghost use Rattle.std.specs.Prelude.{◌≡◌, ◌↔◌, IsTrue, map, reverse};
ghost use Rattle.std.specs.Option.{option_copied};
ghost use Rattle.tb_rules.specs.Comments.{drop_spaces, trimmed, value_under, values_of, only, sent_ids, texts};
ghost use Rattle.tb_rules.specs.Comments.{HasSentId, HasText};

use crate::matching::strip_text;
use tb_chars::has_white_space;
use tb_conllu::{BlockOf, BlockRef, Text};

const SENT_ID: &str = "sent_id";

const TEXT: &str = "text";

fn trim_front(text: &str) -> &str
    ensures { result.now ≡ drop_spaces text.now }
{
    let mut rest = text;
    while let Some(shorter) = rest.strip_prefix(' ') {
        rest = shorter;
    }
    rest
}

fn trim_back(text: &str) -> &str
    ensures { result.now ≡ reverse (drop_spaces (reverse text.now)) }
{
    let mut rest = text;
    while let Some(shorter) = rest.strip_suffix(' ') {
        rest = shorter;
    }
    rest
}

/// The text without the spaces (U+0020) at both ends.
fn trim_spaces(text: &str) -> &str
    ensures { result.now ≡ trimmed text.now }
{
    trim_back(trim_front(text))
}

/// The value of the comment, if its key is this one.
fn value_with<'a>(comment: &'a str, key: &str) -> Option<&'a str>
    ensures { option_copied result ≡ value_under key.now comment.now }
{
    let Some(rest) = comment.strip_prefix('#') else {
        return None;
    };
    // Most comments have another key, and need no search for the `=`.
    let Some(_) = strip_text(trim_front(rest), key) else {
        return None;
    };
    let Some((name, value)) = rest.split_once('=') else {
        return None;
    };
    if trim_spaces(name) == key {
        Some(trim_spaces(value))
    } else {
        None
    }
}

/// The value of the only comment with the key.
fn only_value<'a, T: Text>(comments: &'a [T], key: &str) -> Option<&'a str>
    ensures { option_copied result ≡ only (values_of key.now (map T.bytes comments.now)) }
{
    let mut found: Option<&'a str> = None;
    for comment in comments {
        if let Some(value) = value_with(comment.text(), key) {
            if found.is_some() {
                return None;
            }
            found = Some(value);
        }
    }
    found
}

/// The value of the only one of borrowed comments with the key.
fn only_borrowed<'a>(comments: &[&'a str], key: &str) -> Option<&'a str>
    ensures { option_copied result ≡ only (values_of key.now (map (λ c. c.now) comments.now)) }
{
    let mut first: Option<&'a str> = None;
    for comment in comments {
        if let Some(value) = value_with(comment, key) {
            if first.is_some() {
                return None;
            }
            first = Some(value);
        }
    }
    first
}

/// The name of the sentence: the value of its only comment with the key `sent_id`. None where there is none or more
/// than one. Takes no memory.
///
/// CoNLL-U format page, "Sentence Boundaries and Comments".
pub fn sent_id<'a, T: Text>(block: &'a BlockOf<T>) -> Option<&'a str>
    ensures { option_copied result ≡ only (sent_ids block.now) }
{
    only_value(&block.comments, SENT_ID)
}

/// The name of a sentence that borrows its texts. The name outlives the sentence. Takes no memory.
pub fn sent_id_ref<'a>(block: &BlockRef<'a>) -> Option<&'a str>
    ensures { option_copied result ≡ only (sent_ids block.now) }
{
    only_borrowed(&block.comments, SENT_ID)
}

/// The text of the sentence: the value of its only comment with the key `text`. None where there is none or more than
/// one. Takes no memory.
///
/// CoNLL-U format page, "Sentence Boundaries and Comments".
pub fn text<'a, T: Text>(block: &'a BlockOf<T>) -> Option<&'a str>
    ensures { option_copied result ≡ only (texts block.now) }
{
    only_value(&block.comments, TEXT)
}

/// Whether exactly one comment names the sentence, and the name has no white space.
pub(crate) fn has_sent_id<T: Text>(block: &BlockOf<T>) -> bool
    ensures { IsTrue result ↔ HasSentId block.now }
{
    match sent_id(block) {
        None => false,
        Some(name) => !name.is_empty() && !has_white_space(name),
    }
}

/// Whether exactly one comment gives the text of the sentence.
pub(crate) fn has_text<T: Text>(block: &BlockOf<T>) -> bool
    ensures { IsTrue result ↔ HasText block.now }
{
    text(block).is_some()
}
