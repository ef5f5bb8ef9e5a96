ghost use Rattle.std.specs.Prelude.{◌≡◌, ◌+◌, ◌<◌, ◌≤◌, ◌^◌, length, ◌&&◌, MatchOption};
ghost use Rattle.std.specs.Prelude.{IfOk, IsOk, false};
ghost use Rattle.std.specs.List.{list_any, slice_split};
ghost use Rattle.tb_chars.specs.Spaces.{is_solid};
ghost use Rattle.tb_rules.specs.Rows.{EachRowPasses, IsFirstFault};
ghost use Rattle.tb_fields.specs.Feats.{is_bar};
ghost use Rattle.tb_rules.specs.Named.{AreNumbered, is_node_id};
ghost use Rattle.tb_rules.specs.Deps.{pair_head, dependency_test};
ghost use Rattle.tb_rules.specs.Places.{is_plain, value_of, number_of, place_of, word_place, node_place};
ghost use Rattle.tb_rules.specs.Places.{is_place_there, is_up_to, are_places_in_order, is_placed_pair, place_precedes};
ghost use Rattle.tb_rules.specs.Places.{are_placed_pairs, is_placed_text, is_placed_dependent, place_test};

use crate::heads::{Heads, head_stands_in, heads_in};
use std::alloc::{AllocError, Global};
use tb_chars::{is_digit_byte, is_solid_text};
use tb_conllu::{LineId, RowOf, Text};
use tb_fields::is_blank_field;

/// The value of at most 19 digits, which fits 64 bits.
fn value(bytes: &[u8]) -> Option<usize>
    requires { length bytes.now ≤ 19 }
    ensures { result ≡ value_of bytes.now }
{
    let mut value: usize = 0;
    for b in bytes {
        if !is_digit_byte(*b) {
            return None;
        }
        value = value * 10 + (*b - b'0') as usize;
    }
    Some(value)
}

fn is_plain_number(bytes: &[u8]) -> bool
    ensures { result ≡ is_plain bytes.now }
{
    bytes.len() > 0 && bytes.len() <= 19 && (bytes[0] != b'0' || bytes.len() == 1)
}

fn number(text: &str) -> Option<usize>
    ensures { result ≡ number_of text.now }
{
    let bytes = text.as_bytes();
    if is_plain_number(bytes) {
        value(bytes)
    } else {
        None
    }
}

fn word_head(number: Option<usize>) -> Option<(usize, usize)>
    ensures { result ≡ word_place number }
{
    match number {
        None => None,
        Some(n) => Some((n, 0)),
    }
}

fn node_head(word: Option<usize>, node: Option<usize>) -> Option<(usize, usize)>
    ensures { result ≡ node_place word node }
{
    match word {
        None => None,
        Some(i) => match node {
            None => None,
            Some(k) => { if k == 0 { None } else { Some((i, k)) } }
        },
    }
}

/// The place of a head: (0, 0) for the root, (n, 0) for word n, and (i, k) for the empty node i.k.
fn head(text: &str) -> Option<(usize, usize)>
    ensures { result ≡ place_of text.now }
{
    match text.split_once('.') {
        None => word_head(number(text)),
        Some((word, node)) => node_head(number(word), number(node)),
    }
}

fn is_not_after(first: (usize, usize), second: (usize, usize)) -> bool
    ensures { result ≡ is_up_to first second }
{
    first.0 < second.0 || (first.0 == second.0 && first.1 <= second.1)
}

fn heads_in_order(first: Option<(usize, usize)>, second: Option<(usize, usize)>) -> bool
    ensures { result ≡ are_places_in_order first second }
{
    match first {
        None => false,
        Some(a) => match second {
            None => false,
            Some(b) => is_not_after(a, b),
        },
    }
}

fn head_of_pair(pair: &str) -> Option<(usize, usize)>
    ensures { result ≡ place_of (pair_head pair.now) }
{
    match pair.split_once(':') {
        None => head(pair),
        Some((front, _)) => head(front),
    }
}

fn are_pair_parts<T: Text>(heads: &Heads<'_, T>, front: &str, relation: &str) -> bool
    ensures { result ≡ (is_place_there heads.now.rows.now (place_of front.now) && is_solid relation.now) }
{
    head_stands_in(heads, head(front)) && is_solid_text(relation)
}

fn is_pair_in<T: Text>(heads: &Heads<'_, T>, pair: &str) -> bool
    ensures { result ≡ is_placed_pair heads.now.rows.now pair.now }
{
    match pair.split_once(':') {
        None => false,
        Some((front, relation)) => are_pair_parts(heads, front, relation),
    }
}

fn are_in_order(pair: &str, next: &str) -> bool
    ensures { result ≡ are_places_in_order (place_of (pair_head pair.now)) (place_of (pair_head next.now)) }
{
    heads_in_order(head_of_pair(pair), head_of_pair(next))
}

/// Whether the head of the pair is before that of the first pair of the text, or the same.
fn is_before(pair: &str, text: &str) -> bool
    ensures { result ≡ place_precedes pair.now (slice_split is_bar text.now) }
{
    match text.split_once('|') {
        None => are_in_order(pair, text),
        Some((next, _)) => are_in_order(pair, next),
    }
}

fn pair_is_fine<T: Text>(heads: &Heads<'_, T>, pair: &str, more: &str) -> bool
    ensures { result ≡ (is_placed_pair heads.now.rows.now pair.now && place_precedes pair.now
        (slice_split is_bar more.now)) }
{
    is_pair_in(heads, pair) && is_before(pair, more)
}

fn holds_pairs<T: Text>(heads: &Heads<'_, T>, text: &str) -> bool
    ensures { result ≡ are_placed_pairs heads.now.rows.now (slice_split is_bar text.now) }
{
    let mut left = text;
    while let Some((pair, more)) = left.split_once('|') {
        if !pair_is_fine(heads, pair, more) {
            return false;
        }
        left = more;
    }
    is_pair_in(heads, left)
}

fn is_fine_text<T: Text>(heads: &Heads<'_, T>, text: &str) -> bool
    ensures { result ≡ is_placed_text heads.now.rows.now text.now }
{
    is_blank_field(text) || holds_pairs(heads, text)
}

fn is_fine<T: Text>(heads: &Heads<'_, T>, row: &RowOf<T>) -> bool
    ensures { result ≡ is_placed_dependent heads.now.rows.now row.now.id row.now }
{
    match row.id {
        LineId::Word(_) | LineId::Empty(..) => is_fine_text(heads, row.deps.text()),
        LineId::Span(..) => true,
    }
}

fn first_fault<T: Text>(heads: &Heads<'_, T>) -> Option<usize>
    ensures { MatchOption result (EachRowPasses (place_test heads.now.rows.now) heads.now.rows.now)
        (IsFirstFault (place_test heads.now.rows.now) heads.now.rows.now) }
{
    for (i, row) in heads.rows.iter().enumerate() {
        if !is_fine(heads, row) {
            return Some(i + 1);
        }
    }
    None
}

/// There are fewer rows than numbers of 19 digits, so that each of their IDs can be read.
fn rows_are_few<T: Text>(rows: &[RowOf<T>])
    ensures { length rows.now + 1 < 10 ^ 19 }
{
    let _count = rows.len();
}

/// The first word or empty node whose DEPS are at fault, by the number of its row (from 1). The sentence has `words`
/// words, and its rows have the right numbers.
pub(crate) fn dependency_fault<T: Text>(
    alloc: Global,
    rows: &[RowOf<T>],
    words: usize,
) -> Result<Option<usize>, AllocError>
    requires { AreNumbered rows.now words }
    ensures value { IfOk result (λ r. MatchOption r (EachRowPasses (dependency_test rows.now) rows.now)
        (IsFirstFault (dependency_test rows.now) rows.now)) }
    ensures sure { list_any (λ r. is_node_id r.id) rows.now ≡ false → IsOk result }
{
    rows_are_few(rows);
    let heads = heads_in(alloc, rows, words)?;
    Ok(first_fault(&heads))
}
