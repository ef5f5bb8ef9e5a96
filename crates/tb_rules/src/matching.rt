//! Compares the text of rows with a given one, piece by piece.

ghost use Rattle.std.specs.Prelude.{◌≡◌, ◌≢◌, ◌↔◌, IsTrue, ◌++◌, ◌∷◌, [], ℕ, List};
ghost use Rattle.std.specs.Prelude.{MatchOption, chars, encode_utf8, encode_utf8_all, true, false};
ghost use Rattle.tb_chars.specs.Spaces.{is_solid};
ghost use Rattle.tb_rules.specs.Leading.{RangesLead, is_token_after};
ghost use Rattle.tb_rules.specs.Expected.{gap_text, Takes};
ghost use Rattle.tb_rules.specs.Restored.{is_token_id, form_and_space, token_text, text_of_rows, folded};

use crate::covering::{comes_out, ranges_lead};
use crate::spans::end_of;
use crate::spelling::has_no_space;
use tb_chars::is_solid_text;
use tb_conllu::{RowOf, Text};

/// The rest of an expected text with folded white space, whether a character of it came, and whether white space came
/// after that.
#[derive(Clone, Copy)]
struct Expected<'a> {
    rest: &'a str,
    begun: bool,
    gap: bool,
}

fn from_start(text: &str) -> Expected<'_>
    ensures rest { result.rest.now ≡ text.now }
    ensures begun { result.begun ≡ false }
    ensures gap { result.gap ≡ false }
{
    Expected {
        rest: text,
        begun: false,
        gap: false,
    }
}

fn strip_char(text: &str, c: char) -> Option<&str>
    ensures { MatchOption result ((rest : List ℕ) → text.now ≢ encode_utf8 c ++ rest) (λ x.
        text.now ≡ encode_utf8 c ++ x.now) }
{
    text.strip_prefix(c)
}

/// The rest of a text after `front`, if it begins with it.
pub(crate) fn strip_text<'a>(text: &'a str, front: &str) -> Option<&'a str>
    ensures { MatchOption result ((rest : List ℕ) → text.now ≢ front.now ++ rest) (λ x.
        text.now ≡ front.now ++ x.now) }
{
    text.strip_prefix(front)
}

/// The rest after the one space that represents the white space between two characters.
fn past_gap(expected: Expected<'_>) -> Option<&str>
    ensures { MatchOption result ((rest : List ℕ)
        → expected.entry.rest.now ≢ gap_text expected.entry.begun expected.entry.gap ++ rest) (λ x.
        expected.entry.rest.now ≡ gap_text expected.entry.begun expected.entry.gap ++ x.now) }
{
    if expected.begun && expected.gap {
        strip_char(expected.rest, ' ')
    } else {
        Some(expected.rest)
    }
}

/// What is expected after a character or a text, if it comes next.
macro_rules! take_next {
    ($strip:ident, $expected:ident, $piece:ident) => {{
        let Some(behind) = past_gap($expected) else {
            return None;
        };
        let Some(rest) = $strip(behind, $piece) else {
            return None;
        };
        Some(Expected {
            rest,
            begun: true,
            gap: false,
        })
    }};
}

fn take_char(expected: Expected<'_>, c: char) -> Option<Expected<'_>>
    ensures { Takes expected.entry (c ∷ []) result }
{
    if c.is_whitespace() {
        return Some(Expected {
            rest: expected.rest,
            begun: expected.begun,
            gap: true,
        });
    }
    take_next!(strip_char, expected, c)
}

/// Takes a text without white space in one piece.
fn take_solid<'a>(expected: Expected<'a>, text: &str) -> Option<Expected<'a>>
    requires { is_solid text.now ≡ true }
    ensures { Takes expected.entry (chars text.now) result }
{
    take_next!(strip_text, expected, text)
}

fn take_chars<'a>(expected: Expected<'a>, text: &str) -> Option<Expected<'a>>
    ensures { Takes expected.entry (chars text.now) result }
{
    let mut now = expected;
    for c in text.chars() {
        let Some(after) = take_char(now, c) else {
            return None;
        };
        now = after;
    }
    Some(now)
}

fn take_piece<'a>(expected: Expected<'a>, text: &str) -> Option<Expected<'a>>
    ensures { Takes expected.entry (chars text.now) result }
{
    if is_solid_text(text) {
        return take_solid(expected, text);
    }
    take_chars(expected, text)
}

/// Takes the text between spaces in one piece.
fn take_spaced<'a>(expected: Expected<'a>, text: &str) -> Option<Expected<'a>>
    ensures { Takes expected.entry (chars text.now) result }
{
    let mut now = expected;
    let mut left = text;
    while let Some((piece, more)) = left.split_once(' ') {
        let Some(after) = take_piece(now, piece) else {
            return None;
        };
        let Some(spaced) = take_char(after, ' ') else {
            return None;
        };
        now = spaced;
        left = more;
    }
    take_piece(now, left)
}

fn take_text<'a>(expected: Expected<'a>, text: &str) -> Option<Expected<'a>>
    ensures { Takes expected.entry (chars text.now) result }
{
    if is_solid_text(text) {
        return take_solid(expected, text);
    }
    take_spaced(expected, text)
}

fn take_row<'a, T: Text>(expected: Expected<'a>, row: &RowOf<T>) -> Option<Expected<'a>>
    ensures { Takes expected.entry (form_and_space row.now) result }
{
    let Some(after) = take_text(expected, row.form.text()) else {
        return None;
    };
    if has_no_space(row) {
        Some(after)
    } else {
        take_char(after, ' ')
    }
}

fn take_token<'a, T: Text>(
    expected: Expected<'a>,
    row: &RowOf<T>,
    rows: &[RowOf<T>],
    lead: bool,
    end: u32,
) -> Option<Expected<'a>>
    requires { lead ≡ true → is_token_id rows.now row.now.id ≡ is_token_after end row.now.id }
    ensures { Takes expected.entry (token_text rows.now row.now) result }
{
    if comes_out(row.id, rows, lead, end) {
        take_row(expected, row)
    } else {
        Some(expected)
    }
}

fn take_rows<'a, T: Text>(
    expected: Expected<'a>,
    rows: &[RowOf<T>],
    lead: bool,
) -> Option<Expected<'a>>
    requires { lead ≡ true → RangesLead rows.now }
    ensures { Takes expected.entry (text_of_rows rows.now) result }
{
    let mut now = expected;
    let mut end: u32 = 0;
    for row in rows {
        let Some(after) = take_token(now, row, rows, lead, end) else {
            return None;
        };
        now = after;
        end = end.max(end_of(row.id));
    }
    Some(now)
}

/// Whether the text of the rows is this one.
pub(crate) fn spell<T: Text>(rows: &[RowOf<T>], text: &str) -> bool
    ensures { IsTrue result ↔ (encode_utf8_all (folded (text_of_rows rows.now)) ≡ text.now) }
{
    match take_rows(from_start(text), rows, ranges_lead(rows)) {
        None => false,
        Some(now) => now.rest.is_empty(),
    }
}
