//! The tokens of the text: ranges, and words in no range.

ghost use Rattle.std.specs.Prelude.{◌≡◌, max, true};
ghost use Rattle.tb_rules.specs.Restored.{covers, is_covered, is_token_id};
ghost use Rattle.tb_rules.specs.Leading.{RangesLead, is_token_after, number_of_id, start_of_id, ascends};

use tb_conllu::{LineId, RowOf, Text};

fn is_over(id: LineId, word: u32) -> bool
    ensures { result ≡ covers word id }
{
    match id {
        LineId::Span(first, last) => first <= word && word <= last,
        LineId::Word(_) | LineId::Empty(..) => false,
    }
}

fn is_in_range<T: Text>(rows: &[RowOf<T>], word: u32) -> bool
    ensures { result ≡ is_covered rows.now word }
{
    rows.iter().any(|row| is_over(row.id, word))
}

/// Whether the row is a token, from all rows.
fn is_token<T: Text>(id: LineId, rows: &[RowOf<T>]) -> bool
    ensures { result ≡ is_token_id rows.now id }
{
    match id {
        LineId::Word(word) => !is_in_range(rows, word),
        LineId::Span(..) => true,
        LineId::Empty(..) => false,
    }
}

/// Whether the row is a token, from the greatest end of the ranges before it.
fn is_token_past(id: LineId, end: u32) -> bool
    ensures { result ≡ is_token_after end id }
{
    match id {
        LineId::Word(word) => word > end,
        LineId::Span(..) => true,
        LineId::Empty(..) => false,
    }
}

/// Whether the row is a token. Where ranges lead, the ends before it decide, and no row is looked at twice.
pub(crate) fn comes_out<T: Text>(id: LineId, rows: &[RowOf<T>], lead: bool, end: u32) -> bool
    requires { lead ≡ true → is_token_id rows.now id ≡ is_token_after end id }
    ensures { result ≡ is_token_id rows.now id }
{
    if lead {
        is_token_past(id, end)
    } else {
        is_token(id, rows)
    }
}

fn word_number(id: LineId) -> u32
    ensures { result ≡ number_of_id id }
{
    match id {
        LineId::Word(word) => word,
        LineId::Span(..) | LineId::Empty(..) => 0,
    }
}

fn first_number(id: LineId) -> u32
    ensures { result ≡ start_of_id id }
{
    match id {
        LineId::Span(first, _) => first,
        LineId::Word(_) | LineId::Empty(..) => 0,
    }
}

fn may_follow(id: LineId, word: u32, start: u32) -> bool
    ensures { result ≡ ascends word start id }
{
    match id {
        LineId::Word(number) => number > 0 && start <= number,
        LineId::Span(first, _) => word < first,
        LineId::Empty(..) => true,
    }
}

/// Whether no word comes before a range that starts at or before it, nor after one that starts after it. Then ranges
/// lead.
pub(crate) fn ranges_lead<T: Text>(rows: &[RowOf<T>]) -> bool
    ensures { result ≡ true → RangesLead rows.now }
{
    let mut word: u32 = 0;
    let mut start: u32 = 0;
    for row in rows {
        if !may_follow(row.id, word, start) {
            return false;
        }
        word = word.max(word_number(row.id));
        start = start.max(first_number(row.id));
    }
    true
}
