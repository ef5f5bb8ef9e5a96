ghost use Rattle.std.specs.Prelude.{◌≡◌, MatchOption, max};
ghost use Rattle.tb_rules.specs.Rows.{EachRowPasses, IsFirstFault};
ghost use Rattle.tb_rules.specs.Spans.{is_bare, span_test};
ghost use Rattle.tb_rules.specs.Leading.{end_of_id, is_fine_past};

use tb_conllu::{LineId, RowOf, Text, is_word_row};
use tb_fields::is_blank_field;

fn is_bare_row<T: Text>(row: &RowOf<T>) -> bool
    ensures { result ≡ is_bare row.now }
{
    is_blank_field(row.lemma.text())
        && is_blank_field(row.upos.text())
        && is_blank_field(row.xpos.text())
        && row.head.is_none()
        && is_blank_field(row.deprel.text())
        && is_blank_field(row.deps.text())
}

/// The last word of a range; 0 for another row.
pub(crate) fn end_of(id: LineId) -> u32
    ensures { result ≡ end_of_id id }
{
    match id {
        LineId::Span(_, last) => last,
        LineId::Word(_) | LineId::Empty(..) => 0,
    }
}

fn is_fine<T: Text>(row: &RowOf<T>, words: usize, before: usize, end: u32) -> bool
    ensures { result ≡ is_fine_past words before end row.now.id row.now }
{
    match row.id {
        LineId::Span(first, last) => first > 0
            && first as usize - 1 == before
            && first <= last
            && last as usize <= words
            && end < first
            && is_bare_row(row),
        LineId::Word(_) | LineId::Empty(..) => true,
    }
}

/// The first range at fault, by the number of its row (from 1), in a sentence of `words` words.
pub(crate) fn span_fault<T: Text>(rows: &[RowOf<T>], words: usize) -> Option<usize>
    ensures { MatchOption result (EachRowPasses (span_test words) rows.now) (IsFirstFault (span_test words) rows.now) }
{
    let mut before: usize = 0;
    let mut end: u32 = 0;
    for (i, row) in rows.iter().enumerate() {
        if !is_fine(row, words, before, end) {
            return Some(i + 1);
        }
        if is_word_row(row) {
            before += 1;
        }
        end = end.max(end_of(row.id));
    }
    None
}
