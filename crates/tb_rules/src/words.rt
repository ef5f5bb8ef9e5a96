ghost use Rattle.std.specs.Prelude.{◌≡◌, MatchOption, bytes_eq, codes};
ghost use Rattle.tb_fields.specs.Relations.{universal_part};
ghost use Rattle.tb_rules.specs.Rows.{EachRowPasses, IsFirstFault};
ghost use Rattle.tb_rules.specs.Words.{is_head_of, is_root_head, fits_root, is_word_row_fine, is_fine_as_word};
ghost use Rattle.tb_rules.specs.Words.{word_test};

use crate::accepted::Accepted;
use std::alloc::Global;
use tb_conllu::{LineId, RowOf, Text};
use tb_fields::relation_base;

fn is_root_number(head: Option<u32>) -> bool
    ensures { result ≡ is_root_head head }
{
    match head {
        None => false,
        Some(number) => number == 0,
    }
}

fn head_is_fine(head: Option<u32>, word: u32, words: usize) -> bool
    ensures { result ≡ is_head_of words word head }
{
    match head {
        None => false,
        Some(number) => number as usize <= words && number != word,
    }
}

/// Whether the relation is `root`, alone or with a subtype. Most relations differ in their first byte.
fn is_root_relation(relation: &str) -> bool
    ensures { result ≡ bytes_eq (universal_part relation.now) (codes "root") }
{
    let bytes = relation.as_bytes();
    if bytes.is_empty() || bytes[0] != b'r' {
        return false;
    }
    relation_base(relation) == "root"
}

fn root_fits(head: Option<u32>, relation: &str) -> bool
    ensures { result ≡ fits_root head relation.now }
{
    let is_root = is_root_relation(relation);
    if is_root_number(head) {
        is_root
    } else {
        !is_root
    }
}

fn word_row_is_fine<T: Text>(
    alloc: Global,
    accepted: &mut Accepted,
    row: &RowOf<T>,
    word: u32,
    words: usize,
) -> bool
    ensures { result ≡ is_word_row_fine words word row.now }
{
    let relation = row.deprel.text();
    if !accepted.accept_word(alloc, row.upos.text(), relation) {
        return false;
    }
    head_is_fine(row.head, word, words) && root_fits(row.head, relation)
}

fn is_fine<T: Text>(alloc: Global, accepted: &mut Accepted, row: &RowOf<T>, words: usize) -> bool
    ensures { result ≡ is_fine_as_word words row.now.id row.now }
{
    match row.id {
        LineId::Word(word) => word_row_is_fine(alloc, accepted, row, word, words),
        LineId::Span(..) | LineId::Empty(..) => true,
    }
}

/// The first word at fault, by the number of its row (from 1), in a sentence of `words` words.
pub(crate) fn word_fault<T: Text>(
    alloc: Global,
    accepted: &mut Accepted,
    rows: &[RowOf<T>],
    words: usize,
) -> Option<usize>
    ensures { MatchOption result (EachRowPasses (word_test words) rows.now) (IsFirstFault (word_test words) rows.now) }
{
    for (i, row) in rows.iter().enumerate() {
        if !is_fine(alloc, accepted, row, words) {
            return Some(i + 1);
        }
    }
    None
}
