//! Where a sentence breaks a rule, and by what.

ghost use Rattle.std.specs.Prelude.{◌≡◌, ◌≢◌, ◌⊎◌, ◌≤◌, ◌<◌, ◌+◌, ◌-◌, ◌^◌, ◌↔◌, count_by, IfNone, IfSome};
ghost use Rattle.std.specs.Prelude.{IsSomeAnd, IsTrue};
ghost use Rattle.std.specs.Prelude.{length, map, MatchOption, option_copied, position, slice_index_or, Some, take};
ghost use Rattle.std.specs.List.{slice_get};
ghost use Rattle.std.specs.String.{string_bytes};
ghost use Rattle.tb_conllu.specs.declared.id.LineId.TheVariants.{Word};
ghost use Rattle.tb_conllu.specs.Text.{fields_of};
ghost use Rattle.tb_conllu.specs.Words.{is_word, words_of};
ghost use Rattle.tb_rules.specs.Comments.{text_key, trimmed, value_under};
ghost use Rattle.tb_rules.specs.Tree.{is_root as is_root_row};
ghost use Rattle.tb_words.specs.Circles.{SaysCircle, SaysCircleOf, circle_shown};
ghost use Rattle.tb_words.specs.Columns.{value_bytes};
ghost use Rattle.tb_words.specs.FeatureFaults.{SaysFeature};
ghost use Rattle.tb_words.specs.Keyed.{IsAtName, IsKeyed, IsMisplaced, IsMisplacedRow, SaysKey, SaysOrder, SaysSentId, SaysTaken};
ghost use Rattle.tb_words.specs.Keyed.{next_id, order_sentence};
ghost use Rattle.tb_words.specs.PairFaults.{SaysDeps};
ghost use Rattle.tb_words.specs.RowFaults.{SaysHead, SaysHeaded, SaysNode, SaysRange, SaysRangePlace};
ghost use Rattle.tb_words.specs.RowFaults.{SaysPairOf, SaysRelation, SaysRoots, SaysRow, SaysRowAt, SaysWord, SaysWords};
ghost use Rattle.tb_words.specs.RowFaults.{IsRangePlaced, SaysName, range_last, reaches, root_after, word_number};
ghost use Rattle.tb_words.specs.FileSentences.{line_of_word};
ghost use Rattle.tb_words.specs.Spelled.{SaysDifference};
ghost use Rattle.tb_words.specs.declared.findings.Detail.TheVariants.{Instead};
ghost use Rattle.tb_words.specs.declared.sentences.TheConstants.{CIRCLE, TEXT_MISSING, TEXT_TWICE};

use crate::circles::{circle_text, heads_of, on_circle};
use crate::columns::{DEPREL, DEPS, FEATS, HEAD, ID, UPOS, filled, value_in};
use crate::features::feature_fault;
use crate::findings::{Detail, Finding, Value};
use crate::pairs::pair_fault;
use crate::places::Placed;
use crate::sentences as reported;
use crate::spelling::difference;
use std::alloc::Global;
use tb_conllu::{BlockRef, LineId, RowRef, is_word_row, words};
use tb_fields::{is_relation_text, is_tag};

/// The text without the spaces (U+0020) at both ends.
fn without_spaces(text: &str) -> &str
    ensures { result.now ≡ trimmed text.now }
{
    text.trim_start_matches(' ').trim_end_matches(' ')
}

/// The value of a comment, if it has this key.
fn value_under<'a>(comment: &'a str, key: &str) -> Option<&'a str>
    ensures { option_copied result ≡ value_under key.now comment.now }
{
    let Some(rest) = comment.strip_prefix('#') else {
        return None;
    };
    let Some((name, value)) = rest.split_once('=') else {
        return None;
    };
    if without_spaces(name) == key {
        Some(without_spaces(value))
    } else {
        None
    }
}

/// A comment with a key: how many comments precede it, and its value.
#[derive(Clone, Copy)]
pub(crate) struct Comment<'a> {
    pub(crate) at: usize,
    pub(crate) value: &'a str,
}

/// The first of some comments that has this key, after the first `before` ones.
fn keyed_in<'a>(comments: &[&'a str], key: &str, before: usize) -> Option<Comment<'a>>
    ensures { IsKeyed key.now (map (λ c. c.now) comments.now) before result }
{
    for (at, comment) in comments.iter().enumerate() {
        if at < before {
            continue;
        }
        if let Some(value) = value_under(comment, key) {
            return Some(Comment { at, value });
        }
    }
    None
}

/// The first comment with this key, after the first `before` comments.
pub(crate) fn keyed<'a>(block: &BlockRef<'a>, key: &str, before: usize) -> Option<Comment<'a>>
    ensures { IsKeyed key.now block.now.comments before result }
{
    keyed_in(&block.comments, key, before)
}

/// What is wrong where two comments have one key, or none has it.
fn key_fault<'a>(
    placed: &Placed<'a>,
    key: &str,
    none: &'static str,
    two: &'static str,
) -> Option<Finding<'a>>
    ensures { IfSome result (SaysKey placed.now key.now none.now two.now) }
{
    let Some(first) = keyed(&placed.block, key, 0) else {
        return Some(Finding::on(placed.comment_line(0), none));
    };
    let second = keyed(&placed.block, key, first.at.saturating_add(1))?;
    let line = placed.comment_line(first.at);
    let again = placed.comment_line(second.at);
    Some(Finding::on(line, two).and(Detail::Again(again)))
}

/// What is wrong with the only name of a sentence.
fn name_fault<'a>(placed: &Placed<'a>) -> Option<Finding<'a>>
    ensures said { IfSome result (λ f. IsSomeAnd f.value (λ v. SaysName (value_bytes v) f.sentence.now)) }
    ensures name { IfSome result (IsAtName placed.now) }
{
    let name = keyed(&placed.block, "sent_id", 0)?;
    let line = placed.comment_line(name.at);
    let sentence = if name.value.is_empty() {
        reported::SENT_ID_EMPTY
    } else {
        reported::SENT_ID_SPACE
    };
    Some(Finding::on(line, sentence).with(Value::Text(name.value)))
}

fn sent_id_fault<'a>(placed: &Placed<'a>) -> Option<Finding<'a>>
    ensures { IfSome result (SaysSentId placed.now) }
{
    let found = key_fault(
        placed,
        "sent_id",
        reported::SENT_ID_MISSING,
        reported::SENT_ID_TWICE,
    );
    match found {
        Some(fault) => Some(fault),
        None => name_fault(placed),
    }
}

/// What is wrong with a row in the place of another.
fn out_of_order<'a>(
    line: usize,
    found: LineId,
    wanted: LineId,
    sentence: &'static str,
) -> Option<Finding<'a>>
    ensures { IsSomeAnd result (λ f. (f.line ≡ line) × (f.id ≡ Some found) × (f.detail ≡ Instead wanted)
        × (f.sentence.now ≡ sentence.now)) }
{
    Some(
        Finding::on(line, sentence)
            .of(found)
            .and(Detail::Instead(wanted)),
    )
}

/// The ID in the place of one, after so many words, and so many empty nodes since the last of them.
fn next_id(id: LineId, words: u32, nodes: u32) -> LineId
    ensures { result ≡ next_id words nodes id }
{
    match id {
        LineId::Word(_) => LineId::Word(words.saturating_add(1)),
        LineId::Span(..) => id,
        LineId::Empty(..) => LineId::Empty(words, nodes.saturating_add(1)),
    }
}

fn is_same_id(one: LineId, other: LineId) -> bool
    ensures { IsTrue result ↔ one ≡ other }
{
    one == other
}

/// The place of the first row that is not in its place, and the ID that has to stand there.
fn misplaced(rows: &[RowRef<'_>]) -> Option<(usize, LineId)>
    ensures { length rows.now + 1 < 2 ^ 32 → IfSome result (IsMisplaced rows.now) }
{
    let mut words: u32 = 0;
    let mut nodes: u32 = 0;
    for (at, row) in rows.iter().enumerate() {
        let wanted = next_id(row.id, words, nodes);
        if !is_same_id(row.id, wanted) {
            return Some((at, wanted));
        }
        match wanted {
            LineId::Word(word) => {
                words = word;
                nodes = 0;
            }
            LineId::Span(..) => {}
            LineId::Empty(_, node) => nodes = node,
        }
    }
    None
}

/// What is said of an ID that is not in its place.
fn order_sentence(id: LineId) -> &'static str
    ensures { result.now ≡ order_sentence id }
{
    match id {
        LineId::Word(_) => reported::WORD_ORDER,
        LineId::Span(..) | LineId::Empty(..) => reported::NODE_ORDER,
    }
}

/// The same of a sentence.
fn misplaced_in(block: &BlockRef<'_>) -> Option<(usize, LineId)>
    ensures { length block.now.rows + 1 < 2 ^ 32 → IfSome result (IsMisplaced block.now.rows) }
{
    misplaced(block.rows.as_slice())
}

/// What is wrong with the row at this place, in the place of another.
fn misplaced_row<'a>(placed: &Placed<'a>, at: usize, wanted: LineId) -> Option<Finding<'a>>
    ensures { IfSome result (IsMisplacedRow placed.now at wanted) }
{
    let found = row_at(&placed.block, at)?.id;
    out_of_order(placed.row_line(at), found, wanted, order_sentence(found))
}

fn order_fault<'a>(placed: &Placed<'a>) -> Option<Finding<'a>>
    ensures { length placed.now.block.rows + 1 < 2 ^ 32 → IfSome result (SaysOrder placed.now) }
{
    let (at, wanted) = misplaced_in(&placed.block)?;
    misplaced_row(placed, at, wanted)
}

/// What is wrong with the number of the words of a sentence.
fn count_fault<'a>(placed: &Placed<'a>) -> Finding<'a>
    ensures { SaysWords placed.now (words_of placed.now.block) result }
{
    let count = words(&placed.block);
    let sentence = if count == 0 {
        reported::NO_WORDS
    } else {
        reported::TOO_MANY_WORDS
    };
    Finding::on(placed.comment_line(0), sentence).and(Detail::Words(count))
}

fn numbering_fault<'a>(placed: &Placed<'a>) -> Option<Finding<'a>>
    ensures { length placed.now.block.rows + 1 < 2 ^ 32
        → IfSome result (λ f. SaysOrder placed.now f ⊎ SaysWords placed.now (words_of placed.now.block) f) }
{
    match order_fault(placed) {
        Some(fault) => Some(fault),
        None => Some(count_fault(placed)),
    }
}

fn head_fault(head: u32, word: u32, count: usize) -> Option<&'static str>
    ensures some { IfSome result (λ said. SaysHead head word count said.now) }
    ensures none { IfNone result ((head ≤ count) × (head ≢ word)) }
{
    if head as usize > count {
        return Some(reported::HEAD_BEYOND);
    }
    if head == word {
        return Some(reported::HEAD_SELF);
    }
    None
}

fn relation_fault(relation: &str, head: u32) -> &'static str
    ensures { SaysRelation relation.now head result.now }
{
    if !is_relation_text(relation) {
        reported::DEPREL_UNKNOWN
    } else if head == 0 {
        reported::HEAD_0_NOT_ROOT
    } else {
        reported::ROOT_WITH_HEAD
    }
}

/// The number of a word; 0 for other rows.
fn number_of(id: LineId) -> u32
    ensures { result ≡ word_number id }
{
    match id {
        LineId::Word(word) => word,
        LineId::Span(..) | LineId::Empty(..) => 0,
    }
}

/// What is wrong with a word that has this head.
fn headed_fault(row: &RowRef<'_>, head: u32, count: usize) -> (usize, &'static str)
    ensures { SaysHeaded row.now count head result.0 result.1.now }
{
    match head_fault(head, number_of(row.id), count) {
        Some(sentence) => (HEAD, sentence),
        None => (DEPREL, relation_fault(row.deprel, head)),
    }
}

fn word_fault(row: &RowRef<'_>, count: usize) -> (usize, &'static str)
    ensures { SaysWord row.now count result.0 result.1.now }
{
    if !is_tag(row.upos) {
        return (UPOS, reported::UPOS_UNKNOWN);
    }
    match row.head {
        Some(head) => headed_fault(row, head, count),
        None => (HEAD, reported::HEAD_MISSING),
    }
}

/// The last word of a range; 0 for other rows.
fn range_end(row: &RowRef<'_>) -> u32
    ensures { result ≡ range_last row.now.id }
{
    match row.id {
        LineId::Span(_, last) => last,
        LineId::Word(_) | LineId::Empty(..) => 0,
    }
}

/// Whether one of the rows is a range that ends at this word or after it.
fn reach(rows: &[RowRef<'_>], word: u32) -> bool
    ensures { result ≡ reaches rows.now word }
{
    rows.iter().any(|row| word <= range_end(row))
}

fn count_words(rows: &[RowRef<'_>]) -> usize
    ensures { result ≡ count_by is_word rows.now }
{
    rows.iter().filter(|row| is_word_row(*row)).count()
}

/// What is wrong with the place of a range after these rows, if anything is.
fn range_place_fault(
    before: &[RowRef<'_>],
    first: u32,
    last: u32,
    count: usize,
) -> Option<&'static str>
    ensures { MatchOption result (IsRangePlaced before.now first last count) (λ said.
        SaysRangePlace before.now first last count said.now) }
{
    if last < first {
        Some(reported::RANGE_BACKWARD)
    } else if last as usize > count {
        Some(reported::RANGE_BEYOND)
    } else if reach(before, first) {
        Some(reported::RANGE_OVERLAP)
    } else if first as usize != count_words(before).saturating_add(1) {
        Some(reported::RANGE_PLACE)
    } else {
        None
    }
}

fn range_fault(before: &[RowRef<'_>], row: &RowRef<'_>, count: usize) -> (usize, &'static str)
    ensures { SaysRange before.now row.now count result.0 result.1.now }
{
    let LineId::Span(first, last) = row.id else {
        return (ID, reported::RANGE_PLACE);
    };
    match range_place_fault(before, first, last, count) {
        Some(sentence) => (ID, sentence),
        None => (filled(row), reported::RANGE_FIELD),
    }
}

fn node_fault(row: &RowRef<'_>) -> (usize, &'static str)
    ensures { SaysNode row.now result.0 result.1.now }
{
    if row.head.is_some() {
        (HEAD, reported::NODE_TREE)
    } else if row.deprel != "_" {
        (DEPREL, reported::NODE_TREE)
    } else {
        (UPOS, reported::NODE_UPOS)
    }
}

/// What is wrong with a row by one of rules 4 to 6: the column, and the sentence.
fn column_fault(
    block: &BlockRef<'_>,
    rule: u8,
    before: &[RowRef<'_>],
    row: &RowRef<'_>,
) -> (usize, &'static str)
    ensures word { rule ≡ 4 → SaysWord row.now (words_of block.now) result.0 result.1.now }
    ensures range { rule ≡ 5 → SaysRange before.now row.now (words_of block.now) result.0 result.1.now }
    ensures node { rule ≡ 6 → SaysNode row.now result.0 result.1.now }
{
    match rule {
        4 => word_fault(row, words(block)),
        5 => range_fault(before, row, words(block)),
        _ => node_fault(row),
    }
}

/// What is wrong with a row after others by one of rules 4 to 8: the column, what is in it, and the sentence.
fn row_fault<'a>(
    alloc: Global,
    block: &BlockRef<'a>,
    rule: u8,
    before: &[RowRef<'a>],
    row: &RowRef<'a>,
) -> Option<(usize, Value<'a>, &'static str)>
    ensures word { rule ≡ 4 → IfSome result (λ f. SaysWord row.now (words_of block.now) f.0 f.2.now) }
    ensures range { rule ≡ 5 → IfSome result (λ f. SaysRange before.now row.now (words_of block.now) f.0 f.2.now) }
    ensures node { rule ≡ 6 → IfSome result (λ f. SaysNode row.now f.0 f.2.now) }
    ensures features { rule ≡ 7 → IfSome result (λ f. (f.0 ≡ 5)
        × SaysFeature row.now.feats (value_bytes f.1) f.2.now) }
    ensures pairs { rule ≡ 8 → IfSome result (λ f. (f.0 ≡ 8)
        × SaysDeps block.now.rows row.now.deps (value_bytes f.1) f.2.now) }
    ensures value { rule ≤ 6 → IfSome result (λ f.
        value_bytes f.1 ≡ slice_index_or (fields_of row.now) f.0 row.now.misc) }
{
    match rule {
        7 => {
            let (feature, sentence) = feature_fault(alloc, row.feats);
            Some((FEATS, Value::Text(feature), sentence))
        }
        8 => {
            let (pair, sentence) = pair_fault(alloc, block.rows.as_slice(), row.deps)?;
            Some((DEPS, Value::Text(pair), sentence))
        }
        _ => {
            let (column, sentence) = column_fault(block, rule, before, row);
            Some((column, value_in(row, column), sentence))
        }
    }
}

/// The row at this place, counted from 0.
fn row_at<'b, 'a>(block: &'b BlockRef<'a>, at: usize) -> Option<&'b RowRef<'a>>
    ensures { option_copied result ≡ slice_get block.now.rows at }
{
    block.rows.get(at)
}

/// What is wrong with a row after others by one of rules 4 to 8, as it is told on this line.
fn row_finding<'a>(
    alloc: Global,
    placed: &Placed<'a>,
    rule: u8,
    line: usize,
    before: &[RowRef<'a>],
    row: &RowRef<'a>,
) -> Option<Finding<'a>>
    ensures place { IfSome result (λ f. (f.line ≡ line) × (f.id ≡ Some row.now.id)) }
    ensures said { IfSome result (SaysRow placed.now.block rule before.now row.now) }
{
    let (column, value, sentence) = row_fault(alloc, &placed.block, rule, before, row)?;
    Some(
        Finding::on(line, sentence)
            .of(row.id)
            .in_column(column)
            .with(value),
    )
}

/// The rows before a place.
fn rows_before<'b, 'a>(rows: &'b [RowRef<'a>], at: usize) -> Option<&'b [RowRef<'a>]>
    ensures { IfSome result (λ before. before.now ≡ take at rows.now) }
{
    rows.get(..at)
}

fn in_row<'a>(alloc: Global, placed: &Placed<'a>, rule: u8, at: usize) -> Option<Finding<'a>>
    ensures { IfSome result (SaysRowAt placed.now rule at) }
{
    let row = row_at(&placed.block, at)?;
    let before = rows_before(placed.block.rows.as_slice(), at)?;
    row_finding(alloc, placed, rule, placed.row_line(at), before, row)
}

fn is_root(row: &RowRef<'_>) -> bool
    ensures { result ≡ is_root_row row.now }
{
    is_word_row(row) && matches!(row.head, Some(0))
}

/// The place of the first word with HEAD 0.
fn first_root(rows: &[RowRef<'_>]) -> Option<usize>
    ensures first { result ≡ position is_root_row rows.now }
    ensures within { IfSome result (λ at. at < length rows.now) }
{
    rows.iter().position(|row| is_root(row))
}

/// What is wrong with two words that have HEAD 0, at these places.
fn two_roots<'a>(placed: &Placed<'a>, first: usize, second: usize) -> Option<Finding<'a>>
    ensures { IfSome result (SaysPairOf placed.now first second) }
{
    let one = row_at(&placed.block, first)?.id;
    let other = row_at(&placed.block, second)?.id;
    Some(
        Finding::on(placed.row_line(first), reported::TWO_ROOTS)
            .of(one)
            .and(Detail::And(placed.row_line(second), other)),
    )
}

/// The place of the second word with HEAD 0, where the first is at this place.
fn second_root(rows: &[RowRef<'_>], first: usize) -> Option<usize>
    ensures { IfSome result (λ second. root_after rows.now first ≡ Some second) }
{
    let from = first.saturating_add(1);
    let after = first_root(rows.get(from..)?)?;
    Some(from.saturating_add(after))
}

fn root_fault<'a>(placed: &Placed<'a>) -> Option<Finding<'a>>
    ensures { IfSome result (SaysRoots placed.now) }
{
    let rows = placed.block.rows.as_slice();
    match first_root(rows) {
        Some(first) => two_roots(placed, first, second_root(rows, first)?),
        None => Some(Finding::on(placed.comment_line(0), reported::NO_ROOT)),
    }
}

/// A word on a circle, and the circle.
fn circle_finding<'a>(placed: &Placed<'a>, word: u32, circle: String) -> Finding<'a>
    ensures said { (result.sentence.now ≡ CIRCLE.now) × (result.id ≡ Some (Word word)) }
    ensures line { result.line ≡ line_of_word placed.now word }
    ensures circle { circle_shown result.detail ≡ Some (string_bytes circle) }
{
    Finding::on(placed.word_line(word), reported::CIRCLE)
        .of(LineId::Word(word))
        .and(Detail::Circle(circle))
}

/// A word from which as many steps as there are words do not lead to 0.
fn circle_with<'a>(alloc: Global, placed: &Placed<'a>, heads: &[u32]) -> Option<Finding<'a>>
    ensures { IfSome result (SaysCircleOf heads.now placed.now) }
{
    let word = on_circle(heads)?;
    let Ok(circle) = circle_text(alloc, heads, word) else {
        return None;
    };
    Some(circle_finding(placed, word, circle))
}

fn circle_fault<'a>(alloc: Global, placed: &Placed<'a>) -> Option<Finding<'a>>
    ensures { IfSome result (SaysCircle placed.now) }
{
    let Ok(heads) = heads_of(alloc, placed.block.rows.as_slice()) else {
        return None;
    };
    circle_with(alloc, placed, heads.as_slice())
}

/// What is wrong with a sentence that has the name of an earlier one: its number, and its first line.
pub(crate) fn name_taken<'a>(placed: &Placed<'a>, earlier: u64, first: usize) -> Option<Finding<'a>>
    ensures { IfSome result (SaysTaken placed.now earlier first) }
{
    let name = keyed(&placed.block, "sent_id", 0)?;
    Some(
        Finding::on(placed.comment_line(name.at), reported::SENT_ID_AGAIN)
            .with(Value::Text(name.value))
            .and(Detail::Earlier(earlier, first)),
    )
}

/// What is wrong with a sentence by one of rules 1 to 11. The row, counted from 1, is that of rules 4 to 8, else 0.
pub(crate) fn fault_by<'a>(
    alloc: Global,
    placed: &Placed<'a>,
    rule: u8,
    row: usize,
) -> Option<Finding<'a>>
    ensures sent_id { rule ≡ 1 → IfSome result (SaysSentId placed.now) }
    ensures text { rule ≡ 2 → IfSome result (SaysKey placed.now text_key TEXT_MISSING.now TEXT_TWICE.now) }
    ensures order { rule ≡ 3 → length placed.now.block.rows + 1 < 2 ^ 32
        → IfSome result (λ f. SaysOrder placed.now f ⊎ SaysWords placed.now (words_of placed.now.block) f) }
    ensures rows { 4 ≤ rule → rule ≤ 8 → 1 ≤ row → IfSome result (SaysRowAt placed.now rule (row - 1)) }
    ensures roots { rule ≡ 9 → IfSome result (SaysRoots placed.now) }
    ensures circle { rule ≡ 10 → IfSome result (SaysCircle placed.now) }
    ensures spelling { rule ≡ 11 → IfSome result (SaysDifference placed.now) }
{
    match rule {
        1 => sent_id_fault(placed),
        2 => key_fault(placed, "text", reported::TEXT_MISSING, reported::TEXT_TWICE),
        3 => numbering_fault(placed),
        4..=8 => in_row(alloc, placed, rule, row.checked_sub(1)?),
        9 => root_fault(placed),
        10 => circle_fault(alloc, placed),
        11 => difference(alloc, placed),
        _ => None,
    }
}
