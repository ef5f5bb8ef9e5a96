//! Whether the rows of one sentence agree with what its revisions hold.

ghost use Rattle.std.specs.Prelude.{◌≡◌, ◌+◌, ◌-◌, ◌&&◌, length, map, nat_eq, bytes_eq, slice_get, string_bytes};
ghost use Rattle.tb_verify.specs.Prelude.{list_all, revision_of, sent_id_of, sentence_of, text_value_of, words_of};
ghost use Rattle.tb_verify.specs.Course.{is_numbered, are_numbered, are_new, is_titled, is_spelled, ends_as};
ghost use Rattle.tb_verify.specs.Course.{is_reported, is_course, text_in};

use tb_conllu::{BlockRef, words};
use tb_rules::{sent_id, text};
use tb_tables::{RevisionRow, SentenceRow};

fn name_of<'b>(block: &'b BlockRef<'_>) -> &'b str
    ensures { result.now ≡ sent_id_of block.now }
{
    sent_id(block).unwrap_or("")
}

fn value_of<'b>(block: &'b BlockRef<'_>) -> &'b str
    ensures { result.now ≡ text_value_of block.now }
{
    text(block).unwrap_or("")
}

fn is_named(name: &str, block: &BlockRef<'_>) -> bool
    ensures { result ≡ is_titled name.now block.now }
{
    *name_of(block) == *name
}

fn is_valued(value: &str, block: &BlockRef<'_>) -> bool
    ensures { result ≡ is_spelled value.now block.now }
{
    *value_of(block) == *value
}

fn are_named(name: &str, blocks: &[BlockRef<'_>]) -> bool
    ensures { result ≡ list_all (is_titled name.now) blocks.now }
{
    blocks.iter().all(|block| is_named(name, block))
}

fn are_valued(value: &str, blocks: &[BlockRef<'_>]) -> bool
    ensures { result ≡ list_all (is_spelled value.now) blocks.now }
{
    blocks.iter().all(|block| is_valued(value, block))
}

fn has_words(block: &BlockRef<'_>, count: u32) -> bool
    ensures { result ≡ nat_eq (words_of block.now) count }
{
    words(block) as u64 == count as u64
}

fn is_end(last: &BlockRef<'_>, count: u32, blocks: &[BlockRef<'_>]) -> bool
    ensures { result ≡ (nat_eq (words_of last.now) count && list_all
        (is_spelled (text_value_of last.now)) blocks.now) }
{
    has_words(last, count) && are_valued(value_of(last), blocks)
}

fn end_right(count: u32, blocks: &[BlockRef<'_>]) -> bool
    ensures { result ≡ ends_as count blocks.now (slice_get blocks.now (length blocks.now - 1)) }
{
    match blocks.last() {
        None => false,
        Some(last) => is_end(last, count, blocks),
    }
}

fn is_row_right(row: &SentenceRow, blocks: &[BlockRef<'_>]) -> bool
    ensures { result ≡ is_reported (sentence_of row.now) blocks.now }
{
    are_named(row.sent_id.as_str(), blocks)
        && blocks.len() as u64 == row.rev as u64
        && end_right(row.words, blocks)
}

fn is_number_right(number: u64, rev: u64, row: &RevisionRow) -> bool
    ensures { result ≡ is_numbered number rev (revision_of row.now) }
{
    row.sent as u64 == number && row.rev as u64 == rev
}

fn are_numbers_right(number: u64, rows: &[RevisionRow]) -> bool
    ensures { result ≡ are_numbered number 1 (map revision_of rows.now) }
{
    for i in 0..rows.len() {
        if !is_number_right(number, i as u64 + 1, &rows[i]) {
            return false;
        }
    }
    true
}

fn is_same_body(one: &RevisionRow, other: &RevisionRow) -> bool
    ensures { result ≡ bytes_eq (string_bytes one.now.body) (string_bytes other.now.body) }
{
    *one.body.as_str() == *other.body.as_str()
}

fn are_all_new(rows: &[RevisionRow]) -> bool
    ensures { result ≡ are_new (map text_in (map revision_of rows.now)) }
{
    for i in 1..rows.len() {
        if is_same_body(&rows[i - 1], &rows[i]) {
            return false;
        }
    }
    true
}

/// Whether the row of a sentence, and the rows of its revisions, agree with these sentences.
pub(crate) fn is_course_right(
    number: u64,
    row: &SentenceRow,
    rows: &[RevisionRow],
    blocks: &[BlockRef<'_>],
) -> bool
    ensures { result ≡ is_course number (sentence_of row.now) (map revision_of rows.now) blocks.now }
{
    are_numbers_right(number, rows) && are_all_new(rows) && is_row_right(row, blocks)
}
