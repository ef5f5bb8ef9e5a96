//! What is wrong with a line that cannot be read.

ghost use Rattle.std.specs.List.{starts_with};
ghost use Rattle.std.specs.Prelude.{◌≡◌, ◌↔◌, ◌+◌, ◌<◌, ◌^◌, [], ◌∷◌, chars, eqb, IfSome, length, List};
ghost use Rattle.std.specs.Prelude.{MatchOption, ℕ, option_map, position, slice_get, true};
ghost use Rattle.std.specs.Str.{IsUtf8};
ghost use Rattle.std.specs.Str.Iter.{HasSubslice};
ghost use Rattle.std.specs.Str.Lossy.{utf8_valid_len};
ghost use Rattle.tb_conllu.specs.Lines.{field as field_at, fields};
ghost use Rattle.tb_words.specs.LineFaults.{AreWords, begins_sentence, BeginsAsRow, begins_utf16, begins_with_mark};
ghost use Rattle.tb_words.specs.LineFaults.{blank_sentence, comment_text, ending_sentence};
ghost use Rattle.tb_words.specs.LineFaults.{has_last_tab, holds_wrong_space, id_parts, id_sentence, IsFirst};
ghost use Rattle.tb_words.specs.LineFaults.{is_control_code, is_last, IsFirstEmpty, IsFirstUncomposed, number_sentence};
ghost use Rattle.tb_words.specs.LineFaults.{SaysBeginning, SaysColumns, SaysControl, SaysControlAt, SaysCount};
ghost use Rattle.tb_words.specs.LineFaults.{SaysComment, SaysEncoding, SaysForm, SaysMore, SaysReturn, SaysSpace};
ghost use Rattle.tb_words.specs.LineFaults.{SaysTabless, ShowsColumn};
ghost use Rattle.tb_words.specs.declared.sentences.TheConstants.{HEAD_FORM};

use crate::columns::{FORM, HEAD, ID, LEMMA, MISC, field};
use crate::findings::{Detail, Finding, Value};
use crate::places::NumberedLine;
use crate::sentences as reported;
use std::alloc::Global;
use tb_chars::{are_digits, has_white_space};
use unicode_normalization::is_nfc;

/// The first bytes of a file in UTF-16.
const LITTLE_UTF16: &[u8] = b"\xff\xfe";

const BIG_UTF16: &[u8] = b"\xfe\xff";

/// A byte order mark in UTF-8.
const MARK: &[u8] = b"\xef\xbb\xbf";

/// The least number of words in a line whose columns are taken to be separated by spaces, not by tabs.
const FEW_WORDS: usize = 5;

fn is_utf16(number: usize, raw: &[u8]) -> bool
    ensures { result ≡ begins_utf16 number raw.now }
{
    number == 1 && (raw.starts_with(LITTLE_UTF16) || raw.starts_with(BIG_UTF16))
}

/// How many bytes at the front are UTF-8.
fn sound_length(raw: &[u8]) -> usize
    ensures value { result ≡ utf8_valid_len raw.now }
    ensures small { result + 1 < 2 ^ 64 }
{
    match str::from_utf8(raw) {
        Ok(text) => text.len(),
        Err(error) => error.valid_up_to(),
    }
}

fn not_utf8<'a>(number: usize, raw: &[u8]) -> Finding<'a>
    ensures line { result.line ≡ number }
    ensures said { SaysEncoding number raw.now result }
{
    if is_utf16(number, raw) {
        return Finding::on(number, reported::UTF16);
    }
    let sound = sound_length(raw);
    let byte = raw.get(sound).copied().unwrap_or(0);
    Finding::on(number, reported::NOT_UTF8).and(Detail::Byte(sound + 1, byte))
}

/// The first field that is not in normalization form C. Where memory runs out, none is named.
fn uncomposed_field(alloc: Global, line: &str) -> Option<usize>
    ensures { IfSome result (IsFirstUncomposed line.now) }
{
    for (column, value) in line.split('\t').enumerate() {
        let Ok(is_composed) = is_nfc(alloc, value) else {
            return None;
        };
        if !is_composed {
            return Some(column);
        }
    }
    None
}

/// Adds this column of the line, and what is there, if a column is named.
macro_rules! with_field {
    ($found:ident, $line:ident, $column:expr) => {
        match $column {
            Some(column) => $found
                .in_column(column)
                .with(Value::Text(field($line, column))),
            None => $found,
        }
    };
}

fn not_composed<'a>(alloc: Global, number: usize, line: &'a str) -> Finding<'a>
    ensures line { result.line ≡ number }
    ensures said { SaysForm line.now result }
{
    let found = Finding::on(number, reported::NOT_NFC);
    if line.starts_with('#') {
        return found.with(Value::Text(line));
    }
    with_field!(found, line, uncomposed_field(alloc, line))
}

fn is_stray(c: char) -> bool
    ensures { result ≡ is_control_code c }
{
    matches!(c, '\0'..='\u{8}' | '\u{A}'..='\u{1F}')
}

/// How many characters precede the first control character of a line other than tab.
fn stray_at(line: &str) -> Option<usize>
    ensures { result ≡ position is_control_code (chars line.now) }
{
    line.chars().position(|c| is_stray(c))
}

fn character_at(line: &str, at: usize) -> Option<char>
    ensures { result ≡ slice_get (chars line.now) at }
{
    line.chars().nth(at)
}

/// Whether no character follows the one that so many characters precede.
fn is_last(line: &str, before: usize) -> bool
    ensures { before + 1 < 2 ^ 64 → result ≡ is_last (chars line.now) before }
{
    character_at(line, before.saturating_add(1)).is_none()
}

/// What is wrong with a CR, which is the last character of its line or not.
fn carriage_return<'a>(number: usize, place: usize, at_end: bool) -> Finding<'a>
    ensures line { result.line ≡ number }
    ensures said { SaysReturn place at_end result }
{
    if at_end {
        return Finding::on(number, reported::CARRIAGE_RETURN);
    }
    Finding::on(number, reported::CARRIAGE_RETURN_WITHIN).and(Detail::Character(place))
}

/// What is wrong with a control character that so many characters precede.
fn control_at<'a>(number: usize, before: usize, c: char, at_end: bool) -> Finding<'a>
    ensures line { result.line ≡ number }
    ensures said { before + 1 < 2 ^ 64 → SaysControlAt before c at_end result }
{
    let place = before.saturating_add(1);
    match c {
        '\r' => carriage_return(number, place, at_end),
        '\0' => Finding::on(number, reported::NUL).and(Detail::Character(place)),
        _ => Finding::on(number, reported::CONTROL).and(Detail::Control(place, c as u32)),
    }
}

fn control<'a>(number: usize, line: &str) -> Finding<'a>
    ensures line { result.line ≡ number }
    ensures said { length (chars line.now) < 2 ^ 64 → SaysControl line.now result }
{
    let before = stray_at(line).unwrap_or(0);
    let c = character_at(line, before).unwrap_or('\0');
    control_at(number, before, c, is_last(line, before))
}

fn count_fields(line: &str) -> usize
    ensures { result ≡ length (fields line.now) }
{
    line.split('\t').count()
}

/// How many words a line has between white space.
fn count_words(line: &str) -> usize
    ensures { (words : List (List ℕ)) × AreWords line.now words × (result ≡ length words) }
{
    line.split_whitespace().count()
}

/// What is wrong with a line without a tab.
fn without_tab(line: &str) -> &'static str
    ensures { SaysTabless line.now result.now }
{
    if count_words(line) >= FEW_WORDS {
        reported::SPACES_FOR_TABS
    } else {
        reported::NO_TAB
    }
}

/// Whether a line of eleven fields ends with a tab.
fn has_last_tab(line: &str, count: usize) -> bool
    ensures { result ≡ has_last_tab line.now count }
{
    count == 11 && line.ends_with('\t')
}

fn has_double_tab(line: &str) -> bool
    ensures { (result ≡ true) ↔ HasSubslice line.now (9 ∷ 9 ∷ []) }
{
    line.contains("\t\t")
}

/// What is wrong with a line of more than ten fields.
fn with_more(line: &str, count: usize) -> &'static str
    ensures { SaysMore line.now count result.now }
{
    if has_last_tab(line, count) {
        reported::TAB_AT_END
    } else if has_double_tab(line) {
        reported::DOUBLE_TAB
    } else {
        reported::MANY_FIELDS
    }
}

/// The first column of a line that is empty.
fn empty_column(line: &str) -> usize
    ensures { IsFirstEmpty line.now result }
{
    for column in 0..10 {
        if field(line, column).is_empty() {
            return column;
        }
    }
    0
}

fn has_mark(text: &str) -> bool
    ensures { result ≡ begins_with_mark text.now }
{
    text.as_bytes().starts_with(MARK)
}

/// What is wrong with the beginning of a line, if it shows that the line is no word line.
fn begins_wrong(line: &str) -> Option<&'static str>
    ensures { MatchOption result (BeginsAsRow line.now) (λ said. SaysBeginning line.now said.now) }
{
    if has_mark(line) {
        Some(reported::BYTE_ORDER_MARK)
    } else if line.trim().is_empty() {
        Some(reported::WHITE_LINE)
    } else if line.trim_start().starts_with('#') {
        Some(reported::COMMENT_INDENTED)
    } else {
        None
    }
}

/// What is wrong with a line that has so many fields.
fn wrong_count<'a>(number: usize, line: &'a str, count: usize) -> Finding<'a>
    ensures line { result.line ≡ number }
    ensures said { SaysCount line.now count result }
{
    if count == 10 {
        return Finding::on(number, reported::EMPTY_FIELD).in_column(empty_column(line));
    }
    if count == 1 {
        return Finding::on(number, without_tab(line)).with(Value::Text(line));
    }
    if count < 10 {
        return Finding::on(number, reported::FEW_FIELDS).and(Detail::Columns(count));
    }
    Finding::on(number, with_more(line, count)).and(Detail::Columns(count))
}

fn columns<'a>(number: usize, line: &'a str) -> Finding<'a>
    ensures line { result.line ≡ number }
    ensures said { SaysColumns line.now result }
{
    if let Some(sentence) = begins_wrong(line) {
        return Finding::on(number, sentence);
    }
    wrong_count(number, line, count_fields(line))
}

/// What is wrong with one number of an ID, if anything is.
fn number_fault(number: &str) -> Option<&'static str>
    ensures { option_map (λ said. said.now) result ≡ number_sentence number.now }
{
    if number.is_empty() || !are_digits(number.as_bytes()) {
        return None;
    }
    if number.starts_with('0') {
        return Some(reported::ID_ZERO);
    }
    if number.len() > 6 {
        return Some(reported::ID_LONG);
    }
    None
}

/// The numbers of an ID: those round its first hyphen, else those round its first dot.
fn numbers_of(id: &str) -> (&str, &str)
    ensures first { result.0.now ≡ (id_parts id.now).0 }
    ensures second { result.1.now ≡ (id_parts id.now).1 }
{
    if let Some((first, second)) = id.split_once('-') {
        return (first, second);
    }
    match id.split_once('.') {
        Some((first, second)) => (first, second),
        None => (id, ""),
    }
}

fn id_fault(value: &str) -> &'static str
    ensures { result.now ≡ id_sentence value.now }
{
    if has_mark(value) {
        return reported::BYTE_ORDER_MARK;
    }
    let (first, second) = numbers_of(value);
    if let Some(sentence) = number_fault(second) {
        return sentence;
    }
    match number_fault(first) {
        Some(sentence) => sentence,
        None => reported::ID_FORM,
    }
}

fn id<'a>(number: usize, line: &'a str) -> Finding<'a>
    ensures line { result.line ≡ number }
    ensures said { result.sentence.now ≡ id_sentence (field_at 0 line.now) }
    ensures shown { ShowsColumn line.now 0 result }
{
    let value = field(line, ID);
    Finding::on(number, id_fault(value))
        .in_column(ID)
        .with(Value::Text(value))
}

/// Whether a column holds white space, and may hold none.
fn is_wrongly_spaced(line: &str, column: usize) -> bool
    ensures { result ≡ holds_wrong_space line.now column }
{
    !matches!(column, FORM | LEMMA | MISC) && has_white_space(field(line, column))
}

/// The first column of a line of ten that holds white space, and may hold none.
fn spaced_column(line: &str) -> Option<usize>
    ensures { IsFirst (holds_wrong_space line.now) 10 result }
{
    for column in 0..10 {
        if is_wrongly_spaced(line, column) {
            return Some(column);
        }
    }
    None
}

fn space<'a>(number: usize, line: &'a str) -> Finding<'a>
    ensures line { result.line ≡ number }
    ensures said { SaysSpace line.now result }
{
    let found = Finding::on(number, reported::SPACE);
    with_field!(found, line, spaced_column(line))
}

fn head<'a>(number: usize, line: &'a str) -> Finding<'a>
    ensures line { result.line ≡ number }
    ensures said { result.sentence.now ≡ HEAD_FORM.now }
    ensures shown { ShowsColumn line.now 6 result }
{
    Finding::on(number, reported::HEAD_FORM)
        .in_column(HEAD)
        .with(Value::Text(field(line, HEAD)))
}

/// The text of a comment, without its hash and the white space round it.
fn comment_text(comment: &str) -> &str
    ensures { result.now ≡ comment_text comment.now }
{
    comment.strip_prefix('#').unwrap_or(comment).trim()
}

fn begins(text: &str, front: &str) -> bool
    ensures { result ≡ starts_with eqb text.now front.now }
{
    text.starts_with(front)
}

/// Whether a comment is of the kind with which sentences begin.
fn begins_sentence(comment: &str) -> bool
    ensures { result ≡ begins_sentence comment.now }
{
    let said = comment_text(comment);
    begins(said, "sent_id")
        || begins(said, "text")
        || begins(said, "newdoc")
        || begins(said, "newpar")
}

fn comment_place<'a>(number: usize, line: &'a str) -> Finding<'a>
    ensures line { result.line ≡ number }
    ensures said { SaysComment line.now result }
{
    let sentence = if begins_sentence(line) {
        reported::BLANK_MISSING
    } else {
        reported::COMMENT_PLACE
    };
    Finding::on(number, sentence).with(Value::Text(line))
}

fn blank_place(line: &NumberedLine<'_>) -> &'static str
    ensures { result.now ≡ blank_sentence line.now.number line.now.before.now }
{
    if line.number <= 1 {
        reported::BLANK_FIRST
    } else if line.before.is_empty() {
        reported::BLANK_TWICE
    } else {
        reported::BLANK_AFTER_COMMENTS
    }
}

/// What is wrong with the end of a file. Its last line feed ends the line before this one.
fn unended(line: &NumberedLine<'_>) -> &'static str
    ensures { result.now ≡ ending_sentence line.now.bytes.now line.now.before.now }
{
    if line.bytes.contains(&b'\r') {
        reported::LONE_RETURNS
    } else if !line.bytes.is_empty() {
        reported::NO_LINE_FEED
    } else if line.before.starts_with(b"#".as_slice()) {
        reported::COMMENTS_AT_END
    } else {
        reported::NO_BLANK_AT_END
    }
}

/// What is wrong with a line that has this code.
pub(crate) fn fault_of_line<'a>(alloc: Global, line: &NumberedLine<'a>, code: u8) -> Finding<'a>
    ensures line { result.line ≡ line.now.number }
    ensures encoding { code ≡ 1 → SaysEncoding line.now.number line.now.bytes.now result }
    ensures form { code ≡ 2 → IsUtf8 line.now.bytes.now → SaysForm line.now.bytes.now result }
    ensures columns { code ≡ 4 → IsUtf8 line.now.bytes.now → SaysColumns line.now.bytes.now result }
    ensures control { code ≡ 3 → IsUtf8 line.now.bytes.now → length (chars line.now.bytes.now) < 2 ^ 64
        → SaysControl line.now.bytes.now result }
    ensures id { code ≡ 5 → IsUtf8 line.now.bytes.now
        → (result.sentence.now ≡ id_sentence (field_at 0 line.now.bytes.now))
        × ShowsColumn line.now.bytes.now 0 result }
    ensures space { code ≡ 6 → IsUtf8 line.now.bytes.now → SaysSpace line.now.bytes.now result }
    ensures head { code ≡ 7 → IsUtf8 line.now.bytes.now
        → (result.sentence.now ≡ HEAD_FORM.now) × ShowsColumn line.now.bytes.now 6 result }
    ensures comment { code ≡ 8 → IsUtf8 line.now.bytes.now → SaysComment line.now.bytes.now result }
    ensures blank { code ≡ 9 → result.sentence.now ≡ blank_sentence line.now.number line.now.before.now }
    ensures end { code ≡ 10
        → result.sentence.now ≡ ending_sentence line.now.bytes.now line.now.before.now }
{
    let number = line.number;
    let text = line.text();
    match code {
        1 => not_utf8(number, line.bytes),
        2 => not_composed(alloc, number, text),
        3 => control(number, text),
        4 => columns(number, text),
        5 => id(number, text),
        6 => space(number, text),
        7 => head(number, text),
        8 => comment_place(number, text),
        9 => Finding::on(number, blank_place(line)),
        _ => Finding::on(number, unended(line)),
    }
}
