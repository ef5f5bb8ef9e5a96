//! Shows a line of a query, with a mark under one character.

ghost use Rattle.std.specs.List.{before_first};
ghost use Rattle.std.specs.Prelude.{◌≡◌, ◌++◌, ◌-◌, ◌≤◌, chars, codes, drop, encode_utf8_all, IfOk, IfSome, length, map};
ghost use Rattle.std.specs.Prelude.{OnOk, replicate, take};
ghost use Rattle.std.specs.Str.{IsCharBoundary};
ghost use Rattle.std.specs.String.{string_bytes};
ghost use Rattle.tb_words.specs.FileLines.{is_line_feed};
ghost use Rattle.tb_words.specs.QueryPlaces.{IsPicture, picture_text};
ghost use Rattle.tb_words.specs.QueryWords.{character_number};
ghost use Rattle.tb_words.specs.Shown.{visible};
ghost use Rattle.tb_words.specs.Spelled.{IsAfterLast};

use crate::words::visible;
use std::alloc::{AllocError, Global};

/// The most characters of a line that are shown, and the most that precede the mark.
const WIDTH: usize = 72;

const BEFORE: usize = 48;

/// The place after the last line feed before a byte; 0 where there is none.
fn line_start(text: &str, at: usize) -> usize
    ensures { IsCharBoundary text.now at → IsAfterLast 10 text.now at result }
{
    match text.get(..at).unwrap_or("").rfind('\n') {
        Some(before) => before.saturating_add(1),
        None => 0,
    }
}

/// The rest of a line, from a byte on.
fn line_from(text: &str, start: usize) -> &str
    ensures { IsCharBoundary text.now start → result.now ≡ before_first is_line_feed (drop start text.now) }
{
    let rest = text.get(start..).unwrap_or("");
    match rest.split_once('\n') {
        Some((line, _)) => line,
        None => rest,
    }
}

/// How many characters are between two bytes.
fn characters_between(text: &str, start: usize, at: usize) -> usize
    ensures { IsCharBoundary text.now start → IsCharBoundary text.now at → start ≤ at
        → result ≡ length (chars (take (at - start) (drop start text.now))) }
{
    text.get(start..at).unwrap_or("").chars().count()
}

/// Adds the characters of a line that are shown, without so many in front.
fn push_line(picture: &mut String, line: &str, skipped: usize) -> Result<(), AllocError>
    ensures { OnOk result (string_bytes picture.new
        ≡ string_bytes picture.old ++ encode_utf8_all (map visible (take 72 (drop skipped (chars line.now))))) }
{
    for c in line.chars().skip(skipped).take(WIDTH) {
        picture.push(visible(c))?;
    }
    Ok(())
}

/// Adds so many spaces.
fn push_spaces(picture: &mut String, count: usize) -> Result<(), AllocError>
    ensures { OnOk result (string_bytes picture.new ≡ string_bytes picture.old ++ replicate count 32) }
{
    for _ in 0..count {
        picture.push(' ')?;
    }
    Ok(())
}

/// Adds a mark on a line of its own, after so many spaces.
fn push_mark(picture: &mut String, count: usize) -> Result<(), AllocError>
    ensures { OnOk result (string_bytes picture.new
        ≡ string_bytes picture.old ++ (codes "\n    " ++ (replicate count 32 ++ codes "^"))) }
{
    picture.push_str("\n    ")?;
    push_spaces(picture, count)?;
    picture.push_str("^")?;
    Ok(())
}

/// A line, and a mark under the character that so many others precede.
fn drawn(alloc: Global, line: &str, count: usize) -> Result<String, AllocError>
    ensures { IfOk result (λ picture. string_bytes picture ≡ picture_text line.now count) }
{
    let skipped = count.saturating_sub(BEFORE);
    let mut picture = String::from_str(alloc, "    ")?;
    push_line(&mut picture, line, skipped)?;
    let before = count.saturating_sub(skipped);
    push_mark(&mut picture, before)?;
    Ok(picture)
}

/// The line of a query that has a byte, and a mark under the byte's character.
pub(crate) fn picture(alloc: Global, text: &str, at: usize) -> Option<String>
    ensures { IsCharBoundary text.now at → IfSome result (λ picture. IsPicture text.now at (string_bytes picture)) }
{
    let start = line_start(text, at);
    match drawn(
        alloc,
        line_from(text, start),
        characters_between(text, start, at),
    ) {
        Ok(picture) => Some(picture),
        Err(_) => None,
    }
}

/// The number of the character that begins at a byte, counted from 1.
pub(crate) fn character(text: &str, at: usize) -> usize
    ensures { IsCharBoundary text.now at → result ≡ character_number text.now at }
{
    text.get(..at)
        .unwrap_or(text)
        .chars()
        .count()
        .saturating_add(1)
}
