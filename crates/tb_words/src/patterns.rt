//! What is wrong with a literal that is no pattern, and where.
//!
//! The parser of patterns says where a text stops to be one. A backslash before a sign takes the meaning from the sign.
//! Where the text is a pattern with a backslash there, the meaning of that sign is at fault.

ghost use Rattle.std.specs.Prelude.{◌≡◌, ◌+◌, ◌++◌, ◌<◌, ◌∷◌, [], codes, drop, IfOk, IfSome, option_map, take, true};
ghost use Rattle.std.specs.Str.{IsCharBoundary};
ghost use Rattle.std.specs.String.{string_bytes};
ghost use Rattle.regex_syntax.specs.declared.error.ErrorKind.TheVariants.{OutOfMemory};
ghost use Rattle.tb_literal.specs.Patterns.{IsPattern};
ghost use Rattle.tb_words.specs.QueryPatterns.{IsBetween, SaysSign, SaysStop, StopsAt, byte_of, is_first_digit, left_out};
ghost use Rattle.tb_words.specs.QueryPatterns.{looks_back, looks_round, sign_sentence, with_backslash};

use crate::sentences as reported;
use crate::syntax::begins;
use regex_syntax::{Config, ErrorKind, parse};
use std::alloc::{AllocError, Global};

/// Whether a pattern looks ahead or behind at its beginning.
fn looks_round(rest: &str) -> bool
    ensures { result ≡ looks_round rest.now }
{
    begins(rest, "(?=") || begins(rest, "(?!") || begins(rest, "(?<=") || begins(rest, "(?<!")
}

/// Whether a byte is a digit, without 0.
fn is_first_digit(byte: u8) -> bool
    ensures { result ≡ is_first_digit byte }
{
    matches!(byte, b'1'..=b'9')
}

/// The byte of a text that has this number, counted from 0; 0 where it has none.
fn byte_at(text: &str, at: usize) -> u8
    ensures { result ≡ byte_of text.now at }
{
    text.as_bytes().get(at).copied().unwrap_or(0)
}

/// Whether a pattern refers to an earlier match at its beginning, as `\1` does.
fn looks_back(rest: &str) -> bool
    ensures { result ≡ looks_back rest.now }
{
    byte_at(rest, 0) == b'\\' && is_first_digit(byte_at(rest, 1))
}

/// What is before a byte.
fn front(text: &str, at: usize) -> &str
    ensures { IsCharBoundary text.now at → result.now ≡ take at text.now }
{
    text.get(..at).unwrap_or("")
}

/// What is there from a byte on.
fn back(text: &str, at: usize) -> &str
    ensures { IsCharBoundary text.now at → result.now ≡ drop at text.now }
{
    text.get(at..).unwrap_or("")
}

/// Two texts with a backslash between them.
fn joined(alloc: Global, front: &str, back: &str) -> Result<String, AllocError>
    ensures { IfOk result (λ made. string_bytes made ≡ (front.now ++ codes "\\") ++ back.now) }
{
    let mut made = String::from_str(alloc, front)?;
    made.push_str("\\")?;
    made.push_str(back)?;
    Ok(made)
}

/// A text with a backslash before what is at a byte.
fn with_backslash(alloc: Global, text: &str, at: usize) -> Result<String, AllocError>
    ensures { IsCharBoundary text.now at → IfOk result (λ made. string_bytes made ≡ with_backslash text.now at) }
{
    joined(alloc, front(text, at), back(text, at))
}

/// The place of an error of regex's parser, unless the error is want of memory.
fn unless_memory(kind: ErrorKind, at: usize) -> Option<usize>
    ensures place { IfSome result (λ place. place ≡ at) }
    ensures kind { IfSome result (λ _. kind ≡ OutOfMemory → ⊥) }
{
    match kind {
        ErrorKind::OutOfMemory => None,
        _ => Some(at),
    }
}

/// Where a text stops to be a pattern. `None` where it is one, or memory is wanting.
fn stop(alloc: Global, text: &str) -> Option<usize>
    ensures none { IfSome result (λ _. IsPattern text.now → ⊥) }
    ensures place { IfSome result (λ at. IsCharBoundary text.now at) }
{
    if let Err(error) = parse(alloc, text, &Config::default()) {
        return unless_memory(error.kind, error.span.start);
    }
    None
}

/// Whether a text is a pattern, and there is memory to tell so.
fn is_pattern(alloc: Global, text: &str) -> bool
    ensures { result ≡ true → IsPattern text.now }
{
    if let Err(_error) = parse(alloc, text, &Config::default()) {
        return false;
    }
    true
}

/// Whether a text is a pattern with a backslash before what is at a byte.
fn is_cured(alloc: Global, text: &str, at: usize) -> bool
    ensures { IsCharBoundary text.now at → result ≡ true → IsPattern (with_backslash text.now at) }
{
    match with_backslash(alloc, text, at) {
        Ok(made) => is_pattern(alloc, made.as_str()),
        Err(_) => false,
    }
}

/// What is wrong with a sign whose meaning is at fault.
fn sign_fault(sign: u8) -> &'static str
    ensures { result.now ≡ sign_sentence sign }
{
    match sign {
        b'(' => reported::PATTERN_OPEN,
        b')' => reported::PATTERN_CLOSED,
        b'[' => reported::PATTERN_SET,
        b'{' => reported::PATTERN_BRACE,
        b'*' | b'+' | b'?' => reported::PATTERN_REPEATS,
        b'\\' => reported::PATTERN_BACKSLASH,
        _ => reported::PATTERN_OTHER,
    }
}

/// What is wrong where a pattern has this, if it is none of those that `regex` leaves out.
fn left_out(rest: &str) -> Option<&'static str>
    ensures { option_map (λ said. said.now) result ≡ left_out rest.now }
{
    if looks_round(rest) {
        Some(reported::PATTERN_LOOKING)
    } else if looks_back(rest) {
        Some(reported::PATTERN_BACK)
    } else {
        None
    }
}

/// What is wrong with this sign at a byte, where a text stops to be a pattern.
fn cured_fault(alloc: Global, text: &str, at: usize, sign: u8) -> &'static str
    ensures { IsCharBoundary text.now at → SaysSign text.now at sign result.now }
{
    if is_cured(alloc, text, at) {
        sign_fault(sign)
    } else {
        reported::PATTERN_OTHER
    }
}

/// What is wrong at a byte, where a text stops to be a pattern.
fn stop_fault(alloc: Global, text: &str, at: usize) -> &'static str
    ensures { IsCharBoundary text.now at → SaysStop text.now at result.now }
{
    let rest = back(text, at);
    match left_out(rest) {
        Some(sentence) => sentence,
        None => cured_fault(alloc, text, at, byte_at(rest, 0)),
    }
}

/// What is between two quotes of this kind, if a literal is.
fn between(literal: &str, quote: char) -> Option<&str>
    ensures { quote < 128 → IfSome result (λ inside. literal.now ≡ quote ∷ (inside.now ++ (quote ∷ []))) }
{
    match literal.strip_prefix(quote) {
        Some(rest) => rest.strip_suffix(quote),
        None => None,
    }
}

/// What is between the quotes of a literal.
fn inside(literal: &str) -> Option<&str>
    ensures { IfSome result (λ inside. IsBetween literal.now inside.now) }
{
    match between(literal, '"') {
        Some(inside) => Some(inside),
        None => between(literal, '\''),
    }
}

/// The byte of a query that is this many bytes after the quote at a byte.
fn place_after(text: &str, start: usize, at: usize) -> Option<usize>
    ensures place { IfSome result (λ place. place ≡ start + (at + 1)) }
    ensures boundary { IfSome result (λ place. IsCharBoundary text.now place) }
{
    let place = start.checked_add(at.checked_add(1)?)?;
    if text.is_char_boundary(place) {
        Some(place)
    } else {
        None
    }
}

/// The place of a query where a literal stops to be a pattern, and what is wrong there. The literal begins at this byte.
pub(crate) fn first_stop(
    alloc: Global,
    text: &str,
    start: usize,
    literal: &str,
) -> Option<(usize, &'static str)>
    ensures says { IfSome result (λ found. StopsAt literal.now start found.0 found.1.now) }
    ensures boundary { IfSome result (λ found. IsCharBoundary text.now found.0) }
{
    let inside = inside(literal)?;
    let at = stop(alloc, inside)?;
    let place = place_after(text, start, at)?;
    Some((place, stop_fault(alloc, inside, at)))
}
