//! What tests assert, and values as text.
//!
//! A function that asserts is called where a macro would cost the prover more.

use std::alloc::Global;
use std::fmt::{Debug, Display};
use std::process::Abort;
use std::str;

/// Asserts that a text is the one that is wanted.
pub(crate) fn assert_text(rt: &impl Abort, found: &str, wanted: &str, of: &str) {
    if *found != *wanted {
        panic!(rt; "{found} where {wanted} was wanted, of {of}");
    }
}

/// Asserts the same of two values.
pub(crate) fn assert_same<T: Debug + PartialEq>(rt: &impl Abort, found: &T, wanted: &T, of: &str) {
    if *found != *wanted {
        panic!(rt; "{found:?} where {wanted:?} was wanted, of {of}");
    }
}

/// Asserts that something holds. The text says of what.
pub(crate) fn assert_holds(rt: &impl Abort, holds: bool, of: &str) {
    if !holds {
        panic!(rt; "assertion failed: {of}");
    }
}

/// Asserts that the bytes are the text.
pub(crate) fn assert_bytes(rt: &impl Abort, bytes: &[u8], text: &str, of: &str) {
    assert_text(rt, text_of(rt, bytes), text, of);
}

/// Asserts the exit status of a check, and the line that it printed.
pub(crate) fn assert_replied(
    rt: &impl Abort,
    alloc: Global,
    status: u8,
    printed: &[u8],
    wanted: &str,
) {
    let status = shown(rt, alloc, &status);
    let line = without_end(rt, text_of(rt, printed));
    let replied = joined(rt, alloc, &[status.as_str(), " ", line]);
    assert_text(rt, replied.as_str(), wanted, "a check");
}

pub(crate) fn text_of<'a>(rt: &impl Abort, bytes: &'a [u8]) -> &'a str {
    str::from_utf8(bytes).expect(rt, "a text")
}

/// The line without its line feed.
pub(crate) fn without_end<'a>(rt: &impl Abort, line: &'a str) -> &'a str {
    line.strip_suffix('\n').expect(rt, line)
}

/// The text in memory of its own.
pub(crate) fn said(rt: &impl Abort, alloc: Global, text: &str) -> String {
    String::from_str(alloc, text).expect(rt, text)
}

/// Whether something holds, in a word.
pub(crate) fn yes_or_no(rt: &impl Abort, alloc: Global, holds: bool) -> String {
    said(rt, alloc, if holds { "yes" } else { "no" })
}

/// A number, a refusal or a fault as text.
pub(crate) fn shown<T: Display>(rt: &impl Abort, alloc: Global, value: &T) -> String {
    value.to_string(alloc).expect(rt, "a value")
}

/// A value as text.
pub(crate) fn value_text<T: Debug>(rt: &impl Abort, alloc: Global, value: &T) -> String {
    let mut text = String::new(alloc);
    push_value(rt, &mut text, value);
    text
}

/// Appends the value to the text.
pub(crate) fn push_value<T: Debug>(rt: &impl Abort, text: &mut String, value: &T) {
    write!(text, "{value:?}").expect(rt, "a value");
}

pub(crate) fn put(rt: &impl Abort, text: &mut String, piece: &str) {
    text.push_str(piece).expect(rt, piece);
}

/// The pieces one after another. A call costs the prover less than `format!`.
pub(crate) fn joined(rt: &impl Abort, alloc: Global, pieces: &[&str]) -> String {
    pieces.join(alloc, "").expect(rt, "a text")
}

/// The text with another one in each place of the first.
pub(crate) fn replaced(rt: &impl Abort, alloc: Global, text: &str, old: &str, new: &str) -> String {
    text.replace(alloc, old, new).expect(rt, text)
}
