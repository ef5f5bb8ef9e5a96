//! What tests assert, as text, and texts put together.
//!
//! A function that asserts is called where a macro would cost the prover more.

use std::alloc::Global;
use std::fmt::{Debug, Display};
use std::process::Abort;
use std::str;

/// Asserts that the answer to a question is this text.
pub(crate) fn assert_reported(rt: &impl Abort, reported: &str, wanted: &str, of: &str) {
    assert_eq!(rt; reported, wanted, "of {of}");
}

/// Asserts the same of two values.
pub(crate) fn assert_same<T: Debug + PartialEq>(rt: &impl Abort, found: &T, wanted: &T, of: &str) {
    assert_eq!(rt; *found, *wanted, "of {of}");
}

/// Asserts that something holds. The text says of what.
pub(crate) fn assert_holds(rt: &impl Abort, holds: bool, of: &str) {
    if !holds {
        rt.panic(of);
    }
}

/// The value, or the text of the error.
pub(crate) fn reported<T: Debug, E: Display>(
    rt: &impl Abort,
    alloc: Global,
    answer: &Result<T, E>,
) -> String {
    match answer {
        Ok(value) => value_text(rt, alloc, value),
        Err(error) => error_text(rt, alloc, error),
    }
}

fn value_text<T: Debug>(rt: &impl Abort, alloc: Global, value: &T) -> String {
    format!(in alloc; "{value:?}").expect(rt, "a value")
}

/// The text of an error or of a number.
pub(crate) fn error_text<E: Display>(rt: &impl Abort, alloc: Global, error: &E) -> String {
    error.to_string(alloc).expect(rt, "an error")
}

/// The text in memory of its own.
pub(crate) fn said(rt: &impl Abort, alloc: Global, text: &str) -> String {
    String::from_str(alloc, text).expect(rt, text)
}

/// The pieces one after another.
pub(crate) fn joined(rt: &impl Abort, alloc: Global, pieces: &[&str]) -> String {
    pieces.join(alloc, "").expect(rt, "a text")
}

pub(crate) fn put(rt: &impl Abort, text: &mut String, piece: &str) {
    text.push_str(piece).expect(rt, piece);
}

/// The text with another one in each place of the first.
pub(crate) fn replaced(rt: &impl Abort, alloc: Global, text: &str, old: &str, new: &str) -> String {
    text.replace(alloc, old, new).expect(rt, text)
}

pub(crate) fn text_of<'a>(rt: &impl Abort, bytes: &'a [u8]) -> &'a str {
    str::from_utf8(bytes).expect(rt, "a text")
}
