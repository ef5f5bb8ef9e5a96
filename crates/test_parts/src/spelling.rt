//! Texts with repetitions, and the names of strategies.

use crate::telling::{put, said};
use std::alloc::Global;
use std::process::Abort;
use tb_match::Strategy;

/// The strategy of this name.
pub(crate) fn strategy(rt: &impl Abort, name: &str) -> Strategy {
    let named = match name {
        "shortest" => Some(Strategy::Shortest),
        "longest" => Some(Strategy::Longest),
        "every" => Some(Strategy::Every),
        _ => None,
    };
    named.expect(rt, name)
}

/// Appends a sign: a space for `␣`, and a line feed for `␤`.
fn push_sign(rt: &impl Abort, all: &mut String, sign: char) {
    let sign = match sign {
        '␣' => ' ',
        '␤' => '\n',
        other => other,
    };
    all.push(sign).expect(rt, "error");
}

/// Appends the text so many times.
fn push_times(rt: &impl Abort, all: &mut String, text: &str, times: u32) {
    for _ in 0..times {
        for sign in text.chars() {
            push_sign(rt, all, sign);
        }
    }
}

/// Appends a token `16×(` sixteen times, and any other token once.
fn push_token(rt: &impl Abort, all: &mut String, token: &str) {
    match token.split_once('×') {
        Some((times, piece)) => push_times(rt, all, piece, times.parse().unwrap_or(0)),
        None => push_times(rt, all, token, 1),
    }
}

fn tokens_written(rt: &impl Abort, alloc: Global, text: &str) -> String {
    let mut all = String::new(alloc);
    for token in text.split(' ') {
        push_token(rt, &mut all, token);
    }
    all
}

/// A text of the form `16×( [] 16×)`, written out: it is an expression in sixteen parentheses. Any other text is
/// unchanged.
pub(crate) fn spelled(rt: &impl Abort, alloc: Global, text: &str) -> String {
    if text.contains('×') {
        tokens_written(rt, alloc, text)
    } else {
        said(rt, alloc, text)
    }
}
