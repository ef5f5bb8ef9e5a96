//! What a query's text says, as text.

use crate::telling::{push_value, put, value_text};
use std::alloc::Global;
use std::process::Abort;
use tb_match::fits;
use tb_syntax::{Lexed, Parsed, Query, read};

fn lexed_text(rt: &impl Abort, alloc: Global, lexed: &Lexed) -> String {
    let mut reported = value_text(rt, alloc, &lexed.lexemes);
    put(rt, &mut reported, " ");
    push_value(rt, &mut reported, &lexed.spans);
    reported
}

/// Its lexemes, and their places.
pub(crate) fn placed(rt: &impl Abort, alloc: Global, text: &str) -> String {
    let lexed = read(text).expect(rt, "error");
    lexed_text(rt, alloc, &lexed)
}

/// The query of a text.
fn parsed(rt: &impl Abort, alloc: Global, text: &str) -> Query {
    tb_syntax::parse(alloc, text).expect(rt, "error")
}

fn parsed_text(rt: &impl Abort, alloc: Global, parsed: &Parsed) -> String {
    let exprs = u16::try_from(parsed.exprs.len()).ok().expect(rt, "few");
    let fit = fits(&parsed.pat, exprs);
    let mut reported = value_text(rt, alloc, &parsed.pat);
    put(rt, &mut reported, " ");
    push_value(rt, &mut reported, &parsed.exprs);
    let end = if fit { " fits" } else { " does not fit" };
    put(rt, &mut reported, end);
    reported
}

/// Its pattern, its token expressions, and whether the pattern fits that many.
pub(crate) fn tree(rt: &impl Abort, alloc: Global, text: &str) -> String {
    let query = parsed(rt, alloc, text);
    parsed_text(rt, alloc, &query.parsed)
}

fn literals_text(rt: &impl Abort, alloc: Global, query: &Query) -> String {
    let mut reported = String::new(alloc);
    for literal in &query.literals {
        put(rt, &mut reported, "<");
        put(rt, &mut reported, literal.as_str());
        put(rt, &mut reported, ">");
    }
    reported
}

/// The values of its literals.
pub(crate) fn literals(rt: &impl Abort, alloc: Global, text: &str) -> String {
    let query = parsed(rt, alloc, text);
    literals_text(rt, alloc, &query)
}
