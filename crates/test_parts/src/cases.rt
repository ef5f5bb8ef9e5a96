//! Cases as text, one on each line: the question precedes ` => `, and the answer follows it.
//!
//! One loop reads all cases, so another case costs the prover nothing.

use crate::telling::{assert_same, assert_text, joined, put, replaced, said};
use std::alloc::Global;
use std::process::Abort;

/// A question that can be asked of the text of a case.
pub(crate) trait Question {
    /// The answer as text.
    fn answer(&self, rt: &impl Abort, alloc: Global, asked: &str) -> String;
}

/// The text before the sign, and the text after it.
pub(crate) fn cut<'a>(rt: &impl Abort, text: &'a str, sign: &str) -> (&'a str, &'a str) {
    text.split_once(sign).expect(rt, text)
}

/// Asserts the answer to each of so many cases.
pub(crate) fn assert_answers<Q: Question>(
    rt: &impl Abort,
    alloc: Global,
    question: &Q,
    cases: &str,
    count: usize,
) {
    assert_same(rt, &cases.lines().count(), &count, "the number of cases");
    for case in cases.lines() {
        assert_case(rt, alloc, question, case);
    }
}

fn assert_case<Q: Question>(rt: &impl Abort, alloc: Global, question: &Q, case: &str) {
    let (asked, wanted) = cut(rt, case, " => ");
    let answer = question.answer(rt, alloc, asked);
    assert_text(rt, answer.as_str(), wanted, asked);
}

/// No question has more parentheses.
const PARENTHESES: usize = 4;

/// What the first parentheses of a question have, and what is before and after them.
#[derive(Clone, Copy)]
struct Alternatives<'a> {
    before: &'a str,
    parts: &'a str,
    after: &'a str,
}

fn alternatives_in(asked: &str) -> Option<Alternatives<'_>> {
    let (before, rest) = asked.split_once("(")?;
    let (parts, after) = rest.split_once(")")?;
    Some(Alternatives {
        before,
        parts,
        after,
    })
}

/// Appends a case for each of the alternatives.
fn push_each(
    rt: &impl Abort,
    alloc: Global,
    cases: &mut String,
    asked: Alternatives<'_>,
    answer: &str,
) {
    for part in asked.parts.split('|') {
        put(rt, cases, asked.before);
        put(rt, cases, part);
        put(rt, cases, asked.after);
        put(rt, cases, " => ");
        put(rt, cases, replaced(rt, alloc, answer, "*", part).as_str());
        put(rt, cases, "\n");
    }
}

/// The cases with the first parentheses of each question written out.
fn written_out(rt: &impl Abort, alloc: Global, cases: &str) -> String {
    let mut all = String::new(alloc);
    for case in cases.lines() {
        let (asked, answer) = cut(rt, case, " => ");
        match alternatives_in(asked) {
            Some(alternatives) => push_each(rt, alloc, &mut all, alternatives, answer),
            None => put(rt, &mut all, joined(rt, alloc, &[case, "\n"]).as_str()),
        }
    }
    all
}

/// Asserts the answer to each of so many cases. Parentheses in a question have alternatives, and the line stands for a
/// case with each of them: `pull (1|2) => *` for `pull 1 => 1` and `pull 2 => 2`. In the answer, `*` is what the first
/// parentheses became.
pub(crate) fn assert_alternatives<Q: Question>(
    rt: &impl Abort,
    alloc: Global,
    question: &Q,
    cases: &str,
    count: usize,
) {
    let mut cases = said(rt, alloc, cases);
    for _ in 0..PARENTHESES {
        cases = written_out(rt, alloc, cases.as_str());
    }
    assert_answers(rt, alloc, question, cases.as_str(), count);
}
