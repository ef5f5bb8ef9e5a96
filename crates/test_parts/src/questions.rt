//! The questions that cases ask of the texts of queries and literals.

use crate::cases::Question;
use crate::lexemes::lexemes;
use crate::literals::{fit, needle};
use crate::queries::{literals, placed, tree};
use crate::spelling::spelled;
use crate::telling::value_text;
use std::alloc::Global;
use std::process::Abort;
use tb_syntax::{Flag, repeats_within, scan};

/// A question that can be asked of a text with its repetitions written out (`spelling.rt`).
#[derive(Clone, Copy, Drop)]
pub(crate) enum TextQuestion {
    /// Which of its lexemes is the first wrong one, if any is.
    Scan,
    /// Whether the numbers of its repetitions are within the limits.
    Repeats,
    /// What is wrong with it as a query, whether or not its literals are patterns.
    Fault,
    /// Its lexemes, and their places.
    Places,
    /// Its pattern and its token expressions.
    Tree,
    /// The values of its literals.
    Literals,
    /// Whether the literal before `at` fits the value after it.
    Value(Flag),
    /// Whether the literal before `at` fits an item of the list after it.
    Item(Flag),
    /// Why the literal is refused, if it is.
    Refusal(Flag),
    /// What is wrong with it as a query.
    QueryFault,
}

impl Question for TextQuestion {
    fn answer(&self, rt: &impl Abort, alloc: Global, asked: &str) -> String {
        let whole = spelled(rt, alloc, asked);
        answer(rt, alloc, *self, whole.as_str())
    }
}

/// The answer for the text.
fn answer(rt: &impl Abort, alloc: Global, question: TextQuestion, text: &str) -> String {
    match question {
        TextQuestion::Scan => {
            let list = lexemes(rt, alloc, text);
            assert!(rt; list.len() <= 2000, "few lexemes");
            value_text(rt, alloc, &scan(&list).err())
        }
        TextQuestion::Repeats => {
            value_text(rt, alloc, &repeats_within(&lexemes(rt, alloc, text), 32))
        }
        TextQuestion::Fault => value_text(rt, alloc, &tb_syntax::parse(alloc, text).err()),
        TextQuestion::Places => placed(rt, alloc, text),
        TextQuestion::Tree => tree(rt, alloc, text),
        TextQuestion::Literals => literals(rt, alloc, text),
        TextQuestion::Value(flag) => fit(rt, alloc, text, flag, false),
        TextQuestion::Item(flag) => fit(rt, alloc, text, flag, true),
        TextQuestion::Refusal(flag) => value_text(rt, alloc, &needle(alloc, text, flag).err()),
        TextQuestion::QueryFault => value_text(rt, alloc, &tb_query::parse(alloc, text).err()),
    }
}
