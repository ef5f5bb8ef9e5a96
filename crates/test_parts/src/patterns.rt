//! Patterns and tables of truths as short texts.

use crate::telling::assert_same;
use std::alloc::Global;
use std::process::Abort;
use tb_match::{Pat, Truth};

/// A part of a pattern's text. It follows the patterns of which it is made.
#[derive(Clone, Copy)]
enum Node {
    /// One word of which the expression with this number holds.
    Word(u16),
    /// The last n patterns, one after another.
    Sequence(usize),
    /// Any one of the last n patterns.
    Choice(usize),
    /// The last pattern repeated.
    Repeated(u8, Option<u8>),
}

/// Takes the last patterns, so many.
fn take_last(rt: &impl Abort, pats: &mut Vec<Pat>, count: usize) -> Vec<Pat> {
    assert!(rt; count <= pats.len(), "the parts of the node are there");
    pats.split_off(pats.len() - count).expect(rt, "error")
}

fn take_inner(rt: &impl Abort, alloc: Global, pats: &mut Vec<Pat>) -> Box<Pat> {
    let inner = pats.pop().expect(rt, "the part of the node is there");
    Box::new(alloc, inner).expect(rt, "error")
}

/// The pattern that a node makes of the last patterns.
fn made(rt: &impl Abort, alloc: Global, pats: &mut Vec<Pat>, node: Node) -> Pat {
    match node {
        Node::Word(expr) => Pat::Tok(expr),
        Node::Sequence(count) => Pat::Cat(take_last(rt, pats, count)),
        Node::Choice(count) => Pat::Alt(take_last(rt, pats, count)),
        Node::Repeated(least, most) => Pat::Rep(take_inner(rt, alloc, pats), least, most),
    }
}

/// The node of a token: `*`, `+`, `?`, `2-4` and `2-` repeat, `.3` is a sequence and `|3` a choice of three patterns,
/// and a digit is a word.
fn node_of(token: &str) -> Node {
    if let Some((least, most)) = token.split_once('-') {
        return Node::Repeated(least.parse().unwrap_or(0), most.parse().ok());
    }
    match token.as_bytes() {
        [b'*'] => Node::Repeated(0, None),
        [b'+'] => Node::Repeated(1, None),
        [b'?'] => Node::Repeated(0, Some(1)),
        [b'.', count] => Node::Sequence(usize::from(*count & 15)),
        [b'|', count] => Node::Choice(usize::from(*count & 15)),
        [expr] => Node::Word(u16::from(*expr & 15)),
        _ => Node::Sequence(0),
    }
}

/// Replaces the last patterns by the node that is made of them.
fn put(rt: &impl Abort, alloc: Global, pats: &mut Vec<Pat>, node: Node) {
    let pat = made(rt, alloc, pats, node);
    pats.push(pat).expect(rt, "error");
}

/// The node of a token so many times: `5×*` for five stars.
fn put_token(rt: &impl Abort, alloc: Global, pats: &mut Vec<Pat>, token: &str) {
    let (times, token) = token.split_once('×').unwrap_or(("1", token));
    for _ in 0..times.parse::<u32>().unwrap_or(0) {
        put(rt, alloc, pats, node_of(token));
    }
}

fn put_tokens(rt: &impl Abort, alloc: Global, pats: &mut Vec<Pat>, text: &str) {
    for token in text.split(' ') {
        put_token(rt, alloc, pats, token);
    }
}

/// The pattern of a text in postfix order: `0 1 * .2` for `[0] [1]*`, `0 5×*` for five stars.
pub(crate) fn pattern(rt: &impl Abort, alloc: Global, text: &str) -> Pat {
    let mut pats = Vec::new(alloc);
    put_tokens(rt, alloc, &mut pats, text);
    assert_same(rt, &pats.len(), &1, "one pattern");
    pats.pop().expect(rt, text)
}

/// Whether an expression, named by a letter, holds of a word in a sentence of so many words.
fn holds(letter: char, word: usize, words: usize) -> bool {
    match letter {
        'a' => true,
        'f' => word == 1,
        'r' => word > 1,
        'p' => word.saturating_add(1) == words,
        'l' => word == words,
        'e' => word == 1 || word == words,
        // Every third word and the last two, the others and the last one.
        's' => word % 3 == 0 || word.saturating_add(1) >= words,
        't' => word % 3 != 0 || word == words,
        // Words near the end of the first machine word, and after it.
        'b' => matches!(word, 1 | 61 | 62 | 63 | 64 | 65 | 66 | 127 | 128),
        'c' => matches!(word, 2 | 64 | 65 | 66 | 67 | 128),
        // "the old book on the table in the room": determiners, adjectives, nouns and prepositions.
        'D' => matches!(word, 1 | 5 | 8),
        'J' => word == 2,
        'N' => matches!(word, 3 | 6 | 9),
        'P' => matches!(word, 4 | 7),
        _ => false,
    }
}

/// Makes the expression hold of the word, where the table has both.
pub(crate) fn mark(truth: &mut Truth, expr: u16, word: usize) {
    if expr < truth.exprs() && 1 <= word && word <= truth.words() {
        truth.set(expr, word);
    }
}

/// Makes the expression that a letter names hold of its words.
fn mark_words(truth: &mut Truth, expr: u16, letter: char, words: usize) {
    for word in 1..=words {
        if holds(letter, word, words) {
            mark(truth, expr, word);
        }
    }
}

fn mark_letters(truth: &mut Truth, letters: &str, words: usize) {
    let mut expr: u16 = 0;
    for letter in letters.chars() {
        mark_words(truth, expr, letter, words);
        expr = expr.saturating_add(1);
    }
}

/// The table of a sentence of so many words, with an expression for each letter.
pub(crate) fn table(rt: &impl Abort, alloc: Global, letters: &str, words: usize) -> Truth {
    let exprs = letters.len();
    assert!(rt; exprs <= 32 && words <= 1000, "a table within the limits");
    let mut truth = Truth::new(alloc, words, exprs as u16).expect(rt, "error");
    mark_letters(&mut truth, letters, words);
    truth
}
