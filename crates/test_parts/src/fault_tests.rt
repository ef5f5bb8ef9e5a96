//! Every fault of a file. The expected answers were worked out by hand from the codes and the rules.

use crate::cases::{Question, assert_answers};
use crate::files::{COFFEE_AND_TEA, DOGS_BARK, VAMONOS, unfolded};
use crate::telling::{assert_text, push_value, put, replaced};
use std::alloc::Global;
use std::process::Abort;
use tb_check::{Fault, faults_of};
use tb_conllu::{BlockRef, faulty_lines, read_ref};
use tb_rules::broken_rules;

/// Appends the numbers of a fault.
fn push_numbers(rt: &impl Abort, text: &mut String, first: usize, others: &[usize]) {
    push_value(rt, text, &first);
    for number in others {
        put(rt, text, " ");
        push_value(rt, text, number);
    }
    put(rt, text, ", ");
}

fn push_fault(rt: &impl Abort, text: &mut String, fault: Fault) {
    match fault {
        Fault::Line { line, code } => push_numbers(rt, text, line, &[usize::from(code)]),
        Fault::Rule {
            sentence,
            rule,
            row,
        } => push_numbers(rt, text, sentence, &[usize::from(rule), row]),
    }
}

/// The first faults of a file: `LINE CODE`, or `SENTENCE RULE ROW`.
fn told(rt: &impl Abort, alloc: Global, file: &[u8], most: usize) -> String {
    let mut text = String::new(alloc);
    for fault in &faults_of(alloc, file, most).expect(rt, "error") {
        push_fault(rt, &mut text, *fault);
    }
    text
}

/// Asserts the first faults of a file.
fn assert_told(rt: &impl Abort, alloc: Global, file: &[u8], most: usize, wanted: &str) {
    let faults = told(rt, alloc, file, most);
    assert_text(rt, faults.as_str(), wanted, "a file");
}

/// The first faults of a file, at most so many.
struct FirstFaults {
    most: usize,
}

impl Question for FirstFaults {
    fn answer(&self, rt: &impl Abort, alloc: Global, asked: &str) -> String {
        let file = unfolded(rt, alloc, asked);
        told(rt, alloc, file.as_str().as_bytes(), self.most)
    }
}

/// Each code, and more than one in a file.
const LINES: &str = "\
    x => 1 10, \n\
    ¶ => 1 9, \n\
    ¶¶x¶ => 1 9, 2 9, 3 4, 4 10, \n\
    # a¶1¶# b¶¶# c => 2 4, 3 8, 5 10, \n\
    # a¶¶ => 2 9, \n\
    # a¶ => 2 10, \n\
    a\u{1}b¶¶ => 1 3, \n\
    e\u{301}¶¶ => 1 2, \n\
    0\tGo\t_\tVERB\t_\t_\tx\troot\t_\t_¶1\tGo\t_\tV B\t_\t_\tx\troot\t_\t_¶1\tGo\t_\tX\t_\t_\tx\troot\t_\t_¶¶ => 1 5, 2 6, 3 7, \n\
    1\tGo\t_\tVERB\t_\t_\t0\troot\t_\t_¶¶¶ => 3 9, \n";

#[test]
fn tells_every_faulty_line(rt: HostRuntime) {
    let alloc = rt.alloc();
    assert_answers(&rt, alloc, &FirstFaults { most: 9 }, LINES, 10);
}

/// A word line and a comment.
#[test]
fn tells_lines_that_are_no_text(rt: HostRuntime) {
    assert_told(&rt, rt.alloc(), b"\xff\n# a\n\n", 9, "1 1, 2 8, ");
    assert_told(&rt, rt.alloc(), b"#\xff\n\n", 9, "1 1, 2 9, ");
}

/// Each rule, and more than one in a sentence.
const SENTENCES: &str = "\
    1\tGo\t_\tVERB\t_\t_\t0\troot\t_\t_¶¶ => 1 1 0, 1 2 0, \n\
    # sent_id = a¶# text = Go¶1\tGo\t_\tX1\t_\tb\t0\troot\t1:\t_¶¶ => 1 4 1, 1 7 1, 1 8 1, \n\
    # sent_id = a¶# text = Stop¶2\tGo\t_\tVERB\t_\t_\t0\troot\t9:x\t_¶¶ => 1 3 0, \n\
    # sent_id = a¶# text = b¶1\tGo\t_\tVERB\t_\t_\t2\tdep\t_\t_¶2\ton\t_\tADP\t_\t_\t1\tdep\t_\t_¶¶ => 1 9 0, 1 10 0, 1 11 0, \n\
    # sent_id = a¶# text = Go¶1-2\tGo\tx\t_\t_\t_\t_\t_\t_\t_¶1\tGo\t_\tVERB\t_\t_\t0\troot\t_\t_¶1.1\tx\t_\tQ\t_\t_\t_\t_\t_\t_¶¶ => 1 5 1, 1 6 3, \n";

#[test]
fn tells_every_broken_rule(rt: HostRuntime) {
    let alloc = rt.alloc();
    assert_answers(&rt, alloc, &FirstFaults { most: 9 }, SENTENCES, 5);
}

/// Four sentences. The first has no text, and the second has its name. The third has two names, so it has none; one of
/// these is the name of the last.
const NAMES: &str =
    "# sent_id = a¶GO¶¶# sent_id = a¶# text = Go¶GO¶¶# sent_id = a¶# sent_id = b¶# text = Go¶GO¶¶\
    # sent_id = b¶# text = Go¶GO¶¶";

/// The file of these sentences. `GO` stands for their word.
fn names(rt: &impl Abort, alloc: Global) -> String {
    let row = "1\tGo\t_\tVERB\t_\t_\t0\troot\t_\t_";
    let text = replaced(rt, alloc, NAMES, "GO", row);
    unfolded(rt, alloc, text.as_str())
}

#[test]
fn tells_names_that_come_twice(rt: HostRuntime) {
    let text = names(&rt, rt.alloc());
    let file = text.as_bytes();
    assert_told(&rt, rt.alloc(), file, 9, "1 2 0, 2 12 0, 3 1 0, ");
    assert_told(&rt, rt.alloc(), file, 2, "1 2 0, 2 12 0, ");
}

#[test]
fn tells_so_many_faults(rt: HostRuntime) {
    assert_told(&rt, rt.alloc(), b"\n\nx\n", 2, "1 9, 2 9, ");
    assert_told(&rt, rt.alloc(), b"\n\nx\n", 0, "");
}

#[test]
fn tells_nothing_of_valid_files(rt: HostRuntime) {
    assert_told(&rt, rt.alloc(), b"", 9, "");
    assert_told(&rt, rt.alloc(), DOGS_BARK.as_bytes(), 9, "");
    assert_told(&rt, rt.alloc(), VAMONOS.as_bytes(), 9, "");
    assert_told(&rt, rt.alloc(), COFFEE_AND_TEA.as_bytes(), 9, "");
}

/// The faulty lines of a file: `LINE CODE`.
fn lines_told(rt: &impl Abort, alloc: Global, file: &[u8]) -> String {
    let mut text = String::new(alloc);
    for faulty in &faulty_lines(alloc, file, 9).expect(rt, "error") {
        push_numbers(rt, &mut text, faulty.line, &[usize::from(faulty.code)]);
    }
    text
}

/// The rules that a sentence breaks: `RULE ROW`.
fn rules_told(rt: &impl Abort, alloc: Global, sentence: &BlockRef<'_>) -> String {
    let mut text = String::new(alloc);
    for broken in &broken_rules(alloc, sentence).expect(rt, "error") {
        push_numbers(rt, &mut text, usize::from(broken.rule), &[broken.row]);
    }
    text
}

#[test]
fn tells_faults_of_lines_and_of_a_sentence(rt: HostRuntime) {
    let lines = lines_told(&rt, rt.alloc(), b"x\n");
    assert_text(&rt, lines.as_str(), "1 4, 2 10, ", "a line");
    let file = names(&rt, rt.alloc());
    let blocks = read_ref(rt.alloc(), file.as_bytes()).expect(&rt, "error");
    let third = blocks.get(2).expect(&rt, "a sentence");
    let rules = rules_told(&rt, rt.alloc(), third);
    assert_text(&rt, rules.as_str(), "1 0, ", "a sentence");
}
