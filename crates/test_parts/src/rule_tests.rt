//! The rules: the values of a sentence, one sentence after another, and faults in words. The expected answers were
//! worked out by hand from the rules.

use crate::cases::{Question, assert_answers, cut};
use crate::files::{VAMONOS, changed, file_of, unfolded};
use crate::telling::{assert_text, joined, push_value, put, said, shown};
use std::alloc::Global;
use std::process::Abort;
use tb_conllu::{BlockRef, LineId, ReadFault, Sentences, read_ref};
use tb_rules::{Checker, check, check_all, restored, sent_id, text};

/// The last sentence of a file.
fn sentence_of<'a>(rt: &impl Abort, alloc: Global, file: &'a str) -> BlockRef<'a> {
    let mut blocks = read_ref(alloc, file.as_bytes()).expect(rt, "error");
    blocks.pop().expect(rt, "a sentence")
}

/// Three words, the second with a space inside, the first without one after it.
const THREE_WORDS: &str = "\
    # sent_id = t\n\
    1\t(\t_\tPUNCT\t_\t_\t2\tpunct\t_\tGloss=a|SpaceAfter=No\n\
    2\thọc sinh\t_\tNOUN\t_\t_\t0\troot\t_\t_\n\
    3\tở\t_\tVERB\t_\t_\t2\tdep\t_\t_\n\
    \n";

/// A file of rows `ID FORM`.
fn rows_of(rt: &impl Abort, alloc: Global, rows: &str) -> String {
    let mut file = String::new(alloc);
    for row in rows.split(", ") {
        let (id, form) = cut(rt, row, " ");
        put(rt, &mut file, id);
        put(rt, &mut file, "\t");
        put(rt, &mut file, form);
        put(rt, &mut file, "\t_\t_\t_\t_\t_\t_\t_\t_\n");
    }
    put(rt, &mut file, "\n");
    file
}

/// Gives the first row the ID of word 0, which no line can have.
fn set_first(rt: &impl Abort, sentence: &mut BlockRef<'_>) {
    let first = sentence.rows.get_mut(0).expect(rt, "a row");
    first.id = LineId::Word(0);
}

/// The text that rows `ID FORM` spell. The first row is that of word 0.
struct Restored;

impl Question for Restored {
    fn answer(&self, rt: &impl Abort, alloc: Global, asked: &str) -> String {
        let file = rows_of(rt, alloc, asked);
        let mut sentence = sentence_of(rt, alloc, file.as_str());
        set_first(rt, &mut sentence);
        restored(alloc, &sentence).expect(rt, "error")
    }
}

/// Ranges behind their words, inside one another, and of no words; word 0 is in no range here.
const ROWS_IN_ANY_ORDER: &str = "\
    9 z, 2 b, 1-3 c, 1 a => z c\n\
    9 z, 2 b, 1-3 c, 1 a, 5-4 d, 4 e, 2-2 f => z c d e f\n";

/// Appends the name and the text of a sentence, and the first rule that it breaks.
fn push_values(rt: &impl Abort, alloc: Global, list: &mut String, sentence: &BlockRef<'_>) {
    push_value(rt, list, &sent_id(sentence));
    put(rt, list, " ");
    push_value(rt, list, &text(sentence));
    put(rt, list, " ");
    push_value(rt, list, &check(alloc, sentence));
}

/// The same for the sentence of a file.
fn values_of(rt: &impl Abort, alloc: Global, file: &str) -> String {
    let sentence = sentence_of(rt, alloc, file);
    let mut list = String::new(alloc);
    push_values(rt, alloc, &mut list, &sentence);
    list
}

/// The same for a sentence with these comments.
struct Values;

impl Question for Values {
    fn answer(&self, rt: &impl Abort, alloc: Global, asked: &str) -> String {
        let comments = unfolded(rt, alloc, asked);
        let row = "\n1\tGo\t_\tVERB\t_\t_\t0\troot\t_\t_\n\n";
        let file = joined(rt, alloc, &[comments.as_str(), row]);
        values_of(rt, alloc, file.as_str())
    }
}

const COMMENTS: &str = "\
    # newdoc¶# sent_ids = a => None None Err(At { rule: 1, row: 0 })\n\
    # sent_id = a¶# text = Go => Some(\"a\") Some(\"Go\") Ok(())\n\
    # sent_id = a¶#text=x = y  => Some(\"a\") Some(\"x = y\") Err(At { rule: 11, row: 0 })\n\
    # sent_id = a¶# sent_id = a¶# text = x¶# text = => None None Err(At { rule: 1, row: 0 })\n";

/// Asserts the text that the rows of a file's sentence spell.
fn assert_restored(rt: &impl Abort, alloc: Global, file: &str, wanted: &str) {
    let sentence = sentence_of(rt, alloc, file);
    let found = restored(alloc, &sentence).expect(rt, "error");
    assert_text(rt, found.as_str(), wanted, "the rows");
}

#[test]
fn gives_the_values_of_a_sentence(rt: HostRuntime) {
    let alloc = rt.alloc();
    assert_restored(&rt, alloc, VAMONOS, "vámonos al mar");
    assert_restored(&rt, alloc, THREE_WORDS, "(học sinh ở");
    let values = values_of(&rt, alloc, VAMONOS);
    let wanted = "Some(\"s2\") Some(\"vámonos al mar\") Ok(())";
    assert_text(&rt, values.as_str(), wanted, "a sentence");
    assert_answers(&rt, alloc, &Restored, ROWS_IN_ANY_ORDER, 2);
    assert_answers(&rt, alloc, &Values, COMMENTS, 4)
}

/// Appends what is reported for a sentence.
fn push_reported(
    rt: &impl Abort,
    checker: &mut Checker,
    list: &mut String,
    sentence: &BlockRef<'_>,
) {
    put(rt, list, "/");
    push_value(rt, list, &checker.take(sentence));
}

/// Appends what is reported for each sentence of a file.
fn push_all(rt: &impl Abort, alloc: Global, checker: &mut Checker, list: &mut String, file: &str) {
    for sentence in &read_ref(alloc, file.as_bytes()).expect(rt, "error") {
        push_reported(rt, checker, list, sentence);
    }
}

/// A sentence at fault is not accepted, and the next takes its place.
#[test]
fn goes_on_after_a_fault(rt: HostRuntime) {
    let alloc = rt.alloc();
    let file = file_of(&rt, alloc, "V D V D");
    let file = changed(&rt, alloc, file.as_str(), "bark. -> barks.");
    let mut checker = Checker::new(alloc);
    let mut reported = String::new(alloc);
    push_all(&rt, alloc, &mut checker, &mut reported, file.as_str());
    let wanted =
        "/Ok(())/Err(At { sentence: 2, rule: 11, row: 0 })/Err(At { sentence: 2, rule: 12, row: 0 })/Ok(())";
    assert_text(&rt, reported.as_str(), wanted, "rule_tests");
}

/// A sentence without its name.
const GO: &str = "# text = Go\n1\tGo\t_\tVERB\t_\tMood=Imp|VerbForm=Fin\t0\troot\t_\t_\n\n";

/// The sentence with this number for its name, after a change.
fn named(rt: &impl Abort, alloc: Global, name: u32, change: &str) -> String {
    let name = shown(rt, alloc, &name);
    let file = joined(rt, alloc, &["# sent_id = ", name.as_str(), "\n", GO]);
    changed(rt, alloc, file.as_str(), change)
}

/// Asserts what is reported for a sentence with this name, after a change.
fn assert_taken(
    rt: &impl Abort,
    alloc: Global,
    checker: &mut Checker,
    name: u32,
    change: &str,
    wanted: &str,
) {
    let file = named(rt, alloc, name, change);
    let mut reported = String::new(alloc);
    push_all(rt, alloc, checker, &mut reported, file.as_str());
    assert_text(rt, reported.as_str(), wanted, change);
}

/// Sentences 1 to 100 are accepted, and three changes of the next one are not.
fn assert_known(rt: &impl Abort, alloc: Global, checker: &mut Checker) {
    for name in 1..=100 {
        assert_taken(rt, alloc, checker, name, "Go -> Go", "/Ok(())");
    }
    let feature = "/Err(At { sentence: 101, rule: 7, row: 1 })";
    assert_taken(rt, alloc, checker, 101, "Imp -> imp", feature);
    let tag = "/Err(At { sentence: 101, rule: 4, row: 1 })";
    assert_taken(rt, alloc, checker, 101, "VERB -> VERV", tag);
    assert_taken(rt, alloc, checker, 101, "root -> rood", tag);
}

/// A value that comes again is accepted each time. A value that differs from it in one letter is not.
#[test]
fn knows_what_came_before(rt: HostRuntime) {
    let mut checker = Checker::new(rt.alloc());
    assert_known(&rt, rt.alloc(), &mut checker);
}

/// What is reported in words for a file after a change, `NAMES: OLD -> NEW`: whether everything after its first
/// sentence can be read, and then whether the rules are kept.
struct Words;

/// Reads everything after the first sentence of a file.
fn rest_read(rt: &impl Abort, alloc: Global, file: &str) -> Result<(), ReadFault> {
    let mut unread = Sentences::new(file.as_bytes());
    drop(unread.read_next(alloc).expect(rt, "error"));
    unread.read_rest(alloc)
}

fn rules_in_words(rt: &impl Abort, alloc: Global, file: &str) -> String {
    let blocks = read_ref(alloc, file.as_bytes()).expect(rt, "error");
    match check_all(alloc, &blocks) {
        Ok(()) => said(rt, alloc, "kept"),
        Err(fault) => shown(rt, alloc, &fault),
    }
}

fn in_words(rt: &impl Abort, alloc: Global, file: &str) -> String {
    match rest_read(rt, alloc, file) {
        Ok(()) => rules_in_words(rt, alloc, file),
        Err(fault) => shown(rt, alloc, &fault),
    }
}

impl Question for Words {
    fn answer(&self, rt: &impl Abort, alloc: Global, asked: &str) -> String {
        let (names, change) = cut(rt, asked, ": ");
        let file = file_of(rt, alloc, names);
        let file = changed(rt, alloc, file.as_str(), change);
        in_words(rt, alloc, file.as_str())
    }
}

const WORDS: &str = "\
    V: _ -> _ => kept\n\
    V C D: _ -> _ => kept\n\
    V line-feed: _ -> _ => line 11: it is blank, and no word line came before it (code 9)\n\
    V D x: _ -> _ => line 17: the file ends without a blank line after its last sentence (code 10)\n\
    V D: s1 -> s2 => sentence 2, rule 12: no sentence before it in the file has its sent_id\n\
    V D: bark. -> bark => sentence 2, rule 11: the forms spell the text, but for white space\n\
    V D: Number=Plur -> number=Plur => sentence 2, row 1, rule 7: FEATS is _ or Name=Value items, in order and without repetition\n";

#[test]
fn faults_are_reported_in_words(rt: HostRuntime) {
    assert_answers(&rt, rt.alloc(), &Words, WORDS, 7)
}
