//! What is read from bytes: rows, sentences one after another, and the first fault. The expected answers were worked
//! out by hand.

use crate::cases::{Question, assert_answers};
use crate::files::{file_of, unfolded};
use crate::telling::{assert_same, assert_text, push_value, put, said, value_text};
use std::alloc::Global;
use std::process::Abort;
use tb_conllu::{
    BlockOf, BlockRef, RowOf, Sentences, Text, head_of, id_of, is_word_row, own_block, own_row,
    read, read_ref, row_of, words,
};

fn push_field<T: Text>(rt: &impl Abort, list: &mut String, field: &T) {
    put(rt, list, "/");
    put(rt, list, field.text());
}

/// Appends the fields of a row but its ID and its head, in their order.
fn push_fields<T: Text>(rt: &impl Abort, list: &mut String, row: &RowOf<T>) {
    push_field(rt, list, &row.form);
    push_field(rt, list, &row.lemma);
    push_field(rt, list, &row.upos);
    push_field(rt, list, &row.xpos);
    push_field(rt, list, &row.feats);
    push_field(rt, list, &row.deprel);
    push_field(rt, list, &row.deps);
    push_field(rt, list, &row.misc);
}

/// Appends whether the row is a word, its ID and its head as read, and its other fields.
fn push_row<T: Text>(rt: &impl Abort, list: &mut String, row: &RowOf<T>) {
    let kind = if is_word_row(row) {
        "word "
    } else {
        "no word "
    };
    put(rt, list, kind);
    push_value(rt, list, &row.id);
    put(rt, list, " ");
    push_value(rt, list, &row.head);
    push_fields(rt, list, row);
    put(rt, list, "\n");
}

/// Appends how many words the sentence has, its comments and its rows.
fn push_block<T: Text>(rt: &impl Abort, list: &mut String, block: &BlockOf<T>) {
    push_value(rt, list, &words(block));
    put(rt, list, " words\n");
    for comment in &block.comments {
        put(rt, list, comment.text());
        put(rt, list, "\n");
    }
    for row in &block.rows {
        push_row(rt, list, row);
    }
}

/// The lines of a sentence.
pub(crate) fn block_text<T: Text>(rt: &impl Abort, alloc: Global, block: &BlockOf<T>) -> String {
    let mut list = String::new(alloc);
    push_block(rt, &mut list, block);
    list
}

/// Asserts that the sentences are those of the files V, C and D.
fn assert_fields<T: Text>(rt: &impl Abort, alloc: Global, blocks: &[BlockOf<T>]) {
    let mut list = String::new(alloc);
    for block in blocks {
        push_block(rt, &mut list, block);
    }
    assert_text(rt, list.as_str(), FIELDS, "the fields");
}

/// The three files D, V and C in the order V, C, D, as `assert_fields` writes them.
pub(crate) const FIELDS: &str = "\
    5 words\n\
    # sent_id = s2\n\
    # text = vámonos al mar\n\
    no word Span(1, 2) None/vámonos/_/_/_/_/_/_/_\n\
    word Word(1) Some(0)/vamos/ir/VERB/_/_/root/_/_\n\
    word Word(2) Some(1)/nos/nosotros/PRON/_/_/obj/_/_\n\
    no word Span(3, 4) None/al/_/_/_/_/_/_/_\n\
    word Word(3) Some(5)/a/a/ADP/_/_/case/_/_\n\
    word Word(4) Some(5)/el/el/DET/_/_/det/_/_\n\
    word Word(5) Some(1)/mar/mar/NOUN/_/_/obl/_/_\n\
    6 words\n\
    # sent_id = s3\n\
    # text = Sue likes coffee and Bill tea\n\
    word Word(1) Some(2)/Sue/Sue/PROPN/_/_/nsubj/2:nsubj/_\n\
    word Word(2) Some(0)/likes/like/VERB/_/_/root/0:root/_\n\
    word Word(3) Some(2)/coffee/coffee/NOUN/_/_/obj/2:obj/_\n\
    word Word(4) Some(5)/and/and/CCONJ/_/_/cc/5.1:cc/_\n\
    word Word(5) Some(2)/Bill/Bill/PROPN/_/_/conj/5.1:nsubj/_\n\
    no word Empty(5, 1) None/likes/like/VERB/_/_/_/2:conj/_\n\
    word Word(6) Some(5)/tea/tea/NOUN/_/_/orphan/5.1:obj/_\n\
    3 words\n\
    # sent_id = s1\n\
    # text = Dogs bark.\n\
    word Word(1) Some(2)/Dogs/dog/NOUN/_/Number=Plur/nsubj/_/_\n\
    word Word(2) Some(0)/bark/bark/VERB/_/_/root/_/SpaceAfter=No\n\
    word Word(3) Some(2)/././PUNCT/_/_/punct/_/_\n";

/// Reads the file into sentences that own their texts, and into sentences that borrow them.
fn assert_read(rt: &impl Abort, alloc: Global, file: &[u8]) {
    let blocks = read(alloc, file).expect(rt, "error");
    assert_fields(rt, alloc, &blocks);
    let borrowed = read_ref(alloc, file).expect(rt, "error");
    assert_fields(rt, alloc, &borrowed);
}

/// A row of ten different fields.
fn assert_row(rt: &impl Abort, alloc: Global) {
    let row = row_of("8.1\tw w\tl\tX\tx\tf\t_\tr\td\tm m").expect(rt, "error");
    let owned = own_row(alloc, &row).expect(rt, "error");
    let mut list = String::new(alloc);
    push_row(rt, &mut list, &owned);
    let wanted = "no word Empty(8, 1) None/w w/l/X/x/f/r/d/m m\n";
    assert_text(rt, list.as_str(), wanted, "a row");
}

#[test]
fn reads_the_fields_of_each_row(rt: HostRuntime) {
    let file = file_of(&rt, rt.alloc(), "V C D");
    assert_read(&rt, rt.alloc(), file.as_bytes());
    let none = read_ref(rt.alloc(), b"").expect(&rt, "error");
    assert_same(&rt, &none.len(), &0, "no file");
    assert_row(&rt, rt.alloc());
}

fn owned_text(rt: &impl Abort, alloc: Global, block: &BlockRef<'_>) -> String {
    let owned = own_block(alloc, block).expect(rt, "error");
    block_text(rt, alloc, &owned)
}

/// The lines of an owned copy of the next sentence; or that none is left; or the fault.
fn next_text(rt: &impl Abort, alloc: Global, left: &mut Sentences<'_>) -> String {
    match left.read_next(alloc) {
        Ok(Some(block)) => owned_text(rt, alloc, &block),
        Ok(None) => said(rt, alloc, "nothing"),
        Err(fault) => value_text(rt, alloc, &fault),
    }
}

/// Asserts what comes next.
fn assert_next(rt: &impl Abort, alloc: Global, left: &mut Sentences<'_>, wanted: &str) {
    let next = next_text(rt, alloc, left);
    assert_text(rt, next.as_str(), wanted, "what comes next");
}

/// The lines of the next three sentences.
fn three_texts(rt: &impl Abort, alloc: Global, left: &mut Sentences<'_>) -> String {
    let mut fields = String::new(alloc);
    for _ in 0..3 {
        put(rt, &mut fields, next_text(rt, alloc, left).as_str());
    }
    fields
}

fn assert_in_turn(rt: &impl Abort, alloc: Global, file: &[u8]) {
    let mut left = Sentences::new(file);
    let fields = three_texts(rt, alloc, &mut left);
    assert_text(rt, fields.as_str(), FIELDS, "three sentences");
    assert_next(rt, alloc, &mut left, "At { line: 27, code: 10 }");
    assert_next(rt, alloc, &mut left, "At { line: 27, code: 10 }");
}

/// A fault is reported again where it was reported before.
#[test]
fn reads_one_sentence_after_another(rt: HostRuntime) {
    let file = file_of(&rt, rt.alloc(), "V C D x");
    assert_in_turn(&rt, rt.alloc(), file.as_bytes());
    assert_next(&rt, rt.alloc(), &mut Sentences::new(b""), "nothing");
}

/// What is wrong with a file, and what an ID and a HEAD spell.
enum ReadQuestion {
    Fault,
    Id,
    Head,
}

fn read_fault(rt: &impl Abort, alloc: Global, asked: &str) -> String {
    let file = unfolded(rt, alloc, asked);
    value_text(rt, alloc, &read(alloc, file.as_bytes()).err())
}

impl Question for ReadQuestion {
    fn answer(&self, rt: &impl Abort, alloc: Global, asked: &str) -> String {
        match self {
            ReadQuestion::Fault => read_fault(rt, alloc, asked),
            ReadQuestion::Id => value_text(rt, alloc, &id_of(asked)),
            ReadQuestion::Head => value_text(rt, alloc, &head_of(asked)),
        }
    }
}

/// The first faulty line is reported, with its lowest code.
const FAULTS: &str = "\
    # a¶¶ => Some(At { line: 2, code: 9 })\n\
    # \u{1}e\u{301}¶ => Some(At { line: 1, code: 2 })\n\
    1\tw\tw\tX\t_\t_\t0\troot\t_\t_¶# x¶ => Some(At { line: 2, code: 8 })\n\
    01\tw\tw\tX\tN N\t_\tx\troot\t_\t_¶ => Some(At { line: 1, code: 5 })\n\
    1\tw w\tw w\tX\t_\t_\t0\troot\t_\tw w¶ => Some(At { line: 2, code: 10 })\n";

const IDS: &str = "\
    1 => Some(Word(1))\n\
    999999 => Some(Word(999999))\n\
    10-12 => Some(Span(10, 12))\n\
    0.1 => Some(Empty(0, 1))\n\
    1000000 => None\n\
    0 => None\n\
    01 => None\n\
    1- => None\n\
    0-2 => None\n\
    1-2-3 => None\n\
    3.0 => None\n\
    .1 => None\n\
    \x20=> None\n";

const HEADS: &str = "\
    _ => Some(None)\n\
    0 => Some(Some(0))\n\
    12 => Some(Some(12))\n\
    -1 => None\n\
    1000000 => None\n";

#[test]
fn tells_faults_and_spells_numbers(rt: HostRuntime) {
    let alloc = rt.alloc();
    assert_answers(&rt, alloc, &ReadQuestion::Fault, FAULTS, 5);
    assert_answers(&rt, alloc, &ReadQuestion::Id, IDS, 13);
    assert_answers(&rt, alloc, &ReadQuestion::Head, HEADS, 5)
}
