//! Keyword lines and counts of hits.

use crate::csv_tests::{assert_table, count_key};
use crate::files::file_of;
use crate::reading::{number, word_at};
use crate::telling::assert_bytes;
use std::alloc::Global;
use std::process::Abort;
use tb_conllu::{Block, read, words};
use tb_report::{Freq, key, kwic, word_key};
use tb_rules::check;
use tb_syntax::Attr;

/// Writes the keyword line of a hit.
fn put_line(
    rt: &impl Abort,
    alloc: Global,
    block: &Block,
    hit: (u32, u32),
    context: u8,
    lines: &mut Vec<u8>,
) {
    assert!(rt; hit.0 < hit.1);
    assert!(rt; hit.1 as usize <= words(block));
    assert!(rt; context <= 20);
    check(alloc, block).expect(rt, "the rules");
    kwic(block, hit, context, lines).expect(rt, "a line");
}

/// The lemmas of a hit. That of one word is also found without memory.
fn lemmas(rt: &impl Abort, alloc: Global, block: &Block, hit: (u32, u32)) -> String {
    assert!(rt; hit.0 < hit.1);
    assert!(rt; hit.1 as usize <= words(block));
    let found = key(alloc, block, hit, Attr::Lemma).expect(rt, "a key");
    let lone = word_key(block, hit, Attr::Lemma);
    assert!(rt; lone.is_some() == (hit.0 + 1 == hit.1));
    assert!(rt; lone.is_none() || lone == Some(found.as_str()));
    found
}

/// Writes the keyword line of a hit, and counts the hit's key.
fn report(
    rt: &impl Abort,
    alloc: Global,
    block: &Block,
    asked: &str,
    lines: &mut Vec<u8>,
    freq: &mut Freq,
) {
    let start = number(rt, word_at(asked, 1)).min(1000) as u32;
    let end = number(rt, word_at(asked, 2)).min(1000) as u32;
    let context = number(rt, word_at(asked, 3)).min(20) as u8;
    put_line(rt, alloc, block, (start, end), context, lines);
    count_key(rt, freq, lemmas(rt, alloc, block, (start, end)).as_str());
}

/// Hits as `TEXT START END CONTEXT`. The words of V are in ranges, whose rows are no words.
const HITS: &str = "\
    book 2 3 2\n\
    book 5 6 2\n\
    book 8 9 2\n\
    book 0 9 2\n\
    go 0 1 0\n\
    V 2 4 20\n\
    letters 0 1 1\n\
    letters 1 2 1\n\
    letters 2 3 1\n\
    letters 3 4 1\n\
    letters 4 5 1\n";

const LINES: &str = "\
    s6\t3\t3\tthe old\tbook\ton the\n\
    s6\t6\t6\ton the\ttable\tin the\n\
    s6\t9\t9\tin the\troom\t\n\
    s6\t1\t9\t\tthe old book on the table in the room\t\n\
    s7\t1\t1\t\tGo\t\n\
    s2\t3\t4\tvamos nos\ta el\tmar\n\
    s8\t1\t1\t\tb\tb\n\
    s8\t2\t2\tb\tb\ta\n\
    s8\t3\t3\tb\ta\ta\n\
    s8\t4\t4\ta\ta\tz\n\
    s8\t5\t5\ta\tz\t\n";

const TABLE: &str =
    "key,count\na,2\nb,2\na el,1\nbook,1\n\"c,\"\"d\"\"\",1\ngo,1\nroom,1\ntable,1\nthe old book on the table in the room,1\n";

fn report_in(rt: &impl Abort, alloc: Global, asked: &str, lines: &mut Vec<u8>, freq: &mut Freq) {
    let file = file_of(rt, alloc, word_at(asked, 0));
    let blocks = read(alloc, file.as_bytes()).expect(rt, asked);
    let block = blocks.first().expect(rt, asked);
    report(rt, alloc, block, asked, lines, freq);
}

fn report_all(rt: &impl Abort, alloc: Global, lines: &mut Vec<u8>, freq: &mut Freq) {
    for asked in HITS.lines() {
        report_in(rt, alloc, asked, lines, freq);
    }
}

#[test]
fn hits_are_reported_and_counted(rt: HostRuntime) {
    let mut lines = Vec::new(rt.alloc());
    let mut freq = Freq::new(rt.alloc());
    report_all(&rt, rt.alloc(), &mut lines, &mut freq);
    assert_bytes(&rt, &lines, LINES, "hits");
    assert_table(&rt, rt.alloc(), &freq, TABLE);
}
