//! Frequency tables, totals and moves as CSV.

use crate::rows::rows_of;
use crate::telling::{assert_bytes, assert_same};
use std::alloc::Global;
use std::process::Abort;
use tb_core::{Move, Totals};
use tb_report::{Freq, Table, write_csv};

/// Keys, separated by bars.
const KEYS: &str =
    "plain|two words|a,b|say \"x\"|line\nfeed|ж|книга|北京|שלום|_|=1+1|\ttab| lead||é|ü,ß|\"|two words|a,b|say \"x\"|ж|книга|北京|_|=1+1|\ttab||é|ü,ß|two words|a,b|ж|книга|_|=1+1||é|two words|ж|_||fifteen letters|sixteen, letters|sixteen, letterz|достопримечательность|fifteen letters|sixteen, letters|достопримечательность|достопримечательность|достопримечательность|достопримечательность|fifteen letter";

/// Their table, as Python's `csv` module wrote it: `csv.writer(file, lineterminator="\n")`, with the rows sorted by
/// `(-count, key.encode())`.
const TABLE: &str =
    "key,count\nдостопримечательность,5\n,4\n_,4\ntwo words,4\nж,4\n=1+1,3\n\"a,b\",3\né,3\nкнига,3\n\ttab,2\nfifteen letters,2\n\"say \"\"x\"\"\",2\n\"sixteen, letters\",2\n\"ü,ß\",2\n北京,2\n lead,1\n\"\"\"\",1\nfifteen letter,1\n\"line\nfeed\",1\nplain,1\n\"sixteen, letterz\",1\nשלום,1\n";

pub(crate) fn count_key(rt: &impl Abort, freq: &mut Freq, key: &str) {
    assert!(rt; freq.total() < 1000);
    freq.add(key).expect(rt, key);
}

/// How often each key comes.
fn keys_counted(rt: &impl Abort, alloc: Global) -> Freq {
    let mut freq = Freq::new(alloc);
    for key in KEYS.split('|') {
        count_key(rt, &mut freq, key);
    }
    freq
}

fn sum_of_rows(rt: &impl Abort, freq: &Freq) -> u64 {
    let mut sum: u64 = 0;
    for (_key, count) in freq.rows().expect(rt, "rows") {
        sum = sum.saturating_add(count);
    }
    sum
}

/// Asserts what a table is, as CSV.
pub(crate) fn assert_table(rt: &impl Abort, alloc: Global, table: &impl Table, wanted: &str) {
    let mut out = Vec::new(alloc);
    write_csv(alloc, table, &mut out).expect(rt, "a table");
    assert_bytes(rt, &out, wanted, "a table");
}

fn assert_counts(rt: &impl Abort, freq: &Freq, added: u64) {
    assert_same(rt, &freq.total(), &added, "the total");
    assert_same(rt, &sum_of_rows(rt, freq), &added, "the sum of the rows");
}

#[test]
fn keys_of_many_scripts(rt: HostRuntime) {
    let freq = keys_counted(&rt, rt.alloc());
    assert_table(&rt, rt.alloc(), &freq, TABLE);
    assert_counts(&rt, &freq, KEYS.split('|').count() as u64);
}

/// Totals, as the same module wrote them. All of them are in a batch that was withdrawn.
const TOTALS: &str = "\
    state,sentences,words\n\
    open,0,0\n\
    assigned,0,0\n\
    submitted,0,0\n\
    adjudicated,0,0\n\
    released,0,0\n\
    withdrawn,2,4\n";

/// Moves, separated by bars: a batch of two sentences, which are pulled, one of them restored and pulled again; one
/// move of each other kind; and moves by users whose names no desk accepts.
const MOVES: &str =
    "1 import 1 0 none open 2 0 4 ann|2 pull 1 2 open withdrawn 1 1 1 dan|3 assign 1 0 open assigned 1 3 3 ann|4 restore 1 2 withdrawn assigned 1 1 1 dan|5 pull 1 2 assigned withdrawn 1 1 1 dan|6 withdraw 1 0 assigned withdrawn 1 3 3 cem|7 reopen 1 0 withdrawn open 1 3 3 ben|8 pull 1 1 open withdrawn 1 3 3 dan|9 assign 1 0 open assigned 0 0 0 ben|10 unassign 1 0 assigned open 0 0 0 ben|11 correct 2 3 assigned assigned 1 3 4 ann|12 submit 2 0 assigned submitted 1 4 4 ann|13 send-back 2 0 submitted assigned 1 4 4 ben|14 adjudicate 2 0 submitted adjudicated 1 4 4 ben|15 release 2 0 adjudicated released 1 4 4 cem|18446744073709551615 submit 1 0 assigned submitted 1 18446744073709551615 0 a,b|18446744073709551615 submit 1 0 assigned submitted 1 18446744073709551615 0 say␣\"x\"|18446744073709551615 submit 1 0 assigned submitted 1 18446744073709551615 0 line\nfeed|18446744073709551615 submit 1 0 assigned submitted 1 18446744073709551615 0 книга|18446744073709551615 submit 1 0 assigned submitted 1 18446744073709551615 0 北京|18446744073709551615 submit 1 0 assigned submitted 1 18446744073709551615 0 שלום|18446744073709551615 submit 1 0 assigned submitted 1 18446744073709551615 0 =1+1|18446744073709551615 submit 1 0 assigned submitted 1 18446744073709551615 0 -|18446744073709551615 submit 1 0 assigned submitted 1 18446744073709551615 0 ␣lead|18446744073709551615 submit 1 0 assigned submitted 1 18446744073709551615 0 \ttab|18446744073709551615 submit 1 0 assigned submitted 1 18446744073709551615 0 \"|18446744073709551615 submit 1 0 assigned submitted 1 18446744073709551615 0 |18446744073709551615 submit 1 0 assigned submitted 1 18446744073709551615 0 é,␣ü";

/// Their table, as the same module wrote it.
const MOVES_WRITTEN: &str =
    "no,kind,batch,sentence,from,to,sentences,words_out,words_in,who\n1,import,1,0,none,open,2,0,4,ann\n2,pull,1,2,open,withdrawn,1,1,1,dan\n3,assign,1,0,open,assigned,1,3,3,ann\n4,restore,1,2,withdrawn,assigned,1,1,1,dan\n5,pull,1,2,assigned,withdrawn,1,1,1,dan\n6,withdraw,1,0,assigned,withdrawn,1,3,3,cem\n7,reopen,1,0,withdrawn,open,1,3,3,ben\n8,pull,1,1,open,withdrawn,1,3,3,dan\n9,assign,1,0,open,assigned,0,0,0,ben\n10,unassign,1,0,assigned,open,0,0,0,ben\n11,correct,2,3,assigned,assigned,1,3,4,ann\n12,submit,2,0,assigned,submitted,1,4,4,ann\n13,send-back,2,0,submitted,assigned,1,4,4,ben\n14,adjudicate,2,0,submitted,adjudicated,1,4,4,ben\n15,release,2,0,adjudicated,released,1,4,4,cem\n18446744073709551615,submit,1,0,assigned,submitted,1,18446744073709551615,0,\"a,b\"\n18446744073709551615,submit,1,0,assigned,submitted,1,18446744073709551615,0,\"say \"\"x\"\"\"\n18446744073709551615,submit,1,0,assigned,submitted,1,18446744073709551615,0,\"line\nfeed\"\n18446744073709551615,submit,1,0,assigned,submitted,1,18446744073709551615,0,книга\n18446744073709551615,submit,1,0,assigned,submitted,1,18446744073709551615,0,北京\n18446744073709551615,submit,1,0,assigned,submitted,1,18446744073709551615,0,שלום\n18446744073709551615,submit,1,0,assigned,submitted,1,18446744073709551615,0,=1+1\n18446744073709551615,submit,1,0,assigned,submitted,1,18446744073709551615,0,-\n18446744073709551615,submit,1,0,assigned,submitted,1,18446744073709551615,0, lead\n18446744073709551615,submit,1,0,assigned,submitted,1,18446744073709551615,0,\ttab\n18446744073709551615,submit,1,0,assigned,submitted,1,18446744073709551615,0,\"\"\"\"\n18446744073709551615,submit,1,0,assigned,submitted,1,18446744073709551615,0,\n18446744073709551615,submit,1,0,assigned,submitted,1,18446744073709551615,0,\"é, ü\"\n";

#[test]
fn totals_and_moves(rt: HostRuntime) {
    let totals = Totals {
        sentences: [0, 0, 0, 0, 0, 2],
        words: [0, 0, 0, 0, 0, 4],
    };
    assert_table(&rt, rt.alloc(), &totals, TOTALS);
    let moves: Vec<Move> = rows_of(&rt, rt.alloc(), MOVES, "|");
    assert_table(&rt, rt.alloc(), &moves, MOVES_WRITTEN);
}
