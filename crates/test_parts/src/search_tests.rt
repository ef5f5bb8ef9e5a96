//! What a user of tb_query sees: hits, tables, the expressions of a query, and the faults of a text that is no query.
//! The expected answers were worked out by hand; tools/queries asks the program for many more queries.

use crate::cases::{Question, assert_answers};
use crate::files::BOAT;
use crate::match_tests::search;
use crate::parsing::{query_of, sentences_of};
use crate::telling::{assert_holds, assert_same, assert_text, shown, value_text};
use std::alloc::Global;
use std::process::Abort;
use tb_conllu::{BlockOf, BlockRef, Text, own_block, words};
use tb_match::{Found, Strategy, Truth};
use tb_query::{Attr, Expr, Flag, Query, Searcher, parse};

/// Asserts the hits. A pattern of weight 6 takes at most 168 unions on six words.
fn assert_found(rt: &impl Abort, found: &Found, hits: &[(u32, u32)]) {
    assert_holds(rt, *found.hits.as_slice() == *hits, "the hits");
    assert_holds(rt, found.steps <= 168, "the steps");
}

/// A query, and a searcher of it that serves many sentences.
#[derive(Drop)]
struct Asked<'q> {
    query: &'q Query,
    searcher: Searcher<'q>,
}

/// A sentence that is searched in one way, and the hits that are wanted.
#[derive(Drop)]
struct Case<'a, T: Text> {
    sentence: &'a BlockOf<T>,
    strategy: Strategy,
    hits: &'a [(u32, u32)],
}

/// Asserts the hits by the query, which makes a searcher, and by a searcher that serves many.
fn assert_hits<T: Text>(rt: &impl Abort, alloc: Global, asked: &mut Asked<'_>, case: &Case<'_, T>) {
    let few = words(case.sentence) <= 1000;
    assert!(rt; few, "the sentence is searched");
    let by_query = asked.query.hits(alloc, case.sentence, case.strategy);
    assert_found(rt, &by_query.expect(rt, "error"), case.hits);
    let by_searcher = asked.searcher.hits(alloc, case.sentence, case.strategy);
    assert_found(rt, &by_searcher.expect(rt, "error"), case.hits);
}

/// Asserts what the matcher finds where these expressions hold.
fn assert_matches(
    rt: &impl Abort,
    alloc: Global,
    query: &Query,
    table: &Truth,
    strategy: Strategy,
    hits: &[(u32, u32)],
) {
    let found = search(rt, alloc, query.pat(), table, strategy);
    assert_found(rt, &found, hits);
}

/// Asserts what the matcher finds in the tables of the query and of its searcher.
fn by_tables<T: Text>(rt: &impl Abort, alloc: Global, asked: &mut Asked<'_>, case: &Case<'_, T>) {
    let few = words(case.sentence) <= 1000;
    assert!(rt; few, "the sentence is searched");
    let table = asked.query.truth(alloc, case.sentence).expect(rt, "error");
    assert_matches(rt, alloc, asked.query, &table, case.strategy, case.hits);
    let table = asked
        .searcher
        .truth(alloc, case.sentence)
        .expect(rt, "error");
    assert_matches(rt, alloc, asked.query, &table, case.strategy, case.hits);
}

/// Asserts the hits in a sentence, found by the query, by its searcher, and by the matcher in the tables of both.
fn assert_finds<T: Text>(
    rt: &impl Abort,
    alloc: Global,
    asked: &mut Asked<'_>,
    sentence: &BlockOf<T>,
    strategy: Strategy,
    hits: &[(u32, u32)],
) {
    let case = Case {
        sentence,
        strategy,
        hits,
    };
    assert_hits(rt, alloc, asked, &case);
    by_tables(rt, alloc, asked, &case);
}

/// A sentence without words has no hit.
fn assert_none(rt: &impl Abort, alloc: Global, asked: &mut Asked<'_>) {
    let empty = BlockRef {
        comments: Vec::new(alloc),
        rows: Vec::new(alloc),
    };
    assert_finds(rt, alloc, asked, &empty, Strategy::Shortest, &[]);
    assert_finds(rt, alloc, asked, &empty, Strategy::Longest, &[]);
    assert_finds(rt, alloc, asked, &empty, Strategy::Every, &[]);
}

/// The hits in the sentence of the boat, by each strategy.
fn assert_boat<T: Text>(rt: &impl Abort, alloc: Global, asked: &mut Asked<'_>, boat: &BlockOf<T>) {
    let hits = [(3, 4), (5, 6)];
    assert_finds(rt, alloc, asked, boat, Strategy::Shortest, &hits);
    let hits = [(1, 4), (5, 6)];
    assert_finds(rt, alloc, asked, boat, Strategy::Longest, &hits);
    let hits = [(1, 4), (2, 4), (3, 4), (5, 6)];
    assert_finds(rt, alloc, asked, boat, Strategy::Every, &hits);
}

/// The same in a borrowed sentence and in an owned copy.
fn assert_boats(rt: &impl Abort, alloc: Global, asked: &mut Asked<'_>) {
    let boats = sentences_of(rt, alloc, BOAT);
    assert_same(rt, &boats.len(), &1, "the sentences");
    let boat = boats.first().expect(rt, "a sentence");
    let owned = own_block(alloc, boat).expect(rt, "error");
    assert_boat(rt, alloc, asked, boat);
    assert_boat(rt, alloc, asked, &owned);
}

/// Adjectives and a noun, by one searcher.
#[test]
fn sentences_are_searched(rt: HostRuntime) {
    let query = query_of(&rt, rt.alloc(), r#"[upos="ADJ"]* [upos="NOUN"]"#);
    let mut asked = Asked {
        query: &query,
        searcher: query.searcher(rt.alloc()).expect(&rt, "error"),
    };
    assert_boats(&rt, rt.alloc(), &mut asked);
    assert_none(&rt, rt.alloc(), &mut asked);
}

/// Asserts that the expression asks for the lemma `dog`.
fn assert_dog(rt: &impl Abort, expr: &Expr) {
    match expr {
        Expr::Whole(attr, needle) => {
            assert_holds(rt, *attr == Attr::Lemma, "the column");
            assert_holds(rt, needle.flag() == Flag::Literal, "the flag");
            assert_text(rt, needle.text(), "dog", "the literal");
        }
        _ => panic!(rt; "no column is asked"),
    }
}

fn assert_asks(rt: &impl Abort, alloc: Global, query: &Query) {
    let pattern = value_text(rt, alloc, query.pat());
    assert_text(rt, pattern.as_str(), "Tok(0)", "the pattern");
    assert_same(rt, &query.exprs().len(), &1, "the expressions");
    assert_dog(rt, query.exprs().first().expect(rt, "an expression"));
}

#[test]
fn expressions_are_handed_out(rt: HostRuntime) {
    let query = query_of(&rt, rt.alloc(), r#"[lemma="dog"%l]"#);
    assert_asks(&rt, rt.alloc(), &query);
}

/// The fault of a text that is no query, in words.
struct InWords;

impl Question for InWords {
    fn answer(&self, rt: &impl Abort, alloc: Global, asked: &str) -> String {
        let fault = parse(alloc, asked).err().expect(rt, asked);
        shown(rt, alloc, &fault)
    }
}

const MESSAGES: &str = r#"[upos=] => outside the grammar at byte 6
"a" "[" => literal 2 is no pattern"#;

#[test]
fn faults_are_said(rt: HostRuntime) {
    assert_answers(&rt, rt.alloc(), &InWords, MESSAGES, 2)
}
