//! Queries as lists of lexemes and as texts. The expected answers were worked out by hand from the grammar, the limits
//! and the documentation of Rust's regex crate. tools/queries asks the program for the faults of many more texts.

use crate::cases::assert_answers;
use crate::lexemes::lexemes;
use crate::questions::TextQuestion;
use crate::telling::{assert_holds, assert_same};
use std::process::Abort;
use tb_query::{
    a_query_has_no_fault, a_text_asks_one_thing, a_text_has_one_fault, a_text_has_one_reading,
    literals_are_in_order,
};
use tb_syntax::{
    Flag, Lexeme, count_expressions, literals_are_quoted, nests_within, one_fault, one_lexing,
    one_reading, one_saying, one_unquoting, scan,
};

/// An empty list ends too early; at first, a parenthesis may be opened but not closed; two queries use every
/// production. Then come `[upos=]`, `"a"{x`, `[word contains "a"]`, `"a" "b")`, `"a" within s within` and
/// `[(upos="a"]`, and parentheses that need no stack.
const SCANS: &str = r#" => Some(0)
( => Some(1)
) => Some(0)
[]*|("c"{1}"{1,}"l{1,2})+[]?WS; => None
[!(w="c|m~")&fC"&f="l]; => None
[u=] => Some(3)
"{x => Some(2)
[wC"] => Some(2)
"") => Some(2)
"WSW => Some(3)
[(u="] => Some(5)
2000×( => Some(2000)"#;

/// `"a"{n}`, `"a"{n,}`, `"a"{n,m}`
const REPEATS: &str = r#""{1} => true
"{T} => true
"{U} => false
"{0} => false
"{0,} => true
"{T,} => true
"{U,} => false
"{0,T} => true
"{T,T} => true
"{3,2} => false
"{0,0} => false
"{0,U} => false"#;

/// Each fault, with literals of any value; many signs, which need no stack.
const FAULTS: &str = r#"[word="go"%c & !feats contains "X"] => None
"(" => None
[ 1989×! word="a"] => None
[] 1999×␣ => Some(TooLong)
2000×( => Some(Syntax(2000))
"a" 'b => Some(Syntax(4))
33×[] => Some(TooMany)
17×( [] 17×) => Some(TooDeep)
"a"{3,2} => Some(Repeat)"#;

/// A sequence binds more tightly than a choice. Also each repetition, each kind of test and each column.
const TREES: &str =
    r#""a" "b"|"c" => Alt([Cat([Tok(0), Tok(1)]), Tok(2)]) [Whole(Form, Literal { number: 0, flag: Plain }), Whole(Form, Literal { number: 1, flag: Plain }), Whole(Form, Literal { number: 2, flag: Plain })] fits
[]? => Rep(Tok(0), 0, Some(1)) [Any] fits
[]* => Rep(Tok(0), 0, None) [Any] fits
[]+ => Rep(Tok(0), 1, None) [Any] fits
[]{2} => Rep(Tok(0), 2, Some(2)) [Any] fits
[]{2,} => Rep(Tok(0), 2, None) [Any] fits
([]){2,3} => Rep(Tok(0), 2, Some(3)) [Any] fits
[!(word='x'%c | lemma!="y") & feats contains "z"%l] => Tok(0) [Both([Denied(1, Either([Whole(Form, Literal { number: 0, flag: NoCase }), Denied(1, Whole(Lemma, Literal { number: 1, flag: Plain }))])), Item(Literal { number: 2, flag: Literal })])] fits
[word="a"] => Tok(0) [Whole(Form, Literal { number: 0, flag: Plain })] fits
[lemma="a"] => Tok(0) [Whole(Lemma, Literal { number: 0, flag: Plain })] fits
[upos="a"] => Tok(0) [Whole(Upos, Literal { number: 0, flag: Plain })] fits
[xpos="a"] => Tok(0) [Whole(Xpos, Literal { number: 0, flag: Plain })] fits
[feats="a"] => Tok(0) [Whole(Feats, Literal { number: 0, flag: Plain })] fits
[deprel="a"] => Tok(0) [Whole(Deprel, Literal { number: 0, flag: Plain })] fits"#;

const PLACES: &str =
    r#" "a""b" 'c'{12} => [Quote(0), Quote(1), LeftBrace, Number(12), RightBrace] [Span { start: 1, end: 7 }, Span { start: 8, end: 11 }, Span { start: 11, end: 12 }, Span { start: 12, end: 14 }, Span { start: 14, end: 15 }]"#;

/// The value of each literal of a query, in the order of the text.
const LITERALS: &str = r#""a""b" => <a"b>
'it''s' => <it's>
"it's" => <it's>
"it''s" => <it''s>
"\\" => <\\>
"" => <>
"""" => <">
'''''' => <''>
"""a""" => <"a">
"Straße" => <Straße>
"Stra""ße" => <Stra"ße>
'ß''ß' => <ß'ß>
"हि""न्दी" => <हि"न्दी>
'🙂''''🙂' => <🙂''🙂>
'd' [lemma="c"%c | feats contains 'b|''x'%l] ([] """a"""%l)* 'ß'%c => <d><c><b|'x><"a"><ß>
[]+ => "#;

/// The faults of a query, whose literals have to be patterns: the first literal that is none, and one that is too
/// large, which is reported as want of memory.
const QUERY_FAULTS: &str = r#"[word="go"%c & !feats contains "X"] => None
"("%l => None
[] 1999×␣ => Some(TooLong)
[upos=] => Some(Syntax(6))
33×[] => Some(TooMany)
17×( [] 17×) => Some(TooDeep)
"("{0} => Some(Repeat)
"("%l "["%c => Some(Pattern(2))
"(a{1000}){1000}" => Some(Memory)"#;

#[test]
fn texts_are_read(rt: HostRuntime) {
    let alloc = rt.alloc();
    let spaced = tb_syntax::parse(alloc, "\t\"a\"\r\n+ ;").is_ok();
    assert_holds(&rt, spaced, "white space");
    assert_answers(&rt, alloc, &TextQuestion::Scan, SCANS, 12);
    assert_answers(&rt, alloc, &TextQuestion::Repeats, REPEATS, 12);
    assert_answers(&rt, alloc, &TextQuestion::Fault, FAULTS, 9);
    assert_answers(&rt, alloc, &TextQuestion::Tree, TREES, 14);
    assert_answers(&rt, alloc, &TextQuestion::Places, PLACES, 1);
    assert_answers(&rt, alloc, &TextQuestion::Literals, LITERALS, 16);
    assert_answers(&rt, alloc, &TextQuestion::QueryFault, QUERY_FAULTS, 9);
}

/// In `([(word="a")])` two parentheses are open around the test.
fn assert_nested(rt: &impl Abort, grouped: &[Lexeme]) {
    assert!(rt; grouped.len() == 9);
    assert_holds(rt, nests_within(grouped, 2), "two parentheses");
    assert_holds(rt, !nests_within(grouped, 1), "one parenthesis");
}

/// In `[word="a"] "b" ([])` the literal of the test is no token expression.
fn assert_three(rt: &impl Abort, three: &[Lexeme]) {
    assert_same(rt, &three.len(), &10, "three expressions");
    assert_same(rt, &count_expressions(three), &3, "three expressions");
}

fn assert_one(rt: &impl Abort) {
    let one = [Lexeme::LeftBracket, Lexeme::RightBracket];
    assert_same(rt, &count_expressions(&one), &1, "one expression");
    assert_holds(rt, Flag::Plain != Flag::Literal, "two flags");
    assert_holds(rt, scan(&[]) == Err(0), "no lexeme");
}

#[test]
fn lexemes_are_counted(rt: HostRuntime) {
    assert_one(&rt);
    let grouped = lexemes(&rt, rt.alloc(), r#"([(w=")])"#);
    assert_nested(&rt, &grouped);
    let three = lexemes(&rt, rt.alloc(), r#"[w="]"([])"#);
    assert_three(&rt, &three);
}

#[test]
fn laws_are_called(_rt: HostRuntime) {
    one_reading();
    one_lexing();
    literals_are_quoted();
    one_unquoting();
    one_saying();
    one_fault();
    a_text_has_one_reading();
    a_text_asks_one_thing();
    a_text_has_one_fault();
    a_query_has_no_fault();
    literals_are_in_order();
}
