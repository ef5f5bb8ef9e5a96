//! Sentences on both sides of each border of a bit row: no word, one word, a row that just fits one machine word or
//! two, and one place more; and long ones. Also noun phrases, and repetitions within one another.

use crate::cases::cut;
use crate::match_tests::search;
use crate::patterns::{pattern, table};
use crate::spelling::strategy;
use crate::telling::{assert_holds, assert_text, push_value, put};
use std::alloc::Global;
use std::process::Abort;
use tb_match::{Found, Strategy};

/// Appends a hit by its places after the text, as `0-2`.
fn push_hit(rt: &impl Abort, list: &mut String, before: &str, hit: (u32, u32)) {
    put(rt, list, before);
    push_value(rt, list, &hit.0);
    put(rt, list, "-");
    push_value(rt, list, &hit.1);
}

/// Appends how many hits there are, the first one and the last: `2: 0-1 .. 64-65`, or `0`.
fn push_hits(rt: &impl Abort, list: &mut String, hits: &[(u32, u32)]) {
    push_value(rt, list, &hits.len());
    if let Some(hit) = hits.first() {
        push_hit(rt, list, ": ", *hit);
    }
    if let Some(hit) = hits.last() {
        push_hit(rt, list, " .. ", *hit);
    }
}

/// The hits, and then the steps, if they are asked for.
fn summary(rt: &impl Abort, alloc: Global, found: &Found, with_steps: bool) -> String {
    let mut list = String::new(alloc);
    push_hits(rt, &mut list, &found.hits);
    if with_steps {
        put(rt, &mut list, "; ");
        push_value(rt, &mut list, &found.steps);
    }
    list
}

/// The number that a letter means at a number n: `n` is the number itself, `m` and `l` are one and two less, `k` is one
/// more, `d` is twice n, and `t` is the sum of the numbers from 1 to n.
fn meant(sign: char, n: usize) -> Option<usize> {
    match sign {
        'n' => Some(n),
        'm' => Some(n.saturating_sub(1)),
        'l' => Some(n.saturating_sub(2)),
        'k' => Some(n.saturating_add(1)),
        'd' => Some(n.saturating_mul(2)),
        't' => Some(n.saturating_mul(n.saturating_add(1)) / 2),
        _ => None,
    }
}

fn push_meant(rt: &impl Abort, all: &mut String, sign: char, n: usize) {
    match meant(sign, n) {
        Some(number) => push_value(rt, all, &number),
        None => all.push(sign).expect(rt, "error"),
    }
}

/// The text with the numbers that its letters mean at a number.
fn at_number(rt: &impl Abort, alloc: Global, text: &str, n: usize) -> String {
    let mut all = String::new(alloc);
    for sign in text.chars() {
        push_meant(rt, &mut all, sign, n);
    }
    all
}

/// The number that a text spells; 0 where it spells none.
fn number(text: &str) -> u64 {
    text.parse().unwrap_or(0)
}

/// Asserts that each hit has a word.
fn assert_have_words(rt: &impl Abort, hits: &[(u32, u32)]) {
    for (i, j) in hits {
        assert_holds(rt, *i < *j, "a hit has a word");
    }
}

/// Asserts that the steps are within the limits `LEAST to GREATEST`.
fn assert_limits(rt: &impl Abort, steps: u64, limits: &str) {
    let (least, greatest) = cut(rt, limits, " to ");
    assert_holds(rt, number(least) <= steps, limits);
    assert_holds(rt, steps <= number(greatest), limits);
}

/// What is found for `PATTERN on TABLE` in a sentence of so many words.
fn found_on(rt: &impl Abort, alloc: Global, case: &str, strategy: Strategy, words: usize) -> Found {
    let (text, letters) = cut(rt, case, " on ");
    let truth = table(rt, alloc, letters, words);
    let pat = pattern(rt, alloc, text);
    search(rt, alloc, &pat, &truth, strategy)
}

/// The part after ` within `, and the part before it.
fn limited(case: &str) -> (&str, &str) {
    case.split_once(" within ")
        .unwrap_or((case, "0 to 1000000000000"))
}

/// What is found for a case `PATTERN on TABLE by STRATEGY` in a sentence of so many words. For a case `PATTERN on TABLE
/// by STRATEGY within LEAST to GREATEST`, the steps are within these limits.
fn reported_of(
    rt: &impl Abort,
    alloc: Global,
    case: &str,
    words: usize,
    with_steps: bool,
) -> String {
    let (case, limits) = limited(case);
    let (case, by) = cut(rt, case, " by ");
    let found = found_on(rt, alloc, case, strategy(rt, by), words);
    assert_limits(rt, found.steps, limits);
    assert_have_words(rt, &found.hits);
    summary(rt, alloc, &found, with_steps)
}

/// Asserts the hits of a case `PATTERN on TABLE by STRATEGY => HITS` in a sentence of n words.
fn assert_case(rt: &impl Abort, alloc: Global, line: &str, words: usize) {
    let (case, hits) = cut(rt, line, " => ");
    let reported = reported_of(rt, alloc, case, words, hits.contains(';'));
    let wanted = at_number(rt, alloc, hits, words);
    assert_text(rt, reported.as_str(), wanted.as_str(), line);
}

fn assert_hits(rt: &impl Abort, alloc: Global, cases: &str, words: usize) {
    for line in cases.lines() {
        assert_case(rt, alloc, line, words);
    }
}

/// A star, and a star with a word that is nowhere.
const NO_WORDS: &str = "\
    0 * on a by every => 0\n\
    0 * 1 .2 on a- by shortest => 0; 0\n\
    0 * 1 .2 on a- by longest => 0; 0\n\
    0 * 1 .2 on a- by every => 0; 0\n";

/// The first word with all that follow. A lone word, which each strategy finds in its place, without a union. A part
/// that holds of no word, which takes no union either. Stars, which take a union for each word, however often they are
/// repeated. A star where nothing holds. Rows of ten words: one chunk of eight and a rest of two.
const ANY_WORDS: &str = "\
    0 1 * .2 on fr by longest => 1: 0-n .. 0-n\n\
    0 1 * .2 on fr by shortest => 1: 0-1 .. 0-1\n\
    0 1 * .2 on fr by every => n: 0-1 .. 0-n\n\
    0 on l by shortest => 1: m-n .. m-n; 0\n\
    0 on l by longest => 1: m-n .. m-n; 0\n\
    0 on l by every => 1: m-n .. m-n; 0\n\
    0 on a by longest => n: 0-1 .. m-n\n\
    0 * 1 .2 on a- by shortest => 0; 0\n\
    0 * 1 .2 on a- by longest => 0; 0\n\
    0 * 1 .2 on a- by every => 0; 0\n\
    0 * on a by longest => 1: 0-n .. 0-n; n\n\
    0 * * on a by longest => 1: 0-n .. 0-n; d\n\
    0 5×* on a by longest => 1: 0-n .. 0-n\n\
    0 * on - by longest => 0\n\
    0 2-2 0 * |2 on a by longest => 1: 0-n .. 0-n\n\
    0 * on a by every => t: 0-1 .. m-n\n";

/// The last two words, and a run to the last word: `[0] [1]* [0]?` where 0 holds of the first and the last word.
const TWO_WORDS: &str = "\
    0 1 .2 on pl by shortest => 1: l-n .. l-n\n\
    0 1 .2 on pl by longest => 1: l-n .. l-n\n\
    0 1 .2 on pl by every => 1: l-n .. l-n\n\
    0 1 * 0 ? .3 on ea by longest => 1: 0-n .. 0-n\n\
    0 1 * 0 ? .3 on ea by shortest => 2: 0-1 .. m-n\n\
    0 1 * 0 ? .3 on ea by every => k: 0-1 .. m-n\n";

/// "the old book on the table in the room": `[upos="DET"]? [upos="ADJ"]* [upos="NOUN"]`, and the same after
/// `[upos="ADP"]`, any number of times.
const NINE_WORDS: &str = "\
    0 ? 1 * 2 3 4 ? 5 * 6 .4 * .4 on DJNPDJN by shortest => 3: 2-3 .. 8-9\n\
    0 ? 1 * 2 3 4 ? 5 * 6 .4 * .4 on DJNPDJN by longest => 1: 0-9 .. 0-9\n\
    0 ? 1 * 2 3 4 ? 5 * 6 .4 * .4 on DJNPDJN by every => 15: 0-3 .. 8-9\n";

/// The least and the greatest numbers of unions of five stars. A repetition of one word up to 32 times has all pieces
/// of up to 32 words; within another, of up to 1,024. The pieces of exactly 31 times 31 words are 40. Expression 0
/// holds of each word, 1 of every third and the last two, and 2 of the others and the last.
const REPETITIONS: &str = "\
    0 5×* on a by longest within 1000 to 5516511 => 1: 0-1000 .. 0-1000\n\
    0 1×0-32 on ast by longest within 1000 to 40000 => 969: 0-32 .. 968-1000\n\
    0 2×0-32 on ast by longest within 2000 to 600000 => 1: 0-1000 .. 0-1000\n\
    0 5×0-32 on ast by longest within 5000 to 600000 => 1: 0-1000 .. 0-1000\n\
    0 3×1-32 on ast by longest within 3000 to 600000 => 1: 0-1000 .. 0-1000\n\
    0 17×1-32 on ast by longest within 17000 to 600000 => 1: 0-1000 .. 0-1000\n\
    0 17×0- on ast by longest within 17000 to 20000 => 1: 0-1000 .. 0-1000\n\
    0 17×1- on ast by longest within 17000 to 20000 => 1: 0-1000 .. 0-1000\n\
    0 17×1- on ast by every within 17000 to 20000 => 500500: 0-1 .. 999-1000\n\
    0 17×0-1 on ast by every within 1000 to 100000 => 1000: 0-1 .. 999-1000\n\
    0 9×1-2 on ast by longest within 9000 to 1000000 => 489: 0-512 .. 488-1000\n\
    0 10×1-2 on ast by longest within 10000 to 1000000 => 1: 0-1000 .. 0-1000\n\
    0 9×2-2 on ast by every within 4000 to 100000 => 489: 0-512 .. 488-1000\n\
    0 3×10-10 on ast by every within 10000 to 100000 => 1: 0-1000 .. 0-1000\n\
    0 2×31-31 on ast by every within 30000 to 100000 => 40: 0-961 .. 39-1000\n\
    0 2×32-32 on ast by every within 30000 to 100000 => 0\n\
    0 6×3-4 on ast by shortest within 6000 to 3000000 => 272: 0-729 .. 271-1000\n\
    0 2×16- on ast by shortest within 2000 to 1000000 => 745: 0-256 .. 744-1000\n\
    0 3×16- on ast by every within 2000 to 1500000 => 0\n\
    0 2×31- on ast by shortest within 2000 to 1000000 => 40: 0-961 .. 39-1000\n\
    0 + 1×32-32 on ast by shortest within 2000 to 1000000 => 969: 0-32 .. 968-1000\n\
    0 + 1×32-32 on ast by longest within 2000 to 1000000 => 1: 0-1000 .. 0-1000\n\
    0 + 1×31- on ast by shortest within 2000 to 1000000 => 970: 0-31 .. 969-1000\n\
    0 ? 0 ? .2 1×2-5 on ast by longest within 1000 to 100000 => 991: 0-10 .. 990-1000\n\
    1 ? 2 ? .2 4×2-32 on ast by longest within 4000 to 3000000 => 1: 0-1000 .. 0-1000";

const LENGTHS: [usize; 13] = [2, 20, 30, 62, 63, 64, 65, 66, 127, 128, 129, 600, 1000];

#[test]
fn hits_at_each_length(rt: HostRuntime) {
    let alloc = rt.alloc();
    assert_hits(&rt, alloc, NO_WORDS, 0);
    assert_hits(&rt, alloc, NINE_WORDS, 9);
    assert_hits(&rt, alloc, REPETITIONS, 1000);
    assert_hits(&rt, alloc, ANY_WORDS, 1);
    for words in &LENGTHS {
        assert_hits(&rt, alloc, ANY_WORDS, *words);
        assert_hits(&rt, alloc, TWO_WORDS, *words);
    }
}
