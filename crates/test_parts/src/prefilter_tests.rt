//! Which sentences a search skips before they are split into rows. The expected answers were worked out by hand.

use crate::cases::{Question, assert_answers};
use crate::files::BOAT;
use crate::parsing::query_of;
use crate::telling::said;
use std::alloc::Global;
use std::process::Abort;
use tb_prefilter::PrefilteredSearcher;
use tb_query::Query;

/// A value between two tabs; parts that a match may lack; choices, negations and patterns, which need no bytes.
const CASES: &str = r#"[] => searched
"boat" => searched
"ship" => passed over
"oat" => passed over
"boat" "ship" => passed over
"ship"? "boat" => searched
"ship"{0,3} "boat" => searched
"ship"{1,3} => passed over
("ship"? "boat")+ => searched
("boat" "ship")+ => passed over
"ship" | "boat" => searched
[word="ship" | word="boat"] => searched
[word="boat" & upos="VERB"] => passed over
[word="boat" & upos="NOUN"] => searched
[word!="ship"] => searched
[!(word="ship")] => searched
"SHIP"%c => searched
"sh.p" => searched
"b.at"%l => passed over
"boat"%l => searched
[feats contains "Number=Plur"] => passed over
[lemma="boat"] => searched"#;

/// Whether a search for the query skips the sentence of the boat.
struct Skipped;

impl Question for Skipped {
    fn answer(&self, rt: &impl Abort, alloc: Global, asked: &str) -> String {
        let query = query_of(rt, alloc, asked);
        let searched = is_searched(rt, alloc, &query);
        said(rt, alloc, if searched { "searched" } else { "passed over" })
    }
}

fn is_searched(rt: &impl Abort, alloc: Global, query: &Query) -> bool {
    let searcher = PrefilteredSearcher::new(alloc, query).expect(rt, "error");
    searcher.may_hit(BOAT.as_bytes())
}

#[test]
fn sentences_are_passed_over(rt: HostRuntime) {
    assert_answers(&rt, rt.alloc(), &Skipped, CASES, 22)
}
