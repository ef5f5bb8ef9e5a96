//! Whether the rows of desks replay, and what their totals are.

use crate::cases::{Question, assert_alternatives, cut};
use crate::rows::rows_of;
use crate::telling::{put, value_text};
use crate::total_tests::push_totals;
use std::alloc::Global;
use std::process::Abort;
use tb_core::Move;
use tb_replay::{BatchRow, SentenceSummary, replays, totals_of};

/// Whether the desk replays, and its totals by state.
struct Desk;

impl Question for Desk {
    fn answer(&self, rt: &impl Abort, alloc: Global, asked: &str) -> String {
        let (batches, rest) = cut(rt, asked, " | ");
        let (entries, moves) = cut(rt, rest, " | ");
        let batches: Vec<BatchRow<'_>> = rows_of(rt, alloc, batches, "; ");
        let entries: Vec<SentenceSummary<'_>> = rows_of(rt, alloc, entries, "; ");
        let moves: Vec<Move> = rows_of(rt, alloc, moves, "; ");
        rows_told(rt, alloc, &batches, &entries, &moves)
    }
}

fn rows_told(
    rt: &impl Abort,
    alloc: Global,
    batches: &[BatchRow<'_>],
    entries: &[SentenceSummary<'_>],
    moves: &[Move],
) -> String {
    let reached = replays(alloc, batches, entries, moves).expect(rt, "rows");
    let mut text = value_text(rt, alloc, &reached);
    put(rt, &mut text, " ");
    match totals_of(batches, entries) {
        Some(totals) => push_totals(rt, &mut text, &totals),
        None => put(rt, &mut text, "no totals"),
    }
    text
}

/// An import, an assignment, a correction, a pull and a submission, in this order. Then the same with one word
/// changed: the number of words of a revision, its user, a missing revision, the flag of the pulled sentence, the
/// state and the worker of the batch, the worker's own adjudication, sentences that the import does not name. Then a
/// restore, to its batch and to another state; and a restore and a correction of a sentence that is not the first.
const DESKS: &str = "\
    a submitted ann | 1 in bob:3 ann:4; 1 out bob:5 | 1 import 1 0 none open 2 0 8 bob; 2 assign 1 0 open assigned 2 8 8 ann; 3 correct 1 1 assigned assigned 1 3 4 ann; 4 pull 1 2 assigned withdrawn 1 5 5 cy; 5 submit 1 0 assigned submitted 1 4 4 ann => true [0, 0, 1, 0, 0, 1] [0, 0, 4, 0, 0, 5]\n\
    a submitted ann | 1 in bob:3 ann:5; 1 out bob:5 | 1 import 1 0 none open 2 0 8 bob; 2 assign 1 0 open assigned 2 8 8 ann; 3 correct 1 1 assigned assigned 1 3 4 ann; 4 pull 1 2 assigned withdrawn 1 5 5 cy; 5 submit 1 0 assigned submitted 1 4 4 ann => false [0, 0, 1, 0, 0, 1] [0, 0, 5, 0, 0, 5]\n\
    a submitted ann | 1 in bob:3 cy:4; 1 out bob:5 | 1 import 1 0 none open 2 0 8 bob; 2 assign 1 0 open assigned 2 8 8 ann; 3 correct 1 1 assigned assigned 1 3 4 ann; 4 pull 1 2 assigned withdrawn 1 5 5 cy; 5 submit 1 0 assigned submitted 1 4 4 ann => false [0, 0, 1, 0, 0, 1] [0, 0, 4, 0, 0, 5]\n\
    a submitted ann | 1 in bob:3; 1 out bob:5 | 1 import 1 0 none open 2 0 8 bob; 2 assign 1 0 open assigned 2 8 8 ann; 3 correct 1 1 assigned assigned 1 3 4 ann; 4 pull 1 2 assigned withdrawn 1 5 5 cy; 5 submit 1 0 assigned submitted 1 4 4 ann => false [0, 0, 1, 0, 0, 1] [0, 0, 3, 0, 0, 5]\n\
    a submitted ann | 1 in bob:3 ann:4; 1 in bob:5 | 1 import 1 0 none open 2 0 8 bob; 2 assign 1 0 open assigned 2 8 8 ann; 3 correct 1 1 assigned assigned 1 3 4 ann; 4 pull 1 2 assigned withdrawn 1 5 5 cy; 5 submit 1 0 assigned submitted 1 4 4 ann => false [0, 0, 2, 0, 0, 0] [0, 0, 9, 0, 0, 0]\n\
    a assigned ann | 1 in bob:3 ann:4; 1 out bob:5 | 1 import 1 0 none open 2 0 8 bob; 2 assign 1 0 open assigned 2 8 8 ann; 3 correct 1 1 assigned assigned 1 3 4 ann; 4 pull 1 2 assigned withdrawn 1 5 5 cy; 5 submit 1 0 assigned submitted 1 4 4 ann => false [0, 1, 0, 0, 0, 1] [0, 4, 0, 0, 0, 5]\n\
    a submitted | 1 in bob:3 ann:4; 1 out bob:5 | 1 import 1 0 none open 2 0 8 bob; 2 assign 1 0 open assigned 2 8 8 ann; 3 correct 1 1 assigned assigned 1 3 4 ann; 4 pull 1 2 assigned withdrawn 1 5 5 cy; 5 submit 1 0 assigned submitted 1 4 4 ann => false [0, 0, 1, 0, 0, 1] [0, 0, 4, 0, 0, 5]\n\
    a adjudicated ann | 1 in bob:3 | 1 import 1 0 none open 1 0 3 bob; 2 assign 1 0 open assigned 1 3 3 ann; 3 submit 1 0 assigned submitted 1 3 3 ann; 4 adjudicate 1 0 submitted adjudicated 1 3 3 ann => false [0, 0, 0, 1, 0, 0] [0, 0, 0, 3, 0, 0]\n\
    a adjudicated ann | 1 in bob:3 | 1 import 1 0 none open 1 0 3 bob; 2 assign 1 0 open assigned 1 3 3 ann; 3 submit 1 0 assigned submitted 1 3 3 ann; 4 adjudicate 1 0 submitted adjudicated 1 3 3 cy => true [0, 0, 0, 1, 0, 0] [0, 0, 0, 3, 0, 0]\n\
    a open | 1 in bob:3; 1 in bob:4 | 1 import 1 0 none open 1 0 3 bob => false [2, 0, 0, 0, 0, 0] [7, 0, 0, 0, 0, 0]\n\
    a open; b open | 1 in bob:3; 2 in cy:4 | 1 import 1 0 none open 1 0 3 bob; 2 import 2 0 none open 1 0 4 cy => true [2, 0, 0, 0, 0, 0] [7, 0, 0, 0, 0, 0]\n\
    a open; b open | 1 in bob:3; 1 in cy:4 | 1 import 1 0 none open 1 0 3 bob; 2 import 2 0 none open 1 0 4 cy => false [2, 0, 0, 0, 0, 0] [7, 0, 0, 0, 0, 0]\n\
    a assigned ann | 1 in bob:3 | 1 import 1 0 none open 1 0 3 bob; 2 pull 1 1 open withdrawn 1 3 3 bob; 3 assign 1 0 open assigned 0 0 0 ann; 4 restore 1 1 withdrawn assigned 1 3 3 bob => true [0, 1, 0, 0, 0, 0] [0, 3, 0, 0, 0, 0]\n\
    a assigned ann | 1 in bob:3 | 1 import 1 0 none open 1 0 3 bob; 2 pull 1 1 open withdrawn 1 3 3 bob; 3 assign 1 0 open assigned 0 0 0 ann; 4 restore 1 1 withdrawn open 1 3 3 bob => false [0, 1, 0, 0, 0, 0] [0, 3, 0, 0, 0, 0]\n\
    a assigned ann | 1 in bob:3; 1 in bob:5 ann:6 | 1 import 1 0 none open 2 0 8 bob; 2 assign 1 0 open assigned 2 8 8 ann; 3 pull 1 2 assigned withdrawn 1 5 5 cy; 4 restore 1 2 withdrawn assigned 1 5 5 bob; 5 correct 1 2 assigned assigned 1 5 6 ann => true [0, 2, 0, 0, 0, 0] [0, 9, 0, 0, 0, 0]\n\
    a open | 1 in bob:18446744073709551615; 1 in bob:1 | 1 import 1 0 none open 2 0 18446744073709551615 bob => false no totals\n";

#[test]
fn desks_replay(rt: HostRuntime) {
    assert_alternatives(&rt, rt.alloc(), &Desk, DESKS, 16)
}
