//! Runs scripts line by line, each on a desk in memory.

use crate::asking::{assert_obeyed, number_at, obeyed};
use crate::scripts::{BODIES, REFUSALS, SEARCHES, WORK};
use crate::telling::{error_text, joined, replaced};
use sqlite::MemStore;
use std::alloc::Global;
use std::process::Abort;
use tb_core::Limits;
use tb_store::Desk;

/// A desk with the limits of this line.
fn new_desk(rt: &impl Abort, alloc: Global, line: &str) -> Desk<MemStore> {
    let limits = Limits {
        sentences: number_at(rt, line, 0).min(1_000_000),
        moves: number_at(rt, line, 1).min(1_000_000_000),
        hits: number_at(rt, line, 2).min(1_000_000),
    };
    Desk::in_memory(alloc, limits).expect(rt, line)
}

/// Asserts the answer to a line. Where the line has `BODY`, each of the bodies takes its place.
fn assert_case(
    rt: &impl Abort,
    alloc: Global,
    desk: &mut Desk<MemStore>,
    line: &str,
    wanted: &str,
) {
    let bodies = if line.contains("BODY") { BODIES } else { "" };
    for body in bodies.split(' ') {
        let line = replaced(rt, alloc, line, "BODY", body);
        assert_obeyed(rt, alloc, desk, line.as_str(), wanted);
    }
}

fn assert_script(rt: &impl Abort, alloc: Global, script: &str) {
    let mut desk = new_desk(rt, alloc, script.lines().next().unwrap_or(""));
    for case in script.lines().skip(1) {
        let (line, wanted) = case.split_once(" => ").expect(rt, case);
        assert_case(rt, alloc, &mut desk, line, wanted);
    }
}

#[test]
fn scripts_are_answered(rt: HostRuntime) {
    for text in [WORK, SEARCHES, REFUSALS] {
        for script in text.split("\n\n") {
            assert_script(&rt, rt.alloc(), script);
        }
    }
}

/// What a search finds there.
const FOUND: &str =
    "s6/3/3/the old/book/on the;s6/6/6/on the/table/in the;s6/9/9/in the/room/;hits 3;";

const STANDING: &str = "\
    desk released,1,9 1,import,1,0,none,open,1,0,9,ann 2,assign,1,0,open,assigned,1,9,9,ann 3,submit,1,0,assigned,submitted,1,9,9,ann \
    4,adjudicate,1,0,submitted,adjudicated,1,9,9,ben 5,release,1,0,adjudicated,released,1,9,9,cem";

/// A desk that has released `book`.
fn released(rt: &impl Abort, alloc: Global) -> Desk<MemStore> {
    let mut desk = new_desk(rt, alloc, "9 9 9");
    obeyed(rt, alloc, &mut desk, "publish b6 book");
    desk
}

/// Asserts that a search writes as much as there is room for, and reports that.
fn assert_cut(rt: &impl Abort, alloc: Global, desk: &mut Desk<MemStore>, room: usize) {
    let part = FOUND.get(..room).expect(rt, "a part");
    let end = if room < FOUND.len() {
        "the writer failed"
    } else {
        "3"
    };
    let room = error_text(rt, alloc, &room);
    let line = joined(rt, alloc, &["cut shortest ", room.as_str(), " phrases"]);
    let wanted = joined(rt, alloc, &[end, " ", part]);
    assert_obeyed(rt, alloc, desk, line.as_str(), wanted.as_str());
}

/// Asserts what a search says at each size of what it may write.
fn assert_each_cut(rt: &impl Abort, alloc: Global, desk: &mut Desk<MemStore>) {
    for room in 0..=FOUND.len() {
        assert_cut(rt, alloc, desk, room);
    }
}

#[test]
fn a_search_that_breaks_off_says_so(rt: HostRuntime) {
    let mut desk = released(&rt, rt.alloc());
    assert_each_cut(&rt, rt.alloc(), &mut desk);
    assert_obeyed(&rt, rt.alloc(), &mut desk, "standing", STANDING);
}
