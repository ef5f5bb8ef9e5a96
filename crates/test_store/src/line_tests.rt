//! Lines of the command line on one desk in memory, each with what the reader holds.

use crate::files::DOGS;
use crate::server::Server;
use crate::telling::{assert_reported, assert_same, said, text_of};
use std::alloc::Global;
use std::process::Abort;
use tb_cli::Line;

const TOTALS: &str = "\
state,sentences,words
open,1,3
assigned,0,0
submitted,0,0
adjudicated,0,0
released,0,0
withdrawn,0,0
";

/// Runs a line, and asserts its status, what it prints, and how many bytes of the input it leaves.
fn assert_run(
    rt: &impl Abort,
    alloc: Global,
    server: &mut Server,
    line: &Line,
    input: &str,
    left: usize,
    wanted: (u8, &str),
) {
    let mut reader = input.as_bytes();
    let mut out: Vec<u8> = Vec::new(alloc);
    let status = server.run_line(line, &mut reader, &mut out);
    assert_same(rt, &status, &wanted.0, wanted.1);
    assert_reported(rt, text_of(rt, &out), wanted.1, "a line");
    assert_same(rt, &reader.len(), &left, wanted.1);
}

/// An import takes its body. A repeated one is answered as the first, and one of nothing is refused.
fn assert_imported(rt: &impl Abort, alloc: Global, server: &mut Server) {
    let line = Line::Import {
        db: None,
        user: said(rt, alloc, "ann"),
        name: said(rt, alloc, "b1"),
    };
    let done = (0, "imported batch=1 first=1 sentences=1 words=3\n");
    assert_run(rt, alloc, server, &line, DOGS, 0, done);
    assert_run(rt, alloc, server, &line, DOGS, 0, done);
    let refused = (1, "refused 10 Empty\n");
    assert_run(rt, alloc, server, &line, "", 0, refused);
}

#[test]
fn a_line_takes_its_body(rt: HostRuntime) {
    let mut server = Server::new(&rt, rt.alloc());
    assert_imported(&rt, rt.alloc(), &mut server);
}

/// A line without a body leaves the reader as it was.
fn assert_left(rt: &impl Abort, alloc: Global, server: &mut Server) {
    assert_run(
        rt,
        alloc,
        server,
        &Line::Totals { db: None },
        "one",
        3,
        (0, TOTALS),
    );
    let pull = Line::Pull {
        db: None,
        user: said(rt, alloc, "dan"),
        no: 9,
    };
    let refused = (1, "refused 3 NoSuchSentence\n");
    assert_run(rt, alloc, server, &pull, "one", 3, refused);
}

#[test]
fn a_line_without_a_body_takes_nothing(rt: HostRuntime) {
    let mut server = Server::new(&rt, rt.alloc());
    assert_imported(&rt, rt.alloc(), &mut server);
    assert_left(&rt, rt.alloc(), &mut server);
}
