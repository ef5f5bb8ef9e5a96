//! Requests that are cut short, and readers that give one byte a read and then fail.

use crate::broken::BrokenReader;
use crate::files::DOGS_BARK;
use crate::requests::reported_by;
use crate::telling::{assert_same, assert_text, joined};
use std::alloc::Global;
use std::process::Abort;

/// The head of an import of the file D: 75 bytes, and 225 with the file.
const HEAD: &str =
    "POST /batches/b1 HTTP/1.1\r\nHost: x\r\nDesk-User: ann\r\nContent-Length: 150\r\n\r\n";

const TAKEN: &str = "Import { name: \"b1\" } by \"ann\" with 150";

/// A reader that ends after a part of the request.
fn assert_cut_short(rt: &impl Abort, alloc: Global, part: &str) {
    let wanted = if part.len() < 75 {
        "BadRequest refused head"
    } else if part.len() < 225 {
        "BadRequest refused body"
    } else {
        TAKEN
    };
    let reported = reported_by(rt, alloc, &mut part.as_bytes());
    assert_text(rt, reported.as_str(), wanted, part);
}

/// A reader that fails after a part of the request. After the body it would fail too, but nothing is read there.
fn assert_broken_off(rt: &impl Abort, alloc: Global, part: &str) {
    let wanted = if part.len() < 225 { "broken" } else { TAKEN };
    let rest = part.as_bytes();
    let reported = reported_by(rt, alloc, &mut BrokenReader { rest });
    assert_text(rt, reported.as_str(), wanted, part);
}

fn assert_part(rt: &impl Abort, alloc: Global, part: &str) {
    assert_cut_short(rt, alloc, part);
    assert_broken_off(rt, alloc, part);
}

/// Asserts what each part of a request asks, from none of it to the whole.
fn assert_parts(rt: &impl Abort, alloc: Global, request: &str) {
    assert_same(rt, &request.len(), &225, "the request");
    for bytes in 0..=225 {
        assert_part(rt, alloc, request.get(..bytes).expect(rt, "a part"));
    }
}

#[test]
fn requests_cut_short_or_broken_off(rt: HostRuntime) {
    let request = joined(&rt, rt.alloc(), &[HEAD, DOGS_BARK]);
    assert_parts(&rt, rt.alloc(), request.as_str());
}
