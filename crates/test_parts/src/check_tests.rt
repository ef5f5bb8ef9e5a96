//! What `check` answers within a limit of bytes, and where a reader or a writer fails.

use crate::broken::{BrokenReader, BrokenWriter};
use crate::files::DOGS_BARK;
use crate::telling::{assert_replied, assert_same};
use std::alloc::Global;
use std::process::Abort;
use tb_check::{CheckReply, Input, check_input, check_within, read_all, run_check};

/// Asserts what is answered for a file of 150 bytes within a limit.
fn assert_within(rt: &impl Abort, alloc: Global, limit: u64, wanted: &str) {
    assert!(rt; limit <= 150, "a small limit");
    let mut reader = DOGS_BARK.as_bytes();
    let mut out = Vec::new(alloc);
    let status = check_within(alloc, &mut reader, &mut out, limit);
    assert_replied(rt, alloc, status, &out, wanted);
}

#[test]
fn takes_so_many_bytes(rt: HostRuntime) {
    assert_within(&rt, rt.alloc(), 150, "0 sentences 1 words 3");
    assert_within(&rt, rt.alloc(), 149, "1 refused long");
}

/// A reader that fails after so many bytes.
fn assert_read_fails(rt: &impl Abort, alloc: Global, end: usize) {
    let rest = DOGS_BARK.as_bytes().get(..end).expect(rt, "a prefix");
    let mut out = Vec::new(alloc);
    let status = run_check(alloc, &mut BrokenReader { rest }, &mut out);
    assert_replied(rt, alloc, status, &out, "3 refused device");
}

/// A writer that fails after so many bytes.
fn assert_write_fails(rt: &impl Abort, alloc: Global, room: usize) {
    let mut reader = DOGS_BARK.as_bytes();
    let status = run_check(alloc, &mut reader, &mut BrokenWriter { room });
    assert_same(rt, &status, &3, "a writer that fails");
}

#[test]
fn answers_where_a_read_or_a_write_fails(rt: HostRuntime) {
    assert_read_fails(&rt, rt.alloc(), 0);
    assert_read_fails(&rt, rt.alloc(), 1);
    assert_read_fails(&rt, rt.alloc(), 149);
    assert_read_fails(&rt, rt.alloc(), 150);
    assert_write_fails(&rt, rt.alloc(), 0);
    assert_write_fails(&rt, rt.alloc(), 1);
    assert_write_fails(&rt, rt.alloc(), 19);
}

/// The replies of inputs that are not whole.
fn assert_not_whole(rt: &impl Abort, alloc: Global) {
    let long = check_input(alloc, &Input::TooLong, 150);
    assert_same(rt, &long, &CheckReply::Long, "a long input");
    let memory = check_input(alloc, &Input::Memory, 150);
    assert_same(rt, &memory, &CheckReply::Memory, "no memory");
    let broken = check_input(alloc, &Input::Broken, 150);
    assert_same(rt, &broken, &CheckReply::Device, "a broken input");
}

/// The reply of a whole one.
fn reply_to_file(alloc: Global) -> CheckReply {
    let mut reader = DOGS_BARK.as_bytes();
    let input = read_all(alloc, &mut reader, 150);
    check_input(alloc, &input, 150)
}

#[test]
fn answers_for_what_was_read(rt: HostRuntime) {
    assert_not_whole(&rt, rt.alloc());
    let wanted = CheckReply::Counts {
        sentences: 1,
        words: 3,
    };
    assert_same(&rt, &reply_to_file(rt.alloc()), &wanted, "a file");
}
