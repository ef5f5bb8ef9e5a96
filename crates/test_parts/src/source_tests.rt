//! What is asked of a source, and the answer where it fails. The sources count their pieces, or are cut off.

ghost use Rattle.std.specs.Prelude.{◌≡◌, ◌≤◌, [], length, map, vec_items, None, Some};
ghost use Rattle.tb_check.specs.Check.{Answers, file_limit};
ghost use Rattle.tb_check.specs.declared.reply.CheckReply.TheVariants.{Device};

use crate::files::DOGS_BARK;
use crate::telling::{assert_replied, assert_same};
use std::alloc::Global;
use std::process::Abort;
use tb_check::{check_bytes, check_within, run_check};
use tb_conllu::{Sink, Source, SourceFault};

/// Bytes in memory, and a failure instead of their end.
#[derive(Drop)]
struct Cut<'a> {
    bytes: &'a [u8],
}

impl<'a> Source for Cut<'a> {
    type Failure = SourceFault;

    ghost left = { λ s. Some s.bytes.now };

    ghost pieces = { λ _. None };

    ghost IsFailure = { λ s _. s.bytes.now ≡ [] };

    fn pull(&mut self, buf: &mut [u8]) -> Result<usize, SourceFault> {
        if self.bytes.is_empty() {
            return Err(SourceFault);
        }
        let all = self.bytes;
        let n = all.len().min(buf.len());
        buf[..n].copy_from_slice(&all[..n]);
        self.bytes = &all[n..];
        Ok(n)
    }
}

/// Bytes in memory, one at a time. It keeps each piece that it gave, and fails where it has no room for another.
#[derive(Drop)]
struct Counted<'a> {
    alloc: Global,
    bytes: &'a [u8],
    given: Vec<Vec<u8>>,
}

impl<'a> Source for Counted<'a> {
    type Failure = SourceFault;

    ghost left = { λ s. Some s.bytes.now };

    ghost pieces = { λ s. Some (map vec_items s.given.items) };

    ghost IsFailure = { λ _ _. Unit {0} };

    fn pull(&mut self, buf: &mut [u8]) -> Result<usize, SourceFault> {
        let all = self.bytes;
        let n = all.len().min(buf.len()).min(1);
        let mut piece = Vec::new(self.alloc);
        if piece.extend_from_slice(&all[..n]).is_err() || self.given.push(piece).is_err() {
            return Err(SourceFault);
        }
        buf[..n].copy_from_slice(&all[..n]);
        self.bytes = &all[n..];
        Ok(n)
    }
}

/// Over bytes that are cut off, the device fails only where no byte is left, and so only for a file within the limit.
fn check_cut<S: Sink>(alloc: Global, bytes: &[u8], out: &mut S) -> u8
    ensures { Answers (λ reply. reply ≡ Device → length bytes.now ≤ file_limit)
        (S.held out.old) (S.held out.new) (S.IsRefusal out.new) result }
{
    run_check(alloc, &mut Cut { bytes }, out)
}

/// A file that is cut off.
fn assert_cut(rt: &impl Abort, alloc: Global, bytes: &[u8]) {
    let mut out = Vec::new(alloc);
    let status = check_cut(alloc, bytes, &mut out);
    assert_replied(rt, alloc, status, &out, "3 refused device");
}

/// The same bytes as a file.
fn assert_whole(rt: &impl Abort, alloc: Global, bytes: &[u8]) {
    let mut out = Vec::new(alloc);
    let status = check_bytes(alloc, bytes, &mut out);
    assert_replied(rt, alloc, status, &out, "0 sentences 1 words 3");
}

/// Asserts what a source answers within a limit.
fn assert_answered<S: Source>(
    rt: &impl Abort,
    alloc: Global,
    source: &mut S,
    limit: u64,
    wanted: &str,
) {
    assert!(rt; limit <= 151, "a small limit");
    let mut out = Vec::new(alloc);
    let status = check_within(alloc, source, &mut out, limit);
    assert_replied(rt, alloc, status, &out, wanted);
}

/// A file that is cut off is a failed device, unless its 150 bytes are above the limit.
#[test]
fn a_source_that_is_cut_off(rt: HostRuntime) {
    assert_cut(&rt, rt.alloc(), DOGS_BARK.as_bytes());
    let bytes = DOGS_BARK.as_bytes();
    assert_answered(&rt, rt.alloc(), &mut Cut { bytes }, 149, "1 refused long");
    assert_whole(&rt, rt.alloc(), DOGS_BARK.as_bytes());
}

/// Asserts what is answered within a limit, and how many pieces were given.
fn assert_pieces(rt: &impl Abort, alloc: Global, limit: u64, wanted: &str, pieces: usize) {
    let mut source = Counted {
        alloc,
        bytes: DOGS_BARK.as_bytes(),
        given: Vec::new(alloc),
    };
    assert_answered(rt, alloc, &mut source, limit, wanted);
    assert_same(rt, &source.given.len(), &pieces, "the pieces");
}

/// A file is read to its end. A file above the limit is read up to the first byte above it.
#[test]
fn a_source_that_counts_its_pieces(rt: HostRuntime) {
    assert_pieces(&rt, rt.alloc(), 151, "0 sentences 1 words 3", 151);
    assert_pieces(&rt, rt.alloc(), 150, "0 sentences 1 words 3", 151);
    assert_pieces(&rt, rt.alloc(), 149, "1 refused long", 150);
    assert_pieces(&rt, rt.alloc(), 0, "1 refused long", 1);
}
