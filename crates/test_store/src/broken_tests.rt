//! One request whose reader or writer fails, at each of its bytes. The reader gives one byte at a time.

ghost use Rattle.std.specs.Prelude.{◌≡◌, [], None, Some};

use crate::list_tests::{assert_written, plain};
use crate::server::{Server, answer_into};
use crate::telling::{assert_holds, assert_same};
use std::alloc::Global;
use std::process::Abort;
use tb_answer::Broken;
use tb_conllu::{Source, SourceFault};
use tb_http::Status;

/// An import, 225 bytes.
const IMPORT: &str = "POST /batches/b1 HTTP/1.1¶Host: x¶Desk-User: ann¶Content-Length: 150¶¶…";

/// Its response, and that of the same request again.
const IMPORTED: &str =
    "HTTP/1.1 200 OK§45¶Connection: close¶¶imported batch=1 first=1 sentences=1 words=3␊";

/// Gives bytes one at a time, and fails instead of their end.
#[derive(Drop)]
struct Dripping<'a> {
    bytes: &'a [u8],
}

impl<'a> Source for Dripping<'a> {
    type Failure = SourceFault;

    ghost left = { λ s. Some s.bytes.now };

    ghost pieces = { λ _. None };

    ghost IsFailure = { λ s _. s.bytes.now ≡ [] };

    fn pull(&mut self, buf: &mut [u8]) -> Result<usize, SourceFault> {
        if self.bytes.is_empty() {
            return Err(SourceFault);
        }
        let all = self.bytes;
        let n = all.len().min(buf.len()).min(1);
        buf[..n].copy_from_slice(&all[..n]);
        self.bytes = &all[n..];
        Ok(n)
    }
}

/// A reader that fails after a part of the request. The desk has no answer.
fn assert_not_read(rt: &impl Abort, server: &mut Server, part: &str, out: &mut Vec<u8>) {
    let mut reader = Dripping {
        bytes: part.as_bytes(),
    };
    let ended = server.answer(&mut reader, out);
    assert_same(rt, &ended, &Err(Broken::Read), part);
}

/// A reader of the whole request, which is answered.
fn assert_imported<R: Source>(
    rt: &impl Abort,
    alloc: Global,
    server: &mut Server,
    reader: &mut R,
    out: &mut Vec<u8>,
) {
    let ended = server.answer(reader, out);
    assert_same(rt, &ended, &Ok(Status::Ok), IMPORT);
    assert_written(rt, alloc, out.as_slice(), IMPORTED);
}

/// Readers that fail after each part of the request. Then one that gives the whole of it.
fn assert_reader(rt: &impl Abort, alloc: Global, server: &mut Server, request: &str) {
    let mut out: Vec<u8> = Vec::new(alloc);
    for end in 0..225 {
        let part = request.get(..end).expect(rt, "a part");
        assert_not_read(rt, server, part, &mut out);
    }
    assert_holds(rt, out.is_empty(), "nothing is written");
    assert_same(rt, &server.moves(rt), &0, "moves");
    let mut reader = Dripping {
        bytes: request.as_bytes(),
    };
    assert_imported(rt, alloc, server, &mut reader, &mut out);
}

/// Where the reader fails before the last byte, nothing is written and nothing is done. With the last byte the request
/// is answered, and there is no further read, which would fail.
#[test]
fn a_reader_that_fails_at_each_byte(rt: HostRuntime) {
    let request = plain(&rt, rt.alloc(), IMPORT);
    assert_same(&rt, &request.len(), &225, IMPORT);
    let mut server = Server::new(&rt, rt.alloc());
    assert_reader(&rt, rt.alloc(), &mut server, request.as_str());
}

/// A writer with room for a part of the response.
fn assert_not_written(
    rt: &impl Abort,
    alloc: Global,
    server: &mut Server,
    request: &[u8],
    part: &str,
) {
    let (ended, _) = answer_into(rt, alloc, server, request, part.len());
    assert_same(rt, &ended, &Err(Broken::Write), part);
    assert_same(rt, &server.moves(rt), &1, part);
}

/// Writers that fail after each part of the response. Then one that takes the whole of it.
fn assert_writer(rt: &impl Abort, alloc: Global, server: &mut Server, request: &str) {
    let wanted = plain(rt, alloc, IMPORTED);
    for end in 0..wanted.len() {
        let part = wanted.as_str().get(..end).expect(rt, "a part");
        assert_not_written(rt, alloc, server, request.as_bytes(), part);
    }
    let mut out: Vec<u8> = Vec::new(alloc);
    let mut reader = request.as_bytes();
    assert_imported(rt, alloc, server, &mut reader, &mut out);
}

/// Where the writer fails, the batch is imported all the same, and the same request again is answered as before.
#[test]
fn a_writer_that_fails_at_each_byte(rt: HostRuntime) {
    let request = plain(&rt, rt.alloc(), IMPORT);
    let mut server = Server::new(&rt, rt.alloc());
    assert_writer(&rt, rt.alloc(), &mut server, request.as_str());
}
