//! Reads the head of a request, and then its body, from any reader.

ghost use Rattle.std.specs.Prelude.{◌≡◌, ◌≢◌, ◌≤◌, ◌<◌, ◌++◌, ℕ, List, [], length, take};
ghost use Rattle.std.specs.Prelude.{IfOk, IfErr, IfSome, IfNone};
ghost use Rattle.std.specs.Prelude.{Err as ErrOf};
ghost use Rattle.std.specs.Io.KnownBytes.{Consumes};
ghost use Rattle.httparse.specs.Spans.{IsRequestOf, IsRequestWithin};
ghost use Rattle.tb_conllu.specs.Pieces.{AskedFor};
ghost use Rattle.tb_http.specs.Faults.{AreTooFew, AwaitsHead, IsBodyFaultOf, TakenAfter};
ghost use Rattle.tb_http.specs.Head.{HasNoHead};
ghost use Rattle.tb_http.specs.Rooms.{IsHanded, body_room, head_room};
ghost use Rattle.tb_http.specs.declared.head.BodyFault.TheVariants.{Read as Broken};

use crate::filling::Filler;
use httparse::Status;
use httparse::spans::{HeaderSpan, RequestSpans, parse_request};
use std::alloc::Global;

/// The most bytes of a head.
pub const HEAD_BYTES: usize = 8192;

/// The most headers of a head.
pub const HEADERS: usize = 32;

/// The reader failed.
#[derive(Clone, Copy)]
pub struct BrokenRead;

/// A head in the first bytes of a buffer.
#[derive(Clone, Copy)]
pub struct Head {
    pub spans: RequestSpans,
    /// How many bytes of the buffer are filled.
    pub filled: usize,
}

/// Reads until a head is complete, or until the bytes cannot become one.
pub fn read_head<R: Filler>(
    reader: &mut R,
    buf: &mut [u8],
    headers: &mut [HeaderSpan],
) -> Result<Option<Head>, BrokenRead>
    requires room { length buf.old ≡ 8192 }
    requires headers { length headers.old ≡ 32 }
    ensures within { IfOk result (λ r. IfSome r (λ h. h.filled ≤ length buf.new)) }
    ensures taken { IfOk result (λ r. IfSome r (λ h.
        Consumes (R.left reader.old) (R.left reader.new) (take h.filled buf.new))) }
    ensures spans { IfOk result (λ r. IfSome r (λ h. IsRequestWithin (take h.filled buf.new) headers.new h.spans)) }
    ensures head { IfOk result (λ r. IfSome r (λ h. IsRequestOf (take h.filled buf.new) headers.new h.spans)) }
    ensures none { IfOk result (λ r. IfNone r (IfSome (R.left reader.old) HasNoHead)) }
    ensures stopped { IfOk result (λ r. IfNone r (TakenAfter [] (R.left reader.old) (R.left reader.new)
        (λ came. length came ≤ 8192))) }
    ensures asked { IfOk result (λ r. IfSome r (λ h.
        AskedFor AwaitsHead [] (R.pieces reader.old) (R.pieces reader.new) (take h.filled buf.new))) }
    ensures asked_none { IfOk result (λ r. IfNone r ((taken : List ℕ)
        × AskedFor AwaitsHead [] (R.pieces reader.old) (R.pieces reader.new) taken)) }
    ensures why { IfErr result (λ _. (why : R.Failure) × R.IsFailure reader.new why) }
    ensures broken { IfErr result (λ _. TakenAfter [] (R.left reader.old) (R.left reader.new) AwaitsHead) }
    ensures handed { IsHanded head_room [] (R.fills reader.old) (R.fills reader.new) }
{
    let mut filled = 0;
    'reads: loop {
        match parse_request(&buf[..filled], headers) {
            Ok(Status::Complete(spans)) => return Ok(Some(Head { spans, filled })),
            Ok(Status::Partial) => {}
            Err(_) => return Ok(None),
        }
        if filled == buf.len() {
            return Ok(None);
        }
        let Ok(n) = reader.fill(&mut buf[filled..]) else {
            return Err(BrokenRead);
        };
        if n == 0 {
            return Ok(None);
        }
        filled += n;
    }
}

/// Why a body did not come.
#[derive(Clone, Copy)]
pub enum BodyFault {
    Read,
    Memory,
}

/// Reads the rest of a body of `n` bytes, and nothing after it. `start` has its first bytes.
pub fn read_body<R: Filler>(
    alloc: Global,
    reader: &mut R,
    start: &[u8],
    n: usize,
) -> Result<Option<Vec<u8>>, BodyFault>
    requires few { length start.now ≤ n }
    requires small { n ≤ 4194304 }
    ensures whole { IfOk result (λ r. IfSome r (λ body.
        IfSome (R.left reader.old) (λ rest. body.items ≡ take n (start.now ++ rest)))) }
    ensures length { IfOk result (λ r. IfSome r (λ body. length body.items ≡ n)) }
    ensures short { IfOk result (λ r. IfNone r (AreTooFew n start.now (R.left reader.old))) }
    ensures taken { TakenAfter start.now (R.left reader.old) (R.left reader.new) (λ came. length came ≤ n) }
    ensures asked { result ≢ ErrOf Broken → (taken : List ℕ)
        × AskedFor (λ came. length came < n) start.now (R.pieces reader.old) (R.pieces reader.new) taken }
    ensures why { IfErr result (λ e. e ≡ Broken → (why : R.Failure) × R.IsFailure reader.new why) }
    ensures fault { IfErr result (λ e. TakenAfter start.now (R.left reader.old) (R.left reader.new)
        (λ came. IsBodyFaultOf n came e)) }
    ensures handed { IsHanded (body_room n) start.now (R.fills reader.old) (R.fills reader.new) }
{
    let mut body = Vec::new(alloc);
    if body.extend_from_slice(start).is_err() {
        return Err(BodyFault::Memory);
    }
    let mut chunk = [0u8; 4096];
    'reads: while body.len() < n {
        let room = (n - body.len()).min(4096);
        let part = &mut chunk[..room];
        let Ok(count) = reader.fill(part) else {
            return Err(BodyFault::Read);
        };
        if count == 0 {
            return Ok(None);
        }
        if body.extend_from_slice(&part[..count]).is_err() {
            return Err(BodyFault::Memory);
        }
    }
    Ok(Some(body))
}
