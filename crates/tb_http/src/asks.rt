//! What the bytes of a request ask, from any reader.

ghost use Rattle.std.specs.Prelude.{◌≡◌, ◌≢◌, ◌≤◌, ◌+◌, ◌++◌, ℕ, List, [], length};
ghost use Rattle.std.specs.Prelude.{IfOk, IfErr, IfSome, IsOkAnd, MatchOption, MatchResult};
ghost use Rattle.std.specs.Prelude.{Err as ErrOf};
ghost use Rattle.httparse.specs.Spans.{IsRequestOf, IsRequestWithin};
ghost use Rattle.tb_conllu.specs.Pieces.{AskedFor};
ghost use Rattle.tb_http.specs.Actions.{act_by};
ghost use Rattle.tb_http.specs.Asks.{Asks, AsksOneThing, body_limit, call_text, refused, reported_by};
ghost use Rattle.tb_http.specs.Faults.{AwaitsBody, AwaitsMore, BeginsBody, IsAtMostOne, IsFaultOf, TakenAfter};
ghost use Rattle.tb_http.specs.Faults.{TakesAtMost, fault_of};
ghost use Rattle.tb_http.specs.declared.asks.AskFault.TheVariants.{Broken, Memory};

use crate::actions::{Action, Allow, resource_of};
use crate::head::{BodyFault, HEAD_BYTES, HEADERS, read_body, read_head};
use crate::headers::{body_length, user_of};
use crate::routes::Routes;
use httparse::spans::{EMPTY_HEADER_SPAN, HeaderSpan, RequestSpans};
use std::alloc::Global;
use std::str::from_utf8;
use tb_conllu::Source;

/// The most bytes of a body.
pub const BODY_BYTES: usize = 4_194_304;

/// Why a request asks nothing. Of several reasons the first in this order is reported.
#[derive(Clone, Copy, Debug, PartialEq, Eq)]
pub enum RequestFault {
    /// The bytes begin with no request head of at most 8,192 bytes and 32 headers, or `Desk-User` comes twice.
    Head,
    /// There is a `Transfer-Encoding`, more than one `Content-Length`, or one that is no number.
    Length,
    /// The target is none of the desk's paths.
    Path,
    /// The path does not have this method. It has those that are listed.
    Method(Allow),
    /// The body has more than 4,194,304 bytes.
    Long,
    /// The body has fewer bytes than `Content-Length` says.
    Body,
}

/// A call of the desk.
#[derive(Debug, Drop)]
pub struct Call<'b> {
    pub action: Action<'b>,
    /// The value of `Desk-User`; empty where there is none, or where it is not UTF-8.
    pub user: &'b str,
    pub body: Vec<u8>,
}

/// What a request asks.
#[derive(Debug, Drop)]
pub enum Ask<'b> {
    Refused(RequestFault),
    Call(Call<'b>),
}

/// Why what a request asks is unknown.
#[derive(Clone, Copy, Debug, PartialEq, Eq)]
pub enum AskFault {
    /// The reader failed.
    Broken,
    /// Memory was refused.
    Memory,
}

/// A law: bytes ask exactly one thing.
pub fn bytes_ask_one_thing()
    ensures { AsksOneThing }
{}

/// A call whose texts are in the buffer.
fn make_call<'b>(action: Action<'b>, user: &'b str, body: Vec<u8>) -> Ask<'b>
    ensures { reported_by result ≡ call_text (act_by action.entry) user.now body.items }
{
    Ask::Call(Call { action, user, body })
}

/// What a head asks that passes each test, by how its body was read.
fn asked_with<'b>(
    action: Action<'b>,
    user: &'b str,
    read: Result<Option<Vec<u8>>, BodyFault>,
) -> Result<Ask<'b>, AskFault>
    ensures { MatchResult read
        (λ r. MatchOption r (IsOkAnd result (λ ask. reported_by ask ≡ refused RequestFault.Body))
        (λ body. IsOkAnd result (λ ask. reported_by ask ≡ call_text (act_by action.entry) user.now body.items)))
        (λ e. result ≡ ErrOf (fault_of e)) }
{
    match read {
        Ok(Some(body)) => Ok(make_call(action, user, body)),
        Ok(None) => Ok(Ask::Refused(RequestFault::Body)),
        Err(BodyFault::Read) => Err(AskFault::Broken),
        Err(BodyFault::Memory) => Err(AskFault::Memory),
    }
}

/// What is asked by the head in the buffer and by the bytes after it, of which some are in the buffer already.
fn ask_after<'b, R: Source>(
    alloc: Global,
    routes: &Routes,
    reader: &mut R,
    buf: &'b [u8],
    headers: &[HeaderSpan],
    spans: RequestSpans,
    limit: usize,
) -> Result<Ask<'b>, AskFault>
    requires small { limit ≤ 4194304 }
    requires room { length buf.now ≤ 8192 }
    requires few { length headers.now ≤ 32 }
    requires inside { IsRequestWithin buf.now headers.now spans }
    requires head { IsRequestOf buf.now headers.now spans }
    ensures asks { IfOk result (λ ask. IfSome (R.left reader.old)
        (λ later. Asks limit (buf.now ++ later) (reported_by ask))) }
    ensures asked { result ≢ ErrOf Broken → (taken : List ℕ)
        × AskedFor (AwaitsBody limit) buf.now (R.pieces reader.old) (R.pieces reader.new) taken }
    ensures why { IfErr result (λ e. e ≡ Broken → (why : R.Failure) × R.IsFailure reader.new why) }
    ensures one { TakenAfter buf.now (R.left reader.old) (R.left reader.new) (IsAtMostOne limit) }
    ensures fault { IfErr result (λ e. TakenAfter buf.now (R.left reader.old) (R.left reader.new)
        (λ taken. IsFaultOf limit taken e)) }
{
    let named = &headers[..spans.headers];
    let Ok(user) = user_of(buf, named) else {
        return Ok(Ask::Refused(RequestFault::Head));
    };
    let Ok(length) = body_length(buf, named, limit) else {
        return Ok(Ask::Refused(RequestFault::Length));
    };
    let Ok(target) = from_utf8(spans.path.of(buf)) else {
        return Ok(Ask::Refused(RequestFault::Path));
    };
    let Some(resource) = resource_of(routes, target) else {
        return Ok(Ask::Refused(RequestFault::Path));
    };
    let method = spans.method.of(buf);
    let Some(action) = resource.action(method) else {
        return Ok(Ask::Refused(RequestFault::Method(resource.allow())));
    };
    let Some(n) = length else {
        return Ok(Ask::Refused(RequestFault::Long));
    };
    let came = &buf[spans.len..];
    let start = &came[..came.len().min(n)];
    asked_with(action, user, read_body(alloc, reader, start, n))
}

/// What the bytes of the reader ask, where a body may have `limit` bytes.
fn ask_within<'b, R: Source>(
    alloc: Global,
    routes: &Routes,
    reader: &mut R,
    buf: &'b mut [u8],
    headers: &mut [HeaderSpan],
    limit: usize,
) -> Result<Ask<'b>, AskFault>
    requires small { limit ≤ 4194304 }
    requires room { length buf.old ≡ 8192 }
    requires headers { length headers.old ≡ 32 }
    ensures asks { IfOk result (λ ask. IfSome (R.left reader.old) (λ bytes. Asks limit bytes (reported_by ask))) }
    ensures asked { result ≢ ErrOf Broken → (taken : List ℕ)
        × AskedFor (AwaitsMore limit) [] (R.pieces reader.old) (R.pieces reader.new) taken }
    ensures why { IfErr result (λ e. e ≡ Broken → (why : R.Failure) × R.IsFailure reader.new why) }
    ensures one { TakenAfter [] (R.left reader.old) (R.left reader.new) (IsAtMostOne limit) }
    ensures fault { IfErr result (λ e. TakenAfter [] (R.left reader.old) (R.left reader.new)
        (λ taken. IsFaultOf limit taken e)) }
{
    match read_head(reader, buf, headers) {
        Err(_) => Err(AskFault::Broken),
        Ok(None) => Ok(Ask::Refused(RequestFault::Head)),
        Ok(Some(head)) => ask_after(
            alloc,
            routes,
            reader,
            &buf[..head.filled],
            headers,
            head.spans,
            limit,
        ),
    }
}

/// What the bytes of the reader ask. The head is read into `buf`, which the texts of the call borrow from.
///
/// It reads only while a part of the head or the body is missing, so nothing is read after the body. It takes at most a
/// head of 8,192 bytes and its body.
///
/// # Errors
///
/// - `Broken`: the reader failed.
/// - `Memory`: memory was refused for the body.
pub fn read_ask<'b, R: Source>(
    alloc: Global,
    routes: &Routes,
    reader: &mut R,
    buf: &'b mut [u8; HEAD_BYTES],
) -> Result<Ask<'b>, AskFault>
    ensures asks { IfOk result (λ ask. IfSome (R.left reader.old) (λ bytes.
        Asks body_limit bytes (reported_by ask))) }
    ensures asked { result ≢ ErrOf Broken → (taken : List ℕ)
        × AskedFor (AwaitsMore body_limit) [] (R.pieces reader.old) (R.pieces reader.new) taken }
    ensures one { TakenAfter [] (R.left reader.old) (R.left reader.new) (IsAtMostOne body_limit) }
    ensures most { TakesAtMost (8192 + body_limit) (R.left reader.old) (R.left reader.new) }
    ensures why { IfErr result (λ e. e ≡ Broken → (why : R.Failure) × R.IsFailure reader.new why) }
    ensures memory { IfErr result (λ e. e ≡ Memory → IfSome (R.left reader.old) (BeginsBody body_limit)) }
    ensures fault { IfErr result (λ e. TakenAfter [] (R.left reader.old) (R.left reader.new)
        (λ taken. IsFaultOf body_limit taken e)) }
{
    let mut headers = [EMPTY_HEADER_SPAN; HEADERS];
    ask_within(alloc, routes, reader, buf, &mut headers, BODY_BYTES)
}
