//! Writes responses over HTTP to any sink.

ghost use Rattle.std.specs.Prelude.{◌≡◌, ◌++◌, MatchResult, true, false};
ghost use Rattle.tb_answer.specs.Prelude.{Appends, AppendsPart, HasReason, status_of};
ghost use Rattle.tb_answer.specs.Responses.{reply_response, extra_of_revision, body_head, body_response, IsSent};

use crate::questions::Body;
use arrayvec::ArrayString;
use tb_conllu::Sink;
use tb_http::{Extra, Reply, Status, head_of_reply, response_head};

/// Writes one piece, and returns whether the sink took it.
pub(crate) fn put_piece<W: Sink>(out: &mut W, bytes: &[u8]) -> bool
    ensures taken { result ≡ true → Appends (W.held out.old) (W.held out.new) bytes.now }
    ensures refused { result ≡ false → AppendsPart (W.held out.old) (W.held out.new) bytes.now
        × HasReason (W.IsRefusal out.new) }
{
    match out.put(bytes) {
        Ok(()) => true,
        Err(_) => false,
    }
}

/// Writes a head and a body. Returns the status, or none where the sink refused a part of them.
pub fn put_response<W: Sink>(
    out: &mut W,
    head: &[u8],
    body: &[u8],
    status: Status,
) -> Option<Status>
    ensures { IsSent (W.held out.old) (W.held out.new) (head.now ++ body.now) status (W.IsRefusal out.new) result }
{
    if !put_piece(out, head) {
        return None;
    }
    if !put_piece(out, body) {
        return None;
    }
    Some(status)
}

/// Writes the response whose body is the line of a reply. Returns its status, or none where the sink refused a part.
pub fn respond_reply<W: Sink>(out: &mut W, reply: Reply) -> Option<Status>
    ensures { IsSent (W.held out.old) (W.held out.new) (reply_response reply) (status_of reply)
        (W.IsRefusal out.new) result }
{
    let head = head_of_reply(reply);
    let line = reply.line();
    put_response(
        out,
        head.as_str().as_bytes(),
        line.as_str().as_bytes(),
        reply.status(),
    )
}

/// The header with the number of a current revision.
fn extra_of_revision(rev: Option<u64>) -> Extra
    ensures { result ≡ extra_of_revision rev }
{
    match rev {
        None => Extra::Nothing,
        Some(rev) => Extra::Revision(rev),
    }
}

/// The head of a response whose body is a text.
fn body_head(body: &Body) -> ArrayString<256>
    ensures { result.bytes ≡ body_head body.now.rev body.now.text.items }
{
    response_head(
        Status::Ok,
        Some(body.text.len() as u64),
        extra_of_revision(body.rev),
    )
}

/// Writes the response whose body is a text. Returns its status, 200, or none where the sink refused a part.
pub fn respond_body<W: Sink>(out: &mut W, body: &Body) -> Option<Status>
    ensures { IsSent (W.held out.old) (W.held out.new) (body_response body.now.rev body.now.text.items) Status.Ok
        (W.IsRefusal out.new) result }
{
    let head = body_head(body);
    put_response(
        out,
        head.as_str().as_bytes(),
        body.text.as_slice(),
        Status::Ok,
    )
}

/// Writes the response with the text that was asked for, or with the line of why there is none. Returns its status, or none
/// where the sink refused a part.
pub(crate) fn respond_result<W: Sink>(out: &mut W, asked: Result<Body, Reply>) -> Option<Status>
    ensures { MatchResult asked
        (λ b. IsSent (W.held out.old) (W.held out.new) (body_response b.rev b.text.items) Status.Ok
        (W.IsRefusal out.new) result)
        (λ r. IsSent (W.held out.old) (W.held out.new) (reply_response r) (status_of r) (W.IsRefusal out.new) result) }
{
    match asked {
        Ok(body) => respond_body(out, &body),
        Err(reply) => respond_reply(out, reply),
    }
}
