//! Writes the responses of the page.

ghost use Rattle.std.specs.Prelude.{ℕ, List, ◌++◌, length};
ghost use Rattle.tb_answer.specs.Responses.{IsSent};
ghost use Rattle.tb_page.specs.Answered.{file_response, foreign_response, method_response};
ghost use Rattle.tb_page.specs.Checked.{IsCheckResponse};
ghost use Rattle.tb_page.specs.Heads.{page_head, page_response};
ghost use Rattle.tb_http.specs.Replies.{reply_text, status_of};

use crate::guard::Foreign;
use crate::heads::{Kind, page_head};
use crate::paths::File;
use std::alloc::Global;
use tb_answer::put_response;
use tb_conllu::Sink;
use tb_http::{Allow, Reply, Status};
use tb_words::list_faults;

/// How many faults of a text are listed at most, as by `deskview check` where no number is asked for.
const FAULTS: u32 = 100;

/// Writes a head and a body. Returns the status, or none where the sink refused a part of them.
fn put_page<W: Sink>(out: &mut W, status: Status, kind: Kind, body: &[u8]) -> Option<Status>
    ensures { IsSent (W.held out.old) (W.held out.new) (page_response status kind body.now) status
        (W.IsRefusal out.new) result }
{
    let head = page_head(status, None, kind, body.len() as u64);
    put_response(out, head.as_str().as_bytes(), body, status)
}

/// Answers a request that the guard refuses.
pub(crate) fn respond_foreign<W: Sink>(out: &mut W, why: Foreign) -> Option<Status>
    ensures { IsSent (W.held out.old) (W.held out.new) (foreign_response why) Status.Forbidden
        (W.IsRefusal out.new) result }
{
    match why {
        Foreign::Host => put_page(out, Status::Forbidden, Kind::Plain, b"refused host\n"),
        Foreign::Origin => put_page(out, Status::Forbidden, Kind::Plain, b"refused origin\n"),
    }
}

/// Answers a method that a path of the page does not have. It has these.
pub(crate) fn respond_no_method<W: Sink>(out: &mut W, allow: Allow) -> Option<Status>
    ensures { IsSent (W.held out.old) (W.held out.new) (method_response allow) Status.MethodNotAllowed
        (W.IsRefusal out.new) result }
{
    let status = Status::MethodNotAllowed;
    let head = page_head(status, Some(allow), Kind::Plain, 15);
    put_response(out, head.as_str().as_bytes(), b"refused method\n", status)
}

/// Answers with a file of the page.
pub(crate) fn respond_file<W: Sink>(out: &mut W, file: File) -> Option<Status>
    ensures { IsSent (W.held out.old) (W.held out.new) (file_response file) Status.Ok (W.IsRefusal out.new) result }
{
    put_page(out, Status::Ok, file.kind(), file.text().as_bytes())
}

/// Answers with the text of a list.
pub(crate) fn respond_text<W: Sink>(out: &mut W, text: &[u8]) -> Option<Status>
    ensures { IsSent (W.held out.old) (W.held out.new) (page_response Status.Ok Kind.Plain text.now) Status.Ok
        (W.IsRefusal out.new) result }
{
    put_page(out, Status::Ok, Kind::Plain, text)
}

/// Answers why there is no list.
pub(crate) fn respond_refusal<W: Sink>(out: &mut W, reply: Reply) -> Option<Status>
    ensures { IsSent (W.held out.old) (W.held out.new) (page_response (status_of reply) Kind.Plain (reply_text reply))
        (status_of reply) (W.IsRefusal out.new) result }
{
    let line = reply.line();
    put_page(out, reply.status(), Kind::Plain, line.as_str().as_bytes())
}

/// Answers the check of a text: with the list of its first faults, or where memory is refused for that, with this.
pub(crate) fn respond_check<W: Sink>(alloc: Global, out: &mut W, text: &[u8]) -> Option<Status>
    ensures { (response : List ℕ) × (status : Status) × IsCheckResponse text.now response status
        × IsSent (W.held out.old) (W.held out.new) response status (W.IsRefusal out.new) result }
{
    match list_faults(alloc, text, FAULTS) {
        Ok(list) => respond_text(out, list.text.as_slice()),
        Err(_) => respond_refusal(out, Reply::Memory),
    }
}
