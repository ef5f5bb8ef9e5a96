//! The answer of a run for which memory is wanting.

ghost use Rattle.tb_desk.specs.Replies.{IsReplyWritten};
ghost use Rattle.tb_host.specs.Reported.{IsReported};

use tb_answer::put_reply;
use tb_conllu::Sink;
use tb_host::{Cause, Diagnostic, Outcome};
use tb_http::Reply;

/// Prints the line for a run that ran out of memory, and gives the reason.
pub(crate) fn put_memory<W: Sink>(out: &mut W) -> Outcome
    ensures written { IsReplyWritten (W.held out.old) (W.held out.new) (W.IsRefusal out.new) result.status
        Reply.Memory }
    ensures reported { IsReported result.reported Cause.Memory }
{
    Outcome {
        status: put_reply(out, Reply::Memory),
        reported: Some(Diagnostic::from(Cause::Memory)),
    }
}
