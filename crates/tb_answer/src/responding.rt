//! Runs calls of a desk, and answers them over HTTP.

ghost use Rattle.std.specs.Prelude.{◌≡◌, ℕ, List};
ghost use Rattle.tb_answer.specs.Prelude.{AnyStatus, InState};
ghost use Rattle.tb_answer.specs.Calls.{call_by, IsSafe};
ghost use Rattle.tb_answer.specs.Responses.{IsResponse, IsSent};

use crate::bodies;
use crate::calls::DeskCall;
use crate::responses::{respond_reply, respond_result};
use crate::running::obey;
use sqlite::Alter;
use std::alloc::Global;
use tb_conllu::Sink;
use tb_http::Status;
use tb_store::Desk;

/// Makes a call and writes its response. Returns its status if it was written whole.
pub fn respond_call<S: Alter, W: Sink>(
    alloc: Global,
    call: DeskCall<'_>,
    desk: &mut Desk<S>,
    out: &mut W,
) -> Option<Status>
    ensures written { InState S.Store desk.old desk.new (λ s. (text : List ℕ) × (status : AnyStatus)
        × IsResponse S.Store desk.old.limits s (call_by call.entry) desk.old desk.new text status
        × IsSent (W.held out.old) (W.held out.new) text status (W.IsRefusal out.new) result) }
    ensures crash { IsSafe S.Store (call_by call.entry) desk.old desk.new }
    ensures limits { desk.new.limits ≡ desk.old.limits }
{
    match call {
        DeskCall::Command(command) => respond_reply(out, obey(desk, command)),
        DeskCall::Question(question) => respond_result(out, bodies::ask(alloc, desk, question)),
    }
}
