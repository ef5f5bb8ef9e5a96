//! Runs calls of a desk, and writes their answers to a sink.

ghost use Rattle.std.specs.Prelude.{◌≡◌, ℕ, List};
ghost use Rattle.tb_answer.specs.Prelude.{InState};
ghost use Rattle.tb_answer.specs.Commanded.{IsObeyed};
ghost use Rattle.tb_answer.specs.Output.{IsWritten};
ghost use Rattle.tb_answer.specs.Calls.{command_by, call_by, IsOutput, IsSafe};

use crate::calls::{DeskCall, DeskCommand};
use crate::written::Ran;
use crate::{bodies, commands};
use sqlite::Alter;
use std::alloc::Global;
use tb_conllu::Sink;
use tb_http::Reply;
use tb_store::Desk;

/// Runs a command, and returns its reply.
pub fn obey<S: Alter>(desk: &mut Desk<S>, command: DeskCommand<'_>) -> Reply
    ensures { IsObeyed S.Store (command_by command.entry) desk.old desk.new result }
{
    match command {
        DeskCommand::Import { name, user, body } => commands::import(desk, name, user, body),
        DeskCommand::Event { name, event, user } => commands::event(desk, name, event, user),
        DeskCommand::Correct {
            number,
            base,
            user,
            body,
        } => commands::correct(desk, number, base, user, body),
        DeskCommand::Pull { number, user } => commands::pull(desk, number, user),
        DeskCommand::Restore { number, user } => commands::restore(desk, number, user),
    }
}

/// Makes a call, and writes its answer to the sink.
pub fn run_call<S: Alter, W: Sink>(
    alloc: Global,
    call: DeskCall<'_>,
    desk: &mut Desk<S>,
    out: &mut W,
) -> Ran
    ensures written { InState S.Store desk.old desk.new (λ s. (text : List ℕ) × (own : ℕ)
        × IsOutput S.Store desk.old.limits s (call_by call.entry) desk.old desk.new text own result.written
        × IsWritten (W.held out.old) (W.held out.new) text own (W.IsRefusal out.new) result.status) }
    ensures crash { IsSafe S.Store (call_by call.entry) desk.old desk.new }
    ensures limits { desk.new.limits ≡ desk.old.limits }
{
    match call {
        DeskCall::Command(command) => Ran::by_reply(out, obey(desk, command)),
        DeskCall::Question(question) => Ran::by_body(out, bodies::ask(alloc, desk, question)),
    }
}
