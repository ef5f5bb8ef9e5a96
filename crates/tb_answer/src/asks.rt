//! Does what a request asks, and answers it.

ghost use Rattle.std.specs.Prelude.{◌≡◌};
ghost use Rattle.tb_answer.specs.Prelude.{act_by, InState, reported_by};
ghost use Rattle.tb_answer.specs.Commanded.{HasFailed};
ghost use Rattle.tb_answer.specs.Calls.{call_asked};
ghost use Rattle.tb_answer.specs.OnlyRead.{IsOnlyRead};
ghost use Rattle.tb_answer.specs.Served.{AsksText, IsReplySent, IsTextSent, IsCallSent, IsReplied};
ghost use Rattle.tb_answer.specs.Served.{IsSafeCall, IsSafeFor};

use crate::calls::DeskCall;
use crate::counts::respond_count;
use crate::exports::respond_export;
use crate::finding::{Count, Search};
use crate::responding::respond_call;
use crate::responses::respond_reply;
use crate::searches::respond_search;
use sqlite::Alter;
use std::alloc::Global;
use std::str::from_utf8;
use tb_conllu::Sink;
use tb_http::{Action, Ask, Reply, RequestFault, Status};
use tb_store::Desk;

/// Answers that the body is not UTF-8.
fn respond_no_text<W: Sink>(out: &mut W) -> Option<Status>
    ensures { IsReplySent (W.held out.old) (W.held out.new) (W.IsRefusal out.new) result
        (Reply.Faulty RequestFault.Body) }
{
    respond_reply(out, Reply::Faulty(RequestFault::Body))
}

/// Answers an action that asks for an export, a search or a count. The body is the query of a search or a count.
fn respond_text<S: Alter, W: Sink>(
    alloc: Global,
    desk: &mut Desk<S>,
    action: Action<'_>,
    body: &[u8],
    out: &mut W,
) -> Option<Status>
    requires { AsksText (act_by action) }
    ensures written { InState S.Store desk.old desk.new (λ s. IsTextSent (W.held out.old) (W.held out.new)
        (W.IsRefusal out.new) result (HasFailed S.Store desk.old desk.new) desk.old.limits s
        (act_by action.entry) body.now) }
    ensures read_only { IsOnlyRead S.Store desk.old desk.new }
{
    match (action, from_utf8(body)) {
        (Action::Export { name }, _) => respond_export(alloc, desk, Some(name), out),
        (Action::Search { strategy, context }, Ok(query)) => {
            let search = Search {
                query,
                strategy,
                context,
            };
            respond_search(alloc, desk, search, out)
        }
        (
            Action::Count {
                strategy,
                attribute,
            },
            Ok(query),
        ) => {
            let count = Count {
                query,
                strategy,
                column: attribute,
            };
            respond_count(alloc, desk, count, out)
        }
        (Action::Search { .. } | Action::Count { .. }, Err(_)) => respond_no_text(out),
        // released text: no other action is left
        _ => respond_export(alloc, desk, None, out),
    }
}

/// Does a call, and answers it.
fn respond_asked<S: Alter, W: Sink>(
    alloc: Global,
    desk: &mut Desk<S>,
    action: Action<'_>,
    user: &str,
    body: &[u8],
    out: &mut W,
) -> Option<Status>
    ensures written { InState S.Store desk.old desk.new (λ s. IsCallSent (W.held out.old) (W.held out.new)
        (W.IsRefusal out.new) result S.Store desk.old.limits s (call_asked
        (act_by action.entry) user.now body.now) (act_by action.entry) body.now desk.old desk.new) }
    ensures crash { IsSafeCall S.Store (call_asked (act_by action.entry) user.now body.now) desk.old desk.new }
    ensures limits { desk.new.limits ≡ desk.old.limits }
{
    match DeskCall::of_action(action, user, body) {
        Some(call) => respond_call(alloc, call, desk, out),
        None => respond_text(alloc, desk, action, body, out),
    }
}

/// Does what a request asks, and answers it.
pub(crate) fn respond_ask<S: Alter, W: Sink>(
    alloc: Global,
    desk: &mut Desk<S>,
    ask: Ask<'_>,
    out: &mut W,
) -> Option<Status>
    ensures written { InState S.Store desk.old desk.new (λ s. IsReplied (W.held out.old) (W.held out.new)
        (W.IsRefusal out.new) result S.Store desk.old.limits s (reported_by ask.entry) desk.old desk.new) }
    ensures crash { IsSafeFor S.Store (reported_by ask.entry) desk.old desk.new }
    ensures limits { desk.new.limits ≡ desk.old.limits }
{
    match ask {
        Ask::Refused(fault) => respond_reply(out, Reply::Faulty(fault)),
        Ask::Call(call) => respond_asked(
            alloc,
            desk,
            call.action,
            call.user,
            call.body.as_slice(),
            out,
        ),
    }
}
