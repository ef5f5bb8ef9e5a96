//! Exports, made whole in memory before their first byte is written: with an exit status, or as responses over HTTP.

ghost use Rattle.std.specs.Prelude.{◌≡◌, ◌≢◌, ℕ, List, None, Ok as OkOf, Err as ErrOf, IfOk, option_map, MatchResult};
ghost use Rattle.tb_answer.specs.Prelude.{AnyRefusal, AnyStatus, Appends, BlamesNoDevice, Does, HasCleanDisk, InState};
ghost use Rattle.tb_answer.specs.Prelude.{HasReason, KnowsItself, Machine, Represents, state};
ghost use Rattle.tb_answer.specs.Commanded.{HasFailed, IsFailure, IsNoRefusal, reply_for_export};
ghost use Rattle.tb_answer.specs.Output.{IsWritten};
ghost use Rattle.tb_answer.specs.Responses.{IsSent};
ghost use Rattle.tb_answer.specs.Exported.{HasExport, RefusesExport, IsExportOutput, IsReportedOfExport};
ghost use Rattle.tb_answer.specs.Exported.{IsExportResponse, IsNamedBadly};
ghost use Rattle.tb_answer.specs.OnlyRead.{IsOnlyRead, IsReadResult};

use crate::bodies::body_of;
use crate::commands::reply_for_fault;
use crate::questions::Body;
use crate::responses::respond_result;
use crate::written::Ran;
use sqlite::Alter;
use std::alloc::Global;
use tb_conllu::Sink;
use tb_core::{Fault, Refusal};
use tb_http::{Reply, Status};
use tb_store::Desk;

/// Writes the text of an export: of the batch with this name, or of all released sentences.
fn export<S: Alter, W: Sink>(
    desk: &mut Desk<S>,
    name: Option<&str>,
    out: &mut W,
) -> Result<(), Fault>
    ensures put { Does S.Store desk.old desk.new result (λ s. (text : List ℕ)
        × HasExport s (option_map (λ n. n.now) name.entry) (OkOf text)
        × Appends (W.held out.old) (W.held out.new) text) }
    ensures refused { HasCleanDisk (state S.Store desk.new.conn) → (r : AnyRefusal)
        → result ≡ ErrOf (Fault.Refused r) → (s : Machine) → Represents S.Store desk.old s
        → RefusesExport s (option_map (λ n. n.now) name.entry) r }
    ensures bad_name { IsNamedBadly (option_map (λ n. n.now) name.entry)
        → result ≡ ErrOf (Fault.Refused Refusal.BadName) }
    ensures output { result ≡ ErrOf Fault.Output → HasReason (W.IsRefusal out.new) }
    ensures fails { KnowsItself S.Store desk.old desk.new result }
    ensures cause { BlamesNoDevice S.Store desk.old desk.new result }
    ensures read_only { IsOnlyRead S.Store desk.old desk.new }
{
    match name {
        Some(name) => desk.export_batch(name, out),
        None => desk.export_released(out),
    }
}

/// The reply for a fault of an export into memory, whose sink fails only for want of memory.
fn reply_for_export(fault: Fault) -> Reply
    ensures value { result ≡ reply_for_export fault }
    ensures refused { (r : AnyRefusal) → fault ≡ Fault.Refused r → result ≡ Reply.Refused r }
    ensures failed { IsNoRefusal fault → fault ≢ Fault.NotADesk → IsFailure (fault ≡ Fault.Device) result }
{
    match fault {
        Fault::Output => Reply::Memory,
        Fault::Refused(_) | Fault::Memory | Fault::Device | Fault::NotADesk => {
            reply_for_fault(fault)
        }
    }
}

/// The text of an export that ended so, or the reply for its fault.
fn body_of_export(ended: Result<(), Fault>, text: Vec<u8>) -> Result<Body, Reply>
    ensures { MatchResult ended
        (λ _. MatchResult result (λ b. (b.text.items ≡ text.items) × (b.rev ≡ None)) (λ _. ⊥))
        (λ e. result ≡ ErrOf (reply_for_export e)) }
{
    match ended {
        Ok(()) => Ok(body_of(text)),
        Err(fault) => Err(reply_for_export(fault)),
    }
}

/// The text of an export, made whole in memory.
fn export_body<S: Alter>(
    alloc: Global,
    desk: &mut Desk<S>,
    name: Option<&str>,
) -> Result<Body, Reply>
    ensures read { IsReadResult S.Store desk.old desk.new result
        (λ s b. HasExport s (option_map (λ n. n.now) name.entry) (OkOf b.text.items))
        (λ cause s. IsReportedOfExport cause s (option_map (λ n. n.now) name.entry)) }
    ensures plain { IfOk result (λ b. b.rev ≡ None) }
{
    let mut text = Vec::new(alloc);
    body_of_export(export(desk, name, &mut text), text)
}

/// Writes the text of an export, or the line of a reply.
///
/// The text is made whole in memory first, so that a failure of the store leaves no part of it in the sink.
pub fn run_export<S: Alter, W: Sink>(
    alloc: Global,
    desk: &mut Desk<S>,
    name: Option<&str>,
    out: &mut W,
) -> Ran
    ensures written { InState S.Store desk.old desk.new (λ s. (text : List ℕ) × (own : ℕ)
        × IsExportOutput (HasFailed S.Store desk.old desk.new) s (option_map (λ n. n.now) name.entry) text own
        result.written
        × IsWritten (W.held out.old) (W.held out.new) text own (W.IsRefusal out.new) result.status) }
    ensures read_only { IsOnlyRead S.Store desk.old desk.new }
{
    Ran::by_body(out, export_body(alloc, desk, name))
}

/// Writes the response of an export. Returns its status if it was written whole.
///
/// The text is made whole in memory first, so that the head has its length.
pub fn respond_export<S: Alter, W: Sink>(
    alloc: Global,
    desk: &mut Desk<S>,
    name: Option<&str>,
    out: &mut W,
) -> Option<Status>
    ensures written { InState S.Store desk.old desk.new (λ s. (text : List ℕ) × (status : AnyStatus)
        × IsExportResponse (HasFailed S.Store desk.old desk.new) s (option_map (λ n. n.now) name.entry) text status
        × IsSent (W.held out.old) (W.held out.new) text status (W.IsRefusal out.new) result) }
    ensures read_only { IsOnlyRead S.Store desk.old desk.new }
{
    respond_result(out, export_body(alloc, desk, name))
}
