//! Does command lines on a desk, and explains their answers. An explanation is made from the value that was answered,
//! while the input that it is about is at hand.

ghost use Rattle.std.specs.Prelude.{◌≡◌, ◌≢◌, ◌↔◌, [], IfSome, IsTrue, MatchResult, None, false, is_some, true};
ghost use Rattle.tb_cli.specs.Lines.{said_by};
ghost use Rattle.tb_answer.specs.declared.ending.Ending.TheVariants.{BrokenOff};
ghost use Rattle.tb_answer.specs.declared.written.Written.TheVariants.{Found, Reply as Replied};
ghost use Rattle.tb_http.specs.declared.replies.Reply.{Reply as AnyReply};
ghost use Rattle.tb_desk.specs.Explaining.{IsAskedBy, IsExplained, IsExplainedAs, ReportsNoWords};
ghost use Rattle.tb_desk.specs.Told.{IsOwnCause};
ghost use Rattle.tb_host.specs.Reported.{IsOfAnswer, IsReported, IsTold};
ghost use Rattle.tb_host.specs.declared.causes.FileCause.{FileCause as AnyFileCause};
ghost use Rattle.tb_desk.specs.Running.{FoundNothing, KeepsDesk, IsRunOn, taken_of};

use crate::nothing::{unreleased, words_of_nothing};
use crate::running::changes_desk;
use crate::targets::Target;
use sqlite::Alter;
use std::alloc::Global;
use tb_answer::{Ending, Ran, Written, run_line_reported};
use tb_cli::Line;
use tb_conllu::Sink;
use tb_host::{Cause, Diagnostic, FileCause, Outcome};
use tb_http::Reply;
use tb_store::Desk;
use tb_words::{Asked, Words, words_of_reply};

/// The words for a reply, where words are wanted.
pub(crate) fn explained(
    alloc: Global,
    is_wanted: bool,
    reply: Reply,
    body: &[u8],
    asked: Asked<'_>,
) -> Option<Diagnostic>
    ensures explained { IsExplained is_wanted reply result }
    ensures unwanted { ReportsNoWords is_wanted result }
{
    if !is_wanted {
        return None;
    }
    match words_of_reply(alloc, reply, body, asked) {
        Some(words) => Some(Diagnostic::from(Cause::Words(words))),
        None => None,
    }
}

/// What a line asks, as far as the words for a refusal depend on it.
fn asked_of(line: &Line) -> Asked<'_>
    ensures { IsAskedBy (said_by line.now) result }
{
    match line {
        Line::Event { .. } => Asked::Event,
        Line::Correct { base, .. } => Asked::Correction(*base),
        Line::Pull { .. } | Line::Restore { .. } => Asked::Pull,
        Line::Search { query, .. } | Line::Count { query, .. } => Asked::Query(query.as_str()),
        _ => Asked::Other,
    }
}

/// The words for a line that finds nothing.
fn words_of_empty<S: Alter>(rt: &HostRuntime, desk: &mut Desk<S>, line: &Line) -> Option<Words>
    ensures { KeepsDesk S.Store desk.old desk.new }
{
    match line {
        Line::Search {
            query,
            strategy,
            ..
        }
        | Line::Count {
            query,
            strategy,
            ..
        } => words_of_nothing(rt, desk, query.as_str(), *strategy),
        _ => unreleased(desk),
    }
}

/// The words for an answer that finds nothing, where words are wanted.
fn reported_of_empty<S: Alter>(
    rt: &HostRuntime,
    is_wanted: bool,
    desk: &mut Desk<S>,
    line: &Line,
) -> Option<Diagnostic>
    ensures read { KeepsDesk S.Store desk.old desk.new }
    ensures words { IfSome result (λ d. IsOfAnswer d.cause) }
    ensures unwanted { is_wanted ≡ false → (result ≡ None) × (desk.new ≡ desk.old) }
    ensures no_words { ReportsNoWords is_wanted result }
{
    if is_wanted {
        let words = words_of_empty(rt, desk, line)?;
        return Some(Diagnostic::from(Cause::Words(words)));
    }
    None
}

/// Why the device failed on a command, at the file of its desk, where the system says more than that it failed.
fn cause_at_file(rt: &HostRuntime, failed: FileCause, line: &Line, ran: Ran) -> Option<Diagnostic>
    ensures other { ran.written ≢ Replied Reply.Device → result ≡ None }
    ensures file { IfSome result (λ d. (c : AnyFileCause) × (d.cause ≡ Cause.File c)) }
    ensures own { IfSome result (λ d. IsOwnCause d.cause) }
{
    if !matches!(ran.written, Written::Reply(Reply::Device)) {
        return None;
    }
    match failed {
        FileCause::Failed => None,
        cause => Some(Diagnostic::at(rt, Target::of_line(line).file()?, Cause::File(cause))),
    }
}

/// Whether an answer is whole, and has no sentence, no row or no hit.
fn is_empty(ran: Ran) -> bool
    ensures { IsTrue result ↔ FoundNothing ran }
{
    ran.status == 0
        && matches!(
            ran.written,
            Written::Text(0) | Written::Table(0) | Written::Found(Ending::Whole(0))
        )
}

/// Whether words are said of an answer that is no reply: it finds nothing, and they are wanted.
fn wants_words_of_empty(is_wanted: bool, ran: Ran) -> bool
    ensures unwanted { is_wanted ≡ false → result ≡ false }
    ensures empty { IsTrue result → FoundNothing ran }
{
    is_wanted && is_empty(ran)
}

/// What there is to say of an answer. Words for it are said where they are wanted.
fn reported_of<S: Alter>(
    rt: &HostRuntime,
    is_wanted: bool,
    line: &Line,
    body: &[u8],
    desk: &mut Desk<S>,
    ran: Ran,
) -> Option<Diagnostic>
    ensures read { KeepsDesk S.Store desk.old desk.new }
    ensures broken_off { ran.written ≡ Found BrokenOff → IsReported result Cause.BrokenOff }
    ensures explained { IsExplainedAs is_wanted ran.written result }
    ensures unwanted { ReportsNoWords is_wanted result }
{
    match ran.written {
        Written::Reply(reply) => explained(rt.alloc(), is_wanted, reply, body, asked_of(line)),
        Written::Found(Ending::BrokenOff) => Some(Diagnostic::from(Cause::BrokenOff)),
        Written::Text(_) | Written::Table(_) | Written::Found(_) | Written::Usage => {
            reported_of_empty(rt, wants_words_of_empty(is_wanted, ran), desk, line)
        }
    }
}

/// The bytes of a body, none where it was not read.
fn bytes_of(body: &Result<Vec<u8>, Reply>) -> &[u8]
    ensures { MatchResult body.now (λ bytes. result.now ≡ bytes.items) (λ _. result.now ≡ []) }
{
    match body {
        Ok(bytes) => bytes.as_slice(),
        Err(_) => &[],
    }
}

/// Why the device failed on a line that changes a desk, if it did.
fn cause_of_run(
    rt: &HostRuntime,
    failed: FileCause,
    line: &Line,
    body: &Result<Vec<u8>, Reply>,
    ran: Ran,
) -> Option<Diagnostic>
    ensures other { ran.written ≢ Replied Reply.Device → result ≡ None }
    ensures own { IfSome result (λ d. IsOwnCause d.cause) }
{
    if body.is_ok() && changes_desk(line) {
        return cause_at_file(rt, failed, line, ran);
    }
    None
}

/// What there is to say of a line that ran: of the file of its desk where the device failed, for this cause, or of its
/// answer. Words for an answer are said where they are wanted.
fn reported_of_run<S: Alter>(
    rt: &HostRuntime,
    failed: FileCause,
    is_wanted: bool,
    line: &Line,
    body: &Result<Vec<u8>, Reply>,
    desk: &mut Desk<S>,
    ran: Ran,
) -> Option<Diagnostic>
    ensures read { KeepsDesk S.Store desk.old desk.new }
    ensures broken_off { ran.written ≡ Found BrokenOff → IsReported result Cause.BrokenOff }
    ensures explained { (r : AnyReply) → ran.written ≡ Replied r → r ≢ Reply.Device
        → IsExplained is_wanted r result }
    ensures device { ran.written ≡ Replied Reply.Device → is_wanted ≡ true → is_some result ≡ true }
    ensures unwanted { ReportsNoWords is_wanted result }
{
    match cause_of_run(rt, failed, line, body, ran) {
        Some(cause) => Some(cause),
        None => reported_of(rt, is_wanted, line, bytes_of(body), desk, ran),
    }
}

/// Does a line on a desk if its body was read, otherwise reports why it was not. Prints the answer. Explains it where
/// words are wanted.
pub(crate) fn run_reported<S: Alter, W: Sink>(
    rt: &HostRuntime,
    is_wanted: bool,
    line: &Line,
    body: &Result<Vec<u8>, Reply>,
    desk: &mut Desk<S>,
    out: &mut W,
) -> Outcome
    ensures { IsRunOn S.Store (W.held out.old) (W.held out.new) (W.IsRefusal out.new) result.status is_wanted
        (IsTold result.reported) desk.old desk.new (said_by line.now) (taken_of (λ v. v.items) body.now) }
{
    let ran = run_line_reported(rt.alloc(), line, body, desk, out);
    // The system's last error is the device's only until the next call of the system, which may set another.
    let failed = FileCause::of_device(FileCause::Failed);
    Outcome {
        status: ran.status,
        reported: reported_of_run(rt, failed, is_wanted, line, body, desk, ran),
    }
}
