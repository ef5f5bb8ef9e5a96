//! Runs a line of words on a desk.

ghost use Rattle.std.specs.Prelude.{◌≡◌, MatchResult, Ok as Taken, Err as Untaken, option_map, string_bytes, true};
ghost use Rattle.tb_answer.specs.Prelude.{file_limit, InState, said_by};
ghost use Rattle.tb_answer.specs.Commanded.{HasFailed};
ghost use Rattle.tb_answer.specs.Taken.{IsBodyAskedFor, IsTaken, WithTaken, body_in, has_body};
ghost use Rattle.tb_answer.specs.Calls.{call_by, call_in};
ghost use Rattle.tb_answer.specs.OnlyRead.{IsOnlyRead};
ghost use Rattle.tb_answer.specs.Ran.{reading_by, reading_in, IsReadingRun, IsCalled, IsDone, IsRan, IsRanAs};
ghost use Rattle.tb_answer.specs.Ran.{IsCallSafe, IsDoneSafe, IsLineSafe};

use crate::calls::DeskCall;
use crate::counts::run_count;
use crate::exports::run_export;
use crate::finding::{Count, Search};
use crate::running::run_call;
use crate::searches::run_search;
use crate::written::{Ran, Written};
use sqlite::Alter;
use std::alloc::Global;
use tb_check::{FILE_LIMIT, Input, read_all};
use tb_cli::Line;
use tb_conllu::{Sink, Source};
use tb_http::{Reply, RequestFault};
use tb_store::Desk;

/// Whether a line has a body on its input.
fn has_body(line: &Line) -> bool
    ensures { result ≡ has_body (said_by line.now) }
{
    matches!(line, Line::Import { .. } | Line::Correct { .. })
}

/// The body in what was read of an input, or the reply that says why there is none.
fn body_of(input: Input) -> Result<Vec<u8>, Reply>
    ensures { MatchResult result (λ v. body_in input ≡ Taken v.items) (λ r. body_in input ≡ Untaken r) }
{
    match input {
        Input::Whole(body) => Ok(body),
        Input::TooLong => Err(Reply::Faulty(RequestFault::Long)),
        Input::Memory => Err(Reply::Memory),
        Input::Broken => Err(Reply::Device),
    }
}

/// The body of a line: all that the reader gives, up to 4,194,304 bytes.
///
/// Only an import and a correction have a body. For other lines it is empty, and the reader is unchanged.
///
/// # Errors
///
/// The reply that says why there is no body: it is longer, memory runs out, or the reader failed (`Device`).
pub fn read_body<R: Source>(alloc: Global, line: &Line, reader: &mut R) -> Result<Vec<u8>, Reply>
    ensures taken { MatchResult result
        (λ v. IsTaken R.IsFailure R.left file_limit (said_by line.now) reader.old reader.new (Taken v.items))
        (λ r. IsTaken R.IsFailure R.left file_limit (said_by line.now) reader.old reader.new (Untaken r)) }
    ensures asked { has_body (said_by line.now) ≡ true → MatchResult result
        (λ v. IsBodyAskedFor file_limit (R.pieces reader.old) (R.pieces reader.new) (Taken v.items))
        (λ r. IsBodyAskedFor file_limit (R.pieces reader.old) (R.pieces reader.new) (Untaken r)) }
{
    if !has_body(line) {
        return Ok(Vec::new(alloc));
    }
    body_of(read_all(alloc, reader, FILE_LIMIT))
}

/// What a line reads from a desk.
#[derive(Clone, Copy, Debug)]
enum Reading<'a> {
    /// A batch, or all released text.
    Export(Option<&'a str>),
    Search(Search<'a>),
    Count(Count<'a>),
}

/// The name, if one is given.
fn given(name: &Option<String>) -> Option<&str>
    ensures { option_map (λ n. n.now) result ≡ option_map string_bytes name.now }
{
    match name {
        Some(name) => Some(name.as_str()),
        None => None,
    }
}

/// What a line reads from a desk, if it reads.
fn reading_of(line: &Line) -> Option<Reading<'_>>
    ensures { option_map reading_by result ≡ reading_in (said_by line.now) }
{
    match line {
        Line::Export { db: _, name } => Some(Reading::Export(given(name))),
        Line::Search {
            db: _,
            strategy,
            context,
            query,
        } => Some(Reading::Search(Search {
            query: query.as_str(),
            strategy: *strategy,
            context: *context,
        })),
        Line::Count {
            db: _,
            strategy,
            attribute,
            query,
        } => Some(Reading::Count(Count {
            query: query.as_str(),
            strategy: *strategy,
            column: *attribute,
        })),
        _ => None,
    }
}

/// Writes what a line reads from a desk.
fn run_reading<S: Alter, W: Sink>(
    alloc: Global,
    reading: Reading<'_>,
    desk: &mut Desk<S>,
    out: &mut W,
) -> Ran
    ensures read { InState S.Store desk.old desk.new (λ s. IsReadingRun (HasFailed S.Store desk.old desk.new)
        desk.old.limits s (reading_by reading.entry) (W.held out.old) (W.held out.new) (W.IsRefusal out.new)
        result.written result.status) }
    ensures read_only { IsOnlyRead S.Store desk.old desk.new }
{
    match reading {
        Reading::Export(name) => run_export(alloc, desk, name, out),
        Reading::Search(search) => run_search(alloc, desk, search, out),
        Reading::Count(count) => run_count(alloc, desk, count, out),
    }
}

/// Makes the call of a line, if it makes one.
fn run_called<S: Alter, W: Sink>(
    alloc: Global,
    call: Option<DeskCall<'_>>,
    desk: &mut Desk<S>,
    out: &mut W,
) -> Ran
    ensures called { InState S.Store desk.old desk.new (λ s. IsCalled S.Store desk.old.limits s
        (option_map call_by call.entry) desk.old desk.new
        (W.held out.old) (W.held out.new) (W.IsRefusal out.new) result.written result.status) }
    ensures crash { IsCallSafe S.Store (option_map call_by call.entry) desk.old desk.new }
    ensures limits { desk.new.limits ≡ desk.old.limits }
{
    match call {
        Some(call) => run_call(alloc, call, desk, out),
        None => Ran {
            status: tb_check::put_reply(out, "refused usage\n", 2),
            written: Written::Usage,
        },
    }
}

/// Runs a line with its body on a desk, and writes the answer.
fn do_line<S: Alter, W: Sink>(
    alloc: Global,
    line: &Line,
    body: &[u8],
    desk: &mut Desk<S>,
    out: &mut W,
) -> Ran
    ensures done { InState S.Store desk.old desk.new (λ s.
        IsDone S.Store desk.old.limits s (reading_in (said_by line.now)) (call_in
        (said_by line.now) body.now) desk.old desk.new (W.held out.old) (W.held out.new) (W.IsRefusal out.new)
        result.written result.status) }
    ensures crash { IsDoneSafe S.Store (reading_in (said_by line.now))
        (call_in (said_by line.now) body.now) desk.old desk.new }
    ensures limits { desk.new.limits ≡ desk.old.limits }
{
    match reading_of(line) {
        Some(reading) => run_reading(alloc, reading, desk, out),
        None => run_called(alloc, DeskCall::of_line(line, body), desk, out),
    }
}

/// Runs a line on a desk with its body, or reports why there is no body. Writes the answer, and returns the exit status
/// and what was written.
///
/// The status is 0 for done, 1 for refused, and 3 where memory, the device or the sink failed. It is 2 for a line that
/// is not for a desk (`check`, `new`, `migrate`, `serve`). The value has the reply exactly where the line of that reply
/// is the answer.
pub fn run_line_reported<S: Alter, W: Sink>(
    alloc: Global,
    line: &Line,
    body: &Result<Vec<u8>, Reply>,
    desk: &mut Desk<S>,
    out: &mut W,
) -> Ran
    ensures ran { InState S.Store desk.old desk.new (λ s. MatchResult body.now (λ v.
        IsRanAs S.Store desk.old.limits s (said_by line.now) (Taken v.items) desk.old desk.new
        (W.held out.old) (W.held out.new) (W.IsRefusal out.new) result.written result.status) (λ r.
        IsRanAs S.Store desk.old.limits s (said_by line.now) (Untaken r) desk.old desk.new (W.held out.old)
        (W.held out.new) (W.IsRefusal out.new) result.written result.status)) }
    ensures crash { MatchResult body.now
        (λ v. IsLineSafe S.Store (said_by line.now) (Taken v.items) desk.old desk.new)
        (λ r. IsLineSafe S.Store (said_by line.now) (Untaken r) desk.old desk.new) }
    ensures limits { desk.new.limits ≡ desk.old.limits }
{
    match body {
        Ok(body) => do_line(alloc, line, body.as_slice(), desk, out),
        Err(reply) => Ran::by_reply(out, *reply),
    }
}

/// Runs a line on a desk, as [`run_line_reported`] does, and returns the exit status.
pub fn run_line<S: Alter, W: Sink>(
    alloc: Global,
    line: &Line,
    body: Result<Vec<u8>, Reply>,
    desk: &mut Desk<S>,
    out: &mut W,
) -> u8
    ensures ran { InState S.Store desk.old desk.new (λ s. MatchResult body (λ v.
        IsRan S.Store desk.old.limits s (said_by line.now) (Taken v.items) desk.old desk.new
        (W.held out.old) (W.held out.new) (W.IsRefusal out.new) result) (λ r.
        IsRan S.Store desk.old.limits s (said_by line.now) (Untaken r) desk.old desk.new (W.held out.old)
        (W.held out.new) (W.IsRefusal out.new) result)) }
    ensures crash { MatchResult body (λ v. IsLineSafe S.Store (said_by line.now) (Taken v.items) desk.old desk.new)
        (λ r. IsLineSafe S.Store (said_by line.now) (Untaken r) desk.old desk.new) }
    ensures limits { desk.new.limits ≡ desk.old.limits }
{
    run_line_reported(alloc, line, &body, desk, out).status
}

/// Reads the body of a line, and runs the line on a desk: [`read_body`], then [`run_line`]. Returns the exit status.
pub fn run_line_from<S: Alter, R: Source, W: Sink>(
    alloc: Global,
    line: &Line,
    reader: &mut R,
    desk: &mut Desk<S>,
    out: &mut W,
) -> u8
    ensures ran { InState S.Store desk.old desk.new (λ s.
        WithTaken R.IsFailure R.left file_limit (said_by line.now) reader.old reader.new (λ taken.
        IsRan S.Store desk.old.limits s (said_by line.now) taken desk.old desk.new
        (W.held out.old) (W.held out.new) (W.IsRefusal out.new) result)) }
    ensures crash { WithTaken R.IsFailure R.left file_limit (said_by line.now) reader.old reader.new (λ taken.
        IsLineSafe S.Store (said_by line.now) taken desk.old desk.new) }
    ensures asked { has_body (said_by line.now) ≡ true → WithTaken R.IsFailure R.left file_limit (said_by line.now)
        reader.old reader.new (IsBodyAskedFor file_limit (R.pieces reader.old) (R.pieces reader.new)) }
    ensures limits { desk.new.limits ≡ desk.old.limits }
{
    let body = read_body(alloc, line, reader);
    run_line(alloc, line, body, desk, out)
}
