//! Does a command line: makes a desk in a file, or works on the desk in a file or in memory.

ghost use Rattle.std.specs.Prelude.{◌≡◌, ◌≢◌, ◌⊎◌, IfSome, None};
ghost use Rattle.tb_cli.specs.Lines.{said_by};
ghost use Rattle.tb_answer.specs.Output.{IsWritten};
ghost use Rattle.tb_desk.specs.Lines.{AsksForBody, IsLineRun, IsMadeOrRefused, IsMigratedOrRefused, LeavesInput};
ghost use Rattle.tb_desk.specs.Running.{IsRunOn, taken_of};
ghost use Rattle.tb_desk.specs.Explaining.{cause_in_memory};
ghost use Rattle.tb_host.specs.Reported.{IsReported, IsTold};
ghost use Rattle.tb_desk.specs.Served.{IsServed, IsServedInFile, WithService, service_of};
ghost use Rattle.tb_desk.specs.Targets.{changes, in_file, in_memory, place_in, room_for};
ghost use Rattle.tb_desk.specs.Told.{IsOwnCause};

use crate::explaining::run_reported;
use crate::keeping::Keeper;
use crate::memory::put_memory;
use crate::service::{Service, service_of};
use crate::serving::{serve, serve_in_file};
use crate::targets::Target;
use crate::words::{TREEDESK, put_file_cause};
use sqlite::Alter;
use tb_answer::read_body;
use tb_cli::Line;
use tb_conllu::{Sink, Source};
use tb_host::files::{self, FileDesk};
use tb_host::{Cause, Diagnostic, Outcome, wants_words};
use tb_http::Reply;
use tb_store::Desk;

/// How many pages beyond those of its file a line keeps in memory.
fn room_of(line: &Line) -> u64
    ensures { result ≡ room_for (said_by line.now) }
{
    match line {
        Line::Import { .. } | Line::Correct { .. } => files::ROOM_TO_GROW,
        Line::Serve { .. } => files::ROOM_TO_SERVE,
        _ => files::ROOM,
    }
}

/// Closes a desk that was made or migrated, and prints the line that says so.
fn put_opened<W: Sink>(opened: FileDesk, line: &str, out: &mut W) -> Outcome
    ensures { IsWritten (W.held out.old) (W.held out.new) line.now 0 (W.IsRefusal out.new) result.status }
{
    opened.close();
    Outcome::from(tb_check::put_reply(out, line, 0))
}

/// Makes a desk in the file at this path.
fn run_new<W: Sink>(rt: &HostRuntime, path: &str, out: &mut W) -> Outcome
    ensures { IsMadeOrRefused (W.held out.old) (W.held out.new) (W.IsRefusal out.new) result.status
        (IsTold result.reported) }
{
    match files::make(rt, TREEDESK, path) {
        Ok(made) => put_opened(made, "made\n", out),
        Err(cause) => put_file_cause(rt, path, cause, out),
    }
}

/// Brings the desk in the file at this path to version 2.
fn run_migration<W: Sink>(rt: &HostRuntime, path: &str, out: &mut W) -> Outcome
    ensures { IsMigratedOrRefused (W.held out.old) (W.held out.new) (W.IsRefusal out.new) result.status
        (IsTold result.reported) }
{
    match files::migrate(rt, TREEDESK, path) {
        Ok(migrated) => put_opened(migrated, "migrated\n", out),
        Err(cause) => put_file_cause(rt, path, cause, out),
    }
}

/// Does a line on the desk of the file at this path, with its body.
fn run_on_desk<S: Alter, W: Keeper>(
    rt: &HostRuntime,
    is_wanted: bool,
    path: &str,
    line: &Line,
    body: &Result<Vec<u8>, Reply>,
    desk: &mut Desk<S>,
    out: &mut W,
) -> Outcome
    ensures { WithService (said_by line.now) (IsServedInFile (W.held out.old) (W.held out.new) (W.IsRefusal out.new)
        result.status (IsTold result.reported))
        ⊎ ((service_of (said_by line.now) ≡ None)
        × IsRunOn S.Store (W.held out.old) (W.held out.new) (W.IsRefusal out.new) result.status is_wanted
        (IsTold result.reported) desk.old desk.new (said_by line.now) (taken_of (λ v. v.items) body.now)) }
{
    match service_of(line) {
        Some(service) => serve_in_file(rt, path, desk, service, out),
        None => run_reported(rt, is_wanted, line, body, desk, out),
    }
}

/// Does a line on the desk of the file at this path.
///
/// The body is read before the file is opened, and so before it is locked for others. So in `show | correct` on one
/// file each command has its turn. A fault of the file is still reported before one of the body.
fn run_on_file<R: Source, W: Keeper>(
    rt: &HostRuntime,
    is_wanted: bool,
    path: &str,
    line: &Line,
    reader: &mut R,
    out: &mut W,
) -> Outcome
    ensures input { LeavesInput reader.old reader.new (said_by line.now) }
    ensures asked { AsksForBody R.IsFailure R.left R.pieces reader.old reader.new (said_by line.now) }
    ensures ended { IsLineRun R.IsFailure R.left reader.old reader.new (W.held out.old) (W.held out.new)
        (W.IsRefusal out.new) result.status is_wanted (IsTold result.reported) (said_by line.now)
        (in_file path.now) }
{
    if let Err(cause) = files::look(rt, path) {
        return put_file_cause(rt, path, cause, out);
    }
    let body = read_body(rt.alloc(), line, reader);
    match files::open(rt, TREEDESK, path, room_of(line)) {
        Ok(mut opened) => {
            let outcome = run_on_desk(rt, is_wanted, path, line, &body, &mut opened.desk, out);
            opened.close();
            outcome
        }
        Err(cause) => put_file_cause(rt, path, cause, out),
    }
}

/// Whether a line that is done changes the desk.
pub(crate) fn changes_desk(line: &Line) -> bool
    ensures { result ≡ changes (said_by line.now) }
{
    matches!(
        line,
        Line::Import { .. }
            | Line::Event { .. }
            | Line::Correct { .. }
            | Line::Pull { .. }
            | Line::Restore { .. }
    )
}

/// What a user has to know of a line that was done on a desk in memory. What it changed is not kept, and there was
/// nothing to read.
fn cause_in_memory(line: &Line) -> Option<Cause>
    ensures value { result ≡ cause_in_memory (said_by line.now) }
    ensures own { IfSome result IsOwnCause }
{
    match line {
        Line::Search { .. } => Some(Cause::NothingThere),
        Line::Count { .. } => Some(Cause::NothingThere),
        Line::Export { db: _, name: None } => Some(Cause::NothingThere),
        Line::Import { .. } => Some(Cause::NothingKept),
        Line::Event { .. } => Some(Cause::NothingKept),
        Line::Correct { .. } => Some(Cause::NothingKept),
        Line::Pull { .. } => Some(Cause::NothingKept),
        Line::Restore { .. } => Some(Cause::NothingKept),
        _ => None,
    }
}

/// What there is to say of a line that ended with this status on a desk in memory.
fn reported_in_memory(line: &Line, status: u8, reported: Option<Diagnostic>) -> Option<Diagnostic>
    ensures done { status ≡ 0 → IfSome (cause_in_memory (said_by line.now)) (IsReported result) }
    ensures otherwise { (status ≢ 0) ⊎ (cause_in_memory (said_by line.now) ≡ None) → result ≡ reported }
    ensures own { IfSome reported (λ d. IsOwnCause d.cause) → IfSome result (λ d. IsOwnCause d.cause) }
{
    match cause_in_memory(line) {
        Some(cause) if status == 0 => Some(Diagnostic::from(cause)),
        _ => reported,
    }
}

/// Serves a desk in memory. A warning that nothing is kept comes before the first request.
fn serve_in_memory<S: Alter, W: Keeper>(
    rt: &HostRuntime,
    desk: &mut Desk<S>,
    service: Service,
    out: &mut W,
) -> Outcome
    ensures ended { IsServed (W.held out.old) (W.held out.new) (W.IsRefusal out.new) result.status
        (IsTold result.reported) service }
    ensures unmoved { ¬ IsReported result.reported Cause.FilesMoved }
    ensures limits { desk.new.limits ≡ desk.old.limits }
{
    if wants_words(rt) {
        let _reported = eprintln!(rt; "{}: {}", TREEDESK, Cause::NothingWillBeKept);
    }
    serve(rt, desk, None, service, out)
}

/// Does a line on a desk in memory, with its body.
fn run_on_desk_in_memory<S: Alter, W: Keeper>(
    rt: &HostRuntime,
    is_wanted: bool,
    line: &Line,
    body: &Result<Vec<u8>, Reply>,
    desk: &mut Desk<S>,
    out: &mut W,
) -> Outcome
    ensures { WithService (said_by line.now) (IsServed (W.held out.old) (W.held out.new) (W.IsRefusal out.new)
        result.status (IsTold result.reported))
        ⊎ ((service_of (said_by line.now) ≡ None)
        × IsRunOn S.Store (W.held out.old) (W.held out.new) (W.IsRefusal out.new) result.status is_wanted
        (IsTold result.reported) desk.old desk.new (said_by line.now) (taken_of (λ v. v.items) body.now)) }
{
    match service_of(line) {
        Some(service) => serve_in_memory(rt, desk, service, out),
        None => {
            let Outcome { status, reported } = run_reported(rt, is_wanted, line, body, desk, out);
            Outcome {
                status,
                reported: reported_in_memory(line, status, reported),
            }
        }
    }
}

/// Does a line without a file. The desk is in memory, for this run.
fn run_in_memory<R: Source, W: Keeper>(
    rt: &HostRuntime,
    is_wanted: bool,
    line: &Line,
    reader: &mut R,
    out: &mut W,
) -> Outcome
    ensures input { LeavesInput reader.old reader.new (said_by line.now) }
    ensures asked { AsksForBody R.IsFailure R.left R.pieces reader.old reader.new (said_by line.now) }
    ensures ended { IsLineRun R.IsFailure R.left reader.old reader.new (W.held out.old) (W.held out.new)
        (W.IsRefusal out.new) result.status is_wanted (IsTold result.reported) (said_by line.now) in_memory }
{
    match files::in_memory(rt) {
        Ok(mut desk) => {
            let body = read_body(rt.alloc(), line, reader);
            run_on_desk_in_memory(rt, is_wanted, line, &body, &mut desk, out)
        }
        Err(_) => put_memory(out),
    }
}

/// Does a line with the input that the reader gives, and prints the answer.
pub(crate) fn run<R: Source, W: Keeper>(
    rt: &HostRuntime,
    is_wanted: bool,
    line: &Line,
    reader: &mut R,
    out: &mut W,
) -> Outcome
    ensures input { LeavesInput reader.old reader.new (said_by line.now) }
    ensures asked { AsksForBody R.IsFailure R.left R.pieces reader.old reader.new (said_by line.now) }
    ensures ended { IsLineRun R.IsFailure R.left reader.old reader.new (W.held out.old) (W.held out.new)
        (W.IsRefusal out.new) result.status is_wanted (IsTold result.reported) (said_by line.now)
        (place_in (said_by line.now)) }
{
    match Target::of_line(line) {
        Target::New(path) => run_new(rt, path, out),
        Target::Migrate(path) => run_migration(rt, path, out),
        Target::File(path) => run_on_file(rt, is_wanted, path, line, reader, out),
        Target::Memory => run_in_memory(rt, is_wanted, line, reader, out),
    }
}
