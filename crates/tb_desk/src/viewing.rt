//! Does what the words of a command line of `deskview` ask: it shows a list of the desk in a file, draws the trees of a
//! file, lists its faults, or serves the page over a desk.

ghost use Rattle.std.specs.Prelude.{◌≡◌, ◌<◌, ◌⊎◌, codes, length, map, string_bytes};
ghost use Rattle.tb_answer.specs.OnlyRead.{IsOnlyRead};
ghost use Rattle.tb_cli.specs.View.{listed_by, viewed_by};
ghost use Rattle.tb_desk.specs.Replies.{IsFaultWritten};
ghost use Rattle.tb_host.specs.Reported.{IsTold};
ghost use Rattle.tb_host.specs.declared.causes.Form.{Form as AnyForm};
ghost use Rattle.tb_desk.specs.Served.{IsServedInFile, page_service};
ghost use Rattle.tb_desk.specs.Viewing.{AreWordsShown, IsAskedOf, IsListRun, IsShown, IsViewRun, LacksCommand};
ghost use Rattle.tb_desk.specs.Viewing.{lacking};

use crate::drawing::draw_trees_of;
use crate::explaining::explained;
use crate::faults::list_faults_of;
use crate::keeping::Keeper;
use crate::memory::put_memory;
use crate::programs::Program;
use crate::service::page_service;
use crate::serving::serve_in_file;
use crate::words::{put_clap, put_file_cause, put_usage};
use sqlite::Alter;
use std::alloc::Global;
use tb_answer::{put_body, put_reply, view};
use tb_cli::{LineFault, ViewLine, ViewList};
use tb_conllu::{Sink, Source};
use tb_host::{Cause, Diagnostic, Outcome, files, wrong_value};
use tb_store::Desk;
use tb_words::Asked;

/// The name of the program.
pub const DESKVIEW: &str = "deskview";

/// What a list is of, as far as the words for a refusal depend on it.
fn asked_of(list: &ViewList) -> Asked<'_>
    ensures { IsAskedOf (listed_by list.now) result }
{
    match list {
        ViewList::Find { sent_id } => Asked::SentId(sent_id.as_str()),
        _ => Asked::Other,
    }
}

/// What a command lacks whose values have their forms: the file of a desk. A tree needs a number too.
fn lacking(command: &str) -> Cause
    ensures { result ≡ lacking command.now }
{
    if command == "tree" {
        Cause::BothOrNeither
    } else {
        Cause::NothingThere
    }
}

/// What is wrong with words that clap accepts, which have this command: a value does not have its form, or no desk is
/// named.
fn wrong_after(rt: &HostRuntime, words: &[String], command: &str) -> Diagnostic
    ensures { ((form : AnyForm) × (result.cause ≡ Cause.Value form)) ⊎ (result.cause ≡ lacking command.now) }
{
    match wrong_value(rt, words) {
        Some(wrong) => wrong,
        None => Diagnostic::from(lacking(command)),
    }
}

/// What is wrong with words that clap accepts: there is no command, or a value does not have its form, or no desk is
/// named.
fn wrong_word(rt: &HostRuntime, words: &[String]) -> Diagnostic
    ensures { length words.now < 2 → LacksCommand (codes "deskview") result.cause }
{
    let [_, command, ..] = words else {
        return Diagnostic::from(Cause::NoCommand(DESKVIEW));
    };
    wrong_after(rt, words, command.as_str())
}

/// Prints why words are no line.
fn put_fault<W: Sink>(rt: &HostRuntime, words: &[String], fault: LineFault, out: &mut W) -> Outcome
    ensures { IsFaultWritten (W.held out.old) (W.held out.new) (W.IsRefusal out.new) result.status
        (IsTold result.reported) fault }
{
    match fault {
        LineFault::Clap(error) => put_clap(rt, error, out),
        LineFault::Usage => put_usage(wrong_word(rt, words), out),
        LineFault::Memory => put_memory(out),
    }
}

/// Prints a list of a desk.
fn show<S: Alter, W: Sink>(
    alloc: Global,
    is_wanted: bool,
    list: &ViewList,
    desk: &mut Desk<S>,
    out: &mut W,
) -> Outcome
    ensures shown { IsShown S.Store (W.held out.old) (W.held out.new) (W.IsRefusal out.new) result.status is_wanted
        (IsTold result.reported) desk.old desk.new (listed_by list.now) }
    ensures read_only { IsOnlyRead S.Store desk.old desk.new }
{
    match view(alloc, list, desk) {
        Ok(text) => Outcome {
            status: put_body(out, text.as_slice()),
            reported: None,
        },
        Err(reply) => Outcome {
            status: put_reply(out, reply),
            reported: explained(alloc, is_wanted, reply, &[], asked_of(list)),
        },
    }
}

/// Prints a list of the desk in the file at this path, which is opened as for the desk's own questions.
fn run_list<W: Sink>(
    rt: &HostRuntime,
    is_wanted: bool,
    path: &str,
    list: &ViewList,
    out: &mut W,
) -> Outcome
    ensures { IsListRun (W.held out.old) (W.held out.new) (W.IsRefusal out.new) result.status is_wanted
        (IsTold result.reported) (listed_by list.now) }
{
    match files::open(rt, DESKVIEW, path, files::ROOM) {
        Ok(mut opened) => {
            let outcome = show(rt.alloc(), is_wanted, list, &mut opened.desk, out);
            opened.close();
            outcome
        }
        Err(cause) => put_file_cause(rt, path, cause, out),
    }
}

/// Serves an opened desk, and the page beside it, until the program is ended.
fn serve_page<S: Alter, W: Keeper>(
    rt: &HostRuntime,
    path: &str,
    port: u16,
    desk: &mut Desk<S>,
    out: &mut W,
) -> Outcome
    ensures { IsServedInFile (W.held out.old) (W.held out.new) (W.IsRefusal out.new) result.status
        (IsTold result.reported) (page_service port) }
{
    serve_in_file(rt, path, desk, page_service(port), out)
}

/// Serves the desk in the file at this path, and the page beside it.
fn run_page<W: Keeper>(rt: &HostRuntime, path: &str, port: u16, out: &mut W) -> Outcome
    ensures { IsServedInFile (W.held out.old) (W.held out.new) (W.IsRefusal out.new) result.status
        (IsTold result.reported) (page_service port) }
{
    match files::open(rt, DESKVIEW, path, files::ROOM_TO_SERVE) {
        Ok(mut opened) => {
            let outcome = serve_page(rt, path, port, &mut opened.desk, out);
            opened.close();
            outcome
        }
        Err(cause) => put_file_cause(rt, path, cause, out),
    }
}

/// Does a line on the desk of its file, or on what the reader gives.
fn run<R: Source, W: Keeper>(
    rt: &HostRuntime,
    is_wanted: bool,
    line: &ViewLine,
    reader: &mut R,
    out: &mut W,
) -> Outcome
    ensures { IsViewRun R.IsFailure R.left R.pieces reader.old reader.new (W.held out.old) (W.held out.new)
        (W.IsRefusal out.new) result.status is_wanted (IsTold result.reported) (viewed_by line.now) }
{
    match line {
        ViewLine::List { db, list } => run_list(rt, is_wanted, db.as_str(), list, out),
        ViewLine::Trees => draw_trees_of(rt.alloc(), is_wanted, reader, out),
        ViewLine::Check { most } => list_faults_of(rt.alloc(), is_wanted, reader, *most, out),
        ViewLine::Page { db, port } => run_page(rt, db.as_str(), *port, out),
    }
}

/// Does what the words of `deskview` ask, the program's name first. Returns the exit status, and what to say beside it.
/// Where words are wanted, a refusal is explained.
///
/// `check` lists the faults of what the reader gives, and `tree` without a desk draws its trees. Other commands read the
/// desk in a file.
pub fn run_view<R: Source, W: Keeper>(
    rt: &HostRuntime,
    is_wanted: bool,
    words: &[String],
    reader: &mut R,
    out: &mut W,
) -> Outcome
    ensures { AreWordsShown R.IsFailure R.left R.pieces reader.old reader.new (W.held out.old) (W.held out.new)
        (W.IsRefusal out.new) result.status is_wanted (IsTold result.reported) (map string_bytes words.now) }
{
    match ViewLine::read(rt.alloc(), words) {
        Ok(line) => run(rt, is_wanted, &line, reader, out),
        Err(fault) => put_fault(rt, words, fault, out),
    }
}

/// The program `deskview`, beside the desk, which only looks: it does what [`run_view`] does.
#[derive(Clone, Copy)]
pub struct Deskview;

impl Program for Deskview {
    ghost use Rattle.std.specs.Prelude.{codes};
    ghost use Rattle.tb_desk.specs.Programs.{ShowsWords};

    ghost program_name = { codes "deskview" };

    ghost AnswersTo = { ShowsWords };

    fn name(&self) -> &'static str {
        DESKVIEW
    }

    fn run<R: Source, W: Keeper>(
        &self,
        rt: &HostRuntime,
        is_wanted: bool,
        words: &[String],
        reader: &mut R,
        out: &mut W,
    ) -> Outcome {
        run_view(rt, is_wanted, words, reader, out)
    }
}
