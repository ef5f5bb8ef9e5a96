//! Does what the words of a command line ask.

ghost use Rattle.std.specs.Prelude.{◌≡◌, map, string_bytes, codes, IfSome, None, Some, false};
ghost use Rattle.clap.specs.Values.{kind_of};
ghost use Rattle.tb_answer.specs.Output.{IsWritten};
ghost use Rattle.tb_desk.specs.Programs.{DoesWords};
ghost use Rattle.tb_host.specs.Causes.{misfit_of, reply_of};
ghost use Rattle.tb_host.specs.Reported.{IsReported, IsTold};
ghost use Rattle.tb_desk.specs.Replies.{IsClapWritten, IsExitOf, IsFaultWritten, IsReplyWritten};
ghost use Rattle.tb_desk.specs.Served.{untold};

use crate::checking::check_reported;
use crate::keeping::Keeper;
use crate::memory::put_memory;
use crate::programs::Program;
use crate::running::run;
use tb_answer::put_reply;
use tb_check::is_check;
use tb_cli::{Line, LineFault};
use tb_conllu::{Sink, Source};
use tb_host::{Cause, Diagnostic, FileCause, Outcome, wrong_word};

/// The name of the program.
pub const TREEDESK: &str = "treedesk";

/// The file, and the row of it that is wrong first, if that is known. `None` for an empty name, or want of memory.
fn place_of(rt: &HostRuntime, path: &str, cause: FileCause) -> Option<String>
    ensures { misfit_of cause ≡ None → IfSome result (λ place. string_bytes place ≡ path.now) }
{
    match cause.misfit() {
        Some(misfit) => format!(in rt.alloc(); "{path}, {misfit}").ok(),
        None if path.is_empty() => None,
        None => String::from_str(rt.alloc(), path).ok(),
    }
}

/// Prints the line of a cause that lies in a file, and names the file as its place.
pub(crate) fn put_file_cause<W: Sink>(
    rt: &HostRuntime,
    path: &str,
    cause: FileCause,
    out: &mut W,
) -> Outcome
    ensures written { IsReplyWritten (W.held out.old) (W.held out.new) (W.IsRefusal out.new) result.status
        (reply_of cause) }
    ensures reported { IsReported result.reported (Cause.File cause) }
{
    Outcome {
        status: put_reply(out, cause.reply()),
        reported: Some(Diagnostic {
            place: place_of(rt, path, cause),
            cause: Cause::File(cause),
        }),
    }
}

/// The exit status of clap's text: 0 for help and the version, otherwise 2.
fn exit_of(error: &clap::Error) -> u8
    ensures { IsExitOf (kind_of error.now) result }
{
    error.exit_code() as u8
}

/// Prints clap's text, which may be help.
pub(crate) fn put_clap<W: Sink>(rt: &HostRuntime, error: clap::Error, out: &mut W) -> Outcome
    ensures { IsClapWritten (W.held out.old) (W.held out.new) (W.IsRefusal out.new) result.status
        (IsTold result.reported) (kind_of error) }
{
    match error.to_string(rt.alloc()) {
        Ok(text) => Outcome::from(tb_check::put_reply(out, text.as_str(), exit_of(&error))),
        Err(_) => put_memory(out),
    }
}

/// Prints the line for wrong words, and what is wrong.
pub(crate) fn put_usage<W: Sink>(wrong: Diagnostic, out: &mut W) -> Outcome
    ensures written { IsWritten (W.held out.old) (W.held out.new) (codes "refused usage\n") 2 (W.IsRefusal out.new)
        result.status }
    ensures reported { result.reported ≡ Some wrong }
    ensures told { IsReported result.reported wrong.cause }
{
    Outcome {
        status: tb_check::put_reply(out, "refused usage\n", 2),
        reported: Some(wrong),
    }
}

/// Prints why words are no line: clap's text, which may be help, or the desk's own line.
fn put_fault<W: Sink>(rt: &HostRuntime, words: &[String], fault: LineFault, out: &mut W) -> Outcome
    ensures { IsFaultWritten (W.held out.old) (W.held out.new) (W.IsRefusal out.new) result.status
        (IsTold result.reported) fault }
{
    match fault {
        LineFault::Clap(error) => put_clap(rt, error, out),
        LineFault::Usage => put_usage(wrong_word(rt, TREEDESK, words), out),
        LineFault::Memory => put_memory(out),
    }
}

/// Does what the words ask, the program's name first. Returns the exit status, and what to say beside it. An answer is
/// explained where words are wanted.
///
/// `check` checks what the reader gives. Other commands work on a desk in a file, or in memory for this run.
pub fn run_words_reported<R: Source, W: Keeper>(
    rt: &HostRuntime,
    is_wanted: bool,
    words: &[String],
    reader: &mut R,
    out: &mut W,
) -> Outcome
    ensures { DoesWords _ _ _ R.IsFailure R.left R.pieces reader.old reader.new (W.held out.old) (W.held out.new)
        (W.IsRefusal out.new) result.status is_wanted (IsTold result.reported) (map string_bytes words.now) }
{
    if is_check(words) {
        return check_reported(rt.alloc(), is_wanted, reader, out);
    }
    match Line::read(rt.alloc(), words) {
        Ok(line) => run(rt, is_wanted, &line, reader, out),
        Err(fault) => put_fault(rt, words, fault, out),
    }
}

/// Does what the words ask, as [`run_words_reported`] does, and returns the exit status. The answer is not explained.
pub fn run_words<R: Source, W: Keeper>(
    rt: &HostRuntime,
    words: &[String],
    reader: &mut R,
    out: &mut W,
) -> u8
    ensures { DoesWords _ _ _ R.IsFailure R.left R.pieces reader.old reader.new (W.held out.old) (W.held out.new)
        (W.IsRefusal out.new) result false untold (map string_bytes words.now) }
{
    run_words_reported(rt, false, words, reader, out).status
}

/// The program `treedesk`: it does what [`run_words_reported`] does.
#[derive(Clone, Copy)]
pub struct Treedesk;

impl Program for Treedesk {
    ghost use Rattle.std.specs.Prelude.{codes};
    ghost use Rattle.tb_desk.specs.Programs.{DoesWords};

    ghost program_name = { codes "treedesk" };

    ghost AnswersTo = { DoesWords };

    fn name(&self) -> &'static str {
        TREEDESK
    }

    fn run<R: Source, W: Keeper>(
        &self,
        rt: &HostRuntime,
        is_wanted: bool,
        words: &[String],
        reader: &mut R,
        out: &mut W,
    ) -> Outcome {
        run_words_reported(rt, is_wanted, words, reader, out)
    }
}
