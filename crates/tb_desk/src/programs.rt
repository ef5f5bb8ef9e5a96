//! A whole program: it takes the words of the command line and the standard streams, and ends with a status. At its end
//! standard error gets the cause that was returned, with the place, and what happened to the streams.

ghost use Rattle.std.specs.Prelude.{◌≡◌, ◌⊎◌, ◌↔◌, IfOk, IsTrue, map, MatchResult, None, Option, string_bytes};
ghost use Rattle.std.specs.IoError.{error_kind};
ghost use Rattle.std.specs.Process.{exit_status};
ghost use Rattle.tb_desk.specs.Programs.{IsEnd, IsEndOf, IsExitWith, IsExitWithout};
ghost use Rattle.tb_host.specs.declared.diagnostics.Diagnostic.{Diagnostic as Reported};
ghost use Rattle.tb_desk.specs.Reported.{IsUnbegun, also_reported};
ghost use Rattle.tb_host.specs.Reported.{IsOfAnswer};

use crate::keeping::Keeper;
use std::alloc::AllocError;
use std::env;
use std::io::{self, BufWriter, ErrorKind, Write};
use std::process::ExitCode;
use tb_check::put_reply;
use tb_conllu::Source;
use tb_host::{Cause, Diagnostic, Heard, Held, Outcome, StreamCause, Typed, wants_words};

/// The size of the output buffer, in bytes.
const BUFFER: usize = 65_536;

/// What a program does with its words.
pub trait Program {
    ghost use Rattle.std.specs.Prelude.{◌≡◌, ℕ, List, map, string_bytes};
    ghost use Rattle.tb_desk.specs.Programs.{AnswersWords};
    ghost use Rattle.tb_host.specs.Reported.{IsTold};

    /// The name with which all that it says on standard error begins.
    ghost program_name: { List ℕ };

    /// How it answers words.
    ghost AnswersTo: { AnswersWords };

    /// Its name.
    fn name(&self) -> &'static str
        ensures { result.now ≡ program_name };

    /// Does what the words ask, the program's name first. Returns the exit status, and what to say beside it. An answer
    /// is explained where words are wanted.
    fn run<R: Source, W: Keeper>(
        &self,
        rt: &HostRuntime,
        is_wanted: bool,
        words: &[String],
        reader: &mut R,
        out: &mut W,
    ) -> Outcome
        ensures { AnswersTo _ _ _ R.IsFailure R.left R.pieces reader.old reader.new (W.held out.old) (W.held out.new)
            (W.IsRefusal out.new) result.status is_wanted (IsTold result.reported) (map string_bytes words.now) };
}

/// What is known at the end of a run: its exit status, the cause that the program returns, and the faults of its
/// streams.
#[derive(Drop)]
struct Ended<'a> {
    program: &'a str,
    status: u8,
    reported: Option<Diagnostic>,
    input: Option<StreamCause>,
    output: Option<StreamCause>,
}

/// Prints one cause.
fn tell(rt: &HostRuntime, program: &str, cause: Cause) -> io::Result<()> {
    eprintln!(rt; "{program}: {cause}")
}

/// What there is to report beside the cause that the program returns: an input that failed. If none did, that an answer
/// is incomplete, though all of it was written.
fn also_reported(
    input: Option<StreamCause>,
    output: Option<StreamCause>,
    is_reported: bool,
    status: u8,
) -> Option<Cause>
    ensures { result ≡ also_reported input output is_reported status }
{
    match (input, output) {
        (Some(cause), _) => Some(Cause::Stream(cause)),
        (None, Some(_)) => None,
        (None, None) if is_reported => None,
        (None, None) if status == 3 => Some(Cause::BrokenOff),
        (None, None) => None,
    }
}

/// Whether a cause is reported first. Where an input failed, no answer that followed from it is explained.
fn comes_first(reported: &Diagnostic, input: Option<StreamCause>) -> bool
    ensures { IsTrue result ↔ (input ≡ None) ⊎ (¬ IsOfAnswer reported.now.cause) }
{
    input.is_none() || !reported.is_of_answer()
}

impl Ended<'_> {
    /// Reports what there is beside the cause that the program returns.
    fn tell_rest(&self, rt: &HostRuntime) -> io::Result<()> {
        match also_reported(
            self.input,
            self.output,
            self.reported.is_some(),
            self.status,
        ) {
            Some(cause) => tell(rt, self.program, cause),
            None => Ok(()),
        }
    }

    /// Prints why the answer is what it is.
    fn tell_cause(&self, rt: &HostRuntime) -> io::Result<()> {
        match &self.reported {
            Some(reported) if comes_first(reported, self.input) => {
                eprintln!(rt; "{}: {}", self.program, reported)
            }
            _ => self.tell_rest(rt),
        }
    }

    /// Prints the cause, and then what happened to the output.
    fn tell(&self, rt: &HostRuntime) -> io::Result<()> {
        self.tell_cause(rt)?;
        match self.output {
            Some(cause) => tell(rt, self.program, Cause::Stream(cause)),
            None => Ok(()),
        }
    }
}

/// The words of the command line, the program's name first.
pub fn given_words(rt: &HostRuntime) -> io::Result<Vec<String>> {
    Ok(env::args(rt)?.collect(rt.alloc())?)
}

/// The exit status of a run that ended with this status, once its output was handed on. An output that failed is lost.
fn status_after<E: Drop>(handed: Result<(), E>, status: u8) -> u8
    ensures { MatchResult handed (λ _. result ≡ status) (λ _. result ≡ 3) }
{
    match handed {
        Ok(()) => status,
        Err(_) => 3,
    }
}

/// Answers words over an input. The exit status is that after the output was handed on.
fn answer_words<P: Program, R: Source, W: Keeper>(
    rt: &HostRuntime,
    program: &P,
    is_wanted: bool,
    words: &[String],
    input: &mut R,
    out: &mut W,
) -> Outcome
    ensures { IsEndOf R.IsFailure R.left R.pieces input.old input.new W.held W.IsRefusal out.old out.new P.AnswersTo
        (map string_bytes words.now) is_wanted result.status result.reported }
{
    let Outcome { status, reported } = program.run(rt, is_wanted, words, input, out);
    Outcome {
        status: status_after(out.hand_on(), status),
        reported,
    }
}

/// Answers words over standard input and an output of the system's.
fn answer_typed<P: Program, W: Write>(
    rt: &HostRuntime,
    program: &P,
    is_wanted: bool,
    words: &[String],
    input: &mut Typed<'_>,
    out: &mut W,
) -> Outcome
    ensures { IsEnd P.AnswersTo (map string_bytes words.now) result.status result.reported }
{
    answer_words(rt, program, is_wanted, words, input, out)
}

/// Answers words on standard input and output, and returns the exit status. Where words are wanted on standard error, it
/// prints the reason there. A failure to print it is ignored.
fn run<P: Program>(
    rt: &HostRuntime,
    program: &P,
    held: &Held,
    words: &[String],
) -> Result<u8, AllocError>
    ensures { IfOk result (λ status. (reported : Option Reported)
        × IsEnd P.AnswersTo (map string_bytes words.now) status reported) }
{
    let Ok(buffer) = BufWriter::with_capacity(rt.alloc(), BUFFER, rt.stdout()) else {
        return Err(AllocError);
    };
    let mut out = Heard::new(buffer);
    let mut input = Typed::new(rt, program.name());
    let is_wanted = wants_words(rt);
    let Outcome { status, reported } = answer_typed(
        rt, program, is_wanted, words, &mut input, &mut out,
    );
    if is_wanted {
        let ended = Ended {
            program: program.name(),
            status,
            reported,
            input: input.cause(held),
            output: held.output_cause(out.failed()),
        };
        let _reported = ended.tell(rt);
    }
    Ok(status)
}

/// How a run ends that did not begin: the line that is printed, the exit status, and the reason.
#[derive(Drop)]
struct Unbegun {
    line: &'static str,
    status: u8,
    cause: Cause,
}

/// How a run ends that did not begin for this error. Where there is memory, a word is not text.
fn unbegun_for(kind: ErrorKind) -> Unbegun
    ensures unbegun { IsUnbegun kind result }
    ensures exit { IsExitWithout kind result.status }
{
    match kind {
        ErrorKind::OutOfMemory => Unbegun {
            line: "refused memory\n",
            status: 3,
            cause: Cause::Memory,
        },
        _ => Unbegun {
            line: "refused usage\n",
            status: 2,
            cause: Cause::NotText,
        },
    }
}

/// Prints the line of a run that did not begin, and the reason.
fn put_and_tell(rt: &HostRuntime, program: &str, unbegun: Unbegun) -> u8
    ensures { (result ≡ unbegun.status) ⊎ (result ≡ 3) }
{
    let status = put_reply(&mut rt.stdout(), unbegun.line, unbegun.status);
    if wants_words(rt) {
        let _reported = tell(rt, program, unbegun.cause);
    }
    status
}

/// Ends a run that did not begin for this error, and returns its exit status.
fn end_unbegun(rt: &HostRuntime, program: &str, kind: ErrorKind) -> u8
    ensures { IsExitWithout kind result }
{
    put_and_tell(rt, program, unbegun_for(kind))
}

/// Runs a program on these words, and returns its exit status.
fn run_with<P: Program>(rt: &HostRuntime, program: &P, held: &Held, words: &[String]) -> u8
    ensures { IsExitWith P.AnswersTo (map string_bytes words.now) result }
{
    match run(rt, program, held, words) {
        Ok(status) => status,
        Err(_) => end_unbegun(rt, program.name(), ErrorKind::OutOfMemory),
    }
}

/// Runs a program on its words and its standard streams, and returns its exit status as a number.
fn status_of<P: Program>(rt: &HostRuntime, program: &P, words: io::Result<Vec<String>>) -> u8
    ensures { MatchResult words (λ given. IsExitWith P.AnswersTo (map string_bytes given.items) result)
        (λ e. IsExitWithout (error_kind e) result) }
{
    let held = Held::new(rt);
    match words {
        Ok(given) => run_with(rt, program, &held, given.as_slice()),
        Err(error) => end_unbegun(rt, program.name(), error.kind()),
    }
}

/// Runs a program on its words and its standard streams, and returns its exit status.
pub(crate) fn run_program<P: Program>(
    rt: &HostRuntime,
    program: &P,
    words: io::Result<Vec<String>>,
) -> ExitCode
    ensures { MatchResult words
        (λ given. IsExitWith P.AnswersTo (map string_bytes given.items) (exit_status result))
        (λ e. IsExitWithout (error_kind e) (exit_status result)) }
{
    ExitCode::from(status_of(rt, program, words))
}
