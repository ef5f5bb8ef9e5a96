//! The standard streams of a program: what is known of them where they fail or are closed.

ghost use Rattle.std.specs.Prelude.{◌≡◌, ◌↔◌, IsTrue, MatchResult, None, false, true};
ghost use Rattle.std.specs.Io.{ReadsAtMost, WritesAtMost};
ghost use Rattle.std.specs.Io.KnownBytes.{Keeps, ReadConsumes, WriteAppends};
ghost use Rattle.std.specs.IoError.{error_kind};
ghost use Rattle.tb_host.specs.Streams.{HasDescriptor, IsInputCause, IsOutputCause, StandsFor};
ghost use Rattle.tb_host.specs.Streams.{first_failure, input_cause_of, last_failure, output_cause_of};

use crate::causes::StreamCause;
use std::fs::File;
use std::io::{self, ErrorKind, IsTerminal, Read, Write};
use std::os::fd::AsRawFd;

/// The file descriptors of the standard streams.
const INPUT: i32 = 0;

const OUTPUT: i32 = 1;

/// The cause for an output that failed with this error.
fn output_cause(failed: Option<ErrorKind>, was_closed: bool) -> Option<StreamCause>
    ensures { result ≡ output_cause_of failed was_closed }
{
    let Some(kind) = failed else {
        return None;
    };
    if was_closed {
        return Some(StreamCause::OutputClosed);
    }
    Some(StreamCause::of_output(kind))
}

/// The cause for an input that failed with this error, or that was closed when it was read.
fn input_cause(failed: Option<ErrorKind>, was_read: bool, was_closed: bool) -> Option<StreamCause>
    ensures { result ≡ input_cause_of failed was_read was_closed }
{
    match failed {
        Some(kind) => Some(StreamCause::of_input(kind)),
        None if was_read && was_closed => Some(StreamCause::InputClosed),
        None => None,
    }
}

/// The first failure of a stream, of one before and this one. A write that a signal interrupted is tried again, and is
/// none.
fn first_failure(before: Option<ErrorKind>, kind: ErrorKind) -> Option<ErrorKind>
    ensures { result ≡ first_failure before kind }
{
    if let Some(first) = before {
        return Some(first);
    }
    match kind {
        ErrorKind::Interrupted => None,
        kind => Some(kind),
    }
}

/// The last failure of a stream, of one before and this one. A read that a signal interrupted is tried again, and is
/// none.
fn last_failure(before: Option<ErrorKind>, kind: ErrorKind) -> Option<ErrorKind>
    ensures { result ≡ last_failure before kind }
{
    match kind {
        ErrorKind::Interrupted => before,
        kind => Some(kind),
    }
}

/// Whether an opened file has this descriptor.
fn has_descriptor(file: &io::Result<File>, number: i32) -> bool
    ensures { IsTrue result ↔ HasDescriptor number file.now }
{
    match file {
        Ok(file) => file.as_raw_fd() == number,
        Err(_) => false,
    }
}

/// Files that take the place of standard streams that are closed. Otherwise the file of a desk would get the
/// descriptor of a stream, and what is printed would be written into it.
///
/// Such an input is empty, and such an output accepts nothing.
#[derive(Drop)]
pub struct Held {
    first: io::Result<File>,
    second: io::Result<File>,
    third: io::Result<File>,
}

impl Held {
    pub fn new(rt: &HostRuntime) -> Held {
        Held {
            first: File::open(rt, "/dev/null"),
            second: File::open(rt, "/dev/null"),
            third: File::open(rt, "/dev/null"),
        }
    }

    /// Whether the stream with this number was closed.
    fn stands_for(&self, stream: i32) -> bool
        ensures { IsTrue result ↔ StandsFor self.now stream }
    {
        has_descriptor(&self.first, stream)
            || has_descriptor(&self.second, stream)
            || has_descriptor(&self.third, stream)
    }

    /// The cause for an output that failed with this error.
    pub fn output_cause(&self, failed: Option<ErrorKind>) -> Option<StreamCause>
        ensures { IsOutputCause self.now failed result }
    {
        output_cause(failed, self.stands_for(OUTPUT))
    }
}

/// Standard input. At the first read from a terminal, the program says that it reads. A failure to say so is ignored.
#[derive(Drop)]
pub struct Typed<'a> {
    rt: &'a HostRuntime,
    program: &'a str,
    was_read: bool,
    failed: Option<ErrorKind>,
}

impl<'a> Typed<'a> {
    pub fn new(rt: &'a HostRuntime, program: &'a str) -> Typed<'a>
        ensures { (result.was_read ≡ false) × (result.failed ≡ None) }
    {
        Typed {
            rt,
            program,
            was_read: false,
            failed: None,
        }
    }

    /// Why the input failed, or that it was closed, if it was.
    pub fn cause(&self, held: &Held) -> Option<StreamCause>
        ensures { IsInputCause held.now self.now.failed self.now.was_read result }
    {
        input_cause(self.failed, self.was_read, held.stands_for(INPUT))
    }

    /// Notes that the input was read, and how that failed.
    fn note(&mut self, came: io::Result<usize>) -> io::Result<usize>
        ensures came { result ≡ came }
        ensures read { self.new.was_read ≡ true }
        ensures failed { MatchResult came (λ _. self.new.failed ≡ self.old.failed)
            (λ e. self.new.failed ≡ last_failure self.old.failed (error_kind e)) }
    {
        self.was_read = true;
        match came {
            Ok(count) => Ok(count),
            Err(error) => {
                self.failed = last_failure(self.failed, error.kind());
                Err(error)
            }
        }
    }
}

impl Read for Typed<'_> {
    fn read(&mut self, buf: &mut [u8]) -> io::Result<usize>
        ensures bound { ReadsAtMost result buf.new }
        ensures bytes { ReadConsumes None None result buf.new }
        ensures read { self.new.was_read ≡ true }
        ensures failed { MatchResult result (λ _. self.new.failed ≡ self.old.failed)
            (λ e. self.new.failed ≡ last_failure self.old.failed (error_kind e)) }
    {
        if !self.was_read && self.rt.stdin().is_terminal() {
            let _reported = eprintln!(self.rt;
                "{}: reads standard input; Ctrl-D ends it",
                self.program
            );
        }
        let came = self.rt.stdin().read(buf);
        self.note(came)
    }
}

/// An output, and why it failed, if it did.
#[derive(Drop)]
pub struct Heard<W> {
    out: W,
    failed: Option<ErrorKind>,
}

impl<W> Heard<W> {
    pub fn new(out: W) -> Heard<W>
        ensures { (result.out ≡ out) × (result.failed ≡ None) }
    {
        Heard { out, failed: None }
    }

    /// The error of the first write that failed.
    pub fn failed(&self) -> Option<ErrorKind>
        ensures { result ≡ self.now.failed }
    {
        self.failed
    }

    /// Notes how a write failed.
    fn note(&mut self, error: io::Error) -> io::Error
        ensures error { result ≡ error }
        ensures out { self.new.out ≡ self.old.out }
        ensures failed { self.new.failed ≡ first_failure self.old.failed (error_kind error) }
    {
        self.failed = first_failure(self.failed, error.kind());
        error
    }
}

impl<W: Write> Write for Heard<W> {
    ghost contents = { λ heard. W.contents heard.out };

    fn write(&mut self, buf: &[u8]) -> io::Result<usize>
        ensures bound { WritesAtMost result buf.now }
        ensures bytes { WriteAppends (W.contents self.old.out) (W.contents self.new.out) result buf.now }
        ensures failed { MatchResult result (λ _. self.new.failed ≡ self.old.failed)
            (λ e. self.new.failed ≡ first_failure self.old.failed (error_kind e)) }
    {
        match self.out.write(buf) {
            Ok(taken) => Ok(taken),
            Err(error) => Err(self.note(error)),
        }
    }

    fn flush(&mut self) -> io::Result<()>
        ensures bytes { Keeps (W.contents self.old.out) (W.contents self.new.out) }
        ensures failed { MatchResult result (λ _. self.new.failed ≡ self.old.failed)
            (λ e. self.new.failed ≡ first_failure self.old.failed (error_kind e)) }
    {
        match self.out.flush() {
            Ok(()) => Ok(()),
            Err(error) => Err(self.note(error)),
        }
    }
}
