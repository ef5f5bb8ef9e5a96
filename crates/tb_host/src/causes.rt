//! Why the program does not do what it was asked, in words. Each cause has one sentence, and all sentences are here.

ghost use Rattle.std.specs.Prelude.{◌≡◌, ◌≢◌, ◌↔◌, IfErr, IfOk, IsErrAnd, IsTrue, MatchResult, None, Ok as Given, Some};
ghost use Rattle.std.specs.IoError.{error_kind, raw_os_error};
ghost use Rattle.tb_host.specs.Causes.{IsDeviceCause, IsFileCause, IsPortCause, IsShort, IsSystemCause, reply_of};
ghost use Rattle.tb_host.specs.Causes.{cause_of_new, input_cause, misfit_of, output_cause};
ghost use Rattle.tb_host.specs.Forms.{HasForm, HasSlash};
ghost use Rattle.tb_host.specs.Sentences.{cause_text, file_text, form_text, port_text, short_text, stream_text};

use crate::misfit::Misfit;
use std::fmt::{self, Display, Formatter};
use std::io::{self, ErrorKind};
use tb_http::Reply;
use tb_words::{MEMORY, Words};

/// What the system has run out of.
#[derive(Clone, Copy)]
pub enum Shortage {
    OwnFiles,
    AllFiles,
    Buffers,
}

impl Shortage {
    /// What the system is short of where a call fails with this error: ENFILE, EMFILE or ENOBUFS. These have no kind
    /// of their own, so they are compared by their numbers on Linux.
    fn of_system(error: io::Error) -> Option<Shortage>
        ensures { IsShort (raw_os_error error) result }
    {
        match error.raw_os_error() {
            Some(23) => Some(Shortage::AllFiles),
            Some(24) => Some(Shortage::OwnFiles),
            Some(105) => Some(Shortage::Buffers),
            _ => None,
        }
    }

    fn text(self) -> &'static str
        ensures { result.now ≡ short_text self }
    {
        match self {
            Shortage::OwnFiles =>
                "the command may have no more files open; raise the limit (`ulimit -n`) and try again",
            Shortage::AllFiles =>
                "the system may have no more files open; end other programs and try again",
            Shortage::Buffers =>
                "the system has no buffers left for it; end other programs and try again",
        }
    }
}

/// Why no desk can be opened or made in a file.
#[derive(Clone, Copy)]
pub enum FileCause {
    Missing,
    NoFolder,
    Folder,
    NotPlain,
    NoName,
    ReservedName,
    Denied,
    ReadOnly,
    NewReadOnly,
    Links,
    DeadLink,
    Lost,
    NoAnswer,
    Unopened,
    SecondName,
    NotSqlite,
    Empty,
    OtherDatabase,
    Version1,
    Version2,
    DeskAlready,
    NotBlank,
    OtherLog,
    OddLog,
    Journal,
    /// The rows are not those of a desk; what is wrong with them first, where that was looked for.
    Rows(Option<Misfit>),
    Damaged,
    Busy,
    Full,
    Quota,
    TooLarge,
    Short(Shortage),
    Failed,
    NoRandom,
    Memory,
}

impl FileCause {
    /// The cause for a file that the system refuses.
    pub(crate) fn of_system(error: io::Error) -> FileCause
        ensures { IsFileCause error result }
    {
        if let Some(shortage) = Shortage::of_system(error) {
            return FileCause::Short(shortage);
        }
        match error.kind() {
            ErrorKind::OutOfMemory => FileCause::Memory,
            ErrorKind::StorageFull => FileCause::Full,
            ErrorKind::QuotaExceeded => FileCause::Quota,
            ErrorKind::FileTooLarge => FileCause::TooLarge,
            ErrorKind::Uncategorized => FileCause::Failed,
            ErrorKind::NotFound => FileCause::Missing,
            ErrorKind::NotADirectory => FileCause::NoFolder,
            ErrorKind::IsADirectory => FileCause::Folder,
            ErrorKind::PermissionDenied => FileCause::Denied,
            ErrorKind::ReadOnlyFilesystem => FileCause::ReadOnly,
            ErrorKind::FilesystemLoop => FileCause::Links,
            ErrorKind::StaleNetworkFileHandle => FileCause::Lost,
            ErrorKind::TimedOut
            | ErrorKind::NotConnected
            | ErrorKind::HostUnreachable
            | ErrorKind::NetworkUnreachable
            | ErrorKind::NetworkDown
            | ErrorKind::ConnectionRefused
            | ErrorKind::ConnectionReset
            | ErrorKind::ConnectionAborted => FileCause::NoAnswer,
            // The database reports a file with two names so, and a link in the place of its log.
            ErrorKind::Unsupported => FileCause::SecondName,
            _ => FileCause::Unopened,
        }
    }

    /// The cause for a file that is to be made. A missing path means that its folder is missing; a read-only file
    /// system has nothing that could be copied.
    pub(crate) fn of_new(self) -> FileCause
        ensures { result ≡ cause_of_new self }
    {
        match self {
            FileCause::Missing => FileCause::NoFolder,
            FileCause::ReadOnly => FileCause::NewReadOnly,
            other => other,
        }
    }

    /// The cause for a file whose device failed just now. The database reports only that it failed, so this asks for
    /// the error number of the last failed call of the system. Where that says nothing either, the cause is
    /// `otherwise`.
    pub fn of_device(otherwise: FileCause) -> FileCause
        ensures { IsDeviceCause otherwise result }
    {
        match io::Error::from_raw_os_error(os::errno()).kind() {
            ErrorKind::StorageFull => FileCause::Full,
            ErrorKind::QuotaExceeded => FileCause::Quota,
            ErrorKind::FileTooLarge => FileCause::TooLarge,
            _ => otherwise,
        }
    }

    /// The line that is printed: memory or a device fails, or the file is no desk.
    pub fn reply(self) -> Reply
        ensures { result ≡ reply_of self }
    {
        match self {
            FileCause::Memory => Reply::Memory,
            FileCause::Busy
            | FileCause::Lost
            | FileCause::NoAnswer
            | FileCause::Full
            | FileCause::Quota
            | FileCause::TooLarge
            | FileCause::Short(_)
            | FileCause::Failed
            | FileCause::NoRandom => Reply::Device,
            _ => Reply::Desk,
        }
    }

    /// What is wrong first with the rows of the file, if that is known.
    pub fn misfit(self) -> Option<Misfit>
        ensures { result ≡ misfit_of self }
    {
        match self {
            FileCause::Rows(misfit) => misfit,
            _ => None,
        }
    }

    /// Whether the file is no desk, and is therefore left as it was.
    pub(crate) fn is_no_desk(self) -> bool
        ensures { IsTrue result ↔ (reply_of self ≡ Reply.Desk) }
    {
        matches!(self.reply(), Reply::Desk)
    }

    fn text(self) -> &'static str
        ensures { result.now ≡ file_text self }
    {
        match self {
            FileCause::Missing => "there is no such file; `new` makes a desk",
            FileCause::NoFolder =>
                "its folder is missing, or is not a folder; make the folder first",
            FileCause::Folder => "this is a folder; name the file of a desk in it",
            FileCause::NotPlain => "this is not a regular file; name the file of a desk",
            FileCause::NoName => "this name is empty; name the file of a desk",
            FileCause::ReservedName =>
                "SQLite gives this name a meaning of its own; choose another one",
            FileCause::Denied =>
                "you may not read and write it, or its folder; a desk needs both, even to be read",
            FileCause::ReadOnly => "it is on a read-only disk; copy it to another one",
            FileCause::NewReadOnly => "its folder or its disk is read-only; choose another place",
            FileCause::Links =>
                "its symbolic links lead to one another, or are too many; name the file itself",
            FileCause::DeadLink =>
                "this symbolic link leads to no file; name the file itself, or move the link away",
            FileCause::Lost =>
                "the network file system does not find it any more; see that it is still there, and mount its disk again",
            FileCause::NoAnswer =>
                "its file system does not answer; check the server that has it, and try again",
            FileCause::Unopened => "the system cannot open a file of this name; choose another one",
            FileCause::SecondName =>
                "it has a second name, or a link is in its place or its log's; copy it to a name of its own",
            FileCause::NotSqlite =>
                "this is not an SQLite file, so it is not a desk; name the file that `new` made",
            FileCause::Empty => "the file is empty; `new` makes a desk in it",
            FileCause::OtherDatabase =>
                "this is an SQLite database of something else; name the file that `new` made",
            FileCause::Version1 => "this is a desk of version 1; `migrate` brings it to version 2",
            FileCause::Version2 => "this has the tables of version 2; there is nothing to migrate",
            FileCause::DeskAlready =>
                "this is a desk already; work on it without `new`, or name another file",
            FileCause::NotBlank =>
                "the file holds something already; `new` takes a missing or an empty one",
            FileCause::OtherLog =>
                "beside it, under its name with -wal, is the log of another desk; move that log away",
            FileCause::OddLog =>
                "what is beside it under its name with -wal is not a regular file, so not its log; move that away",
            FileCause::Journal =>
                "another program left a journal beside it, its name with -journal; open it once with sqlite3",
            FileCause::Rows(_) =>
                "its rows are not those of a desk; another program changed it, or its log is another's; restore a backup",
            FileCause::Damaged =>
                "SQLite cannot read it, so it is damaged or cut off; restore a backup, with its log",
            FileCause::Busy =>
                "another command has had it for ten seconds; try again once that has ended",
            FileCause::Full => "the disk is full; make room and try again",
            FileCause::Quota => "your disk quota is used up; make room and try again",
            FileCause::TooLarge =>
                "it may not grow so large; raise the limit (`ulimit -f`), or copy it to another disk",
            FileCause::Short(shortage) => shortage.text(),
            FileCause::Failed => "the system failed to read or write it; check the disk",
            FileCause::NoRandom =>
                "the system gives no random numbers, which a desk needs; try again",
            FileCause::Memory => MEMORY,
        }
    }
}

/// What a call of the system gave, or the cause for which it failed.
pub(crate) fn told<T>(given: io::Result<T>) -> Result<T, FileCause>
    ensures given { MatchResult given (λ x. result ≡ Given x) (λ e. IsErrAnd result (IsFileCause e)) }
    ensures cause { IfErr result IsSystemCause }
{
    match given {
        Ok(x) => Ok(x),
        Err(error) => Err(FileCause::of_system(error)),
    }
}

/// What a call of the system gave, or `None` where its file is missing, or the cause for which it failed.
pub(crate) fn told_if_there<T>(given: io::Result<T>) -> Result<Option<T>, FileCause>
    ensures there { IfOk given (λ x. result ≡ Given (Some x)) }
    ensures missing { IfErr given (λ e. error_kind e ≡ ErrorKind.NotFound → result ≡ Given None) }
    ensures told { IfErr given (λ e. error_kind e ≢ ErrorKind.NotFound → IsErrAnd result (IsFileCause e)) }
    ensures cause { IfErr result IsSystemCause }
{
    match given {
        Ok(x) => Ok(Some(x)),
        Err(error) if error.kind() == ErrorKind::NotFound => Ok(None),
        Err(other) => Err(FileCause::of_system(other)),
    }
}

/// What form a value on the command line has to have.
#[derive(Clone, Copy)]
pub enum Form {
    Batch,
    Event,
    Number,
    Base,
    Strategy,
    Context,
    Attribute,
    Most,
    Port,
    Requests,
}

/// Whether a text has a slash.
fn has_slash(text: &str) -> bool
    ensures { IsTrue result ↔ HasSlash text.now }
{
    text.contains('/')
}

impl Form {
    /// Whether a text has this form.
    pub(crate) fn takes(self, text: &str) -> bool
        ensures { IsTrue result ↔ HasForm self text.now }
    {
        match self {
            Form::Batch => !text.is_empty() && !has_slash(text),
            Form::Event => tb_http::event_of(text).is_some(),
            Form::Number => tb_http::number_of(text).is_some(),
            Form::Base => tb_http::base_of(text).is_some(),
            Form::Strategy => tb_http::strategy_of(text).is_some(),
            Form::Context => tb_http::context_of(text).is_some(),
            Form::Attribute => tb_http::attribute_of(text).is_some(),
            Form::Most => tb_http::most_of(text).is_some(),
            Form::Port => tb_http::port_of(text).is_some(),
            Form::Requests => tb_http::requests_of(text).is_some(),
        }
    }

    fn text(self) -> &'static str
        ensures { result.now ≡ form_text self }
    {
        match self {
            Form::Batch => "the name of a batch is not empty and has no slash",
            Form::Event =>
                "write assign, unassign, submit, send-back, adjudicate, release, withdraw or reopen",
            Form::Number =>
                "write a number of 1 to 10 digits, the first not 0; a sent_id cannot stand here",
            Form::Base => "write the number of the revision that was corrected",
            Form::Strategy => "write shortest, longest or every",
            Form::Context => "write a number of words from 0 to 20",
            Form::Attribute => "write word, lemma, upos, xpos, feats or deprel",
            Form::Most => "write a number of faults from 1 to 1000000",
            Form::Port => "write a port from 0 to 65535; 0 lets the system choose one",
            Form::Requests => "write a number of 1 to 10 digits",
        }
    }
}

/// Why the program cannot listen on a port.
#[derive(Clone, Copy)]
pub enum PortCause {
    Taken,
    Denied,
    NoLoopback,
    NoneGiven,
    Short(Shortage),
    Failed,
    Memory,
}

/// The first port on which every user may listen.
const OPEN_TO_ALL: u16 = 1024;

impl PortCause {
    /// The cause for a port that the system refuses.
    pub fn of_system(error: io::Error, port: u16) -> PortCause
        ensures { IsPortCause error port result }
    {
        if let Some(shortage) = Shortage::of_system(error) {
            return PortCause::Short(shortage);
        }
        match error.kind() {
            ErrorKind::OutOfMemory => PortCause::Memory,
            ErrorKind::AddrNotAvailable => PortCause::NoLoopback,
            _ if port == 0 => PortCause::NoneGiven,
            ErrorKind::AddrInUse => PortCause::Taken,
            ErrorKind::PermissionDenied if port < OPEN_TO_ALL => PortCause::Denied,
            _ => PortCause::Failed,
        }
    }

    fn text(self) -> &'static str
        ensures { result.now ≡ port_text self }
    {
        match self {
            PortCause::Taken =>
                "another program listens on it; choose another port, or 0 for a free one",
            PortCause::Denied =>
                "you may not listen on it; choose a port from 1024 on, or 0 for a free one",
            PortCause::NoLoopback =>
                "the system has no address 127.0.0.1; check its loopback interface",
            PortCause::NoneGiven =>
                "the system gives no free port; name one from 1024 on, or end other programs",
            PortCause::Short(shortage) => shortage.text(),
            PortCause::Failed =>
                "the system does not let a program listen on it; choose another port, or 0 for a free one",
            PortCause::Memory => MEMORY,
        }
    }
}

/// Why a standard stream can be neither read nor written any further.
#[derive(Clone, Copy)]
pub enum StreamCause {
    InputClosed,
    InputFolder,
    InputFailed,
    OutputClosed,
    OutputPipe,
    OutputFull,
    OutputQuota,
    OutputTooLarge,
    OutputFailed,
}

impl StreamCause {
    /// The cause for an input that failed with this error.
    pub fn of_input(kind: ErrorKind) -> StreamCause
        ensures { result ≡ input_cause kind }
    {
        match kind {
            ErrorKind::IsADirectory => StreamCause::InputFolder,
            _ => StreamCause::InputFailed,
        }
    }

    /// The cause for an output that failed with this error.
    pub fn of_output(kind: ErrorKind) -> StreamCause
        ensures { result ≡ output_cause kind }
    {
        match kind {
            ErrorKind::BrokenPipe => StreamCause::OutputPipe,
            ErrorKind::StorageFull => StreamCause::OutputFull,
            ErrorKind::QuotaExceeded => StreamCause::OutputQuota,
            ErrorKind::FileTooLarge => StreamCause::OutputTooLarge,
            _ => StreamCause::OutputFailed,
        }
    }

    fn text(self) -> &'static str
        ensures { result.now ≡ stream_text self }
    {
        match self {
            StreamCause::InputClosed =>
                "standard input: it is closed, so nothing was read; give a file by `< FILE`",
            StreamCause::InputFolder => "standard input: it is a folder; give a file by `< FILE`",
            StreamCause::InputFailed =>
                "standard input: the system failed to read it; nothing was done",
            StreamCause::OutputClosed =>
                "standard output: it is closed, so the answer is lost; ask again",
            StreamCause::OutputPipe =>
                "standard output: its reader closed the pipe before the end of the answer",
            StreamCause::OutputFull =>
                "standard output: the disk is full, so the answer is not whole; make room and ask again",
            StreamCause::OutputQuota =>
                "standard output: your disk quota is used up, so the answer is not whole; make room and ask again",
            StreamCause::OutputTooLarge =>
                "standard output: the file may not grow so large; raise the limit (`ulimit -f`) and ask again",
            StreamCause::OutputFailed =>
                "standard output: the system failed to write it; write the answer to another place, and ask again",
        }
    }
}

/// Why a command was not done, or what else a user has to know about it.
#[derive(Drop)]
pub enum Cause {
    File(FileCause),
    Value(Form),
    Port(PortCause),
    Stream(StreamCause),
    /// The command line of this program has no command.
    NoCommand(&'static str),
    /// A word of the command line is not text.
    NotText,
    /// A server ended: the desk's files are no longer in their place.
    FilesMoved,
    /// A server ended: a fault has shut the desk's file.
    FileShut,
    /// A server ended: the system gives it no more connections.
    NoConnections,
    /// The answer has no last line, though the output accepted all of it.
    BrokenOff,
    /// The system had no memory before a command began.
    Memory,
    /// A command was done on a desk in memory.
    NothingKept,
    /// A command asks for released text of a desk in memory.
    NothingThere,
    /// A tree is asked for with one of a desk and a number.
    BothOrNeither,
    /// A server serves a desk in memory.
    NothingWillBeKept,
    /// The desk or the check refuses, or its answer needs other words.
    Words(Words),
}

impl Cause {
    /// The sentence of a cause that is defined here.
    fn text(&self) -> &'static str
        ensures { result.now ≡ cause_text self.now }
    {
        match self {
            Cause::Words(_) | Cause::NoCommand(_) => "",
            Cause::File(cause) => cause.text(),
            Cause::Value(form) => form.text(),
            Cause::Port(cause) => cause.text(),
            Cause::Stream(cause) => cause.text(),
            Cause::NotText => "a word of the command line is not UTF-8; write it in UTF-8",
            Cause::FilesMoved =>
                "serving ended: the desk's files were moved, removed or replaced; serve the file that is meant",
            Cause::FileShut =>
                "serving ended: an I/O error closed the desk's file; check the disk and serve the desk again",
            Cause::NoConnections =>
                "serving ended: the system gave no more connections; serve the desk again",
            Cause::BrokenOff =>
                "the answer is not whole: there was not enough memory, or the desk's file could not be read; ask again",
            Cause::Memory => MEMORY,
            Cause::NothingKept =>
                "nothing is kept: without --db the desk was in memory, for this command alone",
            Cause::NothingThere =>
                "without --db the desk is in memory, and empty; name the file of a desk by --db",
            Cause::BothOrNeither =>
                "name both a desk by --db and a sentence by its number, or neither to draw the file on standard input",
            Cause::NothingWillBeKept =>
                "without --db the desk is in memory; what is sent to it is gone when the server ends",
        }
    }
}

impl Display for Cause {
    ghost use Rattle.tb_host.specs.Reported.{output_of_cause};

    ghost output = { output_of_cause };

    fn fmt<W: fmt::Write>(&self, f: &mut Formatter<W>) -> fmt::Result {
        match self {
            Cause::Words(words) => write!(f, "{words}"),
            Cause::NoCommand(program) => write!(
                f,
                "no command is given; `{program} --help` lists them"
            ),
            _ => f.write_str(self.text()),
        }
    }
}
