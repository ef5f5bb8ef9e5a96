//! The answers that are one line, made without memory.

ghost use Rattle.std.specs.Prelude.{◌≡◌, ◌++◌, ◌≤◌, ◌+◌, length, codes, decimal};
ghost use Rattle.arrayvec.specs.ArrayString.{array_string_len};
ghost use Rattle.tb_core.specs.Refusals.{refusal_text};
ghost use Rattle.tb_core.specs.Words.{state_word};
ghost use Rattle.tb_http.specs.Replies.{fault_status, refusal_status, reply_text};
ghost use Rattle.tb_http.specs.declared.replies.Reply.TheVariants as reply;

use crate::asks::RequestFault;
use crate::parts::written;
use crate::status::Status;
use arrayvec::ArrayString;
use tb_core::{Corrected, Imported, Moved, Pulled, Refusal, Restored, State};

/// An answer that is one line.
#[derive(Clone, Copy, Debug, PartialEq, Eq)]
pub enum Reply {
    Imported(Imported),
    Moved(Moved),
    Corrected(Corrected),
    Pulled(Pulled),
    Restored(Restored),
    Refused(Refusal),
    /// The request asks nothing.
    Faulty(RequestFault),
    /// Memory ran out.
    Memory,
    /// The store failed, or an input could not be read.
    Device,
    /// The tables are not those of a desk.
    Desk,
}

/// Appends a number in decimal digits.
pub fn push_number<const N: usize>(line: &mut ArrayString<N>, n: u64)
    requires { array_string_len line.old + 20 ≤ N }
    ensures bytes { line.new.bytes ≡ line.old.bytes ++ decimal n }
    ensures bound { array_string_len line.new ≤ array_string_len line.old + 20 }
{
    let mut buffer = itoa::Buffer::new();
    line.push_str(buffer.format(n));
}

/// The word for a state, which has at most eleven letters.
fn word(state: State) -> &'static str
    ensures value { result.now ≡ state_word state }
    ensures short { length result.now ≤ 11 }
{
    state.word()
}

/// The line of these texts and numbers.
macro_rules! line {
    ($($kind:ident $part:expr),*) => {
        written!($($kind $part,)* text "\n")
    };
}

fn imported_line(r: &Imported) -> ArrayString<128>
    ensures { result.bytes ≡ reply_text (reply.Imported r.now) }
{
    line!(
        text "imported batch=", number r.batch, text " first=", number r.first, text " sentences=",
        number r.sentences, text " words=", number r.words
    )
}

fn moved_line(r: &Moved) -> ArrayString<128>
    ensures { result.bytes ≡ reply_text (reply.Moved r.now) }
{
    line!(
        text "moved batch=", number r.batch, text " state=", text word(r.state), text " sentences=",
        number r.sentences, text " words=", number r.words
    )
}

fn corrected_line(r: &Corrected) -> ArrayString<128>
    ensures { result.bytes ≡ reply_text (reply.Corrected r.now) }
{
    line!(text "corrected sentence=", number r.sentence, text " rev=", number r.rev, text " words=", number r.words)
}

fn pulled_line(r: &Pulled) -> ArrayString<128>
    ensures { result.bytes ≡ reply_text (reply.Pulled r.now) }
{
    line!(text "pulled sentence=", number r.sentence, text " words=", number r.words)
}

fn restored_line(r: &Restored) -> ArrayString<128>
    ensures { result.bytes ≡ reply_text (reply.Restored r.now) }
{
    line!(
        text "restored sentence=", number r.sentence, text " state=", text word(r.state), text " words=",
        number r.words
    )
}

fn fixed_line(text: &str) -> ArrayString<128>
    requires { length text.now ≤ 40 }
    ensures { result.bytes ≡ text.now ++ codes "\n" }
{
    line!(text text)
}

fn one_number(text: &str, a: u64) -> ArrayString<128>
    requires { length text.now ≤ 40 }
    ensures { result.bytes ≡ text.now ++ decimal a ++ codes "\n" }
{
    line!(text text, number a)
}

fn two_numbers(text: &str, a: u64, b: u64) -> ArrayString<128>
    requires { length text.now ≤ 40 }
    ensures { result.bytes ≡ text.now ++ decimal a ++ codes " " ++ decimal b ++ codes "\n" }
{
    line!(text text, number a, text " ", number b)
}

fn rule_line(sentence: u64, rule: u8, row: u64) -> ArrayString<128>
    ensures { result.bytes
        ≡ codes "refused 9 Rule " ++ decimal sentence ++ codes " " ++ decimal rule ++ codes " " ++ decimal row
        ++ codes "\n" }
{
    line!(text "refused 9 Rule ", number sentence, text " ", number u64::from(rule), text " ", number row)
}

fn wrong_state_line(state: State) -> ArrayString<128>
    ensures { result.bytes ≡ codes "refused 4 WrongState " ++ state_word state ++ codes "\n" }
{
    line!(text "refused 4 WrongState ", text word(state))
}

/// The line of a refusal.
fn refusal_line(refusal: Refusal) -> ArrayString<128>
    ensures { result.bytes ≡ refusal_text refusal ++ codes "\n" }
{
    match refusal {
        Refusal::BadName => fixed_line("refused 1 BadName"),
        Refusal::NoSuchBatch => fixed_line("refused 2 NoSuchBatch"),
        Refusal::NoSuchSentence => fixed_line("refused 3 NoSuchSentence"),
        Refusal::WrongState(state) => wrong_state_line(state),
        Refusal::NotYours => fixed_line("refused 5 NotYours"),
        Refusal::OwnWork => fixed_line("refused 6 OwnWork"),
        Refusal::Stale(current) => one_number("refused 7 Stale ", current),
        Refusal::Read(line, code) => two_numbers("refused 8 Read ", line, u64::from(code)),
        Refusal::Rule(sentence, rule, row) => rule_line(sentence, rule, row),
        Refusal::Empty => fixed_line("refused 10 Empty"),
        Refusal::NotOne => fixed_line("refused 11 NotOne"),
        Refusal::SentIdChanged => fixed_line("refused 12 SentIdChanged"),
        Refusal::TextChanged => fixed_line("refused 13 TextChanged"),
        Refusal::NothingChanged => fixed_line("refused 14 NothingChanged"),
        Refusal::NameTaken => fixed_line("refused 15 NameTaken"),
        Refusal::SentIdTaken(sentence) => one_number("refused 16 SentIdTaken ", sentence),
        Refusal::Full => fixed_line("refused 17 Full"),
        Refusal::NoSuchRevision => fixed_line("refused 18 NoSuchRevision"),
        Refusal::Query(code, number) => two_numbers("refused 19 Query ", u64::from(code), number),
        Refusal::Pulled => fixed_line("refused 20 Pulled"),
        Refusal::NotPulled => fixed_line("refused 21 NotPulled"),
        Refusal::TooManyHits => fixed_line("refused 22 TooManyHits"),
    }
}

/// The line of a fault of a request.
fn fault_line(fault: RequestFault) -> ArrayString<128>
    ensures { result.bytes ≡ reply_text (reply.Faulty fault) }
{
    match fault {
        RequestFault::Head => fixed_line("refused head"),
        RequestFault::Length => fixed_line("refused length"),
        RequestFault::Path => fixed_line("refused path"),
        RequestFault::Method(_) => fixed_line("refused method"),
        RequestFault::Long => fixed_line("refused long"),
        RequestFault::Body => fixed_line("refused body"),
    }
}

/// The status of a fault of a request.
fn fault_status(fault: RequestFault) -> Status
    ensures { result ≡ fault_status fault }
{
    match fault {
        RequestFault::Head | RequestFault::Length | RequestFault::Body => Status::BadRequest,
        RequestFault::Path => Status::NotFound,
        RequestFault::Method(_) => Status::MethodNotAllowed,
        RequestFault::Long => Status::PayloadTooLarge,
    }
}

/// The status of a refusal.
fn refusal_status(refusal: Refusal) -> Status
    ensures { result ≡ refusal_status refusal }
{
    match refusal {
        Refusal::BadName => Status::BadRequest,
        Refusal::NoSuchBatch | Refusal::NoSuchSentence | Refusal::NoSuchRevision => {
            Status::NotFound
        }
        Refusal::NotYours | Refusal::OwnWork => Status::Forbidden,
        Refusal::WrongState(_)
        | Refusal::Stale(_)
        | Refusal::NameTaken
        | Refusal::SentIdTaken(_)
        | Refusal::Pulled
        | Refusal::NotPulled => Status::Conflict,
        Refusal::Read(_, _)
        | Refusal::Rule(_, _, _)
        | Refusal::Empty
        | Refusal::NotOne
        | Refusal::SentIdChanged
        | Refusal::TextChanged
        | Refusal::NothingChanged
        | Refusal::Query(_, _)
        | Refusal::TooManyHits => Status::UnprocessableEntity,
        Refusal::Full => Status::InsufficientStorage,
    }
}

/// The answer to a command that was done.
macro_rules! done {
    () => {
        Reply::Imported(_)
            | Reply::Moved(_)
            | Reply::Corrected(_)
            | Reply::Pulled(_)
            | Reply::Restored(_)
    };
}

impl Reply {
    ghost use Rattle.std.specs.Prelude.{◌≡◌};
    ghost use Rattle.tb_http.specs.Replies.{reply_text, status_of, exit_of};

    /// The line, with its line feed.
    pub fn line(self) -> ArrayString<128>
        ensures { result.bytes ≡ reply_text self }
    {
        match self {
            Reply::Imported(reply) => imported_line(&reply),
            Reply::Moved(reply) => moved_line(&reply),
            Reply::Corrected(reply) => corrected_line(&reply),
            Reply::Pulled(reply) => pulled_line(&reply),
            Reply::Restored(reply) => restored_line(&reply),
            Reply::Refused(refusal) => refusal_line(refusal),
            Reply::Faulty(fault) => fault_line(fault),
            Reply::Memory => fixed_line("refused memory"),
            Reply::Device => fixed_line("refused device"),
            Reply::Desk => fixed_line("refused desk"),
        }
    }

    /// The status over HTTP.
    pub fn status(self) -> Status
        ensures { result ≡ status_of self }
    {
        match self {
            done!() => Status::Ok,
            Reply::Refused(refusal) => refusal_status(refusal),
            Reply::Faulty(fault) => fault_status(fault),
            Reply::Memory | Reply::Device | Reply::Desk => Status::ServiceUnavailable,
        }
    }

    /// The exit status of a command line: 0 done, 1 refused, 3 memory or device.
    pub fn exit(self) -> u8
        ensures { result ≡ exit_of self }
    {
        match self {
            done!() => 0,
            Reply::Refused(_) | Reply::Faulty(_) | Reply::Desk => 1,
            Reply::Memory | Reply::Device => 3,
        }
    }
}
