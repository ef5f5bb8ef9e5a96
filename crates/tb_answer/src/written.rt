//! What a line was answered, as a value.

ghost use Rattle.std.specs.Prelude.{◌≡◌, MatchResult, length};
ghost use Rattle.tb_answer.specs.Prelude.{exit_of, reply_text};
ghost use Rattle.tb_answer.specs.Found.{exit_of_ending};
ghost use Rattle.tb_answer.specs.Output.{IsWritten};

use crate::counts::CountTable;
use crate::ending::{Ending, exit_of};
use crate::output::{put_body, put_reply};
use crate::questions::Body;
use tb_conllu::Sink;
use tb_http::Reply;

/// What was written, or was to be written where the sink refused a part of it.
#[derive(Clone, Copy, Debug, PartialEq, Eq)]
pub enum Written {
    /// The line of this reply.
    Reply(Reply),
    /// A text of so many bytes: an export, or what a question asks for.
    Text(u64),
    /// The table of a count with so many hits.
    Table(u64),
    /// The keyword lines of a search that ended so.
    Found(Ending),
    /// The line `refused usage`.
    Usage,
}

/// How a line ran.
#[derive(Clone, Copy, Debug, PartialEq, Eq)]
pub struct Ran {
    /// The exit status.
    pub status: u8,
    pub written: Written,
}

impl Ran {
    /// Writes the line of a reply.
    pub(crate) fn by_reply<W: Sink>(out: &mut W, reply: Reply) -> Ran
        ensures status { IsWritten (W.held out.old) (W.held out.new) (reply_text reply) (exit_of reply)
            (W.IsRefusal out.new) result.status }
        ensures written { result.written ≡ Written.Reply reply }
    {
        Ran {
            status: put_reply(out, reply),
            written: Written::Reply(reply),
        }
    }

    /// Writes a text.
    pub(crate) fn by_text<W: Sink>(out: &mut W, text: &[u8]) -> Ran
        ensures status { IsWritten (W.held out.old) (W.held out.new) text.now 0 (W.IsRefusal out.new) result.status }
        ensures written { result.written ≡ Written.Text (length text.now) }
    {
        Ran {
            status: put_body(out, text),
            written: Written::Text(text.len() as u64),
        }
    }

    /// Writes the text that was asked for, or the line of why there is none.
    pub(crate) fn by_body<W: Sink>(out: &mut W, asked: Result<Body, Reply>) -> Ran
        ensures { MatchResult asked
            (λ b. IsWritten (W.held out.old) (W.held out.new) b.text.items 0 (W.IsRefusal out.new) result.status
            × (result.written ≡ Written.Text (length b.text.items)))
            (λ r. IsWritten (W.held out.old) (W.held out.new) (reply_text r) (exit_of r) (W.IsRefusal out.new)
            result.status × (result.written ≡ Written.Reply r)) }
    {
        match asked {
            Ok(body) => Ran::by_text(out, body.text.as_slice()),
            Err(why) => Ran::by_reply(out, why),
        }
    }

    /// Writes the table of a count.
    pub(crate) fn by_table<W: Sink>(out: &mut W, counted: &CountTable) -> Ran
        ensures status { IsWritten (W.held out.old) (W.held out.new) counted.now.text.items 0
            (W.IsRefusal out.new) result.status }
        ensures written { result.written ≡ Written.Table counted.now.hits }
    {
        Ran {
            status: put_body(out, counted.text.as_slice()),
            written: Written::Table(counted.hits),
        }
    }

    /// Writes the table of a count, or the line of why there is none.
    pub(crate) fn by_count<W: Sink>(out: &mut W, counted: Result<CountTable, Reply>) -> Ran
        ensures { MatchResult counted
            (λ t. IsWritten (W.held out.old) (W.held out.new) t.text.items 0 (W.IsRefusal out.new) result.status
            × (result.written ≡ Written.Table t.hits))
            (λ r. IsWritten (W.held out.old) (W.held out.new) (reply_text r) (exit_of r) (W.IsRefusal out.new)
            result.status × (result.written ≡ Written.Reply r)) }
    {
        match counted {
            Ok(table) => Ran::by_table(out, &table),
            Err(reply) => Ran::by_reply(out, reply),
        }
    }

    /// The run of a search that ended so.
    pub(crate) fn by_search(ending: Ending) -> Ran
        ensures status { result.status ≡ exit_of_ending ending }
        ensures written { result.written ≡ Written.Found ending }
    {
        Ran {
            status: exit_of(ending),
            written: Written::Found(ending),
        }
    }
}
