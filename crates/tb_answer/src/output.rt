//! Writes answers to any sink.

ghost use Rattle.tb_answer.specs.Prelude.{exit_of, reply_text};
ghost use Rattle.tb_answer.specs.Output.{IsWritten};

use tb_conllu::Sink;
use tb_http::Reply;

/// Writes a text. Returns its status, or 3 where the sink refused a part of it.
pub fn put_text<W: Sink>(out: &mut W, text: &[u8], status: u8) -> u8
    ensures { IsWritten (W.held out.old) (W.held out.new) text.now status (W.IsRefusal out.new) result }
{
    match out.put(text) {
        Ok(()) => status,
        Err(_) => 3,
    }
}

/// Writes the line of a reply. Returns its exit status, or 3 where the sink refused a part of it.
pub fn put_reply<W: Sink>(out: &mut W, reply: Reply) -> u8
    ensures { IsWritten (W.held out.old) (W.held out.new) (reply_text reply) (exit_of reply)
        (W.IsRefusal out.new) result }
{
    let line = reply.line();
    put_text(out, line.as_str().as_bytes(), reply.exit())
}

/// Writes a body. Returns 0, or 3 where the sink refused a part of it.
pub fn put_body<W: Sink>(out: &mut W, text: &[u8]) -> u8
    ensures { IsWritten (W.held out.old) (W.held out.new) text.now 0 (W.IsRefusal out.new) result }
{
    put_text(out, text, 0)
}
