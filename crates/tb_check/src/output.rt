//! Writes a reply to any sink.

ghost use Rattle.tb_check.specs.Check.{IsWritten};

use tb_conllu::Sink;

/// Writes a reply. Returns its status, or 3 where the sink refused a part of it.
pub fn put_reply<S: Sink>(out: &mut S, text: &str, status: u8) -> u8
    ensures { IsWritten (S.held out.old) (S.held out.new) text.now status (S.IsRefusal out.new) result }
{
    match out.put(text.as_bytes()) {
        Ok(()) => status,
        Err(_) => 3,
    }
}
