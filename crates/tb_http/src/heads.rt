//! The heads of responses, made without memory.

ghost use Rattle.std.specs.Prelude.{◌≡◌, ◌++◌, ◌≤◌, ◌+◌, length};
ghost use Rattle.arrayvec.specs.ArrayString.{array_string_len};
ghost use Rattle.tb_http.specs.Heads.{allow_text, length_text, extra_text, extra_for, head_text, reply_head};
ghost use Rattle.tb_http.specs.Replies.{allow_in};

use crate::actions::Allow;
use crate::asks::RequestFault;
use crate::parts::written;
use crate::replies::{Reply, push_number};
use crate::status::Status;
use arrayvec::ArrayString;

/// A header that the desk adds.
#[derive(Clone, Copy)]
pub enum Extra {
    Nothing,
    /// The number of the revision in the body.
    Revision(u64),
    /// The methods of the path.
    Allowed(Allow),
}

/// The methods, as the header `Allow` lists them.
pub fn methods(allow: Allow) -> &'static str
    ensures value { result.now ≡ allow_text allow }
    ensures short { length result.now ≤ 9 }
{
    match allow {
        Allow::Get => "GET",
        Allow::Post => "POST",
        Allow::GetAndPost => "GET, POST",
    }
}

fn push_length(head: &mut ArrayString<256>, length: Option<u64>)
    requires { array_string_len head.old + 40 ≤ 256 }
    ensures bytes { head.new.bytes ≡ head.old.bytes ++ length_text length }
    ensures bound { array_string_len head.new ≤ array_string_len head.old + 40 }
{
    if let Some(length) = length {
        head.push_str("Content-Length: ");
        push_number(head, length);
        head.push_str("\r\n");
    }
}

fn push_extra(head: &mut ArrayString<256>, more: Extra)
    requires { array_string_len head.old + 40 ≤ 256 }
    ensures bytes { head.new.bytes ≡ head.old.bytes ++ extra_text more }
    ensures bound { array_string_len head.new ≤ array_string_len head.old + 40 }
{
    match more {
        Extra::Nothing => {}
        Extra::Revision(revision) => {
            head.push_str("Desk-Revision: ");
            push_number(head, revision);
            head.push_str("\r\n");
        }
        Extra::Allowed(allow) => {
            head.push_str("Allow: ");
            head.push_str(methods(allow));
            head.push_str("\r\n");
        }
    }
}

/// The head of a response: its status, the length of its body, if it is known, and a header that the desk adds.
pub fn response_head(status: Status, length: Option<u64>, more: Extra) -> ArrayString<256>
    ensures { result.bytes ≡ head_text status length more }
{
    written!(
        text "HTTP/1.1 ", text status.code().as_str(), text " ", text status.phrase(),
        text "\r\nContent-Type: text/plain; charset=utf-8\r\n", length length,
        text "Connection: close\r\n", extra more, text "\r\n"
    )
}

/// The header of a reply.
fn extra_of(reply: Reply) -> Extra
    ensures { result ≡ extra_for (allow_in reply) }
{
    match reply {
        Reply::Faulty(RequestFault::Method(allow)) => Extra::Allowed(allow),
        _ => Extra::Nothing,
    }
}

/// The head of a response whose body is the reply's line.
pub fn head_of_reply(reply: Reply) -> ArrayString<256>
    ensures { result.bytes ≡ reply_head reply }
{
    let line = reply.line();
    response_head(reply.status(), Some(line.len() as u64), extra_of(reply))
}
