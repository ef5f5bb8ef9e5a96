//! The heads of the page's responses, made without memory.

ghost use Rattle.std.specs.Prelude.{◌≡◌, ◌++◌, ◌≤◌, ◌+◌, length};
ghost use Rattle.arrayvec.specs.ArrayString.{array_string_len};
ghost use Rattle.tb_page.specs.Heads.{allowed, content_policy, kind_text, origin_policy, page_head};

use arrayvec::ArrayString;
use tb_http::{Allow, Status, methods, push_number};

/// The type of a body, which is UTF-8.
#[derive(Clone, Copy, Debug, PartialEq, Eq)]
pub enum Kind {
    Html,
    Css,
    JavaScript,
    Plain,
}

impl Kind {
    ghost use Rattle.std.specs.Prelude.{◌≡◌, ◌≤◌, length};
    ghost use Rattle.tb_page.specs.Heads.{kind_text};

    /// Its media type.
    fn text(self) -> &'static str
        ensures value { result.now ≡ kind_text self }
        ensures short { length result.now ≤ 15 }
    {
        match self {
            Kind::Html => "text/html",
            Kind::Css => "text/css",
            Kind::JavaScript => "text/javascript",
            Kind::Plain => "text/plain",
        }
    }
}

/// What a page loads, who may show it, and who may read an answer.
fn push_policies(head: &mut ArrayString<1024>)
    requires { array_string_len head.old + 600 ≤ 1024 }
    ensures bytes { head.new.bytes ≡ head.old.bytes ++ content_policy ++ origin_policy }
    ensures bound { array_string_len head.new ≤ array_string_len head.old + 600 }
{
    head.push_str(
        "Content-Security-Policy: default-src 'none'; script-src 'self'; style-src 'self'; connect-src 'self'; ",
    );
    head.push_str("img-src data:; base-uri 'none'; form-action 'none'; frame-ancestors 'none'; ");
    head.push_str("require-trusted-types-for 'script'; trusted-types 'none'\r\n");
    head.push_str(
        "X-Content-Type-Options: nosniff\r\nReferrer-Policy: no-referrer\r\nCache-Control: no-store\r\n",
    );
    head.push_str(
        "Cross-Origin-Resource-Policy: same-origin\r\nCross-Origin-Opener-Policy: same-origin\r\n",
    );
}

/// The methods of a path, where another was asked for.
fn push_allowed(head: &mut ArrayString<1024>, allow: Option<Allow>)
    requires { array_string_len head.old + 20 ≤ 1024 }
    ensures bytes { head.new.bytes ≡ head.old.bytes ++ allowed allow }
    ensures bound { array_string_len head.new ≤ array_string_len head.old + 20 }
{
    if let Some(allow) = allow {
        head.push_str("Allow: ");
        head.push_str(methods(allow));
        head.push_str("\r\n");
    }
}

/// The head of a response: its status, the methods of the path where another was asked for, the type of its body, and the
/// length of that.
pub(crate) fn page_head(
    status: Status,
    allow: Option<Allow>,
    kind: Kind,
    length: u64,
) -> ArrayString<1024>
    ensures { result.bytes ≡ page_head status allow kind length }
{
    let mut head = ArrayString::new();
    head.push_str("HTTP/1.1 ");
    head.push_str(status.code().as_str());
    head.push_str(" ");
    head.push_str(status.phrase());
    head.push_str("\r\nContent-Type: ");
    head.push_str(kind.text());
    head.push_str("; charset=utf-8\r\nContent-Length: ");
    push_number(&mut head, length);
    head.push_str("\r\nConnection: close\r\n");
    push_allowed(&mut head, allow);
    push_policies(&mut head);
    head.push_str("\r\n");
    head
}
