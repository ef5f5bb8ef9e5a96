//! The guard of the page: nobody may ask but the page itself, and programs on this machine.

ghost use Rattle.std.specs.Prelude.{◌≡◌, ◌≤◌, All, codes, length, map};
ghost use Rattle.std.specs.Str.{str_eq_ignore_ascii_case};
ghost use Rattle.httparse.specs.Spans.{IsHeaderWithin, header_bytes};
ghost use Rattle.tb_page.specs.Guard.{guard_by, guard_of, is_at, is_http, is_own_host, is_own_origin};
ghost use Rattle.tb_page.specs.Guard.{is_own_site, names_own_host, said_by, said_under, with_port};
ghost use Rattle.tb_page.specs.Paths.{rest_after};

use crate::paths::rest_after;
use arrayvec::ArrayString;
use httparse::spans::HeaderSpan;
use tb_http::{push_number, value_of};

/// Why a request is not the page's own.
#[derive(Clone, Copy, Debug, PartialEq, Eq)]
pub enum Foreign {
    /// `Host` is missing, comes twice, or is none of this machine's names with the page's port.
    Host,
    /// `Origin` or `Sec-Fetch-Site` comes twice, or names another place than the page.
    Origin,
}

/// What a request says in one header.
#[derive(Clone, Copy, Debug)]
pub enum Said<'b> {
    Nothing,
    Once(&'b [u8]),
    More,
}

/// What a request says in the header with this name.
fn said_in<'b>(buf: &'b [u8], headers: &[HeaderSpan], name: &[u8]) -> Said<'b>
    requires { All (IsHeaderWithin (length buf.now)) headers.now }
    ensures { said_by result ≡ said_under name.now (map (header_bytes buf.now) headers.now) }
{
    match value_of(buf, headers, name) {
        Ok(Some(value)) => Said::Once(value),
        Ok(None) => Said::Nothing,
        Err(_) => Said::More,
    }
}

/// A name with a port, as the header `Host` has it.
fn with_port(name: &str, port: u16) -> ArrayString<64>
    requires { length name.now ≤ 20 }
    ensures { result.bytes ≡ with_port name.now port }
{
    let mut text = ArrayString::new();
    text.push_str(name);
    if port != 80 {
        text.push_str(":");
        push_number(&mut text, u64::from(port));
    }
    text
}

/// Whether a host is this name with a port. ASCII case does not matter.
fn is_host(host: &[u8], name: &str, port: u16) -> bool
    requires { length name.now ≤ 20 }
    ensures { result ≡ str_eq_ignore_ascii_case host.now (with_port name.now port) }
{
    let own = with_port(name, port);
    host.eq_ignore_ascii_case(own.as_str().as_bytes())
}

/// Whether a host is one of the names of this machine, with the page's port.
fn is_own_host(port: u16, host: &[u8]) -> bool
    ensures { result ≡ is_own_host port host.now }
{
    is_host(host, "127.0.0.1", port)
        || (is_host(host, "localhost", port) || is_host(host, "[::1]", port))
}

/// Whether there is one host, and it is this machine's.
fn names_own_host(port: u16, host: Said<'_>) -> bool
    ensures { result ≡ names_own_host port (said_by host.entry) }
{
    match host {
        Said::Once(host) => is_own_host(port, host),
        _ => false,
    }
}

/// Whether an origin is the one of a page at this host.
fn is_http(host: &[u8], origin: &[u8]) -> bool
    ensures { result ≡ is_http host.now (rest_after (codes "http://") origin.now) }
{
    match rest_after(origin, b"http://") {
        Some(rest) => rest == host,
        None => false,
    }
}

/// Whether an origin is the page's own, where the page is at this host.
fn is_at(host: Said<'_>, origin: &[u8]) -> bool
    ensures { result ≡ is_at (said_by host.entry) origin.now }
{
    match host {
        Said::Once(host) => is_http(host, origin),
        _ => false,
    }
}

/// Whether there is no origin, or one: the page's own.
fn is_own_origin(host: Said<'_>, origin: Said<'_>) -> bool
    ensures { result ≡ is_own_origin (said_by host.entry) (said_by origin.entry) }
{
    match origin {
        Said::Nothing => true,
        Said::Once(origin) => is_at(host, origin),
        Said::More => false,
    }
}

/// Whether the request comes from the page, or from the browser itself, as far as it says.
fn is_own_site(site: Said<'_>) -> bool
    ensures { result ≡ is_own_site (said_by site.entry) }
{
    match site {
        Said::Nothing => true,
        Said::Once(site) => site == b"same-origin".as_slice() || site == b"none".as_slice(),
        Said::More => false,
    }
}

fn guard_by(
    port: u16,
    is_linkable: bool,
    host: Said<'_>,
    origin: Said<'_>,
    site: Said<'_>,
) -> Option<Foreign>
    ensures { result ≡ guard_by port is_linkable (said_by host.entry) (said_by origin.entry) (said_by site.entry) }
{
    if !names_own_host(port, host) {
        return Some(Foreign::Host);
    }
    if !is_own_origin(host, origin) {
        return Some(Foreign::Origin);
    }
    if is_linkable || is_own_site(site) {
        None
    } else {
        Some(Foreign::Origin)
    }
}

/// Why a request with these headers is refused, if it is. One that is linkable may come from a link elsewhere.
pub(crate) fn guard(
    port: u16,
    is_linkable: bool,
    buf: &[u8],
    headers: &[HeaderSpan],
) -> Option<Foreign>
    requires { All (IsHeaderWithin (length buf.now)) headers.now }
    ensures { result ≡ guard_of port is_linkable (map (header_bytes buf.now) headers.now) }
{
    guard_by(
        port,
        is_linkable,
        said_in(buf, headers, b"Host"),
        said_in(buf, headers, b"Origin"),
        said_in(buf, headers, b"Sec-Fetch-Site"),
    )
}
