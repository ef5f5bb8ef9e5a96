//! What the bytes of a request ask of a server with the page.

ghost use Rattle.std.specs.Prelude.{◌≡◌, ◌≤◌, ◌++◌, ◌↔◌, ℕ, List, All, IsTrue, drop, length, map, take};
ghost use Rattle.httparse.specs.Spans.{IsHeaderWithin, IsRequestOf, IsRequestWithin, header_bytes, span_bytes};
ghost use Rattle.tb_http.specs.Headers.{body_length};
ghost use Rattle.tb_page.specs.Visits.{AsksOneVisit, AwaitsText, Visits, asked_at, asked_of, check_of, is_get};
ghost use Rattle.tb_page.specs.Visits.{is_linkable, is_post, no_text, text_in, text_of, visit_by, visit_of};
ghost use Rattle.tb_page.specs.Paths.{file_at, list_at};

use crate::guard::{Foreign, guard};
use crate::paths::{File, PageList, file_at, is_check, list_at};
use httparse::spans::{EMPTY_HEADER_SPAN, HeaderSpan, RequestSpans};
use tb_conllu::SliceSource;
use tb_http::{Allow, BODY_BYTES, HEAD_BYTES, HEADERS, RequestFault, body_length, read_head};

/// What a request asks of a server with the page.
#[derive(Clone, Copy, Debug)]
pub enum Visit<'b> {
    /// The bytes begin with no head of at most 8,192 bytes and 32 headers.
    NoHead,
    /// The guard refuses it.
    Foreign(Foreign),
    /// A file of the page.
    File(File),
    /// A list that the page reads of the desk.
    List(PageList<'b>),
    /// The check of a text.
    Check(&'b [u8]),
    /// A check whose text is not whole in the bytes that came, or not of a length that is taken.
    NoText(RequestFault),
    /// The page has this path, but these methods alone.
    NoMethod(Allow),
    /// It is the desk's to answer.
    Desk,
}

/// A law: bytes ask exactly one thing of a server.
pub fn one_visit_is_asked()
    ensures { AsksOneVisit }
{}

/// Whether the method is GET.
fn is_get(method: &[u8]) -> bool
    ensures { result ≡ is_get method.now }
{
    method == b"GET".as_slice()
}

/// Whether a link from elsewhere may ask this: it is the page's first file.
fn is_linkable(method: &[u8], path: &[u8]) -> bool
    ensures { result ≡ is_linkable method.now path.now }
{
    is_get(method) && path == b"/".as_slice()
}

/// What is asked of a path by this method.
fn asked_of<'b>(method: &[u8], path: &'b [u8]) -> Visit<'b>
    ensures { visit_by result ≡ asked_of (is_get method.now) (file_at path.now) (list_at path.now) }
{
    if let Some(file) = file_at(path) {
        return if is_get(method) {
            Visit::File(file)
        } else {
            Visit::NoMethod(Allow::Get)
        };
    }
    let Some(list) = list_at(path) else {
        return Visit::Desk;
    };
    if is_get(method) {
        Visit::List(list)
    } else {
        Visit::NoMethod(Allow::Get)
    }
}

/// The text of so many bytes, if these have all come.
fn text_in(rest: &[u8], n: usize) -> Visit<'_>
    ensures { visit_by result ≡ text_in n rest.now }
{
    match rest.get(..n) {
        Some(text) => Visit::Check(text),
        None => Visit::NoText(RequestFault::Body),
    }
}

/// The text that these headers give a length, of the bytes after the head.
fn text_of<'b>(buf: &[u8], headers: &[HeaderSpan], rest: &'b [u8]) -> Visit<'b>
    requires { All (IsHeaderWithin (length buf.now)) headers.now }
    ensures { visit_by result ≡ text_of (body_length (map (header_bytes buf.now) headers.now)) rest.now }
{
    match body_length(buf, headers, BODY_BYTES) {
        Ok(Some(n)) => text_in(rest, n),
        Ok(None) => Visit::NoText(RequestFault::Long),
        Err(_) => Visit::NoText(RequestFault::Length),
    }
}

/// Whether the method is POST.
fn is_post(method: &[u8]) -> bool
    ensures { result ≡ is_post method.now }
{
    method == b"POST".as_slice()
}

/// What is asked of the path of the check by this method, these headers, and the bytes after the head.
fn check_of<'b>(method: &[u8], buf: &[u8], headers: &[HeaderSpan], rest: &'b [u8]) -> Visit<'b>
    requires { All (IsHeaderWithin (length buf.now)) headers.now }
    ensures { visit_by result ≡ check_of method.now (map (header_bytes buf.now) headers.now) rest.now }
{
    if is_post(method) {
        text_of(buf, headers, rest)
    } else {
        Visit::NoMethod(Allow::Post)
    }
}

/// What is asked of a path, once the guard has let it pass.
fn asked_at<'b>(
    method: &[u8],
    path: &'b [u8],
    buf: &[u8],
    headers: &[HeaderSpan],
    rest: &'b [u8],
) -> Visit<'b>
    requires { All (IsHeaderWithin (length buf.now)) headers.now }
    ensures { visit_by result ≡ asked_at method.now path.now (map (header_bytes buf.now) headers.now) rest.now }
{
    if is_check(path) {
        check_of(method, buf, headers, rest)
    } else {
        asked_of(method, path)
    }
}

/// The head of a request in a buffer: where its parts and its headers are.
#[derive(Clone, Copy)]
struct HeadIn<'b, 'h> {
    buf: &'b [u8],
    headers: &'h [HeaderSpan],
    spans: RequestSpans,
}

/// What is asked by a head, and by the bytes after it.
fn visit_of<'b>(port: u16, head: HeadIn<'b, '_>, rest: &'b [u8]) -> Visit<'b>
    requires inside { IsRequestWithin head.buf.now head.headers.now head.spans }
    ensures { visit_by result ≡ visit_of port (span_bytes head.entry.buf.now head.entry.spans.method)
        (span_bytes head.entry.buf.now head.entry.spans.path)
        (map (header_bytes head.entry.buf.now) (take head.entry.spans.headers head.entry.headers.now)) rest.now }
{
    let method = head.spans.method.of(head.buf);
    let path = head.spans.path.of(head.buf);
    let named = &head.headers[..head.spans.headers];
    if let Some(why) = guard(port, is_linkable(method, path), head.buf, named) {
        return Visit::Foreign(why);
    }
    asked_at(method, path, head.buf, named, rest)
}

/// What is asked by bytes that begin with the head.
fn visit_after<'b>(port: u16, head: HeadIn<'b, '_>, bytes: &'b [u8]) -> Visit<'b>
    requires room { length head.buf.now ≤ 8192 }
    requires few { length head.headers.now ≤ 32 }
    requires inside { IsRequestWithin head.buf.now head.headers.now head.spans }
    requires head { IsRequestOf head.buf.now head.headers.now head.spans }
    requires begins { (later : List ℕ) × (bytes.now ≡ head.buf.now ++ later) }
    ensures { Visits port bytes.now (visit_by result) }
{
    visit_of(port, head, &bytes[head.spans.len..])
}

/// What these bytes ask of the server at this port. The head is copied into `buf`, which paths borrow from.
pub fn read_visit<'b>(port: u16, bytes: &'b [u8], buf: &'b mut [u8; HEAD_BYTES]) -> Visit<'b>
    ensures { Visits port bytes.now (visit_by result) }
{
    let mut headers = [EMPTY_HEADER_SPAN; HEADERS];
    let mut reader = SliceSource { bytes };
    match read_head(&mut reader, buf, &mut headers) {
        Ok(Some(read)) => {
            let head = HeadIn {
                buf: &buf[..read.filled],
                headers: &headers,
                spans: read.spans,
            };
            visit_after(port, head, bytes)
        }
        _ => Visit::NoHead,
    }
}

/// Whether a check lacks a part of its text.
fn lacks_text(visit: &Visit<'_>) -> bool
    ensures { IsTrue result ↔ (visit_by visit.now ≡ no_text RequestFault.Body) }
{
    matches!(visit, Visit::NoText(RequestFault::Body))
}

/// Whether bytes that begin with the head in the buffer ask for a check, and lack a part of its text.
fn awaits_text_after(buf: &[u8], headers: &[HeaderSpan], spans: RequestSpans, bytes: &[u8]) -> bool
    requires room { length buf.now ≤ 8192 }
    requires few { length headers.now ≤ 32 }
    requires inside { IsRequestWithin buf.now headers.now spans }
    requires head { IsRequestOf buf.now headers.now spans }
    requires begins { (later : List ℕ) × (bytes.now ≡ buf.now ++ later) }
    ensures { IsTrue result ↔ AwaitsText bytes.now }
{
    let method = spans.method.of(buf);
    let rest = &bytes[spans.len..];
    let named = &headers[..spans.headers];
    is_check(spans.path.of(buf)) && lacks_text(&check_of(method, buf, named, rest))
}

/// Whether a server reads on for the text of a check after these bytes. A server without the page does so too, and so does
/// one that will refuse where the request comes from.
pub fn awaits_text(bytes: &[u8]) -> bool
    ensures { IsTrue result ↔ AwaitsText bytes.now }
{
    let mut buf = [0; HEAD_BYTES];
    let mut headers = [EMPTY_HEADER_SPAN; HEADERS];
    let mut reader = SliceSource { bytes };
    match read_head(&mut reader, &mut buf, &mut headers) {
        Ok(Some(head)) => awaits_text_after(&buf[..head.filled], &headers, head.spans, bytes),
        _ => false,
    }
}
