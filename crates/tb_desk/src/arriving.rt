//! What is still to come of a request, by the bytes that have come.

ghost use Rattle.std.specs.Prelude.{◌≡◌, ◌↔◌, ◌⊎◌, ◌<◌, ◌^◌, length, map, All, IsTrue, IfOk, IfErr, IfSome, true, false};
ghost use Rattle.std.specs.Prelude.{codes};
ghost use Rattle.std.specs.Option.{option_copied};
ghost use Rattle.std.specs.Str.Parse.{digits_value};
ghost use Rattle.httparse.specs.Spans.{IsHeaderWithin, header_bytes};
ghost use Rattle.tb_http.specs.Asks.{body_limit, refused, reported_by};
ghost use Rattle.tb_http.specs.Faults.{AwaitsBody, BeginsBody};
ghost use Rattle.tb_http.specs.Headers.{body_length, is_numeral, value_under};
ghost use Rattle.tb_http.specs.declared.asks.AskFault.TheVariants.{Memory};
ghost use Rattle.tb_page.specs.Visits.{AwaitsText};
ghost use Rattle.tb_desk.specs.Arriving.{IsAwaited, awaited_at, most_size, next_size};

use httparse::Status;
use httparse::spans::{EMPTY_HEADER_SPAN, HeaderSpan, parse_request};
use std::alloc::Global;
use tb_conllu::SliceSource;
use tb_http::{Ask, AskFault, BODY_BYTES, HEAD_BYTES, RequestFault, Routes, read_ask};
use tb_page::awaits_text;

/// The most headers that a head may have. A head with more is not accepted.
const HEADERS: usize = 32;

/// How many bytes all waiting bodies may have together. That of the oldest connection has room beside them.
const BODIES: usize = 12_582_912;

/// What a connection still has to send before its request can be read without waiting.
#[derive(Clone, Copy, PartialEq, Eq)]
pub(crate) enum Awaited {
    /// The rest of the head.
    Head,
    /// The rest of the body. The request has so many bytes in all.
    Body(usize),
    Nothing,
}

/// Whether a request is refused for want of the rest of its body.
fn lacks_body(ask: &Ask<'_>) -> bool
    ensures { IsTrue result ↔ (reported_by ask.now ≡ refused RequestFault.Body) }
{
    matches!(ask, Ask::Refused(RequestFault::Body))
}

/// Whether the desk would read on for the body of a request, after these bytes. It asks what the desk would answer if
/// no more came.
///
/// # Errors
///
/// `Memory`: memory was refused for what has come of the body.
fn awaits_body(alloc: Global, routes: &Routes, said: &[u8]) -> Result<bool, AskFault>
    ensures is { IfOk result (λ is. IsTrue is ↔ AwaitsBody body_limit said.now) }
    ensures why { IfErr result (λ e. (e ≡ Memory) × BeginsBody body_limit said.now) }
{
    let mut buf = [0; HEAD_BYTES];
    let mut source = SliceSource { bytes: said };
    let ask = read_ask(alloc, routes, &mut source, &mut buf)?;
    Ok(lacks_body(&ask))
}

/// Whether more is to come after these bytes: of a body that the desk would read on for, or of the text of a check. Where
/// memory is refused for what has come, nothing is.
fn awaits_rest(alloc: Global, routes: &Routes, said: &[u8]) -> bool
    ensures more { IsTrue result → AwaitsBody body_limit said.now ⊎ AwaitsText said.now }
    ensures body { result ≡ false → AwaitsBody body_limit said.now → BeginsBody body_limit said.now }
    ensures text { result ≡ false → ¬ AwaitsText said.now }
{
    awaits_text(said) || matches!(awaits_body(alloc, routes, said), Ok(true))
}

/// The number that digits write.
fn number_of(digits: &[u8]) -> usize
    ensures { is_numeral digits.now ≡ true → digits_value 10 digits.now < 2 ^ 64
        → result ≡ digits_value 10 digits.now }
{
    let mut number = 0usize;
    for digit in digits {
        let value = digit.saturating_sub(b'0') as usize;
        number = number.saturating_mul(10).saturating_add(value);
    }
    number
}

/// The value of a header, if it is `Content-Length`.
fn length_under<'b>(head: &'b [u8], header: &HeaderSpan) -> Option<&'b [u8]>
    requires { IsHeaderWithin (length head.now) header.now }
    ensures { option_copied result ≡ value_under (codes "Content-Length") (header_bytes head.now header.now) }
{
    if header.name.of(head).eq_ignore_ascii_case(b"Content-Length") {
        Some(header.value.of(head))
    } else {
        None
    }
}

/// How many bytes a head gives the body.
fn length_said(head: &[u8], headers: &[HeaderSpan]) -> usize
    requires { All (IsHeaderWithin (length head.now)) headers.now }
    ensures { IfSome (body_length (map (header_bytes head.now) headers.now)) (λ n. n < 2 ^ 64 → result ≡ n) }
{
    for header in headers {
        if let Some(digits) = length_under(head, header) {
            return number_of(digits);
        }
    }
    0
}

/// What is awaited after these bytes.
pub(crate) fn awaited_after(alloc: Global, routes: &Routes, said: &[u8]) -> Awaited
    ensures { IsAwaited said.now result }
{
    let mut headers = [EMPTY_HEADER_SPAN; HEADERS];
    match parse_request(said, &mut headers) {
        Ok(Status::Partial) if said.len() < HEAD_BYTES => Awaited::Head,
        Ok(Status::Complete(spans)) if awaits_rest(alloc, routes, said) => {
            let length = length_said(said, &headers[..spans.headers]);
            Awaited::Body(spans.len.saturating_add(length))
        }
        _ => Awaited::Nothing,
    }
}

impl Awaited {
    /// What is awaited of the same request once so many of its bytes have come.
    pub(crate) fn at(self, came: usize) -> Awaited
        ensures { result ≡ awaited_at self came }
    {
        match self {
            Awaited::Body(whole) if whole <= came => Awaited::Nothing,
            _ => self,
        }
    }
}

/// How large a full buffer of so many bytes becomes. It grows with what has come, and not by what a head gives.
pub(crate) fn next_size(size: usize, awaited: Awaited) -> usize
    ensures { result ≡ next_size size awaited }
{
    match awaited {
        Awaited::Body(whole) => size.saturating_mul(2).max(HEAD_BYTES).min(whole),
        _ => HEAD_BYTES,
    }
}

/// How large the buffer of a connection may be, where the bodies of all others have so many bytes.
pub(crate) fn most_size(others: usize, is_oldest: bool) -> usize
    ensures { result ≡ most_size others is_oldest }
{
    if is_oldest {
        HEAD_BYTES + BODY_BYTES
    } else {
        HEAD_BYTES + BODIES.saturating_sub(others)
    }
}
