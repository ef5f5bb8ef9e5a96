//! What the headers of a request say.

ghost use Rattle.std.specs.Prelude.{◌≡◌, ◌<◌, ◌^◌, length, map, true, Some, None, IfOk, OnErr};
ghost use Rattle.std.specs.Prelude.{MatchResult, All, option_map};
ghost use Rattle.std.specs.Option.{option_copied, option_to_list};
ghost use Rattle.std.specs.List.{list_all};
ghost use Rattle.std.specs.Char.{is_ascii_digit};
ghost use Rattle.std.specs.Str.Parse.{digits_value};
ghost use Rattle.httparse.specs.Spans.{IsHeaderWithin, header_bytes};
ghost use Rattle.tb_http.specs.Forms.{within};
ghost use Rattle.tb_http.specs.Headers.{value_under, values_of, is_numeral as is_numeral_text};
ghost use Rattle.tb_http.specs.Headers.{body_length as body_length_of, text_of, user_of};

use crate::forms::all_digits;
use httparse::spans::HeaderSpan;
use std::str::from_utf8;

/// The value of the header, if it has this name. ASCII case does not matter.
fn value_under<'b>(buf: &'b [u8], header: &HeaderSpan, name: &[u8]) -> Option<&'b [u8]>
    requires { IsHeaderWithin (length buf.now) header.now }
    ensures { option_copied result ≡ value_under name.now (header_bytes buf.now header.now) }
{
    if header.name.of(buf).eq_ignore_ascii_case(name) {
        Some(header.value.of(buf))
    } else {
        None
    }
}

/// A header comes more than once.
#[derive(Clone, Copy)]
pub struct Repeated;

/// The value of the header with this name, if there is one.
pub fn value_of<'b>(
    buf: &'b [u8],
    headers: &[HeaderSpan],
    name: &[u8],
) -> Result<Option<&'b [u8]>, Repeated>
    requires { All (IsHeaderWithin (length buf.now)) headers.now }
    ensures once { IfOk result (λ found.
        values_of name.now (map (header_bytes buf.now) headers.now) ≡ option_to_list (option_copied found)) }
    ensures twice { OnErr result (1 < length (values_of name.now (map (header_bytes buf.now) headers.now))) }
{
    let mut found = None;
    for header in headers {
        if let Some(value) = value_under(buf, header, name) {
            if found.is_some() {
                return Err(Repeated);
            }
            found = Some(value);
        }
    }
    Ok(found)
}

/// One digit or more, and nothing else.
fn is_numeral(text: &[u8]) -> bool
    ensures { result ≡ is_numeral_text text.now }
{
    !text.is_empty() && all_digits(text)
}

/// The value of a numeral of any length, if it is within the limit.
fn number_within(digits: &[u8], limit: usize) -> Option<usize>
    requires small { limit < 2 ^ 32 }
    requires digits { list_all is_ascii_digit digits.now ≡ true }
    ensures { result ≡ within limit (digits_value 10 digits.now) }
{
    let mut number = 0;
    for digit in digits {
        number = number * 10 + (*digit - b'0') as usize;
        if number > limit {
            return None;
        }
    }
    Some(number)
}

/// `Transfer-Encoding` is present, `Content-Length` comes twice, or it is no number.
#[derive(Clone, Copy)]
pub struct BadLength;

/// The length of the body, or `None` where it is above the limit.
pub fn body_length(
    buf: &[u8],
    headers: &[HeaderSpan],
    limit: usize,
) -> Result<Option<usize>, BadLength>
    requires small { limit < 2 ^ 32 }
    requires inside { All (IsHeaderWithin (length buf.now)) headers.now }
    ensures { MatchResult result (λ n. option_map (within limit)
        (body_length_of (map (header_bytes buf.now) headers.now)) ≡ Some n)
        (λ _. body_length_of (map (header_bytes buf.now) headers.now) ≡ None) }
{
    let Ok(None) = value_of(buf, headers, b"Transfer-Encoding") else {
        return Err(BadLength);
    };
    match value_of(buf, headers, b"Content-Length") {
        Err(_) => Err(BadLength),
        Ok(None) => Ok(Some(0)),
        Ok(Some(value)) => {
            if is_numeral(value) {
                Ok(number_within(value, limit))
            } else {
                Err(BadLength)
            }
        }
    }
}

/// The value if it is UTF-8, else the empty text.
pub fn text_of(value: &[u8]) -> &str
    ensures { result.now ≡ text_of value.now }
{
    match from_utf8(value) {
        Ok(text) => text,
        Err(_) => "",
    }
}

/// The value of `Desk-User`; empty where there is none, or where it is not UTF-8.
pub fn user_of<'b>(buf: &'b [u8], headers: &[HeaderSpan]) -> Result<&'b str, Repeated>
    requires { All (IsHeaderWithin (length buf.now)) headers.now }
    ensures { MatchResult result (λ user. user_of (map (header_bytes buf.now) headers.now) ≡ Some user.now)
        (λ _. user_of (map (header_bytes buf.now) headers.now) ≡ None) }
{
    match value_of(buf, headers, b"Desk-User")? {
        None => Ok(""),
        Some(value) => Ok(text_of(value)),
    }
}
