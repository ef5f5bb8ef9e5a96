//! The values that clap finds.

ghost use Rattle.std.specs.Prelude.{◌≡◌, ◌≢◌, Err, None, IfOk, IsOk, option_map};
ghost use Rattle.std.specs.List.{list_any};
ghost use Rattle.std.specs.String.{string_bytes};
ghost use Rattle.clap.specs.Words.{rows_of, found_of, first_of};
ghost use Rattle.tb_http.specs.Forms.{is_slash, number_of, base_of, context_of, event_of, strategy_of, attribute_of};
ghost use Rattle.tb_http.specs.Forms.{most_of, port_of, requests_of};
ghost use Rattle.tb_cli.specs.Fault.{ReadsAs};
ghost use Rattle.tb_cli.specs.Lines.{batch_of, formed, maybe};

use crate::lines::LineFault;
use clap::ArgMatches;
use std::alloc::{AllocError, Global};
use tb_core::Event;
use tb_match::Strategy;
use tb_syntax::Attr;

/// A copy of a text that may be missing.
pub fn copied(alloc: Global, text: Option<&str>) -> Result<Option<String>, AllocError>
    ensures value { IfOk result (λ r. option_map string_bytes r ≡ option_map (λ s. s.now) text.entry) }
    ensures sure { text.entry ≡ None → IsOk result }
{
    match text {
        Some(text) => Ok(Some(String::from_str(alloc, text)?)),
        None => Ok(None),
    }
}

/// A value that is required.
pub fn given<T: Drop>(found: Option<T>) -> Result<T, LineFault>
    ensures value { ReadsAs found (λ x. x) result }
    ensures memory { result ≢ Err LineFault.Memory }
{
    match found {
        Some(value) => Ok(value),
        None => Err(LineFault::Usage),
    }
}

/// A copy of a text that is required.
pub fn text_of(alloc: Global, text: Option<&str>) -> Result<String, LineFault>
    ensures value { ReadsAs (option_map (λ s. s.now) text.entry) string_bytes result }
    ensures memory { text.entry ≡ None → result ≢ Err LineFault.Memory }
{
    Ok(String::from_str(alloc, given(text)?)?)
}

/// The value of an argument.
pub fn value<'a>(matches: &ArgMatches<'a>, id: &str) -> Option<&'a str>
    ensures { option_map (λ s. s.now) result ≡ first_of id.now (rows_of (found_of matches.now)) }
{
    matches.get_str(id)
}

/// Whether a text has a slash.
fn has_slash(text: &[u8]) -> bool
    ensures { result ≡ list_any is_slash text.now }
{
    text.iter().any(|b| *b == b'/')
}

/// A text as the name of a batch: it has a byte and no slash.
fn batch(text: &str) -> Option<&str>
    ensures { option_map (λ s. s.now) result ≡ batch_of text.now }
{
    if has_slash(text.as_bytes()) || text.is_empty() {
        return None;
    }
    Some(text)
}

/// The value as the name of a batch.
pub fn batch_in<'a>(matches: &ArgMatches<'a>, id: &str) -> Option<&'a str>
    ensures { option_map (λ s. s.now) result ≡ formed batch_of (first_of id.now (rows_of (found_of matches.now))) }
{
    match value(matches, id) {
        Some(text) => batch(text),
        None => None,
    }
}

/// The value as the name of a batch; it may be missing.
pub fn batch_if_any<'a>(matches: &ArgMatches<'a>, id: &str) -> Option<Option<&'a str>>
    ensures { option_map (λ o. option_map (λ s. s.now) o) result
        ≡ maybe batch_of (first_of id.now (rows_of (found_of matches.now))) }
{
    match value(matches, id) {
        None => Some(None),
        Some(text) => match batch(text) {
            Some(name) => Some(Some(name)),
            None => None,
        },
    }
}

/// The value as a number; it may be missing.
pub fn number_if_any(matches: &ArgMatches<'_>, id: &str) -> Option<Option<u64>>
    ensures { result ≡ maybe number_of (first_of id.now (rows_of (found_of matches.now))) }
{
    match value(matches, id) {
        None => Some(None),
        Some(text) => match tb_http::number_of(text) {
            Some(n) => Some(Some(n)),
            None => None,
        },
    }
}

/// The value as the number of a sentence or a revision.
pub fn number_in(matches: &ArgMatches<'_>, id: &str) -> Option<u64>
    ensures { result ≡ formed number_of (first_of id.now (rows_of (found_of matches.now))) }
{
    match value(matches, id) {
        Some(text) => tb_http::number_of(text),
        None => None,
    }
}

/// The value as the number of a revision, or 0.
pub fn base_in(matches: &ArgMatches<'_>, id: &str) -> Option<u64>
    ensures { result ≡ formed base_of (first_of id.now (rows_of (found_of matches.now))) }
{
    match value(matches, id) {
        Some(text) => tb_http::base_of(text),
        None => None,
    }
}

/// The value as a number of words on each side.
pub fn context_in(matches: &ArgMatches<'_>, id: &str) -> Option<u8>
    ensures { result ≡ formed context_of (first_of id.now (rows_of (found_of matches.now))) }
{
    match value(matches, id) {
        Some(text) => tb_http::context_of(text),
        None => None,
    }
}

/// The value as a number of faults.
pub fn most_in(matches: &ArgMatches<'_>, id: &str) -> Option<u32>
    ensures { result ≡ formed most_of (first_of id.now (rows_of (found_of matches.now))) }
{
    match value(matches, id) {
        Some(text) => tb_http::most_of(text),
        None => None,
    }
}

/// The value as an event.
pub fn event_in(matches: &ArgMatches<'_>, id: &str) -> Option<Event>
    ensures { result ≡ formed event_of (first_of id.now (rows_of (found_of matches.now))) }
{
    match value(matches, id) {
        Some(text) => tb_http::event_of(text),
        None => None,
    }
}

/// The value as a strategy.
pub fn strategy_in(matches: &ArgMatches<'_>, id: &str) -> Option<Strategy>
    ensures { result ≡ formed strategy_of (first_of id.now (rows_of (found_of matches.now))) }
{
    match value(matches, id) {
        Some(text) => tb_http::strategy_of(text),
        None => None,
    }
}

/// The value as an attribute.
pub fn attribute_in(matches: &ArgMatches<'_>, id: &str) -> Option<Attr>
    ensures { result ≡ formed attribute_of (first_of id.now (rows_of (found_of matches.now))) }
{
    match value(matches, id) {
        Some(text) => tb_http::attribute_of(text),
        None => None,
    }
}

/// The value as a port.
pub fn port_in(matches: &ArgMatches<'_>, id: &str) -> Option<u16>
    ensures { result ≡ formed port_of (first_of id.now (rows_of (found_of matches.now))) }
{
    match value(matches, id) {
        Some(text) => tb_http::port_of(text),
        None => None,
    }
}

/// The value as a number of requests.
pub fn requests_in(matches: &ArgMatches<'_>, id: &str) -> Option<u64>
    ensures { result ≡ formed requests_of (first_of id.now (rows_of (found_of matches.now))) }
{
    match value(matches, id) {
        Some(text) => tb_http::requests_of(text),
        None => None,
    }
}
