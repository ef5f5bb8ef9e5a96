//! The forms of values: segments of a target, numbers, and words.

ghost use Rattle.std.specs.Prelude.{◌≡◌, ◌≤◌, ◌&&◌, length, nat_lt, nat_le, bytes_eq, option_map};
ghost use Rattle.std.specs.Prelude.{IfSome};
ghost use Rattle.std.specs.List.{before_first, after_first, list_all};
ghost use Rattle.std.specs.Char.{is_ascii_digit};
ghost use Rattle.tb_http.specs.Forms.{is_slash, segment_of, is_number as is_number_text, name_of, number_of, base_of};
ghost use Rattle.tb_http.specs.Forms.{context_of, most_of, port_of, requests_of, event_of, strategy_of};
ghost use Rattle.tb_http.specs.Forms.{attribute_of};

use tb_core::Event;
use tb_match::Strategy;
use tb_syntax::Attr;

fn before_slash(text: &str) -> &str
    ensures { result.now ≡ before_first is_slash text.now }
{
    match text.split_once('/') {
        None => text,
        Some((before, _)) => before,
    }
}

fn after_slash(text: &str) -> &str
    ensures { result.now ≡ after_first is_slash text.now }
{
    match text.split_once('/') {
        None => "",
        Some((_, after)) => after,
    }
}

/// The text after n slashes and before the next.
pub fn segment(text: &str, n: usize) -> &str
    ensures { result.now ≡ segment_of n text.now }
{
    let mut rest = text;
    for i in 0..n {
        rest = after_slash(rest);
    }
    before_slash(rest)
}

/// Whether each byte is a digit.
pub fn all_digits(text: &[u8]) -> bool
    ensures { result ≡ list_all is_ascii_digit text.now }
{
    text.iter().all(|b| b.is_ascii_digit())
}

/// 1 to 10 digits, the first of them 1 to 9.
fn is_number(text: &[u8]) -> bool
    ensures { result ≡ is_number_text text.now }
{
    if text.is_empty() || text.len() > 10 {
        return false;
    }
    if text[0] <= b'0' {
        return false;
    }
    all_digits(text)
}

/// Whether the text is this word.
fn is_word(text: &str, word: &str) -> bool
    ensures { result ≡ bytes_eq text.now word.now }
{
    text == word
}

/// A name: any text but the empty one.
pub fn name_of(text: &str) -> Option<&str>
    ensures { option_map (λ s. s.now) result ≡ name_of text.now }
{
    if text.is_empty() { None } else { Some(text) }
}

/// The number of a sentence or a revision: 1 to 10 digits, the first of them 1 to 9.
pub fn number_of(text: &str) -> Option<u64>
    ensures { result ≡ number_of text.now }
{
    if !is_number(text.as_bytes()) {
        return None;
    }
    requests_of(text)
}

/// A number as of a sentence, or 0.
pub fn base_of(text: &str) -> Option<u64>
    ensures { result ≡ base_of text.now }
{
    if is_word(text, "0") {
        return Some(0);
    }
    number_of(text)
}

/// The number, if it is no more than a limit of its type.
macro_rules! at_most {
    ($number:expr, $limit:literal, $type:ty) => {
        match $number {
            Some(number) if number <= $limit => Some(number as $type),
            _ => None,
        }
    };
}

/// How many words of context to show on each side of a match: 0 to 20, without leading zeros.
pub fn context_of(text: &str) -> Option<u8>
    ensures value { result ≡ context_of text.now }
    ensures small { IfSome result (λ n. n ≤ 20) }
{
    at_most!(base_of(text), 20, u8)
}

/// How many faults to list at most: 1 to 1,000,000, without leading zeros.
pub fn most_of(text: &str) -> Option<u32>
    ensures { result ≡ most_of text.now }
{
    at_most!(number_of(text), 1_000_000, u32)
}

/// A port: 0 to 65535, without leading zeros.
pub fn port_of(text: &str) -> Option<u16>
    ensures { result ≡ port_of text.now }
{
    at_most!(base_of(text), 65_535, u16)
}

/// 1 to 10 digits.
fn is_short_numeral(text: &[u8]) -> bool
    ensures { result ≡ nat_lt 0 (length text.now) &&
        (nat_le (length text.now) 10 && list_all is_ascii_digit text.now) }
{
    if text.is_empty() || text.len() > 10 {
        return false;
    }
    all_digits(text)
}

/// A number of requests: 1 to 10 digits.
pub fn requests_of(text: &str) -> Option<u64>
    ensures { result ≡ requests_of text.now }
{
    if !is_short_numeral(text.as_bytes()) {
        return None;
    }
    text.parse::<u64>().ok()
}

/// The value beside the word that the text is, if there is one.
macro_rules! by_word {
    ($text:ident: $($word:expr => $value:expr,)+) => {{
        $(if is_word($text, $word) {
            return Some($value);
        })+
        None
    }};
}

/// The event with this word.
pub fn event_of(text: &str) -> Option<Event>
    ensures { result ≡ event_of text.now }
{
    by_word!(text:
        Event::Assign.word() => Event::Assign,
        Event::Unassign.word() => Event::Unassign,
        Event::Submit.word() => Event::Submit,
        Event::SendBack.word() => Event::SendBack,
        Event::Adjudicate.word() => Event::Adjudicate,
        Event::Release.word() => Event::Release,
        Event::Withdraw.word() => Event::Withdraw,
        Event::Reopen.word() => Event::Reopen,
    )
}

/// The strategy with this word.
pub fn strategy_of(text: &str) -> Option<Strategy>
    ensures { result ≡ strategy_of text.now }
{
    by_word!(text:
        "shortest" => Strategy::Shortest,
        "longest" => Strategy::Longest,
        "every" => Strategy::Every,
    )
}

/// The attribute with this name, as queries write it.
pub fn attribute_of(text: &str) -> Option<Attr>
    ensures { result ≡ attribute_of text.now }
{
    tb_syntax::column(text.as_bytes())
}
