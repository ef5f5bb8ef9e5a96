//! Recognizes each lexeme by its spelling.

ghost use Rattle.std.specs.Prelude.{◌≡◌, ◌∷◌, ◌<◌, ◌≤◌, ◌+◌, ◌-◌, ◌^◌};
ghost use Rattle.std.specs.Prelude.{length, min, drop, option_map, MatchOption, IfSome, false};
ghost use Rattle.std.specs.Char.{is_ascii_alphabetic, is_ascii_digit};
ghost use Rattle.std.specs.List.{prefix_len};
ghost use Rattle.tb_syntax.specs.First.{after_literal, cut, first_mark, first_lexeme, found};
ghost use Rattle.tb_syntax.specs.Spelling.{column, word, number, decimal_from, double_mark, single_mark, is_quote};
ghost use Rattle.tb_syntax.specs.Spelling.{Starts, IsStray};

use crate::lexeme::{Attr, Lexeme};

/// The value beside the first name that the letters spell, else the last one.
macro_rules! spelled {
    ($letters:ident, $($name:literal: $value:expr,)+ else $other:expr) => {{
        $(if $letters == $name.as_slice() {
            return Some($value);
        })+
        $other
    }};
}

/// The column that letters name.
pub fn column(letters: &[u8]) -> Option<Attr>
    ensures { result ≡ column letters.now }
{
    spelled!(
        letters,
        b"word": Attr::Form, b"lemma": Attr::Lemma, b"upos": Attr::Upos, b"xpos": Attr::Xpos,
        b"feats": Attr::Feats, b"deprel": Attr::Deprel,
        else None
    )
}

/// The word that letters spell.
fn word(letters: &[u8]) -> Option<Lexeme>
    ensures { result ≡ word letters.now }
{
    spelled!(
        letters,
        b"contains": Lexeme::Contains, b"within": Lexeme::Within, b"s": Lexeme::Sentence,
        else match column(letters) { Some(attr) => Some(Lexeme::Name(attr)), None => None }
    )
}

/// The number that digits write, if it has no leading zero.
fn number(digits: &[u8]) -> Option<Lexeme>
    ensures { result ≡ number digits.now }
{
    let first = *digits.first()?;
    if first == b'0' && digits.len() > 1 {
        return None;
    }
    Some(Lexeme::Number(saturated(digits)))
}

/// The number that digits write, or 255 where it is greater.
fn saturated(digits: &[u8]) -> u8
    ensures { result ≡ min 255 (decimal_from 0 digits.now) }
{
    let mut value: u8 = 0;
    for digit in digits {
        value = value
            .saturating_mul(10)
            .saturating_add(digit.saturating_sub(b'0'));
    }
    value
}

/// The lexeme of two marks.
fn double_mark(first: u8, second: u8) -> Option<Lexeme>
    ensures { result ≡ double_mark first second }
{
    match (first, second) {
        (b'%', b'c') => Some(Lexeme::PercentC),
        (b'%', b'l') => Some(Lexeme::PercentL),
        (b'!', b'=') => Some(Lexeme::Differs),
        _ => None,
    }
}

/// The lexeme of one mark.
fn single_mark(mark: u8) -> Option<Lexeme>
    ensures { result ≡ single_mark mark }
{
    match mark {
        b'(' => Some(Lexeme::LeftParen),
        b')' => Some(Lexeme::RightParen),
        b'[' => Some(Lexeme::LeftBracket),
        b']' => Some(Lexeme::RightBracket),
        b'{' => Some(Lexeme::LeftBrace),
        b'}' => Some(Lexeme::RightBrace),
        b',' => Some(Lexeme::Comma),
        b'?' => Some(Lexeme::Quest),
        b'*' => Some(Lexeme::Star),
        b'+' => Some(Lexeme::Plus),
        b'|' => Some(Lexeme::Bar),
        b'&' => Some(Lexeme::And),
        b'!' => Some(Lexeme::Not),
        b'=' => Some(Lexeme::Equals),
        b';' => Some(Lexeme::Semicolon),
        _ => None,
    }
}

/// Whether the byte begins and ends literals.
fn is_quote(byte: u8) -> bool
    ensures { result ≡ is_quote byte }
{
    matches!(byte, b'"' | b'\'')
}

/// The length of the run of bytes of a kind with which the text begins.
macro_rules! run_length {
    ($text:ident, $is_of_kind:ident) => {{
        for (i, byte) in $text.iter().enumerate() {
            if !byte.$is_of_kind() {
                return i;
            }
        }
        $text.len()
    }};
}

/// The length of the run of letters with which the text begins.
fn letters(text: &[u8]) -> usize
    ensures length { result ≡ prefix_len is_ascii_alphabetic text.now }
    ensures bound { result ≤ length text.now }
{
    run_length!(text, is_ascii_alphabetic)
}

/// The length of the run of digits with which the text begins.
fn digits(text: &[u8]) -> usize
    ensures length { result ≡ prefix_len is_ascii_digit text.now }
    ensures bound { result ≤ length text.now }
{
    run_length!(text, is_ascii_digit)
}

/// How many bytes a literal has after its opening quote, with the closing one, if there is one. A quote of the same
/// kind that is written twice does not close the literal.
fn literal_length(quote: u8, text: &[u8]) -> Option<usize>
    ensures rest { option_map (λ n. drop n text.now) result ≡ after_literal quote false text.now }
    ensures bound { IfSome result (λ n. n ≤ length text.now) }
{
    let mut shut = false;
    for (i, byte) in text.iter().enumerate() {
        let again = quote == *byte;
        if shut && !again {
            return Some(i);
        }
        shut = again && !shut;
    }
    if shut { Some(text.len()) } else { None }
}

/// A lexeme at the beginning of a text.
#[derive(Clone, Copy, PartialEq, Eq, Debug)]
pub struct Found {
    pub lexeme: Lexeme,
    /// How many bytes it has.
    pub length: usize,
}

/// The lexeme that so many bytes are, if they are one.
fn found_of(lexeme: Option<Lexeme>, length: usize) -> Option<Found>
    ensures { result ≡ option_map (λ l. record { lexeme = l; length = length }) lexeme }
{
    let lexeme = lexeme?;
    Some(Found { lexeme, length })
}

/// The word at the beginning of the text.
fn word_at(text: &[u8]) -> Option<Found>
    ensures value { found text.now result ≡ cut word (prefix_len is_ascii_alphabetic text.now) text.now }
    ensures bound { IfSome result (λ f. f.length ≤ length text.now) }
{
    let length = letters(text);
    found_of(word(&text[..length]), length)
}

/// The number at the beginning of the text.
fn number_at(text: &[u8]) -> Option<Found>
    ensures value { found text.now result ≡ cut number (prefix_len is_ascii_digit text.now) text.now }
    ensures bound { IfSome result (λ f. f.length ≤ length text.now) }
{
    let length = digits(text);
    found_of(number(&text[..length]), length)
}

/// The lexeme of one or two marks at the beginning of the text.
fn mark_at(first: u8, rest: &[u8]) -> Option<Found>
    ensures value { found (first ∷ rest.now) result ≡ first_mark first rest.now }
    ensures bound { IfSome result (λ f. f.length ≤ length rest.now + 1) }
{
    if let Some(second) = rest.first() {
        if let Some(lexeme) = double_mark(first, *second) {
            return Some(Found { lexeme, length: 2 });
        }
    }
    let lexeme = single_mark(first)?;
    Some(Found { lexeme, length: 1 })
}

/// The literal at the beginning of the text, whose opening quote is read already.
fn literal_at(quote: u8, rest: &[u8], literals: u16) -> Option<Found>
    requires { length rest.now < 2 ^ 64 - 1 }
    ensures value { found (quote ∷ rest.now) result ≡ option_map (λ left. (Lexeme.Quote literals, left))
        (after_literal quote false rest.now) }
    ensures bound { IfSome result (λ f. f.length ≤ length rest.now + 1) }
{
    let length = literal_length(quote, rest)?;
    Some(Found {
        lexeme: Lexeme::Quote(literals),
        length: length + 1,
    })
}

/// The lexeme at the beginning of the text, recognized by its first byte.
fn first_lexeme(text: &[u8], literals: u16) -> Option<Found>
    ensures value { found text.now result ≡ first_lexeme literals text.now }
    ensures bound { IfSome result (λ f. f.length ≤ length text.now) }
{
    let (first, rest) = text.split_first()?;
    if first.is_ascii_alphabetic() {
        return word_at(text);
    }
    if first.is_ascii_digit() {
        return number_at(text);
    }
    if is_quote(*first) {
        return literal_at(*first, rest, literals);
    }
    mark_at(*first, rest)
}

/// The lexeme at the beginning of the text, if there is one. `literals` is the number of literals before it.
pub(crate) fn lexeme_at(text: &[u8], literals: u16) -> Option<Found>
    ensures lexeme { MatchOption result (IsStray literals text.now) (λ f.
        Starts literals text.now f.lexeme (drop f.length text.now)) }
    ensures length { IfSome result (λ f. (1 ≤ f.length) × (f.length ≤ length text.now)) }
{
    first_lexeme(text, literals)
}
