//! Reads lexemes one after another.
//!
//! The lexemes have passed the scan, so they are a query. For other lexemes the answers have no meaning, and no lexeme
//! is left after them.

ghost use Rattle.std.specs.Prelude.{◌≡◌, ◌≤◌, ◌-◌, length};
ghost use Rattle.tb_syntax.specs.Parsing.{head, tail, ReadsFlag, ReadsLiteral};

use crate::expr::Literal;
use crate::lexeme::{Flag, Lexeme};

/// The first lexeme, or a stray one where none is left.
pub(crate) fn head(lexemes: &[Lexeme]) -> Lexeme
    ensures { result ≡ head lexemes.now }
{
    match lexemes.first() {
        Some(lexeme) => *lexeme,
        None => Lexeme::Stray,
    }
}

/// The lexemes after the first one.
pub(crate) fn tail(lexemes: &[Lexeme]) -> &[Lexeme]
    ensures rest { result.now ≡ tail lexemes.now }
    ensures shorter { length result.now ≤ length lexemes.now - 1 }
{
    match lexemes.split_first() {
        Some((_, rest)) => rest,
        None => lexemes,
    }
}

/// The flag at the beginning, if there is one.
fn flag_at(lexemes: &[Lexeme]) -> (Flag, &[Lexeme])
    ensures exact { ReadsFlag lexemes.now result.0 result.1.now }
    ensures shorter { length result.1.now ≤ length lexemes.now }
{
    match head(lexemes) {
        Lexeme::PercentC => (Flag::NoCase, tail(lexemes)),
        Lexeme::PercentL => (Flag::Literal, tail(lexemes)),
        _ => (Flag::Plain, lexemes),
    }
}

/// The literal at the beginning, with its flag.
pub(crate) fn literal_at(lexemes: &[Lexeme]) -> (Literal, &[Lexeme])
    ensures exact { ReadsLiteral lexemes.now result.0 result.1.now }
    ensures shorter { length result.1.now ≤ length lexemes.now - 1 }
{
    let (flag, rest) = flag_at(tail(lexemes));
    match head(lexemes) {
        Lexeme::Quote(number) => (Literal { number, flag }, rest),
        _ => (Literal { number: 0, flag }, rest),
    }
}
