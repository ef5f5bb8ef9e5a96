//! Lexemes, written as letters.

use std::alloc::Global;
use std::process::Abort;
use tb_syntax::{Attr, Lexeme};

/// The lexeme of a sign. Signs and digits represent themselves; letters represent what takes more than one sign, as
/// `T` for 32 and `U` for 33.
fn lexeme_of(sign: char, literals: u16) -> Lexeme {
    match sign {
        '(' => Lexeme::LeftParen,
        ')' => Lexeme::RightParen,
        '[' => Lexeme::LeftBracket,
        ']' => Lexeme::RightBracket,
        '{' => Lexeme::LeftBrace,
        '}' => Lexeme::RightBrace,
        ',' => Lexeme::Comma,
        '?' => Lexeme::Quest,
        '*' => Lexeme::Star,
        '+' => Lexeme::Plus,
        '|' => Lexeme::Bar,
        '&' => Lexeme::And,
        '!' => Lexeme::Not,
        '=' => Lexeme::Equals,
        '~' => Lexeme::Differs,
        ';' => Lexeme::Semicolon,
        '"' => Lexeme::Quote(literals),
        'c' => Lexeme::PercentC,
        'l' => Lexeme::PercentL,
        'w' => Lexeme::Name(Attr::Form),
        'm' => Lexeme::Name(Attr::Lemma),
        'u' => Lexeme::Name(Attr::Upos),
        'f' => Lexeme::Name(Attr::Feats),
        'C' => Lexeme::Contains,
        'W' => Lexeme::Within,
        'S' => Lexeme::Sentence,
        '0' => Lexeme::Number(0),
        '1' => Lexeme::Number(1),
        '2' => Lexeme::Number(2),
        '3' => Lexeme::Number(3),
        'T' => Lexeme::Number(32),
        'U' => Lexeme::Number(33),
        _ => Lexeme::Stray,
    }
}

/// The lexemes of a list of signs, whose literals are numbered.
pub(crate) fn lexemes(rt: &impl Abort, alloc: Global, signs: &str) -> Vec<Lexeme> {
    let mut list = Vec::new(alloc);
    let mut literals: u16 = 0;
    for sign in signs.chars() {
        list.push(lexeme_of(sign, literals)).expect(rt, "error");
        literals = literals.saturating_add(u16::from(sign == '"'));
    }
    list
}
