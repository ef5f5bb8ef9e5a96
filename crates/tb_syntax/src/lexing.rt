//! Splits the text of a query into lexemes.

ghost use Rattle.std.specs.Prelude.{◌≡◌, ◌∷◌, ◌++◌, ◌<◌, ◌≤◌, ◌+◌, ◌-◌, ◌^◌, [], length};
ghost use Rattle.tb_syntax.specs.Lexing.{is_white, literals_after, Lexes};

use crate::lexeme::Lexeme;
use crate::spelling::lexeme_at;
use arrayvec::ArrayVec;

/// The most bytes of a query, and so the most lexemes.
pub(crate) const LONGEST: usize = 2000;

/// The bytes of a lexeme in a text.
#[derive(Clone, Copy, PartialEq, Eq, Debug, Default)]
pub struct Span {
    /// The place of its first byte, counted from 0.
    pub start: usize,
    /// The place after its last byte.
    pub end: usize,
}

/// The lexemes of a text, and their places in it.
///
/// They lie in the value itself, some 40 KiB, so that to find them takes no memory.
#[derive(Debug, Drop)]
pub struct Lexed {
    pub lexemes: ArrayVec<Lexeme, LONGEST>,
    /// One for each lexeme, in the same order.
    pub spans: ArrayVec<Span, LONGEST>,
}

impl Lexed {
    fn new() -> Lexed
        ensures lexemes { result.lexemes.items ≡ [] }
        ensures spans { result.spans.items ≡ [] }
    {
        Lexed {
            lexemes: ArrayVec::new(),
            spans: ArrayVec::new(),
        }
    }

    fn push(&mut self, lexeme: Lexeme, span: Span)
        requires lexemes { length self.old.lexemes.items < 2000 }
        requires spans { length self.old.spans.items < 2000 }
        ensures lexemes { self.new.lexemes.items ≡ self.old.lexemes.items ++ lexeme ∷ [] }
        ensures spans { self.new.spans.items ≡ self.old.spans.items ++ span ∷ [] }
    {
        self.lexemes.push(lexeme);
        self.spans.push(span);
    }
}

/// Whether the byte separates lexemes: space, tab, LF or CR.
fn is_white(byte: u8) -> bool
    ensures { result ≡ is_white byte }
{
    matches!(byte, b' ' | b'\t' | b'\n' | b'\r')
}

/// The number of literals up to a lexeme.
fn literals_after(literals: u16, lexeme: Lexeme) -> u16
    requires { literals < 2 ^ 16 - 1 }
    ensures value { result ≡ literals_after literals lexeme }
    ensures bound { result ≤ literals + 1 }
{
    match lexeme {
        Lexeme::Quote(_) => literals + 1,
        _ => literals,
    }
}

/// The lexemes of the text, up to the first place with no lexeme, for which a stray lexeme is the last.
pub(crate) fn lex(text: &[u8]) -> Lexed
    requires { length text.now ≤ 2000 }
    ensures { Lexes 0 0 text.now result.lexemes.items result.spans.items }
{
    let mut lexed = Lexed::new();
    let mut at = 0;
    let mut literals = 0;
    while at < text.len() {
        if is_white(text[at]) {
            at += 1;
            continue;
        }
        let Some(found) = lexeme_at(&text[at..], literals) else {
            lexed.push(Lexeme::Stray, Span { start: at, end: at });
            return lexed;
        };
        let end = at + found.length;
        lexed.push(found.lexeme, Span { start: at, end });
        literals = literals_after(literals, found.lexeme);
        at = end;
    }
    lexed
}
