//! Tests the limits of a query on its lexemes.

ghost use Rattle.std.specs.Prelude.{◌≡◌, ◌<◌, ◌≤◌, ◌+◌, ◌-◌, ◌^◌, length, IfSome};
ghost use Rattle.tb_syntax.specs.Grammar.{Query, query_text};
ghost use Rattle.tb_syntax.specs.Limits.{begins_expression, bounds_after, inside_after, query_count, query_nests};
ghost use Rattle.tb_syntax.specs.Limits.{query_repeats, room_after};

use crate::lexeme::Lexeme;

/// How many more parentheses may be opened after a lexeme, or none if the lexeme opens one too many.
fn room_after(room: usize, lexeme: Lexeme) -> Option<usize>
    requires { room < 2 ^ 64 - 1 }
    ensures value { result ≡ room_after room lexeme }
    ensures bound { IfSome result (λ next. next ≤ room + 1) }
{
    match lexeme {
        Lexeme::LeftParen if room == 0 => None,
        Lexeme::LeftParen => Some(room - 1),
        Lexeme::RightParen => Some(room + 1),
        _ => Some(room),
    }
}

/// Whether a query has at most `most` open round parentheses at each place. Those outside the brackets and those in its
/// tests count together.
pub fn nests_within(lexemes: &[Lexeme], most: usize) -> bool
    requires few { most < 2 ^ 32 }
    requires short { length lexemes.now < 2 ^ 32 }
    ensures { (q : Query) → query_text q ≡ lexemes.now → result ≡ query_nests most q }
{
    let mut room = most;
    for (i, lexeme) in lexemes.iter().enumerate() {
        let Some(next) = room_after(room, *lexeme) else {
            return false;
        };
        room = next;
    }
    true
}

/// Whether a lexeme begins a token expression: a bracket does, and a literal outside the brackets.
fn begins_expression(inside: bool, lexeme: Lexeme) -> bool
    ensures { result ≡ begins_expression inside lexeme }
{
    match lexeme {
        Lexeme::LeftBracket => true,
        Lexeme::Quote(_) => !inside,
        _ => false,
    }
}

/// Whether the lexeme after this one is within the brackets.
fn inside_after(inside: bool, lexeme: Lexeme) -> bool
    ensures { result ≡ inside_after inside lexeme }
{
    match lexeme {
        Lexeme::LeftBracket => true,
        Lexeme::RightBracket => false,
        _ => inside,
    }
}

/// The number of token expressions of a query: its brackets, and the literals outside them.
pub fn count_expressions(lexemes: &[Lexeme]) -> usize
    ensures count { (q : Query) → query_text q ≡ lexemes.now → result ≡ query_count q }
    ensures bound { result ≤ length lexemes.now }
{
    let mut inside = false;
    let mut count = 0;
    for (i, lexeme) in lexemes.iter().enumerate() {
        if begins_expression(inside, *lexeme) {
            count += 1;
        }
        inside = inside_after(inside, *lexeme);
    }
    count
}

/// What of a repetition was read before a lexeme.
#[derive(Clone, Copy, PartialEq, Eq, Debug)]
pub enum Bounds {
    /// No number that still has to be compared.
    Apart,
    /// The lower number alone.
    Least(u8),
    /// The lower number and the comma.
    Ranged(u8),
}

/// What was read before the next lexeme, if the numbers so far are within the limits.
fn bounds_after(bounds: Bounds, lexeme: Lexeme, most: u8) -> Option<Bounds>
    ensures { result ≡ bounds_after most bounds lexeme }
{
    match (bounds, lexeme) {
        (Bounds::Apart, Lexeme::Number(least)) => {
            if least <= most {
                Some(Bounds::Least(least))
            } else {
                None
            }
        }
        (Bounds::Least(least), Lexeme::RightBrace) => {
            if 1 <= least {
                Some(Bounds::Apart)
            } else {
                None
            }
        }
        (Bounds::Least(least), Lexeme::Comma) => Some(Bounds::Ranged(least)),
        (Bounds::Ranged(_), Lexeme::RightBrace) => Some(Bounds::Apart),
        (Bounds::Ranged(least), Lexeme::Number(greatest)) => {
            if least <= greatest && 1 <= greatest && greatest <= most {
                Some(Bounds::Apart)
            } else {
                None
            }
        }
        _ => Some(bounds),
    }
}

/// Whether all repetitions of a query are within the limits. Each number is at most `most`, and each upper number is at
/// least 1 and not below the lower one. `{n}` means n to n.
pub fn repeats_within(lexemes: &[Lexeme], most: u8) -> bool
    ensures { (q : Query) → query_text q ≡ lexemes.now → result ≡ query_repeats most q }
{
    let mut bounds = Bounds::Apart;
    for (i, lexeme) in lexemes.iter().enumerate() {
        let Some(next) = bounds_after(bounds, *lexeme, most) else {
            return false;
        };
        bounds = next;
    }
    true
}
