//! Decides which lists of lexemes are queries, and where a list that is none goes wrong.
//!
//! Without its round parentheses the language is regular. So one mode and two counters decide it, with no recursion and
//! no memory.

ghost use Rattle.std.specs.Prelude.{◌≡◌, ◌<◌, ◌≤◌, ◌+◌, ◌-◌, ◌^◌, length, take, IfOk};
ghost use Rattle.std.specs.Prelude.{IfErr, IfSome};
ghost use Rattle.tb_syntax.specs.Grammar.{IsQuery, IsBeginning};
ghost use Rattle.tb_syntax.specs.Machine.{step, step_outside, step_inside, is_inside, may_end_at};

use crate::lexeme::{Attr, Lexeme};

/// What may come next.
#[derive(Clone, Copy, PartialEq, Eq, Debug)]
pub enum Mode {
    /// An atom has to come.
    Wants,
    /// After a bare literal.
    Quoted,
    /// After an atom that takes no flag.
    Has,
    /// After a repeated atom.
    Repeated,
    /// The first number of a repetition has to come.
    Braced,
    /// After the first number of a repetition.
    Lowest,
    /// After the comma of a repetition.
    Ranged,
    /// After the second number of a repetition.
    Highest,
    /// After the bracket of a token expression.
    Opened,
    /// A unit of a test has to come.
    Asks,
    /// After the name of a column.
    Named,
    /// After the name `feats`.
    Featured,
    /// The literal of a unit has to come.
    Signed,
    /// After the literal of a unit.
    Tested,
    /// After a unit that takes no flag.
    Whole,
    /// The `s` has to come.
    Scoped,
    /// After the scope.
    Bounded,
    /// After the semicolon.
    Stopped,
}

/// A place in a query: what may come next, and how many round parentheses are open.
#[derive(Clone, Copy, PartialEq, Eq, Debug)]
pub struct Place {
    pub mode: Mode,
    /// How many are open outside the brackets.
    pub outer: u32,
    /// How many are open within the brackets.
    pub inner: u32,
}

/// The place after one more lexeme outside the brackets, if the lexeme is possible here.
fn step_outside(mode: Mode, outer: u32, lexeme: Lexeme) -> Option<Place>
    requires { outer < 2 ^ 32 - 1 }
    ensures value { result ≡ step_outside mode outer lexeme }
    ensures depth { IfSome result (λ next. (next.outer ≤ outer + 1) × (next.inner ≤ 0)) }
{
    let (mode, outer) = match (mode, lexeme) {
        (Mode::Wants | Mode::Quoted | Mode::Has | Mode::Repeated, Lexeme::Quote(_)) => (
            Mode::Quoted,
            outer,
        ),
        (Mode::Wants | Mode::Quoted | Mode::Has | Mode::Repeated, Lexeme::LeftBracket) => (
            Mode::Opened,
            outer,
        ),
        (Mode::Wants | Mode::Quoted | Mode::Has | Mode::Repeated, Lexeme::LeftParen) => (
            Mode::Wants,
            outer + 1,
        ),
        (Mode::Quoted | Mode::Has | Mode::Repeated, Lexeme::Bar) => (Mode::Wants, outer),
        (Mode::Quoted | Mode::Has | Mode::Repeated, Lexeme::RightParen) if outer > 0 => (
            Mode::Has,
            outer - 1,
        ),
        (Mode::Quoted | Mode::Has | Mode::Repeated, Lexeme::Within) if outer == 0 => (
            Mode::Scoped,
            0,
        ),
        (Mode::Quoted | Mode::Has | Mode::Repeated, Lexeme::Semicolon) if outer == 0 => (
            Mode::Stopped,
            0,
        ),
        (Mode::Quoted, Lexeme::PercentC | Lexeme::PercentL) => (Mode::Has, outer),
        (Mode::Quoted | Mode::Has, Lexeme::Quest | Lexeme::Star | Lexeme::Plus) => (
            Mode::Repeated,
            outer,
        ),
        (Mode::Quoted | Mode::Has, Lexeme::LeftBrace) => (Mode::Braced, outer),
        (Mode::Braced, Lexeme::Number(_)) => (Mode::Lowest, outer),
        (Mode::Lowest, Lexeme::Comma) => (Mode::Ranged, outer),
        (Mode::Ranged, Lexeme::Number(_)) => (Mode::Highest, outer),
        (Mode::Lowest | Mode::Ranged | Mode::Highest, Lexeme::RightBrace) => (
            Mode::Repeated,
            outer,
        ),
        (Mode::Scoped, Lexeme::Sentence) => (Mode::Bounded, 0),
        (Mode::Bounded, Lexeme::Semicolon) => (Mode::Stopped, 0),
        _ => return None,
    };
    Some(Place {
        mode,
        outer,
        inner: 0,
    })
}

/// The place after one more lexeme within the brackets, if the lexeme is possible here.
fn step_inside(mode: Mode, outer: u32, inner: u32, lexeme: Lexeme) -> Option<Place>
    requires { inner < 2 ^ 32 - 1 }
    ensures value { result ≡ step_inside mode outer inner lexeme }
    ensures depth { IfSome result (λ next. (next.outer ≤ outer) × (next.inner ≤ inner + 1)) }
{
    let (mode, inner) = match (mode, lexeme) {
        (Mode::Opened, Lexeme::RightBracket) => (Mode::Has, 0),
        (Mode::Opened | Mode::Asks, Lexeme::Not) => (Mode::Asks, inner),
        (Mode::Opened | Mode::Asks, Lexeme::LeftParen) => (Mode::Asks, inner + 1),
        (Mode::Opened | Mode::Asks, Lexeme::Name(Attr::Feats)) => (Mode::Featured, inner),
        (Mode::Opened | Mode::Asks, Lexeme::Name(_)) => (Mode::Named, inner),
        (Mode::Named | Mode::Featured, Lexeme::Equals | Lexeme::Differs) => (Mode::Signed, inner),
        (Mode::Featured, Lexeme::Contains) => (Mode::Signed, inner),
        (Mode::Signed, Lexeme::Quote(_)) => (Mode::Tested, inner),
        (Mode::Tested, Lexeme::PercentC | Lexeme::PercentL) => (Mode::Whole, inner),
        (Mode::Tested | Mode::Whole, Lexeme::And | Lexeme::Bar) => (Mode::Asks, inner),
        (Mode::Tested | Mode::Whole, Lexeme::RightParen) if inner > 0 => (Mode::Whole, inner - 1),
        (Mode::Tested | Mode::Whole, Lexeme::RightBracket) if inner == 0 => (Mode::Has, 0),
        _ => return None,
    };
    Some(Place { mode, outer, inner })
}

fn is_inside(mode: Mode) -> bool
    ensures { result ≡ is_inside mode }
{
    matches!(
        mode,
        Mode::Opened
            | Mode::Asks
            | Mode::Named
            | Mode::Featured
            | Mode::Signed
            | Mode::Tested
            | Mode::Whole
    )
}

/// The place after one more lexeme, if the lexeme is possible here.
pub fn step(place: Place, lexeme: Lexeme) -> Option<Place>
    requires outer { place.outer < 2 ^ 32 - 1 }
    requires inner { place.inner < 2 ^ 32 - 1 }
    ensures value { result ≡ step place lexeme }
    ensures outer { IfSome result (λ next. next.outer ≤ place.outer + 1) }
    ensures inner { IfSome result (λ next. next.inner ≤ place.inner + 1) }
{
    if is_inside(place.mode) {
        step_inside(place.mode, place.outer, place.inner, lexeme)
    } else {
        step_outside(place.mode, place.outer, lexeme)
    }
}

fn may_end(place: Place) -> bool
    ensures { result ≡ may_end_at place.mode place.outer }
{
    match place.mode {
        Mode::Quoted | Mode::Has | Mode::Repeated => place.outer == 0,
        Mode::Bounded | Mode::Stopped => true,
        _ => false,
    }
}

/// Whether the lexemes are a query.
///
/// # Errors
///
/// The number, from 0, of the first lexeme that follows those before it in no query; the number of all lexemes where
/// they only end too early.
pub fn scan(lexemes: &[Lexeme]) -> Result<(), usize>
    requires { length lexemes.now < 2 ^ 32 - 1 }
    ensures query { IfOk result (λ _. IsQuery lexemes.now) }
    ensures outside { IfErr result (λ _. IsQuery lexemes.now → ⊥) }
    ensures within { IfErr result (λ place. place ≤ length lexemes.now) }
    ensures begins { IfErr result (λ place. IsBeginning (take place lexemes.now)) }
    ensures stray { IfErr result (λ place. place < length lexemes.now → IsBeginning (take (place + 1) lexemes.now)
        → ⊥) }
{
    let mut place = Place {
        mode: Mode::Wants,
        outer: 0,
        inner: 0,
    };
    for (i, lexeme) in lexemes.iter().enumerate() {
        let Some(next) = step(place, *lexeme) else {
            return Err(i);
        };
        place = next;
    }
    if may_end(place) {
        Ok(())
    } else {
        Err(lexemes.len())
    }
}
