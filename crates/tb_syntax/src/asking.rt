//! Parses the tests between brackets.

ghost use Rattle.std.specs.Prelude.{◌≡◌, ◌≢◌, ◌∷◌, ◌≤◌, ◌-◌, List, length, map, IfOk, IsOk};
ghost use Rattle.tb_syntax.specs.declared.expr.Literal.{Literal};
ghost use Rattle.tb_syntax.specs.declared.lexeme.Attr.{Attr};
ghost use Rattle.tb_syntax.specs.declared.lexeme.Lexeme.{Lexeme};
ghost use Rattle.tb_syntax.specs.Exprs.{test};
ghost use Rattle.tb_syntax.specs.Parsing.{head, ReadsUnit, ReadsUnits, ReadsConj, ReadsConjs, ReadsTest};
ghost use Rattle.tb_syntax.specs.Tests.{Test, denied_times};

use crate::cursor::{head, literal_at, tail};
use crate::expr::{Expr, Literal, any, both_of, denied, either_of, item, whole};
use crate::lexeme::{Attr, Lexeme};
use std::alloc::{AllocError, Global};

/// The comparison after the name of a column, which is read already.
fn comparison_at(
    alloc: Global,
    attr: Attr,
    lexemes: &[Lexeme],
) -> Result<(Expr<Literal>, &[Lexeme]), AllocError>
    ensures exact { IfOk result (λ x. ReadsUnit (Lexeme.Name attr ∷ lexemes.now) (test x.0) x.1.now) }
    ensures shorter { IfOk result (λ x. length x.1.now ≤ length lexemes.now) }
    ensures sure { head lexemes.now ≢ Lexeme.Differs → IsOk result }
{
    let (literal, rest) = literal_at(tail(lexemes));
    match head(lexemes) {
        Lexeme::Contains => Ok((item(literal), rest)),
        Lexeme::Differs => Ok((denied(alloc, 1, whole(attr, literal))?, rest)),
        _ => Ok((whole(attr, literal), rest)),
    }
}

/// The number of `!` at the beginning, and the lexemes after them.
fn denials_at(lexemes: &[Lexeme]) -> (usize, &[Lexeme])
    ensures exact { (t : Test Literal) (end : List Lexeme) → ReadsUnit result.1.now t end
        → ReadsUnit lexemes.now (denied_times result.0 t) end }
    ensures all { head result.1.now ≡ Lexeme.Not → ⊥ }
    ensures shorter { length result.1.now ≤ length lexemes.now }
{
    let mut times = 0;
    let mut rest = lexemes;
    while head(rest) == Lexeme::Not {
        rest = tail(rest);
        times += 1;
    }
    (times, rest)
}

/// The unit of a test, without a `!` before it.
#[cycle(asking)]
fn plain_unit_at(
    alloc: Global,
    lexemes: &[Lexeme],
) -> Result<(Expr<Literal>, &[Lexeme]), AllocError>
    ensures exact { (head lexemes.now ≡ Lexeme.Not → ⊥)
        → IfOk result (λ x. ReadsUnit lexemes.now (test x.0) x.1.now) }
    ensures shorter { IfOk result (λ x. length x.1.now ≤ length lexemes.now - 1) }
    ensures sure { head lexemes.now ≢ Lexeme.LeftParen → ((attr : Attr) → head lexemes.now ≢ Lexeme.Name attr)
        → IsOk result }
{
    let rest = tail(lexemes);
    match head(lexemes) {
        Lexeme::LeftParen => {
            let (expr, rest) = test_at(alloc, rest)?;
            Ok((expr, tail(rest)))
        }
        Lexeme::Name(attr) => comparison_at(alloc, attr, rest),
        _ => Ok((any(), rest)),
    }
}

/// The unit of a test.
#[cycle(asking)]
fn unit_at(alloc: Global, lexemes: &[Lexeme]) -> Result<(Expr<Literal>, &[Lexeme]), AllocError>
    ensures exact { IfOk result (λ x. ReadsUnit lexemes.now (test x.0) x.1.now) }
    ensures shorter { IfOk result (λ x. length x.1.now ≤ length lexemes.now - 1) }
{
    let (times, denied_part) = denials_at(lexemes);
    let (expr, rest) = plain_unit_at(alloc, denied_part)?;
    Ok((denied(alloc, times, expr)?, rest))
}

/// Appends the units of a conjunction to the parts.
#[cycle(asking)]
fn units_at<'s>(
    alloc: Global,
    lexemes: &'s [Lexeme],
    parts: &mut Vec<Expr<Literal>>,
) -> Result<&'s [Lexeme], AllocError>
    ensures exact { IfOk result (λ rest. ReadsUnits lexemes.now (map test parts.old.items)
        (map test parts.new.items) rest.now) }
    ensures shorter { IfOk result (λ rest. length rest.now ≤ length lexemes.now - 1) }
{
    let (unit, rest) = unit_at(alloc, lexemes)?;
    parts.push(unit)?;
    match head(rest) {
        Lexeme::And => units_at(alloc, tail(rest), parts),
        _ => Ok(rest),
    }
}

/// The conjunction.
#[cycle(asking)]
fn conj_at(alloc: Global, lexemes: &[Lexeme]) -> Result<(Expr<Literal>, &[Lexeme]), AllocError>
    ensures exact { IfOk result (λ x. ReadsConj lexemes.now (test x.0) x.1.now) }
    ensures shorter { IfOk result (λ x. length x.1.now ≤ length lexemes.now - 1) }
{
    let mut parts = Vec::new(alloc);
    let rest = units_at(alloc, lexemes, &mut parts)?;
    Ok((both_of(parts), rest))
}

/// Appends the conjunctions of a disjunction to the parts.
#[cycle(asking)]
fn conjs_at<'s>(
    alloc: Global,
    lexemes: &'s [Lexeme],
    parts: &mut Vec<Expr<Literal>>,
) -> Result<&'s [Lexeme], AllocError>
    ensures exact { IfOk result (λ rest. ReadsConjs lexemes.now (map test parts.old.items)
        (map test parts.new.items) rest.now) }
    ensures shorter { IfOk result (λ rest. length rest.now ≤ length lexemes.now - 1) }
{
    let (conj, rest) = conj_at(alloc, lexemes)?;
    parts.push(conj)?;
    match head(rest) {
        Lexeme::Bar => conjs_at(alloc, tail(rest), parts),
        _ => Ok(rest),
    }
}

/// The test.
#[cycle(asking)]
pub(crate) fn test_at(
    alloc: Global,
    lexemes: &[Lexeme],
) -> Result<(Expr<Literal>, &[Lexeme]), AllocError>
    ensures exact { IfOk result (λ x. ReadsTest lexemes.now (test x.0) x.1.now) }
    ensures shorter { IfOk result (λ x. length x.1.now ≤ length lexemes.now - 1) }
{
    let mut parts = Vec::new(alloc);
    let rest = conjs_at(alloc, lexemes, &mut parts)?;
    Ok((either_of(parts), rest))
}
