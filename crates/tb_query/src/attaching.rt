//! Turns token expressions that name their literals by number into those with matchers.

ghost use Rattle.std.specs.Prelude.{◌≡◌, ◌≤◌, ◌+◌, ◌/◌, ◌∷◌, [], length, map, max, string_bytes, IfOk, IfErr, IsOk};
ghost use Rattle.tb_literal.specs.Literals.{IsAccepted};
ghost use Rattle.tb_syntax.specs.declared.expr.Expr.TheVariants.{Any};
ghost use Rattle.tb_syntax.specs.Exprs.{test};
ghost use Rattle.tb_syntax.specs.Tests.{every, whole, feature, denied_times, both, either, tests, literals};
ghost use Rattle.tb_syntax.specs.Tests.{literals_of};
ghost use Rattle.tb_query.specs.Refusing.{IsRefusalAmong, fault_of_literal};
ghost use Rattle.tb_query.specs.Reading.{text_of, with_text, with_texts, AreAccepted};

use crate::fault::QueryFault;
use std::alloc::{AllocError, Global};
use tb_literal::{LiteralMatcher, PatternFault};
use tb_syntax::{Attr, Expr, Literal};

/// How many bytes the compiled patterns of a query may take together.
const ALL_PATTERNS: usize = 16 << 20;

/// How many bytes one compiled pattern may take, in a query with this number of literals.
fn pattern_bytes(literals: usize) -> usize
    ensures { result ≡ 16777216 / max literals 2 }
{
    ALL_PATTERNS / literals.max(2)
}

/// The text of the literal.
fn text_of(alloc: Global, texts: &[String], literal: Literal) -> Result<String, AllocError>
    ensures value { IfOk result (λ s. string_bytes s ≡ text_of (map string_bytes texts.now) literal.number) }
    ensures sure { length texts.now ≤ literal.number → IsOk result }
{
    match texts.get(usize::from(literal.number)) {
        Some(text) => text.clone(),
        None => Ok(String::new(alloc)),
    }
}

/// The fault of a query for a literal that is refused.
fn fault_of(literal: Literal, fault: PatternFault) -> QueryFault
    ensures { result ≡ fault_of_literal literal fault }
{
    match fault {
        PatternFault::Syntax => QueryFault::Pattern(u64::from(literal.number) + 1),
        PatternFault::Memory => QueryFault::Memory,
    }
}

/// The matcher of the literal. Out of line, so that what it builds takes no stack at each level.
#[inline(never)]
fn needle_of(
    alloc: Global,
    texts: &[String],
    literal: Literal,
) -> Result<LiteralMatcher, QueryFault>
    ensures value { IfOk result (λ n. n ≡ with_text (map string_bytes texts.now) literal) }
    ensures accepted { IfOk result (λ n. IsAccepted n.flag n.text) }
    ensures refused { IfErr result (λ e. IsRefusalAmong (map string_bytes texts.now) (literal ∷ []) e) }
{
    let text = text_of(alloc, texts, literal)?;
    match LiteralMatcher::new(alloc, text, literal.flag, pattern_bytes(texts.len())) {
        Ok(needle) => Ok(needle),
        Err(fault) => Err(fault_of(literal, fault)),
    }
}

/// Any word.
fn any() -> Expr<LiteralMatcher>
    ensures { test result ≡ every }
{
    Expr::Any
}

/// The whole value of a column.
fn whole(attr: Attr, needle: LiteralMatcher) -> Expr<LiteralMatcher>
    ensures { test result ≡ whole attr needle }
{
    Expr::Whole(attr, needle)
}

/// Some item of the features.
fn item(needle: LiteralMatcher) -> Expr<LiteralMatcher>
    ensures { test result ≡ feature needle }
{
    Expr::Item(needle)
}

/// The expression, negated this many times.
fn denied(
    alloc: Global,
    times: usize,
    expr: Expr<LiteralMatcher>,
) -> Result<Expr<LiteralMatcher>, AllocError>
    ensures { IfOk result (λ e. test e ≡ denied_times times (test expr)) }
{
    Ok(Expr::Denied(times, Box::new(alloc, expr)?))
}

/// Each of the expressions.
fn both(exprs: Vec<Expr<LiteralMatcher>>) -> Expr<LiteralMatcher>
    ensures { test result ≡ both (tests (map test exprs.items)) }
{
    Expr::Both(exprs)
}

/// Some of the expressions.
fn either(exprs: Vec<Expr<LiteralMatcher>>) -> Expr<LiteralMatcher>
    ensures { test result ≡ either (tests (map test exprs.items)) }
{
    Expr::Either(exprs)
}

/// The expression with the matchers of its literals.
#[cycle(attaching)]
fn attach(
    alloc: Global,
    texts: &[String],
    expr: &Expr<Literal>,
) -> Result<Expr<LiteralMatcher>, QueryFault>
    ensures value { IfOk result (λ e. test e ≡ with_texts (map string_bytes texts.now) (test expr.now)) }
    ensures accepted { IfOk result (λ _. AreAccepted (map (with_text (map string_bytes texts.now))
        (literals (test expr.now)))) }
    ensures refused { IfErr result (λ e. IsRefusalAmong (map string_bytes texts.now) (literals (test expr.now)) e) }
    ensures sure { expr.now ≡ Any → IsOk result }
{
    match expr {
        Expr::Any => Ok(any()),
        Expr::Whole(attr, literal) => Ok(whole(*attr, needle_of(alloc, texts, *literal)?)),
        Expr::Item(literal) => Ok(item(needle_of(alloc, texts, *literal)?)),
        Expr::Denied(times, inner) => {
            let attached = attach(alloc, texts, inner)?;
            Ok(denied(alloc, *times, attached)?)
        }
        Expr::Both(parts) => Ok(both(attach_all(alloc, texts, parts)?)),
        Expr::Either(parts) => Ok(either(attach_all(alloc, texts, parts)?)),
    }
}

/// The expressions with the matchers of their literals.
#[cycle(attaching)]
pub(crate) fn attach_all(
    alloc: Global,
    texts: &[String],
    exprs: &[Expr<Literal>],
) -> Result<Vec<Expr<LiteralMatcher>>, QueryFault>
    ensures values { IfOk result (λ v. map test v.items ≡ map (with_texts (map string_bytes texts.now))
        (map test exprs.now)) }
    ensures accepted { IfOk result (λ _. AreAccepted (map (with_text (map string_bytes texts.now))
        (literals_of (map test exprs.now)))) }
    ensures refused { IfErr result (λ e. IsRefusalAmong (map string_bytes texts.now)
        (literals_of (map test exprs.now)) e) }
    ensures sure { exprs.now ≡ [] → IsOk result }
{
    let mut attached = Vec::new(alloc);
    for expr in exprs {
        attached.push(attach(alloc, texts, expr)?)?;
    }
    Ok(attached)
}
