//! Token expressions.

ghost use Rattle.std.specs.Prelude.{◌≡◌, map, IfOk, IsOk};
ghost use Rattle.tb_syntax.specs.Exprs.{test};
ghost use Rattle.tb_syntax.specs.Pattern.{both_of, either_of};
ghost use Rattle.tb_syntax.specs.Tests.{every, whole, feature, denied_times};

use crate::lexeme::{Attr, Flag};
use crate::lone::lone;
use std::alloc::{AllocError, Global};

/// A literal of a query.
#[derive(Clone, Copy, PartialEq, Eq, Debug)]
pub struct Literal {
    /// Its number among the literals of the query, counted from 0.
    pub number: u16,
    pub flag: Flag,
}

/// A token expression: a test of one word.
///
/// `L` is its literals: [`Literal`], a number, in a parsed text, and a matcher in what tests words.
#[derive(Debug, PartialEq, Eq, Drop)]
pub enum Expr<L> {
    /// Any word.
    Any,
    /// The literal fits the whole value of the column.
    Whole(Attr, L),
    /// The literal fits some item of the word's features.
    Item(L),
    /// The expression, negated as often as there is a `!` before it. They are counted, so that the depth of an
    /// expression is that of its parentheses, however long a chain of `!` is.
    Denied(usize, Box<Expr<L>>),
    /// All of the expressions hold.
    Both(Vec<Expr<L>>),
    /// One of the expressions holds.
    Either(Vec<Expr<L>>),
}

/// Any word.
pub(crate) fn any() -> Expr<Literal>
    ensures { test result ≡ every }
{
    Expr::Any
}

/// The whole value of a column.
pub(crate) fn whole(attr: Attr, literal: Literal) -> Expr<Literal>
    ensures { test result ≡ whole attr literal }
{
    Expr::Whole(attr, literal)
}

/// Some item of the features.
pub(crate) fn item(literal: Literal) -> Expr<Literal>
    ensures { test result ≡ feature literal }
{
    Expr::Item(literal)
}

/// The expression, negated this many times; the expression itself for 0.
pub(crate) fn denied(
    alloc: Global,
    times: usize,
    expr: Expr<Literal>,
) -> Result<Expr<Literal>, AllocError>
    ensures value { IfOk result (λ e. test e ≡ denied_times times (test expr)) }
    ensures sure { times ≡ 0 → IsOk result }
{
    if times == 0 {
        return Ok(expr);
    }
    Ok(Expr::Denied(times, Box::new(alloc, expr)?))
}

/// The conjunction of the parts; the part itself where there is one.
pub(crate) fn both_of(parts: Vec<Expr<Literal>>) -> Expr<Literal>
    ensures { test result ≡ both_of (map test parts.items) }
{
    match lone(parts) {
        Ok(part) => part,
        Err(parts) => Expr::Both(parts),
    }
}

/// The disjunction of the parts; the part itself where there is one.
pub(crate) fn either_of(parts: Vec<Expr<Literal>>) -> Expr<Literal>
    ensures { test result ≡ either_of (map test parts.items) }
{
    match lone(parts) {
        Ok(part) => part,
        Err(parts) => Expr::Either(parts),
    }
}
