//! Token expressions, prepared for a search with the caches that it writes to.

ghost use Rattle.std.specs.Prelude.{◌≡◌, ℕ, not, if◌then◌else◌, IfOk, IsOk, map};
ghost use Rattle.std.specs.Global.{Global};
ghost use Rattle.std.specs.declared.boxed.Box.{Box};
ghost use Rattle.tb_query.specs.declared.prepared.PreparedExpr.{PreparedExpr};
ghost use Rattle.tb_query.specs.PreparedExprs.{asked};
ghost use Rattle.tb_syntax.specs.declared.expr.Expr.TheVariants.{Any};
ghost use Rattle.tb_syntax.specs.Exprs.{test};
ghost use Rattle.tb_query.specs.Meaning.{value_of, is_odd, holds, all_hold, some_hold};
ghost use Rattle.tb_syntax.specs.Tests.{tests};

use crate::expr::Expr;
use std::alloc::{AllocError, Global};
use tb_conllu::{RowOf, Text};
use tb_literal::{LiteralCache, LiteralMatcher};
use tb_syntax::Attr;

/// A column of a word, and what tests its value.
#[derive(Drop)]
pub(crate) struct Column<'q> {
    attr: Attr,
    tester: LiteralCache<'q>,
}

/// A token expression, prepared with the caches that a search writes to. It is made once for a search, and then tested
/// on each word.
#[derive(Drop)]
pub(crate) enum PreparedExpr<'q> {
    Any,
    Whole(Column<'q>),
    Item(LiteralCache<'q>),
    Denied(usize, Box<PreparedExpr<'q>>),
    Both(Vec<PreparedExpr<'q>>),
    Either(Vec<PreparedExpr<'q>>),
}

/// What tests values against the literal. Out of line, so that what it makes takes no stack at each level of an
/// expression.
#[inline(never)]
fn tester_of(alloc: Global, needle: &LiteralMatcher) -> Result<LiteralCache<'_>, AllocError>
    ensures { IfOk result (λ t. t ≡ needle.now) }
{
    needle.tester(alloc)
}

/// Prepares a token expression for a search.
#[cycle(prepare_expr)]
fn prepare_expr(alloc: Global, expr: &Expr) -> Result<PreparedExpr<'_>, AllocError>
    ensures value { IfOk result (λ a. asked a ≡ test expr.now) }
    ensures sure { expr.now ≡ Any → IsOk result }
{
    match expr {
        Expr::Any => Ok(PreparedExpr::Any),
        Expr::Whole(attr, needle) => Ok(PreparedExpr::Whole(Column {
            attr: *attr,
            tester: tester_of(alloc, needle)?,
        })),
        Expr::Item(needle) => Ok(PreparedExpr::Item(tester_of(alloc, needle)?)),
        Expr::Denied(times, inner) => {
            let prepared_expr = prepare_expr(alloc, inner)?;
            Ok(PreparedExpr::Denied(*times, Box::new(alloc, prepared_expr)?))
        }
        Expr::Both(parts) => Ok(PreparedExpr::Both(prepare_exprs(alloc, parts)?)),
        Expr::Either(parts) => Ok(PreparedExpr::Either(prepare_exprs(alloc, parts)?)),
    }
}

/// Prepares token expressions for a search, in their order.
#[cycle(prepare_expr)]
pub(crate) fn prepare_exprs(
    alloc: Global,
    exprs: &[Expr],
) -> Result<Vec<PreparedExpr<'_>>, AllocError>
    ensures { IfOk result (λ v. map asked v.items ≡ map test exprs.now) }
{
    let mut prepared_exprs = Vec::with_capacity(alloc, exprs.len())?;
    for expr in exprs {
        prepared_exprs.push(prepare_expr(alloc, expr)?)?;
    }
    Ok(prepared_exprs)
}

/// The value of a column.
pub fn value_of<T: Text>(attr: Attr, row: &RowOf<T>) -> &str
    ensures { result.now ≡ value_of attr row.now }
{
    match attr {
        Attr::Form => row.form.text(),
        Attr::Lemma => row.lemma.text(),
        Attr::Upos => row.upos.text(),
        Attr::Xpos => row.xpos.text(),
        Attr::Feats => row.feats.text(),
        Attr::Deprel => row.deprel.text(),
    }
}

/// Whether the expression is negated an odd number of times.
fn is_odd_denial(prepared_expr: &PreparedExpr<'_>) -> bool
    ensures { (n : ℕ) (inner : Box PreparedExpr Global) → prepared_expr.now ≡ PreparedExpr.Denied n inner
        → result ≡ is_odd n }
{
    match prepared_expr {
        PreparedExpr::Denied(times, _) => *times % 2 == 1,
        _ => false,
    }
}

/// The value of an expression that is negated an odd number of times, or an even one.
fn denied(odd: bool, held: bool) -> bool
    ensures { result ≡ (if odd then not held else held) }
{
    if odd { !held } else { held }
}

/// Whether the expression holds of the word.
#[cycle(holds)]
pub(crate) fn holds<T: Text>(prepared_expr: &mut PreparedExpr<'_>, row: &RowOf<T>) -> bool
    ensures answer { result ≡ holds (asked prepared_expr.old) row.now }
    ensures unchanged { asked prepared_expr.new ≡ asked prepared_expr.old }
{
    let odd = is_odd_denial(prepared_expr);
    match prepared_expr {
        PreparedExpr::Any => true,
        PreparedExpr::Whole(column) => column.tester.meets(value_of(column.attr, row)),
        PreparedExpr::Item(tester) => tester.meets_item(row.feats.text()),
        PreparedExpr::Denied(_, inner) => denied(odd, holds(inner, row)),
        PreparedExpr::Both(parts) => all_hold(parts, row),
        PreparedExpr::Either(parts) => some_hold(parts, row),
    }
}

/// Whether all expressions hold of the word.
#[cycle(holds)]
fn all_hold<T: Text>(prepared_exprs: &mut [PreparedExpr<'_>], row: &RowOf<T>) -> bool
    ensures answer { result ≡ all_hold (tests (map asked prepared_exprs.old)) row.now }
    ensures unchanged { map asked prepared_exprs.new ≡ map asked prepared_exprs.old }
{
    for prepared_expr in prepared_exprs.iter_mut() {
        if !holds(prepared_expr, row) {
            return false;
        }
    }
    true
}

/// Whether one of the expressions holds of the word.
#[cycle(holds)]
fn some_hold<T: Text>(prepared_exprs: &mut [PreparedExpr<'_>], row: &RowOf<T>) -> bool
    ensures answer { result ≡ some_hold (tests (map asked prepared_exprs.old)) row.now }
    ensures unchanged { map asked prepared_exprs.new ≡ map asked prepared_exprs.old }
{
    for prepared_expr in prepared_exprs.iter_mut() {
        if holds(prepared_expr, row) {
            return true;
        }
    }
    false
}

/// Whether the expression holds of the word. The commonest expression, a column, is tested without a further call.
#[inline]
pub(crate) fn asks<T: Text>(prepared_expr: &mut PreparedExpr<'_>, row: &RowOf<T>) -> bool
    ensures answer { result ≡ holds (asked prepared_expr.old) row.now }
    ensures unchanged { asked prepared_expr.new ≡ asked prepared_expr.old }
{
    if let PreparedExpr::Whole(column) = prepared_expr {
        return column.tester.meets(value_of(column.attr, row));
    }
    holds(prepared_expr, row)
}
