//! The bytes that token expressions require of a row.

ghost use Rattle.std.specs.Prelude.{IsOk, OnOk, map};
ghost use Rattle.tb_syntax.specs.Exprs.{test};
ghost use Rattle.tb_syntax.specs.Tests.{whole, feature, both, tests};
ghost use Rattle.tb_syntax.specs.declared.lexeme.Attr.{Attr as AnyAttr};
ghost use Rattle.tb_prefilter.specs.Needed.{AllRequireNothing, Gathers, IsPlainText, RequiresNothing};

use std::alloc::{AllocError, Global};
use tb_query::{Expr, LiteralMatcher};

/// Adds the bytes that a column requires whose value is to be the literal: the value between two tabs.
fn push_column(
    alloc: Global,
    needle: &LiteralMatcher,
    needles: &mut Vec<Vec<u8>>,
) -> Result<(), AllocError>
    ensures gathered { OnOk result ((a : AnyAttr) → Gathers (whole a needle.now) needles.old.items
        needles.new.items) }
    ensures sure { (IsPlainText needle.now → ⊥) → IsOk result }
{
    let Some(text) = needle.plain_text() else {
        return Ok(());
    };
    let mut bytes = Vec::new(alloc);
    bytes.push(b'\t')?;
    bytes.extend_from_slice(text.as_bytes())?;
    bytes.push(b'\t')?;
    needles.push(bytes)?;
    Ok(())
}

/// Adds the bytes that features require among which the literal is to be.
fn push_item(
    alloc: Global,
    needle: &LiteralMatcher,
    needles: &mut Vec<Vec<u8>>,
) -> Result<(), AllocError>
    ensures gathered { OnOk result (Gathers (feature needle.now) needles.old.items needles.new.items) }
    ensures sure { (IsPlainText needle.now → ⊥) → IsOk result }
{
    let Some(text) = needle.plain_text() else {
        return Ok(());
    };
    let mut bytes = Vec::new(alloc);
    bytes.extend_from_slice(text.as_bytes())?;
    needles.push(bytes)?;
    Ok(())
}

/// Adds what each of the expressions requires, where all are to hold of one word.
#[cycle(gather)]
fn gather_all(alloc: Global, exprs: &[Expr], needles: &mut Vec<Vec<u8>>) -> Result<(), AllocError>
    ensures gathered { OnOk result (Gathers (both (tests (map test exprs.now))) needles.old.items needles.new.items) }
    ensures sure { AllRequireNothing (tests (map test exprs.now)) → IsOk result }
{
    for expr in exprs {
        gather(alloc, expr, needles)?;
    }
    Ok(())
}

/// Adds what the expression requires of a row.
#[cycle(gather)]
pub(crate) fn gather(
    alloc: Global,
    expr: &Expr,
    needles: &mut Vec<Vec<u8>>,
) -> Result<(), AllocError>
    ensures gathered { OnOk result (Gathers (test expr.now) needles.old.items needles.new.items) }
    ensures sure { RequiresNothing (test expr.now) → IsOk result }
{
    match expr {
        Expr::Any => Ok(()),
        Expr::Whole(_, needle) => push_column(alloc, needle, needles),
        Expr::Item(needle) => push_item(alloc, needle, needles),
        Expr::Denied(_, _) => Ok(()),
        Expr::Both(parts) => gather_all(alloc, parts, needles),
        Expr::Either(_) => Ok(()),
    }
}
