//! Parses the text of a query.

ghost use Rattle.std.specs.Prelude.{◌≡◌, ◌≤◌, length, IfOk, IfErr};
ghost use Rattle.tb_match.specs.Weight.{Fits};
ghost use Rattle.tb_query.specs.declared.fault.QueryFault.TheVariants.{Memory};
ghost use Rattle.tb_query.specs.Reading.{IsQuery, IsFault};
ghost use Rattle.tb_syntax.specs.Reading.{IsQueryText};

use crate::attaching::attach_all;
use crate::fault::QueryFault;
use crate::query::Query;
use std::alloc::Global;

/// Parses a text as a query: a pattern over at most 32 token expressions, which it names by their numbers.
///
/// # Errors
///
/// The first fault of the text. `Memory` comes only for a text that is within the grammar and the limits.
pub fn parse(alloc: Global, text: &str) -> Result<Query, QueryFault>
    ensures query { IfOk result (λ q. IsQuery text.now q) }
    ensures fits { IfOk result (λ q. Fits (length q.tests) q.pat) }
    ensures few { IfOk result (λ q. length q.tests ≤ 32) }
    ensures fault { IfErr result (λ e. IsFault text.now e) }
    ensures memory { IfErr result (λ e. e ≡ Memory → length text.now ≤ 2000) }
    ensures reads { IfErr result (λ e. e ≡ Memory → IsQueryText text.now) }
{
    let read = tb_syntax::parse(alloc, text)?;
    let exprs = attach_all(
        alloc,
        read.literals.as_slice(),
        read.parsed.exprs.as_slice(),
    )?;
    Ok(Query::new(read.parsed.pat, exprs))
}
