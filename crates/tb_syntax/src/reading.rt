//! Reads the text of a query.

ghost use Rattle.std.specs.Prelude.{length, map, IfOk, IfErr, OnOk, ◌≡◌, ◌<◌, ◌≤◌, ◌^◌, true};
ghost use Rattle.std.specs.String.{string_bytes};
ghost use Rattle.tb_match.specs.Trees.{tree};
ghost use Rattle.tb_match.specs.Weight.{Fits};
ghost use Rattle.tb_syntax.specs.Grammar.{Query as AnyQuery, query_text};
ghost use Rattle.tb_syntax.specs.Limits.{query_count, query_nests, query_repeats};
ghost use Rattle.tb_syntax.specs.Reading.{IsAccepted, IsFault, IsPastLimit, IsQueryText, byte_of};
ghost use Rattle.tb_syntax.specs.Saying.{Says};
ghost use Rattle.tb_syntax.specs.declared.fault.Fault.TheVariants.{Memory};
ghost use Rattle.tb_syntax.specs.Exprs.{test};

use crate::fault::Fault;
use crate::lexeme::Lexeme;
use crate::lexing::{LONGEST, Lexed, Span, lex};
use crate::limits::{count_expressions, nests_within, repeats_within};
use crate::parsing::{Parsed, parse_lexemes};
use crate::scanning::scan;
use crate::unquoting::unquote_all;
use std::alloc::Global;

/// The most token expressions of a query.
const MOST_EXPRESSIONS: usize = 32;

/// The most round parentheses that may be open at one place.
const MOST_PARENTHESES: usize = 16;

/// The greatest number of a repetition.
const MOST_TIMES: u8 = 32;

/// The place where the lexeme with this number begins, or the end of the text.
fn byte_of(spans: &[Span], place: usize, end: usize) -> usize
    ensures { result ≡ byte_of spans.now place end }
{
    match spans.get(place) {
        Some(span) => span.start,
        None => end,
    }
}

/// Whether the lexemes of a query are within its limits. Takes no memory.
///
/// # Errors
///
/// The first limit that they pass, which is one of `TooMany`, `TooDeep` and `Repeat`.
fn test_limits(lexemes: &[Lexeme]) -> Result<(), Fault>
    requires { length lexemes.now < 2 ^ 32 }
    ensures within { OnOk result ((q : AnyQuery) → query_text q ≡ lexemes.now
        → (query_count q ≤ 32) × (query_nests 16 q ≡ true) × (query_repeats 32 q ≡ true)) }
    ensures passed { IfErr result (λ e. (q : AnyQuery) → query_text q ≡ lexemes.now → IsPastLimit q e) }
{
    if count_expressions(lexemes) > MOST_EXPRESSIONS {
        return Err(Fault::TooMany);
    }
    if !nests_within(lexemes, MOST_PARENTHESES) {
        return Err(Fault::TooDeep);
    }
    if !repeats_within(lexemes, MOST_TIMES) {
        return Err(Fault::Repeat);
    }
    Ok(())
}

/// The lexemes of a query. Takes no memory.
///
/// # Errors
///
/// The first fault of the text, which is never `Memory`.
pub fn read(text: &str) -> Result<Lexed, Fault>
    ensures query { IfOk result (λ x. IsAccepted text.now x.lexemes.items x.spans.items) }
    ensures fault { IfErr result (λ e. IsFault text.now e) }
    ensures memory { IfErr result (λ e. e ≡ Memory → ⊥) }
{
    let bytes = text.as_bytes();
    if bytes.len() > LONGEST {
        return Err(Fault::TooLong);
    }
    let lexed = lex(bytes);
    let lexemes = lexed.lexemes.as_slice();
    if let Err(place) = scan(lexemes) {
        return Err(Fault::Syntax(byte_of(lexed.spans.as_slice(), place, bytes.len())));
    }
    test_limits(lexemes)?;
    Ok(lexed)
}

/// A query, parsed.
#[derive(Debug, Drop)]
pub struct Query {
    /// Its pattern and its token expressions.
    pub parsed: Parsed,
    /// The text of each of its literals, in the order of the query. The token expressions name them by number.
    pub literals: Vec<String>,
}

/// Parses a query, in a part of CQP's language (The CQP Query Language Manual, section 3).
///
/// Its pattern names only its own token expressions, of which there are at most 32, and is within the limits of a
/// search.
///
/// # Errors
///
/// The first fault of the text. `Memory` comes only for a text that is a query within the limits.
pub fn parse(alloc: Global, text: &str) -> Result<Query, Fault>
    ensures query { IfOk result (λ x. Says text.now (tree x.parsed.pat) (map test x.parsed.exprs.items)
        (map string_bytes x.literals.items)) }
    ensures fits { IfOk result (λ x. Fits (length x.parsed.exprs.items) (tree x.parsed.pat)) }
    ensures few { IfOk result (λ x. length x.parsed.exprs.items ≤ 32) }
    ensures fault { IfErr result (λ e. IsFault text.now e) }
    ensures memory { IfErr result (λ e. e ≡ Memory → IsQueryText text.now) }
{
    let lexed = read(text)?;
    let lexemes = lexed.lexemes.as_slice();
    let parsed = parse_lexemes(alloc, lexemes)?;
    let literals = unquote_all(alloc, text, lexemes, lexed.spans.as_slice())?;
    Ok(Query { parsed, literals })
}
