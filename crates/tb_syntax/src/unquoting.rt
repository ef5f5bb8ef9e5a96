//! The texts of literals.

ghost use Rattle.std.specs.Prelude.{◌≡◌, ◌<◌, ℕ, List, length, map, slice_index_or, IfOk, false};
ghost use Rattle.std.specs.String.{string_bytes};
ghost use Rattle.tb_syntax.specs.First.{said_of};
ghost use Rattle.tb_syntax.specs.Lexing.{Lexes};
ghost use Rattle.tb_syntax.specs.Saying.{IsSaid};
ghost use Rattle.tb_syntax.specs.Spelling.{IsQuoted};

use crate::lexeme::Lexeme;
use crate::lexing::Span;
use std::alloc::{AllocError, Global};

/// The text of a literal, from the bytes after its opening quote, with its closing quote.
fn said_after(alloc: Global, quote: char, text: &str) -> Result<String, AllocError>
    ensures { quote < 128 → IfOk result (λ s. string_bytes s ≡ said_of quote false text.now) }
{
    let mut said = String::with_capacity(alloc, text.len())?;
    let mut rest = text;
    while let Some((before, after)) = rest.split_once(quote) {
        said.push_str(before)?;
        let Some(more) = after.strip_prefix(quote) else {
            rest = after;
            continue;
        };
        said.push(quote)?;
        rest = more;
    }
    said.push_str(rest)?;
    Ok(said)
}

/// The text of a literal: the bytes between its quotes, in which a quote of this kind is written twice.
///
/// For a text that is no literal the answer has no meaning.
pub(crate) fn unquote(alloc: Global, literal: &str) -> Result<String, AllocError>
    ensures { (s : List ℕ) → IsQuoted literal.now s → IfOk result (λ v. string_bytes v ≡ s) }
{
    let mut rest = literal.chars();
    match rest.next() {
        Some(quote) => said_after(alloc, quote, rest.as_str()),
        None => Ok(String::new(alloc)),
    }
}

/// The place of the lexeme with this number.
fn span_at(spans: &[Span], number: usize) -> Span
    requires { number < length spans.now }
    ensures { result ≡ slice_index_or spans.now number result }
{
    spans[number]
}

/// The texts of all literals of a query, in its order.
pub(crate) fn unquote_all(
    alloc: Global,
    text: &str,
    lexemes: &[Lexeme],
    spans: &[Span],
) -> Result<Vec<String>, AllocError>
    requires { Lexes 0 0 text.now lexemes.now spans.now }
    ensures { IfOk result (λ v. IsSaid text.now lexemes.now spans.now (map string_bytes v.items)) }
{
    let mut literals = Vec::new(alloc);
    for (i, lexeme) in lexemes.iter().enumerate() {
        if let Lexeme::Quote(_) = lexeme {
            let span = span_at(spans, i);
            literals.push(unquote(alloc, &text[span.start..span.end])?)?;
        }
    }
    Ok(literals)
}
