//! What is wrong with a query, or what it most likely means where it finds nothing.

ghost use Rattle.std.specs.List.{before_first};
ghost use Rattle.std.specs.Prelude.{◌≡◌, ◌+◌, drop, false, IfSome, MatchOption, None, Some, option_map, true};
ghost use Rattle.std.specs.Str.{IsCharBoundary};
ghost use Rattle.std.specs.String.{string_bytes};
ghost use Rattle.tb_words.specs.declared.sentences.TheConstants.{LITERALLY, NOTHING_RELEASED, ON_A_RANGE};
ghost use Rattle.tb_words.specs.QueryNumbers.{IsNumber, SaysBounds, bound_texts, bounds_sentence};
ghost use Rattle.tb_words.specs.Explained.{BeginWith, IsGuess, Say, SaysFault, SaysLiteral, SaysOfLiteral, SaysOfQuery};
ghost use Rattle.tb_words.specs.Explained.{PointAt, SaysRepetition, form_place, hits_place, query_place};
ghost use Rattle.tb_words.specs.QueryLiterals.{HasChar, IsCut, KnowsLiterals};
ghost use Rattle.tb_words.specs.QueryPlaces.{IsClosed, IsFirstWrong, IsNoneWrong, IsPicture, SaysBraces};
ghost use Rattle.tb_words.specs.QueryPlaces.{is_brace, is_closing};

use crate::literals::{Literal, holds, literals, numbered, written};
use crate::patterns::first_stop;
use crate::pictures::{character, picture};
use crate::sentences as reported;
use crate::syntax::Wrong;
use crate::words::{Page, Words, shown};
use std::alloc::Global;
use tb_query::QueryFault;

/// What is wrong at a byte of a query.
fn at_byte(alloc: Global, text: &str, at: usize, sentence: &'static str) -> Words
    ensures says { Say result sentence.now None }
    ensures place { IsCharBoundary text.now at → BeginWith result (query_place text.now at) }
    ensures picture { IsCharBoundary text.now at
        → IfSome result.picture (λ picture. IsPicture text.now at (string_bytes picture)) }
{
    let place = character(text, at);
    Words::at(format!(in alloc; "query, character {place}"), sentence).with_picture(picture(
        alloc, text, at,
    ))
}

/// What is most likely meant at a byte.
fn guess(text: &str, literals: &[Literal], at: usize) -> &'static str
    ensures { IsCharBoundary text.now at → IsGuess text.now literals.now at result.now }
{
    Wrong::new(text, literals, at).sentence(holds(literals, at))
}

fn syntax(alloc: Global, text: &str, literals: &[Literal], at: usize) -> Words
    ensures { IsCharBoundary text.now at
        → IsGuess text.now literals.now at result.sentence.now × PointAt result text.now at }
{
    at_byte(alloc, text, at, guess(text, literals, at))
}

/// A number, which may have white space around it. One that is too large for the type becomes the largest one.
fn number(text: &str) -> Option<u32>
    ensures { IsNumber text.now result }
{
    let digits = text.trim();
    if digits.is_empty() {
        return None;
    }
    Some(digits.parse::<u32>().unwrap_or(u32::MAX))
}

/// The texts of the lower and of the upper number of a repetition. One number is both.
fn bounds_of(text: &str) -> (&str, &str)
    ensures lower { result.0.now ≡ (bound_texts text.now).0 }
    ensures upper { result.1.now ≡ (bound_texts text.now).1 }
{
    match text.split_once(',') {
        Some((lower, upper)) => (lower, upper),
        None => (text, text),
    }
}

/// What is wrong with these numbers of a repetition. One that is not there has no bound.
fn bounds_fault(lower: Option<u32>, upper: Option<u32>) -> Option<&'static str>
    ensures { option_map (λ said. said.now) result ≡ bounds_sentence lower upper }
{
    let lower = lower?;
    if lower > 32 || upper.unwrap_or(0) > 32 {
        return Some(reported::REPEAT_ABOVE);
    }
    let upper = upper?;
    if upper == 0 {
        return Some(reported::REPEAT_ZERO);
    }
    if upper < lower {
        return Some(reported::REPEAT_BACKWARD);
    }
    None
}

/// What is wrong with the numbers of a repetition. The text is what its braces enclose.
fn numbers_fault(text: &str) -> Option<&'static str>
    ensures { SaysBounds text.now (option_map (λ said. said.now) result) }
{
    let (first, second) = bounds_of(text);
    bounds_fault(number(first), number(second))
}

/// What is between a brace at a byte and the next one that closes it.
fn in_braces(text: &str, at: usize) -> Option<&str>
    ensures { IsCharBoundary text.now at → IsCharBoundary (drop at text.now) 1 → MatchOption result
        (IsClosed text.now at → ⊥)
        (λ inside. IsClosed text.now at × (inside.now ≡ before_first is_closing (drop (at + 1) text.now))) }
{
    let rest = text.get(at..).unwrap_or("").get(1..).unwrap_or("");
    match rest.split_once('}') {
        Some((inside, _)) => Some(inside),
        None => None,
    }
}

/// Whether a brace that begins a repetition is there.
fn is_brace(literals: &[Literal], at: usize, c: char) -> bool
    ensures { result ≡ is_brace literals.now (at, c) }
{
    c == '{' && !holds(literals, at)
}

/// What is wrong with the repetition whose brace is at a byte; `None` where no brace closes it.
fn braces_fault(text: &str, at: usize) -> Option<Option<&'static str>>
    ensures { HasChar text.now at 123 → MatchOption result (IsClosed text.now at → ⊥)
        (λ said. SaysBraces text.now at (option_map (λ s. s.now) said)) }
{
    match in_braces(text, at) {
        Some(inside) => Some(numbers_fault(inside)),
        None => None,
    }
}

/// The same of any character. What is no brace is right.
fn brace_fault(text: &str, literals: &[Literal], at: usize, c: char) -> Option<Option<&'static str>>
    ensures other { is_brace literals.now (at, c) ≡ false → result ≡ Some None }
    ensures brace { is_brace literals.now (at, c) ≡ true → HasChar text.now at 123 → MatchOption result
        (IsClosed text.now at → ⊥) (λ said. SaysBraces text.now at (option_map (λ s. s.now) said)) }
{
    if is_brace(literals, at, c) {
        braces_fault(text, at)
    } else {
        Some(None)
    }
}

/// The first repetition whose numbers are wrong, by the place of its brace, and what is wrong with them.
fn repetition(text: &str, literals: &[Literal]) -> Option<(usize, &'static str)>
    ensures { MatchOption result (IsNoneWrong text.now literals.now)
        (λ found. IsFirstWrong text.now literals.now found.0 found.1.now × IsCharBoundary text.now found.0) }
{
    for (at, c) in text.char_indices() {
        let Some(said) = brace_fault(text, literals, at, c) else {
            return None;
        };
        if let Some(sentence) = said {
            return Some((at, sentence));
        }
    }
    None
}

/// What is wrong with the numbers of repetitions.
fn repeated(alloc: Global, text: &str, literals: &[Literal]) -> Words
    ensures { SaysRepetition text.now literals.now result }
{
    match repetition(text, literals) {
        Some((at, sentence)) => at_byte(alloc, text, at, sentence),
        None => Words::alone(reported::REPEAT_ABOVE),
    }
}

/// What is wrong with a literal that is no pattern, where it stops to be one; without memory, at its beginning.
fn literal_fault(alloc: Global, text: &str, literal: Literal) -> Words
    ensures { IsCut text.now literal → SaysOfLiteral text.now literal result }
{
    let said = written(text, literal);
    match first_stop(alloc, text, literal.start, said) {
        Some((place, sentence)) => at_byte(alloc, text, place, sentence),
        None => at_byte(alloc, text, literal.start, reported::PATTERN_OTHER),
    }
}

/// What is wrong with the literal that has this number, counted from 1, and is no pattern.
fn pattern(alloc: Global, text: &str, literals: &[Literal], number: u64) -> Words
    ensures { KnowsLiterals text.now literals.now → SaysLiteral text.now literals.now number result }
{
    match numbered(literals, number) {
        Some(literal) => literal_fault(alloc, text, literal),
        None => Words::alone(reported::PATTERN_OTHER),
    }
}

/// What is wrong with a text that has these literals.
fn explained(alloc: Global, text: &str, literals: &[Literal], fault: QueryFault) -> Words
    ensures { KnowsLiterals text.now literals.now → SaysFault text.now literals.now fault result }
{
    match fault {
        QueryFault::TooLong => Words::alone(reported::TOO_LONG),
        QueryFault::Syntax(at) => syntax(alloc, text, literals, at as usize),
        QueryFault::TooMany => Words::alone(reported::TOO_MANY),
        QueryFault::TooDeep => Words::alone(reported::TOO_DEEP),
        QueryFault::Repeat => repeated(alloc, text, literals),
        QueryFault::Pattern(number) => pattern(alloc, text, literals, number),
        QueryFault::Memory => Words::alone(reported::PATTERN_LARGE),
    }
}

/// The literals of a text; none where memory is wanting.
fn known_literals(alloc: Global, text: &str) -> Vec<Literal>
    ensures { KnowsLiterals text.now result.items }
{
    match literals(alloc, text) {
        Ok(found) => found,
        Err(_) => Vec::new(alloc),
    }
}

/// What is wrong with a text that is no query.
pub(crate) fn words_of_query(alloc: Global, text: &str, fault: QueryFault) -> Words
    ensures { SaysOfQuery text.now fault result }
{
    let literals = known_literals(alloc, text);
    explained(alloc, text, literals.as_slice(), fault).on(Page::Queries)
}

/// The words for a query that finds nothing, while this text of it finds so many hits.
pub fn words_of_hits(alloc: Global, text: &str, hits: u64) -> Words
    ensures says { Say result LITERALLY.now (Some Page.Queries) }
    ensures place { BeginWith result (hits_place text.now hits) }
{
    let query = shown(text);
    Words::at(
        format!(in alloc; "`{query}` finds {hits}"),
        reported::LITERALLY,
    )
    .on(Page::Queries)
}

/// The words for a form that a query asks for and that only a range has.
pub fn words_of_range(alloc: Global, form: &str) -> Words
    ensures says { Say result ON_A_RANGE.now (Some Page.Queries) }
    ensures place { BeginWith result (form_place form.now) }
{
    let form = shown(form);
    Words::at(format!(in alloc; "`{form}`"), reported::ON_A_RANGE).on(Page::Queries)
}

/// The words for a desk without released sentences, where released text is asked for.
pub fn words_of_unreleased() -> Words
    ensures { Say result NOTHING_RELEASED.now (Some Page.Batches) }
{
    Words::alone(reported::NOTHING_RELEASED).on(Page::Batches)
}
