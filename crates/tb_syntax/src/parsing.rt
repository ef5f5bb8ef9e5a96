//! Parses patterns.

ghost use Rattle.std.specs.Prelude.{◌≡◌, ◌≢◌, ◌≤◌, ◌-◌, length, map, IfOk, IsOk};
ghost use Rattle.tb_match.specs.Trees.{tree};
ghost use Rattle.tb_syntax.specs.declared.lexeme.Lexeme.{Lexeme};
ghost use Rattle.tb_syntax.specs.Exprs.{test};
ghost use Rattle.tb_syntax.specs.Follow.{begins_atom};
ghost use Rattle.tb_syntax.specs.Parsing.{head, tail, ReadsNumbers, ReadsRepeat, ReadsExpr, ReadsAtom, ReadsItem};
ghost use Rattle.tb_syntax.specs.Parsing.{ReadsItems, ReadsCat, ReadsCats, ReadsAlt, ReadsQuery};

use crate::asking::test_at;
use crate::cursor::{head, literal_at, tail};
use crate::expr::{Expr, Literal, any, whole};
use crate::lexeme::{Attr, Lexeme};
use crate::tree::{alt_of, cat_of, repeated, tok};
use std::alloc::{AllocError, Global};
use tb_match::Pat;

/// The least and the greatest number of a repetition, whose brace is read already.
fn numbers_at(lexemes: &[Lexeme]) -> ((u8, Option<u8>), &[Lexeme])
    ensures exact { ReadsNumbers lexemes.now result.0 result.1.now }
    ensures shorter { length result.1.now ≤ length lexemes.now }
{
    let least = match head(lexemes) {
        Lexeme::Number(least) => least,
        _ => 0,
    };
    let rest = tail(lexemes);
    match head(rest) {
        Lexeme::Comma => match head(tail(rest)) {
            Lexeme::Number(most) => ((least, Some(most)), tail(tail(tail(rest)))),
            _ => ((least, None), tail(tail(rest))),
        },
        _ => ((least, Some(least)), tail(rest)),
    }
}

/// The repetition at the beginning, if there is one.
fn repeat_at(lexemes: &[Lexeme]) -> (Option<(u8, Option<u8>)>, &[Lexeme])
    ensures exact { ReadsRepeat lexemes.now result.0 result.1.now }
    ensures shorter { length result.1.now ≤ length lexemes.now }
{
    match head(lexemes) {
        Lexeme::Quest => (Some((0, Some(1))), tail(lexemes)),
        Lexeme::Star => (Some((0, None)), tail(lexemes)),
        Lexeme::Plus => (Some((1, None)), tail(lexemes)),
        Lexeme::LeftBrace => {
            let (bounds, rest) = numbers_at(tail(lexemes));
            (Some(bounds), rest)
        }
        _ => (None, lexemes),
    }
}

/// The token expression at the beginning.
fn expr_at(alloc: Global, lexemes: &[Lexeme]) -> Result<(Expr<Literal>, &[Lexeme]), AllocError>
    ensures exact { IfOk result (λ x. ReadsExpr lexemes.now (test x.0) x.1.now) }
    ensures shorter { IfOk result (λ x. length x.1.now ≤ length lexemes.now - 1) }
    ensures sure { head lexemes.now ≢ Lexeme.LeftBracket → IsOk result }
    ensures any { head (tail lexemes.now) ≡ Lexeme.RightBracket → IsOk result }
{
    let rest = tail(lexemes);
    match head(lexemes) {
        Lexeme::LeftBracket => match head(rest) {
            Lexeme::RightBracket => Ok((any(), tail(rest))),
            _ => {
                let (test, rest) = test_at(alloc, rest)?;
                Ok((test, tail(rest)))
            }
        },
        _ => {
            let (literal, rest) = literal_at(lexemes);
            Ok((whole(Attr::Form, literal), rest))
        }
    }
}

/// The atom at the beginning.
#[cycle(parsing)]
fn atom_at<'s>(
    alloc: Global,
    lexemes: &'s [Lexeme],
    exprs: &mut Vec<Expr<Literal>>,
) -> Result<(Pat, &'s [Lexeme]), AllocError>
    ensures exact { IfOk result (λ x. ReadsAtom lexemes.now (map test exprs.old.items) (map test exprs.new.items)
        (tree x.0) x.1.now) }
    ensures shorter { IfOk result (λ x. length x.1.now ≤ length lexemes.now - 1) }
{
    match head(lexemes) {
        Lexeme::LeftParen => {
            let (alt, rest) = alt_at(alloc, tail(lexemes), exprs)?;
            Ok((alt, tail(rest)))
        }
        _ => {
            let (expr, rest) = expr_at(alloc, lexemes)?;
            let number = exprs.len().min(65535) as u16;
            exprs.push(expr)?;
            Ok((tok(number), rest))
        }
    }
}

/// The atom at the beginning, with its repetition.
#[cycle(parsing)]
fn item_at<'s>(
    alloc: Global,
    lexemes: &'s [Lexeme],
    exprs: &mut Vec<Expr<Literal>>,
) -> Result<(Pat, &'s [Lexeme]), AllocError>
    ensures exact { IfOk result (λ x. ReadsItem lexemes.now (map test exprs.old.items) (map test exprs.new.items)
        (tree x.0) x.1.now) }
    ensures shorter { IfOk result (λ x. length x.1.now ≤ length lexemes.now - 1) }
{
    let (atom, rest) = atom_at(alloc, lexemes, exprs)?;
    let (bounds, rest) = repeat_at(rest);
    Ok((repeated(alloc, atom, bounds)?, rest))
}

/// Whether an atom is at the beginning.
fn begins_atom(lexemes: &[Lexeme]) -> bool
    ensures { result ≡ begins_atom lexemes.now }
{
    matches!(
        head(lexemes),
        Lexeme::LeftParen | Lexeme::LeftBracket | Lexeme::Quote(_)
    )
}

/// Appends the items of a sequence to the parts.
#[cycle(parsing)]
fn items_at<'s>(
    alloc: Global,
    lexemes: &'s [Lexeme],
    parts: &mut Vec<Pat>,
    exprs: &mut Vec<Expr<Literal>>,
) -> Result<&'s [Lexeme], AllocError>
    ensures exact { IfOk result (λ rest. ReadsItems lexemes.now (map test exprs.old.items) (map test exprs.new.items)
        (map tree parts.old.items) (map tree parts.new.items) rest.now) }
    ensures shorter { IfOk result (λ rest. length rest.now ≤ length lexemes.now - 1) }
{
    let (item, rest) = item_at(alloc, lexemes, exprs)?;
    parts.push(item)?;
    if begins_atom(rest) {
        return items_at(alloc, rest, parts, exprs);
    }
    Ok(rest)
}

/// The sequence at the beginning.
#[cycle(parsing)]
fn cat_at<'s>(
    alloc: Global,
    lexemes: &'s [Lexeme],
    exprs: &mut Vec<Expr<Literal>>,
) -> Result<(Pat, &'s [Lexeme]), AllocError>
    ensures exact { IfOk result (λ x. ReadsCat lexemes.now (map test exprs.old.items) (map test exprs.new.items)
        (tree x.0) x.1.now) }
    ensures shorter { IfOk result (λ x. length x.1.now ≤ length lexemes.now - 1) }
{
    let mut parts = Vec::new(alloc);
    let rest = items_at(alloc, lexemes, &mut parts, exprs)?;
    Ok((cat_of(parts), rest))
}

/// Appends the sequences of a choice to the parts.
#[cycle(parsing)]
fn cats_at<'s>(
    alloc: Global,
    lexemes: &'s [Lexeme],
    parts: &mut Vec<Pat>,
    exprs: &mut Vec<Expr<Literal>>,
) -> Result<&'s [Lexeme], AllocError>
    ensures exact { IfOk result (λ rest. ReadsCats lexemes.now (map test exprs.old.items) (map test exprs.new.items)
        (map tree parts.old.items) (map tree parts.new.items) rest.now) }
    ensures shorter { IfOk result (λ rest. length rest.now ≤ length lexemes.now - 1) }
{
    let (cat, rest) = cat_at(alloc, lexemes, exprs)?;
    parts.push(cat)?;
    match head(rest) {
        Lexeme::Bar => cats_at(alloc, tail(rest), parts, exprs),
        _ => Ok(rest),
    }
}

/// The choice at the beginning.
#[cycle(parsing)]
fn alt_at<'s>(
    alloc: Global,
    lexemes: &'s [Lexeme],
    exprs: &mut Vec<Expr<Literal>>,
) -> Result<(Pat, &'s [Lexeme]), AllocError>
    ensures exact { IfOk result (λ x. ReadsAlt lexemes.now (map test exprs.old.items) (map test exprs.new.items)
        (tree x.0) x.1.now) }
    ensures shorter { IfOk result (λ x. length x.1.now ≤ length lexemes.now - 1) }
{
    let mut parts = Vec::new(alloc);
    let rest = cats_at(alloc, lexemes, &mut parts, exprs)?;
    Ok((alt_of(parts), rest))
}

/// A query that is parsed.
#[derive(Debug, Drop)]
pub struct Parsed {
    /// Its pattern, over the numbers of its token expressions.
    pub pat: Pat,
    /// Its token expressions, in the order of the text.
    pub exprs: Vec<Expr<Literal>>,
}

/// Parses the lexemes of a query.
///
/// For lexemes that are no query the answer has no meaning. The stack grows with open parentheses and with the parts of
/// a sequence, a choice or a test: about 70 KiB for 2,000 bytes.
pub(crate) fn parse_lexemes(alloc: Global, lexemes: &[Lexeme]) -> Result<Parsed, AllocError>
    ensures { IfOk result (λ p. ReadsQuery lexemes.now (tree p.pat) (map test p.exprs.items)) }
{
    let mut exprs = Vec::new(alloc);
    let (pat, _) = alt_at(alloc, lexemes, &mut exprs)?;
    Ok(Parsed { pat, exprs })
}
