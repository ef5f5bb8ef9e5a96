//! Which of the pairs in DEPS is at fault.

ghost use Rattle.std.specs.Prelude.{◌≡◌, ◌↔◌, ◌+◌, ◌<◌, ◌^◌, IfErr, IfOk, IfSome, IsTrue, length, MatchOption};
ghost use Rattle.tb_conllu.specs.declared.id.LineId.{LineId};
ghost use Rattle.tb_rules.specs.Ids.{is_in_place};
ghost use Rattle.tb_rules.specs.Rows.{EachRowPasses};
ghost use Rattle.tb_words.specs.PairFaults.{CountNodes, IsBefore, IsHead, IsNoHead, IsRight, IsThere, SaysDeps};
ghost use Rattle.tb_words.specs.PairFaults.{SaysPair, SaysPairs, Writes, place_of};

use crate::sentences as reported;
use std::alloc::{AllocError, Global};
use tb_conllu::{LineId, RowRef, id_of};

/// How many empty nodes come after each word of a sentence, those before the first word first. The rows are numbered in
/// order.
fn nodes_after(alloc: Global, rows: &[RowRef<'_>]) -> Result<Vec<u32>, AllocError>
    ensures { length rows.now + 1 < 2 ^ 32 → EachRowPasses is_in_place rows.now
        → IfOk result (λ nodes. CountNodes rows.now nodes.items) }
{
    let mut counts = Vec::new(alloc);
    let mut count: u32 = 0;
    for row in rows {
        match row.id {
            LineId::Word(_) => {
                counts.push(count)?;
                count = 0;
            }
            LineId::Empty(..) => count = count.saturating_add(1),
            LineId::Span(..) => {}
        }
    }
    counts.push(count)?;
    Ok(counts)
}

/// The word or the empty node that a text names, by its number and the number of the node.
fn place_in(text: &str) -> Option<(u32, u32)>
    ensures { MatchOption result ((id : LineId) → Writes text.now id → ⊥)
        (λ place. (id : LineId) × Writes text.now id × (place ≡ place_of id)) }
{
    let Some(id) = id_of(text) else {
        return None;
    };
    match id {
        LineId::Word(word) => Some((word, 0)),
        LineId::Empty(word, node) => Some((word, node)),
        LineId::Span(..) => None,
    }
}

/// Whether a sentence with so many empty nodes after each word has this word, or this empty node.
fn is_there(nodes: &[u32], place: (u32, u32)) -> bool
    ensures { IsTrue result ↔ IsThere nodes.now place }
{
    match nodes.get(place.0 as usize) {
        Some(last) => place.1 <= *last,
        None => false,
    }
}

/// The head that a text names in a sentence, as the numbers of its word and of its empty node.
fn head_in(nodes: &[u32], text: &str) -> Option<(u32, u32)>
    ensures { MatchOption result (IsNoHead nodes.now text.now) (IsHead nodes.now text.now) }
{
    if text == "0" {
        return Some((0, 0));
    }
    let place = place_in(text)?;
    if is_there(nodes, place) {
        Some(place)
    } else {
        None
    }
}

fn is_before(first: (u32, u32), second: (u32, u32)) -> bool
    ensures { IsTrue result ↔ IsBefore first second }
{
    first.0 < second.0 || (first.0 == second.0 && first.1 < second.1)
}

/// The head of a pair after one with the head `before`, or what is wrong with the pair.
fn head_after(nodes: &[u32], before: (u32, u32), pair: &str) -> Result<(u32, u32), &'static str>
    ensures right { IfOk result (IsRight nodes.now before pair.now) }
    ensures wrong { IfErr result (λ said. SaysPair nodes.now before pair.now said.now) }
{
    let Some((front, relation)) = pair.split_once(':') else {
        return Err(reported::PAIR_FORM);
    };
    let Some(head) = head_in(nodes, front) else {
        return Err(reported::PAIR_HEAD);
    };
    if relation.is_empty() {
        return Err(reported::PAIR_RELATION);
    }
    if is_before(head, before) {
        return Err(reported::PAIR_ORDER);
    }
    Ok(head)
}

/// The first pair that is at fault in a sentence with so many empty nodes after each word, and what is wrong with it.
fn fault_with<'a>(nodes: &[u32], deps: &'a str) -> (&'a str, &'static str)
    ensures { SaysPairs nodes.now deps.now result.0.now result.1.now }
{
    let mut before = (0, 0);
    for pair in deps.split('|') {
        match head_after(nodes, before, pair) {
            Ok(head) => before = head,
            Err(sentence) => return (pair, sentence),
        }
    }
    (deps, reported::BROKEN)
}

/// The first pair that is at fault, and what is wrong with it. `None` for want of memory.
pub(crate) fn pair_fault<'a>(
    alloc: Global,
    rows: &[RowRef<'_>],
    deps: &'a str,
) -> Option<(&'a str, &'static str)>
    ensures { IfSome result (λ told. SaysDeps rows.now deps.now told.0.now told.1.now) }
{
    let nodes = nodes_after(alloc, rows).ok()?;
    Some(fault_with(nodes.as_slice(), deps))
}
