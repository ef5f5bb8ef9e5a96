//! The words and the empty nodes that a head may name.

ghost use Rattle.std.specs.Prelude.{◌≡◌, ◌+◌, ◌<◌, ◌^◌, IfOk, IsOk, slice_index, slice_set, vec_len, false};
ghost use Rattle.std.specs.List.{list_any};
ghost use Rattle.tb_rules.specs.Named.{is_word_numbered, is_node_numbered, is_node_id, AreNumbered, AreNodeCounts};
ghost use Rattle.tb_rules.specs.Named.{TellIds};
ghost use Rattle.tb_rules.specs.Places.{is_there, is_place_there};

use std::alloc::{AllocError, Global};
use tb_conllu::{LineId, RowOf, Text};

/// The rows of a sentence, and the counts that show which IDs they have.
#[derive(Drop)]
pub(crate) struct Heads<'a, T: Text> {
    pub(crate) rows: &'a [RowOf<T>],
    words: usize,
    nodes: Vec<usize>,
    ghost reported: { TellIds rows.now words nodes.items },
}

fn is_node<T: Text>(row: &RowOf<T>) -> bool
    ensures { result ≡ is_node_id row.now.id }
{
    match row.id {
        LineId::Word(_) | LineId::Span(..) => false,
        LineId::Empty(..) => true,
    }
}

fn has_nodes<T: Text>(rows: &[RowOf<T>]) -> bool
    ensures { result ≡ list_any (λ r. is_node_id r.id) rows.now }
{
    rows.iter().any(|row| is_node(row))
}

fn count_one(counts: &mut Vec<usize>, place: usize)
    requires within { place < vec_len counts.old }
    requires fits { slice_index counts.old.items place + 1 < 2 ^ 64 }
    ensures { counts.new.items ≡ slice_set counts.old.items place (slice_index counts.old.items place + 1) }
{
    counts[place] += 1;
}

/// How many empty nodes come after each word, and before the first.
fn counts<T: Text>(alloc: Global, rows: &[RowOf<T>], words: usize) -> Result<Vec<usize>, AllocError>
    requires { AreNumbered rows.now words }
    ensures { IfOk result (λ v. AreNodeCounts rows.now v.items) }
{
    let mut nodes = vec![in alloc; 0usize; words + 1]?;
    for row in rows {
        if let LineId::Empty(word, _) = row.id {
            count_one(&mut nodes, word as usize);
        }
    }
    Ok(nodes)
}

/// The counts of the empty nodes. A sentence without them takes no memory.
fn node_counts<T: Text>(
    alloc: Global,
    rows: &[RowOf<T>],
    words: usize,
) -> Result<Vec<usize>, AllocError>
    requires { AreNumbered rows.now words }
    ensures counts { IfOk result (λ v. AreNodeCounts rows.now v.items) }
    ensures sure { list_any (λ r. is_node_id r.id) rows.now ≡ false → IsOk result }
{
    if has_nodes(rows) {
        counts(alloc, rows, words)
    } else {
        Ok(Vec::new(alloc))
    }
}

/// The IDs of a sentence with `words` words, whose rows have the right numbers.
pub(crate) fn heads_in<T: Text>(
    alloc: Global,
    rows: &[RowOf<T>],
    words: usize,
) -> Result<Heads<'_, T>, AllocError>
    requires { AreNumbered rows.now words }
    ensures rows { IfOk result (λ h. h.rows.now ≡ rows.now) }
    ensures sure { list_any (λ r. is_node_id r.id) rows.now ≡ false → IsOk result }
{
    let nodes = node_counts(alloc, rows, words)?;
    Ok(Heads { rows, words, nodes })
}

fn has_word<T: Text>(heads: &Heads<'_, T>, number: usize) -> bool
    ensures { result ≡ list_any (λ r. is_word_numbered number r.id) heads.now.rows.now }
{
    number > 0 && number <= heads.words
}

fn nodes_after<T: Text>(heads: &Heads<'_, T>, word: usize) -> usize
    ensures { result ≡ slice_index heads.now.nodes.items word }
{
    heads.nodes.get(word).copied().unwrap_or(0)
}

fn has_node<T: Text>(heads: &Heads<'_, T>, word: usize, node: usize) -> bool
    ensures { result ≡ list_any (λ r. is_node_numbered word node r.id) heads.now.rows.now }
{
    node > 0 && node <= nodes_after(heads, word)
}

fn stands_in<T: Text>(heads: &Heads<'_, T>, place: (usize, usize)) -> bool
    ensures { result ≡ is_there heads.now.rows.now place }
{
    if place.1 == 0 {
        place.0 == 0 || has_word(heads, place.0)
    } else {
        has_node(heads, place.0, place.1)
    }
}

/// Whether the head is the root, a word or an empty node of the sentence.
pub(crate) fn head_stands_in<T: Text>(heads: &Heads<'_, T>, head: Option<(usize, usize)>) -> bool
    ensures { result ≡ is_place_there heads.now.rows.now head }
{
    match head {
        None => false,
        Some(place) => stands_in(heads, place),
    }
}
