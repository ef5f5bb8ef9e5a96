ghost use Rattle.std.specs.Prelude.{◌≡◌, ◌≢◌, ◌-◌, ◌<◌, ◌≤◌, ◌↔◌, IsTrue, IfOk, MatchOption, None};
ghost use Rattle.std.specs.Prelude.{count_by, length, slice_index};
ghost use Rattle.tb_rules.specs.Tree.{is_root, HasOneRoot, head_number, heads_of, head_at, ReachesRoot, IsTree};
ghost use Rattle.tb_rules.specs.Tree.{HasTree};
ghost use Rattle.tb_rules.specs.Depths.{IsDepth, AreDepths};

use std::alloc::{AllocError, Global};
use tb_conllu::{BlockOf, RowOf, Text, is_word_row};

fn is_root_row<T: Text>(row: &RowOf<T>) -> bool
    ensures { result ≡ is_root row.now }
{
    is_word_row(row) && row.head == Some(0)
}

fn roots<T: Text>(block: &BlockOf<T>) -> usize
    ensures { result ≡ count_by is_root block.now.rows }
{
    block.rows.iter().filter(|row| is_root_row(*row)).count()
}

/// Whether exactly one word has the head 0.
pub(crate) fn has_one_root<T: Text>(block: &BlockOf<T>) -> bool
    ensures { IsTrue result ↔ HasOneRoot block.now }
{
    roots(block) == 1
}

fn head_or_zero<T: Text>(row: &RowOf<T>) -> u32
    ensures { result ≡ head_number row.now.head }
{
    match row.head {
        None => 0,
        Some(number) => number,
    }
}

/// The heads of the words, in order.
fn word_heads<T: Text>(alloc: Global, block: &BlockOf<T>) -> Result<Vec<u32>, AllocError>
    ensures { IfOk result (λ v. v.items ≡ heads_of block.now) }
{
    block
        .rows
        .iter()
        .filter(|row| is_word_row(*row))
        .map(|row| head_or_zero(row))
        .collect(alloc)
}

/// One step along the heads; from 0 it stays at 0.
fn step(heads: &[u32], at: usize) -> usize
    ensures { result ≡ head_at heads.now at }
{
    if at == 0 {
        return 0;
    }
    match heads.get(at - 1) {
        None => 0,
        Some(head) => *head as usize,
    }
}

/// The number of steps from `at` to the root, if it is known: 0 at the root, 1 from past the last word.
fn known_depth(heads: &[u32], depths: &[usize], at: usize) -> Option<usize>
    requires { AreDepths heads.now depths.now }
    ensures depth { MatchOption result ((0 < at) × (at ≤ length depths.now)) (IsDepth heads.now at) }
    ensures noted { 0 < at → at ≤ length heads.now
        → (result ≡ None ↔ (slice_index depths.now (at - 1) ≡ 0)) }
{
    if at == 0 {
        return Some(0);
    }
    if at > heads.len() {
        return Some(1);
    }
    match depths[at - 1] {
        0 => None,
        depth => Some(depth),
    }
}

/// The number of steps from the word to the root, or none where it does not reach the root.
///
/// Walks to the first word whose depth is known.
fn depth(heads: &[u32], depths: &[usize], word: usize) -> Option<usize>
    requires { AreDepths heads.now depths.now }
    ensures { MatchOption result (¬ ReachesRoot heads.now word) (λ d. IsDepth heads.now word d
        × (d ≤ length heads.now)) }
{
    let mut at = word;
    for steps in 0..=heads.len() {
        if let Some(rest) = known_depth(heads, depths, at) {
            if rest > heads.len() - steps {
                return None;
            }
            return Some(steps + rest);
        }
        at = step(heads, at);
    }
    None
}

/// Writes the depths of the word and of those above it, up to the first that is known.
fn note_depths(heads: &[u32], depths: &mut [usize], word: usize, depth: usize)
    requires known { AreDepths heads.now depths.old }
    requires depth { IsDepth heads.now word depth }
    ensures known { AreDepths heads.now depths.new }
    ensures noted { 0 < depth → word ≤ length heads.now → slice_index depths.new (word - 1) ≢ 0 }
{
    let mut at = word;
    for left in (0..depth).rev() {
        if known_depth(heads, depths, at).is_some() {
            return;
        }
        depths[at - 1] = left + 1;
        at = step(heads, at);
    }
}

/// Whether each word reaches the root. A walk ends at the first word whose depth is known, so no word is walked over
/// twice.
fn all_reach_root(heads: &[u32], depths: &mut [usize]) -> bool
    requires { AreDepths heads.now depths.old }
    ensures { IsTrue result ↔ IsTree heads.now }
{
    for k in 0..heads.len() {
        let Some(depth) = depth(heads, depths, k + 1) else {
            return false;
        };
        note_depths(heads, depths, k + 1, depth);
    }
    true
}

/// The same, with room for the depths. Only that takes memory.
fn is_tree(alloc: Global, heads: &[u32]) -> Result<bool, AllocError>
    ensures { IfOk result (λ b. IsTrue b ↔ IsTree heads.now) }
{
    let mut depths = vec![in alloc; 0usize; heads.len()]?;
    Ok(all_reach_root(heads, &mut depths))
}

/// Whether from each word steps along the heads lead to the root.
pub(crate) fn has_tree<T: Text>(alloc: Global, block: &BlockOf<T>) -> Result<bool, AllocError>
    ensures { IfOk result (λ b. IsTrue b ↔ HasTree block.now) }
{
    let heads = word_heads(alloc, block)?;
    is_tree(alloc, &heads)
}
