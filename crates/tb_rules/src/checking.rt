//! Tests rules 1 to 11, one after another.

ghost use Rattle.std.specs.Prelude.{◌≡◌, ◌≤◌, All, OnOk, IfOk, IfErr, IsOk, MatchOption, length, false};
ghost use Rattle.std.specs.List.{list_any};
ghost use Rattle.tb_rules.specs.Rules.{HasWords, HasSpans, HasNodes, HasFeatures, HasDependencies, KeepsTo6};
ghost use Rattle.tb_rules.specs.Rules.{HasShortLists, KeepsRules, KeepsTo, IsRuleFault};
ghost use Rattle.tb_rules.specs.Named.{is_node_id};
ghost use Rattle.tb_conllu.specs.Words.{words_of};
ghost use Rattle.tb_rules.specs.Ids.{HasIds};
ghost use Rattle.tb_rules.specs.Rows.{IsFirstFault};
ghost use Rattle.tb_rules.specs.declared.fault.RuleFault.TheVariants.{Memory};
ghost use Rattle.tb_rules.specs.Words.{word_test};
ghost use Rattle.tb_rules.specs.Spans.{span_test};
ghost use Rattle.tb_rules.specs.Nodes.{node_test};
ghost use Rattle.tb_rules.specs.Feats.{feature_test};
ghost use Rattle.tb_rules.specs.Deps.{dependency_test};

use crate::accepted::Accepted;
use crate::comments::{has_sent_id, has_text};
use crate::deps::dependency_fault;
use crate::fault::RuleFault;
use crate::feats::feature_fault;
use crate::ids::has_ids;
use crate::nodes::node_fault;
use crate::spans::span_fault;
use crate::spelling::is_restored;
use crate::tree::{has_one_root, has_tree};
use crate::words::word_fault;
use std::alloc::{AllocError, Global};
use tb_conllu::{BlockOf, Text, words};

pub(crate) fn word_row<T: Text>(
    alloc: Global,
    accepted: &mut Accepted,
    block: &BlockOf<T>,
    words: usize,
) -> Option<usize>
    requires { words ≡ words_of block.now }
    ensures { MatchOption result (HasWords block.now) (IsFirstFault (word_test (words_of block.now)) block.now.rows) }
{
    word_fault(alloc, accepted, &block.rows, words)
}

pub(crate) fn span_row<T: Text>(block: &BlockOf<T>, words: usize) -> Option<usize>
    requires { words ≡ words_of block.now }
    ensures { MatchOption result (HasSpans block.now) (IsFirstFault (span_test (words_of block.now)) block.now.rows) }
{
    span_fault(&block.rows, words)
}

pub(crate) fn node_row<T: Text>(block: &BlockOf<T>) -> Option<usize>
    ensures { MatchOption result (HasNodes block.now) (IsFirstFault node_test block.now.rows) }
{
    node_fault(&block.rows)
}

pub(crate) fn feature_row<T: Text>(
    alloc: Global,
    accepted: &mut Accepted,
    block: &BlockOf<T>,
) -> Result<Option<usize>, AllocError>
    ensures value { IfOk result (λ r. MatchOption r (HasFeatures block.now)
        (IsFirstFault feature_test block.now.rows)) }
    ensures sure { All (λ r. length r.feats ≤ 32) block.now.rows → IsOk result }
{
    feature_fault(alloc, accepted, &block.rows)
}

pub(crate) fn dependency_row<T: Text>(
    alloc: Global,
    block: &BlockOf<T>,
    words: usize,
) -> Result<Option<usize>, AllocError>
    requires count { words ≡ words_of block.now }
    requires ids { HasIds block.now }
    ensures value { IfOk result (λ r. MatchOption r (HasDependencies block.now)
        (IsFirstFault (dependency_test block.now.rows) block.now.rows)) }
    ensures sure { list_any (λ r. is_node_id r.id) block.now.rows ≡ false → IsOk result }
{
    dependency_fault(alloc, &block.rows, words)
}

/// The least broken rule of 1 to 6: comments, and each row by itself and by its place.
fn check_rows<T: Text>(
    alloc: Global,
    accepted: &mut Accepted,
    block: &BlockOf<T>,
    words: usize,
) -> Result<(), RuleFault>
    requires { words ≡ words_of block.now }
    ensures valid { OnOk result (KeepsTo6 block.now) }
    ensures fault { IfErr result (IsRuleFault block.now) }
    ensures memory { IfErr result (λ e. e ≡ Memory → ⊥) }
{
    if !has_sent_id(block) {
        return Err(RuleFault::At { rule: 1, row: 0 });
    }
    if !has_text(block) {
        return Err(RuleFault::At { rule: 2, row: 0 });
    }
    if !has_ids(block, words) {
        return Err(RuleFault::At { rule: 3, row: 0 });
    }
    if let Some(row) = word_row(alloc, accepted, block, words) {
        return Err(RuleFault::At { rule: 4, row });
    }
    if let Some(row) = span_row(block, words) {
        return Err(RuleFault::At { rule: 5, row });
    }
    if let Some(row) = node_row(block) {
        return Err(RuleFault::At { rule: 6, row });
    }
    Ok(())
}

/// The least broken rule of 7 to 11: lists in fields, the tree, and the text.
fn check_whole<T: Text>(
    alloc: Global,
    accepted: &mut Accepted,
    block: &BlockOf<T>,
    words: usize,
) -> Result<(), RuleFault>
    requires count { words ≡ words_of block.now }
    requires kept { KeepsTo6 block.now }
    ensures valid { OnOk result (KeepsRules block.now) }
    ensures fault { IfErr result (IsRuleFault block.now) }
    ensures lists { IfErr result (λ e. e ≡ Memory → HasShortLists block.now → KeepsTo 9 block.now) }
{
    if let Some(row) = feature_row(alloc, accepted, block)? {
        return Err(RuleFault::At { rule: 7, row });
    }
    if let Some(row) = dependency_row(alloc, block, words)? {
        return Err(RuleFault::At { rule: 8, row });
    }
    if !has_one_root(block) {
        return Err(RuleFault::At { rule: 9, row: 0 });
    }
    if !has_tree(alloc, block)? {
        return Err(RuleFault::At { rule: 10, row: 0 });
    }
    if !is_restored(alloc, block)? {
        return Err(RuleFault::At { rule: 11, row: 0 });
    }
    Ok(())
}

/// The least broken rule of 1 to 11. Fields that were accepted before are not tested again.
pub(crate) fn first_broken<T: Text>(
    alloc: Global,
    accepted: &mut Accepted,
    block: &BlockOf<T>,
) -> Result<(), RuleFault>
    ensures valid { OnOk result (KeepsRules block.now) }
    ensures fault { IfErr result (IsRuleFault block.now) }
    ensures memory { IfErr result (λ e. e ≡ Memory → KeepsTo6 block.now) }
    ensures lists { IfErr result (λ e. e ≡ Memory → HasShortLists block.now → KeepsTo 9 block.now) }
{
    let words = words(block);
    match check_rows(alloc, accepted, block, words) {
        Ok(()) => check_whole(alloc, accepted, block, words),
        Err(fault) => Err(fault),
    }
}

/// Whether the sentence keeps rules 1 to 11.
///
/// # Errors
///
/// The least broken rule. For rules 4 to 8 it has the first row at fault, counted from 1; for the others row 0. Or
/// memory was refused, which comes only where rules 1 to 6 are kept, or 1 to 9 where FEATS and DEPS take no memory.
pub fn check<T: Text>(alloc: Global, block: &BlockOf<T>) -> Result<(), RuleFault>
    ensures valid { OnOk result (KeepsRules block.now) }
    ensures fault { IfErr result (IsRuleFault block.now) }
    ensures only { KeepsRules block.now → IfErr result (λ e. e ≡ Memory) }
    ensures memory { IfErr result (λ e. e ≡ Memory → KeepsTo6 block.now) }
    ensures lists { IfErr result (λ e. e ≡ Memory → HasShortLists block.now → KeepsTo 9 block.now) }
{
    first_broken(alloc, &mut Accepted::none(alloc), block)
}
