//! Finds every rule that a sentence breaks.

ghost use Rattle.std.specs.Prelude.{◌≡◌, ◌↔◌, ◌++◌, ◌∷◌, [], IfOk, IsOk, IsTrue, List, MatchOption, None, OnOk, map};
ghost use Rattle.tb_conllu.specs.Text.{BlockText};
ghost use Rattle.tb_conllu.specs.Words.{words_of};
ghost use Rattle.tb_rules.specs.Broken.{AreBroken, AreBrokenOf, IsAsked, IsBrokenAt, TakesNoMemory, rule_of};
ghost use Rattle.tb_rules.specs.Comments.{HasText};
ghost use Rattle.tb_rules.specs.Ids.{HasIds};
ghost use Rattle.tb_rules.specs.Restored.{IsRestored};
ghost use Rattle.tb_rules.specs.Rules.{Keeps};
ghost use Rattle.tb_rules.specs.Rules as rules;
ghost use Rattle.tb_rules.specs.Tree.{HasTree};

use crate::accepted::Accepted;
use crate::checking::{dependency_row, feature_row, node_row, span_row, word_row};
use crate::comments::{has_sent_id, has_text, sent_id};
use crate::ids::has_ids;
use crate::rule::{RULES, Rule, number_of};
use crate::spelling::is_restored;
use crate::tree::{has_one_root, has_tree};
use std::alloc::{AllocError, Global};
use tb_conllu::{BlockOf, Text, words};

/// A rule that a sentence breaks.
#[derive(Clone, Copy, Debug, PartialEq, Eq)]
pub struct BrokenRule {
    /// Its number, 1 to 12.
    pub rule: u8,
    /// For rules 4 to 8 the first row at fault, counted from 1, else 0.
    pub row: usize,
}

/// Row 0, if a rule of whole sentences is broken.
fn row_unless(kept: bool) -> Option<usize>
    ensures { MatchOption result (IsTrue kept) (λ row. (IsTrue kept → ⊥) × (row ≡ 0)) }
{
    if kept { None } else { Some(0) }
}

fn tree_row<T: Text>(alloc: Global, block: &BlockOf<T>) -> Result<Option<usize>, AllocError>
    ensures { IfOk result (λ r. MatchOption r (HasTree block.now)
        (λ row. (HasTree block.now → ⊥) × (row ≡ 0))) }
{
    Ok(row_unless(has_tree(alloc, block)?))
}

fn restored_row<T: Text>(alloc: Global, block: &BlockOf<T>) -> Result<Option<usize>, AllocError>
    ensures { IfOk result (λ r. MatchOption r (IsRestored block.now)
        (λ row. (IsRestored block.now → ⊥) × (row ≡ 0))) }
{
    Ok(row_unless(is_restored(alloc, block)?))
}

/// The row of the rule's fault; `None` where the sentence keeps the rule.
fn broken_row<T: Text>(
    alloc: Global,
    accepted: &mut Accepted,
    block: &BlockOf<T>,
    words: usize,
    rule: Rule,
) -> Result<Option<usize>, AllocError>
    requires count { words ≡ words_of block.now }
    requires asked { IsAsked (rule_of rule) block.now }
    ensures row { IfOk result (λ r. MatchOption r (Keeps (rule_of rule) block.now)
        (IsBrokenAt (rule_of rule) block.now)) }
    ensures sure { TakesNoMemory (rule_of rule) block.now → IsOk result }
{
    match rule {
        Rule::SentId => Ok(row_unless(has_sent_id(block))),
        Rule::Text => Ok(row_unless(has_text(block))),
        Rule::Ids => Ok(row_unless(has_ids(block, words))),
        Rule::Words => Ok(word_row(alloc, accepted, block, words)),
        Rule::Spans => Ok(span_row(block, words)),
        Rule::Nodes => Ok(node_row(block)),
        Rule::Features => feature_row(alloc, accepted, block),
        Rule::Dependencies => dependency_row(alloc, block, words),
        Rule::OneRoot => Ok(row_unless(has_one_root(block))),
        Rule::Tree => tree_row(alloc, block),
        Rule::Restored => restored_row(alloc, block),
    }
}

/// Whether the rule is asked of a sentence. `text` and `ids` say whether it keeps the rules of these names.
fn is_asked(rule: Rule, text: bool, ids: bool) -> bool
    ensures { (b : BlockText) → IsTrue text ↔ HasText b → IsTrue ids ↔ HasIds b
        → IsTrue result ↔ IsAsked (rule_of rule) b }
{
    match rule {
        Rule::Dependencies | Rule::Tree => ids,
        Rule::Restored => text && ids,
        _ => true,
    }
}

/// Adds the rule with this row, if there is one.
fn push_row(broken: &mut Vec<BrokenRule>, rule: Rule, row: Option<usize>) -> Result<(), AllocError>
    ensures added { OnOk result ((rs : List rules.Rule) (b : BlockText) → AreBrokenOf rs b broken.old.items
        → IsAsked (rule_of rule) b → MatchOption row (Keeps (rule_of rule) b) (IsBrokenAt (rule_of rule) b)
        → AreBrokenOf (rs ++ rule_of rule ∷ []) b broken.new.items) }
    ensures none { row ≡ None → IsOk result }
{
    let Some(row) = row else {
        return Ok(());
    };
    broken.push(BrokenRule {
        rule: number_of(rule),
        row,
    })?;
    Ok(())
}

/// Those of the rules that are asked and broken, in order. Fields that were accepted before are not tested again.
pub(crate) fn broken_of<T: Text>(
    alloc: Global,
    accepted: &mut Accepted,
    block: &BlockOf<T>,
    rules: &[Rule],
) -> Result<Vec<BrokenRule>, AllocError>
    ensures { IfOk result (λ v. AreBrokenOf (map rule_of rules.now) block.now v.items) }
{
    let words = words(block);
    let text = has_text(block);
    let ids = has_ids(block, words);
    let mut broken = Vec::new(alloc);
    for rule in rules {
        if !is_asked(*rule, text, ids) {
            continue;
        }
        let row = broken_row(alloc, accepted, block, words, *rule)?;
        push_row(&mut broken, *rule, row)?;
    }
    Ok(broken)
}

/// Rules 1 to 11 that the sentence breaks, in order.
///
/// Rules 8, 10 and 11 are asked only where rule 3 is kept, and rule 11 only where rule 2 is kept too. Else the answer
/// would say no more than those rules.
///
/// # Errors
///
/// Memory was refused.
pub fn broken_rules<T: Text>(
    alloc: Global,
    block: &BlockOf<T>,
) -> Result<Vec<BrokenRule>, AllocError>
    ensures { IfOk result (λ v. AreBroken block.now v.items) }
{
    broken_of(alloc, &mut Accepted::none(alloc), block, &RULES)
}
