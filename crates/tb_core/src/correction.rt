//! Reads the body of a correction.

ghost use Rattle.std.specs.Prelude.{◌≡◌, ◌↔◌, ◌∷◌, [], IsTrue, IfOk, IfErr, MatchResult, OnOk};
ghost use Rattle.tb_conllu.specs.Fault.{MayWantMemory};
ghost use Rattle.tb_conllu.specs.Text.{BlockText};
ghost use Rattle.tb_core.specs.Machine.{sent_id_of, text_value_of};
ghost use Rattle.tb_core.specs.Taking.{IsBody, IsCorrection, IsCorrectionRefused, IsTakingFault, IsUnfit};
ghost use Rattle.tb_core.specs.declared.refusals.Fault.TheVariants.{Memory};

use crate::refusals::{Fault, Refusal};
use crate::sameness::same_block;
use crate::taking::take_file_ref;
use std::alloc::Global;
use tb_conllu::{
    Block, BlockOf, Sentences, SourcedSentence, Text, a_file_begins_one_way,
    a_file_is_read_in_order, one_list_has_a_text, own_block, reported_bytes_are_no_file,
};
use tb_rules::{faulty_sentences_are_not_valid, sent_id, text};

/// The `sent_id` of the sentence, empty where it has none.
fn name_of<T: Text>(block: &BlockOf<T>) -> &str
    ensures { result.now ≡ sent_id_of block.now }
{
    sent_id(block).unwrap_or("")
}

/// The value of its comment `text`, empty where it has none.
fn value_of<T: Text>(block: &BlockOf<T>) -> &str
    ensures { result.now ≡ text_value_of block.now }
{
    text(block).unwrap_or("")
}

fn same_name<T: Text, U: Text>(block: &BlockOf<T>, current: &BlockOf<U>) -> bool
    ensures { IsTrue result ↔ (sent_id_of block.now ≡ sent_id_of current.now) }
{
    *name_of(block) == *name_of(current)
}

fn same_value<T: Text, U: Text>(block: &BlockOf<T>, current: &BlockOf<U>) -> bool
    ensures { IsTrue result ↔ (text_value_of block.now ≡ text_value_of current.now) }
{
    *value_of(block) == *value_of(current)
}

/// Whether the sentence is a correction of the current one.
fn fits<T: Text, U: Text>(block: &BlockOf<T>, current: &BlockOf<U>) -> Result<(), Refusal>
    ensures named { OnOk result (sent_id_of block.now ≡ sent_id_of current.now) }
    ensures spelled { OnOk result (text_value_of block.now ≡ text_value_of current.now) }
    ensures new { OnOk result (block.now ≡ current.now → ⊥) }
    ensures unfit { IfErr result (IsUnfit block.now current.now) }
{
    if !same_name(block, current) {
        return Err(Refusal::SentIdChanged);
    }
    if !same_value(block, current) {
        return Err(Refusal::TextChanged);
    }
    if same_block(block, current) {
        return Err(Refusal::NothingChanged);
    }
    Ok(())
}

/// The one sentence of a body.
fn only_sentence<'a>(alloc: Global, body: &'a [u8]) -> Result<SourcedSentence<'a>, Fault>
    ensures taken { IfOk result (λ p. IsBody body.now (p.block ∷ [])) }
    ensures text { IfOk result (λ p. p.text.now ≡ body.now) }
    ensures refused { (current : BlockText) → IfErr result (IsTakingFault (IsCorrectionRefused body.now current)) }
    ensures memory { IfErr result (λ e. e ≡ Memory → MayWantMemory body.now) }
{
    // laws: the first sentence that is read is the one that was checked
    a_file_is_read_in_order();
    a_file_begins_one_way();
    let checked = take_file_ref(alloc, body)?;
    if checked.len() > 1 {
        return Err(Fault::from(Refusal::NotOne));
    }
    let mut unread = Sentences::new(body);
    match unread.read_passage(alloc)? {
        Some(passage) => Ok(passage),
        None => Err(Fault::from(Refusal::Empty)),
    }
}

/// The one sentence of a body, which corrects the current one: it has the same `sent_id` and `text`, and differs.
///
/// It borrows from the body, which is its text.
///
/// # Errors
///
/// The first that holds: those of `take_file_ref`; `NotOne`, `SentIdChanged`, `TextChanged`, `NothingChanged`. Or
/// memory was refused.
pub fn take_one_ref<'a, T: Text>(
    alloc: Global,
    body: &'a [u8],
    current: &BlockOf<T>,
) -> Result<SourcedSentence<'a>, Fault>
    ensures taken { IfOk result (λ p. IsCorrection body.now current.now p.block) }
    ensures text { IfOk result (λ p. p.text.now ≡ body.now) }
    ensures refused { IfErr result (IsTakingFault (IsCorrectionRefused body.now current.now)) }
    ensures memory { IfErr result (λ e. e ≡ Memory → MayWantMemory body.now) }
    ensures only { (b : BlockText) → IsCorrection body.now current.now b
        → MatchResult result (λ p. p.block ≡ b) (λ e. e ≡ Memory) }
{
    // laws: a body has exactly one answer
    one_list_has_a_text();
    reported_bytes_are_no_file();
    faulty_sentences_are_not_valid();
    let passage = only_sentence(alloc, body)?;
    fits(&passage.block, current)?;
    Ok(passage)
}

/// The same as `take_one_ref`, but the sentence owns its texts.
///
/// # Errors
///
/// Those of `take_one_ref`.
pub fn take_one<T: Text>(alloc: Global, body: &[u8], current: &BlockOf<T>) -> Result<Block, Fault>
    ensures taken { IfOk result (IsCorrection body.now current.now) }
    ensures refused { IfErr result (IsTakingFault (IsCorrectionRefused body.now current.now)) }
    ensures memory { IfErr result (λ e. e ≡ Memory → MayWantMemory body.now) }
    ensures only { (b : BlockText) → IsCorrection body.now current.now b → MatchResult result (λ v. v ≡ b) (λ e.
        e ≡ Memory) }
{
    let passage = take_one_ref(alloc, body, current)?;
    Ok(own_block(alloc, &passage.block)?)
}
