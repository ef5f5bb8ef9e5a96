//! Reads the bodies of imports and corrections.

ghost use Rattle.std.specs.Prelude.{◌≡◌, ◌∷◌, [], List, IfOk, IfErr, MatchResult, map};
ghost use Rattle.tb_conllu.specs.Fault.{MayWantMemory};
ghost use Rattle.tb_conllu.specs.Text.{BlockText, text_of};
ghost use Rattle.tb_core.specs.Taking.{IsBody, IsBodyRefused, IsTakingFault, NewSentenceText, taken_of};
ghost use Rattle.tb_core.specs.declared.refusals.Fault.TheVariants.{Memory};

use crate::bodyfault::reported_first;
use crate::refusals::{Fault, Refusal};
use std::alloc::Global;
use std::marker::Model;
use tb_conllu::{
    Block, Sentences, SourcedSentence, a_file_is_read_in_order, one_list_has_a_text, read,
    reported_bytes_are_no_file, words,
};
use tb_rules::{Checker, a_fault_stays, faulty_sentences_are_not_valid, sent_id_ref};

/// What is kept of a new sentence. It borrows from the body.
#[derive(Drop)]
pub struct NewSentence<'a> {
    /// Its `sent_id`.
    pub sent_id: &'a str,
    /// How many words it has.
    pub words: u64,
    /// Its text, with the blank line: a slice of the body.
    pub text: &'a str,
}

impl<'a> Model for NewSentence<'a> {
    ghost Value = { NewSentenceText };

    ghost view = { λ t. record { sent_id = t.sent_id.now; words = t.words; text = t.text.now } };
}

/// What is kept of a sentence that was read.
fn kept<'a>(passage: &SourcedSentence<'a>) -> NewSentence<'a>
    requires { passage.now.text.now ≡ text_of (passage.now.block ∷ []) }
    ensures { result ≡ taken_of passage.now.block }
{
    NewSentence {
        sent_id: sent_id_ref(&passage.block).unwrap_or(""),
        words: words(&passage.block) as u64,
        text: passage.text,
    }
}

/// The sentences of a body, without the law that `take_file_ref` adds.
fn sentences_of<'a>(alloc: Global, body: &'a [u8]) -> Result<Vec<NewSentence<'a>>, Fault>
    ensures taken { IfOk result (λ v. (bs : List BlockText) × IsBody body.now bs × (v.items ≡ map taken_of bs)) }
    ensures refused { IfErr result (IsTakingFault (IsBodyRefused body.now)) }
    ensures memory { IfErr result (λ e. e ≡ Memory → MayWantMemory body.now) }
{
    // laws: what was read, and what is left, make up the body
    a_file_is_read_in_order();
    a_fault_stays();
    let mut unread = Sentences::new(body);
    let mut checker = Checker::new(alloc);
    let mut all: Vec<NewSentence<'a>> = Vec::new(alloc);
    while let Some(passage) = unread.read_passage(alloc)? {
        if let Err(broken) = checker.take(&passage.block) {
            return Err(reported_first(alloc, &mut unread, broken));
        }
        all.push(kept(&passage))?;
    }
    if all.is_empty() {
        return Err(Fault::from(Refusal::Empty));
    }
    Ok(all)
}

/// The sentences of a body that is a file of one or more valid sentences. Their texts, one after the other, are the
/// body.
///
/// # Errors
///
/// The first that holds, or memory was refused:
///
/// - `Read`: the first line after which no continuation is a file, with its least code.
/// - `Rule`: in a body that can be read to its end, the first sentence that breaks a rule.
/// - `Empty`: the body has no sentence.
pub fn take_file_ref<'a>(alloc: Global, body: &'a [u8]) -> Result<Vec<NewSentence<'a>>, Fault>
    ensures taken { IfOk result (λ v. (bs : List BlockText) × IsBody body.now bs × (v.items ≡ map taken_of bs)) }
    ensures refused { IfErr result (IsTakingFault (IsBodyRefused body.now)) }
    ensures memory { IfErr result (λ e. e ≡ Memory → MayWantMemory body.now) }
    ensures only { (bs : List BlockText) → IsBody body.now bs
        → MatchResult result (λ v. v.items ≡ map taken_of bs) (λ e. e ≡ Memory) }
{
    // laws: a body has exactly one answer
    one_list_has_a_text();
    reported_bytes_are_no_file();
    faulty_sentences_are_not_valid();
    sentences_of(alloc, body)
}

/// The same as `take_file_ref`, but the sentences own their texts.
///
/// # Errors
///
/// Those of `take_file_ref`.
pub fn take_file(alloc: Global, body: &[u8]) -> Result<Vec<Block>, Fault>
    ensures taken { IfOk result (λ v. IsBody body.now v.items) }
    ensures refused { IfErr result (IsTakingFault (IsBodyRefused body.now)) }
    ensures memory { IfErr result (λ e. e ≡ Memory → MayWantMemory body.now) }
    ensures only { (bs : List BlockText) → IsBody body.now bs → MatchResult result (λ v. v.items ≡ bs) (λ e.
        e ≡ Memory) }
{
    // law: the sentences that were checked are those that are read
    one_list_has_a_text();
    let checked = take_file_ref(alloc, body)?;
    drop(checked);
    Ok(read(alloc, body)?)
}
