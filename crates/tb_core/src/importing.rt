//! An import, judged in three parts: by its name, by its body, and by the sentences that are there.

ghost use Rattle.std.specs.Prelude.{◌≡◌, ◌+◌, ◌&&◌, List, ℕ, length, map, nat_le, IfOk, IfErr, OnOk};
ghost use Rattle.tb_conllu.specs.Fault.{MayWantMemory};
ghost use Rattle.tb_conllu.specs.Text.{BlockText};
ghost use Rattle.tb_core.specs.declared.limits.Limits.{Limits};
ghost use Rattle.tb_core.specs.declared.refusals.Fault.TheVariants.{Memory};
ghost use Rattle.tb_core.specs.Machine.{Machine};
ghost use Rattle.tb_core.specs.Acts.{importing, IsAllowed, after};
ghost use Rattle.tb_core.specs.Reaching.{Reached};
ghost use Rattle.tb_core.specs.Commands.{import_file, imported, replied, refused, reply_to};
ghost use Rattle.tb_core.specs.Taking.{IsBody, IsTakingFault, taken_of};
ghost use Rattle.tb_core.specs.Steps.{Steps};
ghost use Rattle.tb_core.specs.Found.{is_free, FindsName, FindsId};
ghost use Rattle.tb_core.specs.Parts.{IfRepeat, IfGoes, IsNamedImport, IsTakenImport};

use crate::judged::Judged;
use crate::room::{good_names, has_room};
use crate::{Fault, Imported, Limits, NewSentence, Refusal, take_file_ref};
use std::alloc::Global;
use tb_conllu::{one_list_has_a_text, reported_bytes_are_no_file};
use tb_rules::faulty_sentences_are_not_valid;

/// Whether a batch has the name of an import, and whether the import made it.
#[derive(Clone, Copy, PartialEq, Eq, Debug)]
pub enum NameFound {
    /// No batch has it.
    Free,
    /// A batch has it, whose first revisions are not the body.
    Taken,
    /// A batch has it, whose first revisions are the body, byte for byte. The reply is that of its import.
    Same(Imported),
}

fn no_batch_has(found: NameFound) -> bool
    ensures { result ≡ is_free found }
{
    match found {
        NameFound::Free => true,
        NameFound::Taken | NameFound::Same(_) => false,
    }
}

/// Whether the limits have room for this number of new sentences, and for one more move.
fn has_import_room(limits: &Limits, new: u64, sentences: u64, moves: u64) -> bool
    ensures { result ≡ (nat_le (sentences + new) limits.now.sentences && nat_le (moves + 1) limits.now.moves) }
{
    has_sentence_room(limits, new, sentences) && has_room(limits, moves)
}

fn has_sentence_room(limits: &Limits, new: u64, sentences: u64) -> bool
    ensures { result ≡ nat_le (sentences + new) limits.now.sentences }
{
    sentences <= limits.sentences && new <= limits.sentences - sentences
}

/// The first part of the tests of an import, which needs only the bytes of the body. Says whether the command is a
/// repeat, with the reply that it had, or goes on. `found` says whether a batch has the name.
///
/// # Errors
///
/// `BadName`, for the batch's name or the user's.
pub fn judge_import_before(
    name: &str,
    user: &str,
    found: NameFound,
) -> Result<Judged<Imported>, Refusal>
    ensures refused { IfErr result (λ r. (l : Limits) (s : Machine) (body : List ℕ)
        → Steps l s (import_file name.now user.now body) (refused r) s) }
    ensures repeated { IfOk result (IfRepeat (λ reply. (l : Limits) (s : Machine) (body : List ℕ)
        → FindsName s name.now body found
        → Steps l s (import_file name.now user.now body) (replied (imported reply)) s)) }
    ensures goes { IfOk result (IfGoes ((s : Machine) (body : List ℕ) → Reached s
        → FindsName s name.now body found → IsNamedImport s name.now user.now body)) }
{
    if !good_names(name, user) {
        return Err(Refusal::BadName);
    }
    match found {
        NameFound::Same(reply) => Ok(Judged::Repeat(reply)),
        NameFound::Free | NameFound::Taken => Ok(Judged::Continue),
    }
}

/// The second part of the tests of an import: the sentences of its body. `found` says whether a batch has the name.
///
/// # Errors
///
/// Those of `take_file_ref`, then `NameTaken`.
pub fn judge_import_body<'a>(
    alloc: Global,
    body: &'a [u8],
    found: NameFound,
) -> Result<Vec<NewSentence<'a>>, Fault>
    ensures refused { IfErr result (IsTakingFault (λ r. (l : Limits) (s : Machine) (name user : List ℕ)
        → IsNamedImport s name user body.now → FindsName s name body.now found
        → Steps l s (import_file name user body.now) (refused r) s)) }
    ensures taken { IfOk result (λ v. (bs : List BlockText) × IsBody body.now bs × (v.items ≡ map taken_of bs)) }
    ensures memory { IfErr result (λ e. e ≡ Memory → MayWantMemory body.now) }
    ensures goes { OnOk result ((s : Machine) (name user : List ℕ) (bs : List BlockText)
        → IsNamedImport s name user body.now → FindsName s name body.now found → IsBody body.now bs
        → IsTakenImport s name user body.now bs) }
{
    // laws: a body has exactly one answer
    one_list_has_a_text();
    reported_bytes_are_no_file();
    faulty_sentences_are_not_valid();
    let taken = take_file_ref(alloc, body)?;
    if !no_batch_has(found) {
        return Err(Fault::from(Refusal::NameTaken));
    }
    Ok(taken)
}

/// The last part of the tests of an import.
///
/// `standing` is the first of the new sentences, from 1, whose `sent_id` a sentence of the desk has, `None` where there
/// is none. `sentences` and `moves` are the numbers of sentences and of moves so far.
/// # Errors
///
/// The first of `SentIdTaken`, `Full`.
pub fn judge_import_after(
    limits: &Limits,
    new: u64,
    standing: Option<u64>,
    sentences: u64,
    moves: u64,
) -> Result<(), Refusal>
    ensures refused { IfErr result (λ r. (s : Machine) (name user body : List ℕ) (bs : List BlockText)
        → IsTakenImport s name user body bs → FindsId s bs standing
        → new ≡ length bs → sentences ≡ length s.sentences → moves ≡ length s.moves
        → Steps limits.now s (import_file name user body) (refused r) s) }
    ensures accepted { OnOk result ((s : Machine) (name user body : List ℕ) (bs : List BlockText)
        → IsTakenImport s name user body bs → FindsId s bs standing
        → new ≡ length bs → sentences ≡ length s.sentences → moves ≡ length s.moves
        → let act = importing name user bs in
        IsAllowed s act × Steps limits.now s (import_file name user body) (replied (reply_to s act)) (after s act)) }
{
    // laws: a body has exactly one answer
    one_list_has_a_text();
    reported_bytes_are_no_file();
    faulty_sentences_are_not_valid();
    if let Some(sentence) = standing {
        return Err(Refusal::SentIdTaken(sentence));
    }
    if !has_import_room(limits, new, sentences, moves) {
        return Err(Refusal::Full);
    }
    Ok(())
}
