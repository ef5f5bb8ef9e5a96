//! A correction, judged in two parts: by the sentence that is there, and by the body.

ghost use Rattle.std.specs.Prelude.{◌≡◌, ◌≢◌, ◌↔◌, ◌+◌, ◌≤◌, ℕ, List, IsTrue, cond};
ghost use Rattle.std.specs.Prelude.{length, None, option_map, IfOk, IfErr};
ghost use Rattle.tb_conllu.specs.Fault.{MayWantMemory};
ghost use Rattle.tb_core.specs.declared.kinds.State.TheVariants.{Withdrawn};
ghost use Rattle.tb_core.specs.declared.limits.Limits.{Limits};
ghost use Rattle.tb_core.specs.declared.refusals.Fault.TheVariants.{Memory};
ghost use Rattle.tb_core.specs.Machine.{Sentence, Machine};
ghost use Rattle.tb_core.specs.Acts.{correcting, IsAllowed, after};
ghost use Rattle.tb_core.specs.Reaching.{Reached};
ghost use Rattle.tb_core.specs.Commands.{correct, corrected_to, replied, refused, HasSentence, reply_to};
ghost use Rattle.tb_core.specs.Taking.{IsTakingFault};
ghost use Rattle.tb_core.specs.Steps.{Steps};
ghost use Rattle.tb_core.specs.Found.{CurrentSeen, FindsCurrent};
ghost use Rattle.tb_core.specs.Parts.{IfRepeat, IfGoes, IsResent, IsNamedCorrection};

use crate::judged::Judged;
use crate::room::has_room;
use crate::{Corrected, Fault, Limits, Refusal, State, decide_correct, good_name, take_one_ref};
use std::alloc::Global;
use std::marker::Model;
use tb_conllu::{BlockOf, SourcedSentence, Text, one_list_has_a_text, reported_bytes_are_no_file};
use tb_rules::faulty_sentences_are_not_valid;

/// A sentence and its current revision.
#[derive(Drop)]
pub struct CurrentFound<'a> {
    /// The state of the sentence's batch.
    pub state: State,
    /// Who works on that batch, empty for nobody.
    pub worker: &'a str,
    pub pulled: bool,
    /// The number of the current revision, from 1.
    pub rev: u64,
    /// Who gave it.
    pub who: &'a str,
    /// Its text.
    pub body: &'a [u8],
    /// Its words.
    pub words: u64,
}

impl<'a> Model for CurrentFound<'a> {
    ghost Value = { CurrentSeen };

    ghost view = { λ f. record {
      state = f.state;
      worker = f.worker.now;
      pulled = f.pulled;
      rev = f.rev;
      who = f.who.now;
      body = f.body.now;
      words = f.words;
    } };
}

/// Whether the current revision is the one after the base.
fn follows(base: u64, current: u64) -> bool
    ensures { IsTrue result ↔ ((1 ≤ base) × (current ≡ base + 1)) }
{
    2 <= current && current - 1 == base
}

fn same_bytes(one: &[u8], other: &[u8]) -> bool
    ensures { IsTrue result ↔ (one.now ≡ other.now) }
{
    one == other
}

/// Whether this user made the current revision from the base with this body.
fn is_resent(current: &CurrentFound<'_>, base: u64, user: &str, body: &[u8]) -> bool
    ensures { IsTrue result ↔ IsResent current.now base user.now body.now }
{
    follows(base, current.rev) && *current.who == *user && same_bytes(current.body, body)
}

/// The state of the sentence. A pulled one is withdrawn.
fn standing(current: &CurrentFound<'_>) -> State
    ensures { result ≡ cond current.now.pulled Withdrawn current.now.state }
{
    if current.pulled {
        State::Withdrawn
    } else {
        current.state
    }
}

/// The first part of the tests of a correction, which needs only the bytes of the body. Says whether the command is a
/// repeat, with the reply that it had, or goes on.
///
/// `number` is the sentence's, from 1. `base` is the number of the revision that was corrected. `found` is this
/// sentence, `None` where none has the number.
///
/// # Errors
///
/// The first of `BadName`, `NoSuchSentence`; if it is no repeat, then `WrongState`, `NotYours`, `OwnWork`, `Stale`.
pub fn judge_correction_before(
    number: u64,
    base: u64,
    user: &str,
    body: &[u8],
    found: Option<&CurrentFound<'_>>,
) -> Result<Judged<Corrected>, Refusal>
    ensures refused { IfErr result (λ r. (l : Limits) (s : Machine)
        → FindsCurrent s number (option_map (λ f. f.now) found.entry)
        → Steps l s (correct number base user.now body.now) (refused r) s) }
    ensures repeated { IfOk result (IfRepeat (λ reply. (l : Limits) (s : Machine)
        → FindsCurrent s number (option_map (λ f. f.now) found.entry)
        → Steps l s (correct number base user.now body.now) (replied (corrected_to reply)) s)) }
    ensures goes { IfOk result (IfGoes ((s : Machine) (place : ℕ) (x : Sentence)
        → FindsCurrent s number (option_map (λ f. f.now) found.entry) → HasSentence s number place x
        → IsNamedCorrection s number base user.now body.now place x)) }
    ensures stands { IfOk result (λ _. found.entry ≢ None) }
{
    if !good_name(user) {
        return Err(Refusal::BadName);
    }
    let Some(current) = found else {
        return Err(Refusal::NoSuchSentence);
    };
    if is_resent(current, base, user, body) {
        return Ok(Judged::Repeat(Corrected {
            sentence: number,
            rev: current.rev,
            words: current.words,
        }));
    }
    decide_correct(standing(current), current.worker, user, base, current.rev)?;
    Ok(Judged::Continue)
}

/// The second part of the tests of a correction: the sentence of its body, which corrects the current one.
///
/// `moves` is the number of moves so far.
///
/// # Errors
///
/// Those of `take_one_ref`, then `Full`.
pub fn judge_correction_body<'a, T: Text>(
    alloc: Global,
    limits: &Limits,
    body: &'a [u8],
    current: &BlockOf<T>,
    moves: u64,
) -> Result<SourcedSentence<'a>, Fault>
    ensures refused { IfErr result (IsTakingFault (λ r. (s : Machine) (n base : ℕ) (user : List ℕ) (place : ℕ)
        (x : Sentence) → Reached s → IsNamedCorrection s n base user body.now place x
        → current.now ≡ x.current.body → moves ≡ length s.moves
        → Steps limits.now s (correct n base user body.now) (refused r) s)) }
    ensures accepted { IfOk result (λ p. (s : Machine) (n base : ℕ) (user : List ℕ) (place : ℕ) (x : Sentence)
        → Reached s → IsNamedCorrection s n base user body.now place x
        → current.now ≡ x.current.body → moves ≡ length s.moves
        → let act = correcting place user p.block in
        IsAllowed s act × Steps limits.now s (correct n base user body.now) (replied (reply_to s act)) (after s act)) }
    ensures text { IfOk result (λ p. p.text.now ≡ body.now) }
    ensures memory { IfErr result (λ e. e ≡ Memory → MayWantMemory body.now) }
{
    // laws: a body has exactly one answer
    one_list_has_a_text();
    reported_bytes_are_no_file();
    faulty_sentences_are_not_valid();
    let passage = take_one_ref(alloc, body, current)?;
    if !has_room(limits, moves) {
        return Err(Fault::from(Refusal::Full));
    }
    Ok(passage)
}
