//! The pull of a sentence, and its restore.

ghost use Rattle.std.specs.Prelude.{◌≡◌, ◌-◌, length, IfOk, IfErr, OnOk};
ghost use Rattle.tb_core.specs.Machine.{Machine};
ghost use Rattle.tb_core.specs.Acts.{pulling, restoring, IsAllowed, after, to_state};
ghost use Rattle.tb_core.specs.Commands.{pull, restore, replied, refused, reply_to};
ghost use Rattle.tb_core.specs.Steps.{Steps};
ghost use Rattle.tb_core.specs.Found.{FindsSentence};

use crate::room::has_room;
use crate::{Limits, Refusal, State, decide_pull, decide_restore, good_name};

/// The sentence of a pull or a restore.
#[derive(Clone, Copy, PartialEq, Eq, Debug)]
pub struct SentenceFound {
    /// The state of its batch.
    pub state: State,
    pub pulled: bool,
}

/// Whether the sentence with this number, from 1, may be pulled.
///
/// `found` is this sentence, `None` where none has the number. `moves` is the number of moves so far.
///
/// # Errors
///
/// The first of `BadName`, `NoSuchSentence`; `WrongState`, `Pulled`; `Full`.
pub fn judge_pull(
    limits: &Limits,
    number: u64,
    user: &str,
    found: Option<SentenceFound>,
    moves: u64,
) -> Result<(), Refusal>
    ensures refused { IfErr result (λ r. (s : Machine) → FindsSentence s number found → moves ≡ length s.moves
        → Steps limits.now s (pull number user.now) (refused r) s) }
    ensures accepted { OnOk result ((s : Machine) → FindsSentence s number found → moves ≡ length s.moves
        → let act = pulling (number - 1) user.now in
        IsAllowed s act × Steps limits.now s (pull number user.now) (replied (reply_to s act)) (after s act)) }
{
    if !good_name(user) {
        return Err(Refusal::BadName);
    }
    let Some(sentence) = found else {
        return Err(Refusal::NoSuchSentence);
    };
    decide_pull(sentence.state, sentence.pulled)?;
    if !has_room(limits, moves) {
        return Err(Refusal::Full);
    }
    Ok(())
}

/// The state that the sentence with this number, from 1, is in after its restore.
///
/// `found` is this sentence, `None` where none has the number. `moves` is the number of moves so far.
///
/// # Errors
///
/// The first of `BadName`, `NoSuchSentence`; `WrongState`, `NotPulled`; `Full`.
pub fn judge_restore(
    limits: &Limits,
    number: u64,
    user: &str,
    found: Option<SentenceFound>,
    moves: u64,
) -> Result<State, Refusal>
    ensures refused { IfErr result (λ r. (s : Machine) → FindsSentence s number found → moves ≡ length s.moves
        → Steps limits.now s (restore number user.now) (refused r) s) }
    ensures accepted { IfOk result (λ state. (s : Machine) → FindsSentence s number found
        → moves ≡ length s.moves
        → let act = restoring (number - 1) user.now in
        (state ≡ to_state s act) × IsAllowed s act
        × Steps limits.now s (restore number user.now) (replied (reply_to s act)) (after s act)) }
{
    if !good_name(user) {
        return Err(Refusal::BadName);
    }
    let Some(sentence) = found else {
        return Err(Refusal::NoSuchSentence);
    };
    let state = decide_restore(sentence.state, sentence.pulled)?;
    if !has_room(limits, moves) {
        return Err(Refusal::Full);
    }
    Ok(state)
}
