//! An event on a batch.

ghost use Rattle.std.specs.Prelude.{◌≡◌, ◌-◌, length, option_map, IfOk, IfErr};
ghost use Rattle.tb_core.specs.Events.{goes_to, makes_worker};
ghost use Rattle.tb_core.specs.Machine.{Machine};
ghost use Rattle.tb_core.specs.Acts.{stepping, IsAllowed, after};
ghost use Rattle.tb_core.specs.Reaching.{Reached};
ghost use Rattle.tb_core.specs.Commands.{event_on, replied, refused, reply_to};
ghost use Rattle.tb_core.specs.Steps.{Steps};
ghost use Rattle.tb_core.specs.Found.{BatchSeen, FindsBatch, place_of};

use crate::room::{good_names, has_room};
use crate::{Event, Limits, Refusal, State, Worker, decide_event};
use std::marker::Model;

/// The batch of an event.
#[derive(Drop)]
pub struct BatchFound<'a> {
    /// Its number, from 1.
    pub number: u64,
    pub state: State,
    /// Who works on it, empty for nobody.
    pub worker: &'a str,
}

impl<'a> Model for BatchFound<'a> {
    ghost Value = { BatchSeen };

    ghost view = { λ f. record { number = f.number; state = f.state; worker = f.worker.now } };
}

/// The state to which the event takes the batch with this name, and what becomes of its worker.
///
/// `found` is this batch, `None` where no batch has the name. `moves` is the number of moves so far.
///
/// # Errors
///
/// The first of `BadName`, `NoSuchBatch`; `WrongState`, `NotYours`, `OwnWork`; `Full`.
pub fn judge_event(
    limits: &Limits,
    name: &str,
    event: Event,
    user: &str,
    found: Option<&BatchFound<'_>>,
    moves: u64,
) -> Result<(State, Worker), Refusal>
    ensures made { IfOk result (λ made. made ≡ (goes_to event, makes_worker event)) }
    ensures refused { IfErr result (λ r. (s : Machine) → Reached s
        → FindsBatch s name.now (option_map (λ f. f.now) found.entry) → moves ≡ length s.moves
        → Steps limits.now s (event_on name.now event user.now) (refused r) s) }
    ensures accepted { IfOk result (λ made. (s : Machine) → Reached s
        → FindsBatch s name.now (option_map (λ f. f.now) found.entry) → moves ≡ length s.moves
        → let act = stepping (place_of (option_map (λ f. f.now) found.entry)) event user.now in
        IsAllowed s act × Steps limits.now s (event_on name.now event user.now) (replied
        (reply_to s act)) (after s act)) }
{
    if !good_names(name, user) {
        return Err(Refusal::BadName);
    }
    let Some(batch) = found else {
        return Err(Refusal::NoSuchBatch);
    };
    let makes = decide_event(batch.state, batch.worker, event, user)?;
    if !has_room(limits, moves) {
        return Err(Refusal::Full);
    }
    Ok(makes)
}
