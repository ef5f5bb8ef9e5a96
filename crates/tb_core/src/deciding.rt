//! Decisions on the state of a batch, its worker and the user. They take no memory.

ghost use Rattle.std.specs.Prelude.{◌≡◌, length, nat_le, ◌&&◌};
ghost use Rattle.std.specs.List.{list_all};
ghost use Rattle.tb_core.specs.Names.{is_name_byte, is_name};
ghost use Rattle.tb_core.specs.Events.{the_worker, not_the_worker, is_state, leads_from};
ghost use Rattle.tb_core.specs.Deciding.{allowed, event_decision, may_correct, correct_decision, pull_decision};
ghost use Rattle.tb_core.specs.Deciding.{restore_decision};

use crate::kinds::{Event, State, Worker};
use crate::refusals::Refusal;

fn is_good_byte(byte: u8) -> bool
    ensures { result ≡ is_name_byte byte }
{
    matches!(byte, b'A'..=b'Z' | b'a'..=b'z' | b'0'..=b'9' | b'.' | b'_' | b'-')
}

fn has_good_length(name: &str) -> bool
    ensures { result ≡ (nat_le 1 (length name.now) && nat_le (length name.now) 32) }
{
    1 <= name.len() && name.len() <= 32
}

fn has_good_bytes(name: &str) -> bool
    ensures { result ≡ list_all is_name_byte name.now }
{
    name.as_bytes().iter().all(|byte| is_good_byte(*byte))
}

/// Whether the text may name a batch or a user: 1 to 32 of ASCII letters, digits, full stops, underscores and hyphens.
pub fn good_name(name: &str) -> bool
    ensures { result ≡ is_name name.now }
{
    has_good_length(name) && has_good_bytes(name)
}

fn is_in(state: State, other: State) -> bool
    ensures { result ≡ is_state state other }
{
    state == other
}

fn may_lead(event: Event, state: State) -> bool
    ensures { result ≡ leads_from event state }
{
    match event {
        Event::Assign => is_in(state, State::Opened),
        Event::Unassign | Event::Submit => is_in(state, State::Assigned),
        Event::SendBack | Event::Adjudicate => is_in(state, State::Submitted),
        Event::Release => is_in(state, State::Adjudicated),
        Event::Withdraw => !is_in(state, State::Withdrawn),
        Event::Reopen => is_in(state, State::Withdrawn),
    }
}

fn by_worker<X: Drop>(worker: &str, user: &str, value: X) -> Result<X, Refusal>
    ensures { result ≡ allowed the_worker worker.now user.now value }
{
    if worker == user {
        Ok(value)
    } else {
        Err(Refusal::NotYours)
    }
}

fn by_others<X: Drop>(worker: &str, user: &str, value: X) -> Result<X, Refusal>
    ensures { result ≡ allowed not_the_worker worker.now user.now value }
{
    if worker == user {
        Err(Refusal::OwnWork)
    } else {
        Ok(value)
    }
}

/// The state to which an event takes a batch that is in this state, and what becomes of its worker.
///
/// # Errors
///
/// The first of `WrongState`, with the state; `NotYours`, where only the worker may ask; `OwnWork`, where only others
/// may.
pub fn decide_event(
    state: State,
    worker: &str,
    event: Event,
    user: &str,
) -> Result<(State, Worker), Refusal>
    ensures { result ≡ event_decision state worker.now event user.now }
{
    if !may_lead(event, state) {
        return Err(Refusal::WrongState(state));
    }
    let makes = (event.target(), event.worker());
    match event {
        Event::Unassign | Event::Submit => by_worker(worker, user, makes),
        Event::SendBack | Event::Adjudicate => by_others(worker, user, makes),
        Event::Assign | Event::Release | Event::Withdraw | Event::Reopen => Ok(makes),
    }
}

/// Whether the user may correct a sentence that is in this state. Its revision is not looked at.
///
/// # Errors
///
/// The first of `WrongState`, with the state; `NotYours` in assigned, `OwnWork` in submitted.
pub fn correctable(state: State, worker: &str, user: &str) -> Result<(), Refusal>
    ensures { result ≡ may_correct state worker.now user.now }
{
    match state {
        State::Assigned => by_worker(worker, user, ()),
        State::Submitted => by_others(worker, user, ()),
        State::Opened | State::Adjudicated | State::Released | State::Withdrawn => Err(
            Refusal::WrongState(state),
        ),
    }
}

/// Whether the user may correct a sentence that is in this state, on this base. A pulled sentence is withdrawn.
///
/// `current` is the number of its current revision.
///
/// # Errors
///
/// The first of `WrongState`, with the state; `NotYours` in assigned, `OwnWork` in submitted; `Stale`, exactly where
/// the base is not the current number.
pub fn decide_correct(
    state: State,
    worker: &str,
    user: &str,
    base: u64,
    current: u64,
) -> Result<(), Refusal>
    ensures { result ≡ correct_decision state worker.now user.now base current }
{
    correctable(state, worker, user)?;
    if base == current {
        Ok(())
    } else {
        Err(Refusal::Stale(current))
    }
}

/// Whether a sentence of a batch in this state may be pulled.
///
/// # Errors
///
/// The first of `WrongState`, where the batch is withdrawn, and `Pulled`.
pub fn decide_pull(state: State, pulled: bool) -> Result<(), Refusal>
    ensures { result ≡ pull_decision state pulled }
{
    if is_in(state, State::Withdrawn) {
        return Err(Refusal::WrongState(state));
    }
    if pulled { Err(Refusal::Pulled) } else { Ok(()) }
}

/// Whether a sentence of a batch in this state may be restored. Returns this state, in which the sentence then is.
///
/// # Errors
///
/// The first of `WrongState`, where the batch is withdrawn, and `NotPulled`.
pub fn decide_restore(state: State, pulled: bool) -> Result<State, Refusal>
    ensures { result ≡ restore_decision state pulled }
{
    if is_in(state, State::Withdrawn) {
        return Err(Refusal::WrongState(state));
    }
    if pulled {
        Ok(state)
    } else {
        Err(Refusal::NotPulled)
    }
}
