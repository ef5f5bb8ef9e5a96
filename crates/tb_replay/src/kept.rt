//! What a replay keeps of a state: numbers, and borrowed names of workers.

ghost use Rattle.std.specs.Prelude.{◌≡◌, slice_index_or};
ghost use Rattle.tb_core.specs.Events.{is_state};
ghost use Rattle.tb_replay.specs.Slots.{Slot as SlotText, no_slot, no_mark};
ghost use Rattle.tb_replay.specs.Playing.{is_from_state, is_expected};

use std::marker::Model;
use tb_core::{Move, State};

/// For a batch: its state, who works on it, how many of its sentences are not pulled, and their words.
#[derive(Drop)]
pub struct Slot<'a> {
    pub state: State,
    pub worker: &'a str,
    pub sentences: u64,
    pub words: u64,
}

impl<'a> Model for Slot<'a> {
    ghost Value = { SlotText };

    ghost view = { λ x. record { state = x.state; worker = x.worker.now; sentences = x.sentences; words = x.words } };
}

/// For a sentence: its batch, whether it is pulled, the number of its current revision, and the words of that.
#[derive(Clone, Copy, Drop)]
pub struct Mark {
    pub batch: u64,
    pub pulled: bool,
    pub rev: u64,
    pub words: u64,
}

/// What a move has to say, without its kind and user.
#[derive(Clone, Copy, Drop)]
pub struct Expected {
    pub no: u64,
    pub batch: u64,
    pub sent: u64,
    pub from: Option<State>,
    pub to: State,
    pub sentences: u64,
    pub words_out: u64,
    pub words_in: u64,
}

pub fn is_same_state(state: State, other: State) -> bool
    ensures { result ≡ is_state state other }
{
    state == other
}

fn is_same_from(from: Option<State>, other: Option<State>) -> bool
    ensures { result ≡ is_from_state from other }
{
    match (from, other) {
        (None, None) => true,
        (Some(state), Some(wanted)) => is_same_state(state, wanted),
        _ => false,
    }
}

/// Whether a move says all of this.
pub fn is_as_expected(change: &Move, expected: Expected) -> bool
    ensures { result ≡ is_expected change.now expected }
{
    change.no == expected.no
        && change.batch == expected.batch
        && change.sent == expected.sent
        && is_same_from(change.from, expected.from)
        && is_same_state(change.to, expected.to)
        && change.sentences == expected.sentences
        && change.words_out == expected.words_out
        && change.words_in == expected.words_in
}

/// The slot of the batch at a place, from 0; past the end, that of an empty withdrawn batch.
pub fn slot_of<'a>(slots: &[Slot<'a>], place: u64) -> Slot<'a>
    ensures { result ≡ slice_index_or slots.now place no_slot }
{
    match slots.get(place as usize) {
        Some(slot) => Slot {
            state: slot.state,
            worker: slot.worker,
            sentences: slot.sentences,
            words: slot.words,
        },
        None => Slot {
            state: State::Withdrawn,
            worker: "",
            sentences: 0,
            words: 0,
        },
    }
}

/// The mark of the sentence at a place, from 0; past the end, one of no batch.
pub fn mark_of(marks: &[Mark], place: u64) -> Mark
    ensures { result ≡ slice_index_or marks.now place no_mark }
{
    match marks.get(place as usize) {
        Some(mark) => *mark,
        None => Mark {
            batch: 0,
            pulled: false,
            rev: 1,
            words: 0,
        },
    }
}
