//! The numbers that the tables store for states and kinds of moves. Nothing here takes memory.

ghost use Rattle.std.specs.Prelude.{◌≡◌, ◌↔◌, Option as AnyOption, Some as some_of};
ghost use Rattle.tb_refine.specs.Prelude.{AnyKind, AnyState};
ghost use Rattle.tb_refine.specs.Numbers.{state_number, from_number, kind_number};

use tb_core::{Event, Kind, State};

/// The number of a state, 1 to 6.
pub fn number_of_state(state: State) -> u32
    ensures { result ≡ state_number state }
{
    match state {
        State::Opened => 1,
        State::Assigned => 2,
        State::Submitted => 3,
        State::Adjudicated => 4,
        State::Released => 5,
        State::Withdrawn => 6,
    }
}

/// The state with a number, or none where no state has it.
pub fn state_numbered(number: u32) -> Option<State>
    ensures { (st : AnyState) → (result ≡ some_of st) ↔ (number ≡ state_number st) }
{
    match state_before(number) {
        Some(before) => before,
        None => None,
    }
}

/// The number of the state that a move leaves, 0 where there was none.
pub fn number_before(from: Option<State>) -> u32
    ensures { result ≡ from_number from }
{
    match from {
        None => 0,
        Some(state) => number_of_state(state),
    }
}

/// The state before a move by its number, or none where the number means nothing.
pub fn state_before(number: u32) -> Option<Option<State>>
    ensures { (from : AnyOption AnyState) → (result ≡ some_of from) ↔ (number ≡ from_number from) }
{
    match number {
        0 => Some(None),
        1 => Some(Some(State::Opened)),
        2 => Some(Some(State::Assigned)),
        3 => Some(Some(State::Submitted)),
        4 => Some(Some(State::Adjudicated)),
        5 => Some(Some(State::Released)),
        6 => Some(Some(State::Withdrawn)),
        _ => None,
    }
}

/// The number of a kind of move, 1 to 12.
pub fn number_of_kind(kind: Kind) -> u32
    ensures { result ≡ kind_number kind }
{
    match kind {
        Kind::Import => 1,
        Kind::Step(Event::Assign) => 2,
        Kind::Step(Event::Unassign) => 3,
        Kind::Step(Event::Submit) => 4,
        Kind::Step(Event::SendBack) => 5,
        Kind::Step(Event::Adjudicate) => 6,
        Kind::Step(Event::Release) => 7,
        Kind::Step(Event::Withdraw) => 8,
        Kind::Step(Event::Reopen) => 9,
        Kind::Correct => 10,
        Kind::Pull => 11,
        Kind::Restore => 12,
    }
}

/// The kind of move with a number, or none where no kind has it.
pub fn kind_numbered(number: u32) -> Option<Kind>
    ensures { (kind : AnyKind) → (result ≡ some_of kind) ↔ (number ≡ kind_number kind) }
{
    match number {
        1 => Some(Kind::Import),
        2 => Some(Kind::Step(Event::Assign)),
        3 => Some(Kind::Step(Event::Unassign)),
        4 => Some(Kind::Step(Event::Submit)),
        5 => Some(Kind::Step(Event::SendBack)),
        6 => Some(Kind::Step(Event::Adjudicate)),
        7 => Some(Kind::Step(Event::Release)),
        8 => Some(Kind::Step(Event::Withdraw)),
        9 => Some(Kind::Step(Event::Reopen)),
        10 => Some(Kind::Correct),
        11 => Some(Kind::Pull),
        12 => Some(Kind::Restore),
        _ => None,
    }
}
