//! Totals of the six states, updated with each move. Nothing here takes memory.

ghost use Rattle.std.specs.Prelude.{◌≡◌, ◌↔◌, ◌<◌, ◌+◌, ◌-◌, ◌^◌, IsTrue};
ghost use Rattle.tb_core.specs.Events.{is_state};
ghost use Rattle.tb_core.specs.Machine.{when};
ghost use Rattle.tb_core.specs.Totals.{is_from, at_state, HasEnough, HasSpace, Shifts};
ghost use Rattle.tb_core.specs.declared.kinds.State.{State as AnyState};

use crate::kinds::State;
use crate::moves::Move;

/// For each of the six states, in the order of `State`: its sentences, and the words of their current revisions.
#[derive(Clone, Copy, PartialEq, Eq, Debug)]
pub struct Totals {
    pub sentences: [u64; 6],
    pub words: [u64; 6],
}

impl Totals {
    ghost use Rattle.tb_core.specs.Totals.{Takes, IsApplied};

    /// Whether the move can be made: the state that is left has enough, and no sum passes `u64::MAX`.
    pub fn takes(&self, change: &Move) -> bool
        ensures { IsTrue result ↔ Takes self.now change.now }
    {
        let count = change.sentences;
        has_enough(&self.sentences, change.from, count)
            && has_enough(&self.words, change.from, change.words_out)
            && has_space(&self.sentences, change.from, change.to, count, count)
            && has_space(
                &self.words,
                change.from,
                change.to,
                change.words_out,
                change.words_in,
            )
    }

    /// Makes the move: subtracts what leaves a state, and adds what comes to a state. No other state changes.
    pub fn apply(&mut self, change: &Move)
        requires { Takes self.old change.now }
        ensures { IsApplied self.old self.new change.now }
    {
        let count = change.sentences;
        shift(&mut self.sentences, change.from, change.to, count, count);
        shift(
            &mut self.words,
            change.from,
            change.to,
            change.words_out,
            change.words_in,
        );
    }
}

/// Whether the state that is left has as much as leaves it.
fn has_enough(sums: &[u64; 6], from: Option<State>, leaving: u64) -> bool
    ensures { IsTrue result ↔ HasEnough sums.now from leaving }
{
    match from {
        None => true,
        Some(state) => leaving <= sums[state.place()],
    }
}

/// How much leaves this state.
fn leaving_it(from: Option<State>, state: State, leaving: u64) -> u64
    ensures { result ≡ when (is_from from state) leaving }
{
    match from {
        Some(left) if left == state => leaving,
        _ => 0,
    }
}

/// Whether the sum of the state that is reached fits 64 bits, once what leaves it is subtracted.
fn has_space(sums: &[u64; 6], from: Option<State>, to: State, leaving: u64, coming: u64) -> bool
    requires { HasEnough sums.now from leaving }
    ensures { IsTrue result ↔ HasSpace sums.now from to leaving coming }
{
    let rest = sums[to.place()] - leaving_it(from, to, leaving);
    coming <= u64::MAX - rest
}

fn take_out(sums: &mut [u64; 6], from: Option<State>, leaving: u64)
    requires { HasEnough sums.old from leaving }
    ensures { (st : AnyState) → at_state sums.new st ≡ at_state sums.old st - when (is_from from st) leaving }
{
    if let Some(state) = from {
        sums[state.place()] -= leaving;
    }
}

fn put_in(sums: &mut [u64; 6], to: State, coming: u64)
    requires { at_state sums.old to + coming < 2 ^ 64 }
    ensures { (st : AnyState) → at_state sums.new st ≡ at_state sums.old st + when (is_state to st) coming }
{
    sums[to.place()] += coming;
}

fn shift(sums: &mut [u64; 6], from: Option<State>, to: State, leaving: u64, coming: u64)
    requires there { HasEnough sums.old from leaving }
    requires space { HasSpace sums.old from to leaving coming }
    ensures { Shifts sums.old sums.new from to leaving coming }
{
    take_out(sums, from, leaving);
    put_in(sums, to, coming);
}
