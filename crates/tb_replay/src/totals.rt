//! Totals of the six states, by the rows of batches and sentences.

ghost use Rattle.std.specs.Prelude.{◌≡◌, ◌↔◌, ◌+◌, ◌<◌, ◌≤◌, ◌^◌, length, IsTrue, IsSome};
ghost use Rattle.std.specs.Prelude.{IfSome};
ghost use Rattle.tb_core.specs.declared.kinds.State.{State as AnyState};
ghost use Rattle.tb_core.specs.Events.{is_state};
ghost use Rattle.tb_core.specs.Machine.{Machine, when, one, words};
ghost use Rattle.tb_core.specs.Totals.{at_state, total, AreTotalsOf};
ghost use Rattle.tb_replay.specs.Summaries.{entries_of};
ghost use Rattle.tb_replay.specs.Fine.{AreFine};
ghost use Rattle.tb_replay.specs.Sums.{entry_state, last_count};

use crate::rows::{BatchRow, Revision, SentenceSummary};
use tb_core::{State, Totals};

/// The state of a sentence: withdrawn where it is pulled, else that of its batch.
fn state_of(batches: &[BatchRow<'_>], entry: &SentenceSummary<'_>) -> State
    ensures { result ≡ entry_state batches.now entry.now }
{
    if entry.pulled {
        return State::Withdrawn;
    }
    let place = entry.batch.saturating_sub(1);
    match batches.get(place as usize) {
        Some(batch) => batch.state,
        None => State::Withdrawn,
    }
}

/// The words of the last revision.
fn last_words(revisions: &[Revision<'_>]) -> u64
    ensures { result ≡ last_count revisions.now }
{
    match revisions.last() {
        Some(revision) => revision.words,
        None => 0,
    }
}

/// Adds to the sum of a state. Returns `false` where the sum does not fit 64 bits.
fn add(sums: &mut [u64; 6], state: State, more: u64) -> bool
    ensures fits { IsTrue result ↔ at_state sums.old state + more < 2 ^ 64 }
    ensures added { IsTrue result → (st : AnyState) → at_state sums.new st ≡ at_state sums.old st + when
        (is_state state st) more }
{
    let place = state.place();
    let Some(sum) = sums[place].checked_add(more) else {
        return false;
    };
    sums[place] = sum;
    true
}

/// For each state its sentences and the words of their current revisions, from the rows of a desk.
///
/// `None` only where a sum does not fit 64 bits. That never happens where the rows are fine and have at most 1,000,000
/// sentences. Takes no memory.
pub fn totals_of(batches: &[BatchRow<'_>], entries: &[SentenceSummary<'_>]) -> Option<Totals>
    ensures sums { (f : Machine) → batches.now ≡ f.batches → entries.now ≡ entries_of f.sentences
        → IfSome result (λ t. AreTotalsOf t f) }
    ensures reported { (f : Machine) → batches.now ≡ f.batches → entries.now ≡ entries_of f.sentences
        → AreFine f → length f.sentences ≤ 1000000 → IsSome result }
    ensures fits { (f : Machine) → batches.now ≡ f.batches → entries.now ≡ entries_of f.sentences
        → ((st : AnyState) → total one f st < 2 ^ 64) → ((st : AnyState) → total words f st < 2 ^ 64)
        → IsSome result }
{
    let mut totals = Totals {
        sentences: [0; 6],
        words: [0; 6],
    };
    for entry in entries {
        let state = state_of(batches, entry);
        if !add(&mut totals.sentences, state, 1) {
            return None;
        }
        if !add(&mut totals.words, state, last_words(&entry.revisions)) {
            return None;
        }
    }
    Some(totals)
}
