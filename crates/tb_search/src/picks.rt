//! The revisions that a walk visits.

ghost use Rattle.std.specs.Prelude.{◌≡◌, ◌≢◌, Err, ◌+◌, ◌<◌, ◌^◌, ◌++◌, ◌∷◌, [], cond, drop, length, map, List, IsTrue};
ghost use Rattle.std.specs.Prelude.{false, IfOk, IfErr, IsOk};
ghost use Rattle.tb_search.specs.Prelude.{AnyState, Batch, batch_of, batch_record, batch_with, head_of, is_state};
ghost use Rattle.tb_search.specs.Prelude.{pulled_from, Sentence, sentence_record};
ghost use Rattle.tb_search.specs.Released.{is_released as is_in_release};
ghost use Rattle.tb_search.specs.Visited.{IsFault, IsStopFault, IsStopWant};
ghost use Rattle.tb_search.specs.Picked.{picks_from, begins, pick_of};

use crate::stopped::Stopped;
use std::alloc::Global;
use tb_core::State;
use tb_reads::{BatchSentence, CurrentRev};
use tb_refine::number_of_state;
use tb_tables::BatchRow;

/// A revision to visit.
#[derive(Clone, Copy, Debug)]
pub(crate) struct Pick {
    /// The number of the sentence, from 1.
    pub sent: u32,
    /// The number of the revision, from 1 within its sentence.
    pub rev: u32,
}

/// Whether the batch with this number is released.
fn is_batch_released(batches: &[BatchRow], batch: u32) -> bool
    ensures { (bs : List Batch) → map batch_of batches.now ≡ map batch_record bs
        → result ≡ is_state (batch_with bs batch).state AnyState.Released }
{
    match batches.get(batch.saturating_sub(1) as usize) {
        Some(row) => row.state == number_of_state(State::Released),
        None => false,
    }
}

/// Whether a sentence of the batch with this number is released.
fn is_released(batches: &[BatchRow], batch: u32, is_pulled: bool) -> bool
    ensures { (bs : List Batch) → map batch_of batches.now ≡ map batch_record bs
        → result ≡ is_state (cond is_pulled AnyState.Withdrawn (batch_with bs batch).state) AnyState.Released }
{
    if is_pulled {
        return false;
    }
    is_batch_released(batches, batch)
}

/// Whether the number at this place is this one.
fn stands_at(numbers: &[u32], at: usize, number: u32) -> bool
    ensures value { result ≡ begins (drop at numbers.now) number }
    ensures within { IsTrue result → at < length numbers.now }
{
    at < numbers.len() && numbers[at] == number
}

/// The next place if a step is taken, else this place.
fn stepped(at: usize, is_taken: bool) -> usize
    requires { IsTrue is_taken → at < 2 ^ 63 }
    ensures { result ≡ cond is_taken (at + 1) at }
{
    if is_taken { at + 1 } else { at }
}

fn push_where(found: &mut Vec<Pick>, wanted: bool, pick: Pick) -> Result<(), Stopped>
    ensures more { IfOk result (λ _. found.new.items ≡ found.old.items ++ cond wanted (pick ∷ []) []) }
    ensures never_refuses { result ≢ Err Stopped.Output }
    ensures fault { IfErr result IsFault }
    ensures fails { IfErr result IsStopFault }
    ensures cause { IfErr result IsStopWant }
    ensures sure { wanted ≡ false → IsOk result }
{
    if wanted {
        found.push(pick)?;
    }
    Ok(())
}

/// The current revisions of the sentences that are released.
pub(crate) fn released_of(
    alloc: Global,
    batches: &[BatchRow],
    pulled: &[u32],
    heads: &[CurrentRev],
) -> Result<Vec<Pick>, Stopped>
    requires { length heads.now < 2 ^ 32 }
    ensures picked { IfOk result (λ v. (bs : List Batch) (xs : List Sentence)
        → map batch_of batches.now ≡ map batch_record bs → pulled.now ≡ pulled_from 1 xs
        → heads.now ≡ map head_of (map sentence_record xs) → v.items ≡ picks_from (is_in_release bs) 1 xs) }
    ensures never_refuses { result ≢ Err Stopped.Output }
    ensures fault { IfErr result IsFault }
    ensures fails { IfErr result IsStopFault }
    ensures cause { IfErr result IsStopWant }
    ensures sure { heads.now ≡ [] → IsOk result }
    ensures no_batch { batches.now ≡ [] → IsOk result }
    ensures none { (bs : List Batch) (xs : List Sentence) → map batch_of batches.now ≡ map batch_record bs
        → pulled.now ≡ pulled_from 1 xs → heads.now ≡ map head_of (map sentence_record xs)
        → picks_from (is_in_release bs) 1 xs ≡ [] → IsOk result }
{
    let mut found = Vec::new(alloc);
    let mut number = 0;
    let mut at = 0;
    for head in heads {
        number += 1;
        let is_pulled = stands_at(pulled, at, number);
        let is_wanted = is_released(batches, head.batch, is_pulled);
        push_where(
            &mut found,
            is_wanted,
            Pick {
                sent: number,
                rev: head.rev,
            },
        )?;
        at = stepped(at, is_pulled);
    }
    Ok(found)
}

/// The current revisions of the sentences of a batch.
pub(crate) fn picks_of(alloc: Global, work: &[BatchSentence]) -> Result<Vec<Pick>, Stopped>
    ensures picked { IfOk result (λ v. v.items ≡ map pick_of work.now) }
    ensures never_refuses { result ≢ Err Stopped.Output }
    ensures fault { IfErr result IsFault }
    ensures fails { IfErr result IsStopFault }
    ensures cause { IfErr result IsStopWant }
    ensures sure { work.now ≡ [] → IsOk result }
{
    let mut found = Vec::new(alloc);
    for one in work {
        found.push(Pick {
            sent: one.number,
            rev: one.rev,
        })?;
    }
    Ok(found)
}
