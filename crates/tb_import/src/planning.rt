//! What an accepted import writes and answers.

ghost use Rattle.std.specs.Prelude.{◌≡◌, ◌≢◌, ◌+◌, ◌^◌, ◌≤◌, ◌<◌, List, ℕ, map, length, sum_by, string_bytes, Err};
ghost use Rattle.std.specs.Prelude.{IfOk, IfErr};
ghost use Rattle.tb_import.specs.Prelude.{after, AllByRecursion, AnyRefusal, BlockText, importing, IsAllowed};
ghost use Rattle.tb_import.specs.Prelude.{IsNoDevice, IsPrepared, IsReachable, Machine, NewSentenceText, Reached};
ghost use Rattle.tb_import.specs.Prelude.{taken_of};
ghost use Rattle.tb_import.specs.Planned.{IsKnown, IsPlannedImport, item_reported, import_move};

use crate::counters::ImportCounters;
use crate::words::words_in;
use std::alloc::Global;
use tb_core::{Fault, Imported, Kind, Move, NewSentence, State};
use tb_refine::{PreparedMove, narrow, next_move, prepare};
use tb_tables::NewSentenceRow;

/// The numbers, the reply, and what an import writes beside the sentences.
#[derive(Debug, Drop)]
pub(crate) struct ImportPlan {
    /// The numbers of the batch and of the first of its sentences.
    pub number: u32,
    pub first: u32,
    pub reply: Imported,
    pub prepared: PreparedMove,
}

/// A new sentence, in the form in which it is written.
fn item<'a>(one: &NewSentence<'a>) -> Result<NewSentenceRow<'a>, Fault>
    ensures reported { IfOk result (λ i. i ≡ item_reported one.now) }
    ensures never_refuses { (r : AnyRefusal) → result ≢ Err (Fault.Refused r) }
    ensures output { result ≢ Err Fault.Output }
    ensures fails { one.now.words < 2 ^ 32 → result ≢ Err Fault.NotADesk }
    ensures cause { IfErr result IsNoDevice }
    ensures fault { IfErr result (λ e. e ≡ Fault.NotADesk) }
{
    let words = narrow(one.words)?;
    Ok(NewSentenceRow {
        sent_id: one.sent_id,
        words,
        body: one.text,
    })
}

/// The new sentences, in the form in which they are written.
pub(crate) fn items_of<'a>(
    alloc: Global,
    taken: &[NewSentence<'a>],
) -> Result<Vec<NewSentenceRow<'a>>, Fault>
    ensures reported { IfOk result (λ v. v.items ≡ map item_reported taken.now) }
    ensures never_refuses { (r : AnyRefusal) → result ≢ Err (Fault.Refused r) }
    ensures output { result ≢ Err Fault.Output }
    ensures fails { AllByRecursion (λ (t : NewSentenceText). t.words < 2 ^ 32) taken.now
        → result ≢ Err Fault.NotADesk }
    ensures cause { IfErr result IsNoDevice }
{
    let mut items = Vec::new(alloc);
    for one in taken {
        items.push(item(one)?)?;
    }
    Ok(items)
}

/// The number of the next batch.
fn next_batch(batches: u32) -> Result<u32, Fault>
    ensures next { IfOk result (λ n. n ≡ 1 + batches) }
    ensures never_refuses { (r : AnyRefusal) → result ≢ Err (Fault.Refused r) }
    ensures output { result ≢ Err Fault.Output }
    ensures fails { 1 + batches < 2 ^ 32 → result ≢ Err Fault.NotADesk }
    ensures cause { IfErr result IsNoDevice }
    ensures fault { IfErr result (λ e. e ≡ Fault.NotADesk) }
{
    match batches.checked_add(1) {
        Some(next) => Ok(next),
        None => Err(Fault::NotADesk),
    }
}

/// The number of the first new sentence. A desk without room never comes here: the import is refused as `Full`.
fn next_sentence(sentences: u32, new: usize) -> Result<u32, Fault>
    ensures next { IfOk result (λ n. (n ≡ 1 + sentences) × (sentences + new ≤ 1000000)) }
    ensures never_refuses { (r : AnyRefusal) → result ≢ Err (Fault.Refused r) }
    ensures output { result ≢ Err Fault.Output }
    ensures fails { sentences + new ≤ 1000000 → result ≢ Err Fault.NotADesk }
    ensures cause { IfErr result IsNoDevice }
    ensures fault { IfErr result (λ e. e ≡ Fault.NotADesk) }
{
    if sentences > 1_000_000 || new > 1_000_000 - sentences as usize {
        return Err(Fault::NotADesk);
    }
    Ok(sentences + 1)
}

/// The move of an import with these numbers of sentences and words.
fn move_by(who: String, no: u32, number: u32, sentences: u64, words: u64) -> Move
    ensures { result ≡ import_move no number sentences words (string_bytes who) }
{
    Move {
        no: u64::from(no),
        kind: Kind::Import,
        batch: u64::from(number),
        sent: 0,
        from: None,
        to: State::Opened,
        sentences,
        words_out: 0,
        words_in: words,
        who,
    }
}

/// What an import of these sentences and words by this user changes in the tables.
fn change_by(
    alloc: Global,
    known: &ImportCounters,
    number: u32,
    user: &str,
    sentences: u64,
    words: u64,
) -> Result<PreparedMove, Fault>
    ensures prepared { IfOk result (λ p. (s : Machine) (name : List ℕ) (bs : List BlockText) → Reached s
        → IsAllowed s (importing name user.now bs) → IsKnown known.now s
        → number ≡ 1 + length s.batches → sentences ≡ length bs
        → words ≡ sum_by (λ (t : NewSentenceText). t.words) (map taken_of bs)
        → IsPrepared s (importing name user.now bs) p) }
    ensures room { IfOk result (λ _. known.now.counts.moves + 1 ≤ 1000000000) }
    ensures never_refuses { (r : AnyRefusal) → result ≢ Err (Fault.Refused r) }
    ensures output { result ≢ Err Fault.Output }
    ensures fails { (s : Machine) (name : List ℕ) (bs : List BlockText) → IsReachable s
        → IsAllowed s (importing name user.now bs) → IsReachable (after s (importing name user.now bs))
        → IsKnown known.now s
        → number ≡ 1 + length s.batches → sentences ≡ length bs
        → words ≡ sum_by (λ (t : NewSentenceText). t.words) (map taken_of bs) → result ≢ Err Fault.NotADesk }
    ensures cause { IfErr result IsNoDevice }
    ensures no_move_left { 1000000000 ≤ known.now.counts.moves → result ≡ Err Fault.NotADesk }
{
    let no = next_move(&known.counts)?;
    let who = String::from_str(alloc, user)?;
    prepare(&known.counts, move_by(who, no, number, sentences, words))
}

/// What an accepted import of these sentences by this user writes and answers.
pub(crate) fn plan(
    alloc: Global,
    known: &ImportCounters,
    user: &str,
    taken: &[NewSentence<'_>],
) -> Result<ImportPlan, Fault>
    ensures planned { IfOk result (λ p. (s : Machine) (name : List ℕ) (bs : List BlockText) → Reached s
        → IsAllowed s (importing name user.now bs) → IsKnown known.now s → taken.now ≡ map taken_of bs
        → IsPlannedImport s name user.now bs p) }
    ensures moves { IfOk result (λ _. known.now.counts.moves + 1 ≤ 1000000000) }
    ensures sentences { IfOk result (λ p. (p.first ≡ 1 + known.now.sentences)
        × (p.reply.sentences ≡ length taken.now) × (known.now.sentences + length taken.now ≤ 1000000)) }
    ensures never_refuses { (r : AnyRefusal) → result ≢ Err (Fault.Refused r) }
    ensures output { result ≢ Err Fault.Output }
    ensures fails { (s : Machine) (name : List ℕ) (bs : List BlockText) → IsReachable s
        → IsAllowed s (importing name user.now bs) → IsReachable (after s (importing name user.now bs))
        → IsKnown known.now s → taken.now ≡ map taken_of bs → result ≢ Err Fault.NotADesk }
    ensures cause { IfErr result IsNoDevice }
    ensures no_move_left { 1000000000 ≤ known.now.counts.moves → result ≡ Err Fault.NotADesk }
    ensures no_sentence_left { 1000000 < known.now.sentences + length taken.now → result ≡ Err Fault.NotADesk }
{
    let number = next_batch(known.batches)?;
    let first = next_sentence(known.sentences, taken.len())?;
    let words = words_in(taken)?;
    let sentences = taken.len() as u64;
    let prepared = change_by(alloc, known, number, user, sentences, words)?;
    Ok(ImportPlan {
        number,
        first,
        reply: Imported {
            batch: u64::from(number),
            first: u64::from(first),
            sentences,
            words,
        },
        prepared,
    })
}
