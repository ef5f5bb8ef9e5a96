//! The replay: makes each move on the slots and marks, and compares the end with the rows.

ghost use Rattle.std.specs.Prelude.{◌≡◌, ◌+◌, ◌-◌, ◌^◌, ◌<◌, ◌++◌, ◌↔◌, All, map, slice_set};
ghost use Rattle.std.specs.Prelude.{slice_index_or, ◌≢◌, ◌≤◌, length, IfOk, IsOk, OnOk, true, false, []};
ghost use Rattle.tb_core.specs.Acts.{with_worker};
ghost use Rattle.tb_core.specs.Machine.{Machine, change_at};
ghost use Rattle.tb_core.specs.Reaching.{IsReachable};
ghost use Rattle.tb_replay.specs.Summaries.{entries_of};
ghost use Rattle.tb_replay.specs.Fine.{AreFine};
ghost use Rattle.tb_replay.specs.Slots.{small, empty_small, no_slot};
ghost use Rattle.tb_replay.specs.Playing.{with_sums, first_mark, slot_moved, event_test, pull_test, pull_next};
ghost use Rattle.tb_replay.specs.Playing.{restore_test, restore_next, correct_test, correct_next, import_test};
ghost use Rattle.tb_replay.specs.Playing.{import_next, kind_test, kind_next, is_slot_of, are_slots, is_same_flag};
ghost use Rattle.tb_replay.specs.Playing.{is_mark_of, are_marks, plays};

use crate::allowing::{
    correct_passes, count_words, first_words_of, has_restore_room, import_passes, is_event,
    is_pull, next_row, restore_passes, rows_taken,
};
use crate::kept::{Mark, Slot, is_same_state, mark_of, slot_of};
use crate::rows::{BatchRow, SentenceSummary};
use std::alloc::{AllocError, Global};
use tb_core::{Event, Kind, Move, State, Worker};

fn worker_now<'a>(makes: Worker, user: &'a str, old: &'a str) -> &'a str
    ensures { result.now ≡ with_worker makes user.now old.now }
{
    match makes {
        Worker::Keep => old,
        Worker::Caller => user,
        Worker::Cleared => "",
    }
}

fn put_slot<'a>(slots: &mut [Slot<'a>], place: u64, slot: Slot<'a>)
    ensures { slots.new ≡ slice_set slots.old place slot.entry }
{
    if place < slots.len() as u64 {
        slots[place as usize] = slot;
    }
}

fn put_mark(marks: &mut [Mark], place: u64, mark: Mark)
    ensures { marks.new ≡ slice_set marks.old place mark }
{
    if place < marks.len() as u64 {
        marks[place as usize] = mark;
    }
}

// An event changes the state and the worker of a batch, not its sums or its sentences.
fn write_event<'a>(slots: &mut [Slot<'a>], event: Event, change: &'a Move)
    ensures { slots.new ≡ change_at (slot_moved event change.now.who) slots.old (change.now.batch - 1) }
{
    let place = change.batch.saturating_sub(1);
    let slot = slot_of(slots, place);
    put_slot(
        slots,
        place,
        Slot {
            state: event.target(),
            worker: worker_now(event.worker(), change.who.as_str(), slot.worker),
            sentences: slot.sentences,
            words: slot.words,
        },
    );
}

// Writes the new mark of a sentence and the new sums of its batch.
fn put_both<'a>(
    slots: &mut [Slot<'a>],
    marks: &mut [Mark],
    place: u64,
    old: Mark,
    sentences: u64,
    words: u64,
    new: Mark,
)
    ensures slots { slots.new ≡ slice_set slots.old (old.batch - 1) (with_sums sentences words
        (slice_index_or slots.old (old.batch - 1) no_slot)) }
    ensures marks { marks.new ≡ slice_set marks.old place new }
{
    let under = old.batch.saturating_sub(1);
    let slot = slot_of(slots, under);
    put_slot(
        slots,
        under,
        Slot {
            state: slot.state,
            worker: slot.worker,
            sentences,
            words,
        },
    );
    put_mark(marks, place, new);
}

fn step_event<'a>(
    slots: &mut [Slot<'a>],
    marks: &[Mark],
    count: u64,
    event: Event,
    change: &'a Move,
) -> bool
    requires { count + 1 < 2 ^ 64 }
    ensures answer { result ≡ event_test (small slots.old marks.now count) event change.now }
    ensures next { result ≡ true → slots.new ≡ change_at (slot_moved event change.now.who) slots.old
        (change.now.batch - 1) }
    ensures kept { result ≡ false → slots.new ≡ slots.old }
{
    if !is_event(slots, marks, count, event, change) {
        return false;
    }
    write_event(slots, event, change);
    true
}

fn step_pull(slots: &mut [Slot<'_>], marks: &mut [Mark], count: u64, change: &Move) -> bool
    requires { count + 1 < 2 ^ 64 }
    ensures answer { result ≡ pull_test (small slots.old marks.old count) change.now }
    ensures next { result ≡ true → small slots.new marks.new (count + 1)
        ≡ pull_next (small slots.old marks.old count) change.now }
    ensures kept { result ≡ false → (slots.new ≡ slots.old) × (marks.new ≡ marks.old) }
{
    if !is_pull(slots, marks, count, change) {
        return false;
    }
    let place = change.sent.saturating_sub(1);
    let mark = mark_of(marks, place);
    let slot = slot_of(slots, mark.batch.saturating_sub(1));
    put_both(
        slots,
        marks,
        place,
        mark,
        slot.sentences.saturating_sub(1),
        slot.words.saturating_sub(mark.words),
        Mark {
            pulled: true,
            ..mark
        },
    );
    true
}

fn step_restore(slots: &mut [Slot<'_>], marks: &mut [Mark], count: u64, change: &Move) -> bool
    requires { count + 1 < 2 ^ 64 }
    ensures answer { result ≡ restore_test (small slots.old marks.old count) change.now }
    ensures next { result ≡ true → small slots.new marks.new (count + 1)
        ≡ restore_next (small slots.old marks.old count) change.now }
    ensures kept { result ≡ false → (slots.new ≡ slots.old) × (marks.new ≡ marks.old) }
{
    let place = change.sent.saturating_sub(1);
    if place >= marks.len() as u64 {
        return false;
    }
    let mark = mark_of(marks, place);
    let slot = slot_of(slots, mark.batch.saturating_sub(1));
    if !has_restore_room(mark, &slot) {
        return false;
    }
    if !restore_passes(count, place, mark, &slot, change) {
        return false;
    }
    let sentences = slot.sentences + 1;
    let words = slot.words + mark.words;
    put_both(
        slots,
        marks,
        place,
        mark,
        sentences,
        words,
        Mark {
            pulled: false,
            ..mark
        },
    );
    true
}

fn step_correct(
    slots: &mut [Slot<'_>],
    marks: &mut [Mark],
    entries: &[SentenceSummary<'_>],
    count: u64,
    change: &Move,
) -> bool
    requires { count + 1 < 2 ^ 64 }
    ensures answer { result ≡ correct_test entries.now (small slots.old marks.old count) change.now }
    ensures next { result ≡ true → small slots.new marks.new (count + 1) ≡ correct_next entries.now
        (small slots.old marks.old count) change.now }
    ensures kept { result ≡ false → (slots.new ≡ slots.old) × (marks.new ≡ marks.old) }
{
    let place = change.sent.saturating_sub(1);
    if place >= marks.len() as u64 {
        return false;
    }
    let mark = mark_of(marks, place);
    let slot = slot_of(slots, mark.batch.saturating_sub(1));
    let Some(row) = next_row(entries, place, mark) else {
        return false;
    };
    if !correct_passes(count, place, mark, &slot, row, change) {
        return false;
    }
    let words = slot.words + row.words;
    put_both(
        slots,
        marks,
        place,
        mark,
        slot.sentences,
        words.saturating_sub(mark.words),
        Mark {
            rev: mark.rev + 1,
            words: row.words,
            ..mark
        },
    );
    true
}

fn push_marks(marks: &mut Vec<Mark>, new: &[SentenceSummary<'_>]) -> Result<(), AllocError>
    ensures marks { OnOk result (marks.new.items ≡ marks.old.items ++ map first_mark new.now) }
    ensures none { new.now ≡ [] → IsOk result }
{
    for entry in new {
        marks.push(Mark {
            batch: entry.batch,
            pulled: false,
            rev: 1,
            words: first_words_of(&entry.revisions),
        })?;
    }
    Ok(())
}

// The slot of a new batch and the marks of its sentences are appended, in the order of the rows.
fn step_import<'a>(
    batches: usize,
    slots: &mut Vec<Slot<'a>>,
    marks: &mut Vec<Mark>,
    entries: &[SentenceSummary<'_>],
    count: u64,
    change: &'a Move,
) -> Result<bool, AllocError>
    requires { count + 1 < 2 ^ 64 }
    ensures answer { IfOk result (λ b. b ≡ import_test batches entries.now
        (small slots.old.items marks.old.items count) change.now) }
    ensures next { IfOk result (λ b. b ≡ true → small slots.new.items marks.new.items (count + 1)
        ≡ import_next entries.now (small slots.old.items marks.old.items count) change.now) }
    ensures kept { IfOk result (λ b. b ≡ false
        → (slots.new.items ≡ slots.old.items) × (marks.new.items ≡ marks.old.items)) }
    ensures sure { batches ≤ length slots.old.items → IsOk result }
    ensures wrong { import_test batches entries.now (small slots.old.items marks.old.items count) change.now ≡ false
        → IsOk result }
{
    if slots.len() >= batches {
        return Ok(false);
    }
    let new = rows_taken(entries, marks.len(), change.sentences);
    let Some(words) = count_words(new) else {
        return Ok(false);
    };
    if !import_passes(count, slots.len() as u64 + 1, new, words, change) {
        return Ok(false);
    }
    slots.push(Slot {
        state: State::Opened,
        worker: "",
        sentences: new.len() as u64,
        words,
    })?;
    push_marks(marks, new)?;
    Ok(true)
}

fn step<'a>(
    batches: usize,
    slots: &mut Vec<Slot<'a>>,
    marks: &mut Vec<Mark>,
    entries: &[SentenceSummary<'_>],
    count: u64,
    change: &'a Move,
) -> Result<bool, AllocError>
    requires { count + 1 < 2 ^ 64 }
    ensures answer { IfOk result (λ b. b ≡ kind_test change.now.kind batches entries.now
        (small slots.old.items marks.old.items count) change.now) }
    ensures next { IfOk result (λ b. b ≡ true → small slots.new.items marks.new.items (count + 1)
        ≡ kind_next change.now.kind entries.now (small slots.old.items marks.old.items count) change.now) }
    ensures kept { IfOk result (λ b. b ≡ false
        → (slots.new.items ≡ slots.old.items) × (marks.new.items ≡ marks.old.items)) }
    ensures sure { change.now.kind ≢ Kind.Import → IsOk result }
    ensures wrong { kind_test change.now.kind batches entries.now (small slots.old.items marks.old.items count)
        change.now ≡ false → IsOk result }
{
    match change.kind {
        Kind::Import => step_import(batches, slots, marks, entries, count, change),
        Kind::Step(event) => Ok(step_event(slots, marks, count, event, change)),
        Kind::Correct => Ok(step_correct(slots, marks, entries, count, change)),
        Kind::Pull => Ok(step_pull(slots, marks, count, change)),
        Kind::Restore => Ok(step_restore(slots, marks, count, change)),
    }
}

fn is_slot_right(batch: &BatchRow<'_>, slot: &Slot<'_>) -> bool
    ensures { result ≡ is_slot_of batch.now slot.now }
{
    is_same_state(slot.state, batch.state) && slot.worker == batch.worker
}

fn are_slots_right(batches: &[BatchRow<'_>], slots: &[Slot<'_>]) -> bool
    ensures { result ≡ are_slots batches.now slots.now }
{
    if batches.len() != slots.len() {
        return false;
    }
    for i in 0..batches.len() {
        if !is_slot_right(&batches[i], &slots[i]) {
            return false;
        }
    }
    true
}

fn is_flag_same(flag: bool, other: bool) -> bool
    ensures { result ≡ is_same_flag flag other }
{
    flag == other
}

fn is_mark_right(entry: &SentenceSummary<'_>, mark: Mark) -> bool
    ensures { result ≡ is_mark_of entry.now mark }
{
    is_flag_same(mark.pulled, entry.pulled) && mark.rev == entry.revisions.len() as u64
}

fn are_marks_right(entries: &[SentenceSummary<'_>], marks: &[Mark]) -> bool
    ensures { result ≡ are_marks entries.now marks.now }
{
    if entries.len() != marks.len() {
        return false;
    }
    for i in 0..entries.len() {
        if !is_mark_right(&entries[i], marks[i]) {
            return false;
        }
    }
    true
}

fn plays_out(
    alloc: Global,
    batches: &[BatchRow<'_>],
    entries: &[SentenceSummary<'_>],
    moves: &[Move],
) -> Result<bool, AllocError>
    ensures answer { IfOk result (λ b. b ≡ plays batches.now entries.now empty_small moves.now) }
    ensures sure { All (λ m. m.kind ≢ Kind.Import) moves.now → IsOk result }
{
    let mut slots: Vec<Slot> = Vec::new(alloc);
    let mut marks: Vec<Mark> = Vec::new(alloc);
    for (i, change) in moves.iter().enumerate() {
        let may = step(
            batches.len(),
            &mut slots,
            &mut marks,
            entries,
            i as u64,
            change,
        )?;
        if !may {
            return Ok(false);
        }
    }
    Ok(are_slots_right(batches, &slots) && are_marks_right(entries, &marks))
}

/// Whether the rows of a desk are those of a state that accepted commands reach, within the largest limits.
///
/// Each row has to be fine by itself; texts are not looked at. It takes memory for each batch and each sentence, and
/// time for each row.
///
/// # Errors
///
/// Memory was refused, which comes only where a move is an import, and the desk is within the largest limits.
pub fn replays(
    alloc: Global,
    batches: &[BatchRow<'_>],
    entries: &[SentenceSummary<'_>],
    moves: &[Move],
) -> Result<bool, AllocError>
    ensures reached { (f : Machine) → batches.now ≡ f.batches → entries.now ≡ entries_of f.sentences
        → moves.now ≡ f.moves → AreFine f → IfOk result (λ b. (b ≡ true) ↔ IsReachable f) }
    ensures sure { All (λ m. m.kind ≢ Kind.Import) moves.now → IsOk result }
    ensures full { 1000000 < length entries.now → IsOk result }
    ensures many { 1000000000 < length moves.now → IsOk result }
{
    if entries.len() > 1_000_000 || moves.len() > 1_000_000_000 {
        return Ok(false);
    }
    plays_out(alloc, batches, entries, moves)
}
