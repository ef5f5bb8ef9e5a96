//! Whether a move may come next, by the slots and marks that a replay keeps.

ghost use Rattle.std.specs.Prelude.{◌≡◌, ◌+◌, ◌^◌, ◌<◌, ◌&&◌, length, nat_lt, cond, is_ok, take};
ghost use Rattle.std.specs.Prelude.{drop, MatchOption, IfSome, true, false};
ghost use Rattle.std.specs.List.{list_all};
ghost use Rattle.tb_core.specs.declared.kinds.State.TheVariants.{Withdrawn};
ghost use Rattle.tb_core.specs.Names.{is_name};
ghost use Rattle.tb_core.specs.Deciding.{event_decision, may_correct, pull_decision, restore_decision};
ghost use Rattle.tb_replay.specs.Slots.{small};
ghost use Rattle.tb_replay.specs.Playing.{entry_at, row_next, event_fits, event_test, is_expected, one_expected};
ghost use Rattle.tb_replay.specs.Playing.{pull_test, restore_fits, fits_word, row_fits, first_counts, import_fits};
ghost use Rattle.tb_replay.specs.Playing.{is_first_by, first_count, is_of_import};

use crate::kept::{Expected, Mark, Slot, is_as_expected, mark_of, slot_of};
use crate::rows::{Revision, SentenceSummary};
use tb_core::{
    Event, Move, State, correctable, decide_event, decide_pull, decide_restore, good_name,
};

fn may_event(state: State, worker: &str, event: Event, user: &str) -> bool
    ensures { result ≡ is_ok (event_decision state worker.now event user.now) }
{
    decide_event(state, worker, event, user).is_ok()
}

fn may_correct_now(pulled: bool, state: State, worker: &str, user: &str) -> bool
    ensures { result ≡ is_ok (may_correct (cond pulled Withdrawn state) worker.now user.now) }
{
    let now = if pulled { State::Withdrawn } else { state };
    correctable(now, worker, user).is_ok()
}

fn may_pull(state: State, pulled: bool) -> bool
    ensures { result ≡ is_ok (pull_decision state pulled) }
{
    decide_pull(state, pulled).is_ok()
}

fn may_restore(state: State, pulled: bool) -> bool
    ensures { result ≡ is_ok (restore_decision state pulled) }
{
    decide_restore(state, pulled).is_ok()
}

fn fits_together(sum: u64, more: u64) -> bool
    ensures { result ≡ fits_word (sum + more) }
{
    more <= u64::MAX - sum
}

fn event_passes(count: u64, place: u64, event: Event, slot: &Slot<'_>, change: &Move) -> bool
    requires counted { count + 1 < 2 ^ 64 }
    requires placed { place + 1 < 2 ^ 64 }
    ensures { result ≡ event_fits count place event slot.now change.now }
{
    good_name(change.who.as_str())
        && may_event(slot.state, slot.worker, event, change.who.as_str())
        && is_as_expected(
            change,
            Expected {
                no: count + 1,
                batch: place + 1,
                sent: 0,
                from: Some(slot.state),
                to: event.target(),
                sentences: slot.sentences,
                words_out: slot.words,
                words_in: slot.words,
            },
        )
}

/// Whether a move of an event may come next, after `count` moves.
pub fn is_event(slots: &[Slot<'_>], marks: &[Mark], count: u64, event: Event, change: &Move) -> bool
    requires { count + 1 < 2 ^ 64 }
    ensures { result ≡ event_test (small slots.now marks.now count) event change.now }
{
    let place = change.batch.saturating_sub(1);
    if place >= slots.len() as u64 {
        return false;
    }
    let slot = slot_of(slots, place);
    event_passes(count, place, event, &slot, change)
}

/// What a move of one sentence has to say.
fn of_one(count: u64, place: u64, mark: Mark, old: State, new: State, coming: u64) -> Expected
    requires counted { count + 1 < 2 ^ 64 }
    requires placed { place + 1 < 2 ^ 64 }
    ensures { result ≡ one_expected count place mark old new coming }
{
    Expected {
        no: count + 1,
        batch: mark.batch,
        sent: place + 1,
        from: Some(old),
        to: new,
        sentences: 1,
        words_out: mark.words,
        words_in: coming,
    }
}

/// Whether a move of one sentence from one state to another may come next, where its batch allows it.
fn passes_between(
    count: u64,
    place: u64,
    mark: Mark,
    ends: (State, State),
    is_allowed: bool,
    change: &Move,
) -> bool
    requires counted { count + 1 < 2 ^ 64 }
    requires placed { place + 1 < 2 ^ 64 }
    ensures { result ≡ (is_name change.now.who && (is_allowed
        && is_expected change.now (one_expected count place mark ends.0 ends.1 mark.words))) }
{
    good_name(change.who.as_str())
        && is_allowed
        && is_as_expected(
            change,
            of_one(count, place, mark, ends.0, ends.1, mark.words),
        )
}

/// Whether a pull may come next, after `count` moves.
pub fn is_pull(slots: &[Slot<'_>], marks: &[Mark], count: u64, change: &Move) -> bool
    requires { count + 1 < 2 ^ 64 }
    ensures { result ≡ pull_test (small slots.now marks.now count) change.now }
{
    let place = change.sent.saturating_sub(1);
    if place >= marks.len() as u64 {
        return false;
    }
    let mark = mark_of(marks, place);
    let slot = slot_of(slots, mark.batch.saturating_sub(1));
    let is_allowed = may_pull(slot.state, mark.pulled);
    passes_between(
        count,
        place,
        mark,
        (slot.state, State::Withdrawn),
        is_allowed,
        change,
    )
}

/// Whether a restore of the sentence at a place may come next, where its batch has room for it.
pub fn restore_passes(count: u64, place: u64, mark: Mark, slot: &Slot<'_>, change: &Move) -> bool
    requires counted { count + 1 < 2 ^ 64 }
    requires placed { place + 1 < 2 ^ 64 }
    ensures { result ≡ restore_fits count place mark slot.now change.now }
{
    let is_allowed = may_restore(slot.state, mark.pulled);
    passes_between(
        count,
        place,
        mark,
        (State::Withdrawn, slot.state),
        is_allowed,
        change,
    )
}

/// Whether the sums of the batch stay below 2^64. Where rows are fine they always do, so no fact of them is needed.
pub fn has_restore_room(mark: Mark, slot: &Slot<'_>) -> bool
    ensures { result ≡ (fits_word (slot.now.sentences + 1) && fits_word (slot.now.words + mark.words)) }
{
    fits_together(slot.sentences, 1) && fits_together(slot.words, mark.words)
}

/// The row of the revision that comes next at a place.
pub fn next_row<'e, 'a>(
    entries: &'e [SentenceSummary<'a>],
    place: u64,
    mark: Mark,
) -> Option<&'e Revision<'a>>
    ensures bounded { IfSome result (λ _. mark.rev + 1 < 2 ^ 64) }
    ensures row { MatchOption result (nat_lt mark.rev (length (entry_at entries.now place).revisions) ≡ false)
        (λ row. (nat_lt mark.rev (length (entry_at entries.now place).revisions) ≡ true)
        × (row.now ≡ row_next mark (entry_at entries.now place))) }
{
    let Some(entry) = entries.get(place as usize) else {
        return None;
    };
    entry.revisions.get(mark.rev as usize)
}

/// Whether a correction that makes this row may come next.
pub fn correct_passes(
    count: u64,
    place: u64,
    mark: Mark,
    slot: &Slot<'_>,
    row: &Revision<'_>,
    change: &Move,
) -> bool
    requires counted { count + 1 < 2 ^ 64 }
    requires placed { place + 1 < 2 ^ 64 }
    ensures { result ≡ (fits_word (slot.now.words + row.now.words) &&
        (is_name change.now.who && row_fits count place mark slot.now row.now change.now)) }
{
    fits_together(slot.words, row.words)
        && good_name(change.who.as_str())
        && row.who == change.who.as_str()
        && may_correct_now(mark.pulled, slot.state, slot.worker, change.who.as_str())
        && is_as_expected(
            change,
            of_one(count, place, mark, slot.state, slot.state, row.words),
        )
}

/// The entries of the sentences of an import.
pub fn rows_taken<'e, 'a>(
    entries: &'e [SentenceSummary<'a>],
    from: usize,
    count: u64,
) -> &'e [SentenceSummary<'a>]
    ensures { result.now ≡ take count (drop from entries.now) }
{
    if from >= entries.len() {
        return &entries[..0];
    }
    let rest = &entries[from..];
    if count >= rest.len() as u64 {
        return rest;
    }
    &rest[..count as usize]
}

fn is_first_of(user: &str, revisions: &[Revision<'_>]) -> bool
    ensures { result ≡ is_first_by user.now revisions.now }
{
    match revisions.first() {
        None => false,
        Some(row) => row.who == user,
    }
}

/// The words of the first revision.
pub fn first_words_of(revisions: &[Revision<'_>]) -> u64
    ensures { result ≡ first_count revisions.now }
{
    match revisions.first() {
        None => 0,
        Some(row) => row.words,
    }
}

fn is_imported(entry: &SentenceSummary<'_>, number: u64, user: &str) -> bool
    ensures { result ≡ is_of_import number user.now entry.now }
{
    entry.batch == number && is_first_of(user, &entry.revisions)
}

fn are_imported(new: &[SentenceSummary<'_>], number: u64, user: &str) -> bool
    ensures { result ≡ list_all (is_of_import number user.now) new.now }
{
    new.iter().all(|entry| is_imported(entry, number, user))
}

/// The words of first revisions, or none where they do not fit 64 bits.
pub fn count_words(new: &[SentenceSummary<'_>]) -> Option<u64>
    ensures { MatchOption result (fits_word (first_counts new.now) ≡ false) (λ n.
        (fits_word (first_counts new.now) ≡ true) × (n ≡ first_counts new.now)) }
{
    let mut sum: u64 = 0;
    for entry in new {
        let Some(more) = sum.checked_add(first_words_of(&entry.revisions)) else {
            return None;
        };
        sum = more;
    }
    Some(sum)
}

/// Whether an import of these entries, with `words` words, may come next.
pub fn import_passes(
    count: u64,
    number: u64,
    new: &[SentenceSummary<'_>],
    words: u64,
    change: &Move,
) -> bool
    requires counted { count + 1 < 2 ^ 64 }
    requires summed { words ≡ first_counts new.now }
    ensures { result ≡ import_fits count number new.now change.now }
{
    good_name(change.who.as_str())
        && !new.is_empty()
        && are_imported(new, number, change.who.as_str())
        && is_as_expected(
            change,
            Expected {
                no: count + 1,
                batch: number,
                sent: 0,
                from: None,
                to: State::Opened,
                sentences: new.len() as u64,
                words_out: 0,
                words_in: words,
            },
        )
}
