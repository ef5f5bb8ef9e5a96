//! The words of a case read as states, events, refusals and numbers.

use std::process::Abort;
use tb_core::{Event, Refusal, State};

/// The word at a place, from 0; empty past the end.
pub(crate) fn word_at(text: &str, place: usize) -> &str {
    text.split(' ').nth(place).unwrap_or("")
}

pub(crate) fn number(rt: &impl Abort, word: &str) -> u64 {
    word.parse::<u64>().ok().expect(rt, word)
}

pub(crate) fn state_named(rt: &impl Abort, word: &str) -> State {
    let named = match word {
        "open" => Some(State::Opened),
        "assigned" => Some(State::Assigned),
        "submitted" => Some(State::Submitted),
        "adjudicated" => Some(State::Adjudicated),
        "released" => Some(State::Released),
        "withdrawn" => Some(State::Withdrawn),
        _ => None,
    };
    named.expect(rt, word)
}

pub(crate) fn event_named(rt: &impl Abort, word: &str) -> Event {
    let named = match word {
        "assign" => Some(Event::Assign),
        "unassign" => Some(Event::Unassign),
        "submit" => Some(Event::Submit),
        "send-back" => Some(Event::SendBack),
        "adjudicate" => Some(Event::Adjudicate),
        "release" => Some(Event::Release),
        "withdraw" => Some(Event::Withdraw),
        "reopen" => Some(Event::Reopen),
        _ => None,
    };
    named.expect(rt, word)
}

/// The refusal of a number, with what the words after it say.
pub(crate) fn refusal_named(rt: &impl Abort, asked: &str) -> Refusal {
    let first = word_at(asked, 1).parse::<u64>().unwrap_or(0);
    let second = word_at(asked, 2).parse::<u64>().unwrap_or(0);
    let third = word_at(asked, 3).parse::<u64>().unwrap_or(0);
    let code = u8::try_from(second).unwrap_or(0);
    let small = u8::try_from(first).unwrap_or(0);
    let named = match word_at(asked, 0) {
        "1" => Some(Refusal::BadName),
        "2" => Some(Refusal::NoSuchBatch),
        "3" => Some(Refusal::NoSuchSentence),
        "4" => Some(Refusal::WrongState(state_named(rt, word_at(asked, 1)))),
        "5" => Some(Refusal::NotYours),
        "6" => Some(Refusal::OwnWork),
        "7" => Some(Refusal::Stale(first)),
        "8" => Some(Refusal::Read(first, code)),
        "9" => Some(Refusal::Rule(first, code, third)),
        "10" => Some(Refusal::Empty),
        "11" => Some(Refusal::NotOne),
        "12" => Some(Refusal::SentIdChanged),
        "13" => Some(Refusal::TextChanged),
        "14" => Some(Refusal::NothingChanged),
        "15" => Some(Refusal::NameTaken),
        "16" => Some(Refusal::SentIdTaken(first)),
        "17" => Some(Refusal::Full),
        "18" => Some(Refusal::NoSuchRevision),
        "19" => Some(Refusal::Query(small, second)),
        "20" => Some(Refusal::Pulled),
        "21" => Some(Refusal::NotPulled),
        "22" => Some(Refusal::TooManyHits),
        _ => None,
    };
    named.expect(rt, asked)
}
