//! A desk in one line of text, read as rows.
//!
//! `BATCHES | SENTENCES | MOVES`, each list separated by `; `. A batch is `NAME STATE WORKER` or `NAME STATE`. A
//! sentence is `BATCH PLACE USER:WORDS USER:WORDS ..`, with `in` or `out` for its place. A move is `NUMBER KIND
//! BATCH SENTENCE FROM TO SENTENCES WORDS_OUT WORDS_IN USER`. `none` represents no state, and `␣` a space in the name
//! of a user.

use crate::cases::cut;
use crate::reading::{event_named, number, state_named, word_at};
use crate::telling::replaced;
use std::alloc::Global;
use std::process::Abort;
use tb_core::{Kind, Move, State};
use tb_replay::{BatchRow, Revision, SentenceSummary};

pub(crate) fn kind_named(rt: &impl Abort, word: &str) -> Kind {
    match word {
        "import" => Kind::Import,
        "correct" => Kind::Correct,
        "pull" => Kind::Pull,
        "restore" => Kind::Restore,
        other => Kind::Step(event_named(rt, other)),
    }
}

/// What one part of a text says.
pub(crate) trait Row<'a>: Drop {
    fn read(rt: &impl Abort, alloc: Global, row: &'a str) -> Self;
}

impl<'a> Row<'a> for BatchRow<'a> {
    fn read(rt: &impl Abort, _alloc: Global, row: &'a str) -> BatchRow<'a> {
        BatchRow {
            name: word_at(row, 0),
            state: state_named(rt, word_at(row, 1)),
            worker: word_at(row, 2),
        }
    }
}

impl<'a> Row<'a> for Revision<'a> {
    fn read(rt: &impl Abort, _alloc: Global, row: &'a str) -> Revision<'a> {
        let (who, words) = cut(rt, row, ":");
        Revision {
            who,
            words: number(rt, words),
        }
    }
}

impl<'a> Row<'a> for SentenceSummary<'a> {
    fn read(rt: &impl Abort, alloc: Global, row: &'a str) -> SentenceSummary<'a> {
        SentenceSummary {
            batch: number(rt, word_at(row, 0)),
            pulled: *word_at(row, 1) == *"out",
            revisions: rows_of(rt, alloc, row.splitn(3, ' ').nth(2).unwrap_or(""), " "),
        }
    }
}

impl<'a> Row<'a> for Move {
    fn read(rt: &impl Abort, alloc: Global, row: &'a str) -> Move {
        Move {
            no: number(rt, word_at(row, 0)),
            kind: kind_named(rt, word_at(row, 1)),
            batch: number(rt, word_at(row, 2)),
            sent: number(rt, word_at(row, 3)),
            from: state_or_none(rt, word_at(row, 4)),
            to: state_named(rt, word_at(row, 5)),
            sentences: number(rt, word_at(row, 6)),
            words_out: number(rt, word_at(row, 7)),
            words_in: number(rt, word_at(row, 8)),
            who: replaced(rt, alloc, word_at(row, 9), "␣", " "),
        }
    }
}

fn state_or_none(rt: &impl Abort, word: &str) -> Option<State> {
    match word {
        "none" => None,
        word => Some(state_named(rt, word)),
    }
}

/// What the parts of a text say, which the sign separates.
pub(crate) fn rows_of<'a, R: Row<'a>>(
    rt: &impl Abort,
    alloc: Global,
    text: &'a str,
    sign: &str,
) -> Vec<R> {
    let mut rows = Vec::new(alloc);
    for row in text.split(sign) {
        rows.push(R::read(rt, alloc, row)).expect(rt, row);
    }
    rows
}
