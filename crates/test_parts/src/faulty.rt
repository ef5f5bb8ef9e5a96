//! Commands that are accepted without the faults that a case names. The parts of the machine judge them, in the order
//! in which a desk asks these parts.

use crate::cases::Question;
use crate::reading::{event_named, word_at};
use crate::telling::{joined, said, shown};
use std::alloc::Global;
use std::process::Abort;
use tb_conllu::read;
use tb_core::{
    BatchFound, CurrentFound, Event, Imported, Judged, Limits, NameFound, SentenceFound, State,
    judge_correction_before, judge_correction_body, judge_event, judge_import_after,
    judge_import_before, judge_import_body, judge_pull, judge_restore,
};

const LIMITS: Limits = Limits {
    sentences: 9,
    moves: 3,
    hits: 9,
};

const SECOND: &str =
    "# sent_id = stay\n# text = Stay\n1\tStay\tstay\tVERB\t_\t_\t0\troot\t_\t_\n\n";

/// The sentence that a correction corrects.
const STANDING: &str = "# sent_id = go\n# text = Go\n1\tGo\tgo\tVERB\t_\t_\t0\troot\t_\t_\n\n";

/// What is reported for a command with the faults of a case.
pub(crate) struct Faulty;

impl Question for Faulty {
    fn answer(&self, rt: &impl Abort, alloc: Global, asked: &str) -> String {
        let body = body_text(rt, alloc, asked);
        match word_at(asked, 0) {
            "import" => import_reported(rt, alloc, asked, body.as_bytes()),
            "correct" => correction_reported(rt, alloc, asked, body.as_bytes()),
            "pull" => pull_reported(rt, alloc, asked),
            "restore" => restore_reported(rt, alloc, asked),
            event => event_reported(rt, alloc, asked, event_named(rt, event)),
        }
    }
}

/// Whether the case names the fault.
fn has(asked: &str, fault: &str) -> bool {
    asked.split(' ').any(|word| *word == *fault)
}

/// The first value where the case names the fault, else the second.
fn either<T: Copy>(asked: &str, fault: &str, faulty: T, fine: T) -> T {
    if has(asked, fault) { faulty } else { fine }
}

/// The one sentence of the body. Without a fault it differs from the stored one only in its lemma.
fn sentence_text(rt: &impl Abort, alloc: Global, asked: &str) -> String {
    let name = either(asked, "id", "gone", "go");
    let form = either(asked, "text", "Went", "Go");
    let lemma = either(asked, "same", "go", "going");
    let tag = either(asked, "rule", "VERBS", "VERB");
    let heading = joined(
        rt,
        alloc,
        &["# sent_id = ", name, "\n# text = ", form, "\n"],
    );
    let row = joined(
        rt,
        alloc,
        &[
            "1\t",
            form,
            "\t",
            lemma,
            "\t",
            tag,
            "\t_\t_\t0\troot\t_\t_\n",
        ],
    );
    joined(rt, alloc, &[heading.as_str(), row.as_str(), "\n"])
}

fn body_text(rt: &impl Abort, alloc: Global, asked: &str) -> String {
    let first = if has(asked, "empty") {
        String::new(alloc)
    } else {
        sentence_text(rt, alloc, asked)
    };
    let second = either(asked, "two", SECOND, "");
    let line = either(asked, "line", "x\n", "");
    joined(rt, alloc, &[first.as_str(), second, line])
}

/// An event on a batch. Either only its worker may ask for it, or only others may.
fn event_reported(rt: &impl Abort, alloc: Global, asked: &str, event: Event) -> String {
    let by_worker = event == Event::Submit;
    let state = if by_worker {
        State::Assigned
    } else {
        State::Submitted
    };
    let found = BatchFound {
        number: 1,
        state: either(asked, "state", State::Released, state),
        worker: if has(asked, "worker") == by_worker {
            "ben"
        } else {
            "ann"
        },
    };
    let batch = either(asked, "batch", None, Some(&found));
    let name = either(asked, "name", "b/1", "b1");
    let user = either(asked, "user", "a b", "ann");
    let moves = either(asked, "full", 3, 2);
    match judge_event(&LIMITS, name, event, user, batch, moves) {
        Ok((to, _)) => said(rt, alloc, to.word()),
        Err(refusal) => shown(rt, alloc, &refusal),
    }
}

/// What the desk finds under the name of an import: nothing, another import, or this one.
fn name_found(asked: &str) -> NameFound {
    if has(asked, "again") {
        NameFound::Same(Imported {
            batch: 1,
            first: 1,
            sentences: 1,
            words: 1,
        })
    } else {
        either(asked, "taken", NameFound::Taken, NameFound::Free)
    }
}

fn import_reported(rt: &impl Abort, alloc: Global, asked: &str, body: &[u8]) -> String {
    let name = either(asked, "name", "b/1", "b1");
    let user = either(asked, "user", "a b", "ann");
    let found = name_found(asked);
    match judge_import_before(name, user, found) {
        Ok(Judged::Repeat(_)) => said(rt, alloc, "repeat"),
        Ok(Judged::Continue) => import_body_reported(rt, alloc, asked, body, found),
        Err(refusal) => shown(rt, alloc, &refusal),
    }
}

fn import_body_reported(
    rt: &impl Abort,
    alloc: Global,
    asked: &str,
    body: &[u8],
    found: NameFound,
) -> String {
    match judge_import_body(alloc, body, found) {
        Ok(taken) => import_after_reported(rt, alloc, asked, taken.len() as u64),
        Err(fault) => shown(rt, alloc, &fault),
    }
}

/// An import of so many sentences, whose body is taken.
fn import_after_reported(rt: &impl Abort, alloc: Global, asked: &str, new: u64) -> String {
    let standing = either(asked, "stands", Some(1), None);
    let sentences = either(asked, "crowded", 9, 8);
    let moves = either(asked, "full", 3, 2);
    match judge_import_after(&LIMITS, new, standing, sentences, moves) {
        Ok(()) => said(rt, alloc, "imported"),
        Err(refusal) => shown(rt, alloc, &refusal),
    }
}

/// The sentence that a correction corrects. Its current revision is the second, on which the correction is made, or
/// the third.
fn current_found<'a>(asked: &str, body: &'a [u8]) -> CurrentFound<'a> {
    let again = has(asked, "again");
    let state = either(asked, "own", State::Submitted, State::Assigned);
    CurrentFound {
        state: either(asked, "state", State::Released, state),
        worker: either(asked, "other", "ben", "ann"),
        pulled: has(asked, "pulled"),
        rev: if again || has(asked, "stale") { 3 } else { 2 },
        who: if again {
            either(asked, "user", "a b", "ann")
        } else {
            "cem"
        },
        body: if again { body } else { b"" },
        words: 1,
    }
}

fn correction_reported(rt: &impl Abort, alloc: Global, asked: &str, body: &[u8]) -> String {
    let found = current_found(asked, body);
    let sentence = either(asked, "sentence", None, Some(&found));
    let user = either(asked, "user", "a b", "ann");
    match judge_correction_before(7, 2, user, body, sentence) {
        Ok(Judged::Repeat(_)) => said(rt, alloc, "repeat"),
        Ok(Judged::Continue) => correction_body_reported(rt, alloc, asked, body),
        Err(refusal) => shown(rt, alloc, &refusal),
    }
}

fn correction_body_reported(rt: &impl Abort, alloc: Global, asked: &str, body: &[u8]) -> String {
    let blocks = read(alloc, STANDING.as_bytes()).expect(rt, "a file");
    let current = blocks.first().expect(rt, "a sentence");
    let moves = either(asked, "full", 3, 2);
    match judge_correction_body(alloc, &LIMITS, body, current, moves) {
        Ok(_) => said(rt, alloc, "corrected"),
        Err(fault) => shown(rt, alloc, &fault),
    }
}

/// The sentence of a pull or a restore, if there is one.
fn sentence_found(asked: &str, pulled: bool) -> Option<SentenceFound> {
    let state = either(asked, "state", State::Withdrawn, State::Submitted);
    either(
        asked,
        "sentence",
        None,
        Some(SentenceFound { state, pulled }),
    )
}

fn pull_reported(rt: &impl Abort, alloc: Global, asked: &str) -> String {
    let found = sentence_found(asked, has(asked, "pulled"));
    let user = either(asked, "user", "a b", "ann");
    let moves = either(asked, "full", 3, 2);
    match judge_pull(&LIMITS, 7, user, found, moves) {
        Ok(()) => said(rt, alloc, "pulled"),
        Err(refusal) => shown(rt, alloc, &refusal),
    }
}

/// The fault `here` of a restore is that the sentence is not pulled.
fn restore_reported(rt: &impl Abort, alloc: Global, asked: &str) -> String {
    let found = sentence_found(asked, !has(asked, "here"));
    let user = either(asked, "user", "a b", "ann");
    let moves = either(asked, "full", 3, 2);
    match judge_restore(&LIMITS, 7, user, found, moves) {
        Ok(state) => said(rt, alloc, state.word()),
        Err(refusal) => shown(rt, alloc, &refusal),
    }
}
