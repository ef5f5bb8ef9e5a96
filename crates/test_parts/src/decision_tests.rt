//! Decisions compared with the table of events, for the worker and for another user: 8 events, 6 states. Another
//! program made the expected answers from the table.

use crate::cases::{Question, assert_alternatives, cut};
use crate::reading::{event_named, number, state_named, word_at};
use crate::telling::{push_value, put, said, shown, yes_or_no};
use std::alloc::Global;
use std::fmt::Debug;
use std::process::Abort;
use tb_core::{
    Event, Refusal, decide_correct, decide_event, decide_pull, decide_restore, good_name,
};

/// The decision for the words of a case. The worker of an event's batch is `ann`.
///
/// A case is an event in a state, by a user; a correction in a state, with the batch's worker, by a user, on a base, of
/// a current number; a pull or a restore, in a state, of a sentence that is `pulled` or not; or a name.
struct Decision;

fn done_or(rt: &impl Abort, alloc: Global, decision: Result<(), Refusal>) -> String {
    match decision {
        Ok(()) => said(rt, alloc, "done"),
        Err(refusal) => shown(rt, alloc, &refusal),
    }
}

/// `STATE WORKER USER BASE CURRENT`.
fn correction_decided(rt: &impl Abort, alloc: Global, asked: &str) -> String {
    let state = state_named(rt, word_at(asked, 0));
    let base = number(rt, word_at(asked, 3));
    let current = number(rt, word_at(asked, 4));
    let decision = decide_correct(state, word_at(asked, 1), word_at(asked, 2), base, current);
    done_or(rt, alloc, decision)
}

/// Whether the sentence of a case `STATE pulled` or `STATE in` is pulled.
fn is_pulled(asked: &str) -> bool {
    *word_at(asked, 1) == *"pulled"
}

fn pull_decided(rt: &impl Abort, alloc: Global, asked: &str) -> String {
    let state = state_named(rt, word_at(asked, 0));
    done_or(rt, alloc, decide_pull(state, is_pulled(asked)))
}

fn restore_decided(rt: &impl Abort, alloc: Global, asked: &str) -> String {
    let state = state_named(rt, word_at(asked, 0));
    match decide_restore(state, is_pulled(asked)) {
        Ok(to) => said(rt, alloc, to.word()),
        Err(refusal) => shown(rt, alloc, &refusal),
    }
}

fn state_told<T: Debug>(rt: &impl Abort, alloc: Global, state: &str, worker: &T) -> String {
    let mut text = said(rt, alloc, state);
    put(rt, &mut text, " ");
    push_value(rt, &mut text, worker);
    text
}

/// `STATE USER`.
fn event_decided(rt: &impl Abort, alloc: Global, event: Event, asked: &str) -> String {
    let state = state_named(rt, word_at(asked, 0));
    match decide_event(state, "ann", event, word_at(asked, 1)) {
        Ok((to, worker)) => state_told(rt, alloc, to.word(), &worker),
        Err(refusal) => shown(rt, alloc, &refusal),
    }
}

impl Question for Decision {
    fn answer(&self, rt: &impl Abort, alloc: Global, asked: &str) -> String {
        let (verb, rest) = cut(rt, asked, " ");
        match verb {
            "name" => yes_or_no(rt, alloc, good_name(rest)),
            "correct" => correction_decided(rt, alloc, rest),
            "pull" => pull_decided(rt, alloc, rest),
            "restore" => restore_decided(rt, alloc, rest),
            event => event_decided(rt, alloc, event_named(rt, event), rest),
        }
    }
}

/// Where several refusals of a correction hold, the first is reported: the state before the user, the user before the
/// base.
const CASES: &str = "\
    assign open (ann|ben) => assigned Caller\n\
    assign (assigned|submitted|adjudicated|released|withdrawn) (ann|ben) => refused 4 WrongState *\n\
    unassign assigned ann => open Cleared\n\
    unassign assigned ben => refused 5 NotYours\n\
    unassign (open|submitted|adjudicated|released|withdrawn) (ann|ben) => refused 4 WrongState *\n\
    submit assigned ann => submitted Keep\n\
    submit assigned ben => refused 5 NotYours\n\
    submit (open|submitted|adjudicated|released|withdrawn) (ann|ben) => refused 4 WrongState *\n\
    send-back submitted ann => refused 6 OwnWork\n\
    send-back submitted ben => assigned Keep\n\
    send-back (open|assigned|adjudicated|released|withdrawn) (ann|ben) => refused 4 WrongState *\n\
    adjudicate submitted ann => refused 6 OwnWork\n\
    adjudicate submitted ben => adjudicated Keep\n\
    adjudicate (open|assigned|adjudicated|released|withdrawn) (ann|ben) => refused 4 WrongState *\n\
    release adjudicated (ann|ben) => released Keep\n\
    release (open|assigned|submitted|released|withdrawn) (ann|ben) => refused 4 WrongState *\n\
    withdraw (open|assigned|submitted|adjudicated|released) (ann|ben) => withdrawn Cleared\n\
    withdraw withdrawn (ann|ben) => refused 4 WrongState withdrawn\n\
    reopen withdrawn (ann|ben) => open Cleared\n\
    reopen (open|assigned|submitted|adjudicated|released) (ann|ben) => refused 4 WrongState *\n\
    correct (open|adjudicated|released|withdrawn) ann (ann|ben) (1|2) 2 => refused 4 WrongState *\n\
    correct assigned ann ann (1|3) 2 => refused 7 Stale 2\n\
    correct assigned ann ann 0 1 => refused 7 Stale 1\n\
    correct assigned ann ann 1 1 => done\n\
    correct assigned ann ann 2 2 => done\n\
    correct assigned ann ben (1|2) 2 => refused 5 NotYours\n\
    correct submitted ann ann (1|2) 2 => refused 6 OwnWork\n\
    correct submitted ann ben 1 2 => refused 7 Stale 2\n\
    correct submitted ann ben 2 2 => done\n\
    pull (open|assigned|submitted|adjudicated|released) in => done\n\
    pull (open|assigned|submitted|adjudicated|released) pulled => refused 20 Pulled\n\
    restore (open|assigned|submitted|adjudicated|released) in => refused 21 NotPulled\n\
    restore (open|assigned|submitted|adjudicated|released) pulled => *\n\
    (pull|restore) withdrawn (in|pulled) => refused 4 WrongState withdrawn\n\
    name (a|b1|A-Z_a.z09|.|abcdefghijklmnopqrstuvwxyzABCDEF) => yes\n\
    name (abcdefghijklmnopqrstuvwxyzABCDEFG||a b|a/b|a@b|a[b|a`b|a{b|a:b|é) => no\n";

#[test]
fn decisions_are_those_of_the_table(rt: HostRuntime) {
    assert_alternatives(&rt, rt.alloc(), &Decision, CASES, 162)
}
