//! Totals that are kept from move to move.

use crate::cases::{Question, assert_alternatives};
use crate::rows::Row;
use crate::telling::{push_value, put};
use std::alloc::Global;
use std::process::Abort;
use tb_core::{
    Move, State, Totals, commands_lead_on, commands_stay_within_limits, corrections_repeat,
    each_command_ends, each_command_ends_one_way, each_sentence_is_in_one_state, imports_repeat,
    later_states_extend, reached_states_are_well, revisions_read_back, rows_tell_the_state,
    stored_totals_hold, stored_totals_take_moves, totals_are_nets,
};
use tb_replay::{reached_states_are_fine, replay_is_exact};

/// The totals after moves that `; ` separates, from none on: the sentences and words of each state. Or `not taken`,
/// where a move is not accepted.
struct After;

impl Question for After {
    fn answer(&self, rt: &impl Abort, alloc: Global, asked: &str) -> String {
        let mut text = String::new(alloc);
        match totals_after(rt, alloc, asked) {
            Some(totals) => push_totals(rt, &mut text, &totals),
            None => put(rt, &mut text, "not taken"),
        }
        text
    }
}

/// Appends the sentences of each state, and the words.
pub(crate) fn push_totals(rt: &impl Abort, text: &mut String, totals: &Totals) {
    push_value(rt, text, &totals.sentences);
    put(rt, text, " ");
    push_value(rt, text, &totals.words);
}

/// Whether the move is accepted. The totals are then those after it.
fn takes(rt: &impl Abort, alloc: Global, totals: &mut Totals, text: &str) -> bool {
    let change = Move::read(rt, alloc, text);
    let takes = totals.takes(&change);
    if takes {
        totals.apply(&change);
    }
    takes
}

/// The totals after the moves; `None` where a move is not accepted.
fn totals_after(rt: &impl Abort, alloc: Global, moves: &str) -> Option<Totals> {
    let mut totals = Totals {
        sentences: [0; 6],
        words: [0; 6],
    };
    for text in moves.split("; ") {
        if !takes(rt, alloc, &mut totals, text) {
            return None;
        }
    }
    Some(totals)
}

/// A file of three words through its states to release; a correction that adds a word; a pull and a restore; a
/// withdrawal. Then moves that a state does not allow, or that exceed 64 bits, also where they leave and enter the
/// same state.
const TOTALS: &str = "\
    1 import 1 0 none open 1 0 3 ann; 1 import 1 0 open assigned 1 3 3 ann; 1 import 1 0 assigned submitted 1 3 3 ann; 1 import 1 0 submitted adjudicated 1 3 3 ann; 1 import 1 0 adjudicated released 1 3 3 ann => [0, 0, 0, 0, 1, 0] [0, 0, 0, 0, 3, 0]\n\
    1 import 1 0 none open 1 0 3 ann; 1 import 1 0 open assigned 1 3 3 ann; 1 import 1 0 assigned assigned 1 3 4 ann => [0, 1, 0, 0, 0, 0] [0, 4, 0, 0, 0, 0]\n\
    1 import 1 0 none open 2 0 4 ann; 1 import 1 0 open withdrawn 1 1 1 ann; 1 import 1 0 open assigned 1 3 3 ann => [0, 1, 0, 0, 0, 1] [0, 3, 0, 0, 0, 1]\n\
    1 import 1 0 none open 2 0 4 ann; 1 import 1 0 open withdrawn 1 1 1 ann; 1 import 1 0 open assigned 1 3 3 ann; 1 import 1 0 withdrawn assigned 1 1 1 ann => [0, 2, 0, 0, 0, 0] [0, 4, 0, 0, 0, 0]\n\
    1 import 1 0 none open 1 0 3 ann; 1 import 1 0 open withdrawn 1 3 3 ann; 1 import 1 0 withdrawn open 1 3 3 ann => [1, 0, 0, 0, 0, 0] [3, 0, 0, 0, 0, 0]\n\
    1 import 1 0 none open 1 0 3 ann; 1 import 1 0 assigned submitted 1 3 3 ann => not taken\n\
    1 import 1 0 none open 1 0 3 ann; 1 import 1 0 open assigned 2 3 3 ann => not taken\n\
    1 import 1 0 none open 1 0 3 ann; 1 import 1 0 open assigned 1 4 4 ann => not taken\n\
    1 import 1 0 none open 1 0 18446744073709551615 ann; 1 import 1 0 none open 1 0 1 ann => not taken\n\
    1 import 1 0 none open 18446744073709551615 0 1 ann; 1 import 1 0 none open 1 0 1 ann => not taken\n\
    1 import 1 0 none open 1 0 18446744073709551615 ann; 1 import 1 0 open open 1 5 6 ann => not taken\n\
    1 import 1 0 none open 1 0 18446744073709551615 ann; 1 import 1 0 open open 1 5 5 ann => [1, 0, 0, 0, 0, 0] [18446744073709551615, 0, 0, 0, 0, 0]\n";

#[test]
fn totals_follow_moves(rt: HostRuntime) {
    assert_alternatives(&rt, rt.alloc(), &After, TOTALS, 12)
}

/// The laws run no code; each is called once.
#[test]
fn laws_are_called(rt: HostRuntime) {
    reached_states_are_well();
    later_states_extend();
    totals_are_nets();
    each_sentence_is_in_one_state();
    revisions_read_back();
    rows_tell_the_state();
    commands_lead_on();
    commands_stay_within_limits();
    imports_repeat();
    corrections_repeat();
    each_command_ends_one_way();
    each_command_ends();
    stored_totals_take_moves();
    stored_totals_hold();
    replay_is_exact();
    reached_states_are_fine();
    assert!(rt; State::Opened != State::Withdrawn);
}
