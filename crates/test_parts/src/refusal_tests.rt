//! The texts of refusals and faults, and the words for states, events and kinds, as replies and tables have them.

use crate::cases::{Question, assert_alternatives};
use crate::reading::{refusal_named, word_at};
use crate::rows::kind_named;
use crate::telling::{joined, said, shown};
use std::alloc::Global;
use std::process::Abort;
use tb_core::{Fault, Refusal};

/// The text of a fault, after the number of a refusal; and the word of a kind.
struct Texts;

impl Question for Texts {
    fn answer(&self, rt: &impl Abort, alloc: Global, asked: &str) -> String {
        match word_at(asked, 0) {
            "kind" => said(rt, alloc, kind_named(rt, word_at(asked, 1)).word()),
            "memory" => fault_told(rt, alloc, 0, Fault::Memory),
            "device" => fault_told(rt, alloc, 0, Fault::Device),
            "desk" => fault_told(rt, alloc, 0, Fault::NotADesk),
            "output" => fault_told(rt, alloc, 0, Fault::Output),
            _ => refusal_told(rt, alloc, refusal_named(rt, asked)),
        }
    }
}

fn refusal_told(rt: &impl Abort, alloc: Global, refusal: Refusal) -> String {
    fault_told(rt, alloc, refusal.number(), Fault::Refused(refusal))
}

fn fault_told(rt: &impl Abort, alloc: Global, number: u8, fault: Fault) -> String {
    let number = shown(rt, alloc, &number);
    let fault = shown(rt, alloc, &fault);
    joined(rt, alloc, &[number.as_str(), ": ", fault.as_str()])
}

const TEXTS: &str = "\
    1 => 1: refused 1 BadName\n\
    2 => 2: refused 2 NoSuchBatch\n\
    3 => 3: refused 3 NoSuchSentence\n\
    4 open => 4: refused 4 WrongState open\n\
    4 withdrawn => 4: refused 4 WrongState withdrawn\n\
    5 => 5: refused 5 NotYours\n\
    6 => 6: refused 6 OwnWork\n\
    7 2 => 7: refused 7 Stale 2\n\
    8 6 10 => 8: refused 8 Read 6 10\n\
    9 1 4 1 => 9: refused 9 Rule 1 4 1\n\
    9 2 12 0 => 9: refused 9 Rule 2 12 0\n\
    10 => 10: refused 10 Empty\n\
    11 => 11: refused 11 NotOne\n\
    12 => 12: refused 12 SentIdChanged\n\
    13 => 13: refused 13 TextChanged\n\
    14 => 14: refused 14 NothingChanged\n\
    15 => 15: refused 15 NameTaken\n\
    16 2 => 16: refused 16 SentIdTaken 2\n\
    17 => 17: refused 17 Full\n\
    18 => 18: refused 18 NoSuchRevision\n\
    19 2 2000 => 19: refused 19 Query 2 2000\n\
    20 => 20: refused 20 Pulled\n\
    21 => 21: refused 21 NotPulled\n\
    22 => 22: refused 22 TooManyHits\n\
    memory => 0: refused memory\n\
    device => 0: refused device\n\
    desk => 0: refused desk\n\
    output => 0: the writer failed\n\
    kind import => import\n\
    kind assign => assign\n\
    kind unassign => unassign\n\
    kind submit => submit\n\
    kind send-back => send-back\n\
    kind adjudicate => adjudicate\n\
    kind release => release\n\
    kind withdraw => withdraw\n\
    kind reopen => reopen\n\
    kind correct => correct\n\
    kind pull => pull\n\
    kind restore => restore\n";

#[test]
fn refusals_faults_and_kinds_have_their_texts(rt: HostRuntime) {
    assert_alternatives(&rt, rt.alloc(), &Texts, TEXTS, 40)
}
