//! Lists of faults as CSV.

use crate::telling::{assert_bytes, said};
use std::alloc::Global;
use std::process::Abort;
use tb_check::Fault;
use tb_report::{FaultRow, faults_text};

/// Two faulty lines and three broken rules, as Python's `csv` module wrote them:
/// `csv.writer(file, lineterminator="\n")`.
const LIST: &str =
    "line,code,sentence,rule,row,id,column,value,message\n3,2,,,,,,,\"it has 4 fields, not 10\"\n18446744073709551615,10,,,,,,,\"the last line\nhas no end\"\n7,,1,4,2,1,UPOS,\"NN,\"\"x\"\"\",no part of speech\n12,,4194304,12,0,,,,\"a tree, with \"\"words\"\"\"\n9,,2,8,18446744073709551615,2-3,MISC,книга 北京 ß\t=1,\"é, ü\"\n";

/// The same with a last row, since there are more.
const LIST_AND_MORE: &str =
    "line,code,sentence,rule,row,id,column,value,message\n3,2,,,,,,,\"it has 4 fields, not 10\"\n18446744073709551615,10,,,,,,,\"the last line\nhas no end\"\n7,,1,4,2,1,UPOS,\"NN,\"\"x\"\"\",no part of speech\n12,,4194304,12,0,,,,\"a tree, with \"\"words\"\"\"\n9,,2,8,18446744073709551615,2-3,MISC,книга 北京 ß\t=1,\"é, ü\"\n,,,,,,,,there are more faults; --most N lists as many as N\n";

/// The faults: each with its line, its column, and the ID, the value and the message. The line of a faulty line is in
/// the fault.
const FAULTS: [(Fault, usize, &str, [&str; 3]); 5] = [
    (
        Fault::Line { line: 3, code: 2 },
        1,
        "",
        ["", "", "it has 4 fields, not 10"],
    ),
    (
        Fault::Line {
            line: usize::MAX,
            code: 10,
        },
        1,
        "",
        ["", "", "the last line\nhas no end"],
    ),
    (
        Fault::Rule {
            sentence: 1,
            rule: 4,
            row: 2,
        },
        7,
        "UPOS",
        ["1", "NN,\"x\"", "no part of speech"],
    ),
    (
        Fault::Rule {
            sentence: 4_194_304,
            rule: 12,
            row: 0,
        },
        12,
        "",
        ["", "", "a tree, with \"words\""],
    ),
    (
        Fault::Rule {
            sentence: 2,
            rule: 8,
            row: usize::MAX,
        },
        9,
        "MISC",
        ["2-3", "книга 北京 ß\t=1", "é, ü"],
    ),
];

fn row_of(
    rt: &impl Abort,
    alloc: Global,
    fault: Fault,
    line: usize,
    column: &'static str,
    texts: [&str; 3],
) -> FaultRow {
    FaultRow {
        fault,
        line,
        id: said(rt, alloc, texts[0]),
        column,
        value: said(rt, alloc, texts[1]),
        message: said(rt, alloc, texts[2]),
    }
}

fn rows(rt: &impl Abort, alloc: Global) -> Vec<FaultRow> {
    let mut rows = Vec::new(alloc);
    for (fault, line, column, texts) in FAULTS {
        let row = row_of(rt, alloc, fault, line, column, texts);
        rows.push(row).expect(rt, "a fault");
    }
    rows
}

fn assert_list(rt: &impl Abort, alloc: Global, listed: &[FaultRow], more: bool, wanted: &str) {
    let text = faults_text(alloc, listed, more).expect(rt, "a list");
    assert_bytes(rt, &text, wanted, "a list of faults");
}

#[test]
fn a_list_of_faults(rt: HostRuntime) {
    let listed = rows(&rt, rt.alloc());
    assert_list(&rt, rt.alloc(), &listed, false, LIST);
    assert_list(&rt, rt.alloc(), &listed, true, LIST_AND_MORE);
}
