//! What the words of the command line say.

use crate::cases::{Question, assert_alternatives};
use crate::telling::{push_value, put, replaced, said, value_text};
use std::alloc::Global;
use std::fmt::Debug;
use std::process::Abort;
use tb_cli::{Line, LineFault, ViewLine};

/// The words of a case, after the program's name. Spaces separate the words; `␣` represents a space in a word, and `∅`
/// an empty word.
fn words_of(rt: &impl Abort, alloc: Global, program: &str, asked: &str) -> Vec<String> {
    let mut words: Vec<String> = Vec::new(alloc);
    push_word(rt, &mut words, said(rt, alloc, program));
    for word in asked.split_whitespace() {
        push_word(rt, &mut words, word_of(rt, alloc, word));
    }
    words
}

fn push_word(rt: &impl Abort, words: &mut Vec<String>, word: String) {
    words.push(word).expect(rt, "memory");
}

fn word_of(rt: &impl Abort, alloc: Global, word: &str) -> String {
    let spaced = replaced(rt, alloc, word, "␣", " ");
    replaced(rt, alloc, spaced.as_str(), "∅", "")
}

/// Two values as text.
fn pair_text<A: Debug, B: Debug>(rt: &impl Abort, alloc: Global, first: &A, second: &B) -> String {
    let mut text = value_text(rt, alloc, first);
    put(rt, &mut text, " ");
    push_value(rt, &mut text, second);
    text
}

/// The line, or why the words are none.
fn told<L: Debug>(rt: &impl Abort, alloc: Global, read: &Result<L, LineFault>) -> String {
    match read {
        Ok(line) => value_text(rt, alloc, line),
        Err(LineFault::Clap(error)) => pair_text(rt, alloc, &error.kind(), &error.exit_code()),
        Err(LineFault::Usage) => said(rt, alloc, "usage"),
        Err(LineFault::Memory) => said(rt, alloc, "memory"),
    }
}

/// A program, which is asked what words say to it.
enum Program {
    Treedesk,
    Deskview,
}

impl Question for Program {
    fn answer(&self, rt: &impl Abort, alloc: Global, asked: &str) -> String {
        match self {
            Program::Treedesk => {
                let words = words_of(rt, alloc, "treedesk", asked);
                told(rt, alloc, &Line::read(alloc, &words))
            }
            Program::Deskview => {
                let words = words_of(rt, alloc, "deskview", asked);
                told(rt, alloc, &ViewLine::read(alloc, &words))
            }
        }
    }
}

/// Each command; values without their form; words that clap refuses; help and the version; no word at all.
const LINES: &str = "\
    check => Check\n\
    new --db F => New { db: \"F\" }\n\
    migrate --db=F => Migrate { db: \"F\" }\n\
    import --user ann b1 => Import { db: None, user: \"ann\", name: \"b1\" }\n\
    import b1 --user ann --db F => Import { db: Some(\"F\"), user: \"ann\", name: \"b1\" }\n\
    import --user ∅ c => Import { db: None, user: \"\", name: \"c\" }\n\
    import --user a␣b c␣d => Import { db: None, user: \"a b\", name: \"c d\" }\n\
    import --user ann ∅ => usage\n\
    import --user ann c/d => usage\n\
    event --user ann c/ assign => usage\n\
    export ∅ => usage\n\
    export /c => usage\n\
    event --user ann b1 assign => Event { db: None, user: \"ann\", name: \"b1\", event: Assign }\n\
    event --db F --user ann b1 send-back => Event { db: Some(\"F\"), user: \"ann\", name: \"b1\", event: SendBack }\n\
    correct --user ann 17 0 => Correct { db: None, user: \"ann\", no: 17, base: 0 }\n\
    correct --user ann 9999999999 1 => Correct { db: None, user: \"ann\", no: 9999999999, base: 1 }\n\
    pull --user dan 2 => Pull { db: None, user: \"dan\", no: 2 }\n\
    restore --user dan 2 --db F => Restore { db: Some(\"F\"), user: \"dan\", no: 2 }\n\
    show 7 => Show { db: None, no: 7, rev: None }\n\
    show --db F 7 --rev 2 => Show { db: Some(\"F\"), no: 7, rev: Some(2) }\n\
    export => Export { db: None, name: None }\n\
    export b1 --db F => Export { db: Some(\"F\"), name: Some(\"b1\") }\n\
    totals => Totals { db: None }\n\
    totals --db F => Totals { db: Some(\"F\") }\n\
    moves --db F => Moves { db: Some(\"F\") }\n\
    search [] => Search { db: None, strategy: Longest, context: 5, query: \"[]\" }\n\
    search --strategy every --context 0 []␣[] => Search { db: None, strategy: Every, context: 0, query: \"[] []\" }\n\
    search [] --context=20 --strategy=shortest --db F => Search { db: Some(\"F\"), strategy: Shortest, context: 20, query: \"[]\" }\n\
    count lemma [] => Count { db: None, strategy: Longest, attribute: Lemma, query: \"[]\" }\n\
    count --strategy shortest word [] => Count { db: None, strategy: Shortest, attribute: Form, query: \"[]\" }\n\
    serve --port 0 => Serve { db: None, port: 0, requests: 1000000000 }\n\
    serve --db F --port 65535 --requests 007 => Serve { db: Some(\"F\"), port: 65535, requests: 7 }\n\
    event --user ann b1 opened => usage\n\
    event --user ann b1 Assign => usage\n\
    correct --user ann 0 1 => usage\n\
    correct --user ann 017 1 => usage\n\
    correct --user ann +17 1 => usage\n\
    correct --user ann 17 01 => usage\n\
    correct --user ann 17 10000000000 => usage\n\
    pull --user dan 0 => usage\n\
    restore --user dan x => usage\n\
    show 07 => usage\n\
    show ∅ => usage\n\
    show 7 --rev 0 => usage\n\
    show 7 --rev 02 => usage\n\
    search --context 21 [] => usage\n\
    search --context 05 [] => usage\n\
    search --context ∅ [] => usage\n\
    search --strategy standard [] => usage\n\
    count --strategy traditional lemma [] => usage\n\
    count form [] => usage\n\
    serve --port 65536 => usage\n\
    serve --port 08080 => usage\n\
    serve --port 80 --requests 12345678901 => usage\n\
    serve --port 80 --requests ∅ => usage\n\
    serve --port 80 --requests +1 => usage\n\
    bad => InvalidSubcommand 2\n\
    --bad => UnknownArgument 2\n\
    --db F totals => UnknownArgument 2\n\
    check F => UnknownArgument 2\n\
    check --db F => UnknownArgument 2\n\
    new => MissingRequiredArgument 2\n\
    new --db F --db G => ArgumentConflict 2\n\
    migrate => MissingRequiredArgument 2\n\
    import b1 => MissingRequiredArgument 2\n\
    import --user ann => MissingRequiredArgument 2\n\
    import --user ann b1 b2 => UnknownArgument 2\n\
    import --user ann --user ben b1 => ArgumentConflict 2\n\
    import --user ann b1 --db F --db F => ArgumentConflict 2\n\
    import b1 --user => InvalidValue 2\n\
    event --user ann b1 => MissingRequiredArgument 2\n\
    event b1 assign => MissingRequiredArgument 2\n\
    event --user ann b1 assign b2 => UnknownArgument 2\n\
    correct --user ann 17 => MissingRequiredArgument 2\n\
    correct 17 1 => MissingRequiredArgument 2\n\
    pull 2 => MissingRequiredArgument 2\n\
    pull --user dan => MissingRequiredArgument 2\n\
    restore 2 => MissingRequiredArgument 2\n\
    show => MissingRequiredArgument 2\n\
    show 7 --rev => InvalidValue 2\n\
    show 7 --rev 1 --rev 1 => ArgumentConflict 2\n\
    show 7 --user ann => UnknownArgument 2\n\
    show -7 => UnknownArgument 2\n\
    export b1 b2 => UnknownArgument 2\n\
    totals b1 => UnknownArgument 2\n\
    moves --rev 1 => UnknownArgument 2\n\
    search => MissingRequiredArgument 2\n\
    search --context 1 --context 2 [] => ArgumentConflict 2\n\
    search --context 21 [] --strategy => InvalidValue 2\n\
    search [] [] => UnknownArgument 2\n\
    count lemma => MissingRequiredArgument 2\n\
    count --context 5 lemma [] => UnknownArgument 2\n\
    serve => MissingRequiredArgument 2\n\
    serve --port 80 --port 81 => ArgumentConflict 2\n\
    serve --port 80 90 => UnknownArgument 2\n\
    (--help|-h|help|help search|search --help) => DisplayHelp 0\n\
    --version => DisplayVersion 0\n\
    \x20=> usage\n";

#[test]
fn words_are_read(rt: HostRuntime) {
    assert_alternatives(&rt, rt.alloc(), &Program::Treedesk, LINES, 102)
}

/// Each list; values without their form, and no file; words that clap refuses; help and the version; no word at all.
const VIEW_LINES: &str = "\
    batches --db F => List { db: \"F\", list: Batches }\n\
    batches --db=F => List { db: \"F\", list: Batches }\n\
    batches --db a␣b => List { db: \"a b\", list: Batches }\n\
    sentences --db F b1 => List { db: \"F\", list: Sentences { name: \"b1\" } }\n\
    sentences a␣b --db=F => List { db: \"F\", list: Sentences { name: \"a b\" } }\n\
    revisions --db F 7 => List { db: \"F\", list: Revisions { no: 7 } }\n\
    revisions 9999999999 --db=F => List { db: \"F\", list: Revisions { no: 9999999999 } }\n\
    tree --db F 7 => List { db: \"F\", list: Tree { no: 7 } }\n\
    tree 9999999999 --db=F => List { db: \"F\", list: Tree { no: 9999999999 } }\n\
    find --db F en-1 => List { db: \"F\", list: Find { sent_id: \"en-1\" } }\n\
    find a␣b/c --db=F => List { db: \"F\", list: Find { sent_id: \"a b/c\" } }\n\
    find --db F -- -1 => List { db: \"F\", list: Find { sent_id: \"-1\" } }\n\
    find --db F ∅ => List { db: \"F\", list: Find { sent_id: \"\" } }\n\
    check => Check { most: 100 }\n\
    check --most 1 => Check { most: 1 }\n\
    check --most=1000000 => Check { most: 1000000 }\n\
    check --most (0|01|+1|1000001|10000000000|x|∅) => usage\n\
    page --db F --port 8080 => Page { db: \"F\", port: 8080 }\n\
    page --port=0 --db=F => Page { db: \"F\", port: 0 }\n\
    page --db F --port 65536 => usage\n\
    page --db F --port 08 => usage\n\
    find s1 => usage\n\
    batches => usage\n\
    sentences b1 => usage\n\
    sentences --db F b/1 => usage\n\
    sentences --db F ∅ => usage\n\
    (revisions|tree) 7 => usage\n\
    (revisions|tree) --db F 0 => usage\n\
    (revisions|tree) --db F 07 => usage\n\
    (revisions|tree) --db F +7 => usage\n\
    (revisions|tree) --db F x => usage\n\
    (revisions|tree) --db F ∅ => usage\n\
    (revisions|tree) --db F 10000000000 => usage\n\
    list => InvalidSubcommand 2\n\
    totals --db F => InvalidSubcommand 2\n\
    --bad => UnknownArgument 2\n\
    --db F batches => UnknownArgument 2\n\
    batches b1 --db F => UnknownArgument 2\n\
    batches --user ann --db F => UnknownArgument 2\n\
    batches --db F --db G => ArgumentConflict 2\n\
    batches --db => InvalidValue 2\n\
    sentences => MissingRequiredArgument 2\n\
    sentences --db F => MissingRequiredArgument 2\n\
    sentences --db F b1 b2 => UnknownArgument 2\n\
    revisions => MissingRequiredArgument 2\n\
    revisions --db F => MissingRequiredArgument 2\n\
    tree => Trees\n\
    tree --db F => usage\n\
    (revisions|tree) --db F 7 8 => UnknownArgument 2\n\
    revisions --db F -7 => UnknownArgument 2\n\
    revisions --db F --rev 1 7 => UnknownArgument 2\n\
    revisions 7 --db F --db F => ArgumentConflict 2\n\
    revisions 7 --db => InvalidValue 2\n\
    check (F|--db F) => UnknownArgument 2\n\
    check --most => InvalidValue 2\n\
    check --most 1 --most 2 => ArgumentConflict 2\n\
    find => MissingRequiredArgument 2\n\
    find --db F => MissingRequiredArgument 2\n\
    find --db F s1 s2 => UnknownArgument 2\n\
    find --db F -1 => UnknownArgument 2\n\
    (--help|-h|help|help revisions|help find|help tree|help check|batches --help) => DisplayHelp 0\n\
    --version => DisplayVersion 0\n\
    \x20=> usage\n";

#[test]
fn words_of_deskview_are_read(rt: HostRuntime) {
    assert_alternatives(&rt, rt.alloc(), &Program::Deskview, VIEW_LINES, 85)
}
