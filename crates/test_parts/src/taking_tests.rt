//! Files and corrections, read into sentences that own their texts.

use crate::files::file_of;
use crate::telling::{assert_bytes, assert_same, joined};
use std::alloc::Global;
use std::process::Abort;
use tb_conllu::{Block, write};
use tb_core::{take_file, take_one};

/// The sentence that is corrected.
const DOGS: &str = "\
    # sent_id = s1\n\
    # text = Dogs bark\n\
    1\tDogs\tdog\tNOUN\t_\t_\t2\tnsubj\t_\t_\n\
    2\tbark\tbark\tVERB\t_\t_\t0\troot\t_\t_\n\
    \n";

const CORRECTION: &str = "\
    # sent_id = s1\n\
    # text = Dogs bark\n\
    1\tDogs\tdog\tNOUN\t_\tNumber=Plur\t2\tnsubj\t_\t_\n\
    2\tbark\tbark\tVERB\t_\t_\t0\troot\t_\t_\n\
    \n";

/// The file of that sentence and another one.
fn two_sentences(rt: &impl Abort, alloc: Global) -> String {
    let go = file_of(rt, alloc, "go");
    joined(rt, alloc, &[DOGS, go.as_str()])
}

/// Asserts that the sentences are a file with this text.
fn assert_written(rt: &impl Abort, alloc: Global, blocks: &[Block], file: &str) {
    let bytes = write(alloc, blocks).expect(rt, "a file");
    assert_bytes(rt, &bytes, file, "a file");
}

#[test]
fn a_file_is_taken(rt: HostRuntime) {
    let alloc = rt.alloc();
    let file = two_sentences(&rt, alloc);
    let blocks = take_file(alloc, file.as_bytes()).expect(&rt, "a file");
    assert_same(&rt, &blocks.len(), &2, "the number of sentences");
    assert_written(&rt, alloc, &blocks, file.as_str());
}

#[test]
fn a_correction_is_taken(rt: HostRuntime) {
    let alloc = rt.alloc();
    let blocks = take_file(alloc, DOGS.as_bytes()).expect(&rt, "a file");
    let current = blocks.first().expect(&rt, "a sentence");
    let corrected = take_one(alloc, CORRECTION.as_bytes(), current).expect(&rt, "a correction");
    assert_written(&rt, alloc, &[corrected], CORRECTION);
}
