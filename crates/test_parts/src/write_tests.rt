//! The guidelines' examples of multiword tokens and of an empty node, written; and writers that fail.

use crate::broken::BrokenWriter;
use crate::files::{COFFEE_AND_TEA, DOGS_BARK, VAMONOS, file_of};
use crate::telling::{assert_bytes, assert_holds, assert_same, assert_text, value_text};
use std::alloc::Global;
use std::process::Abort;
use tb_conllu::{
    Block, BlockRef, WriteFault, read, read_ref, reread, rewrite, write, write_block_to, write_to,
};

/// The sentences, written one after another.
fn in_pieces(rt: &impl Abort, alloc: Global, blocks: &[BlockRef<'_>]) -> Vec<u8> {
    let mut pieces: Vec<u8> = Vec::new(alloc);
    for block in blocks {
        write_block_to(block, &mut pieces).expect(rt, "error");
    }
    pieces
}

fn assert_written(rt: &impl Abort, alloc: Global, blocks: &[BlockRef<'_>], file: &str) {
    let text = write(alloc, blocks).expect(rt, "error");
    assert_bytes(rt, &text, file, "a text");
    let mut whole: Vec<u8> = Vec::new(alloc);
    write_to(blocks, &mut whole).expect(rt, "error");
    assert_bytes(rt, &whole, file, "a whole");
    let pieces = in_pieces(rt, alloc, blocks);
    assert_bytes(rt, &pieces, file, "pieces");
}

fn assert_writes(rt: &impl Abort, alloc: Global, file: &str) {
    let blocks = read_ref(alloc, file.as_bytes()).expect(rt, "error");
    assert_written(rt, alloc, &blocks, file);
}

/// The sentences of a file are written as its text, by each of the three writers.
#[test]
fn writes_files(rt: HostRuntime) {
    assert_writes(&rt, rt.alloc(), DOGS_BARK);
    assert_writes(&rt, rt.alloc(), VAMONOS);
    assert_writes(&rt, rt.alloc(), COFFEE_AND_TEA);
    let all = file_of(&rt, rt.alloc(), "V C D");
    assert_writes(&rt, rt.alloc(), all.as_str());
}

/// The sentences of a file, written and read.
fn read_again(rt: &impl Abort, alloc: Global, file: &str) -> Vec<Block> {
    let blocks = read(alloc, file.as_bytes()).expect(rt, "error");
    reread(alloc, &blocks).expect(rt, "error")
}

fn assert_the_same_again(rt: &impl Abort, alloc: Global, file: &str) {
    let once = rewrite(alloc, file.as_bytes()).expect(rt, "error");
    assert_bytes(rt, &once, file, "once");
    let again = read_again(rt, alloc, file);
    let twice = write(alloc, &again).expect(rt, "error");
    assert_bytes(rt, &twice, file, "twice");
}

/// A sentence without rows.
fn without_rows(rt: &impl Abort, alloc: Global) -> Vec<Block> {
    let mut blocks: Vec<Block> = Vec::new(alloc);
    let block = Block {
        comments: Vec::new(alloc),
        rows: Vec::new(alloc),
    };
    blocks.push(block).expect(rt, "error");
    blocks
}

fn assert_not_read_again(rt: &impl Abort, alloc: Global) {
    let file = value_text(rt, alloc, &rewrite(alloc, b"# a\n\n").err());
    assert_text(rt, file.as_str(), "Some(At { line: 2, code: 9 })", "a file");
    let blocks = without_rows(rt, alloc);
    let fault = value_text(rt, alloc, &reread(alloc, &blocks).err());
    let wanted = "Some(At { line: 1, code: 9 })";
    assert_text(rt, fault.as_str(), wanted, "a sentence");
}

/// Reading and writing a file gives the same file, and so does doing it again. A sentence without rows is not read
/// back.
#[test]
fn a_file_written_again_is_the_same(rt: HostRuntime) {
    assert_the_same_again(&rt, rt.alloc(), DOGS_BARK);
    assert_the_same_again(&rt, rt.alloc(), VAMONOS);
    assert_the_same_again(&rt, rt.alloc(), COFFEE_AND_TEA);
    assert_not_read_again(&rt, rt.alloc());
}

/// Writes the file V to a writer with room for so many bytes, and asserts whether it has room for them all.
fn assert_room(rt: &impl Abort, blocks: &[BlockRef<'_>], room: usize) {
    let mut out = BrokenWriter { room };
    let has_room = write_to(blocks, &mut out).is_ok();
    assert_same(rt, &has_room, &(room == VAMONOS.len()), "the room");
    assert_same(rt, &out.room, &0, "what is left");
}

fn assert_full(rt: &impl Abort, blocks: &[BlockRef<'_>]) {
    let mut room = [0u8; 20];
    let mut full: &mut [u8] = &mut room;
    let written = write_to(blocks, &mut full);
    assert_same(rt, &written, &Err(WriteFault), "a slice");
}

fn assert_each_room(rt: &impl Abort, blocks: &[BlockRef<'_>]) {
    for room in 0..=VAMONOS.len() {
        assert_room(rt, blocks, room);
    }
}

/// A writer that fails at some byte has taken all bytes before it. A slice that is full is such a writer.
#[test]
fn tells_a_failed_writer(rt: HostRuntime) {
    let blocks = read_ref(rt.alloc(), VAMONOS.as_bytes()).expect(&rt, "error");
    assert_each_room(&rt, &blocks);
    assert_full(&rt, &blocks);
}
