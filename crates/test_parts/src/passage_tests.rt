//! Sentences with their slices of a file, read from unchecked and from known texts; and a sink that never refuses.

ghost use Rattle.std.specs.Prelude.{None, IsOk};

use crate::files::{DOGS_BARK, file_of};
use crate::read_tests::{FIELDS, block_text};
use crate::telling::{assert_holds, assert_same, assert_text, put};
use std::alloc::Global;
use std::process::Abort;
use tb_check::run_check;
use tb_conllu::{BlockRef, Sentences, Sink, known_block, put_blocks, put_number, read_ref};

/// What the reader of known texts reads of a sentence's text, as `reported` writes it.
fn known_text(rt: &impl Abort, alloc: Global, text: &str) -> String {
    let known = known_block(alloc, text.as_bytes()).expect(rt, "error");
    block_text(rt, alloc, &known.expect(rt, "a sentence"))
}

/// Takes the next sentence, and appends its text and what it has.
fn take_passage(
    rt: &impl Abort,
    alloc: Global,
    unread: &mut Sentences<'_>,
    texts: &mut String,
    fields: &mut String,
) {
    let passage = unread.read_passage(alloc).expect(rt, "error");
    let passage = passage.expect(rt, "a sentence");
    let known = known_text(rt, alloc, passage.text);
    put(rt, texts, passage.text);
    put(rt, fields, known.as_str());
    let read = block_text(rt, alloc, &passage.block);
    assert_text(rt, known.as_str(), read.as_str(), "a known text");
}

/// Takes thirteen sentences, after which none is left.
fn take_all(rt: &impl Abort, alloc: Global, file: &str, texts: &mut String, fields: &mut String) {
    let mut unread = Sentences::new(file.as_bytes());
    for _ in 0..13 {
        take_passage(rt, alloc, &mut unread, texts, fields);
    }
    let rest = unread.read_passage(alloc).expect(rt, "error");
    assert_holds(rt, rest.is_none(), "none is left");
}

/// Each sentence comes with the text that spells it. Of a known text, the reader of known texts reads what the reader
/// that tests everything reads.
#[test]
fn sentences_come_with_their_text(rt: HostRuntime) {
    let alloc = rt.alloc();
    let file = file_of(&rt, alloc, "V C D arabic chinese english hindi russian");
    let mut texts = String::new(alloc);
    let mut fields = String::new(alloc);
    take_all(&rt, alloc, file.as_str(), &mut texts, &mut fields);
    assert_text(&rt, texts.as_str(), file.as_str(), "the texts");
    assert_holds(&rt, fields.as_str().starts_with(FIELDS), "the fields");
}

#[test]
fn bytes_that_are_no_text_are_no_sentence(rt: HostRuntime) {
    let none = known_block(rt.alloc(), &[0xC3, 0x0A]).expect(&rt, "error");
    assert_holds(&rt, none.is_none(), "no UTF-8");
}

/// Counts the bytes that it receives, and never refuses any.
#[derive(Drop)]
struct Counting {
    count: u64,
}

/// Why bytes are refused. It has no value, since they never are.
#[derive(Drop)]
struct Never;

impl Sink for Counting {
    type Refusal = Never;

    ghost held = { λ _. None };

    ghost IsRefusal = { λ _ _. ⊥ };

    fn put(&mut self, bytes: &[u8]) -> Result<(), Never> {
        self.count = self.count.saturating_add(bytes.len() as u64);
        Ok(())
    }
}

/// Over a sink that never refuses, writing is proved to succeed.
fn written(blocks: &[BlockRef<'_>], out: &mut Counting) -> Result<(), Never>
    ensures { IsOk result }
{
    put_blocks(blocks, out)
}

/// Asserts how many bytes the sentences are, and then a number.
fn assert_counted(rt: &impl Abort, blocks: &[BlockRef<'_>], bytes: u64) {
    let mut out = Counting { count: 0 };
    assert_holds(rt, written(blocks, &mut out).is_ok(), "the sentences");
    assert_same(rt, &out.count, &bytes, "the sentences");
    assert_holds(rt, put_number(1_000, &mut out).is_ok(), "a number");
    assert_same(rt, &out.count, &bytes.saturating_add(4), "a number");
}

/// Asserts how many bytes the reply of a check is.
fn assert_reply_counted(rt: &impl Abort, alloc: Global) {
    let mut reader = DOGS_BARK.as_bytes();
    let mut reply = Counting { count: 0 };
    let status = run_check(alloc, &mut reader, &mut reply);
    assert_same(rt, &status, &0, "a check");
    let bytes = "sentences 1 words 3\n".len() as u64;
    assert_same(rt, &reply.count, &bytes, "a check");
}

#[test]
fn writing_fails_only_where_the_sink_refuses(rt: HostRuntime) {
    let file = file_of(&rt, rt.alloc(), "V C D");
    let blocks = read_ref(rt.alloc(), file.as_bytes()).expect(&rt, "error");
    assert_counted(&rt, &blocks, file.len() as u64);
    assert_reply_counted(&rt, rt.alloc());
}
