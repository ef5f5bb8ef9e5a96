//! Reads what tests need. A test that knows only the type of a sentence or a query is shorter to prove.

use std::alloc::Global;
use std::process::Abort;
use tb_conllu::{BlockRef, read_ref};
use tb_query::{Query, parse};

/// The sentences of a file.
pub(crate) fn sentences_of<'a>(rt: &impl Abort, alloc: Global, file: &'a str) -> Vec<BlockRef<'a>> {
    let sentences = read_ref(alloc, file.as_bytes()).expect(rt, "error");
    assert!(rt; sentences.len() > 0, "the file has a sentence");
    sentences
}

/// The query of a text.
pub(crate) fn query_of(rt: &impl Abort, alloc: Global, text: &str) -> Query {
    parse(alloc, text).expect(rt, "error")
}
