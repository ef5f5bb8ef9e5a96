ghost use Rattle.std.specs.Prelude.{map};
ghost use Rattle.tb_conllu.specs.Text.{RowText, BlockText};

use crate::id::LineId;
use crate::text::Text;
use std::marker::Model;

/// A word line: a word, a range of words or an empty node, with its ten fields. `head` is `None` for `_`.
///
/// CoNLL-U format page, "CoNLL-U Format".
#[derive(Drop)]
pub struct RowOf<T: Text> {
    pub id: LineId,
    pub form: T,
    pub lemma: T,
    pub upos: T,
    pub xpos: T,
    pub feats: T,
    pub head: Option<u32>,
    pub deprel: T,
    pub deps: T,
    pub misc: T,
}

impl<T: Text> Model for RowOf<T> {
    ghost Value = { RowText };

    ghost view = { λ r. record {
      id = r.id;
      form = T.bytes r.form;
      lemma = T.bytes r.lemma;
      upos = T.bytes r.upos;
      xpos = T.bytes r.xpos;
      feats = T.bytes r.feats;
      head = r.head;
      deprel = T.bytes r.deprel;
      deps = T.bytes r.deps;
      misc = T.bytes r.misc;
    } };
}

/// A sentence: its comment lines, each with its hash, and its word lines.
///
/// CoNLL-U format page, "Sentence Boundaries and Comments".
#[derive(Drop)]
pub struct BlockOf<T: Text> {
    pub comments: Vec<T>,
    pub rows: Vec<RowOf<T>>,
}

impl<T: Text> Model for BlockOf<T> {
    ghost Value = { BlockText };

    ghost view = { λ b. record { comments = map T.bytes b.comments.items; rows = b.rows.items } };
}

pub type Row = RowOf<String>;

pub type Block = BlockOf<String>;

pub type RowRef<'a> = RowOf<&'a str>;

pub type BlockRef<'a> = BlockOf<&'a str>;
