ghost use Rattle.std.specs.Prelude.{string_bytes};
ghost use Rattle.tb_core.specs.Moves.{MoveText};

use crate::kinds::{Kind, State};
use std::marker::Model;

/// The record of one accepted command.
#[derive(Drop)]
pub struct Move {
    /// Its number, from 1.
    pub no: u64,
    pub kind: Kind,
    /// The number of the batch, from 1.
    pub batch: u64,
    /// The number of the sentence, from 1; 0 where a whole batch moved.
    pub sent: u64,
    /// The state that the sentences left; an import has none.
    pub from: Option<State>,
    /// The state that they came to.
    pub to: State,
    /// How many sentences moved.
    pub sentences: u64,
    /// Their words before the command.
    pub words_out: u64,
    /// Their words after it.
    pub words_in: u64,
    /// The user.
    pub who: String,
}

impl Model for Move {
    ghost Value = { MoveText };

    ghost view = { λ m. record {
      no = m.no;
      kind = m.kind;
      batch = m.batch;
      sent = m.sent;
      from = m.from;
      to = m.to;
      sentences = m.sentences;
      words_out = m.words_out;
      words_in = m.words_in;
      who = string_bytes m.who;
    } };
}
