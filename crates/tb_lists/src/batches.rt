//! A batch, as a list shows it.

ghost use Rattle.std.specs.Prelude.{◌≡◌, ◌≢◌, [], Err, IfErr, IfOk, IsOk, List, map, string_bytes};
ghost use Rattle.tb_lists.specs.Prelude.{AnyRefusal, State as AnyState, Batch, batch_of, batch_record, IsNoDevice};
ghost use Rattle.tb_lists.specs.Prelude.{state_number};
ghost use Rattle.tb_lists.specs.Batches.{BatchText};
ghost use Rattle.tb_lists.specs.Counted.{line_with, lines_with};

use crate::counting::{Count, count_at};
use std::alloc::Global;
use std::marker::Model;
use tb_core::{Fault, State};
use tb_refine::state_numbered;
use tb_tables::BatchRow;

/// A batch, and what it holds.
#[derive(Drop)]
pub struct BatchLine {
    /// Its number, from 1.
    pub no: u64,
    pub name: String,
    pub state: State,
    /// The user who works on it; empty where nobody does.
    pub worker: String,
    /// The number of its first sentence, from 1, pulled or not; 0 where it has none. Its other sentences have the next
    /// numbers.
    pub first: u64,
    /// How many of its sentences are not pulled.
    pub sentences: u64,
    /// The words of the current revisions of these sentences.
    pub words: u64,
    /// How many of its sentences are pulled.
    pub pulled: u64,
    /// The words of the current revisions of the pulled ones.
    pub pulled_words: u64,
}

impl Model for BatchLine {
    ghost Value = { BatchText };

    ghost view = { λ b. record {
      no = b.no;
      name = string_bytes b.name;
      state = b.state;
      worker = string_bytes b.worker;
      first = b.first;
      sentences = b.sentences;
      words = b.words;
      pulled = b.pulled;
      pulled_words = b.pulled_words;
    } };
}

/// The batch of a row, with its number and its count. A row without a state needs no memory.
fn line_of(alloc: Global, no: u64, row: &BatchRow, count: Count) -> Result<BatchLine, Fault>
    ensures line { IfOk result (λ x. (b : Batch) → batch_of row.now ≡ batch_record b
        → x ≡ line_with no b count) }
    ensures known { result ≡ Err Fault.NotADesk → (b : Batch) → batch_of row.now ≢ batch_record b }
    ensures no_state { ((st : AnyState) → row.now.state ≢ state_number st) → result ≡ Err Fault.NotADesk }
    ensures never_refuses { (r : AnyRefusal) → result ≢ Err (Fault.Refused r) }
    ensures cause { IfErr result IsNoDevice }
    ensures output { result ≢ Err Fault.Output }
{
    let Some(state) = state_numbered(row.state) else {
        return Err(Fault::NotADesk);
    };
    let name = String::from_str(alloc, row.name.as_str())?;
    let worker = String::from_str(alloc, row.worker.as_str())?;
    Ok(BatchLine {
        no,
        name,
        state,
        worker,
        first: count.first,
        sentences: count.sentences,
        words: count.words,
        pulled: count.pulled,
        pulled_words: count.pulled_words,
    })
}

/// The batches of the rows, by number, with their counts.
pub(crate) fn lines_of(
    alloc: Global,
    rows: &[BatchRow],
    counts: &[Count],
) -> Result<Vec<BatchLine>, Fault>
    ensures lines { IfOk result (λ v. (bs : List Batch) → map batch_of rows.now ≡ map batch_record bs
        → v.items ≡ lines_with counts.now 1 bs) }
    ensures known { result ≡ Err Fault.NotADesk → (bs : List Batch)
        → map batch_of rows.now ≢ map batch_record bs }
    ensures never_refuses { (r : AnyRefusal) → result ≢ Err (Fault.Refused r) }
    ensures cause { IfErr result IsNoDevice }
    ensures output { result ≢ Err Fault.Output }
    ensures sure { rows.now ≡ [] → IsOk result }
{
    let mut lines = Vec::new(alloc);
    let mut no = 0u64;
    for row in rows {
        let count = count_at(counts, no);
        no += 1;
        lines.push(line_of(alloc, no, row, count)?)?;
    }
    Ok(lines)
}
