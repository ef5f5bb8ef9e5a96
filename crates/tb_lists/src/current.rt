//! Sentences with their current revisions, read from the tables one at a time.

ghost use Rattle.std.specs.Prelude.{◌≡◌, ◌-◌, ◌<◌, ◌^◌, Some, length, map, slice_get};
ghost use Rattle.tb_lists.specs.Prelude.{IsReadWhere, Sentence, sentence_of, sentence_record, Tells};
ghost use Rattle.tb_lists.specs.Sentences.{sentence_line, sentence_lines};

use crate::sentences::{SentenceLine, line_of};
use sqlite::{Alter, Connection};
use std::alloc::Global;
use tb_core::{Fault, revisions_read_back};
use tb_refine::{is_among, read_pulled, revision_row};
use tb_tables::SentenceRow;

/// The sentence of a row, with its number, from 1, and its current revision. One revision is in memory at a time.
fn read_line<S: Alter>(
    alloc: Global,
    conn: &mut Connection<S>,
    no: u32,
    row: &SentenceRow,
    is_pulled: bool,
) -> Result<SentenceLine, Fault>
    requires { 0 < no }
    ensures answered { Tells S.Store conn.old conn.new result (λ s line. (x : Sentence)
        → slice_get s.sentences (no - 1) ≡ Some x → sentence_of row.now ≡ sentence_record x
        → is_pulled ≡ x.pulled → line ≡ sentence_line no x) }
    ensures read { IsReadWhere S.Store conn.old conn.new result (λ s so. (x : Sentence)
        → slice_get s.sentences (no - 1) ≡ Some x → sentence_of row.now ≡ sentence_record x → so) }
{
    revisions_read_back();
    let current = revision_row(conn, no, row.rev)?;
    line_of(alloc, no, row, is_pulled, current)
}

/// The sentences of the batch with this number, among the rows of all sentences. Only their own revisions are read.
pub(crate) fn read_lines<S: Alter>(
    alloc: Global,
    conn: &mut Connection<S>,
    rows: &[SentenceRow],
    batch: u32,
) -> Result<Vec<SentenceLine>, Fault>
    requires { length rows.now < 2 ^ 32 }
    ensures answered { Tells S.Store conn.old conn.new result (λ s v.
        map sentence_of rows.now ≡ map sentence_record s.sentences → v.items ≡ sentence_lines s batch) }
    ensures read { IsReadWhere S.Store conn.old conn.new result (λ s so.
        map sentence_of rows.now ≡ map sentence_record s.sentences → so) }
{
    let pulled = read_pulled(alloc, conn)?;
    let mut lines = Vec::new(alloc);
    let mut no = 0u32;
    for row in rows {
        no += 1;
        if row.batch == batch {
            let is_pulled = is_among(no, pulled.as_slice());
            lines.push(read_line(alloc, conn, no, row, is_pulled)?)?;
        }
    }
    Ok(lines)
}
