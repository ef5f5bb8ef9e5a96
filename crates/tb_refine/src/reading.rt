//! Reads of a desk: what has a name, what stands at a number, the sentences of a batch, the pulled ones and the moves.
//! No read changes anything, also after an error, and none is refused.
//!
//! Of each read, `NotADesk` comes, with no limit on steps, only where the store is no desk; else want of memory or a fault
//! of the device.

ghost use Rattle.std.specs.Prelude.{◌≡◌, ◌-◌, ◌<◌, ◌∷◌, [], Err, MatchBool, Some, map, slice_get, string_bytes};
ghost use Rattle.tb_refine.specs.Prelude.{Batch, batch_of, ids_of, IsAscending, IsNumberOf, Lacks, move_of};
ghost use Rattle.tb_refine.specs.Prelude.{pulled_from, Revision, Sentence, sentence_of, text_of, work_of};
ghost use Rattle.tb_refine.specs.Calls.{Tells};
ghost use Rattle.tb_refine.specs.DeskTables.{batch_record, move_record, sentence_record};
ghost use Rattle.tb_refine.specs.Finding.{HasNumber};
ghost use Rattle.tb_refine.specs.Listed.{is_listed};
ghost use Rattle.tb_refine.specs.DeskReads.{IsRead, IsReadWhere};
ghost use Rattle.tb_refine.specs.Revisions.{HasRevision};

use crate::{desk_rows_are_readable, desk_rows_fit, faults, one_list_for_the_rows, read_moves};
use sqlite::{Alter, Connection};
use std::alloc::Global;
use tb_core::{Fault, Move};
use tb_reads::BatchSentence;
use tb_tables::{BatchRow, MoveRow, RevisionRow, SentenceRow};

/// The number of the batch with this name, from 1, or none where no batch has it.
pub fn batch_number<S: Alter>(conn: &mut Connection<S>, name: &str) -> Result<Option<u32>, Fault>
    ensures answered { Tells S.Store conn.old conn.new result (λ s found. HasNumber s name.now found) }
    ensures read { IsRead S.Store conn.old conn.new result }
{
    desk_rows_fit();
    faults::reported(tb_reads::batch_named(conn, name))
}

/// The number of the sentence with this `sent_id`, pulled or not, from 1, or none where no sentence has it.
pub fn sentence_number<S: Alter>(
    conn: &mut Connection<S>,
    sent_id: &str,
) -> Result<Option<u32>, Fault>
    ensures answered { Tells S.Store conn.old conn.new result (λ s found.
        IsNumberOf (λ (x : Sentence). x.sent_id) sent_id.now s.sentences found) }
    ensures read { IsRead S.Store conn.old conn.new result }
{
    desk_rows_fit();
    faults::reported(tb_reads::sentence_named(conn, sent_id))
}

/// Whether a sentence, pulled or not, has this `sent_id`.
pub fn is_taken<S: Alter>(conn: &mut Connection<S>, sent_id: &str) -> Result<bool, Fault>
    ensures answered { Tells S.Store conn.old conn.new result (λ s taken.
        MatchBool taken (Lacks (ids_of s.sentences) sent_id.now → ⊥) (Lacks (ids_of s.sentences) sent_id.now)) }
    ensures read { IsRead S.Store conn.old conn.new result }
{
    let found = sentence_number(conn, sent_id)?;
    Ok(found.is_some())
}

/// The row of the batch with this number, from 1, which exists.
///
/// # Errors
///
/// `NotADesk` for the number 0 too.
pub fn batch_row<S: Alter>(conn: &mut Connection<S>, number: u32) -> Result<BatchRow, Fault>
    ensures answered { Tells S.Store conn.old conn.new result (λ s row. (b : Batch)
        → slice_get s.batches (number - 1) ≡ Some b → batch_of row ≡ batch_record b) }
    ensures zero { number ≡ 0 → result ≡ Err Fault.NotADesk }
    ensures read { IsReadWhere S.Store conn.old conn.new result (λ s so. 0 < number → (b : Batch)
        → slice_get s.batches (number - 1) ≡ Some b → so) }
{
    desk_rows_are_readable();
    if number == 0 {
        return Err(Fault::NotADesk);
    }
    faults::reported_row(tb_reads::batch(conn, number))
}

/// The row of the sentence with this number, from 1, which exists.
pub fn sentence_row<S: Alter>(conn: &mut Connection<S>, number: u32) -> Result<SentenceRow, Fault>
    requires { 0 < number }
    ensures answered { Tells S.Store conn.old conn.new result (λ s row. (x : Sentence)
        → slice_get s.sentences (number - 1) ≡ Some x → sentence_of row ≡ sentence_record x) }
    ensures read { IsReadWhere S.Store conn.old conn.new result (λ s so. (x : Sentence)
        → slice_get s.sentences (number - 1) ≡ Some x → so) }
{
    desk_rows_are_readable();
    faults::reported_row(tb_reads::sentence(conn, number))
}

/// The row of a revision of the sentence with this number, from 1. Both exist.
pub fn revision_row<S: Alter>(
    conn: &mut Connection<S>,
    number: u32,
    rev: u32,
) -> Result<RevisionRow, Fault>
    requires { 0 < number }
    ensures answered { Tells S.Store conn.old conn.new result (λ s row. (x : Sentence)
        → slice_get s.sentences (number - 1) ≡ Some x → (q : Revision) × HasRevision x rev q
        × (string_bytes row.body ≡ text_of (q.body ∷ [])) × (string_bytes row.who ≡ q.who)) }
    ensures read { IsReadWhere S.Store conn.old conn.new result (λ s so. (x : Sentence)
        → slice_get s.sentences (number - 1) ≡ Some x → (q : Revision) → HasRevision x rev q → so) }
{
    desk_rows_are_readable();
    faults::reported_row(tb_reads::revision(conn, number, rev))
}

/// Whether a number is in the list, which ascends.
pub fn is_among(number: u32, numbers: &[u32]) -> bool
    ensures { IsAscending (λ a b. a < b) numbers.now → result ≡ is_listed number numbers.now }
{
    numbers.binary_search(&number).is_ok()
}

/// The numbers of all pulled sentences, ascending.
pub fn read_pulled<S: Alter>(alloc: Global, conn: &mut Connection<S>) -> Result<Vec<u32>, Fault>
    ensures answered { Tells S.Store conn.old conn.new result (λ s v. v.items ≡ pulled_from 1 s.sentences) }
    ensures read { IsRead S.Store conn.old conn.new result }
{
    desk_rows_are_readable();
    faults::reported(tb_reads::pulled(alloc, conn))
}

/// The sentences of the batch with this number, pulled ones too.
pub fn read_work<S: Alter>(
    alloc: Global,
    conn: &mut Connection<S>,
    number: u32,
) -> Result<Vec<BatchSentence>, Fault>
    ensures answered { Tells S.Store conn.old conn.new result (λ s v.
        v.items ≡ work_of number 1 (map sentence_record s.sentences)) }
    ensures read { IsRead S.Store conn.old conn.new result }
{
    desk_rows_fit();
    desk_rows_are_readable();
    faults::reported(tb_reads::sentences_of(alloc, conn, number))
}

/// Whether the sentence with this number, from 1, which exists, is pulled.
pub fn is_pulled<S: Alter>(conn: &mut Connection<S>, number: u32) -> Result<bool, Fault>
    requires { 0 < number }
    ensures answered { Tells S.Store conn.old conn.new result (λ s pulled. (x : Sentence)
        → slice_get s.sentences (number - 1) ≡ Some x → pulled ≡ x.pulled) }
    ensures read { IsRead S.Store conn.old conn.new result }
{
    faults::reported(tb_reads::is_pulled(conn, number))
}

/// The rows of all moves, in their order.
fn move_rows<S: Alter>(alloc: Global, conn: &mut Connection<S>) -> Result<Vec<MoveRow>, Fault>
    ensures answered { Tells S.Store conn.old conn.new result (λ s v.
        map move_of v.items ≡ map move_record s.moves) }
    ensures read { IsRead S.Store conn.old conn.new result }
{
    desk_rows_are_readable();
    one_list_for_the_rows();
    faults::reported(tb_reads::moves(alloc, conn))
}

/// All moves of a desk, in their order.
pub fn all_moves<S: Alter>(alloc: Global, conn: &mut Connection<S>) -> Result<Vec<Move>, Fault>
    ensures answered { Tells S.Store conn.old conn.new result (λ s v. v.items ≡ s.moves) }
    ensures read { IsRead S.Store conn.old conn.new result }
{
    let rows = move_rows(alloc, conn)?;
    read_moves(alloc, rows.as_slice())
}
