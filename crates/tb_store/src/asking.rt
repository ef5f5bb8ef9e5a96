//! Reads of a desk's tables, stated as facts of the state that the desk represents. A read leaves the desk as it is.

ghost use Rattle.std.specs.Prelude.{◌≡◌, ◌≢◌, ◌⊎◌, ◌-◌, ◌<◌, ◌≤◌, map, [], ◌∷◌, Some, Err, is_ok, slice_get, IfErr};
ghost use Rattle.std.specs.Prelude.{string_bytes, IfOk, None, length, false};
ghost use Rattle.tb_store.specs.Prelude.{AnyRefusal, AreSentences, AreTotalsOf, FailsOnlyAs, HasCleanDisk, HasRevision};
ghost use Rattle.tb_store.specs.Prelude.{is_name, IsDeskOf, IsFaultless, IsFound, IsNoDevice, IsRead, IsReadOnly};
ghost use Rattle.tb_store.specs.Prelude.{IsReadWhere, KnowsDesk, KnowsDeskWhere, Machine, rev_of, Revision, Sentence};
ghost use Rattle.tb_store.specs.Prelude.{state, tables_of, Tells, TellsOnErr, text_of, total_of};
ghost use Rattle.tb_store.specs.Answers.{IsTextOf, RefusesId};
ghost use Rattle.tb_store.specs.Exports.{RefusesBatch};

use crate::answers::Current;
use sqlite::{Alter, Connection};
use std::alloc::Global;
use tb_core::{Fault, Refusal, Totals, good_name};
use tb_lists::{FoundLine, SentenceLine, find_sentence, list_sentences};
use tb_refine::{
    batch_number, desk_rows_are_readable, faults, one_list_for_the_rows, revision_row,
    sentence_row, stored_totals,
};
use tb_tables::TotalRow;

/// The totals of six rows.
fn six_totals(rows: &[TotalRow]) -> Result<Totals, Fault>
    ensures rows { IfOk result (λ t. (t.sentences ≡ map (λ r. r.sentences) rows.now)
        × (t.words ≡ map (λ r. r.words) rows.now)) }
    ensures six { result ≡ Err Fault.NotADesk → length rows.now ≢ 6 }
    ensures fault { IfErr result (λ e. e ≡ Fault.NotADesk) }
{
    match stored_totals(rows) {
        Some(totals) => Ok(totals),
        None => Err(Fault::NotADesk),
    }
}

/// The rows of the totals, by the number of the state.
fn total_rows<S: Alter>(alloc: Global, conn: &mut Connection<S>) -> Result<Vec<TotalRow>, Fault>
    ensures answered { Tells S.Store conn.old conn.new result (λ s v. map total_of v.items ≡ (tables_of s).totals) }
    ensures read { IsRead S.Store conn.old conn.new result }
{
    desk_rows_are_readable();
    one_list_for_the_rows();
    faults::reported(tb_reads::totals(alloc, conn))
}

/// The totals of the six states.
pub(crate) fn totals<S: Alter>(alloc: Global, conn: &mut Connection<S>) -> Result<Totals, Fault>
    ensures answered { Tells S.Store conn.old conn.new result (λ s t. AreTotalsOf t s) }
    ensures read { IsRead S.Store conn.old conn.new result }
{
    let rows = total_rows(alloc, conn)?;
    six_totals(rows.as_slice())
}

/// The number of the current revision of the sentence with this number, which exists.
pub(crate) fn current<S: Alter>(conn: &mut Connection<S>, number: u32) -> Result<u32, Fault>
    requires { 0 < number }
    ensures answered { Tells S.Store conn.old conn.new result (λ s n. (x : Sentence)
        → slice_get s.sentences (number - 1) ≡ Some x → n ≡ rev_of x) }
    ensures read { IsReadWhere S.Store conn.old conn.new result (λ s so. (x : Sentence)
        → slice_get s.sentences (number - 1) ≡ Some x → so) }
{
    let row = sentence_row(conn, number)?;
    Ok(row.rev)
}

/// The text of a revision of the sentence with this number. Both exist.
fn text<S: Alter>(conn: &mut Connection<S>, number: u32, rev: u32) -> Result<String, Fault>
    requires { 0 < number }
    ensures answered { Tells S.Store conn.old conn.new result (λ s t. IsTextOf s number rev (string_bytes t)) }
    ensures read { IsReadWhere S.Store conn.old conn.new result (λ s so. (x : Sentence)
        → slice_get s.sentences (number - 1) ≡ Some x
        → (q : Revision) → HasRevision x rev q → so) }
{
    let row = revision_row(conn, number, rev)?;
    Ok(row.body)
}

/// The current revision of the sentence with this number, which exists.
pub(crate) fn sentence<S: Alter>(conn: &mut Connection<S>, number: u32) -> Result<Current, Fault>
    requires { 0 < number }
    ensures answered { Tells S.Store conn.old conn.new result (λ s c. (x : Sentence)
        → slice_get s.sentences (number - 1) ≡ Some x → (c.rev ≡ rev_of x)
        × (string_bytes c.body ≡ text_of (x.current.body ∷ []))) }
    ensures read { IsReadWhere S.Store conn.old conn.new result (λ s so. (x : Sentence)
        → slice_get s.sentences (number - 1) ≡ Some x → so) }
{
    let rev = current(conn, number)?;
    let body = text(conn, number, rev)?;
    Ok(Current {
        rev: u64::from(rev),
        body,
    })
}

/// The number of a revision, where a sentence has so many.
///
/// # Errors
///
/// `NoSuchRevision`, where it has no revision with this number.
fn known_revision(rev: u64, last: u32) -> Result<u32, Fault>
    ensures same { IfOk result (λ n. (n ≡ rev) × (0 < rev) × (rev ≤ last)) }
    ensures none { IfErr result (λ e. (e ≡ Fault.Refused Refusal.NoSuchRevision)
        × ((rev ≡ 0) ⊎ (last < rev))) }
{
    if rev == 0 || rev > u64::from(last) {
        return Err(Fault::Refused(Refusal::NoSuchRevision));
    }
    Ok(rev as u32)
}

/// The text of a revision of the sentence with this number, which exists.
///
/// # Errors
///
/// `NoSuchRevision`, where the sentence has no revision with this number.
pub(crate) fn revision<S: Alter>(
    conn: &mut Connection<S>,
    number: u32,
    rev: u64,
) -> Result<String, Fault>
    requires { 0 < number }
    ensures answered { Tells S.Store conn.old conn.new result (λ s t. IsTextOf s number rev (string_bytes t)) }
    ensures refused { HasCleanDisk (state S.Store conn.new) → (r : AnyRefusal) → result ≡ Err (Fault.Refused r)
        → (r ≡ Refusal.NoSuchRevision) × ((s : Machine) → IsDeskOf S.Store conn.old s → (x : Sentence)
        → slice_get s.sentences (number - 1) ≡ Some x → (q : Revision) → HasRevision x rev q → ⊥) }
    ensures fails { KnowsDeskWhere S.Store conn.old conn.new result (λ s so. (x : Sentence)
        → slice_get s.sentences (number - 1) ≡ Some x → so) }
    ensures cause { IsFaultless S.Store conn.old conn.new → FailsOnlyAs IsNoDevice S.Store conn.old conn.new result }
    ensures output { result ≢ Err Fault.Output }
    ensures read_only { IsReadOnly S.Store conn.old conn.new (is_ok result) }
{
    let last = current(conn, number)?;
    let counted = known_revision(rev, last)?;
    text(conn, number, counted)
}

/// The batch that was found.
///
/// # Errors
///
/// `NoSuchBatch`, where none was.
pub(crate) fn known_batch(found: Option<u32>) -> Result<u32, Fault>
    ensures number { IfOk result (λ n. found ≡ Some n) }
    ensures none { IfErr result (λ e. (e ≡ Fault.Refused Refusal.NoSuchBatch) × (found ≡ None)) }
{
    match found {
        Some(number) => Ok(number),
        None => Err(Fault::Refused(Refusal::NoSuchBatch)),
    }
}

/// The sentences of the batch with this name, pulled ones too, by number.
///
/// # Errors
///
/// The first of `BadName`, `NoSuchBatch`.
pub(crate) fn sentences<S: Alter>(
    alloc: Global,
    conn: &mut Connection<S>,
    name: &str,
) -> Result<Vec<SentenceLine>, Fault>
    ensures answered { Tells S.Store conn.old conn.new result (λ s v. AreSentences s name.now v.items) }
    ensures bad_name { is_name name.now ≡ false → result ≡ Err (Fault.Refused Refusal.BadName) }
    ensures unasked { is_name name.now ≡ false → conn.new ≡ conn.old }
    ensures refused { TellsOnErr S.Store conn.old conn.new result (λ s e. RefusesBatch s name.now e) }
    ensures fails { KnowsDesk S.Store conn.old conn.new result }
    ensures cause { IsFaultless S.Store conn.old conn.new → FailsOnlyAs IsNoDevice S.Store conn.old conn.new result }
    ensures output { result ≢ Err Fault.Output }
    ensures read_only { IsReadOnly S.Store conn.old conn.new (is_ok result) }
{
    if !good_name(name) {
        return Err(Fault::Refused(Refusal::BadName));
    }
    let found = batch_number(conn, name)?;
    let number = known_batch(found)?;
    list_sentences(alloc, conn, number)
}

/// The sentence that was found.
///
/// # Errors
///
/// `NoSuchSentence`, where none was.
fn there(found: Option<FoundLine>) -> Result<FoundLine, Fault>
    ensures line { IfOk result (λ line. found ≡ Some line) }
    ensures none { IfErr result (λ e. (e ≡ Fault.Refused Refusal.NoSuchSentence) × (found ≡ None)) }
{
    match found {
        Some(line) => Ok(line),
        None => Err(Fault::Refused(Refusal::NoSuchSentence)),
    }
}

/// The sentence with this `sent_id`, pulled or not, with the name of its batch.
///
/// # Errors
///
/// `NoSuchSentence`, where no sentence has it.
pub(crate) fn found<S: Alter>(conn: &mut Connection<S>, sent_id: &str) -> Result<FoundLine, Fault>
    ensures answered { Tells S.Store conn.old conn.new result (λ s line. IsFound s sent_id.now line) }
    ensures refused { TellsOnErr S.Store conn.old conn.new result (λ s e. RefusesId s sent_id.now e) }
    ensures alone { (r : AnyRefusal) → result ≡ Err (Fault.Refused r) → r ≡ Refusal.NoSuchSentence }
    ensures output { result ≢ Err Fault.Output }
    ensures fails { KnowsDesk S.Store conn.old conn.new result }
    ensures cause { IsFaultless S.Store conn.old conn.new → FailsOnlyAs IsNoDevice S.Store conn.old conn.new result }
    ensures read_only { IsReadOnly S.Store conn.old conn.new (is_ok result) }
{
    match find_sentence(conn, sent_id) {
        Ok(found) => there(found),
        Err(fault) => Err(fault),
    }
}
