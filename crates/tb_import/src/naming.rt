//! Whether a batch has the name of an import, and whether the import made it.

ghost use Rattle.std.specs.Prelude.{◌≡◌, ◌≢◌, ◌<◌, ◌≤◌, ◌+◌, ℕ, List, map, length, sum_by, Err, IfOk, IfErr};
ghost use Rattle.tb_import.specs.Prelude.{AllByRecursion, AnyRefusal, Batch, FindsName, first_bodies, HasBatch};
ghost use Rattle.tb_import.specs.Prelude.{HasCleanDisk, import_reply, imported, IsDeskOf, IsNoDevice, Machine, Reached};
ghost use Rattle.tb_import.specs.Prelude.{sentence_record, state, Tells, words_of, work_of};
ghost use Rattle.tb_import.specs.Firsts.{IsAtFirst};
ghost use Rattle.tb_import.specs.Leaving.{IsLook};

use crate::again::words_again;
use crate::firsts::are_firsts;
use sqlite::{Alter, Connection};
use std::alloc::Global;
use tb_core::{Fault, Imported, NameFound, reached_states_are_well};
use tb_reads::BatchSentence;
use tb_refine::{batch_number, read_work};

/// The reply to the import that made the batch with this number. `work` are its sentences, and `words` the number of
/// words in their first revisions.
fn reply_again(number: u32, work: &[BatchSentence], words: u64) -> Result<Imported, Fault>
    ensures answered { IfOk result (λ r. (s : Machine) → Reached s
        → work.now ≡ work_of number 1 (map sentence_record s.sentences)
        → words ≡ sum_by words_of (first_bodies number s.sentences) → imported r ≡ import_reply s number) }
    ensures never_refuses { (r : AnyRefusal) → result ≢ Err (Fault.Refused r) }
    ensures output { result ≢ Err Fault.Output }
    ensures fails { (s : Machine) → Reached s → 0 < number → number ≤ length s.batches
        → work.now ≡ work_of number 1 (map sentence_record s.sentences) → result ≢ Err Fault.NotADesk }
    ensures cause { IfErr result IsNoDevice }
    ensures fault { IfErr result (λ e. e ≡ Fault.NotADesk) }
{
    // law: sentences are in the order of their batches
    reached_states_are_well();
    let Some(first) = work.first() else {
        return Err(Fault::NotADesk);
    };
    Ok(Imported {
        batch: u64::from(number),
        first: u64::from(first.number),
        sentences: work.len() as u64,
        words,
    })
}

/// The same, and counts the words first. No text is read where each sentence is at its first revision.
fn repeat<S: Alter>(
    alloc: Global,
    conn: &mut Connection<S>,
    number: u32,
    work: &[BatchSentence],
) -> Result<Imported, Fault>
    ensures answered { Tells S.Store conn.old conn.new result (λ s r.
        work.now ≡ work_of number 1 (map sentence_record s.sentences) → imported r ≡ import_reply s number) }
    ensures look { IsLook S.Store conn.old conn.new result (λ s so. 0 < number → number ≤ length s.batches
        → work.now ≡ work_of number 1 (map sentence_record s.sentences) → so) }
    ensures current { AllByRecursion IsAtFirst work.now → result ≢ Err Fault.Memory }
{
    let words = words_again(alloc, conn, work)?;
    reply_again(number, work, words)
}

/// Whether the import of this body made the batch with this number, which has its name.
fn compare<S: Alter>(
    alloc: Global,
    conn: &mut Connection<S>,
    number: u32,
    body: &[u8],
) -> Result<NameFound, Fault>
    ensures answered { HasCleanDisk (state S.Store conn.new)
        → IfOk result (λ found. (s : Machine) (name : List ℕ) (place : ℕ) (b : Batch)
        → IsDeskOf S.Store conn.old s → HasBatch s name place b → number ≡ place + 1
        → FindsName s name body.now found) }
    ensures look { IsLook S.Store conn.old conn.new result (λ s so. (name : List ℕ) (place : ℕ) (b : Batch)
        → HasBatch s name place b → number ≡ place + 1 → so) }
{
    let work = read_work(alloc, conn, number)?;
    if !are_firsts(conn, work.as_slice(), body)? {
        return Ok(NameFound::Taken);
    }
    let reply = repeat(alloc, conn, number, work.as_slice())?;
    Ok(NameFound::Same(reply))
}

/// Whether a batch has the name of an import, and whether the import with this body made it.
pub(crate) fn find_name<S: Alter>(
    alloc: Global,
    conn: &mut Connection<S>,
    name: &str,
    body: &[u8],
) -> Result<NameFound, Fault>
    ensures answered { Tells S.Store conn.old conn.new result (λ s found. FindsName s name.now body.now found) }
    ensures look { IsLook S.Store conn.old conn.new result (λ s so. so) }
{
    let Some(number) = batch_number(conn, name)? else {
        return Ok(NameFound::Free);
    };
    compare(alloc, conn, number, body)
}
