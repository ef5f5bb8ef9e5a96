//! Updates and deletes rows.

ghost use Rattle.std.specs.Prelude.{◌≡◌, ◌<◌, ◌-◌, Some, slice_get};
ghost use Rattle.sqlite.specs.State.{Survives};
ghost use Rattle.sqlite.specs.Held.{state};
ghost use Rattle.tb_tables.specs.Records.{Batch, Sentence, Total};
ghost use Rattle.tb_tables.specs.Changes.{batch_replaced, sentence_replaced, total_replaced, without_pulled};
ghost use Rattle.tb_tables.specs.Failing.{IsShort, IsStoreFault, AreUnique, NeedsNoFault};
ghost use Rattle.tb_tables.specs.Leaving.{BlamesNoDisk, FailsInside, AreStoredIn, StaysInside, Turns};
ghost use Rattle.tb_tables.specs.Leaving.{WantsInside};

use sqlite::{Alter, Error, Transaction, params};

/// Writes the state and the worker of a batch. Its name stays.
pub fn update_batch<S: Alter>(
    tx: &mut Transaction<'_, S>,
    no: u32,
    in_state: u32,
    worker: &str,
) -> Result<(), Error>
    requires row { 0 < no }
    ensures same_reference { tx.new.conn.ghost_name ≡ tx.old.conn.ghost_name }
    ensures ok { Turns S.Store tx.old.conn.now tx.new.conn.now result (λ d into. (b : Batch)
        → slice_get d.batches (no - 1) ≡ Some b → AreStoredIn S.Store tx.old.conn.now d
        → into (batch_replaced d no (record b { state = in_state; worker = worker.now }))) }
    ensures fails { FailsInside IsStoreFault S.Store tx.old.conn.now tx.new.conn.now result (λ d fails.
        AreStoredIn S.Store tx.old.conn.now d → AreUnique d → fails) }
    ensures wants { WantsInside S.Store tx.old.conn.now tx.new.conn.now result (λ d wants.
        AreStoredIn S.Store tx.old.conn.now d
        → AreUnique d → IsShort worker.now
        → ((b : Batch) → slice_get d.batches (no - 1) ≡ Some b → IsShort b.name) → wants) }
    ensures cause { BlamesNoDisk NeedsNoFault S.Store tx.old.conn.now tx.new.conn.now result }
    ensures inside { StaysInside S.Store tx.old.conn.now tx.new.conn.now result }
    ensures survives { Survives (state S.Store tx.old.conn.now) (state S.Store tx.new.conn.now) (λ _. ⊥) }
{
    tx.execute(
        "UPDATE batches SET state = ?2, worker = ?3 WHERE no = ?1",
        params![no, in_state, worker],
    )?;
    Ok(())
}

/// Writes the number and the words of a sentence's current revision. Its name and its batch stay.
pub fn update_sentence<S: Alter>(
    tx: &mut Transaction<'_, S>,
    no: u32,
    rev: u32,
    words: u32,
) -> Result<(), Error>
    requires row { 0 < no }
    ensures same_reference { tx.new.conn.ghost_name ≡ tx.old.conn.ghost_name }
    ensures ok { Turns S.Store tx.old.conn.now tx.new.conn.now result (λ d into. (s : Sentence)
        → slice_get d.sentences (no - 1) ≡ Some s → AreStoredIn S.Store tx.old.conn.now d
        → into (sentence_replaced d no (record s { rev = rev; words = words }))) }
    ensures fails { FailsInside IsStoreFault S.Store tx.old.conn.now tx.new.conn.now result (λ d fails.
        AreStoredIn S.Store tx.old.conn.now d → AreUnique d → fails) }
    ensures wants { WantsInside S.Store tx.old.conn.now tx.new.conn.now result (λ d wants.
        AreStoredIn S.Store tx.old.conn.now d
        → AreUnique d
        → ((s : Sentence) → slice_get d.sentences (no - 1) ≡ Some s → IsShort s.sent_id) → wants) }
    ensures cause { BlamesNoDisk NeedsNoFault S.Store tx.old.conn.now tx.new.conn.now result }
    ensures inside { StaysInside S.Store tx.old.conn.now tx.new.conn.now result }
    ensures survives { Survives (state S.Store tx.old.conn.now) (state S.Store tx.new.conn.now) (λ _. ⊥) }
{
    tx.execute(
        "UPDATE sentences SET rev = ?2, words = ?3 WHERE no = ?1",
        params![no, rev, words],
    )?;
    Ok(())
}

/// Writes the totals of a state.
pub fn update_total<S: Alter>(
    tx: &mut Transaction<'_, S>,
    number: u32,
    sentences: u32,
    words: u32,
) -> Result<(), Error>
    requires row { 0 < number }
    ensures same_reference { tx.new.conn.ghost_name ≡ tx.old.conn.ghost_name }
    ensures ok { Turns S.Store tx.old.conn.now tx.new.conn.now result (λ d into. (t : Total)
        → slice_get d.totals (number - 1) ≡ Some t → AreStoredIn S.Store tx.old.conn.now d
        → into (total_replaced d number (record { sentences = sentences; words = words }))) }
    ensures fails { FailsInside IsStoreFault S.Store tx.old.conn.now tx.new.conn.now result (λ d fails.
        AreStoredIn S.Store tx.old.conn.now d → AreUnique d → fails) }
    ensures wants { WantsInside S.Store tx.old.conn.now tx.new.conn.now result (λ d wants.
        AreStoredIn S.Store tx.old.conn.now d → AreUnique d → wants) }
    ensures cause { BlamesNoDisk NeedsNoFault S.Store tx.old.conn.now tx.new.conn.now result }
    ensures inside { StaysInside S.Store tx.old.conn.now tx.new.conn.now result }
    ensures survives { Survives (state S.Store tx.old.conn.now) (state S.Store tx.new.conn.now) (λ _. ⊥) }
{
    tx.execute(
        "UPDATE totals SET sentences = ?2, words = ?3 WHERE state = ?1",
        params![number, sentences, words],
    )?;
    Ok(())
}

/// Removes a sentence from those that are pulled. Nothing changes where it is not one of them.
pub fn delete_pulled<S: Alter>(tx: &mut Transaction<'_, S>, sent: u32) -> Result<(), Error>
    ensures same_reference { tx.new.conn.ghost_name ≡ tx.old.conn.ghost_name }
    ensures ok { Turns S.Store tx.old.conn.now tx.new.conn.now result (λ d into. AreStoredIn S.Store tx.old.conn.now d
        → into (without_pulled d sent)) }
    ensures fails { FailsInside IsStoreFault S.Store tx.old.conn.now tx.new.conn.now result (λ d fails.
        AreStoredIn S.Store tx.old.conn.now d → AreUnique d → fails) }
    ensures wants { WantsInside S.Store tx.old.conn.now tx.new.conn.now result (λ d wants.
        AreStoredIn S.Store tx.old.conn.now d → AreUnique d → wants) }
    ensures cause { BlamesNoDisk NeedsNoFault S.Store tx.old.conn.now tx.new.conn.now result }
    ensures inside { StaysInside S.Store tx.old.conn.now tx.new.conn.now result }
    ensures survives { Survives (state S.Store tx.old.conn.now) (state S.Store tx.new.conn.now) (λ _. ⊥) }
{
    tx.execute("DELETE FROM pulled WHERE sent = ?1", params![sent])?;
    Ok(())
}
