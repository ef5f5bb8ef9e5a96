//! The import of a file.

ghost use Rattle.std.specs.Prelude.{◌≡◌, ◌+◌, ◌<◌, ◌^◌, length, false, [], All};
ghost use Rattle.sqlite.specs.State.{Survives};
ghost use Rattle.sqlite.specs.Held.{state};
ghost use Rattle.tb_tables.specs.Changes.{with_batch, HasRevisionRowids};
ghost use Rattle.tb_tables.specs.Values.{move_of, total_of};
ghost use Rattle.tb_tables.specs.Commands.{NewSentenceRecord as NewSentenceRecord, with_item, with_items, after_import};
ghost use Rattle.tb_tables.specs.Failing.{IsRoomFault, AreUnique, NeedsNoFaultOnRevisions, IsShort};
ghost use Rattle.tb_tables.specs.Premises.{Follows, IsShortItem};
ghost use Rattle.tb_tables.specs.Leaving.{CrashesInto, FailsInside, FailsOn, KeepsRecordsOnErr, Leads};
ghost use Rattle.tb_tables.specs.Leaving.{AreStoredIn, StaysInside, Turns, BlamesNoDisk, WantsInside, WantsOn};

use crate::recording::{MoveWrite, record};
use crate::rows::RevisionWrite;
use crate::{insert_batch, insert_revision, insert_sentence};
use sqlite::{Alter, Connection, Error, Transaction};
use std::marker::Model;

/// A sentence of an imported file. It borrows from the body.
#[derive(Drop)]
pub struct NewSentenceRow<'a> {
    pub sent_id: &'a str,
    /// How many words it has.
    pub words: u32,
    /// Its text, the blank line included.
    pub body: &'a str,
}

impl<'a> Model for NewSentenceRow<'a> {
    ghost Value = { NewSentenceRecord };

    ghost view = { λ i. record { sent_id = i.sent_id.now; words = i.words; body = i.body.now } };
}

/// Adds a sentence under the next number, with its first revision.
fn insert_item<S: Alter>(
    tx: &mut Transaction<'_, S>,
    number: u32,
    batch: u32,
    who: &str,
    item: &NewSentenceRow<'_>,
) -> Result<(), Error>
    ensures same_reference { tx.new.conn.ghost_name ≡ tx.old.conn.ghost_name }
    ensures ok { Turns S.Store tx.old.conn.now tx.new.conn.now result (λ d into. number ≡ 1 + length d.sentences
        → into (with_item batch who.now d item.now)) }
    ensures fails { FailsInside IsRoomFault S.Store tx.old.conn.now tx.new.conn.now result (λ d fails.
        AreStoredIn S.Store tx.old.conn.now d → number ≡ 1 + length d.sentences
        → AreUnique (with_item batch who.now d item.now) → fails) }
    ensures wants { WantsInside S.Store tx.old.conn.now tx.new.conn.now result (λ d wants.
        AreStoredIn S.Store tx.old.conn.now d → number ≡ 1 + length d.sentences
        → AreUnique (with_item batch who.now d item.now) → IsShort who.now → IsShortItem item.now
        → HasRevisionRowids (state S.Store tx.old.conn.now) 1 → wants) }
    ensures cause { BlamesNoDisk NeedsNoFaultOnRevisions S.Store tx.old.conn.now tx.new.conn.now result }
    ensures inside { StaysInside S.Store tx.old.conn.now tx.new.conn.now result }
    ensures survives { Survives (state S.Store tx.old.conn.now) (state S.Store tx.new.conn.now) (λ _. ⊥) }
{
    insert_sentence(tx, number, item.sent_id, batch, 1, item.words)?;
    let revision = RevisionWrite {
        sent: number,
        rev: 1,
        words: item.words,
        who,
        body: item.body,
    };
    insert_revision(tx, &revision)?;
    Ok(())
}

/// Adds all of them in order, numbered from `first` on.
fn insert_items<S: Alter>(
    tx: &mut Transaction<'_, S>,
    first: u32,
    batch: u32,
    who: &str,
    items: &[NewSentenceRow<'_>],
) -> Result<(), Error>
    requires fits { first + length items.now < 2 ^ 32 }
    ensures same_reference { tx.new.conn.ghost_name ≡ tx.old.conn.ghost_name }
    ensures ok { Turns S.Store tx.old.conn.now tx.new.conn.now result (λ d into. first ≡ 1 + length d.sentences
        → into (with_items batch who.now d items.now)) }
    ensures fails { FailsInside IsRoomFault S.Store tx.old.conn.now tx.new.conn.now result (λ d fails.
        AreStoredIn S.Store tx.old.conn.now d → first ≡ 1 + length d.sentences
        → AreUnique (with_items batch who.now d items.now) → fails) }
    ensures wants { WantsInside S.Store tx.old.conn.now tx.new.conn.now result (λ d wants.
        AreStoredIn S.Store tx.old.conn.now d → first ≡ 1 + length d.sentences
        → AreUnique (with_items batch who.now d items.now) → IsShort who.now → All IsShortItem items.now
        → HasRevisionRowids (state S.Store tx.old.conn.now) (length items.now) → wants) }
    ensures cause { BlamesNoDisk NeedsNoFaultOnRevisions S.Store tx.old.conn.now tx.new.conn.now result }
    ensures inside { StaysInside S.Store tx.old.conn.now tx.new.conn.now result }
    ensures survives { Survives (state S.Store tx.old.conn.now) (state S.Store tx.new.conn.now) (λ _. ⊥) }
{
    let mut number = first;
    for item in items {
        insert_item(tx, number, batch, who, item)?;
        number += 1;
    }
    Ok(())
}

/// Adds a batch under the next number, open and without a worker, and its sentences.
fn insert_file<S: Alter>(
    tx: &mut Transaction<'_, S>,
    number: u32,
    first: u32,
    name: &str,
    who: &str,
    items: &[NewSentenceRow<'_>],
) -> Result<(), Error>
    requires fits { first + length items.now < 2 ^ 32 }
    ensures same_reference { tx.new.conn.ghost_name ≡ tx.old.conn.ghost_name }
    ensures ok { Turns S.Store tx.old.conn.now tx.new.conn.now result (λ d into. number ≡ 1 + length d.batches
        → first ≡ 1 + length d.sentences → into (with_items number who.now
        (with_batch d (record { name = name.now; state = 1; worker = [] })) items.now)) }
    ensures fails { FailsInside IsRoomFault S.Store tx.old.conn.now tx.new.conn.now result (λ d fails.
        AreStoredIn S.Store tx.old.conn.now d → number ≡ 1 + length d.batches → first ≡ 1 + length d.sentences
        → AreUnique (with_items number who.now (with_batch d (record {
          name = name.now;
          state = 1;
          worker = [];
        })) items.now) → fails) }
    ensures wants { WantsInside S.Store tx.old.conn.now tx.new.conn.now result (λ d wants.
        AreStoredIn S.Store tx.old.conn.now d → number ≡ 1 + length d.batches → first ≡ 1 + length d.sentences
        → AreUnique (with_items number who.now
        (with_batch d (record { name = name.now; state = 1; worker = [] })) items.now)
        → IsShort name.now → IsShort who.now → All IsShortItem items.now
        → HasRevisionRowids (state S.Store tx.old.conn.now) (length items.now) → wants) }
    ensures cause { BlamesNoDisk NeedsNoFaultOnRevisions S.Store tx.old.conn.now tx.new.conn.now result }
    ensures inside { StaysInside S.Store tx.old.conn.now tx.new.conn.now result }
    ensures survives { Survives (state S.Store tx.old.conn.now) (state S.Store tx.new.conn.now) (λ _. ⊥) }
{
    insert_batch(tx, number, name, 1, "")?;
    insert_items(tx, first, number, who, items)?;
    Ok(())
}

/// Writes the batch, its sentences, and the move.
fn import<S: Alter>(
    tx: &mut Transaction<'_, S>,
    number: u32,
    first: u32,
    name: &str,
    who: &str,
    items: &[NewSentenceRow<'_>],
    change: &MoveWrite,
) -> Result<(), Error>
    requires fits { first + length items.now < 2 ^ 32 }
    ensures same_reference { tx.new.conn.ghost_name ≡ tx.old.conn.ghost_name }
    ensures ok { Turns S.Store tx.old.conn.now tx.new.conn.now result (λ d into. number ≡ 1 + length d.batches
        → first ≡ 1 + length d.sentences → Follows d change.now → AreStoredIn S.Store tx.old.conn.now d
        → into (after_import d name.now who.now items.now (move_of change.now.row) (total_of change.now.left)
        (total_of change.now.reached))) }
    ensures fails { FailsInside IsRoomFault S.Store tx.old.conn.now tx.new.conn.now result (λ d fails.
        AreStoredIn S.Store tx.old.conn.now d → number ≡ 1 + length d.batches → first ≡ 1 + length d.sentences
        → Follows d change.now → AreUnique (after_import d name.now who.now items.now (move_of change.now.row)
        (total_of change.now.left) (total_of change.now.reached)) → fails) }
    ensures wants { WantsInside S.Store tx.old.conn.now tx.new.conn.now result (λ d wants.
        AreStoredIn S.Store tx.old.conn.now d → number ≡ 1 + length d.batches → first ≡ 1 + length d.sentences
        → Follows d change.now
        → AreUnique (after_import d name.now who.now items.now (move_of change.now.row)
        (total_of change.now.left) (total_of change.now.reached))
        → IsShort name.now → IsShort who.now → All IsShortItem items.now → IsShort (move_of change.now.row).who
        → HasRevisionRowids (state S.Store tx.old.conn.now) (length items.now) → wants) }
    ensures cause { BlamesNoDisk NeedsNoFaultOnRevisions S.Store tx.old.conn.now tx.new.conn.now result }
    ensures inside { StaysInside S.Store tx.old.conn.now tx.new.conn.now result }
    ensures survives { Survives (state S.Store tx.old.conn.now) (state S.Store tx.new.conn.now) (λ _. ⊥) }
{
    insert_file(tx, number, first, name, who, items)?;
    record(tx, change)?;
    Ok(())
}

/// Adds a batch with this number, open and without a worker, and its sentences, in one transaction with the move.
///
/// The sentences are numbered from `first` on. Each has a first revision by this user.
///
/// # Errors
///
/// The error of the database. The records are then unchanged.
pub fn write_import<S: Alter>(
    conn: &mut Connection<S>,
    number: u32,
    first: u32,
    name: &str,
    who: &str,
    items: &[NewSentenceRow<'_>],
    change: &MoveWrite,
) -> Result<(), Error>
    requires autocommit { conn.old.in_transaction ≡ false }
    requires fits { first + length items.now < 2 ^ 32 }
    ensures ok { Leads S.Store conn.old conn.new result (λ d into. number ≡ 1 + length d.batches
        → first ≡ 1 + length d.sentences → Follows d change.now
        → into (after_import d name.now who.now items.now (move_of change.now.row) (total_of change.now.left)
        (total_of change.now.reached))) }
    ensures fails { FailsOn IsRoomFault S.Store conn.old conn.new result (λ d fails. number ≡ 1 + length d.batches
        → first ≡ 1 + length d.sentences → Follows d change.now
        → AreUnique (after_import d name.now who.now items.now (move_of change.now.row) (total_of change.now.left)
        (total_of change.now.reached)) → fails) }
    ensures wants { WantsOn S.Store conn.old conn.new result (λ d wants.
        number ≡ 1 + length d.batches → first ≡ 1 + length d.sentences → Follows d change.now
        → AreUnique (after_import d name.now who.now items.now (move_of change.now.row)
        (total_of change.now.left) (total_of change.now.reached))
        → IsShort name.now → IsShort who.now → All IsShortItem items.now → IsShort (move_of change.now.row).who
        → HasRevisionRowids (state S.Store conn.old) (length items.now) → wants) }
    ensures cause { BlamesNoDisk NeedsNoFaultOnRevisions S.Store conn.old conn.new result }
    ensures err { KeepsRecordsOnErr S.Store conn.old conn.new result }
    ensures crash { CrashesInto S.Store conn.old conn.new (λ d into. number ≡ 1 + length d.batches
        → first ≡ 1 + length d.sentences → Follows d change.now
        → into (after_import d name.now who.now items.now (move_of change.now.row) (total_of change.now.left)
        (total_of change.now.reached))) }
    ensures autocommit { conn.new.in_transaction ≡ false }
{
    let mut tx = conn.transaction();
    import(&mut tx, number, first, name, who, items, change)?;
    tx.commit()?;
    Ok(())
}
