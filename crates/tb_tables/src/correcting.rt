//! A correction of a sentence.

ghost use Rattle.std.specs.Prelude.{◌≡◌, ◌<◌, ◌-◌, Some, slice_get, false};
ghost use Rattle.sqlite.specs.State.{Survives};
ghost use Rattle.sqlite.specs.Held.{state};
ghost use Rattle.tb_tables.specs.Records.{Sentence};
ghost use Rattle.tb_tables.specs.Changes.{with_revision, HasRevisionRowids};
ghost use Rattle.tb_tables.specs.Revising.{revision_written};
ghost use Rattle.tb_tables.specs.Values.{move_of, total_of};
ghost use Rattle.tb_tables.specs.Commands.{after_correction};
ghost use Rattle.tb_tables.specs.Failing.{IsRoomFault, AreUnique, NeedsNoFaultOnRevisions, IsShort};
ghost use Rattle.tb_tables.specs.Premises.{Follows};
ghost use Rattle.tb_tables.specs.Leaving.{CrashesInto, FailsInside, FailsOn, KeepsRecordsOnErr, Leads};
ghost use Rattle.tb_tables.specs.Leaving.{AreStoredIn, StaysInside, Turns, BlamesNoDisk, WantsInside, WantsOn};

use crate::recording::{MoveWrite, record};
use crate::rows::RevisionWrite;
use crate::{insert_revision, update_sentence};
use sqlite::{Alter, Connection, Error, Transaction};

/// Adds the revision, makes it the sentence's current one, and writes the move.
fn correct<S: Alter>(
    tx: &mut Transaction<'_, S>,
    revision: &RevisionWrite<'_>,
    change: &MoveWrite,
) -> Result<(), Error>
    requires row { 0 < revision.now.sent }
    ensures same_reference { tx.new.conn.ghost_name ≡ tx.old.conn.ghost_name }
    ensures ok { Turns S.Store tx.old.conn.now tx.new.conn.now result (λ d into. (s : Sentence)
        → slice_get d.sentences (revision.now.sent - 1) ≡ Some s → Follows d change.now
        → AreStoredIn S.Store tx.old.conn.now d
        → into (after_correction d revision.now.sent s (revision_written revision.now) revision.now.words
        (move_of change.now.row) (total_of change.now.left) (total_of change.now.reached))) }
    ensures fails { FailsInside IsRoomFault S.Store tx.old.conn.now tx.new.conn.now result (λ d fails. (s : Sentence)
        → slice_get d.sentences (revision.now.sent - 1) ≡ Some s → Follows d change.now
        → AreStoredIn S.Store tx.old.conn.now d
        → AreUnique (with_revision d (revision_written revision.now)) → fails) }
    ensures wants { WantsInside S.Store tx.old.conn.now tx.new.conn.now result (λ d wants.
        (s : Sentence) → slice_get d.sentences (revision.now.sent - 1) ≡ Some s → Follows d change.now
        → AreStoredIn S.Store tx.old.conn.now d
        → AreUnique (with_revision d (revision_written revision.now))
        → IsShort s.sent_id → IsShort revision.now.who.now → IsShort revision.now.body.now
        → IsShort (move_of change.now.row).who → HasRevisionRowids (state S.Store tx.old.conn.now) 1 → wants) }
    ensures cause { BlamesNoDisk NeedsNoFaultOnRevisions S.Store tx.old.conn.now tx.new.conn.now result }
    ensures inside { StaysInside S.Store tx.old.conn.now tx.new.conn.now result }
    ensures survives { Survives (state S.Store tx.old.conn.now) (state S.Store tx.new.conn.now) (λ _. ⊥) }
{
    insert_revision(tx, revision)?;
    update_sentence(tx, revision.sent, revision.rev, revision.words)?;
    record(tx, change)?;
    Ok(())
}

/// Gives the sentence a new current revision, in one transaction with the move.
///
/// # Errors
///
/// The error of the database. The records are then unchanged.
pub fn write_correction<S: Alter>(
    conn: &mut Connection<S>,
    revision: &RevisionWrite<'_>,
    change: &MoveWrite,
) -> Result<(), Error>
    requires autocommit { conn.old.in_transaction ≡ false }
    requires row { 0 < revision.now.sent }
    ensures ok { Leads S.Store conn.old conn.new result (λ d into. (s : Sentence)
        → slice_get d.sentences (revision.now.sent - 1) ≡ Some s → Follows d change.now
        → into (after_correction d revision.now.sent s (revision_written revision.now) revision.now.words
        (move_of change.now.row) (total_of change.now.left) (total_of change.now.reached))) }
    ensures fails { FailsOn IsRoomFault S.Store conn.old conn.new result (λ d fails. (s : Sentence)
        → slice_get d.sentences (revision.now.sent - 1) ≡ Some s → Follows d change.now
        → AreUnique (with_revision d (revision_written revision.now)) → fails) }
    ensures wants { WantsOn S.Store conn.old conn.new result (λ d wants.
        (s : Sentence) → slice_get d.sentences (revision.now.sent - 1) ≡ Some s → Follows d change.now
        → AreUnique (with_revision d (revision_written revision.now))
        → IsShort s.sent_id → IsShort revision.now.who.now → IsShort revision.now.body.now
        → IsShort (move_of change.now.row).who → HasRevisionRowids (state S.Store conn.old) 1 → wants) }
    ensures cause { BlamesNoDisk NeedsNoFaultOnRevisions S.Store conn.old conn.new result }
    ensures err { KeepsRecordsOnErr S.Store conn.old conn.new result }
    ensures crash { CrashesInto S.Store conn.old conn.new (λ d into. (s : Sentence)
        → slice_get d.sentences (revision.now.sent - 1) ≡ Some s → Follows d change.now
        → into (after_correction d revision.now.sent s (revision_written revision.now) revision.now.words
        (move_of change.now.row) (total_of change.now.left) (total_of change.now.reached))) }
    ensures autocommit { conn.new.in_transaction ≡ false }
{
    let mut tx = conn.transaction();
    correct(&mut tx, revision, change)?;
    tx.commit()?;
    Ok(())
}
