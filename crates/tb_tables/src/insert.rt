//! Inserts rows. Each takes the number after those that are there.

ghost use Rattle.std.specs.Prelude.{◌≡◌, ◌≢◌, ◌⊎◌, ◌+◌, ◌<◌, length};
ghost use Rattle.sqlite.specs.State.{Survives};
ghost use Rattle.sqlite.specs.Held.{state};
ghost use Rattle.tb_tables.specs.Changes.{with_batch, with_sentence, with_revision, with_move, with_pulled};
ghost use Rattle.tb_tables.specs.Changes.{HasRevisionRowids};
ghost use Rattle.tb_tables.specs.Failing.{IsStoreFault, IsRoomFault, Lacks, AreUnique, NeedsNoFault, IsShort};
ghost use Rattle.tb_tables.specs.Failing.{NeedsNoFaultOnRevisions};
ghost use Rattle.tb_tables.specs.Revising.{revision_written};
ghost use Rattle.tb_tables.specs.Values.{move_of};
ghost use Rattle.tb_tables.specs.Leaving.{BlamesNoDisk, FailsInside, AreStoredIn, StaysInside, Turns};
ghost use Rattle.tb_tables.specs.Leaving.{WantsInside};

use crate::rows::{MoveRow, RevisionWrite};
use sqlite::{Alter, Constraint, Error, ErrorCode, Transaction, params};

/// Adds a batch under the next number.
pub fn insert_batch<S: Alter>(
    tx: &mut Transaction<'_, S>,
    no: u32,
    name: &str,
    in_state: u32,
    worker: &str,
) -> Result<(), Error>
    ensures same_reference { tx.new.conn.ghost_name ≡ tx.old.conn.ghost_name }
    ensures ok { Turns S.Store tx.old.conn.now tx.new.conn.now result (λ d into. no ≡ 1 + length d.batches
        → into (with_batch d (record { name = name.now; state = in_state; worker = worker.now }))) }
    ensures fails { FailsInside IsStoreFault S.Store tx.old.conn.now tx.new.conn.now result (λ d fails.
        AreStoredIn S.Store tx.old.conn.now d → no ≡ 1 + length d.batches
        → AreUnique (with_batch d (record { name = name.now; state = in_state; worker = worker.now })) → fails) }
    ensures wants { WantsInside S.Store tx.old.conn.now tx.new.conn.now result (λ d wants.
        AreStoredIn S.Store tx.old.conn.now d → no ≡ 1 + length d.batches
        → AreUnique (with_batch d (record { name = name.now; state = in_state; worker = worker.now }))
        → IsShort name.now → IsShort worker.now → wants) }
    ensures cause { BlamesNoDisk NeedsNoFault S.Store tx.old.conn.now tx.new.conn.now result }
    ensures inside { StaysInside S.Store tx.old.conn.now tx.new.conn.now result }
    ensures survives { Survives (state S.Store tx.old.conn.now) (state S.Store tx.new.conn.now) (λ _. ⊥) }
{
    tx.execute(
        "INSERT INTO batches(no, name, state, worker) VALUES (?1, ?2, ?3, ?4)",
        params![no, name, in_state, worker],
    )?;
    Ok(())
}

/// Adds a sentence under the next number.
pub fn insert_sentence<S: Alter>(
    tx: &mut Transaction<'_, S>,
    no: u32,
    sent_id: &str,
    batch: u32,
    rev: u32,
    words: u32,
) -> Result<(), Error>
    ensures same_reference { tx.new.conn.ghost_name ≡ tx.old.conn.ghost_name }
    ensures ok { Turns S.Store tx.old.conn.now tx.new.conn.now result (λ d into. no ≡ 1 + length d.sentences
        → into (with_sentence d (record { sent_id = sent_id.now; batch = batch; rev = rev; words = words }))) }
    ensures fails { FailsInside IsStoreFault S.Store tx.old.conn.now tx.new.conn.now result (λ d fails.
        AreStoredIn S.Store tx.old.conn.now d → no ≡ 1 + length d.sentences
        → AreUnique (with_sentence d (record { sent_id = sent_id.now; batch = batch; rev = rev; words = words }))
        → fails) }
    ensures wants { WantsInside S.Store tx.old.conn.now tx.new.conn.now result (λ d wants.
        AreStoredIn S.Store tx.old.conn.now d → no ≡ 1 + length d.sentences
        → AreUnique (with_sentence d (record { sent_id = sent_id.now; batch = batch; rev = rev; words = words }))
        → IsShort sent_id.now → wants) }
    ensures cause { BlamesNoDisk NeedsNoFault S.Store tx.old.conn.now tx.new.conn.now result }
    ensures inside { StaysInside S.Store tx.old.conn.now tx.new.conn.now result }
    ensures survives { Survives (state S.Store tx.old.conn.now) (state S.Store tx.new.conn.now) (λ _. ⊥) }
{
    tx.execute(
        "INSERT INTO sentences(no, sent_id, batch, rev, words) VALUES (?1, ?2, ?3, ?4, ?5)",
        params![no, sent_id, batch, rev, words],
    )?;
    Ok(())
}

/// The error of an insert whose rowid SQLite chose, one above the last row's. Where that rowid is taken, the rows do
/// not ascend, so the file is corrupt.
fn of_chosen_rowid(error: Error) -> Error
    ensures { ((error ≡ Error.SqliteFailure (ErrorCode.ConstraintViolation Constraint.PrimaryKey))
        × (result ≡ Error.SqliteFailure ErrorCode.DatabaseCorrupt)) ⊎ ((result ≡ error)
        × (error ≢ Error.SqliteFailure (ErrorCode.ConstraintViolation Constraint.PrimaryKey))) }
{
    match error {
        Error::SqliteFailure(ErrorCode::ConstraintViolation(Constraint::PrimaryKey)) =>
            Error::SqliteFailure(ErrorCode::DatabaseCorrupt),
        error => error,
    }
}

/// Adds a revision.
pub fn insert_revision<S: Alter>(
    tx: &mut Transaction<'_, S>,
    revision: &RevisionWrite<'_>,
) -> Result<(), Error>
    ensures same_reference { tx.new.conn.ghost_name ≡ tx.old.conn.ghost_name }
    ensures ok { Turns S.Store tx.old.conn.now tx.new.conn.now result (λ d into.
        into (with_revision d (revision_written revision.now))) }
    ensures fails { FailsInside IsRoomFault S.Store tx.old.conn.now tx.new.conn.now result (λ d fails.
        AreStoredIn S.Store tx.old.conn.now d
        → AreUnique (with_revision d (revision_written revision.now)) → fails) }
    ensures wants { WantsInside S.Store tx.old.conn.now tx.new.conn.now result (λ d wants.
        AreStoredIn S.Store tx.old.conn.now d
        → AreUnique (with_revision d (revision_written revision.now))
        → IsShort revision.now.who.now → IsShort revision.now.body.now
        → HasRevisionRowids (state S.Store tx.old.conn.now) 1 → wants) }
    ensures cause { BlamesNoDisk NeedsNoFaultOnRevisions S.Store tx.old.conn.now tx.new.conn.now result }
    ensures inside { StaysInside S.Store tx.old.conn.now tx.new.conn.now result }
    ensures survives { Survives (state S.Store tx.old.conn.now) (state S.Store tx.new.conn.now) (λ _. ⊥) }
{
    match tx.execute(
        "INSERT INTO revisions(sent, rev, who, body) VALUES (?1, ?2, ?3, ?4)",
        params![revision.sent, revision.rev, revision.who, revision.body],
    ) {
        Ok(_) => Ok(()),
        Err(error) => Err(of_chosen_rowid(error)),
    }
}

/// Adds a move under the next number.
pub fn insert_move<S: Alter>(tx: &mut Transaction<'_, S>, no: u32, m: &MoveRow) -> Result<(), Error>
    ensures same_reference { tx.new.conn.ghost_name ≡ tx.old.conn.ghost_name }
    ensures ok { Turns S.Store tx.old.conn.now tx.new.conn.now result (λ d into. no ≡ 1 + length d.moves
        → into (with_move d (move_of m.now))) }
    ensures fails { FailsInside IsStoreFault S.Store tx.old.conn.now tx.new.conn.now result (λ d fails.
        AreStoredIn S.Store tx.old.conn.now d → no ≡ 1 + length d.moves → AreUnique d → fails) }
    ensures wants { WantsInside S.Store tx.old.conn.now tx.new.conn.now result (λ d wants.
        AreStoredIn S.Store tx.old.conn.now d → no ≡ 1 + length d.moves
        → AreUnique d → IsShort (move_of m.now).who → wants) }
    ensures cause { BlamesNoDisk NeedsNoFault S.Store tx.old.conn.now tx.new.conn.now result }
    ensures inside { StaysInside S.Store tx.old.conn.now tx.new.conn.now result }
    ensures survives { Survives (state S.Store tx.old.conn.now) (state S.Store tx.new.conn.now) (λ _. ⊥) }
{
    tx.execute(
        "INSERT INTO moves(no, kind, batch, sent, from_state, to_state, sentences, words_out, words_in, who) VALUES (?1, ?2, ?3, ?4, ?5, ?6, ?7, ?8, ?9, ?10)",
        params![
            no,
            m.kind,
            m.batch,
            m.sent,
            m.from,
            m.to,
            m.sentences,
            m.words_out,
            m.words_in,
            &m.who
        ],
    )?;
    Ok(())
}

/// Adds a sentence to those that are pulled.
pub fn insert_pulled<S: Alter>(tx: &mut Transaction<'_, S>, sent: u32) -> Result<(), Error>
    ensures same_reference { tx.new.conn.ghost_name ≡ tx.old.conn.ghost_name }
    ensures ok { Turns S.Store tx.old.conn.now tx.new.conn.now result (λ d into. into (with_pulled d sent)) }
    ensures fails { FailsInside IsStoreFault S.Store tx.old.conn.now tx.new.conn.now result (λ d fails.
        AreStoredIn S.Store tx.old.conn.now d → Lacks d.pulled sent → AreUnique d → fails) }
    ensures wants { WantsInside S.Store tx.old.conn.now tx.new.conn.now result (λ d wants.
        AreStoredIn S.Store tx.old.conn.now d → Lacks d.pulled sent → AreUnique d → wants) }
    ensures cause { BlamesNoDisk NeedsNoFault S.Store tx.old.conn.now tx.new.conn.now result }
    ensures inside { StaysInside S.Store tx.old.conn.now tx.new.conn.now result }
    ensures survives { Survives (state S.Store tx.old.conn.now) (state S.Store tx.new.conn.now) (λ _. ⊥) }
{
    tx.execute("INSERT INTO pulled(sent) VALUES (?1)", params![sent])?;
    Ok(())
}
