//! The write of an accepted correction, in one transaction. Afterwards the tables represent the state that it leads to.

ghost use Rattle.std.specs.Prelude.{◌≡◌, ◌≢◌, ◌-◌, ◌<◌, Err, None, false, OnOk};
ghost use Rattle.tb_commands.specs.Prelude.{after, AnyRefusal, AreStored, BlamesNoDevice, BlockText, correcting};
ghost use Rattle.tb_commands.specs.Prelude.{HasCleanDisk, HasRevisionRowids, IsAllowed, IsDeskOf, IsReachable, IsShort};
ghost use Rattle.tb_commands.specs.Prelude.{IsWritten, KeepsRecordsOnErr, Machine, Sentence, state, Survives};
ghost use Rattle.tb_commands.specs.Prelude.{tables_of};
ghost use Rattle.tb_commands.specs.Correcting.{IsMadeRevision};

use sqlite::{Alter, Connection};
use tb_core::{Fault, reached_states_are_well};
use tb_refine::faults;
use tb_tables::{MoveWrite, RevisionWrite, write_correction};

/// Writes a correction of the sentence with this number, from 1. Its new current revision has so many words, by this
/// user.
pub(crate) fn correct<S: Alter>(
    conn: &mut Connection<S>,
    number: u32,
    rev: u32,
    words: u32,
    who: &str,
    text: &str,
    change: &MoveWrite,
) -> Result<(), Fault>
    requires autocommit { conn.old.in_transaction ≡ false }
    requires row { 0 < number }
    ensures made { HasCleanDisk (state S.Store conn.new)
        → OnOk result ((s : Machine) (body : BlockText) (x : Sentence) → IsDeskOf S.Store conn.old s
        → IsMadeRevision s number body x rev words text.now → IsAllowed s (correcting (number - 1) who.now body)
        → IsReachable (after s (correcting (number - 1) who.now body))
        → IsWritten s (correcting (number - 1) who.now body) change.now
        → IsDeskOf S.Store conn.new (after s (correcting (number - 1) who.now body))) }
    ensures never_refuses { (r : AnyRefusal) → result ≢ Err (Fault.Refused r) }
    ensures output { result ≢ Err Fault.Output }
    ensures fails { HasCleanDisk (state S.Store conn.new) → (state S.Store conn.old).step_limit ≡ None
        → (s : Machine) (body : BlockText) (x : Sentence) → IsDeskOf S.Store conn.old s
        → IsMadeRevision s number body x rev words text.now → IsAllowed s (correcting (number - 1) who.now body)
        → IsWritten s (correcting (number - 1) who.now body) change.now → result ≢ Err Fault.NotADesk }
    ensures cause { BlamesNoDevice S.Store conn.old conn.new result (λ s so. (body : BlockText) (x : Sentence)
        → IsMadeRevision s number body x rev words text.now → IsAllowed s (correcting (number - 1) who.now body)
        → IsWritten s (correcting (number - 1) who.now body) change.now → IsShort text.now
        → HasRevisionRowids (state S.Store conn.old) 1 → so) }
    ensures keeps_records { KeepsRecordsOnErr S.Store conn.old conn.new result }
    ensures crash { Survives (state S.Store conn.old) (state S.Store conn.new) (λ db.
        (s : Machine) (body : BlockText) (x : Sentence) → IsDeskOf S.Store conn.old s
        → IsMadeRevision s number body x rev words text.now → IsAllowed s (correcting (number - 1) who.now body)
        → IsWritten s (correcting (number - 1) who.now body) change.now
        → AreStored (tables_of (after s (correcting (number - 1) who.now body))) db) }
    ensures autocommit { conn.new.in_transaction ≡ false }
{
    reached_states_are_well();
    let revision = RevisionWrite {
        sent: number,
        rev,
        words,
        who,
        body: text,
    };
    faults::reported_write(write_correction(conn, &revision, change))
}
