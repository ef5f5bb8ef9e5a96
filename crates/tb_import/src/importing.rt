//! An import, from its name to its commit.

ghost use Rattle.std.specs.Prelude.{◌≡◌, ◌≢◌, ◌+◌, ◌≤◌, ℕ, List, length, map, None, Err, false, IfOk, IfSome, OnOk};
ghost use Rattle.tb_import.specs.Prelude.{after, Answer, AnyRefusal, AreStored, AreTotalsOf, BlamesNoDevice, BlockText};
ghost use Rattle.tb_import.specs.Prelude.{CrashesTo, FailsOnlyAs, FindsName, HasCleanDisk, HasRevisionRowids};
ghost use Rattle.tb_import.specs.Prelude.{HasRoomIfWritten, import_file, imported, importing, IsAllowed, IsDeskOf};
ghost use Rattle.tb_import.specs.Prelude.{IsFaultless, IsNamedImport, IsNoDevice, IsReachable, IsShort, IsTakenImport};
ghost use Rattle.tb_import.specs.Prelude.{IsWithin, KeepsRecordsOnErr, KnowsDesk, KnowsDeskWhere, Machine, refused_by};
ghost use Rattle.tb_import.specs.Prelude.{RefusesAs, replied, reply_to, state, Steps, Survives, tables_of, taken_of};
ghost use Rattle.tb_import.specs.Prelude.{Tells, text_of};
ghost use Rattle.tb_import.specs.Leaving.{IsLeft, Stays};
ghost use Rattle.tb_import.specs.Planned.{IsKnown, HasImported, Imports};

use crate::committing::commit_import;
use crate::counters::ImportCounters;
use crate::naming::find_name;
use crate::new_sentences::first_standing;
use crate::planning::{items_of, plan};
use sqlite::{Alter, Connection};
use std::alloc::Global;
use tb_core::{
    Fault, Imported, Judged, NameFound, NewSentence, Totals, commands_stay_within_limits,
    judge_import_after, judge_import_before, judge_import_body,
};

/// The last tests of an import: its sentences against those of the desk, and the limits. A desk without sentences takes
/// no memory for them.
fn admit<S: Alter>(
    conn: &mut Connection<S>,
    known: &ImportCounters,
    taken: &[NewSentence<'_>],
) -> Result<(), Fault>
    ensures refused { HasCleanDisk (state S.Store conn.new) → (r : AnyRefusal) → result ≡ Err (Fault.Refused r)
        → (s : Machine) (name user body : List ℕ) (bs : List BlockText) → IsDeskOf S.Store conn.old s
        → IsKnown known.now s
        → IsTakenImport s name user body bs → taken.now ≡ map taken_of bs
        → Steps known.now.counts.limits s (import_file name user body) (refused_by r) s
        × IsDeskOf S.Store conn.new s }
    ensures output { result ≢ Err Fault.Output }
    ensures fails { KnowsDesk S.Store conn.old conn.new result }
    ensures cause { IsFaultless S.Store conn.old conn.new → FailsOnlyAs IsNoDevice S.Store conn.old conn.new result }
    ensures accepted { HasCleanDisk (state S.Store conn.new)
        → OnOk result ((s : Machine) (name user body : List ℕ) (bs : List BlockText) → IsDeskOf S.Store conn.old s
        → IsKnown known.now s
        → IsTakenImport s name user body bs → taken.now ≡ map taken_of bs
        → let act = importing name user bs in
        IsAllowed s act × Steps known.now.counts.limits s (import_file name user body) (replied
        (reply_to s act)) (after s act)) }
    ensures stays { OnOk result (Stays S.Store conn.old conn.new) }
    ensures left { IsLeft S.Store conn.old conn.new }
    ensures fresh { known.now.sentences ≡ 0 → result ≢ Err Fault.Memory }
{
    let standing = first_standing(conn, known, taken)?;
    judge_import_after(
        &known.counts.limits,
        taken.len() as u64,
        standing,
        u64::from(known.sentences),
        u64::from(known.counts.moves),
    )?;
    Ok(())
}

/// Writes an allowed import of these sentences. Returns its reply, and the totals after it.
fn write<S: Alter>(
    alloc: Global,
    conn: &mut Connection<S>,
    known: &ImportCounters,
    name: &str,
    user: &str,
    taken: &[NewSentence<'_>],
) -> Result<(Imported, Totals), Fault>
    requires autocommit { conn.old.in_transaction ≡ false }
    ensures answered { HasCleanDisk (state S.Store conn.new) → IfOk result (λ r. (s : Machine) (bs : List BlockText)
        → IsDeskOf S.Store conn.old s → IsKnown known.now s → taken.now ≡ map taken_of bs
        → let act = importing name.now user.now bs in
        IsAllowed s act → IsReachable (after s act) → IsDeskOf S.Store conn.new (after s act)
        × AreTotalsOf r.1 (after s act) × (imported r.0 ≡ reply_to s act)) }
    ensures never_refuses { (r : AnyRefusal) → result ≢ Err (Fault.Refused r) }
    ensures output { result ≢ Err Fault.Output }
    ensures fails { HasCleanDisk (state S.Store conn.new) → (state S.Store conn.old).step_limit ≡ None
        → (s : Machine) (bs : List BlockText) → IsDeskOf S.Store conn.old s → IsKnown known.now s
        → taken.now ≡ map taken_of bs
        → IsAllowed s (importing name.now user.now bs) → IsReachable (after s (importing name.now user.now bs))
        → result ≢ Err Fault.NotADesk }
    ensures cause { BlamesNoDevice S.Store conn.old conn.new result (λ s so. (bs : List BlockText)
        → IsKnown known.now s → taken.now ≡ map taken_of bs → IsAllowed s (importing name.now user.now bs)
        → IsReachable (after s (importing name.now user.now bs)) → IsShort (text_of bs)
        → HasRevisionRowids (state S.Store conn.old) (length bs) → so) }
    ensures room { IfOk result (λ r. (known.now.counts.moves + 1 ≤ 1000000000)
        × (known.now.sentences + r.0.sentences ≤ 1000000)) }
    ensures keeps_records { KeepsRecordsOnErr S.Store conn.old conn.new result }
    ensures crash { Survives (state S.Store conn.old) (state S.Store conn.new) (λ db.
        (s : Machine) (bs : List BlockText) → IsDeskOf S.Store conn.old s → IsKnown known.now s
        → taken.now ≡ map taken_of bs
        → IsAllowed s (importing name.now user.now bs)
        → AreStored (tables_of (after s (importing name.now user.now bs))) db) }
    ensures autocommit { conn.new.in_transaction ≡ false }
{
    let items = items_of(alloc, taken)?;
    let plan = plan(alloc, known, user, taken)?;
    commit_import(
        conn,
        plan.number,
        plan.first,
        name,
        user,
        items.as_slice(),
        &plan.prepared.change,
    )?;
    Ok((plan.reply, plan.prepared.totals))
}

/// An import that is asked for: the file's text, as a batch with this name.
#[derive(Clone, Copy)]
struct Asked<'a> {
    name: &'a str,
    user: &'a str,
    body: &'a [u8],
}

/// Runs an import that is no repeat. Returns its reply, and the totals after it.
fn import_new<S: Alter>(
    alloc: Global,
    conn: &mut Connection<S>,
    known: &ImportCounters,
    asked: &Asked<'_>,
    found: NameFound,
) -> Result<(Imported, Totals), Fault>
    requires autocommit { conn.old.in_transaction ≡ false }
    requires within { IsWithin known.now.counts.limits }
    ensures answered { Tells S.Store conn.old conn.new result (λ s r. IsKnown known.now s
        → IsNamedImport s asked.now.name.now asked.now.user.now asked.now.body.now
        → FindsName s asked.now.name.now asked.now.body.now found
        → HasImported S.Store known.now.counts.limits s asked.now.name.now asked.now.user.now asked.now.body.now
        conn.new r.0 r.1) }
    ensures refused { RefusesAs S.Store conn.old conn.new result (λ s r. IsKnown known.now s
        → IsNamedImport s asked.now.name.now asked.now.user.now asked.now.body.now
        → FindsName s asked.now.name.now asked.now.body.now found
        → Steps known.now.counts.limits s
        (import_file asked.now.name.now asked.now.user.now asked.now.body.now) (refused_by r) s
        × IsDeskOf S.Store conn.new s) }
    ensures output { result ≢ Err Fault.Output }
    ensures fails { KnowsDeskWhere S.Store conn.old conn.new result (λ s so. IsKnown known.now s
        → IsNamedImport s asked.now.name.now asked.now.user.now asked.now.body.now
        → FindsName s asked.now.name.now asked.now.body.now found → so) }
    ensures cause { BlamesNoDevice S.Store conn.old conn.new result (λ s so. IsKnown known.now s
        → IsNamedImport s asked.now.name.now asked.now.user.now asked.now.body.now
        → FindsName s asked.now.name.now asked.now.body.now found
        → HasRoomIfWritten known.now.counts.limits s
        (import_file asked.now.name.now asked.now.user.now asked.now.body.now) asked.now.body.now
        (length asked.now.body.now) (state S.Store conn.old) → so) }
    ensures room { IfOk result (λ r. (known.now.counts.moves + 1 ≤ 1000000000)
        × (known.now.sentences + r.0.sentences ≤ 1000000)) }
    ensures keeps_records { KeepsRecordsOnErr S.Store conn.old conn.new result }
    ensures crash { CrashesTo S.Store conn.old conn.new (λ s db. IsKnown known.now s
        → IsNamedImport s asked.now.name.now asked.now.user.now asked.now.body.now
        → FindsName s asked.now.name.now asked.now.body.now found
        → (a : Answer) × (t : Machine)
        × Steps known.now.counts.limits s
        (import_file asked.now.name.now asked.now.user.now asked.now.body.now) a t × AreStored (tables_of t) db) }
    ensures autocommit { conn.new.in_transaction ≡ false }
{
    commands_stay_within_limits();
    let taken = judge_import_body(alloc, asked.body, found)?;
    admit(conn, known, taken.as_slice())?;
    write(alloc, conn, known, asked.name, asked.user, taken.as_slice())
}

/// Imports a file of valid CoNLL-U sentences as a new batch with this name. Returns the reply and the totals after it.
///
/// `known` is what the desk keeps beside the tables. A repeat writes nothing and has no totals. It is the import that
/// made the batch, sent again at any later time by anyone, and has the same reply. The first revisions of the batch's
/// sentences show it, byte for byte.
///
/// # Errors
///
/// The first that holds:
///
/// - `BadName`, for the batch's name or the user's;
/// - if it is no repeat, `Read`, `Rule` and `Empty`, then `NameTaken`;
/// - `SentIdTaken`, with the place in the file, from 1, of the first such sentence;
/// - `Full`.
pub fn import<S: Alter>(
    alloc: Global,
    conn: &mut Connection<S>,
    known: &ImportCounters,
    name: &str,
    user: &str,
    body: &[u8],
) -> Result<(Imported, Option<Totals>), Fault>
    requires autocommit { conn.old.in_transaction ≡ false }
    requires within { IsWithin known.now.counts.limits }
    ensures answered { Tells S.Store conn.old conn.new result (λ s r. IsKnown known.now s
        → Imports S.Store known.now.counts.limits s name.now user.now body.now conn.new r.0 r.1) }
    ensures refused { RefusesAs S.Store conn.old conn.new result (λ s r. IsKnown known.now s
        → Steps known.now.counts.limits s (import_file name.now user.now body.now) (refused_by r) s
        × IsDeskOf S.Store conn.new s) }
    ensures output { result ≢ Err Fault.Output }
    ensures fails { KnowsDeskWhere S.Store conn.old conn.new result (λ s so. IsKnown known.now s → so) }
    ensures cause { BlamesNoDevice S.Store conn.old conn.new result (λ s so. IsKnown known.now s
        → HasRoomIfWritten known.now.counts.limits s (import_file name.now user.now body.now) body.now
        (length body.now) (state S.Store conn.old) → so) }
    ensures room { IfOk result (λ r. IfSome r.1 (λ _. (known.now.counts.moves + 1 ≤ 1000000000)
        × (known.now.sentences + r.0.sentences ≤ 1000000))) }
    ensures keeps_records { KeepsRecordsOnErr S.Store conn.old conn.new result }
    ensures crash { CrashesTo S.Store conn.old conn.new (λ s db. IsKnown known.now s
        → (a : Answer) × (t : Machine)
        × Steps known.now.counts.limits s (import_file name.now user.now body.now) a t × AreStored (tables_of t) db) }
    ensures autocommit { conn.new.in_transaction ≡ false }
{
    let found = find_name(alloc, conn, name, body)?;
    match judge_import_before(name, user, found)? {
        Judged::Repeat(reply) => Ok((reply, None)),
        Judged::Continue => {
            let asked = Asked { name, user, body };
            let (reply, totals) = import_new(alloc, conn, known, &asked, found)?;
            Ok((reply, Some(totals)))
        }
    }
}
