//! Pulls of sentences, and restores of pulled ones.

ghost use Rattle.std.specs.Prelude.{◌≡◌, ◌≢◌, ◌+◌, ◌-◌, ◌<◌, ◌≤◌, ℕ, List, length, Some, None, is_ok};
ghost use Rattle.std.specs.Prelude.{Err, slice_get, string_bytes, false, IfOk, IfErr, OnOk};
ghost use Rattle.tb_commands.specs.Prelude.{after, Answer, AnyRefusal, AreStored, BlamesNoDevice, CrashesTo};
ghost use Rattle.tb_commands.specs.Prelude.{FailsOnlyAs, FindsSentence, HasCleanDisk, IsAllowed, IsCounted, IsDeskOf};
ghost use Rattle.tb_commands.specs.Prelude.{IsFaultless, IsNoDevice, IsPrepared, IsReachable, IsReadOnly, IsWithin};
ghost use Rattle.tb_commands.specs.Prelude.{IsWritten, KeepsRecordsOnErr, KnowsDeskWhere, LacksSentence, Machine};
ghost use Rattle.tb_commands.specs.Prelude.{pull_it, pulled_out, Reached, refused_by, RefusesAs, replied, reply_to};
ghost use Rattle.tb_commands.specs.Prelude.{restore_it, restored_to, Sentence, state, Steps, Survives, tables_of};
ghost use Rattle.tb_commands.specs.Prelude.{Tells};
ghost use Rattle.tb_commands.specs.Pulling.{command_of, act_of, reply_of, kind_by, ends_of, sentence_move, IsJudged};
ghost use Rattle.tb_commands.specs.ReadOf.{IsSentenceRead};
ghost use Rattle.tb_commands.specs.Working.{IsDone};

use crate::finding::{SentenceRead, find_sentence};
use sqlite::{Alter, Connection};
use std::alloc::Global;
use tb_core::{
    Fault, Kind, Move, Pulled, Refusal, Restored, SentenceFound, State, Totals,
    commands_stay_within_limits, judge_pull, judge_restore, reached_states_are_well,
};
use tb_refine::{Counters, PreparedMove, faults, next_move, prepare};
use tb_tables::{MoveWrite, write_pull, write_restore};

/// What is asked of a sentence.
#[derive(Clone, Copy)]
enum PullOrRestore {
    Pull,
    Restore,
}

/// Whether it may be done. `found` is the sentence, `None` where none has the number.
fn judge(
    asked: PullOrRestore,
    counts: &Counters,
    number: u64,
    user: &str,
    found: Option<SentenceFound>,
) -> Result<(), Refusal>
    ensures refused { IfErr result (λ r. (s : Machine) → FindsSentence s number found
        → counts.now.moves ≡ length s.moves
        → Steps counts.now.limits s (command_of asked number user.now) (refused_by r) s) }
    ensures accepted { OnOk result ((s : Machine) → FindsSentence s number found
        → counts.now.moves ≡ length s.moves → IsAllowed s (act_of asked number user.now)
        × Steps counts.now.limits s (command_of asked number user.now)
        (replied (reply_to s (act_of asked number user.now))) (after s (act_of asked number user.now))) }
{
    let moves = u64::from(counts.moves);
    match asked {
        PullOrRestore::Pull => judge_pull(&counts.limits, number, user, found, moves),
        PullOrRestore::Restore => {
            match judge_restore(&counts.limits, number, user, found, moves) {
                Ok(_) => Ok(()),
                Err(refusal) => Err(refusal),
            }
        }
    }
}

/// The kind of its move.
fn kind(asked: PullOrRestore) -> Kind
    ensures { result ≡ kind_by asked }
{
    match asked {
        PullOrRestore::Pull => Kind::Pull,
        PullOrRestore::Restore => Kind::Restore,
    }
}

/// The states that its move leaves and reaches, where the batch has this state.
fn ends(asked: PullOrRestore, state: State) -> (State, State)
    ensures { result ≡ ends_of asked state }
{
    match asked {
        PullOrRestore::Pull => (state, State::Withdrawn),
        PullOrRestore::Restore => (State::Withdrawn, state),
    }
}

/// Its move, where the sentence was read so.
fn move_by(asked: PullOrRestore, who: String, no: u32, number: u32, read: &SentenceRead) -> Move
    ensures { result ≡ sentence_move asked no number read.now (string_bytes who) }
{
    let (from, to) = ends(asked, read.state);
    Move {
        no: u64::from(no),
        kind: kind(asked),
        batch: u64::from(read.batch),
        sent: u64::from(number),
        from: Some(from),
        to,
        sentences: 1,
        words_out: u64::from(read.words),
        words_in: u64::from(read.words),
        who,
    }
}

/// What it writes.
fn plan(
    asked: PullOrRestore,
    alloc: Global,
    counts: &Counters,
    number: u32,
    user: &str,
    read: &SentenceRead,
) -> Result<PreparedMove, Fault>
    requires { 0 < number }
    ensures planned { IfOk result (λ r. (s : Machine) (x : Sentence) → Reached s
        → IsAllowed s (act_of asked number user.now) → IsCounted counts.now s
        → slice_get s.sentences (number - 1) ≡ Some x → IsSentenceRead s x read.now
        → IsPrepared s (act_of asked number user.now) r) }
    ensures room { IfOk result (λ _. counts.now.moves + 1 ≤ 1000000000) }
    ensures never_refuses { (r : AnyRefusal) → result ≢ Err (Fault.Refused r) }
    ensures output { result ≢ Err Fault.Output }
    ensures fails { (s : Machine) (x : Sentence) → IsReachable s → IsAllowed s (act_of asked number user.now)
        → IsReachable (after s (act_of asked number user.now)) → IsCounted counts.now s
        → slice_get s.sentences (number - 1) ≡ Some x → IsSentenceRead s x read.now
        → result ≢ Err Fault.NotADesk }
    ensures cause { IfErr result IsNoDevice }
    ensures no_move_left { 1000000000 ≤ counts.now.moves → result ≡ Err Fault.NotADesk }
{
    let no = next_move(counts)?;
    let who = String::from_str(alloc, user)?;
    prepare(counts, move_by(asked, who, no, number, read))
}

/// What it writes, unless it is refused. A refusal needs no memory.
fn decide(
    asked: PullOrRestore,
    alloc: Global,
    counts: &Counters,
    number: u32,
    user: &str,
    read: &SentenceRead,
) -> Result<PreparedMove, Fault>
    requires { 0 < number }
    ensures answered { IfOk result (λ r. (s : Machine) (x : Sentence) → Reached s → IsCounted counts.now s
        → slice_get s.sentences (number - 1) ≡ Some x → IsSentenceRead s x read.now
        → IsJudged counts.now.limits s (command_of asked number user.now) (act_of asked number user.now)
        (reply_of asked number read.now) r) }
    ensures refused { (r : AnyRefusal) → result ≡ Err (Fault.Refused r) → (s : Machine) (x : Sentence)
        → Reached s → IsCounted counts.now s → slice_get s.sentences (number - 1) ≡ Some x
        → IsSentenceRead s x read.now
        → Steps counts.now.limits s (command_of asked number user.now) (refused_by r) s }
    ensures wants { result ≡ Err Fault.Memory → (s : Machine) (x : Sentence) → Reached s
        → IsCounted counts.now s → slice_get s.sentences (number - 1) ≡ Some x → IsSentenceRead s x read.now
        → IsAllowed s (act_of asked number user.now) }
    ensures output { result ≢ Err Fault.Output }
    ensures fails { (s : Machine) (x : Sentence) → IsReachable s → IsCounted counts.now s
        → IsWithin counts.now.limits → slice_get s.sentences (number - 1) ≡ Some x → IsSentenceRead s x read.now
        → result ≢ Err Fault.NotADesk }
    ensures cause { IfErr result IsNoDevice }
    ensures room { IfOk result (λ _. counts.now.moves + 1 ≤ 1000000000) }
{
    commands_stay_within_limits();
    let found = SentenceFound {
        state: read.state,
        pulled: read.pulled,
    };
    match judge(asked, counts, u64::from(number), user, Some(found)) {
        Ok(()) => plan(asked, alloc, counts, number, user, read),
        Err(refusal) => Err(Fault::Refused(refusal)),
    }
}

/// Reads the sentence, which exists, and judges what is asked of it.
fn planned<S: Alter>(
    asked: PullOrRestore,
    alloc: Global,
    conn: &mut Connection<S>,
    counts: &Counters,
    number: u32,
    user: &str,
) -> Result<(SentenceRead, PreparedMove), Fault>
    requires { 0 < number }
    ensures answered { Tells S.Store conn.old conn.new result (λ s r. IsCounted counts.now s
        → number ≤ length s.sentences
        → IsJudged counts.now.limits s (command_of asked number user.now) (act_of asked number user.now)
        (reply_of asked number r.0) r.1) }
    ensures refused { RefusesAs S.Store conn.old conn.new result (λ s r. IsCounted counts.now s
        → number ≤ length s.sentences
        → Steps counts.now.limits s (command_of asked number user.now) (refused_by r) s
        × IsDeskOf S.Store conn.new s) }
    ensures output { result ≢ Err Fault.Output }
    ensures fails { KnowsDeskWhere S.Store conn.old conn.new result (λ s so. IsCounted counts.now s
        → IsWithin counts.now.limits
        → number ≤ length s.sentences → so) }
    ensures cause { IsFaultless S.Store conn.old conn.new → FailsOnlyAs IsNoDevice S.Store conn.old conn.new result }
    ensures room { IfOk result (λ _. counts.now.moves + 1 ≤ 1000000000) }
    ensures read_only { IsReadOnly S.Store conn.old conn.new (is_ok result) }
{
    let read = find_sentence(conn, number)?;
    let prepared = decide(asked, alloc, counts, number, user, &read)?;
    Ok((read, prepared))
}

/// Writes it in one transaction. Afterwards the tables represent the state that it leads to.
fn write<S: Alter>(
    asked: PullOrRestore,
    conn: &mut Connection<S>,
    number: u32,
    change: &MoveWrite,
) -> Result<(), Fault>
    requires autocommit { conn.old.in_transaction ≡ false }
    requires row { 0 < number }
    ensures made { HasCleanDisk (state S.Store conn.new) → OnOk result ((s : Machine) (user : List ℕ)
        → IsDeskOf S.Store conn.old s → IsAllowed s (act_of asked number user)
        → IsReachable (after s (act_of asked number user)) → IsWritten s (act_of asked number user) change.now
        → IsDeskOf S.Store conn.new (after s (act_of asked number user))) }
    ensures never_refuses { (r : AnyRefusal) → result ≢ Err (Fault.Refused r) }
    ensures output { result ≢ Err Fault.Output }
    ensures fails { HasCleanDisk (state S.Store conn.new) → (state S.Store conn.old).step_limit ≡ None
        → (s : Machine) (user : List ℕ) → IsDeskOf S.Store conn.old s → IsAllowed s (act_of asked number user)
        → IsWritten s (act_of asked number user) change.now → result ≢ Err Fault.NotADesk }
    ensures cause { BlamesNoDevice S.Store conn.old conn.new result (λ s so. (user : List ℕ)
        → IsAllowed s (act_of asked number user) → IsWritten s (act_of asked number user) change.now → so) }
    ensures keeps_records { KeepsRecordsOnErr S.Store conn.old conn.new result }
    ensures crash { Survives (state S.Store conn.old) (state S.Store conn.new) (λ db. (s : Machine) (user : List ℕ)
        → IsDeskOf S.Store conn.old s → IsAllowed s (act_of asked number user)
        → IsWritten s (act_of asked number user) change.now
        → AreStored (tables_of (after s (act_of asked number user))) db) }
    ensures autocommit { conn.new.in_transaction ≡ false }
{
    reached_states_are_well();
    match asked {
        PullOrRestore::Pull => faults::reported_write(write_pull(conn, number, change)),
        PullOrRestore::Restore => faults::reported_write(write_restore(conn, number, change)),
    }
}

/// Pulls or restores the sentence with this number, from 1, which exists. Returns what was read of it, and the totals
/// afterwards.
fn done<S: Alter>(
    asked: PullOrRestore,
    alloc: Global,
    conn: &mut Connection<S>,
    counts: &Counters,
    number: u32,
    user: &str,
) -> Result<(SentenceRead, Totals), Fault>
    requires autocommit { conn.old.in_transaction ≡ false }
    requires row { 0 < number }
    requires within { IsWithin counts.now.limits }
    ensures answered { Tells S.Store conn.old conn.new result (λ s r. IsCounted counts.now s
        → number ≤ length s.sentences
        → IsDone S.Store counts.now.limits s (command_of asked number user.now) (reply_of asked number r.0) conn.new
        r.1) }
    ensures refused { RefusesAs S.Store conn.old conn.new result (λ s r. IsCounted counts.now s
        → number ≤ length s.sentences
        → Steps counts.now.limits s (command_of asked number user.now) (refused_by r) s
        × IsDeskOf S.Store conn.new s) }
    ensures output { result ≢ Err Fault.Output }
    ensures fails { KnowsDeskWhere S.Store conn.old conn.new result (λ s so. IsCounted counts.now s
        → number ≤ length s.sentences → so) }
    ensures cause { BlamesNoDevice S.Store conn.old conn.new result (λ s so. IsCounted counts.now s
        → number ≤ length s.sentences → so) }
    ensures room { IfOk result (λ _. counts.now.moves + 1 ≤ 1000000000) }
    ensures keeps_records { KeepsRecordsOnErr S.Store conn.old conn.new result }
    ensures crash { CrashesTo S.Store conn.old conn.new (λ s db. IsCounted counts.now s
        → number ≤ length s.sentences
        → (a : Answer) × (t : Machine) × Steps counts.now.limits s (command_of asked number user.now) a t
        × AreStored (tables_of t) db) }
    ensures autocommit { conn.new.in_transaction ≡ false }
{
    commands_stay_within_limits();
    let (read, prepared) = planned(asked, alloc, conn, counts, number, user)?;
    write(asked, conn, number, &prepared.change)?;
    Ok((read, prepared.totals))
}

/// Pulls the sentence with this number, from 1, which exists. Returns the reply and the totals afterwards.
///
/// # Errors
///
/// The first of `BadName`; `WrongState`, `Pulled`; `Full`.
pub fn pull<S: Alter>(
    alloc: Global,
    conn: &mut Connection<S>,
    counts: &Counters,
    number: u32,
    user: &str,
) -> Result<(Pulled, Totals), Fault>
    requires autocommit { conn.old.in_transaction ≡ false }
    requires row { 0 < number }
    requires within { IsWithin counts.now.limits }
    ensures answered { Tells S.Store conn.old conn.new result (λ s r. IsCounted counts.now s
        → number ≤ length s.sentences
        → IsDone S.Store counts.now.limits s (pull_it number user.now) (pulled_out r.0) conn.new r.1) }
    ensures refused { RefusesAs S.Store conn.old conn.new result (λ s r. IsCounted counts.now s
        → number ≤ length s.sentences
        → Steps counts.now.limits s (pull_it number user.now) (refused_by r) s × IsDeskOf S.Store conn.new s) }
    ensures output { result ≢ Err Fault.Output }
    ensures fails { KnowsDeskWhere S.Store conn.old conn.new result (λ s so. IsCounted counts.now s
        → number ≤ length s.sentences → so) }
    ensures cause { BlamesNoDevice S.Store conn.old conn.new result (λ s so. IsCounted counts.now s
        → number ≤ length s.sentences → so) }
    ensures room { IfOk result (λ _. counts.now.moves + 1 ≤ 1000000000) }
    ensures keeps_records { KeepsRecordsOnErr S.Store conn.old conn.new result }
    ensures crash { CrashesTo S.Store conn.old conn.new (λ s db. IsCounted counts.now s
        → number ≤ length s.sentences
        → (a : Answer) × (t : Machine) × Steps counts.now.limits s (pull_it number user.now) a t
        × AreStored (tables_of t) db) }
    ensures autocommit { conn.new.in_transaction ≡ false }
{
    let (read, totals) = done(PullOrRestore::Pull, alloc, conn, counts, number, user)?;
    Ok((
        Pulled {
            sentence: u64::from(number),
            words: u64::from(read.words),
        },
        totals,
    ))
}

/// The refusal of a pull of a sentence that does not exist.
pub fn no_pull(counts: &Counters, number: u64, user: &str) -> Fault
    ensures refused { (r : AnyRefusal) → result ≡ Fault.Refused r → (s : Machine) → LacksSentence s number
        → counts.now.moves ≡ length s.moves
        → Steps counts.now.limits s (pull_it number user.now) (refused_by r) s }
    ensures fails { (s : Machine) → LacksSentence s number → counts.now.moves ≡ length s.moves
        → result ≢ Fault.NotADesk }
    ensures cause { IsNoDevice result }
    ensures memory { result ≢ Fault.Memory }
    ensures output { result ≢ Fault.Output }
{
    match judge(PullOrRestore::Pull, counts, number, user, None) {
        Err(refusal) => Fault::Refused(refusal),
        Ok(_) => Fault::NotADesk,
    }
}

/// Restores the sentence with this number, from 1, which exists. Returns the reply and the totals afterwards.
///
/// # Errors
///
/// The first of `BadName`; `WrongState`, `NotPulled`; `Full`.
pub fn restore<S: Alter>(
    alloc: Global,
    conn: &mut Connection<S>,
    counts: &Counters,
    number: u32,
    user: &str,
) -> Result<(Restored, Totals), Fault>
    requires autocommit { conn.old.in_transaction ≡ false }
    requires row { 0 < number }
    requires within { IsWithin counts.now.limits }
    ensures answered { Tells S.Store conn.old conn.new result (λ s r. IsCounted counts.now s
        → number ≤ length s.sentences
        → IsDone S.Store counts.now.limits s (restore_it number user.now) (restored_to r.0) conn.new r.1) }
    ensures refused { RefusesAs S.Store conn.old conn.new result (λ s r. IsCounted counts.now s
        → number ≤ length s.sentences
        → Steps counts.now.limits s (restore_it number user.now) (refused_by r) s × IsDeskOf S.Store conn.new s) }
    ensures output { result ≢ Err Fault.Output }
    ensures fails { KnowsDeskWhere S.Store conn.old conn.new result (λ s so. IsCounted counts.now s
        → number ≤ length s.sentences → so) }
    ensures cause { BlamesNoDevice S.Store conn.old conn.new result (λ s so. IsCounted counts.now s
        → number ≤ length s.sentences → so) }
    ensures room { IfOk result (λ _. counts.now.moves + 1 ≤ 1000000000) }
    ensures keeps_records { KeepsRecordsOnErr S.Store conn.old conn.new result }
    ensures crash { CrashesTo S.Store conn.old conn.new (λ s db. IsCounted counts.now s
        → number ≤ length s.sentences
        → (a : Answer) × (t : Machine) × Steps counts.now.limits s (restore_it number user.now) a t
        × AreStored (tables_of t) db) }
    ensures autocommit { conn.new.in_transaction ≡ false }
{
    let (read, totals) = done(PullOrRestore::Restore, alloc, conn, counts, number, user)?;
    Ok((
        Restored {
            sentence: u64::from(number),
            state: read.state,
            words: u64::from(read.words),
        },
        totals,
    ))
}

/// The refusal of a restore of a sentence that does not exist.
pub fn no_restore(counts: &Counters, number: u64, user: &str) -> Fault
    ensures refused { (r : AnyRefusal) → result ≡ Fault.Refused r → (s : Machine) → LacksSentence s number
        → counts.now.moves ≡ length s.moves
        → Steps counts.now.limits s (restore_it number user.now) (refused_by r) s }
    ensures fails { (s : Machine) → LacksSentence s number → counts.now.moves ≡ length s.moves
        → result ≢ Fault.NotADesk }
    ensures cause { IsNoDevice result }
    ensures memory { result ≢ Fault.Memory }
    ensures output { result ≢ Fault.Output }
{
    match judge(PullOrRestore::Restore, counts, number, user, None) {
        Err(refusal) => Fault::Refused(refusal),
        Ok(_) => Fault::NotADesk,
    }
}
