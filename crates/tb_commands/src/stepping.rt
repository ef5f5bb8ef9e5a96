//! An event on a batch.

ghost use Rattle.std.specs.Prelude.{ℕ, ◌≡◌, ◌≢◌, ◌+◌, ◌-◌, ◌≤◌, length, Some, None, Err, is_ok};
ghost use Rattle.std.specs.Prelude.{slice_get, option_map, string_bytes, IfOk, IfErr, IsOk, OnOk, false, List};
ghost use Rattle.tb_commands.specs.Prelude.{after, Answer, AnyEvent, AnyRefusal, AnyWorker, AreStored, at_work, Batch};
ghost use Rattle.tb_commands.specs.Prelude.{BlamesNoDevice, CrashesTo, event_on, FailsOnlyAs, FindsBatch, Holds};
ghost use Rattle.tb_commands.specs.Prelude.{IsAllowed, IsCounted, IsDeskOf, IsFaultless, IsNoDevice, IsReachable};
ghost use Rattle.tb_commands.specs.Prelude.{IsReadOnly, IsWithin, KeepsRecordsOnErr, KnowsDeskWhere, Machine};
ghost use Rattle.tb_commands.specs.Prelude.{makes_worker, moved_on, one, Reached, refused_by, RefusesAs, replied};
ghost use Rattle.tb_commands.specs.Prelude.{reply_to, state, stepping, Steps, tables_of, Tells, TellsOnOk, weigh};
ghost use Rattle.tb_commands.specs.Prelude.{with_worker, words};
ghost use Rattle.tb_commands.specs.Working.{IsDone};
ghost use Rattle.tb_commands.specs.Stepping.{seen_of, event_move, IsPlanned};

use crate::finding::{BatchRead, find_batch};
use crate::working::{Sums, find_work};
use sqlite::{Alter, Connection};
use std::alloc::Global;
use tb_core::{
    BatchFound, Event, Fault, Kind, Move, Moved, Refusal, Totals, Worker,
    commands_stay_within_limits, judge_event, reached_states_are_well,
};
use tb_refine::{
    Counters, PreparedMove, events_are_stored, faults, next_move, number_of_state, prepare,
};
use tb_tables::write_event;

/// The reply to an accepted event, and what the event writes.
#[derive(Debug, Drop)]
pub(crate) struct EventPlan {
    pub reply: Moved,
    /// The number of the batch.
    pub number: u32,
    /// The number of its state after the event, and its worker; empty for nobody.
    pub in_state: u32,
    pub worker: String,
    pub prepared: PreparedMove,
}

/// Judges an event on a batch that exists. Returns how the event changes the batch's worker.
fn judge_found(
    counts: &Counters,
    name: &str,
    event: Event,
    user: &str,
    found: &BatchRead,
) -> Result<Worker, Refusal>
    ensures worker { IfOk result (λ worker. worker ≡ makes_worker event) }
    ensures refused { IfErr result (λ r. (s : Machine) → Reached s
        → FindsBatch s name.now (Some (seen_of found.now)) → counts.now.moves ≡ length s.moves
        → Steps counts.now.limits s (event_on name.now event user.now) (refused_by r) s) }
    ensures accepted { OnOk result ((s : Machine) → Reached s → FindsBatch s name.now (Some (seen_of found.now))
        → counts.now.moves ≡ length s.moves
        → let act = stepping (found.now.number - 1) event user.now in
        IsAllowed s act × Steps counts.now.limits s (event_on name.now event user.now) (replied
        (reply_to s act)) (after s act)) }
{
    let batch = BatchFound {
        number: u64::from(found.number),
        state: found.state,
        worker: found.worker.as_str(),
    };
    match judge_event(
        &counts.limits,
        name,
        event,
        user,
        Some(&batch),
        u64::from(counts.moves),
    ) {
        Ok((_, worker)) => Ok(worker),
        Err(refusal) => Err(refusal),
    }
}

/// Judges an event. Returns its batch, and how it changes the batch's worker. An event on a batch that does not exist
/// is refused.
fn judge(
    counts: &Counters,
    name: &str,
    event: Event,
    user: &str,
    found: Option<BatchRead>,
) -> Result<(BatchRead, Worker), Fault>
    ensures found { IfOk result (λ r. (found ≡ Some r.0) × (r.1 ≡ makes_worker event)) }
    ensures refused { (r : AnyRefusal) → result ≡ Err (Fault.Refused r) → (s : Machine) → Reached s
        → FindsBatch s name.now (option_map seen_of found) → counts.now.moves ≡ length s.moves
        → Steps counts.now.limits s (event_on name.now event user.now) (refused_by r) s }
    ensures output { result ≢ Err Fault.Output }
    ensures fails { (s : Machine) → Reached s → FindsBatch s name.now (option_map seen_of found)
        → counts.now.moves ≡ length s.moves → result ≢ Err Fault.NotADesk }
    ensures cause { IfErr result IsNoDevice }
    ensures accepted { IfOk result (λ r. (s : Machine) → Reached s
        → FindsBatch s name.now (option_map seen_of found) → counts.now.moves ≡ length s.moves
        → let act = stepping (r.0.number - 1) event user.now in
        IsAllowed s act × Steps counts.now.limits s (event_on name.now event user.now) (replied
        (reply_to s act)) (after s act)) }
    ensures memory { result ≢ Err Fault.Memory }
{
    let Some(batch) = found else {
        judge_event(
            &counts.limits,
            name,
            event,
            user,
            None,
            u64::from(counts.moves),
        )?;
        return Err(Fault::NotADesk);
    };
    match judge_found(counts, name, event, user, &batch) {
        Ok(worker) => Ok((batch, worker)),
        Err(refusal) => Err(Fault::Refused(refusal)),
    }
}

/// The name of the batch's worker after the event. Only the name of a new worker takes memory.
fn worker_after(alloc: Global, makes: Worker, user: &str, worker: String) -> Result<String, Fault>
    ensures value { IfOk result (λ name. string_bytes name ≡ with_worker makes user.now (string_bytes worker)) }
    ensures never_refuses { (r : AnyRefusal) → result ≢ Err (Fault.Refused r) }
    ensures output { result ≢ Err Fault.Output }
    ensures fails { result ≢ Err Fault.NotADesk }
    ensures cause { IfErr result IsNoDevice }
    ensures sure { makes ≢ AnyWorker.Caller → IsOk result }
{
    match makes {
        Worker::Keep => Ok(worker),
        Worker::Caller => Ok(String::from_str(alloc, user)?),
        Worker::Cleared => Ok(String::new(alloc)),
    }
}

/// The move of an event on this batch, whose sentences that are not pulled have these sums.
fn event_step(
    alloc: Global,
    number: u32,
    event: Event,
    found: &BatchRead,
    sums: Sums,
    user: &str,
) -> Result<Move, Fault>
    ensures step { IfOk result (λ m. m ≡ event_move number event found.now sums user.now) }
    ensures never_refuses { (r : AnyRefusal) → result ≢ Err (Fault.Refused r) }
    ensures output { result ≢ Err Fault.Output }
    ensures fails { result ≢ Err Fault.NotADesk }
    ensures cause { IfErr result IsNoDevice }
{
    Ok(Move {
        no: u64::from(number),
        kind: Kind::Step(event),
        batch: u64::from(found.number),
        sent: 0,
        from: Some(found.state),
        to: event.target(),
        sentences: u64::from(sums.sentences),
        words_out: u64::from(sums.words),
        words_in: u64::from(sums.words),
        who: String::from_str(alloc, user)?,
    })
}

/// The reply to an event, and what the event writes.
fn plan(
    alloc: Global,
    counts: &Counters,
    event: Event,
    user: &str,
    found: BatchRead,
    makes: Worker,
    sums: Sums,
) -> Result<EventPlan, Fault>
    ensures planned { IfOk result (λ p. (s : Machine) → (place : ℕ) → (b : Batch) → Reached s
        → IsAllowed s (stepping place event user.now) → IsCounted counts.now s
        → slice_get s.batches place ≡ Some b → found.number ≡ place + 1 → found.state ≡ b.state
        → string_bytes found.worker ≡ b.worker → makes ≡ makes_worker event
        → sums.sentences ≡ weigh (at_work (place + 1) one) s.sentences
        → sums.words ≡ weigh (at_work (place + 1) words) s.sentences
        → IsPlanned s place event user.now p) }
    ensures room { IfOk result (λ _. counts.now.moves + 1 ≤ 1000000000) }
    ensures never_refuses { (r : AnyRefusal) → result ≢ Err (Fault.Refused r) }
    ensures output { result ≢ Err Fault.Output }
    ensures fails { (s : Machine) → (place : ℕ) → (b : Batch) → IsReachable s
        → IsAllowed s (stepping place event user.now) → IsReachable (after s (stepping place event user.now))
        → IsCounted counts.now s
        → slice_get s.batches place ≡ Some b → found.number ≡ place + 1 → found.state ≡ b.state
        → sums.sentences ≡ weigh (at_work (place + 1) one) s.sentences
        → sums.words ≡ weigh (at_work (place + 1) words) s.sentences
        → result ≢ Err Fault.NotADesk }
    ensures cause { IfErr result IsNoDevice }
    ensures no_move_left { 1000000000 ≤ counts.now.moves → result ≡ Err Fault.NotADesk }
{
    let step = event_step(alloc, next_move(counts)?, event, &found, sums, user)?;
    let prepared = prepare(counts, step)?;
    let worker = worker_after(alloc, makes, user, found.worker)?;
    Ok(EventPlan {
        reply: Moved {
            batch: u64::from(found.number),
            state: event.target(),
            sentences: u64::from(sums.sentences),
            words: u64::from(sums.words),
        },
        number: found.number,
        in_state: number_of_state(event.target()),
        worker,
        prepared,
    })
}

/// An event that is asked for, on the batch with this name.
#[derive(Clone, Copy)]
struct Asked<'a> {
    name: &'a str,
    event: Event,
    user: &'a str,
}

/// Reads the batch of an event and the sums of its sentences, and judges the event.
fn planned<S: Alter>(
    alloc: Global,
    conn: &mut Connection<S>,
    counts: &Counters,
    asked: &Asked<'_>,
) -> Result<EventPlan, Fault>
    ensures answered { Tells S.Store conn.old conn.new result (λ s p. IsCounted counts.now s
        → (place : ℕ) × IsPlanned s place asked.now.event asked.now.user.now p
        × IsAllowed s (stepping place asked.now.event asked.now.user.now)
        × Steps counts.now.limits s (event_on asked.now.name.now asked.now.event asked.now.user.now)
        (replied (moved_on p.reply)) (after s (stepping place asked.now.event asked.now.user.now))) }
    ensures refused { RefusesAs S.Store conn.old conn.new result (λ s r. IsCounted counts.now s
        → Steps counts.now.limits s (event_on asked.now.name.now asked.now.event asked.now.user.now) (refused_by r) s
        × IsDeskOf S.Store conn.new s) }
    ensures output { result ≢ Err Fault.Output }
    ensures fails { KnowsDeskWhere S.Store conn.old conn.new result (λ s so. IsCounted counts.now s
        → IsWithin counts.now.limits → so) }
    ensures cause { IsFaultless S.Store conn.old conn.new → FailsOnlyAs IsNoDevice S.Store conn.old conn.new result }
    ensures room { IfOk result (λ _. counts.now.moves + 1 ≤ 1000000000) }
    ensures read_only { IsReadOnly S.Store conn.old conn.new (is_ok result) }
{
    commands_stay_within_limits();
    let found = find_batch(conn, asked.name)?;
    let (batch, makes) = judge(counts, asked.name, asked.event, asked.user, found)?;
    let sums = find_work(alloc, conn, batch.number)?;
    plan(alloc, counts, asked.event, asked.user, batch, makes, sums)
}

/// Writes a planned event.
fn write<S: Alter>(conn: &mut Connection<S>, plan: &EventPlan) -> Result<(), Fault>
    requires autocommit { conn.old.in_transaction ≡ false }
    ensures done { TellsOnOk S.Store conn.old conn.new result (λ s. (place : ℕ) (event : AnyEvent) (user : List ℕ)
        → IsPlanned s place event user plan.now → IsAllowed s (stepping place event user)
        → Holds S.Store conn.new (tables_of (after s (stepping place event user)))) }
    ensures never_refuses { (r : AnyRefusal) → result ≢ Err (Fault.Refused r) }
    ensures output { result ≢ Err Fault.Output }
    ensures fails { KnowsDeskWhere S.Store conn.old conn.new result (λ s so.
        (place : ℕ) (event : AnyEvent) (user : List ℕ)
        → IsPlanned s place event user plan.now → IsAllowed s (stepping place event user) → so) }
    ensures cause { BlamesNoDevice S.Store conn.old conn.new result (λ s so.
        (place : ℕ) (event : AnyEvent) (user : List ℕ)
        → IsPlanned s place event user plan.now → IsAllowed s (stepping place event user) → so) }
    ensures keeps_records { KeepsRecordsOnErr S.Store conn.old conn.new result }
    ensures crash { CrashesTo S.Store conn.old conn.new (λ s db. (place : ℕ) (event : AnyEvent) (user : List ℕ)
        → IsPlanned s place event user plan.now → IsAllowed s (stepping place event user)
        → AreStored (tables_of (after s (stepping place event user))) db) }
    ensures autocommit { conn.new.in_transaction ≡ false }
{
    reached_states_are_well();
    events_are_stored();
    if plan.number == 0 {
        return Err(Fault::NotADesk);
    }
    faults::reported_write(write_event(
        conn,
        plan.number,
        plan.in_state,
        plan.worker.as_str(),
        &plan.prepared.change,
    ))
}

/// Makes an event on the batch with this name. Returns the reply and the totals afterwards.
///
/// # Errors
///
/// The first of `BadName`, `NoSuchBatch`; `WrongState`, `NotYours`, `OwnWork`; `Full`.
pub fn event<S: Alter>(
    alloc: Global,
    conn: &mut Connection<S>,
    counts: &Counters,
    name: &str,
    event: Event,
    user: &str,
) -> Result<(Moved, Totals), Fault>
    requires autocommit { conn.old.in_transaction ≡ false }
    requires within { IsWithin counts.now.limits }
    ensures answered { Tells S.Store conn.old conn.new result (λ s r. IsCounted counts.now s
        → IsDone S.Store counts.now.limits s (event_on name.now event user.now) (moved_on r.0) conn.new r.1) }
    ensures refused { RefusesAs S.Store conn.old conn.new result (λ s r. IsCounted counts.now s
        → Steps counts.now.limits s (event_on name.now event user.now) (refused_by r) s
        × IsDeskOf S.Store conn.new s) }
    ensures output { result ≢ Err Fault.Output }
    ensures fails { KnowsDeskWhere S.Store conn.old conn.new result (λ s so. IsCounted counts.now s → so) }
    ensures cause { BlamesNoDevice S.Store conn.old conn.new result (λ s so. IsCounted counts.now s → so) }
    ensures room { IfOk result (λ _. counts.now.moves + 1 ≤ 1000000000) }
    ensures keeps_records { KeepsRecordsOnErr S.Store conn.old conn.new result }
    ensures crash { CrashesTo S.Store conn.old conn.new (λ s db. IsCounted counts.now s
        → (a : Answer) × (t : Machine) × Steps counts.now.limits s (event_on name.now event user.now) a t
        × AreStored (tables_of t) db) }
    ensures autocommit { conn.new.in_transaction ≡ false }
{
    commands_stay_within_limits();
    let asked = Asked { name, event, user };
    let plan = planned(alloc, conn, counts, &asked)?;
    write(conn, &plan)?;
    Ok((plan.reply, plan.prepared.totals))
}
