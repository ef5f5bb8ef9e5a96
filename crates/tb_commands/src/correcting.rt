//! A correction of a sentence.

ghost use Rattle.std.specs.Prelude.{◌≡◌, ◌≢◌, ℕ, ◌+◌, ◌-◌, ◌^◌, ◌<◌, ◌≤◌, List, [], is_ok, ◌∷◌, length, None, Some};
ghost use Rattle.std.specs.Prelude.{Err, slice_get, string_bytes, false, IfOk, IfSome, IfErr};
ghost use Rattle.tb_commands.specs.Prelude.{after, Answer, AnyLimits, AnyRefusal, AreStored, BlamesNoDevice};
ghost use Rattle.tb_commands.specs.Prelude.{correct_it, correcting, CrashesTo, FailsOnlyAs, HasCleanDisk};
ghost use Rattle.tb_commands.specs.Prelude.{HasRoomIfWritten, IsAllowed, IsCounted, IsDeskOf, IsFaultless};
ghost use Rattle.tb_commands.specs.Prelude.{IsNamedCorrection, IsNoDevice, IsReachable, IsReadOnly, IsReadWhere};
ghost use Rattle.tb_commands.specs.Prelude.{IsWithin, KeepsRecordsOnErr, KnowsDeskWhere, LacksSentence, Machine};
ghost use Rattle.tb_commands.specs.Prelude.{Reached, refused_by, RefusesAs, replied, reply_to, Sentence, state, Steps};
ghost use Rattle.tb_commands.specs.Prelude.{tables_of, Tells, text_of};
ghost use Rattle.tb_commands.specs.Correcting.{PlanText, IsCurrentRead, IsPlannedCorrection, Decides, Corrects};
ghost use Rattle.tb_commands.specs.Correcting.{current_seen, correction_move};
ghost use Rattle.tb_commands.specs.ReadOf.{fault_of_stored};

use crate::committing;
use crate::finding::{SentenceRead, find_sentence};
use sqlite::{Alter, Connection};
use std::alloc::Global;
use std::marker::Model;
use tb_conllu::{BlockRef, ReadFault, SourcedSentence, read_ref, words};
use tb_core::{
    Corrected, CurrentFound, Fault, Judged, Kind, Move, Totals, commands_stay_within_limits,
    judge_correction_before, judge_correction_body, revisions_read_back,
};
use tb_refine::{Counters, narrow, next_move, prepare, revision_row};
use tb_tables::MoveWrite;

/// A sentence and its current revision, as read from the tables.
#[derive(Debug, Drop)]
pub(crate) struct CurrentRead {
    pub sentence: SentenceRead,
    /// The user who gave the current revision.
    pub who: String,
    /// Its text.
    pub body: String,
}

/// What an accepted correction writes. It borrows from the request's body.
#[derive(Drop)]
pub(crate) struct CorrectionPlan<'a> {
    /// The number of the new revision, its words and its text.
    pub rev: u32,
    pub words: u32,
    pub text: &'a str,
    pub change: MoveWrite,
    /// The totals after it.
    pub totals: Totals,
}

impl<'a> Model for CorrectionPlan<'a> {
    ghost Value = { PlanText };

    ghost view = { λ p. record {
      rev = p.rev;
      words = p.words;
      text = p.text.now;
      change = p.change;
      totals = p.totals;
    } };
}

/// The sentence with this number, from 1, which exists, and its current revision.
fn find_current<S: Alter>(conn: &mut Connection<S>, number: u32) -> Result<CurrentRead, Fault>
    requires { 0 < number }
    ensures answered { Tells S.Store conn.old conn.new result (λ s f. (x : Sentence)
        → slice_get s.sentences (number - 1) ≡ Some x → IsCurrentRead s x f) }
    ensures read { IsReadWhere S.Store conn.old conn.new result (λ s so. (x : Sentence)
        → slice_get s.sentences (number - 1) ≡ Some x → so) }
{
    let sentence = find_sentence(conn, number)?;
    let row = revision_row(conn, number, sentence.rev)?;
    Ok(CurrentRead {
        sentence,
        who: row.who,
        body: row.body,
    })
}

/// What was read, in the form in which tb_core judges it.
fn found_of(read: &CurrentRead) -> CurrentFound<'_>
    ensures { result ≡ current_seen read.now }
{
    CurrentFound {
        state: read.sentence.state,
        worker: read.sentence.worker.as_str(),
        pulled: read.sentence.pulled,
        rev: u64::from(read.sentence.rev),
        who: read.who.as_str(),
        body: read.body.as_bytes(),
        words: u64::from(read.sentence.words),
    }
}

/// A stored text that cannot be read is not that of a desk.
fn fault_of_text(fault: ReadFault) -> Fault
    ensures never_refuses { (r : AnyRefusal) → result ≢ Fault.Refused r }
    ensures output { result ≢ Fault.Output }
    ensures fails { fault ≡ ReadFault.Memory → result ≢ Fault.NotADesk }
    ensures cause { IsNoDevice result }
    ensures value { result ≡ fault_of_stored fault }
{
    match fault {
        ReadFault::Memory => Fault::Memory,
        ReadFault::At { line: _, code: _ } => Fault::NotADesk,
    }
}

/// The first of the sentences of a stored text. A text without one is no desk's.
fn first_of<'b, 'a>(blocks: &'b [BlockRef<'a>]) -> Result<&'b BlockRef<'a>, Fault>
    ensures first { IfOk result (λ b. slice_get blocks.now 0 ≡ Some b.now) }
    ensures none { IfErr result (λ e. (e ≡ Fault.NotADesk) × (slice_get blocks.now 0 ≡ None)) }
{
    match blocks.first() {
        Some(first) => Ok(first),
        None => Err(Fault::NotADesk),
    }
}

/// The sentence of a body, which corrects the sentence with this text.
fn take<'a>(
    alloc: Global,
    counts: &Counters,
    text: &str,
    body: &'a [u8],
) -> Result<SourcedSentence<'a>, Fault>
    ensures text { IfOk result (λ p. p.text.now ≡ body.now) }
    ensures refused { (r : AnyRefusal) → result ≡ Err (Fault.Refused r)
        → (s : Machine) (n base : ℕ) (user : List ℕ) (place : ℕ) (x : Sentence) → Reached s
        → IsNamedCorrection s n base user body.now place x
        → text.now ≡ text_of (x.current.body ∷ []) → counts.now.moves ≡ length s.moves
        → Steps counts.now.limits s (correct_it n base user body.now) (refused_by r) s }
    ensures accepted { IfOk result (λ p. (s : Machine) (n base : ℕ) (user : List ℕ) (place : ℕ) (x : Sentence)
        → Reached s → IsNamedCorrection s n base user body.now place x
        → text.now ≡ text_of (x.current.body ∷ []) → counts.now.moves ≡ length s.moves
        → let act = correcting place user p.block in
        IsAllowed s act × Steps counts.now.limits s (correct_it n base user body.now) (replied
        (reply_to s act)) (after s act) × (p.text.now ≡ text_of (p.block ∷ []))) }
    ensures output { result ≢ Err Fault.Output }
    ensures fails { (s : Machine) (n base : ℕ) (user : List ℕ) (place : ℕ) (x : Sentence) → Reached s
        → IsNamedCorrection s n base user body.now place x
        → text.now ≡ text_of (x.current.body ∷ []) → result ≢ Err Fault.NotADesk }
    ensures cause { IfErr result IsNoDevice }
{
    revisions_read_back();
    let blocks = match read_ref(alloc, text.as_bytes()) {
        Ok(blocks) => blocks,
        Err(fault) => return Err(fault_of_text(fault)),
    };
    let current = first_of(&blocks)?;
    judge_correction_body(
        alloc,
        &counts.limits,
        body,
        current,
        u64::from(counts.moves),
    )
}

/// The number of the next revision.
fn next_revision(rev: u32) -> Result<u32, Fault>
    ensures next { IfOk result (λ n. n ≡ rev + 1) }
    ensures never_refuses { (r : AnyRefusal) → result ≢ Err (Fault.Refused r) }
    ensures output { result ≢ Err Fault.Output }
    ensures fails { rev + 1 < 2 ^ 32 → result ≢ Err Fault.NotADesk }
    ensures cause { IfErr result IsNoDevice }
    ensures fault { IfErr result (λ e. e ≡ Fault.NotADesk) }
{
    match rev.checked_add(1) {
        Some(next) => Ok(next),
        None => Err(Fault::NotADesk),
    }
}

/// The move of a correction of this sentence.
fn move_by(who: String, no: u32, number: u32, read: &CurrentRead, new_words: u32) -> Move
    ensures { result ≡ correction_move no number read.now new_words (string_bytes who) }
{
    Move {
        no: u64::from(no),
        kind: Kind::Correct,
        batch: u64::from(read.sentence.batch),
        sent: u64::from(number),
        from: Some(read.sentence.state),
        to: read.sentence.state,
        sentences: 1,
        words_out: u64::from(read.sentence.words),
        words_in: u64::from(new_words),
        who,
    }
}

/// Makes what a correction writes.
fn plan<'a>(
    alloc: Global,
    counts: &Counters,
    number: u32,
    user: &str,
    read: &CurrentRead,
    passage: &SourcedSentence<'a>,
) -> Result<CorrectionPlan<'a>, Fault>
    requires { 0 < number }
    ensures planned { IfOk result (λ p. (s : Machine) (x : Sentence) → Reached s
        → IsAllowed s (correcting (number - 1) user.now passage.now.block) → IsCounted counts.now s
        → slice_get s.sentences (number - 1) ≡ Some x → IsCurrentRead s x read.now
        → passage.now.text.now ≡ text_of (passage.now.block ∷ [])
        → IsPlannedCorrection s number user.now passage.now.block p) }
    ensures room { IfOk result (λ _. counts.now.moves + 1 ≤ 1000000000) }
    ensures text { IfOk result (λ p. p.text ≡ passage.now.text.now) }
    ensures never_refuses { (r : AnyRefusal) → result ≢ Err (Fault.Refused r) }
    ensures output { result ≢ Err Fault.Output }
    ensures fails { (s : Machine) (x : Sentence) → IsReachable s
        → IsAllowed s (correcting (number - 1) user.now passage.now.block)
        → IsReachable (after s (correcting (number - 1) user.now passage.now.block)) → IsCounted counts.now s
        → slice_get s.sentences (number - 1) ≡ Some x → IsCurrentRead s x read.now
        → result ≢ Err Fault.NotADesk }
    ensures cause { IfErr result IsNoDevice }
    ensures no_move_left { 1000000000 ≤ counts.now.moves → result ≡ Err Fault.NotADesk }
{
    let rev = next_revision(read.sentence.rev)?;
    let new_words = narrow(words(&passage.block) as u64)?;
    let no = next_move(counts)?;
    let who = String::from_str(alloc, user)?;
    let prepared = prepare(counts, move_by(who, no, number, read, new_words))?;
    Ok(CorrectionPlan {
        rev,
        words: new_words,
        text: passage.text,
        change: prepared.change,
        totals: prepared.totals,
    })
}

/// The reply to a correction that is written.
fn reply_of(number: u32, plan: &CorrectionPlan<'_>) -> Corrected
    ensures { result ≡ record { sentence = number; rev = plan.now.rev; words = plan.now.words } }
{
    Corrected {
        sentence: u64::from(number),
        rev: u64::from(plan.rev),
        words: u64::from(plan.words),
    }
}

/// The reply and the writes of a correction, whose body alone is still to be judged.
fn plan_body<'a>(
    alloc: Global,
    counts: &Counters,
    number: u32,
    user: &str,
    body: &'a [u8],
    read: &CurrentRead,
) -> Result<(Corrected, CorrectionPlan<'a>), Fault>
    requires { 0 < number }
    ensures answered { IfOk result (λ r. (s : Machine) (base : ℕ) (x : Sentence) → Reached s
        → IsCounted counts.now s → IsCurrentRead s x read.now
        → IsNamedCorrection s number base user.now body.now (number - 1) x
        → Decides counts.now.limits s number base user.now body.now r.0 (Some r.1)) }
    ensures text { IfOk result (λ r. r.1.text ≡ body.now) }
    ensures refused { (r : AnyRefusal) → result ≡ Err (Fault.Refused r)
        → (s : Machine) (base : ℕ) (x : Sentence) → Reached s → IsCounted counts.now s
        → IsCurrentRead s x read.now → IsNamedCorrection s number base user.now body.now (number - 1) x
        → Steps counts.now.limits s (correct_it number base user.now body.now) (refused_by r) s }
    ensures output { result ≢ Err Fault.Output }
    ensures fails { IsWithin counts.now.limits → (s : Machine) (base : ℕ) (x : Sentence) → IsReachable s
        → IsCounted counts.now s → IsCurrentRead s x read.now
        → IsNamedCorrection s number base user.now body.now (number - 1) x → result ≢ Err Fault.NotADesk }
    ensures cause { IfErr result IsNoDevice }
    ensures room { IfOk result (λ _. counts.now.moves + 1 ≤ 1000000000) }
{
    commands_stay_within_limits();
    let passage = take(alloc, counts, read.body.as_str(), body)?;
    let plan = plan(alloc, counts, number, user, read, &passage)?;
    Ok((reply_of(number, &plan), plan))
}

/// The reply to a correction that is not refused, and what it writes. A repeat writes nothing. Only a correction whose
/// body is to be judged needs memory.
fn decide<'a>(
    alloc: Global,
    counts: &Counters,
    number: u32,
    base: u64,
    user: &str,
    body: &'a [u8],
    read: &CurrentRead,
) -> Result<(Corrected, Option<CorrectionPlan<'a>>), Fault>
    requires { 0 < number }
    ensures answered { IfOk result (λ r. (s : Machine) (x : Sentence) → Reached s → IsCounted counts.now s
        → slice_get s.sentences (number - 1) ≡ Some x → IsCurrentRead s x read.now
        → Decides counts.now.limits s number base user.now body.now r.0 r.1) }
    ensures text { IfOk result (λ r. IfSome r.1 (λ p. p.text ≡ body.now)) }
    ensures refused { (r : AnyRefusal) → result ≡ Err (Fault.Refused r) → (s : Machine) (x : Sentence)
        → Reached s → IsCounted counts.now s → slice_get s.sentences (number - 1) ≡ Some x
        → IsCurrentRead s x read.now
        → Steps counts.now.limits s (correct_it number base user.now body.now) (refused_by r) s }
    ensures wants { result ≡ Err Fault.Memory → (s : Machine) (x : Sentence)
        → slice_get s.sentences (number - 1) ≡ Some x → IsCurrentRead s x read.now
        → IsNamedCorrection s number base user.now body.now (number - 1) x }
    ensures output { result ≢ Err Fault.Output }
    ensures fails { IsWithin counts.now.limits → (s : Machine) (x : Sentence) → IsReachable s
        → IsCounted counts.now s → slice_get s.sentences (number - 1) ≡ Some x → IsCurrentRead s x read.now
        → result ≢ Err Fault.NotADesk }
    ensures cause { IfErr result IsNoDevice }
    ensures room { IfOk result (λ r. IfSome r.1 (λ _. counts.now.moves + 1 ≤ 1000000000)) }
{
    let found = found_of(read);
    match judge_correction_before(u64::from(number), base, user, body, Some(&found))? {
        Judged::Repeat(reply) => Ok((reply, None)),
        Judged::Continue => {
            let (reply, plan) = plan_body(alloc, counts, number, user, body, read)?;
            Ok((reply, Some(plan)))
        }
    }
}

/// A correction that is asked for, of the sentence with this number, from 1.
#[derive(Clone, Copy)]
struct Asked<'a> {
    number: u32,
    /// The number of the revision that was corrected.
    base: u64,
    user: &'a str,
    body: &'a [u8],
}

/// Reads the sentence of a correction, which exists, and judges the correction.
fn planned<'a, S: Alter>(
    alloc: Global,
    conn: &mut Connection<S>,
    counts: &Counters,
    asked: &Asked<'a>,
) -> Result<(Corrected, Option<CorrectionPlan<'a>>), Fault>
    requires { 0 < asked.now.number }
    ensures answered { Tells S.Store conn.old conn.new result (λ s r. IsCounted counts.now s
        → asked.now.number ≤ length s.sentences
        → Decides counts.now.limits s asked.now.number asked.now.base asked.now.user.now asked.now.body.now r.0 r.1) }
    ensures text { IfOk result (λ r. IfSome r.1 (λ p. p.text ≡ asked.now.body.now)) }
    ensures refused { RefusesAs S.Store conn.old conn.new result (λ s r. IsCounted counts.now s
        → asked.now.number ≤ length s.sentences
        → Steps counts.now.limits s
        (correct_it asked.now.number asked.now.base asked.now.user.now asked.now.body.now) (refused_by r) s
        × IsDeskOf S.Store conn.new s) }
    ensures output { result ≢ Err Fault.Output }
    ensures fails { HasCleanDisk (state S.Store conn.new) → (state S.Store conn.old).step_limit ≡ None
        → IsWithin counts.now.limits → (s : Machine) → IsDeskOf S.Store conn.old s → IsCounted counts.now s
        → asked.now.number ≤ length s.sentences → result ≢ Err Fault.NotADesk }
    ensures cause { IsFaultless S.Store conn.old conn.new → FailsOnlyAs IsNoDevice S.Store conn.old conn.new result }
    ensures room { IfOk result (λ r. IfSome r.1 (λ _. counts.now.moves + 1 ≤ 1000000000)) }
    ensures read_only { IsReadOnly S.Store conn.old conn.new (is_ok result) }
{
    let read = find_current(conn, asked.number)?;
    decide(
        alloc,
        counts,
        asked.number,
        asked.base,
        asked.user,
        asked.body,
        &read,
    )
}

/// Corrects the sentence with this number, from 1, which exists. `base` is the number of the revision that was
/// corrected, from 1.
///
/// Returns the reply and the totals afterwards. There are no totals where it is a repeat, which writes nothing.
///
/// # Errors
///
/// The first that holds: `BadName`; unless it is a repeat, `WrongState`, `NotYours`, `OwnWork`, `Stale`; `Read`,
/// `Rule`, `Empty`, `NotOne`; `SentIdChanged`, `TextChanged`, `NothingChanged`; `Full`.
pub fn correct<S: Alter>(
    alloc: Global,
    conn: &mut Connection<S>,
    counts: &Counters,
    number: u32,
    base: u64,
    user: &str,
    body: &[u8],
) -> Result<(Corrected, Option<Totals>), Fault>
    requires autocommit { conn.old.in_transaction ≡ false }
    requires row { 0 < number }
    requires within { IsWithin counts.now.limits }
    ensures answered { Tells S.Store conn.old conn.new result (λ s r. IsCounted counts.now s
        → number ≤ length s.sentences
        → Corrects S.Store counts.now.limits s number base user.now body.now conn.new r.0 r.1) }
    ensures refused { RefusesAs S.Store conn.old conn.new result (λ s r. IsCounted counts.now s
        → number ≤ length s.sentences
        → Steps counts.now.limits s (correct_it number base user.now body.now) (refused_by r) s
        × IsDeskOf S.Store conn.new s) }
    ensures output { result ≢ Err Fault.Output }
    ensures fails { KnowsDeskWhere S.Store conn.old conn.new result (λ s so. IsCounted counts.now s
        → number ≤ length s.sentences → so) }
    ensures cause { BlamesNoDevice S.Store conn.old conn.new result (λ s so. IsCounted counts.now s
        → number ≤ length s.sentences
        → HasRoomIfWritten counts.now.limits s (correct_it number base user.now body.now) body.now 1
        (state S.Store conn.old) → so) }
    ensures room { IfOk result (λ r. IfSome r.1 (λ _. counts.now.moves + 1 ≤ 1000000000)) }
    ensures keeps_records { KeepsRecordsOnErr S.Store conn.old conn.new result }
    ensures crash { CrashesTo S.Store conn.old conn.new (λ s db. IsCounted counts.now s
        → number ≤ length s.sentences
        → (a : Answer) × (t : Machine) × Steps counts.now.limits s (correct_it number base user.now body.now) a t
        × AreStored (tables_of t) db) }
    ensures autocommit { conn.new.in_transaction ≡ false }
{
    commands_stay_within_limits();
    let asked = Asked {
        number,
        base,
        user,
        body,
    };
    let (reply, plan) = planned(alloc, conn, counts, &asked)?;
    let Some(plan) = plan else {
        return Ok((reply, None));
    };
    committing::correct(
        conn,
        number,
        plan.rev,
        plan.words,
        user,
        plan.text,
        &plan.change,
    )?;
    Ok((reply, Some(plan.totals)))
}

/// The refusal of a correction of a sentence that does not exist.
pub fn no_correction(number: u64, base: u64, user: &str, body: &[u8]) -> Fault
    ensures refused { (r : AnyRefusal) → result ≡ Fault.Refused r → (l : AnyLimits) (s : Machine)
        → LacksSentence s number → Steps l s (correct_it number base user.now body.now) (refused_by r) s }
    ensures fails { result ≢ Fault.NotADesk }
    ensures cause { IsNoDevice result }
    ensures memory { result ≢ Fault.Memory }
    ensures output { result ≢ Fault.Output }
{
    match judge_correction_before(number, base, user, body, None) {
        Err(refusal) => Fault::from(refusal),
        Ok(_) => Fault::NotADesk,
    }
}
