ghost use Rattle.std.specs.Prelude.{◌≡◌, ◌≢◌, ◌↔◌, ◌⊎◌, ◌<◌, ◌≤◌, length};
ghost use Rattle.std.specs.Prelude.{false, None, Some, Err, string_bytes, IsTrue, IfOk, IfErr, IfSome};
ghost use Rattle.tb_store.specs.Prelude.{AnyRefusal, AreRevisions, AreSentences, AreStored, AreTotalsOf, batch_lines};
ghost use Rattle.tb_store.specs.Prelude.{correct_it, corrected_to, desk_schema, empty_machine};
ghost use Rattle.tb_store.specs.Prelude.{event_on};
ghost use Rattle.tb_store.specs.Prelude.{HasCleanDisk, HasRoomIfWritten, import_file, imported, is_name, IsBlank};
ghost use Rattle.tb_store.specs.Prelude.{IsDeskOf, IsUnchanged, IsWithin, Machine, moved_on, no_schema, pull_it};
ghost use Rattle.tb_store.specs.Prelude.{pulled_out, restore_it, restored_to, state, Survives, tables_of};
ghost use Rattle.tb_store.specs.Kept.{Kept, counts_of, known_of};
ghost use Rattle.tb_store.specs.Represents.{Represents, RepresentsEach, unlimited, no_totals};
ghost use Rattle.tb_store.specs.Answers.{AreNet, IsCurrent, IsRevisionText, HasNoSentence, RefusesRevision};
ghost use Rattle.tb_store.specs.Exports.{RefusesBatch};
ghost use Rattle.tb_store.specs.Calls.{CrashesWhole, EndsAs, Gives, GivesOnErr, KeepsState, LeavesOnly};
ghost use Rattle.tb_store.specs.Calls.{RefusesMissing};
ghost use Rattle.tb_store.specs.Blaming.{BlamesInDoubtAlone, DoubtsOnDevice};
ghost use Rattle.tb_store.specs.Questions.{IsQuestion};
ghost use Rattle.tb_store.specs.Handing.{IsNoDeviceIfFaultless, SeesTheSame, StaysADesk, StaysBlank};
ghost use Rattle.tb_store.specs.Handing.{TellsOpen, TellsShut, TellsWant, WantsOnTables};

mod naming;
mod releasing;
pub(crate) mod resuming;

use crate::answers::Current;
use crate::wanting::certain;
use crate::{asking, wanting};
pub use resuming::stopped_in_a_command;
use sqlite::{Alter, Connection};
use std::alloc::Global;
use std::marker::Model;
use tb_core::{
    Corrected, Event, Fault, Imported, Limits, Move, Moved, Pulled, Refusal, Restored, Totals,
    totals_are_nets,
};
use tb_import::ImportCounters;
use tb_lists::{BatchLine, RevisionLine, SentenceLine, list_batches, list_revisions};
use tb_refine::{Counters, all_moves, faults, one_state_for_the_file};
use tb_verify::{DeskSummary, read_desk};

/// A desk: the connection that holds its tables, its limits, and the counts and totals that it read or wrote last. So the
/// next numbers are known without asking the database.
///
/// It may be dropped at any time. What it answered to have done is done, after a crash too.
#[derive(Drop)]
pub struct Desk<S: Alter> {
    conn: Connection<S>,
    alloc: Global,
    limits: Limits,
    batches: u32,
    sentences: u32,
    moves: u32,
    totals: Totals,
    /// A command failed, and memory ran out at the question whether the store is open. So the store may be shut, and the
    /// command committed.
    in_doubt: bool,
}

impl<S: Alter> Model for Desk<S> {
    ghost use Rattle.tb_store.specs.Kept.{Kept, kept_code, IsReady};

    ghost Value = { Kept S };

    ghost coded = { kept_code S.code };

    ghost view = { λ d. record { conn = d.conn; limits = d.limits; batches = d.batches; sentences = d.sentences; moves = d.moves; totals = d.totals; in_doubt = d.in_doubt } };

    ghost invariant = { λ d. IsReady (record { conn = d.conn; limits = d.limits; batches = d.batches; sentences = d.sentences; moves = d.moves; totals = d.totals; in_doubt = d.in_doubt }) };
}

/// Why no desk was made, and the connection that was given for it.
#[derive(Drop)]
pub struct Unmade<S: Alter> {
    pub fault: Fault,
    pub conn: Connection<S>,
}

/// The connection, whose statements may take any number of steps.
pub(crate) fn without_limit<S: Alter>(mut conn: Connection<S>) -> Connection<S>
    ensures { result ≡ unlimited conn }
{
    conn.set_step_limit(None);
    conn
}

impl<S: Alter> Desk<S> {
    /// The desk without a batch of a blank database, in which it makes the tables, and whose step limit it takes off. A
    /// database that is not blank is `NotADesk`, and is not touched. A fault gives the connection back without its step
    /// limit, over a database as blank as before where the store is open; a crash leaves it blank, or the whole tables.
    pub fn make(alloc: Global, conn: Connection<S>, limits: Limits) -> Result<Desk<S>, Unmade<S>>
        requires autocommit { conn.in_transaction ≡ false }
        requires within { IsWithin limits }
        ensures made { IfOk result (λ d. HasCleanDisk (state S.Store d.conn) → IsBlank S.Store conn
            → Represents S.Store d empty_machine) }
        ensures limits { IfOk result (λ d. d.limits ≡ limits) }
        ensures certain { IfOk result (λ d. d.in_doubt ≡ false) }
        ensures no_step_limit { IfOk result (λ d. (state S.Store d.conn).step_limit ≡ None) }
        ensures limit_off { IfErr result (λ u. (state S.Store u.conn).step_limit ≡ None) }
        ensures blank { IfOk result (λ _. (state S.Store conn).now.schema ≡ no_schema) }
        ensures used { IfErr result (λ u. (u.fault ≡ Fault.NotADesk)
            ↔ ((state S.Store conn).now.schema ≢ no_schema)) }
        ensures known { IfErr result (λ u. (u.fault ≡ Fault.NotADesk) ⊎ ((u.fault ≡ Fault.Memory)
            ⊎ (u.fault ≡ Fault.Device))) }
        ensures cause { IfErr result (λ u. IsBlank S.Store conn
            → IsNoDeviceIfFaultless S.Store conn u.conn u.fault) }
        ensures untouched { IfErr result (λ u. u.fault ≡ Fault.NotADesk → u.conn ≡ unlimited conn) }
        ensures again { IfErr result (λ u. StaysBlank S.Store conn u.conn) }
        ensures autocommit { IfErr result (λ u. u.conn.in_transaction ≡ false) }
        ensures crash { IfOk result (λ d. Survives (state S.Store (unlimited conn)) (state S.Store d.conn) (λ db.
            IsBlank S.Store conn → AreStored (tables_of empty_machine) db)) }
        ensures crash_on_the_way { IfErr result (λ u. u.fault ≢ Fault.NotADesk
            → Survives (state S.Store (unlimited conn)) (state S.Store u.conn) (λ db. IsBlank S.Store conn
            → AreStored (tables_of empty_machine) db)) }
    {
        let mut conn = without_limit(conn);
        if !tb_tables::is_blank(&conn) {
            return Err(Unmade {
                fault: Fault::NotADesk,
                conn,
            });
        }
        match tb_tables::create(&mut conn) {
            Ok(()) => Ok(Desk::empty(alloc, conn, limits)),
            Err(error) => Err(Unmade {
                fault: faults::of_making(error),
                conn,
            }),
        }
    }

    /// The desk without a batch, over this connection.
    fn empty(alloc: Global, conn: Connection<S>, limits: Limits) -> Desk<S>
        requires autocommit { conn.in_transaction ≡ false }
        requires unlimited { conn.step_limit ≡ None }
        requires within { IsWithin limits }
        ensures { result ≡ record {
          conn = conn;
          limits = limits;
          batches = 0;
          sentences = 0;
          moves = 0;
          totals = no_totals;
          in_doubt = false;
        } }
    {
        Desk {
            conn,
            alloc,
            limits,
            batches: 0,
            sentences: 0,
            moves: 0,
            totals: Totals {
                sentences: [0; 6],
                words: [0; 6],
            },
            in_doubt: false,
        }
    }

    /// The connection, for whoever closes it.
    pub fn into_connection(self) -> Connection<S>
        ensures { result ≡ self.conn }
    {
        let Desk {
            conn,
            alloc: _,
            limits: _,
            batches: _,
            sentences: _,
            moves: _,
            totals: _,
            in_doubt: _,
        } = self;
        conn
    }
}

impl<S: Alter> Desk<S> {
    /// The desk of a store that is one. All its tables are read and tested. Nothing of the store is changed, whether it
    /// is a desk or not; the connection loses its step limit.
    ///
    /// The rows of all tables are in memory at once, with the texts of all revisions. A fault gives the connection back
    /// without its step limit, over a store that is as it was.
    ///
    /// # Errors
    ///
    /// `NotADesk`, where the store is the desk of no state, or the connection is in a transaction.
    pub fn adopt(alloc: Global, conn: Connection<S>, limits: Limits) -> Result<Desk<S>, Unmade<S>>
        requires within { IsWithin limits }
        ensures adopted { IfOk result (λ d. HasCleanDisk (state S.Store d.conn) → (s : Machine)
            × IsDeskOf S.Store conn s × Represents S.Store d s) }
        ensures limits { IfOk result (λ d. d.limits ≡ limits) }
        ensures certain { IfOk result (λ d. d.in_doubt ≡ false) }
        ensures represents { IfOk result (RepresentsEach S.Store conn) }
        ensures unchanged { IfOk result (λ d. HasCleanDisk (state S.Store d.conn)
            → IsUnchanged (state S.Store (unlimited conn)) (state S.Store d.conn)) }
        ensures no_step_limit { IfOk result (λ d. (state S.Store d.conn).step_limit ≡ None) }
        ensures limit_off { IfErr result (λ u. (state S.Store u.conn).step_limit ≡ None) }
        ensures unfit { IfErr result (λ u. HasCleanDisk (state S.Store u.conn) → u.fault ≡ Fault.NotADesk
            → (s : Machine) → IsDeskOf S.Store conn s → ⊥) }
        ensures untouched { IfErr result (λ u. HasCleanDisk (state S.Store u.conn) → u.fault ≡ Fault.NotADesk
            → (state S.Store u.conn).now ≡ (state S.Store conn).now) }
        ensures sees_same { IfErr result (λ u. SeesTheSame S.Store conn u.conn) }
        ensures never_refuses { IfErr result (λ u. (r : AnyRefusal) → u.fault ≢ Fault.Refused r) }
        ensures output { IfErr result (λ u. u.fault ≢ Fault.Output) }
        ensures wants { IfErr result (λ u. WantsOnTables desk_schema S.Store conn u.fault) }
        ensures cause { IfErr result (λ u. IsNoDeviceIfFaultless S.Store conn u.conn u.fault) }
        ensures again { IfErr result (λ u. StaysADesk S.Store conn u.conn) }
        ensures autocommit { IfErr result (λ u. conn.in_transaction ≡ false → u.conn.in_transaction ≡ false) }
        ensures crash { IfOk result (λ d. Survives (state S.Store (unlimited conn)) (state S.Store d.conn)
            (λ _. ⊥)) }
        ensures crash_on_the_way { IfErr result (λ u. Survives (state S.Store (unlimited conn)) (state S.Store u.conn)
            (λ _. ⊥)) }
    {
        one_state_for_the_file();
        let mut conn = without_limit(conn);
        match read_desk(alloc, &mut conn) {
            Ok(summary) => Ok(Desk::over(alloc, conn, limits, summary)),
            Err(fault) => Err(Unmade { fault, conn }),
        }
    }

    /// The desk over this connection, with these counts and totals.
    pub(crate) fn over(
        alloc: Global,
        conn: Connection<S>,
        limits: Limits,
        summary: DeskSummary,
    ) -> Desk<S>
        requires autocommit { conn.in_transaction ≡ false }
        requires unlimited { conn.step_limit ≡ None }
        requires within { IsWithin limits }
        requires counts { (summary.batches ≤ summary.moves) × (summary.sentences ≤ 1000000)
            × (summary.moves ≤ 1000000000) }
        ensures { result ≡ record {
          conn = conn;
          limits = limits;
          batches = summary.batches;
          sentences = summary.sentences;
          moves = summary.moves;
          totals = summary.totals;
          in_doubt = false;
        } }
    {
        Desk {
            conn,
            alloc,
            limits,
            batches: summary.batches,
            sentences: summary.sentences,
            moves: summary.moves,
            totals: summary.totals,
            in_doubt: false,
        }
    }
}

impl<S: Alter> Desk<S> {
    /// The number, where a sentence has it.
    fn sentence_number(&self, number: u64) -> Option<u32>
        ensures stands { IfSome result (λ n. (n ≡ number) × (0 < n) × (n ≤ self.now.sentences)) }
        ensures lacks { result ≡ None → 0 < number → number ≤ self.now.sentences → ⊥ }
    {
        if number == 0 || number > u64::from(self.sentences) {
            return None;
        }
        Some(number as u32)
    }

    /// Whether the store is open. A fault of the device may have shut it; then every call fails. A store whose disk
    /// fails at the question is reported as shut.
    ///
    /// # Errors
    ///
    /// `Memory`: the store may be open or shut.
    pub fn is_open(&mut self) -> Result<bool, Fault>
        ensures open { TellsOpen S.Store self.new.conn result }
        ensures shut { TellsShut S.Store self.old.conn self.new.conn result }
        ensures known { IfErr result (λ e. e ≡ Fault.Memory) }
        ensures wants { TellsWant S.Store self.old.conn self.new.conn result }
        ensures settles { IfOk result (λ _. self.new.in_doubt ≡ false) }
        ensures doubt { IfErr result (λ _. self.new.in_doubt ≡ self.old.in_doubt) }
        ensures keeps_state { KeepsState S.Store self.old self.new }
        ensures crash { Survives (state S.Store self.old.conn) (state S.Store self.new.conn) (λ _. ⊥) }
        ensures limits { self.new.limits ≡ self.old.limits }
    {
        match wanting::is_open(&mut self.conn) {
            Ok(open) => {
                self.in_doubt = false;
                Ok(open)
            }
            Err(fault) => Err(fault),
        }
    }

    /// Whether a command failed and memory ran out at the question whether the store is open. Such a command is answered
    /// `Device`: the store may be shut, and the command committed. `is_open` settles it.
    pub fn is_in_doubt(&self) -> bool
        ensures { result ≡ self.now.in_doubt }
    {
        self.in_doubt
    }

    /// The totals of the six states: the sums over the sentences in each, and the net of the moves. Nothing is refused.
    pub fn totals(&mut self) -> Result<Totals, Fault>
        ensures answered { Gives S.Store self.old self.new result (λ s t. AreTotalsOf t s) }
        ensures net { Gives S.Store self.old self.new result (λ s t. AreNet t s.moves) }
        ensures never_refuses { (r : AnyRefusal) → result ≢ Err (Fault.Refused r) }
        ensures output { result ≢ Err Fault.Output }
        ensures question { IsQuestion S.Store self.old self.new result }
    {
        totals_are_nets();
        asking::totals(self.alloc, &mut self.conn)
    }

    /// All moves, in their order. Nothing is refused.
    pub fn moves(&mut self) -> Result<Vec<Move>, Fault>
        ensures answered { Gives S.Store self.old self.new result (λ s v. v.items ≡ s.moves) }
        ensures never_refuses { (r : AnyRefusal) → result ≢ Err (Fault.Refused r) }
        ensures output { result ≢ Err Fault.Output }
        ensures question { IsQuestion S.Store self.old self.new result }
    {
        all_moves(self.alloc, &mut self.conn)
    }

    /// The batches by number, each with its state, its worker and what is in it. Nothing is refused.
    pub fn batches(&mut self) -> Result<Vec<BatchLine>, Fault>
        ensures answered { Gives S.Store self.old self.new result (λ s v. v.items ≡ batch_lines s) }
        ensures never_refuses { (r : AnyRefusal) → result ≢ Err (Fault.Refused r) }
        ensures output { result ≢ Err Fault.Output }
        ensures question { IsQuestion S.Store self.old self.new result }
    {
        list_batches(self.alloc, &mut self.conn)
    }

    /// The current revision of the sentence with this number, from 1.
    ///
    /// # Errors
    ///
    /// `NoSuchSentence`.
    pub fn sentence(&mut self, number: u64) -> Result<Current, Fault>
        ensures answered { Gives S.Store self.old self.new result (λ s c.
            IsCurrent s number c.rev (string_bytes c.body)) }
        ensures refused { (s : Machine) → Represents S.Store self.old s
            → (result ≡ Err (Fault.Refused Refusal.NoSuchSentence)) ↔ HasNoSentence s number }
        ensures alone { (r : AnyRefusal) → result ≡ Err (Fault.Refused r) → r ≡ Refusal.NoSuchSentence }
        ensures unasked { (number ≡ 0) ⊎ (self.old.sentences < number) → self.new ≡ self.old }
        ensures output { result ≢ Err Fault.Output }
        ensures question { IsQuestion S.Store self.old self.new result }
    {
        let Some(number) = self.sentence_number(number) else {
            return Err(Fault::Refused(Refusal::NoSuchSentence));
        };
        asking::sentence(&mut self.conn, number)
    }

    /// The text of a revision of a sentence, both counted from 1.
    ///
    /// # Errors
    ///
    /// `NoSuchSentence`, `NoSuchRevision`; the first that holds.
    pub fn revision(&mut self, number: u64, rev: u64) -> Result<String, Fault>
        ensures answered { Gives S.Store self.old self.new result (λ s t.
            IsRevisionText s number rev (string_bytes t)) }
        ensures no_sentence { (s : Machine) → Represents S.Store self.old s → HasNoSentence s number
            → result ≡ Err (Fault.Refused Refusal.NoSuchSentence) }
        ensures unasked { (number ≡ 0) ⊎ (self.old.sentences < number) → self.new ≡ self.old }
        ensures refused { GivesOnErr S.Store self.old self.new result (λ s e. RefusesRevision s number rev e) }
        ensures output { result ≢ Err Fault.Output }
        ensures question { IsQuestion S.Store self.old self.new result }
    {
        let Some(number) = self.sentence_number(number) else {
            return Err(Fault::Refused(Refusal::NoSuchSentence));
        };
        asking::revision(&mut self.conn, number, rev)
    }

    /// The revisions of the sentence with this number, from 1, in their order, each with the move that made it. It reads no
    /// text of a revision.
    ///
    /// # Errors
    ///
    /// `NoSuchSentence`.
    pub fn revisions(&mut self, number: u64) -> Result<Vec<RevisionLine>, Fault>
        ensures answered { Gives S.Store self.old self.new result (λ s v. AreRevisions s number v.items) }
        ensures refused { (s : Machine) → Represents S.Store self.old s
            → (result ≡ Err (Fault.Refused Refusal.NoSuchSentence)) ↔ HasNoSentence s number }
        ensures alone { (r : AnyRefusal) → result ≡ Err (Fault.Refused r) → r ≡ Refusal.NoSuchSentence }
        ensures unasked { (number ≡ 0) ⊎ (self.old.sentences < number) → self.new ≡ self.old }
        ensures output { result ≢ Err Fault.Output }
        ensures question { IsQuestion S.Store self.old self.new result }
    {
        let Some(number) = self.sentence_number(number) else {
            return Err(Fault::Refused(Refusal::NoSuchSentence));
        };
        list_revisions(self.alloc, &mut self.conn, number)
    }

    /// The sentences of the batch with this name, pulled ones too, by number, each with its current revision. One text of a
    /// revision is in memory at a time.
    ///
    /// # Errors
    ///
    /// The first of `BadName`, `NoSuchBatch`.
    pub fn sentences(&mut self, name: &str) -> Result<Vec<SentenceLine>, Fault>
        ensures answered { Gives S.Store self.old self.new result (λ s v. AreSentences s name.now v.items) }
        ensures bad_name { is_name name.now ≡ false → result ≡ Err (Fault.Refused Refusal.BadName) }
        ensures unasked { is_name name.now ≡ false → self.new ≡ self.old }
        ensures refused { GivesOnErr S.Store self.old self.new result (λ s e. RefusesBatch s name.now e) }
        ensures output { result ≢ Err Fault.Output }
        ensures question { IsQuestion S.Store self.old self.new result }
    {
        asking::sentences(self.alloc, &mut self.conn, name)
    }
}

impl<S: Alter> Desk<S> {
    /// Gives the sentence with this number, from 1, a new revision, whose text is the body: the sentence of a CoNLL-U file of
    /// one. `base` is the number of the revision that was corrected. Sent again while its revision is current, it has the
    /// same reply, and changes nothing.
    ///
    /// # Errors
    ///
    /// `BadName`, `NoSuchSentence`; of one that is no repeat `WrongState`, `NotYours`, `OwnWork`, `Stale`; `Read`, `Rule`,
    /// `Empty`, `NotOne`; `SentIdChanged`, `TextChanged`, `NothingChanged`; `Full`. The first that holds.
    pub fn correct(
        &mut self,
        number: u64,
        base: u64,
        user: &str,
        body: &[u8],
    ) -> Result<Corrected, Fault>
        ensures ends { EndsAs S.Store self.old self.new result (correct_it number base user.now body.now) corrected_to }
        ensures output { result ≢ Err Fault.Output }
        ensures cause { BlamesInDoubtAlone S.Store self.old self.new result (λ s so.
            HasRoomIfWritten self.old.limits s (correct_it number base user.now body.now) body.now 1
            (state S.Store self.old.conn) → so) }
        ensures doubt { DoubtsOnDevice self.old self.new result }
        ensures remains { IsTrue self.old.in_doubt → IsTrue self.new.in_doubt }
        ensures missing { RefusesMissing S.Store self.old number result }
        ensures crash { CrashesWhole S.Store self.old self.new (correct_it number base user.now body.now) }
        ensures limits { self.new.limits ≡ self.old.limits }
    {
        let counts = self.counts();
        let Some(at) = self.sentence_number(number) else {
            return Err(tb_commands::no_correction(number, base, user, body));
        };
        match tb_commands::correct(self.alloc, &mut self.conn, &counts, at, base, user, body) {
            Ok((reply, Some(next))) => {
                self.moves += 1;
                self.totals = next;
                Ok(reply)
            }
            Ok((reply, None)) => Ok(reply),
            Err(fault) => Err(certain(&mut self.conn, &mut self.in_doubt, fault)),
        }
    }
}

impl<S: Alter> Desk<S> {
    /// What the desk knows without asking the database.
    fn counts(&self) -> Counters
        ensures { result ≡ counts_of self.now }
    {
        Counters {
            limits: self.limits,
            moves: self.moves,
            totals: self.totals,
        }
    }

    /// An event on the batch with this name.
    ///
    /// # Errors
    ///
    /// The first of `BadName`, `NoSuchBatch`; `WrongState`, `NotYours`, `OwnWork`; `Full`.
    pub fn event(&mut self, name: &str, event: Event, user: &str) -> Result<Moved, Fault>
        ensures ends { EndsAs S.Store self.old self.new result (event_on name.now event user.now) moved_on }
        ensures output { result ≢ Err Fault.Output }
        ensures cause { BlamesInDoubtAlone S.Store self.old self.new result (λ s so. so) }
        ensures doubt { DoubtsOnDevice self.old self.new result }
        ensures remains { IsTrue self.old.in_doubt → IsTrue self.new.in_doubt }
        ensures crash { CrashesWhole S.Store self.old self.new (event_on name.now event user.now) }
        ensures limits { self.new.limits ≡ self.old.limits }
    {
        let counts = self.counts();
        match tb_commands::event(self.alloc, &mut self.conn, &counts, name, event, user) {
            Ok((reply, sums)) => {
                self.moves += 1;
                self.totals = sums;
                Ok(reply)
            }
            Err(fault) => Err(certain(&mut self.conn, &mut self.in_doubt, fault)),
        }
    }

    /// Pulls the sentence with this number, from 1, out of its batch.
    ///
    /// # Errors
    ///
    /// The first of `BadName`, `NoSuchSentence`; `WrongState`, `Pulled`; `Full`.
    pub fn pull(&mut self, number: u64, user: &str) -> Result<Pulled, Fault>
        ensures ends { EndsAs S.Store self.old self.new result (pull_it number user.now) pulled_out }
        ensures output { result ≢ Err Fault.Output }
        ensures cause { BlamesInDoubtAlone S.Store self.old self.new result (λ s so. so) }
        ensures doubt { DoubtsOnDevice self.old self.new result }
        ensures remains { IsTrue self.old.in_doubt → IsTrue self.new.in_doubt }
        ensures missing { RefusesMissing S.Store self.old number result }
        ensures crash { CrashesWhole S.Store self.old self.new (pull_it number user.now) }
        ensures limits { self.new.limits ≡ self.old.limits }
    {
        let counts = self.counts();
        let Some(at) = self.sentence_number(number) else {
            return Err(tb_commands::no_pull(&counts, number, user));
        };
        match tb_commands::pull(self.alloc, &mut self.conn, &counts, at, user) {
            Ok((reply, totals)) => {
                self.moves += 1;
                self.totals = totals;
                Ok(reply)
            }
            Err(fault) => Err(certain(&mut self.conn, &mut self.in_doubt, fault)),
        }
    }

    /// Brings the pulled sentence with this number, from 1, back to its batch.
    ///
    /// # Errors
    ///
    /// The first of `BadName`, `NoSuchSentence`; `WrongState`, `NotPulled`; `Full`.
    pub fn restore(&mut self, number: u64, user: &str) -> Result<Restored, Fault>
        ensures ends { EndsAs S.Store self.old self.new result (restore_it number user.now) restored_to }
        ensures output { result ≢ Err Fault.Output }
        ensures cause { BlamesInDoubtAlone S.Store self.old self.new result (λ s so. so) }
        ensures doubt { DoubtsOnDevice self.old self.new result }
        ensures remains { IsTrue self.old.in_doubt → IsTrue self.new.in_doubt }
        ensures missing { RefusesMissing S.Store self.old number result }
        ensures crash { CrashesWhole S.Store self.old self.new (restore_it number user.now) }
        ensures limits { self.new.limits ≡ self.old.limits }
    {
        let counts = self.counts();
        let Some(at) = self.sentence_number(number) else {
            return Err(tb_commands::no_restore(&counts, number, user));
        };
        match tb_commands::restore(self.alloc, &mut self.conn, &counts, at, user) {
            Ok((reply, totals)) => {
                self.moves += 1;
                self.totals = totals;
                Ok(reply)
            }
            Err(fault) => Err(certain(&mut self.conn, &mut self.in_doubt, fault)),
        }
    }
}

impl<S: Alter> Desk<S> {
    /// What the desk knows without asking the database, as an import needs it.
    fn known(&self) -> ImportCounters
        ensures { result ≡ known_of self.now }
    {
        ImportCounters {
            counts: self.counts(),
            batches: self.batches,
            sentences: self.sentences,
        }
    }

    /// Imports a file of CoNLL-U, whose sentences become a new batch with this name. Sent again, by anyone and at any later
    /// time, it has the same reply, and changes nothing: it is known by the first revisions of the batch's sentences.
    ///
    /// # Errors
    ///
    /// `BadName`, of the batch's name or the user's; of an import that is no repeat `Read`, `Rule`, `Empty`; `NameTaken`;
    /// `SentIdTaken`, with the place in the file, from 1, of the first such sentence; `Full`. The first that holds.
    pub fn import(&mut self, name: &str, user: &str, body: &[u8]) -> Result<Imported, Fault>
        ensures ends { EndsAs S.Store self.old self.new result (import_file name.now user.now body.now) imported }
        ensures output { result ≢ Err Fault.Output }
        ensures cause { BlamesInDoubtAlone S.Store self.old self.new result (λ s so.
            HasRoomIfWritten self.old.limits s (import_file name.now user.now body.now) body.now
            (length body.now) (state S.Store self.old.conn) → so) }
        ensures doubt { DoubtsOnDevice self.old self.new result }
        ensures remains { IsTrue self.old.in_doubt → IsTrue self.new.in_doubt }
        ensures crash { CrashesWhole S.Store self.old self.new (import_file name.now user.now body.now) }
        ensures limits { self.new.limits ≡ self.old.limits }
    {
        let known = self.known();
        match tb_import::import(self.alloc, &mut self.conn, &known, name, user, body) {
            Ok((reply, Some(after))) => {
                self.batches += 1;
                self.sentences += reply.sentences as u32;
                self.moves += 1;
                self.totals = after;
                Ok(reply)
            }
            Ok((reply, None)) => Ok(reply),
            Err(why) => Err(certain(&mut self.conn, &mut self.in_doubt, why)),
        }
    }
}

/// Between two calls a crash leaves the whole tables of the desk's state, and nothing else.
pub fn left_by_a_crash<S: Alter>(_desk: &Desk<S>)
    ensures { (s : Machine) → Represents S.Store _desk.now s → LeavesOnly S.Store _desk.now s }
{}
