//! Laws of the records. Each function states a fact about the definitions, and runs nothing.
//!
//! Where the tables store a reached state, they store the next state after an accepted command wrote its changes.

ghost use Rattle.std.specs.Prelude.{◌≡◌, ◌↔◌, ◌+◌, ◌-◌, ℕ, List, Some, true, slice_get, Contains};
ghost use Rattle.tb_refine.specs.Prelude.{after, AreStored, BlockText, correcting, Event, importing, IsAllowed};
ghost use Rattle.tb_refine.specs.Prelude.{IsReachable, Machine, pulling, Reached, restoring, rev};
ghost use Rattle.tb_refine.specs.Prelude.{Batch as StandingBatch, Sentence as StandingSentence, AnyState as State};
ghost use Rattle.tb_refine.specs.Prelude.{stepping, Tables, Total, Trees};
ghost use Rattle.tb_tables.specs.Records.{Batch, Sentence, Revision};
ghost use Rattle.tb_refine.specs.Fitting.{IsFitting, IsReadable};
ghost use Rattle.tb_refine.specs.Numbers.{state_number};
ghost use Rattle.tb_refine.specs.DeskTables.{tables_of, batch_record, sentence_record, total_record};
ghost use Rattle.tb_refine.specs.Found.{IsSame, IsRevisionOf, revision_shown_as};
ghost use Rattle.tb_refine.specs.Written.{import_written, event_written, correction_written, pull_written};
ghost use Rattle.tb_refine.specs.Written.{StoresAct, restore_written};

use tb_core::rows_tell_the_state;

/// An event: the row of its batch has the state that is left.
pub fn events_are_stored()
    ensures { (s : Machine) (place : ℕ) (event : Event) (user : List ℕ) → Reached s
        → IsAllowed s (stepping place event user) → (b : Batch) → slice_get (tables_of s).batches place ≡ Some b
        → (from : State) → b.state ≡ state_number from → (trees : Trees)
        → AreStored (event_written s place event user b from) trees
        → AreStored (tables_of (after s (stepping place event user))) trees }
{}

/// An import: it leaves no state, so the total for the state that is left may be any.
pub fn imports_are_stored()
    ensures { (s : Machine) (name user : List ℕ) (bodies : List BlockText) → Reached s
        → IsAllowed s (importing name user bodies) → (unused : Total) (trees : Trees)
        → AreStored (import_written s name user bodies unused) trees
        → AreStored (tables_of (after s (importing name user bodies))) trees }
{}

/// A correction: the row of the sentence has its revision, and that of its batch has the state.
pub fn corrections_are_stored()
    ensures { (s : Machine) (place : ℕ) (user : List ℕ) (body : BlockText) → Reached s
        → IsAllowed s (correcting place user body) → (x : Sentence) → slice_get (tables_of s).sentences place
        ≡ Some x → (b : Batch) → slice_get (tables_of s).batches (x.batch - 1) ≡ Some b → (st : State)
        → b.state ≡ state_number st → (trees : Trees)
        → AreStored (correction_written s place user body x st) trees
        → AreStored (tables_of (after s (correcting place user body))) trees }
{}

/// A pull: the row of the sentence has its batch, whose row has the state that is left.
pub fn pulls_are_stored()
    ensures { StoresAct pulling pull_written }
{}

/// A restore: the row of the sentence has its batch, whose row has the state that is reached.
pub fn restores_are_stored()
    ensures { StoresAct restoring restore_written }
{}

/// The records of a desk within the largest limits can be numbered by 31 bits. There are six totals, and each number of
/// a state, of a kind or of a sentence's batch means one.
pub fn desk_rows_fit()
    ensures { (s : Machine) → IsReachable s → IsFitting (tables_of s) }
{}

/// Each of its records can be read back: names, users, `sent_id`s and texts of sentences are UTF-8, and numbers have at
/// most 32 bits.
pub fn desk_rows_are_readable()
    ensures { (s : Machine) → IsReachable s → IsReadable (tables_of s) }
{}

/// The tables store at most one reached state.
pub fn one_state_for_the_rows()
    ensures { (s t : Machine) → Reached s → Reached t → tables_of s ≡ tables_of t → s ≡ t }
{
    rows_tell_the_state();
}

/// A file stores at most one reachable state. The order of its rows does not matter.
pub fn one_state_for_the_file()
    ensures { (s t : Machine) (trees : Trees) → IsReachable s → IsReachable t → AreStored (tables_of s) trees
        → AreStored (tables_of t) trees → s ≡ t }
{
    rows_tell_the_state();
}

/// The rows of a file show one list each of batches, sentences, moves and totals. They show the same revisions and
/// pulled numbers, in some order.
pub fn one_list_for_the_rows()
    ensures { (d e : Tables) (trees : Trees) → AreStored d trees → AreStored e trees → IsSame d e }
{}

/// What the records of a state say: which batch or sentence each is, and whether a sentence is pulled. Also which
/// revision is at which place, and the total of a state.
pub fn records_determine_the_state()
    ensures batches { (s : Machine) (place : ℕ) (b : Batch) → slice_get (tables_of s).batches place ≡ Some b
        → (y : StandingBatch) × (slice_get s.batches place ≡ Some y) × (b ≡ batch_record y) }
    ensures sentences { (s : Machine) (place : ℕ) (x : Sentence) → slice_get (tables_of s).sentences place
        ≡ Some x → (y : StandingSentence) × (slice_get s.sentences place ≡ Some y) × (x ≡ sentence_record y) }
    ensures pulled { (s : Machine) (place : ℕ) (y : StandingSentence) → slice_get s.sentences place ≡ Some y
        → (y.pulled ≡ true) ↔ Contains (tables_of s).pulled (place + 1) }
    ensures revisions { (s : Machine) (r : Revision) → Contains (tables_of s).revisions r ↔ IsRevisionOf s r }
    ensures current { (s : Machine) (place : ℕ) (y : StandingSentence) (r : Revision)
        → slice_get s.sentences place ≡ Some y → Contains (tables_of s).revisions r → r.sent ≡ place + 1
        → r.rev ≡ rev y → r ≡ revision_shown_as (place + 1) (rev y) y.current }
    ensures totals { (s : Machine) (st : State) → slice_get (tables_of s).totals (state_number st - 1)
        ≡ Some (total_record s st) }
{}
