//! What a desk answers of released text, and the export of a batch.

ghost use Rattle.std.specs.Prelude.{◌≡◌, ◌≢◌, ℕ, List, length, false, Err, Some};
ghost use Rattle.tb_store.specs.Prelude.{answer, AnyRefusal, Appends, current_text, HasCleanDisk};
ghost use Rattle.tb_store.specs.Prelude.{HasNumber, HasReason, in_batch, is_name, IsTableOf, keys, Machine, Occurrence};
ghost use Rattle.tb_store.specs.Prelude.{released, state};
ghost use Rattle.tb_store.specs.Calls.{Does, Gives, GivesOnErr};
ghost use Rattle.tb_store.specs.Exports.{IsExportBrokenOff, IsPartOfBatch, RefusesBatch};
ghost use Rattle.tb_store.specs.Found.{AreReleasedHits, HasTooMany, IsNumber, IsPartFound};
ghost use Rattle.tb_store.specs.Questions.{IsQuestion};
ghost use Rattle.tb_store.specs.Represents.{Represents};

use crate::desk::Desk;
use crate::exporting;
use crate::finding::within;
use crate::stopping::reported_walk;
use sqlite::Alter;
use tb_conllu::Sink;
use tb_core::{Fault, Refusal};
use tb_match::Strategy;
use tb_query::{Attr, Query};
use tb_report::Freq;
use tb_search::{count_released, export_released, number_released, search_released};

impl<S: Alter> Desk<S> {
    /// Puts the text of all released sentences, by number: the current revision of each, as it is stored. One sentence is in
    /// memory at a time, and two numbers of each. Nothing is refused.
    ///
    /// # Errors
    ///
    /// `Output`, where the sink refuses a piece: it may then hold a first part of the text. After any other fault it holds whole
    /// sentences.
    pub fn export_released<W: Sink>(&mut self, out: &mut W) -> Result<(), Fault>
        ensures put { Does S.Store self.old self.new result (λ s. Appends (W.held out.old) (W.held out.new)
            (current_text (released s))) }
        ensures part { GivesOnErr S.Store self.old self.new result (λ s e. IsExportBrokenOff e (W.held out.old)
            (W.held out.new) (released s)) }
        ensures never_refuses { (r : AnyRefusal) → result ≢ Err (Fault.Refused r) }
        ensures output { result ≡ Err Fault.Output → HasReason (W.IsRefusal out.new) }
        ensures question { IsQuestion S.Store self.old self.new result }
    {
        reported_walk(export_released(self.alloc, &mut self.conn, out))
    }

    /// Puts the text of all sentences of the batch with this name, pulled ones too, as `export_released` does.
    ///
    /// # Errors
    ///
    /// The first of `BadName`, `NoSuchBatch`; `Output`, as in `export_released`.
    pub fn export_batch<W: Sink>(&mut self, name: &str, out: &mut W) -> Result<(), Fault>
        ensures put { Does S.Store self.old self.new result (λ s. (n : ℕ) × HasNumber s name.now (Some n)
            × Appends (W.held out.old) (W.held out.new) (current_text (in_batch s n))) }
        ensures part { GivesOnErr S.Store self.old self.new result (λ s e. IsPartOfBatch s name.now e (W.held out.old)
            (W.held out.new)) }
        ensures bad_name { is_name name.now ≡ false → result ≡ Err (Fault.Refused Refusal.BadName) }
        ensures unasked { is_name name.now ≡ false → self.new ≡ self.old }
        ensures refused { GivesOnErr S.Store self.old self.new result (λ s e. RefusesBatch s name.now e) }
        ensures output { result ≡ Err Fault.Output → HasReason (W.IsRefusal out.new) }
        ensures none { (r : AnyRefusal) → result ≡ Err (Fault.Refused r) → W.held out.new ≡ W.held out.old }
        ensures question { IsQuestion S.Store self.old self.new result }
    {
        exporting::batch(self.alloc, &mut self.conn, name, out)
    }

    /// How many hits the query has in released text: in the current revisions of the sentences that are released. One sentence
    /// is in memory at a time.
    ///
    /// # Errors
    ///
    /// `TooManyHits`, where the strategy is `Every` and there are more than `limits.hits`.
    pub fn number(&mut self, query: &Query, strategy: Strategy) -> Result<u64, Fault>
        ensures answered { Gives S.Store self.old self.new result (λ s n.
            IsNumber s query.now strategy self.old.limits.hits n) }
        ensures refused { HasCleanDisk (state S.Store self.new.conn) → (r : AnyRefusal)
            → result ≡ Err (Fault.Refused r) → (r ≡ Refusal.TooManyHits)
            × ((s : Machine) → Represents S.Store self.old s
            → HasTooMany s query.now strategy self.old.limits.hits) }
        ensures output { result ≢ Err Fault.Output }
        ensures question { IsQuestion S.Store self.old self.new result }
    {
        let walk = number_released(self.alloc, &mut self.conn, query, strategy);
        let number = reported_walk(walk)?;
        within(strategy, self.limits.hits, number)
    }

    /// Writes a keyword line for each hit of the query in released text, with `context` words on each side, then the line
    /// `hits N`. Returns how many hits there are.
    ///
    /// Sentences come by their numbers, and the hits of a sentence as the strategy lists them. One sentence is in memory at
    /// a time. Nothing is refused: `number` says whether the hits are within the limit.
    ///
    /// # Errors
    ///
    /// `Output`, where the sink refuses a piece: it may then hold a first part of the answer. After any other fault it holds
    /// whole keyword lines, those of the first hits.
    pub fn search<W: Sink>(
        &mut self,
        query: &Query,
        strategy: Strategy,
        context: u8,
        out: &mut W,
    ) -> Result<u64, Fault>
        ensures answered { Gives S.Store self.old self.new result (λ s n. (found : List Occurrence)
            × AreReleasedHits s query.now strategy found × (n ≡ length found)
            × Appends (W.held out.old) (W.held out.new) (answer context found)) }
        ensures broken { GivesOnErr S.Store self.old self.new result (λ s e. (found : List Occurrence)
            → AreReleasedHits s query.now strategy found
            → IsPartFound e (W.held out.old) (W.held out.new) context found) }
        ensures never_refuses { (r : AnyRefusal) → result ≢ Err (Fault.Refused r) }
        ensures output { result ≡ Err Fault.Output → HasReason (W.IsRefusal out.new) }
        ensures question { IsQuestion S.Store self.old self.new result }
    {
        let walk = search_released(self.alloc, &mut self.conn, query, strategy, context, out);
        reported_walk(walk)
    }

    /// The frequency table of the hits of the query in released text, by their values in one column.
    ///
    /// One sentence is in memory at a time, beside the table. Nothing is refused: `number` says whether the hits are within
    /// the limit.
    pub fn count(&mut self, query: &Query, strategy: Strategy, column: Attr) -> Result<Freq, Fault>
        ensures answered { Gives S.Store self.old self.new result (λ s table. (found : List Occurrence)
            × AreReleasedHits s query.now strategy found × IsTableOf (keys column found) table) }
        ensures never_refuses { (r : AnyRefusal) → result ≢ Err (Fault.Refused r) }
        ensures output { result ≢ Err Fault.Output }
        ensures question { IsQuestion S.Store self.old self.new result }
    {
        let walk = count_released(self.alloc, &mut self.conn, query, strategy, column);
        reported_walk(walk)
    }
}
