//! What a page asks of a desk: how much there is, and the sentence that has a `sent_id`.

ghost use Rattle.std.specs.Prelude.{◌≡◌, ◌≢◌, Err};
ghost use Rattle.tb_store.specs.Prelude.{AnyRefusal, IsFound, Machine};
ghost use Rattle.tb_store.specs.Answers.{RefusesId, counts_in};
ghost use Rattle.tb_store.specs.Calls.{Gives, GivesOnErr};
ghost use Rattle.tb_store.specs.Questions.{IsQuestion};
ghost use Rattle.tb_store.specs.Represents.{Represents};

use crate::answers::DeskCounts;
use crate::asking;
use crate::desk::Desk;
use sqlite::Alter;
use tb_core::{Fault, Refusal};
use tb_lists::FoundLine;

impl<S: Alter> Desk<S> {
    /// How many batches, sentences and moves there are. It asks nothing of the database.
    pub fn row_counts(&self) -> DeskCounts
        ensures { (s : Machine) → Represents S.Store self.now s → result ≡ counts_in s }
    {
        DeskCounts {
            batches: u64::from(self.batches),
            sentences: u64::from(self.sentences),
            moves: u64::from(self.moves),
        }
    }

    /// The sentence with this `sent_id`, pulled or not: its number, the name of its batch and its current revision. It reads
    /// no text of a revision.
    ///
    /// # Errors
    ///
    /// `NoSuchSentence`, where no sentence has it.
    pub fn find(&mut self, sent_id: &str) -> Result<FoundLine, Fault>
        ensures answered { Gives S.Store self.old self.new result (λ s line. IsFound s sent_id.now line) }
        ensures refused { GivesOnErr S.Store self.old self.new result (λ s e. RefusesId s sent_id.now e) }
        ensures alone { (r : AnyRefusal) → result ≡ Err (Fault.Refused r) → r ≡ Refusal.NoSuchSentence }
        ensures output { result ≢ Err Fault.Output }
        ensures question { IsQuestion S.Store self.old self.new result }
    {
        asking::found(&mut self.conn, sent_id)
    }
}
