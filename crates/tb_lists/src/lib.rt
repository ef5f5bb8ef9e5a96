//! Lists what a desk holds, and writes the lists as CSV: its batches, each with its state, its worker and its counts, the
//! sentences of a batch, and the revisions of a sentence. It also finds a sentence by its `sent_id`.
//!
//! Read `list_batches` in `reading.rt` first, and then `specs/Batches.antt`, which defines the list.
#![tactic(auto)]

mod batches;
mod counting;
mod csvs;
mod current;
mod finding;
mod found;
mod laws;
mod reading;
mod revisions;
mod sentences;

pub use batches::BatchLine;
pub use finding::find_sentence;
pub use found::FoundLine;
pub use laws::batches_add_up;
pub use reading::{list_batches, list_revisions, list_sentences};
pub use revisions::RevisionLine;
pub use sentences::SentenceLine;
