//! Reads the tables of a desk: whole tables in the order of their keys, single records, and one row at a time.
//!
//! The contract of each read says which records it returns. Read `whole.rt` first, which reads whole tables. A read of
//! one row at a time is in `stream.rt` and `cursor.rt`, and borrows the connection meanwhile.
#![tactic(auto)]

mod cursor;
mod error;
mod fetch;
mod records;
mod single;
mod stream;
mod texts;
mod whole;
mod work;

pub use cursor::{Body, bodies, next_body};
pub use error::ReadError;
pub use records::{batches_in, moves_in, revisions_in, sentences_in, totals_in};
pub use single::{batch, batch_named, is_pulled, revision, sentence, sentence_named};
pub use stream::{CurrentRev, heads};
pub use whole::{batches, moves, pulled, revisions, sentences, totals, versions};
pub use work::{BatchSentence, sentences_of};
