//! The seven tables of a desk's SQLite file: their schema, and the statements and transactions that write them.
//!
//! Each contract says what happens to lists of records. A command writes its records, one move and the totals of the
//! states that the move leaves and reaches, and commits last. After an error, or a crash before the commit, the
//! tables have the old records. Here states and kinds are numbers: the caller knows which commands are allowed. Read
//! `specs/Layout.antt` and `specs/Records.antt` first, and then `write_event`.
#![tactic(auto)]

mod correcting;
mod creation;
mod importing;
mod insert;
mod layout;
mod pulling;
mod recording;
mod rows;
mod stepping;
mod update;

pub use correcting::write_correction;
pub use creation::{create, is_blank, left_by_a_crash};
pub use importing::{NewSentenceRow, write_import};
pub use insert::{insert_batch, insert_move, insert_pulled, insert_revision, insert_sentence};
pub use layout::{desk_schema_is_listed, has_desk_schema, has_version_one_schema};
pub use pulling::{write_pull, write_restore};
pub use recording::MoveWrite;
pub use rows::{BatchRow, MoveRow, RevisionRow, RevisionWrite, SentenceRow, TotalRow};
pub use stepping::write_event;
pub use update::{delete_pulled, update_batch, update_sentence, update_total};
