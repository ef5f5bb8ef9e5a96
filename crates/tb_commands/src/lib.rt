//! Does four commands of a desk over a connection: events, corrections, pulls and restores.
//!
//! Each command reads what it names, judges it by tb_core, and writes one transaction. Afterwards the tables
//! represent the next state of the machine. Read `event` in `stepping.rt` first, which is the shortest of the four.
//! tb_import has the import.
#![tactic(auto)]

mod committing;
mod correcting;
mod finding;
mod pulling;
mod stepping;
mod working;

pub use correcting::{correct, no_correction};
pub use finding::{BatchRead, SentenceRead, find_batch, find_sentence};
pub use pulling::{no_pull, no_restore, pull, restore};
pub use stepping::event;
