//! Does an import over one SQLite connection, in one transaction.
//!
//! Read `import` in `importing.rt` first. It looks for the name of the batch, judges the sentences by tb_core, plans
//! the rows, and writes them. `specs/Planned.antt` says what it writes.
#![tactic(auto)]

mod again;
mod committing;
mod counters;
mod firsts;
mod importing;
mod naming;
mod new_sentences;
mod planning;
mod words;

pub use counters::ImportCounters;
pub use importing::import;
