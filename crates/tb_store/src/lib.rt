//! The desk over one SQLite connection. Its tables are those of a state of the desk machine, before and after each
//! call.
//!
//! Read [`Desk`](crate::desk::Desk) first: it is made on an empty database, adopted from a file, or made in memory.
//! All types that a caller of a desk names are here, whichever crate defines them.
#![tactic(auto)]

mod answers;
mod asking;
mod desk;
mod exporting;
mod finding;
mod laws;
mod memory;
mod migrating;
mod reopening;
mod stopping;
mod wanting;

pub use answers::{Current, DeskCounts};
pub use desk::{Desk, Unmade, left_by_a_crash, stopped_in_a_command};
pub use laws::{commands_in_memory_blame_in_doubt_alone, questions_in_memory_blame_no_device};
pub use reopening::left_to_the_next_run;
pub use tb_core::{
    Corrected, Event, Fault, Imported, Kind, Limits, Move, Moved, Pulled, Refusal, Restored, State,
    Totals, Worker, commands_lead_on, corrections_repeat, each_command_ends,
    each_command_ends_one_way, each_sentence_is_in_one_state, imports_repeat, later_states_extend,
    reached_states_are_well, totals_are_nets,
};
pub use tb_lists::{BatchLine, FoundLine, RevisionLine, SentenceLine, batches_add_up};
pub use tb_query::{Attr, Query, QueryFault, Strategy, parse};
pub use tb_report::Freq;
