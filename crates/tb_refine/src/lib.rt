//! The refinement: which records of the tables represent a state of the machine, and what each command makes of them.
//!
//! Read `specs/DeskTables.antt` first, which relates tables and states, and then the laws in `laws.rt`. The rest is
//! what commands and questions share: the counts that a desk keeps in memory, the next move, the totals, names and
//! faults; rows by their numbers, moves, and the sentences that are pulled or of a batch.
#![tactic(auto)]

mod counters;
pub mod faults;
mod laws;
mod moving;
mod numbers;
mod preparing;
mod reading;
mod recording;
mod totals;

pub use counters::{Counters, next_move};
pub use laws::{
    corrections_are_stored, desk_rows_are_readable, desk_rows_fit, events_are_stored,
    imports_are_stored, one_list_for_the_rows, one_state_for_the_file, one_state_for_the_rows,
    pulls_are_stored, records_determine_the_state, restores_are_stored,
};
pub use moving::read_moves;
pub use numbers::{
    kind_numbered, number_before, number_of_kind, number_of_state, state_before, state_numbered,
};
pub use preparing::{PreparedMove, prepare};
pub use reading::{
    all_moves, batch_number, batch_row, is_among, is_pulled, is_taken, read_pulled, read_work,
    revision_row, sentence_number, sentence_row,
};
pub use recording::{narrow, record};
pub use totals::stored_totals;
