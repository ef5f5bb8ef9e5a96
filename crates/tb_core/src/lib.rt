//! The state machine of the desk: batches, sentences and moves, the answer to each command, and what every state
//! keeps.
//!
//! Read `specs/Machine.antt` first, which has the state, and then `specs/Steps.antt`, which has the commands. The
//! functions `judge_*` decide how a command ends, by what was read of the desk. Nothing here reads a store. Only the
//! bodies of imports and corrections take memory.
#![tactic(auto)]

mod bodyfault;
mod correcting;
mod correction;
mod deciding;
mod events;
mod importing;
mod judged;
mod kinds;
mod laws;
mod limits;
mod moves;
mod pulling;
mod refusals;
mod replies;
mod room;
mod sameness;
mod sums;
mod taking;

pub use correcting::{CurrentFound, judge_correction_before, judge_correction_body};
pub use correction::{take_one, take_one_ref};
pub use deciding::{
    correctable, decide_correct, decide_event, decide_pull, decide_restore, good_name,
};
pub use events::{BatchFound, judge_event};
pub use importing::{NameFound, judge_import_after, judge_import_before, judge_import_body};
pub use judged::Judged;
pub use kinds::{Event, Kind, State, Worker};
pub use laws::{
    commands_lead_on, commands_stay_within_limits, corrections_repeat, each_command_ends,
    each_command_ends_one_way, each_sentence_is_in_one_state, imports_repeat, later_states_extend,
    reached_states_are_well, revisions_read_back, rows_tell_the_state, stored_totals_hold,
    stored_totals_take_moves, totals_are_nets,
};
pub use limits::Limits;
pub use moves::Move;
pub use pulling::{SentenceFound, judge_pull, judge_restore};
pub use refusals::{Fault, Refusal};
pub use replies::{Corrected, Imported, Moved, Pulled, Restored};
pub use sums::Totals;
pub use taking::{NewSentence, take_file, take_file_ref};
