//! Replays the moves of a desk: decides whether the rows of a file are those of a state that commands reach.
//!
//! Read `replays` in `replaying.rt` first, and then the law `replay_is_exact`, which says that its answer is exact.
#![tactic(auto)]

mod allowing;
mod kept;
mod laws;
mod replaying;
mod rows;
mod totals;

pub use laws::{
    acts_are_accepted_commands, commands_do_acts, commands_lead_to_reached_states,
    reached_states_are_fine, replay_is_exact,
};
pub use replaying::replays;
pub use rows::{BatchRow, Revision, SentenceSummary};
pub use totals::totals_of;
