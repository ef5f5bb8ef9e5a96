//! Opens a file as a desk: reads all tables and tests whether their rows are those of a state that accepted commands
//! reach. It also makes a desk of a file of version 1.
//!
//! Read `desk.rt` first, then `summary.rt`. Version 1 is in `version1_desk.rt`.
#![tactic(auto)]

mod apart;
mod body;
mod course;
mod desk;
mod entries;
mod entry;
mod faults;
mod laws;
mod machine;
mod reading;
mod summary;
mod totals;
mod unfit;
mod upgrading;
mod version1_desk;
mod version1_reading;
mod version1_summary;

pub use desk::read_desk;
pub use entries::entries_in;
pub use entry::entry_in;
pub use summary::DeskSummary;
pub use unfit::Unfit;
pub use upgrading::upgrade;
pub use version1_desk::{left_by_a_crash, migrate};
