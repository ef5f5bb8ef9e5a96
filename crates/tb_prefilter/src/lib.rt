//! The prefilter of a search: bytes that the text of a sentence needs to have for a hit.
//!
//! A search passes over a text without them, before it is cut into rows. Read `specs/Needed.antt` first. Callers use
//! `PrefilteredSearcher`.
#![tactic(auto)]

mod gathering;
mod laws;
mod needing;
mod prefilter;
mod searcher;

pub use laws::{
    a_feature_is_in_its_row, a_hit_has_what_it_needs, a_value_is_between_tabs, no_needle_no_hit,
};
pub use needing::is_needed;
pub use prefilter::{may_hit, needles_of};
pub use searcher::PrefilteredSearcher;
