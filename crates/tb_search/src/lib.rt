//! Walks over the text of a desk: exports, searches and counts, with one sentence in memory at a time.
//!
//! Read `search_released` in `search.rt` first. All walks go through `visit_picked` in `walk.rt`, which hands each
//! sentence to a visitor.
#![tactic(auto)]

mod copy_text;
mod count_hits;
mod count_keys;
mod export;
mod picks;
mod released;
mod search;
mod searcher;
mod stopped;
mod visitor;
mod walk;
mod write_kwic;

pub use export::{export_numbered, export_released};
pub use search::{count_released, number_released, one_list_is_found, search_released};
pub use stopped::Stopped;
