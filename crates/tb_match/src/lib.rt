//! Finds where a pattern over the words of a sentence matches: exactly the hits that are defined, in bounded work.
//!
//! Read `specs/Match.antt` and `specs/Hits.antt` first, which define matches and hits. Then read `find` in
//! `finding.rt`.
#![tactic(auto)]

mod bounded;
mod bounds;
mod doubling;
mod finding;
mod hits;
mod narrow;
mod pattern;
mod possible;
mod relation;
mod shape;
mod step;
mod strategy;
mod table;
mod token;
mod truth;
mod uniting;
mod walk;
mod weights;

pub use finding::{Found, find, hits_are_one_list};
pub use pattern::Pat;
pub use strategy::Strategy;
pub use truth::Truth;
pub use uniting::unite;
pub use weights::{fits, weight, what_fits_is_a_pattern};
