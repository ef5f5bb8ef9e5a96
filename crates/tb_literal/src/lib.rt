//! Prepares one literal of a query, and tests which values it fits.
//!
//! A literal is a pattern in the syntax of Rust's `regex` crate that has to match the whole value, as in the query
//! language of the Corpus Query Processor (CQP). With `%l` it is the value's own text. Read `specs/Literals.antt`
//! first, and then `LiteralMatcher`.
#![tactic(auto)]

mod cutting;
mod law;
mod matcher;
mod pattern;

pub use law::a_literal_is_accepted_or_refused;
pub use matcher::{LiteralCache, LiteralMatcher};
pub use pattern::PatternFault;
