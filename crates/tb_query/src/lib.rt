//! Queries: what a text asks of sentences, and what it finds in them.
//!
//! The language is a part of that of the Corpus Query Processor (CQP). Its patterns are those of Rust's `regex`
//! crate. Read [`parse`](crate::reading::parse) first, which reads a text. [`Query::hits`](crate::query::Query::hits)
//! searches one sentence, and one [`Searcher`](crate::searcher::Searcher) searches many. Callers need no other crate
//! for the names that a query uses: they are all here.
#![tactic(auto)]

mod attaching;
mod expr;
mod fault;
mod filling;
mod laws;
mod prepared;
mod query;
mod reading;
mod searcher;

pub use expr::Expr;
pub use fault::QueryFault;
pub use laws::{
    a_query_has_no_fault, a_text_asks_one_thing, a_text_has_one_fault, a_text_has_one_reading,
    each_text_is_reported, literals_are_in_order,
};
pub use prepared::value_of;
pub use query::Query;
pub use reading::parse;
pub use searcher::Searcher;
pub use tb_literal::LiteralMatcher;
pub use tb_match::{Found, Pat, Strategy, Truth};
pub use tb_syntax::{Attr, Flag};
