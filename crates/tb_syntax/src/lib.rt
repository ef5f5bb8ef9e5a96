//! The syntax of queries: lexemes, grammar, limits, the first fault of a text, and what a query says.
//!
//! The language is a part of that of the Corpus Query Processor (CQP): token expressions between brackets, bare
//! literals, round parentheses, alternatives and repetitions. Read `specs/Grammar.antt` first, and then `parse`.
#![tactic(auto)]

mod asking;
mod cursor;
mod expr;
mod fault;
mod law;
mod lexeme;
mod lexing;
mod limits;
mod lone;
mod parsing;
mod reading;
mod scanning;
mod spelling;
mod tree;
mod unquoting;

pub use expr::{Expr, Literal};
pub use fault::Fault;
pub use law::{
    each_text_has_lexemes, each_text_is_reported, lexemes_are_a_query_or_wrong,
    literals_are_quoted, one_fault, one_lexing, one_reading, one_saying, one_unquoting,
    what_is_said_can_be_searched, what_says_something_has_no_fault,
};
pub use lexeme::{Attr, Flag, Lexeme};
pub use lexing::{Lexed, Span};
pub use limits::{count_expressions, nests_within, repeats_within};
pub use parsing::Parsed;
pub use reading::{Query, parse, read};
pub use scanning::scan;
pub use spelling::column;
