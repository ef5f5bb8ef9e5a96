//! Reads the words of a command line into a `Line`, by clap. Those of `deskview` become a `ViewLine`.
//!
//! Read `Line` in `lines.rt` first, and then `specs/Lines.antt`, which says which words are which line. `tree.rt`
//! declares the commands, and `arguments.rt` what they take. For `deskview` these are in `specs/View.antt` and `view_tree.rt`.
#![tactic(auto)]

mod abouts;
mod arguments;
mod endings;
mod help;
mod hints;
mod lines;
mod reading;
mod tree;
mod values;
mod verbs;
mod view;
mod view_abouts;
mod view_endings;
mod view_help;
mod view_tree;
mod view_verbs;

pub use lines::{Line, LineFault, ViewLine, ViewList};
