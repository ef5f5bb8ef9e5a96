//! The files of the page as constants, and the page of trees that is made of them.
//!
//! The folder page/ has the files. `tools/page --write` writes each as a constant of a module of its own. Read
//! `trees_page` in `trees.rt`, and `specs/Trees.antt`, which says what a page of trees is.
#![tactic(auto)]

mod files;
mod laws;
mod parts;
mod trees;

pub use files::{
    CONLLU_JS, DESK_JS, EDIT_JS, FIND_JS, INDEX_HTML, PAGE_CSS, PAGE_JS, ROWS_JS, TREE_JS,
};
pub use laws::{pages_of_trees_are_html, sentences_begin_no_tag};
pub use trees::trees_page;
