//! Answers the calls of a desk as texts, for the command line and over HTTP.
//!
//! Read `answer` first, which serves one request, and then `run_line_reported`, which does one command line. Their
//! contracts cite `specs/Served.antt` and `specs/Ran.antt`. `view` gives the lists of `deskview`.
#![tactic(auto)]

mod answering;
mod asks;
mod bodies;
mod calls;
mod commands;
mod counts;
mod ending;
mod exports;
mod finding;
mod laws;
mod lines;
mod listed;
mod numbered;
mod output;
mod questions;
mod responding;
mod responses;
mod running;
mod searches;
mod views;
mod written;

pub use answering::{Broken, answer, answer_all, outcome};
pub use bodies::{ask, moves, revision, sentence, totals};
pub use calls::{DeskCall, DeskCommand};
pub use commands::{correct, event, import, pull, reply_for_fault, restore};
pub use counts::{respond_count, run_count};
pub use ending::Ending;
pub use exports::{respond_export, run_export};
pub use finding::{Count, Search};
pub use laws::{
    requests_crash_to_an_end, requests_in_memory_lead_on, requests_lead_on,
    the_check_counts_what_is_taken,
};
pub use lines::{read_body, run_line, run_line_from, run_line_reported};
pub use numbered::numbered_sentences;
pub use output::{put_body, put_reply, put_text};
pub use questions::{Body, Question};
pub use responding::respond_call;
pub use responses::{put_response, respond_body, respond_reply};
pub use running::{obey, run_call};
pub use searches::{respond_search, run_search};
pub use views::{view, view_batches, view_found};
pub use written::{Ran, Written};
