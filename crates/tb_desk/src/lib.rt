//! The front door of the desk: it answers requests over HTTP and command lines, and runs the whole program. Read
//! `words.rt` first, with `run_words`, then `running.rt` and `serving.rt`. `specs/Lines.antt` says how a command line ends.
//!
//! `answer` does what the bytes of one request over HTTP ask, and `answer_all` what a list of requests asks. A `Line`
//! is read from the words of a command line, and `run_line` does it on a desk. `run_check` checks a file. `run_words`
//! is the whole program: it does what the words ask on a file or in memory, or serves the desk over HTTP. `run_view` does
//! what the words of `deskview` ask. `run_called` gives the one that is called its words and its standard streams. Files,
//! streams and the causes of refusals are in tb_host.
//!
//! `requests_lead_on`, `requests_in_memory_lead_on` and `the_check_counts_what_is_taken` are laws: proved facts that
//! link these answers.
#![tactic(auto)]

mod arriving;
mod called;
mod callers;
mod checking;
mod clients;
mod counting;
mod drawing;
mod exchanges;
mod explaining;
mod faults;
mod keeping;
mod leaving;
mod memory;
mod nothing;
mod programs;
mod ranges;
mod running;
mod service;
mod serving;
mod sockets;
mod targets;
mod viewing;
mod waiting;
mod words;

pub use called::run_called;
pub use keeping::Keeper;
pub use programs::{Program, given_words};
pub use tb_answer::{
    Broken, answer, answer_all, read_body, requests_in_memory_lead_on, requests_lead_on, run_line,
    run_line_from, the_check_counts_what_is_taken, view,
};
pub use tb_check::run_check;
pub use tb_cli::{Line, LineFault, ViewLine, ViewList};
pub use tb_host::{
    Cause, Diagnostic, FileCause, Form, Misfit, Outcome, PortCause, StreamCause, Table, wants_words,
};
pub use tb_http::{Reply, Routes, Status};
pub use tb_page::{answer_with_page, no_path_of_the_page_is_the_desks, one_visit_is_asked};
pub use tb_store::Desk;
pub use viewing::{DESKVIEW, Deskview, run_view};
pub use words::{TREEDESK, Treedesk, run_words, run_words_reported};
