//! Checks a CoNLL-U file, over any reader and any writer, and finds every fault of one.
//!
//! Read `run_check` first, and then `specs/Check.antt`, which says what a check answers. `faults_of` finds every fault,
//! and `specs/Faults.antt` says what these are.
#![tactic(auto)]

mod check;
mod fault;
mod finding;
mod input;
mod laws;
mod output;
mod reply;
mod words;

pub use check::{
    FILE_LIMIT, Survey, check_bytes, check_file, check_input, check_within, run_check, survey_file,
};
pub use fault::Fault;
pub use finding::faults_of;
pub use input::{Input, read_all};
pub use laws::{
    one_reply_is_true, the_first_fault_is_reported, the_reply_to_what_is_taken_is_true,
    valid_sentences_are_counted,
};
pub use output::put_reply;
pub use reply::CheckReply;
pub use words::is_check;
