//! The programs `treedesk` and `deskview`, in one file with two names: `main` hands its words and the standard streams to
//! tb_desk.
//!
//! Read `run_called` in tb_desk next, then `Treedesk` and `Deskview`.
#![tactic(auto)]

use std::process::ExitCode;
use tb_desk::{given_words, run_called};

fn main(rt: HostRuntime) -> ExitCode {
    run_called(&rt, given_words(&rt))
}
