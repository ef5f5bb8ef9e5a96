//! What the host gives to a desk: its file, the log beside it, time, and the standard streams; and the causes with which
//! a program refuses.
//!
//! Read `causes.rt` first: each cause is a variant there, with its sentence. Then read `files.rt`, which opens, makes and
//! migrates the desk of a file. `looking.rt` decides before, by the file's own bytes. `misfit.rt` finds the row that is
//! wrong.
//!
//! `place.rt` says whether a served file is still in its place. `patience.rt` limits the time of clients, and `turns.rt`
//! waits for a file. `streams.rt` has the standard streams. `wrong.rt` finds the wrong word of a command line.
//! `diagnostics.rt` has what standard error says of all that.
//!
//! `system.rt` and `links.rt` have what the system and a connection answer, and no more. What is made of the answers is
//! proved over any of them.
#![tactic(auto)]

mod causes;
mod contents;
mod diagnostics;
pub mod files;
mod found;
mod links;
mod logs;
mod looking;
mod misfit;
mod patience;
mod place;
mod streams;
mod system;
mod turns;
mod wrong;

pub use causes::{Cause, FileCause, Form, PortCause, StreamCause};
pub use diagnostics::{Diagnostic, Outcome, wants_words};
pub use misfit::{Misfit, Table};
pub use patience::{Answer, Patient, REQUEST, left_after};
pub use place::{Place, has_changed};
pub use streams::{Heard, Held, Typed};
pub use wrong::{wrong_value, wrong_word};
