//! What each command does, as the list of commands shows it.

pub(crate) const CHECK: &str =
    "Check the CoNLL-U file on standard input, and count its sentences and words";

pub(crate) const NEW: &str = "Make an empty desk in a file";

pub(crate) const MIGRATE: &str = "Bring a desk of version 1 to version 2";

pub(crate) const IMPORT: &str = "Import the CoNLL-U file on standard input as a batch";

pub(crate) const EVENT: &str =
    "Move a batch one step: assign, unassign, submit, send-back, adjudicate, release, withdraw, reopen";

pub(crate) const CORRECT: &str = "Replace a sentence by the one on standard input";

pub(crate) const PULL: &str = "Take one sentence out of the work on its batch";

pub(crate) const RESTORE: &str = "Bring a pulled sentence back";

pub(crate) const SHOW: &str = "Print a sentence, or one of its revisions, as CoNLL-U";

pub(crate) const EXPORT: &str = "Print a batch, or all released sentences, as CoNLL-U";

pub(crate) const TOTALS: &str = "Count sentences and words in each state, as CSV";

pub(crate) const MOVES: &str = "List every accepted command, as CSV";

pub(crate) const SEARCH: &str = "Find a query in the released sentences, as keyword lines";

pub(crate) const COUNT: &str = "Count what a query finds in the released sentences, as CSV";

pub(crate) const SERVE: &str = "Answer HTTP requests on this machine";
