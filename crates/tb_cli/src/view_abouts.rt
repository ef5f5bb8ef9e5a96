//! What each command of `deskview` does, as the list of commands shows it.

pub(crate) const BATCHES: &str = "List the batches, each with its state, its worker and its counts";

pub(crate) const SENTENCES: &str = "List the sentences of a batch, each with its current revision";

pub(crate) const REVISIONS: &str =
    "List the revisions of a sentence, each with its user and the move that made it";

pub(crate) const FIND: &str =
    "Find the sentence with a sent_id: its number, its batch and its current revision";

pub(crate) const TREE: &str =
    "Draw the dependency tree of a sentence, or the trees of a file, as a page for a browser";

pub(crate) const CHECK: &str = "List the faults of the CoNLL-U file on standard input";

pub(crate) const PAGE: &str =
    "Serve the desk and a page for browsers on loopback, until the program is ended";
