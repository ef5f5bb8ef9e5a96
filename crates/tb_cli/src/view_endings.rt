//! The end of the help of each command of `deskview`.

/// The end of the help of `batches`.
pub(crate) const BATCHES: &str = "\
Columns: no, name, state, worker, first, sentences, words, pulled, pulled_words. `first` is the number of the
first sentence. `sentences` and `words` leave out pulled sentences, which `pulled` and `pulled_words` count.

Example: deskview batches --db desk.db

Exit status: 0 done, 1 refused, 2 wrong words, 3 out of memory or an I/O error.";

/// The end of the help of `sentences`.
pub(crate) const SENTENCES: &str = "\
Columns: no, sent_id, rev, who, words, pulled, text. `rev` is the number of the current revision, `who` wrote
it, `words` counts its words, and `text` is its comment `# text`. `pulled` is `yes` or `no`.

Example: deskview sentences --db desk.db news

Exit status: 0 done, 1 refused, 2 wrong words, 3 out of memory or an I/O error.";

/// The end of the help of `revisions`.
pub(crate) const REVISIONS: &str = "\
Columns: rev, who, kind, move. `rev` counts from 1, `who` wrote the revision, and `move` is the number of
the move that made it, as `treedesk moves` lists it: the import of the batch, then a correction for each.

Example: deskview revisions --db desk.db 7

Exit status: 0 done, 1 refused, 2 wrong words, 3 out of memory or an I/O error.";

/// The end of the help of `find`.
pub(crate) const FIND: &str = "\
Columns: no, batch, rev, words, pulled. `no` is the number that `treedesk show` takes and `batch` the name of
the batch, `rev` is the number of the current revision, `words` counts its words, and `pulled` is `yes` or `no`.

Example: deskview find --db desk.db en-7

Exit status: 0 done, 1 refused, 2 wrong words, 3 out of memory or an I/O error.";

/// The end of the help of `tree`.
pub(crate) const TREE: &str = "\
Prints a page of HTML, which stands alone: it draws dependency trees, and asks no other file or computer for anything.
With --db and a number it is the tree of that sentence's current revision. With neither it is those of all sentences of
the CoNLL-U file on standard input; one that `treedesk check` refuses is refused as there, and nothing is drawn. Print
the page from a browser, as a handout.

Examples:
  deskview tree --db desk.db 7 > tree.html
  deskview tree < news.conllu > trees.html

Exit status: 0 done, 1 refused, 2 wrong words, 3 out of memory or an I/O error.";

/// The end of the help of `check`.
pub(crate) const CHECK: &str = "\
Columns: line, code, sentence, rule, row, id, column, value, message. Where a line cannot be read, each such line is listed
with the least of its codes, 1 to 10. Where all can be read, each sentence is listed with all rules that it breaks, of 1
to 12. docs/guide/FORMAT.md has the codes and the rules. `row` is the first row at fault of rules 4 to 8, and `id` its ID.

Where there are more faults than --most allows, a last row has the message alone, which says so. A file without faults
gives the header line alone, so that every answer about a file is a table.

Example: deskview check --most 20 < news.conllu

Exit status: 0 no fault, 1 faults, or refused, 2 wrong words, 3 out of memory or an I/O error.";

/// The end of the help of `page`.
pub(crate) const PAGE: &str = "\
Prints `listening PORT`, and serves a page for browsers at http://127.0.0.1:PORT/ beside what `treedesk serve` serves. On
port 0 the system chooses the port. There is no password: every user of this machine can read and change the desk.

Example: deskview page --db desk.db --port 8080

Exit status: 1 refused, 2 wrong words, 3 out of memory or an I/O error.";
