//! The end of each command's help.

/// The end of a command's help: what to know about it, an example, and the exit statuses.
macro_rules! ending {
    ($notes:literal, $example:literal) => {
        concat!(
            $notes,
            "\n\nExample: treedesk ",
            $example,
            "\n\nExit status: 0 done, 1 refused, 2 wrong words, 3 out of memory or an I/O error."
        )
    };
}

pub(crate) const CHECK: &str = ending!(
    "Prints `sentences S words W`, or the first fault: `refused 8 Read LINE CODE`, or\n\
     `refused 9 Rule SENTENCE RULE ROW`.",
    "check < news.conllu"
);

pub(crate) const NEW: &str = ending!(
    "The file may be missing, empty or a database without a table. Any other file is refused.",
    "new --db desk.db"
);

pub(crate) const MIGRATE: &str = ending!(
    "Other commands refuse a desk of version 1.",
    "migrate --db desk.db"
);

pub(crate) const IMPORT: &str = ending!(
    "A name is 1 to 32 letters, digits, dots, underscores and hyphens; a file has at most 4,194,304\n\
     bytes. The same import again has the same answer, and changes nothing.",
    "import --db desk.db --user ann news-1 < news.conllu"
);

pub(crate) const EVENT: &str = ending!(
    "The steps from each state:\n  \
     open         assign, withdraw\n  \
     assigned     unassign, submit, withdraw\n  \
     submitted    send-back, adjudicate, withdraw\n  \
     adjudicated  release, withdraw\n  \
     released     withdraw\n  \
     withdrawn    reopen",
    "event --db desk.db --user ann news-1 assign"
);

pub(crate) const CORRECT: &str = ending!(
    "The sentence keeps its sent_id and its text. Where another correction came first, the answer is\n\
     `refused 7 Stale REV`, with the current revision.",
    "correct --db desk.db --user ann 17 1 < sentence.conllu"
);

pub(crate) const PULL: &str = ending!(
    "The sentence is withdrawn until `restore` brings it back: it is not searched, counted or exported\n\
     with the released text.",
    "pull --db desk.db --user ann 17"
);

pub(crate) const RESTORE: &str = ending!(
    "The sentence is in the state of its batch again.",
    "restore --db desk.db --user ann 17"
);

pub(crate) const SHOW: &str = ending!(
    "Revision 1 is the sentence as it was imported.",
    "show --db desk.db 17 --rev 1"
);

pub(crate) const EXPORT: &str = ending!(
    "The export of a batch has its pulled sentences too; the released text has none of them.",
    "export --db desk.db news-1"
);

pub(crate) const TOTALS: &str = ending!("Columns: state, sentences, words.", "totals --db desk.db");

pub(crate) const MOVES: &str = ending!(
    "Columns: no, kind, batch, sentence, from, to, sentences, words_out, words_in, who.",
    "moves --db desk.db"
);

pub(crate) const SEARCH: &str = ending!(
    "Each hit is a line with tabs: sent_id, first word, last word, words before, match, words after.\n\
     The last line is `hits N`; an answer without it broke off.",
    "search --db desk.db --context 3 '[upos=\"ADJ\"] [lemma=\"book\"]'"
);

pub(crate) const COUNT: &str = ending!(
    "Columns: key, count. The key of a hit is the value of its words; the largest count comes first.",
    "count --db desk.db lemma '[upos=\"ADJ\"]'"
);

pub(crate) const SERVE: &str = ending!(
    "Prints `listening PORT`, and serves 127.0.0.1 only. There is no password: every user of\n\
     this machine may use the desk.",
    "serve --db desk.db --port 8080"
);
