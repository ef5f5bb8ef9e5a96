//! What help says of each argument.

pub(crate) const DESK: &str = "The file of the desk; without it a desk in memory";

pub(crate) const DESK_NEEDED: &str = "The file of the desk";

pub(crate) const DESK_SHOWN: &str = "The file of the desk, which this command needs";

pub(crate) const DESK_DRAWN: &str =
    "The file of the desk; without it the CoNLL-U file on standard input";

pub(crate) const USER: &str = "Who asks";

pub(crate) const STRATEGY: &str = "Which matches are hits: shortest, longest or every";

pub(crate) const BATCH: &str = "The name of the batch";

pub(crate) const BATCH_NEW: &str = "The name of the new batch";

pub(crate) const BATCH_IF_ANY: &str = "The name of the batch; without it the released sentences";

pub(crate) const STEP: &str = "The step";

pub(crate) const SENTENCE: &str = "The number of the sentence";

pub(crate) const SENTENCE_DRAWN: &str = "The number of the sentence in the desk";

pub(crate) const SENT_ID: &str = "The sent_id, as hits have it";

pub(crate) const BASE: &str = "The number of the revision that was corrected";

pub(crate) const REVISION: &str = "The number of the revision; without it the current one";

pub(crate) const QUERY: &str = "The query, in the part of CQP that docs/guide/QUERIES.md describes";

pub(crate) const CONTEXT: &str = "Words on each side of a match, 0 to 20";

pub(crate) const ATTRIBUTE: &str = "What is counted: word, lemma, upos, xpos, feats or deprel";

pub(crate) const PORT: &str = "The port; 0 lets the system choose one";

pub(crate) const PORT_SHOWN: &str = "The port; 0 lets the system choose";

pub(crate) const REQUESTS: &str = "How many connections are answered before it ends";

pub(crate) const MOST: &str = "How many faults are listed at most";
