//! All sentences that explain what the desk refuses. Each says what is wrong or what has to be there, and most say
//! what to do.

// For a line that cannot be read.

pub(crate) const NOT_UTF8: &str =
    "this is not UTF-8; where the file is in Latin-1, `iconv -f latin1 -t utf-8` makes it so";

pub(crate) const UTF16: &str =
    "the file is in UTF-16; `iconv -f utf-16 -t utf-8` makes UTF-8 of it";

pub(crate) const NOT_NFC: &str =
    "it is not in normalization form C, as where an accent is apart from its letter; `uconv -x any-nfc` composes it";

pub(crate) const CARRIAGE_RETURN: &str =
    "the line ends with CR and LF; `tr -d '\\r'` takes the CR away";

pub(crate) const CARRIAGE_RETURN_WITHIN: &str =
    "a CR is within the line; take it away, or where CR alone ends lines, `tr '\\r' '\\n'` makes line feeds of them";

pub(crate) const NUL: &str =
    "the character U+0000 is here; the file is damaged, or in UTF-16 without a mark";

pub(crate) const CONTROL: &str = "a control character is here; take it away";

pub(crate) const BYTE_ORDER_MARK: &str =
    "a byte order mark (EF BB BF) begins the line; `tail -c +4` takes that of a file away";

pub(crate) const WHITE_LINE: &str =
    "the line looks blank but holds white space; a blank line is empty";

pub(crate) const COMMENT_INDENTED: &str = "white space is before the # of a comment; take it away";

pub(crate) const SPACES_FOR_TABS: &str =
    "spaces are where tabs have to be; put one tab between two columns";

pub(crate) const NO_TAB: &str =
    "the line has no tab; a comment begins with #, and a word line has ten columns with one tab between two of them";

pub(crate) const FEW_FIELDS: &str =
    "a word line has ten columns; put one tab between two of them, and _ where there is nothing";

pub(crate) const MANY_FIELDS: &str =
    "a word line has ten columns, and a tab is only between two of them";

pub(crate) const TAB_AT_END: &str = "a tab is after the tenth column; take it away";

pub(crate) const DOUBLE_TAB: &str =
    "two tabs are side by side; put _ between them where the column is empty, else take one away";

pub(crate) const EMPTY_FIELD: &str = "the column is empty; write _ where there is nothing";

pub(crate) const ID_LONG: &str = "a number of an ID has at most six digits";

pub(crate) const ID_ZERO: &str =
    "a number of an ID begins with 1 to 9; only a node before the first word has a 0, as 0.1";

pub(crate) const ID_FORM: &str =
    "an ID is that of a word as 3, of a range as 3-4, or of an empty node as 3.1";

pub(crate) const SPACE: &str = "white space is in it; only FORM, LEMMA and MISC may hold some";

pub(crate) const HEAD_FORM: &str =
    "HEAD is 0, a number of one to six digits that begins with 1 to 9, or _";

pub(crate) const BLANK_MISSING: &str =
    "a comment is after a word; if a new sentence begins here, put a blank line before it";

pub(crate) const COMMENT_PLACE: &str =
    "a comment is after a word; move it before the first word of its sentence";

pub(crate) const BLANK_FIRST: &str = "the file begins with a blank line; take it away";

pub(crate) const BLANK_TWICE: &str =
    "this is a second blank line; exactly one ends a sentence, so take it away";

pub(crate) const BLANK_AFTER_COMMENTS: &str =
    "a blank line follows a comment; a sentence has a word before it, so take it away";

pub(crate) const NO_LINE_FEED: &str =
    "the file ends within this line, as if it were cut off; a line feed and a blank line end a file";

pub(crate) const LONE_RETURNS: &str =
    "the lines end with CR alone; `tr '\\r' '\\n'` makes line feeds of them";

pub(crate) const COMMENTS_AT_END: &str = "the file ends with a comment and no word; take it away";

pub(crate) const NO_BLANK_AT_END: &str =
    "the last sentence lacks its blank line; `printf '\\n' >> FILE` writes it";

// For a sentence that breaks a rule.

pub(crate) const SENT_ID_MISSING: &str = "the sentence has no comment `# sent_id = ..`; write one";

pub(crate) const SENT_ID_TWICE: &str = "two comments give a sent_id; keep one of them";

pub(crate) const SENT_ID_EMPTY: &str = "the sent_id is empty; write a name";

pub(crate) const SENT_ID_SPACE: &str = "a sent_id has no white space; take it away";

pub(crate) const TEXT_MISSING: &str = "the sentence has no comment `# text = ..`; write one";

pub(crate) const TEXT_TWICE: &str = "two comments give a text; keep one of them";

pub(crate) const WORD_ORDER: &str = "words are numbered from 1 in order, and no number is left out";

pub(crate) const NODE_ORDER: &str =
    "empty nodes after word i are numbered i.1, i.2 in order, and those before the first word 0.1, 0.2";

pub(crate) const NO_WORDS: &str = "the sentence has no word, only ranges or empty nodes";

pub(crate) const TOO_MANY_WORDS: &str = "a sentence has at most 1,000 words; cut it";

pub(crate) const UPOS_UNKNOWN: &str =
    "this is none of ADJ ADP ADV AUX CCONJ DET INTJ NOUN NUM PART PRON PROPN PUNCT SCONJ SYM VERB X";

pub(crate) const HEAD_MISSING: &str =
    "a word has a HEAD; write the number of the word that it hangs from, or 0";

pub(crate) const HEAD_BEYOND: &str = "the sentence has no word of this number";

pub(crate) const HEAD_SELF: &str = "a word does not hang from itself; write another HEAD";

pub(crate) const DEPREL_UNKNOWN: &str =
    "this is none of the 37 universal relations, alone or with a subtype after a colon";

pub(crate) const HEAD_0_NOT_ROOT: &str = "the HEAD is 0, so write root, or else another HEAD";

pub(crate) const ROOT_WITH_HEAD: &str =
    "the HEAD is not 0, so write another relation, or else HEAD 0";

pub(crate) const RANGE_BACKWARD: &str = "the range ends before it begins";

pub(crate) const RANGE_BEYOND: &str = "the range ends after the last word of the sentence";

pub(crate) const RANGE_OVERLAP: &str =
    "the range begins within an earlier one or before it; ranges do not overlap, and are in order";

pub(crate) const RANGE_PLACE: &str = "the range is not just before its first word; move it there";

pub(crate) const RANGE_FIELD: &str =
    "LEMMA, UPOS, XPOS, HEAD, DEPREL and DEPS of a range are _; write them on its words";

pub(crate) const NODE_TREE: &str =
    "HEAD and DEPREL of an empty node are _; its relations are in DEPS";

pub(crate) const NODE_UPOS: &str = "UPOS of an empty node is _ or one of the 17 parts of speech";

pub(crate) const FEATURE_FORM: &str = "a feature is written Name=Value, and bars join features";

pub(crate) const FEATURE_NAME: &str =
    "the name of a feature is ASCII letters and digits, first a capital or a digit, then perhaps a layer as [psor]";

pub(crate) const FEATURE_VALUE: &str =
    "a value is ASCII letters and digits, first a capital or a digit; commas join several values";

pub(crate) const VALUE_TWICE: &str = "the feature has a value twice; keep one";

pub(crate) const FEATURE_ORDER: &str =
    "features are in the order of their names, whatever the case of letters; move it forward";

pub(crate) const FEATURE_TWICE: &str =
    "an earlier feature has the same name; keep one, and join its values by commas";

pub(crate) const PAIR_FORM: &str = "DEPS is _, or pairs head:relation that bars join";

pub(crate) const PAIR_HEAD: &str =
    "the head of a pair is 0, or the ID of a word or an empty node of the sentence";

pub(crate) const PAIR_RELATION: &str = "a relation has to be after the colon";

pub(crate) const PAIR_ORDER: &str = "pairs are in the order of their heads; move it forward";

pub(crate) const NO_ROOT: &str = "no word has HEAD 0; give it to one, with the relation root";

pub(crate) const TWO_ROOTS: &str = "both have HEAD 0; exactly one word has it";

pub(crate) const CIRCLE: &str =
    "these words hang from one another, so none leads to HEAD 0; give one of them another HEAD";

pub(crate) const FORMS_HAVE_SPACE: &str =
    "the text has no space here; write SpaceAfter=No in MISC of the word before it";

pub(crate) const TEXT_HAS_SPACE: &str =
    "the text has a space here; take it away, or SpaceAfter=No of the word before it";

pub(crate) const TEXT_DIFFERS: &str =
    "the forms do not spell the text; correct a FORM, a SpaceAfter=No or the text";

pub(crate) const SENT_ID_AGAIN: &str =
    "an earlier sentence of the file has this sent_id; give one of them another";

pub(crate) const BROKEN: &str = "the sentence breaks the rule";

// For a query.

pub(crate) const TOO_LONG: &str = "a query has at most 2,000 bytes";

pub(crate) const TOO_MANY: &str =
    "a query has at most 32 token expressions: brackets, and literals outside of them";

pub(crate) const TOO_DEEP: &str = "at most 16 round parentheses may be open at one place";

pub(crate) const REPEAT_ABOVE: &str =
    "a number of a repetition is at most 32; `{n,}`, `*` and `+` have no upper one";

pub(crate) const REPEAT_ZERO: &str = "the upper number of a repetition is at least 1";

pub(crate) const REPEAT_BACKWARD: &str =
    "the upper number of a repetition is not below the lower one";

pub(crate) const PATTERN_LOOKING: &str =
    "patterns do not look ahead or back; ask it of the word with & and !";

pub(crate) const PATTERN_BACK: &str =
    "patterns have no `\\1`, which stands for what was found before";

pub(crate) const PATTERN_OPEN: &str =
    "no ) closes this ( of the pattern; write `\\(` for the sign itself, or %l after the literal";

pub(crate) const PATTERN_CLOSED: &str =
    "this ) of the pattern closes no (; write `\\)` for the sign itself, or %l after the literal";

pub(crate) const PATTERN_SET: &str =
    "no ] closes this [ of the pattern; write `\\[` for the sign itself, or %l after the literal";

pub(crate) const PATTERN_BRACE: &str =
    "this { of the pattern begins no repetition, as {2}, {2,} or {2,3} after a sign; write `\\{` for the sign itself, or %l after the literal";

pub(crate) const PATTERN_REPEATS: &str =
    "nothing that this sign of the pattern can repeat is before it; write a backslash before it for the sign itself, or %l after the literal";

pub(crate) const PATTERN_BACKSLASH: &str =
    "this backslash has no meaning in a pattern with what follows it; write `\\\\` for the sign itself, or %l after the literal";

pub(crate) const PATTERN_OTHER: &str =
    "a literal is a regular expression, and this is none; a backslash takes the meaning from ( ) [ ] { } . * + ? and %l after the literal from all";

pub(crate) const PATTERN_LARGE: &str =
    "a pattern of the query is too large, or there is not enough memory; repeat less in it";

pub(crate) const CURLY_QUOTE: &str = "this is no straight quote; write \" or '";

pub(crate) const QUOTE_OPEN: &str =
    "the quote that opens here is not closed; one within a literal is written twice";

pub(crate) const BACKSLASH_QUOTE: &str =
    "a backslash before a quote does not keep the literal open; write the quote twice";

pub(crate) const FLAG: &str =
    "after a literal is one flag, %c or %l, without a space in it; %d and two flags are not in this subset";

pub(crate) const TAG: &str =
    "tags as `<s>` are not in this subset of CQP; each hit lies in one sentence, so leave them out";

pub(crate) const ANCHOR: &str = "anchors (@) are not in this subset of CQP";

pub(crate) const LABEL: &str =
    "labels as a: and what they are asked after :: are not in this subset of CQP";

pub(crate) const MU: &str =
    "MU queries are not in this subset of CQP; write the words in their order";

pub(crate) const WITHIN: &str =
    "of `within` only `within s` is in this subset of CQP, and each hit lies in one sentence anyway";

pub(crate) const ARROW: &str = "-> is not in this subset of CQP; write ! and |";

pub(crate) const AND_TWICE: &str = "and is written with one &, or with one |";

pub(crate) const AND_OUTSIDE: &str =
    "& joins tests within brackets; words that follow one another stand side by side";

pub(crate) const CONNECTIVE: &str =
    "or is written |, words that follow one another stand side by side, and not is in brackets, as [word!=\"dogs\"]; a word to find is in quotes";

pub(crate) const END_PLACE: &str =
    "`within s` and ; are at the end of a query, after what is searched and outside parentheses";

pub(crate) const AFTER_WITHIN: &str =
    "only ; may follow `within s`; write before it all that is searched";

pub(crate) const AFTER_SEMICOLON: &str =
    "nothing follows ; since it ends the query; `within s` is before it";

pub(crate) const REPETITION_FORM: &str =
    "a repetition is {n}, {n,} or {n,m}: one number or two, with a comma between them";

pub(crate) const NO_LOWER: &str = "a repetition has a lower number; write {0,m}";

pub(crate) const NUMBER_ZERO: &str = "a number has no leading zero";

pub(crate) const REPEATED_TWICE: &str =
    "a repetition is after a repetition; put parentheses round the first";

pub(crate) const NOTHING_REPEATED: &str =
    "a repetition is after a token, a literal or a parenthesis";

pub(crate) const EQUALS_TWICE: &str = "an equality is written with one =";

pub(crate) const NOT_SPACED: &str = "!= is written without a space";

pub(crate) const NO_PARENTHESIS: &str = "no parenthesis is open here, or nothing is in it";

pub(crate) const VALUE_WANTED: &str =
    "a value between quotes has to be here, as in [upos=\"NOUN\"]";

pub(crate) const FEATURE_WANTED: &str =
    "a feature between quotes has to follow contains, as in [feats contains \"Number=Plur\"]";

pub(crate) const VALUE_UNQUOTED: &str = "put quotes round the value, as in [upos=\"NOUN\"]";

pub(crate) const TEST_WANTED: &str = "= or != and a value have to follow the name of a column";

pub(crate) const CONTAINS: &str =
    "only `feats contains` is in this subset of CQP; ask another column by = and a pattern";

pub(crate) const MATCHES: &str =
    "`matches` and `not contains` are not in this subset of CQP; write feats contains, and ! before feats";

pub(crate) const COLUMN_POS: &str = "no column is called pos; upos or xpos is meant";

pub(crate) const COLUMN_CASE: &str = "the names of columns are written in small letters";

pub(crate) const COLUMN_WORD: &str = "no column is called so; word is FORM";

pub(crate) const COLUMN_FEATS: &str =
    "no column is called so; feats is FEATS, and a space is before contains";

pub(crate) const COLUMN_DEPREL: &str = "no column is called so; deprel is DEPREL";

pub(crate) const COLUMN_CLOSED: &str = "ID, HEAD, DEPS and MISC cannot be asked";

pub(crate) const COLUMN_OTHER: &str =
    "no column is called so; write word, lemma, upos, xpos, feats or deprel";

pub(crate) const AND_OR: &str = "and is written &, or is written |, not is written !";

pub(crate) const BRACKETS: &str = "put brackets round the test of a column, as in [upos=\"NOUN\"]";

pub(crate) const WORD_UNQUOTED: &str = "put quotes round a word, as in \"dogs\"";

pub(crate) const EMPTY_QUERY: &str =
    "the query is empty; write a word as \"dogs\", or a test as [upos=\"NOUN\"]";

pub(crate) const BRACKET_OPEN: &str = "the query ends within brackets; close them by ]";

pub(crate) const PARENTHESIS_OPEN: &str = "the query ends within parentheses; close them by )";

pub(crate) const BRACE_OPEN: &str = "the query ends within a repetition; close it by }";

pub(crate) const ENDS_EARLY: &str = "the query ends where a token or a literal has to follow";

pub(crate) const TEST_MISSING: &str =
    "the query ends where a test has to follow, as in [upos=\"NOUN\"]";

pub(crate) const SYNTAX: &str = "no query has this here";

pub(crate) const LITERALLY: &str =
    "nothing is found by this pattern, but with %l after the literal, which takes all signs as they are, something is";

pub(crate) const ON_A_RANGE: &str =
    "this form is on a range alone, and ranges are no words; ask for its words, as \"do\" \"n't\" for don't";

pub(crate) const NOTHING_RELEASED: &str =
    "no sentence is released, and only released text is searched, counted and exported; `totals` tells the states";

// For a command.

pub(crate) const BAD_NAME: &str =
    "the name of a batch or a user is 1 to 32 letters, digits, dots, underscores and hyphens";

pub(crate) const NO_SUCH_BATCH: &str =
    "no batch has this name; names are given by `import`, and TABLES.md has a query that lists them";

pub(crate) const NO_SUCH_SENTENCE: &str =
    "no sentence has this number; they are counted from 1, in the order in which they were imported";

pub(crate) const NO_SUCH_SENT_ID: &str =
    "no sentence has this sent_id; copy it from the comment of the sentence, or from the start of a keyword line";

pub(crate) const CORRECT_STATE: &str =
    "a sentence is corrected while it is assigned, by its worker, or submitted, by anyone else";

pub(crate) const PULL_STATE: &str =
    "sentences of a withdrawn batch are not pulled or restored; `reopen` brings the batch back";

pub(crate) const NOT_YOURS: &str = "only the user who works on the batch may do this, its worker";

pub(crate) const OWN_WORK: &str =
    "the user who works on the batch may not do this, but anyone else";

pub(crate) const STALE: &str =
    "it was corrected since; see it by `show`, put the change into that, and name the current revision";

pub(crate) const EMPTY: &str = "the input has no sentence";

pub(crate) const NOT_ONE: &str = "a correction is one sentence; the input has more";

pub(crate) const SENT_ID_CHANGED: &str = "a correction keeps the sent_id";

pub(crate) const TEXT_CHANGED: &str = "a correction keeps the text";

pub(crate) const NOTHING_CHANGED: &str = "this is the sentence as it is";

pub(crate) const NAME_TAKEN: &str =
    "another batch has this name, with other sentences; choose another name";

pub(crate) const SENT_ID_TAKEN: &str =
    "a sentence of the desk has its sent_id; give it another one, or correct that sentence";

pub(crate) const FULL: &str = "the desk is full; make another one by `new`";

pub(crate) const NO_SUCH_REVISION: &str =
    "the sentence has no revision with this number; `show` without --rev gives the current one";

pub(crate) const PULLED: &str = "the sentence is pulled already; `restore` brings it back";

pub(crate) const NOT_PULLED: &str = "the sentence is not pulled";

pub(crate) const TOO_MANY_HITS: &str =
    "the query has more hits by `every` than are answered; ask by longest or shortest";

pub(crate) const LONG: &str = "the input has more than 4,194,304 bytes: cut it at blank lines";

pub(crate) const DEVICE: &str =
    "the desk's file could not be read or written; see whether its disk is full, and ask again";

pub const MEMORY: &str = "there is not enough memory; end other programs and try again";

pub(crate) const DESK: &str =
    "a row of the desk does not have its form; another program changed the file, so restore a backup";

// For a batch, by its state: what may come next, and who may ask for it.

pub(crate) const OPEN: &str = "next: assign, by whoever will work on it; or withdraw, by anyone";

pub(crate) const ASSIGNED: &str =
    "next: corrections, then submit, or unassign, by its worker; or withdraw, by anyone";

pub(crate) const SUBMITTED: &str =
    "next: corrections, then adjudicate, or send-back, by anyone but its worker; or withdraw, by anyone";

pub(crate) const ADJUDICATED: &str = "next: release or withdraw, by anyone";

pub(crate) const RELEASED: &str =
    "its sentences are searched, counted and exported; next: withdraw, by anyone";

pub(crate) const WITHDRAWN: &str = "next: reopen, by anyone";
