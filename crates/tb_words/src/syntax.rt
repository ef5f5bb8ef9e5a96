//! What a query most likely means, where it has something that no query can have.

ghost use Rattle.std.specs.List.{ends_with, slice_get, starts_with};
ghost use Rattle.std.specs.Prelude.{◌≡◌, chars, drop, eqb, if◌then◌else◌, length, position, take};
ghost use Rattle.std.specs.Str.{IsCharBoundary, trim_end, trim_start};
ghost use Rattle.tb_words.specs.QueryGuesses.{after_end_sentence, and_sentence, begins_test, braces_sentence};
ghost use Rattle.tb_words.specs.QueryGuesses.{bracket_sentence, character_sentence, end_inside_sentence, end_sentence};
ghost use Rattle.tb_words.specs.QueryGuesses.{follows_backslash, follows_column, follows_end, follows_flag};
ghost use Rattle.tb_words.specs.QueryGuesses.{follows_repetition, guess, inside_sentence, is_curly, other_sentence};
ghost use Rattle.tb_words.specs.QueryGuesses.{outside_sentence, quote_sentence, repetition_sentence, said_if};
ghost use Rattle.tb_words.specs.QueryGuesses.{sign_sentence, value_sentence, wants_number, wants_part, wants_value};
ghost use Rattle.tb_words.specs.QueryGuesses.{word_sentence};
ghost use Rattle.tb_words.specs.QueryPlaces.{is_before, open_after, open_at};
ghost use Rattle.tb_words.specs.QueryWords.{column_sentence, first_word, is_closed_column, is_column};
ghost use Rattle.tb_words.specs.QueryWords.{is_column_in_capitals, is_connective, is_of_features, is_of_forms};
ghost use Rattle.tb_words.specs.QueryWords.{is_no_letter, is_of_relations, is_of_tags};

use crate::literals::{Literal, holds};
use crate::sentences as reported;

/// A text, and the place of its first fault.
#[derive(Clone, Copy)]
pub(crate) struct Wrong<'a> {
    /// The text before the place, without the white space next to it.
    before: &'a str,
    /// The text from the place on.
    rest: &'a str,
    /// How many brackets, round parentheses and braces are open at the place.
    brackets: usize,
    parentheses: usize,
    braces: usize,
}

/// Whether a place is before another one, and in no literal.
fn is_before(literals: &[Literal], at: usize, place: usize) -> bool
    ensures { result ≡ is_before literals.now at place }
{
    place < at && !holds(literals, place)
}

/// How many are open after a sign more.
fn open_after(opens: char, closes: char, count: usize, c: char) -> usize
    ensures { result ≡ open_after opens closes count c }
{
    if c == opens {
        count.saturating_add(1)
    } else if c == closes {
        count.saturating_sub(1)
    } else {
        count
    }
}

/// How many are open after a sign more, if it counts.
fn open_if(is_counted: bool, opens: char, closes: char, count: usize, c: char) -> usize
    ensures { result ≡ (if is_counted then open_after opens closes count c else count) }
{
    if is_counted {
        open_after(opens, closes, count, c)
    } else {
        count
    }
}

/// How many of one sign are open before a place, without those in literals.
fn open_at(text: &str, literals: &[Literal], at: usize, opens: char, closes: char) -> usize
    ensures { result ≡ open_at text.now literals.now at opens closes }
{
    let mut count: usize = 0;
    for (place, c) in text.char_indices() {
        let is_counted = is_before(literals, at, place);
        count = open_if(is_counted, opens, closes, count, c);
    }
    count
}

/// Whether a text ends so.
fn ends(text: &str, end: &str) -> bool
    ensures { result ≡ ends_with eqb text.now end.now }
{
    text.ends_with(end)
}

/// Whether a text begins so.
pub(crate) fn begins(text: &str, front: &str) -> bool
    ensures { result ≡ starts_with eqb text.now front.now }
{
    text.starts_with(front)
}

/// The place of the first byte that is neither an ASCII letter, a digit nor an underscore.
fn word_end(text: &str) -> Option<usize>
    ensures { result ≡ position is_no_letter text.now }
{
    text.as_bytes()
        .iter()
        .position(|byte| !byte.is_ascii_alphanumeric() && *byte != b'_')
}

/// The ASCII letters, digits and underscores with which a text begins, and what follows them.
fn first_word(text: &str) -> (&str, &str)
    ensures word { result.0.now ≡ first_word text.now }
    ensures after { result.1.now ≡ drop (length (first_word text.now)) text.now }
{
    match word_end(text) {
        Some(end) => (text.get(..end).unwrap_or(""), text.get(end..).unwrap_or("")),
        None => (text, ""),
    }
}

fn is_column(word: &str) -> bool
    ensures { result ≡ is_column word.now }
{
    matches!(
        word,
        "word" | "lemma" | "upos" | "xpos" | "feats" | "deprel"
    )
}

/// Whether a word is the name of a column, apart from the case of its letters.
fn is_column_in_capitals(word: &str) -> bool
    ensures { result ≡ is_column_in_capitals word.now }
{
    word.eq_ignore_ascii_case("word")
        || word.eq_ignore_ascii_case("lemma")
        || word.eq_ignore_ascii_case("upos")
        || word.eq_ignore_ascii_case("xpos")
        || word.eq_ignore_ascii_case("feats")
        || word.eq_ignore_ascii_case("deprel")
}

/// Whether others have this name for a column of tags.
fn is_of_tags(word: &str) -> bool
    ensures { result ≡ is_of_tags word.now }
{
    matches!(word, "pos" | "POS" | "tag" | "cpos" | "postag")
}

fn is_of_forms(word: &str) -> bool
    ensures { result ≡ is_of_forms word.now }
{
    matches!(word, "form" | "FORM" | "token" | "text")
}

fn is_of_features(word: &str) -> bool
    ensures { result ≡ is_of_features word.now }
{
    matches!(word, "morph" | "feat" | "features" | "featscontains")
}

fn is_of_relations(word: &str) -> bool
    ensures { result ≡ is_of_relations word.now }
{
    matches!(word, "rel" | "dep" | "relation" | "deprels")
}

/// Whether a word is a column that cannot be asked.
fn is_closed_column(word: &str) -> bool
    ensures { result ≡ is_closed_column word.now }
{
    matches!(
        word,
        "id" | "ID" | "head" | "HEAD" | "deps" | "DEPS" | "misc" | "MISC"
    )
}

/// What is wrong with a word in the place of a column's name.
fn column_fault(word: &str) -> &'static str
    ensures { result.now ≡ column_sentence word.now }
{
    if is_column_in_capitals(word) {
        return reported::COLUMN_CASE;
    }
    if is_of_tags(word) {
        reported::COLUMN_POS
    } else if is_of_forms(word) {
        reported::COLUMN_WORD
    } else if is_of_features(word) {
        reported::COLUMN_FEATS
    } else if is_of_relations(word) {
        reported::COLUMN_DEPREL
    } else if is_closed_column(word) {
        reported::COLUMN_CLOSED
    } else {
        reported::COLUMN_OTHER
    }
}

fn is_connective(word: &str) -> bool
    ensures { result ≡ is_connective word.now }
{
    matches!(word, "and" | "or" | "not" | "AND" | "OR" | "NOT")
}

/// What is wrong with a word outside brackets that this follows, and that is none of the query's own.
fn other_word(word: &str, after: &str) -> &'static str
    ensures { result.now ≡ other_sentence word.now after.now }
{
    if begins(after, ":") {
        reported::LABEL
    } else if word == "MU" || word == "TAB" {
        reported::MU
    } else if is_column(word) || begins(after.trim_start(), "=") {
        reported::BRACKETS
    } else {
        reported::WORD_UNQUOTED
    }
}

/// Whether a character is a quote that a query does not use.
fn is_curly(c: char) -> bool
    ensures { result ≡ is_curly c }
{
    matches!(
        c,
        '\u{2018}'..='\u{201F}'
            | '\u{2032}'
            | '\u{2033}'
            | '\u{AB}'
            | '\u{BB}'
            | '\u{2039}'
            | '\u{203A}'
            | '`'
            | '\u{B4}'
    )
}

fn first_character(text: &str) -> Option<char>
    ensures { result ≡ slice_get (chars text.now) 0 }
{
    text.chars().next()
}

impl<'a> Wrong<'a> {
    pub(crate) fn new(text: &'a str, literals: &[Literal], at: usize) -> Wrong<'a>
        ensures before { IsCharBoundary text.now at → result.before.now ≡ trim_end (take at text.now) }
        ensures rest { IsCharBoundary text.now at → result.rest.now ≡ drop at text.now }
        ensures brackets { result.brackets ≡ open_at text.now literals.now at 91 93 }
        ensures parentheses { result.parentheses ≡ open_at text.now literals.now at 40 41 }
        ensures braces { result.braces ≡ open_at text.now literals.now at 123 125 }
    {
        Wrong {
            before: text.get(..at).unwrap_or(text).trim_end(),
            rest: text.get(at..).unwrap_or(""),
            brackets: open_at(text, literals, at, '[', ']'),
            parentheses: open_at(text, literals, at, '(', ')'),
            braces: open_at(text, literals, at, '{', '}'),
        }
    }

    /// Whether the name of a column precedes the place.
    fn follows_column(&self) -> bool
        ensures { result ≡ follows_column self.now }
    {
        ends(self.before, "word")
            || ends(self.before, "lemma")
            || ends(self.before, "upos")
            || ends(self.before, "xpos")
            || ends(self.before, "feats")
            || ends(self.before, "deprel")
    }

    /// Whether a value has to be here.
    fn wants_value(&self) -> bool
        ensures { result ≡ wants_value self.now }
    {
        self.brackets > 0 && (ends(self.before, "=") || ends(self.before, "contains"))
    }

    fn follows_flag(&self) -> bool
        ensures { result ≡ follows_flag self.now }
    {
        ends(self.before, "%c") || ends(self.before, "%l")
    }

    fn follows_repetition(&self) -> bool
        ensures { result ≡ follows_repetition self.now }
    {
        ends(self.before, "?")
            || ends(self.before, "*")
            || ends(self.before, "+")
            || ends(self.before, "}")
    }

    /// Whether a sign after which a test begins precedes the place.
    fn begins_test(&self) -> bool
        ensures { result ≡ begins_test self.now }
    {
        ends(self.before, "[")
            || ends(self.before, "(")
            || ends(self.before, "&")
            || ends(self.before, "|")
            || ends(self.before, "!")
    }

    /// Whether the number of a repetition has to be here.
    fn wants_number(&self) -> bool
        ensures { result ≡ wants_number self.now }
    {
        ends(self.before, "{") || ends(self.before, ",")
    }

    /// Whether a choice or a parenthesis precedes the place, whose next part has to be here.
    fn wants_part(&self) -> bool
        ensures { result ≡ wants_part self.now }
    {
        ends(self.before, "|") || ends(self.before, "(")
    }

    /// Whether the end of the query precedes the place. No other word outside brackets ends with `s`.
    fn follows_end(&self) -> bool
        ensures { result ≡ follows_end self.now }
    {
        self.brackets == 0
            && (ends(self.before, "within") || ends(self.before, "s") || ends(self.before, ";"))
    }

    /// Whether the place follows a literal that a backslash was to keep open.
    fn follows_backslash(&self) -> bool
        ensures { result ≡ follows_backslash self.now }
    {
        ends(self.before, "\\\"") || ends(self.before, "\\'")
    }

    /// Which value has to be here.
    fn value(&self) -> &'static str
        ensures { result.now ≡ value_sentence self.now }
    {
        if ends(self.before, "contains") {
            reported::FEATURE_WANTED
        } else {
            reported::VALUE_WANTED
        }
    }

    /// What is missing where the text ends within brackets.
    fn end_inside(&self) -> &'static str
        ensures { result.now ≡ end_inside_sentence self.now }
    {
        if self.wants_value() {
            self.value()
        } else if self.follows_column() {
            reported::TEST_WANTED
        } else if self.begins_test() && !ends(self.before, "[") {
            reported::TEST_MISSING
        } else {
            reported::BRACKET_OPEN
        }
    }

    /// What is missing where the text ends too early.
    fn end(&self) -> &'static str
        ensures { result.now ≡ end_sentence self.now }
    {
        if self.before.is_empty() {
            reported::EMPTY_QUERY
        } else if self.brackets > 0 {
            self.end_inside()
        } else if ends(self.before, "{") {
            reported::REPETITION_FORM
        } else if self.braces > 0 {
            reported::BRACE_OPEN
        } else if self.wants_part() {
            reported::ENDS_EARLY
        } else if self.parentheses > 0 {
            reported::PARENTHESIS_OPEN
        } else {
            reported::WITHIN
        }
    }

    /// What is wrong after the end of a query, or within it.
    fn after_end(&self) -> &'static str
        ensures { result.now ≡ after_end_sentence self.now }
    {
        if ends(self.before, "within") {
            reported::WITHIN
        } else if ends(self.before, ";") {
            reported::AFTER_SEMICOLON
        } else {
            reported::AFTER_WITHIN
        }
    }

    /// What is wrong within the braces of a repetition.
    fn in_braces(&self) -> &'static str
        ensures { result.now ≡ braces_sentence self.now }
    {
        if ends(self.before, "{") && begins(self.rest, ",") {
            reported::NO_LOWER
        } else if self.wants_number() && begins(self.rest, "0") {
            reported::NUMBER_ZERO
        } else {
            reported::REPETITION_FORM
        }
    }

    /// What is wrong with a word within brackets.
    fn word_inside(&self, word: &str) -> &'static str
        ensures { result.now ≡ inside_sentence self.now word.now }
    {
        if self.wants_value() {
            reported::VALUE_UNQUOTED
        } else if word == "contains" {
            reported::CONTAINS
        } else if self.follows_column() && (word == "matches" || word == "not") {
            reported::MATCHES
        } else if is_connective(word) {
            reported::AND_OR
        } else if self.follows_flag() {
            reported::FLAG
        } else if self.begins_test() {
            column_fault(word)
        } else {
            reported::SYNTAX
        }
    }

    /// What is wrong with a word outside brackets, which this follows.
    fn word_before(&self, word: &str, after: &str) -> &'static str
        ensures { result.now ≡ outside_sentence self.now word.now after.now }
    {
        if self.follows_backslash() {
            reported::BACKSLASH_QUOTE
        } else if word == "within" {
            reported::END_PLACE
        } else if is_connective(word) {
            reported::CONNECTIVE
        } else if self.follows_flag() {
            reported::FLAG
        } else {
            other_word(word, after)
        }
    }

    /// What is wrong with a quote. `is_closed` says whether its literal ends.
    fn quote(&self, is_closed: bool) -> &'static str
        ensures { result.now ≡ quote_sentence self.now is_closed }
    {
        if !is_closed {
            reported::QUOTE_OPEN
        } else if self.follows_column() {
            reported::TEST_WANTED
        } else {
            reported::SYNTAX
        }
    }

    fn repetition(&self) -> &'static str
        ensures { result.now ≡ repetition_sentence self.now }
    {
        if self.follows_repetition() {
            reported::REPEATED_TWICE
        } else {
            reported::NOTHING_REPEATED
        }
    }

    fn closing_bracket(&self) -> &'static str
        ensures { result.now ≡ bracket_sentence self.now }
    {
        if self.wants_value() {
            self.value()
        } else if self.follows_column() {
            reported::TEST_WANTED
        } else {
            reported::SYNTAX
        }
    }

    /// What is said of a sign where something is so, and else that a value is wanted, or nothing more.
    fn said_if(&self, is_so: bool, sentence: &'static str) -> &'static str
        ensures { result.now ≡ said_if self.now is_so sentence.entry.now }
    {
        if is_so {
            sentence
        } else if self.wants_value() {
            self.value()
        } else {
            reported::SYNTAX
        }
    }

    /// What is wrong with an `&`: outside brackets it is no sign of a query.
    fn and(&self) -> &'static str
        ensures { result.now ≡ and_sentence self.now }
    {
        if self.brackets > 0 {
            self.said_if(ends(self.before, "&"), reported::AND_TWICE)
        } else {
            reported::AND_OUTSIDE
        }
    }

    /// What is wrong with a sign that is neither a letter nor a digit.
    fn sign(&self, sign: char) -> &'static str
        ensures { result.now ≡ sign_sentence self.now sign }
    {
        match sign {
            '%' => reported::FLAG,
            '<' => reported::TAG,
            '@' => reported::ANCHOR,
            ':' => reported::LABEL,
            ')' => reported::NO_PARENTHESIS,
            ']' => self.closing_bracket(),
            '{' | '?' | '*' | '+' => self.repetition(),
            '-' => self.said_if(begins(self.rest, "->"), reported::ARROW),
            '&' => self.and(),
            '|' => self.said_if(ends(self.before, "|"), reported::AND_TWICE),
            ';' => self.said_if(self.brackets == 0, reported::END_PLACE),
            '=' => self.said_if(ends(self.before, "="), reported::EQUALS_TWICE),
            '!' => self.said_if(self.follows_column(), reported::NOT_SPACED),
            _ => self.said_if(false, reported::SYNTAX),
        }
    }

    /// What is wrong with a word.
    fn word(&self) -> &'static str
        ensures { result.now ≡ word_sentence self.now }
    {
        let (word, after) = first_word(self.rest);
        if self.brackets > 0 {
            self.word_inside(word)
        } else {
            self.word_before(word, after)
        }
    }

    /// What is wrong with a character. `is_closed` says whether the literal ends that it begins.
    fn character(&self, c: char, is_closed: bool) -> &'static str
        ensures { result.now ≡ character_sentence self.now is_closed c }
    {
        if self.follows_end() {
            self.after_end()
        } else if self.braces > 0 {
            self.in_braces()
        } else if is_curly(c) {
            reported::CURLY_QUOTE
        } else if c == '"' || c == '\'' {
            self.quote(is_closed)
        } else if c.is_alphanumeric() {
            self.word()
        } else {
            self.sign(c)
        }
    }

    /// What is most likely meant.
    pub(crate) fn sentence(&self, is_closed: bool) -> &'static str
        ensures { result.now ≡ guess self.now is_closed }
    {
        match first_character(self.rest) {
            Some(c) => self.character(c, is_closed),
            None => self.end(),
        }
    }
}
