//! Reads a line of `deskview` from words.

ghost use Rattle.std.specs.Prelude.{◌≡◌, ◌≢◌, IfOk, IfErr, IfSome, None, Err as ErrOf, codes, is_some, false, true, map};
ghost use Rattle.std.specs.String.{string_bytes};
ghost use Rattle.clap.specs.Words.{takes, fault_of, subcommand_of, subcommand_rows_of, rows_of, found_of, first_of};
ghost use Rattle.tb_cli.specs.Fault.{AnswersAs, ComesOnly, ReadsAs};
ghost use Rattle.tb_cli.specs.Lines.{formed, with_one};
ghost use Rattle.tb_cli.specs.View.{check_with, find_with, names_desk, page_with, revisions_with, sentences_with};
ghost use Rattle.tb_cli.specs.View.{tree_of, tree_said, tree_with, view_app, viewed_by, viewed_of, viewed_with};
ghost use Rattle.tb_http.specs.Forms.{number_of};

use crate::lines::{LineFault, ViewLine, ViewList};
use crate::reading::{entered, found_by};
use crate::values::{batch_in, given, most_in, number_in, port_in, text_of, value};
use crate::verbs::is_word;
use crate::view_tree::deskview;
use clap::ArgMatches;
use std::alloc::Global;

/// What clap finds in the words.
fn parsed(alloc: Global, words: &[String]) -> Result<ArgMatches<'_>, LineFault>
    ensures ok { IfOk result (λ m. subcommand_rows_of m ≡ subcommand_of view_app (map string_bytes words.now)) }
    ensures err { IfErr result (λ e. ComesOnly e (takes view_app (map string_bytes words.now) ≢ true) ⊥) }
    ensures answers { AnswersAs (fault_of view_app (map string_bytes words.now)) result }
{
    found_by(deskview(alloc)?, words)
}

/// The file of the desk, which each list needs.
fn file_in(alloc: Global, values: &ArgMatches<'_>) -> Result<String, LineFault>
    ensures { ReadsAs (first_of (codes "db") (rows_of (found_of values.now))) string_bytes result }
{
    text_of(alloc, value(values, "db"))
}

/// The line of a list of what a text names. The text is found before one is copied.
macro_rules! list_by_name {
    ($alloc:ident, $values:ident, $list:ident: $name:ident = $find:ident $id:expr) => {{
        let $name = given($find($values, $id))?;
        let db = file_in($alloc, $values)?;
        let $name = String::from_str($alloc, $name)?;
        Ok(ViewLine::List {
            db,
            list: ViewList::$list { $name },
        })
    }};
}

fn sentences(alloc: Global, values: &ArgMatches<'_>) -> Result<ViewLine, LineFault>
    ensures { ReadsAs (sentences_with (rows_of (found_of values.now))) viewed_by result }
{
    list_by_name!(alloc, values, Sentences: name = batch_in "name")
}

fn revisions(alloc: Global, values: &ArgMatches<'_>) -> Result<ViewLine, LineFault>
    ensures { ReadsAs (revisions_with (rows_of (found_of values.now))) viewed_by result }
{
    let no = given(number_in(values, "no"))?;
    let db = file_in(alloc, values)?;
    Ok(ViewLine::List {
        db,
        list: ViewList::Revisions { no },
    })
}

/// A `sent_id` may be any text.
fn find(alloc: Global, values: &ArgMatches<'_>) -> Result<ViewLine, LineFault>
    ensures { ReadsAs (find_with (rows_of (found_of values.now))) viewed_by result }
{
    list_by_name!(alloc, values, Find: sent_id = value "sent_id")
}

/// The tree of the sentence with the number in the values, of the desk in this file.
fn tree_of_desk(alloc: Global, db: &str, values: &ArgMatches<'_>) -> Result<ViewLine, LineFault>
    ensures { ReadsAs (with_one (tree_of db.now)
        (formed number_of (first_of (codes "no") (rows_of (found_of values.now))))) viewed_by result }
{
    let number = given(number_in(values, "no"))?;
    let db = String::from_str(alloc, db)?;
    Ok(ViewLine::List {
        db,
        list: ViewList::Tree { no: number },
    })
}

/// The trees of standard input. A number would be that of a sentence in no desk.
fn trees(values: &ArgMatches<'_>) -> Result<ViewLine, LineFault>
    ensures value { ReadsAs (tree_said None (first_of (codes "no") (rows_of (found_of values.now)))) viewed_by result }
    ensures memory { result ≢ ErrOf LineFault.Memory }
{
    match value(values, "no") {
        Some(_) => Err(LineFault::Usage),
        None => Ok(ViewLine::Trees),
    }
}

fn tree(alloc: Global, values: &ArgMatches<'_>) -> Result<ViewLine, LineFault>
    ensures value { ReadsAs (tree_with (rows_of (found_of values.now))) viewed_by result }
    ensures memory { is_some (first_of (codes "db") (rows_of (found_of values.now))) ≡ false
        → result ≢ ErrOf LineFault.Memory }
{
    match value(values, "db") {
        Some(db) => tree_of_desk(alloc, db, values),
        None => trees(values),
    }
}

fn check(values: &ArgMatches<'_>) -> Result<ViewLine, LineFault>
    ensures value { ReadsAs (check_with (rows_of (found_of values.now))) viewed_by result }
    ensures memory { result ≢ ErrOf LineFault.Memory }
{
    let most = given(most_in(values, "most"))?;
    Ok(ViewLine::Check { most })
}

fn page(alloc: Global, values: &ArgMatches<'_>) -> Result<ViewLine, LineFault>
    ensures { ReadsAs (page_with (rows_of (found_of values.now))) viewed_by result }
{
    let port = given(port_in(values, "port"))?;
    let db = file_in(alloc, values)?;
    Ok(ViewLine::Page { db, port })
}

/// The line of the command with this word, and with these values.
fn line_of(alloc: Global, word: &str, values: &ArgMatches<'_>) -> Result<ViewLine, LineFault>
    ensures value { ReadsAs (viewed_with word.now (rows_of (found_of values.now))) viewed_by result }
    ensures memory { names_desk word.now (rows_of (found_of values.now)) ≡ false
        → result ≢ ErrOf LineFault.Memory }
{
    if is_word(word, "batches") {
        let db = file_in(alloc, values)?;
        Ok(ViewLine::List {
            db,
            list: ViewList::Batches,
        })
    } else if is_word(word, "sentences") {
        sentences(alloc, values)
    } else if is_word(word, "revisions") {
        revisions(alloc, values)
    } else if is_word(word, "find") {
        find(alloc, values)
    } else if is_word(word, "tree") {
        tree(alloc, values)
    } else if is_word(word, "check") {
        check(values)
    } else if is_word(word, "page") {
        page(alloc, values)
    } else {
        Err(LineFault::Usage)
    }
}

/// The line that clap's matches say. Only a line that names a desk needs memory.
fn line_in(alloc: Global, matches: &ArgMatches<'_>) -> Result<ViewLine, LineFault>
    ensures value { ReadsAs (viewed_of (subcommand_rows_of matches.now)) viewed_by result }
    ensures memory { IfSome (subcommand_rows_of matches.now) (λ p. names_desk p.0 p.1 ≡ false)
        → result ≢ ErrOf LineFault.Memory }
{
    match entered(matches) {
        Some((word, values)) => line_of(alloc, word, values),
        None => Err(LineFault::Usage),
    }
}

impl ViewLine {
    ghost use Rattle.std.specs.Prelude.{◌≡◌, ◌≢◌, IfOk, IfErr, Some, None, true, map};
    ghost use Rattle.std.specs.String.{string_bytes};
    ghost use Rattle.clap.specs.Words.{takes, fault_of, subcommand_of};
    ghost use Rattle.tb_cli.specs.Fault.{AnswersAs, ComesOnly};
    ghost use Rattle.tb_cli.specs.View.{view_app, viewed_by, viewed_of};

    /// Reads a line from words, the program's name first.
    ///
    /// # Errors
    ///
    /// `Clap`: clap's definition does not accept the words, and has an error of this kind for them. `Usage`: it
    /// accepts them, but there is no command, or no desk is named, or a value does not have its form. `Memory`: want of
    /// memory.
    pub fn read(alloc: Global, words: &[String]) -> Result<ViewLine, LineFault>
        ensures ok { IfOk result (λ line. viewed_of (subcommand_of view_app (map string_bytes words.now))
            ≡ Some (viewed_by line)) }
        ensures err { IfErr result (λ e. ComesOnly e (takes view_app (map string_bytes words.now) ≢ true)
            (viewed_of (subcommand_of view_app (map string_bytes words.now)) ≡ None)) }
        ensures answers { AnswersAs (fault_of view_app (map string_bytes words.now)) result }
    {
        let matches = parsed(alloc, words)?;
        line_in(alloc, &matches)
    }
}
