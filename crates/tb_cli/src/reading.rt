//! Reads a line from words.

ghost use Rattle.std.specs.Prelude.{◌≡◌, ◌≢◌, IfOk, IfErr, Some, None, Err as ErrOf, true, option_map, map};
ghost use Rattle.std.specs.String.{string_bytes};
ghost use Rattle.clap.specs.Words.{app_of, takes, fault_of, is_simple, is_simple_and_free, subcommand_of};
ghost use Rattle.clap.specs.Words.{subcommand_rows_of, rows_of, found_of};
ghost use Rattle.tb_cli.specs.Tree.{desk_app};
ghost use Rattle.tb_cli.specs.Fault.{AnswersAs, ComesOnly, IsToldAs, ReadsAs};
ghost use Rattle.tb_cli.specs.Lines.{HasNoText, SaysNoText, said_by, said_of, said_with};
ghost use Rattle.tb_cli.specs.declared.verbs.Verb.TheVariants as verb;

use crate::lines::{Line, LineFault};
use crate::tree::desk;
use crate::values::{
    attribute_in, base_in, batch_if_any, batch_in, context_in, copied, event_in, given,
    number_if_any, number_in, port_in, requests_in, strategy_in, text_of, value,
};
use crate::verbs::{Verb, verb_of};
use clap::error::ErrorKind;
use clap::{ArgMatches, Command};
use std::alloc::Global;

/// The line of a command by a user, with these values besides. They are found before a text is copied: words that are
/// no line want no memory.
macro_rules! line_by_user {
    (
        $alloc:ident, $matches:ident, $line:ident:
        $($value:ident = $find:ident $id:expr),+; $($text:ident)*
    ) => {{
        let user = given(value($matches, "user"))?;
        $(let $value = given($find($matches, $id))?;)+
        let db = copied($alloc, value($matches, "db"))?;
        let user = String::from_str($alloc, user)?;
        $(let $text = String::from_str($alloc, $text)?;)*
        Ok(Line::$line { db, user, $($value),+ })
    }};
}

/// The line of a command with these values. They are found before the name of a file is copied.
macro_rules! line_with {
    ($alloc:ident, $matches:ident, $line:ident: $($value:ident = $find:ident $id:expr),+) => {{
        $(let $value = given($find($matches, $id))?;)+
        let db = copied($alloc, value($matches, "db"))?;
        Ok(Line::$line { db, $($value),+ })
    }};
}

/// The line of a command that looks for a query, with this value besides.
macro_rules! line_of_query {
    ($alloc:ident, $matches:ident, $line:ident: $value:ident = $find:ident $id:expr) => {{
        let strategy = given(strategy_in($matches, "strategy"))?;
        let $value = given($find($matches, $id))?;
        let query = text_of($alloc, value($matches, "query"))?;
        let db = copied($alloc, value($matches, "db"))?;
        Ok(Line::$line {
            db,
            strategy,
            $value,
            query,
        })
    }};
}

fn import(alloc: Global, matches: &ArgMatches<'_>) -> Result<Line, LineFault>
    ensures { ReadsAs (said_with verb.Import (rows_of (found_of matches.now))) said_by result }
{
    line_by_user!(alloc, matches, Import: name = batch_in "name"; name)
}

fn event(alloc: Global, matches: &ArgMatches<'_>) -> Result<Line, LineFault>
    ensures { ReadsAs (said_with verb.Event (rows_of (found_of matches.now))) said_by result }
{
    line_by_user!(alloc, matches, Event: name = batch_in "name", event = event_in "event"; name)
}

fn correct(alloc: Global, matches: &ArgMatches<'_>) -> Result<Line, LineFault>
    ensures { ReadsAs (said_with verb.Correct (rows_of (found_of matches.now))) said_by result }
{
    line_by_user!(alloc, matches, Correct: no = number_in "no", base = base_in "base";)
}

fn pull(alloc: Global, matches: &ArgMatches<'_>) -> Result<Line, LineFault>
    ensures { ReadsAs (said_with verb.Pull (rows_of (found_of matches.now))) said_by result }
{
    line_by_user!(alloc, matches, Pull: no = number_in "no";)
}

fn restore(alloc: Global, matches: &ArgMatches<'_>) -> Result<Line, LineFault>
    ensures { ReadsAs (said_with verb.Restore (rows_of (found_of matches.now))) said_by result }
{
    line_by_user!(alloc, matches, Restore: no = number_in "no";)
}

fn show(alloc: Global, matches: &ArgMatches<'_>) -> Result<Line, LineFault>
    ensures value { ReadsAs (said_with verb.Show (rows_of (found_of matches.now))) said_by result }
    ensures memory { HasNoText verb.Show (rows_of (found_of matches.now)) → result ≢ ErrOf LineFault.Memory }
{
    line_with!(alloc, matches, Show: no = number_in "no", rev = number_if_any "rev")
}

fn export(alloc: Global, matches: &ArgMatches<'_>) -> Result<Line, LineFault>
    ensures value { ReadsAs (said_with verb.Export (rows_of (found_of matches.now))) said_by result }
    ensures memory { HasNoText verb.Export (rows_of (found_of matches.now)) → result ≢ ErrOf LineFault.Memory }
{
    let name = given(batch_if_any(matches, "name"))?;
    let db = copied(alloc, value(matches, "db"))?;
    let name = copied(alloc, name)?;
    Ok(Line::Export { db, name })
}

fn totals(alloc: Global, matches: &ArgMatches<'_>) -> Result<Line, LineFault>
    ensures value { ReadsAs (said_with verb.Totals (rows_of (found_of matches.now))) said_by result }
    ensures memory { HasNoText verb.Totals (rows_of (found_of matches.now)) → result ≢ ErrOf LineFault.Memory }
{
    let db = copied(alloc, value(matches, "db"))?;
    Ok(Line::Totals { db })
}

fn moves(alloc: Global, matches: &ArgMatches<'_>) -> Result<Line, LineFault>
    ensures value { ReadsAs (said_with verb.Moves (rows_of (found_of matches.now))) said_by result }
    ensures memory { HasNoText verb.Moves (rows_of (found_of matches.now)) → result ≢ ErrOf LineFault.Memory }
{
    let db = copied(alloc, value(matches, "db"))?;
    Ok(Line::Moves { db })
}

fn search(alloc: Global, matches: &ArgMatches<'_>) -> Result<Line, LineFault>
    ensures { ReadsAs (said_with verb.Search (rows_of (found_of matches.now))) said_by result }
{
    line_of_query!(alloc, matches, Search: context = context_in "context")
}

fn count(alloc: Global, matches: &ArgMatches<'_>) -> Result<Line, LineFault>
    ensures { ReadsAs (said_with verb.Count (rows_of (found_of matches.now))) said_by result }
{
    line_of_query!(alloc, matches, Count: attribute = attribute_in "attribute")
}

fn serve(alloc: Global, matches: &ArgMatches<'_>) -> Result<Line, LineFault>
    ensures value { ReadsAs (said_with verb.Serve (rows_of (found_of matches.now))) said_by result }
    ensures memory { HasNoText verb.Serve (rows_of (found_of matches.now)) → result ≢ ErrOf LineFault.Memory }
{
    line_with!(alloc, matches, Serve: port = port_in "port", requests = requests_in "requests")
}

/// The line of a command with these values.
fn line_of(alloc: Global, verb: Verb, values: &ArgMatches<'_>) -> Result<Line, LineFault>
    ensures value { ReadsAs (said_with verb (rows_of (found_of values.now))) said_by result }
    ensures memory { HasNoText verb (rows_of (found_of values.now)) → result ≢ ErrOf LineFault.Memory }
{
    match verb {
        Verb::Check => Ok(Line::Check),
        Verb::New => {
            let db = text_of(alloc, value(values, "db"))?;
            Ok(Line::New { db })
        }
        Verb::Migrate => {
            let db = text_of(alloc, value(values, "db"))?;
            Ok(Line::Migrate { db })
        }
        Verb::Import => import(alloc, values),
        Verb::Event => event(alloc, values),
        Verb::Correct => correct(alloc, values),
        Verb::Pull => pull(alloc, values),
        Verb::Restore => restore(alloc, values),
        Verb::Show => show(alloc, values),
        Verb::Export => export(alloc, values),
        Verb::Totals => totals(alloc, values),
        Verb::Moves => moves(alloc, values),
        Verb::Search => search(alloc, values),
        Verb::Count => count(alloc, values),
        Verb::Serve => serve(alloc, values),
    }
}

/// The subcommand in the words, with its values.
pub(crate) fn entered<'a, 'm>(matches: &'m ArgMatches<'a>) -> Option<(&'a str, &'m ArgMatches<'a>)>
    ensures { option_map (λ p. (p.0.now, rows_of (found_of p.1.now))) result ≡ subcommand_rows_of matches.now }
{
    matches.subcommand()
}

/// What an error of clap is told as. Want of memory has no text of clap's.
fn fault_by(error: clap::Error) -> LineFault
    ensures { IsToldAs error result }
{
    if error.kind() == ErrorKind::OutOfMemory {
        return LineFault::Memory;
    }
    LineFault::Clap(error)
}

/// What a command finds in the words.
pub(crate) fn found_by<'a>(
    command: Command<'a>,
    words: &'a [String],
) -> Result<ArgMatches<'a>, LineFault>
    ensures ok { is_simple (app_of command.entry) ≡ true → IfOk result (λ m.
        subcommand_rows_of m ≡ subcommand_of (app_of command.entry) (map string_bytes words.now)) }
    ensures err { IfErr result (λ e. ComesOnly e
        (takes (app_of command.entry) (map string_bytes words.now) ≢ true) ⊥) }
    ensures answers { is_simple_and_free (app_of command.entry) ≡ true
        → AnswersAs (fault_of (app_of command.entry) (map string_bytes words.now)) result }
{
    match command.try_get_matches_from(words) {
        Ok(matches) => Ok(matches),
        Err(error) => Err(fault_by(error)),
    }
}

/// What clap finds in the words.
fn parsed(alloc: Global, words: &[String]) -> Result<ArgMatches<'_>, LineFault>
    ensures ok { IfOk result (λ m. subcommand_rows_of m ≡ subcommand_of desk_app (map string_bytes words.now)) }
    ensures err { IfErr result (λ e. ComesOnly e (takes desk_app (map string_bytes words.now) ≢ true) ⊥) }
    ensures answers { AnswersAs (fault_of desk_app (map string_bytes words.now)) result }
{
    found_by(desk(alloc)?, words)
}

/// The line that clap's matches say. Only a line with a text needs memory.
fn line_in(alloc: Global, matches: &ArgMatches<'_>) -> Result<Line, LineFault>
    ensures value { ReadsAs (said_of (subcommand_rows_of matches.now)) said_by result }
    ensures memory { SaysNoText (subcommand_rows_of matches.now) → result ≢ ErrOf LineFault.Memory }
{
    match entered(matches) {
        Some((name, values)) => match verb_of(name) {
            Some(verb) => line_of(alloc, verb, values),
            None => Err(LineFault::Usage),
        },
        None => Err(LineFault::Usage),
    }
}

impl Line {
    ghost use Rattle.std.specs.Prelude.{◌≡◌, ◌≢◌, IfOk, IfErr, Some, None, true, map};
    ghost use Rattle.std.specs.String.{string_bytes};
    ghost use Rattle.clap.specs.Words.{takes, fault_of, subcommand_of};
    ghost use Rattle.tb_cli.specs.Tree.{desk_app};
    ghost use Rattle.tb_cli.specs.Fault.{AnswersAs, ComesOnly};
    ghost use Rattle.tb_cli.specs.Lines.{said_by, said_of};

    /// Reads a line from words, the program's name first.
    ///
    /// # Errors
    ///
    /// `Clap`: clap's definition does not accept the words, and has an error of this kind for them. `Usage`: it
    /// accepts them, but there is no command, or a value does not have its form. `Memory`: want of memory. So words
    /// that clap refuses are never a line.
    pub fn read(alloc: Global, words: &[String]) -> Result<Line, LineFault>
        ensures ok { IfOk result (λ line. said_of (subcommand_of desk_app (map string_bytes words.now))
            ≡ Some (said_by line)) }
        ensures err { IfErr result (λ e. ComesOnly e (takes desk_app (map string_bytes words.now) ≢ true)
            (said_of (subcommand_of desk_app (map string_bytes words.now)) ≡ None)) }
        ensures answers { AnswersAs (fault_of desk_app (map string_bytes words.now)) result }
    {
        let matches = parsed(alloc, words)?;
        line_in(alloc, &matches)
    }
}
