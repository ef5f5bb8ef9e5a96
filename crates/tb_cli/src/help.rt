//! The texts of help: of the whole command, and of each command.

ghost use Rattle.std.specs.Prelude.{◌≡◌};
ghost use Rattle.tb_cli.specs.Help.{about_text, ending_text};

use crate::verbs::Verb;
use crate::{abouts, endings};

/// The text of help after the list of commands: examples and notes, and the exit statuses.
macro_rules! program_ending {
    ($notes:literal, $refused:literal) => {
        concat!(
            $notes,
            "\n\nExit status:\n  0  done; help and the version too\n  1  ",
            $refused,
            "\n  2  wrong words on the command line\n  3  out of memory, or an I/O error\n\nEnvironment:\n  \
             TREEDESK_EXPLAIN=1  explain each refusal on standard error, also where that is no terminal"
        )
    };
}

pub(crate) use program_ending;

/// The text of help after the list of commands.
pub const ENDING: &str = program_ending!(
    "\
Examples:
  treedesk check < news.conllu
  treedesk new --db desk.db
  treedesk import --db desk.db --user ann news-1 < news.conllu
  treedesk search --db desk.db '[upos=\"ADJ\"] [lemma=\"book\"]'

Every command but check, new and migrate works on a desk in memory unless --db names a file.
`treedesk help COMMAND` shows what a command takes and prints, with an example.",
    "refused; nothing was changed"
);

/// What the whole program does.
pub(crate) const ABOUT: &str =
    "A treebank desk for CoNLL-U files: check, import, correct, release, search and count";

/// The constant of a module that stands beside the command.
macro_rules! text_by {
    ($verb:ident, $texts:ident, $verbs:ident: $($command:ident $text:ident),+) => {
        match $verb {
            $($verbs::$command => $texts::$text,)+
        }
    };
}

pub(crate) use text_by;

/// The text of a command, which is the constant of its name in this module.
macro_rules! command_text {
    ($verb:ident, $texts:ident) => {
        text_by!(
            $verb, $texts, Verb:
            Check CHECK, New NEW, Migrate MIGRATE, Import IMPORT, Event EVENT, Correct CORRECT,
            Pull PULL, Restore RESTORE, Show SHOW, Export EXPORT, Totals TOTALS, Moves MOVES,
            Search SEARCH, Count COUNT, Serve SERVE
        )
    };
}

/// What a command does, as the list of commands shows it.
pub fn about<'a>(verb: Verb) -> &'a str
    ensures { result.now ≡ about_text verb }
{
    command_text!(verb, abouts)
}

/// The end of a command's help: what to know about it, an example, and the exit statuses.
pub fn ending<'a>(verb: Verb) -> &'a str
    ensures { result.now ≡ ending_text verb }
{
    command_text!(verb, endings)
}
