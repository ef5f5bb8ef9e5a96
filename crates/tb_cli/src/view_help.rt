//! The texts of help of `deskview`: of the whole command, and of each command.

ghost use Rattle.std.specs.Prelude.{◌≡◌};
ghost use Rattle.tb_cli.specs.Help.{view_about_text, view_ending_text};

use crate::help::{program_ending, text_by};
use crate::view_verbs::ViewVerb;
use crate::{view_abouts, view_endings};

/// The text of help after the list of commands.
pub const ENDING: &str = program_ending!(
    "\
Examples:
  deskview batches --db desk.db
  deskview sentences --db desk.db news
  deskview revisions --db desk.db 7
  deskview find --db desk.db en-7
  deskview tree --db desk.db 7 > tree.html
  deskview tree < news.conllu > trees.html
  deskview check < news.conllu
  deskview page --db desk.db --port 8080

`check` reads a file on standard input, `tree` without --db too, and each other command the desk in the file that --db
names. `page` shows the desk in a browser until you end the program, and `tree` prints a page for a browser. The others
print a list as CSV. All but `page` change nothing of the desk. `deskview help COMMAND` shows what a command takes and
prints, with an example.",
    "refused; a file that `check` finds at fault too"
);

/// What deskview does.
pub(crate) const ABOUT: &str =
    "Lists and trees of what a treebank desk holds, the faults of a file, and the desk in a browser";

/// The text of a command of deskview, which is the constant of its name in this module.
macro_rules! command_text {
    ($verb:ident, $texts:ident) => {
        text_by!(
            $verb, $texts, ViewVerb:
            Batches BATCHES, Sentences SENTENCES, Revisions REVISIONS, Find FIND, Tree TREE,
            Check CHECK, Page PAGE
        )
    };
}

/// What a command of deskview does, as the list of commands shows it.
pub(crate) fn view_about<'a>(verb: ViewVerb) -> &'a str
    ensures { result.now ≡ view_about_text verb }
{
    command_text!(verb, view_abouts)
}

/// The end of the help of a command of deskview.
pub(crate) fn view_ending<'a>(verb: ViewVerb) -> &'a str
    ensures { result.now ≡ view_ending_text verb }
{
    command_text!(verb, view_endings)
}
