//! The commands by their words.

ghost use Rattle.std.specs.Prelude.{◌≡◌, bytes_eq};
ghost use Rattle.tb_cli.specs.Lines.{verb_of};
ghost use Rattle.tb_cli.specs.Tree.{word_of};

/// A command.
#[derive(Clone, Copy)]
pub enum Verb {
    Check,
    New,
    Migrate,
    Import,
    Event,
    Correct,
    Pull,
    Restore,
    Show,
    Export,
    Totals,
    Moves,
    Search,
    Count,
    Serve,
}

/// The commands in the order of help.
pub const VERBS: [Verb; 15] = [
    Verb::Check,
    Verb::New,
    Verb::Migrate,
    Verb::Import,
    Verb::Event,
    Verb::Correct,
    Verb::Pull,
    Verb::Restore,
    Verb::Show,
    Verb::Export,
    Verb::Totals,
    Verb::Moves,
    Verb::Search,
    Verb::Count,
    Verb::Serve,
];

/// The word of a command.
pub fn word_of<'a>(verb: Verb) -> &'a str
    ensures { result.now ≡ word_of verb }
{
    match verb {
        Verb::Check => "check",
        Verb::New => "new",
        Verb::Migrate => "migrate",
        Verb::Import => "import",
        Verb::Event => "event",
        Verb::Correct => "correct",
        Verb::Pull => "pull",
        Verb::Restore => "restore",
        Verb::Show => "show",
        Verb::Export => "export",
        Verb::Totals => "totals",
        Verb::Moves => "moves",
        Verb::Search => "search",
        Verb::Count => "count",
        Verb::Serve => "serve",
    }
}

/// Whether a text is this word.
pub(crate) fn is_word(text: &str, word: &str) -> bool
    ensures { result ≡ bytes_eq text.now word.now }
{
    text == word
}

/// The one of these commands whose word is the name, if there is one.
macro_rules! named {
    ($name:ident, $($verb:ident)+) => {{
        $(if is_word($name, word_of(Verb::$verb)) {
            return Some(Verb::$verb);
        })+
        None
    }};
}

/// The command with that word.
pub fn verb_of(name: &str) -> Option<Verb>
    ensures { result ≡ verb_of name.now }
{
    named!(
        name,
        Check New Migrate Import Event Correct Pull Restore Show Export Totals Moves Search Count Serve
    )
}
