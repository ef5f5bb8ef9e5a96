//! The commands of `deskview` by their words.

ghost use Rattle.std.specs.Prelude.{◌≡◌};
ghost use Rattle.tb_cli.specs.View.{view_word};

/// A command of deskview.
#[derive(Clone, Copy)]
pub(crate) enum ViewVerb {
    Batches,
    Sentences,
    Revisions,
    Find,
    Tree,
    Check,
    Page,
}

/// The commands in the order of help.
pub(crate) const VIEW_VERBS: [ViewVerb; 7] = [
    ViewVerb::Batches,
    ViewVerb::Sentences,
    ViewVerb::Revisions,
    ViewVerb::Find,
    ViewVerb::Tree,
    ViewVerb::Check,
    ViewVerb::Page,
];

/// The word of a command of deskview.
pub(crate) fn view_word<'a>(verb: ViewVerb) -> &'a str
    ensures { result.now ≡ view_word verb }
{
    match verb {
        ViewVerb::Batches => "batches",
        ViewVerb::Sentences => "sentences",
        ViewVerb::Revisions => "revisions",
        ViewVerb::Find => "find",
        ViewVerb::Tree => "tree",
        ViewVerb::Check => "check",
        ViewVerb::Page => "page",
    }
}
