//! The files of the page.

use crate::heads::Kind;
use crate::paths::File;
use tb_assets::{
    CONLLU_JS, DESK_JS, EDIT_JS, FIND_JS, INDEX_HTML, PAGE_CSS, PAGE_JS, ROWS_JS, TREE_JS,
};

impl File {
    ghost use Rattle.std.specs.Prelude.{◌≡◌};
    ghost use Rattle.tb_page.specs.Files.{file_kind, file_text};

    /// Its text.
    pub(crate) fn text(self) -> &'static str
        ensures { result.now ≡ file_text self }
    {
        match self {
            File::Index => INDEX_HTML,
            File::Style => PAGE_CSS,
            File::Desk => DESK_JS,
            File::Rows => ROWS_JS,
            File::Conllu => CONLLU_JS,
            File::Tree => TREE_JS,
            File::Edit => EDIT_JS,
            File::Find => FIND_JS,
            File::Page => PAGE_JS,
        }
    }

    /// The type of its text.
    pub(crate) fn kind(self) -> Kind
        ensures { result ≡ file_kind self }
    {
        match self {
            File::Index => Kind::Html,
            File::Style => Kind::Css,
            _ => Kind::JavaScript,
        }
    }
}
