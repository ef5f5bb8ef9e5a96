//! The paths of the page.

ghost use Rattle.std.specs.Prelude.{◌≡◌, ℕ, List, None, option_map};
ghost use Rattle.std.specs.Option.{option_copied};
ghost use Rattle.tb_http.specs.Actions.{place_of};
ghost use Rattle.tb_page.specs.Paths.{IsPath, file_at, is_check, list_at, list_by, rest_after, sent_id_at};
ghost use Rattle.tb_page.specs.Paths.{sentences_at, value_at};

use tb_http::{number_of, text_of};

/// A file of the page.
#[derive(Clone, Copy, Debug, PartialEq, Eq)]
pub enum File {
    /// `/`
    Index,
    /// `/page/page.css`
    Style,
    /// `/page/desk.js`
    Desk,
    /// `/page/rows.js`
    Rows,
    /// `/page/conllu.js`
    Conllu,
    /// `/page/tree.js`
    Tree,
    /// `/page/edit.js`
    Edit,
    /// `/page/find.js`
    Find,
    /// `/page/page.js`
    Page,
}

/// What the page reads of the desk, beside the desk's own paths.
#[derive(Clone, Copy, Debug)]
pub enum PageList<'b> {
    /// `/page/now`: how many batches, sentences and moves there are.
    Counts,
    /// `/page/batches`: all batches.
    Batches,
    /// `/page/batches/{no}`: the sentences of the batch with this number.
    Sentences(u64),
    /// `/page/sent-id/{sent_id}`: the sentence with this `sent_id`, in which percent escapes stand for bytes.
    SentId(&'b [u8]),
}

/// A law: no path of the page is one of the desk's.
pub fn no_path_of_the_page_is_the_desks()
    ensures { (path : List ℕ) → IsPath path → place_of path ≡ None }
{}

/// Whether a text is checked at a path.
pub(crate) fn is_check(path: &[u8]) -> bool
    ensures { result ≡ is_check path.now }
{
    path == b"/page/check".as_slice()
}

/// The value beside the first of these paths that a path is.
macro_rules! by_path {
    ($path:ident: $($text:literal => $value:expr,)+) => {{
        $(if $path == $text.as_slice() {
            return Some($value);
        })+
        None
    }};
}

/// The file at a path.
pub(crate) fn file_at(path: &[u8]) -> Option<File>
    ensures { result ≡ file_at path.now }
{
    by_path!(path:
        b"/" => File::Index,
        b"/page/page.css" => File::Style,
        b"/page/desk.js" => File::Desk,
        b"/page/rows.js" => File::Rows,
        b"/page/conllu.js" => File::Conllu,
        b"/page/tree.js" => File::Tree,
        b"/page/edit.js" => File::Edit,
        b"/page/find.js" => File::Find,
        b"/page/page.js" => File::Page,
    )
}

/// The rest of a text, where it begins with `front`.
pub(crate) fn rest_after<'b>(text: &'b [u8], front: &[u8]) -> Option<&'b [u8]>
    ensures { option_copied result ≡ rest_after front.now text.now }
{
    text.strip_prefix(front)
}

fn sentences_at(path: &[u8]) -> Option<PageList<'_>>
    ensures { option_map list_by result ≡ sentences_at path.now }
{
    let Some(no) = rest_after(path, b"/page/batches/") else {
        return None;
    };
    let Some(no) = number_of(text_of(no)) else {
        return None;
    };
    Some(PageList::Sentences(no))
}

fn sent_id_at(path: &[u8]) -> Option<PageList<'_>>
    ensures { option_map list_by result ≡ sent_id_at path.now }
{
    let Some(sent_id) = rest_after(path, b"/page/sent-id/") else {
        return None;
    };
    Some(PageList::SentId(sent_id))
}

/// A list that a path with a value names.
fn value_at(path: &[u8]) -> Option<PageList<'_>>
    ensures { option_map list_by result ≡ value_at path.now }
{
    let Some(sentences) = sentences_at(path) else {
        return sent_id_at(path);
    };
    Some(sentences)
}

/// The list that a path names.
pub(crate) fn list_at(path: &[u8]) -> Option<PageList<'_>>
    ensures { option_map list_by result ≡ list_at path.now }
{
    if path == b"/page/now".as_slice() {
        Some(PageList::Counts)
    } else if path == b"/page/batches".as_slice() {
        Some(PageList::Batches)
    } else {
        value_at(path)
    }
}
