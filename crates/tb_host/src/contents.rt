//! What the bytes of a file and of its log show of its tables, before the database opens them.

ghost use Rattle.std.specs.Prelude.{◌≡◌, ◌↔◌, [], ◌∷◌, IsTrue, Some, drop, slice_get};
ghost use Rattle.tb_host.specs.Contents.{BeginsWith, Has, ListsTables, IsListed, AreZero, ListsNone, IsBlank};
ghost use Rattle.tb_host.specs.Contents.{IsUnwritten, AreBegun};

use memchr::memmem;

/// The header of a database file after its first byte (the file format of SQLite, section 1.3).
const HEADER_REST: &[u8] = b"QLite format 3\0";

/// The bytes of a log after its first byte, which a desk writes last (section 4.1).
const LOG_MAGIC: &[u8] = b"\x7f\x06";

/// The size of a page of a desk's file, in bytes.
pub(crate) const PAGE_BYTES: u64 = 4096;

/// How many bytes of a log precede its first page: the log's header and the page's (section 4.1).
const BEFORE_FIRST_PAGE: usize = 56;

/// The version of a desk. Both sets of tables are in use; today's has one table more.
#[derive(Clone, Copy, Debug, PartialEq, Eq)]
pub(crate) enum Version {
    One,
    Two,
}

/// Whether the text is in the bytes.
fn has(bytes: &[u8], text: &str) -> bool
    ensures { IsTrue result ↔ Has bytes.now text.now }
{
    memmem::find(bytes, text.as_bytes()).is_some()
}

/// Whether the bytes list the tables that every desk has.
fn lists_tables(bytes: &[u8]) -> bool
    ensures { IsTrue result ↔ ListsTables bytes.now }
{
    has(bytes, "tablemetameta")
        && has(bytes, "tablebatchesbatches")
        && has(bytes, "tablesentencessentences")
        && has(bytes, "tablerevisionsrevisions")
        && has(bytes, "tablemovesmoves")
        && has(bytes, "tabletotalstotals")
}

/// The version of the desk whose tables these bytes list.
pub(crate) fn listed_in(bytes: &[u8]) -> Option<Version>
    ensures { IsListed bytes.now result }
{
    if !lists_tables(bytes) {
        None
    } else if has(bytes, "tablepulledpulled") {
        Some(Version::Two)
    } else {
        Some(Version::One)
    }
}

fn are_zero(bytes: &[u8]) -> bool
    ensures { IsTrue result ↔ AreZero bytes.now }
{
    for byte in bytes {
        if *byte != 0 {
            return false;
        }
    }
    true
}

/// Whether the bytes after the first begin with the text.
fn goes_on_with(bytes: &[u8], text: &[u8]) -> bool
    ensures { IsTrue result ↔ BeginsWith (drop 1 bytes.now) text.now }
{
    match bytes.get(1..) {
        Some(rest) => rest.starts_with(text),
        None => text.is_empty(),
    }
}

/// Whether this byte is at this place.
fn has_byte(bytes: &[u8], at: usize, byte: u8) -> bool
    ensures { IsTrue result ↔ (slice_get bytes.now at ≡ Some byte) }
{
    match bytes.get(at) {
        Some(found) => *found == byte,
        None => false,
    }
}

/// Whether these bytes begin a database whose first page lists no table.
fn lists_none(head: &[u8]) -> bool
    ensures { IsTrue result ↔ ListsNone head.now }
{
    goes_on_with(head, HEADER_REST)
        && has_byte(head, 100, 13)
        && has_byte(head, 103, 0)
        && has_byte(head, 104, 0)
}

/// Whether a file has no table. It is empty, or its first page lists none, or it is the remainder of such a page that
/// was not completely written.
pub(crate) fn is_blank(head: &[u8]) -> bool
    ensures { IsTrue result ↔ IsBlank head.now }
{
    if are_zero(head) {
        return head.len() as u64 <= PAGE_BYTES;
    }
    lists_none(head)
}

/// Whether bytes without a readable header may be a log that a desk has left before it wrote the header.
pub(crate) fn is_unwritten(log: &[u8]) -> bool
    ensures { IsTrue result ↔ IsUnwritten log.now }
{
    goes_on_with(log, LOG_MAGIC) || are_zero(log.get(..4).unwrap_or(log))
}

/// Whether the first page is the only one.
fn is_first_alone(pages: &[u32]) -> bool
    ensures { IsTrue result ↔ (pages.now ≡ 1 ∷ []) }
{
    match pages {
        [page] => *page == 1,
        _ => false,
    }
}

/// Whether the log has only the first page, and that page lists no table. `new` begins so, and may have been stopped
/// there.
pub(crate) fn are_begun(log: &[u8], pages: &[u32]) -> bool
    ensures { IsTrue result ↔ AreBegun log.now pages.now }
{
    match log.get(BEFORE_FIRST_PAGE..) {
        Some(first) => is_first_alone(pages) && is_blank(first),
        None => false,
    }
}
