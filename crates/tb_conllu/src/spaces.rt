//! Finds bytes of a line that white space may begin with.

ghost use Rattle.std.specs.Prelude.{◌≡◌, ◌≤◌, ◌+◌, ◌*◌, ◌/◌, length, take};
ghost use Rattle.std.specs.List.{list_any};
ghost use Rattle.tb_conllu.specs.Plain.{is_loose, is_wide};

use tb_chars::may_begin_white;

/// Whether some byte other than a tab may begin white space. In most lines none does, so their fields need no further
/// test.
pub fn any_loose(bytes: &[u8]) -> bool
    ensures { result ≡ list_any is_loose bytes.now }
{
    let mut loose = false;
    for b in bytes {
        loose |= may_begin_white(*b) && *b != 9;
    }
    loose
}

/// The same for bytes other than tabs and line feeds.
fn any_wide(bytes: &[u8]) -> bool
    ensures { result ≡ list_any is_wide bytes.now }
{
    let mut wide = false;
    for b in bytes {
        wide |= may_begin_white(*b) && *b != 9 && *b != 10;
    }
    wide
}

/// The same for the bytes before `end` and some after it, if there are any. Testing 32 at a time is faster than one by
/// one.
pub fn any_wide_near(bytes: &[u8], end: usize) -> bool
    requires { end ≤ length bytes.now }
    ensures { result ≡ list_any is_wide (take ((end / 32 + 1) * 32) bytes.now) }
{
    any_wide(&bytes[..bytes.len().min((end / 32 + 1) * 32)])
}
