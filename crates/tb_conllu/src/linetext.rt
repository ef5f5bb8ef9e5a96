//! The text of one line.

ghost use Rattle.std.specs.Prelude.{◌≡◌, Bool, IfOk, IfErr, IsOk, IsTrue, MatchOption, not, false, true};
ghost use Rattle.std.specs.List.{list_any};
ghost use Rattle.std.specs.Str.{IsUtf8};
ghost use Rattle.tb_conllu.specs.Lines.{is_nfc_text};
ghost use Rattle.tb_conllu.specs.Plain.{is_beyond_latin, is_stray};
ghost use Rattle.tb_conllu.specs.Refusal.{IsRefusal};
ghost use Rattle.tb_conllu.specs.Shape.{is_control, IsLineText};
ghost use Rattle.tb_conllu.specs.Tested.{HoldsOf, HoldsOfLine};

use crate::fault::ReadFault;
use simdutf8::is_utf8;
use std::alloc::{AllocError, Global};
use unicode_normalization::is_nfc;

/// What one pass over all bytes found, which then holds of each of their lines.
#[derive(Clone, Copy)]
pub struct Tested {
    /// No byte is a control character other than tab and line feed.
    pub quiet: bool,
    /// The bytes are UTF-8.
    pub utf8: bool,
    /// No character is U+0300 or above.
    pub latin: bool,
}

/// Whether some byte is a control character other than tab.
fn any_control(bytes: &[u8]) -> bool
    ensures { result ≡ list_any is_control bytes.now }
{
    let mut seen = false;
    for b in bytes {
        seen |= *b < 32 && *b != 9;
    }
    seen
}

/// Whether some byte is a control character other than tab and line feed.
fn any_stray(bytes: &[u8]) -> bool
    ensures { result ≡ list_any is_stray bytes.now }
{
    let mut seen = false;
    for b in bytes {
        seen |= *b < 32 && *b != 9 && *b != 10;
    }
    seen
}

/// Whether some character is U+0300 or above, by the first bytes of characters. Normalization form C does not change
/// those below.
fn any_beyond_latin(bytes: &[u8]) -> bool
    ensures { result ≡ list_any is_beyond_latin bytes.now }
{
    let mut beyond = false;
    for b in bytes {
        beyond |= *b >= 204;
    }
    beyond
}

/// Tests all bytes in one pass.
pub fn test_all(bytes: &[u8]) -> Tested
    ensures holds { HoldsOf result bytes.now }
    ensures quiet { list_any is_stray bytes.now ≡ false → IsTrue result.quiet }
    ensures utf8 { IsUtf8 bytes.now → IsTrue result.utf8 }
    ensures latin { list_any is_beyond_latin bytes.now ≡ false → IsTrue result.latin }
{
    Tested {
        quiet: !any_stray(bytes),
        utf8: is_utf8(bytes),
        latin: !any_beyond_latin(bytes),
    }
}

/// The text of bytes that are UTF-8, `None` for others. `known` says that they are UTF-8.
fn as_text(raw: &[u8], known: bool) -> Option<&str>
    requires { IsTrue known → IsUtf8 raw.now }
    ensures { MatchOption result (¬ (IsUtf8 raw.now)) (λ text. (text.now ≡ raw.now) × IsUtf8 raw.now) }
{
    if known {
        // the pass over all bytes has tested this line
        return Some(unsafe { std::str::from_utf8_unchecked(raw) });
    }
    std::str::from_utf8(raw).ok()
}

/// Whether no character is U+0300 or above. `known` says that none is.
fn is_latin(bytes: &[u8], known: bool) -> bool
    requires { IsTrue known → list_any is_beyond_latin bytes.now ≡ false }
    ensures { result ≡ not (list_any is_beyond_latin bytes.now) }
{
    known || !any_beyond_latin(bytes)
}

/// Whether the text is in normalization form C. `latin` says that no character is U+0300 or above.
#[inline(always)]
pub fn is_composed(alloc: Global, text: &str, latin: bool) -> Result<bool, AllocError>
    requires { IsTrue latin → list_any is_beyond_latin text.now ≡ false }
    ensures value { IfOk result (λ b. b ≡ is_nfc_text text.now) }
    ensures sure { list_any is_beyond_latin text.now ≡ false → IsOk result }
{
    if is_latin(text.as_bytes(), latin) {
        return Ok(true);
    }
    is_nfc(alloc, text)
}

/// The text of the line with this number, if it is UTF-8 (else code 1), NFC (else 2), and without control characters
/// other than tab (else 3).
pub fn line_text<'a>(
    alloc: Global,
    raw: &'a [u8],
    tested: Tested,
    line: usize,
) -> Result<&'a str, ReadFault>
    requires { HoldsOfLine tested raw.now }
    ensures ok { IfOk result (λ text. (text.now ≡ raw.now) × IsLineText raw.now) }
    ensures err { IfErr result (λ e. (came : Bool) → IsRefusal line came raw.now e) }
    ensures memory { IfErr result (λ e. e ≡ ReadFault.Memory → list_any is_beyond_latin raw.now ≡ true) }
{
    let Some(text) = as_text(raw, tested.utf8) else {
        return Err(ReadFault::At { line, code: 1 });
    };
    if !is_composed(alloc, text, tested.latin)? {
        return Err(ReadFault::At { line, code: 2 });
    }
    if !tested.quiet && any_control(raw) {
        return Err(ReadFault::At { line, code: 3 });
    }
    Ok(text)
}
