//! White space, as Unicode's property `White_Space` has it.

ghost use Rattle.std.specs.Prelude.{◌≡◌};
ghost use Rattle.std.specs.List.{list_any};
ghost use Rattle.tb_chars.specs.Spaces.{begins_white, has_space, is_solid};

/// Whether white space may begin with the byte.
#[inline(always)]
pub fn may_begin_white(b: u8) -> bool
    ensures { result ≡ begins_white b }
{
    matches!(b, 0..=32 | 194 | 225..=227)
}

/// Whether some byte may begin white space. In most texts none does, so they need no second test. It tests all bytes,
/// since many at a time are faster than a stop at the first.
fn any_white_start(bytes: &[u8]) -> bool
    ensures { result ≡ list_any begins_white bytes.now }
{
    let mut white = false;
    for b in bytes {
        white |= may_begin_white(*b);
    }
    white
}

/// Whether some character of the text is white space.
pub fn has_white_space(text: &str) -> bool
    ensures { result ≡ has_space text.now }
{
    any_white_start(text.as_bytes()) && text.chars().any(|c| c.is_whitespace())
}

/// Whether the text is not empty and has no white space.
pub fn is_solid_text(text: &str) -> bool
    ensures { result ≡ is_solid text.now }
{
    !text.is_empty() && !has_white_space(text)
}
