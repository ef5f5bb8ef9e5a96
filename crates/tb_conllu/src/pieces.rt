//! Splits bytes at the first of a mark.

ghost use Rattle.std.specs.Prelude.{◌≡◌, ◌<◌, ◌+◌, ◌∷◌, ◌++◌, ◌==◌, MatchOption, drop};
ghost use Rattle.std.specs.Prelude.{length, false};
ghost use Rattle.std.specs.List.{list_any};

use memchr::memchr;

/// The bytes after the byte at `end`.
fn after(bytes: &[u8], end: usize) -> &[u8]
    requires { end < length bytes.now }
    ensures { result.now ≡ drop (end + 1) bytes.now }
{
    &bytes[end + 1..]
}

/// The bytes before the first of the mark, and those after it; `None` where the mark is nowhere.
pub fn cut_once(mark: u8, bytes: &[u8]) -> Option<(&[u8], &[u8])>
    ensures { MatchOption result (list_any (λ b. b == mark) bytes.now ≡ false) (λ p.
        (list_any (λ b. b == mark) p.0.now ≡ false) × (bytes.now ≡ p.0.now ++ mark ∷ p.1.now)) }
{
    let end = memchr(mark, bytes)?;
    Some((&bytes[..end], after(bytes, end)))
}
