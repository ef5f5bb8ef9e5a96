//! The IDs of word lines.

ghost use Rattle.std.specs.Prelude.{◌≡◌, ◌≤◌, ◌∷◌, ◌++◌, MatchOption, IfSome, false, true};
ghost use Rattle.std.specs.Fmt.{decimal};
ghost use Rattle.tb_conllu.specs.Lines.{is_span, is_node, is_id, is_head};
ghost use Rattle.tb_conllu.specs.Shape.{IsShort, IsIdShaped};
ghost use Rattle.tb_conllu.specs.Text.{id_text, head_text};

use crate::id::LineId;
use crate::numbers::{number, positive};
use crate::pieces::cut_once;

/// `n-m`.
fn span(text: &[u8]) -> Option<(u32, u32)>
    ensures { MatchOption result (is_span text.now ≡ false) (λ p. (is_span text.now ≡ true)
        × (decimal p.0 ++ 45 ∷ decimal p.1 ≡ text.now) × ((1 ≤ p.0) × IsShort p.0)
        × ((1 ≤ p.1) × IsShort p.1)) }
{
    let (before, after) = cut_once(b'-', text)?;
    let first = positive(before)?;
    let last = positive(after)?;
    Some((first, last))
}

/// `i.k`.
fn node(text: &[u8]) -> Option<(u32, u32)>
    ensures { MatchOption result (is_node text.now ≡ false) (λ p. (is_node text.now ≡ true)
        × (decimal p.0 ++ 46 ∷ decimal p.1 ≡ text.now) × IsShort p.0 × ((1 ≤ p.1) × IsShort p.1)) }
{
    let (before, after) = cut_once(b'.', text)?;
    let word = number(before)?;
    let place = positive(after)?;
    Some((word, place))
}

/// The ID that a text writes: `n`, `n-m` or `i.k`, where n, m and k are at least 1.
pub fn id_of(text: &str) -> Option<LineId>
    ensures { MatchOption result (is_id text.now ≡ false) (λ id. (is_id text.now ≡ true)
        × (id_text id ≡ text.now) × IsIdShaped id) }
{
    let bytes = text.as_bytes();
    if let Some(n) = positive(bytes) {
        return Some(LineId::Word(n));
    }
    if let Some((first, last)) = span(bytes) {
        return Some(LineId::Span(first, last));
    }
    if let Some((word, place)) = node(bytes) {
        return Some(LineId::Empty(word, place));
    }
    None
}

/// The HEAD that a text writes: `_`, or a number; `None` where it is neither.
pub fn head_of(text: &str) -> Option<Option<u32>>
    ensures { MatchOption result (is_head text.now ≡ false) (λ head. (is_head text.now ≡ true)
        × (head_text head ≡ text.now) × IfSome head IsShort) }
{
    if text == "_" {
        return Some(None);
    }
    match number(text.as_bytes()) {
        Some(n) => Some(Some(n)),
        None => None,
    }
}
