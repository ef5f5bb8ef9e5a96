//! Walks over the places of a bit row, 64 places at a time.

ghost use Rattle.std.specs.Prelude.{◌≡◌, ◌+◌, ◌/◌, ◌<◌, ◌≤◌, ◌↔◌, ℕ, length};
ghost use Rattle.std.specs.Int.{bit_at};
ghost use Rattle.tb_match.specs.Bits.{InRow};

/// The bits of a word whose lowest bit is place `base`, without those of places before `from`.
#[inline(always)]
pub(crate) fn bits_from(word: u64, base: usize, from: usize) -> u64
    requires { from < base + 64 }
    ensures { (i : ℕ) → i < 64 → ((bit_at result i ≡ 1) ↔ ((bit_at word i ≡ 1) × (from ≤ base + i))) }
{
    if from <= base {
        word
    } else {
        word & (u64::MAX << (from - base))
    }
}

/// The first place from `from` on that the row beginning at word `at` has, or one past the last place where there is
/// none.
#[inline(always)]
pub(crate) fn next_place(cells: &[u64], at: usize, from: usize, last: usize) -> usize
    requires row { at + last / 64 < length cells.now }
    requires small { last ≤ 1000 }
    ensures order { from ≤ last + 1 → from ≤ result }
    ensures limit { result ≤ last + 1 }
    ensures there { result ≤ last → InRow cells.now at result }
    ensures none { (j : ℕ) → from ≤ j → j < result → InRow cells.now at j → ⊥ }
{
    for word in from / 64..last / 64 + 1 {
        let bits = bits_from(cells[at + word], word * 64, from);
        if bits != 0 {
            return (word * 64 + bits.trailing_zeros() as usize).min(last + 1);
        }
    }
    last + 1
}

/// The first place from `from` on that the row beginning at word `at` has and the row `known` has not. One past the
/// last place where there is none.
#[inline(always)]
pub(crate) fn next_unknown(
    cells: &[u64],
    at: usize,
    known: &[u64],
    from: usize,
    last: usize,
) -> usize
    requires row { at + last / 64 < length cells.now }
    requires known { last / 64 < length known.now }
    requires small { last ≤ 1000 }
    ensures order { from ≤ last + 1 → from ≤ result }
    ensures limit { result ≤ last + 1 }
    ensures there { result ≤ last → InRow cells.now at result }
    ensures unknown { result ≤ last → InRow known.now 0 result → ⊥ }
    ensures none { (j : ℕ) → from ≤ j → j < result → InRow cells.now at j → InRow known.now 0 j }
{
    for word in from / 64..last / 64 + 1 {
        let bits = bits_from(cells[at + word] & !known[word], word * 64, from);
        if bits != 0 {
            return (word * 64 + bits.trailing_zeros() as usize).min(last + 1);
        }
    }
    last + 1
}
