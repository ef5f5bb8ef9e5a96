//! Numbers of one to six digits, without leading zeros.

ghost use Rattle.std.specs.Prelude.{◌≡◌, ◌<◌, ◌≤◌, MatchOption, false, true};
ghost use Rattle.std.specs.Fmt.{decimal};
ghost use Rattle.tb_conllu.specs.Lines.{is_number, is_positive};
ghost use Rattle.tb_conllu.specs.Shape.{IsShort};

use tb_chars::are_digits;

fn test_number(text: &[u8]) -> bool
    ensures { result ≡ is_number text.now }
{
    if text.is_empty() || text.len() > 6 || !are_digits(text) {
        return false;
    }
    text[0] != 48 || text.len() == 1
}

fn value(text: &[u8]) -> u32
    requires { is_number text.now ≡ true }
    ensures text { decimal result ≡ text.now }
    ensures bound { IsShort result }
{
    let mut n = 0u32;
    for b in text {
        n = n * 10 + u32::from(*b - 48);
    }
    n
}

/// The number that a text writes: `0`, or one to six digits of which the first is not `0`.
pub fn number(text: &[u8]) -> Option<u32>
    ensures { MatchOption result (is_number text.now ≡ false) (λ n. (is_number text.now ≡ true)
        × (decimal n ≡ text.now) × IsShort n) }
{
    if test_number(text) {
        Some(value(text))
    } else {
        None
    }
}

/// The number that a text writes, if it is not 0.
pub fn positive(text: &[u8]) -> Option<u32>
    ensures { MatchOption result (is_positive text.now ≡ false) (λ n. (is_positive text.now ≡ true)
        × (decimal n ≡ text.now) × (1 ≤ n) × IsShort n) }
{
    let n = number(text)?;
    if n == 0 {
        return None;
    }
    Some(n)
}
