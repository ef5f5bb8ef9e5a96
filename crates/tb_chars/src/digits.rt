//! ASCII digits.

ghost use Rattle.std.specs.Prelude.{◌≡◌};
ghost use Rattle.std.specs.List.{list_all};
ghost use Rattle.tb_chars.specs.Digits.{is_digit};

/// Whether the byte is one of `0` to `9`.
#[inline(always)]
pub fn is_digit_byte(b: u8) -> bool
    ensures { result ≡ is_digit b }
{
    matches!(b, b'0'..=b'9')
}

/// Whether each of the bytes is one of `0` to `9`.
#[inline(always)]
pub fn are_digits(bytes: &[u8]) -> bool
    ensures { result ≡ list_all is_digit bytes.now }
{
    bytes.iter().all(|b| is_digit_byte(*b))
}
