//! Finds repeated texts in a long list.

ghost use Rattle.std.specs.Prelude.{◌≡◌, ◌||◌, List, ℕ, IfOk, IsOk, OnOk, true, not, bytes_eq};
ghost use Rattle.tb_fields.specs.Seen.{has_come};

use std::alloc::AllocError;
use std::collections::BTreeSet;

/// Whether the text is new. It is added to those seen. One that has come before wants no memory.
pub(crate) fn comes_first<'a>(
    seen: &mut BTreeSet<&'a str>,
    text: &'a str,
) -> Result<bool, AllocError>
    ensures new { IfOk result (λ b. b ≡ not (has_come seen.old text.now)) }
    ensures sure { has_come seen.old text.now ≡ true → IsOk result }
    ensures kept { OnOk result ((q : List ℕ) → has_come seen.new q
        ≡ (bytes_eq text.now q || has_come seen.old q)) }
{
    Ok(seen.insert(text)?)
}
