//! Features whose names ascend strictly, as in nearly all lists. One pass over their bytes is enough.

ghost use Rattle.std.specs.Prelude.{◌≡◌, true, IfSome};
ghost use Rattle.std.specs.List.{slice_split};
ghost use Rattle.tb_fields.specs.Feats.{is_bar, is_name, is_feature, feature_name, are_features};
ghost use Rattle.tb_fields.specs.Rising.{is_below};

use crate::feats::{is_label_text, is_name_text};

/// Whether the first is strictly before the second in the order of bytes. ASCII case does not matter.
pub(crate) fn is_below(first: &[u8], second: &[u8]) -> bool
    ensures { result ≡ is_below first.now second.now }
{
    for (i, byte) in first.iter().enumerate() {
        if i >= second.len() {
            return false;
        }
        let here = byte.to_ascii_lowercase();
        let there = second[i].to_ascii_lowercase();
        if here < there {
            return true;
        }
        if there < here {
            return false;
        }
    }
    first.len() < second.len()
}

/// The same as `is_name_text`, in one pass for a name without a layer.
fn is_name_here(text: &str) -> bool
    ensures { result ≡ is_name text.now }
{
    is_label_text(text) || is_name_text(text)
}

/// The name of a feature with one value; `None` for other texts, of which some are features too.
fn plain_name(item: &str) -> Option<&str>
    ensures { IfSome result (λ name. (is_feature item.now ≡ true) × (name.now ≡ feature_name item.now)) }
{
    let (name, value) = item.split_once('=')?;
    if !is_label_text(value) || !is_name_here(name) {
        return None;
    }
    Some(name)
}

/// The same, if the name is above the last one.
fn next_name<'a>(last: &str, item: &'a str) -> Option<&'a str>
    ensures { IfSome result (λ name. (is_feature item.now ≡ true)
        × (is_below last.now (feature_name item.now) ≡ true) × (name.now ≡ feature_name item.now)) }
{
    let name = plain_name(item)?;
    if !is_below(last.as_bytes(), name.as_bytes()) {
        return None;
    }
    Some(name)
}

/// Whether the text is features of one value, separated by bars, whose names ascend strictly. Other texts may hold
/// features too.
pub(crate) fn holds_rising_features(text: &str) -> bool
    ensures { result ≡ true → are_features (slice_split is_bar text.now) ≡ true }
{
    let mut left = text;
    let mut last = "";
    while let Some((item, more)) = left.split_once('|') {
        let Some(name) = next_name(last, item) else {
            return false;
        };
        last = name;
        left = more;
    }
    next_name(last, left).is_some()
}
