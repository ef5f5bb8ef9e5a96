ghost use Rattle.std.specs.Prelude.{◌≡◌, ◌≤◌, ◌&&◌, length, map, bytes_eq, not, IfOk, IsOk, ◌||◌, List, ℕ, true, false};
ghost use Rattle.tb_fields.specs.Seen.{has_come};
ghost use Rattle.std.specs.List.{before_first, list_any, list_all, slice_split};
ghost use Rattle.tb_fields.specs.Feats.{is_bar, is_comma, is_capital_or_digit, is_small_or_digit, is_letter_or_digit};
ghost use Rattle.tb_fields.specs.Feats.{is_label, is_layer, is_name, are_values, is_feature, feature_name};
ghost use Rattle.tb_fields.specs.Feats.{is_not_after, precedes, are_features, is_feature_text};
ghost use Rattle.tb_fields.specs.Begun.{begins_as_feature};

use crate::blank::is_blank_field;
use crate::repeats::comes_first;
use crate::rising::{holds_rising_features, is_below};
use std::alloc::{AllocError, Global};
use std::collections::BTreeSet;

/// In texts of at most this many bytes, comparing each value with each is fastest.
const FEW_VALUES: usize = 32;

/// The same for features, whose names are longer.
const FEW_FEATURES: usize = 128;

fn is_first_byte(b: u8) -> bool
    ensures { result ≡ is_capital_or_digit b }
{
    matches!(b, b'A'..=b'Z' | b'0'..=b'9')
}

/// Most bytes are small letters, so these are tested first.
fn is_later_byte(b: u8) -> bool
    ensures { result ≡ is_letter_or_digit b }
{
    if b >= b'a' {
        return b <= b'z';
    }
    is_first_byte(b)
}

fn is_layer_byte(b: u8) -> bool
    ensures { result ≡ is_small_or_digit b }
{
    matches!(b, b'a'..=b'z' | b'0'..=b'9')
}

fn are_later_bytes(bytes: &[u8]) -> bool
    ensures { result ≡ list_all is_letter_or_digit bytes.now }
{
    bytes.iter().all(|b| is_later_byte(*b))
}

fn is_label_bytes(bytes: &[u8]) -> bool
    ensures { result ≡ is_label bytes.now }
{
    if bytes.is_empty() {
        return false;
    }
    is_first_byte(bytes[0]) && are_later_bytes(&bytes[1..])
}

pub(crate) fn is_label_text(text: &str) -> bool
    ensures { result ≡ is_label text.now }
{
    is_label_bytes(text.as_bytes())
}

fn are_layer_bytes(bytes: &[u8]) -> bool
    ensures { result ≡ list_all is_small_or_digit bytes.now }
{
    bytes.iter().all(|b| is_layer_byte(*b))
}

fn is_layer_text(text: &str) -> bool
    ensures { result ≡ is_layer text.now }
{
    match text.split_once(']') {
        None => false,
        Some((layer, rest)) => !layer.is_empty()
            && are_layer_bytes(layer.as_bytes())
            && rest.is_empty(),
    }
}

pub(crate) fn is_name_text(text: &str) -> bool
    ensures { result ≡ is_name text.now }
{
    match text.split_once('[') {
        None => is_label_text(text),
        Some((name, layer)) => is_label_text(name) && is_layer_text(layer),
    }
}

/// Whether the value is one of those in the text, which commas separate.
fn comes_again(value: &str, text: &str) -> bool
    ensures { result ≡ list_any (bytes_eq value.now) (slice_split is_comma text.now) }
{
    let mut left = text;
    while let Some((next, more)) = left.split_once(',') {
        if value == next {
            return true;
        }
        left = more;
    }
    value == left
}

fn value_is_fine(value: &str, more: &str) -> bool
    ensures { result ≡ (is_label value.now && not (list_any (bytes_eq value.now) (slice_split is_comma more.now))) }
{
    is_label_text(value) && !comes_again(value, more)
}

/// The same as `holds_values`. Compares each value with each.
fn holds_few_values(text: &str) -> bool
    ensures { result ≡ are_values (slice_split is_comma text.now) }
{
    let mut left = text;
    while let Some((value, more)) = left.split_once(',') {
        if !value_is_fine(value, more) {
            return false;
        }
        left = more;
    }
    is_label_text(left)
}

/// Whether the value is well formed and new. If so, it is added to those seen.
fn is_new_value<'a>(seen: &mut BTreeSet<&'a str>, value: &'a str) -> Result<bool, AllocError>
    ensures new { IfOk result (λ b. b ≡ (is_label value.now && not (has_come seen.old value.now))) }
    ensures kept { IfOk result (λ b. b ≡ true → (q : List ℕ)
        → has_come seen.new q ≡ (bytes_eq value.now q || has_come seen.old q)) }
    ensures sure { is_label value.now ≡ false → IsOk result }
    ensures again { has_come seen.old value.now ≡ true → IsOk result }
{
    if !is_label_text(value) {
        return Ok(false);
    }
    comes_first(seen, value)
}

/// The same as `holds_values`, in nearly linear time.
fn holds_many_values(alloc: Global, text: &str) -> Result<bool, AllocError>
    ensures value { IfOk result (λ b. b ≡ are_values (slice_split is_comma text.now)) }
    ensures begun { is_label (before_first is_comma text.now) ≡ false → IsOk result }
{
    let mut seen: BTreeSet<&str> = BTreeSet::new(alloc);
    let mut left = text;
    while let Some((value, more)) = left.split_once(',') {
        if !is_new_value(&mut seen, value)? {
            return Ok(false);
        }
        left = more;
    }
    is_new_value(&mut seen, left)
}

/// Whether the text is values separated by commas, each unique.
fn holds_values(alloc: Global, text: &str) -> Result<bool, AllocError>
    ensures value { IfOk result (λ b. b ≡ are_values (slice_split is_comma text.now)) }
    ensures sure { length text.now ≤ 32 → IsOk result }
    ensures begun { is_label (before_first is_comma text.now) ≡ false → IsOk result }
{
    if text.len() <= FEW_VALUES {
        Ok(holds_few_values(text))
    } else {
        holds_many_values(alloc, text)
    }
}

fn is_feature_item(alloc: Global, item: &str) -> Result<bool, AllocError>
    ensures value { IfOk result (λ b. b ≡ is_feature item.now) }
    ensures sure { length item.now ≤ 32 → IsOk result }
    ensures begun { begins_as_feature item.now ≡ false → IsOk result }
{
    let Some((name, values)) = item.split_once('=') else {
        return Ok(false);
    };
    if !is_name_text(name) {
        return Ok(false);
    }
    holds_values(alloc, values)
}

fn name_of(item: &str) -> &str
    ensures { result.now ≡ feature_name item.now }
{
    match item.split_once('=') {
        None => item,
        Some((name, _)) => name,
    }
}

/// Whether a feature of the text has the name.
fn has_name(name: &str, text: &str) -> bool
    ensures { result ≡ list_any (bytes_eq name.now) (map feature_name (slice_split is_bar text.now)) }
{
    let mut left = text;
    while let Some((item, more)) = left.split_once('|') {
        if name == name_of(item) {
            return true;
        }
        left = more;
    }
    name == name_of(left)
}

fn are_names_in_order(name: &str, item: &str) -> bool
    ensures { result ≡ is_not_after name.now (feature_name item.now) }
{
    !is_below(name_of(item).as_bytes(), name.as_bytes())
}

/// Whether the name is before that of the first feature of the text, or equal to it.
fn is_before(name: &str, text: &str) -> bool
    ensures { result ≡ precedes name.now (map feature_name (slice_split is_bar text.now)) }
{
    match text.split_once('|') {
        None => are_names_in_order(name, text),
        Some((item, _)) => are_names_in_order(name, item),
    }
}

/// Whether the feature may come before the others.
fn feature_is_fine(alloc: Global, item: &str, more: &str) -> Result<bool, AllocError>
    ensures value { IfOk result (λ b. b ≡ (is_feature item.now && (precedes (feature_name item.now)
        (map feature_name (slice_split is_bar more.now)) && not (list_any (bytes_eq (feature_name item.now))
        (map feature_name (slice_split is_bar more.now)))))) }
    ensures sure { length item.now ≤ 32 → IsOk result }
    ensures begun { begins_as_feature item.now ≡ false → IsOk result }
{
    let name = name_of(item);
    Ok(is_feature_item(alloc, item)? && is_before(name, more) && !has_name(name, more))
}

/// The same as `holds_features`. Compares each name with each.
fn holds_few_features(alloc: Global, text: &str) -> Result<bool, AllocError>
    ensures value { IfOk result (λ b. b ≡ are_features (slice_split is_bar text.now)) }
    ensures sure { length text.now ≤ 32 → IsOk result }
    ensures begun { begins_as_feature (before_first is_bar text.now) ≡ false → IsOk result }
{
    let mut left = text;
    while let Some((item, more)) = left.split_once('|') {
        if !feature_is_fine(alloc, item, more)? {
            return Ok(false);
        }
        left = more;
    }
    is_feature_item(alloc, left)
}

/// Whether the feature may come before the others and its name is new. If so, the name is added to those seen.
fn is_new_feature<'a>(
    alloc: Global,
    seen: &mut BTreeSet<&'a str>,
    item: &'a str,
    more: &str,
) -> Result<bool, AllocError>
    ensures new { IfOk result (λ b. b ≡ ((is_feature item.now && precedes (feature_name item.now)
        (map feature_name (slice_split is_bar more.now))) && not (has_come seen.old (feature_name item.now)))) }
    ensures kept { IfOk result (λ b. b ≡ true → (q : List ℕ)
        → has_come seen.new q ≡ (bytes_eq (feature_name item.now) q || has_come seen.old q)) }
    ensures begun { begins_as_feature item.now ≡ false → IsOk result }
    ensures unordered { length item.now ≤ 32
        → precedes (feature_name item.now) (map feature_name (slice_split is_bar more.now)) ≡ false
        → IsOk result }
    ensures again { length item.now ≤ 32 → has_come seen.old (feature_name item.now) ≡ true → IsOk result }
{
    let name = name_of(item);
    if !(is_feature_item(alloc, item)? && is_before(name, more)) {
        return Ok(false);
    }
    comes_first(seen, name)
}

/// The same as `holds_features`, in nearly linear time.
fn holds_many_features(alloc: Global, text: &str) -> Result<bool, AllocError>
    ensures value { IfOk result (λ b. b ≡ are_features (slice_split is_bar text.now)) }
    ensures begun { begins_as_feature (before_first is_bar text.now) ≡ false → IsOk result }
{
    let mut seen: BTreeSet<&str> = BTreeSet::new(alloc);
    let mut left = text;
    while let Some((item, more)) = left.split_once('|') {
        if !is_new_feature(alloc, &mut seen, item, more)? {
            return Ok(false);
        }
        left = more;
    }
    if !is_feature_item(alloc, left)? {
        return Ok(false);
    }
    comes_first(&mut seen, name_of(left))
}

/// Whether the text is features separated by bars, in the order of their names, each name unique.
fn holds_features(alloc: Global, text: &str) -> Result<bool, AllocError>
    ensures value { IfOk result (λ b. b ≡ are_features (slice_split is_bar text.now)) }
    ensures sure { length text.now ≤ 32 → IsOk result }
    ensures begun { begins_as_feature (before_first is_bar text.now) ≡ false → IsOk result }
{
    if text.len() <= FEW_FEATURES {
        holds_few_features(alloc, text)
    } else {
        holds_many_features(alloc, text)
    }
}

/// Whether the text may be in FEATS: `_`, or features joined by bars, in the order of their names, each name unique.
///
/// CoNLL-U format page, "Morphological Annotation"; UD v2 guidelines, "Morphology: General Principles".
///
/// # Errors
///
/// Memory was refused. A text of at most 32 bytes needs none, nor one whose first item is no feature as far as its
/// first value.
pub fn is_feature_list(alloc: Global, text: &str) -> Result<bool, AllocError>
    ensures value { IfOk result (λ b. b ≡ is_feature_text text.now) }
    ensures sure { length text.now ≤ 32 → IsOk result }
    ensures begun { begins_as_feature (before_first is_bar text.now) ≡ false → IsOk result }
{
    if is_blank_field(text) || holds_rising_features(text) {
        return Ok(true);
    }
    holds_features(alloc, text)
}
