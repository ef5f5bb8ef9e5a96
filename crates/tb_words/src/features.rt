//! Which of the features of a row is at fault.

ghost use Rattle.std.specs.Prelude.{◌≡◌, ◌-◌, ◌≤◌, IfOk, IfSome, IsOk, false, length, option_map, take};
ghost use Rattle.std.specs.List.{list_all, list_any, slice_split};
ghost use Rattle.tb_fields.specs.Feats.{feature_name, is_bar, is_comma, is_equals, is_label, is_name};
ghost use Rattle.tb_fields.specs.Rising.{is_below};
ghost use Rattle.tb_words.specs.FeatureFaults.{AreRight, IsFirstFeature, SaysFeature, beside_sentence, feature_at};
ghost use Rattle.tb_words.specs.FeatureFaults.{feature_sentence, features_of, item_sentence, named_sentence, shares_name};

use crate::sentences as reported;
use std::alloc::{AllocError, Global};
use tb_fields::is_feature_list;

/// How many features are looked at. No real row has more.
const LOOKED_AT: usize = 1000;

/// Whether a text without a bar and an equals sign may be the name of a feature.
fn is_name(alloc: Global, name: &str) -> Result<bool, AllocError>
    ensures { list_any is_bar name.now ≡ false → list_any is_equals name.now ≡ false
        → IfOk result (λ b. b ≡ is_name name.now) }
{
    let feature = format!(in alloc; "{name}=X")?;
    is_feature_list(alloc, feature.as_str())
}

/// Whether a text without a bar and a comma may be a value of a feature.
fn is_label(alloc: Global, value: &str) -> Result<bool, AllocError>
    ensures { list_any is_bar value.now ≡ false → list_any is_comma value.now ≡ false
        → IfOk result (λ b. b ≡ is_label value.now) }
{
    let feature = format!(in alloc; "X={value}")?;
    is_feature_list(alloc, feature.as_str())
}

/// Whether each of the values that commas join may be one.
fn are_labels(alloc: Global, values: &str) -> Result<bool, AllocError>
    ensures { list_any is_bar values.now ≡ false
        → IfOk result (λ b. b ≡ list_all is_label (slice_split is_comma values.now)) }
{
    for value in values.split(',') {
        if !is_label(alloc, value)? {
            return Ok(false);
        }
    }
    Ok(true)
}

/// What is wrong with the name or the values of what is no feature.
fn named_fault(alloc: Global, name: &str, values: &str) -> Result<&'static str, AllocError>
    ensures { list_any is_bar name.now ≡ false → list_any is_equals name.now ≡ false
        → list_any is_bar values.now ≡ false
        → IfOk result (λ said. said.now ≡ named_sentence name.now values.now) }
{
    if !is_name(alloc, name)? {
        return Ok(reported::FEATURE_NAME);
    }
    if !are_labels(alloc, values)? {
        return Ok(reported::FEATURE_VALUE);
    }
    Ok(reported::VALUE_TWICE)
}

/// What is wrong with one feature by itself, if anything is.
fn item_fault(alloc: Global, item: &str) -> Result<Option<&'static str>, AllocError>
    ensures said { list_any is_bar item.now ≡ false
        → IfOk result (λ said. option_map (λ s. s.now) said ≡ item_sentence item.now) }
    ensures form { list_any is_equals item.now ≡ false → IsOk result }
{
    let Some((name, values)) = item.split_once('=') else {
        return Ok(Some(reported::FEATURE_FORM));
    };
    if is_feature_list(alloc, item)? {
        return Ok(None);
    }
    Ok(Some(named_fault(alloc, name, values)?))
}

fn name_of(item: &str) -> &str
    ensures { result.now ≡ feature_name item.now }
{
    match item.split_once('=') {
        Some((name, _)) => name,
        None => item,
    }
}

/// Whether the first is strictly before the second in the order of bytes. ASCII case does not matter.
fn is_below(first: &[u8], second: &[u8]) -> bool
    ensures { result ≡ is_below first.now second.now }
{
    for (i, byte) in first.iter().enumerate() {
        if i >= second.len() {
            return false;
        }
        let here = byte.to_ascii_lowercase();
        let there = second[i].to_ascii_lowercase();
        if here < there {
            return true;
        }
        if there < here {
            return false;
        }
    }
    first.len() < second.len()
}

/// Whether the name of a feature is strictly before that of another, whatever the case of letters.
fn is_before(one: &str, other: &str) -> bool
    ensures { result ≡ is_below (feature_name one.now) (feature_name other.now) }
{
    is_below(name_of(one).as_bytes(), name_of(other).as_bytes())
}

fn has_same_name(one: &str, other: &str) -> bool
    ensures { result ≡ shares_name one.now other.now }
{
    name_of(other) == name_of(one)
}

/// Whether one of the first `before` features has the name of this one.
fn is_named_before(feats: &str, before: usize, item: &str) -> bool
    ensures { result ≡ list_any (shares_name item.now) (take before (features_of feats.now)) }
{
    for earlier in feats.split('|').take(before) {
        if has_same_name(item, earlier) {
            return true;
        }
    }
    false
}

/// What is wrong with a feature beside the `before` earlier ones, which are right, and of which `last` is the last.
fn order_fault(feats: &str, before: usize, last: &str, item: &str) -> Option<&'static str>
    ensures { (1 ≤ before → last.now ≡ feature_at feats.now (before - 1))
        → item.now ≡ feature_at feats.now before → AreRight feats.now before
        → before ≤ length (features_of feats.now)
        → option_map (λ said. said.now) result ≡ beside_sentence feats.now before }
{
    if before == 0 {
        return None;
    }
    if is_before(last, item) {
        return None;
    }
    if is_named_before(feats, before, item) {
        return Some(reported::FEATURE_TWICE);
    }
    if is_before(item, last) {
        return Some(reported::FEATURE_ORDER);
    }
    None
}

/// What is wrong with a feature after `before` earlier ones, which are right, and of which `last` is the last.
fn fault_after(
    alloc: Global,
    feats: &str,
    before: usize,
    last: &str,
    item: &str,
) -> Result<Option<&'static str>, AllocError>
    ensures { (1 ≤ before → last.now ≡ feature_at feats.now (before - 1))
        → item.now ≡ feature_at feats.now before → AreRight feats.now before
        → before ≤ length (features_of feats.now)
        → IfOk result (λ said. option_map (λ s. s.now) said ≡ feature_sentence feats.now before) }
{
    match item_fault(alloc, item)? {
        Some(sentence) => Ok(Some(sentence)),
        None => Ok(order_fault(feats, before, last, item)),
    }
}

/// The first feature that is at fault, and what is wrong with it.
fn first_fault<'a>(
    alloc: Global,
    feats: &'a str,
) -> Result<Option<(&'a str, &'static str)>, AllocError>
    ensures { IfOk result (λ found. IfSome found (λ f. IsFirstFeature feats.now f.0.now f.1.now)) }
{
    let mut last = "";
    for (before, item) in feats.split('|').enumerate() {
        if before == LOOKED_AT {
            return Ok(None);
        }
        if let Some(sentence) = fault_after(alloc, feats, before, last, item)? {
            return Ok(Some((item, sentence)));
        }
        last = item;
    }
    Ok(None)
}

/// The first feature that is at fault, and what is wrong with it. Where memory runs out, no feature is named.
pub(crate) fn feature_fault(alloc: Global, feats: &str) -> (&str, &'static str)
    ensures { SaysFeature feats.now result.0.now result.1.now }
{
    match first_fault(alloc, feats) {
        Ok(Some(found)) => found,
        Ok(None) | Err(_) => (feats, reported::BROKEN),
    }
}
