//! Remembers fields of rows that were accepted before. A file repeats a few hundred of them.

ghost use Rattle.std.specs.Prelude.{◌≡◌, ◌==◌, ◌-◌, ◌<◌, ◌≤◌, ◌^◌, ◌&&◌, length, max, IfOk, IsOk, OnOk, true};
ghost use Rattle.std.specs.Prelude.{string_bytes, vec_len};
ghost use Rattle.tb_fields.specs.Feats.{is_feature_text};
ghost use Rattle.tb_fields.specs.Relations.{is_relation};
ghost use Rattle.tb_fields.specs.Tags.{is_universal_tag};

use std::alloc::{AllocError, Global};
use tb_fields::{is_blank_field, is_feature_list, is_relation_text, is_tag};

/// How many bits the number of a place has.
const PLACE_BITS: u32 = 10;

/// How many values of each kind are remembered at most.
const PLACES: usize = 1 << PLACE_BITS;

/// How many values pass before the first one is remembered: more than most sentences have.
const LET_BY: usize = 128;

/// The length in bytes of the longest field that is remembered.
const LONGEST: usize = 128;

/// Spreads the bits of a word over the upper ones: 2^64 divided by the golden ratio.
const SPREAD: u64 = 0x9E37_79B9_7F4A_7C15;

/// A value of FEATS that was accepted.
#[derive(Drop)]
struct AcceptedFeatures {
    text: String,
    ghost fine: { is_feature_text (string_bytes text) ≡ true },
}

/// A part of speech and a relation of one word that were accepted.
#[derive(Drop)]
struct AcceptedWord {
    tag: String,
    relation: String,
    ghost fine: { (is_universal_tag (string_bytes tag) && is_relation (string_bytes relation)) ≡ true },
}

/// The values that were accepted, each in a place given by its bytes. The first value in a place stays there.
#[derive(Drop)]
pub(crate) struct Accepted {
    /// How many values still pass before one is remembered. For a short text it does not pay to remember any.
    let_by: usize,
    features: Vec<Option<AcceptedFeatures>>,
    words: Vec<Option<AcceptedWord>>,
}

/// Mixes a word into the words before it.
fn mixed_with(mixed: u64, word: u64) -> u64 {
    (mixed ^ word).wrapping_mul(SPREAD)
}

/// The place that the upper bits of the mixed words give.
fn place_of(mixed: u64) -> usize
    ensures { result < 1024 }
{
    (mixed >> (64 - PLACE_BITS)) as usize
}

/// The place of a value of FEATS, from all of its bytes. Any place is right, since the texts are compared.
fn features_place(text: &[u8]) -> usize
    ensures { result < 1024 }
{
    let (words, _) = text.as_chunks::<8>();
    let mut mixed = mixed_with(0, text.len() as u64);
    for word in words {
        mixed = mixed_with(mixed, u64::from_le_bytes(*word));
    }
    if let Some(last) = text.last_chunk::<8>() {
        mixed = mixed_with(mixed, u64::from_le_bytes(*last));
    }
    place_of(mixed)
}

/// The first two bytes of a short text, its last two, and its length.
fn ends_of(text: &[u8]) -> u64 {
    match (text.first_chunk::<2>(), text.last_chunk::<2>()) {
        (Some(first), Some(last)) => u64::from(u16::from_le_bytes(*first))
            | (u64::from(u16::from_le_bytes(*last)) << 16)
            | ((text.len() as u64) << 32),
        _ => text.len() as u64,
    }
}

/// The place of a part of speech and a relation, from their first and last bytes.
fn word_place(tag: &[u8], relation: &[u8]) -> usize
    ensures { result < 1024 }
{
    place_of(mixed_with(mixed_with(0, ends_of(tag)), ends_of(relation)))
}

/// Makes the places, if there are none yet.
fn make_places<X: Drop>(slots: &mut Vec<Option<X>>) -> Result<(), AllocError>
    ensures made { OnOk result (vec_len slots.new ≡ max 1024 (vec_len slots.old)) }
    ensures bound { vec_len slots.new ≤ max 1024 (vec_len slots.old) }
{
    for _ in slots.len()..PLACES {
        slots.push(None)?;
    }
    Ok(())
}

impl Accepted {
    /// Remembers up to 1,024 values of each kind. Takes no memory before the first.
    pub(crate) fn new(alloc: Global) -> Self
        ensures let_by { result.let_by ≡ 128 }
        ensures features { vec_len result.features ≡ 0 }
        ensures words { vec_len result.words ≡ 0 }
    {
        Accepted {
            let_by: LET_BY,
            features: Vec::new(alloc),
            words: Vec::new(alloc),
        }
    }

    /// Remembers nothing, and takes no memory: for a single sentence.
    pub(crate) fn none(alloc: Global) -> Self
        ensures let_by { result.let_by ≡ 2 ^ 64 - 1 }
        ensures features { vec_len result.features ≡ 0 }
        ensures words { vec_len result.words ≡ 0 }
    {
        Accepted {
            let_by: usize::MAX,
            features: Vec::new(alloc),
            words: Vec::new(alloc),
        }
    }

    fn holds_features(&self, text: &str) -> bool
        ensures { result ≡ true → is_feature_text text.now ≡ true }
    {
        if self.features.is_empty() {
            return false;
        }
        match self.features.get(features_place(text.as_bytes())) {
            Some(Some(known)) => known.text.as_str() == text,
            _ => false,
        }
    }

    fn holds_word(&self, tag: &str, relation: &str) -> bool
        ensures { result ≡ true → (is_universal_tag tag.now && is_relation relation.now) ≡ true }
    {
        if self.words.is_empty() {
            return false;
        }
        match self
            .words
            .get(word_place(tag.as_bytes(), relation.as_bytes()))
        {
            Some(Some(known)) => known.tag.as_str() == tag && known.relation.as_str() == relation,
            _ => false,
        }
    }

    /// Whether to remember the next value.
    fn remembers_next(&mut self) -> bool
        ensures value { result ≡ (self.old.let_by == 0) }
        ensures let_by { self.new.let_by ≡ self.old.let_by - 1 }
        ensures features { self.new.features ≡ self.old.features }
        ensures words { self.new.words ≡ self.old.words }
    {
        if self.let_by == 0 {
            return true;
        }
        self.let_by -= 1;
        false
    }

    /// Remembers a value of FEATS, if its place is free.
    fn remember_features(&mut self, alloc: Global, text: &str) -> Result<(), AllocError>
        requires { is_feature_text text.now ≡ true }
        ensures made { OnOk result (vec_len self.new.features ≡ max 1024 (vec_len self.old.features)) }
        ensures bound { vec_len self.new.features ≤ max 1024 (vec_len self.old.features) }
        ensures let_by { self.new.let_by ≡ self.old.let_by }
        ensures words { self.new.words ≡ self.old.words }
    {
        make_places(&mut self.features)?;
        if let Some(slot) = self.features.get_mut(features_place(text.as_bytes())) {
            if slot.is_none() {
                *slot = Some(AcceptedFeatures {
                    text: String::from_str(alloc, text)?,
                });
            }
        }
        Ok(())
    }

    /// Remembers a part of speech and a relation, if their place is free.
    fn remember_word(&mut self, alloc: Global, tag: &str, relation: &str) -> Result<(), AllocError>
        requires { (is_universal_tag tag.now && is_relation relation.now) ≡ true }
        ensures made { OnOk result (vec_len self.new.words ≡ max 1024 (vec_len self.old.words)) }
        ensures bound { vec_len self.new.words ≤ max 1024 (vec_len self.old.words) }
        ensures let_by { self.new.let_by ≡ self.old.let_by }
        ensures features { self.new.features ≡ self.old.features }
    {
        make_places(&mut self.words)?;
        if let Some(slot) = self
            .words
            .get_mut(word_place(tag.as_bytes(), relation.as_bytes()))
        {
            if slot.is_none() {
                *slot = Some(AcceptedWord {
                    tag: String::from_str(alloc, tag)?,
                    relation: String::from_str(alloc, relation)?,
                });
            }
        }
        Ok(())
    }

    /// Whether the text may be in FEATS, as `is_feature_list` tests it. Where no memory is left to remember it, it is
    /// tested again the next time.
    pub(crate) fn accept_features(&mut self, alloc: Global, text: &str) -> Result<bool, AllocError>
        ensures value { IfOk result (λ b. b ≡ is_feature_text text.now) }
        ensures sure { length text.now ≤ 32 → IsOk result }
        ensures let_by { 0 < self.old.let_by → vec_len self.new.features ≡ vec_len self.old.features }
        ensures bound { vec_len self.new.features ≤ max 1024 (vec_len self.old.features) }
        ensures words { self.new.words ≡ self.old.words }
    {
        if is_blank_field(text) || self.holds_features(text) {
            return Ok(true);
        }
        if !is_feature_list(alloc, text)? {
            return Ok(false);
        }
        if text.len() <= LONGEST && self.remembers_next() {
            let _remembered = self.remember_features(alloc, text).is_ok();
        }
        Ok(true)
    }

    /// Whether the texts are a universal part of speech and a universal relation, as `is_tag` and `is_relation_text`
    /// test them. Where no memory is left to remember them, they are tested again the next time.
    pub(crate) fn accept_word(&mut self, alloc: Global, tag: &str, relation: &str) -> bool
        ensures value { result ≡ (is_universal_tag tag.now && is_relation relation.now) }
        ensures let_by { 0 < self.old.let_by → vec_len self.new.words ≡ vec_len self.old.words }
        ensures bound { vec_len self.new.words ≤ max 1024 (vec_len self.old.words) }
        ensures features { self.new.features ≡ self.old.features }
    {
        if self.holds_word(tag, relation) {
            return true;
        }
        if !is_tag(tag) || !is_relation_text(relation) {
            return false;
        }
        if relation.len() <= LONGEST && self.remembers_next() {
            let _remembered = self.remember_word(alloc, tag, relation).is_ok();
        }
        true
    }
}
