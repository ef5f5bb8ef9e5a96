//! The counts of a frequency table: a map of short keys and one of long keys.

ghost use Rattle.std.specs.Prelude.{◌≡◌, ◌-◌, ◌^◌, ◌<◌, ◌≤◌, length, IsTrue, IsFalse};
ghost use Rattle.std.specs.Prelude.{IsOk, OnOk, OnErr};
ghost use Rattle.tb_report.specs.Kept.{AddsOne, AreLong, AreShort, counted_in, number_of, rows_of, short_rows};
ghost use Rattle.tb_report.specs.Tables.{total_of};

use std::alloc::{AllocError, Global};
use std::collections::BTreeMap;

/// The keys of at most 15 bytes with their counts, each by the number of its key: numbers compare faster than texts.
pub(crate) type ShortCounts = BTreeMap<u128, (String, u64)>;

/// The longer keys with their counts.
pub(crate) type LongCounts = BTreeMap<String, u64>;

/// Whether the key is short enough to have a number.
pub(crate) fn is_short(key: &str) -> bool
    ensures yes { IsTrue result → length key.now ≤ 15 }
    ensures no { IsFalse result → 15 < length key.now }
{
    key.len() <= 15
}

/// The number of a short key: its bytes as digits after a one, so that no two keys share a number.
fn number_of_key(key: &str) -> u128
    requires { length key.now ≤ 15 }
    ensures { result ≡ number_of key.now }
{
    let mut number = 1;
    for byte in key.as_bytes() {
        number = number * 256 + u128::from(*byte);
    }
    number
}

/// Adds one to the count of a short key.
pub(crate) fn count_short(
    alloc: Global,
    counts: &mut ShortCounts,
    key: &str,
) -> Result<(), AllocError>
    requires short { length key.now ≤ 15 }
    requires room { total_of (short_rows counts.old.entries) < 2 ^ 64 - 1 }
    requires are_short { AreShort counts.old.entries }
    ensures counted { OnOk result (AddsOne (short_rows counts.old.entries) (short_rows counts.new.entries) key.now) }
    ensures are_short { AreShort counts.new.entries }
    ensures known { 0 < counted_in (short_rows counts.old.entries) key.now → IsOk result }
    ensures unchanged { OnErr result (counts.new.entries ≡ counts.old.entries) }
{
    let number = number_of_key(key);
    if let Some(entry) = counts.get_mut(&number) {
        entry.1 += 1;
        return Ok(());
    }
    let text = String::from_str(alloc, key)?;
    counts.insert(number, (text, 1))?;
    Ok(())
}

/// Adds one to the count of a long key.
pub(crate) fn count_long(
    alloc: Global,
    counts: &mut LongCounts,
    key: &str,
) -> Result<(), AllocError>
    requires long { 15 < length key.now }
    requires room { total_of (rows_of counts.old.entries) < 2 ^ 64 - 1 }
    requires are_long { AreLong counts.old.entries }
    ensures counted { OnOk result (AddsOne (rows_of counts.old.entries) (rows_of counts.new.entries) key.now) }
    ensures are_long { AreLong counts.new.entries }
    ensures known { 0 < counted_in (rows_of counts.old.entries) key.now → IsOk result }
    ensures unchanged { OnErr result (counts.new.entries ≡ counts.old.entries) }
{
    if let Some(count) = counts.get_mut(key) {
        *count += 1;
        return Ok(());
    }
    let key = String::from_str(alloc, key)?;
    counts.insert(key, 1)?;
    Ok(())
}
