//! Frequency tables.

ghost use Rattle.std.specs.Prelude.{◌≡◌, ℕ, ◌+◌, ◌-◌, ◌^◌, ◌<◌, List, [], ◌∷◌, ◌++◌};
ghost use Rattle.std.specs.Prelude.{IfOk, IsOk, OnOk, OnErr, map};
ghost use Rattle.tb_report.specs.Kept.{AreLong, AreShort, ranked_row, rows_of, short_rows, table_of};
ghost use Rattle.tb_report.specs.Tables.{CountsOneMore, IsRankingOf, IsTable, IsTableOf, count_in, total_of};

use crate::counts::{LongCounts, ShortCounts, count_long, count_short, is_short};
use std::alloc::{AllocError, Global};
use std::cmp::Reverse;
use std::collections::BTreeMap;
use std::marker::Model;

/// A frequency table: how often each key was added.
#[derive(Drop)]
pub struct Freq {
    alloc: Global,
    short: ShortCounts,
    long: LongCounts,
    total: u64,
}

impl Model for Freq {
    ghost use Rattle.std.specs.Prelude.{◌≡◌, ℕ, List};
    ghost use Rattle.tb_report.specs.Tables.{Row, IsTable, total_of};
    ghost use Rattle.tb_report.specs.Kept.{AreLong, AreShort, table_of};
    ghost use Rattle.std.specs.Coded.{coded_ℕ, coded_list, coded×};

    ghost Value = { List Row };

    ghost coded = { coded_list (coded× (coded_list coded_ℕ) coded_ℕ) };

    ghost view = { λ f. table_of f.short.entries f.long.entries };

    ghost invariant = { λ f. (f.total ≡ total_of (table_of f.short.entries f.long.entries)) × IsTable (table_of f.short.entries f.long.entries) × AreShort f.short.entries × AreLong f.long.entries };
}

impl Freq {
    /// A table without keys. It takes its memory from `alloc`.
    pub fn new(alloc: Global) -> Freq
        ensures { result ≡ [] }
    {
        Freq {
            alloc,
            short: BTreeMap::new(alloc),
            long: BTreeMap::new(alloc),
            total: 0,
        }
    }

    /// The sum of all counts.
    pub fn total(&self) -> u64
        ensures total { result ≡ total_of self.now }
        ensures table { IsTable self.now }
    {
        self.total
    }

    /// The rows, the greatest count first.
    pub(crate) fn ranking(&self) -> Result<Vec<Rank<'_>>, AllocError>
        ensures ranking { IfOk result (λ v. IsRankingOf self.now (map ranked_row v.items)) }
        ensures sure { self.now ≡ [] → IsOk result }
    {
        let mut ranks = ranks_of(self.alloc, &self.short, &self.long)?;
        ranks.sort_unstable();
        Ok(ranks)
    }

    /// The keys with their counts: the greatest count first, and keys with the same count in the order of their bytes.
    /// Takes no memory where there are none.
    ///
    /// # Errors
    ///
    /// Memory was refused.
    pub fn rows(&self) -> Result<Vec<(String, u64)>, AllocError>
        ensures rows { IfOk result (λ v. IsRankingOf self.now (rows_of v.items)) }
        ensures sum { IfOk result (λ v. total_of (rows_of v.items) ≡ total_of self.now) }
        ensures sure { self.now ≡ [] → IsOk result }
    {
        let ranks = self.ranking()?;
        owned_rows(self.alloc, &ranks)
    }

    /// Adds one to the count of the key. Takes no memory where the table has the key.
    ///
    /// # Errors
    ///
    /// Memory for a new key was refused. The table is unchanged.
    pub fn add(&mut self, key: &str) -> Result<(), AllocError>
        requires { total_of self.old < 2 ^ 64 - 1 }
        ensures counted { OnOk result (CountsOneMore self.old self.new key.now) }
        ensures keys { OnOk result ((keys : List (List ℕ)) → IsTableOf keys self.old
            → IsTableOf (keys ++ key.now ∷ []) self.new) }
        ensures known { 0 < count_in self.old key.now → IsOk result }
        ensures unchanged { OnErr result (self.new ≡ self.old) }
    {
        count_once(self.alloc, &mut self.short, &mut self.long, key)?;
        self.total += 1;
        Ok(())
    }
}

/// A row of a table. In ascending order the greatest count comes first.
pub(crate) type Rank<'a> = (Reverse<u64>, &'a str);

/// The entries of both maps as ranks.
fn ranks_of<'a>(
    alloc: Global,
    short: &'a ShortCounts,
    long: &'a LongCounts,
) -> Result<Vec<Rank<'a>>, AllocError>
    ensures ranks { IfOk result (λ v.
        map ranked_row v.items ≡ short_rows short.now.entries ++ rows_of long.now.entries) }
    ensures sure { short.now.entries ≡ [] → long.now.entries ≡ [] → IsOk result }
{
    let mut ranks: Vec<Rank<'a>> = Vec::with_capacity(alloc, short.len() + long.len())?;
    push_short(&mut ranks, short)?;
    push_long(&mut ranks, long)?;
    Ok(ranks)
}

fn push_short<'a>(ranks: &mut Vec<Rank<'a>>, short: &'a ShortCounts) -> Result<(), AllocError>
    ensures ranks { OnOk result (map ranked_row ranks.new.items
        ≡ map ranked_row ranks.old.items ++ short_rows short.now.entries) }
    ensures sure { short.now.entries ≡ [] → IsOk result }
{
    for (key, count) in short.values() {
        ranks.push((Reverse(*count), key.as_str()))?;
    }
    Ok(())
}

fn push_long<'a>(ranks: &mut Vec<Rank<'a>>, long: &'a LongCounts) -> Result<(), AllocError>
    ensures ranks { OnOk result (map ranked_row ranks.new.items
        ≡ map ranked_row ranks.old.items ++ rows_of long.now.entries) }
    ensures sure { long.now.entries ≡ [] → IsOk result }
{
    for (key, count) in long {
        ranks.push((Reverse(*count), key.as_str()))?;
    }
    Ok(())
}

/// The ranks, with keys that they own.
fn owned_rows(alloc: Global, ranks: &[Rank<'_>]) -> Result<Vec<(String, u64)>, AllocError>
    ensures rows { IfOk result (λ v. rows_of v.items ≡ map ranked_row ranks.now) }
    ensures sure { ranks.now ≡ [] → IsOk result }
{
    let mut rows = Vec::with_capacity(alloc, ranks.len())?;
    for rank in ranks {
        let (Reverse(count), key) = *rank;
        rows.push((String::from_str(alloc, key)?, count))?;
    }
    Ok(rows)
}

/// Adds one to the count of the key, in the map for its length.
fn count_once(
    alloc: Global,
    short: &mut ShortCounts,
    long: &mut LongCounts,
    key: &str,
) -> Result<(), AllocError>
    requires room { total_of (table_of short.old.entries long.old.entries) < 2 ^ 64 - 1 }
    requires are_short { AreShort short.old.entries }
    requires are_long { AreLong long.old.entries }
    ensures counted { OnOk result (CountsOneMore (table_of short.old.entries long.old.entries)
        (table_of short.new.entries long.new.entries) key.now) }
    ensures are_short { AreShort short.new.entries }
    ensures are_long { AreLong long.new.entries }
    ensures known { 0 < count_in (table_of short.old.entries long.old.entries) key.now → IsOk result }
    ensures unchanged { OnErr result (table_of short.new.entries long.new.entries
        ≡ table_of short.old.entries long.old.entries) }
{
    if is_short(key) {
        return count_short(alloc, short, key);
    }
    count_long(alloc, long, key)
}
