//! What each batch holds, counted in one walk over the rows of all sentences.

ghost use Rattle.std.specs.Prelude.{◌≡◌, ◌+◌, ◌<◌, ◌^◌, IfErr, IfOk, IsOk, length, replicate, slice_index_or, ◌-◌, slice_set};
ghost use Rattle.tb_lists.specs.Prelude.{AllByRecursion, IsAscending};
ghost use Rattle.tb_lists.specs.Counted.{IsOfSoMany, change_of, count_all, counted, first_seen, no_count};

use std::alloc::Global;
use tb_core::Fault;
use tb_refine::is_among;
use tb_tables::SentenceRow;

/// What is counted for a batch.
#[derive(Clone, Copy, Debug)]
pub(crate) struct Count {
    /// The number of its first sentence, or 0 before there is one.
    pub first: u64,
    /// How many of its sentences are not pulled.
    pub sentences: u64,
    /// The words of these sentences.
    pub words: u64,
    /// How many of its sentences are pulled.
    pub pulled: u64,
    /// The words of the pulled ones.
    pub pulled_words: u64,
}

/// The count before the first sentence.
const NONE: Count = Count {
    first: 0,
    sentences: 0,
    words: 0,
    pulled: 0,
    pulled_words: 0,
};

/// The count at a place.
pub(crate) fn count_at(counts: &[Count], place: u64) -> Count
    ensures { result ≡ slice_index_or counts.now place no_count }
{
    match counts.get(place as usize) {
        Some(count) => *count,
        None => NONE,
    }
}

fn put_count(counts: &mut Vec<Count>, place: u64, count: Count)
    ensures { counts.new.items ≡ slice_set counts.old.items place count }
{
    if place < counts.len() as u64 {
        counts[place as usize] = count;
    }
}

/// The number of the first sentence, when this one comes.
fn first_of(number: u64, first: u64) -> u64
    ensures { result ≡ first_seen number first }
{
    if first == 0 { number } else { first }
}

/// Adds one more sentence, after `seen` others.
fn with_one(count: Count, seen: u64, words: u32, is_pulled: bool) -> Count
    requires few { seen < 2 ^ 32 - 1 }
    requires bound { IsOfSoMany seen count }
    ensures value { result ≡ counted (seen + 1) words is_pulled count }
    ensures bound { IsOfSoMany (seen + 1) result }
{
    let first = first_of(seen + 1, count.first);
    if is_pulled {
        return Count {
            first,
            sentences: count.sentences,
            words: count.words,
            pulled: count.pulled + 1,
            pulled_words: count.pulled_words + u64::from(words),
        };
    }
    Count {
        first,
        sentences: count.sentences + 1,
        words: count.words + u64::from(words),
        pulled: count.pulled,
        pulled_words: count.pulled_words,
    }
}

/// Counts one more sentence for its batch, after `seen` others.
fn put_one(counts: &mut Vec<Count>, seen: u64, row: &SentenceRow, is_pulled: bool)
    requires few { seen < 2 ^ 32 - 1 }
    requires bound { AllByRecursion (IsOfSoMany seen) counts.old.items }
    ensures value { counts.new.items
        ≡ change_of (counted (seen + 1) row.now.words is_pulled) row.now.batch counts.old.items }
    ensures bound { AllByRecursion (IsOfSoMany (seen + 1)) counts.new.items }
{
    if row.batch == 0 {
        return;
    }
    let place = u64::from(row.batch) - 1;
    let count = with_one(
        count_at(counts.as_slice(), place),
        seen,
        row.words,
        is_pulled,
    );
    put_count(counts, place, count);
}

/// Counts each of these sentences for its batch.
fn put_all(counts: &mut Vec<Count>, rows: &[SentenceRow], pulled: &[u32])
    requires few { length rows.now < 2 ^ 32 }
    requires none { AllByRecursion (IsOfSoMany 0) counts.old.items }
    ensures { IsAscending (λ a b. a < b) pulled.now
        → counts.new.items ≡ count_all pulled.now 1 rows.now counts.old.items }
{
    let mut seen = 0u32;
    for row in rows {
        let is_pulled = is_among(seen + 1, pulled);
        put_one(counts, u64::from(seen), row, is_pulled);
        seen += 1;
    }
}

/// The counts of so many batches, by number.
pub(crate) fn count_rows(
    alloc: Global,
    batches: usize,
    rows: &[SentenceRow],
    pulled: &[u32],
) -> Result<Vec<Count>, Fault>
    requires { length rows.now < 2 ^ 32 }
    ensures counts { IfOk result (λ v. IsAscending (λ a b. a < b) pulled.now
        → v.items ≡ count_all pulled.now 1 rows.now (replicate batches no_count)) }
    ensures fault { IfErr result (λ e. e ≡ Fault.Memory) }
    ensures sure { batches ≡ 0 → IsOk result }
{
    let mut counts = Vec::new(alloc);
    counts.resize(batches, NONE)?;
    put_all(&mut counts, rows, pulled);
    Ok(counts)
}
