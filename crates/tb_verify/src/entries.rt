//! The sentences of a file, read back one after another.

ghost use Rattle.std.specs.Prelude.{◌≡◌, ◌≢◌, [], List, IfOk, Err, map, take, drop};
ghost use Rattle.tb_verify.specs.Prelude.{entries_of, revision_of, Sentence, sentence_of};
ghost use Rattle.tb_verify.specs.File.{AreReadBack, is_next, after_next};
ghost use Rattle.tb_verify.specs.declared.unfit.Unfit.TheVariants.{Memory, NotADesk};

use crate::entry::entry_by;
use crate::unfit::{Unfit, fit, push};
use std::alloc::Global;
use tb_replay::SentenceSummary;
use tb_rules::SentenceChecker;
use tb_tables::{RevisionRow, SentenceRow};

fn first_rows(rows: &[RevisionRow], count: u32) -> &[RevisionRow]
    ensures { result.now ≡ take count rows.now }
{
    if count as usize >= rows.len() {
        return rows;
    }
    &rows[..count as usize]
}

fn later_rows(rows: &[RevisionRow], count: u32) -> &[RevisionRow]
    ensures { result.now ≡ drop count rows.now }
{
    if count as usize >= rows.len() {
        return &rows[rows.len()..];
    }
    &rows[count as usize..]
}

fn is_pulled_next(number: u64, pulled: &[u32]) -> bool
    ensures { result ≡ is_next number pulled.now }
{
    match pulled.first() {
        None => false,
        Some(first) => *first as u64 == number,
    }
}

fn later_pulled(number: u64, pulled: &[u32]) -> &[u32]
    ensures { result.now ≡ after_next number pulled.now }
{
    if pulled.is_empty() {
        return pulled;
    }
    if is_pulled_next(number, pulled) {
        return &pulled[1..];
    }
    pulled
}

/// The sentences of a file, read back from their rows. They borrow the names of users.
///
/// The rows of revisions come in the order of their keys, and the numbers of pulled sentences ascend.
///
/// # Errors
///
/// `NotADesk` where no sentences, each fine by itself, have these rows; or want of memory.
pub fn entries_in<'a>(
    alloc: Global,
    sentences: &[SentenceRow],
    pulled: &[u32],
    revisions: &'a [RevisionRow],
) -> Result<Vec<SentenceSummary<'a>>, Unfit>
    ensures fine { IfOk result (λ v. (xs : List Sentence) × AreReadBack 1 (map sentence_of sentences.now) pulled.now
        (map revision_of revisions.now) xs × (v.items ≡ entries_of xs)) }
    ensures unfit { result ≡ Err NotADesk → (xs : List Sentence)
        → AreReadBack 1 (map sentence_of sentences.now) pulled.now (map revision_of revisions.now) xs → ⊥ }
    ensures none { sentences.now ≡ [] → result ≢ Err Memory }
{
    let mut checker = SentenceChecker::new(alloc);
    let mut entries: Vec<SentenceSummary<'a>> = Vec::new(alloc);
    let mut rest = revisions;
    let mut left = pulled;
    for i in 0..sentences.len() {
        let number = i as u64 + 1;
        let row = &sentences[i];
        let own = first_rows(rest, row.rev);
        let entry = entry_by(
            alloc,
            &mut checker,
            number,
            row,
            is_pulled_next(number, left),
            own,
        )?;
        push(&mut entries, entry)?;
        rest = later_rows(rest, row.rev);
        left = later_pulled(number, left);
    }
    fit(rest.is_empty())?;
    fit(left.is_empty())?;
    Ok(entries)
}
