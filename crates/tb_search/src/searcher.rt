//! Reads sentences back from their texts, and finds hits in them.

ghost use Rattle.std.specs.Prelude.{◌≡◌, ◌≢◌, ◌<◌, ◌≤◌, ◌+◌, ◌^◌, true, false, All, Err, IfErr, IfOk, [], ◌∷◌, Some, None};
ghost use Rattle.tb_search.specs.Prelude.{AreHitsIn, BlockText, HasNeedles, IsFile, words_of};
ghost use Rattle.tb_search.specs.Visited.{IsFault, IsStopFault, IsStopWant};

use crate::stopped::Stopped;
use sqlite::{Error, ErrorCode};
use std::alloc::Global;
use tb_conllu::{BlockRef, known_block, words};
use tb_match::{Found, Strategy};
use tb_prefilter::PrefilteredSearcher;
use tb_query::Query;
use tb_reads::ReadError;

/// The sentence that was found in a text. A text in which there is none is no desk's.
fn found_in(found: Option<BlockRef<'_>>) -> Result<BlockRef<'_>, Stopped>
    ensures sentence { IfOk result (λ b. found.entry ≡ Some b) }
    ensures none { IfErr result (λ e. (e ≡ Stopped.Read ReadError.Form) × (found.entry ≡ None)) }
{
    match found {
        Some(block) => Ok(block),
        None => Err(Stopped::Read(ReadError::Form)),
    }
}

/// The sentence with this text. It borrows from the text, which is only split into fields and tested for UTF-8.
pub(crate) fn sentence_in<'a>(alloc: Global, body: &'a [u8]) -> Result<BlockRef<'a>, Stopped>
    ensures read { IfOk result (λ b. (x : BlockText) → IsFile body.now (x ∷ []) → b ≡ x) }
    ensures never_refuses { result ≢ Err Stopped.Output }
    ensures fault { IfErr result (λ e. (x : BlockText) → IsFile body.now (x ∷ []) → IsFault e) }
    ensures fails { IfErr result IsStopFault }
    ensures cause { IfErr result IsStopWant }
{
    let found = known_block(alloc, body)?;
    found_in(found)
}

/// The sum of a count and a length. A sum past 64 bits is reported as want of memory: no memory holds so many hits.
pub(crate) fn raised(count: u64, more: usize) -> Result<u64, Stopped>
    ensures sum { IfOk result (λ n. n ≡ count + more) }
    ensures never_refuses { result ≢ Err Stopped.Output }
    ensures fault { IfErr result IsFault }
    ensures fails { IfErr result IsStopFault }
    ensures cause { IfErr result IsStopWant }
    ensures past { IfErr result (λ _. 2 ^ 64 ≤ count + more) }
{
    match count.checked_add(more as u64) {
        Some(sum) => Ok(sum),
        None => Err(Stopped::Read(ReadError::Store(Error::SqliteFailure(ErrorCode::OutOfMemory)))),
    }
}

/// A query that is searched for in one sentence after another.
#[derive(Drop)]
pub(crate) struct SentenceSearcher<'q> {
    pub alloc: Global,
    pub searcher: PrefilteredSearcher<'q>,
    pub strategy: Strategy,
}

impl<'q> SentenceSearcher<'q> {
    /// Prepares a query.
    pub(crate) fn new(
        alloc: Global,
        query: &'q Query,
        strategy: Strategy,
    ) -> Result<SentenceSearcher<'q>, Stopped>
        ensures asked { IfOk result (λ s. (s.searcher.asked ≡ query.now) × (s.strategy ≡ strategy)) }
        ensures never_refuses { result ≢ Err Stopped.Output }
        ensures fault { IfErr result IsFault }
        ensures fails { IfErr result IsStopFault }
        ensures cause { IfErr result IsStopWant }
    {
        let searcher = PrefilteredSearcher::new(alloc, query)?;
        Ok(SentenceSearcher {
            alloc,
            searcher,
            strategy,
        })
    }

    /// Whether the text may be that of a sentence with a hit. If not, it need not be split into rows.
    pub(crate) fn may_hit(&self, body: &[u8]) -> bool
        ensures none { result ≡ false → (b : BlockText) → IsFile body.now (b ∷ [])
            → AreHitsIn self.now.strategy self.now.searcher.asked b [] }
        ensures all { result ≡ true → HasNeedles self.now.searcher body.now }
    {
        self.searcher.may_hit(body)
    }

    /// The hits of the query in a sentence.
    pub(crate) fn hits(&mut self, block: &BlockRef<'_>) -> Result<Vec<(u32, u32)>, Stopped>
        ensures hits { IfOk result (λ v. AreHitsIn self.old.strategy self.old.searcher.asked block.now v.items) }
        ensures lie { IfOk result (λ v. All (λ h. (h.0 < h.1) × (h.1 ≤ words_of block.now)) v.items) }
        ensures never_refuses { result ≢ Err Stopped.Output }
        ensures long { 1000 < words_of block.now → result ≡ Err (Stopped.Read ReadError.Form) }
        ensures fault { IfErr result (λ e. words_of block.now ≤ 1000 → IsFault e) }
        ensures fails { IfErr result IsStopFault }
        ensures cause { IfErr result IsStopWant }
        ensures unchanged { self.new ≡ self.old }
    {
        if words(block) > 1000 {
            return Err(Stopped::Read(ReadError::Form));
        }
        let Found { hits, .. } = self.searcher.hits(self.alloc, block, self.strategy)?;
        Ok(hits)
    }
}
