//! Counts the keys of hits.

ghost use Rattle.std.specs.Prelude.{◌≡◌, ◌≢◌, ◌<◌, ◌≤◌, ◌+◌, ◌-◌, ◌^◌, ◌++◌, ◌∷◌, [], ℕ, All, List, Err, IfErr, IsOk, OnOk};
ghost use Rattle.std.specs.Prelude.{map};
ghost use Rattle.tb_search.specs.Prelude.{count_in, IsTableOf, key_of, total_of, words_of};
ghost use Rattle.sqlite.specs.declared.error.ErrorCode.TheVariants.{OutOfMemory};
ghost use Rattle.tb_search.specs.Visited.{IsFault, IsStopFault, IsStopWant};

use crate::searcher::{SentenceSearcher, sentence_in};
use crate::stopped::Stopped;
use crate::visitor::BodyVisitor;
use sqlite::{Error, ErrorCode};
use std::alloc::Global;
use tb_conllu::BlockRef;
use tb_query::Attr;
use tb_reads::ReadError;
use tb_report::{Freq, KeyWalk, key};

/// Nothing where one more key can be counted. A number past 64 bits is reported as want of memory: no memory holds so
/// many hits.
fn has_room(total: u64) -> Result<(), Stopped>
    ensures room { OnOk result (total < 2 ^ 64 - 1) }
    ensures full { IfErr result (λ e. (e ≡ Stopped.Read (ReadError.Store (Error.SqliteFailure OutOfMemory)))
        × (total ≡ 2 ^ 64 - 1)) }
{
    if total == u64::MAX {
        return Err(Stopped::Read(ReadError::Store(Error::SqliteFailure(ErrorCode::OutOfMemory))));
    }
    Ok(())
}

/// Counts a key. One that was counted before takes no memory.
fn count_key(key: &str, table: &mut Freq) -> Result<(), Stopped>
    requires { total_of table.old < 2 ^ 64 - 1 }
    ensures counted { OnOk result ((keys : List (List ℕ)) → IsTableOf keys table.old
        → IsTableOf (keys ++ key.now ∷ []) table.new) }
    ensures known { 0 < count_in table.old key.now → IsOk result }
    ensures never_refuses { result ≢ Err Stopped.Output }
    ensures fault { IfErr result IsFault }
    ensures fails { IfErr result IsStopFault }
    ensures cause { IfErr result IsStopWant }
{
    table.add(key)?;
    Ok(())
}

/// Counts the key of one hit. A word whose value was counted before takes no memory.
fn count_hit(
    alloc: Global,
    walk: &mut KeyWalk<'_, &str>,
    hit: (u32, u32),
    column: Attr,
    table: &mut Freq,
) -> Result<(), Stopped>
    requires first { hit.0 < hit.1 }
    requires last { hit.1 ≤ words_of walk.old }
    ensures counted { OnOk result ((keys : List (List ℕ)) → IsTableOf keys table.old
        → IsTableOf (keys ++ key_of column walk.old hit ∷ []) table.new) }
    ensures known { hit.1 ≡ hit.0 + 1 → 0 < count_in table.old (key_of column walk.old hit)
        → total_of table.old < 2 ^ 64 - 1 → IsOk result }
    ensures unchanged { walk.new ≡ walk.old }
    ensures never_refuses { result ≢ Err Stopped.Output }
    ensures fault { IfErr result IsFault }
    ensures fails { IfErr result IsStopFault }
    ensures cause { IfErr result IsStopWant }
{
    has_room(table.total())?;
    if let Some(value) = walk.word_key(hit, column) {
        return count_key(value, table);
    }
    let key = key(alloc, walk.sentence(), hit, column)?;
    count_key(key.as_str(), table)?;
    Ok(())
}

/// Counts the keys of the hits of a sentence.
fn count_hits(
    alloc: Global,
    block: &BlockRef<'_>,
    hits: &[(u32, u32)],
    column: Attr,
    table: &mut Freq,
) -> Result<(), Stopped>
    requires { All (λ h. (h.0 < h.1) × (h.1 ≤ words_of block.now)) hits.now }
    ensures counted { OnOk result ((keys : List (List ℕ)) → IsTableOf keys table.old
        → IsTableOf (keys ++ map (key_of column block.now) hits.now) table.new) }
    ensures never_refuses { result ≢ Err Stopped.Output }
    ensures fault { IfErr result IsFault }
    ensures fails { IfErr result IsStopFault }
    ensures cause { IfErr result IsStopWant }
    ensures sure { hits.now ≡ [] → IsOk result }
{
    let mut walk = KeyWalk::new(block);
    for hit in hits {
        count_hit(alloc, &mut walk, *hit, column, table)?;
    }
    Ok(())
}

/// Counts the keys of the hits of a query.
#[derive(Drop)]
pub(crate) struct CountKeys<'q> {
    pub seeker: SentenceSearcher<'q>,
    pub column: Attr,
}

impl<'q> BodyVisitor<Freq> for CountKeys<'q> {
    ghost use Rattle.std.specs.Prelude.{◌≡◌, ◌++◌, ℕ, List};
    ghost use Rattle.tb_search.specs.Prelude.{BlockText, HasNeedles, IsTableOf};
    ghost use Rattle.tb_search.specs.Visited.{IsFault};
    ghost use Rattle.tb_search.specs.Searched.{IsValidText, Meets, keys as keys_of};

    ghost Takes = { λ v o body w p. Meets v.seeker.strategy v.seeker.searcher.asked body (λ found. (w ≡ v) × ((keys : List (List ℕ)) → IsTableOf keys o → IsTableOf (keys ++ keys_of v.column found) p)) };

    ghost Stops = { λ v _ body e _. HasNeedles v.seeker.searcher body × ((b : BlockText) → IsValidText b body → IsFault e) };

    ghost Refused = { λ _. ⊥ };

    fn visit(&mut self, body: &[u8], filled: &mut Freq) -> Result<(), Stopped> {
        if !self.seeker.may_hit(body) {
            return Ok(());
        }
        let alloc = self.seeker.alloc;
        let block = sentence_in(alloc, body)?;
        let hits = self.seeker.hits(&block)?;
        count_hits(alloc, &block, hits.as_slice(), self.column, filled)
    }
}
