//! Searches released text: its keyword lines, the table of its keys, or the number of hits.

ghost use Rattle.std.specs.Prelude.{◌≡◌, ◌≢◌, List, length, Err};
ghost use Rattle.tb_search.specs.Prelude.{AnyStrategy, Appends, Asked, BlockText, IsTableOf, Tells, TellsOnErr};
ghost use Rattle.tb_search.specs.Visited.{HasReason};
ghost use Rattle.tb_search.specs.Searched.{AreFound, IsSearchBrokenOff, Occurrence, answer, keys, searched};
ghost use Rattle.tb_search.specs.Ending.{IsTextRead};

use crate::count_hits::CountHits;
use crate::count_keys::CountKeys;
use crate::released::visit_released;
use crate::searcher::SentenceSearcher;
use crate::stopped::Stopped;
use crate::write_kwic::{Line, WriteKwic, put_total};
use sqlite::{Alter, Connection};
use std::alloc::Global;
use tb_conllu::Sink;
use tb_core::revisions_read_back;
use tb_match::Strategy;
use tb_query::{Attr, Query};
use tb_report::Freq;

/// How many hits a query has in released text: in the current revisions of released sentences.
///
/// One sentence is in memory at a time. The desk is unchanged.
///
/// # Errors
///
/// The tables cannot be read, or memory was refused.
pub fn number_released<S: Alter>(
    alloc: Global,
    conn: &mut Connection<S>,
    query: &Query,
    strategy: Strategy,
) -> Result<u64, Stopped>
    ensures answered { Tells S.Store conn.old conn.new result (λ s n. (found : List Occurrence)
        × AreFound strategy query.now (searched s) found × (n ≡ length found)) }
    ensures never_refuses { result ≢ Err Stopped.Output }
    ensures read { IsTextRead S.Store conn.old conn.new result }
{
    revisions_read_back();
    let seeker = SentenceSearcher::new(alloc, query, strategy)?;
    let mut numbering = CountHits { seeker };
    let mut number = 0;
    visit_released(alloc, conn, &mut numbering, &mut number)?;
    Ok(number)
}

/// The frequency table of the hits of a query in released text, by their values in one column.
///
/// One sentence is in memory at a time, beside the table. The desk is unchanged.
///
/// # Errors
///
/// Those of `number_released`.
pub fn count_released<S: Alter>(
    alloc: Global,
    conn: &mut Connection<S>,
    query: &Query,
    strategy: Strategy,
    column: Attr,
) -> Result<Freq, Stopped>
    ensures answered { Tells S.Store conn.old conn.new result (λ s table. (found : List Occurrence)
        × AreFound strategy query.now (searched s) found × IsTableOf (keys column found) table) }
    ensures never_refuses { result ≢ Err Stopped.Output }
    ensures read { IsTextRead S.Store conn.old conn.new result }
{
    revisions_read_back();
    let seeker = SentenceSearcher::new(alloc, query, strategy)?;
    let mut keying = CountKeys { seeker, column };
    let mut table = Freq::new(alloc);
    visit_released(alloc, conn, &mut keying, &mut table)?;
    Ok(table)
}

/// Writes a keyword line for each hit of a query in released text, then the line `hits N`. Returns the number of hits.
///
/// Each line has `context` words on each side. Lines are in the order of the sentences' numbers, and within a sentence
/// in the order of the strategy. No keyword line looks like `hits N`, so output without this line is incomplete. One
/// sentence is in memory at a time. The desk is unchanged.
///
/// # Errors
///
/// `Output`, where the sink refuses a piece; it may hold a first part of the answer. After any other error it holds the
/// whole keyword lines of the first hits.
pub fn search_released<S: Alter, W: Sink>(
    alloc: Global,
    conn: &mut Connection<S>,
    query: &Query,
    strategy: Strategy,
    context: u8,
    out: &mut W,
) -> Result<u64, Stopped>
    ensures answered { Tells S.Store conn.old conn.new result (λ s n. (found : List Occurrence)
        × AreFound strategy query.now (searched s) found × (n ≡ length found)
        × Appends (W.held out.old) (W.held out.new) (answer context found)) }
    ensures refused { result ≡ Err Stopped.Output → HasReason (W.IsRefusal out.new) }
    ensures broken { TellsOnErr S.Store conn.old conn.new result (λ s e. (found : List Occurrence)
        → AreFound strategy query.now (searched s) found
        → IsSearchBrokenOff e (W.held out.old) (W.held out.new) context found) }
    ensures read { IsTextRead S.Store conn.old conn.new result }
{
    revisions_read_back();
    let seeker = SentenceSearcher::new(alloc, query, strategy)?;
    let line = Line::new(alloc);
    let mut listing = WriteKwic {
        seeker,
        context,
        found: 0,
        line,
    };
    visit_released(alloc, conn, &mut listing, out)?;
    put_total(listing.found, out)?;
    Ok(listing.found)
}

/// A law: the query, the strategy and the sentences fix the list of hits.
pub fn one_list_is_found()
    ensures { (s : AnyStrategy) (q : Asked) (bs : List BlockText) (found others : List Occurrence)
        → AreFound s q bs found → AreFound s q bs others → found ≡ others }
{}
