//! Counts of what is found in released text, as CSV.

ghost use Rattle.std.specs.Prelude.{◌≡◌, ℕ, List, Err, IfOk, IfErr, MatchResult, None};
ghost use Rattle.tb_answer.specs.Prelude.{AnyStatus, AreReleasedHits, CommitsNothing, freq_csv, Gives, GivesOnErr};
ghost use Rattle.tb_answer.specs.Prelude.{InState, IsRankingOf, IsTableOf, keys, Occurrence, Row};
ghost use Rattle.tb_answer.specs.Prelude.{status_of, total_of};
ghost use Rattle.tb_answer.specs.Asked.{IsMadeOf};
ghost use Rattle.tb_answer.specs.Commanded.{HasFailed, IsFailure};
ghost use Rattle.tb_answer.specs.Output.{IsWritten};
ghost use Rattle.tb_answer.specs.Responses.{IsSent, body_response, reply_response};
ghost use Rattle.tb_answer.specs.Found.{count_by, IsCounted, IsCountOutput, IsCountResponse, IsReportedOfQuery};
ghost use Rattle.tb_answer.specs.OnlyRead.{IsOnlyRead, IsReadResult};

use crate::bodies::body_of;
use crate::commands::reply_for_fault;
use crate::finding::{Count, accepted};
use crate::listed::text_of;
use crate::responses::{respond_body, respond_reply};
use crate::written::Ran;
use sqlite::Alter;
use std::alloc::Global;
use tb_conllu::Sink;
use tb_core::Fault;
use tb_http::{Reply, Status};
use tb_query::Query;
use tb_report::Freq;
use tb_store::Desk;

/// The table of a count as CSV, and how many hits it counts.
#[derive(Drop)]
pub(crate) struct CountTable {
    pub(crate) text: Vec<u8>,
    pub(crate) hits: u64,
}

/// A table as CSV.
fn table_text(alloc: Global, table: &Freq) -> Result<CountTable, Reply>
    ensures text { IfOk result (λ v. (rows : List Row) × IsRankingOf table.now rows
        × (v.text.items ≡ freq_csv rows) × (v.hits ≡ total_of table.now)) }
    ensures failed { IfErr result (λ r. r ≡ Reply.Memory) }
{
    match text_of(alloc, table) {
        Ok(text) => Ok(CountTable {
            text,
            hits: table.total(),
        }),
        Err(reply) => Err(reply),
    }
}

/// The text of the table that was counted, or the reply for the fault of the count.
fn table_or_reply(alloc: Global, read: Result<Freq, Fault>) -> Result<CountTable, Reply>
    ensures { IsMadeOf read result (λ table v. (rows : List Row) × IsRankingOf table rows
        × (v.text.items ≡ freq_csv rows) × (v.hits ≡ total_of table)) }
{
    match read {
        Ok(table) => table_text(alloc, &table),
        Err(fault) => Err(reply_for_fault(fault)),
    }
}

/// The table of the hits of a query, as CSV.
fn counted<S: Alter>(
    alloc: Global,
    desk: &mut Desk<S>,
    query: &Query,
    count: Count<'_>,
) -> Result<CountTable, Reply>
    ensures counted { Gives S.Store desk.old desk.new result (λ s v. (found : List Occurrence)
        × AreReleasedHits s query.now count.entry.strategy found × (table : List Row) × (rows : List Row)
        × IsTableOf (keys count.entry.column found) table × IsRankingOf table rows
        × (v.text.items ≡ freq_csv rows) × (v.hits ≡ total_of table)) }
    ensures failed { GivesOnErr S.Store desk.old desk.new result (λ s r.
        IsFailure (HasFailed S.Store desk.old desk.new) r) }
    ensures read_only { IsOnlyRead S.Store desk.old desk.new }
    ensures commits_nothing { CommitsNothing S.Store desk.old.conn desk.new.conn }
{
    table_or_reply(alloc, desk.count(query, count.strategy, count.column))
}

/// The table of the hits of a query that was accepted. Else returns the reply for why there is none.
fn counted_if<S: Alter>(
    accepted: Result<Query, Reply>,
    alloc: Global,
    desk: &mut Desk<S>,
    count: Count<'_>,
) -> Result<CountTable, Reply>
    ensures counted { IfOk accepted (λ q. Gives S.Store desk.old desk.new result (λ s v. (found : List Occurrence)
        × AreReleasedHits s q count.entry.strategy found × (table : List Row) × (rows : List Row)
        × IsTableOf (keys count.entry.column found) table × IsRankingOf table rows
        × (v.text.items ≡ freq_csv rows) × (v.hits ≡ total_of table))) }
    ensures failed { IfOk accepted (λ _. GivesOnErr S.Store desk.old desk.new result (λ s r.
        IsFailure (HasFailed S.Store desk.old desk.new) r)) }
    ensures refused { IfErr accepted (λ r. (result ≡ Err r) × (desk.new ≡ desk.old)) }
    ensures read_only { IsOnlyRead S.Store desk.old desk.new }
    ensures commits_nothing { CommitsNothing S.Store desk.old.conn desk.new.conn }
{
    match accepted {
        Ok(query) => counted(alloc, desk, &query, count),
        Err(reply) => Err(reply),
    }
}

/// The text of a count, and how many hits it counts.
///
/// # Errors
///
/// The refusals of its query, or a failure.
fn count_text<S: Alter>(
    alloc: Global,
    desk: &mut Desk<S>,
    count: Count<'_>,
) -> Result<CountTable, Reply>
    ensures { IsReadResult S.Store desk.old desk.new result
        (λ s v. IsCounted desk.old.limits s (count_by count.entry) v.text.items v.hits)
        (λ cause s. IsReportedOfQuery cause desk.old.limits s count.entry.query.now count.entry.strategy) }
{
    counted_if(
        accepted(alloc, desk, count.query, count.strategy),
        alloc,
        desk,
        count,
    )
}

/// Counts what a query finds in released text, and writes the table or the line of a reply.
pub fn run_count<S: Alter, W: Sink>(
    alloc: Global,
    desk: &mut Desk<S>,
    count: Count<'_>,
    out: &mut W,
) -> Ran
    ensures written { InState S.Store desk.old desk.new (λ s. (text : List ℕ) × (own : ℕ)
        × IsCountOutput (HasFailed S.Store desk.old desk.new) desk.old.limits s (count_by count.entry) text own
        result.written
        × IsWritten (W.held out.old) (W.held out.new) text own (W.IsRefusal out.new) result.status) }
    ensures read_only { IsOnlyRead S.Store desk.old desk.new }
{
    Ran::by_count(out, count_text(alloc, desk, count))
}

/// Writes the response with a table, or with the line of why there is none. Returns its status if it was written whole.
fn respond_table<W: Sink>(out: &mut W, counted: Result<CountTable, Reply>) -> Option<Status>
    ensures { MatchResult counted
        (λ t. IsSent (W.held out.old) (W.held out.new) (body_response None t.text.items) Status.Ok
        (W.IsRefusal out.new) result)
        (λ r. IsSent (W.held out.old) (W.held out.new) (reply_response r) (status_of r) (W.IsRefusal out.new) result) }
{
    match counted {
        Ok(table) => respond_body(out, &body_of(table.text)),
        Err(reply) => respond_reply(out, reply),
    }
}

/// Counts what a query finds in released text, and writes the response. Returns its status if it was written whole.
///
/// The body is the table, which is made whole before the first byte is written, or the line of a reply.
pub fn respond_count<S: Alter, W: Sink>(
    alloc: Global,
    desk: &mut Desk<S>,
    count: Count<'_>,
    out: &mut W,
) -> Option<Status>
    ensures written { InState S.Store desk.old desk.new (λ s. (text : List ℕ) × (status : AnyStatus)
        × IsCountResponse (HasFailed S.Store desk.old desk.new) desk.old.limits s (count_by count.entry) text status
        × IsSent (W.held out.old) (W.held out.new) text status (W.IsRefusal out.new) result) }
    ensures read_only { IsOnlyRead S.Store desk.old desk.new }
{
    respond_table(out, count_text(alloc, desk, count))
}
