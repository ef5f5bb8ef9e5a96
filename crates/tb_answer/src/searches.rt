//! Searches of released text, whose keyword lines are written as they are found.

ghost use Rattle.std.specs.Prelude.{◌≡◌, [], IfErr, IfOk};
ghost use Rattle.tb_answer.specs.Prelude.{CommitsNothing, exit_of, HasReason, InState, reply_text, status_of};
ghost use Rattle.tb_answer.specs.Commanded.{HasFailed};
ghost use Rattle.tb_answer.specs.declared.ending.Ending.{Ending as AnyEnding};
ghost use Rattle.tb_answer.specs.Found.{exit_of_ending, reported_of_ending, search_by, search_head, IsSearchResponse};
ghost use Rattle.tb_answer.specs.Found.{IsSearchRun, IsStreamed};
ghost use Rattle.tb_answer.specs.Output.{IsWritten};
ghost use Rattle.tb_answer.specs.Responses.{reply_response, IsSent};
ghost use Rattle.tb_answer.specs.OnlyRead.{IsOnlyRead};

use crate::ending::{Ending, ending_of, reported_of};
use crate::finding::{Search, accepted};
use crate::responses::{put_piece, respond_reply};
use crate::written::{Ran, Written};
use arrayvec::ArrayString;
use sqlite::Alter;
use std::alloc::Global;
use tb_conllu::Sink;
use tb_http::{Extra, Reply, Status, response_head};
use tb_query::Query;
use tb_store::Desk;

/// Writes what a query finds.
fn put_found<S: Alter, W: Sink>(
    desk: &mut Desk<S>,
    query: &Query,
    search: Search<'_>,
    out: &mut W,
) -> Ending
    ensures put { InState S.Store desk.old desk.new (λ s.
        IsStreamed s query.now search.entry.strategy search.entry.context [] (W.held out.old) (W.held out.new) result) }
    ensures reason { result ≡ Ending.Refused → HasReason (W.IsRefusal out.new) }
    ensures read_only { IsOnlyRead S.Store desk.old desk.new }
    ensures commits_nothing { CommitsNothing S.Store desk.old.conn desk.new.conn }
{
    match desk.search(query, search.strategy, search.context, out) {
        Ok(hits) => Ending::Whole(hits),
        Err(fault) => ending_of(fault),
    }
}

/// Writes what a query finds that was accepted. Else writes the line of the reply for why there is none.
fn run_found<S: Alter, W: Sink>(
    accepted: Result<Query, Reply>,
    desk: &mut Desk<S>,
    search: Search<'_>,
    out: &mut W,
) -> Ran
    ensures found { IfOk accepted (λ q. (e : AnyEnding) × (result.status ≡ exit_of_ending e)
        × (result.written ≡ Written.Found e) × (e ≡ Ending.Refused → HasReason (W.IsRefusal out.new))
        × InState S.Store desk.old desk.new (λ s. IsStreamed s q search.entry.strategy search.entry.context []
        (W.held out.old) (W.held out.new) e)) }
    ensures refused { IfErr accepted (λ r. (result.written ≡ Written.Reply r) × (desk.new ≡ desk.old)
        × IsWritten (W.held out.old) (W.held out.new) (reply_text r) (exit_of r) (W.IsRefusal out.new) result.status) }
    ensures read_only { IsOnlyRead S.Store desk.old desk.new }
    ensures commits_nothing { CommitsNothing S.Store desk.old.conn desk.new.conn }
{
    match accepted {
        Ok(query) => Ran::by_search(put_found(desk, &query, search, out)),
        Err(reply) => Ran::by_reply(out, reply),
    }
}

/// Searches released text, and writes the keyword lines or the line of a reply.
///
/// A search that ends with its last line has status 0. One that breaks off has 3, and nothing more is written.
pub fn run_search<S: Alter, W: Sink>(
    alloc: Global,
    desk: &mut Desk<S>,
    search: Search<'_>,
    out: &mut W,
) -> Ran
    ensures written { InState S.Store desk.old desk.new (λ s. IsSearchRun (HasFailed S.Store desk.old desk.new)
        desk.old.limits s (search_by search.entry) (W.held out.old) (W.held out.new) (W.IsRefusal out.new)
        result.written result.status) }
    ensures read_only { IsOnlyRead S.Store desk.old desk.new }
{
    let query = accepted(alloc, desk, search.query, search.strategy);
    run_found(query, desk, search, out)
}

/// The head of a search, whose length is unknown.
fn search_head() -> ArrayString<256>
    ensures { result.bytes ≡ search_head }
{
    response_head(Status::Ok, None, Extra::Nothing)
}

/// Writes the response with what a query finds that was accepted. Else writes that of the reply for why there is none.
fn respond_found<S: Alter, W: Sink>(
    accepted: Result<Query, Reply>,
    desk: &mut Desk<S>,
    search: Search<'_>,
    out: &mut W,
) -> Option<Status>
    ensures found { IfOk accepted (λ q. (e : AnyEnding) × (result ≡ reported_of_ending e)
        × (e ≡ Ending.Refused → HasReason (W.IsRefusal out.new))
        × InState S.Store desk.old desk.new (λ s. IsStreamed s q search.entry.strategy search.entry.context
        search_head (W.held out.old) (W.held out.new) e)) }
    ensures refused { IfErr accepted (λ r. (desk.new ≡ desk.old)
        × IsSent (W.held out.old) (W.held out.new) (reply_response r) (status_of r) (W.IsRefusal out.new) result) }
    ensures read_only { IsOnlyRead S.Store desk.old desk.new }
    ensures commits_nothing { CommitsNothing S.Store desk.old.conn desk.new.conn }
{
    match accepted {
        Ok(query) => {
            let head = search_head();
            if !put_piece(out, head.as_str().as_bytes()) {
                return None;
            }
            reported_of(put_found(desk, &query, search, out))
        }
        Err(reply) => respond_reply(out, reply),
    }
}

/// Searches released text, and writes the response. Returns its status, or none where the sink refused a piece.
///
/// Once the query is accepted, a head without a length is written, and then each keyword line as it is found. A search
/// that breaks off lacks its last line. If the query is not accepted, the response is that of a reply.
pub fn respond_search<S: Alter, W: Sink>(
    alloc: Global,
    desk: &mut Desk<S>,
    search: Search<'_>,
    out: &mut W,
) -> Option<Status>
    ensures written { InState S.Store desk.old desk.new (λ s. IsSearchResponse (HasFailed S.Store desk.old desk.new)
        desk.old.limits s (search_by search.entry) (W.held out.old) (W.held out.new) (W.IsRefusal out.new) result) }
    ensures read_only { IsOnlyRead S.Store desk.old desk.new }
{
    let query = accepted(alloc, desk, search.query, search.strategy);
    respond_found(query, desk, search, out)
}
