//! Searches and counts of released text, and whether their queries are accepted.

ghost use Rattle.std.specs.Prelude.{◌≡◌, ◌≢◌, Ok as OkOf, Err as ErrOf, IfOk, IfErr, MatchResult};
ghost use Rattle.tb_answer.specs.Prelude.{CommitsNothing, Does, GivesOnErr, HasCleanDisk, IsQuery, Machine, Represents};
ghost use Rattle.tb_answer.specs.Prelude.{state};
ghost use Rattle.tb_answer.specs.Commanded.{HasFailed, reply_for_fault};
ghost use Rattle.tb_answer.specs.Found.{query_reply, IsAskedQuery, IsAllowed, IsLimited, IsLimitReply, IsQueryReply};
ghost use Rattle.tb_answer.specs.Found.{IsReportedOfQuery};
ghost use Rattle.tb_answer.specs.OnlyRead.{IsOnlyRead, IsReadResult};

use crate::commands::reply_for_fault;
use sqlite::Alter;
use std::alloc::Global;
use tb_core::{Fault, Refusal};
use tb_http::Reply;
use tb_match::Strategy;
use tb_query::{Attr, Query, QueryFault, parse};
use tb_search::one_list_is_found;
use tb_store::Desk;

/// A search of released text.
#[derive(Clone, Copy, Debug)]
pub struct Search<'a> {
    /// The text of the query.
    pub query: &'a str,
    pub strategy: Strategy,
    /// How many words of context to show on each side of a hit.
    pub context: u8,
}

/// A count of what is found in released text, by the values of a column.
#[derive(Clone, Copy, Debug)]
pub struct Count<'a> {
    /// The text of the query.
    pub query: &'a str,
    pub strategy: Strategy,
    pub column: Attr,
}

/// The reply for a fault of a query.
fn reply_for_query(fault: QueryFault) -> Reply
    ensures { result ≡ query_reply fault }
{
    match fault {
        QueryFault::TooLong => Reply::Refused(Refusal::Query(1, 0)),
        QueryFault::Syntax(byte) => Reply::Refused(Refusal::Query(2, byte)),
        QueryFault::TooMany => Reply::Refused(Refusal::Query(3, 0)),
        QueryFault::TooDeep => Reply::Refused(Refusal::Query(4, 0)),
        QueryFault::Repeat => Reply::Refused(Refusal::Query(5, 0)),
        QueryFault::Pattern(literal) => Reply::Refused(Refusal::Query(6, literal)),
        QueryFault::Memory => Reply::Memory,
    }
}

/// The query that was read, or the reply that names its fault.
fn query_or_reply(read: Result<Query, QueryFault>) -> Result<Query, Reply>
    ensures { MatchResult read (λ q. result ≡ OkOf q) (λ e. result ≡ ErrOf (query_reply e)) }
{
    match read {
        Ok(query) => Ok(query),
        Err(fault) => Err(reply_for_query(fault)),
    }
}

/// Parses a query, or returns the reply that names its fault.
fn read_query(alloc: Global, text: &str) -> Result<Query, Reply>
    ensures query { IfOk result (λ q. IsQuery text.now q) }
    ensures reported { IfErr result (λ r. IsQueryReply text.now r) }
{
    query_or_reply(parse(alloc, text))
}

/// The query if its hits were counted, which are then within the limit. Else the reply for why they were not.
fn counted_query(number: Result<u64, Fault>, query: Query) -> Result<Query, Reply>
    ensures { MatchResult number (λ _. result ≡ OkOf query) (λ e. result ≡ ErrOf (reply_for_fault e)) }
{
    match number {
        Ok(_) => Ok(query),
        Err(fault) => Err(reply_for_fault(fault)),
    }
}

/// Returns the query if the number of its hits, which it counts, is within the limit of the desk.
fn counted_within<S: Alter>(
    desk: &mut Desk<S>,
    query: Query,
    strategy: Strategy,
) -> Result<Query, Reply>
    ensures { IsLimited S.Store query strategy desk.old desk.new result }
{
    one_list_is_found();
    counted_query(desk.number(&query, strategy), query)
}

/// Returns the query if its hits are within the limit of the desk. It counts them for `Every` alone: only there is a
/// limit.
fn within_limit<S: Alter>(
    desk: &mut Desk<S>,
    query: Query,
    strategy: Strategy,
) -> Result<Query, Reply>
    ensures limited { IsLimited S.Store query strategy desk.old desk.new result }
    ensures unasked { strategy ≢ Strategy.Every → (desk.new ≡ desk.old) × (result ≡ OkOf query) }
{
    match strategy {
        Strategy::Every => counted_within(desk, query, strategy),
        Strategy::Shortest | Strategy::Longest => Ok(query),
    }
}

/// Returns a query that was read if its hits are within the limit of the desk. Else returns the reply for why there is
/// none.
fn limited<S: Alter>(
    read: Result<Query, Reply>,
    desk: &mut Desk<S>,
    strategy: Strategy,
) -> Result<Query, Reply>
    ensures allowed { HasCleanDisk (state S.Store desk.new.conn) → IfOk result (λ q. (read ≡ OkOf q)
        × ((s : Machine) → Represents S.Store desk.old s → IsAllowed desk.old.limits s q strategy)) }
    ensures reported { IfOk read (λ q. GivesOnErr S.Store desk.old desk.new result (λ s r.
        IsLimitReply (HasFailed S.Store desk.old desk.new) desk.old.limits s q strategy r)) }
    ensures unread { IfErr read (λ r. (result ≡ ErrOf r) × (desk.new ≡ desk.old)) }
    ensures stays { Does S.Store desk.old desk.new result (λ s. Represents S.Store desk.new s) }
    ensures read_only { IsOnlyRead S.Store desk.old desk.new }
    ensures commits_nothing { CommitsNothing S.Store desk.old.conn desk.new.conn }
    ensures unasked { strategy ≢ Strategy.Every → (desk.new ≡ desk.old) × (result ≡ read) }
{
    match read {
        Ok(query) => within_limit(desk, query, strategy),
        Err(reply) => Err(reply),
    }
}

/// Parses a query whose hits are within the limit of the desk. The desk is asked for `Every` alone.
///
/// # Errors
///
/// The first that holds: `Query`, where the text is no query; `TooManyHits`; or a failure.
pub(crate) fn accepted<S: Alter>(
    alloc: Global,
    desk: &mut Desk<S>,
    text: &str,
    strategy: Strategy,
) -> Result<Query, Reply>
    ensures read { IsReadResult S.Store desk.old desk.new result
        (λ s q. IsAskedQuery desk.old.limits s text.now strategy q)
        (λ cause s. IsReportedOfQuery cause desk.old.limits s text.now strategy) }
    ensures stays { Does S.Store desk.old desk.new result (λ s. Represents S.Store desk.new s) }
    ensures commits_nothing { CommitsNothing S.Store desk.old.conn desk.new.conn }
    ensures unasked { strategy ≢ Strategy.Every → (desk.new ≡ desk.old)
        × IfErr result (λ r. IsQueryReply text.now r) }
{
    limited(read_query(alloc, text), desk, strategy)
}
