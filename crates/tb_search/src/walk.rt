//! The walk over the bodies of all revisions, which visits some of them.

ghost use Rattle.std.specs.Prelude.{◌≡◌, ◌≤◌, List, map, All, IfOk, IfErr, OnOk, MatchBool, true, is_ok, None, Err};
ghost use Rattle.tb_search.specs.Prelude.{ComesBefore, desk_schema, HasCleanDisk, IsAscending, IsReadOnly, IsRevision};
ghost use Rattle.tb_search.specs.Prelude.{Revision, revision_shown, revision_view, Shows, state};
ghost use Rattle.tb_search.specs.Picked.{asks, picked, bodies as bodies_of};
ghost use Rattle.tb_search.specs.Visited.{AllTaken, Halted, IsStopFault, IsStopWant};
ghost use Rattle.tb_search.specs.Ending.{WalksUntilWant};

use crate::picks::Pick;
use crate::stopped::Stopped;
use crate::visitor::BodyVisitor;
use sqlite::{Alter, Connection, Error, ErrorCode};
use tb_reads::{ReadError, bodies, next_body};

fn is_asked(pick: &Pick, sent: u32, rev: u32) -> bool
    ensures { result ≡ asks pick.now sent rev }
{
    pick.sent == sent && pick.rev == rev
}

/// Visits a body if its revision is the one to visit. Returns how many bodies it visited, 0 or 1.
fn visit_asked<O, V: BodyVisitor<O>>(
    pick: &Pick,
    sent: u32,
    rev: u32,
    body: &[u8],
    visitor: &mut V,
    filled: &mut O,
) -> Result<usize, Stopped>
    ensures taken { IfOk result (λ n. MatchBool (asks pick.now sent rev) ((n ≡ 1)
        × V.Takes visitor.old filled.old body.now visitor.new filled.new) ((n ≡ 0) × (visitor.new ≡ visitor.old)
        × (filled.new ≡ filled.old))) }
    ensures few { IfOk result (λ n. n ≤ 1) }
    ensures stopped { IfErr result (λ e. (asks pick.now sent rev ≡ true)
        × V.Stops visitor.old filled.old body.now e filled.new) }
    ensures refused { result ≡ Err Stopped.Output → V.Refused filled.new }
    ensures fails { IfErr result IsStopFault }
    ensures cause { IfErr result IsStopWant }
{
    if !is_asked(pick, sent, rev) {
        return Ok(0);
    }
    visitor.visit(body, filled)?;
    Ok(1)
}

/// Visits the bodies of these revisions, in the order of sentences and revisions. One body is in memory at a time.
pub(crate) fn visit_picked<S: Alter, O, V: BodyVisitor<O>>(
    conn: &mut Connection<S>,
    picks: &[Pick],
    visitor: &mut V,
    filled: &mut O,
) -> Result<(), Stopped>
    ensures taken { HasCleanDisk (state S.Store conn.new)
        → OnOk result ((state S.Store conn.old).now.schema ≡ desk_schema → (xs : List Revision)
        → All IsRevision xs → IsAscending ComesBefore xs
        → Shows revision_view (map revision_shown xs) ((state S.Store conn.old).now.trees 5)
        → AllTaken V.Takes visitor.old filled.old (bodies_of (picked picks.now xs)) visitor.new filled.new) }
    ensures halted { HasCleanDisk (state S.Store conn.new) → IfErr result (λ e. (state S.Store conn.old).now.schema
        ≡ desk_schema → (xs : List Revision) → All IsRevision xs → IsAscending ComesBefore xs
        → Shows revision_view (map revision_shown xs) ((state S.Store conn.old).now.trees 5)
        → Halted V.Takes V.Stops visitor.old filled.old (bodies_of (picked picks.now xs)) e filled.new) }
    ensures refused { result ≡ Err Stopped.Output → V.Refused filled.new }
    ensures fails { HasCleanDisk (state S.Store conn.new) → (state S.Store conn.old).step_limit ≡ None
        → IfErr result (λ e. (state S.Store conn.old).now.schema ≡ desk_schema → (xs : List Revision)
        → All IsRevision xs → IsAscending ComesBefore xs
        → Shows revision_view (map revision_shown xs) ((state S.Store conn.old).now.trees 5) → IsStopFault e) }
    ensures cause { WalksUntilWant S.Store conn.old conn.new result }
    ensures read_only { IsReadOnly S.Store conn.old conn.new (is_ok result) }
{
    let mut rows = bodies(conn)?;
    let mut next = 0;
    'rows: for _ in 0..u64::MAX {
        if next >= picks.len() {
            return Ok(());
        }
        let Some(body) = next_body(&mut rows)? else {
            return Ok(());
        };
        next += visit_asked(
            &picks[next],
            body.sent,
            body.rev,
            body.body,
            visitor,
            filled,
        )?;
    }
    Err(Stopped::Read(ReadError::Store(Error::SqliteFailure(ErrorCode::OutOfMemory))))
}
