//! The walk over released text: the current revisions of released sentences, in the order of the sentences' numbers.

ghost use Rattle.std.specs.Prelude.{◌≡◌, ◌≢◌, ◌<◌, ◌^◌, length, map, Err, is_ok};
ghost use Rattle.tb_search.specs.Prelude.{head_of, IsReadOnly, sentence_record, Tells, TellsOnErr, TellsOnOk};
ghost use Rattle.tb_search.specs.Released.{released, is_released as is_in_release};
ghost use Rattle.tb_search.specs.Picked.{picks_from};
ghost use Rattle.tb_search.specs.Visited.{AllTaken, Halted, texts};
ghost use Rattle.tb_search.specs.Ending.{IsTextRead, StopsForStore, StopsForWant};

use crate::picks::{Pick, released_of};
use crate::stopped::Stopped;
use crate::visitor::BodyVisitor;
use crate::walk::visit_picked;
use sqlite::{Alter, Connection};
use std::alloc::Global;
use tb_reads::{CurrentRev, ReadError};
use tb_refine::desk_rows_are_readable;

/// The current revisions of released sentences, where `heads` has the batch and the current revision of each sentence.
fn released_among<S: Alter>(
    alloc: Global,
    conn: &mut Connection<S>,
    heads: &[CurrentRev],
) -> Result<Vec<Pick>, Stopped>
    requires { length heads.now < 2 ^ 32 }
    ensures picked { Tells S.Store conn.old conn.new result (λ s v.
        heads.now ≡ map head_of (map sentence_record s.sentences)
        → v.items ≡ picks_from (is_in_release s.batches) 1 s.sentences) }
    ensures never_refuses { result ≢ Err Stopped.Output }
    ensures read { IsTextRead S.Store conn.old conn.new result }
{
    desk_rows_are_readable();
    let batches = tb_reads::batches(alloc, conn)?;
    let pulled = tb_reads::pulled(alloc, conn)?;
    released_of(alloc, batches.as_slice(), pulled.as_slice(), heads)
}

/// The current revisions of released sentences, in the order of the sentences' numbers.
fn released_picks<S: Alter>(alloc: Global, conn: &mut Connection<S>) -> Result<Vec<Pick>, Stopped>
    ensures picked { Tells S.Store conn.old conn.new result (λ s v.
        v.items ≡ picks_from (is_in_release s.batches) 1 s.sentences) }
    ensures never_refuses { result ≢ Err Stopped.Output }
    ensures read { IsTextRead S.Store conn.old conn.new result }
{
    desk_rows_are_readable();
    let heads = tb_reads::heads(alloc, conn)?;
    if heads.len() > u32::MAX as usize {
        return Err(Stopped::Read(ReadError::Form));
    }
    released_among(alloc, conn, heads.as_slice())
}

/// Visits the texts of all released sentences, in the order of their numbers: the current revision of each.
///
/// In memory are one text at a time, and two numbers for each sentence. The desk is unchanged.
pub(crate) fn visit_released<S: Alter, O, V: BodyVisitor<O>>(
    alloc: Global,
    conn: &mut Connection<S>,
    visitor: &mut V,
    filled: &mut O,
) -> Result<(), Stopped>
    ensures taken { TellsOnOk S.Store conn.old conn.new result (λ s. AllTaken V.Takes visitor.old filled.old
        (texts (released s)) visitor.new filled.new) }
    ensures halted { TellsOnErr S.Store conn.old conn.new result (λ s e. Halted V.Takes V.Stops visitor.old filled.old
        (texts (released s)) e filled.new) }
    ensures refused { result ≡ Err Stopped.Output → V.Refused filled.new }
    ensures fails { StopsForStore S.Store conn.old conn.new result }
    ensures cause { StopsForWant S.Store conn.old conn.new result }
    ensures read_only { IsReadOnly S.Store conn.old conn.new (is_ok result) }
{
    desk_rows_are_readable();
    let picks = released_picks(alloc, conn)?;
    visit_picked(conn, picks.as_slice(), visitor, filled)
}
