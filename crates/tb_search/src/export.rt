//! Exports the text of released sentences, and that of a batch.

ghost use Rattle.std.specs.Prelude.{◌≡◌, ◌≢◌, nat_eq, Err};
ghost use Rattle.tb_search.specs.Prelude.{Appends, Tells, TellsOnErr, TellsOnOk};
ghost use Rattle.tb_search.specs.Released.{released, in_batch, current_text, IsCutShort};
ghost use Rattle.tb_search.specs.Visited.{HasReason};
ghost use Rattle.tb_search.specs.Picked.{picks_from};
ghost use Rattle.tb_search.specs.Ending.{IsTextRead};

use crate::copy_text::CopyText;
use crate::picks::{Pick, picks_of};
use crate::released::visit_released;
use crate::stopped::Stopped;
use crate::walk::visit_picked;
use sqlite::{Alter, Connection};
use std::alloc::Global;
use tb_conllu::Sink;
use tb_refine::desk_rows_are_readable;

/// The current revisions of the sentences of a batch, in the order of the sentences' numbers.
fn batch_picks<S: Alter>(
    alloc: Global,
    conn: &mut Connection<S>,
    batch: u32,
) -> Result<Vec<Pick>, Stopped>
    ensures picked { Tells S.Store conn.old conn.new result (λ s v. v.items ≡ picks_from (λ x.
        nat_eq x.batch batch) 1 s.sentences) }
    ensures never_refuses { result ≢ Err Stopped.Output }
    ensures read { IsTextRead S.Store conn.old conn.new result }
{
    desk_rows_are_readable();
    let work = tb_reads::sentences_of(alloc, conn, batch)?;
    picks_of(alloc, work.as_slice())
}

/// Writes the text of all released sentences, in the order of their numbers: the current revision of each, as it is
/// stored.
///
/// In memory are the text of one sentence at a time, and two numbers for each sentence. The desk is unchanged.
///
/// # Errors
///
/// `Output`, where the sink refuses a piece; it may hold a first part of the text. After any other error it holds whole
/// sentences.
pub fn export_released<S: Alter, W: Sink>(
    alloc: Global,
    conn: &mut Connection<S>,
    out: &mut W,
) -> Result<(), Stopped>
    ensures put { TellsOnOk S.Store conn.old conn.new result (λ s. Appends (W.held out.old) (W.held out.new)
        (current_text (released s))) }
    ensures part { TellsOnErr S.Store conn.old conn.new result (λ s e. IsCutShort e (W.held out.old) (W.held out.new)
        (released s)) }
    ensures refused { result ≡ Err Stopped.Output → HasReason (W.IsRefusal out.new) }
    ensures read { IsTextRead S.Store conn.old conn.new result }
{
    visit_released(alloc, conn, &mut CopyText, out)
}

/// Writes the text of all sentences of the batch with this number, pulled ones too, in the same way.
///
/// # Errors
///
/// Those of `export_released`.
pub fn export_numbered<S: Alter, W: Sink>(
    alloc: Global,
    conn: &mut Connection<S>,
    batch: u32,
    out: &mut W,
) -> Result<(), Stopped>
    ensures put { TellsOnOk S.Store conn.old conn.new result (λ s. Appends (W.held out.old) (W.held out.new)
        (current_text (in_batch s batch))) }
    ensures part { TellsOnErr S.Store conn.old conn.new result (λ s e. IsCutShort e (W.held out.old) (W.held out.new)
        (in_batch s batch)) }
    ensures refused { result ≡ Err Stopped.Output → HasReason (W.IsRefusal out.new) }
    ensures read { IsTextRead S.Store conn.old conn.new result }
{
    desk_rows_are_readable();
    let picks = batch_picks(alloc, conn, batch)?;
    visit_picked(conn, picks.as_slice(), &mut CopyText, out)
}
