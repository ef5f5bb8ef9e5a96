//! Writes the texts of the sentences of a batch to a sink, one sentence at a time.

ghost use Rattle.std.specs.Prelude.{◌≡◌, ◌≢◌, ℕ, Some, Err, false, is_ok};
ghost use Rattle.tb_store.specs.Prelude.{AnyRefusal, Appends, current_text, HasNumber, HasReason, in_batch, is_name};
ghost use Rattle.tb_store.specs.Prelude.{IsReadOnly, KnowsDesk, TellsOnErr, TellsOnOk};
ghost use Rattle.tb_store.specs.Exports.{IsExportBrokenOff, IsPartOfBatch, RefusesBatch};
ghost use Rattle.tb_store.specs.Blaming.{FailsWithoutDevice};

use crate::asking::known_batch;
use crate::stopping::reported_walk;
use sqlite::{Alter, Connection};
use std::alloc::Global;
use tb_conllu::Sink;
use tb_core::{Fault, Refusal, good_name};
use tb_refine::batch_number;
use tb_search::export_numbered;

/// Writes the text of all sentences of the batch with this number, pulled ones too, in the order of their numbers.
fn numbered<S: Alter, W: Sink>(
    alloc: Global,
    conn: &mut Connection<S>,
    number: u32,
    out: &mut W,
) -> Result<(), Fault>
    ensures put { TellsOnOk S.Store conn.old conn.new result (λ s. Appends (W.held out.old) (W.held out.new)
        (current_text (in_batch s number))) }
    ensures part { TellsOnErr S.Store conn.old conn.new result (λ s e. IsExportBrokenOff e (W.held out.old)
        (W.held out.new) (in_batch s number)) }
    ensures never_refuses { (r : AnyRefusal) → result ≢ Err (Fault.Refused r) }
    ensures output { result ≡ Err Fault.Output → HasReason (W.IsRefusal out.new) }
    ensures fails { KnowsDesk S.Store conn.old conn.new result }
    ensures cause { FailsWithoutDevice S.Store conn.old conn.new result }
    ensures read_only { IsReadOnly S.Store conn.old conn.new (is_ok result) }
{
    reported_walk(export_numbered(alloc, conn, number, out))
}

/// Writes the text of all sentences of the batch with this name, pulled ones too, in the order of their numbers.
///
/// # Errors
///
/// The first of `BadName`, `NoSuchBatch`.
pub(crate) fn batch<S: Alter, W: Sink>(
    alloc: Global,
    conn: &mut Connection<S>,
    name: &str,
    out: &mut W,
) -> Result<(), Fault>
    ensures put { TellsOnOk S.Store conn.old conn.new result (λ s. (n : ℕ) × HasNumber s name.now (Some n)
        × Appends (W.held out.old) (W.held out.new) (current_text (in_batch s n))) }
    ensures part { TellsOnErr S.Store conn.old conn.new result (λ s e. IsPartOfBatch s name.now e (W.held out.old)
        (W.held out.new)) }
    ensures bad_name { is_name name.now ≡ false → result ≡ Err (Fault.Refused Refusal.BadName) }
    ensures unasked { is_name name.now ≡ false → conn.new ≡ conn.old }
    ensures refused { TellsOnErr S.Store conn.old conn.new result (λ s e. RefusesBatch s name.now e) }
    ensures output { result ≡ Err Fault.Output → HasReason (W.IsRefusal out.new) }
    ensures fails { KnowsDesk S.Store conn.old conn.new result }
    ensures cause { FailsWithoutDevice S.Store conn.old conn.new result }
    ensures none { (r : AnyRefusal) → result ≡ Err (Fault.Refused r) → W.held out.new ≡ W.held out.old }
    ensures read_only { IsReadOnly S.Store conn.old conn.new (is_ok result) }
{
    if !good_name(name) {
        return Err(Fault::Refused(Refusal::BadName));
    }
    let found = batch_number(conn, name)?;
    let number = known_batch(found)?;
    numbered(alloc, conn, number, out)
}
