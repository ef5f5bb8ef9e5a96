//! Whether stored totals are the sums of the rows.

ghost use Rattle.std.specs.Prelude.{◌≡◌, ◌≢◌, ◌↔◌, ◌≤◌, length, map, Err, IsTrue, IfOk};
ghost use Rattle.tb_verify.specs.Prelude.{AreFine, AreTotalsOf, entries_of, Machine, six_states, total_of};
ghost use Rattle.tb_verify.specs.Prelude.{total_record};
ghost use Rattle.tb_verify.specs.declared.unfit.Unfit.TheVariants.{NotADesk};
ghost use Rattle.tb_verify.specs.Summary.{six_totals};

use crate::unfit::Unfit;
use tb_core::Totals;
use tb_refine::stored_totals;
use tb_replay::{SentenceSummary, totals_of};
use tb_tables::TotalRow;

fn are_same(a: &[u64], b: &[u64]) -> bool
    ensures { IsTrue result ↔ a.now ≡ b.now }
{
    a == b
}

/// Whether these rows hold these totals.
fn are_sums(rows: &[TotalRow], totals: &Totals) -> bool
    ensures { IsTrue result ↔ map total_of rows.now ≡ six_totals totals.now }
{
    let Some(stored) = stored_totals(rows) else {
        return false;
    };
    are_same(&stored.sentences, &totals.sentences) && are_same(&stored.words, &totals.words)
}

/// The totals of batches and sentences, if these are the rows of the totals.
///
/// # Errors
///
/// `NotADesk`, where they are not.
pub(crate) fn totals_in(
    batches: &[tb_replay::BatchRow<'_>],
    entries: &[SentenceSummary<'_>],
    rows: &[TotalRow],
) -> Result<Totals, Unfit>
    ensures stand { IfOk result (λ t. (f : Machine) → batches.now ≡ f.batches
        → entries.now ≡ entries_of f.sentences → AreTotalsOf t f
        × (map total_of rows.now ≡ map (total_record f) six_states)) }
    ensures unfit { result ≡ Err NotADesk → (f : Machine) → batches.now ≡ f.batches
        → entries.now ≡ entries_of f.sentences → AreFine f → length f.sentences ≤ 1000000
        → map total_of rows.now ≡ map (total_record f) six_states → ⊥ }
    ensures memory { result ≢ Err Unfit.Memory }
{
    let Some(totals) = totals_of(batches, entries) else {
        return Err(Unfit::NotADesk);
    };
    if !are_sums(rows, &totals) {
        return Err(Unfit::NotADesk);
    }
    Ok(totals)
}
