//! Whether the rows of all tables are those of a state that accepted commands reach. This module uses no database.

ghost use Rattle.std.specs.Prelude.{◌≡◌, ◌≢◌, ◌≤◌, ◌<◌, [], All, length, map, Err, Decides, IfErr, IfOk, IsOk};
ghost use Rattle.std.specs.Prelude.{Ok, false, string_bytes};
ghost use Rattle.tb_verify.specs.Prelude.{AnyRefusal, AreTotalsOf, batch_of, IsNoDevice, IsReachable, Machine};
ghost use Rattle.tb_verify.specs.Prelude.{is_name, list_all, sentence_of, six_states, tables_of, total_of};
ghost use Rattle.tb_verify.specs.Prelude.{total_record};
ghost use Rattle.tb_verify.specs.Apart.{AreNamed, AreTitled};
ghost use Rattle.tb_core.specs.declared.kinds.Kind.TheVariants.{Import};
ghost use Rattle.tb_verify.specs.declared.unfit.Unfit.TheVariants.{NotADesk};
ghost use Rattle.tb_verify.specs.Summary.{IsShownBy, IsSummaryOf, tables_in};
ghost use Rattle.tb_verify.specs.Called.{HasFewCounts};

use crate::apart::{are_batches_apart, are_sentences_apart};
use crate::entries::entries_in;
use crate::faults::fitting;
use crate::laws::{rows_tell_names_apart, rows_tell_sentences};
use crate::machine::{batches_in, moves_in};
use crate::totals::totals_in;
use crate::unfit::{Unfit, fit};
use std::alloc::{AllocError, Global};
use tb_core::{Fault, Move, Totals};
use tb_replay::{SentenceSummary, reached_states_are_fine, replays};
use tb_tables::{BatchRow, MoveRow, RevisionRow, SentenceRow, TotalRow};

/// The rows of a file's tables, in the order of their keys. All are in memory at once, with the texts of all
/// revisions.
#[derive(Debug, Drop)]
pub(crate) struct TableRows {
    pub batches: Vec<BatchRow>,
    pub sentences: Vec<SentenceRow>,
    pub revisions: Vec<RevisionRow>,
    pub moves: Vec<MoveRow>,
    pub totals: Vec<TotalRow>,
    /// The numbers of pulled sentences.
    pub pulled: Vec<u32>,
}

/// The counts and totals of the state that a desk's tables represent: how many batches, sentences and moves there are,
/// and the totals.
#[derive(Clone, Copy, Debug, PartialEq, Eq)]
pub struct DeskSummary {
    pub batches: u32,
    pub sentences: u32,
    pub moves: u32,
    pub totals: Totals,
}

/// Whether batches have good names, and no two batches and no two sentences have the same name.
fn are_apart(
    alloc: Global,
    batches: &[BatchRow],
    sentences: &[SentenceRow],
) -> Result<bool, AllocError>
    ensures apart { IfOk result (λ apart. Decides apart (AreNamed (map batch_of batches.now)
        × AreTitled (map sentence_of sentences.now))) }
    ensures bad { list_all (λ r. is_name (string_bytes r.name)) batches.now ≡ false → result ≡ Ok false }
    ensures sure { batches.now ≡ [] → sentences.now ≡ [] → IsOk result }
{
    if !are_batches_apart(alloc, batches)? {
        return Ok(false);
    }
    are_sentences_apart(alloc, sentences)
}

/// The totals of the state that has these rows, if accepted commands reach it.
fn reached_totals(
    alloc: Global,
    batches: &[tb_replay::BatchRow<'_>],
    entries: &[SentenceSummary<'_>],
    moves: &[Move],
    totals: &[TotalRow],
) -> Result<Totals, Unfit>
    ensures reached { IfOk result (λ t. (f : Machine) → IsShownBy batches.now entries.now moves.now f
        → IsReachable f × AreTotalsOf t f × (map total_of totals.now ≡ map (total_record f) six_states)) }
    ensures unfit { result ≡ Err NotADesk → (f : Machine) → IsShownBy batches.now entries.now moves.now f
        → IsReachable f → map total_of totals.now ≡ map (total_record f) six_states → ⊥ }
    ensures sure { All (λ m. m.kind ≢ Import) moves.now → result ≢ Err Unfit.Memory }
    ensures full { 1000000 < length entries.now → result ≢ Err Unfit.Memory }
{
    fit(replays(alloc, batches, entries, moves)?)?;
    totals_in(batches, entries, totals)
}

/// The counts, if a state within the largest limits can have as many.
fn counted(
    batches: usize,
    sentences: usize,
    moves: usize,
    totals: Totals,
) -> Result<DeskSummary, Unfit>
    ensures batches { IfOk result (λ x. (x.batches ≡ batches) × (batches ≤ moves)) }
    ensures sentences { IfOk result (λ x. (x.sentences ≡ sentences) × (sentences ≤ 1000000)) }
    ensures moves { IfOk result (λ x. (x.moves ≡ moves) × (moves ≤ 1000000000)) }
    ensures totals { IfOk result (λ x. x.totals ≡ totals) }
    ensures unfit { result ≡ Err NotADesk → batches ≤ moves → sentences ≤ 1000000
        → moves ≤ 1000000000 → ⊥ }
    ensures memory { result ≢ Err Unfit.Memory }
{
    if batches > moves || sentences > 1_000_000 || moves > 1_000_000_000 {
        return Err(Unfit::NotADesk);
    }
    Ok(DeskSummary {
        batches: batches as u32,
        sentences: sentences as u32,
        moves: moves as u32,
        totals,
    })
}

/// The counts and totals of the state that has these rows, which accepted commands reach within the largest limits.
///
/// # Errors
///
/// `NotADesk`, where no such state has these rows; or want of memory.
fn summary_of_rows(alloc: Global, rows: &TableRows) -> Result<DeskSummary, Unfit>
    ensures summary { IfOk result (λ x. (s : Machine) × IsReachable s × (tables_in rows.now ≡ tables_of s)
        × IsSummaryOf x s) }
    ensures counts { IfOk result HasFewCounts }
    ensures unfit { result ≡ Err NotADesk → (s : Machine) → IsReachable s
        → tables_in rows.now ≡ tables_of s → ⊥ }
    ensures bad { list_all (λ r. is_name (string_bytes r.name)) rows.now.batches.items ≡ false
        → result ≡ Err NotADesk }
    ensures empty { rows.now.batches.items ≡ [] → rows.now.sentences.items ≡ [] → rows.now.moves.items ≡ []
        → result ≢ Err Unfit.Memory }
{
    reached_states_are_fine();
    rows_tell_names_apart();
    rows_tell_sentences();
    let names = rows.batches.as_slice();
    let sentences = rows.sentences.as_slice();
    fit(are_apart(alloc, names, sentences)?)?;
    let batches = batches_in(alloc, names)?;
    let revisions = rows.revisions.as_slice();
    let entries = entries_in(alloc, sentences, rows.pulled.as_slice(), revisions)?;
    let moves = moves_in(alloc, rows.moves.as_slice())?;
    let totals = reached_totals(alloc, &batches, &entries, &moves, rows.totals.as_slice())?;
    counted(batches.len(), entries.len(), moves.len(), totals)
}

/// The same, with the fault of a desk where no such state has these rows.
///
/// # Errors
///
/// `NotADesk`, where no such state has these rows; or want of memory.
pub(crate) fn summary_of_desk(alloc: Global, rows: &TableRows) -> Result<DeskSummary, Fault>
    ensures summary { IfOk result (λ x. (s : Machine) × IsReachable s × (tables_in rows.now ≡ tables_of s)
        × IsSummaryOf x s) }
    ensures counts { IfOk result HasFewCounts }
    ensures unfit { result ≡ Err Fault.NotADesk → (s : Machine) → IsReachable s
        → tables_in rows.now ≡ tables_of s → ⊥ }
    ensures bad { list_all (λ r. is_name (string_bytes r.name)) rows.now.batches.items ≡ false
        → result ≡ Err Fault.NotADesk }
    ensures empty { rows.now.batches.items ≡ [] → rows.now.sentences.items ≡ [] → rows.now.moves.items ≡ []
        → result ≢ Err Fault.Memory }
    ensures never_refuses { (r : AnyRefusal) → result ≢ Err (Fault.Refused r) }
    ensures output { result ≢ Err Fault.Output }
    ensures cause { IfErr result IsNoDevice }
{
    fitting(summary_of_rows(alloc, rows))
}
