//! The last writes of every accepted act: its move, and the totals that the move changes.

ghost use Rattle.std.specs.Prelude.{◌≡◌, ◌≢◌, ◌<◌, ◌^◌, Some, Err, slice_index, IfOk, IfErr};
ghost use Rattle.tb_refine.specs.Prelude.{AnyRefusal, AnyState, AnyTotals, IsApplied, move_of, Takes};
ghost use Rattle.tb_refine.specs.DeskTables.{move_record};
ghost use Rattle.tb_refine.specs.Recorded.{IsTotalOf, IsChangeOf, AreNarrow, IsNarrowMove};
ghost use Rattle.tb_refine.specs.Faults.{IsNoDevice};

use crate::{number_before, number_of_kind, number_of_state};
use tb_core::{Fault, Move, State, Totals};
use tb_tables::{MoveRow, MoveWrite, TotalRow};

/// A number of a desk, as 32 bits. No number of a desk needs more.
///
/// # Errors
///
/// `NotADesk` from 2^32 on.
pub fn narrow(number: u64) -> Result<u32, Fault>
    ensures unchanged { IfOk result (λ n. n ≡ number) }
    ensures never_refuses { (r : AnyRefusal) → result ≢ Err (Fault.Refused r) }
    ensures fails { number < 2 ^ 32 → result ≢ Err Fault.NotADesk }
    ensures cause { IfErr result IsNoDevice }
    ensures fault { IfErr result (λ e. e ≡ Fault.NotADesk) }
{
    if number > u64::from(u32::MAX) {
        return Err(Fault::NotADesk);
    }
    Ok(number as u32)
}

fn total_at(totals: &Totals, place: usize) -> Result<TotalRow, Fault>
    requires { place < 6 }
    ensures row { IfOk result (λ t. (t.sentences ≡ slice_index totals.now.sentences place)
        × (t.words ≡ slice_index totals.now.words place)) }
    ensures never_refuses { (r : AnyRefusal) → result ≢ Err (Fault.Refused r) }
    ensures fails { slice_index totals.now.sentences place < 2 ^ 32 → slice_index totals.now.words place < 2 ^ 32
        → result ≢ Err Fault.NotADesk }
    ensures cause { IfErr result IsNoDevice }
    ensures fault { IfErr result (λ e. e ≡ Fault.NotADesk) }
{
    let sentences = narrow(totals.sentences[place])?;
    let words = narrow(totals.words[place])?;
    Ok(TotalRow { sentences, words })
}

/// The row of the totals of a state.
fn total_row(totals: &Totals, state: State) -> Result<TotalRow, Fault>
    ensures row { IfOk result (λ t. IsTotalOf totals.now state t) }
    ensures never_refuses { (r : AnyRefusal) → result ≢ Err (Fault.Refused r) }
    ensures fails { AreNarrow totals.now → result ≢ Err Fault.NotADesk }
    ensures cause { IfErr result IsNoDevice }
    ensures fault { IfErr result (λ e. e ≡ Fault.NotADesk) }
{
    match state {
        State::Opened => total_at(totals, 0),
        State::Assigned => total_at(totals, 1),
        State::Submitted => total_at(totals, 2),
        State::Adjudicated => total_at(totals, 3),
        State::Released => total_at(totals, 4),
        State::Withdrawn => total_at(totals, 5),
    }
}

/// The row of the totals of the state that a move leaves; zeros where it leaves none.
fn left_row(totals: &Totals, from: Option<State>) -> Result<TotalRow, Fault>
    ensures row { IfOk result (λ t. (st : AnyState) → from ≡ Some st → IsTotalOf totals.now st t) }
    ensures never_refuses { (r : AnyRefusal) → result ≢ Err (Fault.Refused r) }
    ensures fails { AreNarrow totals.now → result ≢ Err Fault.NotADesk }
    ensures cause { IfErr result IsNoDevice }
    ensures fault { IfErr result (λ e. e ≡ Fault.NotADesk) }
{
    match from {
        Some(state) => total_row(totals, state),
        None => Ok(TotalRow {
            sentences: 0,
            words: 0,
        }),
    }
}

/// The row of a move.
fn move_row(moved: Move) -> Result<MoveRow, Fault>
    ensures row { IfOk result (λ row. move_of row ≡ move_record moved) }
    ensures never_refuses { (r : AnyRefusal) → result ≢ Err (Fault.Refused r) }
    ensures fails { IsNarrowMove moved → result ≢ Err Fault.NotADesk }
    ensures cause { IfErr result IsNoDevice }
    ensures fault { IfErr result (λ e. e ≡ Fault.NotADesk) }
{
    let batch = narrow(moved.batch)?;
    let sent = narrow(moved.sent)?;
    let sentences = narrow(moved.sentences)?;
    let words_out = narrow(moved.words_out)?;
    let words_in = narrow(moved.words_in)?;
    Ok(MoveRow {
        kind: number_of_kind(moved.kind),
        batch,
        sent,
        from: number_before(moved.from),
        to: number_of_state(moved.to),
        sentences,
        words_out,
        words_in,
        who: moved.who,
    })
}

/// What a move changes in the tables, where `totals` are those after it.
fn change_of(totals: &Totals, moved: Move) -> Result<MoveWrite, Fault>
    ensures change { IfOk result (λ c. IsChangeOf totals.now moved c) }
    ensures never_refuses { (r : AnyRefusal) → result ≢ Err (Fault.Refused r) }
    ensures fails { AreNarrow totals.now → IsNarrowMove moved → result ≢ Err Fault.NotADesk }
    ensures cause { IfErr result IsNoDevice }
    ensures fault { IfErr result (λ e. e ≡ Fault.NotADesk) }
{
    let number = narrow(moved.no)?;
    let left = left_row(totals, moved.from)?;
    let reached = total_row(totals, moved.to)?;
    let row = move_row(moved)?;
    Ok(MoveWrite {
        number,
        row,
        left,
        reached,
    })
}

/// Makes the move on the totals, and returns what it changes in the tables.
///
/// # Errors
///
/// `NotADesk` where the totals do not take the move, which never happens on a desk. It is never refused.
pub fn record(totals: &mut Totals, moved: Move) -> Result<MoveWrite, Fault>
    ensures applied { IfOk result (λ _. IsApplied totals.old totals.new moved) }
    ensures change { IfOk result (λ c. IsChangeOf totals.new moved c) }
    ensures never_refuses { (r : AnyRefusal) → result ≢ Err (Fault.Refused r) }
    ensures fails { Takes totals.old moved → ((after : AnyTotals) → IsApplied totals.old after moved
        → AreNarrow after) → IsNarrowMove moved → result ≢ Err Fault.NotADesk }
    ensures cause { IfErr result IsNoDevice }
    ensures fault { IfErr result (λ e. e ≡ Fault.NotADesk) }
{
    if !totals.takes(&moved) {
        return Err(Fault::NotADesk);
    }
    totals.apply(&moved);
    change_of(totals, moved)
}
