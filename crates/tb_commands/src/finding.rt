//! What a command reads of a desk before it is judged.

ghost use Rattle.std.specs.Prelude.{◌≡◌, ◌≢◌, ◌-◌, ◌<◌, Some, None, Err, slice_get, option_map, string_bytes, IfOk};
ghost use Rattle.std.specs.Prelude.{IfErr};
ghost use Rattle.tb_commands.specs.Prelude.{AnyState, Batch, FindsBatch, IsRead, IsReadWhere, Sentence, state_number};
ghost use Rattle.tb_commands.specs.Prelude.{Tells};
ghost use Rattle.tb_commands.specs.ReadOf.{IsSentenceRead};

use sqlite::{Alter, Connection};
use tb_core::{Fault, State, reached_states_are_well};
use tb_refine::{batch_number, batch_row, is_pulled, sentence_row, state_numbered};
use tb_tables::BatchRow;

/// A batch, as read from the tables.
#[derive(Debug, Drop)]
pub struct BatchRead {
    /// Its number, from 1.
    pub number: u32,
    pub state: State,
    /// The user who works on it; empty where nobody does.
    pub worker: String,
}

/// The batch of a row.
fn read_batch(row: BatchRow, number: u32) -> Result<BatchRead, Fault>
    ensures batch { IfOk result (λ f. (st : AnyState) → row.state ≡ state_number st → (f.number ≡ number)
        × (f.state ≡ st) × (f.worker ≡ row.worker)) }
    ensures fails { (st : AnyState) → row.state ≡ state_number st → result ≢ Err Fault.NotADesk }
    ensures fault { IfErr result (λ e. e ≡ Fault.NotADesk) }
{
    let Some(state) = state_numbered(row.state) else {
        return Err(Fault::NotADesk);
    };
    Ok(BatchRead {
        number,
        state,
        worker: row.worker,
    })
}

/// The batch with this number, from 1, which exists.
fn batch<S: Alter>(conn: &mut Connection<S>, number: u32) -> Result<BatchRead, Fault>
    ensures answered { Tells S.Store conn.old conn.new result (λ s f. (b : Batch) → slice_get s.batches (number - 1)
        ≡ Some b → (f.number ≡ number) × (f.state ≡ b.state) × (string_bytes f.worker ≡ b.worker)) }
    ensures read { IsReadWhere S.Store conn.old conn.new result (λ s so. 0 < number → (b : Batch)
        → slice_get s.batches (number - 1) ≡ Some b → so) }
{
    let row = batch_row(conn, number)?;
    read_batch(row, number)
}

/// The batch with this name, or `None` where no batch has it. Nothing is refused.
///
/// # Errors
///
/// `NotADesk`, with no limit on steps only where the store is no desk; want of memory; or a fault of the device.
pub fn find_batch<S: Alter>(
    conn: &mut Connection<S>,
    name: &str,
) -> Result<Option<BatchRead>, Fault>
    ensures answered { Tells S.Store conn.old conn.new result (λ s found. FindsBatch s name.now (option_map (λ f.
        record { number = f.number; state = f.state; worker = string_bytes f.worker }) found)) }
    ensures read { IsRead S.Store conn.old conn.new result }
{
    let Some(number) = batch_number(conn, name)? else {
        return Ok(None);
    };
    let found = batch(conn, number)?;
    Ok(Some(found))
}

/// A sentence, as read from the tables.
#[derive(Debug, Drop)]
pub struct SentenceRead {
    /// The number of its batch, from 1.
    pub batch: u32,
    /// The state of that batch.
    pub state: State,
    /// The user who works on that batch; empty where nobody does.
    pub worker: String,
    pub pulled: bool,
    /// The number of its current revision, and the words of that revision.
    pub rev: u32,
    pub words: u32,
}

/// The sentence with this number, from 1, which exists, with the state and the worker of its batch. Nothing is
/// refused.
///
/// # Errors
///
/// `NotADesk`, with no limit on steps only where the store is no desk; want of memory; or a fault of the device.
pub fn find_sentence<S: Alter>(conn: &mut Connection<S>, number: u32) -> Result<SentenceRead, Fault>
    requires { 0 < number }
    ensures answered { Tells S.Store conn.old conn.new result (λ s f. (x : Sentence)
        → slice_get s.sentences (number - 1) ≡ Some x → IsSentenceRead s x f) }
    ensures read { IsReadWhere S.Store conn.old conn.new result (λ s so. (x : Sentence)
        → slice_get s.sentences (number - 1) ≡ Some x → so) }
{
    reached_states_are_well();
    let row = sentence_row(conn, number)?;
    let of = batch(conn, row.batch)?;
    let pulled = is_pulled(conn, number)?;
    Ok(SentenceRead {
        batch: row.batch,
        state: of.state,
        worker: of.worker,
        pulled,
        rev: row.rev,
        words: row.words,
    })
}
