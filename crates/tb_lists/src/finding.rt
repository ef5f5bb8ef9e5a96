//! Finds a sentence by its `sent_id`. Contracts state what is found as facts of the state that the tables represent. No
//! read changes that state, also after an error.

ghost use Rattle.std.specs.Prelude.{◌≡◌, ◌-◌, ◌<◌, Err, Some, slice_get};
ghost use Rattle.tb_lists.specs.Prelude.{IsRead, IsReadWhere, Sentence, Tells};
ghost use Rattle.tb_lists.specs.Found.{Finds, found_line};

use crate::found::{FoundLine, line_of};
use sqlite::{Alter, Connection};
use tb_core::{Fault, reached_states_are_well};
use tb_refine::{batch_row, is_pulled, sentence_number, sentence_row};

/// The sentence with this number, from 1, which exists, with the name of its batch.
fn line_at<S: Alter>(conn: &mut Connection<S>, number: u32) -> Result<FoundLine, Fault>
    ensures answered { Tells S.Store conn.old conn.new result (λ s line. (x : Sentence)
        → slice_get s.sentences (number - 1) ≡ Some x → line ≡ found_line s number x) }
    ensures read { IsReadWhere S.Store conn.old conn.new result (λ s so. 0 < number → (x : Sentence)
        → slice_get s.sentences (number - 1) ≡ Some x → so) }
{
    reached_states_are_well();
    if number == 0 {
        return Err(Fault::NotADesk);
    }
    let row = sentence_row(conn, number)?;
    let batch = batch_row(conn, row.batch)?;
    let pulled = is_pulled(conn, number)?;
    Ok(line_of(number, &row, batch, pulled))
}

/// The sentence with this `sent_id`, pulled or not, with the name of its batch; none where no sentence has it. Nothing is
/// refused, and no text of a revision is read.
///
/// # Errors
///
/// `NotADesk`, with no limit on steps only where the store is no desk; want of memory; or a fault of the device.
pub fn find_sentence<S: Alter>(
    conn: &mut Connection<S>,
    sent_id: &str,
) -> Result<Option<FoundLine>, Fault>
    ensures answered { Tells S.Store conn.old conn.new result (λ s found. Finds s sent_id.now found) }
    ensures read { IsRead S.Store conn.old conn.new result }
{
    let Some(number) = sentence_number(conn, sent_id)? else {
        return Ok(None);
    };
    let line = line_at(conn, number)?;
    Ok(Some(line))
}
