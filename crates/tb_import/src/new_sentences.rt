//! Finds the sentence of a file whose `sent_id` the desk already has.

ghost use Rattle.std.specs.Prelude.{◌≡◌, List, map, None, Ok, IfOk};
ghost use Rattle.tb_import.specs.Prelude.{BlockText, FindsId, HasCleanDisk, IsDeskOf, Machine, state, taken_of};
ghost use Rattle.tb_import.specs.Planned.{IsKnown};
ghost use Rattle.tb_import.specs.Leaving.{IsLook};

use crate::counters::ImportCounters;
use sqlite::{Alter, Connection};
use tb_core::{Fault, NewSentence};
use tb_refine::is_taken;

/// The number, from 1, of the first sentence whose `sent_id` a sentence of the desk has. It looks at none after it.
fn first_taken<S: Alter>(
    conn: &mut Connection<S>,
    taken: &[NewSentence<'_>],
) -> Result<Option<u64>, Fault>
    ensures answered { HasCleanDisk (state S.Store conn.new)
        → IfOk result (λ found. (s : Machine) (bs : List BlockText) → IsDeskOf S.Store conn.old s
        → taken.now ≡ map taken_of bs → FindsId s bs found) }
    ensures look { IsLook S.Store conn.old conn.new result (λ s so. so) }
{
    let mut number = 0;
    for one in taken {
        number += 1;
        if is_taken(conn, one.sent_id)? {
            return Ok(Some(number));
        }
    }
    Ok(None)
}

/// The number, from 1, of the first sentence whose `sent_id` the desk already has. A desk without sentences has none
/// and is not asked.
pub(crate) fn first_standing<S: Alter>(
    conn: &mut Connection<S>,
    known: &ImportCounters,
    taken: &[NewSentence<'_>],
) -> Result<Option<u64>, Fault>
    ensures answered { HasCleanDisk (state S.Store conn.new)
        → IfOk result (λ found. (s : Machine) (bs : List BlockText) → IsDeskOf S.Store conn.old s
        → IsKnown known.now s → taken.now ≡ map taken_of bs → FindsId s bs found) }
    ensures look { IsLook S.Store conn.old conn.new result (λ s so. so) }
    ensures fresh { known.now.sentences ≡ 0 → result ≡ Ok None }
{
    if known.sentences == 0 {
        return Ok(None);
    }
    first_taken(conn, taken)
}
