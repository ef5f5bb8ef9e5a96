//! Counts the words of first revisions.

ghost use Rattle.std.specs.Prelude.{◌≡◌, ◌≢◌, ◌<◌, ◌^◌, List, sum_by, Ok, Err, IfOk};
ghost use Rattle.tb_import.specs.Prelude.{AllByRecursion, BlockText, HasCleanDisk, IsDeskOf, Machine, state, words_of};
ghost use Rattle.tb_import.specs.Firsts.{IsFirst, IsWorkOf, IsAtFirst, AreFirsts};
ghost use Rattle.tb_import.specs.Leaving.{IsLook};

use crate::firsts::read_first;
use crate::words::{more_words, words_of_text};
use sqlite::{Alter, Connection};
use std::alloc::Global;
use tb_conllu::one_list_has_a_text;
use tb_core::{Fault, reached_states_are_well, revisions_read_back};
use tb_reads::BatchSentence;

/// The words of the first revision of the sentence with this number, which exists. Reads the text.
fn read_words<S: Alter>(alloc: Global, conn: &mut Connection<S>, number: u32) -> Result<u64, Fault>
    ensures answered { HasCleanDisk (state S.Store conn.new) → IfOk result (λ n. (s : Machine) (b : BlockText)
        → IsDeskOf S.Store conn.old s → IsFirst s number b → n ≡ words_of b) }
    ensures look { IsLook S.Store conn.old conn.new result (λ s so. (b : BlockText) → IsFirst s number b → so) }
{
    revisions_read_back();
    one_list_has_a_text();
    reached_states_are_well();
    let row = read_first(conn, number)?;
    words_of_text(alloc, row.body.as_bytes())
}

/// The words of the first revision of this sentence, which exists. Reads the text only where a later revision is
/// current.
fn first_words<S: Alter>(
    alloc: Global,
    conn: &mut Connection<S>,
    one: &BatchSentence,
) -> Result<u64, Fault>
    ensures answered { HasCleanDisk (state S.Store conn.new) → IfOk result (λ n. (s : Machine) (b : BlockText)
        → IsDeskOf S.Store conn.old s → IsWorkOf s one.now b → n ≡ words_of b) }
    ensures look { IsLook S.Store conn.old conn.new result (λ s so. (b : BlockText) → IsWorkOf s one.now b → so) }
    ensures current { IsAtFirst one.now → result ≡ Ok one.now.words }
{
    if one.rev == 1 {
        return Ok(u64::from(one.words));
    }
    read_words(alloc, conn, one.number)
}

/// The words of the first revisions of these sentences, which exist. It takes memory only for a text that it reads.
pub(crate) fn words_again<S: Alter>(
    alloc: Global,
    conn: &mut Connection<S>,
    work: &[BatchSentence],
) -> Result<u64, Fault>
    ensures answered { HasCleanDisk (state S.Store conn.new) → IfOk result (λ n. (s : Machine) (bs : List BlockText)
        → IsDeskOf S.Store conn.old s → AreFirsts s work.now bs → n ≡ sum_by words_of bs) }
    ensures look { IsLook S.Store conn.old conn.new result (λ s so. (bs : List BlockText)
        → AreFirsts s work.now bs → sum_by words_of bs < 2 ^ 64 → so) }
    ensures current { AllByRecursion IsAtFirst work.now → result ≢ Err Fault.Memory }
{
    let mut total = 0u64;
    for one in work {
        let words = first_words(alloc, conn, one)?;
        let more = more_words(total, words)?;
        total = more;
    }
    Ok(total)
}
