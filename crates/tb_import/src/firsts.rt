//! Compares a text with the first revisions of sentences.

ghost use Rattle.std.specs.Prelude.{◌≡◌, ◌≢◌, ◌++◌, ◌∷◌, [], ℕ, List, IfOk, MatchOption, string_bytes};
ghost use Rattle.tb_import.specs.Prelude.{BlockText, HasCleanDisk, IsDeskOf, Machine, state, text_of};
ghost use Rattle.tb_import.specs.Firsts.{IsFirst, AreFirsts, DecidesSame};
ghost use Rattle.tb_import.specs.Leaving.{IsLook};

use sqlite::{Alter, Connection};
use tb_core::Fault;
use tb_reads::BatchSentence;
use tb_refine::{desk_rows_are_readable, faults, records_determine_the_state};
use tb_tables::RevisionRow;

/// The first revision of the sentence with this number, which exists.
pub(crate) fn read_first<S: Alter>(
    conn: &mut Connection<S>,
    number: u32,
) -> Result<RevisionRow, Fault>
    ensures answered { HasCleanDisk (state S.Store conn.new) → IfOk result (λ row. (s : Machine) (b : BlockText)
        → IsDeskOf S.Store conn.old s → IsFirst s number b → string_bytes row.body ≡ text_of (b ∷ [])) }
    ensures look { IsLook S.Store conn.old conn.new result (λ s so. (b : BlockText) → IsFirst s number b → so) }
{
    records_determine_the_state();
    desk_rows_are_readable();
    faults::reported_row(tb_reads::revision(conn, number, 1))
}

/// The rest of a text after the first revision of the sentence with this number, which exists; none where the text does
/// not begin with it.
fn after_first<'a, S: Alter>(
    conn: &mut Connection<S>,
    number: u32,
    text: &'a [u8],
) -> Result<Option<&'a [u8]>, Fault>
    ensures answered { HasCleanDisk (state S.Store conn.new) → IfOk result (λ found. (s : Machine) (b : BlockText)
        → IsDeskOf S.Store conn.old s → IsFirst s number b
        → MatchOption found ((more : List ℕ) → text.now ≢ text_of (b ∷ []) ++ more) (λ more.
        text.now ≡ text_of (b ∷ []) ++ more.now)) }
    ensures look { IsLook S.Store conn.old conn.new result (λ s so. (b : BlockText) → IsFirst s number b → so) }
{
    let row = read_first(conn, number)?;
    Ok(text.strip_prefix(row.body.as_bytes()))
}

/// Whether a text is that of the first revisions of these sentences, which exist.
///
/// Each revision is compared with its place in the text. No sentence is read after the first that differs.
pub(crate) fn are_firsts<S: Alter>(
    conn: &mut Connection<S>,
    work: &[BatchSentence],
    text: &[u8],
) -> Result<bool, Fault>
    ensures answered { HasCleanDisk (state S.Store conn.new)
        → IfOk result (λ same. (s : Machine) (bs : List BlockText) → IsDeskOf S.Store conn.old s
        → AreFirsts s work.now bs → DecidesSame same text.now bs) }
    ensures look { IsLook S.Store conn.old conn.new result (λ s so. (bs : List BlockText)
        → AreFirsts s work.now bs → so) }
{
    let mut rest = text;
    for one in work {
        let Some(more) = after_first(conn, one.number, rest)? else {
            return Ok(false);
        };
        rest = more;
    }
    Ok(rest.is_empty())
}
