//! A sentence, read back from its rows.

ghost use Rattle.std.specs.Prelude.{◌≡◌, [], length, IfOk, Err, map};
ghost use Rattle.tb_verify.specs.Prelude.{entry_of, revision_of, Sentence, sentence_of};
ghost use Rattle.tb_verify.specs.Course.{IsReadBack, rows_reported};
ghost use Rattle.tb_verify.specs.declared.unfit.Unfit.TheVariants.{NotADesk};

use crate::body::sentences_in;
use crate::course::is_course_right;
use crate::unfit::{Unfit, fit};
use std::alloc::{AllocError, Global};
use tb_conllu::{BlockRef, one_list_has_a_text, words};
use tb_replay::{Revision, SentenceSummary};
use tb_rules::SentenceChecker;
use tb_tables::{RevisionRow, SentenceRow};

/// The user and the words of each revision.
fn reported_revisions<'a>(
    alloc: Global,
    rows: &'a [RevisionRow],
    blocks: &[BlockRef<'a>],
) -> Result<Vec<Revision<'a>>, AllocError>
    requires { length blocks.now ≡ length rows.now }
    ensures { IfOk result (λ v. v.items ≡ rows_reported (map revision_of rows.now) blocks.now) }
{
    // Most sentences have one revision, and a list that grows by itself would begin with room for more.
    let mut revisions: Vec<Revision<'a>> = Vec::with_capacity(alloc, rows.len())?;
    for i in 0..rows.len() {
        revisions.push(Revision {
            who: rows[i].who.as_str(),
            words: words(&blocks[i]) as u64,
        })?;
    }
    Ok(revisions)
}

/// The sentence with this number, read back from its row and its revisions, as by [`entry_in`]. The checker may have
/// checked other sentences.
pub(crate) fn entry_by<'a>(
    alloc: Global,
    checker: &mut SentenceChecker,
    number: u64,
    row: &SentenceRow,
    pulled: bool,
    revisions: &'a [RevisionRow],
) -> Result<SentenceSummary<'a>, Unfit>
    ensures fine { IfOk result (λ e. (x : Sentence)
        × IsReadBack number (sentence_of row.now) pulled (map revision_of revisions.now) x × (e ≡ entry_of x)) }
    ensures unfit { result ≡ Err NotADesk → (x : Sentence)
        → IsReadBack number (sentence_of row.now) pulled (map revision_of revisions.now) x → ⊥ }
    ensures none { revisions.now ≡ [] → result ≡ Err NotADesk }
{
    // A text is that of at most one list of sentences, by this law.
    one_list_has_a_text();
    let blocks = sentences_in(alloc, checker, revisions)?;
    fit(is_course_right(number, row, revisions, &blocks))?;
    let reported = reported_revisions(alloc, revisions, &blocks)?;
    Ok(SentenceSummary {
        batch: row.batch as u64,
        pulled,
        revisions: reported,
    })
}

/// The sentence with this number, read back from its row and its revisions. It borrows the names of users.
///
/// # Errors
///
/// `NotADesk` where no sentence has these rows, or want of memory. Each revision has to keep rules 1 to 11, with the
/// row's `sent_id` and text, and to differ from the one before.
pub fn entry_in<'a>(
    alloc: Global,
    number: u64,
    row: &SentenceRow,
    pulled: bool,
    revisions: &'a [RevisionRow],
) -> Result<SentenceSummary<'a>, Unfit>
    ensures fine { IfOk result (λ e. (x : Sentence)
        × IsReadBack number (sentence_of row.now) pulled (map revision_of revisions.now) x × (e ≡ entry_of x)) }
    ensures unfit { result ≡ Err NotADesk → (x : Sentence)
        → IsReadBack number (sentence_of row.now) pulled (map revision_of revisions.now) x → ⊥ }
    ensures none { revisions.now ≡ [] → result ≡ Err NotADesk }
{
    let mut checker = SentenceChecker::new(alloc);
    entry_by(alloc, &mut checker, number, row, pulled, revisions)
}
