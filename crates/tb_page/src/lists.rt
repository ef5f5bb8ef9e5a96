//! The lists of the page.

ghost use Rattle.std.specs.Prelude.{◌≡◌, ◌⊎◌, [], Err as ErrOf, IfErr, IfOk, IsOk};
ghost use Rattle.std.specs.Str.{IsUtf8};
ghost use Rattle.percent_encoding.specs.Percent.{percent_decode};
ghost use Rattle.tb_answer.specs.OnlyRead.{IsReadResult};
ghost use Rattle.tb_answer.specs.Viewed.{IsReportedAs};
ghost use Rattle.tb_page.specs.Lists.{IsList, IsWithId, LacksId, LeavesForList, RefusesList, counts_csv};
ghost use Rattle.tb_page.specs.Paths.{list_by};

use crate::paths::PageList;
use arrayvec::ArrayString;
use percent_encoding::percent_decode;
use sqlite::Alter;
use std::alloc::Global;
use std::str::from_utf8;
use tb_answer::{numbered_sentences, view_batches, view_found};
use tb_core::Refusal;
use tb_http::{Reply, push_number};
use tb_store::{Desk, DeskCounts};

/// How many batches, sentences and moves there are, as CSV.
fn counts_csv(counts: DeskCounts) -> ArrayString<128>
    ensures { result.bytes ≡ counts_csv counts.batches counts.sentences counts.moves }
{
    let mut text = ArrayString::new();
    text.push_str("batches,sentences,moves\n");
    push_number(&mut text, counts.batches);
    text.push_str(",");
    push_number(&mut text, counts.sentences);
    text.push_str(",");
    push_number(&mut text, counts.moves);
    text.push_str("\n");
    text
}

/// A text in memory of its own.
fn copied(alloc: Global, text: &str) -> Result<Vec<u8>, Reply>
    ensures text { IfOk result (λ v. v.items ≡ text.now) }
    ensures failed { IfErr result (λ r. r ≡ Reply.Memory) }
{
    let mut bytes = Vec::new(alloc);
    match bytes.extend_from_slice(text.as_bytes()) {
        Ok(()) => Ok(bytes),
        Err(_) => Err(Reply::Memory),
    }
}

/// The bytes that a text with percent escapes stands for.
fn unescaped(alloc: Global, text: &[u8]) -> Result<Vec<u8>, Reply>
    ensures bytes { IfOk result (λ v. v.items ≡ percent_decode text.now) }
    ensures failed { IfErr result (λ r. r ≡ Reply.Memory) }
    ensures sure { percent_decode text.now ≡ [] → IsOk result }
{
    let mut bytes = Vec::new(alloc);
    match percent_decode(text).append_to(&mut bytes) {
        Ok(()) => Ok(bytes),
        Err(_) => Err(Reply::Memory),
    }
}

/// The sentence with this `sent_id`. None has one that is not UTF-8.
fn with_id<S: Alter>(alloc: Global, desk: &mut Desk<S>, id: &[u8]) -> Result<Vec<u8>, Reply>
    ensures read { IsReadResult S.Store desk.old desk.new result (λ s v. IsWithId s id.now v.items)
        (λ cause s. IsReportedAs cause (LacksId s id.now)) }
    ensures unreadable { (IsUtf8 id.now → ⊥) → (result ≡ ErrOf (Reply.Refused Refusal.NoSuchSentence))
        × (desk.new ≡ desk.old) }
{
    match from_utf8(id) {
        Ok(id) => view_found(alloc, desk, id),
        Err(_) => Err(Reply::Refused(Refusal::NoSuchSentence)),
    }
}

/// The sentence with a `sent_id`, in which percent escapes stand for bytes.
fn with_escaped_id<S: Alter>(alloc: Global, desk: &mut Desk<S>, id: &[u8]) -> Result<Vec<u8>, Reply>
    ensures read { IsReadResult S.Store desk.old desk.new result (λ s v. IsWithId s (percent_decode id.now) v.items)
        (λ cause s. IsReportedAs cause (LacksId s (percent_decode id.now))) }
    ensures unreadable { (IsUtf8 (percent_decode id.now) → ⊥) → (desk.new ≡ desk.old)
        × ((result ≡ ErrOf (Reply.Refused Refusal.NoSuchSentence)) ⊎ (result ≡ ErrOf Reply.Memory)) }
{
    match unescaped(alloc, id) {
        Ok(id) => with_id(alloc, desk, id.as_slice()),
        Err(reply) => Err(reply),
    }
}

/// The text of a list. The counts are known without a read of the desk.
///
/// # Errors
///
/// The refusals of the list, or a failure.
pub(crate) fn list_text<S: Alter>(
    alloc: Global,
    desk: &mut Desk<S>,
    list: PageList<'_>,
) -> Result<Vec<u8>, Reply>
    ensures read { IsReadResult S.Store desk.old desk.new result (λ s v. IsList s (list_by list.entry) v.items)
        (λ cause s. IsReportedAs cause (RefusesList s (list_by list.entry))) }
    ensures counts { list.entry ≡ PageList.Counts → (desk.new ≡ desk.old)
        × IfErr result (λ r. r ≡ Reply.Memory) }
    ensures kept { LeavesForList desk.old desk.new (list_by list.entry) }
{
    match list {
        PageList::Counts => copied(alloc, counts_csv(desk.row_counts()).as_str()),
        PageList::Batches => view_batches(alloc, desk),
        PageList::Sentences(no) => numbered_sentences(alloc, desk, no),
        PageList::SentId(id) => with_escaped_id(alloc, desk, id),
    }
}
