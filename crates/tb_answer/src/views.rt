//! The lists that `deskview` shows, as CSV, and the tree of a sentence.

ghost use Rattle.std.specs.Prelude.{◌≡◌, Err, IfOk, IfErr, Some, string_bytes};
ghost use Rattle.tb_answer.specs.Prelude.{batch_lines, batches_csv, CommitsNothing, listed_by, Machine, RefusesId};
ghost use Rattle.tb_answer.specs.Prelude.{Represents, trees_page};
ghost use Rattle.tb_core.specs.declared.refusals.Fault.TheVariants.{Refused};
ghost use Rattle.tb_answer.specs.Asked.{IsMadeOf};
ghost use Rattle.tb_answer.specs.Commanded.{IsFailure};
ghost use Rattle.tb_answer.specs.Exported.{IsReportedOfExport};
ghost use Rattle.tb_answer.specs.OnlyRead.{IsReadResult, IsQuestionResult};
ghost use Rattle.tb_answer.specs.Viewed.{IsFoundText, IsReportedAs, IsRevisionsText, IsSentencesText, IsTreeText};
ghost use Rattle.tb_answer.specs.Viewed.{IsView, IsViewReported, ViewsNone};

use crate::commands::reply_for_fault;
use crate::listed::text_or_reply;
use crate::questions::Question;
use sqlite::Alter;
use std::alloc::Global;
use tb_assets::trees_page;
use tb_cli::ViewList;
use tb_core::{Fault, Refusal};
use tb_http::Reply;
use tb_store::{Current, Desk};

/// The batches by number, each with its state, its worker and its counts. It is never refused.
pub fn view_batches<S: Alter>(alloc: Global, desk: &mut Desk<S>) -> Result<Vec<u8>, Reply>
    ensures { IsReadResult S.Store desk.old desk.new result (λ s v. v.items ≡ batches_csv (batch_lines s))
        (λ cause s. IsFailure cause) }
{
    text_or_reply(alloc, desk.batches())
}

/// The sentences of the batch with this name, pulled ones too, by number. It is refused as an export of the batch.
///
/// # Errors
///
/// The first of `BadName`, `NoSuchBatch`, or a failure.
pub(crate) fn view_sentences<S: Alter>(
    alloc: Global,
    desk: &mut Desk<S>,
    name: &str,
) -> Result<Vec<u8>, Reply>
    ensures read { IsReadResult S.Store desk.old desk.new result (λ s v. IsSentencesText s name.now v.items)
        (λ cause s. IsReportedOfExport cause s (Some name.now)) }
    ensures commits_nothing { CommitsNothing S.Store desk.old.conn desk.new.conn }
{
    text_or_reply(alloc, desk.sentences(name))
}

/// The revisions of the sentence with this number, from 1, each with the move that made it.
///
/// # Errors
///
/// `NoSuchSentence`, or a failure.
fn revisions<S: Alter>(alloc: Global, desk: &mut Desk<S>, number: u64) -> Result<Vec<u8>, Reply>
    ensures { IsQuestionResult S.Store desk.old desk.new result (Question.Sentence number)
        (λ s v. IsRevisionsText s number v.items) }
{
    text_or_reply(alloc, desk.revisions(number))
}

/// The sentence with this `sent_id`, pulled or not, with the name of its batch.
///
/// # Errors
///
/// `NoSuchSentence`, or a failure.
pub fn view_found<S: Alter>(
    alloc: Global,
    desk: &mut Desk<S>,
    sent_id: &str,
) -> Result<Vec<u8>, Reply>
    ensures { IsReadResult S.Store desk.old desk.new result (λ s v. IsFoundText s sent_id.now v.items)
        (λ cause s. IsReportedAs cause (λ why. RefusesId s sent_id.now (Refused why))) }
{
    text_or_reply(alloc, desk.find(sent_id))
}

/// The page of a sentence's tree.
fn tree_text(alloc: Global, conllu: &str) -> Result<Vec<u8>, Reply>
    ensures text { IfOk result (λ v. v.items ≡ trees_page conllu.now) }
    ensures failed { IfErr result (λ r. r ≡ Reply.Memory) }
{
    match trees_page(alloc, conllu.as_bytes()) {
        Ok(page) => Ok(page),
        Err(_) => Err(Reply::Memory),
    }
}

/// The tree of the sentence that was read, or the reply for the fault of the read.
fn tree_or_reply(alloc: Global, read: Result<Current, Fault>) -> Result<Vec<u8>, Reply>
    ensures { IsMadeOf read result (λ current v. v.items ≡ trees_page (string_bytes current.body)) }
{
    match read {
        Ok(current) => tree_text(alloc, current.body.as_str()),
        Err(fault) => Err(reply_for_fault(fault)),
    }
}

/// The tree of the current revision of the sentence with this number, from 1, as a page that stands alone.
///
/// # Errors
///
/// `NoSuchSentence`, or a failure.
fn tree<S: Alter>(alloc: Global, desk: &mut Desk<S>, number: u64) -> Result<Vec<u8>, Reply>
    ensures { IsQuestionResult S.Store desk.old desk.new result (Question.Sentence number)
        (λ s v. IsTreeText s number v.items) }
{
    tree_or_reply(alloc, desk.sentence(number))
}

/// What `deskview` prints of a desk: a list or a tree.
///
/// # Errors
///
/// The refusals of the list, or a failure.
pub fn view<S: Alter>(alloc: Global, list: &ViewList, desk: &mut Desk<S>) -> Result<Vec<u8>, Reply>
    ensures read { IsReadResult S.Store desk.old desk.new result (λ s v. IsView s (listed_by list.now) v.items)
        (λ cause s. IsViewReported cause s (listed_by list.now)) }
    ensures missing { (s : Machine) → Represents S.Store desk.old s → ViewsNone s (listed_by list.now)
        → result ≡ Err (Reply.Refused Refusal.NoSuchSentence) }
{
    match list {
        ViewList::Batches => view_batches(alloc, desk),
        ViewList::Sentences { name } => view_sentences(alloc, desk, name.as_str()),
        ViewList::Revisions { no } => revisions(alloc, desk, *no),
        ViewList::Find { sent_id } => view_found(alloc, desk, sent_id.as_str()),
        ViewList::Tree { no } => tree(alloc, desk, *no),
    }
}
