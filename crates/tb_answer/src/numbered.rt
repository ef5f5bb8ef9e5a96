//! The list of the sentences of a batch that is named by its number, as the page asks for it.

ghost use Rattle.std.specs.Prelude.{◌≡◌, Err, IfErr, IfOk, None, option_map};
ghost use Rattle.tb_answer.specs.Prelude.{batch_lines, CommitsNothing};
ghost use Rattle.tb_answer.specs.Commanded.{reply_for_fault};
ghost use Rattle.tb_answer.specs.Numbered.{IsNumberedText, RefusesNumber, name_in};
ghost use Rattle.tb_answer.specs.OnlyRead.{IsOnlyRead, IsReadResult};
ghost use Rattle.tb_answer.specs.Viewed.{IsReportedAs};

use crate::commands::reply_for_fault;
use crate::views::view_sentences;
use sqlite::Alter;
use std::alloc::Global;
use tb_core::{Fault, Refusal};
use tb_http::Reply;
use tb_lists::BatchLine;
use tb_store::Desk;

/// The name of the batch with this number.
fn name_in(batches: &[BatchLine], no: u64) -> Option<&str>
    ensures { option_map (λ s. s.now) result ≡ name_in no batches.now }
{
    for batch in batches {
        if batch.no == no {
            return Some(batch.name.as_str());
        }
    }
    None
}

/// The sentences of the batch with this number among these, which are all batches of the desk.
fn sentences_among<S: Alter>(
    alloc: Global,
    desk: &mut Desk<S>,
    batches: &[BatchLine],
    no: u64,
) -> Result<Vec<u8>, Reply>
    ensures read { IsReadResult S.Store desk.old desk.new result
        (λ s v. batches.now ≡ batch_lines s → IsNumberedText s no v.items)
        (λ cause s r. batches.now ≡ batch_lines s → IsReportedAs cause (RefusesNumber s no) r) }
    ensures missing { name_in no batches.now ≡ None → result ≡ Err (Reply.Refused Refusal.NoSuchBatch) }
    ensures commits_nothing { CommitsNothing S.Store desk.old.conn desk.new.conn }
{
    match name_in(batches, no) {
        Some(name) => view_sentences(alloc, desk, name),
        None => Err(Reply::Refused(Refusal::NoSuchBatch)),
    }
}

/// The sentences of the batch with this number among all batches. Returns the reply for the fault where these were not
/// read.
fn sentences_in<S: Alter>(
    read: Result<Vec<BatchLine>, Fault>,
    alloc: Global,
    desk: &mut Desk<S>,
    no: u64,
) -> Result<Vec<u8>, Reply>
    ensures read { IfOk read (λ all. IsReadResult S.Store desk.old desk.new result
        (λ s v. all.items ≡ batch_lines s → IsNumberedText s no v.items)
        (λ cause s r. all.items ≡ batch_lines s → IsReportedAs cause (RefusesNumber s no) r)) }
    ensures unread { IfErr read (λ e. (result ≡ Err (reply_for_fault e)) × (desk.new ≡ desk.old)) }
    ensures read_only { IsOnlyRead S.Store desk.old desk.new }
    ensures commits_nothing { CommitsNothing S.Store desk.old.conn desk.new.conn }
{
    match read {
        Ok(batches) => sentences_among(alloc, desk, batches.as_slice(), no),
        Err(fault) => Err(reply_for_fault(fault)),
    }
}

/// The sentences of the batch with this number, from 1, as `view` lists those of its name.
///
/// # Errors
///
/// `NoSuchBatch`, or a failure.
pub fn numbered_sentences<S: Alter>(
    alloc: Global,
    desk: &mut Desk<S>,
    no: u64,
) -> Result<Vec<u8>, Reply>
    ensures { IsReadResult S.Store desk.old desk.new result (λ s v. IsNumberedText s no v.items)
        (λ cause s. IsReportedAs cause (RefusesNumber s no)) }
{
    sentences_in(desk.batches(), alloc, desk, no)
}
