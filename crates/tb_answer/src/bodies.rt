//! The texts that answer what a desk is asked.

ghost use Rattle.std.specs.Prelude.{◌≡◌, Some, None, Ok, Err, string_bytes, IfErr, MatchResult};
ghost use Rattle.tb_answer.specs.Prelude.{IsCurrent, IsRevisionText, moves_csv};
ghost use Rattle.tb_answer.specs.Commanded.{IsFailure, IsStoreFailure};
ghost use Rattle.tb_answer.specs.Asked.{or_reply, totals_text, IsBody};
ghost use Rattle.tb_answer.specs.OnlyRead.{IsReadResult, IsQuestionResult};

use crate::commands::reply_for_fault;
use crate::listed::text_or_reply;
use crate::questions::{Body, Question};
use sqlite::Alter;
use std::alloc::Global;
use tb_core::Fault;
use tb_http::Reply;
use tb_report::ReportFault;
use tb_store::{Current, Desk};

/// What was made of a text that was put into memory, or that memory ran out: a sink in memory fails for nothing else.
pub(crate) fn or_memory<T: Drop>(put: Result<(), ReportFault>, made: T) -> Result<T, Reply>
    ensures { MatchResult put (λ _. result ≡ Ok made) (λ _. result ≡ Err Reply.Memory) }
{
    match put {
        Ok(()) => Ok(made),
        Err(_) => Err(Reply::Memory),
    }
}

/// Sentences and words of the six states, as CSV. It is never refused.
pub fn totals<S: Alter>(alloc: Global, desk: &mut Desk<S>) -> Result<Vec<u8>, Reply>
    ensures read { IsReadResult S.Store desk.old desk.new result (λ s v. v.items ≡ totals_text s)
        (λ cause s. IsFailure cause) }
    ensures unrefused { IfErr result IsStoreFailure }
{
    text_or_reply(alloc, desk.totals())
}

/// All moves in their order, as CSV. It is never refused.
pub fn moves<S: Alter>(alloc: Global, desk: &mut Desk<S>) -> Result<Vec<u8>, Reply>
    ensures read { IsReadResult S.Store desk.old desk.new result (λ s v. v.items ≡ moves_csv s.moves)
        (λ cause s. IsFailure cause) }
    ensures unrefused { IfErr result IsStoreFailure }
{
    text_or_reply(alloc, desk.moves())
}

/// What was read of a desk, or the reply for the fault of the read.
pub(crate) fn or_reply<T>(read: Result<T, Fault>) -> Result<T, Reply>
    ensures { result ≡ or_reply read }
{
    match read {
        Ok(read) => Ok(read),
        Err(fault) => Err(reply_for_fault(fault)),
    }
}

/// The current revision of the sentence with this number, from 1.
///
/// # Errors
///
/// `NoSuchSentence`, or a failure.
pub fn sentence<S: Alter>(desk: &mut Desk<S>, number: u64) -> Result<Current, Reply>
    ensures { IsQuestionResult S.Store desk.old desk.new result (Question.Sentence number)
        (λ s c. IsCurrent s number c.rev (string_bytes c.body)) }
{
    or_reply(desk.sentence(number))
}

/// The text of a revision of a sentence. Both numbers count from 1.
///
/// # Errors
///
/// The first of `NoSuchSentence` and `NoSuchRevision` that holds, or a failure.
pub fn revision<S: Alter>(desk: &mut Desk<S>, number: u64, rev: u64) -> Result<String, Reply>
    ensures { IsQuestionResult S.Store desk.old desk.new result (Question.Revision number rev)
        (λ s t. IsRevisionText s number rev (string_bytes t)) }
{
    or_reply(desk.revision(number, rev))
}

/// A text without a revision number.
pub(crate) fn body_of(text: Vec<u8>) -> Body
    ensures text { result.text.items ≡ text.items }
    ensures rev { result.rev ≡ None }
{
    Body { text, rev: None }
}

/// The text of a sentence with the number of its revision.
fn body_of_current(current: Current) -> Body
    ensures text { result.text.items ≡ string_bytes current.body }
    ensures rev { result.rev ≡ Some current.rev }
{
    let Current { rev, body } = current;
    Body {
        text: body.into_bytes(),
        rev: Some(rev),
    }
}

/// The body with a sentence that was read, or the reply for why it was not.
fn current_body(read: Result<Current, Reply>) -> Result<Body, Reply>
    ensures { MatchResult read (λ c. MatchResult result
        (λ b. (b.text.items ≡ string_bytes c.body) × (b.rev ≡ Some c.rev)) (λ _. ⊥)) (λ r. result ≡ Err r) }
{
    match read {
        Ok(current) => Ok(body_of_current(current)),
        Err(reply) => Err(reply),
    }
}

/// The body with a revision that was read, or the reply for why it was not.
fn revision_body(read: Result<String, Reply>) -> Result<Body, Reply>
    ensures { MatchResult read (λ t. MatchResult result
        (λ b. (b.text.items ≡ string_bytes t) × (b.rev ≡ None)) (λ _. ⊥)) (λ r. result ≡ Err r) }
{
    match read {
        Ok(text) => Ok(body_of(text.into_bytes())),
        Err(reply) => Err(reply),
    }
}

/// The body with a text that was made, or the reply for why it was not.
fn text_body(made: Result<Vec<u8>, Reply>) -> Result<Body, Reply>
    ensures { MatchResult made (λ v. MatchResult result
        (λ b. (b.text.items ≡ v.items) × (b.rev ≡ None)) (λ _. ⊥)) (λ r. result ≡ Err r) }
{
    match made {
        Ok(text) => Ok(body_of(text)),
        Err(reply) => Err(reply),
    }
}

/// The text that answers a question.
///
/// # Errors
///
/// The refusals of the question, or a failure.
pub fn ask<S: Alter>(alloc: Global, desk: &mut Desk<S>, question: Question) -> Result<Body, Reply>
    ensures { IsQuestionResult S.Store desk.old desk.new result question
        (λ s b. IsBody s question b.rev b.text.items) }
{
    match question {
        Question::Sentence { number } => current_body(sentence(desk, number)),
        Question::Revision { number, rev } => revision_body(revision(desk, number, rev)),
        Question::Totals => text_body(totals(alloc, desk)),
        Question::Moves => text_body(moves(alloc, desk)),
    }
}
