//! The check of a file, with the words for its answer while the file is at hand.

ghost use Rattle.std.specs.Prelude.{◌≡◌, MatchOption, None};
ghost use Rattle.tb_check.specs.Check.{Answers, IsWritten, reply_text, status_of};
ghost use Rattle.tb_desk.specs.Checked.{IsReplyToAsked};
ghost use Rattle.tb_desk.specs.Explaining.{IsExplained};
ghost use Rattle.tb_desk.specs.Told.{IsCheckExplainedBy, WithTold, reply_as_the_desk};
ghost use Rattle.tb_host.specs.Reported.{IsTold};

use crate::explaining::explained;
use std::alloc::Global;
use tb_check::{CheckReply, FILE_LIMIT, Input, check_input, put_reply, read_all};
use tb_conllu::{Sink, Source};
use tb_core::Refusal;
use tb_host::{Diagnostic, Outcome};
use tb_http::{Reply, RequestFault};
use tb_words::Asked;

/// What the check of a source answers, and what was read of it.
#[derive(Drop)]
struct Checked {
    reply: CheckReply,
    input: Input,
}

fn check_source<R: Source>(alloc: Global, source: &mut R) -> Checked
    ensures { IsReplyToAsked (R.IsFailure source.new) (R.left source.old) (R.left source.new) (R.pieces source.old)
        (R.pieces source.new) result.reply }
{
    let input = read_all(alloc, source, FILE_LIMIT);
    let reply = check_input(alloc, &input, FILE_LIMIT);
    Checked { reply, input }
}

/// The desk's reply that says the same. Counts need no words. The reader of an input explains how it failed.
fn reply_for(reply: CheckReply) -> Option<Reply>
    ensures { result ≡ reply_as_the_desk reply }
{
    match reply {
        CheckReply::Counts { .. } | CheckReply::Device => None,
        CheckReply::Read { line, code } => Some(Reply::Refused(Refusal::Read(line, code))),
        CheckReply::Rule {
            sentence,
            rule,
            row,
        } => Some(Reply::Refused(Refusal::Rule(sentence, rule, row))),
        CheckReply::Long => Some(Reply::Faulty(RequestFault::Long)),
        CheckReply::Memory => Some(Reply::Memory),
    }
}

/// What there is to say of a reply to what was read of an input, where words are wanted.
pub(crate) fn reported_of_check(
    alloc: Global,
    is_wanted: bool,
    reply: CheckReply,
    input: &Input,
) -> Option<Diagnostic>
    ensures { MatchOption (reply_as_the_desk reply) (result ≡ None) (λ r. IsExplained is_wanted r result) }
{
    let Some(reply) = reply_for(reply) else {
        return None;
    };
    match input {
        Input::Whole(file) => explained(alloc, is_wanted, reply, file.as_slice(), Asked::Other),
        _ => explained(alloc, is_wanted, reply, &[], Asked::Other),
    }
}

/// Prints the line of a reply.
pub(crate) fn put_check<S: Sink>(out: &mut S, reply: CheckReply) -> u8
    ensures { IsWritten (S.held out.old) (S.held out.new) (reply_text reply) (status_of reply) (S.IsRefusal out.new)
        result }
{
    put_reply(out, reply.line().as_str(), reply.status())
}

/// Checks what the source gives, up to 4,194,304 bytes, as `run_check` does, and explains a refusal where words are
/// wanted.
pub(crate) fn check_reported<R: Source, S: Sink>(
    alloc: Global,
    is_wanted: bool,
    source: &mut R,
    out: &mut S,
) -> Outcome
    ensures { Answers (λ reply. IsReplyToAsked (R.IsFailure source.new) (R.left source.old) (R.left source.new)
        (R.pieces source.old) (R.pieces source.new) reply
        × WithTold (IsTold result.reported) (IsCheckExplainedBy is_wanted reply))
        (S.held out.old) (S.held out.new) (S.IsRefusal out.new) result.status }
{
    let Checked { reply, input } = check_source(alloc, source);
    Outcome {
        status: put_check(out, reply),
        reported: reported_of_check(alloc, is_wanted, reply, &input),
    }
}
