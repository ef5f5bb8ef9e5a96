//! Checks a file.

ghost use Rattle.std.specs.Prelude.{◌≡◌, ◌<◌, ◌≤◌, ◌^◌, ℕ, List, [], ◌∷◌, ◌++◌, length, IfOk};
ghost use Rattle.std.specs.Prelude.{IfErr, IsSome};
ghost use Rattle.tb_conllu.specs.Fault.{IsReadFault, MayWantMemory};
ghost use Rattle.tb_conllu.specs.Text.{BlockText};
ghost use Rattle.tb_conllu.specs.Reported.{IsFile};
ghost use Rattle.tb_conllu.specs.declared.fault.ReadFault.TheVariants as read;
ghost use Rattle.tb_check.specs.Check.{Answers, IsAsked, IsReplyTo, IsReplyToInput, IsReplyToTaken, IsSurvey};
ghost use Rattle.tb_check.specs.Check.{file_limit, reply_for};
ghost use Rattle.tb_check.specs.Input.{IsWithin};
ghost use Rattle.tb_check.specs.declared.reply.CheckReply.TheVariants.{Memory};

use crate::input::{Input, read_all};
use crate::output::put_reply;
use crate::reply::CheckReply;
use std::alloc::Global;
use tb_conllu::{
    BlockOf, ReadFault, Sentences, Sink, SliceSource, Source, Text, fault_after_sentences, words,
};
use tb_rules::{Checker, FileFault, a_fault_stays};

/// The greatest size of a file, in bytes.
pub const FILE_LIMIT: u64 = 4_194_304;

/// What a check finds in a file that can be read.
#[derive(Clone, Copy, Debug, PartialEq, Eq)]
pub struct Survey {
    pub sentences: u64,
    pub words: u64,
    /// The first sentence that breaks a rule, with its least rule and row; or that memory ran out while the rules were
    /// tested.
    pub fault: Option<FileFault>,
}

impl Survey {
    ghost use Rattle.std.specs.Prelude.{◌≡◌, ◌≤◌, ℕ, List, length};
    ghost use Rattle.tb_conllu.specs.Text.{BlockText};
    ghost use Rattle.tb_conllu.specs.Reported.{IsFile};
    ghost use Rattle.tb_check.specs.Check.{IsReplyTo, IsSurvey, reply_of};

    /// The reply of the check for the file.
    fn reply(self) -> CheckReply
        ensures value { result ≡ reply_of self }
        ensures reply { (limit : ℕ) (input : List ℕ) (bs : List BlockText) → length input ≤ limit
            → IsFile input bs → IsSurvey bs self → IsReplyTo limit input result }
    {
        match self.fault {
            None => CheckReply::Counts {
                sentences: self.sentences,
                words: self.words,
            },
            Some(
                FileFault::At {
                    sentence,
                    rule,
                    row,
                },
            ) => CheckReply::Rule {
                sentence: sentence as u64,
                rule,
                row: row as u64,
            },
            Some(FileFault::Memory) => CheckReply::Memory,
        }
    }
}

/// Tests the rules of the next sentence, unless a fault was reported before.
fn ask<T: Text>(
    checker: &mut Checker,
    block: &BlockOf<T>,
    reported: Option<FileFault>,
) -> Option<FileFault>
    ensures asked { (before : List BlockText) → IsAsked checker.old reported before
        → IsAsked checker.new result (before ++ block.now ∷ []) }
    ensures kept { IsSome reported → (result ≡ reported) × (checker.new ≡ checker.old) }
{
    // law: a fault of the first sentences is the file's
    a_fault_stays();
    if reported.is_some() {
        return reported;
    }
    checker.take(block).err()
}

/// Surveys a file. It keeps one sentence at a time, and the names of all. It reads the file to its end, even after a
/// sentence that breaks a rule.
///
/// # Errors
///
/// Where the bytes are no file, the first line after which no continuation is one, with its least code. Rules that the
/// sentences before it break do not matter. Or memory was refused.
pub fn survey_file(alloc: Global, file: &[u8]) -> Result<Survey, ReadFault>
    ensures found { IfOk result (λ s. (bs : List BlockText) × IsFile file.now bs × IsSurvey bs s) }
    ensures fault { IfErr result (IsReadFault file.now) }
    ensures memory { IfErr result (λ e. e ≡ read.Memory → MayWantMemory file.now) }
{
    // law: a fault of the rest is the file's
    fault_after_sentences();
    let mut unread = Sentences::new(file);
    let mut checker = Checker::new(alloc);
    let mut found = Survey {
        sentences: 0,
        words: 0,
        fault: None,
    };
    while let Some(block) = unread.read_next(alloc)? {
        found.sentences += 1;
        found.words += words(&block) as u64;
        found.fault = ask(&mut checker, &block, found.fault);
    }
    Ok(found)
}

/// The reply for bytes that are no file.
fn reply_for(fault: ReadFault) -> CheckReply
    ensures { result ≡ reply_for fault }
{
    match fault {
        ReadFault::At { line, code } => CheckReply::Read {
            line: line as u64,
            code,
        },
        ReadFault::Memory => CheckReply::Memory,
    }
}

/// The reply of the check for a file in memory. It is never `Device`.
pub fn check_file(alloc: Global, file: &[u8], limit: u64) -> CheckReply
    requires { length file.now ≤ limit }
    ensures reply { IsReplyTo limit file.now result }
    ensures memory { result ≡ Memory → MayWantMemory file.now }
{
    match survey_file(alloc, file) {
        Ok(found) => found.reply(),
        Err(fault) => reply_for(fault),
    }
}

/// The reply of the check for what was read of an input.
pub fn check_input(alloc: Global, input: &Input, limit: u64) -> CheckReply
    requires { IsWithin limit input.now }
    ensures { IsReplyToInput limit input.now result }
{
    match input {
        Input::Whole(file) => check_file(alloc, file.as_slice(), limit),
        Input::TooLong => CheckReply::Long,
        Input::Memory => CheckReply::Memory,
        Input::Broken => CheckReply::Device,
    }
}

/// The reply of the check for a source.
fn check_source<R: Source>(alloc: Global, source: &mut R, limit: u64) -> CheckReply
    requires { limit < 2 ^ 32 }
    ensures { IsReplyToTaken (R.IsFailure source.new) limit (R.left source.old) (R.left source.new)
        (R.pieces source.old) (R.pieces source.new) result }
{
    let input = read_all(alloc, source, limit);
    check_input(alloc, &input, limit)
}

/// Checks at most `limit` bytes, writes the reply, and returns the exit status.
///
/// Over any source, one of the replies is written whole, with its own status, or the sink refused it. The reply is
/// `Device` only where the source failed. Where the source's contract names its bytes, the reply is true of them. No
/// more of them are taken than the reply needs.
pub fn check_within<R: Source, S: Sink>(
    alloc: Global,
    source: &mut R,
    out: &mut S,
    limit: u64,
) -> u8
    requires { limit < 2 ^ 32 }
    ensures { Answers (IsReplyToTaken (R.IsFailure source.new) limit (R.left source.old) (R.left source.new)
        (R.pieces source.old) (R.pieces source.new)) (S.held out.old) (S.held out.new) (S.IsRefusal out.new) result }
{
    let reply = check_source(alloc, source, limit);
    put_reply(out, reply.line().as_str(), reply.status())
}

/// Checks what the source gives, up to 4,194,304 bytes, writes the reply, and returns the exit status.
pub fn run_check<R: Source, S: Sink>(alloc: Global, source: &mut R, out: &mut S) -> u8
    ensures { Answers (IsReplyToTaken (R.IsFailure source.new) file_limit (R.left source.old) (R.left source.new)
        (R.pieces source.old) (R.pieces source.new)) (S.held out.old) (S.held out.new) (S.IsRefusal out.new) result }
{
    check_within(alloc, source, out, FILE_LIMIT)
}

/// Checks bytes in memory, as `run_check` does. No device fails, and memory runs out only where there is a byte.
pub fn check_bytes<S: Sink>(alloc: Global, bytes: &[u8], out: &mut S) -> u8
    ensures { Answers (IsReplyTo file_limit bytes.now) (S.held out.old) (S.held out.new) (S.IsRefusal out.new) result }
{
    run_check(alloc, &mut SliceSource { bytes }, out)
}
