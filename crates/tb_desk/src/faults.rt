//! Prints the list of an input's faults.

ghost use Rattle.tb_desk.specs.Faults.{AreFaultsListed, IsFileAnswered, IsInputAnswered};
ghost use Rattle.tb_host.specs.Reported.{IsTold};

use crate::explaining::explained;
use crate::memory::put_memory;
use std::alloc::Global;
use tb_answer::{put_reply, put_text};
use tb_check::{FILE_LIMIT, Input, read_all};
use tb_conllu::{Sink, Source};
use tb_host::Outcome;
use tb_http::{Reply, RequestFault};
use tb_words::{Asked, list_faults};

/// Prints the list of a file's first faults.
fn put_faults<S: Sink>(alloc: Global, file: &[u8], most: u32, out: &mut S) -> Outcome
    ensures { IsFileAnswered (S.held out.old) (S.held out.new) (S.IsRefusal out.new) result.status
        (IsTold result.reported) most file.now }
{
    match list_faults(alloc, file, most) {
        Ok(list) => Outcome {
            status: put_text(out, list.text.as_slice(), list.status),
            reported: None,
        },
        Err(_) => put_memory(out),
    }
}

/// Prints what is answered to an input: the list of the first faults, or why the input was not read.
fn answer_input<S: Sink>(
    alloc: Global,
    is_wanted: bool,
    input: &Input,
    most: u32,
    out: &mut S,
) -> Outcome
    ensures { IsInputAnswered (S.held out.old) (S.held out.new) (S.IsRefusal out.new) result.status is_wanted
        (IsTold result.reported) most input.now }
{
    match input {
        Input::Whole(file) => put_faults(alloc, file.as_slice(), most, out),
        Input::TooLong => {
            let long = Reply::Faulty(RequestFault::Long);
            Outcome {
                status: put_reply(out, long),
                reported: explained(alloc, is_wanted, long, &[], Asked::Other),
            }
        }
        Input::Memory => put_memory(out),
        // the reader explains how it failed
        Input::Broken => Outcome::from(put_reply(out, Reply::Device)),
    }
}

/// Lists the first faults, at most so many, of what the source gives, up to 4,194,304 bytes.
pub(crate) fn list_faults_of<R: Source, S: Sink>(
    alloc: Global,
    is_wanted: bool,
    source: &mut R,
    most: u32,
    out: &mut S,
) -> Outcome
    ensures { AreFaultsListed (R.IsFailure source.new) (R.left source.old) (R.left source.new) (R.pieces source.old)
        (R.pieces source.new) (S.held out.old) (S.held out.new) (S.IsRefusal out.new) result.status is_wanted
        (IsTold result.reported) most }
{
    let input = read_all(alloc, source, FILE_LIMIT);
    answer_input(alloc, is_wanted, &input, most, out)
}
