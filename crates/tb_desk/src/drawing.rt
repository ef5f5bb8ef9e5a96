//! Draws the trees of a file, as a page for a browser.

ghost use Rattle.std.specs.Prelude.{◌≡◌, ◌≤◌, IfErr, IfOk, length};
ghost use Rattle.tb_check.specs.Check.{file_limit};
ghost use Rattle.tb_check.specs.Input.{IsWithin};
ghost use Rattle.tb_desk.specs.Drawing.{AreTreesDrawn, IsDrawingWritten, IsDrawn, IsDrawnFile, IsUndrawn, IsUndrawnFile};
ghost use Rattle.tb_assets.specs.Trees.{trees_page};
ghost use Rattle.tb_host.specs.Reported.{IsTold};

use crate::checking::{put_check, reported_of_check};
use std::alloc::Global;
use tb_answer::put_body;
use tb_assets::trees_page;
use tb_check::{CheckReply, FILE_LIMIT, Input, check_file, read_all};
use tb_conllu::{Sink, Source};
use tb_host::Outcome;

/// The page of the trees of these sentences.
fn page_of(alloc: Global, conllu: &[u8]) -> Result<Vec<u8>, CheckReply>
    ensures page { IfOk result (λ page. page.items ≡ trees_page conllu.now) }
    ensures memory { IfErr result (λ reply. reply ≡ CheckReply.Memory) }
{
    match trees_page(alloc, conllu) {
        Ok(page) => Ok(page),
        Err(_) => Err(CheckReply::Memory),
    }
}

/// The page of the trees of a file.
///
/// # Errors
///
/// The first fault of the file, as a check reports it. Or memory was refused.
#[tactic(auto, unfolding(crate::specs::Drawing::IsDrawnFile))]
fn draw_file(alloc: Global, file: &[u8]) -> Result<Vec<u8>, CheckReply>
    requires { length file.now ≤ file_limit }
    ensures drawn { IfOk result (λ page. IsDrawnFile file.now page.items) }
    ensures undrawn { IfErr result (IsUndrawnFile file.now) }
{
    match check_file(alloc, file, FILE_LIMIT) {
        CheckReply::Counts { .. } => page_of(alloc, file),
        reply => Err(reply),
    }
}

/// The page of the trees of an input.
///
/// # Errors
///
/// What a check answers to the input, or want of memory.
fn draw(alloc: Global, input: &Input) -> Result<Vec<u8>, CheckReply>
    requires { IsWithin file_limit input.now }
    ensures drawn { IfOk result (λ page. IsDrawn input.now page.items) }
    ensures undrawn { IfErr result (IsUndrawn input.now) }
{
    match input {
        Input::Whole(file) => draw_file(alloc, file.as_slice()),
        Input::TooLong => Err(CheckReply::Long),
        Input::Memory => Err(CheckReply::Memory),
        Input::Broken => Err(CheckReply::Device),
    }
}

/// Prints the page of the trees of an input, or the line of why there is none.
fn answer_input<S: Sink>(alloc: Global, is_wanted: bool, input: &Input, out: &mut S) -> Outcome
    requires { IsWithin file_limit input.now }
    ensures { IsDrawingWritten (S.held out.old) (S.held out.new) (S.IsRefusal out.new) result.status is_wanted
        (IsTold result.reported) input.now }
{
    match draw(alloc, input) {
        Ok(page) => Outcome {
            status: put_body(out, page.as_slice()),
            reported: None,
        },
        Err(reply) => Outcome {
            status: put_check(out, reply),
            reported: reported_of_check(alloc, is_wanted, reply, input),
        },
    }
}

/// Draws the trees of what the source gives, up to 4,194,304 bytes. Why there are none is explained where words are
/// wanted.
pub(crate) fn draw_trees_of<R: Source, S: Sink>(
    alloc: Global,
    is_wanted: bool,
    source: &mut R,
    out: &mut S,
) -> Outcome
    ensures { AreTreesDrawn (R.IsFailure source.new) (R.left source.old) (R.left source.new) (R.pieces source.old)
        (R.pieces source.new) (S.held out.old) (S.held out.new) (S.IsRefusal out.new) result.status is_wanted
        (IsTold result.reported) }
{
    let input = read_all(alloc, source, FILE_LIMIT);
    answer_input(alloc, is_wanted, &input, out)
}
