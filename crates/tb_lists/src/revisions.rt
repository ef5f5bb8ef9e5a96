//! The revisions of a sentence, as a list shows them.

ghost use Rattle.std.specs.Prelude.{◌≡◌, [], IfErr, IfOk, IsOk, string_bytes};
ghost use Rattle.tb_lists.specs.Made.{line_by, lines_by};
ghost use Rattle.tb_lists.specs.Revisions.{RevisionText, is_maker, makers, makes};

use std::alloc::Global;
use std::marker::Model;
use tb_core::{Fault, Kind, Move};

/// A revision, and the move that made it.
#[derive(Drop)]
pub struct RevisionLine {
    /// Its number, from 1.
    pub rev: u64,
    /// The user who wrote it.
    pub who: String,
    /// An import for the first revision, a correction for each other.
    pub kind: Kind,
    /// The number of the move that made it, from 1.
    pub move_no: u64,
}

impl Model for RevisionLine {
    ghost Value = { RevisionText };

    ghost view = { λ r. record {
      rev = r.rev;
      who = string_bytes r.who;
      kind = r.kind;
      move_no = r.move_no;
    } };
}

/// Whether a move of this kind makes a revision of a sentence: an import of its batch, or a correction of it.
fn makes(kind: Kind, of_its_batch: bool, of_the_sentence: bool) -> bool
    ensures { result ≡ makes kind of_its_batch of_the_sentence }
{
    match kind {
        Kind::Import => of_its_batch,
        Kind::Correct => of_the_sentence,
        Kind::Step(_) | Kind::Pull | Kind::Restore => false,
    }
}

/// Whether a move made a revision of the sentence with this number, which is in this batch.
fn is_maker(step: &Move, sentence: u64, batch: u64) -> bool
    ensures { result ≡ is_maker sentence batch step.now }
{
    makes(step.kind, step.batch == batch, step.sent == sentence)
}

/// The revision with this number, which a move made.
fn line_by(alloc: Global, rev: u64, step: &Move) -> Result<RevisionLine, Fault>
    ensures line { IfOk result (λ x. x ≡ line_by rev step.now) }
    ensures fault { IfErr result (λ e. e ≡ Fault.Memory) }
{
    let who = String::from_str(alloc, step.who.as_str())?;
    Ok(RevisionLine {
        rev,
        who,
        kind: step.kind,
        move_no: step.no,
    })
}

/// The revisions of the sentence with this number, which is in this batch, as these moves made them.
pub(crate) fn lines_by(
    alloc: Global,
    steps: &[Move],
    sentence: u64,
    batch: u64,
) -> Result<Vec<RevisionLine>, Fault>
    ensures lines { IfOk result (λ v. v.items ≡ lines_by 1 (makers sentence batch steps.now)) }
    ensures sure { makers sentence batch steps.now ≡ [] → IsOk result }
    ensures fault { IfErr result (λ e. e ≡ Fault.Memory) }
{
    let mut lines = Vec::new(alloc);
    let mut rev = 0u64;
    for step in steps {
        if is_maker(step, sentence, batch) {
            rev += 1;
            lines.push(line_by(alloc, rev, step)?)?;
        }
    }
    Ok(lines)
}
