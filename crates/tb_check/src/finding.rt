//! Finds the faults of a file.

ghost use Rattle.std.specs.Prelude.{◌≡◌, ◌<◌, ◌++◌, [], IfErr, IfOk, IsOk, List, OnOk, length, map, take};
ghost use Rattle.tb_conllu.specs.Fault.{IsReadFault, MayWantMemory};
ghost use Rattle.tb_conllu.specs.FaultyLines.{AreFaultyLines};
ghost use Rattle.tb_conllu.specs.Reported.{IsFile};
ghost use Rattle.tb_conllu.specs.Text.{BlockText};
ghost use Rattle.tb_conllu.specs.declared.fault.ReadFault.TheVariants.{Memory};
ghost use Rattle.tb_conllu.specs.declared.faulty.FaultyLine.{FaultyLine};
ghost use Rattle.tb_check.specs.Faults.{AreFaults, AreSentenceFaults, at_line, in_sentence};
ghost use Rattle.tb_check.specs.declared.fault.Fault.{Fault};

use crate::fault::Fault;
use std::alloc::{AllocError, Global};
use tb_conllu::{
    FaultyLine, ReadFault, Sentences, a_file_is_read_in_order, faulty_lines, push_within,
    reported_bytes_are_no_file,
};
use tb_rules::{BrokenRule, Examiner};

/// The same lines as faults of their file.
fn listed(alloc: Global, lines: &[FaultyLine]) -> Result<Vec<Fault>, AllocError>
    ensures same { IfOk result (λ v. v.items ≡ map at_line lines.now) }
    ensures sure { lines.now ≡ [] → IsOk result }
{
    let mut found = Vec::new(alloc);
    for faulty in lines {
        found.push(Fault::Line {
            line: faulty.line,
            code: faulty.code,
        })?;
    }
    Ok(found)
}

/// The first faulty lines of a file, at most so many.
fn line_faults(alloc: Global, bytes: &[u8], most: usize) -> Result<Vec<Fault>, AllocError>
    ensures { IfOk result (λ v. (lines : List FaultyLine) × AreFaultyLines bytes.now lines
        × (v.items ≡ take most (map at_line lines))) }
{
    let lines = faulty_lines(alloc, bytes, most)?;
    listed(alloc, &lines)
}

/// Adds the rules that a sentence breaks, while the faults are fewer than `most`.
fn push_broken(
    found: &mut Vec<Fault>,
    sentence: usize,
    broken: &[BrokenRule],
    most: usize,
) -> Result<(), AllocError>
    ensures pushed { OnOk result ((all : List Fault) → found.old.items ≡ take most all
        → found.new.items ≡ take most (all ++ map (in_sentence sentence) broken.now)) }
    ensures sure { broken.now ≡ [] → IsOk result }
{
    for fault in broken {
        push_within(
            found,
            Fault::Rule {
                sentence,
                rule: fault.rule,
                row: fault.row,
            },
            most,
        )?;
    }
    Ok(())
}

/// The first rules that the sentences of a file break, at most so many.
///
/// # Errors
///
/// The bytes are no file, or memory was refused.
fn sentence_faults(alloc: Global, bytes: &[u8], most: usize) -> Result<Vec<Fault>, ReadFault>
    ensures found { IfOk result (λ v. (bs : List BlockText) × (all : List Fault) × IsFile bytes.now bs
        × AreSentenceFaults [] bs all × (v.items ≡ take most all)) }
    ensures fault { IfErr result (IsReadFault bytes.now) }
    ensures memory { IfErr result (λ e. e ≡ Memory → MayWantMemory bytes.now) }
{
    // law: what was read is the first part of the file, and a fault of the rest is the file's
    a_file_is_read_in_order();
    let mut unread = Sentences::new(bytes);
    let mut examiner = Examiner::new(alloc);
    let mut found = Vec::new(alloc);
    let mut sentence = 0;
    while let Some(block) = unread.read_next(alloc)? {
        sentence += 1;
        let broken = examiner.take(&block)?;
        push_broken(&mut found, sentence, &broken, most)?;
    }
    Ok(found)
}

/// The first faults of a file, at most so many, in order.
///
/// Of a file that can be read they are the rules that each sentence breaks. Of any other they are its faulty lines. One
/// sentence at a time is in memory, and the names of all. The file is read to its end.
///
/// # Errors
///
/// Memory was refused, which comes only where there is a byte.
pub fn faults_of(alloc: Global, bytes: &[u8], most: usize) -> Result<Vec<Fault>, AllocError>
    ensures found { IfOk result (λ v. (all : List Fault) × AreFaults bytes.now all × (v.items ≡ take most all)) }
    ensures memory { IfErr result (λ _. 0 < length bytes.now) }
{
    // law: bytes with a fault are no file
    reported_bytes_are_no_file();
    match sentence_faults(alloc, bytes, most) {
        Ok(found) => Ok(found),
        Err(ReadFault::At { .. }) => line_faults(alloc, bytes, most),
        Err(ReadFault::Memory) => Err(AllocError),
    }
}
