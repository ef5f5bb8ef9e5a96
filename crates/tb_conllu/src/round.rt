//! Reads and writes, in either order.

ghost use Rattle.std.specs.Prelude.{◌≡◌, List, IfOk, IfErr, MatchResult};
ghost use Rattle.tb_conllu.specs.Fault.{IsReadFault, MayWantMemory};
ghost use Rattle.tb_conllu.specs.Shape.{AllShaped};
ghost use Rattle.tb_conllu.specs.Text.{BlockText, text_of};
ghost use Rattle.tb_conllu.specs.Reported.{IsFile};
ghost use Rattle.tb_conllu.specs.declared.fault.ReadFault.TheVariants.{Memory};

use crate::fault::ReadFault;
use crate::rows::Block;
use crate::whole::read;
use crate::writer::write;
use std::alloc::Global;

/// Reads a file and writes it: the same bytes again.
///
/// # Errors
///
/// The file's fault, as `read` reports it, or want of memory.
pub fn rewrite(alloc: Global, bytes: &[u8]) -> Result<Vec<u8>, ReadFault>
    ensures unchanged { IfOk result (λ v. v.items ≡ bytes.now) }
    ensures reported { IfErr result (IsReadFault bytes.now) }
    ensures only { (bs : List BlockText) → IsFile bytes.now bs → IfErr result (λ e. e ≡ Memory) }
    ensures memory { IfErr result (λ e. e ≡ Memory → MayWantMemory bytes.now) }
{
    if bytes.is_empty() {
        return Ok(Vec::new(alloc));
    }
    let blocks = read(alloc, bytes)?;
    Ok(write(alloc, &blocks)?)
}

/// Writes sentences and reads them: the same sentences again, if they have the shape that the format requires.
///
/// # Errors
///
/// Memory was refused; or the fault of the text, where a sentence does not have this shape.
pub fn reread(alloc: Global, blocks: &[Block]) -> Result<Vec<Block>, ReadFault>
    ensures unchanged { AllShaped blocks.now → MatchResult result (λ v. v.items ≡ blocks.now) (λ e.
        e ≡ Memory) }
    ensures file { IfOk result (λ v. IsFile (text_of blocks.now) v.items) }
    ensures reported { IfErr result (IsReadFault (text_of blocks.now)) }
{
    if blocks.is_empty() {
        return Ok(Vec::new(alloc));
    }
    let bytes = write(alloc, blocks)?;
    read(alloc, &bytes)
}
