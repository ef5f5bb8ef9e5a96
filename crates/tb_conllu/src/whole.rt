//! Reads whole files.

ghost use Rattle.std.specs.Prelude.{◌≡◌, List, IfOk, IfErr, MatchResult};
ghost use Rattle.tb_conllu.specs.Fault.{IsReadFault, MayWantMemory};
ghost use Rattle.tb_conllu.specs.Text.{BlockText};
ghost use Rattle.tb_conllu.specs.Reported.{IsFile};
ghost use Rattle.tb_conllu.specs.declared.fault.ReadFault.TheVariants.{Memory};

use crate::fault::ReadFault;
use crate::owned::own_block;
use crate::rows::{Block, BlockRef};
use crate::sentences::Sentences;
use std::alloc::Global;

/// The sentences of a file, which borrow their texts.
///
/// # Errors
///
/// The first line after which no continuation is a file, with its least code. This is 1 to 9 at a line, or 10 where
/// only the end is at fault. Or memory was refused.
pub fn read_ref<'a>(alloc: Global, bytes: &'a [u8]) -> Result<Vec<BlockRef<'a>>, ReadFault>
    ensures file { IfOk result (λ v. IsFile bytes.now v.items) }
    ensures reported { IfErr result (IsReadFault bytes.now) }
    ensures only { (bs : List BlockText) → IsFile bytes.now bs → MatchResult result (λ v. v.items ≡ bs) (λ e.
        e ≡ Memory) }
    ensures memory { IfErr result (λ e. e ≡ Memory → MayWantMemory bytes.now) }
{
    let mut left = Sentences::new(bytes);
    let mut all: Vec<BlockRef<'a>> = Vec::new(alloc);
    while let Some(block) = left.read_next(alloc)? {
        all.push(block)?;
    }
    Ok(all)
}

/// The same as `read_ref`, but the sentences own their texts.
pub fn read(alloc: Global, bytes: &[u8]) -> Result<Vec<Block>, ReadFault>
    ensures file { IfOk result (λ v. IsFile bytes.now v.items) }
    ensures reported { IfErr result (IsReadFault bytes.now) }
    ensures only { (bs : List BlockText) → IsFile bytes.now bs → MatchResult result (λ v. v.items ≡ bs) (λ e.
        e ≡ Memory) }
    ensures memory { IfErr result (λ e. e ≡ Memory → MayWantMemory bytes.now) }
{
    let mut left = Sentences::new(bytes);
    let mut all: Vec<Block> = Vec::new(alloc);
    while let Some(block) = left.read_next(alloc)? {
        all.push(own_block(alloc, &block)?)?;
    }
    Ok(all)
}
