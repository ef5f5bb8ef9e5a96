//! The text of a revision, parsed back into its sentence.

ghost use Rattle.std.specs.Prelude.{◌≡◌, ◌≢◌, ◌∷◌, [], List, length, IfOk, IfErr, IsOk, Err, map, string_bytes};
ghost use Rattle.tb_verify.specs.Prelude.{AllByRecursion, BlockText, IsLawful};
ghost use Rattle.tb_verify.specs.Course.{own_text};
ghost use Rattle.tb_verify.specs.declared.unfit.Unfit.TheVariants.{NotADesk};

use crate::unfit::{Unfit, push};
use std::alloc::Global;
use tb_conllu::{BlockRef, read_ref};
use tb_rules::SentenceChecker;
use tb_tables::RevisionRow;

/// The sentence, if there is exactly one; else `NotADesk`.
fn only_of<'a>(mut blocks: Vec<BlockRef<'a>>) -> Result<BlockRef<'a>, Unfit>
    ensures one { IfOk result (λ b. blocks.entry.items ≡ b ∷ []) }
    ensures other { IfErr result (λ e. (e ≡ NotADesk) × (length blocks.entry.items ≢ 1)) }
{
    let Some(last) = blocks.pop() else {
        return Err(Unfit::NotADesk);
    };
    if !blocks.is_empty() {
        return Err(Unfit::NotADesk);
    }
    Ok(last)
}

/// The sentence that has this text and keeps rules 1 to 11.
fn sentence_in<'a>(
    alloc: Global,
    checker: &mut SentenceChecker,
    body: &'a str,
) -> Result<BlockRef<'a>, Unfit>
    ensures fine { IfOk result (λ b. IsLawful b × (own_text b ≡ body.now)) }
    ensures unfit { result ≡ Err NotADesk → (b : BlockText) → IsLawful b → own_text b ≡ body.now → ⊥ }
{
    let blocks = read_ref(alloc, body.as_bytes())?;
    let block = only_of(blocks)?;
    checker.check(&block)?;
    Ok(block)
}

/// The sentences that have these revisions' texts, in order.
pub(crate) fn sentences_in<'a>(
    alloc: Global,
    checker: &mut SentenceChecker,
    rows: &'a [RevisionRow],
) -> Result<Vec<BlockRef<'a>>, Unfit>
    ensures lawful { IfOk result (λ v. AllByRecursion IsLawful v.items) }
    ensures texts { IfOk result (λ v. map own_text v.items ≡ map (λ r. string_bytes r.body) rows.now) }
    ensures unfit { result ≡ Err NotADesk → (bs : List BlockText) → AllByRecursion IsLawful bs
        → map own_text bs ≡ map (λ r. string_bytes r.body) rows.now → ⊥ }
    ensures sure { rows.now ≡ [] → IsOk result }
{
    let mut blocks: Vec<BlockRef<'a>> = Vec::new(alloc);
    for row in rows {
        let block = sentence_in(alloc, checker, row.body.as_str())?;
        push(&mut blocks, block)?;
    }
    Ok(blocks)
}
