//! Checks the sentences of a file one after another.

ghost use Rattle.std.specs.Prelude.{◌≡◌, ℕ, List, [], ◌∷◌, ◌++◌, OnOk, OnErr, IfErr};
ghost use Rattle.tb_conllu.specs.Text.{BlockText};
ghost use Rattle.tb_rules.specs.File.{IsValid, IsCutShort, IsFileFault, IsSentenceFault, HasTaken};
ghost use Rattle.tb_rules.specs.Rules.{HasShortLists, KeepsTo, KeepsTo6, KeepsRules};
ghost use Rattle.tb_rules.specs.declared.filefault.FileFault.TheVariants.{Memory};

use crate::accepted::Accepted;
use crate::checking::first_broken;
use crate::comments::sent_id;
use crate::fault::RuleFault;
use crate::filefault::FileFault;
use crate::names::Names;
use std::alloc::Global;
use std::marker::Model;
use tb_conllu::{BlockOf, Text};

/// Tests rules 1 to 11 of the sentence with this number.
fn check_alone<T: Text>(
    alloc: Global,
    accepted: &mut Accepted,
    block: &BlockOf<T>,
    sentence: usize,
) -> Result<(), FileFault>
    ensures valid { OnOk result (KeepsRules block.now) }
    ensures fault { IfErr result (IsSentenceFault sentence block.now) }
    ensures memory { IfErr result (λ e. e ≡ Memory → KeepsTo6 block.now) }
    ensures lists { IfErr result (λ e. e ≡ Memory → HasShortLists block.now → KeepsTo 9 block.now) }
{
    match first_broken(alloc, accepted, block) {
        Ok(()) => Ok(()),
        Err(RuleFault::At { rule, row }) => Err(FileFault::At {
            sentence,
            rule,
            row,
        }),
        Err(RuleFault::Memory) => Err(FileFault::Memory),
    }
}

/// Checks the sentences of a file one after another. It keeps their names, and a bounded number of accepted fields.
///
/// Contracts see it as the names, in the order of their bytes.
#[derive(Drop)]
pub struct Checker {
    alloc: Global,
    names: Names,
    accepted: Accepted,
}

impl Model for Checker {
    ghost Value = { List (List ℕ) };

    ghost view = { λ c. c.names };
}

impl Checker {
    /// No sentence was taken yet. Takes no memory.
    pub fn new(alloc: Global) -> Self
        ensures { HasTaken result [] }
    {
        Checker {
            alloc,
            names: Names::new(alloc),
            accepted: Accepted::new(alloc),
        }
    }

    /// Takes the next sentence. Rule 12 is tested last: no sentence before has its `sent_id`.
    ///
    /// # Errors
    ///
    /// The sentence's number in the file, with its least broken rule and its row. Or memory was refused, which comes
    /// only where the sentence keeps rules 1 to 6, or 1 to 9 where FEATS and DEPS take no memory. The sentence is then
    /// not taken, and nothing has changed.
    pub fn take<T: Text>(&mut self, block: &BlockOf<T>) -> Result<(), FileFault>
        ensures valid { (before : List BlockText) → HasTaken self.old before
            → OnOk result (HasTaken self.new (before ++ block.now ∷ [])) }
        ensures fault { (before : List BlockText) → HasTaken self.old before
            → IfErr result (IsFileFault (before ++ block.now ∷ [])) }
        ensures only { (before : List BlockText) → HasTaken self.old before → IsValid (before ++ block.now ∷ [])
            → IfErr result (λ e. e ≡ Memory) }
        ensures memory { IfErr result (λ e. e ≡ Memory → KeepsTo6 block.now) }
        ensures lists { IfErr result (λ e. e ≡ Memory → HasShortLists block.now → KeepsTo 9 block.now) }
        ensures kept { OnErr result (self.new ≡ self.old) }
    {
        let sentence = self.names.count() + 1;
        check_alone(self.alloc, &mut self.accepted, block, sentence)?;
        let Some(name) = sent_id(block) else {
            return Err(FileFault::At {
                sentence,
                rule: 1,
                row: 0,
            });
        };
        match self.names.keep(self.alloc, name) {
            Ok(true) => Ok(()),
            Ok(false) => Err(FileFault::At {
                sentence,
                rule: 12,
                row: 0,
            }),
            Err(_) => Err(FileFault::Memory),
        }
    }
}

/// Whether each sentence of a file keeps rules 1 to 11, and has a `sent_id` that none before it has.
///
/// # Errors
///
/// The first sentence that breaks a rule, counted from 1, with its least broken rule of 1 to 12. For rules 4 to 8 it
/// has the first row at fault, counted from 1; for the others row 0. Or memory was refused, which comes only at a
/// sentence that keeps rules 1 to 6.
pub fn check_all<T: Text>(alloc: Global, blocks: &[BlockOf<T>]) -> Result<(), FileFault>
    ensures valid { OnOk result (IsValid blocks.now) }
    ensures fault { IfErr result (IsFileFault blocks.now) }
    ensures only { IsValid blocks.now → IfErr result (λ e. e ≡ Memory) }
    ensures memory { IfErr result (λ e. e ≡ Memory → IsCutShort blocks.now) }
{
    let mut checker = Checker::new(alloc);
    for block in blocks {
        checker.take(block)?;
    }
    Ok(())
}
