//! Checks sentences one after another, each by itself.

ghost use Rattle.std.specs.Prelude.{◌≡◌, OnOk, IfErr};
ghost use Rattle.tb_rules.specs.Rules.{HasShortLists, IsRuleFault, KeepsRules, KeepsTo, KeepsTo6};
ghost use Rattle.tb_rules.specs.declared.fault.RuleFault.TheVariants.{Memory};

use crate::accepted::Accepted;
use crate::checking::first_broken;
use crate::fault::RuleFault;
use std::alloc::Global;
use tb_conllu::{BlockOf, Text};

/// Checks sentences by rules 1 to 11, each by itself. It keeps a bounded number of accepted fields, so many sentences
/// take less time than by [`crate::check`].
#[derive(Drop)]
pub struct SentenceChecker {
    alloc: Global,
    accepted: Accepted,
}

impl SentenceChecker {
    /// No field was accepted yet. Takes no memory.
    pub fn new(alloc: Global) -> Self {
        SentenceChecker {
            alloc,
            accepted: Accepted::new(alloc),
        }
    }

    /// Whether the sentence keeps rules 1 to 11.
    ///
    /// # Errors
    ///
    /// Those of [`crate::check`].
    pub fn check<T: Text>(&mut self, block: &BlockOf<T>) -> Result<(), RuleFault>
        ensures valid { OnOk result (KeepsRules block.now) }
        ensures fault { IfErr result (IsRuleFault block.now) }
        ensures only { KeepsRules block.now → IfErr result (λ e. e ≡ Memory) }
        ensures memory { IfErr result (λ e. e ≡ Memory → KeepsTo6 block.now) }
        ensures lists { IfErr result (λ e. e ≡ Memory → HasShortLists block.now → KeepsTo 9 block.now) }
    {
        first_broken(self.alloc, &mut self.accepted, block)
    }
}
