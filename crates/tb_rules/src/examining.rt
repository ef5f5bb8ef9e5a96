//! Examines the sentences of a file one after another, also those after a faulty one.

ghost use Rattle.std.specs.Prelude.{◌≡◌, ℕ, List, [], ◌∷◌, ◌++◌, IfOk, OnOk, OnErr, cond, false};
ghost use Rattle.tb_conllu.specs.Text.{BlockText};
ghost use Rattle.tb_rules.specs.Broken.{AreBrokenAfter, AreNames};

use crate::accepted::Accepted;
use crate::breaking::{BrokenRule, broken_of};
use crate::comments::sent_id;
use crate::names::Names;
use crate::rule::RULES;
use std::alloc::{AllocError, Global};
use std::marker::Model;
use tb_conllu::{BlockOf, Text};

/// The broken rules of a sentence, with rule 12 after them where its name is not new.
fn with_name(broken: Vec<BrokenRule>, new: bool) -> Result<Vec<BrokenRule>, AllocError>
    ensures all { IfOk result (λ v. v.items
        ≡ cond new broken.items (broken.items ++ record { rule = 12; row = 0 } ∷ [])) }
    ensures err { OnErr result (new ≡ false) }
{
    if new {
        return Ok(broken);
    }
    let mut all = broken;
    all.push(BrokenRule { rule: 12, row: 0 })?;
    Ok(all)
}

/// Examines the sentences of a file one after another. It keeps their names, and a bounded number of accepted fields.
///
/// Contracts see it as the names, in the order of their bytes.
#[derive(Drop)]
pub struct Examiner {
    alloc: Global,
    names: Names,
    accepted: Accepted,
}

impl Model for Examiner {
    ghost Value = { List (List ℕ) };

    ghost view = { λ c. c.names };
}

impl Examiner {
    /// No sentence was taken yet. Takes no memory.
    pub fn new(alloc: Global) -> Self
        ensures { AreNames result [] }
    {
        Examiner {
            alloc,
            names: Names::new(alloc),
            accepted: Accepted::new(alloc),
        }
    }

    /// Takes the next sentence. Returns the rules that it breaks, as `broken_rules` does, and rule 12 after them. That
    /// one is broken where a sentence before has its `sent_id`, at fault or not.
    ///
    /// # Errors
    ///
    /// Memory was refused. The sentence is then not taken, and no name has changed.
    pub fn take<T: Text>(&mut self, block: &BlockOf<T>) -> Result<Vec<BrokenRule>, AllocError>
        ensures broken { (before : List BlockText) → AreNames self.old before
            → IfOk result (λ v. AreBrokenAfter before block.now v.items) }
        ensures names { (before : List BlockText) → AreNames self.old before
            → OnOk result (AreNames self.new (before ++ block.now ∷ [])) }
        ensures kept { OnErr result (self.new ≡ self.old) }
    {
        let broken = broken_of(self.alloc, &mut self.accepted, block, &RULES)?;
        let Some(name) = sent_id(block) else {
            return Ok(broken);
        };
        let new = self.names.keep(self.alloc, name)?;
        with_name(broken, new)
    }
}
