//! The names of the sentences that were taken.

ghost use Rattle.std.specs.Prelude.{◌≡◌, ℕ, ◌+◌, ◌<◌, ◌^◌, List, [], IfOk, OnOk, OnErr, bytes_eq, cond, length, map};
ghost use Rattle.std.specs.Prelude.{not, string_bytes, true};
ghost use Rattle.std.specs.Bool.{OnFalse};
ghost use Rattle.std.specs.List.{list_any};

use std::alloc::{AllocError, Global};
use std::collections::BTreeSet;
use std::marker::Model;

/// The names of sentences, each once.
///
/// Contracts see it as the names, in the order of their bytes.
#[derive(Drop)]
pub struct Names {
    // A tree, not a hash table: no file can make its names collide.
    set: BTreeSet<String>,
}

impl Model for Names {
    ghost Value = { List (List ℕ) };

    ghost view = { λ n. map string_bytes n.set.keys };
}

impl Names {
    /// No name yet. Takes no memory.
    pub fn new(alloc: Global) -> Self
        ensures { result ≡ [] }
    {
        Names {
            set: BTreeSet::new(alloc),
        }
    }

    /// How many names there are.
    pub fn count(&self) -> usize
        ensures count { result ≡ length self.now }
        ensures small { result < 2 ^ 63 }
    {
        self.set.len()
    }

    /// Keeps a name. Returns whether it is new. Where it is not, and after an `Err`, nothing has changed.
    ///
    /// # Errors
    ///
    /// Memory was refused.
    pub fn keep(&mut self, alloc: Global, name: &str) -> Result<bool, AllocError>
        ensures new { IfOk result (λ new. list_any (bytes_eq name.now) self.old ≡ not new) }
        ensures known { OnOk result ((q : List ℕ) → list_any (bytes_eq q) self.new
            ≡ cond (bytes_eq name.now q) true (list_any (bytes_eq q) self.old)) }
        ensures count { IfOk result (λ new. length self.new ≡ length self.old + cond new 1 0) }
        ensures same { IfOk result (λ new. OnFalse new (self.new ≡ self.old)) }
        ensures err { OnErr result (self.new ≡ self.old) }
    {
        let owned = String::from_str(alloc, name)?;
        let Ok(new) = self.set.insert(owned) else {
            return Err(AllocError);
        };
        Ok(new)
    }
}
