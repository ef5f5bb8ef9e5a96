//! Which expressions hold of which words.

ghost use Rattle.std.specs.Prelude.{◌≡◌, ◌+◌, ◌-◌, ◌*◌, ◌<◌, ◌≤◌, ◌↔◌, ◌⊎◌, ℕ, IfOk, IsOk, IsTrue, vec_len};
ghost use Rattle.std.specs.Prelude.{false, slice_index_or};
ghost use Rattle.tb_match.specs.Facts.{Facts, Holds};

use std::alloc::{AllocError, Global};
use std::marker::Model;

/// Which expressions hold of which words of one sentence. Expressions are numbered from 0, words from 1.
#[derive(Drop)]
pub struct Truth {
    words: usize,
    exprs: u16,
    cells: Vec<bool>,
}

impl Model for Truth {
    ghost Value = { Facts };

    ghost view = { λ t. record { words = t.words; exprs = t.exprs; cells = t.cells.items } };

    ghost invariant = { λ t. (vec_len t.cells ≡ t.exprs * t.words) × (t.words ≤ 1000) × (t.exprs ≤ 32) };
}

/// So many cells, of which none is set. No cells take no memory.
fn no_cells(alloc: Global, count: usize) -> Result<Vec<bool>, AllocError>
    ensures len { IfOk result (λ v. vec_len v ≡ count) }
    ensures none { IfOk result (λ v. (i : ℕ) → slice_index_or v.items i false ≡ false) }
    ensures sure { count ≡ 0 → IsOk result }
{
    if count == 0 {
        return Ok(Vec::new(alloc));
    }
    Ok(Vec::from_elem(alloc, false, count)?)
}

impl Truth {
    /// A table in which no expression holds of any word.
    pub fn new(alloc: Global, words: usize, exprs: u16) -> Result<Truth, AllocError>
        requires words { words ≤ 1000 }
        requires exprs { exprs ≤ 32 }
        ensures words { IfOk result (λ t. t.words ≡ words) }
        ensures exprs { IfOk result (λ t. t.exprs ≡ exprs) }
        ensures none { IfOk result (λ t. (e w : ℕ) → Holds t e w → ⊥) }
        ensures sure { exprs * words ≡ 0 → IsOk result }
    {
        let cells = no_cells(alloc, exprs as usize * words)?;
        Ok(Truth {
            words,
            exprs,
            cells,
        })
    }

    /// How many words the sentence has.
    pub fn words(&self) -> usize
        ensures count { result ≡ self.now.words }
        ensures limit { result ≤ 1000 }
    {
        self.words
    }

    /// How many expressions there are.
    pub fn exprs(&self) -> u16
        ensures count { result ≡ self.now.exprs }
        ensures limit { result ≤ 32 }
    {
        self.exprs
    }

    /// Whether the expression holds of the word.
    pub fn get(&self, expr: u16, word: usize) -> bool
        requires expr { expr < self.now.exprs }
        requires first { 1 ≤ word }
        requires last { word ≤ self.now.words }
        ensures { IsTrue result ↔ Holds self.now expr word }
    {
        self.cells[expr as usize * self.words + (word - 1)]
    }

    /// Whether the expression holds of some word.
    pub(crate) fn holds_somewhere(&self, expr: u16) -> bool
        requires { expr < self.now.exprs }
        ensures { IsTrue result ↔ ((w : ℕ) × Holds self.now expr w) }
    {
        for word in 1..self.words + 1 {
            if self.get(expr, word) {
                return true;
            }
        }
        false
    }

    /// Records that the expression holds of the word. Nothing else changes.
    pub fn set(&mut self, expr: u16, word: usize)
        requires expr { expr < self.old.exprs }
        requires first { 1 ≤ word }
        requires last { word ≤ self.old.words }
        ensures words { self.new.words ≡ self.old.words }
        ensures exprs { self.new.exprs ≡ self.old.exprs }
        ensures held { (e w : ℕ) →
            (Holds self.new e w ↔ (Holds self.old e w ⊎ ((e ≡ expr) × (w ≡ word)))) }
    {
        let cell = expr as usize * self.words + (word - 1);
        self.cells[cell] = true;
    }
}
