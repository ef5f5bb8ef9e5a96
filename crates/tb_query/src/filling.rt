//! The table of which expressions hold of which words.

ghost use Rattle.std.specs.Prelude.{◌≡◌, ◌+◌, ◌<◌, ◌≤◌, ◌↔◌, ◌⊎◌, ℕ, true, length};
ghost use Rattle.std.specs.Prelude.{map, filter};
ghost use Rattle.tb_conllu.specs.Words.{is_word};
ghost use Rattle.tb_match.specs.Facts.{Holds};
ghost use Rattle.tb_query.specs.PreparedExprs.{asked};
ghost use Rattle.tb_query.specs.Meaning.{holds, HoldsAtWord, HoldsOf};

use crate::prepared::{PreparedExpr, asks};
use tb_conllu::{RowOf, Text, is_word_row};
use tb_match::Truth;

/// Enters the expression for the word, if it holds.
fn fill_cell<T: Text>(
    prepared_expr: &mut PreparedExpr<'_>,
    row: &RowOf<T>,
    expr: u16,
    word: usize,
    truth: &mut Truth,
)
    requires expr { expr < truth.old.exprs }
    requires first { 1 ≤ word }
    requires last { word ≤ truth.old.words }
    ensures unchanged { asked prepared_expr.new ≡ asked prepared_expr.old }
    ensures words { truth.new.words ≡ truth.old.words }
    ensures exprs { truth.new.exprs ≡ truth.old.exprs }
    ensures held { (e w : ℕ) → (Holds truth.new e w
        ↔ (Holds truth.old e w ⊎ ((e ≡ expr) × (w ≡ word)
        × (holds (asked prepared_expr.old) row.now ≡ true)))) }
{
    if asks(prepared_expr, row) {
        truth.set(expr, word);
    }
}

/// Enters the expression for each word of which it holds.
fn fill_row<T: Text>(
    prepared_expr: &mut PreparedExpr<'_>,
    rows: &[RowOf<T>],
    expr: u16,
    truth: &mut Truth,
)
    requires expr { expr < truth.old.exprs }
    requires words { truth.old.words ≡ length (filter is_word rows.now) }
    ensures unchanged { asked prepared_expr.new ≡ asked prepared_expr.old }
    ensures words { truth.new.words ≡ truth.old.words }
    ensures exprs { truth.new.exprs ≡ truth.old.exprs }
    ensures held { (e w : ℕ) → (Holds truth.new e w
        ↔ (Holds truth.old e w ⊎ ((e ≡ expr) × HoldsAtWord (asked prepared_expr.old)
        (filter is_word rows.now) w))) }
{
    let mut word = 0;
    for row in rows {
        if !is_word_row(row) {
            continue;
        }
        word += 1;
        fill_cell(prepared_expr, row, expr, word, truth);
    }
}

/// Enters each expression for each word of which it holds.
pub(crate) fn fill<T: Text>(
    prepared_exprs: &mut [PreparedExpr<'_>],
    rows: &[RowOf<T>],
    truth: &mut Truth,
)
    requires none { (e w : ℕ) → Holds truth.old e w → ⊥ }
    requires exprs { truth.old.exprs ≡ length prepared_exprs.old }
    requires few { truth.old.exprs ≤ 32 }
    requires words { truth.old.words ≡ length (filter is_word rows.now) }
    ensures unchanged { map asked prepared_exprs.new ≡ map asked prepared_exprs.old }
    ensures words { truth.new.words ≡ truth.old.words }
    ensures exprs { truth.new.exprs ≡ truth.old.exprs }
    ensures held { (e w : ℕ) → (Holds truth.new e w
        ↔ HoldsOf (map asked prepared_exprs.old) (filter is_word rows.now) e w) }
{
    for (expr, prepared_expr) in prepared_exprs.iter_mut().enumerate() {
        fill_row(prepared_expr, rows, expr as u16, truth);
    }
}
