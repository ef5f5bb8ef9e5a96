//! Laws of the bytes that a hit needs.

ghost use Rattle.std.specs.Prelude.{◌≡◌, ℕ, List, [], ◌∷◌, ◌++◌, true, Some};
ghost use Rattle.std.specs.List.{AllByRecursion, slice_get};
ghost use Rattle.tb_conllu.specs.Shape.{IsRowShaped};
ghost use Rattle.tb_conllu.specs.Text.{BlockText, text_of};
ghost use Rattle.tb_match.specs.declared.strategy.Strategy.{Strategy as AnyStrategy};
ghost use Rattle.tb_literal.specs.Literals.{PlainLit};
ghost use Rattle.tb_syntax.specs.declared.lexeme.Attr.{Attr as AnyAttr};
ghost use Rattle.tb_syntax.specs.Tests.{Test, whole, feature};
ghost use Rattle.tb_query.specs.Search.{Asked, AreHitsIn};
ghost use Rattle.tb_prefilter.specs.Needed.{IsPlainText, Requires, IsNeeded, IsSubstring, needs};

/// What a needed expression requires of a row is required of a sentence.
pub fn a_hit_has_what_it_needs()
    ensures { (q : Asked) (e : ℕ) (t : Test PlainLit) (needle : List ℕ) → slice_get q.tests e ≡ Some t
        → needs q.pat e ≡ true → Requires t needle → IsNeeded q needle }
{}

/// A value of a column is between two tabs in its row: no column of a query is the first of a row, or the last.
pub fn a_value_is_between_tabs()
    ensures { (a : AnyAttr) (l : PlainLit) → IsPlainText l → Requires (whole a l) (9 ∷ (l.text ++ 9 ∷ [])) }
{}

/// A feature is in its row.
pub fn a_feature_is_in_its_row()
    ensures { (l : PlainLit) → IsPlainText l → Requires (feature l) l.text }
{}

/// Where bytes that the query needs are not in a sentence's text, it has no hit.
pub fn no_needle_no_hit()
    ensures { (s : AnyStrategy) (q : Asked) (b : BlockText) (needle : List ℕ) → IsNeeded q needle
        → AllByRecursion IsRowShaped b.rows → (IsSubstring needle (text_of (b ∷ [])) → ⊥)
        → AreHitsIn s q b [] }
{}
