//! Laws of what texts ask. Each function states a fact about the definitions, and runs nothing.

ghost use Rattle.std.specs.Prelude.{◌≡◌, ◌⊎◌, ℕ, List, map};
ghost use Rattle.tb_match.specs.declared.pattern.Pat.{Pat};
ghost use Rattle.tb_match.specs.Trees.{Tree, tree};
ghost use Rattle.tb_syntax.specs.declared.expr.Literal.{Literal};
ghost use Rattle.tb_syntax.specs.Saying.{Says};
ghost use Rattle.tb_syntax.specs.Tests.{Test, literals_of};
ghost use Rattle.tb_literal.specs.Literals.{PlainLit};
ghost use Rattle.tb_query.specs.declared.fault.QueryFault.{QueryFault};
ghost use Rattle.tb_query.specs.declared.fault.QueryFault.TheVariants.{Memory};
ghost use Rattle.tb_query.specs.Reading.{IsFault, IsQuery, Reads, with_texts};
ghost use Rattle.tb_query.specs.Search.{Asked, IsSearchable};

use tb_literal::a_literal_is_accepted_or_refused;
use tb_match::what_fits_is_a_pattern;
use tb_syntax::{
    one_fault, one_saying, what_is_said_can_be_searched, what_says_something_has_no_fault,
};

/// A text reads as at most one pattern, over one list of token expressions.
pub fn a_text_has_one_reading()
    ensures pattern { (text : List ℕ) (t u : Tree) (ts us : List (Test PlainLit)) → Reads text t ts
        → Reads text u us → t ≡ u }
    ensures tests { (text : List ℕ) (t u : Tree) (ts us : List (Test PlainLit)) → Reads text t ts
        → Reads text u us → ts ≡ us }
{
    one_saying();
}

/// A text asks at most one thing: two readings of it have the same pattern over the same tests.
pub fn a_text_asks_one_thing()
    ensures { (text : List ℕ) (q r : Asked) → IsQuery text q → IsQuery text r → q ≡ r }
{
    a_text_has_one_reading();
}

/// A text that is a query has no fault but want of memory.
pub fn a_query_has_no_fault()
    ensures { (text : List ℕ) (q : Asked) (e : QueryFault) → IsQuery text q → IsFault text e → e ≡ Memory }
{
    a_text_has_one_reading();
    what_says_something_has_no_fault();
}

/// A text has at most one fault, want of memory aside.
pub fn a_text_has_one_fault()
    ensures { (text : List ℕ) (e f : QueryFault) → IsFault text e → IsFault text f → (e ≡ Memory → ⊥)
        → (f ≡ Memory → ⊥) → e ≡ f }
{
    a_text_has_one_reading();
    what_says_something_has_no_fault();
    one_fault();
}

/// The literals of the token expressions, one after another, are the literals of the text.
pub fn literals_are_in_order()
    ensures { (text : List ℕ) (t : Tree) (es : List (Test Literal)) (said : List (List ℕ))
        → Says text t es said →
        map (λ (l : PlainLit). l.text) (literals_of (map (with_texts said) es)) ≡ said }
{}

/// A text is a query that can be searched for, with a pattern of the matcher's, or has a fault that is not want of
/// memory.
pub fn each_text_is_reported()
    ensures { (text : List ℕ) → ((q : Asked) × (p : Pat) × (tree p ≡ q.pat) × IsQuery text q × IsSearchable q)
        ⊎ ((e : QueryFault) × (e ≡ Memory → ⊥) × IsFault text e) }
{
    a_literal_is_accepted_or_refused();
    what_is_said_can_be_searched();
    what_fits_is_a_pattern();
    tb_syntax::each_text_is_reported();
}
