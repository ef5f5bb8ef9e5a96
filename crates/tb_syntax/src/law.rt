//! Laws of the language. Each function states a fact about the definitions, and runs nothing.

ghost use Rattle.std.specs.Prelude.{◌≡◌, ◌≤◌, ◌⊎◌, ℕ, List, length};
ghost use Rattle.std.specs.List.{slice_get};
ghost use Rattle.tb_match.specs.Trees.{Tree};
ghost use Rattle.tb_match.specs.Weight.{Fits};
ghost use Rattle.tb_syntax.specs.declared.expr.Literal.{Literal};
ghost use Rattle.tb_syntax.specs.declared.fault.Fault.{Fault};
ghost use Rattle.tb_syntax.specs.declared.fault.Fault.TheVariants.{Memory};
ghost use Rattle.tb_syntax.specs.declared.lexeme.Lexeme.{Lexeme};
ghost use Rattle.tb_syntax.specs.declared.lexing.Span.{Span};
ghost use Rattle.tb_syntax.specs.Grammar.{IsQuery, Query, query_text};
ghost use Rattle.tb_syntax.specs.Lexing.{Lexes, bytes_at};
ghost use Rattle.tb_syntax.specs.Reading.{IsFault, IsWrongAt};
ghost use Rattle.tb_syntax.specs.Saying.{Says};
ghost use Rattle.tb_syntax.specs.Spelling.{IsQuoted};
ghost use Rattle.tb_syntax.specs.Pattern.{Reads};
ghost use Rattle.tb_syntax.specs.Tests.{Test};

/// Lexemes have at most one derivation, and so at most one meaning.
pub fn one_reading()
    ensures derivation { (p q : Query) → query_text p ≡ query_text q → p ≡ q }
    ensures pattern { (ls : List Lexeme) (s t : Tree) (es fs : List (Test Literal)) → Reads ls s es → Reads ls t fs
        → s ≡ t }
    ensures tests { (ls : List Lexeme) (s t : Tree) (es fs : List (Test Literal)) → Reads ls s es → Reads ls t fs
        → es ≡ fs }
{}

/// A text has one list of lexemes, and each of them has one place.
pub fn one_lexing()
    ensures lexemes { (text : List ℕ) (ls ms : List Lexeme) (ss ts : List Span) → Lexes 0 0 text ls ss
        → Lexes 0 0 text ms ts → ls ≡ ms }
    ensures places { (text : List ℕ) (ls ms : List Lexeme) (ss ts : List Span) → Lexes 0 0 text ls ss
        → Lexes 0 0 text ms ts → ss ≡ ts }
{}

/// The bytes at the place of a literal are a quoted text.
pub fn literals_are_quoted()
    ensures { (text : List ℕ) (ls : List Lexeme) (ss : List Span) → Lexes 0 0 text ls ss
        → (i j : ℕ) (s : Span) →
        slice_get ls i ≡ Some (Lexeme.Quote j) → slice_get ss i ≡ Some s → (said : List ℕ)
        × IsQuoted (bytes_at text s) said }
{}

/// The bytes of a literal quote at most one text.
pub fn one_unquoting()
    ensures { (bytes s t : List ℕ) → IsQuoted bytes s → IsQuoted bytes t → s ≡ t }
{}

/// A text has at most one meaning.
pub fn one_saying()
    ensures pattern { (text : List ℕ) (t u : Tree) (es fs : List (Test Literal)) (said reported : List (List ℕ))
        → Says text t es said → Says text u fs reported → t ≡ u }
    ensures tests { (text : List ℕ) (t u : Tree) (es fs : List (Test Literal)) (said reported : List (List ℕ))
        → Says text t es said → Says text u fs reported → es ≡ fs }
    ensures literals { (text : List ℕ) (t u : Tree) (es fs : List (Test Literal)) (said reported : List (List ℕ))
        → Says text t es said → Says text u fs reported → said ≡ reported }
{}

/// A text has at most one fault, want of memory aside.
pub fn one_fault()
    ensures { (text : List ℕ) (e f : Fault) → IsFault text e → IsFault text f → (e ≡ Memory → ⊥)
        → (f ≡ Memory → ⊥) → e ≡ f }
{}

/// A text with a meaning has no fault but want of memory.
pub fn what_says_something_has_no_fault()
    ensures { (text : List ℕ) (t : Tree) (es : List (Test Literal)) (said : List (List ℕ)) (e : Fault)
        → Says text t es said → IsFault text e → e ≡ Memory }
{}

/// Each text has lexemes, with any bytes.
pub fn each_text_has_lexemes()
    ensures { (text : List ℕ) → (ls : List Lexeme) × (ss : List Span) × Lexes 0 0 text ls ss }
{}

/// Lexemes are a query, or have a first fault.
pub fn lexemes_are_a_query_or_wrong()
    ensures { (ls : List Lexeme) → IsQuery ls ⊎ ((i : ℕ) × IsWrongAt ls i) }
{}

/// A text has a meaning, or a fault that is not want of memory.
pub fn each_text_is_reported()
    ensures { (text : List ℕ) → ((t : Tree) × (es : List (Test Literal)) × (said : List (List ℕ))
        × Says text t es said) ⊎ ((e : Fault) × (e ≡ Memory → ⊥) × IsFault text e) }
{}

/// The pattern of a text can be searched for over its token expressions.
pub fn what_is_said_can_be_searched()
    ensures { (text : List ℕ) (t : Tree) (es : List (Test Literal)) (said : List (List ℕ))
        → Says text t es said →
        Fits (length es) t × (length es ≤ 32) }
{}
