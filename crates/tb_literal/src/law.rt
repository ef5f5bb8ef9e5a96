//! A law of literals.

ghost use Rattle.std.specs.Prelude.{◌⊎◌, ℕ, List};
ghost use Rattle.tb_syntax.specs.declared.lexeme.Flag.{Flag};
ghost use Rattle.tb_literal.specs.Literals.{IsAccepted};

/// A text is accepted as a literal with a flag, or it is not.
pub fn a_literal_is_accepted_or_refused()
    ensures { (flag : Flag) (text : List ℕ) → IsAccepted flag text ⊎ (IsAccepted flag text → ⊥) }
{}
