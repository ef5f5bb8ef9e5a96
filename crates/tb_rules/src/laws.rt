//! Laws of valid sentences and of faults. Each function states a fact about the definitions, and runs nothing.

ghost use Rattle.std.specs.Prelude.{◌≡◌, ◌+◌, [], ◌∷◌, ◌++◌, ℕ, List, length};
ghost use Rattle.tb_conllu.specs.Text.{BlockText};
ghost use Rattle.tb_rules.specs.Broken.{AreBroken, AreBrokenAfter};
ghost use Rattle.tb_rules.specs.File.{IsValid, IsFaultAt};
ghost use Rattle.tb_rules.specs.Rules.{KeepsRules, IsBroken};
ghost use Rattle.tb_rules.specs.declared.breaking.BrokenRule.{BrokenRule};

/// A sentence that breaks a rule does not keep the rules.
pub fn a_broken_rule_is_not_kept()
    ensures { (b : BlockText) (rule row : ℕ) → IsBroken b rule row → KeepsRules b → ⊥ }
{}

/// A sentence has at most one fault: one rule, with one row.
pub fn one_rule_is_reported()
    ensures { (b : BlockText) (rule row other_rule other_row : ℕ) → IsBroken b rule row
        → IsBroken b other_rule other_row → (rule ≡ other_rule) × (row ≡ other_row) }
{}

/// Sentences with a fault are not valid.
pub fn faulty_sentences_are_not_valid()
    ensures { (bs : List BlockText) (sentence rule row : ℕ) → IsFaultAt bs sentence rule row
        → IsValid bs → ⊥ }
{}

/// The sentences of a file have at most one fault.
pub fn one_sentence_is_reported()
    ensures { (bs : List BlockText) (sentence rule row other_sentence other_rule other_row : ℕ)
        → IsFaultAt bs sentence rule row → IsFaultAt bs other_sentence other_rule other_row
        → (sentence ≡ other_sentence) × (rule ≡ other_rule) × (row ≡ other_row) }
{}

/// The fault of some sentences is the fault of each file that begins with them.
pub fn a_fault_stays()
    ensures { (bs more : List BlockText) (sentence rule row : ℕ) → IsFaultAt bs sentence rule row
        → IsFaultAt (bs ++ more) sentence rule row }
{}

/// A sentence has no broken rule exactly where it keeps the rules. Else the first one is the fault that is reported.
pub fn broken_rules_are_reported()
    ensures none { (b : BlockText) → AreBroken b [] → KeepsRules b }
    ensures first { (b : BlockText) (x : BrokenRule) (more : List BrokenRule) → AreBroken b (x ∷ more)
        → IsBroken b x.rule x.row }
{}

/// The same of a sentence that comes after valid ones.
pub fn broken_rules_of_a_file_are_reported()
    ensures none { (before : List BlockText) (b : BlockText) → IsValid before → AreBrokenAfter before b []
        → IsValid (before ++ b ∷ []) }
    ensures first { (before : List BlockText) (b : BlockText) (after : List BlockText) (x : BrokenRule)
        (more : List BrokenRule) → IsValid before → AreBrokenAfter before b (x ∷ more)
        → IsFaultAt (before ++ b ∷ after) (length before + 1) x.rule x.row }
    ensures begin { IsValid [] }
{}
