//! Laws of the machine. Each function states a fact about the definitions, and runs nothing.

ghost use Rattle.std.specs.Prelude.{◌≡◌, ◌+◌, ◌≤◌, ℕ, List, [], ◌∷◌, length, true};
ghost use Rattle.std.specs.List.{AllByRecursion};
ghost use Rattle.tb_conllu.specs.Text.{BlockText, text_of};
ghost use Rattle.tb_conllu.specs.Reported.{IsFile};
ghost use Rattle.tb_rules.specs.File.{IsValid};
ghost use Rattle.tb_core.specs.declared.kinds.State.{State};
ghost use Rattle.tb_core.specs.declared.kinds.State.TheVariants.{Opened, Assigned, Submitted, Adjudicated, Released};
ghost use Rattle.tb_core.specs.declared.kinds.State.TheVariants.{Withdrawn};
ghost use Rattle.tb_core.specs.declared.limits.Limits.{Limits};
ghost use Rattle.tb_core.specs.declared.sums.Totals.{Totals};
ghost use Rattle.tb_core.specs.Acts.{Act, IsAllowed, after, move_of};
ghost use Rattle.tb_core.specs.Names.{is_name};
ghost use Rattle.tb_core.specs.Machine.{Machine, Sentence, one, rev, bodies_of};
ghost use Rattle.tb_core.specs.Reaching.{Reached, Later, IsReachable};
ghost use Rattle.tb_core.specs.Commands.{Command, import_file, correct, Reply, Answer, replied, HasSentence};
ghost use Rattle.tb_core.specs.Steps.{Steps};
ghost use Rattle.tb_core.specs.Keeping.{IsWell, Extends};
ghost use Rattle.tb_core.specs.Rows.{rows_of};
ghost use Rattle.tb_core.specs.Totals.{IsNet, total, Takes, IsApplied, AreTotalsOf};

use tb_conllu::{one_fault_is_reported, one_list_has_a_text};
use tb_rules::one_sentence_is_reported;

/// What every reached state keeps.
///
/// Names and `sent_id`s are unique. Each sentence is in one batch. Nobody works on an open or withdrawn batch. Each
/// revision of a sentence keeps the rules, with one `sent_id` and one `text`.
pub fn reached_states_are_well()
    ensures { (s : Machine) → Reached s → IsWell s }
{}

/// Nothing is lost. A later state has all names of batches, all sentences with their `sent_id`s, batches and revisions,
/// and all moves, each at the same place. More may follow.
pub fn later_states_extend()
    ensures { (s t : Machine) → Later s t → Extends s t }
{}

/// In every reached state the total of each of the six states is the net of the moves.
pub fn totals_are_nets()
    ensures { (s : Machine) (st : State) → Reached s → IsNet s st }
{}

/// Each sentence is in one of the six states.
pub fn each_sentence_is_in_one_state()
    ensures { (s : Machine)
        → total one s Opened + total one s Assigned + total one s Submitted + total one s Adjudicated
        + total one s Released + total one s Withdrawn ≡ length s.sentences }
{}

/// Each revision of a reached state is a valid sentence, and its text reads back as this sentence and nothing else.
pub fn revisions_read_back()
    ensures { (s : Machine) → Reached s → AllByRecursion (λ (x : Sentence). AllByRecursion
        (λ (b : BlockText). IsValid (b ∷ []) × IsFile (text_of (b ∷ [])) (b ∷ []) × ((bs : List BlockText)
        → IsFile (text_of (b ∷ [])) bs → bs ≡ b ∷ [])) (bodies_of x)) s.sentences }
{
    one_list_has_a_text();
}

/// Two reached states with the same rows are equal.
pub fn rows_tell_the_state()
    ensures { (s t : Machine) → Reached s → Reached t → rows_of s ≡ rows_of t → s ≡ t }
{
    one_list_has_a_text();
}

/// A command leads to a later state, or to the same one.
pub fn commands_lead_on()
    ensures { (l : Limits) (s t : Machine) (c : Command) (a : Answer) → Steps l s c a t → Later s t }
{}

/// Under limits of at most 1,000,000 sentences and 1,000,000,000 moves, a command keeps a state within the largest
/// limits.
pub fn commands_stay_within_limits()
    ensures { (l : Limits) (s t : Machine) (c : Command) (a : Answer) → l.sentences ≤ 1000000
        → l.moves ≤ 1000000000 → IsReachable s → Steps l s c a t → IsReachable t }
{}

/// An import that had a reply may be sent again in any later state, by anyone with a good name. It has the same reply
/// and changes nothing.
pub fn imports_repeat()
    ensures { (l k : Limits) (s t u : Machine) (name user other body : List ℕ) (r : Reply) → Reached s
        → Steps l s (import_file name user body) (replied r) t → Later t u → is_name other ≡ true
        → Steps k u (import_file name other body) (replied r) u }
{}

/// A correction that had a reply may be sent again by its user while its revision is current. It has the same reply and
/// changes nothing.
pub fn corrections_repeat()
    ensures { (l k : Limits) (s t u : Machine) (n base : ℕ) (user body : List ℕ) (r : Reply) (place : ℕ)
        (y : Sentence) → Steps l s (correct n base user body) (replied r) t → Later t u → HasSentence u n place y
        → rev y ≡ base + 1 → Steps k u (correct n base user body) (replied r) u }
{}

/// A command has one answer in a reached state, and one state after it.
pub fn each_command_ends_one_way()
    ensures { (l : Limits) (s t u : Machine) (c : Command) (a b : Answer) → Reached s → Steps l s c a t
        → Steps l s c b u → (a ≡ b) × (t ≡ u) }
{
    one_list_has_a_text();
    one_fault_is_reported();
    one_sentence_is_reported();
}

/// In any state, each command has an answer.
pub fn each_command_ends()
    ensures { (l : Limits) (s : Machine) (c : Command) → ((a : Answer) (t : Machine) → Steps l s c a t
        → ⊥) → ⊥ }
{}

/// Stored totals of a state can take the move of each accepted command, as long as the next state is within the largest
/// limits.
pub fn stored_totals_take_moves()
    ensures { (s : Machine) (a : Act) (t : Totals) → IsReachable s → IsAllowed s a → IsReachable (after s a)
        → AreTotalsOf t s → Takes t (move_of s a) }
{}

/// Once the move is made, they are the totals of the next state.
pub fn stored_totals_hold()
    ensures { (s : Machine) (a : Act) (t u : Totals) → Reached s → IsAllowed s a → AreTotalsOf t s
        → IsApplied t u (move_of s a) → AreTotalsOf u (after s a) }
{}
