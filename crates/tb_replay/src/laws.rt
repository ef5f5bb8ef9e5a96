//! Laws of the replay. Each function states a fact about the definitions, and runs nothing.

ghost use Rattle.std.specs.Prelude.{◌≡◌, ◌↔◌, ◌⊎◌};
ghost use Rattle.tb_core.specs.declared.limits.Limits.{Limits};
ghost use Rattle.tb_core.specs.Machine.{Machine, empty_machine};
ghost use Rattle.tb_core.specs.Acts.{Act};
ghost use Rattle.tb_core.specs.Commands.{Command, Answer};
ghost use Rattle.tb_core.specs.Reaching.{Reached, IsReachable, largest};
ghost use Rattle.tb_core.specs.Steps.{Steps};
ghost use Rattle.tb_replay.specs.Commanded.{MayBeDone, IsAccepted, Did, IsCommanded, IsReachedWithin};
ghost use Rattle.tb_replay.specs.Course.{Plays};
ghost use Rattle.tb_replay.specs.Fine.{AreFine};

use tb_conllu::{one_list_has_a_text, reported_bytes_are_no_file};
use tb_rules::faulty_sentences_are_not_valid;

/// A state is reached exactly where its own moves, replayed from the empty desk with its own texts, lead to it.
pub fn replay_is_exact()
    ensures { (f : Machine) → Reached f ↔ Plays f empty_machine f.moves }
{}

/// What the rows of a desk show without its moves holds of every reached state.
pub fn reached_states_are_fine()
    ensures { (f : Machine) → Reached f → AreFine f }
{}

/// In a reached state, an act is allowed and has room exactly where some command that means it is accepted.
///
/// That command has the act's reply, and the state after it is the one after the act.
pub fn acts_are_accepted_commands()
    ensures { (l : Limits) (s : Machine) (a : Act) → Reached s
        → MayBeDone l s a ↔ ((c : Command) × IsAccepted l s c a) }
{
    one_list_has_a_text();
    reported_bytes_are_no_file();
    faulty_sentences_are_not_valid();
}

/// A command changes nothing, or it does an act that it means, which was allowed and had room.
pub fn commands_do_acts()
    ensures { (l : Limits) (s t : Machine) (c : Command) (answer : Answer) → Steps l s c answer t
        → (t ≡ s) ⊎ ((a : Act) × Did l s c answer t a) }
{}

/// The states that commands lead to under any limits are the reached states within these limits. Under the largest
/// limits they are the reachable states.
pub fn commands_lead_to_reached_states()
    ensures within { (l : Limits) (s : Machine) → IsCommanded l s ↔ IsReachedWithin l s }
    ensures largest { (s : Machine) → IsCommanded largest s ↔ IsReachable s }
{
    one_list_has_a_text();
    reported_bytes_are_no_file();
    faulty_sentences_are_not_valid();
}
