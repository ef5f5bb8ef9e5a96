//! A law of the list of batches. The function states a fact about the definitions, and runs nothing.

ghost use Rattle.tb_lists.specs.Prelude.{Machine, Reached, State};
ghost use Rattle.tb_lists.specs.Batches.{AddUp};

use tb_core::reached_states_are_well;

/// The list of batches adds up to the totals of the six states.
pub fn batches_add_up()
    ensures { (s : Machine) (st : State) → Reached s → AddUp s st }
{
    reached_states_are_well();
}
