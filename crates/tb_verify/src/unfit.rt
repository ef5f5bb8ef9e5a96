//! Why rows cannot be read back.

ghost use Rattle.std.specs.Prelude.{◌≡◌, ◌++◌, ◌∷◌, [], true, false, IfErr, OnOk};
ghost use Rattle.tb_verify.specs.Unfit.{unfit_of_reading, unfit_of_rules};
ghost use Rattle.tb_verify.specs.declared.unfit.Unfit.TheVariants.{Memory, NotADesk};

use std::alloc::AllocError;
use tb_conllu::ReadFault;
use tb_rules::RuleFault;

/// Why rows cannot be read back.
#[derive(Clone, Copy, Debug, PartialEq, Eq)]
pub enum Unfit {
    /// The rows are not those of a desk.
    NotADesk,
    /// Memory ran out.
    Memory,
}

impl From<ReadFault> for Unfit {
    ghost from_gives = { λ fault e. e ≡ unfit_of_reading fault };

    fn from(fault: ReadFault) -> Self {
        match fault {
            ReadFault::At { .. } => Unfit::NotADesk,
            ReadFault::Memory => Unfit::Memory,
        }
    }
}

impl From<RuleFault> for Unfit {
    ghost from_gives = { λ fault e. e ≡ unfit_of_rules fault };

    fn from(fault: RuleFault) -> Self {
        match fault {
            RuleFault::At { .. } => Unfit::NotADesk,
            RuleFault::Memory => Unfit::Memory,
        }
    }
}

impl From<AllocError> for Unfit {
    ghost from_gives = { λ _ e. e ≡ Memory };

    fn from(_: AllocError) -> Self {
        Unfit::Memory
    }
}

/// Nothing where the rows are right, and `NotADesk` where they are not. This needs no memory.
pub(crate) fn fit(are_right: bool) -> Result<(), Unfit>
    ensures right { OnOk result (are_right ≡ true) }
    ensures wrong { IfErr result (λ e. (e ≡ NotADesk) × (are_right ≡ false)) }
{
    if !are_right {
        return Err(Unfit::NotADesk);
    }
    Ok(())
}

/// Appends to the list. What does not fit into memory is let go.
pub(crate) fn push<T: Drop>(list: &mut Vec<T>, next: T) -> Result<(), AllocError>
    ensures items { OnOk result (list.new.items ≡ list.old.items ++ next ∷ []) }
{
    list.push(next)?;
    Ok(())
}
