//! Faults of bodies, as a desk reports them.

ghost use Rattle.std.specs.Prelude.{◌≡◌, ◌⊎◌, List};
ghost use Rattle.tb_conllu.specs.Fault.{IsFaultAfter};
ghost use Rattle.tb_conllu.specs.Text.{BlockText};
ghost use Rattle.tb_conllu.specs.Reported.{IsFile};
ghost use Rattle.tb_conllu.specs.declared.fault.ReadFault.{ReadFault};
ghost use Rattle.tb_core.specs.Taking.{fault_of_reading, fault_of_rules};

use crate::refusals::{Fault, Refusal};
use std::alloc::Global;
use tb_conllu::{ReadFault, Sentences};
use tb_rules::FileFault;

impl From<ReadFault> for Fault {
    ghost from_gives = { λ fault e. e ≡ fault_of_reading fault };

    fn from(fault: ReadFault) -> Self {
        match fault {
            ReadFault::At { line, code } => Fault::Refused(Refusal::Read(line as u64, code)),
            ReadFault::Memory => Fault::Memory,
        }
    }
}

impl From<FileFault> for Fault {
    ghost from_gives = { λ fault e. e ≡ fault_of_rules fault };

    fn from(fault: FileFault) -> Self {
        match fault {
            FileFault::At {
                sentence,
                rule,
                row,
            } => Fault::Refused(Refusal::Rule(sentence as u64, rule, row as u64)),
            FileFault::Memory => Fault::Memory,
        }
    }
}

/// The fault of a body in which a sentence breaks a rule. A line further on that cannot be read comes first.
pub(crate) fn reported_first(alloc: Global, unread: &mut Sentences<'_>, broken: FileFault) -> Fault
    ensures { ((bs : List BlockText) × IsFile unread.old.rest bs × (result ≡ fault_of_rules broken))
        ⊎ ((fault : ReadFault) × IsFaultAfter unread.old.line unread.old.rest fault
        × (result ≡ fault_of_reading fault)) }
{
    match unread.read_rest(alloc) {
        Ok(()) => Fault::from(broken),
        Err(fault) => Fault::from(fault),
    }
}
