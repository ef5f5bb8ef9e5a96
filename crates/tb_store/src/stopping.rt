//! Why a walk over the sentences of a desk ended early.

ghost use Rattle.std.specs.Prelude.{◌≡◌, ◌≢◌, ℕ, List, Option};
ghost use Rattle.tb_store.specs.Prelude.{AnyRefusal, IsCutShort, IsFault, IsNoDevice, IsSearchBrokenOff, IsStopFault};
ghost use Rattle.tb_store.specs.Prelude.{IsStopWant, Occurrence, Sentence};
ghost use Rattle.tb_store.specs.Exports.{IsExportBrokenOff, fault_of_stop};
ghost use Rattle.tb_store.specs.Found.{IsPartFound};
ghost use Rattle.tb_store.specs.Walked.{ReportsWalk};

use tb_core::Fault;
use tb_refine::faults;
use tb_search::Stopped;

/// Why a walk ended early, as a fault.
///
/// It is `NotADesk` only where rows or texts are not those of a desk, or for an error that is no fault of the store.
pub(crate) fn fault_of(stopped: Stopped) -> Fault
    ensures left { (old new : Option (List ℕ)) (xs : List Sentence) → IsCutShort stopped old new xs
        → IsExportBrokenOff result old new xs }
    ensures found { (old new : Option (List ℕ)) (n : ℕ) (xs : List Occurrence)
        → IsSearchBrokenOff stopped old new n xs → IsPartFound result old new n xs }
    ensures never_refuses { (r : AnyRefusal) → result ≢ Fault.Refused r }
    ensures output { result ≡ Fault.Output → stopped ≡ Stopped.Output }
    ensures fails { IsFault stopped → IsStopFault stopped → result ≢ Fault.NotADesk }
    ensures cause { IsStopWant stopped → IsNoDevice result }
    ensures value { result ≡ fault_of_stop stopped }
{
    match stopped {
        Stopped::Read(error) => faults::of_read(error),
        Stopped::Output => Fault::Output,
    }
}

/// A walk, with the fault for its early end.
pub(crate) fn reported_walk<T>(walk: Result<T, Stopped>) -> Result<T, Fault>
    ensures { ReportsWalk walk result }
{
    match walk {
        Ok(found) => Ok(found),
        Err(stopped) => Err(fault_of(stopped)),
    }
}
