//! How a search ends.

ghost use Rattle.std.specs.Prelude.{◌≡◌, ℕ, List, [], Option};
ghost use Rattle.tb_answer.specs.Prelude.{AnyStrategy, AreReleasedHits, Asked, IsPartFound, Machine, Occurrence};
ghost use Rattle.tb_answer.specs.Found.{IsStreamed, exit_of_ending, reported_of_ending};

use tb_core::Fault;
use tb_http::Status;

/// How a search ends that writes its lines as they are found.
#[derive(Clone, Copy, Debug, PartialEq, Eq)]
pub enum Ending {
    /// It wrote its last line, which says that there are so many hits.
    Whole(u64),
    /// The store or memory failed before the last line.
    BrokenOff,
    /// The sink refused a piece.
    Refused,
}

/// How a search with this fault ends.
pub(crate) fn ending_of(fault: Fault) -> Ending
    ensures streamed { (s : Machine) (q : Asked) (strategy : AnyStrategy) (n : ℕ) (old new : Option (List ℕ))
        → ((found : List Occurrence) → AreReleasedHits s q strategy found → IsPartFound fault old new n found)
        → IsStreamed s q strategy n [] old new result }
    ensures refused { result ≡ Ending.Refused → fault ≡ Fault.Output }
{
    match fault {
        Fault::Output => Ending::Refused,
        Fault::Refused(_) | Fault::Memory | Fault::Device | Fault::NotADesk => Ending::BrokenOff,
    }
}

/// The exit status of a search.
pub(crate) fn exit_of(ending: Ending) -> u8
    ensures { result ≡ exit_of_ending ending }
{
    match ending {
        Ending::Whole(_) => 0,
        Ending::BrokenOff | Ending::Refused => 3,
    }
}

/// The status of a search over HTTP, or none where the sink refused a piece.
pub(crate) fn reported_of(ending: Ending) -> Option<Status>
    ensures { result ≡ reported_of_ending ending }
{
    match ending {
        Ending::Whole(_) | Ending::BrokenOff => Some(Status::Ok),
        Ending::Refused => None,
    }
}
