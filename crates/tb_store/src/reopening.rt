//! What the next run finds of a desk after a crash.

ghost use Rattle.tb_store.specs.Prelude.{Image, IsClean, IsDeskOf, Machine, over_files, view};
ghost use Rattle.tb_store.specs.Represents.{Represents};
ghost use Rattle.tb_store.specs.Reopened.{MayLeaveFiles, IsOpenedOver};

use crate::desk::Desk;
use crate::desk::resuming::given_up_in_file;
use sqlite::{Connection, FileStore};
use sqlite_disk::Disk;

/// A crash leaves the desk to the next run.
///
/// `desk` is in a file and represents a state, and `left` is any files that a crash may leave of it. A connection that
/// the next run opens over `left` has the tables and the schema of this state. `Desk::adopt` then gives a desk that
/// represents it. The desk is given up without a close, and the store is returned.
pub fn left_to_the_next_run<D: Disk + Drop, E: Disk>(
    desk: Desk<FileStore<D>>,
    _next: &Connection<FileStore<E>>,
) -> FileStore<D>
    ensures { (s : Machine) (left : Image) → Represents over_files desk s → IsClean (view result)
        → MayLeaveFiles desk.conn left → IsOpenedOver left _next.now
        → ∥ IsDeskOf over_files _next.now s ∥₁ }
{
    given_up_in_file(desk)
}
