//! What the next run adopts of a desk that a command left, whatever its answer.

ghost use Rattle.std.specs.Prelude.{◌≡◌, IsTrue};
ghost use Rattle.tb_core.specs.Commands.{Command};
ghost use Rattle.tb_store.specs.Prelude.{Image, IsClean, IsDeskOf, IsWithin, Machine, over_files, state, view};
ghost use Rattle.tb_store.specs.Kept.{Kept};
ghost use Rattle.tb_store.specs.Represents.{Represents};
ghost use Rattle.tb_store.specs.Calls.{CrashesWhole, LeavesOnly};
ghost use Rattle.tb_store.specs.GivenUp.{IsGivenUp};
ghost use Rattle.tb_store.specs.Reopened.{IsBeforeOrAfter, IsOpenedOver, StoreMayLeave};

use crate::desk::Desk;
use sqlite::{Alter, Connection, FileStore};
use sqlite_disk::Disk;
use tb_core::commands_stay_within_limits;
use tb_refine::one_state_for_the_file;

/// Each desk that represents a state leaves its tables to a crash, and nothing else.
fn desks_are_left_whole<S: Alter>(_desk: &Desk<S>)
    ensures { (d : Kept S) (s : Machine) → Represents S.Store d s → LeavesOnly S.Store d s }
{}

/// The limits of a desk are within those of any.
fn limits_are_within<S: Alter>(desk: &Desk<S>)
    ensures { IsWithin desk.now.limits }
{
    let _limits = desk.limits;
}

/// While the store is open, a crash leaves the trees of the last commit and nothing else.
fn leaves_the_last_commit<S: Alter>(_conn: &Connection<S>)
    ensures { (db : _) → IsTrue (state S.Store _conn.now).is_open → (state S.Store _conn.now).may_leave db
        → db ≡ (state S.Store _conn.now).committed.trees }
{}

/// Gives a desk up without a close. It is over any store, where each call costs the prover less than over files.
fn given_up<S: Alter + Drop>(desk: Desk<S>) -> S
    ensures { IsGivenUp S.Store desk result }
{
    limits_are_within(&desk);
    desks_are_left_whole(&desk);
    let conn = desk.into_connection();
    let _schema = conn.schema();
    leaves_the_last_commit(&conn);
    conn.into_store()
}

/// The same of a desk in a file. Its callers need no other call over files, each of which costs the prover much.
pub(crate) fn given_up_in_file<D: Disk + Drop>(desk: Desk<FileStore<D>>) -> FileStore<D>
    ensures { IsGivenUp over_files desk result }
{
    given_up(desk)
}

/// What a crash leaves of a command is a desk to the next run: of the state before it, or of one in which it ends.
///
/// `desk` is what a command left of the desk `old` in a file, whatever its answer; the store may be shut. `left` is any
/// files that a crash may leave of the store, which is returned. A connection that the next run opens over `left` has
/// the tables and the schema of such a state, so `Desk::adopt` gives its desk. The desk is given up without a close.
pub fn stopped_in_a_command<D: Disk + Drop, E: Disk>(
    desk: Desk<FileStore<D>>,
    _next: &Connection<FileStore<E>>,
) -> FileStore<D>
    ensures adopted { (old : _) (command : Command) (s : Machine) (left : Image)
        → CrashesWhole over_files old desk command → Represents over_files old s → desk.limits ≡ old.limits
        → IsClean (view result) → StoreMayLeave result left → IsOpenedOver left _next.now
        → ∥ ((r : Machine) × IsDeskOf over_files _next.now r
        × IsBeforeOrAfter old.limits s command r) ∥₁ }
    ensures one { (old : _) (command : Command) (s r : Machine) (left : Image)
        → CrashesWhole over_files old desk command → Represents over_files old s → desk.limits ≡ old.limits
        → IsClean (view result) → StoreMayLeave result left → IsOpenedOver left _next.now
        → IsDeskOf over_files _next.now r → ∥ IsBeforeOrAfter old.limits s command r ∥₁ }
{
    one_state_for_the_file();
    commands_stay_within_limits();
    given_up_in_file(desk)
}
