//! Waits for a file that another command has open.

ghost use Rattle.std.specs.Prelude.{◌≡◌, ◌⊎◌, ◌↔◌, ◌≤◌, ◌<◌, List, IsTrue, IfErr, IfOk, MatchResult, None, Some};
ghost use Rattle.std.specs.Prelude.{false, true};
ghost use Rattle.std.specs.Duration.{as_nanos};
ghost use Rattle.std.specs.Result.{result_err};
ghost use Rattle.tb_host.specs.Awaiting.{Call, HasWaited, IsVainWait, IsWait, Makes};
ghost use Rattle.tb_host.specs.Causes.{IsPathCause, IsSystemCause};
ghost use Rattle.tb_host.specs.Patience.{IsPause, milliseconds};

use crate::causes::{FileCause, told};
use crate::diagnostics::wants_words;
use crate::patience::is_at_least;
use sqlite::File;
use sqlite_disk::{Disk, Files, Unknown};
use sqlite_std_file::OpenError;
use std::thread;
use std::time::{Duration, Instant};

/// For how many seconds a command tries to open a file, from the first attempt on.
const PATIENCE: u64 = 10;

/// The pause between attempts at first, in milliseconds.
const PAUSE: u64 = 20;

/// After how many milliseconds a command tries more often, so that it comes before commands that have just begun.
const EAGER: u64 = 1_000;

const EAGER_PAUSE: u64 = 2;

/// After how many milliseconds the program says that it waits.
const QUIET: u64 = 500;

/// The pause before the next attempt of a command that has waited so long. `None` where it has waited long enough.
fn pause_after(waited: Duration) -> Option<Duration>
    ensures { IsPause (as_nanos waited) result }
{
    if is_at_least(waited, Duration::from_secs(PATIENCE)) {
        return None;
    }
    if is_at_least(waited, Duration::from_millis(EAGER)) {
        return Some(Duration::from_millis(EAGER_PAUSE));
    }
    Some(Duration::from_millis(PAUSE))
}

/// The pause before the next attempt, or that the file is busy, where the command has waited long enough.
fn pause_or_busy(waited: Duration) -> Result<Duration, FileCause>
    ensures { MatchResult result (λ pause. IsPause (as_nanos waited) (Some pause))
        (λ cause. IsPause (as_nanos waited) None × (cause ≡ FileCause.Busy)) }
{
    match pause_after(waited) {
        Some(pause) => Ok(pause),
        None => Err(FileCause::Busy),
    }
}

/// Whether a command has waited so long that the program says so.
fn is_long(waited: Duration) -> bool
    ensures { IsTrue result ↔ milliseconds 500 ≤ as_nanos waited }
{
    is_at_least(waited, Duration::from_millis(QUIET))
}

/// A file that a command waits for. What is made of its calls is proved over any, so over one that keeps a list of them
/// too.
pub(crate) trait Awaited<D: Disk> {
    ghost use Rattle.std.specs.Prelude.{◌≡◌, [], ◌∷◌, List, Option, IfErr, IfOk, IsTrue};
    ghost use Rattle.std.specs.Duration.{as_nanos};
    ghost use Rattle.std.specs.Result.{result_err};
    ghost use Rattle.std.specs.declared.time.Instant.{Instant};
    ghost use Rattle.tb_host.specs.Awaiting.{Call, Makes, clock_read, locked, paused};
    ghost use Rattle.tb_host.specs.Causes.{IsSystemCause};

    // the calls that were made, where they are kept
    ghost calls: { Self → Option (List Call) };

    // when the command began to wait
    ghost since: { Self → Instant };

    /// Opens the file and its log, and locks them.
    fn lock(&mut self) -> Result<Files<D>, OpenError>
        ensures log { IfOk result (λ files. IsTrue (D.Disk.is_usable files.log)) }
        ensures db { IfOk result (λ files. IsTrue (D.Disk.is_usable files.db)) }
        ensures since { since self.new ≡ since self.old }
        ensures called { Makes (calls self.old) (calls self.new) (locked (result_err result) ∷ []) };

    /// How long the command has waited.
    fn waited(&mut self) -> Result<Duration, FileCause>
        ensures cause { IfErr result IsSystemCause }
        ensures since { since self.new ≡ since self.old }
        ensures called { Makes (calls self.old) (calls self.new) (clock_read result ∷ []) };

    /// Says once that the command waits, where it has waited so long.
    fn tell(&mut self, waited: Duration)
        ensures since { since self.new ≡ since self.old }
        ensures called { calls self.new ≡ calls self.old };

    /// Does nothing for so long.
    fn pause(&mut self, time: Duration)
        ensures since { since self.new ≡ since self.old }
        ensures called { Makes (calls self.old) (calls self.new) (paused (as_nanos time) ∷ []) };
}

/// Waits a little, before the next attempt.
///
/// # Errors
///
/// `Busy`, where the command has waited long enough; or the clock's fault.
fn wait<D: Disk, A: Awaited<D>>(awaited: &mut A) -> Result<(), FileCause>
    ensures cause { IfErr result (λ c. (c ≡ FileCause.Busy) ⊎ IsSystemCause c) }
    ensures since { A.since awaited.new ≡ A.since awaited.old }
    ensures called { (made : List Call) × Makes (A.calls awaited.old) (A.calls awaited.new) made
        × MatchResult result (λ _. IsWait made) (IsVainWait made) }
{
    let waited = awaited.waited()?;
    let pause = pause_or_busy(waited)?;
    awaited.tell(waited);
    awaited.pause(pause);
    Ok(())
}

/// The cause for a file that the system does not open. There is none where another command has it, which has to wait.
fn cause_of_path(error: OpenError) -> Option<FileCause>
    ensures { IsPathCause error result }
{
    match error {
        OpenError::OutOfMemory => Some(FileCause::Memory),
        OpenError::Busy => None,
        OpenError::HotJournal => Some(FileCause::Journal),
        OpenError::Io(error) => Some(FileCause::of_system(error)),
    }
}

/// Opens a file and its log, and locks them, once no other command has them.
pub(crate) fn locked<D: Disk, A: Awaited<D>>(awaited: &mut A) -> Result<Files<D>, FileCause>
    ensures log { IfOk result (λ files. IsTrue (D.Disk.is_usable files.log)) }
    ensures db { IfOk result (λ files. IsTrue (D.Disk.is_usable files.db)) }
    ensures since { A.since awaited.new ≡ A.since awaited.old }
    ensures waited { HasWaited (A.calls awaited.old) (A.calls awaited.new) (result_err result) }
{
    for _ in 0..u64::MAX {
        match awaited.lock() {
            Ok(files) => return Ok(files),
            Err(error) => match cause_of_path(error) {
                Some(cause) => return Err(cause),
                None => wait(awaited)?,
            },
        }
    }
    Err(FileCause::Busy)
}

/// A command of a program that waits for the file at a path.
#[derive(Drop)]
pub(crate) struct Turn<'a> {
    rt: &'a HostRuntime,
    program: &'a str,
    path: &'a str,
    since: Instant,
    is_reported: bool,
}

impl<'a> Turn<'a> {
    /// The wait begins now.
    pub(crate) fn new(
        rt: &'a HostRuntime,
        program: &'a str,
        path: &'a str,
    ) -> Result<Turn<'a>, FileCause>
        ensures unreported { IfOk result (λ turn. turn.is_reported ≡ false) }
        ensures names { IfOk result (λ turn. (turn.program.now ≡ program.now) × (turn.path.now ≡ path.now)) }
        ensures cause { IfErr result IsSystemCause }
    {
        Ok(Turn {
            rt,
            program,
            path,
            since: told(Instant::now(rt))?,
            is_reported: false,
        })
    }
}

impl Awaited<File> for Turn<'_> {
    ghost use Rattle.std.specs.Prelude.{None};

    ghost calls = { λ _. None };

    ghost since = { λ turn. turn.since };

    fn lock(&mut self) -> Result<Files<File>, OpenError> {
        sqlite_std_file::open(self.rt, self.path, Unknown)
    }

    fn waited(&mut self) -> Result<Duration, FileCause> {
        told(self.since.elapsed(self.rt))
    }

    fn tell(&mut self, waited: Duration)
        ensures since { self.new.since ≡ self.old.since }
        ensures long { milliseconds 500 ≤ as_nanos waited → self.new.is_reported ≡ true }
        ensures short { as_nanos waited < milliseconds 500 → self.new.is_reported ≡ self.old.is_reported }
    {
        if self.is_reported || !is_long(waited) {
            return;
        }
        self.is_reported = true;
        if wants_words(self.rt) {
            let _reported = eprintln!(self.rt;
                "{}: {}: another command has it; waits for up to ten seconds",
                self.program, self.path
            );
        }
    }

    fn pause(&mut self, time: Duration) {
        thread::sleep(self.rt, time);
    }
}
