//! A connection to a client, the clock beside it, and the places of a desk's files: what they answer, and no more.
//!
//! What is made of the answers is in `patience.rt`. It is proved over any link, also over one that counts its answers.

ghost use Rattle.std.specs.Prelude.{IfOk, None};
ghost use Rattle.std.specs.Duration.{as_nanos};
ghost use Rattle.std.specs.Io.{ReadsAtMost, WritesAtMost};
ghost use Rattle.std.specs.Io.KnownBytes.{ReadConsumes, WriteAppends};
ghost use Rattle.tb_host.specs.Links.{AddsAnswer};

use crate::place::{Place, has_changed};
use std::io::{self, Read, Write};
use std::net::TcpStream;
use std::time::{Duration, Instant};

/// A connection to a client, with a clock and the places of a desk's files.
///
/// The system's counts no answers, and its contract says nothing of them.
pub(crate) trait Link {
    ghost use Rattle.std.specs.Prelude.{ℕ, Bool, List, Option, Result};
    ghost use Rattle.std.specs.declared.io.Error.{Error};
    ghost use Rattle.std.specs.declared.time.Duration.{Duration};
    ghost use Rattle.std.specs.declared.time.Instant.{Instant};

    // its answers to reads and writes, where they are counted: the nanoseconds that each was given, and what it was
    ghost answers: { Self → Option (List (ℕ × Result ℕ Error)) };

    // what its clock shows, after all answers so far
    ghost IsNow: { Self → Instant → Type 0 };

    // what its clock says of the time since then, after all answers so far
    ghost IsElapsed: { Self → Instant → Result Duration Error → Type 0 };

    // whether the desk's files are no longer in their place, after all answers so far
    ghost HasMoved: { Self → Bool → Type 0 };

    /// The time now.
    fn instant(&self) -> io::Result<Instant>
        ensures { IfOk result (IsNow self.now) };

    /// How much time has passed since then.
    fn elapsed(&self, since: Instant) -> io::Result<Duration>
        ensures { IsElapsed self.now since result };

    /// Whether the desk's files are no longer in their place.
    fn has_moved(&self) -> bool
        ensures { HasMoved self.now result };

    /// Reads some bytes within this time.
    fn receive(&mut self, time: Duration, buf: &mut [u8]) -> io::Result<usize>
        ensures bound { ReadsAtMost result buf.new }
        ensures bytes { ReadConsumes None None result buf.new }
        ensures answered { AddsAnswer (answers self.old) (answers self.new) (as_nanos time, result) };

    /// Writes some of the bytes within this time.
    fn send(&mut self, time: Duration, buf: &[u8]) -> io::Result<usize>
        ensures bound { WritesAtMost result buf.now }
        ensures bytes { WriteAppends None None result buf.now }
        ensures answered { AddsAnswer (answers self.old) (answers self.new) (as_nanos time, result) };
}

/// A connection of the system's.
#[derive(Clone, Copy)]
pub(crate) struct Connected<'a> {
    pub(crate) rt: &'a HostRuntime,
    pub(crate) stream: &'a TcpStream,
    pub(crate) place: Option<&'a Place>,
}

impl Link for Connected<'_> {
    ghost use Rattle.std.specs.Prelude.{None};

    ghost answers = { λ _. None };

    ghost IsNow = { λ _ _. Unit {0} };

    ghost IsElapsed = { λ _ _ _. Unit {0} };

    ghost HasMoved = { λ _ _. Unit {0} };

    fn instant(&self) -> io::Result<Instant> {
        Instant::now(self.rt)
    }

    fn elapsed(&self, since: Instant) -> io::Result<Duration> {
        since.elapsed(self.rt)
    }

    fn has_moved(&self) -> bool {
        has_changed(self.rt, self.place)
    }

    fn receive(&mut self, time: Duration, buf: &mut [u8]) -> io::Result<usize> {
        self.stream.set_read_timeout(Some(time))?;
        let mut stream = self.stream;
        stream.read(buf)
    }

    fn send(&mut self, time: Duration, buf: &[u8]) -> io::Result<usize> {
        self.stream.set_write_timeout(Some(time))?;
        let mut stream = self.stream;
        stream.write(buf)
    }
}
