//! Time limits for clients, so that none keeps the desk to itself.

ghost use Rattle.std.specs.Prelude.{◌≡◌, ◌⊎◌, ◌↔◌, ◌≤◌, ℕ, IfErr, IfOk, IsErr, IsTrue, None, Ok as Done, Err as ErrOf};
ghost use Rattle.std.specs.Prelude.{OnOk, Result, Some, false, min, true};
ghost use Rattle.std.specs.Duration.{as_nanos};
ghost use Rattle.std.specs.Io.{ReadsAtMost, WritesAtMost};
ghost use Rattle.std.specs.Io.KnownBytes.{ReadConsumes, WriteAppends};
ghost use Rattle.std.specs.IoError.{error_kind};
ghost use Rattle.std.specs.declared.io.Error.{Error as IoError};
ghost use Rattle.std.specs.declared.time.Duration.{Duration as Time};
ghost use Rattle.std.specs.declared.time.Instant.{Instant as Moment};
ghost use Rattle.tb_host.specs.Links.{AddsAnswer};
ghost use Rattle.tb_host.specs.Patience.{IsReadTime, answer_time, measured, seconds, wait_left};

use crate::links::{Connected, Link};
use crate::place::Place;
use std::io::{self, ErrorKind, Read, Write};
use std::net::TcpStream;
use std::time::{Duration, Instant};

/// How many seconds a client may take for the head of its request, and then for the body.
pub const REQUEST: u64 = 10;

/// The most milliseconds between two looks at the waiting clients that count as time of theirs. In the rest the desk
/// answers another.
const LOOK: u64 = 100;

/// How many seconds longer a client may take for an answer than its bytes need.
const ANSWER: u64 = 3;

/// How many bytes of an answer a client has to receive in a millisecond.
const RATE: u64 = 1_024;

/// Whether a time is at least as long as another.
pub(crate) fn is_at_least(time: Duration, least: Duration) -> bool
    ensures { IsTrue result ↔ as_nanos least ≤ as_nanos time }
{
    time.as_nanos() >= least.as_nanos()
}

/// The shorter of two times.
fn shorter(a: Duration, b: Duration) -> Duration
    ensures { as_nanos result ≡ min (as_nanos a) (as_nanos b) }
{
    if is_at_least(b, a) {
        return a;
    }
    b
}

/// How long the next read may take, where all reads have taken so long: at most `each`, and at most what is left of
/// `whole`. `None` where nothing is left.
fn read_time(each: Duration, whole: Duration, elapsed: Duration) -> Option<Duration>
    ensures { IsReadTime (as_nanos each) (as_nanos whole) (as_nanos elapsed) result }
{
    match whole.checked_sub(elapsed) {
        Some(left) if !left.is_zero() => Some(shorter(left, each)),
        _ => None,
    }
}

/// For how long the desk still waits for a client, where so much time has passed since it looked last.
pub fn left_after(left: Duration, passed: Duration) -> Duration
    ensures { as_nanos result ≡ wait_left (as_nanos left) (as_nanos passed) }
{
    left.saturating_sub(shorter(passed, Duration::from_millis(LOOK)))
}

/// How long a client may take for the rest of an answer, after a write of `count` bytes that took so long.
fn answer_time(left: Duration, took: Duration, count: usize) -> Duration
    ensures { as_nanos result ≡ answer_time (as_nanos left) (as_nanos took) count }
{
    let earned = Duration::from_millis(count as u64 / RATE);
    shorter(
        left.saturating_sub(took).saturating_add(earned),
        Duration::from_secs(ANSWER),
    )
}

/// How long a client may take for the rest of an answer, after a write of `count` bytes and what a clock says of its
/// time.
fn left_by(left: Duration, elapsed: io::Result<Duration>, count: usize) -> Duration
    ensures { as_nanos result ≡ answer_time (as_nanos left) (measured elapsed) count }
{
    match elapsed {
        Ok(took) => answer_time(left, took, count),
        Err(_) => answer_time(left, Duration::ZERO, count),
    }
}

/// How long the next read of a link may take, where all reads have begun at `since`.
fn time_to_read<L: Link>(
    link: &L,
    each: Duration,
    whole: Duration,
    since: Instant,
) -> io::Result<Duration>
    ensures time { IfOk result (λ time. (elapsed : Time) × L.IsElapsed link.now since (Done elapsed)
        × IsReadTime (as_nanos each) (as_nanos whole) (as_nanos elapsed) (Some time)) }
    ensures late { IfErr result (λ e. L.IsElapsed link.now since (ErrOf e)
        ⊎ ((elapsed : Time) × L.IsElapsed link.now since (Done elapsed)
        × IsReadTime (as_nanos each) (as_nanos whole) (as_nanos elapsed) None
        × (error_kind e ≡ ErrorKind.TimedOut))) }
{
    let elapsed = link.elapsed(since)?;
    match read_time(each, whole, elapsed) {
        Some(time) => Ok(time),
        None => Err(io::Error::from(ErrorKind::TimedOut)),
    }
}

/// Reads once within this time.
///
/// # Errors
///
/// The link's fault, or that the desk's files are no longer in their place after the read.
fn receive<L: Link>(link: &mut L, time: Duration, buf: &mut [u8]) -> io::Result<usize>
    ensures bound { ReadsAtMost result buf.new }
    ensures bytes { ReadConsumes None None result buf.new }
    ensures received { IfOk result (λ count.
        AddsAnswer (L.answers link.old) (L.answers link.new) (as_nanos time, Done count)) }
    ensures still { OnOk result (L.HasMoved link.new false) }
    ensures failed { IfErr result (λ e. AddsAnswer (L.answers link.old) (L.answers link.new) (as_nanos time, ErrOf e)
        ⊎ (L.HasMoved link.new true × (error_kind e ≡ ErrorKind.StaleNetworkFileHandle))) }
{
    let count = match link.receive(time, buf) {
        Ok(count) => count,
        Err(error) => return Err(error),
    };
    if link.has_moved() {
        return Err(io::Error::from(ErrorKind::StaleNetworkFileHandle));
    }
    Ok(count)
}

/// Writes once within the time that is left for an answer, and counts the time that the write takes.
///
/// # Errors
///
/// The link's fault, or that no time is left. After a write that failed none is.
fn send<L: Link>(link: &mut L, left: &mut Duration, buf: &[u8]) -> io::Result<usize>
    ensures bound { WritesAtMost result buf.now }
    ensures bytes { WriteAppends None None result buf.now }
    ensures late { as_nanos left.old ≡ 0 → IsErr result }
    ensures silent { as_nanos left.old ≡ 0 → link.new ≡ link.old }
    ensures sent { IfOk result (λ count.
        AddsAnswer (L.answers link.old) (L.answers link.new) (as_nanos left.old, Done count)) }
    ensures time { IfOk result (λ count. (since : Moment) × (elapsed : Result Time IoError) × L.IsNow link.old since
        × L.IsElapsed link.new since elapsed
        × (as_nanos left.new ≡ answer_time (as_nanos left.old) (measured elapsed) count)) }
    ensures failed { IfErr result (λ e. (link.new ≡ link.old)
        ⊎ (AddsAnswer (L.answers link.old) (L.answers link.new) (as_nanos left.old, ErrOf e)
        × (as_nanos left.new ≡ 0))) }
{
    if left.is_zero() {
        return Err(io::Error::from(ErrorKind::TimedOut));
    }
    let since = match link.instant() {
        Ok(since) => since,
        Err(error) => return Err(error),
    };
    match link.send(*left, buf) {
        Ok(count) => {
            *left = left_by(*left, link.elapsed(since), count);
            Ok(count)
        }
        Err(error) => {
            *left = Duration::ZERO;
            Err(error)
        }
    }
}

/// Reads a connection within time limits: one for each read, and one for all reads together. So a client that sends a
/// byte now and then is cut off too.
///
/// If a file was moved meanwhile, the read fails, so that nothing is done on that file.
#[derive(Drop)]
pub struct Patient<'a> {
    rt: &'a HostRuntime,
    stream: &'a TcpStream,
    place: Option<&'a Place>,
    since: Instant,
    each: Duration,
    whole: Duration,
}

impl<'a> Patient<'a> {
    /// A reader whose time limits, in seconds, begin now.
    pub fn new(
        rt: &'a HostRuntime,
        stream: &'a TcpStream,
        place: Option<&'a Place>,
        each: u64,
        whole: u64,
    ) -> io::Result<Patient<'a>>
        ensures times { IfOk result (λ p. (as_nanos p.each ≡ seconds each) × (as_nanos p.whole ≡ seconds whole)) }
        ensures source { IfOk result (λ p. (p.stream ≡ stream.entry) × (p.place ≡ place.entry)) }
    {
        Ok(Patient {
            rt,
            stream,
            place,
            since: Instant::now(rt)?,
            each: Duration::from_secs(each),
            whole: Duration::from_secs(whole),
        })
    }

    /// The connection, with the places of the desk's files.
    fn link(&self) -> Connected<'a>
        ensures { (result.stream ≡ self.now.stream) × (result.place ≡ self.now.place) }
    {
        Connected {
            rt: self.rt,
            stream: self.stream,
            place: self.place,
        }
    }

    /// How long the next read may take.
    fn left(&self) -> io::Result<Duration>
        ensures { IfOk result (λ d. (elapsed : ℕ)
            × IsReadTime (as_nanos self.now.each) (as_nanos self.now.whole) elapsed (Some d)) }
    {
        time_to_read(&self.link(), self.each, self.whole, self.since)
    }
}

impl Read for Patient<'_> {
    fn read(&mut self, buf: &mut [u8]) -> io::Result<usize> {
        let time = self.left()?;
        receive(&mut self.link(), time, buf)
    }
}

/// Writes an answer within a time limit. A client that receives nothing for some seconds, or less than a mebibyte a
/// second, is cut off.
///
/// Only the time that the client takes counts. After a write that failed, no other is tried.
#[derive(Drop)]
pub struct Answer<'a> {
    rt: &'a HostRuntime,
    stream: &'a TcpStream,
    left: Duration,
}

impl<'a> Answer<'a> {
    pub fn new(rt: &'a HostRuntime, stream: &'a TcpStream) -> Answer<'a>
        ensures { as_nanos result.left ≡ seconds 3 }
    {
        Answer {
            rt,
            stream,
            left: Duration::from_secs(ANSWER),
        }
    }
}

impl Write for Answer<'_> {
    fn write(&mut self, buf: &[u8]) -> io::Result<usize> {
        let mut link = Connected {
            rt: self.rt,
            stream: self.stream,
            place: None,
        };
        send(&mut link, &mut self.left, buf)
    }

    fn flush(&mut self) -> io::Result<()> {
        Ok(())
    }
}
