//! Connections, and what each of them has sent of its request so far.

ghost use Rattle.std.specs.Prelude.{◌≡◌, ◌≢◌, ◌↔◌, ◌⊎◌, ◌≤◌, ◌<◌, ◌+◌, ◌-◌, ◌++◌, ◌^◌, [], None, if◌then◌else◌};
ghost use Rattle.std.specs.Prelude.{IsTrue, true, false, max, min, take, length, vec_len, IfOk, IfErr, MatchResult, Ok};
ghost use Rattle.std.specs.Duration.{as_nanos};
ghost use Rattle.std.specs.Io.{ReadsAtMost};
ghost use Rattle.std.specs.Io.KnownBytes.{ReadConsumes};
ghost use Rattle.std.specs.IoError.{error_kind};
ghost use Rattle.tb_desk.specs.Arriving.{IsAwaited, next_size};
ghost use Rattle.tb_desk.specs.Callers.{GoesOn, HasReadOnceMore, HasRoom, Hears, IsHeard, KeepsTime, said_by};
ghost use Rattle.tb_host.specs.Patience.{seconds, wait_left};
ghost use Rattle.tb_desk.specs.Serving.{is_no_byte};
ghost use Rattle.tb_desk.specs.declared.arriving.Awaited.TheVariants.{Head, Nothing};

use crate::arriving::{Awaited, awaited_after, next_size};
use crate::counting::ReadCount;
use std::alloc::Global;
use std::io::{self, ErrorKind, Read};
use std::net::TcpStream;
use std::time::Duration;
use tb_host::{Patient, Place, REQUEST, left_after};
use tb_http::{HEAD_BYTES, Routes};

/// How many times in a row a connection is read, so that one that sends without end keeps nobody waiting. Its buffer
/// doubles each time, so that a whole body may be taken at once.
const READS: u32 = 12;

/// A connection, and the beginning of its request, which is read as it arrives. So a client that sends its request
/// slowly keeps nobody from the desk.
#[derive(Drop)]
pub(crate) struct Caller {
    stream: TcpStream,
    room: Vec<u8>,
    /// How many bytes of the buffer are filled.
    filled: usize,
    awaited: Awaited,
    /// Whether the connection sends nothing more.
    has_ended: bool,
    /// For how long the desk still waits for the part that is awaited.
    left: Duration,
    /// Whether the desk has no room for more of the body now. Then it does not wait for the client.
    is_held: bool,
    reads: ReadCount,
}

/// Whether nothing has arrived yet, and the connection has no fault.
pub(crate) fn is_none_yet(kind: ErrorKind) -> bool
    ensures { result ≡ is_no_byte kind }
{
    match kind {
        ErrorKind::WouldBlock => true,
        ErrorKind::TimedOut => true,
        ErrorKind::Interrupted => true,
        _ => false,
    }
}

impl Caller {
    pub(crate) fn new(alloc: Global, stream: TcpStream) -> Caller
        ensures begins { (result.awaited ≡ Head) × (as_nanos result.left ≡ seconds 10) }
        ensures said { (vec_len result.room ≡ 0) × (result.filled ≡ 0) }
        ensures stream { result.stream ≡ stream }
        ensures flags { (result.has_ended ≡ false) × (result.is_held ≡ false) }
        ensures unread { result.reads.count ≡ 0 }
    {
        Caller {
            stream,
            room: Vec::new(alloc),
            filled: 0,
            awaited: Awaited::Head,
            has_ended: false,
            left: Duration::from_secs(REQUEST),
            is_held: false,
            reads: ReadCount::new(),
        }
    }

    pub(crate) fn stream(&self) -> &TcpStream
        ensures { result.now ≡ self.now.stream }
    {
        &self.stream
    }

    /// The connection alone, once its request is answered.
    pub(crate) fn into_stream(self) -> TcpStream
        ensures { result ≡ self.stream }
    {
        let Caller { stream, .. } = self;
        stream
    }

    /// Whether the request can be read without waiting.
    pub(crate) fn is_ready(&self) -> bool
        ensures { IsTrue result ↔ (self.now.awaited ≡ Nothing) }
    {
        self.awaited == Awaited::Nothing
    }

    /// Whether the head of the request has not come yet.
    pub(crate) fn awaits_head(&self) -> bool
        ensures { IsTrue result ↔ (self.now.awaited ≡ Head) }
    {
        self.awaited == Awaited::Head
    }

    /// How many bytes its buffer has beyond those for a head.
    pub(crate) fn kept(&self) -> usize
        ensures { result ≡ vec_len self.now.room - 8192 }
    {
        self.room.len().saturating_sub(HEAD_BYTES)
    }

    /// Counts the time that has passed, and returns whether the time for what is awaited is over.
    pub(crate) fn is_late(&mut self, passed: Duration) -> bool
        ensures late { IsTrue result ↔ (as_nanos self.new.left ≡ 0) }
        ensures waits { self.old.is_held ≡ false
            → as_nanos self.new.left ≡ wait_left (as_nanos self.old.left) (as_nanos passed) }
        ensures held { self.old.is_held ≡ true → self.new.left ≡ self.old.left }
        ensures awaited { self.new.awaited ≡ self.old.awaited }
        ensures said { (self.new.room ≡ self.old.room) × (self.new.filled ≡ self.old.filled) }
        ensures same { (self.new.stream ≡ self.old.stream) × (self.new.has_ended ≡ self.old.has_ended)
            × (self.new.is_held ≡ self.old.is_held) }
        ensures unread { self.new.reads ≡ self.old.reads }
    {
        if !self.is_held {
            self.left = left_after(self.left, passed);
        }
        self.left.is_zero()
    }

    /// Makes room for more of the request, in a buffer of at most so many bytes. Returns whether there is room. Without
    /// memory for it, the rest is read when the connection is served.
    fn make_room(&mut self, most: usize) -> bool
        ensures room { IsTrue result → self.new.filled < vec_len self.new.room }
        ensures most { vec_len self.new.room ≤ max (vec_len self.old.room) most }
        ensures filled { self.new.filled ≡ self.old.filled }
        ensures said { GoesOn self.old self.new }
        ensures held { self.new.is_held ≡ true → self.new.awaited ≡ self.old.awaited }
        ensures free { IsTrue result → (self.new.is_held ≡ false) × (self.new.awaited ≡ self.old.awaited) }
        ensures full { self.new.is_held ≡ true
            → most < max (next_size (vec_len self.old.room) self.old.awaited) self.old.filled }
        ensures why { HasRoom self.old
            → IsTrue result ⊎ (self.new.is_held ≡ true) ⊎ (self.new.awaited ≡ Nothing) }
        ensures wants { self.new.awaited ≢ self.old.awaited → vec_len self.old.room ≤ self.old.filled }
        ensures time { KeepsTime self.old self.new }
        ensures ended { self.new.has_ended ≡ self.old.has_ended }
        ensures unread { self.new.reads ≡ self.old.reads }
    {
        self.is_held = false;
        if self.filled < self.room.len() {
            return true;
        }
        let size = next_size(self.room.len(), self.awaited).max(self.filled);
        if size > most {
            self.is_held = true;
            return false;
        }
        if self.room.resize(size, 0).is_err() {
            self.awaited = Awaited::Nothing;
        }
        self.filled < self.room.len()
    }

    /// What is awaited by what it has sent. Once the head is there, that is known.
    fn awaits_now(&self, alloc: Global, routes: &Routes) -> Awaited
        ensures head { self.now.awaited ≡ Head → IsAwaited (said_by self.now) result }
        ensures rest { self.now.awaited ≢ Head → result ≡ self.now.awaited }
    {
        match self.awaited {
            Awaited::Head => awaited_after(alloc, routes, self.said()),
            _ => self.awaited,
        }
    }

    /// How long the desk still waits for what is awaited now. The time for a body begins when its head has come.
    fn time_for(&self, now: Awaited) -> Duration
        ensures begins { self.now.awaited ≡ Head → now ≢ Head → as_nanos result ≡ seconds 10 }
        ensures goes_on { (self.now.awaited ≢ Head) ⊎ (now ≡ Head) → result ≡ self.now.left }
    {
        if self.awaited == Awaited::Head && now != Awaited::Head {
            return Duration::from_secs(REQUEST);
        }
        self.left
    }

    /// Notes that so many bytes have come.
    fn add(&mut self, alloc: Global, routes: &Routes, count: usize)
        ensures heard { Hears self.old self.new }
        ensures time { self.old.awaited ≡ Head → self.new.awaited ≢ Head
            → as_nanos self.new.left ≡ seconds 10 }
        ensures rest { (self.old.awaited ≢ Head) ⊎ (self.new.awaited ≡ Head) → self.new.left ≡ self.old.left }
        ensures filled { self.old.filled + count < 2 ^ 64 → self.new.filled ≡ self.old.filled + count }
        ensures room { self.new.room ≡ self.old.room }
        ensures same { (self.new.stream ≡ self.old.stream) × (self.new.has_ended ≡ self.old.has_ended)
            × (self.new.is_held ≡ self.old.is_held) }
        ensures unread { self.new.reads ≡ self.old.reads }
    {
        self.filled = self.filled.saturating_add(count);
        let now = self.awaits_now(alloc, routes);
        self.left = self.time_for(now);
        self.awaited = now.at(self.filled);
    }

    /// Notes the result of one read.
    fn note(&mut self, alloc: Global, routes: &Routes, came: io::Result<usize>)
        ensures ended { came ≡ Ok 0 → (self.new.has_ended ≡ true) × (self.new.awaited ≡ Nothing) }
        ensures fault { IfErr came (λ e. self.new.awaited
            ≡ (if is_no_byte (error_kind e) then self.old.awaited else Nothing)) }
        ensures heard { IfOk came (λ count. count ≢ 0 → Hears self.old self.new) }
        ensures goes_on { came ≢ Ok 0 → self.new.has_ended ≡ self.old.has_ended }
        ensures filled { MatchResult came
            (λ count. self.old.filled + count < 2 ^ 64 → self.new.filled ≡ self.old.filled + count)
            (λ _. self.new.filled ≡ self.old.filled) }
        ensures room { self.new.room ≡ self.old.room }
        ensures time { KeepsTime self.old self.new }
        ensures same { (self.new.stream ≡ self.old.stream) × (self.new.is_held ≡ self.old.is_held) }
        ensures unread { self.new.reads ≡ self.old.reads }
    {
        match came {
            Ok(0) => {
                self.has_ended = true;
                self.awaited = Awaited::Nothing;
            }
            Ok(count) => self.add(alloc, routes, count),
            Err(error) => {
                // A connection that fails is served, and fails there.
                if !is_none_yet(error.kind()) {
                    self.awaited = Awaited::Nothing;
                }
            }
        }
    }

    /// Reads once, into a buffer of at most so many bytes. Returns whether the buffer is full, so that more may be there.
    fn hear_once(&mut self, alloc: Global, routes: &Routes, most: usize) -> bool
        ensures most { vec_len self.new.room ≤ max (vec_len self.old.room) most }
        ensures said { GoesOn self.old self.new }
        ensures whole { self.old.awaited ≡ Nothing → self.new ≡ self.old }
        ensures heard { self.new.filled ≢ self.old.filled → Hears self.old self.new }
        ensures time { KeepsTime self.old self.new }
        ensures read { IsHeard most self.old self.new }
        ensures again { IsTrue result → HasReadOnceMore self.old self.new }
        ensures counted { self.old.reads.count ≤ self.new.reads.count }
    {
        if self.is_ready() || !self.make_room(most) {
            return false;
        }
        let came = self
            .reads
            .read_after(&self.stream, self.room.as_mut_slice(), self.filled);
        self.note(alloc, routes, came);
        self.filled == self.room.len()
    }

    /// Reads what has come of the request, into a buffer of at most so many bytes.
    pub(crate) fn hear(&mut self, alloc: Global, routes: &Routes, most: usize)
        ensures most { vec_len self.new.room ≤ max (vec_len self.old.room) most }
        ensures said { GoesOn self.old self.new }
        ensures time { KeepsTime self.old self.new }
        ensures read { IsHeard most self.old self.new }
    {
        for _ in 0..READS {
            if !self.hear_once(alloc, routes, most) {
                return;
            }
        }
    }

    /// What the connection has sent so far.
    pub(crate) fn said(&self) -> &[u8]
        ensures { result.now ≡ said_by self.now }
    {
        self.room.get(..self.filled).unwrap_or(self.room.as_slice())
    }

    /// The request, from its first byte on. The time for the rest of it begins now.
    pub(crate) fn request<'a>(
        &'a self,
        rt: &'a HostRuntime,
        place: Option<&'a Place>,
    ) -> io::Result<Request<'a>>
        ensures said { IfOk result (λ r. r.said.now ≡ said_by self.now) }
        ensures ended { IfOk result (λ r. r.has_ended ≡ self.now.has_ended) }
        ensures time { IfOk result (λ r. (as_nanos r.later.each ≡ seconds 10)
            × (as_nanos r.later.whole ≡ seconds 10)) }
        ensures later { IfOk result (λ r. (r.later.stream.now ≡ self.now.stream)
            × (r.later.place ≡ place.entry)) }
    {
        Ok(Request {
            said: self.said(),
            has_ended: self.has_ended,
            later: Patient::new(rt, &self.stream, place, REQUEST, REQUEST)?,
        })
    }
}

/// A request: the bytes that have arrived, and then those that the connection still sends.
#[derive(Drop)]
pub(crate) struct Request<'a> {
    said: &'a [u8],
    has_ended: bool,
    later: Patient<'a>,
}

impl Read for Request<'_> {
    fn read(&mut self, buf: &mut [u8]) -> io::Result<usize>
        ensures bound { ReadsAtMost result buf.new }
        ensures bytes { ReadConsumes None None result buf.new }
        ensures said { self.old.said.now ≢ [] → IfOk result (λ n.
            self.old.said.now ≡ take n buf.new ++ self.new.said.now) }
        ensures count { self.old.said.now ≢ [] → result ≡ Ok (min (length self.old.said.now) (length buf.old)) }
        ensures ended { self.old.said.now ≡ [] → self.old.has_ended ≡ true → result ≡ Ok 0 }
        ensures end { self.new.has_ended ≡ self.old.has_ended }
    {
        if !self.said.is_empty() {
            return self.said.read(buf);
        }
        if self.has_ended {
            return Ok(0);
        }
        self.later.read(buf)
    }
}
