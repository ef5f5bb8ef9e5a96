//! Connections that wait to be served. One that sends nothing, or sends slowly, keeps nobody from the desk.

ghost use Rattle.std.specs.Prelude.{◌≡◌, ◌≢◌, ◌↔◌, ◌≤◌, ◌<◌, ◌+◌, ◌-◌, ◌^◌, ◌⊎◌, ◌++◌, ◌==◌, ◌&&◌, [], ◌∷◌, List};
ghost use Rattle.std.specs.Prelude.{All, IsTrue, IfErr, IfOk, IfSome, IsSomeAnd, MatchResult};
ghost use Rattle.std.specs.Prelude.{None, Some, Err, Ok, true, false, drop, max, min, not, vec_capacity, vec_len};
ghost use Rattle.std.specs.Duration.{as_nanos};
ghost use Rattle.std.specs.IoError.{error_kind, raw_os_error};
ghost use Rattle.std.specs.declared.io.Error.{Error as IoError};
ghost use Rattle.tb_desk.specs.Serving.{IsWantOfRoom, is_no_connection, most_waiting};
ghost use Rattle.std.specs.List.{AllWithin, HoldsAt};
ghost use Rattle.tb_desk.specs.Callers.{IsHeard};
ghost use Rattle.tb_desk.specs.Sockets.{Call, EndsBy, FailsBy, FailsToAsk, HasAsked, IsFailedWelcome, Makes};
ghost use Rattle.tb_desk.specs.Sockets.{PausesInVain};
ghost use Rattle.tb_desk.specs.Sockets.{clock_read, first_call, pause_if, stream_set, welcome};
ghost use Rattle.tb_desk.specs.Waiting.{AgeTo, Ages, HasTime, IsClockRead, IsFirstToGo, IsLate, IsLetGo, IsNext};
ghost use Rattle.tb_desk.specs.Waiting.{IsParted, KeepsRoom, LetsOneGo, NoLongerWaits, StayInTime, Waits};
ghost use Rattle.tb_desk.specs.Waiting.{kept_by, time_since};
ghost use Rattle.tb_desk.specs.declared.arriving.Awaited.TheVariants.{Head, Nothing};
ghost use Rattle.tb_host.specs.Patience.{seconds};

use crate::arriving::most_size;
use crate::callers::Caller;
use crate::counting::AcceptCount;
use crate::leaving::Leaver;
use crate::sockets::Sockets;
use std::alloc::{AllocError, Global};
use std::io::{self, ErrorKind};
use std::net::{TcpListener, TcpStream};
use std::time::{Duration, Instant};
use tb_http::{HEAD_BYTES, Routes};

/// How many milliseconds the server waits for a new connection's request where no other connection waits. Nearly every
/// client sends at once.
const FIRST: u64 = 20;

/// The pause between looks at the waiting connections, in milliseconds.
const PAUSE: u64 = 2;

/// How many connections may wait.
const MOST: usize = 256;

/// The connections that the server does not serve now.
#[derive(Drop)]
pub(crate) struct Waiting {
    /// Those whose request is not answered yet, the oldest first.
    callers: Vec<Caller>,
    /// Those whose client has its answer.
    leavers: Vec<Leaver>,
    /// When the server last looked at them.
    looked: Option<Instant>,
    /// How many times it looked.
    looks: u64,
    accepts: AcceptCount,
}

/// A connection that no longer waits.
#[derive(Drop)]
pub(crate) enum Next {
    /// Its request is whole.
    Whole(Caller),
    /// Its time is over, so it is dropped.
    Late(Caller),
    /// Its request is whole, and the system refused to have it wait for what it is answered. So it is dropped.
    Broken(io::Error),
}

/// Whether there is no connection yet, or one that has closed again. Then the listener has no fault.
fn is_none_yet(kind: ErrorKind) -> bool
    ensures { result ≡ is_no_connection kind }
{
    match kind {
        ErrorKind::WouldBlock => true,
        ErrorKind::Interrupted => true,
        ErrorKind::ConnectionAborted => true,
        _ => false,
    }
}

/// Whether the system has no room for another connection now, by the error number on Linux: no memory (ENOMEM, ENOBUFS),
/// or too many open files (ENFILE, EMFILE).
fn wants_room(number: Option<i32>) -> bool
    ensures { IsWantOfRoom number result }
{
    match number {
        Some(12) => true,
        Some(23) => true,
        Some(24) => true,
        Some(105) => true,
        _ => false,
    }
}

/// Whether no other connection may wait, where so many do.
fn is_full(connections: usize) -> bool
    ensures { IsTrue result ↔ most_waiting ≤ connections }
{
    connections >= MOST
}

/// How long ago the server looked, if it did.
fn time_since(looked: Option<Instant>, now: Instant) -> Duration
    ensures { as_nanos result ≡ time_since looked now }
{
    match looked {
        Some(looked) => now.saturating_duration_since(looked),
        None => Duration::ZERO,
    }
}

/// The place of the oldest connection that has sent no head. Where all have, it is that of the oldest.
fn first_to_go(callers: &[Caller]) -> usize
    ensures { IsFirstToGo callers.now result }
{
    for at in 0..callers.len() {
        if callers[at].awaits_head() {
            return at;
        }
    }
    0
}

/// Reads what has come of a request, and looks whether it is whole (`true`), or its time is over (`false`).
fn look_at(
    alloc: Global,
    routes: &Routes,
    caller: &mut Caller,
    passed: Duration,
    most: usize,
) -> Option<bool>
    ensures most { vec_len caller.new.room ≤ max (vec_len caller.old.room) most }
    ensures whole { result ≡ Some true → caller.new.awaited ≡ Nothing }
    ensures late { result ≡ Some false → (caller.new.awaited ≢ Nothing) × (as_nanos caller.new.left ≡ 0) }
    ensures waits { result ≡ None → (caller.new.awaited ≢ Nothing) × (as_nanos caller.new.left ≢ 0) }
    ensures time { Ages (as_nanos passed) caller.old caller.new }
    ensures read { IsHeard most caller.old caller.new }
    ensures stream { caller.new.stream ≡ caller.old.stream }
{
    caller.hear(alloc, routes, most);
    if caller.is_ready() {
        return Some(true);
    }
    if caller.is_late(passed) {
        return Some(false);
    }
    None
}

/// Sets how a new connection is read: where no other waits, the server waits a moment for its request.
fn await_first<S: Sockets>(sockets: &mut S, stream: &TcpStream, is_alone: bool) -> io::Result<()>
    ensures { Makes (S.calls sockets.old) (S.calls sockets.new) (first_call stream.now is_alone result ∷ []) }
{
    if is_alone {
        sockets.set_read_time(stream, Duration::from_millis(FIRST))
    } else {
        sockets.set_stream(stream, true)
    }
}

/// Sets how a connection is read that waited a moment. If it still waits, no further read waits for a byte.
fn await_rest<S: Sockets>(sockets: &mut S, caller: &Caller, is_alone: bool) -> io::Result<()>
    ensures waits { is_alone ≡ true → caller.now.awaited ≢ Nothing
        → Makes (S.calls sockets.old) (S.calls sockets.new) (stream_set caller.now.stream true result ∷ []) }
    ensures others { (is_alone ≡ false) ⊎ (caller.now.awaited ≡ Nothing) → (result ≡ Ok tt)
        × (sockets.new ≡ sockets.old) }
{
    if is_alone && !caller.is_ready() {
        return sockets.set_stream(caller.stream(), true);
    }
    Ok(())
}

/// A new connection. Where no other waits, the server waits a moment for its request.
fn heard<S: Sockets>(
    sockets: &mut S,
    routes: &Routes,
    stream: TcpStream,
    is_alone: bool,
) -> io::Result<Caller>
    ensures stream { IfOk result (λ caller. caller.stream ≡ stream) }
    ensures room { IfOk result (λ caller. vec_len caller.room ≤ 8192) }
    ensures time { IfOk result (λ caller. caller.awaited ≡ Head → as_nanos caller.left ≡ seconds 10) }
    ensures read { IfOk result (λ caller. (1 ≤ caller.reads.count) ⊎ (caller.awaited ≡ Nothing)) }
    ensures called { IfOk result (λ caller.
        Makes (S.calls sockets.old) (S.calls sockets.new) (welcome stream is_alone caller.awaited)) }
    ensures failed { IfErr result (λ e. (made : List Call) × IsFailedWelcome stream is_alone e made
        × Makes (S.calls sockets.old) (S.calls sockets.new) made) }
{
    await_first(sockets, &stream, is_alone)?;
    let alloc = sockets.memory();
    let mut caller = Caller::new(alloc, stream);
    caller.hear(alloc, routes, HEAD_BYTES);
    await_rest(sockets, &caller, is_alone)?;
    Ok(caller)
}

/// A connection that no longer waits. What is answered to it may take a while.
fn next_of<S: Sockets>(sockets: &mut S, caller: Caller, is_whole: bool) -> Next
    ensures { IsNext (S.calls sockets.old) (S.calls sockets.new) caller is_whole result }
{
    if !is_whole {
        return Next::Late(caller);
    }
    match sockets.set_stream(caller.stream(), false) {
        Ok(()) => Next::Whole(caller),
        Err(error) => Next::Broken(error),
    }
}

impl Waiting {
    pub(crate) fn new(alloc: Global) -> Result<Waiting, AllocError>
        ensures none { IfOk result (λ w. (w.callers.items ≡ []) × (w.leavers.items ≡ []) × (w.looked ≡ None)) }
        ensures looks { IfOk result (λ w. w.looks ≡ 0) }
        ensures room { IfOk result (λ w. (most_waiting ≤ vec_capacity w.callers)
            × (most_waiting ≤ vec_capacity w.leavers)) }
    {
        Ok(Waiting {
            callers: Vec::with_capacity(alloc, MOST)?,
            leavers: Vec::with_capacity(alloc, MOST)?,
            looked: None,
            looks: 0,
            accepts: AcceptCount::new(),
        })
    }

    /// Drops the oldest connection that has sent no head, to make room for another. Where all have, it drops the oldest.
    fn let_one_go(&mut self)
        ensures callers { LetsOneGo self.old.callers.items self.new.callers.items }
        ensures others { (self.new.leavers ≡ self.old.leavers) × (self.new.looked ≡ self.old.looked)
            × (self.new.looks ≡ self.old.looks) }
        ensures unasked { self.new.accepts ≡ self.old.accepts }
    {
        let at = first_to_go(&self.callers);
        if at < self.callers.len() {
            let _ = self.callers.remove(at);
        }
    }

    /// Adds a new connection as the youngest. One that cannot be read is dropped.
    fn add(&mut self, new: io::Result<Caller>)
        ensures added { MatchResult new
            (λ caller. vec_len self.old.callers < vec_capacity self.old.callers
            → self.new.callers.items ≡ self.old.callers.items ++ caller ∷ [])
            (λ _. self.new.callers ≡ self.old.callers) }
        ensures most { vec_len self.new.callers ≤ vec_len self.old.callers + 1 }
        ensures others { (self.new.leavers ≡ self.old.leavers) × (self.new.looked ≡ self.old.looked)
            × (self.new.looks ≡ self.old.looks) }
        ensures unasked { self.new.accepts ≡ self.old.accepts }
    {
        if let Ok(caller) = new {
            let _ = self.callers.push(caller);
        }
    }

    /// Goes on without a new connection, where that is possible after this error of the listener. Where the system has
    /// no room for one, another is dropped.
    fn go_without(&mut self, error: io::Error) -> io::Result<bool>
        ensures none { is_no_connection (error_kind error) ≡ true
            → (result ≡ Ok false) × (self.new.callers ≡ self.old.callers) }
        ensures room { is_no_connection (error_kind error) ≡ false → IsWantOfRoom (raw_os_error error) true
            → (result ≡ Ok false) × LetsOneGo self.old.callers.items self.new.callers.items }
        ensures fault { is_no_connection (error_kind error) ≡ false → IsWantOfRoom (raw_os_error error) false
            → (result ≡ Err error) × (self.new.callers ≡ self.old.callers) }
        ensures without { IfOk result (λ has_come. has_come ≡ false) }
        ensures cause { IfErr result (λ e. e ≡ error) }
        ensures most { vec_len self.new.callers ≤ vec_len self.old.callers }
        ensures others { (self.new.leavers ≡ self.old.leavers) × (self.new.looked ≡ self.old.looked)
            × (self.new.looks ≡ self.old.looks) }
        ensures unasked { self.new.accepts ≡ self.old.accepts }
    {
        if is_none_yet(error.kind()) {
            return Ok(false);
        }
        if wants_room(error.raw_os_error()) {
            self.let_one_go();
            return Ok(false);
        }
        Err(error)
    }

    /// Whether no connection waits, and none ends.
    fn is_alone(&self) -> bool
        ensures { result ≡ ((vec_len self.now.callers == 0) && (vec_len self.now.leavers == 0)) }
    {
        self.callers.is_empty() && self.leavers.is_empty()
    }

    /// Accepts one more connection, and returns whether there was one. It waits for one only where no other connection
    /// waits.
    fn take<S: Sockets>(
        &mut self,
        sockets: &mut S,
        routes: &Routes,
        listener: &TcpListener,
    ) -> io::Result<bool>
        ensures full { most_waiting ≤ vec_len self.old.callers
            → (result ≡ Ok false) × (self.new.callers ≡ self.old.callers) × (sockets.new ≡ sockets.old) }
        ensures most { vec_len self.new.callers ≤ max (vec_len self.old.callers) most_waiting }
        ensures vain { result ≡ Ok false → vec_len self.new.callers ≤ vec_len self.old.callers }
        ensures asked { IfOk result (λ _. vec_len self.old.callers < most_waiting
            → min (self.old.accepts.count + 1) (2 ^ 64 - 1) ≤ self.new.accepts.count) }
        ensures counted { min self.old.accepts.count (2 ^ 64 - 1) ≤ self.new.accepts.count }
        ensures others { (self.new.leavers ≡ self.old.leavers) × (self.new.looked ≡ self.old.looked)
            × (self.new.looks ≡ self.old.looks) }
        ensures called { IfOk result (λ has_come. vec_len self.old.callers < most_waiting
            → HasAsked (S.calls sockets.old) (S.calls sockets.new) listener.now
            ((vec_len self.old.callers == 0) && (vec_len self.old.leavers == 0)) has_come) }
        ensures failed { IfErr result (FailsToAsk (S.calls sockets.old) (S.calls sockets.new) listener.now
            ((vec_len self.old.callers == 0) && (vec_len self.old.leavers == 0))) }
    {
        let is_alone = self.is_alone();
        if is_full(self.callers.len()) {
            return Ok(false);
        }
        sockets.set_listener(listener, !is_alone)?;
        match self.accepts.accept(sockets, listener) {
            Ok(stream) => {
                self.add(heard(sockets, routes, stream, is_alone));
                Ok(true)
            }
            Err(error) => self.go_without(error),
        }
    }

    /// How long ago the server last looked at the connections. It looks now.
    fn passed<S: Sockets>(&mut self, sockets: &mut S) -> io::Result<Duration>
        ensures passed { IfOk result (λ d. IsSomeAnd self.new.looked (λ now.
            as_nanos d ≡ time_since self.old.looked now)) }
        ensures failed { IfErr result (λ _. self.new.looked ≡ self.old.looked) }
        ensures looks { IfOk result (λ _. self.new.looks ≡ min (self.old.looks + 1) (2 ^ 64 - 1)) }
        ensures others { (self.new.callers ≡ self.old.callers) × (self.new.leavers ≡ self.old.leavers) }
        ensures unasked { self.new.accepts ≡ self.old.accepts }
        ensures called { IfOk result (λ _.
            IsClockRead (S.calls sockets.old) (S.calls sockets.new) self.new.looked []) }
        ensures cause { IfErr result (λ e.
            Makes (S.calls sockets.old) (S.calls sockets.new) (clock_read (Err e) ∷ [])) }
    {
        let now = sockets.instant()?;
        let passed = time_since(self.looked, now);
        self.looked = Some(now);
        self.looks = self.looks.saturating_add(1);
        Ok(passed)
    }

    /// How many bytes the bodies have together.
    fn kept(&self) -> usize
        ensures { result ≡ min (kept_by self.now.callers.items) (2 ^ 64 - 1) }
    {
        let mut kept = 0usize;
        for caller in &self.callers {
            kept = kept.saturating_add(caller.kept());
        }
        kept
    }

    /// The place of the first connection whose request is whole, or whose time for it is over; and whether it is whole.
    fn place(&mut self, alloc: Global, routes: &Routes, passed: Duration) -> Option<(usize, bool)>
        ensures bound { IfSome result (λ found. found.0 < vec_len self.new.callers) }
        ensures whole { IfSome result (λ found. found.1 ≡ true
            → HoldsAt (λ caller. caller.awaited ≡ Nothing) self.new.callers.items found.0) }
        ensures late { IfSome result (λ found. found.1 ≡ false → HoldsAt IsLate self.new.callers.items found.0) }
        ensures first { IfSome result (λ found. AllWithin Waits self.new.callers.items 0 found.0) }
        ensures none { result ≡ None → AllWithin Waits self.new.callers.items 0 (vec_len self.new.callers) }
        ensures count { vec_len self.new.callers ≡ vec_len self.old.callers }
        ensures time { IfSome result (λ found.
            AgeTo (as_nanos passed) self.old.callers.items self.new.callers.items found.0) }
        ensures time_of_all { result ≡ None
            → AgeTo (as_nanos passed) self.old.callers.items self.new.callers.items (vec_len self.new.callers) }
        ensures room { KeepsRoom self.old.callers.items self.new.callers.items }
        ensures others { (self.new.leavers ≡ self.old.leavers) × (self.new.looked ≡ self.old.looked)
            × (self.new.looks ≡ self.old.looks) }
        ensures unasked { self.new.accepts ≡ self.old.accepts }
    {
        let mut kept = self.kept();
        for at in 0..self.callers.len() {
            let Some(caller) = self.callers.get_mut(at) else {
                return None;
            };
            let others = kept.saturating_sub(caller.kept());
            let seen = look_at(alloc, routes, caller, passed, most_size(others, at == 0));
            if let Some(is_whole) = seen {
                return Some((at, is_whole));
            }
            kept = others.saturating_add(caller.kept());
        }
        None
    }

    /// Closes the connections that their clients have ended, or whose time is over.
    fn close_ended(&mut self, passed: Duration)
        ensures most { vec_len self.new.leavers ≤ vec_len self.old.leavers }
        ensures time { StayInTime (as_nanos passed) self.old.leavers.items self.new.leavers.items }
        ensures others { (self.new.callers ≡ self.old.callers) × (self.new.looked ≡ self.old.looked)
            × (self.new.looks ≡ self.old.looks) }
        ensures unasked { self.new.accepts ≡ self.old.accepts }
    {
        self.leavers.retain_mut(|leaver| !leaver.has_gone(passed));
    }

    /// Looks at all connections once. It closes those that have ended, and finds the first whose request is whole, or
    /// whose time for it is over; and whether it is whole.
    fn look<S: Sockets>(
        &mut self,
        sockets: &mut S,
        routes: &Routes,
    ) -> io::Result<Option<(usize, bool)>>
        ensures bound { IfOk result (λ seen. IfSome seen (λ found. found.0 < vec_len self.new.callers)) }
        ensures whole { IfOk result (λ seen. IfSome seen (λ found. found.1 ≡ true
            → HoldsAt (λ caller. caller.awaited ≡ Nothing) self.new.callers.items found.0)) }
        ensures late { IfOk result (λ seen. IfSome seen (λ found. found.1 ≡ false
            → HoldsAt IsLate self.new.callers.items found.0)) }
        ensures ended { IfOk result (λ _. IsSomeAnd self.new.looked (λ now.
            StayInTime (time_since self.old.looked now) self.old.leavers.items self.new.leavers.items)) }
        ensures time { IfOk result (λ seen. IsSomeAnd self.new.looked (λ now. IfSome seen (λ found.
            AgeTo (time_since self.old.looked now) self.old.callers.items self.new.callers.items found.0))) }
        ensures first { IfOk result (λ seen. IfSome seen (λ found.
            AllWithin Waits self.new.callers.items 0 found.0)) }
        ensures none { IfOk result (λ seen. seen ≡ None
            → AllWithin Waits self.new.callers.items 0 (vec_len self.new.callers)) }
        ensures room { IfOk result (λ _. KeepsRoom self.old.callers.items self.new.callers.items) }
        ensures count { IfOk result (λ _. vec_len self.new.callers ≡ vec_len self.old.callers) }
        ensures looks { IfOk result (λ _. self.new.looks ≡ min (self.old.looks + 1) (2 ^ 64 - 1)) }
        ensures unasked { self.new.accepts ≡ self.old.accepts }
        ensures called { IfOk result (λ _.
            IsClockRead (S.calls sockets.old) (S.calls sockets.new) self.new.looked []) }
        ensures cause { IfErr result (λ e.
            Makes (S.calls sockets.old) (S.calls sockets.new) (clock_read (Err e) ∷ [])) }
    {
        let passed = self.passed(sockets)?;
        self.close_ended(passed);
        Ok(self.place(sockets.memory(), routes, passed))
    }

    /// Adds a connection that ends. Where too many others end meanwhile, the first of them is closed.
    fn leave(&mut self, leaver: Leaver)
        ensures room { vec_len self.old.leavers < most_waiting
            → vec_len self.old.leavers < vec_capacity self.old.leavers
            → self.new.leavers.items ≡ self.old.leavers.items ++ leaver ∷ [] }
        ensures full { most_waiting ≤ vec_len self.old.leavers
            → self.new.leavers.items ≡ drop 1 self.old.leavers.items ++ leaver ∷ [] }
        ensures others { (self.new.callers ≡ self.old.callers) × (self.new.looked ≡ self.old.looked)
            × (self.new.looks ≡ self.old.looks) }
    {
        if is_full(self.leavers.len()) {
            let _ = self.leavers.remove(0);
        }
        let _ = self.leavers.push(leaver);
    }

    /// Ends the connection of a client that has its answer. A connection that fails has ended.
    pub(crate) fn part<S: Sockets>(&mut self, sockets: &mut S, caller: Caller)
        ensures others { (self.new.callers ≡ self.old.callers) × (self.new.looked ≡ self.old.looked) }
        ensures parted { IsParted (S.calls sockets.old) (S.calls sockets.new) caller.stream
            (vec_capacity self.old.leavers) self.old.leavers.items self.new.leavers.items }
    {
        match Leaver::new(sockets, caller.into_stream()) {
            Ok(Some(leaver)) => self.leave(leaver),
            Ok(None) => {}
            Err(_) => {}
        }
    }

    /// Looks once at the clients that have their answer, and waits a little where one has not ended. Returns whether it
    /// waited.
    fn await_ends<S: Sockets>(&mut self, sockets: &mut S) -> io::Result<bool>
        ensures callers { self.new.callers ≡ self.old.callers }
        ensures ended { result ≡ Ok false → self.new.leavers.items ≡ [] }
        ensures time { IfOk result (λ _. IsSomeAnd self.new.looked (λ now.
            StayInTime (time_since self.old.looked now) self.old.leavers.items self.new.leavers.items)) }
        ensures looks { IfOk result (λ _. self.new.looks ≡ min (self.old.looks + 1) (2 ^ 64 - 1)) }
        ensures called { IfOk result (λ waits.
            IsClockRead (S.calls sockets.old) (S.calls sockets.new) self.new.looked (pause_if waits)) }
        ensures cause { IfErr result (λ e.
            Makes (S.calls sockets.old) (S.calls sockets.new) (clock_read (Err e) ∷ [])) }
    {
        let ago = self.passed(sockets)?;
        self.close_ended(ago);
        if self.leavers.is_empty() {
            return Ok(false);
        }
        sockets.sleep(Duration::from_millis(PAUSE));
        Ok(true)
    }

    /// Waits until all clients that have their answer have ended. It gives up where the clock fails, and after so many
    /// looks that no server makes.
    pub(crate) fn part_all<S: Sockets>(&mut self, sockets: &mut S)
        ensures callers { self.new.callers ≡ self.old.callers }
        ensures ended { (self.new.leavers.items ≡ []) ⊎ ((e : IoError)
            × EndsBy (S.calls sockets.old) (S.calls sockets.new) (clock_read (Err e)))
            ⊎ (2 ^ 64 - 1 ≤ self.new.looks) }
    {
        for _ in 0..u64::MAX {
            match self.await_ends(sockets) {
                Ok(true) => {}
                Ok(false) => return,
                Err(_) => return,
            }
        }
    }

    /// Waits a little. Where all places are taken, drops a connection at once to make room for those that the system
    /// queues.
    fn rest<S: Sockets>(&mut self, sockets: &mut S, has_come: bool)
        ensures full { most_waiting ≤ vec_len self.old.callers
            → LetsOneGo self.old.callers.items self.new.callers.items }
        ensures room { vec_len self.old.callers < most_waiting → self.new.callers ≡ self.old.callers }
        ensures others { (self.new.leavers ≡ self.old.leavers) × (self.new.looked ≡ self.old.looked)
            × (self.new.looks ≡ self.old.looks) }
        ensures unasked { self.new.accepts ≡ self.old.accepts }
        ensures pause { vec_len self.old.callers < most_waiting
            → Makes (S.calls sockets.old) (S.calls sockets.new) (pause_if (not has_come)) }
        ensures no_pause { most_waiting ≤ vec_len self.old.callers → sockets.new ≡ sockets.old }
    {
        if is_full(self.callers.len()) {
            self.let_one_go();
        } else if !has_come {
            sockets.sleep(Duration::from_millis(PAUSE));
        }
    }

    /// Waits for a connection with a request, or one whose time is over. It gives up only after so many looks that no
    /// server makes.
    pub(crate) fn next<S: Sockets>(
        &mut self,
        sockets: &mut S,
        routes: &Routes,
        listener: &TcpListener,
    ) -> io::Result<Option<Next>>
        ensures next { IfOk result (λ next. IfSome next NoLongerWaits) }
        ensures none { IfOk result (λ next. next ≡ None → 2 ^ 64 - 1 ≤ self.new.looks) }
        ensures ended { IfOk result (λ next. IfSome next (λ _. All HasTime self.new.leavers.items)) }
        ensures asked { IfOk result (λ next. IfSome next (λ _. vec_len self.old.callers < most_waiting
            → min (self.old.accepts.count + 1) (2 ^ 64 - 1) ≤ self.new.accepts.count)) }
        ensures called { IfOk result (λ next. IfSome next (IsLetGo (S.calls sockets.old) (S.calls sockets.new))) }
        ensures pauses { PausesInVain (S.calls sockets.old) (S.calls sockets.new) }
        ensures failed { IfErr result (FailsBy (S.calls sockets.old) (S.calls sockets.new)) }
    {
        for _ in 0..u64::MAX {
            let has_come = self.take(sockets, routes, listener)?;
            match self.look(sockets, routes)? {
                Some((at, is_whole)) => {
                    let caller = self.callers.remove(at);
                    return Ok(Some(next_of(sockets, caller, is_whole)));
                }
                None => self.rest(sockets, has_come),
            }
        }
        Ok(None)
    }
}
