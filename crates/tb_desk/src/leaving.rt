//! Connections whose client has its answer. Their end keeps nobody from the desk.

ghost use Rattle.std.specs.Prelude.{◌≡◌, ◌↔◌, ◌⊎◌, ◌≤◌, ◌+◌, ◌-◌, ◌*◌, ◌^◌, IfErr, IfOk, IfSome, IsTrue, MatchResult};
ghost use Rattle.std.specs.Prelude.{is_some, min, Some, true};
ghost use Rattle.std.specs.Duration.{as_nanos};
ghost use Rattle.tb_host.specs.Patience.{seconds, wait_left};
ghost use Rattle.tb_desk.specs.Leaving.{HasEnded};
ghost use Rattle.tb_desk.specs.Sockets.{FailsFarewell, Makes, farewell};
ghost use Rattle.tb_http.specs.Asks.{body_limit};

use crate::counting::ReadCount;
use crate::sockets::Sockets;
use std::io;
use std::net::TcpStream;
use std::time::Duration;
use tb_host::left_after;
use tb_http::BODY_BYTES;

/// How many seconds a client has after its answer, for what it still sends.
const FAREWELL: u64 = 2;

/// How many milliseconds the server waits for the client's end at once. Nearly every client ends when it has its
/// answer.
const FIRST: u64 = 20;

/// How many times in a row a connection is read.
const READS: u32 = 4;

/// A connection whose client has its answer. What the client still sends is read and thrown away. If the connection were
/// closed at once, bytes on their way would make the system discard the answer.
#[derive(Drop)]
pub(crate) struct Leaver {
    stream: TcpStream,
    left: Duration,
    /// How many bytes more are read.
    most: usize,
    reads: ReadCount,
}

/// Whether a connection is to be closed: its client sends nothing more, or no time is left for it.
fn is_over(has_ended: bool, left: Duration) -> bool
    ensures { IsTrue result ↔ (has_ended ≡ true) ⊎ (as_nanos left ≡ 0) }
{
    has_ended || left.is_zero()
}

impl Leaver {
    /// Ends the answer. Returns `None` where the client has ended the connection too.
    pub(crate) fn new<S: Sockets>(sockets: &mut S, stream: TcpStream) -> io::Result<Option<Leaver>>
        ensures left { IfOk result (λ made. IfSome made (λ leaver. as_nanos leaver.left ≡ seconds 2)) }
        ensures most { IfOk result (λ made. IfSome made (λ leaver. leaver.most ≤ body_limit * 2)) }
        ensures read { IfOk result (λ made. IfSome made (λ leaver. 1 ≤ leaver.reads.count)) }
        ensures stream { IfOk result (λ made. IfSome made (λ leaver. leaver.stream ≡ stream)) }
        ensures called { IfOk result (λ made.
            Makes (S.calls sockets.old) (S.calls sockets.new) (farewell stream (is_some made))) }
        ensures failed { IfErr result (FailsFarewell (S.calls sockets.old) (S.calls sockets.new) stream) }
    {
        sockets.shut_writing(&stream)?;
        sockets.set_read_time(&stream, Duration::from_millis(FIRST))?;
        let mut leaver = Leaver {
            stream,
            left: Duration::from_secs(FAREWELL),
            most: BODY_BYTES * 2,
            reads: ReadCount::new(),
        };
        if leaver.has_ended() {
            return Ok(None);
        }
        sockets.set_stream(&leaver.stream, true)?;
        Ok(Some(leaver))
    }

    /// Counts the bytes of one read.
    fn note(&mut self, came: io::Result<usize>)
        ensures left { self.new.left ≡ self.old.left }
        ensures most { MatchResult came (λ count. self.new.most ≡ self.old.most - count)
            (λ _. self.new.most ≡ self.old.most) }
        ensures unread { self.new.reads ≡ self.old.reads }
        ensures stream { self.new.stream ≡ self.old.stream }
    {
        match came {
            Ok(count) => self.most = self.most.saturating_sub(count),
            Err(_) => {}
        }
    }

    /// Reads some of what the client still sends. Returns whether it sends nothing more, or more than a request has.
    fn has_ended(&mut self) -> bool
        ensures over { IsTrue result → HasEnded self.new }
        ensures ended { self.new.reads.end ≡ Some true → IsTrue result }
        ensures left { self.new.left ≡ self.old.left }
        ensures most { self.new.most ≤ self.old.most }
        ensures read { min (self.old.reads.count + 1) (2 ^ 64 - 1) ≤ self.new.reads.count }
        ensures stream { self.new.stream ≡ self.old.stream }
    {
        let mut rest = [0; 16_384];
        for _ in 0..READS {
            let came = self.reads.read_after(&self.stream, &mut rest, 0);
            self.note(came);
            if let Some(has_ended) = self.reads.end() {
                return has_ended;
            }
        }
        self.most == 0
    }

    /// Whether the connection is to be closed, where so much time has passed since the last look.
    pub(crate) fn has_gone(&mut self, passed: Duration) -> bool
        ensures left { as_nanos self.new.left ≡ wait_left (as_nanos self.old.left) (as_nanos passed) }
        ensures late { as_nanos self.new.left ≡ 0 → IsTrue result }
        ensures over { IsTrue result → (as_nanos self.new.left ≡ 0) ⊎ HasEnded self.new }
        ensures ended { self.new.reads.end ≡ Some true → IsTrue result }
        ensures read { min (self.old.reads.count + 1) (2 ^ 64 - 1) ≤ self.new.reads.count }
        ensures stream { self.new.stream ≡ self.old.stream }
    {
        self.left = left_after(self.left, passed);
        is_over(self.has_ended(), self.left)
    }
}
