//! Calls of the system that are counted: reads of a connection, and questions whether one has come. What they answer is
//! not known; that they are made is.

ghost use Rattle.std.specs.Prelude.{◌≡◌, ◌≤◌, ◌+◌, ◌-◌, ◌^◌, [], ◌∷◌, IfOk, length, min, take};
ghost use Rattle.tb_desk.specs.Serving.{end_after};
ghost use Rattle.tb_desk.specs.Sockets.{Makes, accepted};

use crate::callers::is_none_yet;
use crate::sockets::Sockets;
use std::io::{self, Read};
use std::net::{TcpListener, TcpStream};

/// Whether a connection sends nothing more, by a read of it. A read of some bytes says nothing.
fn end_after(came: &io::Result<usize>) -> Option<bool>
    ensures { result ≡ end_after came.now }
{
    match came {
        Ok(0) => Some(true),
        Ok(_) => None,
        Err(error) => Some(!is_none_yet(error.kind())),
    }
}

/// How many times a connection was read, and what the last read said of its end. Only a read counts, or says that.
#[derive(Drop)]
pub(crate) struct ReadCount {
    count: u64,
    /// Whether the connection sends nothing more. It is not known before the first read, and after one of some bytes.
    end: Option<bool>,
}

impl ReadCount {
    pub(crate) fn new() -> ReadCount
        ensures { result.count ≡ 0 }
    {
        ReadCount {
            count: 0,
            end: None,
        }
    }

    /// Whether the connection sends nothing more, by the last read.
    pub(crate) fn end(&self) -> Option<bool>
        ensures { result ≡ self.now.end }
    {
        self.end
    }

    /// Reads into the part of a buffer after its first bytes, which stay.
    pub(crate) fn read_after(
        &mut self,
        mut stream: &TcpStream,
        room: &mut [u8],
        filled: usize,
    ) -> io::Result<usize>
        ensures counted { filled ≤ length room.old → self.new.count ≡ min (self.old.count + 1) (2 ^ 64 - 1) }
        ensures kept { self.old.count ≤ self.new.count }
        ensures said { filled ≤ length room.old → self.new.end ≡ end_after result }
        ensures length { length room.new ≡ length room.old }
        ensures stays { take filled room.new ≡ take filled room.old }
        ensures bound { filled ≤ length room.old → IfOk result (λ n. filled + n ≤ length room.old) }
    {
        if filled > room.len() {
            return Ok(0);
        }
        self.count = self.count.saturating_add(1);
        let (_, rest) = room.split_at_mut(filled);
        let came = stream.read(rest);
        self.end = end_after(&came);
        came
    }
}

/// How many times a listener was asked for a connection. Only asking counts.
#[derive(Drop)]
pub(crate) struct AcceptCount {
    count: u64,
}

impl AcceptCount {
    pub(crate) fn new() -> AcceptCount
        ensures { result.count ≡ 0 }
    {
        AcceptCount { count: 0 }
    }

    /// The next connection of a listener.
    pub(crate) fn accept<S: Sockets>(
        &mut self,
        sockets: &mut S,
        listener: &TcpListener,
    ) -> io::Result<TcpStream>
        ensures counted { self.new.count ≡ min (self.old.count + 1) (2 ^ 64 - 1) }
        ensures called { Makes (S.calls sockets.old) (S.calls sockets.new) (accepted listener.now result ∷ []) }
    {
        self.count = self.count.saturating_add(1);
        sockets.accept(listener)
    }
}
