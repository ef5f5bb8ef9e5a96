//! The calls of the system that the server makes at its sockets, beside reads and writes, and at its clock.
//!
//! What is made of their answers is elsewhere. It is proved over any, so over one that keeps a list of them too.

use std::alloc::Global;
use std::net::{Shutdown, TcpListener, TcpStream};
use std::time::{Duration, Instant};
use std::{io, thread};

/// Sockets and a clock. The system's keep no list of the calls.
pub(crate) trait Sockets {
    ghost use Rattle.std.specs.Prelude.{List, [], ◌∷◌, Option};
    ghost use Rattle.std.specs.Duration.{as_nanos};
    ghost use Rattle.tb_desk.specs.Sockets.{Call, Makes, accepted, clock_read, listener_set, read_time_set};
    ghost use Rattle.tb_desk.specs.Sockets.{slept, stream_set, write_shut};

    // the calls that were made, where they are kept
    ghost calls: { Self → Option (List Call) };

    /// The memory for what comes.
    fn memory(&self) -> Global;

    /// Sets whether a listener answers at once, also where no connection has come.
    fn set_listener(&mut self, listener: &TcpListener, nonblocking: bool) -> io::Result<()>
        ensures { Makes (calls self.old) (calls self.new) (listener_set listener.now nonblocking result ∷ []) };

    /// The next connection of a listener.
    fn accept(&mut self, listener: &TcpListener) -> io::Result<TcpStream>
        ensures { Makes (calls self.old) (calls self.new) (accepted listener.now result ∷ []) };

    /// Sets whether a connection answers at once, also where no byte has come.
    fn set_stream(&mut self, stream: &TcpStream, nonblocking: bool) -> io::Result<()>
        ensures { Makes (calls self.old) (calls self.new) (stream_set stream.now nonblocking result ∷ []) };

    /// Sets for how long a read of a connection waits for a byte.
    fn set_read_time(&mut self, stream: &TcpStream, time: Duration) -> io::Result<()>
        ensures { Makes (calls self.old) (calls self.new) (read_time_set stream.now (as_nanos time) result ∷ []) };

    /// Says to a client that nothing more comes.
    fn shut_writing(&mut self, stream: &TcpStream) -> io::Result<()>
        ensures { Makes (calls self.old) (calls self.new) (write_shut stream.now result ∷ []) };

    /// The time now.
    fn instant(&mut self) -> io::Result<Instant>
        ensures { Makes (calls self.old) (calls self.new) (clock_read result ∷ []) };

    fn sleep(&mut self, time: Duration)
        ensures { Makes (calls self.old) (calls self.new) (slept (as_nanos time) ∷ []) };
}

/// Sockets of the system's.
#[derive(Clone, Copy)]
pub(crate) struct SystemSockets<'a> {
    pub(crate) rt: &'a HostRuntime,
}

impl Sockets for SystemSockets<'_> {
    ghost use Rattle.std.specs.Prelude.{None};

    ghost calls = { λ _. None };

    fn memory(&self) -> Global {
        self.rt.alloc()
    }

    fn set_listener(&mut self, listener: &TcpListener, nonblocking: bool) -> io::Result<()> {
        listener.set_nonblocking(nonblocking)
    }

    fn accept(&mut self, listener: &TcpListener) -> io::Result<TcpStream> {
        let (stream, _) = listener.accept()?;
        Ok(stream)
    }

    fn set_stream(&mut self, stream: &TcpStream, nonblocking: bool) -> io::Result<()> {
        stream.set_nonblocking(nonblocking)
    }

    fn set_read_time(&mut self, stream: &TcpStream, time: Duration) -> io::Result<()> {
        stream.set_read_timeout(Some(time))
    }

    fn shut_writing(&mut self, stream: &TcpStream) -> io::Result<()> {
        stream.shutdown(Shutdown::Write)
    }

    fn instant(&mut self) -> io::Result<Instant> {
        Instant::now(self.rt)
    }

    fn sleep(&mut self, time: Duration) {
        thread::sleep(self.rt, time);
    }
}
