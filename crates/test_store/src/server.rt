//! A desk in memory that answers requests. The contracts of its calls are not repeated at each place that makes them,
//! which keeps a test cheap to prove. A test asserts at run time what it gets.

use sqlite::MemStore;
use std::alloc::Global;
use std::process::Abort;
use tb_answer::{Broken, answer, answer_all, run_line_from};
use tb_cli::Line;
use tb_conllu::{Sink, Source};
use tb_core::Limits;
use tb_http::{Routes, Status};
use tb_store::Desk;

/// The largest limits that a desk may have.
const LIMITS: Limits = Limits {
    sentences: 1_000_000,
    moves: 1_000_000_000,
    hits: 1_000_000,
};

#[derive(Drop)]
pub(crate) struct Server {
    alloc: Global,
    routes: Routes,
    desk: Desk<MemStore>,
}

impl Server {
    pub(crate) fn new(rt: &impl Abort, alloc: Global) -> Server {
        Server {
            alloc,
            routes: Routes::new(alloc).ok().expect(rt, "routes"),
            desk: Desk::in_memory(alloc, LIMITS).expect(rt, "a desk"),
        }
    }

    /// Answers one request.
    pub(crate) fn answer<R: Source, W: Sink>(
        &mut self,
        reader: &mut R,
        out: &mut W,
    ) -> Result<Status, Broken> {
        answer(self.alloc, &self.routes, &mut self.desk, reader, out)
    }

    /// Answers requests in turn.
    pub(crate) fn answer_all<W: Sink>(
        &mut self,
        requests: &[Vec<u8>],
        out: &mut W,
    ) -> Result<(), Broken> {
        answer_all(self.alloc, &self.routes, &mut self.desk, requests, out)
    }

    /// Reads the body of a line, and runs the line. Returns its exit status.
    pub(crate) fn run_line<R: Source, W: Sink>(
        &mut self,
        line: &Line,
        reader: &mut R,
        out: &mut W,
    ) -> u8 {
        run_line_from(self.alloc, line, reader, &mut self.desk, out)
    }

    /// How many commands the desk has accepted.
    pub(crate) fn moves(&mut self, rt: &impl Abort) -> usize {
        self.desk.moves().expect(rt, "moves").len()
    }
}

/// Answers one request into a buffer of this size. Returns how that ended, and the buffer.
pub(crate) fn answer_into(
    rt: &impl Abort,
    alloc: Global,
    server: &mut Server,
    request: &[u8],
    size: usize,
) -> (Result<Status, Broken>, Vec<u8>) {
    let mut room = vec![in alloc; 0u8; size].expect(rt, "memory");
    let mut reader = request;
    let mut out: &mut [u8] = &mut room;
    let ended = server.answer(&mut reader, &mut out);
    (ended, room)
}
