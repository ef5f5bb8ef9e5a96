//! Serving one request: reads it, does what it asks, and writes the response.

ghost use Rattle.std.specs.Prelude.{◌≡◌, ◌≢◌, ◌+◌, ℕ, List, [], Option, IfErr, IfOk, Err as ErrOf, map, vec_items};
ghost use Rattle.tb_answer.specs.Prelude.{AnyStatus, AskedFor, AwaitsMore, body_limit, InState, IsAtMostOne};
ghost use Rattle.tb_answer.specs.Prelude.{reported_by, TakenAfter, TakesAtMost};
ghost use Rattle.tb_answer.specs.Served.{IsReplied, IsReplySent, IsSafeFor, IsSafeOf, Serves, outcome};
ghost use Rattle.tb_answer.specs.Turns.{AreServed};

use crate::asks::respond_ask;
use crate::responses::respond_reply;
use sqlite::Alter;
use std::alloc::Global;
use tb_conllu::{Sink, SliceSource, Source};
use tb_http::{Ask, AskFault, HEAD_BYTES, Reply, Routes, Status, read_ask};
use tb_store::Desk;

/// Why a request has no whole response.
#[derive(Clone, Copy, Debug, PartialEq, Eq)]
pub enum Broken {
    /// The reader failed. Nothing was done or written.
    Read,
    /// The sink refused a part of the response. What the request asked is done.
    Write,
}

/// The result for a response: its status, or `Write` where the sink refused a part.
pub fn outcome(sent: Option<Status>) -> Result<Status, Broken>
    ensures { result ≡ outcome sent }
{
    match sent {
        Some(status) => Ok(status),
        None => Err(Broken::Write),
    }
}

/// Answers what was read of a request: does what it asks, or says that memory ran out. After a failed read it writes
/// nothing.
fn answer_read<'b, S: Alter, W: Sink>(
    read: Result<Ask<'b>, AskFault>,
    alloc: Global,
    desk: &mut Desk<S>,
    out: &mut W,
) -> Result<Status, Broken>
    ensures asked { IfOk read.entry (λ ask. (sent : Option AnyStatus) × (result ≡ outcome sent)
        × InState S.Store desk.old desk.new (λ s. IsReplied (W.held out.old) (W.held out.new) (W.IsRefusal out.new)
        sent S.Store desk.old.limits s (reported_by ask) desk.old desk.new)) }
    ensures crash { IfOk read.entry (λ ask. IsSafeFor S.Store (reported_by ask) desk.old desk.new) }
    ensures unknown { IfErr read.entry (λ _. desk.new ≡ desk.old) }
    ensures memory { read.entry ≡ ErrOf AskFault.Memory → (sent : Option AnyStatus) × (result ≡ outcome sent)
        × IsReplySent (W.held out.old) (W.held out.new) (W.IsRefusal out.new) sent Reply.Memory }
    ensures broken { read.entry ≡ ErrOf AskFault.Broken → (result ≡ ErrOf Broken.Read)
        × (W.held out.new ≡ W.held out.old) }
    ensures limits { desk.new.limits ≡ desk.old.limits }
{
    match read {
        Ok(ask) => outcome(respond_ask(alloc, desk, ask, out)),
        Err(AskFault::Memory) => outcome(respond_reply(out, Reply::Memory)),
        Err(AskFault::Broken) => Err(Broken::Read),
    }
}

/// Reads one request, does what it asks, and answers it. Returns the status of a response that was written whole.
///
/// It reads only while a part of the request is missing, and takes at most a head of 8,192 bytes and its body.
///
/// # Errors
///
/// - `Read`: the reader failed before the request was complete. The desk and the sink are unchanged.
/// - `Write`: the sink refused a part of the response, and has a first part of it. An accepted command stays accepted.
pub fn answer<S: Alter, R: Source, W: Sink>(
    alloc: Global,
    routes: &Routes,
    desk: &mut Desk<S>,
    reader: &mut R,
    out: &mut W,
) -> Result<Status, Broken>
    ensures answered { result ≢ ErrOf Broken.Read → Serves S.Store (R.left reader.old) desk.old desk.new
        (W.held out.old) (W.held out.new) (W.IsRefusal out.new) result }
    ensures broken { result ≡ ErrOf Broken.Read → (desk.new ≡ desk.old) × (W.held out.new ≡ W.held out.old) }
    ensures cause { result ≡ ErrOf Broken.Read → ((why : R.Failure) × R.IsFailure reader.new why)
        × TakenAfter [] (R.left reader.old) (R.left reader.new) (AwaitsMore body_limit) }
    ensures asked { result ≢ ErrOf Broken.Read → (taken : List ℕ)
        × AskedFor (AwaitsMore body_limit) [] (R.pieces reader.old) (R.pieces reader.new) taken }
    ensures one { TakenAfter [] (R.left reader.old) (R.left reader.new) (IsAtMostOne body_limit) }
    ensures most { TakesAtMost (8192 + body_limit) (R.left reader.old) (R.left reader.new) }
    ensures crash { IsSafeOf S.Store (R.left reader.old) desk.old desk.new }
    ensures limits { desk.new.limits ≡ desk.old.limits }
{
    let mut buf = [0; HEAD_BYTES];
    answer_read(read_ask(alloc, routes, reader, &mut buf), alloc, desk, out)
}

/// Answers a list of requests in turn, and stops at the first without a whole response.
///
/// Each request is read from its own bytes and uses the desk that the one before left.
///
/// # Errors
///
/// `Write`: the sink refused a part of a response. It has the earlier responses and a first part of this one. An
/// accepted command stays accepted. `Read` never comes, since a reader in memory does not fail.
pub fn answer_all<S: Alter, W: Sink>(
    alloc: Global,
    routes: &Routes,
    desk: &mut Desk<S>,
    requests: &[Vec<u8>],
    out: &mut W,
) -> Result<(), Broken>
    ensures answered { AreServed W.held W.IsRefusal S.Store
        (map vec_items requests.now) desk.old desk.new out.old out.new result }
    ensures write { IfErr result (λ e. e ≡ Broken.Write) }
    ensures limits { desk.new.limits ≡ desk.old.limits }
{
    for request in requests {
        let mut reader = SliceSource {
            bytes: request.as_slice(),
        };
        answer(alloc, routes, desk, &mut reader, out)?;
    }
    Ok(())
}
