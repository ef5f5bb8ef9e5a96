//! One request, and what is done for it.

ghost use Rattle.std.specs.Prelude.{◌≡◌, ◌≢◌, ◌⊎◌, Bool, IfErr, IsTrue, Err as ErrOf, Ok as OkOf, false, true};
ghost use Rattle.sqlite.specs.Held.{state};
ghost use Rattle.sqlite.specs.State.{HasCleanDisk};
ghost use Rattle.tb_store.specs.Handing.{WantsToTell};
ghost use Rattle.tb_tables.specs.Leaving.{IsFaultless};
ghost use Rattle.tb_desk.specs.Exchanges.{Adds, IsDeskEnd, IsExchange, IsShutFor, after, attempted, led_to, looked};
ghost use Rattle.tb_desk.specs.Serving.{ended_by};

use crate::serving::{ended_by, has_shut};
use sqlite::Alter;
use std::io;
use tb_answer::Broken;
use tb_host::Cause;
use tb_http::{Reply, Status};
use tb_store::Desk;

/// What came of an attempt to answer a request.
#[derive(Clone, Copy)]
pub(crate) enum Tried {
    /// The connection failed before the request was read.
    Lost,
    /// Memory was wanting before the request was read.
    Memory,
    /// The request was read and answered, as far as the connection allowed.
    Answered(Result<Status, Broken>),
}

/// A request on a connection. What is made of its calls is proved over any, so over one that keeps a list of them too.
pub(crate) trait Exchange {
    ghost use Rattle.std.specs.Prelude.{◌≡◌, [], ◌∷◌, IsTrue, List, Option, is_ok};
    ghost use Rattle.tb_desk.specs.Exchanges.{Adds, ExchangeStep, answered_so, begun, handed_on, looked_for, opened};
    ghost use Rattle.tb_desk.specs.Exchanges.{refused};

    /// Gives the bytes of the request.
    type Request: Drop;

    /// Takes the answer.
    type Out: Drop;

    // what was done for the request, where that is kept
    ghost done: { Self → Option (List ExchangeStep) };

    // its desk has files, which may leave their place
    ghost HasFiles: { Self → Type 0 };

    /// Whether the desk's files are no longer in their place.
    fn has_moved(&mut self) -> bool
        ensures files { IsTrue result → HasFiles self.old }
        ensures kept { HasFiles self.new → HasFiles self.old }
        ensures done { Adds (done self.old) (done self.new) (looked_for result ∷ []) };

    /// Answers that the request is not done.
    fn refuse(&mut self, reply: Reply)
        ensures kept { HasFiles self.new → HasFiles self.old }
        ensures done { Adds (done self.old) (done self.new) (refused reply ∷ []) };

    /// What gives the request, from its first byte on.
    fn request(&mut self) -> io::Result<Self::Request>
        ensures kept { HasFiles self.new → HasFiles self.old }
        ensures done { Adds (done self.old) (done self.new) (begun (is_ok result) ∷ []) };

    /// What takes the answer. It may keep a part of it back.
    fn out(&mut self) -> io::Result<Self::Out>
        ensures kept { HasFiles self.new → HasFiles self.old }
        ensures done { Adds (done self.old) (done self.new) (opened (is_ok result) ∷ []) };

    /// Reads the request, does what it asks, and writes the answer.
    fn answer<S: Alter>(
        &mut self,
        desk: &mut Desk<S>,
        request: &mut Self::Request,
        out: &mut Self::Out,
    ) -> Result<Status, Broken>
        ensures limits { desk.new.limits ≡ desk.old.limits }
        ensures kept { HasFiles self.new → HasFiles self.old }
        ensures done { Adds (done self.old) (done self.new) (answered_so result ∷ []) };

    /// Hands on to the client what was kept back.
    fn hand_on(&mut self, out: Self::Out)
        ensures kept { HasFiles self.new → HasFiles self.old }
        ensures done { Adds (done self.old) (done self.new) (handed_on ∷ []) };
}

/// Whether the desk's files are no longer in their place. The client is told so.
fn is_lost<E: Exchange>(exchange: &mut E) -> bool
    ensures done { Adds (E.done exchange.old) (E.done exchange.new) (looked result) }
    ensures files { IsTrue result → E.HasFiles exchange.old }
    ensures kept { E.HasFiles exchange.new → E.HasFiles exchange.old }
{
    let has_moved = exchange.has_moved();
    if has_moved {
        exchange.refuse(Reply::Device);
    }
    has_moved
}

/// Tries to answer a request. What is written of the answer is handed on, whatever came of it.
fn attempt<S: Alter, E: Exchange>(exchange: &mut E, desk: &mut Desk<S>) -> Tried
    ensures done { Adds (E.done exchange.old) (E.done exchange.new) (attempted result) }
    ensures kept { E.HasFiles exchange.new → E.HasFiles exchange.old }
    ensures limits { desk.new.limits ≡ desk.old.limits }
{
    let Ok(mut request) = exchange.request() else {
        return Tried::Lost;
    };
    let Ok(mut out) = exchange.out() else {
        return Tried::Memory;
    };
    let answered = exchange.answer(desk, &mut request, &mut out);
    exchange.hand_on(out);
    Tried::Answered(answered)
}

/// What follows from an answer that was written whole.
///
/// # Errors
///
/// `FileShut`, where a fault has shut the desk's store.
fn follow_answer<S: Alter>(desk: &mut Desk<S>, status: Status) -> Result<bool, Cause>
    ensures done { (shut : Bool) × (status ≢ Status.ServiceUnavailable → shut ≡ false)
        × (result ≡ ended_by (OkOf status) false shut) }
    ensures shut { HasCleanDisk (state S.Store desk.new.conn) → result ≡ ErrOf Cause.FileShut
        → IsFaultless S.Store desk.old.conn desk.new.conn → ⊥ }
    ensures open { HasCleanDisk (state S.Store desk.new.conn) → result ≡ OkOf true
        → status ≡ Status.ServiceUnavailable → IsTrue (state S.Store desk.new.conn).is_open
        ⊎ WantsToTell (state S.Store desk.old.conn) (state S.Store desk.new.conn) }
    ensures cause { IfErr result IsDeskEnd }
    ensures files { result ≢ ErrOf Cause.FilesMoved }
    ensures limits { desk.new.limits ≡ desk.old.limits }
{
    ended_by(Ok(status), false, has_shut(desk, status))
}

/// What follows from an attempt to answer a request.
///
/// # Errors
///
/// The cause, if the desk cannot be served any further.
fn follow<S: Alter, E: Exchange>(
    exchange: &mut E,
    desk: &mut Desk<S>,
    tried: Tried,
) -> Result<bool, Cause>
    ensures done { (moved shut : Bool) × IsShutFor tried shut
        × Adds (E.done exchange.old) (E.done exchange.new) (after tried moved)
        × (result ≡ led_to tried moved shut) }
    ensures shut { HasCleanDisk (state S.Store desk.new.conn) → result ≡ ErrOf Cause.FileShut
        → IsFaultless S.Store desk.old.conn desk.new.conn → ⊥ }
    ensures open { HasCleanDisk (state S.Store desk.new.conn) → result ≡ OkOf true
        → tried ≡ Tried.Answered (OkOf Status.ServiceUnavailable) → IsTrue (state S.Store desk.new.conn).is_open
        ⊎ WantsToTell (state S.Store desk.old.conn) (state S.Store desk.new.conn) }
    ensures cause { IfErr result IsDeskEnd }
    ensures files { result ≡ ErrOf Cause.FilesMoved → E.HasFiles exchange.old }
    ensures limits { desk.new.limits ≡ desk.old.limits }
{
    match tried {
        Tried::Lost => Ok(false),
        Tried::Memory => {
            exchange.refuse(Reply::Memory);
            Ok(true)
        }
        Tried::Answered(Ok(status)) => follow_answer(desk, status),
        Tried::Answered(Err(Broken::Read)) => {
            let has_moved = is_lost(exchange);
            ended_by(Err(Broken::Read), has_moved, false)
        }
        Tried::Answered(Err(Broken::Write)) => ended_by(Err(Broken::Write), false, false),
    }
}

/// Answers one request. Returns whether the client has a whole answer.
///
/// Where the desk's files are no longer in their place, nothing is done. A connection that fails counts as served.
///
/// # Errors
///
/// The cause, if the desk cannot be served any further. The client has an answer then.
pub(crate) fn serve_one<S: Alter, E: Exchange>(
    exchange: &mut E,
    desk: &mut Desk<S>,
) -> Result<bool, Cause>
    ensures done { IsExchange (E.done exchange.old) (E.done exchange.new) result }
    ensures cause { IfErr result IsDeskEnd }
    ensures in_memory { result ≡ ErrOf Cause.FilesMoved → E.HasFiles exchange.old }
    ensures limits { desk.new.limits ≡ desk.old.limits }
{
    if is_lost(exchange) {
        return Err(Cause::FilesMoved);
    }
    let tried = attempt(exchange, desk);
    follow(exchange, desk, tried)
}
