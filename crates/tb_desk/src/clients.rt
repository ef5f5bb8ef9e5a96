//! The connections of a server, one after another.

ghost use Rattle.std.specs.Prelude.{◌≡◌, ◌≢◌, ◌+◌, Bool, IfErr, IfOk, Result, Err as ErrOf, length};
ghost use Rattle.tb_desk.specs.Clients.{AreServed, Become, EndsBy, GoesOn, IsTurn, end_of, has_answer, with_turn};
ghost use Rattle.tb_desk.specs.Exchanges.{IsDeskEnd};
ghost use Rattle.tb_desk.specs.Served.{IsServerEnd};

use crate::callers::Caller;
use crate::waiting::Next;
use sqlite::Alter;
use std::io;
use tb_host::Cause;
use tb_store::Desk;

/// The connections of a server. What is made of its calls is proved over any, so over one that keeps notes of them too.
pub(crate) trait Clients {
    ghost use Rattle.std.specs.Prelude.{◌≡◌, ℕ, Option, IfErr, IfOk, Err};
    ghost use Rattle.tb_desk.specs.Clients.{IsNoted, Notes, with_next, with_parted, with_parting, with_served};
    ghost use Rattle.tb_desk.specs.Exchanges.{IsDeskEnd};

    // what was done at the connections, where that is noted
    ghost noted: { Self → Option Notes };

    // the desk has files, which may leave their place
    ghost HasFiles: { Self → Type 0 };

    // no connection can be waited for any more
    ghost HasFailed: { Self → Type 0 };

    /// Waits for a connection with a request, or one whose time is over.
    fn next(&mut self) -> io::Result<Option<Next>>
        ensures kept { HasFiles self.new → HasFiles self.old }
        ensures noted { IfOk result (λ next. IsNoted (noted self.old) (noted self.new) (with_next next)) }
        ensures failed { IfErr result (λ _. noted self.new ≡ noted self.old) }
        ensures lost { IfErr result (λ _. HasFailed self.new) };

    /// Answers the request of a connection. Returns whether the client has a whole answer.
    fn serve<S: Alter>(&mut self, desk: &mut Desk<S>, caller: &Caller) -> Result<bool, Cause>
        ensures cause { IfErr result IsDeskEnd }
        ensures files { result ≡ Err Cause.FilesMoved → HasFiles self.old }
        ensures kept { HasFiles self.new → HasFiles self.old }
        ensures limits { desk.new.limits ≡ desk.old.limits }
        ensures noted { IsNoted (noted self.old) (noted self.new) (with_served caller.now result) };

    /// Ends the connection of a client that has its answer.
    fn part(&mut self, caller: Caller)
        ensures kept { HasFiles self.new → HasFiles self.old }
        ensures noted { IsNoted (noted self.old) (noted self.new) (with_parted caller) };

    /// Waits until all clients that have their answer have ended.
    fn part_all(&mut self)
        ensures kept { HasFiles self.new → HasFiles self.old }
        ensures noted { IsNoted (noted self.old) (noted self.new) with_parting };
}

/// Whether a client has an answer, by what serving it led to. Then its connection is ended, and not just closed.
fn has_answer(served: &Result<bool, Cause>) -> bool
    ensures { result ≡ has_answer served.now }
{
    match served {
        Ok(has_answer) => *has_answer,
        Err(_) => true,
    }
}

/// Why the server ends, by what serving a client led to.
fn end_of(served: Result<bool, Cause>) -> Result<(), Cause>
    ensures { result ≡ end_of served }
{
    match served {
        Ok(_) => Ok(()),
        Err(cause) => Err(cause),
    }
}

/// Serves the request of a connection, and parts with a client that has an answer.
///
/// # Errors
///
/// The cause, if the desk cannot be served any further.
fn serve_whole<S: Alter, C: Clients>(
    clients: &mut C,
    desk: &mut Desk<S>,
    caller: Caller,
) -> Result<(), Cause>
    ensures turn { Become (C.noted clients.old) (C.noted clients.new) (λ before after. (served : Result Bool Cause)
        × (after ≡ with_turn caller served before) × (result ≡ end_of served)) }
    ensures cause { IfErr result IsDeskEnd }
    ensures files { result ≡ ErrOf Cause.FilesMoved → C.HasFiles clients.old }
    ensures kept { C.HasFiles clients.new → C.HasFiles clients.old }
    ensures limits { desk.new.limits ≡ desk.old.limits }
{
    let served = clients.serve(desk, &caller);
    if has_answer(&served) {
        clients.part(caller);
    }
    end_of(served)
}

/// Gives a connection its turn: serves its request where that is whole.
///
/// # Errors
///
/// The cause, if the desk cannot be served any further.
fn take_turn<S: Alter, C: Clients>(
    clients: &mut C,
    desk: &mut Desk<S>,
    next: Option<Next>,
) -> Result<(), Cause>
    ensures turn { Become (C.noted clients.old) (C.noted clients.new) (IsTurn next result) }
    ensures cause { IfErr result IsDeskEnd }
    ensures files { result ≡ ErrOf Cause.FilesMoved → C.HasFiles clients.old }
    ensures kept { C.HasFiles clients.new → C.HasFiles clients.old }
    ensures limits { desk.new.limits ≡ desk.old.limits }
{
    match next {
        Some(Next::Whole(caller)) => serve_whole(clients, desk, caller),
        Some(Next::Late(_)) => Ok(()),
        Some(Next::Broken(_)) => Ok(()),
        None => Ok(()),
    }
}

/// Serves one connection after another. Returns how many it took.
///
/// # Errors
///
/// The cause, if the desk cannot be served any further. Then a connection is wanting.
pub(crate) fn serve_all<S: Alter, C: Clients>(
    clients: &mut C,
    desk: &mut Desk<S>,
    requests: u64,
) -> Result<u64, Cause>
    ensures all { IfOk result (λ taken. taken ≡ requests) }
    ensures came { IfOk result (λ taken. Become (C.noted clients.old) (C.noted clients.new) (λ before after.
        length after.came ≡ length before.came + taken)) }
    ensures served { Become (C.noted clients.old) (C.noted clients.new) (λ before after.
        AreServed before → AreServed after) }
    ensures goes_on { IfOk result (λ _. Become (C.noted clients.old) (C.noted clients.new) (λ before after.
        GoesOn before → GoesOn after)) }
    ensures ended { IfErr result (λ cause. cause ≢ Cause.NoConnections
        → Become (C.noted clients.old) (C.noted clients.new) (λ _ after. EndsBy cause after)) }
    ensures parted { result ≢ ErrOf Cause.NoConnections
        → Become (C.noted clients.old) (C.noted clients.new) (λ before after.
        after.partings ≡ before.partings + 1) }
    ensures cause { IfErr result IsServerEnd }
    ensures early { IfErr result (λ _. requests ≢ 0) }
    ensures lost { result ≡ ErrOf Cause.NoConnections → C.HasFailed clients.new }
    ensures in_memory { result ≡ ErrOf Cause.FilesMoved → C.HasFiles clients.old }
    ensures limits { desk.new.limits ≡ desk.old.limits }
{
    let mut taken = 0u64;
    for _ in 0..requests {
        let Ok(next) = clients.next() else {
            return Err(Cause::NoConnections);
        };
        taken += 1;
        if let Err(cause) = take_turn(clients, desk, next) {
            clients.part_all();
            return Err(cause);
        }
    }
    clients.part_all();
    Ok(taken)
}
