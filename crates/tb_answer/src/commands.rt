//! The commands of users, each answered by one line.

ghost use Rattle.std.specs.Prelude.{◌≡◌};
ghost use Rattle.tb_answer.specs.Prelude.{correct_it, event_on, import_file, pull_it, restore_it};
ghost use Rattle.tb_answer.specs.Commanded.{reply_for_fault, IsObeyed};

use sqlite::Alter;
use tb_core::{Event, Fault};
use tb_http::Reply;
use tb_store::Desk;

/// The reply for a fault. `Output` becomes `Device`: a desk writes no output of its own.
pub fn reply_for_fault(fault: Fault) -> Reply
    ensures { result ≡ reply_for_fault fault }
{
    match fault {
        Fault::Refused(refusal) => Reply::Refused(refusal),
        Fault::Memory => Reply::Memory,
        Fault::Device | Fault::Output => Reply::Device,
        Fault::NotADesk => Reply::Desk,
    }
}

/// The answer of an import: the sentences of the body as a batch of this name.
pub fn import<S: Alter>(desk: &mut Desk<S>, name: &str, user: &str, body: &[u8]) -> Reply
    ensures { IsObeyed S.Store (import_file name.now user.now body.now) desk.old desk.new result }
{
    desk.import(name, user, body)
        .map_or_else(reply_for_fault, Reply::Imported)
}

/// The answer of an event on the batch with this name.
pub fn event<S: Alter>(desk: &mut Desk<S>, name: &str, event: Event, user: &str) -> Reply
    ensures { IsObeyed S.Store (event_on name.now event user.now) desk.old desk.new result }
{
    desk.event(name, event, user)
        .map_or_else(reply_for_fault, Reply::Moved)
}

/// The answer of a correction: the body as the revision of this sentence after `base`.
pub fn correct<S: Alter>(
    desk: &mut Desk<S>,
    number: u64,
    base: u64,
    user: &str,
    body: &[u8],
) -> Reply
    ensures { IsObeyed S.Store (correct_it number base user.now body.now) desk.old desk.new result }
{
    desk.correct(number, base, user, body)
        .map_or_else(reply_for_fault, Reply::Corrected)
}

/// The answer of a pull of the sentence with this number.
pub fn pull<S: Alter>(desk: &mut Desk<S>, number: u64, user: &str) -> Reply
    ensures { IsObeyed S.Store (pull_it number user.now) desk.old desk.new result }
{
    desk.pull(number, user)
        .map_or_else(reply_for_fault, Reply::Pulled)
}

/// The answer of a restore of the sentence with this number.
pub fn restore<S: Alter>(desk: &mut Desk<S>, number: u64, user: &str) -> Reply
    ensures { IsObeyed S.Store (restore_it number user.now) desk.old desk.new result }
{
    desk.restore(number, user)
        .map_or_else(reply_for_fault, Reply::Restored)
}
