//! Whether the store is open: a command ends for want of memory only there.

ghost use Rattle.std.specs.Prelude.{◌≡◌, ◌≢◌, ◌⊎◌, false, IfErr, IsTrue};
ghost use Rattle.tb_store.specs.Prelude.{KeepsRecords, state, Survives};
ghost use Rattle.tb_store.specs.Handing.{BlamesForWant, HandsOnRefusal, IsOpenOnMemory, PutsInDoubt};
ghost use Rattle.tb_store.specs.Handing.{TellsOpen, TellsShut, TellsWant, WasOpen, reported_of_error};

use sqlite::{Alter, Connection, Error, ErrorCode};
use tb_core::Fault;

/// A text that is no statement. Only a store that is open refuses it as such, and it takes no memory to do so.
const NO_STATEMENT: &str = "unknown";

/// What the error with which the store refuses the text says of the store.
fn reported_by(error: Error) -> Result<bool, Fault>
    ensures { result ≡ reported_of_error error }
{
    match error {
        Error::SqlInputError(_) => Ok(true),
        Error::SqliteFailure(ErrorCode::OutOfMemory) => Err(Fault::Memory),
        _ => Ok(false),
    }
}

/// Whether the store is open. One whose disk fails at the question is reported as shut.
///
/// # Errors
///
/// `Memory`: the store may be open or shut.
pub(crate) fn is_open<S: Alter>(conn: &mut Connection<S>) -> Result<bool, Fault>
    ensures open { TellsOpen S.Store conn.new result }
    ensures shut { TellsShut S.Store conn.old conn.new result }
    ensures known { IfErr result (λ e. e ≡ Fault.Memory) }
    ensures wants { TellsWant S.Store conn.old conn.new result }
    ensures was_open { WasOpen S.Store conn.old conn.new }
    ensures keeps_records { KeepsRecords S.Store conn.old conn.new }
    ensures autocommit { conn.old.in_transaction ≡ false → conn.new.in_transaction ≡ false }
    ensures crash { Survives (state S.Store conn.old) (state S.Store conn.new) (λ _. ⊥) }
{
    match conn.prepare(NO_STATEMENT) {
        Ok(_) => Ok(true),
        Err(error) => reported_by(error),
    }
}

/// The fault of a command for which memory was refused. It is want of memory where the store says that it is open: then
/// the command committed nothing. Else the store failed; or it could not be asked, and then the desk is in doubt.
fn memory_or_device<S: Alter>(conn: &mut Connection<S>, in_doubt: &mut bool) -> Fault
    ensures known { (result ≡ Fault.Memory) ⊎ (result ≡ Fault.Device) }
    ensures open { IsOpenOnMemory S.Store conn.new result }
    ensures cause { BlamesForWant S.Store conn.old conn.new in_doubt.new result }
    ensures doubt { PutsInDoubt S.Store conn.old conn.new in_doubt.old in_doubt.new result }
    ensures remains { IsTrue in_doubt.old → IsTrue in_doubt.new }
    ensures was_open { WasOpen S.Store conn.old conn.new }
    ensures keeps_records { KeepsRecords S.Store conn.old conn.new }
    ensures autocommit { conn.old.in_transaction ≡ false → conn.new.in_transaction ≡ false }
    ensures crash { Survives (state S.Store conn.old) (state S.Store conn.new) (λ _. ⊥) }
{
    match is_open(conn) {
        Ok(true) => Fault::Memory,
        Ok(false) => Fault::Device,
        Err(_) => {
            *in_doubt = true;
            Fault::Device
        }
    }
}

/// The fault of a command. It is want of memory only where the store is open. The desk is in doubt where the store could
/// not be asked. Any other fault is handed on.
pub(crate) fn certain<S: Alter>(
    conn: &mut Connection<S>,
    in_doubt: &mut bool,
    fault: Fault,
) -> Fault
    ensures refused { HandsOnRefusal conn.old conn.new fault result }
    ensures desk { result ≡ Fault.NotADesk → fault ≡ Fault.NotADesk }
    ensures other { fault ≢ Fault.Memory → result ≡ fault }
    ensures unasked { fault ≢ Fault.Memory → (conn.new ≡ conn.old) × (in_doubt.new ≡ in_doubt.old) }
    ensures device { result ≡ Fault.Device → (fault ≡ Fault.Device) ⊎ (fault ≡ Fault.Memory) }
    ensures output { result ≡ Fault.Output → fault ≡ Fault.Output }
    ensures cause { fault ≢ Fault.Device → BlamesForWant S.Store conn.old conn.new in_doubt.new result }
    ensures doubt { PutsInDoubt S.Store conn.old conn.new in_doubt.old in_doubt.new result }
    ensures remains { IsTrue in_doubt.old → IsTrue in_doubt.new }
    ensures open { IsOpenOnMemory S.Store conn.new result }
    ensures was_open { WasOpen S.Store conn.old conn.new }
    ensures keeps_records { KeepsRecords S.Store conn.old conn.new }
    ensures autocommit { conn.old.in_transaction ≡ false → conn.new.in_transaction ≡ false }
    ensures crash { Survives (state S.Store conn.old) (state S.Store conn.new) (λ _. ⊥) }
{
    match fault {
        Fault::Memory => memory_or_device(conn, in_doubt),
        other => other,
    }
}
