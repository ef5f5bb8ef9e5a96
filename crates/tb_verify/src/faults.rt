//! Errors of the database and of reads, and unfit rows, as faults for a caller.

ghost use Rattle.std.specs.Prelude.{◌≡◌, ◌≢◌, Err, IfErr};
ghost use Rattle.tb_verify.specs.Prelude.{fault_of_making, IsNoDevice, IsReadWant, IsWant, AnyRefusal as Refusal};
ghost use Rattle.tb_verify.specs.Prelude.{reported_by};
ghost use Rattle.tb_verify.specs.Unfit.{fault_of_rows, fault_of_unfit};

use crate::unfit::Unfit;
use sqlite::{Error, ErrorCode};
use tb_core::Fault;
use tb_reads::ReadError;

/// Want of memory is `Memory`. Every other error of the database is the store's.
pub(crate) fn of_error(error: Error) -> Fault
    ensures no_form { result ≢ Fault.NotADesk }
    ensures cause { IsWant error → result ≢ Fault.Device }
    ensures never_refuses { (r : Refusal) → result ≢ Fault.Refused r }
    ensures output { result ≢ Fault.Output }
    ensures value { result ≡ fault_of_making error }
{
    match error {
        Error::SqliteFailure(ErrorCode::OutOfMemory) => Fault::Memory,
        _ => Fault::Device,
    }
}

/// The fault of an error of a read. Rows that are those of no records are not a desk's. So `NotADesk` never comes of a
/// read that was cut short.
pub(crate) fn of_read(error: ReadError) -> Fault
    ensures form { result ≡ Fault.NotADesk → error ≡ ReadError.Form }
    ensures cause { IsReadWant error → result ≢ Fault.Device }
    ensures never_refuses { (r : Refusal) → result ≢ Fault.Refused r }
    ensures output { result ≢ Fault.Output }
    ensures value { result ≡ fault_of_rows error }
{
    match error {
        ReadError::Store(error) => of_error(error),
        ReadError::Form => Fault::NotADesk,
    }
}

/// A read, with the fault for its error.
pub(crate) fn reported<T>(read: Result<T, ReadError>) -> Result<T, Fault>
    ensures value { result ≡ reported_by fault_of_rows read }
    ensures form { result ≡ Err Fault.NotADesk → read ≡ Err ReadError.Form }
    ensures cause { IfErr read IsReadWant → result ≢ Err Fault.Device }
    ensures never_refuses { (r : Refusal) → result ≢ Err (Fault.Refused r) }
    ensures output { result ≢ Err Fault.Output }
{
    match read {
        Ok(found) => Ok(found),
        Err(error) => Err(of_read(error)),
    }
}

/// An answer of the database, with the fault for its error.
pub(crate) fn answered<T>(answer: Result<T, Error>) -> Result<T, Fault>
    ensures value { result ≡ reported_by fault_of_making answer }
    ensures no_form { result ≢ Err Fault.NotADesk }
    ensures cause { IfErr answer IsWant → result ≢ Err Fault.Device }
    ensures never_refuses { (r : Refusal) → result ≢ Err (Fault.Refused r) }
    ensures output { result ≢ Err Fault.Output }
{
    match answer {
        Ok(found) => Ok(found),
        Err(error) => Err(of_error(error)),
    }
}

/// The fault of rows that a test calls unfit.
pub(crate) fn of_unfit(unfit: Unfit) -> Fault
    ensures form { result ≡ Fault.NotADesk → unfit ≡ Unfit.NotADesk }
    ensures want { result ≡ Fault.Memory → unfit ≡ Unfit.Memory }
    ensures cause { result ≢ Fault.Device }
    ensures never_refuses { (r : Refusal) → result ≢ Fault.Refused r }
    ensures output { result ≢ Fault.Output }
    ensures value { result ≡ fault_of_unfit unfit }
{
    match unfit {
        Unfit::NotADesk => Fault::NotADesk,
        Unfit::Memory => Fault::Memory,
    }
}

/// What rows tell, with the fault where a test calls them unfit.
pub(crate) fn fitting<T>(told: Result<T, Unfit>) -> Result<T, Fault>
    ensures value { result ≡ reported_by fault_of_unfit told }
    ensures form { result ≡ Err Fault.NotADesk → told ≡ Err Unfit.NotADesk }
    ensures want { result ≡ Err Fault.Memory → told ≡ Err Unfit.Memory }
    ensures cause { IfErr result IsNoDevice }
    ensures never_refuses { (r : Refusal) → result ≢ Err (Fault.Refused r) }
    ensures output { result ≢ Err Fault.Output }
{
    match told {
        Ok(found) => Ok(found),
        Err(unfit) => Err(of_unfit(unfit)),
    }
}
