//! The faults that callers see for errors of the database and of reads.

ghost use Rattle.std.specs.Prelude.{◌≡◌, ◌≢◌, ◌⊎◌, Err};
ghost use Rattle.tb_refine.specs.Prelude.{AnyRefusal as Refusal};
ghost use Rattle.tb_refine.specs.Faults.{fault_of_code, fault_of_error, fault_of_read, fault_of_making};
ghost use Rattle.tb_refine.specs.Faults.{reported_by, reported_of_row};

use sqlite::{Error, ErrorCode};
use tb_core::Fault;
use tb_reads::ReadError;

fn of_code(code: ErrorCode) -> Fault
    ensures value { result ≡ fault_of_code code }
    ensures never_refuses { (r : Refusal) → result ≢ Fault.Refused r }
    ensures output { result ≢ Fault.Output }
{
    match code {
        ErrorCode::OutOfMemory => Fault::Memory,
        ErrorCode::SystemIoFailure => Fault::Device,
        ErrorCode::DatabaseCorrupt => Fault::Device,
        ErrorCode::DiskFull => Fault::Device,
        // a store that has no number left for a row is full
        ErrorCode::NoRowid => Fault::Device,
        ErrorCode::Closed => Fault::Device,
        ErrorCode::TooBig => Fault::Device,
        _ => Fault::NotADesk,
    }
}

/// The fault for an error of the database: `Memory` for want of memory, `Device` for a store that fails or is full,
/// else `NotADesk`.
///
/// On the tables of a desk, the database refuses nothing that a desk asks. So any other error means other tables.
pub fn of_error(error: Error) -> Fault
    ensures value { result ≡ fault_of_error error }
    ensures never_refuses { (r : Refusal) → result ≢ Fault.Refused r }
    ensures output { result ≢ Fault.Output }
{
    match error {
        Error::SqliteFailure(code) => of_code(code),
        _ => Fault::NotADesk,
    }
}

/// The fault for an error of a read. Rows that cannot be read as records are not a desk's.
pub fn of_read(error: ReadError) -> Fault
    ensures value { result ≡ fault_of_read error }
    ensures never_refuses { (r : Refusal) → result ≢ Fault.Refused r }
    ensures output { result ≢ Fault.Output }
{
    match error {
        ReadError::Store(error) => of_error(error),
        ReadError::Form => Fault::NotADesk,
    }
}

/// The fault for an error while the tables are made. A blank database that refuses them is a store that fails.
pub fn of_making(error: Error) -> Fault
    ensures value { result ≡ fault_of_making error }
    ensures known { (result ≡ Fault.Memory) ⊎ (result ≡ Fault.Device) }
{
    match error {
        Error::SqliteFailure(ErrorCode::OutOfMemory) => Fault::Memory,
        _ => Fault::Device,
    }
}

/// A read, with the fault for its error.
pub fn reported<T>(read: Result<T, ReadError>) -> Result<T, Fault>
    ensures value { result ≡ reported_by fault_of_read read }
    ensures never_refuses { (r : Refusal) → result ≢ Err (Fault.Refused r) }
    ensures output { result ≢ Err Fault.Output }
{
    match read {
        Ok(found) => Ok(found),
        Err(error) => Err(of_read(error)),
    }
}

/// A read of a row that exists, with the fault for its error. Tables without the row are not a desk's.
pub fn reported_row<T>(read: Result<Option<T>, ReadError>) -> Result<T, Fault>
    ensures value { result ≡ reported_of_row read }
    ensures never_refuses { (r : Refusal) → result ≢ Err (Fault.Refused r) }
    ensures output { result ≢ Err Fault.Output }
{
    match read {
        Ok(Some(row)) => Ok(row),
        Ok(None) => Err(Fault::NotADesk),
        Err(error) => Err(of_read(error)),
    }
}

/// A write, with the fault for its error.
pub fn reported_write(write: Result<(), Error>) -> Result<(), Fault>
    ensures value { result ≡ reported_by fault_of_error write }
    ensures never_refuses { (r : Refusal) → result ≢ Err (Fault.Refused r) }
    ensures output { result ≢ Err Fault.Output }
{
    match write {
        Ok(()) => Ok(()),
        Err(error) => Err(of_error(error)),
    }
}
