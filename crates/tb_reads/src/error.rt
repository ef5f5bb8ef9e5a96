//! Why a read gives no records.

ghost use Rattle.std.specs.Prelude.{◌≡◌};
ghost use Rattle.tb_reads.specs.Prelude.{OutOfMemory, SqliteFailure};
ghost use Rattle.tb_reads.specs.declared.error.ReadError.TheVariants.{Store};

use sqlite::{Error, ErrorCode};
use std::alloc::AllocFailed;

/// Why a read gives no records.
#[derive(Debug, Drop)]
pub enum ReadError {
    /// The database answered with an error, or memory ran out.
    Store(Error),
    /// The rows are not those of records.
    Form,
}

impl<T: Drop> From<AllocFailed<T>> for ReadError {
    ghost from_gives = { λ _ e. e ≡ Store (SqliteFailure OutOfMemory) };

    fn from(_: AllocFailed<T>) -> ReadError {
        ReadError::Store(Error::SqliteFailure(ErrorCode::OutOfMemory))
    }
}

impl From<Error> for ReadError {
    ghost from_gives = { λ x e. e ≡ Store x };

    fn from(error: Error) -> ReadError {
        ReadError::Store(error)
    }
}
