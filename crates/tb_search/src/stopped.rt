//! Why a walk over the sentences of a desk ends early.

ghost use Rattle.std.specs.Prelude.{◌≡◌};
ghost use Rattle.tb_search.specs.Prelude.{OutOfMemory, SqliteFailure, Store};
ghost use Rattle.tb_search.specs.declared.stopped.Stopped.TheVariants.{Read};

use sqlite::{Error, ErrorCode};
use std::alloc::{AllocError, AllocFailed};
use tb_reads::ReadError;

/// Why a walk ends early.
#[derive(Debug, Drop)]
pub enum Stopped {
    /// The tables cannot be read, or memory was refused.
    Read(ReadError),
    /// The sink refused a piece of the text.
    Output,
}

impl<T: Drop> From<AllocFailed<T>> for Stopped {
    ghost from_gives = { λ _ e. e ≡ Read (Store (SqliteFailure OutOfMemory)) };

    fn from(_: AllocFailed<T>) -> Stopped {
        Stopped::Read(ReadError::Store(Error::SqliteFailure(ErrorCode::OutOfMemory)))
    }
}

impl From<AllocError> for Stopped {
    ghost from_gives = { λ _ e. e ≡ Read (Store (SqliteFailure OutOfMemory)) };

    fn from(_: AllocError) -> Stopped {
        Stopped::Read(ReadError::Store(Error::SqliteFailure(ErrorCode::OutOfMemory)))
    }
}

impl From<ReadError> for Stopped {
    ghost from_gives = { λ x e. e ≡ Read x };

    fn from(error: ReadError) -> Stopped {
        Stopped::Read(error)
    }
}

impl From<Error> for Stopped {
    ghost from_gives = { λ x e. e ≡ Read (Store x) };

    fn from(error: Error) -> Stopped {
        Stopped::Read(ReadError::Store(error))
    }
}
