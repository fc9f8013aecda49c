//! Why a file can't be opened, or its rows can't be read.

ghost use Rattle.desk_rows.specs.Fault.{IsReportedAs};

use sqlite::{Error as Failure, ErrorCode};
use std::alloc::AllocError;
use thiserror::Error;

/// Why a file can't be opened, or its rows can't be read.
#[derive(Clone, Copy, Debug, Error, PartialEq, Eq)]
pub enum DatabaseFault {
    /// An allocation failed.
    #[error("no memory")]
    NoMemory,
    /// The store failed: reading or writing, damage of the pages, size, or a closed database.
    #[error("the store failed")]
    Lost,
    /// The statement or a value was refused for another cause: a missing table or column, a limit
    /// on steps, or a value of another kind; or what was opened isn't a database.
    #[error("the statement, a value or the file was refused")]
    Refused,
}

impl DatabaseFault {
    /// How an error of the database is reported.
    pub fn of(error: Failure) -> DatabaseFault
        ensures { IsReportedAs error result }
    {
        match error {
            Failure::SqliteFailure(ErrorCode::OutOfMemory) => DatabaseFault::NoMemory,
            Failure::SqliteFailure(
                ErrorCode::SystemIoFailure
                | ErrorCode::DatabaseCorrupt
                | ErrorCode::DiskFull
                | ErrorCode::Closed
                | ErrorCode::TooBig,
            ) => DatabaseFault::Lost,
            _ => DatabaseFault::Refused,
        }
    }
}

impl From<AllocError> for DatabaseFault {
    ghost use Rattle.desk_rows.specs.declared.fault.DatabaseFault.TheVariants.{NoMemory};
    ghost use Rattle.std.specs.Prelude.{◌≡◌};

    ghost from_gives = { λ _ fault. fault ≡ NoMemory };

    fn from(_error: AllocError) -> Self {
        DatabaseFault::NoMemory
    }
}
