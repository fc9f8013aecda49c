//! Why no book is opened from a file.

use desk_book::PartsFault;
use desk_parts::FileTable;
use desk_rows::DatabaseFault;
use thiserror::Error;

/// Why no book is opened from a file.
#[derive(Clone, Copy, Debug, Error, PartialEq, Eq)]
pub enum OpenFault {
    /// A table that a book's file has isn't there, lacks a column or holds a value of another kind,
    /// or there is no book in the file and none is to be made.
    #[error("the file holds no book")]
    NotABook,
    /// The rows show no book.
    #[error("the file of the book is damaged")]
    Damaged {
        /// The first damaged table.
        table: FileTable,
        /// The smallest id of the damage in it.
        id: i64,
    },
    /// The file has a later format than the second.
    #[error("the file has a later format")]
    NewerFormat,
    /// The store failed.
    #[error("the store failed")]
    Lost,
    /// An allocation failed.
    #[error("no memory")]
    NoMemory,
}

impl From<DatabaseFault> for OpenFault {
    ghost use Rattle.desk_store.specs.Opening.{opened_as};
    ghost use Rattle.std.specs.Prelude.{◌≡◌};

    ghost from_gives = { λ fault reported. reported ≡ opened_as fault };

    fn from(fault: DatabaseFault) -> Self {
        match fault {
            DatabaseFault::NoMemory => OpenFault::NoMemory,
            DatabaseFault::Lost => OpenFault::Lost,
            DatabaseFault::Refused => OpenFault::NotABook,
        }
    }
}

impl From<PartsFault> for OpenFault {
    ghost use Rattle.desk_store.specs.Opening.{rebuilt_as};
    ghost use Rattle.std.specs.Prelude.{◌≡◌};

    ghost from_gives = { λ fault reported. reported ≡ rebuilt_as fault };

    fn from(fault: PartsFault) -> Self {
        match fault {
            PartsFault::Damaged { table, id } => OpenFault::Damaged { table, id },
            PartsFault::NoMemory => OpenFault::NoMemory,
        }
    }
}
