//! Why the program refuses what is asked.
use desk_parts::FileTable;
use louis_table::{ReadFault, TableFault};
use sqlite::{Error as DatabaseError, ErrorCode};
use std::alloc::AllocError;
use std::io::{Error as IoError, ErrorKind};
use thiserror::Error;

/// A fault for which the program refuses what is asked. `refuse` reports it by its number and
/// details.
#[derive(Debug, Drop, Error)]
pub enum ProgramFault {
    /// The table text is bad.
    #[error("the table is bad at line {}, by cause {}", .0.line, .0.cause)]
    Table(TableFault),
    /// An allocation failed.
    #[error("no memory")]
    NoMemory,
    /// The file is a database but no book.
    #[error("the file holds no book")]
    NotABook,
    /// The book in the file is damaged.
    #[error("the file of the book is damaged")]
    Damaged {
        /// The first damaged table.
        table: FileTable,
        /// The smallest id of the damage in it.
        id: i64,
    },
    /// The book is of a newer format.
    #[error("the file has a later format")]
    NewerFormat,
    /// A cell of the volume has dot 7 or 8.
    #[error("cell {cell} of paragraph {paragraph} has dot 7 or 8")]
    NotSixDots {
        /// The paragraph's id.
        paragraph: u64,
        /// The cell's place in its braille, from 0.
        cell: usize,
    },
    /// The book has no such volume.
    #[error("the book has no such volume")]
    NoVolume,
    /// Pages can't be as large, or as small.
    #[error("pages can't be of that size")]
    BadLayout,
    /// The file can't be opened or read, or is larger than any table.
    #[error("the file can't be read")]
    File,
    /// The file holds a book already.
    #[error("the file holds a book of version {version} already")]
    Taken {
        /// The version of that book.
        version: u64,
    },
}

impl From<IoError> for ProgramFault {
    ghost use Rattle.std.specs.IoError.{error_kind};
    ghost use Rattle.desk_program.specs.Fault.{IsIoFault};

    ghost from_gives = { λ error fault. IsIoFault (error_kind error) fault };

    fn from(error: IoError) -> Self {
        match error.kind() {
            ErrorKind::OutOfMemory => ProgramFault::NoMemory,
            _ => ProgramFault::File,
        }
    }
}

impl From<AllocError> for ProgramFault {
    ghost use Rattle.desk_program.specs.declared.fault.ProgramFault.TheVariants.{NoMemory};
    ghost use Rattle.std.specs.Prelude.{◌≡◌};

    ghost from_gives = { λ _ fault. fault ≡ NoMemory };

    fn from(_error: AllocError) -> Self {
        ProgramFault::NoMemory
    }
}

impl From<ReadFault> for ProgramFault {
    ghost use Rattle.desk_program.specs.Fault.{read_as};
    ghost use Rattle.std.specs.Prelude.{◌≡◌};

    ghost from_gives = { λ fault reported. reported ≡ read_as fault };

    fn from(fault: ReadFault) -> Self {
        match fault {
            ReadFault::Table(fault) => ProgramFault::Table(fault),
            ReadFault::NoMemory => ProgramFault::NoMemory,
        }
    }
}

impl From<DatabaseError> for ProgramFault {
    ghost use Rattle.desk_program.specs.Fault.{IsDatabaseFault};

    ghost from_gives = { λ error fault. IsDatabaseFault error fault };

    fn from(error: DatabaseError) -> Self {
        match error {
            DatabaseError::SqliteFailure(ErrorCode::OutOfMemory) => ProgramFault::NoMemory,
            _ => ProgramFault::File,
        }
    }
}
