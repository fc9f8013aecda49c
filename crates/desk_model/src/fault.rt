//! Why rows show no book.
ghost use Rattle.std.specs.Prelude.{◌≡◌};

use desk_parts::FileTable;
use std::alloc::AllocError;
use thiserror::Error;

/// Why no book was made of parts.
#[derive(Clone, Copy, Debug, PartialEq, Eq, Error)]
pub enum PartsFault {
    /// The rows show no book.
    #[error("the rows show no book")]
    Damaged {
        /// The first damaged table, in the order `book`, `tab`, `para`, `corr` or `corr2`, `mark`,
        /// `cache`.
        table: FileTable,
        /// The smallest id at which it is damaged: 1 in `book`, the number of the row by order of
        /// names in `tab`, that of the mark in `mark`, and that of the paragraph in any other.
        id: i64,
    },
    /// An allocation failed.
    #[error("out of memory")]
    NoMemory,
}

impl From<AllocError> for PartsFault {
    ghost use Rattle.desk_model.specs.declared.fault.PartsFault.{PartsFault};
    ghost use Rattle.desk_model.specs.declared.fault.PartsFault.TheVariants.{NoMemory};

    ghost from_gives = { λ _ fault. fault ≡ NoMemory };

    fn from(_: AllocError) -> Self {
        PartsFault::NoMemory
    }
}
