//! What is wrong with the rows of a book's file.
ghost use Rattle.desk_model.specs.Damage.{IsFlag};
ghost use Rattle.desk_rebuild.specs.Faults.{fault_in};
ghost use Rattle.desk_model.specs.Shows.{flag_number};
ghost use Rattle.std.specs.Prelude.{◌≡◌, Err, MatchOption, MatchResult, Ok};

use desk_model::PartsFault;
use desk_parts::FileTable;
use std::alloc::AllocError;

/// Why the rows of one table were not taken.
#[derive(Clone, Copy, PartialEq, Eq)]
pub(crate) enum RowsFault {
    /// The smallest id of the damage in the table.
    Damaged(i64),
    /// An allocation failed.
    NoMemory,
}

impl From<AllocError> for RowsFault {
    ghost use Rattle.desk_rebuild.specs.declared.damage.RowsFault.{RowsFault};
    ghost use Rattle.desk_rebuild.specs.declared.damage.RowsFault.TheVariants.{NoMemory};

    ghost from_gives = { λ _ fault. fault ≡ NoMemory };

    fn from(_: AllocError) -> Self {
        RowsFault::NoMemory
    }
}

/// What was read of a table, or the fault, reported of this table.
pub(crate) fn of_table<T>(table: FileTable, read: Result<T, RowsFault>) -> Result<T, PartsFault>
    ensures { MatchResult read (λ rows. result ≡ Ok rows) (λ fault. result ≡ Err (fault_in table fault)) }
{
    match read {
        Ok(rows) => Ok(rows),
        Err(RowsFault::Damaged(id)) => Err(PartsFault::Damaged { table, id }),
        Err(RowsFault::NoMemory) => Err(PartsFault::NoMemory),
    }
}

/// The flag that a number is, if it is 0 or 1.
pub(crate) fn flag_of(number: i64) -> Option<bool>
    ensures { MatchOption result (¬ IsFlag number) (λ flag. flag_number flag ≡ number) }
{
    match number {
        0 => Some(false),
        1 => Some(true),
        _ => None,
    }
}
