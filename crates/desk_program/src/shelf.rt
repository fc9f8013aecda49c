//! Where files are opened by their paths.
//!
//! std's `Files` doesn't say which bytes stand at a path. `Shelf` does, so that a contract can say
//! that a table is that of the very file which is named, and a fault too. `Databases` does so for
//! the book in a database.
ghost use Rattle.desk_program.specs.Fault.{IsOfDatabase, IsOfFile};
ghost use Rattle.desk_program.specs.Shelf.{FileState, MayConnect, OpensFile};
ghost use Rattle.sqlite.specs.Held.{Held};
ghost use Rattle.std.specs.Prelude.{Bool, IfErr, IfOk, List, MatchResult, None, false, ◌≡◌, ℕ};

use super::fault::ProgramFault;
use desk_ends::Source;
use sqlite::{Alter, Connection, File as DatabaseFile, FileStore};
use std::fs::{self, File as SystemFile};
use std::rt::Files;

/// Where files are opened by their paths.
pub trait Shelf {
    /// A file that is open.
    type File: Source + Drop;

    // What stands at a path.
    ghost at: { Self → List ℕ → FileState };

    // Whether a file that is there may not open.
    ghost can_fail: { Type 0 };

    /// Opens the file at this path.
    fn open(&self, path: &str) -> Result<Self::File, ProgramFault>
        ensures { MatchResult result
            (λ file. OpensFile (at self.now path.now) (Self.File.remaining file))
            (IsOfFile can_fail (at self.now path.now)) };
}

// The system's files are a shelf. It doesn't report what they hold, and opening one can fail.
impl<F: Files> Shelf for F {
    ghost use Rattle.std.specs.Prelude.{⊤};
    ghost use Rattle.desk_program.specs.Shelf.{unknown};

    type File = F::File;

    ghost at = { λ _ _. unknown };

    ghost can_fail = { ⊤ };

    fn open(&self, path: &str) -> Result<F::File, ProgramFault> {
        Ok(SystemFile::open(self, path)?)
    }
}

/// Where databases are connected to by their paths.
pub trait Databases: Shelf {
    /// What an open database stands in.
    type Database: Alter + Drop;

    // The connections to the database at a path, which is made there or not.
    ghost connects: { Self → List ℕ → Bool → Held Self.Database → Type 0 };

    // A database was closed.
    ghost closes: { Self → Self.Database → Type 0 };

    /// Connects to the database at this path. Where no file is there, one is made if `make` is
    /// true.
    fn connect(&self, path: &str, make: bool) -> Result<Connection<Self::Database>, ProgramFault>
        ensures there { IfOk result (λ _. MayConnect make (Self.Shelf.at self.now path.now)) }
        ensures named { IfOk result (connects self.now path.now make) }
        ensures idle { IfOk result (λ connection. connection.in_transaction ≡ false) }
        ensures unlimited { IfOk result (λ connection. connection.step_limit ≡ None) }
        ensures fault { IfErr result
            (IsOfDatabase Self.Shelf.can_fail (Self.Shelf.at self.now path.now) make) };

    /// Closes a database, so that all of it stands in its file. Where that fails, it stands in the
    /// file and the log beside it, as before.
    fn close(&self, database: Self::Database)
        ensures { closes self.now database };
}

// The system's files are databases too, and it doesn't report what they hold.
impl Databases for HostRuntime {
    ghost use Rattle.std.specs.Prelude.{⊤};

    type Database = FileStore<DatabaseFile>;

    ghost connects = { λ _ _ _ _. ⊤ };

    ghost closes = { λ _ _. ⊤ };

    fn connect(
        &self,
        path: &str,
        make: bool,
    ) -> Result<Connection<FileStore<DatabaseFile>>, ProgramFault> {
        if !make && !fs::exists(self, path)? {
            return Err(ProgramFault::File);
        }
        Ok(Connection::open(self, path)?)
    }

    fn close(&self, mut database: FileStore<DatabaseFile>) {
        // What can't be copied into the file stays in the log.
        let _ = database.checkpoint();
    }
}
