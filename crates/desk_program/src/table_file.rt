//! Tables in files, and the supplied one.
ghost use Rattle.desk_program.specs.Fault.{FaultAt, IsFaultOfText, IsOfFile, TextAt};
ghost use Rattle.desk_program.specs.Shelf.{IsRead, left_in};
ghost use Rattle.louis_table.specs.Table.{Means};
ghost use Rattle.std.specs.Prelude.{◌⊎◌, ℕ, List, MatchResult};

use super::fault::ProgramFault;
use super::shelf::Shelf;
use desk_ends::{CHUNK_BYTES, Source};
use louis_table::{EN, Table};
use louis_translate::RuleIndex;
use std::alloc::Global;

/// The most bytes that a table file may have. No table has as many.
pub const MOST_FILE_BYTES: usize = 1 << 27;

// No test reads as many.
const _: () = prove!(MOST_FILE_BYTES == 134_217_728);

/// What is written in place of a path for the supplied table. A file of this name is reached as
/// `./@en`.
pub const SUPPLIED: &str = "@en";

/// Reads the supplied table, or the table in the file at this path.
pub fn read_table<F: Shelf + AllocGlobal>(rt: &F, path: &str) -> Result<RuleIndex, ProgramFault>
    ensures { MatchResult result
        (λ table. (text : List ℕ) × TextAt (F.at rt.now) path.now text × Means text table)
        (FaultAt (F.can_fail ⊎ F.File.can_fail) (F.at rt.now) path.now) }
{
    if path == SUPPLIED {
        return index_text(rt.alloc(), EN.as_bytes());
    }
    let text = read_file(rt, path)?;
    index_text(rt.alloc(), text.as_slice())
}

/// The index of the rules of the table in a text.
fn index_text(alloc: Global, text: &[u8]) -> Result<RuleIndex, ProgramFault>
    ensures { MatchResult result (Means text.now) (IsFaultOfText text.now) }
{
    let table = Table::read(alloc, text)?;
    Ok(RuleIndex::new(alloc, table)?)
}

/// The bytes of the file at this path, if they are not too many.
fn read_file<F: Shelf + AllocGlobal>(rt: &F, path: &str) -> Result<Vec<u8>, ProgramFault>
    ensures { MatchResult result
        (λ bytes. IsRead (F.at rt.now path.now) bytes.items)
        (IsOfFile (F.can_fail ⊎ F.File.can_fail) (F.at rt.now path.now)) }
{
    let mut file = rt.open(path)?;
    read_all(rt.alloc(), &mut file)
}

/// The bytes of a source, if they are not too many.
fn read_all<S: Source>(alloc: Global, source: &mut S) -> Result<Vec<u8>, ProgramFault>
    ensures { MatchResult result
        (λ bytes. IsRead (left_in (S.remaining source.old)) bytes.items)
        (IsOfFile S.can_fail (left_in (S.remaining source.old))) }
{
    let mut bytes = Vec::new(alloc);
    let mut chunk = [0u8; CHUNK_BYTES];
    while bytes.len() <= MOST_FILE_BYTES {
        let Ok(count) = source.pull(&mut chunk) else {
            return Err(ProgramFault::File);
        };
        if count == 0 {
            return Ok(bytes);
        }
        bytes.extend_from_slice(&chunk[..count])?;
    }
    Err(ProgramFault::File)
}
