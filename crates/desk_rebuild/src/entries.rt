//! The rows of `corr` and `corr2`, validated and converted into histories.
ghost use Rattle.desk_model.specs.Damage.{IsDamagedEntries, IsWithin};
ghost use Rattle.desk_rebuild.specs.Rows.{AreOf, HasHistory, IsWhole, TellsDamage, without_history};
ghost use Rattle.desk_rebuild.specs.Entries.{AreGrouped, HaveRead, IsFirstStray, IsFirstUnread};
ghost use Rattle.desk_parts.specs.FileRows.{HasUtf8Texts};
ghost use Rattle.desk_parts.specs.declared.file_table.FileTable.{FileTable};
ghost use Rattle.desk_parts.specs.Rows.{Para};
ghost use Rattle.std.specs.Prelude.{All, ◌≡◌, ◌⊎◌, ◌+◌, ◌<◌, pos, ◌≤ℤ◌, List, [], IfErr, IfNone, IfOk, IfSome, OnOk};
ghost use Rattle.std.specs.Prelude.{Some, length, map};

use super::damage::RowsFault;
use super::history::read_history;
use desk_memory::Paragraph;
use desk_parts::NamedCorrRow;
use std::alloc::{AllocError, Global};

/// The index of the paragraph with an id among so many, which have the ids from 1 on.
fn index_of(id: i64, count: usize) -> Option<usize>
    ensures there { IfSome result (λ index. (id ≡ pos (index + 1)) × (index < count)) }
    ensures nowhere { IfNone result (¬ IsWithin 1 count id) }
{
    let index = usize::try_from(id).ok()?.checked_sub(1)?;
    if index < count { Some(index) } else { None }
}

/// The smaller of two ids, of which the first may be missing.
fn smaller(first: Option<i64>, second: i64) -> i64
    ensures one { (result ≡ second) ⊎ (first ≡ Some result) }
    ensures least { result ≤ℤ second }
    ensures before { IfSome first (λ id. result ≤ℤ id) }
{
    match first {
        Some(id) => id.min(second),
        None => second,
    }
}

/// Room for the rows of so many paragraphs.
fn no_rows(alloc: Global, count: usize) -> Result<Vec<Vec<NamedCorrRow>>, AllocError>
    ensures { IfOk result (λ groups. AreGrouped count [] (map (λ group. group.items) groups.items)) }
{
    let mut groups = Vec::with_capacity(alloc, count)?;
    for _ in 0..count {
        groups.push(Vec::new(alloc))?;
    }
    Ok(groups)
}

/// Rows of entries, by the paragraphs that they belong to.
#[derive(Drop)]
struct EntryGroups {
    /// The rows of each paragraph, in the order of the ids.
    groups: Vec<Vec<NamedCorrRow>>,
    /// The smallest id that rows have and no paragraph has.
    stray: Option<i64>,
}

impl EntryGroups {
    /// Groups rows by so many paragraphs.
    fn of(alloc: Global, count: usize, rows: Vec<NamedCorrRow>) -> Result<Self, AllocError>
        ensures groups { IfOk result (λ made. AreGrouped count rows.items (map (λ g. g.items) made.groups.items)) }
        ensures stray { IfOk result (λ grouped. IsFirstStray count rows.items grouped.stray) }
        ensures texts { OnOk result (All (HasUtf8Texts FileTable.NamedCorr) rows.items) }
    {
        let mut groups = no_rows(alloc, count)?;
        let mut stray = None;
        for row in rows {
            let id = row.entry.para;
            match index_of(id, count) {
                Some(index) => groups[index].push(row)?,
                None => stray = Some(smaller(stray, id)),
            }
        }
        Ok(EntryGroups { groups, stray })
    }
}

/// Gives each paragraph the history of the rows in its group.
fn read_histories(
    alloc: Global,
    items: &mut Vec<Paragraph>,
    groups: Vec<Vec<NamedCorrRow>>,
) -> Result<(), RowsFault>
    requires { length groups.items ≡ length items.old.items }
    ensures same { OnOk result (map without_history items.new.items ≡ map without_history items.old.items) }
    ensures read { OnOk result (HaveRead (map (λ group. group.items) groups.items) items.new.items) }
    ensures damaged { IfErr result (λ fault. (fault ≡ RowsFault.NoMemory)
        ⊎ IsFirstUnread (map (λ group. group.items) groups.items) items.old.items fault) }
{
    for (index, rows) in groups.into_iter().enumerate() {
        read_history(alloc, index as i64 + 1, &mut items[index], rows)?;
    }
    Ok(())
}

/// Gives the paragraphs, which are in the order of their ids, the histories of rows.
pub(crate) fn read_entries(
    alloc: Global,
    items: &mut Vec<Paragraph>,
    rows: Vec<NamedCorrRow>,
) -> Result<(), RowsFault>
    requires of { (paras : List Para) × AreOf paras items.old.items }
    ensures whole { (paras : List Para) → AreOf paras items.old.items
        → OnOk result (IsWhole (IsDamagedEntries paras rows.items)) }
    ensures histories { (paras : List Para) → AreOf paras items.old.items
        → OnOk result (All (HasHistory rows.items items.new.items) paras) }
    ensures texts { OnOk result (All (HasUtf8Texts FileTable.NamedCorr) rows.items) }
    ensures same { OnOk result (map without_history items.new.items ≡ map without_history items.old.items) }
    ensures damaged { (paras : List Para) → AreOf paras items.old.items
        → IfErr result (TellsDamage (IsDamagedEntries paras rows.items)) }
{
    let EntryGroups { groups, stray } = EntryGroups::of(alloc, items.len(), rows)?;
    if let Some(id) = stray {
        if id < 1 {
            return Err(RowsFault::Damaged(id));
        }
    }
    read_histories(alloc, items, groups)?;
    match stray {
        Some(id) => Err(RowsFault::Damaged(id)),
        None => Ok(()),
    }
}
