//! What a book shows of a paragraph's history.
ghost use Rattle.desk_memory.specs.Histories.{entries_held, entry_held};
ghost use Rattle.desk_model.specs.Limits.{most_entries};
ghost use Rattle.desk_model.specs.HistoryItems.{TellsOf};
ghost use Rattle.std.specs.List.{enumerate_from};
ghost use Rattle.std.specs.Prelude.{◌≡◌, ◌≤◌, length};

use super::history::HeldEntry;
use desk_model::{Done, HistoryItem};
use std::marker::Model;

/// The entries of a paragraph's history in order. It allocates nothing. Contracts see it as those
/// that are left, with their numbers.
#[derive(Drop)]
pub struct History<'a> {
    entries: &'a [HeldEntry],
    at: usize,
}

impl<'a> Model for History<'a> {
    ghost use Rattle.desk_model.specs.Book.{EntryList};
    ghost use Rattle.desk_memory.specs.ItemsLeft.{entries_from};
    ghost use Rattle.desk_model.specs.Limits.{most_entries};
    ghost use Rattle.std.specs.Prelude.{◌≤◌, length};

    ghost Value = { EntryList };

    ghost view = { λ h. entries_from h.at h.entries.now };

    ghost invariant = { λ h. length h.entries.now ≤ most_entries };
}

impl<'a> History<'a> {
    /// All entries.
    pub fn new(entries: &'a [HeldEntry]) -> Self
        requires { length entries.now ≤ most_entries }
        ensures { result ≡ enumerate_from 1 (entries_held entries.now) }
    {
        History { entries, at: 0 }
    }
}

/// What an entry did.
fn reported_of(entry: &HeldEntry) -> Done<'_>
    ensures { TellsOf (entry_held entry.now) result }
{
    match entry {
        HeldEntry::Corrects(correction) => Done::Corrected {
            start: correction.start,
            count: correction.taken.as_slice().len(),
            text: correction.text.as_str(),
            who: correction.who.as_str(),
        },
        HeldEntry::Undoes(number) => Done::TookBack(*number),
    }
}

impl<'a> Iterator for History<'a> {
    ghost use Rattle.desk_model.specs.HistoryItems.{TellsFirst};
    ghost use Rattle.std.specs.Iterator.{item_count};

    type Item = HistoryItem<'a>;

    ghost next_gives = { TellsFirst };

    ghost remaining = { item_count (λ s. s) };

    fn next(&mut self) -> Option<HistoryItem<'a>> {
        let entry = self.entries.get(self.at)?;
        self.at += 1;
        Some(HistoryItem {
            number: self.at as u64,
            done: reported_of(entry),
        })
    }
}
