//! What a book puts into new tables of its file.
ghost use Rattle.desk_model.specs.FilledRows.{Fills};
ghost use Rattle.desk_book.specs.Filling.{braille_from, entries_left, histories_from};
ghost use Rattle.desk_model.specs.Limits.{most_paragraphs};
ghost use Rattle.desk_parts.specs.Puts.{LendsFirst, put_of, puts_in};
ghost use Rattle.std.specs.Prelude.{◌≡◌, ◌≤◌, [], ◌∷◌, ◌++◌, IfNone, IfSome, length};

use super::book::Book;
use super::puts::{cache, entry, number};
use desk_memory::Paragraphs;
use desk_model::NewTables;
use desk_parts::{BookRow, Put};
use std::marker::Model;

/// The first entry of the paragraphs from a place on, without so many entries of the first of them:
/// the place of its paragraph, its number in the history, and what is put.
fn first_entry(
    paragraphs: &Paragraphs,
    from: usize,
    without: usize,
) -> Option<(usize, usize, Put<'_>)>
    ensures found { IfSome result (λ found. entries_left from without paragraphs.now
        ≡ put_of found.2 ∷ entries_left found.0 found.1 paragraphs.now) }
    ensures none { IfNone result (entries_left from without paragraphs.now ≡ []) }
{
    let mut at = without;
    for place in from..paragraphs.len() {
        let Some((id, paragraph)) = paragraphs.at(place) else {
            unreachable!()
        };
        if let Some(held) = paragraph.history.as_slice().get(at) {
            return Some((place, at + 1, entry(id, at as u64 + 1, held)));
        }
        at = 0;
    }
    None
}

/// The entries of all histories, paragraph by paragraph. Contracts see those that are left.
#[derive(Drop)]
struct EntryPuts<'a> {
    paragraphs: &'a Paragraphs,
    // the place of the first paragraph that may have more, and how many of its entries were put
    place: usize,
    at: usize,
}

impl<'a> Model for EntryPuts<'a> {
    ghost use Rattle.desk_book.specs.Filling.{entries_left};
    ghost use Rattle.desk_parts.proofs.PutCodes.{puts_code};
    ghost use Rattle.desk_parts.specs.Puts.{RowPuts};

    ghost Value = { RowPuts };

    ghost coded = { puts_code };

    ghost view = { λ p. entries_left p.place p.at p.paragraphs.now };
}

impl<'a> EntryPuts<'a> {
    fn next(&mut self) -> Option<Put<'a>>
        ensures { LendsFirst self.old result self.new }
    {
        let Some((place, at, put)) = first_entry(self.paragraphs, self.place, self.at) else {
            // a later call begins here, and looks at no paragraph again
            self.place = self.paragraphs.len();
            return None;
        };
        self.place = place;
        self.at = at;
        Some(put)
    }
}

/// The braille of all paragraphs. Contracts see what is left.
#[derive(Drop)]
struct BraillePuts<'a> {
    paragraphs: &'a Paragraphs,
    at: usize,
}

impl<'a> Model for BraillePuts<'a> {
    ghost use Rattle.desk_book.specs.Filling.{braille_from};
    ghost use Rattle.desk_model.specs.Limits.{most_paragraphs};
    ghost use Rattle.desk_parts.proofs.PutCodes.{puts_code};
    ghost use Rattle.desk_parts.specs.Puts.{RowPuts};
    ghost use Rattle.std.specs.Prelude.{◌≤◌, length};

    ghost Value = { RowPuts };

    ghost coded = { puts_code };

    ghost view = { λ p. braille_from p.at p.paragraphs.now };

    ghost invariant = { λ p. length p.paragraphs.now ≤ most_paragraphs };
}

impl<'a> BraillePuts<'a> {
    fn next(&mut self) -> Option<Put<'a>>
        ensures { LendsFirst self.old result self.new }
    {
        let (id, paragraph) = self.paragraphs.at(self.at)?;
        self.at += 1;
        Some(cache(id, &paragraph.cells))
    }
}

/// What a book puts into new tables of its file, in order. It allocates nothing. Contracts see what
/// is left.
#[derive(Drop)]
pub struct Filling<'a> {
    book: Option<Put<'a>>,
    entries: EntryPuts<'a>,
    braille: BraillePuts<'a>,
}

impl<'a> Model for Filling<'a> {
    ghost use Rattle.desk_parts.proofs.PutCodes.{puts_code};
    ghost use Rattle.desk_parts.specs.Puts.{RowPuts, puts_in};
    ghost use Rattle.std.specs.Prelude.{◌++◌};

    ghost Value = { RowPuts };

    ghost coded = { puts_code };

    ghost view = { λ f. puts_in f.book ++ (f.entries ++ f.braille) };
}

impl<'a> Iterator for Filling<'a> {
    ghost use Rattle.std.specs.Iterator.{item_count};

    type Item = Put<'a>;

    ghost next_gives = { LendsFirst };

    ghost remaining = { item_count (λ s. s) };

    fn next(&mut self) -> Option<Put<'a>> {
        if let Some(put) = self.book.take() {
            return Some(put);
        }
        if let Some(put) = self.entries.next() {
            return Some(put);
        }
        self.braille.next()
    }
}

impl<'a> Filling<'a> {
    /// A row of the book, the entries of the paragraphs from `place` on, and the braille of those
    /// from `at` on. From the number of paragraphs on there are none.
    fn new(book: Option<Put<'a>>, paragraphs: &'a Paragraphs, place: usize, at: usize) -> Self
        requires { length paragraphs.now ≤ most_paragraphs }
        ensures { result
            ≡ puts_in book.entry ++ (histories_from place paragraphs.now ++ braille_from at paragraphs.now) }
    {
        Filling {
            book,
            entries: EntryPuts {
                paragraphs,
                place,
                at: 0,
            },
            braille: BraillePuts { paragraphs, at },
        }
    }
}

impl Book {
    /// What the book puts into new tables of its file, which are empty: the row of the book in
    /// format 2 with the entries of all histories, or the braille of all paragraphs, or both. Rows
    /// that show the book show it still once they have these tables, and this in them. It allocates
    /// nothing.
    pub fn filling(&self, tables: NewTables) -> Filling<'_>
        ensures { Fills tables self.now result }
    {
        let book = Some(Put::Book(BookRow {
            id: 1,
            format: 2,
            version: number(self.version),
        }));
        let paragraphs = &self.paragraphs;
        let end = paragraphs.len();
        match tables {
            NewTables::EntriesAndBraille => Filling::new(book, paragraphs, 0, 0),
            NewTables::Entries => Filling::new(book, paragraphs, 0, end),
            NewTables::Braille => Filling::new(None, paragraphs, end, 0),
        }
    }
}
