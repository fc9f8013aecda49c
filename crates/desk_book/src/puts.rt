//! What a change puts into the rows of its book's file.
ghost use Rattle.desk_model.specs.Loans.{AreLent, LeadTo, row_number};
ghost use Rattle.desk_book.specs.ChangePuts.{cache_put, cells_from, effect_puts, elsewhere_from, entry_row, flags_put};
ghost use Rattle.desk_book.specs.ChangePuts.{further_from, held_mark_row, held_row, place_put, resolved_put, span_put};
ghost use Rattle.desk_book.specs.ChangePuts.{stays_in, tab_put, used_table_put, version_put};
ghost use Rattle.desk_book.specs.Changes.{Carries, Does, change_puts};
ghost use Rattle.desk_model.specs.Limits.{most_paragraphs, most_print};
ghost use Rattle.desk_model.specs.ParagraphMarks.{marks_on};
ghost use Rattle.desk_parts.specs.declared.file_table.FileTable.{FileTable};
ghost use Rattle.desk_parts.specs.Puts.{LendsFirst, PutRow, put_of};
ghost use Rattle.desk_model.specs.Shows.{flag_number, style_number};
ghost use Rattle.desk_model.specs.Sound.{IsSound};
ghost use Rattle.desk_model.specs.NextBook.{next_id};
ghost use Rattle.std.specs.Prelude.{◌≡◌, ◌+◌, ◌-◌, ◌<◌, ◌≤◌, [], ◌∷◌, ◌++◌, IfNone, IfSome, length, map, slice_index};

use super::book::Book;
use super::change::{Change, Effect};
use cell_core::Cells;
use desk_memory::{BoxedTable, HeldEntry, HeldMark, Order, Paragraph, ParagraphMarks, PrintChange};
use desk_model::{Span, Style, Text};
use desk_parts::{CachePut, MarkPut, NamedCorrPut, ParaPut, Put, TabPut};
use std::marker::Model;

/// A number of a book as one of a row. Each is far below the greatest of a row, which stands for
/// any that is not.
pub(crate) fn number(n: u64) -> i64
    ensures { result ≡ row_number n }
{
    n.min(i64::MAX as u64) as i64
}

/// A flag as a number of a row.
fn flag(set: bool) -> i64
    ensures { result ≡ flag_number set }
{
    if set { 1 } else { 0 }
}

/// A style as a number of a row.
fn style_row(style: Style) -> i64
    ensures { result ≡ style_number style }
{
    match style {
        Style::Body => 0,
        Style::Heading => 1,
    }
}

/// The entry with a number of the history of a paragraph.
pub(crate) fn entry(id: u64, seq: u64, entry: &HeldEntry) -> Put<'_>
    ensures { put_of result ≡ PutRow FileTable.NamedCorr (entry_row id seq entry.now) }
{
    match entry {
        HeldEntry::Corrects(correction) => Put::NamedCorr(NamedCorrPut {
            para: number(id),
            seq: number(seq),
            kind: 0,
            start: number(correction.start as u64),
            len: number(correction.taken.as_slice().len() as u64),
            body: correction.text.as_str(),
            who: correction.who.as_str(),
        }),
        HeldEntry::Undoes(undone) => Put::NamedCorr(NamedCorrPut {
            para: number(id),
            seq: number(seq),
            kind: 1,
            start: number(*undone),
            len: 0,
            body: "",
            who: "",
        }),
    }
}

/// The new cells of paragraphs, those of the paragraph with id n at the index n - 1, if it has any.
/// Contracts see those that are left.
#[derive(Drop)]
struct CellPuts<'a> {
    cells: &'a [Option<Cells>],
    at: usize,
}

impl<'a> Model for CellPuts<'a> {
    ghost use Rattle.desk_book.specs.ChangePuts.{cells_from};
    ghost use Rattle.desk_parts.proofs.PutCodes.{puts_code};
    ghost use Rattle.desk_parts.specs.Puts.{RowPuts};

    ghost Value = { RowPuts };

    ghost coded = { puts_code };

    ghost view = { λ p. cells_from p.at p.cells.now };
}

/// The first new cells from an index on, with the id of their paragraph.
fn first_cells(cells: &[Option<Cells>], from: usize) -> Option<(usize, &Cells)>
    ensures found { IfSome result (λ found. cells_from from cells.now
        ≡ cache_put found.0 found.1.now ∷ cells_from found.0 cells.now) }
    ensures none { IfNone result (cells_from from cells.now ≡ []) }
{
    for index in from..cells.len() {
        if let Some(new) = &cells[index] {
            return Some((index + 1, new));
        }
    }
    None
}

impl<'a> CellPuts<'a> {
    fn next(&mut self) -> Option<Put<'a>>
        ensures { LendsFirst self.old result self.new }
    {
        let (id, cells) = first_cells(self.cells, self.at)?;
        self.at = id;
        Some(Put::Cache(CachePut {
            para: number(id as u64),
            cells: cells.as_slice(),
        }))
    }
}

/// The places of paragraphs that move on by one, those from an index of the order on. Contracts see
/// those that are left.
#[derive(Drop)]
struct FurtherPuts<'a> {
    order: &'a [u64],
    at: usize,
}

impl<'a> Model for FurtherPuts<'a> {
    ghost use Rattle.desk_book.specs.ChangePuts.{further_from};
    ghost use Rattle.desk_model.specs.Limits.{most_paragraphs};
    ghost use Rattle.desk_parts.proofs.PutCodes.{puts_code};
    ghost use Rattle.desk_parts.specs.Puts.{RowPuts};
    ghost use Rattle.std.specs.Prelude.{◌≤◌, length};

    ghost Value = { RowPuts };

    ghost coded = { puts_code };

    ghost view = { λ p. further_from p.at p.order.now };

    ghost invariant = { λ p. length p.order.now ≤ most_paragraphs };
}

impl<'a> FurtherPuts<'a> {
    fn next(&mut self) -> Option<Put<'a>>
        ensures { LendsFirst self.old result self.new }
    {
        let id = *self.order.get(self.at)?;
        self.at += 1;
        Some(Put::Place {
            id: number(id),
            place: number(self.at as u64 + 1),
        })
    }
}

/// The places of paragraphs that stand elsewhere in a new order than in the old one. Contracts see
/// those that are left.
#[derive(Drop)]
struct ElsewherePuts<'a> {
    was: &'a [u64],
    order: &'a [u64],
    at: usize,
}

impl<'a> Model for ElsewherePuts<'a> {
    ghost use Rattle.desk_book.specs.ChangePuts.{elsewhere_from};
    ghost use Rattle.desk_parts.proofs.PutCodes.{puts_code};
    ghost use Rattle.desk_parts.specs.Puts.{RowPuts};

    ghost Value = { RowPuts };

    ghost coded = { puts_code };

    ghost view = { λ p. elsewhere_from p.at p.was.now p.order.now };
}

/// Whether the paragraph at an index of a new order stood there in the old one, too.
fn stays(was: &[u64], order: &[u64], index: usize) -> bool
    requires { index < length order.now }
    ensures { result ≡ stays_in was.now (index + 1, slice_index order.now index) }
{
    match was.get(index) {
        Some(id) => *id == order[index],
        None => false,
    }
}

/// The first place, from 1, after an index of a new order at which another paragraph stands than in
/// the old one.
fn first_elsewhere(was: &[u64], order: &[u64], from: usize) -> Option<usize>
    ensures within { IfSome result (λ place. (0 < place) × (place ≤ length order.now)) }
    ensures found { IfSome result (λ place. elsewhere_from from was.now order.now
        ≡ place_put (slice_index order.now (place - 1)) place
        ∷ elsewhere_from place was.now order.now) }
    ensures none { IfNone result (elsewhere_from from was.now order.now ≡ []) }
{
    for index in from..order.len() {
        if !stays(was, order, index) {
            return Some(index + 1);
        }
    }
    None
}

impl<'a> ElsewherePuts<'a> {
    fn next(&mut self) -> Option<Put<'a>>
        ensures { LendsFirst self.old result self.new }
    {
        let place = first_elsewhere(self.was, self.order, self.at)?;
        self.at = place;
        Some(Put::Place {
            id: number(self.order[place - 1]),
            place: number(place as u64),
        })
    }
}

/// The spans of a paragraph's marks after a change of its print. Contracts see those that are left.
#[derive(Drop)]
struct SpanPuts<'a> {
    marks: ParagraphMarks<'a>,
    start: usize,
    removed: usize,
    added: usize,
}

impl<'a> Model for SpanPuts<'a> {
    ghost use Rattle.desk_book.specs.ChangePuts.{AreSpans, span_put};
    ghost use Rattle.desk_model.specs.Limits.{most_print};
    ghost use Rattle.desk_parts.proofs.PutCodes.{puts_code};
    ghost use Rattle.desk_parts.specs.Puts.{RowPuts};
    ghost use Rattle.std.specs.Prelude.{◌+◌, ◌≤◌, map};

    ghost Value = { RowPuts };

    ghost coded = { puts_code };

    ghost view = { λ p. map (span_put p.start p.removed p.added) p.marks };

    ghost invariant = { λ p.
        AreSpans p.marks × (p.start + p.removed ≤ most_print) × (p.added ≤ most_print) };
}

impl<'a> SpanPuts<'a> {
    fn next(&mut self) -> Option<Put<'a>>
        ensures { LendsFirst self.old result self.new }
    {
        let mark = self.marks.next()?;
        let span = Span {
            start: mark.start,
            end: mark.end,
            touched: mark.touched,
        };
        let moved = span.after_edit(self.start, self.removed, self.added);
        Some(Put::Span {
            id: number(mark.id),
            start: number(moved.start as u64),
            stop: number(moved.end as u64),
            touched: flag(moved.touched),
        })
    }
}

/// What follows from a list of the book or of the change, one put for each of its items that
/// changes.
#[derive(Drop)]
enum Walk<'a> {
    Nothing,
    Cells(CellPuts<'a>),
    Further(FurtherPuts<'a>),
    Elsewhere(ElsewherePuts<'a>),
    Spans(SpanPuts<'a>),
}

impl<'a> Walk<'a> {
    ghost use Rattle.desk_book.specs.PutsLeft.{walk_puts};

    /// All new cells of paragraphs.
    fn of_cells(cells: &'a [Option<Cells>]) -> Self
        ensures { walk_puts result ≡ cells_from 0 cells.now }
    {
        Walk::Cells(CellPuts { cells, at: 0 })
    }

    fn next(&mut self) -> Option<Put<'a>>
        ensures { LendsFirst (walk_puts self.old) result (walk_puts self.new) }
    {
        match self {
            Walk::Nothing => None,
            Walk::Cells(puts) => puts.next(),
            Walk::Further(puts) => puts.next(),
            Walk::Elsewhere(puts) => puts.next(),
            Walk::Spans(puts) => puts.next(),
        }
    }
}

/// What a change puts into the rows of its book's file, in order. It allocates nothing. Contracts
/// see what is left.
#[derive(Drop)]
pub struct Puts<'a> {
    version: Option<Put<'a>>,
    row: Option<Put<'a>>,
    print: Option<Put<'a>>,
    cells: Option<Put<'a>>,
    walk: Walk<'a>,
}

impl<'a> Model for Puts<'a> {
    ghost use Rattle.desk_book.specs.PutsLeft.{walk_puts};
    ghost use Rattle.desk_parts.proofs.PutCodes.{puts_code};
    ghost use Rattle.desk_parts.specs.Puts.{RowPuts, puts_in};
    ghost use Rattle.std.specs.Prelude.{◌++◌};

    ghost Value = { RowPuts };

    ghost coded = { puts_code };

    ghost view = { λ p.
        puts_in p.version
        ++ (puts_in p.row ++ (puts_in p.print ++ (puts_in p.cells ++ walk_puts p.walk))) };
}

impl<'a> Iterator for Puts<'a> {
    ghost use Rattle.std.specs.Iterator.{item_count};

    type Item = Put<'a>;

    ghost next_gives = { LendsFirst };

    ghost remaining = { item_count (λ s. s) };

    fn next(&mut self) -> Option<Put<'a>> {
        if let Some(put) = self.version.take() {
            return Some(put);
        }
        if let Some(put) = self.row.take() {
            return Some(put);
        }
        if let Some(put) = self.print.take() {
            return Some(put);
        }
        if let Some(put) = self.cells.take() {
            return Some(put);
        }
        self.walk.next()
    }
}

impl<'a> Puts<'a> {
    ghost use Rattle.desk_parts.specs.Puts.{puts_in};
    ghost use Rattle.desk_book.specs.PutsLeft.{walk_puts};

    /// The version, up to three rows or columns of rows, and what follows from a list.
    fn new(
        version: u64,
        row: Option<Put<'a>>,
        print: Option<Put<'a>>,
        cells: Option<Put<'a>>,
        walk: Walk<'a>,
    ) -> Self
        ensures { result ≡ version_put version
            ∷ (puts_in row.entry ++ (puts_in print.entry
            ++ (puts_in cells.entry ++ walk_puts walk.entry))) }
    {
        Puts {
            version: Some(Put::Version(number(version))),
            row,
            print,
            cells,
            walk,
        }
    }

    /// The version, and a row or columns of one.
    fn of_row(version: u64, row: Put<'a>) -> Self
        ensures { result ≡ version_put version ∷ put_of row.entry ∷ [] }
    {
        Puts::new(version, Some(row), None, None, Walk::Nothing)
    }
}

/// The row of a braille table.
fn tab<'a>(name: &'a Text, table: &'a BoxedTable) -> Put<'a>
    ensures { put_of result ≡ tab_put name.now table.now }
{
    Put::Tab(TabPut {
        name: name.as_str(),
        body: table.text(),
    })
}

/// The row of a paragraph's cells.
pub(crate) fn cache(id: u64, cells: &Cells) -> Put<'_>
    ensures { put_of result ≡ cache_put id cells.now }
{
    Put::Cache(CachePut {
        para: number(id),
        cells: cells.as_slice(),
    })
}

/// The row of a paragraph.
fn para(id: u64, place: usize, paragraph: &Paragraph) -> Put<'_>
    ensures { put_of result ≡ PutRow FileTable.Para (held_row id place paragraph.now) }
{
    Put::Para(ParaPut {
        id: number(id),
        place: number(place as u64),
        tab: paragraph.table.as_str(),
        original: paragraph.original.as_str(),
        print: paragraph.print.as_slice(),
        style: style_row(paragraph.style),
        volume: flag(paragraph.begins_volume),
        struck: flag(paragraph.struck),
    })
}

/// The row of a mark.
fn mark(id: u64, mark: &HeldMark) -> Put<'_>
    ensures { put_of result ≡ PutRow FileTable.Mark (held_mark_row id mark.now) }
{
    Put::Mark(MarkPut {
        id: number(id),
        para: number(mark.paragraph),
        start: number(mark.start as u64),
        stop: number(mark.end as u64),
        note: mark.note.as_str(),
        touched: flag(mark.touched),
        resolved: flag(mark.resolved),
    })
}

/// That a mark is resolved.
fn resolved<'a>(id: u64) -> Put<'a>
    ensures { put_of result ≡ resolved_put id }
{
    Put::Resolved {
        id: number(id),
        resolved: 1,
    }
}

/// The style and flags of a paragraph.
fn flags<'a>(id: u64, style: Style, begins_volume: bool, struck: bool) -> Put<'a>
    ensures { put_of result ≡ flags_put id style begins_volume struck }
{
    Put::Flags {
        id: number(id),
        style: style_row(style),
        volume: flag(begins_volume),
        struck: flag(struck),
    }
}

/// The table that a paragraph uses.
fn table_put<'a>(id: u64, table: &'a Text) -> Put<'a>
    ensures { put_of result ≡ used_table_put id table.now }
{
    Put::Table {
        id: number(id),
        tab: table.as_str(),
    }
}

impl Book {
    ghost use Rattle.desk_book.specs.PutsLeft.{walk_puts};

    /// The ids of the paragraphs as they stand.
    fn order(&self) -> &[u64]
        ensures order { result.now ≡ map (λ paragraph. paragraph.id) self.now.paragraphs }
        ensures few { length result.now ≤ most_paragraphs }
    {
        self.paragraphs.ids()
    }

    /// What a new paragraph puts.
    fn new_paragraph_puts<'a>(
        &'a self,
        version: u64,
        paragraph: &'a Paragraph,
        place: usize,
    ) -> Puts<'a>
        requires { place ≤ length self.now.paragraphs }
        ensures { result ≡ version_put version
            ∷ PutRow FileTable.Para (held_row (next_id self.now) (place + 1) paragraph.now)
            ∷ cache_put (next_id self.now) paragraph.now.cells
            ∷ further_from place (map (λ other. other.id) self.now.paragraphs) }
    {
        let order = self.order();
        let id = order.len() as u64 + 1;
        Puts::new(
            version,
            Some(para(id, place + 1, paragraph)),
            None,
            Some(cache(id, &paragraph.cells)),
            Walk::Further(FurtherPuts { order, at: place }),
        )
    }

    /// What another order of the paragraphs puts.
    fn elsewhere_puts<'a>(&'a self, version: u64, order: &'a Order) -> Puts<'a>
        ensures { result ≡ version_put version
            ∷ elsewhere_from 0 (map (λ other. other.id) self.now.paragraphs) order.now }
    {
        let walk = Walk::Elsewhere(ElsewherePuts {
            was: self.order(),
            order: order.as_slice(),
            at: 0,
        });
        Puts::new(version, None, None, None, walk)
    }

    /// The spans of the marks of a paragraph after a change of its print.
    fn span_puts<'a>(&'a self, id: u64, change: &'a PrintChange) -> Walk<'a>
        requires within { change.now.start + change.now.removed ≤ most_print }
        requires short { change.now.added ≤ most_print }
        requires sound { IsSound self.now }
        ensures { walk_puts result
            ≡ map (span_put change.now.start change.now.removed change.now.added)
            (marks_on id self.now.marks) }
    {
        match self.marks(id) {
            Ok(marks) => Walk::Spans(SpanPuts {
                marks,
                start: change.start,
                removed: change.removed,
                added: change.added,
            }),
            Err(_) => Walk::Nothing,
        }
    }

    /// What another print of a paragraph puts.
    fn print_puts<'a>(&'a self, version: u64, id: u64, change: &'a PrintChange) -> Puts<'a>
        requires within { change.now.start + change.now.removed ≤ most_print }
        requires short { change.now.added ≤ most_print }
        requires sound { IsSound self.now }
        ensures { result ≡ version_put version
            ∷ effect_puts self.now (Effect.ChangePrint id change.now) }
    {
        let seq = self.next_entry(id).unwrap_or(1);
        Puts::new(
            version,
            Some(entry(id, seq, &change.entry)),
            Some(Put::Print {
                id: number(id),
                print: change.print.as_slice(),
            }),
            Some(cache(id, &change.cells)),
            self.span_puts(id, change),
        )
    }
}

impl Effect {
    /// What the effect puts beside a version, which is put first.
    fn puts<'a>(&'a self, version: u64, book: &'a Book) -> Puts<'a>
        requires does { (command : _) × (next : _) × Does book.now command next self.now }
        requires sound { IsSound book.now }
        ensures { result ≡ version_put version ∷ effect_puts book.now self.now }
    {
        match self {
            Effect::AddTable { name, table, .. } => Puts::of_row(version, tab(name, table)),
            Effect::ReplaceTable { name, table, cells } => {
                let walk = Walk::of_cells(cells.as_slice());
                Puts::new(version, Some(tab(name, table)), None, None, walk)
            }
            Effect::AddParagraph {
                paragraph,
                place,
                ..
            } => book.new_paragraph_puts(version, paragraph, *place),
            Effect::ChangePrint { id, change } => book.print_puts(version, *id, change),
            Effect::AddMark { mark: held, .. } => {
                Puts::of_row(version, mark(book.next_mark(), held))
            }
            Effect::ResolveMark { id } => Puts::of_row(version, resolved(*id)),
            Effect::SetFlags {
                id,
                style,
                begins_volume,
                struck,
            } => Puts::of_row(version, flags(*id, *style, *begins_volume, *struck)),
            Effect::ChangeTable { id, table, cells } => Puts::new(
                version,
                Some(table_put(*id, table)),
                None,
                Some(cache(*id, cells)),
                Walk::Nothing,
            ),
            Effect::Reorder { order } => book.elsewhere_puts(version, order),
        }
    }
}

impl Change {
    /// What the change puts into the rows of the file of the book on which it was planned: the
    /// version, and the rows and the columns of rows that it gives, to be put by their keys. Put
    /// into any rows that show the book, with the table of entries with names if one is among it,
    /// it makes rows that show the next book: braille is put only if there is `cache`. It allocates
    /// nothing.
    pub fn puts<'a>(&'a self, book: &'a Book) -> Puts<'a>
        requires { (command : _) × (next : _) × Carries book.now command next self.now }
        ensures these { result ≡ change_puts book.now self.now }
        ensures leads { (command : _) (next : _) → Carries book.now command next self.now
            → LeadTo book.now result next }

        // Only what the command changes is among it.
        ensures lent { (command : _) (next : _) → Carries book.now command next self.now
            → AreLent book.now next command result }
    {
        self.effect.puts(book.version() + 1, book)
    }
}
