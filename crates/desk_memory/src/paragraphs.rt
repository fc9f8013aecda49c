//! The paragraphs of a book.
ghost use Rattle.desk_memory.specs.Braille.{AreCellsOf};
ghost use Rattle.desk_memory.specs.Held.{ids, in_order_of, paragraph_with_id, renewed_items, with_held_change, with_id};
ghost use Rattle.desk_memory.specs.Held.{with_id_moved, with_new_cells};
ghost use Rattle.desk_memory.specs.HeldPrints.{HasRoomFor, HasRoomForMark, with_mark, with_print_changed};
ghost use Rattle.desk_memory.specs.Room.{Suffices};
ghost use Rattle.desk_model.specs.Limits.{most_paragraphs};
ghost use Rattle.desk_model.specs.Named.{paragraph_before};
ghost use Rattle.desk_model.specs.NextBook.{is_after};
ghost use Rattle.louis_translate.specs.Position.{AreDefined};
ghost use Rattle.std.specs.List.{Contains, filter, flat_map, insert, position, range_with_len};
ghost use Rattle.std.specs.Map.{lookup};
ghost use Rattle.std.specs.Option.{option_copied, option_map_or};
ghost use Rattle.std.specs.Prelude.{IfNone, IfOk, IfSome, IsPermutation, MatchOption, OnOk, Some, [], length, map};
ghost use Rattle.std.specs.Prelude.{nat_eq, not, option_map, slice_get, ℕ, ◌++◌, ◌+◌, ◌<◌, ◌==◌, ◌^◌, ◌∷◌, ◌≡◌, ◌≤◌};

use super::history::HeldEntry;
use super::items::{Items, Room};
use cell_core::{Cells, Sequence};
use desk_model::{Anchor, Style, Text};
use louis_table::Characters;
use louis_translate::{Pieces, RuleIndex};
use std::alloc::{AllocError, Global};
use std::marker::Model;

/// A paragraph of a book.
pub struct Paragraph {
    /// The name of its table.
    pub table: Text,
    /// The text that was typed, as it is stored.
    pub original: Text,
    /// The corrections and undos of it.
    pub history: Items<HeldEntry>,
    /// Its style.
    pub style: Style,
    /// Whether it begins a volume.
    pub begins_volume: bool,
    /// Whether it is struck.
    pub struck: bool,
    /// Its print.
    pub print: Characters,
    /// The braille of its print.
    pub cells: Cells,
    /// The indexes of its marks among those of the book.
    pub marks: Items<usize>,
}

// Written out: a derived drop stands part by part in each function that lets a paragraph go, which
// makes those long to prove.
impl Drop for Paragraph {
    fn drop(self) {
        let Self {
            table,
            original,
            history,
            style,
            begins_volume,
            struck,
            print,
            cells,
            marks,
        } = self;
    }
}

impl Paragraph {
    /// Gives the paragraph new cells, if there are any.
    fn renew(&mut self, new: Option<Cells>)
        ensures { self.new ≡ option_map_or (λ cells. record self.old { cells = cells }) new self.old }
    {
        if let Some(cells) = new {
            self.cells = cells;
        }
    }
}

/// Gives paragraphs, in the order of their ids, new cells, if there are any.
pub fn renew_paragraphs(paragraphs: &mut [Paragraph], cells: Vec<Option<Cells>>)
    ensures { paragraphs.new ≡ renewed_items cells.items paragraphs.old }
{
    let mut cells = cells.into_iter();
    for paragraph in paragraphs.iter_mut() {
        paragraph.renew(cells.next().flatten());
    }
}

/// What a correction or an undo changes in a paragraph.
#[derive(Drop)]
pub struct PrintChange {
    /// The new entry of its history.
    pub entry: HeldEntry,
    /// Room for it beside the others.
    pub room: Room<HeldEntry>,
    /// The new print.
    pub print: Characters,
    /// The braille of that.
    pub cells: Cells,
    /// The place of the old print from which on characters give way.
    pub start: usize,
    /// How many give way.
    pub removed: usize,
    /// How many come in their place.
    pub added: usize,
}

/// The ids of paragraphs in an order.
pub type Order = Sequence<u64>;

/// Paragraphs with the ids 1, 2, .. in the order of their typing, and the order in which they
/// stand.
#[derive(Drop)]
pub struct Paragraphs {
    // the paragraph with id n has index n - 1
    items: Items<Paragraph>,
    // the ids as the paragraphs stand
    order: Items<u64>,
}

impl Model for Paragraphs {
    ghost use Rattle.desk_memory.specs.Held.{HeldParagraphs, paragraph_with_id};
    ghost use Rattle.std.specs.List.{flat_map, range_with_len};
    ghost use Rattle.std.specs.Prelude.{IsPermutation, length};

    ghost Value = { HeldParagraphs };

    ghost view = { λ p. flat_map (paragraph_with_id p.items) p.order };

    ghost invariant = { λ p. IsPermutation (range_with_len 1 (length p.items)) p.order };
}

/// Puts all ids after the list, and the new one after each that is the one given.
fn put_behind(all: &mut Vec<u64>, ids: &[u64], new: u64, id: u64) -> Result<(), AllocError>
    ensures { OnOk result (all.new.items ≡ all.old.items ++ with_id (Anchor.Para id) new ids.now) }
{
    for other in ids {
        all.push(*other)?;
        if *other == id {
            all.push(new)?;
        }
    }
    Ok(())
}

/// The ids with one more, put where a command says.
fn with_new(alloc: Global, ids: &[u64], new: u64, after: Anchor) -> Result<Vec<u64>, AllocError>
    ensures { IfOk result (λ all. all.items ≡ with_id after new ids.now) }
{
    let mut all = Vec::with_capacity(alloc, ids.len() + 1)?;
    match after {
        Anchor::Front => {
            all.push(new)?;
            all.extend_from_slice(ids)?;
        }
        Anchor::End => {
            all.extend_from_slice(ids)?;
            all.push(new)?;
        }
        Anchor::Para(id) => put_behind(&mut all, ids, new, id)?,
    }
    Ok(all)
}

/// The ids without one.
fn without(alloc: Global, ids: &[u64], id: u64) -> Result<Vec<u64>, AllocError>
    ensures { IfOk result (λ others. others.items ≡ filter (λ other. not (other == id)) ids.now) }
{
    ids.iter()
        .copied()
        .filter(|other| *other != id)
        .collect(alloc)
}

/// The place at which an id stands.
fn place_of(ids: &[u64], id: u64) -> Option<usize>
    ensures { result ≡ position (λ other. other == id) ids.now }
{
    ids.iter().position(|other| *other == id)
}

/// Puts the ids in the place of those that a list has. It allocates nothing.
fn put_over(ids: &mut Items<u64>, new: &[u64])
    requires { length new.now ≡ length ids.old }
    ensures { ids.new ≡ new.now }
{
    ids.items.copy_from_slice(new);
}

/// Whether a paragraph with this id would be put after itself.
fn stays_behind(id: u64, after: Anchor) -> bool
    ensures { result ≡ is_after id after }
{
    match after {
        Anchor::Front | Anchor::End => false,
        Anchor::Para(other) => other == id,
    }
}

impl Paragraphs {
    ghost use Rattle.desk_memory.specs.Lending.{lends_paragraph};
    ghost use Rattle.std.specs.Borrow.{sem};
    ghost use Rattle.std.specs.Option.{option_copied_mut};

    /// No paragraphs.
    pub fn new(alloc: Global) -> Self
        ensures { result ≡ [] }
    {
        Paragraphs {
            items: Items::new(alloc),
            order: Items::new(alloc),
        }
    }

    /// The paragraphs of a list in the order of their ids, as these ids stand here.
    pub fn from_vecs(items: Vec<Paragraph>, order: Vec<u64>) -> Result<Self, AllocError>
        requires order { IsPermutation (range_with_len 1 (length items.items)) order.items }
        requires few { length items.items ≤ most_paragraphs }
        ensures { IfOk result (λ paragraphs. paragraphs ≡ flat_map (paragraph_with_id items.items) order.items) }
    {
        Ok(Paragraphs {
            items: Items::from_vec(items)?,
            order: Items::from_vec(order)?,
        })
    }

    /// How many there are.
    pub fn len(&self) -> usize
        ensures { result ≡ length self.now }
    {
        self.items.len()
    }

    /// The ids of the paragraphs as they stand.
    pub fn ids(&self) -> &[u64]
        ensures { result.now ≡ ids self.now }
    {
        self.order.as_slice()
    }

    /// The index of the paragraph with an id, if there is one.
    fn index_of(&self, id: u64) -> Option<usize>
        ensures found { IfSome result (λ index. (index + 1 ≡ id) × (index < length self.now)) }
        ensures none { IfNone result (lookup (nat_eq id) self.now ≡ None) }
    {
        let count = self.items.len();
        let index = id.checked_sub(1)? as usize;
        if index < count { Some(index) } else { None }
    }

    /// The paragraph with an id, if there is one.
    pub fn get(&self, id: u64) -> Option<&Paragraph>
        ensures { option_copied result ≡ lookup (nat_eq id) self.now }
    {
        let index = self.index_of(id)?;
        self.items.as_slice().get(index)
    }

    /// The paragraph with an id, if there is one, to be changed.
    fn get_mut(&mut self, id: u64) -> Option<&mut Paragraph>
        ensures* lends { sem 𝓛 (lends_paragraph self.entry id result) }
        ensures value { option_copied_mut result ≡ lookup (nat_eq id) self.old }
        ensures alone { MatchOption result ((change : _) → self.old ≡ with_held_change id change self.old)
            (λ lent. (change : _)
            → with_held_change id (λ _. change lent.now) self.old ≡ with_held_change id change self.old) }
    {
        let index = self.index_of(id)?;
        self.items.item_mut(index)
    }

    /// The indexes of the marks of the paragraph with an id, if there is one.
    pub fn marks_of(&self, id: u64) -> &[usize]
        ensures { (held : _) → lookup (nat_eq id) self.now ≡ Some held → result.now ≡ held.marks }
    {
        match self.get(id) {
            Some(paragraph) => paragraph.marks.as_slice(),
            None => &[],
        }
    }

    /// The paragraph at a place of the order, from 0, and its id.
    pub fn at(&self, place: usize) -> Option<(u64, &Paragraph)>
        ensures { option_map (λ found. (found.0, found.1.now)) result ≡ slice_get self.now place }
    {
        let order = self.order.as_slice();
        let id = *order.get(place)?;
        let items = self.items.as_slice();
        Some((id, &items[(id - 1) as usize]))
    }

    /// What one more paragraph needs: mostly nothing.
    pub fn room(&self, alloc: Global) -> Result<Room<Paragraph>, AllocError>
        requires { length self.now + 1 < 2 ^ 32 }
        ensures { IfOk result (Suffices (length self.now)) }
    {
        self.items.room(alloc)
    }

    /// What the order needs for one more id: mostly nothing.
    pub fn order_room(&self, alloc: Global) -> Result<Room<u64>, AllocError>
        requires { length self.now + 1 < 2 ^ 32 }
        ensures { IfOk result (Suffices (length self.now)) }
    {
        self.order.room(alloc)
    }

    /// The place in the order at which a paragraph comes to stand that is put where a command says.
    /// If that is after a paragraph, this one has to be there.
    pub fn place_for(&self, after: Anchor) -> usize
        requires { (id : ℕ) → Contains (paragraph_before after) id → Contains (ids self.now) id }
        ensures within { result ≤ length self.now }
        ensures place { (new : ℕ) → insert (ids self.now) result new ≡ with_id after new (ids self.now) }
    {
        match after {
            Anchor::Front => 0,
            Anchor::End => self.order.len(),
            Anchor::Para(id) => match place_of(self.order.as_slice(), id) {
                Some(place) => place + 1,
                None => unreachable!(),
            },
        }
    }

    /// The order with a paragraph taken out and put where a command says; after itself it stays.
    pub fn order_with_move(
        &self,
        alloc: Global,
        id: u64,
        after: Anchor,
    ) -> Result<Order, AllocError>
        ensures { IfOk result (λ order. order ≡ with_id_moved after id (ids self.now)) }
    {
        if stays_behind(id, after) {
            let ids = Vec::from_slice(alloc, self.order.as_slice())?;
            return Ok(Order::from_vec(ids));
        }
        let others = without(alloc, self.order.as_slice(), id)?;
        let ids = with_new(alloc, &others, id, after)?;
        Ok(Order::from_vec(ids))
    }

    /// Adds a paragraph, which stands at a place of the order. It allocates nothing.
    pub fn add(
        &mut self,
        paragraph: Paragraph,
        room: Room<Paragraph>,
        order_room: Room<u64>,
        place: usize,
    )
        requires few { length self.old + 1 < 2 ^ 32 }
        requires room { Suffices (length self.old) room }
        requires order_room { Suffices (length self.old) order_room }
        requires place { place ≤ length self.old }
        requires order { IsPermutation (range_with_len 1 (length self.old + 1))
            (insert (ids self.old) place (length self.old + 1)) }
        ensures { self.new ≡ in_order_of (insert (ids self.old) place (length self.old + 1))
            (self.old ++ (length self.old + 1, paragraph) ∷ []) }
    {
        let id = self.items.len() as u64 + 1;
        self.items.push(room, paragraph);
        self.order.insert(order_room, place, id);
    }

    /// Puts the paragraphs in another order. It allocates nothing.
    pub fn reorder(&mut self, order: Order)
        requires { IsPermutation (range_with_len 1 (length self.old)) order }
        ensures { self.new ≡ in_order_of order self.old }
    {
        put_over(&mut self.order, order.as_slice());
    }

    /// Gives the paragraph with an id, if there is one, a style and flags.
    pub fn set_flags(&mut self, id: u64, style: Style, begins_volume: bool, struck: bool)
        ensures { self.new ≡ with_held_change id
            (λ held. record held { style = style; begins_volume = begins_volume; struck = struck }) self.old }
    {
        if let Some(paragraph) = self.get_mut(id) {
            paragraph.style = style;
            paragraph.begins_volume = begins_volume;
            paragraph.struck = struck;
        }
    }

    /// Gives the paragraph with an id, if there is one, another table and the cells by it.
    pub fn set_table(&mut self, id: u64, table: Text, cells: Cells)
        ensures { self.new ≡ with_held_change id (λ held. record held { table = table; cells = cells }) self.old }
    {
        if let Some(paragraph) = self.get_mut(id) {
            paragraph.table = table;
            paragraph.cells = cells;
        }
    }

    /// Gives the paragraph with an id, which is there, another print and the cells of it, and its
    /// history one entry more. It allocates nothing.
    pub fn change_print(&mut self, id: u64, change: PrintChange)
        requires { HasRoomFor self.old id change.room }
        ensures { self.new ≡ with_held_change id (with_print_changed change) self.old }
    {
        let Some(paragraph) = self.get_mut(id) else {
            return;
        };
        let PrintChange {
            entry,
            room,
            print,
            cells,
            start: _,
            removed: _,
            added: _,
        } = change;
        paragraph.history.push(room, entry);
        paragraph.print = print;
        paragraph.cells = cells;
    }

    /// Gives the paragraph with an id, if there is one, the index of one more of its marks. It
    /// allocates nothing.
    pub fn add_mark(&mut self, id: u64, room: Room<usize>, index: usize)
        requires { HasRoomForMark self.old id room }
        ensures { self.new ≡ with_held_change id (with_mark index) self.old }
    {
        if let Some(paragraph) = self.get_mut(id) {
            paragraph.marks.push(room, index);
        }
    }

    /// Gives paragraphs new cells: the one with id n gets those of item n - 1, if that has any.
    pub fn renew(&mut self, cells: Vec<Option<Cells>>)
        ensures { self.new ≡ map (with_new_cells cells.items) self.old }
    {
        renew_paragraphs(&mut self.items.items, cells);
    }
}

/// The cells of a print of defined characters.
pub fn cells_of(alloc: Global, rules: &RuleIndex, print: &[char]) -> Result<Cells, AllocError>
    requires { AreDefined rules.now print.now }
    ensures { IfOk result (AreCellsOf rules.now print.now) }
{
    let mut cells = Vec::new(alloc);
    for piece in Pieces::new(rules, print) {
        cells.extend_from_slice(piece.sign)?;
        cells.extend_from_slice(piece.own)?;
    }
    Ok(Cells::from_vec(cells))
}
