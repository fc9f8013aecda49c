//! Lists that a planned change makes longer without allocating. An item at the end has a constant
//! cost, taken over all; one at a place moves those behind it.
ghost use Rattle.desk_memory.specs.Room.{Suffices, grown as grown_lem, room_of};
ghost use Rattle.std.specs.Prelude.{insert, ◌≡◌, ◌+◌, ◌<◌, ◌≤◌, ◌^◌, [], ◌∷◌, ◌++◌, IfOk, length};

use std::alloc::{AllocError, Global};
use std::marker::Model;

/// A list with room to spare. Contracts see its items alone: how much room there is follows from
/// their number.
pub struct Items<T> {
    pub(crate) items: Vec<T>,
    // what the room is at least
    room: usize,
}

impl<T> Model for Items<T> {
    ghost use Rattle.desk_memory.specs.Room.{room_of};
    ghost use Rattle.std.specs.Prelude.{List, ◌≡◌, ◌≤◌, length, vec_capacity};

    ghost Value = { List T };

    ghost view = { λ i. i.items.items };

    ghost invariant = { λ i. (i.room ≡ room_of (length i.items.items)) × (i.room ≤ vec_capacity i.items) };
}

impl<T: Drop> Drop for Items<T> {
    fn drop(self) {
        let Self { items, room } = self;
    }
}

/// Room for a list that is longer by one, if the list itself has none. Contracts see how much it
/// is.
#[derive(Drop)]
pub struct Room<T> {
    items: Option<Vec<T>>,
}

impl<T> Model for Room<T> {
    ghost use Rattle.std.specs.Option.{ForSome, option_map};
    ghost use Rattle.std.specs.Prelude.{Option, ℕ, ◌≡◌, [], vec_capacity};

    ghost Value = { Option ℕ };

    ghost view = { λ r. option_map (λ v. vec_capacity v) r.items };

    ghost invariant = { λ r. ForSome r.items (λ v. v.items ≡ []) };
}

/// The room of a list of so many items, if it had this room before the last of them came.
fn grown(room: usize, count: usize) -> usize
    requires { count < 2 ^ 32 }
    ensures { result ≡ grown_lem room count }
{
    if count <= room { room } else { 2 * count }
}

/// The room of a list that grew to so many items.
fn room_for(count: usize) -> usize
    requires { count < 2 ^ 32 }
    ensures room { result ≡ room_of count }
    ensures enough { count ≤ result }
{
    let mut room: usize = 0;
    while room < count {
        room = 2 * (room + 1);
    }
    room
}

impl<T: Drop> Items<T> {
    ghost use Rattle.desk_memory.specs.Lending.{lends_item};
    ghost use Rattle.std.specs.Borrow.{sem};
    ghost use Rattle.std.specs.Option.{option_copied_mut};
    ghost use Rattle.std.specs.Prelude.{slice_get};

    /// No items.
    pub fn new(alloc: Global) -> Self
        ensures { result ≡ [] }
    {
        Items {
            items: Vec::new(alloc),
            room: 0,
        }
    }

    /// The items of a list, with the room of one that grew to them.
    pub fn from_vec(mut items: Vec<T>) -> Result<Self, AllocError>
        requires { length items.items < 2 ^ 32 }
        ensures { IfOk result (λ held. held ≡ items.items) }
    {
        let room = room_for(items.len());
        items.reserve_exact(room - items.len())?;
        Ok(Items { items, room })
    }

    /// The items in order.
    pub fn as_slice(&self) -> &[T]
        ensures { result.now ≡ self.now }
    {
        self.items.as_slice()
    }

    /// The item with an index, if there is one, to be changed.
    pub(crate) fn item_mut(&mut self, index: usize) -> Option<&mut T>
        ensures* lends { sem 𝓛 (lends_item T.row self.entry index result) }
        ensures value { option_copied_mut result ≡ slice_get self.old index }
    {
        self.items.get_mut(index)
    }

    /// How many there are.
    pub fn len(&self) -> usize
        ensures { result ≡ length self.now }
    {
        self.items.len()
    }

    /// What one more item needs: mostly nothing.
    pub fn room(&self, alloc: Global) -> Result<Room<T>, AllocError>
        requires { length self.now + 1 < 2 ^ 32 }
        ensures { IfOk result (Suffices (length self.now)) }
    {
        let count = self.items.len() + 1;
        if count <= self.room {
            return Ok(Room { items: None });
        }
        let items = Vec::with_capacity(alloc, 2 * count)?;
        Ok(Room { items: Some(items) })
    }

    /// Puts an item after the others. It allocates nothing.
    pub fn push(&mut self, room: Room<T>, item: T)
        requires few { length self.old + 1 < 2 ^ 32 }
        requires room { Suffices (length self.old) room }
        ensures { self.new ≡ self.old ++ item ∷ [] }
    {
        self.room = grown(self.room, self.items.len() + 1);
        let Some(mut items) = room.items else {
            self.items.push(item).unwrap();
            return;
        };
        items.append(&mut self.items).unwrap();
        items.push(item).unwrap();
        self.items = items;
    }

    /// Puts an item at a place, before those that stand there and after. It allocates nothing.
    pub(crate) fn insert(&mut self, room: Room<T>, place: usize, item: T)
        requires few { length self.old + 1 < 2 ^ 32 }
        requires room { Suffices (length self.old) room }
        requires place { place ≤ length self.old }
        ensures { self.new ≡ insert self.old place item }
    {
        self.room = grown(self.room, self.items.len() + 1);
        let Some(mut items) = room.items else {
            self.items.insert(place, item).unwrap();
            return;
        };
        items.append(&mut self.items).unwrap();
        items.insert(place, item).unwrap();
        self.items = items;
    }
}
