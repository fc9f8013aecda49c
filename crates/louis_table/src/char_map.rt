//! A map whose keys are characters.
ghost use Rattle.std.specs.Prelude.{◌≡◌, ◌∷◌, ◌++◌, [], None, OnOk, OnErr, nat_eq, option_copied};
ghost use Rattle.std.specs.Map.{lookup};

use indexmap::IndexMap;
use std::alloc::{AllocError, Global};
use std::marker::Model;

/// How many of the first characters of Unicode are found by their code, without a hash.
const DIRECT: usize = 128;

/// A map from characters to values, in the order in which they came. Contracts see the list of its
/// entries.
pub struct CharMap<V> {
    entries: IndexMap<char, V>,
    // for each character below `DIRECT`, one more than its entry's index, or 0 if it has none
    places: [usize; DIRECT],
}

impl<V> Model for CharMap<V> {
    ghost use Rattle.std.specs.Prelude.{List, ℕ};
    ghost use Rattle.louis_table.specs.FirstEntries.{AreIn};

    ghost Value = { List (ℕ × V) };

    ghost view = { λ m. m.entries.entries };

    ghost invariant = { λ m. AreIn m.places m.entries.entries };
}

// Written out, as the drop of a table is.
impl<V: Drop> Drop for CharMap<V> {
    fn drop(self) {
        let Self { entries, places } = self;
    }
}

impl<V: Drop> CharMap<V> {
    /// A map without entries.
    pub fn new(alloc: Global) -> Self
        ensures { result ≡ [] }
    {
        CharMap {
            entries: IndexMap::new(alloc),
            places: [0; DIRECT],
        }
    }

    /// The value of a character, if it has one, found by its hash.
    #[inline(never)]
    fn find(&self, character: char) -> Option<&V>
        ensures { option_copied result ≡ lookup (nat_eq character) self.now }
    {
        self.entries.get(&character)
    }

    /// The value of a character, if it has one.
    #[inline(always)]
    pub fn get(&self, character: char) -> Option<&V>
        ensures { option_copied result ≡ lookup (nat_eq character) self.now }
    {
        let code = character as usize;
        if code >= DIRECT {
            return self.find(character);
        }
        let index = self.places[code].checked_sub(1)?;
        let (_, value) = self.entries.get_index(index).unwrap();
        Some(value)
    }

    /// Puts a character that isn't there at the end.
    pub fn insert(&mut self, character: char, value: V) -> Result<(), AllocError>
        requires { lookup (nat_eq character) self.old ≡ None }
        ensures ok { OnOk result (self.new ≡ self.old ++ (character, value) ∷ []) }
        ensures err { OnErr result (self.new ≡ self.old) }
    {
        self.entries.insert(character, value)?;
        let code = character as usize;
        if code < DIRECT {
            self.places[code] = self.entries.len();
        }
        Ok(())
    }
}
