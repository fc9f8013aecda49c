//! A table that was read.
ghost use Rattle.std.specs.Prelude.{◌≡◌, ◌≢◌, ◌∷◌, ◌++◌, [], None, Some, OnOk, option_map, is_some};
ghost use Rattle.louis_table.specs.Meaning.{definition_of, fold_of, partner_of, set_characters, sign_cells};
ghost use Rattle.louis_table.specs.Steps.Table.{CanTake, is_known, no_meaning};
ghost use Rattle.louis_table.specs.Steps.Table.{with_definition, with_given, with_partner};
ghost use Rattle.louis_table.specs.Table.{Announces, Collects, Pairs};
ghost use Rattle.louis_table.specs.declared.character_set.CharacterSet.TheVariants as sets;
ghost use Rattle.louis_table.specs.declared.sign.Sign.TheVariants as signs;
ghost use Rattle.std.specs.Option.{option_copied};

use super::char_map::CharMap;
use super::character_set::{CharacterSet, SETS};
use super::definition::{Class, Definition};
use super::rule::{Characters, Rule};
use super::sign::{SIGNS, Sign};
use cell_core::{Cell, Cells};
use std::alloc::{AllocError, Global};
use std::marker::Model;

/// The meaning of a table text.
pub struct Table {
    definitions: CharMap<Definition>,
    partners: CharMap<char>,
    rules: Vec<Rule>,
    signs: [Cells; SIGNS],
    sets: [Characters; SETS],
}

impl Model for Table {
    ghost use Rattle.louis_table.specs.Meaning.{Meaning};

    ghost Value = { Meaning };

    ghost view = { λ t. record {
      definitions = t.definitions;
      partners = t.partners;
      rules = t.rules.items;
      signs = t.signs;
      sets = t.sets;
    } };
}

// Written out: a derived drop appears part by part in each function that drops a table, which makes
// those long to prove.
impl Drop for Table {
    fn drop(self) {
        let Self {
            definitions,
            partners,
            rules,
            signs,
            sets,
        } = self;
    }
}

impl Table {
    /// A table that says nothing.
    pub(crate) fn new(alloc: Global) -> Self
        ensures { result ≡ no_meaning }
    {
        Table {
            definitions: CharMap::new(alloc),
            partners: CharMap::new(alloc),
            rules: Vec::new(alloc),
            signs: [
                Cells::from_vec(Vec::new(alloc)),
                Cells::from_vec(Vec::new(alloc)),
                Cells::from_vec(Vec::new(alloc)),
                Cells::from_vec(Vec::new(alloc)),
            ],
            sets: [
                Characters::from_vec(Vec::new(alloc)),
                Characters::from_vec(Vec::new(alloc)),
            ],
        }
    }

    /// Defines a character that has no definition yet.
    pub(crate) fn define(
        &mut self,
        character: char,
        definition: Definition,
    ) -> Result<(), AllocError>
        requires { definition_of self.old character ≡ None }
        ensures { OnOk result (self.new ≡ with_definition self.old character definition) }
    {
        self.definitions.insert(character, definition)
    }

    /// Makes a character that isn't a capital yet the capital of a lower one.
    fn join(&mut self, upper: char, lower: char) -> Result<(), AllocError>
        requires { partner_of self.old upper ≡ None }
        ensures { OnOk result (self.new ≡ with_partner self.old upper lower) }
    {
        self.partners.insert(upper, lower)
    }

    /// Defines an upper and its lower character, of which neither has a definition yet.
    pub(crate) fn pair(
        &mut self,
        upper: char,
        upper_cells: Cells,
        lower: char,
        lower_cells: Cells,
    ) -> Result<(), AllocError>
        requires { CanTake self.old (Some (Pairs upper upper_cells lower lower_cells)) }
        ensures { OnOk result (self.new ≡ with_given self.old (Some (Pairs upper upper_cells lower lower_cells))) }
    {
        self.join(upper, lower)?;
        self.define(
            upper,
            Definition {
                class: Class::Letter,
                cells: upper_cells,
            },
        )?;
        self.define(
            lower,
            Definition {
                class: Class::Letter,
                cells: lower_cells,
            },
        )
    }

    /// Gives a sign that has no cells yet its cells.
    pub(crate) fn announce(&mut self, sign: Sign, cells: Cells)
        requires { sign_cells self.old sign ≡ [] }
        ensures { self.new ≡ with_given self.old (Some (Announces sign cells)) }
    {
        self.signs[sign as usize] = cells;
    }

    /// Gives a set that has no characters yet its characters.
    pub(crate) fn collect(&mut self, set: CharacterSet, characters: Characters)
        requires { set_characters self.old set ≡ [] }
        ensures { self.new ≡ with_given self.old (Some (Collects set characters)) }
    {
        self.sets[set as usize] = characters;
    }

    /// The table with these rules in place of its own.
    pub(crate) fn with_rules(mut self, rules: Vec<Rule>) -> Self
        ensures { result ≡ record self { rules = rules.items } }
    {
        self.rules = rules;
        self
    }

    /// Whether the table defines the character.
    pub(crate) fn defines(&self, character: char) -> bool
        ensures { result ≡ is_known self.now character }
    {
        self.definition(character).is_some()
    }

    /// The cells of a sign, empty if the table lacks it.
    #[inline(always)]
    pub(crate) fn sign(&self, sign: Sign) -> &[Cell]
        ensures { result.now ≡ sign_cells self.now sign }
    {
        self.signs[sign as usize].as_slice()
    }

    /// The characters of a set, empty if the table lacks it.
    #[inline(always)]
    pub(crate) fn set(&self, set: CharacterSet) -> &[char]
        ensures { result.now ≡ set_characters self.now set }
    {
        self.sets[set as usize].as_slice()
    }

    /// The definition of a character, if the table has one.
    #[inline(always)]
    pub fn definition(&self, character: char) -> Option<&Definition>
        ensures { option_copied result ≡ definition_of self.now character }
    {
        self.definitions.get(character)
    }

    /// The class of a character, if the table defines it.
    #[inline(always)]
    pub fn class(&self, character: char) -> Option<Class>
        ensures { result ≡ option_map (λ defined. defined.class) (definition_of self.now character) }
    {
        Some(self.definition(character)?.class)
    }

    /// The lower character of a capital, and every other character itself.
    #[inline(always)]
    pub fn fold(&self, character: char) -> char
        ensures { result ≡ fold_of self.now character }
    {
        self.partners.get(character).copied().unwrap_or(character)
    }

    /// Whether the character is the upper character of an `uplow` line.
    #[inline(always)]
    pub fn capital(&self, character: char) -> bool
        ensures { result ≡ is_some (partner_of self.now character) }
    {
        self.partners.get(character).is_some()
    }

    /// The rules in the order of their lines, with folded characters.
    pub fn rules(&self) -> &[Rule]
        ensures { result.now ≡ self.now.rules }
    {
        self.rules.as_slice()
    }

    /// The sign before a number, empty if the table lacks it.
    pub fn numsign(&self) -> &[Cell]
        ensures { result.now ≡ sign_cells self.now signs.Number }
    {
        self.sign(Sign::Number)
    }

    /// The sign before one capital, empty if the table lacks it.
    pub fn capsletter(&self) -> &[Cell]
        ensures { result.now ≡ sign_cells self.now signs.Capital }
    {
        self.sign(Sign::Capital)
    }

    /// The sign before a run of capitals, empty if the table lacks it.
    pub fn begcapsword(&self) -> &[Cell]
        ensures { result.now ≡ sign_cells self.now signs.CapitalWord }
    {
        self.sign(Sign::CapitalWord)
    }

    /// The sign before a character that follows a number and would read as part of it, empty if the
    /// table lacks it.
    pub fn nocontractsign(&self) -> &[Cell]
        ensures { result.now ≡ sign_cells self.now signs.NoContraction }
    {
        self.sign(Sign::NoContraction)
    }

    /// The characters that stand within a number besides its digits, as they are written, none if
    /// the table lacks them.
    pub fn mode_chars(&self) -> &[char]
        ensures { result.now ≡ set_characters self.now sets.NumericMode }
    {
        self.set(CharacterSet::NumericMode)
    }

    /// The characters that need the sign of no contraction when they follow a number, as they are
    /// written, none if the table lacks them.
    pub fn nocontract_chars(&self) -> &[char]
        ensures { result.now ≡ set_characters self.now sets.NoContraction }
    {
        self.set(CharacterSet::NoContraction)
    }
}
