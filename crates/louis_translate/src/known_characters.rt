//! Characters that a table defines, found by their code.
ghost use Rattle.louis_translate.specs.Known.{AreKnown, is_known};
ghost use Rattle.std.specs.Prelude.{◌≡◌};

use super::print::defines;
use louis_table::Table;
use std::marker::Model;

/// How many codes a byte has.
const CODES: usize = 256;

/// How many of the first characters of Unicode are looked up: those of ASCII.
const ASCII: usize = 128;

/// Which characters of ASCII a table defines, found by their code. Contracts see the list of what
/// is said of each code.
#[derive(Drop)]
pub(crate) struct KnownCharacters {
    known: [bool; CODES],
}

impl Model for KnownCharacters {
    ghost use Rattle.std.specs.Prelude.{Bool, List};

    ghost Value = { List Bool };

    ghost view = { λ k. k.known };
}

impl KnownCharacters {
    /// The characters of ASCII that a table defines.
    pub(crate) fn new(table: &Table) -> Self
        ensures { AreKnown table.now result }
    {
        let mut known = [false; CODES];
        for code in 0..ASCII {
            known[code] = defines(table, code as u8 as char);
        }
        KnownCharacters { known }
    }

    /// Whether a character is known to be defined. For one that fits in a byte, a list of as many
    /// as bytes there are needs no test of its bounds.
    #[inline(always)]
    pub(crate) fn has(&self, character: char) -> bool
        ensures { result ≡ is_known self.now character }
    {
        self.known.get(character as usize).is_some_and(|says| *says)
    }
}
