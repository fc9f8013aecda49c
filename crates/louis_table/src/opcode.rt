//! The opcodes of table lines, and their names.
ghost use Rattle.louis_table.specs.Steps.Opcode.{opcode_among, opcode_named};
ghost use Rattle.std.specs.Prelude.{◌≡◌, map, bytes_eq};

use super::character_set::CharacterSet;
use super::definition::Class;
use super::rule::RuleKind;
use super::sign::Sign;

/// What the first field of a line says that the line does.
#[derive(Clone, Copy)]
pub(crate) enum Opcode {
    /// Defines a character of this class.
    Define(Class),
    /// Defines an upper and its lower character.
    UpLow,
    /// Replaces characters by cells.
    Replace(RuleKind),
    /// Gives the cells of a sign.
    Announce(Sign),
    /// Gives the characters of a set.
    Collect(CharacterSet),
}

/// Each opcode beside its name.
const OPCODES: [(&str, Opcode); 16] = [
    ("space", Opcode::Define(Class::Space)),
    ("punctuation", Opcode::Define(Class::Punctuation)),
    ("digit", Opcode::Define(Class::Digit)),
    ("letter", Opcode::Define(Class::Letter)),
    ("uplow", Opcode::UpLow),
    ("always", Opcode::Replace(RuleKind::Always)),
    ("word", Opcode::Replace(RuleKind::Word)),
    ("begword", Opcode::Replace(RuleKind::BegWord)),
    ("midword", Opcode::Replace(RuleKind::MidWord)),
    ("endword", Opcode::Replace(RuleKind::EndWord)),
    ("numsign", Opcode::Announce(Sign::Number)),
    ("capsletter", Opcode::Announce(Sign::Capital)),
    ("begcapsword", Opcode::Announce(Sign::CapitalWord)),
    ("nocontractsign", Opcode::Announce(Sign::NoContraction)),
    (
        "numericmodechars",
        Opcode::Collect(CharacterSet::NumericMode),
    ),
    (
        "numericnocontchars",
        Opcode::Collect(CharacterSet::NoContraction),
    ),
];

/// Whether a field is this name.
fn is_name(mut field: &[char], mut name: &[u8]) -> bool
    ensures { result ≡ bytes_eq field.entry.now name.entry.now }
{
    while let [character, characters @ ..] = field {
        let [byte, bytes @ ..] = name else {
            return false;
        };
        if *character != char::from(*byte) {
            return false;
        }
        field = characters;
        name = bytes;
    }
    name.is_empty()
}

/// The first opcode of a list of opcodes that has this name.
fn opcode_among(mut opcodes: &[(&str, Opcode)], field: &[char]) -> Option<Opcode>
    ensures { result ≡ opcode_among (map (λ o. (o.0.now, o.1)) opcodes.entry.now) field.now }
{
    while let [(name, opcode), rest @ ..] = opcodes {
        if is_name(field, name.as_bytes()) {
            return Some(*opcode);
        }
        opcodes = rest;
    }
    None
}

impl Opcode {
    /// The opcode with this name, if there is one.
    #[tactic(auto, unfolding(crate::specs::Steps::Opcode::opcode_named))]
    pub(crate) fn from_name(field: &[char]) -> Option<Self>
        ensures { result ≡ opcode_named field.now }
    {
        opcode_among(&OPCODES, field)
    }
}
