//! What holds of every table text.
ghost use Rattle.louis_table.specs.Meaning.{HasCells, Meaning, set_characters, sign_cells};
ghost use Rattle.louis_table.specs.Profile.{Profile, WithoutNumericMode};
ghost use Rattle.louis_table.specs.SuppliedTable.{english};
ghost use Rattle.louis_table.specs.Table.{Bad, BadIn, Means, MeansIn, most_line_characters};
ghost use Rattle.louis_table.specs.Table.{most_lines, most_rule_characters, most_set_characters};
ghost use Rattle.louis_table.specs.declared.character_set.CharacterSet.{CharacterSet};
ghost use Rattle.louis_table.specs.declared.en.TheConstants.{EN};
ghost use Rattle.louis_table.specs.declared.line_entry.TheConstants.{MOST_RULE_CHARACTERS, MOST_SET_CHARACTERS};
ghost use Rattle.louis_table.specs.declared.read.TheConstants.{MOST_LINES, MOST_LINE_CHARACTERS};
ghost use Rattle.louis_table.specs.declared.sign.Sign.TheVariants.{NoContraction};
ghost use Rattle.std.specs.Prelude.{◌≡◌, ◌⊎◌, ℕ, List, []};

/// Bytes are a table with one meaning, or have one fault that is reported, and never both.
pub fn one_meaning()
    ensures one { (bytes : List ℕ) (t u : Meaning) → Means bytes t → Means bytes u → t ≡ u }
    ensures one_fault { (bytes : List ℕ) (n c m d : ℕ) → Bad bytes n c → Bad bytes m d → (n ≡ m) × (c ≡ d) }
    ensures either { (bytes : List ℕ) (t : Meaning) (n c : ℕ) → Means bytes t → ¬ (Bad bytes n c) }
    ensures some { (bytes : List ℕ) → ((t : Meaning) × Means bytes t) ⊎ ((n : ℕ) × (c : ℕ) × Bad bytes n c) }
{}

/// A table without numeric mode has the same meaning in the profile that has the mode, and nothing
/// of the mode. In each profile bytes are a table with one meaning, or have one fault that is
/// reported, and never both.
pub fn profiles()
    ensures same { (bytes : List ℕ) (t : Meaning) → MeansIn WithoutNumericMode bytes t → Means bytes t }
    ensures nothing_new { (bytes : List ℕ) (t : Meaning) → MeansIn WithoutNumericMode bytes t
        → (sign_cells t NoContraction ≡ []) × ((set : CharacterSet) → set_characters t set ≡ []) }
    ensures one { (profile : Profile) (bytes : List ℕ) (t u : Meaning)
        → MeansIn profile bytes t → MeansIn profile bytes u → t ≡ u }
    ensures one_fault { (profile : Profile) (bytes : List ℕ) (n c m d : ℕ)
        → BadIn profile bytes n c → BadIn profile bytes m d → (n ≡ m) × (c ≡ d) }
    ensures either { (profile : Profile) (bytes : List ℕ) (t : Meaning) (n c : ℕ)
        → MeansIn profile bytes t → ¬ (BadIn profile bytes n c) }
    ensures some { (profile : Profile) (bytes : List ℕ)
        → ((t : Meaning) × MeansIn profile bytes t) ⊎ ((n : ℕ) × (c : ℕ) × BadIn profile bytes n c) }
{}

/// Each definition and each rule of a table that bytes mean has at least one cell.
pub fn cells()
    ensures { (profile : Profile) (bytes : List ℕ) (t : Meaning) → MeansIn profile bytes t → HasCells t }
{}

/// The supplied table means uncontracted English, as it is written out in the definitions.
pub fn supplied_table()
    ensures { Means EN.now english }
{}

/// The limits that the code compares with are those in the definitions.
pub fn limits()
    ensures lines { MOST_LINES ≡ most_lines }
    ensures line_characters { MOST_LINE_CHARACTERS ≡ most_line_characters }
    ensures rule_characters { MOST_RULE_CHARACTERS ≡ most_rule_characters }
    ensures set_characters { MOST_SET_CHARACTERS ≡ most_set_characters }
{}
