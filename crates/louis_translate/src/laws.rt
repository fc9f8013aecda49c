//! Laws of tilings, of runs of capitals, of numeric mode and of the profiles.
ghost use Rattle.louis_table.specs.Meaning.{Meaning};
ghost use Rattle.louis_table.specs.Profile.{WithoutNumericMode};
ghost use Rattle.louis_table.specs.Table.{Means, MeansIn};
ghost use Rattle.louis_translate.specs.Braille.{IsAmong, IsOutputPlace, braille, chosen_cells};
ghost use Rattle.louis_translate.specs.Position.{AreDefined};
ghost use Rattle.louis_translate.specs.Profiles.{AreAlike, HasNoNumericMode};
ghost use Rattle.louis_translate.specs.Sign.{IsInNumericMode, IsRun, is_capital_at};
ghost use Rattle.louis_translate.specs.Sign.{is_in_numeric_mode, run_end, run_start};
ghost use Rattle.louis_translate.specs.Tiling.{Tiles};
ghost use Rattle.louis_translate.specs.declared.choices.Choice.{Choice};
ghost use Rattle.std.specs.Prelude.{◌≡◌, ◌↔◌, ◌<◌, ℕ, List, length, true};

/// Each print has exactly one tiling.
pub fn one_tiling()
    ensures { (meaning : Meaning) (print : List ℕ)
        → (choices : List Choice) × Tiles meaning print choices
        × ((others : List Choice) → Tiles meaning print others → others ≡ choices) }
{}

/// By every table that a text means, each choice makes at least one cell besides its sign; so each
/// output place is that of a cell.
pub fn cells()
    ensures choices { (bytes : List ℕ) (meaning : Meaning) (print : List ℕ) (choices : List Choice)
        → Means bytes meaning → AreDefined meaning print → Tiles meaning print choices
        → (before : List Choice) (choice : Choice) → IsAmong choices before choice
        → 0 < length (chosen_cells meaning print choice.start choice.rule) }
    ensures outputs { (bytes : List ℕ) (meaning : Meaning) (print : List ℕ) (choices : List Choice)
        → Means bytes meaning → AreDefined meaning print → Tiles meaning print choices
        → (i place : ℕ) → IsOutputPlace meaning print choices i place
        → place < length (braille meaning print choices) }
{}

/// Around each capital, its run is the longest interval of neighbouring capitals.
pub fn longest_runs()
    ensures { (meaning : Meaning) (print : List ℕ) (i : ℕ) → is_capital_at meaning print i ≡ true
        → IsRun meaning print i (run_start meaning print i) (run_end meaning print i) }
{}

/// A place is in numeric mode exactly if a digit stands at it or before it, and each place from
/// there on up to it holds a digit or a character that continues a number.
pub fn numeric_mode()
    ensures { (meaning : Meaning) (print : List ℕ) (i : ℕ)
        → (is_in_numeric_mode meaning print i ≡ true) ↔ IsInNumericMode meaning print i }
{}

/// What a table text means in the profile without numeric mode, it means in the one with it, and
/// says nothing of the mode; and by both each print has the same signs, tilings, cells and places.
pub fn profiles()
    ensures means { (bytes : List ℕ) (meaning : Meaning) → MeansIn WithoutNumericMode bytes meaning
        → Means bytes meaning × HasNoNumericMode meaning }
    ensures alike { (bytes : List ℕ) (meaning : Meaning) (print : List ℕ)
        → MeansIn WithoutNumericMode bytes meaning → AreAlike meaning print }
{}
