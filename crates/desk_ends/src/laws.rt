//! Laws of lines.
ghost use Rattle.desk_ends.specs.Limits.{chunk_bytes, most_input, most_line_bytes};
ghost use Rattle.desk_ends.specs.Lines.{HasNoFeed, IsFed, without_ending};
ghost use Rattle.desk_ends.specs.declared.limits.TheConstants.{CHUNK_BYTES, MOST_INPUT, MOST_LINE_BYTES};
ghost use Rattle.louis_table.specs.Lines.{lines_of};
ghost use Rattle.std.specs.Prelude.{[], ◌≡◌, ◌≢◌, ◌++◌, ◌∷◌, ℕ, List};

/// A line that is read is the first line of the bytes from there on, and the last one may lack its
/// line feed.
pub fn first_line()
    ensures fed { (line later : List ℕ) → IsFed line → lines_of (line ++ later) ≡ without_ending line ∷ lines_of later }
    ensures last { (line : List ℕ) → HasNoFeed line → line ≢ [] → lines_of line ≡ without_ending line ∷ [] }
{}

/// The limits that the code compares with are those that the definitions write.
pub fn limits()
    ensures line_bytes { MOST_LINE_BYTES ≡ most_line_bytes }
    ensures input { MOST_INPUT ≡ most_input }
    ensures chunk { CHUNK_BYTES ≡ chunk_bytes }
{}
