//! Laws of pages.
ghost use Rattle.desk_model.specs.Book.{Book};
ghost use Rattle.desk_brf.specs.Embossed.{AreBrailles, ArePageTexts, IsEmbossedByte, IsTextLine, dots_in};
ghost use Rattle.desk_brf.specs.PageLayout.{IsLayout, Layout, least_lines, least_width, most_lines, most_width};
ghost use Rattle.desk_brf.specs.declared.layout.TheConstants.{LEAST_LINES, LEAST_WIDTH, MOST_LINES, MOST_WIDTH};
ghost use Rattle.desk_brf.specs.Placing.{IsPlacing};
ghost use Rattle.desk_brf.specs.Volume.{IsVolume};
ghost use Rattle.desk_brf.specs.Volumes.{volume_of};
ghost use Rattle.desk_brf.specs.Words.{is_blank, words};
ghost use Rattle.std.specs.List.{flat_map};
ghost use Rattle.std.specs.Prelude.{◌≡◌, ◌<◌, ℕ, All, List, filter, not};

/// The words of cells have exactly one placing on lines that have room for at least one cell, as
/// all lines of a layout do.
pub fn one_placing()
    ensures { (first other : ℕ) (cells : List ℕ) → 0 < first → 0 < other
        → (placing : List (List (List ℕ))) × IsPlacing first other (words cells) placing
        × ((others : List (List (List ℕ))) → IsPlacing first other (words cells) others → others ≡ placing) }
{}

/// A placing has the cells with dots of the paragraph in order, and no others: nothing is lost, and
/// nothing is there twice.
pub fn whole_placing()
    ensures { (first other : ℕ) (cells : List ℕ) (placing : List (List (List ℕ)))
        → IsPlacing first other (words cells) placing
        → flat_map (λ piece. piece) (flat_map (λ line. line) placing)
        ≡ filter (λ cell. not (is_blank cell)) cells }
{}

/// A volume has one text and one number of pages.
pub fn one_volume()
    ensures { (book : Book) (layout : Layout) (number : ℕ) (bytes others : List ℕ) (pages count : ℕ)
        → IsVolume book layout number bytes pages → IsVolume book layout number others count
        → (others ≡ bytes) × (count ≡ pages) }
{}

/// Each line of text of a volume has at most as many cells as the width, and no blank at its end,
/// if the layout keeps its limits.
pub fn narrow_lines()
    ensures { (book : Book) (layout : Layout) (number : ℕ) (bytes : List ℕ) (pages : ℕ)
        → IsLayout layout.width layout.lines → (volume : IsVolume book layout number bytes pages)
        → All (IsTextLine layout.width) volume.lines }
{}

/// Each byte of a volume stands for a cell, or is one of the CR, LF and form feed that end lines
/// and pages, if the layout keeps its limits.
pub fn embossed_bytes()
    ensures { (book : Book) (layout : Layout) (number : ℕ) (bytes : List ℕ) (pages : ℕ)
        → IsLayout layout.width layout.lines
        → IsVolume book layout number bytes pages → All IsEmbossedByte bytes }
{}

/// A volume's bytes are its pages, each ended by a form feed, the only one in it, and with just as
/// many lines as the layout has in a page, if the layout keeps its limits.
pub fn whole_pages()
    ensures { (book : Book) (layout : Layout) (number : ℕ) (bytes : List ℕ) (pages : ℕ)
        → IsLayout layout.width layout.lines
        → IsVolume book layout number bytes pages → ArePageTexts layout.lines pages bytes }
{}

/// The cells with dots of a volume's lines are, in order, those of its paragraphs' braille: nothing
/// is lost, and nothing is there twice.
pub fn whole_volume()
    ensures { (book : Book) (layout : Layout) (number : ℕ) (bytes : List ℕ) (pages : ℕ)
        → (volume : IsVolume book layout number bytes pages)
        → (brailles : List (List ℕ)) × AreBrailles book (volume_of book number) brailles
        × (dots_in volume.lines ≡ flat_map (λ cells. filter (λ cell. not (is_blank cell)) cells) brailles) }
{}

/// The limits that the code compares with are those in the definitions.
pub fn limits()
    ensures least_width { LEAST_WIDTH ≡ least_width }
    ensures most_width { MOST_WIDTH ≡ most_width }
    ensures least_lines { LEAST_LINES ≡ least_lines }
    ensures most_lines { MOST_LINES ≡ most_lines }
{}
