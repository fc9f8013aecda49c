//! The places that a mark covers, and how they move with the print.
ghost use Rattle.desk_model.specs.Limits.{most_print};
ghost use Rattle.desk_model.specs.Marks.{moved_span};
ghost use Rattle.std.specs.Prelude.{◌≡◌, ◌+◌, ◌≤◌};

/// The places that a mark covers, and whether a correction or an undo has touched what it covered.
#[derive(Clone, Copy)]
pub struct Span {
    /// The first place of the print that it covers, from 0.
    pub start: usize,
    /// The place after the last that it covers.
    pub end: usize,
    /// Whether a correction or an undo has touched what it covers.
    pub touched: bool,
}

impl Span {
    /// The span after so many characters of the print, from a place on, were replaced by others.
    pub fn after_edit(self, start: usize, removed: usize, added: usize) -> Span
        requires ordered { self.start ≤ self.end }
        requires print { self.end ≤ most_print }
        requires within { start + removed ≤ most_print }
        requires short { added ≤ most_print }
        ensures { result ≡ moved_span start removed added self }
    {
        if self.end <= start {
            return self;
        }
        if start + removed <= self.start {
            return Span {
                start: self.start - removed + added,
                end: self.end - removed + added,
                touched: self.touched,
            };
        }
        Span {
            start: self.start.min(start),
            end: self.end.max(start + removed) - removed + added,
            touched: true,
        }
    }
}
