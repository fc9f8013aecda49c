//! How large pages are.
ghost use Rattle.desk_brf.specs.PageLayout.{IsLayout, Layout, least_lines, least_width};
ghost use Rattle.desk_brf.specs.PageLayout.{most_lines, most_width, text_lines};
ghost use Rattle.std.specs.Prelude.{◌≡◌, ◌+◌, ◌<◌, ◌≤◌, ◌↔◌, IfOk, IsOk};

use std::marker::Model;
use thiserror::Error;

/// The fewest and the most cells of a line.
const LEAST_WIDTH: u64 = 10;

pub(crate) const MOST_WIDTH: u64 = 60;

/// The fewest and the most lines of a page.
const LEAST_LINES: u64 = 5;

const MOST_LINES: u64 = 40;

/// The width isn't 10 to 60 cells, or the lines aren't 5 to 40.
#[derive(Clone, Copy, Debug, PartialEq, Eq, Error)]
#[error("a page has {LEAST_WIDTH} to {MOST_WIDTH} cells in a line and {LEAST_LINES} to {MOST_LINES} lines")]
pub struct BadLayout;

/// How many cells a line has, and how many lines a page has; the last of these is for the page's
/// number.
#[derive(Debug, Drop)]
pub struct Layout {
    width: usize,
    lines: u64,
}

impl Model for Layout {
    ghost use Rattle.desk_brf.specs.PageLayout.{IsLayout, Layout};

    ghost Value = { Layout };

    ghost view = { λ l. record { width = l.width; lines = l.lines } };

    ghost invariant = { λ l. IsLayout l.width l.lines };
}

impl Layout {
    /// Pages with so many cells in a line and so many lines.
    ///
    /// # Errors
    ///
    /// `BadLayout` exactly if the width isn't 10 to 60, or the lines aren't 5 to 40.
    pub fn new(width: u64, lines: u64) -> Result<Self, BadLayout>
        ensures layout { IfOk result (λ layout. layout ≡ record { width = width; lines = lines }) }
        ensures limits { IsOk result ↔ IsLayout width lines }
    {
        if !(LEAST_WIDTH..=MOST_WIDTH).contains(&width)
            || !(LEAST_LINES..=MOST_LINES).contains(&lines)
        {
            return Err(BadLayout);
        }
        Ok(Layout {
            width: width as usize,
            lines,
        })
    }

    /// The cells of a line.
    pub(crate) fn width(&self) -> usize
        ensures width { result ≡ self.now.width }
        ensures least { least_width ≤ result }
        ensures most { result ≤ most_width }
    {
        self.width
    }

    /// The lines of a page that are for text.
    pub(crate) fn text_lines(&self) -> u64
        ensures lines { result ≡ text_lines self.now }
        ensures least { least_lines ≤ result + 1 }
        ensures most { result < most_lines }
    {
        self.lines - 1
    }
}
