//! Volumes of a book as pages for embossers, in Braille Ready Format (BRF): bytes of North American
//! Braille ASCII in lines, each ended by CR LF, and a form feed after each page.
//!
//! ```rust
//! use desk_brf::{Layout, export};
//!
//! let layout = Layout::new(40, 25)?;
//! let pages = export(&book, &layout, 1, sink)?;
//! ```
//!
//! Nothing here allocates: a line is laid in an array and written before the next. What the cells
//! are is left to `desk_book`, and where the bytes go to `desk_ends`.
#![tactic(auto)]

pub mod laws;
mod layout;
mod page;
mod page_line;
mod placing;
mod volume;
mod volumes;
mod word;

pub use layout::{BadLayout, Layout};
pub use volume::{ExportFault, export};
