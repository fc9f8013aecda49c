//! The words of the command line: the program's `clap` commands, and which action the words name.
//!
//! ```rust
//! use desk_words::{Action, action_of, whole_command};
//!
//! let matches = whole_command(alloc)?.try_get_matches_from(words)?;
//! if let Some(Action::Translate { table }) = action_of(&matches) {
//!     translate(table)
//! }
//! ```
//!
//! `desk_program` carries the action out, and `braildesk` takes the words from the system.
#![tactic(auto)]

mod action;
mod command;
mod help;
pub mod laws;
mod reading;

pub use action::{Action, action_of};
pub use command::whole_command;
pub use reading::{Reading, read_words};
