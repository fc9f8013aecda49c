//! The program: what its words ask for, over files, a source, a sink and a place for what is
//! refused.
//!
//! `new`, `session`, `export` and `check` are about the book in a file, and `translate` about lines
//! of print.
//!
//! ```rust
//! use desk_program::{DONE, program};
//!
//! let words = ["braildesk", "check", "moon.braildesk"];
//! let status = program(rt, &words, &mut source, &mut sink, &mut errors);
//! assert_eq!(rt; status, DONE);
//! ```
//!
//! Files are those of a `Shelf`, and databases those of `Databases`; the system's are both. Which
//! words there are is `desk_words`'s. The words, the standard ends and the exit status of a process
//! are left to `braildesk`.
//!
//! Another program over books calls what this one does: `desk_session::serve` answers the requests
//! of an input to a book, whose file keeps each command before it is acknowledged, and gives the
//! book back, and `run` lets go of it; `desk_translate::translate_lines` answers each line of an
//! input by its braille; and `desk_session::laws::life` says what is found of a book after any
//! number of sessions, however each of them was stopped. Ends are those of `desk_ends`, a book in
//! its file is opened by `desk_store`, and tables are read by `louis_table` and `louis_translate`.
#![tactic(auto)]

mod books;
mod fault;
mod shelf;
mod status;
mod stop;
mod table_file;

pub use fault::ProgramFault;
pub use shelf::{Databases, Shelf};
pub use status::{DONE, FAILED, OTHER_WORDS, REFUSED, program, refuse, refuse_words};
pub use stop::Stop;
pub use table_file::{SUPPLIED, read_table};
