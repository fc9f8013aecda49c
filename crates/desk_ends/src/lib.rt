//! Where bytes come from and where they go, by ends that report what is left to read, what was
//! written, what of it is flushed, and whether they can fail.
//!
//! ```rust
//! use desk_ends::{Sink, send_parts};
//!
//! send_parts(sink, &[b"no 7 ", place, b"\n"])?;
//! sink.flush()?;
//! ```
//!
//! Every reader of std is a `Source` and every writer a `Sink`. An `Input` reads a source line by
//! line, each into a `Line` that allocates nothing. What lines mean is left to the crates above.
#![tactic(auto)]

mod block;
mod buffered_writer;
mod bytes;
mod cells;
mod chunk;
mod ends;
mod input;
pub mod laws;
mod limits;
mod line;
mod texts;

pub use block::Block;
pub use buffered_writer::BufferedWriter;
pub use bytes::{put_byte, put_bytes, send_block};
pub use cells::{put_cell, put_cells};
pub use ends::{Failure, Memory, Sent, Sink, Source};
pub use input::Input;
pub use limits::{CHUNK_BYTES, MOST_INPUT, MOST_LINE_BYTES};
pub use line::{Line, split_line, without_ending};
pub use texts::{send, send_parts};
