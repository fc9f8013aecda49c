//! Sessions: requests to a book whose file keeps each accepted command before it is acknowledged.
//!
//! A session reads requests from a source and writes their replies to a sink, one after another,
//! until the input ends, an end fails or a command can't be kept.
//!
//! ```rust
//! use desk_session::{Ended, serve};
//!
//! let (ended, book) = serve(alloc, &mut source, &mut sink, &mut store, book);
//! ```
//!
//! What requests and replies are is `desk_line`'s, what commands do to a book `desk_model`'s, and
//! the file `desk_store`'s.
#![tactic(auto)]

pub mod found;
pub mod laws;
mod no_request;
mod reader;
mod session;

pub use session::{Ended, run, serve};
