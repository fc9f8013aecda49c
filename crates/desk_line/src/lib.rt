//! Requests to a book, and the replies, as lines of text.
//!
//! A request is a head line, and for `table` the lines that it announces. It is read into a command
//! or a query, whole or its head line first; an answer is written as the lines of its reply.
//!
//! ```rust
//! use desk_line::{begin_request, lines_after, read_request};
//!
//! assert_eq!(rt; lines_after(b"table en 58"), 58);
//! let request = read_request(b"type end en Hello\n");
//! if let Some(head) = begin_request(b"table t 1") {
//!     let request = head.finish(b"letter a 1\n");
//! }
//! ```
//!
//! `desk_model` says what a request does to a book; `desk_session` reads requests from an input and
//! sends their replies, through the ends of `desk_ends`.
#![tactic(auto)]

mod answer;
mod directive;
mod fields;
pub mod laws;
mod limits;
mod query;
mod read;
mod reply;
mod request;
mod shown;
mod text_output;

pub use answer::Answer;
pub use read::{RequestHead, begin_request, lines_after, read_request};
pub use reply::{Broken, send_reply, write_reply};
pub use request::{Query, Request};
