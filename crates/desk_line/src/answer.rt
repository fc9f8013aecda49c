//! The answer to a request.
use super::request::Query;
use desk_model::Refusal;

/// The answer to a request, from which `write_reply` makes the text of the reply.
#[derive(Clone, Copy, Debug, PartialEq, Eq)]
pub enum Answer {
    /// The command was accepted, and the book is the one after it: `ok` with that book's version.
    Done {
        /// The number that the command answers, if it answers one, as `Change::number` gives it:
        /// the id of a new paragraph or mark, or the number of a new entry of a history.
        number: Option<u64>,
    },
    /// The command was refused: `no` with the refusal's code and its numbers.
    Refused(Refusal),
    /// The query is to be shown, on the book as it is. If the book lacks the paragraph, the place
    /// or the cell, the reply is the refusal's line.
    Asked(Query),
    /// It wasn't a request: code 1.
    Syntax,
    /// An allocation failed while the command was read: code 90.
    NoMemory,
    /// The command was accepted and couldn't be kept: code 91.
    Lost,
}
