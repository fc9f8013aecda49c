//! Writes replies.
ghost use Rattle.desk_ends.specs.Sending.{Puts};
ghost use Rattle.desk_line.specs.ReplyLines.{IsReplied, PutsQueryReply, PutsReply, PutsShown, Refuses, refusal_line};
ghost use Rattle.std.specs.Prelude.{MatchResult, is_ok, ◌++◌, ◌≡◌};

use super::answer::Answer;
use super::request::Query;
use super::shown::{put_braille, put_history, put_list, put_marks, put_place, put_print};
use super::text_output::put_line;
use desk_book::Book;
use desk_ends::{Block, Sent, Sink, send};
use desk_model::Refusal;
use thiserror::Error;

/// A reply was broken off, because a write failed.
#[derive(Clone, Copy, Debug, PartialEq, Eq, Error)]
#[error("a write failed")]
pub struct Broken;

/// Writes the reply to a request, by the answer that it got, on the book as it is. It allocates
/// nothing.
///
/// # Errors
///
/// If a write failed. What went out is then a beginning of the reply.
pub fn write_reply<K: Sink>(sink: &mut K, book: &Book, answer: &Answer) -> Result<(), Broken>
    ensures { IsReplied K.can_fail (K.contents sink.old) (K.contents sink.new)
        book.now answer.now (is_ok result) }
{
    send_reply(sink, &mut Block::new(), book, answer).or(Err(Broken))
}

/// The same through an output buffer that serves one reply after another. What it had before is let
/// go.
///
/// # Errors
///
/// If a write failed. What went out is then a beginning of the reply.
pub fn send_reply<K: Sink>(sink: &mut K, block: &mut Block, book: &Book, answer: &Answer) -> Sent
    ensures { IsReplied K.can_fail (K.contents sink.old) (K.contents sink.new)
        book.now answer.now (is_ok result) }
{
    block.clear();
    put_reply(sink, block, book, answer)?;
    send(sink, block.as_slice())
}

/// Puts the reply to a request.
fn put_reply<K: Sink>(sink: &mut K, block: &mut Block, book: &Book, answer: &Answer) -> Sent
    ensures { PutsReply K.Sink sink.old sink.new block.old block.new
        book.now answer.now (is_ok result) }
{
    match answer {
        Answer::Done { number } => match number {
            None => put_line(sink, block, b"ok", &[book.version()]),
            Some(number) => put_line(sink, block, b"ok", &[book.version(), *number]),
        },
        Answer::Refused(refusal) => put_refusal(sink, block, *refusal),
        Answer::Asked(query) => put_query(sink, block, book, *query),
        Answer::Syntax => put_line(sink, block, b"no", &[1]),
        Answer::NoMemory => put_line(sink, block, b"no", &[90]),
        Answer::Lost => put_line(sink, block, b"no", &[91]),
    }
}

/// Puts a refusal with its numbers.
fn put_refusal<K: Sink>(sink: &mut K, block: &mut Block, refusal: Refusal) -> Sent
    ensures { Puts K.Sink sink.old sink.new
        (block.old ++ refusal_line refusal) block.new (is_ok result) }
{
    let code = u64::from(refusal.code());
    match refusal {
        Refusal::Moved { version } => put_line(sink, block, b"no", &[code, version]),
        Refusal::BadText { place } => put_line(sink, block, b"no", &[code, place as u64]),
        Refusal::Undefined { place } => put_line(sink, block, b"no", &[code, place as u64]),
        Refusal::BadTable(fault) => {
            let cause = u64::from(fault.cause);
            put_line(sink, block, b"no", &[code, fault.line as u64, cause])
        }
        Refusal::Untranslatable { paragraph, place } => {
            put_line(sink, block, b"no", &[code, paragraph, place as u64])
        }
        Refusal::Full(limit) => { put_line(sink, block, b"no", &[code, u64::from(limit.number())]) }
        Refusal::BadName
        | Refusal::BadReader
        | Refusal::NoParagraph
        | Refusal::NoTable
        | Refusal::NoMark
        | Refusal::Struck
        | Refusal::NotStruck
        | Refusal::Resolved
        | Refusal::BadSpan
        | Refusal::NothingToUndo
        | Refusal::TooLong
        | Refusal::NoMemory => put_line(sink, block, b"no", &[code]),
    }
}

/// Puts what a query shows, or its refusal.
fn put_query<K: Sink>(sink: &mut K, block: &mut Block, book: &Book, query: Query) -> Sent
    ensures { PutsQueryReply K.Sink sink.old sink.new block.old block.new
        book.now query (is_ok result) }
{
    match put_shown(sink, block, book, query) {
        Ok(put) => {
            put?;
            put_line(sink, block, b"end", &[book.version()])
        }
        Err(refusal) => put_refusal(sink, block, refusal),
    }
}

/// Puts the lines that a query shows, if it isn't refused.
fn put_shown<K: Sink>(
    sink: &mut K,
    block: &mut Block,
    book: &Book,
    query: Query,
) -> Result<Sent, Refusal>
    ensures { MatchResult result
        (λ put. PutsShown K.Sink sink.old sink.new block.old block.new book.now query (is_ok put))
        (λ refusal. Refuses book.now query refusal × (sink.new ≡ sink.old) × (block.new ≡ block.old)) }
{
    match query {
        Query::Print { paragraph } => Ok(put_print(sink, block, book.print(paragraph)?)),
        Query::Braille { paragraph } => Ok(put_braille(sink, block, book.cells(paragraph)?)),
        Query::History { paragraph } => Ok(put_history(sink, block, book.history(paragraph)?)),
        Query::Marks { paragraph } => Ok(put_marks(sink, block, book.marks(paragraph)?)),
        Query::WhereIs { paragraph, place } => {
            Ok(put_place(sink, block, book.where_is(paragraph, place)?))
        }
        Query::Whence { paragraph, cell } => {
            Ok(put_place(sink, block, book.whence(paragraph, cell)?))
        }
        Query::List => Ok(put_list(sink, block, book.list())),
        Query::Version => Ok(Ok(())),
    }
}
