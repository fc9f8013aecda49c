//! A session over two ends, and each of its turns: one request, from its bytes to its reply.
ghost use Rattle.desk_line.specs.Request.{Reads};
ghost use Rattle.desk_model.specs.Book.{Book};
ghost use Rattle.desk_session.specs.Requests.{GiveNoRequest};
ghost use Rattle.desk_session.specs.Service.{LosesCommand, Serves, ends_of};
ghost use Rattle.desk_session.specs.TurnSteps.{LosesChange, SendsReply, TakesTurn};
ghost use Rattle.desk_store.specs.Keeping.{Store as Shown, shown_by};
ghost use Rattle.sqlite.specs.State.{HasCleanDisk};
ghost use Rattle.std.specs.Prelude.{IsTrue, List, MatchResult, false, is_ok, true, ℕ, ◌↔◌, ◌≡◌, ◌≢◌};

use super::no_request::NoRequest;
use super::reader::{Buffers, next_request};
use desk_book::Book;
use desk_ends::{Block, Input, Sent, Sink, Source};
use desk_line::{Answer, Request, send_reply};
use desk_model::Command;
use desk_store::Store;
use sqlite::Alter;
use std::alloc::Global;

/// How a session ended.
#[derive(Clone, Copy, Debug, PartialEq, Eq)]
pub enum Ended {
    /// All requests are answered.
    Done,
    /// A read failed, or 2^62 bytes had been read.
    Input,
    /// A write or a flush failed.
    Output,
    /// The file failed to keep a change.
    Lost,
}

/// Answers the requests of a source, one after another, by replies to a sink.
///
/// Each accepted command is kept in the file of the store, before it is put into the book and
/// acknowledged. A reply is flushed before the next request is read. A read, a write or a flush
/// that fails, in any way, isn't tried again. If a command is lost, this is replied, and the
/// session ends. The first failure says how it ended.
///
/// The caller's condition: no change was lost on the store, and its file shows the book in tables
/// as they are made.
pub fn serve<R: Source, W: Sink, S: Alter>(
    alloc: Global,
    source: &mut R,
    sink: &mut W,
    store: &mut Store<S>,
    book: Book,
) -> (Ended, Book)
    ensures served { Serves book result.1 result.0 (ends_of R.Source source.old source.new
        W.Sink sink.old sink.new (shown_by S.Store store.old) (shown_by S.Store store.new)) }
    // Only a store on which a change was lost ends it so. The first loss is put down to an error.
    ensures lost { result.0 ≡ Ended.Lost → store.new.lost ≡ true }
    ensures cause { HasCleanDisk (shown_by S.Store store.new) → store.old.lost ≡ false
        → result.0 ≡ Ended.Lost → LosesCommand S.Store book result.1
        (shown_by S.Store store.old) (shown_by S.Store store.new) }
{
    let mut input = Input::new();
    let mut buffers = Buffers::new(alloc);
    let mut block = Block::new();
    let mut book = book;
    loop {
        let found = match next_request(alloc, source, &mut input, &mut buffers) {
            Ok(Some(found)) => found,
            Ok(None) => return (Ended::Done, book),
            Err(_) => return (Ended::Input, book),
        };
        let (answer, next) = answer_found(alloc, store, book, found);
        book = next;
        let sent = reply(sink, &mut block, &book, &answer);
        if is_lost(&answer) {
            return (Ended::Lost, book);
        }
        if sent.is_err() {
            return (Ended::Output, book);
        }
    }
}

/// Answers the requests of a source, one after another, by replies to a sink, as [`serve`] does,
/// and lets go of the store and the book.
pub fn run<R: Source, W: Sink, S: Alter + Drop>(
    alloc: Global,
    source: &mut R,
    sink: &mut W,
    store: Store<S>,
    book: Book,
) -> Ended
    // What became of the book and of the file is known of `serve`; here it is a book and a state
    // that fit.
    ensures { (last : Book) × (left : Shown S)
        × Serves book last result (ends_of R.Source source.old source.new
        W.Sink sink.old sink.new (shown_by S.Store store) (shown_by S.Store left))
        × (HasCleanDisk (shown_by S.Store left) → store.lost ≡ false → result ≡ Ended.Lost
        → LosesCommand S.Store book last (shown_by S.Store store) (shown_by S.Store left)) }
{
    let mut store = store;
    let (ended, _) = serve(alloc, source, sink, &mut store, book);
    ended
}

/// Answers a request that was found, and gives the book as it is then.
pub(crate) fn answer_found<S: Alter>(
    alloc: Global,
    store: &mut Store<S>,
    book: Book,
    found: Result<Request<'_>, NoRequest>,
) -> (Answer, Book)
    ensures taken { (bytes : List ℕ) → MatchResult found.entry (Reads bytes) (GiveNoRequest bytes)
        → TakesTurn bytes book result.1 result.0
        (shown_by S.Store store.old) (shown_by S.Store store.new) }
    ensures lost { result.0 ≡ Answer.Lost → store.new.lost ≡ true }
    // The first loss has a cause.
    ensures cause { HasCleanDisk (shown_by S.Store store.new) → store.old.lost ≡ false
        → result.0 ≡ Answer.Lost
        → LosesChange S.Store book store.old.connection (shown_by S.Store store.new) }
    ensures held { store.old.lost ≡ false → result.0 ≢ Answer.Lost → store.new.lost ≡ false }
{
    match found {
        Ok(Request::Do { command, expect }) => carry_out(alloc, store, book, &command, expect),
        Ok(Request::Ask(query)) => (Answer::Asked(query), book),
        Err(fault) => match fault {
            NoRequest::Syntax => (Answer::Syntax, book),
            NoRequest::NoMemory => (Answer::NoMemory, book),
        },
    }
}

/// Plans a command, keeps its change in the file, and then puts it into the book.
fn carry_out<S: Alter>(
    alloc: Global,
    store: &mut Store<S>,
    book: Book,
    command: &Command<'_>,
    expect: Option<u64>,
) -> (Answer, Book)
    ensures taken { (bytes : List ℕ) → Reads bytes (Request.Do command.now expect)
        → TakesTurn bytes book result.1 result.0
        (shown_by S.Store store.old) (shown_by S.Store store.new) }
    ensures lost { result.0 ≡ Answer.Lost → store.new.lost ≡ true }
    // The first loss has a cause.
    ensures cause { HasCleanDisk (shown_by S.Store store.new) → store.old.lost ≡ false
        → result.0 ≡ Answer.Lost
        → LosesChange S.Store book store.old.connection (shown_by S.Store store.new) }
    ensures held { store.old.lost ≡ false → result.0 ≢ Answer.Lost → store.new.lost ≡ false }
{
    let change = match book.plan(alloc, command, expect) {
        Ok(change) => change,
        Err(refusal) => return (Answer::Refused(refusal), book),
    };
    if store.keep(alloc, &book, &change).is_err() {
        return (Answer::Lost, book);
    }
    let number = change.number();
    (Answer::Done { number }, book.settle(change))
}

/// Replies to a request through the output buffer, and flushes the reply.
pub(crate) fn reply<K: Sink>(sink: &mut K, block: &mut Block, book: &Book, answer: &Answer) -> Sent
    ensures { SendsReply K.can_fail (K.contents sink.old) (K.contents sink.new) (K.flushed sink.new)
        book.now answer.now (is_ok result) }
{
    send_reply(sink, block, book, answer)?;
    sink.flush()
}

/// Whether a command was lost.
pub(crate) fn is_lost(answer: &Answer) -> bool
    ensures { IsTrue result ↔ (answer.now ≡ Answer.Lost) }
{
    matches!(answer, Answer::Lost)
}
