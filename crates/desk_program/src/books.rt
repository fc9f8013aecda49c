//! What the program does with the book in a file.
ghost use Rattle.desk_program.specs.Books.{Checks, Exports, ExportsFrom, Finds, FindsNone, Holds};
ghost use Rattle.desk_program.specs.Books.{Makes, Opening, Says, place_at, version_line};
ghost use Rattle.std.specs.Prelude.{MatchResult, false, ◌≡◌};

use super::fault::ProgramFault;
use super::shelf::Databases;
use super::stop::Stop;
use desk_book::Book;
use desk_brf::{Layout, export};
use desk_ends::{Sink, Source, send_parts};
use desk_session::{Ended, serve};
use desk_store::Store;
use itoa::Buffer;

/// The book in the file at this path, and the store that keeps it. Where the file has no tables of
/// a book and `make` is true, it gets those of the empty book. A database in which no book is
/// opened is closed again.
fn open_store<F: Databases + AllocGlobal>(
    rt: &F,
    path: &str,
    make: bool,
) -> Result<(Store<F::Database>, Book), Stop>
    ensures { MatchResult result
        (λ it. Opening (place_at F.Shelf F.Database.Store F.connects F.closes rt.now path.now)
        make it.0.connection it.1 × (it.0.lost ≡ false))
        (FindsNone (place_at F.Shelf F.Database.Store F.connects F.closes rt.now path.now) make) }
{
    let mut connection = rt.connect(path, make)?;
    match Store::open_on(rt.alloc(), &mut connection, make) {
        Ok(book) => Ok((Store::over(connection), book)),
        Err(fault) => {
            rt.close(connection.into_store());
            Err(Stop::from(fault))
        }
    }
}

/// The book in the file at this path, which is closed again.
fn read_book<F: Databases + AllocGlobal>(rt: &F, path: &str, make: bool) -> Result<Book, Stop>
    ensures { MatchResult result
        (Finds (place_at F.Shelf F.Database.Store F.connects F.closes rt.now path.now) make)
        (FindsNone (place_at F.Shelf F.Database.Store F.connects F.closes rt.now path.now) make) }
{
    let (store, book) = open_store(rt, path, make)?;
    rt.close(store.release().into_store());
    Ok(book)
}

/// Makes the empty book in the file at this path, and shows its version. A book that is there has
/// to be empty.
pub fn make_book<F: Databases + AllocGlobal, K: Sink>(
    rt: &F,
    path: &str,
    sink: &mut K,
) -> Result<(), Stop>
    ensures { Makes
        (place_at F.Shelf F.Database.Store F.connects F.closes rt.now path.now)
        K.Sink sink.old sink.new result }
{
    let version = read_book(rt, path, true)?.version();
    if version != 0 {
        return Err(Stop::Refused(ProgramFault::Taken { version }));
    }
    tell_version(sink, version)
}

/// Shows the version of the book in the file at this path.
pub fn check_book<F: Databases + AllocGlobal, K: Sink>(
    rt: &F,
    path: &str,
    sink: &mut K,
) -> Result<(), Stop>
    ensures { Checks
        (place_at F.Shelf F.Database.Store F.connects F.closes rt.now path.now)
        K.Sink sink.old sink.new result }
{
    let version = read_book(rt, path, false)?.version();
    tell_version(sink, version)
}

/// Answers the requests of the source from the book in the file at this path, which keeps what they
/// change.
pub fn hold_session<F: Databases + AllocGlobal, S: Source, K: Sink>(
    rt: &F,
    path: &str,
    source: &mut S,
    sink: &mut K,
) -> Result<(), Stop>
    ensures { Holds
        (place_at F.Shelf F.Database.Store F.connects F.closes rt.now path.now)
        S.Source source.old source.new K.Sink sink.old sink.new result }
{
    let (mut store, book) = open_store(rt, path, false)?;
    let (ended, _) = serve(rt.alloc(), source, sink, &mut store, book);
    rt.close(store.release().into_store());
    match ended {
        Ended::Done => Ok(()),
        Ended::Input | Ended::Output => Err(Stop::Ends),
        Ended::Lost => Err(Stop::Lost),
    }
}

/// Writes a volume of the book in the file at this path as pages.
pub fn export_from<F: Databases + AllocGlobal, K: Sink>(
    rt: &F,
    path: &str,
    layout: &Layout,
    volume: u64,
    sink: &mut K,
) -> Result<(), Stop>
    ensures { ExportsFrom
        (place_at F.Shelf F.Database.Store F.connects F.closes rt.now path.now)
        K.Sink sink.old sink.new layout.now volume result }
{
    let book = read_book(rt, path, false)?;
    export_volume(&book, layout, volume, sink)
}

/// Writes a volume of a book as pages.
fn export_volume<K: Sink>(
    book: &Book,
    layout: &Layout,
    volume: u64,
    sink: &mut K,
) -> Result<(), Stop>
    ensures { Exports K.Sink sink.old sink.new book.now layout.now volume result }
{
    export(book, layout, volume, sink)?;
    Ok(sink.flush()?)
}

/// Shows a version.
fn tell_version<K: Sink>(sink: &mut K, version: u64) -> Result<(), Stop>
    ensures { Says K.Sink sink.old sink.new (version_line version) result }
{
    let mut number = Buffer::new();
    let parts: &[&[u8]] = &[b"ok ", number.format(version).as_bytes(), b"\n"];
    send_parts(sink, parts)?;
    Ok(sink.flush()?)
}
