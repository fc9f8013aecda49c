//! What the program does with its words and its ends.
ghost use Rattle.desk_program.specs.Books.{Says};
ghost use Rattle.desk_program.specs.Fault.{fault_line};
ghost use Rattle.desk_program.specs.Program.{CarriesOut, Does, IsFailure, ReportsText, Translates, files_of, texts_of};
ghost use Rattle.desk_program.specs.declared.fault.ProgramFault.TheVariants.{NoMemory};
ghost use Rattle.desk_program.specs.declared.stop.Stop.TheVariants.{Refused};
ghost use Rattle.desk_ends.specs.Sending.{Sends};
ghost use Rattle.desk_words.specs.Subcommands.{whole};
ghost use Rattle.desk_words.specs.Words.{AreRefused};
ghost use Rattle.std.specs.Prelude.{Err, List, Ok, [], codes, is_ok, ◌++◌, ◌∷◌, ◌≡◌, ◌≢◌, ◌≤◌, ◌⊎◌, ℕ};

use super::books::{check_book, export_from, hold_session, make_book};
use super::fault::ProgramFault;
use super::shelf::{Databases, Shelf};
use super::stop::Stop;
use super::table_file::read_table;
use desk_brf::Layout;
use desk_ends::{Sent, Sink, Source, send, send_parts};
use desk_translate::{Ended, translate_lines};
use desk_words::{Action, Reading, read_words};
use itoa::{Buffer, Integer};

/// The exit status if what was asked is done.
pub const DONE: u8 = 0;

/// The exit status if the words are refused.
pub const OTHER_WORDS: u8 = 1;

/// The exit status if a file, a table, a book or a volume is refused, or an allocation failed.
pub const REFUSED: u8 = 2;

/// The exit status if the file of a book, standard input or standard output failed.
pub const FAILED: u8 = 3;

// The contracts name them.
const _: () = prove!(DONE == 0 && OTHER_WORDS == 1 && REFUSED == 2 && FAILED == 3);

/// Does what the words ask, over the given ends, and answers the exit status. The first word is the
/// program's name.
///
/// What is refused is reported in one line on `errors`. Help goes to the sink, and why words are
/// refused to `errors`.
pub fn program<'a, F: Databases + AllocGlobal, S: Source, K: Sink, E: Sink>(
    rt: &F,
    words: &'a [&'a str],
    source: &mut S,
    sink: &mut K,
    errors: &mut E,
) -> u8
    ensures status { result ≤ FAILED }

    // Words are refused as the whole command refuses them, and why is reported, by a text that
    // isn't empty.
    ensures words { result ≡ OTHER_WORDS → AreRefused whole (texts_of words.now)
        × ((text : List ℕ) × (text ≢ []) × ReportsText E.Sink errors.old errors.new text) }

    // What the words ask for is carried out, or something fails in it, which only the status says.
    ensures done { result ≡ DONE → Does
        (files_of F.Shelf F.File.Source F.Database.Store F.connects F.closes rt.now)
        S.Source source.old source.new K.Sink sink.old sink.new (texts_of words.now) (Ok tt) }
    ensures failed { result ≡ FAILED → (stop : Stop) × IsFailure stop × Does
        (files_of F.Shelf F.File.Source F.Database.Store F.connects F.closes rt.now)
        S.Source source.old source.new K.Sink sink.old sink.new (texts_of words.now) (Err stop) }
    ensures silent { (result ≡ DONE) ⊎ (result ≡ FAILED) → errors.new ≡ errors.old }

    // It is refused, or an allocation for the words failed: one line reports the fault.
    ensures refused { result ≡ REFUSED → (fault : ProgramFault) × ((fault ≡ NoMemory) ⊎ Does
        (files_of F.Shelf F.File.Source F.Database.Store F.connects F.closes rt.now)
        S.Source source.old source.new K.Sink sink.old sink.new (texts_of words.now) (Err (Refused fault)))
        × ReportsText E.Sink errors.old errors.new (fault_line fault) }
    ensures untouched { (result ≡ OTHER_WORDS) ⊎ (result ≡ REFUSED)
        → (source.new ≡ source.old) × (sink.new ≡ sink.old) }
{
    match read_words(rt.alloc(), words) {
        Reading::Asked(action) => end(errors, carry_out(rt, action, source, sink)),
        Reading::Help(text) => end(errors, show(sink, text.as_str())),
        Reading::Refused(text) => refuse_words(errors, text.as_str()),
        Reading::NoMemory => refuse(errors, &ProgramFault::NoMemory),
    }
}

/// Carries an action out.
fn carry_out<F: Databases + AllocGlobal, S: Source, K: Sink>(
    rt: &F,
    action: Action<'_>,
    source: &mut S,
    sink: &mut K,
) -> Result<(), Stop>
    ensures { CarriesOut
        (files_of F.Shelf F.File.Source F.Database.Store F.connects F.closes rt.now)
        S.Source source.old source.new K.Sink sink.old sink.new action.entry result }
{
    match action {
        Action::New { file } => make_book(rt, file, sink),
        Action::Session { file } => hold_session(rt, file, source, sink),
        Action::Export {
            file,
            volume,
            width,
            lines,
        } => export_from(rt, file, &Layout::new(width, lines)?, volume, sink),
        Action::Translate { table } => translate(rt, table, source, sink),
        Action::Check { file } => check_book(rt, file, sink),
    }
}

/// Answers each line of the source by the table that a word names.
fn translate<F: Shelf + AllocGlobal, S: Source, K: Sink>(
    rt: &F,
    table: &str,
    source: &mut S,
    sink: &mut K,
) -> Result<(), Stop>
    ensures { Translates (F.can_fail ⊎ F.File.can_fail) (F.at rt.now)
        S.Source source.old source.new K.Sink sink.old sink.new table.now result }
{
    let index = read_table(rt, table)?;
    match translate_lines(source, sink, &index) {
        Ended::Done => Ok(()),
        Ended::Input | Ended::Output => Err(Stop::Ends),
    }
}

/// Shows help.
fn show<K: Sink>(sink: &mut K, text: &str) -> Result<(), Stop>
    ensures { Says K.Sink sink.old sink.new text.now result }
{
    send(sink, text.as_bytes())?;
    Ok(sink.flush()?)
}

/// The exit status of what was carried out, or stopped. A refusal is reported.
fn end<E: Sink>(errors: &mut E, outcome: Result<(), Stop>) -> u8
    ensures status { (result ≤ FAILED) × (result ≢ OTHER_WORDS) }
    ensures done { result ≡ DONE → outcome ≡ Ok tt }
    ensures failed { result ≡ FAILED → (stop : Stop) × IsFailure stop × (outcome ≡ Err stop) }
    ensures silent { (result ≡ DONE) ⊎ (result ≡ FAILED) → errors.new ≡ errors.old }
    ensures refused { result ≡ REFUSED → (fault : ProgramFault) × (outcome ≡ Err (Refused fault))
        × ReportsText E.Sink errors.old errors.new (fault_line fault) }
{
    match outcome {
        Ok(()) => DONE,
        Err(Stop::Refused(fault)) => refuse(errors, &fault),
        Err(Stop::Lost | Stop::Ends) => FAILED,
    }
}

/// Says why words are refused. A failure to say it changes nothing.
pub fn refuse_words<E: Sink>(errors: &mut E, text: &str) -> u8
    ensures status { result ≡ OTHER_WORDS }
    ensures reported { ReportsText E.Sink errors.old errors.new text.now }
{
    let _ = send(errors, text.as_bytes());
    OTHER_WORDS
}

/// Reports why something is refused. A failure to report it changes nothing.
pub fn refuse<E: Sink>(errors: &mut E, fault: &ProgramFault) -> u8
    ensures status { result ≡ REFUSED }
    ensures reported { ReportsText E.Sink errors.old errors.new (fault_line fault.now) }
{
    let _ = report_fault(errors, fault);
    REFUSED
}

/// Sends the line of a fault.
fn report_fault<E: Sink>(errors: &mut E, fault: &ProgramFault) -> Sent
    ensures { Sends E.Sink errors.old errors.new (fault_line fault.now) (is_ok result) }
{
    match fault {
        ProgramFault::Table(fault) => report_details(errors, b"8", fault.line, fault.cause),
        ProgramFault::NoMemory => send(errors, b"braildesk: no 90\n"),
        ProgramFault::NotABook => send(errors, b"braildesk: no 92\n"),
        ProgramFault::Damaged { table, id } => report_details(errors, b"93", table.number(), *id),
        ProgramFault::NewerFormat => send(errors, b"braildesk: no 94\n"),
        ProgramFault::NotSixDots { paragraph, cell } => report_details(
            errors, b"95", *paragraph, *cell,
        ),
        ProgramFault::NoVolume => send(errors, b"braildesk: no 96\n"),
        ProgramFault::BadLayout => send(errors, b"braildesk: no 97\n"),
        ProgramFault::File => send(errors, b"braildesk: no 98\n"),
        ProgramFault::Taken { version } => report_detail(errors, b"99", *version),
    }
}

/// Sends the line of a fault with one detail.
fn report_detail<E: Sink, I: Integer>(errors: &mut E, code: &[u8], detail: I) -> Sent
    ensures { Sends E.Sink errors.old errors.new
        (codes "braildesk: no " ++ code.now ++ 32 ∷ I.text detail ++ 10 ∷ []) (is_ok result) }
{
    let mut number = Buffer::new();
    let detail = number.format(detail).as_bytes();
    send_parts(errors, &[b"braildesk: no ", code, b" ", detail, b"\n"])
}

/// Sends the line of a fault with two details.
fn report_details<E: Sink, I: Integer, J: Integer>(
    errors: &mut E,
    code: &[u8],
    first: I,
    second: J,
) -> Sent
    ensures { Sends E.Sink errors.old errors.new
        (codes "braildesk: no " ++ code.now ++ 32 ∷ I.text first ++ 32 ∷ J.text second ++ 10 ∷ [])
        (is_ok result) }
{
    let (mut one, mut two) = (Buffer::new(), Buffer::new());
    let first = one.format(first).as_bytes();
    let second = two.format(second).as_bytes();
    send_parts(
        errors,
        &[b"braildesk: no ", code, b" ", first, b" ", second, b"\n"],
    )
}
