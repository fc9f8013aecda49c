//! What is answered to one line.
ghost use Rattle.desk_translate.specs.NoBraille.{IsPrint, IsRefused, refusal_text};
ghost use Rattle.desk_translate.specs.Sends.{SendsLast, SendsLine};
ghost use Rattle.desk_ends.specs.Lines.{kept_line, without_ending};
ghost use Rattle.desk_ends.specs.Sending.{HasFlushed, Sends};
ghost use Rattle.std.specs.Prelude.{List, MatchResult, OnOk, [], is_ok, ◌++◌, ◌≡◌, ◌∷◌, ℕ, chars};

use super::braille::send_braille;
use super::print::{Print, TooManyCharacters};
use desk_ends::{Block, Line, MOST_LINE_BYTES, Sent, Sink, send, send_parts, without_ending};
use itoa::Buffer;
use louis_translate::RuleBook;

/// Why a line has no braille.
#[derive(Clone, Copy, Debug, PartialEq, Eq)]
pub enum NoBraille {
    /// The line is longer than `MOST_LINE_BYTES`, or isn't UTF-8: `no 1`.
    NoText,
    /// The line has more than `MOST_CHARACTERS` characters: `no 14`.
    TooLong,
    /// The table doesn't define the character at this place, from 0: `no 7 PLACE`.
    Undefined(usize),
}

/// Room to answer lines in, one after another.
#[derive(Drop)]
pub struct Workspace {
    /// The print of the line.
    print: Print,
    /// The output buffer of the braille.
    block: Block,
}

impl Workspace {
    /// Room for a line of any length that is answered by braille.
    pub fn new() -> Self {
        Workspace {
            print: Print::new(),
            block: Block::new(),
        }
    }

    /// Answers a line that is held, with its ending or without.
    pub fn answer_line<K: Sink, B: RuleBook>(&mut self, sink: &mut K, book: &B, line: &Line) -> Sent
        ensures { (bytes : List ℕ) → line.now ≡ kept_line bytes
            → SendsLine K.Sink sink.old sink.new (B.meaning book.now) (without_ending bytes) (is_ok result) }
    {
        match line.bytes() {
            Some(bytes) => self.answer(sink, book, without_ending(bytes)),
            None => refuse(sink, NoBraille::NoText),
        }
    }

    /// Answers what is left at the end of the input, and flushes all answers.
    pub fn finish<K: Sink, B: RuleBook>(&mut self, sink: &mut K, book: &B, line: &Line) -> Sent
        ensures flushed { OnOk result (HasFlushed K.Sink sink.new) }
        ensures sent { (bytes : List ℕ) → line.now ≡ kept_line bytes
            → SendsLast K.Sink sink.old sink.new (B.meaning book.now) bytes (is_ok result) }
    {
        self.answer_last(sink, book, line)?;
        sink.flush()
    }

    /// Answers the last line, if it has a byte.
    fn answer_last<K: Sink, B: RuleBook>(&mut self, sink: &mut K, book: &B, line: &Line) -> Sent
        ensures { (bytes : List ℕ) → line.now ≡ kept_line bytes
            → SendsLast K.Sink sink.old sink.new (B.meaning book.now) bytes (is_ok result) }
    {
        if line.is_empty() {
            return Ok(());
        }
        self.answer_line(sink, book, line)
    }

    /// Answers the bytes of a line, without its ending.
    fn answer<K: Sink, B: RuleBook>(&mut self, sink: &mut K, book: &B, line: &[u8]) -> Sent
        ensures { SendsLine K.Sink sink.old sink.new (B.meaning book.now) line.now (is_ok result) }
    {
        match read_print(&mut self.print, book, line) {
            Ok(()) => send_braille(sink, &mut self.block, book, self.print.as_slice()),
            Err(refusal) => refuse(sink, refusal),
        }
    }
}

/// Reads a line as print whose characters are all defined, or says why it is refused. Nothing goes
/// out before.
fn read_print<B: RuleBook>(print: &mut Print, book: &B, line: &[u8]) -> Result<(), NoBraille>
    ensures { MatchResult result
        (λ _. IsPrint (B.meaning book.now) line.now × (print.new ≡ chars line.now))
        (IsRefused (B.meaning book.now) line.now) }
{
    if line.len() > MOST_LINE_BYTES {
        return Err(NoBraille::NoText);
    }
    let Ok(text) = str::from_utf8(line) else {
        return Err(NoBraille::NoText);
    };
    match print.read(book, text) {
        Ok(None) => Ok(()),
        Ok(Some(place)) => Err(NoBraille::Undefined(place)),
        Err(TooManyCharacters) => Err(NoBraille::TooLong),
    }
}

/// Sends a refusal and a line feed.
pub fn refuse<K: Sink>(sink: &mut K, refusal: NoBraille) -> Sent
    ensures { Sends K.Sink sink.old sink.new (refusal_text refusal ++ 10 ∷ []) (is_ok result) }
{
    match refusal {
        NoBraille::NoText => send(sink, b"no 1\n"),
        NoBraille::TooLong => send(sink, b"no 14\n"),
        NoBraille::Undefined(place) => {
            let mut digits = Buffer::new();
            send_parts(sink, &[b"no 7 ", digits.format(place).as_bytes(), b"\n"])
        }
    }
}
