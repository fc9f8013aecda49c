//! Answers an input line by line, and allocates nothing.
ghost use Rattle.desk_translate.specs.NextLine.{TakesLine};
ghost use Rattle.desk_translate.specs.Run.{AnswersBeginning, Ran};

use super::answer::Workspace;
use desk_ends::{Input, Line, Sink, Source};
use louis_translate::RuleBook;

/// How a run over an input ended.
#[derive(Clone, Copy, Debug, PartialEq, Eq)]
pub enum Ended {
    /// All lines are answered.
    Done,
    /// A read failed, or 2^62 bytes had been read.
    Input,
    /// A write or a flush failed.
    Output,
}

/// Answers each line of the source by a line: its braille by a rule book, or why there is none.
///
/// A line feed ends a line, and one carriage return before it isn't part of the line. Bytes after
/// the last line feed are a line too. What is answered is flushed before each read and at the end.
/// A read, a write or a flush that fails, in any way, isn't tried again, and a write that takes no
/// byte has failed.
pub fn translate_lines<S: Source, K: Sink, B: RuleBook>(
    source: &mut S,
    sink: &mut K,
    book: &B,
) -> Ended
    // Some bytes were taken, what went out answers them, and it is flushed. A run that isn't done
    // met a failure of the source or the sink, or took as many bytes as a run may.
    ensures run { Ran S.Source source.old source.new
        K.Sink sink.old sink.new (B.meaning book.now) result }

    // However it ended, if the source reports its bytes, what went out is a beginning of the
    // answers to all of them.
    ensures beginning { AnswersBeginning (B.meaning book.now)
        (S.remaining source.old) (K.contents sink.old) (K.contents sink.new) }
{
    let mut input = Input::new();
    let mut line = Line::new();
    let mut space = Workspace::new();
    loop {
        let is_whole = match take_line(source, sink, &mut input, &mut line) {
            Ok(is_whole) => is_whole,
            Err(ended) => return ended,
        };
        if !is_whole {
            return match space.finish(sink, book, &line) {
                Ok(()) => Ended::Done,
                Err(_) => Ended::Output,
            };
        }
        if space.answer_line(sink, book, &line).is_err() {
            return Ended::Output;
        }
    }
}

/// Reads a line with its line feed, in place of the line that was there, and flushes what was
/// written before each read. Whether it has a line feed, or how the run ends.
fn take_line<S: Source, K: Sink>(
    source: &mut S,
    sink: &mut K,
    input: &mut Input,
    line: &mut Line,
) -> Result<bool, Ended>
    ensures { TakesLine S.can_fail K.can_fail (S.remaining source.old) (S.remaining source.new)
        (K.contents sink.old) (K.contents sink.new) (K.flushed sink.new)
        input.old input.new line.new result }
{
    line.clear();
    loop {
        if input.pass_line(line) {
            return Ok(true);
        }
        if sink.flush().is_err() {
            return Err(Ended::Output);
        }
        let Ok(is_more) = input.fill(source) else {
            return Err(Ended::Input);
        };
        if !is_more {
            return Ok(false);
        }
    }
}
