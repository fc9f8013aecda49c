//! The requests of an input.
ghost use Rattle.desk_ends.specs.Lines.{IsLine, kept_line};
ghost use Rattle.desk_session.specs.ReadingSteps.{AreFed, HoldsText, ReadsBlock, ReadsRequest};
ghost use Rattle.std.specs.Prelude.{Err, IfErr, List, None, OnOk, ◌++◌, ◌≡◌, ℕ};

use super::no_request::NoRequest;
use desk_ends::{Failure, Input, Line, Source, without_ending};
use desk_line::{Request, begin_request};
use std::alloc::Global;

/// The bytes of the request that was read last, from which it is lent.
#[derive(Drop)]
pub(crate) struct Buffers {
    /// The head line.
    head: Line,
    /// The last line of the block.
    line: Line,
    /// The block.
    text: Vec<u8>,
}

impl Buffers {
    /// No bytes.
    pub(crate) fn new(alloc: Global) -> Self {
        Buffers {
            head: Line::new(),
            line: Line::new(),
            text: Vec::new(alloc),
        }
    }
}

/// Bytes with a line after them. With a line that is too long they aren't of a request, and no more
/// of them is kept.
fn add_line(text: Result<Vec<u8>, NoRequest>, line: &Line) -> Result<Vec<u8>, NoRequest>
    ensures holds { (bytes more : List ℕ) → AreFed bytes → IsLine more
        → HoldsText text bytes → line.now ≡ kept_line more → HoldsText result (bytes ++ more) }
    // What is known of the block by then stays so, and a line that is too long is a fault of
    // syntax.
    ensures still { IfErr text (λ fault. result ≡ Err fault) }
    ensures too_long { line.now ≡ None → OnOk text (result ≡ Err NoRequest.Syntax) }
{
    match (text, line.bytes()) {
        (Ok(text), Some(bytes)) => append(text, bytes),
        (Ok(_), None) => Err(NoRequest::Syntax),
        (Err(fault), _) => Err(fault),
    }
}

/// Bytes with more bytes after them.
fn append(text: Vec<u8>, bytes: &[u8]) -> Result<Vec<u8>, NoRequest>
    ensures { HoldsText result (text.items ++ bytes.now) }
{
    let mut text = text;
    text.extend_from_slice(bytes)?;
    Ok(text)
}

/// Reads so many lines, or those that are left, into a line one after another, and gives their
/// bytes.
fn read_block<S: Source>(
    alloc: Global,
    source: &mut S,
    input: &mut Input,
    line: &mut Line,
    count: u64,
) -> Result<Result<Vec<u8>, NoRequest>, Failure>
    ensures { ReadsBlock S.can_fail (S.remaining source.old) (S.remaining source.new)
        input.old input.new count result }
{
    let mut text = Ok(Vec::new(alloc));
    let mut left = count;
    while left > 0 {
        let is_whole = input.read_line(source, line)?;
        text = add_line(text, line);
        if !is_whole {
            return Ok(text);
        }
        left -= 1;
    }
    Ok(text)
}

/// Reads the next request, if there is one, or says why the bytes that it read are none. A line
/// that is too long is read through, and so is a block for which an allocation fails.
pub(crate) fn next_request<'a, S: Source>(
    alloc: Global,
    source: &mut S,
    input: &mut Input,
    buffers: &'a mut Buffers,
) -> Result<Option<Result<Request<'a>, NoRequest>>, Failure>
    ensures { ReadsRequest S.can_fail (S.remaining source.old) (S.remaining source.new)
        input.old input.new result }
{
    let Buffers {
        head: head_line,
        line: block_line,
        text: block,
    } = buffers;
    // The block before isn't held while a line is waited for.
    *block = Vec::new(alloc);
    input.read_line(source, head_line)?;
    let Some(line) = head_line.bytes() else {
        return Ok(Some(Err(NoRequest::Syntax)));
    };
    if line.is_empty() {
        return Ok(None);
    }
    let Some(head) = begin_request(without_ending(line)) else {
        return Ok(Some(Err(NoRequest::Syntax)));
    };
    let count = head.lines_after();
    match read_block(alloc, source, input, block_line, count)? {
        Ok(text) => {
            *block = text;
            Ok(Some(head.finish(block.as_slice()).ok_or(NoRequest::Syntax)))
        }
        Err(fault) => Ok(Some(Err(fault))),
    }
}
