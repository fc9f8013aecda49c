//! The line that is being read.
ghost use Rattle.desk_ends.specs.Lines.{with_bytes, without_ending};
ghost use Rattle.std.specs.Io.BufRead.{strip_last};
ghost use Rattle.std.specs.List.{after_first, before_first};
ghost use Rattle.std.specs.Prelude.{EachIndex, IsTrue, MatchOption, Some, [], drop, length, slice_index, take, ◌++◌};
ghost use Rattle.std.specs.Prelude.{◌+◌, ◌<◌, ◌==◌, ◌≡◌, ◌≢◌, ◌↔◌, ◌∷◌, option_copied};

use super::limits::MOST_LINE_BYTES;
use memchr::memchr;
use std::marker::Model;

/// Two bytes more than a line may have, for a carriage return and a line feed at its end.
const ROOM: usize = MOST_LINE_BYTES + 2;

/// The bytes of a line so far with its ending, or the fact that there are more of them than a line
/// may have. Contracts see them as `Some` of their list, or `None`.
#[derive(Drop)]
pub struct Line {
    bytes: [u8; ROOM],
    len: usize,
    is_over: bool,
}

impl Model for Line {
    ghost use Rattle.desk_ends.specs.declared.line.TheConstants.{ROOM};
    ghost use Rattle.std.specs.Prelude.{List, None, Option, Some, if◌then◌else◌, take, ℕ, ◌≤◌};

    ghost Value = { Option (List ℕ) };

    ghost view = { λ l. if l.is_over then None else Some (take l.len l.bytes) };

    ghost invariant = { λ l. l.len ≤ ROOM };
}

impl Line {
    /// No byte.
    pub fn new() -> Self
        ensures { result ≡ Some [] }
    {
        Line {
            bytes: [0; ROOM],
            len: 0,
            is_over: false,
        }
    }

    /// Adds bytes.
    pub(crate) fn extend(&mut self, bytes: &[u8])
        ensures { self.new ≡ with_bytes self.old bytes.now }
    {
        if bytes.len() <= ROOM - self.len {
            let end = self.len + bytes.len();
            self.bytes[self.len..end].copy_from_slice(bytes);
            self.len = end;
        } else {
            self.is_over = true;
        }
    }

    /// Takes all bytes out.
    pub fn clear(&mut self)
        ensures { self.new ≡ Some [] }
    {
        self.len = 0;
        self.is_over = false;
    }

    /// Whether there is no byte.
    pub fn is_empty(&self) -> bool
        ensures { IsTrue result ↔ (self.now ≡ Some []) }
    {
        self.len == 0 && !self.is_over
    }

    /// The line with its ending, or `None` if it has more bytes than a line may have.
    pub fn bytes(&self) -> Option<&[u8]>
        ensures { option_copied result ≡ self.now }
    {
        if self.is_over {
            return None;
        }
        Some(&self.bytes[..self.len])
    }
}

/// The place of the first line feed, if there is one.
pub(crate) fn feed_in(bytes: &[u8]) -> Option<usize>
    ensures { MatchOption result (EachIndex bytes.now (λ k. slice_index bytes.now k ≢ 10))
        (λ end. (end < length bytes.now)
        × EachIndex (take end bytes.now) (λ k. slice_index (take end bytes.now) k ≢ 10)
        × (bytes.now ≡ take end bytes.now ++ 10 ∷ drop (end + 1) bytes.now)) }
{
    memchr(b'\n', bytes)
}

/// The first line of bytes without its ending, and the bytes after it. Without a line feed they are
/// all of that line.
pub fn split_line(bytes: &[u8]) -> (&[u8], &[u8])
    ensures line { result.0.now ≡ strip_last 13 (before_first (λ b. b == 10) bytes.now) }
    ensures rest { result.1.now ≡ after_first (λ b. b == 10) bytes.now }
{
    match feed_in(bytes) {
        Some(end) => (without_return(&bytes[..end]), &bytes[end + 1..]),
        None => (without_return(bytes), &[]),
    }
}

/// A line without its ending: one line feed, and one carriage return before it.
pub fn without_ending(line: &[u8]) -> &[u8]
    ensures { result.now ≡ without_ending line.now }
{
    match line {
        [front @ .., b'\n'] => without_return(front),
        _ => without_return(line),
    }
}

/// Bytes without one carriage return at their end.
fn without_return(bytes: &[u8]) -> &[u8]
    ensures { result.now ≡ strip_last 13 bytes.now }
{
    match bytes {
        [front @ .., b'\r'] => front,
        _ => bytes,
    }
}
