//! The bytes that were read from a source and not used yet.
ghost use Rattle.desk_ends.specs.Input.{Passes};
ghost use Rattle.std.specs.Io.KnownBytes.{Consumes, IsAtEnd, Keeps};
ghost use Rattle.std.specs.Prelude.{MatchResult, [], length, ◌≡◌, ◌≤◌};

use super::ends::{Failure, Source};
use super::limits::CHUNK_BYTES;
use super::line::{Line, feed_in};
use std::marker::Model;

/// Bytes that were read and not used yet, at most `CHUNK_BYTES` of them. Contracts see their list.
#[derive(Drop)]
pub(crate) struct Chunk {
    bytes: [u8; CHUNK_BYTES],
    from: usize,
    to: usize,
}

impl Model for Chunk {
    ghost use Rattle.desk_ends.specs.declared.limits.TheConstants.{CHUNK_BYTES};
    ghost use Rattle.std.specs.Prelude.{List, drop, take, ℕ, ◌≤◌};

    ghost Value = { List ℕ };

    ghost view = { λ c. drop c.from (take c.to c.bytes) };

    ghost invariant = { λ c. (c.from ≤ c.to) × (c.to ≤ CHUNK_BYTES) };
}

impl Chunk {
    /// No byte.
    pub(crate) fn new() -> Self
        ensures { result ≡ [] }
    {
        Chunk {
            bytes: [0; CHUNK_BYTES],
            from: 0,
            to: 0,
        }
    }

    /// Reads bytes in place of those that were there, and says how many: none only at the end of
    /// the input.
    pub(crate) fn fill<S: Source>(&mut self, source: &mut S) -> Result<usize, Failure>
        ensures { MatchResult result
            (λ count. (count ≡ length self.new) × (count ≤ CHUNK_BYTES)
            × Consumes (S.remaining source.old) (S.remaining source.new) self.new
            × (count ≡ 0 → IsAtEnd (S.remaining source.new)))
            (λ _. (self.new ≡ []) × Keeps (S.remaining source.old) (S.remaining source.new) × S.can_fail) }
    {
        self.from = 0;
        self.to = 0;
        let count = source.pull(&mut self.bytes)?;
        self.to = count;
        Ok(count)
    }

    /// Passes the bytes up to the first line feed, with it, on to a line, or all if there is none.
    /// Gives whether there was one.
    pub(crate) fn pass_line(&mut self, line: &mut Line) -> bool
        ensures { Passes result self.old self.new line.old line.new }
    {
        let waiting = &self.bytes[self.from..self.to];
        match feed_in(waiting) {
            Some(end) => {
                line.extend(&waiting[..end + 1]);
                self.from += end + 1;
                true
            }
            None => {
                line.extend(waiting);
                self.from = self.to;
                false
            }
        }
    }
}
