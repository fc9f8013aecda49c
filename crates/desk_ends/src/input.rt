//! An input, read line by line.
ghost use Rattle.desk_ends.specs.Input.{FillsInput, PassesLine, ReadsLine, unread};
ghost use Rattle.std.specs.Prelude.{[], ◌≡◌};

use super::chunk::Chunk;
use super::ends::{Failure, Source};
use super::limits::MOST_INPUT;
use super::line::Line;
use std::marker::Model;

/// What was read of an input. Contracts see the bytes that aren't used yet, how many were read in
/// all, and whether the end of the input was reached. Nothing is read any more then.
#[derive(Drop)]
pub struct Input {
    chunk: Chunk,
    total: u64,
    is_over: bool,
}

impl Model for Input {
    ghost use Rattle.desk_ends.specs.Input.{Input};

    ghost Value = { Input };

    ghost view = { λ i. record { waiting = i.chunk; total = i.total; is_over = i.is_over } };
}

impl Input {
    /// Nothing yet.
    pub fn new() -> Self
        ensures { result ≡ unread }
    {
        Input {
            chunk: Chunk::new(),
            total: 0,
            is_over: false,
        }
    }

    /// Reads more bytes, once all were used. Whether there are any: none are there only at the end
    /// of the input. After `MOST_INPUT` bytes the next read counts as failed.
    pub fn fill<S: Source>(&mut self, source: &mut S) -> Result<bool, Failure>
        requires { self.old.waiting ≡ [] }
        ensures { FillsInput S.can_fail (S.remaining source.old) (S.remaining source.new) self.old self.new result }
    {
        if self.is_over {
            return Ok(false);
        }
        if self.total >= MOST_INPUT {
            return Err(Failure);
        }
        let count = self.chunk.fill(source)?;
        self.total += count as u64;
        self.is_over = count == 0;
        Ok(count > 0)
    }

    /// Passes unused bytes on to a line, up to the first line feed and with it, or all if there is
    /// none. Whether there was one.
    pub fn pass_line(&mut self, line: &mut Line) -> bool
        ensures { PassesLine result self.old self.new line.old line.new }
    {
        self.chunk.pass_line(line)
    }

    /// Reads a line with its line feed, in place of the line that was there. Whether it has a line
    /// feed: it lacks one only at the end of the input, where it may be empty.
    pub fn read_line<S: Source>(&mut self, source: &mut S, line: &mut Line) -> Result<bool, Failure>
        ensures { ReadsLine S.can_fail (S.remaining source.old) (S.remaining source.new)
            self.old self.new line.new result }
    {
        line.clear();
        loop {
            if self.pass_line(line) {
                return Ok(true);
            }
            if !self.fill(source)? {
                return Ok(false);
            }
        }
    }
}
