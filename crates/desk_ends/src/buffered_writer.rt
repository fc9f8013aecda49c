//! A buffer in front of a writer.
//!
//! std's buffer writes again if a write was interrupted, and once more when it is dropped. This one
//! writes once.
ghost use Rattle.std.specs.Io.KnownBytes.{Appends, Keeps, append_known};
ghost use Rattle.std.specs.Prelude.{IfOk, OnOk, [], drop, length, take, vec_capacity, vec_len, ◌+◌, ◌++◌, ◌≡◌, ◌≤◌};

use super::ends::{Failure, Sink};
use std::alloc::{AllocError, Global};
use std::io::Write;

/// A writer with a buffer in front of it: what stands in the buffer was written, and what the
/// writer has is flushed. A failed write, also one that was interrupted, isn't tried again.
/// Dropped, it lets go what was not flushed.
#[derive(Drop)]
pub struct BufferedWriter<W: Write + Drop> {
    writer: W,
    buffer: Vec<u8>,
}

impl<W: Write + Drop> BufferedWriter<W> {
    /// An empty buffer of this many bytes in front of the writer.
    pub fn new(alloc: Global, bytes: usize, writer: W) -> Result<Self, AllocError>
        ensures contents { IfOk result
            (λ b. Keeps (W.contents writer) (⟦<BufferedWriter<W> as Sink>⟧.contents b)) }
        ensures flushed { IfOk result (λ b. ⟦<BufferedWriter<W> as Sink>⟧.flushed b ≡ W.contents writer) }
    {
        let buffer = Vec::with_capacity(alloc, bytes)?;
        Ok(BufferedWriter { writer, buffer })
    }

    /// Writes what is held to the writer, until a write fails.
    fn pass_on(&mut self) -> Result<(), Failure>
        ensures empty { OnOk result (self.new.buffer.items ≡ []) }
        ensures bytes { Keeps
            (append_known (W.contents self.old.writer) self.old.buffer.items)
            (append_known (W.contents self.new.writer) self.new.buffer.items) }
    {
        let (count, written) = write_front(&mut self.writer, self.buffer.as_slice());
        remove_front(&mut self.buffer, count);
        written
    }
}

impl<W: Write + Drop> Sink for BufferedWriter<W> {
    ghost use Rattle.std.specs.Prelude.{⊤};

    ghost contents = { λ b. append_known (W.contents b.writer) b.buffer.items };

    ghost flushed = { λ b. W.contents b.writer };

    ghost can_fail = { ⊤ };

    fn put(&mut self, bytes: &[u8]) -> Result<usize, Failure> {
        if bytes.len() <= self.buffer.capacity() - self.buffer.len() {
            append(&mut self.buffer, bytes);
            return Ok(bytes.len());
        }
        self.pass_on()?;
        Sink::put(&mut self.writer, bytes)
    }

    fn flush(&mut self) -> Result<(), Failure> {
        self.pass_on()?;
        Sink::flush(&mut self.writer)
    }
}

/// Writes the bytes until a write fails or takes none. Says how many were written, and fails unless
/// all were.
fn write_front<W: Write>(writer: &mut W, bytes: &[u8]) -> (usize, Result<(), Failure>)
    ensures bound { result.0 ≤ length bytes.now }
    ensures bytes { Appends (W.contents writer.old) (W.contents writer.new) (take result.0 bytes.now) }
    ensures all { OnOk result.1 (result.0 ≡ length bytes.now) }
{
    let mut written = 0;
    while written < bytes.len() {
        match writer.write(&bytes[written..]) {
            Ok(0) | Err(_) => return (written, Err(Failure)),
            Ok(count) => written += count,
        }
    }
    (written, Ok(()))
}

/// Removes this many bytes from the front.
fn remove_front(buffer: &mut Vec<u8>, count: usize)
    requires { count ≤ vec_len buffer.old }
    ensures { buffer.new.items ≡ drop count buffer.old.items }
{
    let len = buffer.len();
    buffer.as_mut_slice().copy_within(count..len, 0);
    buffer.truncate(len - count);
}

/// Adds bytes for which there is room.
#[inline(always)]
fn append(buffer: &mut Vec<u8>, bytes: &[u8])
    requires { vec_len buffer.old + length bytes.now ≤ vec_capacity buffer.old }
    ensures { buffer.new.items ≡ buffer.old.items ++ bytes.now }
{
    let Ok(()) = buffer.extend_from_slice(bytes) else {
        unreachable!()
    };
}
