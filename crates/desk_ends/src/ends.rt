//! The ends of a run: where its bytes come from, and where they go.
//!
//! std's `Read` and `Write` don't say when they fail, nor what a flush passes on. The traits here
//! do, so that a contract can say that a run ended early only because an end could fail, and with
//! all it wrote flushed.
ghost use Rattle.desk_ends.specs.Ends.{IsFlushed};
ghost use Rattle.std.specs.Io.{ReadsAtMost, WritesAtMost};
ghost use Rattle.std.specs.Io.KnownBytes.{Keeps, ReadConsumes, WriteAppends};
ghost use Rattle.std.specs.Prelude.{IfOk, List, OnErr, OnOk, Option, length, ℕ, ◌<◌};

use std::io::{Read, Write};
use thiserror::Error;

/// A read, a write or a flush failed.
#[derive(Debug, Drop, Error)]
#[error("a read or a write failed")]
pub struct Failure;

/// What comes of sending: nothing more, or that a write or a flush failed.
pub type Sent = Result<(), Failure>;

/// Where bytes come from.
pub trait Source {
    // The bytes that are left, if they are known.
    ghost remaining: { Self → Option (List ℕ) };

    // Whether a read can fail.
    ghost can_fail: { Type 0 };

    /// Reads some bytes into `buf` and says how many: none only at the end.
    fn pull(&mut self, buf: &mut [u8]) -> Result<usize, Failure>
        ensures bound { ReadsAtMost result buf.new }
        ensures bytes { ReadConsumes (remaining self.old) (remaining self.new) result buf.new }
        ensures fails { OnErr result can_fail };
}

/// Where bytes go.
pub trait Sink {
    // The bytes that went in, if they are known.
    ghost contents: { Self → Option (List ℕ) };

    // What of it was passed on by flushes, if that is known.
    ghost flushed: { Self → Option (List ℕ) };

    // Whether a write or a flush can fail.
    ghost can_fail: { Type 0 };

    /// Writes one byte or more from the front of `bytes`, and says how many.
    fn put(&mut self, bytes: &[u8]) -> Result<usize, Failure>
        requires { 0 < length bytes.now }
        ensures progress { IfOk result (λ n. 0 < n) }
        ensures bound { WritesAtMost result bytes.now }
        ensures bytes { WriteAppends (contents self.old) (contents self.new) result bytes.now }
        ensures fails { OnErr result can_fail };

    /// Passes on what is held back.
    fn flush(&mut self) -> Result<(), Failure>
        ensures bytes { Keeps (contents self.old) (contents self.new) }
        ensures all { OnOk result (IsFlushed (contents self.new) (flushed self.new)) }
        ensures fails { OnErr result can_fail };
}

// Any reader is a source, and its reads can fail.
impl<R: Read> Source for R {
    ghost use Rattle.std.specs.Prelude.{⊤};

    ghost remaining = { λ s. R.remaining s };

    ghost can_fail = { ⊤ };

    fn pull(&mut self, buf: &mut [u8]) -> Result<usize, Failure> {
        self.read(buf).map_err(|_| Failure)
    }
}

// Any writer is a sink. Its writes can fail, and one that takes no byte has failed. It doesn't
// report what its flushes pass on.
impl<W: Write> Sink for W {
    ghost use Rattle.std.specs.Prelude.{None, ⊤};

    ghost contents = { λ s. W.contents s };

    ghost flushed = { λ _. None };

    ghost can_fail = { ⊤ };

    fn put(&mut self, bytes: &[u8]) -> Result<usize, Failure> {
        match self.write(bytes) {
            Ok(0) | Err(_) => Err(Failure),
            Ok(count) => Ok(count),
        }
    }

    fn flush(&mut self) -> Result<(), Failure> {
        Write::flush(self).map_err(|_| Failure)
    }
}

/// Bytes in memory. No read of them fails.
#[derive(Drop)]
pub struct Memory<'a>(pub &'a [u8]);

impl<'a> Source for Memory<'a> {
    ghost use Rattle.std.specs.Prelude.{Some};

    ghost remaining = { λ s. Some s.0.now };

    ghost can_fail = { ⊥ };

    fn pull(&mut self, buf: &mut [u8]) -> Result<usize, Failure> {
        self.0.read(buf).map_err(|_| Failure)
    }
}
