//! The trusted edge over the standard library's readers and writers.
ghost use Rattle.std.specs.Prelude.{◌≡◌, None};

use crate::sink::{Failed, Sink};
use crate::source::Source;
use std::io::{Read, Write};

/// A source over a reader of the standard library. It tells nothing of the bytes.
#[derive(Drop)]
pub struct ReadEdge<R: Read> {
    inner: R,
    faults: u64,
}

impl<R: Read> ReadEdge<R> {
    /// The source over a reader, without a fault so far.
    pub fn new(inner: R) -> ReadEdge<R>
        ensures reader { result.inner ≡ inner }
        ensures none { result.faults ≡ 0 }
    {
        ReadEdge { inner, faults: 0 }
    }
}

impl<R: Read> Source for ReadEdge<R> {
    ghost left = { λ _. None };

    ghost faults = { λ s. s.faults };

    ghost turns = { λ _. 0 };

    fn read(&mut self, into: &mut [u8]) -> Result<usize, Failed> {
        match self.inner.read(into) {
            Ok(count) => Ok(count),
            Err(_) => {
                self.faults = self.faults.saturating_add(1);
                Err(Failed)
            }
        }
    }
}

/// A sink over a writer of the standard library. It tells nothing of the bytes.
#[derive(Drop)]
pub struct WriteEdge<W: Write> {
    inner: W,
    faults: u64,
}

impl<W: Write> WriteEdge<W> {
    /// The sink over a writer, without a fault so far.
    pub fn new(inner: W) -> WriteEdge<W>
        ensures writer { result.inner ≡ inner }
        ensures none { result.faults ≡ 0 }
    {
        WriteEdge { inner, faults: 0 }
    }
}

impl<W: Write> Sink for WriteEdge<W> {
    ghost taken = { λ _. None };

    ghost faults = { λ s. s.faults };

    /// A piece of which the writer took nothing is a fault.
    fn write(&mut self, bytes: &[u8]) -> Result<usize, Failed> {
        match self.inner.write(bytes) {
            Ok(count) if count > 0 => Ok(count),
            _ => {
                self.faults = self.faults.saturating_add(1);
                Err(Failed)
            }
        }
    }
}
