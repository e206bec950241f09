//! A source in memory.
ghost use Rattle.std.specs.Prelude.{◌≡◌, ◌<◌, ◌≤◌, ◌+◌, Some, length};
ghost use Rattle.std.specs.Io.{ReadsAtMost};
ghost use Rattle.std.specs.Io.KnownBytes.{ReadConsumes};
ghost use Rattle.io_edge.specs.Causes.{HasCause};
ghost use Rattle.io_edge.specs.Memory.{Gives};

use crate::sink::Failed;
use crate::source::Source;
use std::marker::Model;

/// A source in memory that gives at most so many bytes at once, and whose calls with certain numbers, counted from 0, fail.
#[derive(Drop)]
pub struct MemorySource {
    bytes: Vec<u8>,
    at: usize,
    step: usize,
    calls: u64,
    failing: Vec<u64>,
    faults: u64,
}

impl Model for MemorySource {
    ghost use Rattle.std.specs.Prelude.{◌≤◌, drop, length};
    ghost use Rattle.io_edge.specs.Memory.{SourceState};

    ghost Value = { SourceState };

    ghost view = { λ s. record { left = drop s.at s.bytes.items; step = s.step; calls = s.calls; failing = s.failing.items; faults = s.faults } };

    ghost invariant = { λ s. (s.at ≤ length s.bytes.items) × (1 ≤ s.step) };
}

impl MemorySource {
    /// A source of these bytes that gives at most `step` of them at once, and whose calls numbered in `failing` fail.
    pub fn new(bytes: Vec<u8>, step: usize, failing: Vec<u64>) -> MemorySource
        requires { 1 ≤ step }
        ensures { result ≡ record { left = bytes.items; step = step; calls = 0; failing = failing.items; faults = 0 } }
    {
        MemorySource {
            bytes,
            at: 0,
            step,
            calls: 0,
            failing,
            faults: 0,
        }
    }
}

impl Source for MemorySource {
    ghost left = { λ s. Some s.left };

    ghost faults = { λ s. s.faults };

    ghost turns = { λ s. s.calls };

    /// A call fails where it is numbered in `failing`, and then it is counted.
    fn read(&mut self, into: &mut [u8]) -> Result<usize, Failed>
        requires { 0 < length into.old }
        ensures count { ReadsAtMost result into.new }
        ensures bytes { ReadConsumes (Some self.old.left) (Some self.new.left) result into.new }
        ensures cause { HasCause self.old.faults self.new.faults result }
        ensures turns { self.new.calls ≤ self.old.calls + 1 }
        ensures exact { Gives self.old self.new result (length into.old) }
    {
        let call = self.calls;
        self.calls = self.calls.saturating_add(1);
        if self.failing.contains(&call) {
            self.faults = self.faults.saturating_add(1);
            return Err(Failed);
        }
        let left = self.bytes.len() - self.at;
        let count = left.min(self.step.min(into.len()));
        into[..count].copy_from_slice(&self.bytes[self.at..self.at + count]);
        self.at += count;
        Ok(count)
    }
}
