//! A run on one thread that reads and writes a byte a call. The program itself calls `run`; what whole runs write is
//! compared by the cases.
ghost use Rattle.std.specs.Prelude.{None};

use crate::run_alone;
use crate::tests::pairs::SIMPLEX;
use io_edge::{Failed, MemorySink, MemorySource, Sink};
use std::alloc::{AllocError, Global};

/// What a run wrote, and how it ended.
#[derive(Drop)]
pub struct Outcome {
    pub code: u8,
    pub out: MemorySink,
    pub err: MemorySink,
}

/// The words as the program is given them.
pub fn owned(alloc: Global, words: &[&str]) -> Result<Vec<String>, AllocError> {
    let mut all = Vec::new(alloc);
    for word in words {
        all.push(String::from_str(alloc, word)?)?;
    }
    Ok(all)
}

/// A sink that takes a byte a call.
#[derive(Drop)]
struct ByteSink {
    bytes: Vec<u8>,
    faults: u64,
}

impl Sink for ByteSink {
    ghost taken = { λ _. None };

    ghost faults = { λ s. s.faults };

    fn write(&mut self, bytes: &[u8]) -> Result<usize, Failed> {
        if self.bytes.push(bytes[0]).is_err() {
            self.faults = self.faults.saturating_add(1);
            return Err(Failed);
        }
        Ok(1)
    }
}

/// Runs `classes` on the simplex, and gives the exit status.
fn list_bytewise(alloc: Global, out: &mut ByteSink) -> Result<u8, AllocError> {
    let words = owned(alloc, &["classes"])?;
    let bytes = Vec::from_slice(alloc, SIMPLEX.as_bytes())?;
    let mut source = MemorySource::new(bytes, 1, Vec::new(alloc));
    let mut err = MemorySink::new(alloc, 1000, Vec::new(alloc))?;
    Ok(run_alone(alloc, words.as_slice(), &mut source, out, &mut err).code())
}

/// What `classes` writes on the simplex.
fn text_of_simplex(alloc: Global) -> Result<String, AllocError> {
    let mut text = String::from_str(alloc, "ntfe 1\n")?;
    text.push_str(SIMPLEX)?;
    text.push_str("push up\nclass 0 0 0 0 0 0 0 0 0 0\nheights 0 0 0 0 0\nend 1\n")?;
    Ok(text)
}

#[test]
fn a_byte_a_call(rt: HostRuntime) -> Result<(), AllocError> {
    let mut out = ByteSink {
        bytes: Vec::new(rt.alloc()),
        faults: 0,
    };
    assert!(rt; list_bytewise(rt.alloc(), &mut out)? == 0);
    let whole = text_of_simplex(rt.alloc())?;
    assert!(rt; out.bytes.as_slice() == whole.as_bytes());
    Ok(())
}
