//! The program: makes the real source, sinks and gate, and calls the top call.
#![tactic(auto)]

ghost use Rattle.std.specs.Prelude.{◌≡◌};
ghost use Rattle.ntfe_run.specs.Codes.{code_of};

use io_edge::{OpenGate, ReadEdge, Sink, WriteEdge, write_text};
use ntfe_run::{Status, run};
use std::process::ExitCode;
use std::{env, io};

/// The words of the command line, without the program's name.
fn words(rt: &HostRuntime) -> io::Result<Vec<String>> {
    let mut words = Vec::new(rt.alloc());
    for word in env::args(rt)?.skip(1) {
        words.push(word)?;
    }
    Ok(words)
}

/// Tells that there was no memory for the words: the exit status.
fn tell_no_memory<E: Sink>(err: &mut E) -> u8
    ensures { result ≡ code_of Status.Memory }
{
    let _ = write_text("ntfe: out of memory\n", err);
    Status::Memory.code()
}

fn main(rt: HostRuntime) -> ExitCode {
    let mut err = WriteEdge::new(rt.stderr());
    let words = match words(&rt) {
        Ok(words) => words,
        Err(error) if error.kind() == io::ErrorKind::OutOfMemory => {
            return ExitCode::from(tell_no_memory(&mut err));
        }
        // Words that are not text have no meaning, as the empty list has none.
        Err(_) => Vec::new(rt.alloc()),
    };
    let mut source = ReadEdge::new(rt.stdin());
    let mut out = WriteEdge::new(rt.stdout());
    let status = run(
        &rt,
        rt.alloc(),
        words.as_slice(),
        &mut source,
        &mut out,
        &mut err,
        &OpenGate,
    );
    ExitCode::from(status.code())
}
