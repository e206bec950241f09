//! Runs on a bad day: reads and writes that fail or come short, and earlier outputs that were cut or altered.
ghost use Rattle.std.specs.Prelude.{None};

use crate::run;
use crate::tests::pairs::{SIMPLEX, SQUARES, TT};
use crate::tests::runs::{Outcome, owned};
use io_edge::{Failed, Gate, MemorySink, MemorySource, OpenGate, Sink, SliceSource};
use std::alloc::{AllocError, Global};
use std::sync::Wait;
use std::thread::Threads;

/// The number of a call that no run makes.
const NO_CALL: u64 = 1 << 40;

/// What a run is given beside its words and its text.
#[derive(Clone, Copy, Drop)]
pub struct Given {
    /// How many bytes a read gives at most.
    step: usize,
    /// The calls of the source and of `out` that fail, counted from 0.
    failing_read: u64,
    failing_write: u64,
}

/// No call fails, and each read gives what is asked for.
pub const GOOD_DAY: Given = Given {
    step: 1 << 20,
    failing_read: NO_CALL,
    failing_write: NO_CALL,
};

/// How a run behind a gate ends, and what it wrote.
pub fn ended_behind<R: Threads + Wait + Sync, G: Gate + Sync>(
    rt: &R,
    alloc: Global,
    words: &[&str],
    text: &[u8],
    given: &Given,
    gate: &G,
) -> Result<Outcome, AllocError> {
    let words = owned(alloc, words)?;
    let bytes = Vec::from_slice(alloc, text)?;
    let failing = vec![in alloc; given.failing_read]?;
    let mut source = MemorySource::new(bytes, given.step.max(1), failing);
    let mut out = MemorySink::new(alloc, 100000, vec![in alloc; given.failing_write]?)?;
    let mut err = MemorySink::new(alloc, 1000, Vec::new(alloc))?;
    let words = words.as_slice();
    let status = run(rt, alloc, words, &mut source, &mut out, &mut err, gate);
    Ok(Outcome {
        code: status.code(),
        out,
        err,
    })
}

/// How a run ends that no gate holds, and what it wrote.
pub fn ended<R: Threads + Wait + Sync>(
    rt: &R,
    alloc: Global,
    words: &[&str],
    text: &[u8],
    given: &Given,
) -> Result<Outcome, AllocError> {
    ended_behind(rt, alloc, words, text, given, &OpenGate)
}

/// The first lines of a text, so many of them.
fn first_lines(text: &[u8], count: u64) -> &[u8] {
    let mut seen = 0;
    for (place, byte) in text.iter().enumerate() {
        if seen == count {
            return &text[..place];
        }
        if *byte == b'\n' {
            seen = seen.saturating_add(1);
        }
    }
    text
}

/// Whether the list of the product of two triangles, written to a sink whose call fails, is its first lines.
fn stops_at_write<R: Threads + Wait + Sync>(
    rt: &R,
    alloc: Global,
    words: &[&str],
    whole: &[u8],
    call: u64,
) -> Result<bool, AllocError> {
    let given = Given {
        failing_write: call,
        ..GOOD_DAY
    };
    let all = ended(rt, alloc, words, TT.as_bytes(), &given)?;
    Ok(all.code == 8 && all.out.bytes() == first_lines(whole, call))
}

/// Whether each of the 224 writes of the list of the product of two triangles may fail.
fn stops_at_each_write<R: Threads + Wait + Sync>(
    rt: &R,
    alloc: Global,
    words: &[&str],
) -> Result<bool, AllocError> {
    let whole = ended(rt, alloc, words, TT.as_bytes(), &GOOD_DAY)?;
    let whole = whole.out.bytes();
    for call in 0..224 {
        if !stops_at_write(rt, alloc, words, whole, call)? {
            return Ok(false);
        }
    }
    Ok(first_lines(whole, 223).len() < whole.len() && first_lines(whole, 224) == whole)
}

#[test]
fn a_sink_that_fails_at_each_call_in_turn(rt: HostRuntime) -> Result<(), AllocError> {
    let alloc = rt.alloc();
    assert!(rt; stops_at_each_write(&rt, alloc, &["classes"])?);
    assert!(rt; stops_at_each_write(&rt, alloc, &["classes", "--workers", "2"])?);
    Ok(())
}

/// The exit status and the number of bytes taken where a read of at most seven bytes fails.
fn read_code<R: Threads + Wait + Sync>(
    rt: &R,
    alloc: Global,
    call: u64,
) -> Result<(u8, usize), AllocError> {
    let given = Given {
        step: 7,
        failing_read: call,
        ..GOOD_DAY
    };
    let all = ended(
        rt,
        alloc,
        &["classes", "--limit", "0"],
        TT.as_bytes(),
        &given,
    )?;
    Ok((all.code, all.out.bytes().len()))
}

#[test]
fn a_source_that_fails_at_each_call_in_turn(rt: HostRuntime) -> Result<(), AllocError> {
    // One call for each seven bytes, and one that finds the end.
    let calls = TT.len().div_ceil(7) as u64;
    for call in 0..calls.saturating_add(1) {
        assert!(rt; read_code(&rt, rt.alloc(), call)? == (7, 0));
    }
    assert!(rt; read_code(&rt, rt.alloc(), calls.saturating_add(1))?.0 == 0);
    Ok(())
}

/// Whether an earlier list of the product of two triangles, of which so many bytes are left, is made whole.
fn is_made_whole<R: Threads + Wait + Sync>(
    rt: &R,
    alloc: Global,
    whole: &[u8],
    left: usize,
) -> Result<bool, AllocError> {
    let mut text = Vec::from_slice(alloc, TT.as_bytes())?;
    text.extend_from_slice(b"output\n")?;
    text.extend_from_slice(&whole[..left.min(whole.len())])?;
    let rest = ended(rt, alloc, &["resume"], &text, &GOOD_DAY)?;
    let rest = rest.out.bytes();
    Ok(whole.ends_with(rest) && whole.len().saturating_sub(rest.len()) <= left)
}

#[test]
fn a_list_that_was_cut_anywhere(rt: HostRuntime) -> Result<(), AllocError> {
    let alloc = rt.alloc();
    let whole = ended(&rt, alloc, &["classes"], TT.as_bytes(), &GOOD_DAY)?;
    let whole = whole.out.bytes();
    for left in 0..first_lines(whole, 23).len() {
        assert!(rt; is_made_whole(&rt, alloc, whole, left)?);
    }
    for left in first_lines(whole, 221).len()..whole.len() {
        assert!(rt; is_made_whole(&rt, alloc, whole, left)?);
    }
    Ok(())
}

/// The exit status and the message where the simplex is resumed behind a head and these lines.
fn refusal_of<R: Threads + Wait + Sync>(
    rt: &R,
    alloc: Global,
    behind: &str,
) -> Result<Outcome, AllocError> {
    let mut text = String::from_str(alloc, SIMPLEX)?;
    text.push_str("output\nntfe 1\n")?;
    text.push_str(SIMPLEX)?;
    text.push_str("push up\n")?;
    text.push_str(behind)?;
    ended(rt, alloc, &["resume"], text.as_bytes(), &GOOD_DAY)
}

/// Blocks that are not in place, with the line that is told.
const ALTERED: [(&str, &[u8]); 4] = [
    (
        "class 00 0 0 0 0 0 0 0 0 0\nheights 0 0 0 0 0\nend 1\n",
        b"ntfe: earlier output line 15: not in place\n",
    ),
    (
        "class 1048576 0 0 0 0 0 0 0 0 0\nheights 0 0 0 0 0\nend 1\n",
        b"ntfe: earlier output line 15: not in place\n",
    ),
    (
        "class 0 0 0 0 0 0 0 0 0 0\nheights 0 0 0 0 4611686018427387904\nend 1\n",
        b"ntfe: earlier output line 16: not in place\n",
    ),
    (
        "class 0 0 0 0 0 0 0 0 0 0\nheights 0 0 0 0 -0\nend 1\n",
        b"ntfe: earlier output line 16: not in place\n",
    ),
];

#[test]
fn an_earlier_output_that_was_altered(rt: HostRuntime) -> Result<(), AllocError> {
    for (behind, message) in ALTERED.iter() {
        let refused = refusal_of(&rt, rt.alloc(), behind)?;
        assert!(rt; refused.code == 3);
        assert!(rt; refused.out.bytes().is_empty());
        assert!(rt; refused.err.bytes() == *message);
    }
    Ok(())
}

#[test]
fn a_number_that_is_too_wide_at_once(rt: HostRuntime) -> Result<(), AllocError> {
    let words = ["classes", "--width", "1"];
    let stopped = ended(&rt, rt.alloc(), &words, TT.as_bytes(), &GOOD_DAY)?;
    assert!(rt; stopped.code == 4);
    assert!(rt; stopped.out.bytes().ends_with(b"0 0 -1 2\npush up\n"));
    assert!(rt;
        stopped
            .err
            .bytes()
            .starts_with(b"ntfe: overflow at step 0 with -3 in choice 0 0 ")
    );
    Ok(())
}

/// A sink whose every call fails.
#[derive(Drop)]
struct MuteSink {
    faults: u64,
}

impl Sink for MuteSink {
    ghost taken = { λ _. None };

    ghost faults = { λ s. s.faults };

    fn write(&mut self, _bytes: &[u8]) -> Result<usize, Failed> {
        self.faults = self.faults.saturating_add(1);
        Err(Failed)
    }
}

/// The exit status of a run whose messages cannot be written.
fn mute_code<R: Threads + Wait + Sync>(
    rt: &R,
    alloc: Global,
    words: &[&str],
    text: &str,
) -> Result<u8, AllocError> {
    let words = owned(alloc, words)?;
    let words = words.as_slice();
    let mut source = SliceSource {
        bytes: text.as_bytes(),
    };
    let mut out = MemorySink::new(alloc, 1000, Vec::new(alloc))?;
    let mut err = MuteSink { faults: 0 };
    Ok(run(rt, alloc, words, &mut source, &mut out, &mut err, &OpenGate).code())
}

#[test]
fn messages_that_cannot_be_written(rt: HostRuntime) -> Result<(), AllocError> {
    let alloc = rt.alloc();
    assert!(rt; mute_code(&rt, alloc, &["classes", "--width", "1"], SQUARES)? == 4);
    assert!(rt; mute_code(&rt, alloc, &["classes"], "vertices 5\n")? == 3);
    assert!(rt; mute_code(&rt, alloc, &["clases"], SIMPLEX)? == 2);
    Ok(())
}
