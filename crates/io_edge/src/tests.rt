//! What no clause says: that the calls succeed, and how the edges meet real readers and writers.

use crate::{
    Failed, Gate, LineFault, MemorySink, MemorySource, NullSink, OpenGate, ReadEdge, ReadStop,
    Sink, SliceSource, Source, WriteEdge, read_all, write_piece,
};
use std::alloc::AllocError;

/// Reads all through the bound.
fn collected<S: Source>(rt: &HostRuntime, source: &mut S, limit: u8) -> Result<Vec<u8>, ReadStop> {
    read_all(rt.alloc(), source, usize::from(limit))
}

/// Writes two pieces through the bound, and says how many were taken whole.
fn pieces_taken<K: Sink>(sink: &mut K) -> usize {
    let first = write_piece(sink, b"one\n").is_ok();
    let second = write_piece(sink, b"two\n").is_ok();
    usize::from(first) + usize::from(second)
}

/// Holds at a gate through the bound.
fn pass<G: Gate>(gate: &G) {
    gate.at(1, 0);
}

#[test]
fn sources_give_their_bytes(rt: HostRuntime) -> Result<(), AllocError> {
    for (step, failing, limit, want) in [
        (3usize, 9u64, 5u8, Ok(5usize)),
        (1, 9, 4, Err(ReadStop::Size)),
        (2, 2, 5, Err(ReadStop::Read)),
    ] {
        let bytes = Vec::from_slice(rt.alloc(), b"bytes")?;
        let mut source = MemorySource::new(bytes, step.max(1), vec![in rt.alloc(); failing]?);
        let got = collected(&rt, &mut source, limit).map(|v| v.len());
        assert_eq!(rt;
            got,
            want,
            "step {step}, call {failing} fails, limit {limit}"
        );
    }
    let mut slice = SliceSource { bytes: b"slice" };
    let got = collected(&rt, &mut slice, 9).map(|v| v.as_slice() == b"slice".as_slice());
    assert_eq!(rt; got, Ok(true));
    Ok(())
}

#[test]
fn sinks_take_pieces(rt: HostRuntime) -> Result<(), AllocError> {
    for (room, failing, pieces, taken) in [
        (100usize, 9u64, 2usize, 8usize),
        (100, 1, 1, 4),
        (6, 9, 1, 6),
        (100, 0, 1, 4),
    ] {
        let mut sink = MemorySink::new(rt.alloc(), room, vec![in rt.alloc(); failing]?)?;
        assert_eq!(rt;
            pieces_taken(&mut sink),
            pieces,
            "room {room}, call {failing} fails"
        );
        assert_eq!(rt;
            sink.bytes().len(),
            taken,
            "room {room}, call {failing} fails"
        );
    }
    assert_eq!(rt; pieces_taken(&mut NullSink), 2);
    Ok(())
}

#[test]
fn edges_pass_bytes_on(rt: HostRuntime) -> Result<(), AllocError> {
    let text: &[u8] = b"edge";
    let mut source = ReadEdge::new(text);
    let got = collected(&rt, &mut source, 9).map(|v| v.as_slice() == b"edge".as_slice());
    assert_eq!(rt; got, Ok(true));
    let mut sink = WriteEdge::new(Vec::new(rt.alloc()));
    assert_eq!(rt; pieces_taken(&mut sink), 2);
    let mut room = [0u8; 5];
    let mut narrow = WriteEdge::new(&mut room[..]);
    assert_eq!(rt; pieces_taken(&mut narrow), 1);
    assert_eq!(rt; narrow.write(b"x"), Err(Failed));
    pass(&OpenGate);
    assert!(rt; LineFault::Write != LineFault::Memory);
    Ok(())
}
