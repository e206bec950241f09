//! Reading a source to its end.
ghost use Rattle.std.specs.Prelude.{◌≡◌, ◌≤◌, ◌<◌, ◌+◌, ◌^◌, length, IfOk, Err};
ghost use Rattle.io_edge.specs.Causes.{Rose};
ghost use Rattle.io_edge.specs.Reading.{ReadsAll, ReadsPast};

use crate::source::Source;
use std::alloc::Global;

/// Why reading stopped before the end.
#[derive(Clone, Copy, Drop, Debug, PartialEq, Eq)]
pub enum ReadStop {
    /// The source gave one byte more than the limit.
    Size,
    /// The source failed.
    Read,
    /// There was no memory.
    Memory,
}

/// Reads to the end, or until one byte more than the limit was taken. Each turn takes a byte at least, but for the
/// one that finds the end.
pub fn read_all<S: Source>(alloc: Global, source: &mut S, limit: usize) -> Result<Vec<u8>, ReadStop>
    requires { limit < 2 ^ 32 }
    ensures ok { IfOk result (λ v. ReadsAll (S.left source.old) (S.left source.new) v.items limit) }
    ensures size { result ≡ Err ReadStop.Size → ReadsPast (S.left source.old) (S.left source.new) limit }
    ensures later { S.faults source.old ≤ S.faults source.new }
    ensures turns { S.turns source.new ≤ S.turns source.old + limit + 2 }
    ensures cause { result ≡ Err ReadStop.Read → Rose (S.faults source.old) (S.faults source.new) }
{
    let mut bytes = Vec::new(alloc);
    let mut buffer = [0u8; 4096];
    for _turn in 0..limit + 2 {
        let room = (limit + 1 - bytes.len()).min(4096);
        let Ok(count) = source.read(&mut buffer[..room]) else {
            return Err(ReadStop::Read);
        };
        if count == 0 {
            return Ok(bytes);
        }
        if bytes.extend_from_slice(&buffer[..count]).is_err() {
            return Err(ReadStop::Memory);
        }
        if bytes.len() > limit {
            return Err(ReadStop::Size);
        }
    }
    unreachable!()
}
