//! What a command reads.
ghost use Rattle.std.specs.Prelude.{◌<◌, ◌≤◌, ◌+◌, ◌^◌, IfOk, IfErr};
ghost use Rattle.io_edge.specs.Reading.{ReadsAll};
ghost use Rattle.ntfe_run.specs.Inputs.{IsInputOf, IsRefusalOf};
ghost use Rattle.ntfe_run.specs.Commands.{input_limit};
ghost use Rattle.ntfe_run.specs.Statuses.{IsPairRead, IsReadStop, IsByteStop};

use crate::inputs::{Stop, geometry_of};
use crate::status::{Refusal, Status};
use io_edge::{ReadStop, Source, read_all};
use ntfe_model::Geometry;
use std::alloc::Global;

/// The greatest number of bytes that are read of a pair.
const INPUT_LIMIT: u32 = 65536;

/// All bytes of the source, at most so many, or the status that ends the run.
pub fn read_bytes<S: Source>(alloc: Global, source: &mut S, limit: u32) -> Result<Vec<u8>, Status>
    ensures ok { IfOk result (λ v. ReadsAll (S.left source.old) (S.left source.new) v.items limit) }
    ensures err { IfErr result (IsByteStop limit (record { before = S.left source.old; after = S.left source.new }) (record { before = S.faults source.old; after = S.faults source.new })) }
    ensures later { S.faults source.old ≤ S.faults source.new }
    ensures turns { S.turns source.new ≤ S.turns source.old + limit + 2 }
{
    match read_all(alloc, source, limit as usize) {
        Ok(bytes) => Ok(bytes),
        Err(ReadStop::Size) => Err(Status::Refused(Refusal::Size { limit })),
        Err(ReadStop::Read) => Err(Status::ReadFault),
        Err(ReadStop::Memory) => Err(Status::Memory),
    }
}

/// The pair that the source holds, with its points and two-faces, or the status that ends the run.
pub fn read_geometry<S: Source>(alloc: Global, source: &mut S) -> Result<Geometry, Status>
    ensures ok { IfOk result (IsPairRead (record { before = S.left source.old; after = S.left source.new })) }
    ensures err { IfErr result (IsReadStop input_limit IsRefusalOf (record { before = S.left source.old; after = S.left source.new }) (record { before = S.faults source.old; after = S.faults source.new })) }
    ensures later { S.faults source.old ≤ S.faults source.new }
    ensures turns { S.turns source.new ≤ S.turns source.old + 65538 }
{
    let bytes = match read_bytes(alloc, source, INPUT_LIMIT) {
        Ok(bytes) => bytes,
        Err(status) => return Err(status),
    };
    match geometry_of(alloc, bytes.as_slice()) {
        Ok(geometry) => Ok(geometry),
        Err(Stop::Refused(refusal)) => Err(Status::Refused(refusal)),
        Err(Stop::Memory) => Err(Status::Memory),
    }
}
