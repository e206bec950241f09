//! From the bytes of a pair text to the pair with its points and two-faces.
ghost use Rattle.std.specs.Prelude.{◌<◌, ◌^◌, length, IfOk, IfErr};
ghost use Rattle.ntfe_run.specs.Inputs.{IsInputOf};
ghost use Rattle.ntfe_run.specs.Stops.{IsStopOf};

use crate::status::Refusal;
use lattice_points::PointFault;
use ntfe_model::Geometry;
use pair_text::{TextFault, read_pair};
use reflexive_pair::check;
use std::alloc::Global;
use two_faces::geometry;

/// Why there is no geometry.
#[derive(Drop, Debug, PartialEq, Eq)]
pub enum Stop {
    /// The input is refused.
    Refused(Refusal),
    /// There was no memory.
    Memory,
}

/// The pair that the bytes hold, with its points and two-faces. The first refusal in the order text, pair, points is answered.
pub fn geometry_of(alloc: Global, bytes: &[u8]) -> Result<Geometry, Stop>
    requires { length bytes.now < 2 ^ 32 }
    ensures ok { IfOk result (IsInputOf bytes.now) }
    ensures err { IfErr result (IsStopOf bytes.now) }
{
    let pair = match read_pair(alloc, bytes) {
        Ok(pair) => pair,
        Err(TextFault::Memory) => return Err(Stop::Memory),
        Err(fault) => return Err(Stop::Refused(Refusal::Text(fault))),
    };
    if let Err(fault) = check(&pair) {
        return Err(Stop::Refused(Refusal::Pair(fault)));
    }
    match geometry(alloc, pair) {
        Ok(geometry) => Ok(geometry),
        Err(PointFault::Memory) => Err(Stop::Memory),
        Err(fault) => Err(Stop::Refused(Refusal::Points(fault))),
    }
}
