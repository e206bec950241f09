//! The chart of a two-face of a geometry.
ghost use Rattle.std.specs.Prelude.{◌≡◌, ◌<◌, length, map, IfOk};
ghost use Rattle.ntfe_model.specs.Charts.{patch_at};

use crate::charts::Chart;
use crate::table::Table;
use ntfe_model::{Geometry, Point, Vec4};
use std::alloc::{AllocError, Global};

/// The places of the points, in their order.
fn places_of(alloc: Global, points: &[Point]) -> Result<Vec<Vec4>, AllocError>
    ensures { IfOk result (λ v. v.items ≡ map (λ x. x.place) points.now) }
{
    points.iter().map(|point| point.place).collect(alloc)
}

/// The chart of the two-face with this number, from 0.
pub fn chart(alloc: Global, geometry: &Geometry, face: u32) -> Result<Chart, AllocError>
    requires { face < length geometry.now.faces }
    ensures { IfOk result (λ c. c ≡ patch_at geometry.now face) }
{
    let numbers = Vec::from_slice(alloc, geometry.faces()[face as usize].points.as_slice())?;
    let places = places_of(alloc, geometry.points())?;
    let table = Table::new(alloc, numbers, places)?;
    Chart::from_table(alloc, table)
}
