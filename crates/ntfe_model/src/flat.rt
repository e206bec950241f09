//! Points in two of their coordinates.
ghost use Rattle.std.specs.Prelude.{◌≡◌, ◌≤◌, ◌^◌, unsigned_abs};
ghost use Rattle.ntfe_model.specs.Pairs.{IsSmall};
ghost use Rattle.ntfe_model.specs.Flats.{AreAxes, flat_of, IsSmallFlat, area_of_flats};

use crate::vector::Vec4;

/// Two coordinates of a point.
#[derive(Clone, Copy, Drop)]
pub struct Flat {
    pub x: i64,
    pub y: i64,
}

/// The coordinates with the two numbers, from 1 to 4.
pub fn flatten(place: &Vec4, axes: (usize, usize)) -> Flat
    requires axes { AreAxes axes }
    requires small { IsSmall place.now }
    ensures value { result ≡ flat_of axes place.now }
    ensures small { IsSmallFlat result }
{
    let coordinates = place.coordinates();
    Flat {
        x: coordinates[axes.0 - 1],
        y: coordinates[axes.1 - 1],
    }
}

/// Twice the area of three points, negative where they turn to the right.
pub fn flat_area(a: &Flat, b: &Flat, c: &Flat) -> i64
    requires a { IsSmallFlat a.now }
    requires b { IsSmallFlat b.now }
    requires c { IsSmallFlat c.now }
    ensures value { result ≡ area_of_flats a.now b.now c.now }
    ensures size { unsigned_abs result ≤ 2 ^ 24 }
{
    (b.x - a.x) * (c.y - a.y) - (b.y - a.y) * (c.x - a.x)
}
