//! The points on two facets.
ghost use Rattle.std.specs.Prelude.{◌≡◌, ◌≤◌, ◌&&◌, length, filter, All, IfOk};
ghost use Rattle.std.specs.List.{range_with_len};
ghost use Rattle.ntfe_model.specs.Pairs.{IsSmall};
ghost use Rattle.ntfe_model.specs.Points.{is_tight as tight_at, place_of_point};

use crate::meet::is_on_both;
use ntfe_model::{Point, Vec4};
use std::alloc::{AllocError, Global};

/// The numbers of the points on which both dual vertices are tight, from 1 and rising.
pub fn numbers_on_both(
    alloc: Global,
    points: &[Point],
    m: &Vec4,
    n: &Vec4,
) -> Result<Vec<u32>, AllocError>
    requires few { length points.now ≤ 400 }
    requires small { All (λ x. IsSmall x.place) points.now }
    requires first { IsSmall m.now }
    requires second { IsSmall n.now }
    ensures { IfOk result (λ v. v.items ≡ filter (λ k. tight_at m.now (place_of_point points.now k) && tight_at n.now (place_of_point points.now k)) (range_with_len 1 (length points.now))) }
{
    let mut numbers = Vec::new(alloc);
    for (i, point) in points.iter().enumerate() {
        if is_on_both(m, n, &point.place) {
            numbers.push(i as u32 + 1)?;
        }
    }
    Ok(numbers)
}
