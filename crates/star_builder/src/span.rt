//! The coordinate pair of a two-face.
ghost use Rattle.std.specs.Prelude.{◌≡◌, ◌≢◌, ◌<◌, ◌≤◌, pos, length, All, Any, true, false, slice_index_or};
ghost use Rattle.ntfe_nums.specs.Vectors.{area, origin};
ghost use Rattle.ntfe_model.specs.Pairs.{IsSmall};
ghost use Rattle.ntfe_model.specs.Points.{place_of_point};
ghost use Rattle.ntfe_model.specs.Charts.{axes, spans as spans_patch};
ghost use Rattle.ntfe_model.specs.Flats.{AreAxes, flat_of, IsSmallFlat, area_of_flats};
ghost use Rattle.star_builder.specs.FaceCharts.{patch, AreKnown};

use crate::combining::place;
use ntfe_model::{Flat, Point, flat_area, flatten};

/// Whether some point of the list has an area with the two points.
fn has_third(numbers: &[u32], points: &[Point], axes: (usize, usize), a: &Flat, b: &Flat) -> bool
    requires known { AreKnown numbers.now points.now }
    requires small { All (λ x. IsSmall x.place) points.now }
    requires axes { AreAxes axes }
    requires first { IsSmallFlat a.now }
    requires second { IsSmallFlat b.now }
    ensures when_true { result ≡ true → Any (λ k. area_of_flats a.now b.now (flat_of axes (place_of_point points.now k)) ≢ pos 0) numbers.now }
    ensures when_false { result ≡ false → All (λ k. area_of_flats a.now b.now (flat_of axes (place_of_point points.now k)) ≡ pos 0) numbers.now }
{
    for number in numbers {
        let c = flatten(place(points, *number), axes);
        if flat_area(a, b, &c) != 0 {
            return true;
        }
    }
    false
}

/// Whether some two points of the list have an area with the point.
fn has_second(numbers: &[u32], points: &[Point], axes: (usize, usize), a: &Flat) -> bool
    requires known { AreKnown numbers.now points.now }
    requires small { All (λ x. IsSmall x.place) points.now }
    requires axes { AreAxes axes }
    requires first { IsSmallFlat a.now }
    ensures when_true { result ≡ true → Any (λ j. Any (λ k. area_of_flats a.now (flat_of axes (place_of_point points.now j)) (flat_of axes (place_of_point points.now k)) ≢ pos 0) numbers.now) numbers.now }
    ensures when_false { result ≡ false → All (λ j. All (λ k. area_of_flats a.now (flat_of axes (place_of_point points.now j)) (flat_of axes (place_of_point points.now k)) ≡ pos 0) numbers.now) numbers.now }
{
    for number in numbers {
        let b = flatten(place(points, *number), axes);
        if has_third(numbers, points, axes, a, &b) {
            return true;
        }
    }
    false
}

/// Whether some three points of the list have an area in these coordinates. The first point is one
/// of them, since where no two have an area with it, all lie on a line through it.
fn spans(numbers: &[u32], points: &[Point], axes: (usize, usize)) -> bool
    requires known { AreKnown numbers.now points.now }
    requires small { All (λ x. IsSmall x.place) points.now }
    requires axes { AreAxes axes }
    ensures { result ≡ spans_patch (patch numbers.now points.now) axes }
{
    if numbers.is_empty() {
        return false;
    }
    let a = flatten(place(points, numbers[0]), axes);
    has_second(numbers, points, axes, &a)
}

/// The first coordinate pair in which some three points of the list have an area; (1, 2) where
/// there is none.
pub fn axes_of(numbers: &[u32], points: &[Point]) -> (usize, usize)
    requires known { AreKnown numbers.now points.now }
    requires small { All (λ x. IsSmall x.place) points.now }
    ensures value { result ≡ axes (patch numbers.now points.now) }
    ensures axes { AreAxes result }
{
    if spans(numbers, points, (1, 2)) {
        return (1, 2);
    }
    if spans(numbers, points, (1, 3)) {
        return (1, 3);
    }
    if spans(numbers, points, (1, 4)) {
        return (1, 4);
    }
    if spans(numbers, points, (2, 3)) {
        return (2, 3);
    }
    if spans(numbers, points, (2, 4)) {
        return (2, 4);
    }
    if spans(numbers, points, (3, 4)) {
        return (3, 4);
    }
    (1, 2)
}
