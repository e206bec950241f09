//! A two-face, and which triples of its points turn to the left.
ghost use Rattle.std.specs.Prelude.{◌≡◌, ◌≤◌, ◌^◌, true, false, All, unsigned_abs};
ghost use Rattle.ntfe_nums.specs.Vectors.{area};
ghost use Rattle.ntfe_model.specs.Pairs.{IsSmall};
ghost use Rattle.ntfe_model.specs.Charts.{IsOf, place as place_in, axes as axes_of_patch};
ghost use Rattle.ntfe_model.specs.Flats.{AreAxes};
ghost use Rattle.star_builder.specs.FaceCharts.{patch, AreKnown, AreLeft};

use crate::combining::place;
use crate::span::axes_of;
use ntfe_model::{Point, flat_area, flatten};

/// A two-face by the numbers of its points, with the coordinates in which it is looked at.
#[derive(Drop)]
pub struct FaceChart<'a> {
    points: &'a [Point],
    numbers: &'a [u32],
    axes: (usize, usize),
    ghost small: { All (λ x. IsSmall x.place) points.now },
    ghost known: { AreKnown numbers.now points.now },
    ghost axes_within: { AreAxes axes },
    ghost axes_first: { axes ≡ axes_of_patch (patch numbers.now points.now) },
}

impl<'a> FaceChart<'a> {
    /// The two-face of the points with these numbers.
    pub fn new(points: &'a [Point], numbers: &'a [u32]) -> FaceChart<'a>
        requires small { All (λ x. IsSmall x.place) points.now }
        requires known { AreKnown numbers.now points.now }
        ensures points { result.points.now ≡ points.now }
        ensures numbers { result.numbers.now ≡ numbers.now }
    {
        let axes = axes_of(numbers, points);
        FaceChart {
            points,
            numbers,
            axes,
        }
    }

    /// Whether the point lies on the two-face.
    pub fn has(&self, a: u32) -> bool
        ensures when_true { result ≡ true → IsOf (patch self.now.numbers.now self.now.points.now) a }
        ensures when_false { result ≡ false → ¬ (IsOf (patch self.now.numbers.now self.now.points.now) a) }
    {
        self.numbers.contains(&a)
    }

    /// Twice the area of three points of the two-face, negative where they turn to the right.
    fn area(&self, a: u32, b: u32, c: u32) -> i64
        requires first { IsOf (patch self.now.numbers.now self.now.points.now) a }
        requires second { IsOf (patch self.now.numbers.now self.now.points.now) b }
        requires third { IsOf (patch self.now.numbers.now self.now.points.now) c }
        ensures value { let h = patch self.now.numbers.now self.now.points.now in result ≡ area (axes_of_patch h) (place_in h a) (place_in h b) (place_in h c) }
        ensures size { unsigned_abs result ≤ 2 ^ 24 }
    {
        let a = flatten(place(self.points, a), self.axes);
        let b = flatten(place(self.points, b), self.axes);
        let c = flatten(place(self.points, c), self.axes);
        flat_area(&a, &b, &c)
    }

    /// Whether three points are points of the two-face that turn to the left, the least number first.
    pub fn is_left(&self, a: u32, b: u32, c: u32) -> bool
        ensures when_true { result ≡ true → AreLeft (patch self.now.numbers.now self.now.points.now) a b c }
        ensures when_false { result ≡ false → ¬ (AreLeft (patch self.now.numbers.now self.now.points.now) a b c) }
    {
        if b <= a || c <= a {
            return false;
        }
        if !self.has(a) || !self.has(b) || !self.has(c) {
            return false;
        }
        self.area(a, b, c) > 0
    }
}
