//! The part of a column that lies in the polytope.
ghost use Rattle.std.specs.Prelude.{◌≡◌, ℤ, pos, negsuc, ◌+ℤ◌, ◌*ℤ◌, ◌≤ℤ◌, ◌<ℤ◌, ◌≤◌, ◌^◌, ◌↔◌, [], ◌∷◌, length, All};
ghost use Rattle.ntfe_nums.specs.Sizes.{AreWithin};
ghost use Rattle.ntfe_model.specs.Pairs.{IsSmall};
ghost use Rattle.lattice_points.specs.Boxes.{IsWithin};
ghost use Rattle.lattice_points.specs.Lines.{place, KeepsSums, IsOpen};

use crate::bounds::Extent;
use ntfe_model::Vec4;

const EMPTY: Extent = Extent { low: 1, high: 0 };

/// The columns with these first two coordinates, and what the two give to the scalar product with
/// each dual vertex.
#[derive(Drop)]
pub struct Line {
    pub x1: i64,
    pub x2: i64,
    pub sums: [i64; 64],
}

/// The numbers x of an extent with `level + slope * x` at least -1, where the slope is not negative.
fn cut_below(left: Extent, slope: i64, level: i64) -> Extent
    requires rising { pos 0 ≤ℤ slope }
    requires left { AreWithin (2 ^ 33) (left.low ∷ left.high ∷ []) }
    requires slope { AreWithin (2 ^ 21) (slope ∷ []) }
    requires level { AreWithin (2 ^ 32) (level ∷ []) }
    ensures value { (x : ℤ) → IsWithin result x ↔ (IsWithin left x × (negsuc 0 ≤ℤ (level +ℤ slope *ℤ x))) }
    ensures size { AreWithin (2 ^ 33) (result.low ∷ result.high ∷ []) }
{
    if level + slope * left.high < -1 {
        return EMPTY;
    }
    if slope > 0 && level + slope * left.low < -1 {
        let low = -(level + 1).div_euclid(slope);
        return Extent {
            low,
            high: left.high,
        };
    }
    left
}

/// The numbers x of an extent with `level + slope * x` at least -1, where the slope is negative.
fn cut_above(left: Extent, slope: i64, level: i64) -> Extent
    requires falling { slope <ℤ pos 0 }
    requires left { AreWithin (2 ^ 33) (left.low ∷ left.high ∷ []) }
    requires slope { AreWithin (2 ^ 21) (slope ∷ []) }
    requires level { AreWithin (2 ^ 32) (level ∷ []) }
    ensures value { (x : ℤ) → IsWithin result x ↔ (IsWithin left x × (negsuc 0 ≤ℤ (level +ℤ slope *ℤ x))) }
    ensures size { AreWithin (2 ^ 33) (result.low ∷ result.high ∷ []) }
{
    if level + slope * left.low < -1 {
        return EMPTY;
    }
    if level + slope * left.high < -1 {
        let high = (level + 1).div_euclid(-slope);
        return Extent {
            low: left.low,
            high,
        };
    }
    left
}

/// The numbers x of an extent with `level + slope * x` at least -1.
pub fn cut(left: Extent, slope: i64, level: i64) -> Extent
    requires left { AreWithin (2 ^ 33) (left.low ∷ left.high ∷ []) }
    requires slope { AreWithin (2 ^ 21) (slope ∷ []) }
    requires level { AreWithin (2 ^ 32) (level ∷ []) }
    ensures value { (x : ℤ) → IsWithin result x ↔ (IsWithin left x × (negsuc 0 ≤ℤ (level +ℤ slope *ℤ x))) }
    ensures size { AreWithin (2 ^ 33) (result.low ∷ result.high ∷ []) }
{
    if slope < 0 {
        cut_above(left, slope, level)
    } else {
        cut_below(left, slope, level)
    }
}

impl Line {
    /// The line with these first two coordinates.
    pub fn new(dual: &[Vec4], x1: i64, x2: i64) -> Line
        requires few { length dual.now ≤ 64 }
        requires small { All IsSmall dual.now }
        requires size { AreWithin 1023 (x1 ∷ x2 ∷ []) }
        ensures first { result.x1 ≡ x1 }
        ensures second { result.x2 ≡ x2 }
        ensures sums { KeepsSums dual.now result }
    {
        let mut sums = [0; 64];
        for (i, m) in dual.iter().enumerate() {
            let c = m.coordinates();
            sums[i] = c[0] * x1 + c[1] * x2;
        }
        Line { x1, x2, sums }
    }

    /// The numbers of the extent that the dual vertices leave for the fourth coordinate.
    pub fn interval(&self, dual: &[Vec4], x3: i64, extent: Extent) -> Extent
        requires few { length dual.now ≤ 64 }
        requires small { All IsSmall dual.now }
        requires sums { KeepsSums dual.now self.now }
        requires size { AreWithin 1023 (self.now.x1 ∷ self.now.x2 ∷ x3 ∷ []) }
        requires extent { AreWithin (2 ^ 33) (extent.low ∷ extent.high ∷ []) }
        ensures value { (x4 : ℤ) → IsWithin result x4 ↔ (IsWithin extent x4 × IsOpen dual.now (place self.now.x1 self.now.x2 x3 x4)) }
        ensures size { AreWithin (2 ^ 33) (result.low ∷ result.high ∷ []) }
    {
        let mut left = extent;
        for (i, m) in dual.iter().enumerate() {
            let c = m.coordinates();
            left = cut(left, c[3], self.sums[i] + c[2] * x3);
            if left.high < left.low {
                break;
            }
        }
        left
    }
}
