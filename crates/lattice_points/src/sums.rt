//! What sums of the dual vertices' inequalities leave of the box.
ghost use Rattle.std.specs.Prelude.{ℤ, ◌^◌, [], ◌∷◌, List, All, IfOk};
ghost use Rattle.ntfe_nums.specs.Sizes.{AreWithin};
ghost use Rattle.ntfe_nums.specs.Vectors.{Vector};
ghost use Rattle.ntfe_model.specs.Pairs.{IsSmall, IsBoundedList};
ghost use Rattle.lattice_points.specs.Boxes.{IsWithin};
ghost use Rattle.lattice_points.specs.Lines.{IsOpen};
ghost use Rattle.lattice_points.specs.Inequalities.{AreSums};
ghost use Rattle.lattice_points.specs.Scans.{IsOnPlane, IsOnLine, IsOnRow};

use crate::bounds::Extent;
use crate::column::cut;
use crate::inequality::{Cancelled, Inequality, eliminate, inequalities_of};
use ntfe_model::Vec4;
use std::alloc::{AllocError, Global};

/// The most sums that are used of those in the first three coordinates, and of those in the first two. The image of 64
/// vertices in three coordinates has at most 124 facets.
const MOST_SUMS: usize = 128;

/// Inequalities in the first three coordinates, and in the first two.
#[derive(Drop)]
pub struct Sums {
    pub three: Vec<Inequality>,
    pub two: Vec<Inequality>,
}

impl Sums {
    /// Sums of the dual vertices' inequalities.
    pub fn of(alloc: Global, vertices: &[Vec4], dual: &[Vec4]) -> Result<Sums, AllocError>
        requires vertices { IsBoundedList vertices.now }
        requires dual { All IsSmall dual.now }
        ensures { IfOk result (AreSums dual.now) }
    {
        let given = inequalities_of(alloc, vertices, dual)?;
        let three = eliminate(alloc, Cancelled::Fourth, given.as_slice(), MOST_SUMS)?;
        let two = eliminate(alloc, Cancelled::Third, three.as_slice(), MOST_SUMS)?;
        Ok(Sums { three, two })
    }

    /// The numbers of an extent for the second coordinate that the sums leave, where this is the first.
    pub fn second_extent(&self, x1: i64, extent: Extent) -> Extent
        requires sums { (ms : List Vector) × AreSums ms self.now }
        requires size { AreWithin 1023 (x1 ∷ []) }
        requires extent { AreWithin (2 ^ 33) (extent.low ∷ extent.high ∷ []) }
        ensures inside { (ms : List Vector) (x : Vector) → AreSums ms self.now → IsOpen ms x → IsOnPlane x1 x → IsWithin extent x.x2 → IsWithin result x.x2 }
        ensures within { (z : ℤ) → IsWithin result z → IsWithin extent z }
        ensures size { AreWithin (2 ^ 33) (result.low ∷ result.high ∷ []) }
    {
        let mut left = extent;
        for sum in self.two.as_slice() {
            left = cut(left, sum.c2, sum.level(x1, 0));
        }
        left
    }

    /// The numbers of an extent for the second coordinate that the sums leave, where these are the first and the third.
    pub fn row_extent(&self, x1: i64, x3: i64, extent: Extent) -> Extent
        requires sums { (ms : List Vector) × AreSums ms self.now }
        requires size { AreWithin 1023 (x1 ∷ x3 ∷ []) }
        requires extent { AreWithin (2 ^ 33) (extent.low ∷ extent.high ∷ []) }
        ensures inside { (ms : List Vector) (x : Vector) → AreSums ms self.now → IsOpen ms x → IsOnRow x1 x3 x → IsWithin extent x.x2 → IsWithin result x.x2 }
        ensures within { (z : ℤ) → IsWithin result z → IsWithin extent z }
        ensures size { AreWithin (2 ^ 33) (result.low ∷ result.high ∷ []) }
    {
        let mut left = extent;
        for sum in self.three.as_slice() {
            if left.high < left.low {
                break;
            }
            left = cut(left, sum.c2, sum.row_level(x1, x3));
        }
        left
    }

    /// The numbers of an extent for the third coordinate that the sums leave, where these are the first two.
    pub fn third_extent(&self, x1: i64, x2: i64, extent: Extent) -> Extent
        requires sums { (ms : List Vector) × AreSums ms self.now }
        requires size { AreWithin 1023 (x1 ∷ x2 ∷ []) }
        requires extent { AreWithin (2 ^ 33) (extent.low ∷ extent.high ∷ []) }
        ensures inside { (ms : List Vector) (x : Vector) → AreSums ms self.now → IsOpen ms x → IsOnLine x1 x2 x → IsWithin extent x.x3 → IsWithin result x.x3 }
        ensures within { (z : ℤ) → IsWithin result z → IsWithin extent z }
        ensures size { AreWithin (2 ^ 33) (result.low ∷ result.high ∷ []) }
    {
        let mut left = extent;
        for sum in self.three.as_slice() {
            if left.high < left.low {
                break;
            }
            left = cut(left, sum.c3, sum.level(x1, x2));
        }
        left
    }
}
