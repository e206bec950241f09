//! What sums of inequalities leave of one plane, row by row. In a row the first and the third coordinate are the same.
ghost use Rattle.std.specs.Prelude.{◌≡◌, false, ℤ, ◌^◌, [], ◌∷◌, List, OnOk};
ghost use Rattle.ntfe_nums.specs.Sizes.{AreWithin};
ghost use Rattle.ntfe_nums.specs.Vectors.{Vector};
ghost use Rattle.lattice_points.specs.Boxes.{IsWithin, IsSmallExtent, AreShortExtents, IsInSome};
ghost use Rattle.lattice_points.specs.Lines.{IsOpen};
ghost use Rattle.lattice_points.specs.Inequalities.{AreSums};
ghost use Rattle.lattice_points.specs.Scans.{IsOnPlane};

use crate::bounds::Extent;
use crate::sums::Sums;
use std::alloc::{AllocError, Global};

/// The extents of the second coordinate that are left in the rows of one plane. Most lines of a wide and thin box meet none.
#[derive(Drop)]
pub struct Rows {
    pub extents: Vec<Extent>,
}

impl Rows {
    /// No rows.
    pub fn new(alloc: Global) -> Rows
        ensures { result.extents.items ≡ [] }
    {
        Rows {
            extents: Vec::new(alloc),
        }
    }

    /// Takes one more extent, unless it is empty.
    fn keep(&mut self, extent: Extent) -> Result<(), AllocError>
        requires { AreWithin (2 ^ 33) (extent.low ∷ extent.high ∷ []) }
        ensures kept { OnOk result ((z : ℤ) → IsInSome self.old.extents.items z → IsInSome self.new.extents.items z) }
        ensures added { OnOk result ((z : ℤ) → IsWithin extent z → IsInSome self.new.extents.items z) }
        ensures size { OnOk result (AreShortExtents self.old.extents.items → AreShortExtents self.new.extents.items) }
    {
        if !extent.is_empty() {
            self.extents.push(extent)?;
        }
        Ok(())
    }

    /// Takes what the sums leave of the second extent in each row of the third.
    fn keep_each(
        &mut self,
        sums: &Sums,
        x1: i64,
        second: Extent,
        third: Extent,
    ) -> Result<(), AllocError>
        requires sums { (ms : List Vector) × AreSums ms sums.now }
        requires size { AreWithin 1023 (x1 ∷ []) }
        requires second { AreWithin (2 ^ 33) (second.low ∷ second.high ∷ []) }
        requires third { IsSmallExtent third }
        requires short { AreShortExtents self.old.extents.items }
        ensures reach { OnOk result ((ms : List Vector) (x : Vector) → AreSums ms sums.now → IsOpen ms x → IsOnPlane x1 x → IsWithin second x.x2 → IsWithin third x.x3 → IsInSome self.new.extents.items x.x2) }
        ensures short { OnOk result (AreShortExtents self.new.extents.items) }
    {
        for x3 in third.low..third.high + 1 {
            self.keep(sums.row_extent(x1, x3, second))?;
        }
        Ok(())
    }

    /// Goes over to the plane with this first coordinate: what the sums leave of the second extent in each row of the third,
    /// or the second extent itself where it is no longer than there are rows.
    pub fn go_to(
        &mut self,
        sums: &Sums,
        x1: i64,
        second: Extent,
        third: Extent,
    ) -> Result<(), AllocError>
        requires sums { (ms : List Vector) × AreSums ms sums.now }
        requires size { AreWithin 1023 (x1 ∷ []) }
        requires second { AreWithin (2 ^ 33) (second.low ∷ second.high ∷ []) }
        requires third { IsSmallExtent third }
        ensures reach { OnOk result ((ms : List Vector) (x : Vector) → AreSums ms sums.now → IsOpen ms x → IsOnPlane x1 x → IsWithin second x.x2 → IsWithin third x.x3 → IsInSome self.new.extents.items x.x2) }
        ensures short { OnOk result (AreShortExtents self.new.extents.items) }
    {
        self.extents.clear();
        if second.is_longer(&third) {
            self.keep_each(sums, x1, second, third)
        } else {
            self.keep(second)
        }
    }

    /// Whether a row has this second coordinate.
    pub fn contains(&self, x2: i64) -> bool
        requires { AreShortExtents self.now.extents.items }
        ensures { result ≡ false → ¬ (IsInSome self.now.extents.items x2) }
    {
        for extent in self.extents.as_slice() {
            if extent.contains(x2) {
                return true;
            }
        }
        false
    }
}
