//! The bounding box of the vertices.
ghost use Rattle.std.specs.Prelude.{◌≡◌, true, false, ℤ, pos, ◌*ℤ◌, ◌≤ℤ◌, ◌<◌, ◌≤◌, ◌^◌, [], ◌∷◌, length, slice_index_or};
ghost use Rattle.ntfe_nums.specs.Sizes.{AreWithin};
ghost use Rattle.ntfe_nums.specs.Vectors.{numbers};
ghost use Rattle.ntfe_model.specs.Pairs.{IsBoundedList};
ghost use Rattle.lattice_points.specs.Boxes.{IsWithin, IsExtentOf, AreBoundsOf, IsSmallExtent, side_of_extent};

use ntfe_model::Vec4;

/// The whole numbers from `low` to `high`, both included.
#[derive(Clone, Copy, Drop)]
pub struct Extent {
    pub low: i64,
    pub high: i64,
}

impl Extent {
    /// How many numbers there are.
    pub fn side(&self) -> u64
        requires { IsSmallExtent self.now }
        ensures value { pos result ≡ side_of_extent self.now }
        ensures most { result ≤ 2047 }
    {
        (self.high - self.low + 1) as u64
    }

    /// Whether there is no number.
    pub fn is_empty(&self) -> bool
        requires { AreWithin (2 ^ 33) (self.now.low ∷ self.now.high ∷ []) }
        ensures { result ≡ true → (x : ℤ) → ¬ (IsWithin self.now x) }
    {
        self.high < self.low
    }

    /// Whether this is one of the numbers.
    pub fn contains(&self, x: i64) -> bool
        requires { AreWithin (2 ^ 33) (self.now.low ∷ self.now.high ∷ []) }
        ensures { result ≡ false → ¬ (IsWithin self.now x) }
    {
        self.low <= x && x <= self.high
    }

    /// Whether the numbers go on for longer than those of another extent.
    pub fn is_longer(&self, other: &Extent) -> bool {
        self.high.saturating_sub(self.low) > other.high.saturating_sub(other.low)
    }
}

/// The bounding box of some vectors: the extent of each coordinate.
#[derive(Clone, Copy, Drop)]
pub struct Bounds {
    pub x1: Extent,
    pub x2: Extent,
    pub x3: Extent,
    pub x4: Extent,
}

impl Bounds {
    /// The bounding box of some vectors.
    pub fn of(vectors: &[Vec4]) -> Bounds
        requires { IsBoundedList vectors.now }
        ensures { AreBoundsOf vectors.now result }
    {
        Bounds {
            x1: extent_at(vectors, 0),
            x2: extent_at(vectors, 1),
            x3: extent_at(vectors, 2),
            x4: extent_at(vectors, 3),
        }
    }

    /// The number of columns of a box: the product of its first three sides.
    pub fn columns(&self) -> u64
        requires first { IsSmallExtent self.now.x1 }
        requires second { IsSmallExtent self.now.x2 }
        requires third { IsSmallExtent self.now.x3 }
        ensures { pos result ≡ side_of_extent self.now.x1 *ℤ side_of_extent self.now.x2 *ℤ side_of_extent self.now.x3 }
    {
        self.x1.side() * self.x2.side() * self.x3.side()
    }
}

/// From the least to the greatest coordinate at this place, which is from 0 to 3.
fn extent_at(vectors: &[Vec4], place: usize) -> Extent
    requires bounded { IsBoundedList vectors.now }
    requires known { place < 4 }
    ensures { IsExtentOf (λ v. slice_index_or (numbers v) place (pos 0)) vectors.now result }
{
    let first = vectors[0].coordinates()[place];
    let mut low = first;
    let mut high = first;
    for v in vectors {
        let x = v.coordinates()[place];
        low = low.min(x);
        high = high.max(x);
    }
    Extent { low, high }
}
