//! The facets through points, as bits.
ghost use Rattle.std.specs.Prelude.{◌≤◌, length, All, IfOk};
ghost use Rattle.ntfe_model.specs.Pairs.{IsSmall};
ghost use Rattle.star_builder.specs.Facets.{AreMasks};

use ntfe_model::{Point, Vec4, tight_bits};
use std::alloc::{AllocError, Global};

/// The facets through each point.
pub fn masks_of(alloc: Global, points: &[Point], dual: &[Vec4]) -> Result<Vec<u64>, AllocError>
    requires small { All (λ x. IsSmall x.place) points.now }
    requires small_dual { All IsSmall dual.now }
    requires few { length dual.now ≤ 64 }
    ensures { IfOk result (λ v. AreMasks points.now dual.now (length points.now) v.items) }
{
    let mut masks = Vec::new(alloc);
    for point in points {
        masks.push(tight_bits(&point.place, dual))?;
    }
    Ok(masks)
}
