//! The dual vertices that are tight at a place.
ghost use Rattle.std.specs.Prelude.{◌≡◌, ◌≤◌, length, All, IfOk};
ghost use Rattle.ntfe_model.specs.Pairs.{IsSmall};
ghost use Rattle.ntfe_model.specs.Points.{facets_through};

use ntfe_model::{Vec4, is_tight};
use std::alloc::{AllocError, Global};

/// The numbers of the dual vertices that are tight at x, rising.
pub fn tight_facets(alloc: Global, dual: &[Vec4], x: &Vec4) -> Result<Vec<u32>, AllocError>
    requires few { length dual.now ≤ 64 }
    requires small { All IsSmall dual.now }
    requires place { IsSmall x.now }
    ensures { IfOk result (λ v. v.items ≡ facets_through dual.now x.now) }
{
    let mut facets = Vec::new(alloc);
    for (i, m) in dual.iter().enumerate() {
        if is_tight(m, x) {
            facets.push(i as u32 + 1)?;
        }
    }
    Ok(facets)
}
