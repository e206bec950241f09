//! Which dual vertices are tight on which vertices, as bits.
ghost use Rattle.std.specs.Prelude.{◌≤◌, length, All};
ghost use Rattle.ntfe_model.specs.Pairs.{IsSmall};
ghost use Rattle.reflexive_pair.specs.Incidence.{IsTable};

use ntfe_model::{Vec4, tight_bits};

/// For each vertex the dual vertices that are tight on it.
pub fn tight_table(vertices: &[Vec4], dual: &[Vec4]) -> [u64; 64]
    requires small_vertices { All IsSmall vertices.now }
    requires small_dual { All IsSmall dual.now }
    requires few_vertices { length vertices.now ≤ 64 }
    requires few_dual { length dual.now ≤ 64 }
    ensures { IsTable vertices.now dual.now result }
{
    let mut table = [0u64; 64];
    for (i, v) in vertices.iter().enumerate() {
        table[i] = tight_bits(v, dual);
    }
    table
}
