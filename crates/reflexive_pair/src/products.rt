//! Scalar products below -1.
ghost use Rattle.std.specs.Prelude.{◌≡◌, ◌<◌, ◌+◌, true, false, negsuc, ◌≤ℤ◌, ◌<ℤ◌, length, All, MatchOption};
ghost use Rattle.ntfe_nums.specs.Vectors.{dot};
ghost use Rattle.ntfe_model.specs.Lists.{IsLeast2};
ghost use Rattle.ntfe_model.specs.Pairs.{IsSmall, VertexLists};
ghost use Rattle.ntfe_model.specs.Reflexive.{at, HasLowProduct};
ghost use Rattle.reflexive_pair.specs.Firsts.{IsHighBelow, IsFirstLow};
ghost use Rattle.reflexive_pair.specs.RuledOut.{HasNoLowProduct};

use crate::tight::product;
use ntfe_model::Vec4;

/// Whether the scalar product is below -1.
fn is_low(m: &Vec4, v: &Vec4) -> bool
    requires first { IsSmall m.now }
    requires second { IsSmall v.now }
    ensures when_true { result ≡ true → dot m.now v.now <ℤ negsuc 0 }
    ensures when_false { result ≡ false → negsuc 0 ≤ℤ dot m.now v.now }
{
    product(m, v) < -1
}

/// The first place of a dual vertex whose scalar product with the vertex is below -1.
fn first_low_of(v: &Vec4, dual: &[Vec4]) -> Option<usize>
    requires small { IsSmall v.now }
    requires small_dual { All IsSmall dual.now }
    ensures { MatchOption result
        (IsHighBelow v.now dual.now (length dual.now))
        (IsFirstLow v.now dual.now) }
{
    for (j, m) in dual.iter().enumerate() {
        if is_low(m, v) {
            return Some(j);
        }
    }
    None
}

/// The first places of a vertex and a dual vertex, in lexicographic order, whose scalar product is below -1.
pub fn first_low(vertices: &[Vec4], dual: &[Vec4]) -> Option<(usize, usize)>
    requires small_vertices { All IsSmall vertices.now }
    requires small_dual { All IsSmall dual.now }
    ensures { let p : VertexLists = record { vertices = vertices.now; dual = dual.now } in MatchOption result
        (HasNoLowProduct p)
        (λ r. (r.0 < length vertices.now) × (r.1 < length dual.now) × IsLeast2 (HasLowProduct p) (r.0 + 1) (r.1 + 1)) }
{
    for (i, v) in vertices.iter().enumerate() {
        if let Some(j) = first_low_of(v, dual) {
            return Some((i, j));
        }
    }
    None
}
