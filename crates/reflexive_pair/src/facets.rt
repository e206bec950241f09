//! Facets that no dual vertex describes.
ghost use Rattle.std.specs.Prelude.{◌≡◌, true, false, ℕ, ◌<◌, ◌≤◌, ◌+◌, length, All, MatchOption, ⊤};
ghost use Rattle.ntfe_model.specs.Lists.{IsLeast4};
ghost use Rattle.ntfe_model.specs.Pairs.{IsSmall, VertexLists};
ghost use Rattle.ntfe_model.specs.Reflexive.{at, HasFacet, AreRising, IsCovered, IsOtherFacet};
ghost use Rattle.reflexive_pair.specs.Incidence.{IsTable};
ghost use Rattle.reflexive_pair.specs.Uncovered.{IsUncovered, AreWithinPlaces};

use crate::fours::{FourTest, first_four};
use crate::incidence::tight_table;
use crate::planes::span_facet;
use ntfe_model::Vec4;

/// The test of four vertices that they span a facet that no dual vertex describes.
#[derive(Drop)]
struct OtherFacetTest<'a> {
    vertices: &'a [Vec4],
    dual: &'a [Vec4],
    table: &'a [u64; 64],
    ghost small: { All IsSmall vertices.now },
    ghost few: { length vertices.now ≤ 64 },
    ghost incidence: { IsTable vertices.now dual.now table.now },
}

impl OtherFacetTest<'_> {
    /// Whether some dual vertex is tight on the vertices at four places.
    #[inline(always)]
    fn is_described(&self, i: usize, j: usize, k: usize, l: usize) -> bool
        requires first { i < length self.now.vertices.now }
        requires second { j < length self.now.vertices.now }
        requires third { k < length self.now.vertices.now }
        requires fourth { l < length self.now.vertices.now }
        ensures when_true { result ≡ true → HasFacet self.now.dual.now (at self.now.vertices.now i) (at self.now.vertices.now j) (at self.now.vertices.now k) (at self.now.vertices.now l) }
        ensures when_false { result ≡ false → ¬ (HasFacet self.now.dual.now (at self.now.vertices.now i) (at self.now.vertices.now j) (at self.now.vertices.now k) (at self.now.vertices.now l)) }
    {
        self.table[i] & self.table[j] & self.table[k] & self.table[l] != 0
    }
}

impl FourTest for OtherFacetTest<'_> {
    ghost places = { λ s. length s.vertices.now };

    ghost admitted = { λ s i. ⊤ };

    ghost passed = { λ s. IsUncovered (record { vertices = s.vertices.now; dual = s.dual.now }) };

    ghost failed = { λ s. IsCovered (record { vertices = s.vertices.now; dual = s.dual.now }) };

    fn len(&self) -> usize {
        self.vertices.len()
    }

    fn admits(&self, _place: usize) -> bool {
        true
    }

    fn passes(&self, i: usize, j: usize, k: usize, l: usize) -> bool {
        if self.is_described(i, j, k, l) {
            return false;
        }
        let list = self.vertices;
        span_facet(&list[i], &list[j], &list[k], &list[l], list)
    }
}

/// The first places of four vertices, in lexicographic order, that span a facet that no dual vertex describes.
pub fn first_other_facet(vertices: &[Vec4], dual: &[Vec4]) -> Option<(usize, usize, usize, usize)>
    requires small_vertices { All IsSmall vertices.now }
    requires small_dual { All IsSmall dual.now }
    requires few_vertices { length vertices.now ≤ 64 }
    requires few_dual { length dual.now ≤ 64 }
    ensures { let p : VertexLists = record { vertices = vertices.now; dual = dual.now } in MatchOption result
        ((i j k l : ℕ) → AreRising i j k l (length vertices.now) → IsCovered p i j k l)
        (λ r. AreWithinPlaces (length vertices.now) r × IsLeast4 (IsOtherFacet p) (r.0 + 1) (r.1 + 1) (r.2 + 1) (r.3 + 1)) }
{
    let table = tight_table(vertices, dual);
    let test = OtherFacetTest {
        vertices,
        dual,
        table: &table,
    };
    first_four(&test)
}
