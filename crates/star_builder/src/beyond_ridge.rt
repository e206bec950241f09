//! The member of a star beyond a ridge of another.
ghost use Rattle.std.specs.Prelude.{◌≡◌, ◌≤◌, All, length, Contains, MatchOption};
ghost use Rattle.ntfe_model.specs.Pairs.{IsSmall};
ghost use Rattle.ntfe_model.specs.Points.{place_of_point};
ghost use Rattle.ntfe_model.specs.Reflexive.{HasFacet};
ghost use Rattle.ntfe_model.specs.Stars.{IsMember, IsBeyond, IsOuterRidge, order_of};
ghost use Rattle.ntfe_model.specs.TightBits.{IsFacetOf};
ghost use Rattle.star_builder.specs.Fours.{AreRising};

use crate::combining::place;
use crate::crossing::cross;
use crate::four::Four;
use ntfe_model::{Geometry, Heights, Point, Push, Vec4, tight_bits};

/// The place of a facet that has the four points.
fn facet_of(points: &[Point], dual: &[Vec4], four: Four) -> u32
    requires small { All (λ x. IsSmall x.place) points.now }
    requires small_dual { All IsSmall dual.now }
    requires few { length dual.now ≤ 64 }
    requires four { AreRising points.now four }
    requires facet { HasFacet dual.now (place_of_point points.now four.a) (place_of_point points.now four.b) (place_of_point points.now four.c) (place_of_point points.now four.d) }
    ensures { IsFacetOf dual.now (place_of_point points.now four.a) (place_of_point points.now four.b) (place_of_point points.now four.c) (place_of_point points.now four.d) result }
{
    let a = tight_bits(place(points, four.a), dual);
    let b = tight_bits(place(points, four.b), dual);
    let c = tight_bits(place(points, four.c), dual);
    let d = tight_bits(place(points, four.d), dual);
    (a & b & c & d).trailing_zeros()
}

/// The one other member of the star of these heights that lies in the same facet as this one and has three of its
/// points: all but the one that is named. Its fourth point lies on the other side of them. There is none exactly
/// where the three points lie in another facet too.
///
/// Takes no memory. Crossing ridges reaches all members in a facet from any one (De Loera, Rambau and Santos,
/// "Triangulations", section 2.2).
pub fn beyond(
    geometry: &Geometry,
    heights: &Heights,
    push: Push,
    member: &[u32; 4],
    without: u32,
) -> Option<[u32; 4]>
    requires heights { length heights.now ≡ length geometry.now.points }
    requires member { IsMember geometry.now.pair.dual geometry.now.points heights.now (order_of push (length geometry.now.points)) member.now }
    requires without { Contains member.now without }
    ensures { MatchOption result
        (IsOuterRidge geometry.now.pair.dual geometry.now.points member.now without)
        (λ other. IsBeyond geometry.now.pair.dual geometry.now.points heights.now (order_of push (length geometry.now.points)) member.now without other × ¬ (IsOuterRidge geometry.now.pair.dual geometry.now.points member.now without)) }
{
    let points = geometry.points();
    let dual = geometry.pair().dual();
    let [a, b, c, d] = *member;
    let four = Four { a, b, c, d };
    let facet = facet_of(points, dual, four);
    let heights = heights.0.as_slice();
    let Some(other) = cross(points, heights, push, &dual[facet as usize], four, without) else {
        return None;
    };
    Some([other.a, other.b, other.c, other.d])
}
