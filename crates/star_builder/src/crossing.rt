//! The crossing of a ridge within a facet: to the point on the other side over which the plane through the ridge is
//! lowest.
ghost use Rattle.std.specs.Prelude.{◌≡◌, ◌-◌, ◌<◌, ◌≤◌, ◌<ℤ◌, ◌*ℤ◌, ◌^◌, pos, true, false, All, Contains, Option, length, unsigned_abs};
ghost use Rattle.std.specs.declared.option.Option.TheVariants.{None, Some};
ghost use Rattle.ntfe_nums.specs.Vectors.{vector, cofactors, det4};
ghost use Rattle.ntfe_nums.specs.Sizes.{AreWithin};
ghost use Rattle.ntfe_model.specs.Lists.{IsNumberOf};
ghost use Rattle.ntfe_model.specs.Pairs.{IsSmall};
ghost use Rattle.ntfe_model.specs.Points.{place_of_point};
ghost use Rattle.ntfe_model.specs.Stars.{order_of};
ghost use Rattle.star_builder.specs.Fours.{AreRising, members_of};
ghost use Rattle.star_builder.specs.Frames.{IsFrame};
ghost use Rattle.star_builder.specs.Ridges.{IsAcross, IsJoined, IsLowestTo, IsCandidateTo, IsCrossed};

use crate::above::is_lex_above;
use crate::candidate::Candidate;
use crate::combining::{frame_of, normal, place, product};
use crate::four::Four;
use crate::ridge::{Ridge, join, ridge_of};
use ntfe_model::{Point, Push, Vec4, is_tight};

/// A ridge of a member of a star in a facet, and the point of the member that it is without.
#[derive(Drop)]
pub struct Crossing<'a> {
    pub points: &'a [Point],
    pub heights: &'a [i64],
    pub push: Push,
    pub facet: &'a Vec4,
    pub ridge: Ridge,
    pub without: u32,
    ghost small: { All (λ x. IsSmall x.place) points.now },
    ghost small_facet: { IsSmall facet.now },
    ghost few: { length points.now ≤ 400 },
    ghost heights_of: { length heights.now ≡ length points.now },
    ghost first: { IsNumberOf points.now ridge.a },
    ghost ab: { ridge.a < ridge.b },
    ghost bc: { ridge.b < ridge.c },
    ghost last: { IsNumberOf points.now ridge.c },
    ghost left_out: { IsNumberOf points.now without },
}

/// Whether one number is negative and the other positive.
fn are_opposite(x: i64, y: i64) -> bool
    requires first { unsigned_abs x ≤ 2 ^ 48 }
    requires second { unsigned_abs y ≤ 2 ^ 48 }
    ensures when_true { result ≡ true → (x *ℤ y) <ℤ pos 0 }
    ensures when_false { result ≡ false → ¬ ((x *ℤ y) <ℤ pos 0) }
{
    if x < 0 { y > 0 } else { x > 0 && y < 0 }
}

impl Crossing<'_> {
    /// Whether a point of the facet lies on the other side of the ridge, by the ridge's normal and its product with
    /// the point of the member that the ridge is without.
    fn is_across(&self, normal: &[i64; 4], side: i64, p: u32) -> bool
        requires large { AreWithin (2 ^ 36) normal.now }
        requires normal { vector normal.now ≡ cofactors (place_of_point self.now.points.now self.now.ridge.a) (place_of_point self.now.points.now self.now.ridge.b) (place_of_point self.now.points.now self.now.ridge.c) }
        requires size { unsigned_abs side ≤ 2 ^ 48 }
        requires side { side ≡ det4 (place_of_point self.now.points.now self.now.ridge.a) (place_of_point self.now.points.now self.now.ridge.b) (place_of_point self.now.points.now self.now.ridge.c) (place_of_point self.now.points.now self.now.without) }
        requires point { IsNumberOf self.now.points.now p }
        ensures when_true { result ≡ true → IsAcross self.now.points.now self.now.facet.now self.now.ridge self.now.without p }
        ensures when_false { result ≡ false → ¬ (IsAcross self.now.points.now self.now.facet.now self.now.ridge self.now.without p) }
    {
        let at = place(self.points, p);
        if !is_tight(self.facet, at) {
            return false;
        }
        are_opposite(side, product(normal, at))
    }

    /// The ridge and this point.
    fn candidate(&self, p: u32) -> Candidate
        requires point { IsNumberOf self.now.points.now p }
        requires across { IsAcross self.now.points.now self.now.facet.now self.now.ridge self.now.without p }
        ensures point { result.point ≡ p }
        ensures joined { IsJoined self.now.ridge p result.four }
        ensures frame { IsFrame self.now.points.now result.four result.frame }
    {
        let four = join(self.ridge, p);
        let frame = frame_of(self.points, four);
        Candidate {
            point: p,
            four,
            frame,
        }
    }

    /// Whether this point lies above the plane over the ridge and the other.
    fn is_above(&self, other: &Candidate, p: u32) -> bool
        requires point { IsNumberOf self.now.points.now p }
        requires across { IsAcross self.now.points.now self.now.facet.now self.now.ridge self.now.without p }
        requires other { IsLowestTo self.now.points.now self.now.heights.now (order_of self.now.push (length self.now.points.now)) self.now.facet.now self.now.ridge self.now.without (p - 1) (Some other.now.point) }
        requires joined { IsJoined self.now.ridge other.now.point other.now.four }
        requires frame { IsFrame self.now.points.now other.now.four other.now.frame }
        ensures when_true { result ≡ true → IsLowestTo self.now.points.now self.now.heights.now (order_of self.now.push (length self.now.points.now)) self.now.facet.now self.now.ridge self.now.without p (Some other.now.point) }
        ensures when_false { result ≡ false → IsLowestTo self.now.points.now self.now.heights.now (order_of self.now.push (length self.now.points.now)) self.now.facet.now self.now.ridge self.now.without p (Some p) }
    {
        is_lex_above(
            self.points,
            self.heights,
            self.push,
            other.four,
            &other.frame,
            p,
        )
    }

    /// The lower of the lowest so far and this point.
    fn lower(&self, lowest: Option<Candidate>, p: u32) -> Option<Candidate>
        requires point { IsNumberOf self.now.points.now p }
        requires across { IsAcross self.now.points.now self.now.facet.now self.now.ridge self.now.without p }
        requires lowest { IsCandidateTo self.now.points.now self.now.heights.now (order_of self.now.push (length self.now.points.now)) self.now.facet.now self.now.ridge self.now.without (p - 1) lowest }
        ensures { IsCandidateTo self.now.points.now self.now.heights.now (order_of self.now.push (length self.now.points.now)) self.now.facet.now self.now.ridge self.now.without p result }
    {
        if let Some(other) = lowest {
            if self.is_above(&other, p) {
                return Some(other);
            }
        }
        Some(self.candidate(p))
    }

    /// The ridge and the point across over which the plane through the ridge is lowest, if any point lies across.
    pub fn lowest(&self) -> Option<Candidate>
        ensures { IsCandidateTo self.now.points.now self.now.heights.now (order_of self.now.push (length self.now.points.now)) self.now.facet.now self.now.ridge self.now.without (length self.now.points.now) result }
    {
        let ridge = self.ridge;
        let normal = normal(
            place(self.points, ridge.a),
            place(self.points, ridge.b),
            place(self.points, ridge.c),
        );
        let side = product(&normal, place(self.points, self.without));
        let mut lowest = None;
        for place in 0..self.points.len() {
            let p = place as u32 + 1;
            if self.is_across(&normal, side, p) {
                lowest = self.lower(lowest, p);
            }
        }
        lowest
    }
}

/// Crosses the ridge of a member, which lies in the facet: all of its points but this one.
pub fn cross(
    points: &[Point],
    heights: &[i64],
    push: Push,
    facet: &Vec4,
    member: Four,
    without: u32,
) -> Option<Four>
    requires small { All (λ x. IsSmall x.place) points.now }
    requires small_facet { IsSmall facet.now }
    requires few { length points.now ≤ 400 }
    requires heights { length heights.now ≡ length points.now }
    requires member { AreRising points.now member }
    requires without { Contains (members_of member) without }
    ensures { IsCrossed points.now heights.now (order_of push (length points.now)) facet.now member without result }
{
    let ridge = ridge_of(member, without);
    let crossing = Crossing {
        points,
        heights,
        push,
        facet,
        ridge,
        without,
    };
    let Some(lowest) = crossing.lowest() else {
        return None;
    };
    Some(lowest.four)
}
