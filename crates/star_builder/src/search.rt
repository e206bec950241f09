//! Whether four points are a member of a star.
ghost use Rattle.std.specs.Prelude.{◌≡◌, ◌+◌, ◌<◌, ◌≤◌, true, false, All, length, MatchOption};
ghost use Rattle.ntfe_model.specs.Lists.{IsNumberOf};
ghost use Rattle.ntfe_model.specs.Pairs.{IsSmall};
ghost use Rattle.ntfe_model.specs.Points.{place_of_point};
ghost use Rattle.ntfe_model.specs.Reflexive.{at, IsTight, HasFacet};
ghost use Rattle.ntfe_model.specs.Stars.{IsMember, order_of};
ghost use Rattle.ntfe_model.specs.TightBits.{AreTightBits, IsFacetOf};
ghost use Rattle.star_builder.specs.Facets.{AreMasks};
ghost use Rattle.star_builder.specs.Fours.{AreRising, AreIndependent, members_of};
ghost use Rattle.star_builder.specs.Others.{IsOther, AreOthersAbove};

use crate::above::is_lex_above;
use crate::combining::{determinant, frame_of, place};
use crate::four::Four;
use ntfe_model::{Point, Push, Vec4, is_tight};

/// The points and heights of a star, with the facets through each point as bits.
#[derive(Drop)]
pub struct Search<'a> {
    pub dual: &'a [Vec4],
    pub points: &'a [Point],
    pub heights: &'a [i64],
    pub push: Push,
    pub masks: &'a [u64],
    ghost small_dual: { All IsSmall dual.now },
    ghost small: { All (λ x. IsSmall x.place) points.now },
    ghost few_dual: { length dual.now ≤ 64 },
    ghost few: { length points.now ≤ 400 },
    ghost heights_of: { length heights.now ≡ length points.now },
    ghost masks_of: { AreMasks points.now dual.now (length points.now) masks.now },
}

impl Search<'_> {
    /// The bits of the facets through a point.
    fn mask(&self, number: u32) -> u64
        requires number { IsNumberOf self.now.points.now number }
        ensures { AreTightBits (place_of_point self.now.points.now number) self.now.dual.now (length self.now.dual.now) result }
    {
        self.masks[number as usize - 1]
    }

    /// The place of a facet through four points, of which some may be the same.
    pub fn common_facet(&self, a: u32, b: u32, c: u32, d: u32) -> Option<u32>
        requires first { IsNumberOf self.now.points.now a }
        requires second { IsNumberOf self.now.points.now b }
        requires third { IsNumberOf self.now.points.now c }
        requires fourth { IsNumberOf self.now.points.now d }
        ensures { MatchOption result
            (¬ (HasFacet self.now.dual.now (place_of_point self.now.points.now a) (place_of_point self.now.points.now b) (place_of_point self.now.points.now c) (place_of_point self.now.points.now d)))
            (IsFacetOf self.now.dual.now (place_of_point self.now.points.now a) (place_of_point self.now.points.now b) (place_of_point self.now.points.now c) (place_of_point self.now.points.now d)) }
    {
        let common = self.mask(a) & self.mask(b) & self.mask(c) & self.mask(d);
        if common == 0 {
            return None;
        }
        Some(common.trailing_zeros())
    }

    /// Whether four points are linearly independent.
    fn are_independent(&self, four: Four) -> bool
        requires four { AreRising self.now.points.now four }
        ensures when_true { result ≡ true → AreIndependent self.now.points.now four }
        ensures when_false { result ≡ false → ¬ (AreIndependent self.now.points.now four) }
    {
        let a = place(self.points, four.a);
        let b = place(self.points, four.b);
        let c = place(self.points, four.c);
        let d = place(self.points, four.d);
        determinant(a, b, c, d) != 0
    }

    /// Whether a point lies on the facet and is none of the four.
    fn is_other(&self, four: Four, facet: u32, p: u32) -> bool
        requires facet { facet < length self.now.dual.now }
        requires point { IsNumberOf self.now.points.now p }
        ensures when_true { result ≡ true → IsOther self.now.points.now (at self.now.dual.now facet) four p }
        ensures when_false { result ≡ false → ¬ (IsOther self.now.points.now (at self.now.dual.now facet) four p) }
    {
        if p == four.a || p == four.b || p == four.c || p == four.d {
            return false;
        }
        is_tight(&self.dual[facet as usize], place(self.points, p))
    }

    /// Whether a point lies on the facet.
    pub fn is_on(&self, facet: u32, p: u32) -> bool
        requires facet { facet < length self.now.dual.now }
        requires point { IsNumberOf self.now.points.now p }
        ensures when_true { result ≡ true → IsTight (at self.now.dual.now facet) (place_of_point self.now.points.now p) }
        ensures when_false { result ≡ false → ¬ (IsTight (at self.now.dual.now facet) (place_of_point self.now.points.now p)) }
    {
        is_tight(&self.dual[facet as usize], place(self.points, p))
    }

    /// Whether all other points of the facet are above the four.
    fn are_others_above(&self, four: Four, facet: u32) -> bool
        requires four { AreRising self.now.points.now four }
        requires independent { AreIndependent self.now.points.now four }
        requires facet { facet < length self.now.dual.now }
        ensures when_true { result ≡ true → AreOthersAbove self.now.points.now self.now.heights.now (order_of self.now.push (length self.now.points.now)) (at self.now.dual.now facet) four (length self.now.points.now) }
        ensures when_false { result ≡ false → ¬ (AreOthersAbove self.now.points.now self.now.heights.now (order_of self.now.push (length self.now.points.now)) (at self.now.dual.now facet) four (length self.now.points.now)) }
    {
        let frame = frame_of(self.points, four);
        for place in 0..self.points.len() {
            let p = place as u32 + 1;
            if self.is_other(four, facet, p)
                && !is_lex_above(self.points, self.heights, self.push, four, &frame, p)
            {
                return false;
            }
        }
        true
    }

    /// Whether the four points are a member of the star.
    pub fn is_member(&self, four: Four) -> bool
        requires four { AreRising self.now.points.now four }
        ensures when_true { result ≡ true → IsMember self.now.dual.now self.now.points.now self.now.heights.now (order_of self.now.push (length self.now.points.now)) (members_of four) }
        ensures when_false { result ≡ false → ¬ (IsMember self.now.dual.now self.now.points.now self.now.heights.now (order_of self.now.push (length self.now.points.now)) (members_of four)) }
    {
        let Some(facet) = self.common_facet(four.a, four.b, four.c, four.d) else {
            return false;
        };
        if !self.are_independent(four) {
            return false;
        }
        self.are_others_above(four, facet)
    }
}
