//! A point as a combination of four others, by Cramer's rule. Coordinates are at most 1,023, so those of a normal are
//! below 2^36 and all products with it below 2^48.
ghost use Rattle.std.specs.Prelude.{◌≡◌, ◌^◌, ◌<◌, ◌≤◌, pos, [], ◌∷◌, All, slice_index_or, unsigned_abs};
ghost use Rattle.ntfe_nums.specs.Vectors.{vector, numbers, dot, det3, det4, cofactors};
ghost use Rattle.ntfe_nums.specs.Sizes.{AreWithin};
ghost use Rattle.ntfe_model.specs.Lists.{IsNumberOf};
ghost use Rattle.ntfe_model.specs.Pairs.{IsSmall};
ghost use Rattle.ntfe_model.specs.Points.{place_of_point};
ghost use Rattle.ntfe_model.specs.Stars.{IsCombination};
ghost use Rattle.star_builder.specs.Fours.{AreRising};
ghost use Rattle.star_builder.specs.Frames.{IsFrame};

use crate::four::Four;
use crate::frame::{Combination, Frame};
use ntfe_model::{Point, Vec4};
use ntfe_nums::{short_normal, short_product};

/// Where the point with this number lies.
pub fn place(points: &[Point], number: u32) -> &Vec4
    requires small { All (λ x. IsSmall x.place) points.now }
    requires number { IsNumberOf points.now number }
    ensures value { result.now ≡ place_of_point points.now number }
    ensures small { IsSmall result.now }
{
    &points[number as usize - 1].place
}

/// The normal of three points: its product with a fourth is the determinant of the four.
#[inline(always)]
pub fn normal(a: &Vec4, b: &Vec4, c: &Vec4) -> [i64; 4]
    requires first { IsSmall a.now }
    requires second { IsSmall b.now }
    requires third { IsSmall c.now }
    ensures value { vector result ≡ cofactors a.now b.now c.now }
    ensures large { AreWithin (2 ^ 36) result }
{
    short_normal(a.coordinates(), b.coordinates(), c.coordinates())
}

/// The scalar product of a normal and a point.
#[inline(always)]
pub fn product(n: &[i64; 4], x: &Vec4) -> i64
    requires large { AreWithin (2 ^ 36) n.now }
    requires small { IsSmall x.now }
    ensures value { result ≡ dot (vector n.now) x.now }
    ensures size { unsigned_abs result ≤ 2 ^ 48 }
{
    short_product(n, x.coordinates())
}

/// The determinant of four points.
pub fn determinant(a: &Vec4, b: &Vec4, c: &Vec4, d: &Vec4) -> i64
    requires first { IsSmall a.now }
    requires second { IsSmall b.now }
    requires third { IsSmall c.now }
    requires fourth { IsSmall d.now }
    ensures value { result ≡ det4 a.now b.now c.now d.now }
    ensures size { unsigned_abs result ≤ 2 ^ 48 }
{
    let n = normal(a, b, c);
    product(&n, d)
}

/// What all combinations of these four points need. Where the determinant is negative, the order of two rows is exchanged.
pub fn frame_of(points: &[Point], four: Four) -> Frame
    requires small { All (λ x. IsSmall x.place) points.now }
    requires four { AreRising points.now four }
    ensures { IsFrame points.now four result }
{
    let a = place(points, four.a);
    let b = place(points, four.b);
    let c = place(points, four.c);
    let d = place(points, four.d);
    let size = determinant(a, b, c, d);
    if size < 0 {
        Frame {
            size: -size,
            first: normal(b, c, d),
            second: normal(c, a, d),
            third: normal(a, b, d),
            fourth: normal(b, a, c),
        }
    } else {
        Frame {
            size,
            first: normal(c, b, d),
            second: normal(a, c, d),
            third: normal(b, a, d),
            fourth: normal(a, b, c),
        }
    }
}

/// The combination of a point.
pub fn mix(points: &[Point], four: Four, frame: &Frame, p: u32) -> Combination
    requires small { All (λ x. IsSmall x.place) points.now }
    requires frame { IsFrame points.now four frame.now }
    requires point { IsNumberOf points.now p }
    ensures mix { IsCombination points.now four.a four.b four.c four.d p result.size result.first result.second result.third result.fourth }
    ensures within { AreWithin (2 ^ 48) (result.size ∷ result.first ∷ result.second ∷ result.third ∷ result.fourth ∷ []) }
{
    let x = place(points, p);
    let first = product(&frame.first, x);
    let second = product(&frame.second, x);
    let third = product(&frame.third, x);
    let fourth = product(&frame.fourth, x);
    Combination {
        size: frame.size as i128,
        first: first as i128,
        second: second as i128,
        third: third as i128,
        fourth: fourth as i128,
    }
}
