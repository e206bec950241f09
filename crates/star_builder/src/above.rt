//! Whether a point lies above four others by their heights.
ghost use Rattle.std.specs.Prelude.{◌≡◌, ◌^◌, ◌≤◌, true, false, pos, ◌*ℤ◌, ◌+ℤ◌, ◌-ℤ◌, [], ◌∷◌, All, length, unsigned_abs, Contains};
ghost use Rattle.ntfe_nums.specs.Vectors.{AreLinearlyIndependent};
ghost use Rattle.ntfe_nums.specs.Sizes.{AreWithin};
ghost use Rattle.ntfe_model.specs.Lists.{IsNumberOf};
ghost use Rattle.ntfe_model.specs.Pairs.{IsSmall};
ghost use Rattle.ntfe_model.specs.Points.{place_of_point};
ghost use Rattle.ntfe_model.specs.Choices.{height};
ghost use Rattle.ntfe_model.specs.Stars.{IsLexAbove, order_of};
ghost use Rattle.star_builder.specs.Frames.{IsFrame};
ghost use Rattle.star_builder.specs.Fours.{AreRising, IsApart, AreIndependent};

use crate::combining::mix;
use crate::four::Four;
use crate::frame::{Combination, Frame};
use crate::ties::{is_above_down, is_above_up};
use ntfe_model::{Point, Push};

/// The height of the point with this number.
fn height_of(heights: &[i64], number: u32) -> i128
    requires { IsNumberOf heights.now number }
    ensures value { result ≡ height heights.now number }
    ensures size { unsigned_abs result ≤ 2 ^ 63 }
{
    heights[number as usize - 1] as i128
}

/// How far a point lies above the plane over four others: its height times the size of the combination, without the
/// heights of the four, each times its coordinate.
fn rise(m: &Combination, heights: &[i64], four: Four, p: u32) -> i128
    requires within { AreWithin (2 ^ 48) (m.now.size ∷ m.now.first ∷ m.now.second ∷ m.now.third ∷ m.now.fourth ∷ []) }
    requires first { IsNumberOf heights.now four.a }
    requires second { IsNumberOf heights.now four.b }
    requires third { IsNumberOf heights.now four.c }
    requires fourth { IsNumberOf heights.now four.d }
    requires point { IsNumberOf heights.now p }
    ensures value { result ≡ m.now.size *ℤ height heights.now p -ℤ (m.now.first *ℤ height heights.now four.a +ℤ m.now.second *ℤ height heights.now four.b +ℤ m.now.third *ℤ height heights.now four.c +ℤ m.now.fourth *ℤ height heights.now four.d) }
    ensures size { unsigned_abs result ≤ 2 ^ 114 }
{
    let x = height_of(heights, p);
    let a = height_of(heights, four.a);
    let b = height_of(heights, four.b);
    let c = height_of(heights, four.c);
    let d = height_of(heights, four.d);
    m.size * x - (m.first * a + m.second * b + m.third * c + m.fourth * d)
}

/// Whether a point is lexicographically above four independent others: their heights decide, and where these do
/// not, the order of pushing.
pub fn is_lex_above(
    points: &[Point],
    heights: &[i64],
    push: Push,
    four: Four,
    frame: &Frame,
    p: u32,
) -> bool
    requires small { All (λ x. IsSmall x.place) points.now }
    requires heights { length heights.now ≡ length points.now }
    requires four { AreRising points.now four }
    requires independent { AreIndependent points.now four }
    requires frame { IsFrame points.now four frame.now }
    requires point { IsNumberOf points.now p }
    requires apart { IsApart four p }
    ensures when_true { result ≡ true → IsLexAbove points.now heights.now (order_of push (length points.now)) four.a four.b four.c four.d p }
    ensures when_false { result ≡ false → ¬ (IsLexAbove points.now heights.now (order_of push (length points.now)) four.a four.b four.c four.d p) }
{
    let m = mix(points, four, frame, p);
    let up = rise(&m, heights, four, p);
    if up != 0 {
        return up > 0;
    }
    match push {
        Push::Up => is_above_up(&m, four, p),
        Push::Down => is_above_down(&m, four, p),
    }
}
