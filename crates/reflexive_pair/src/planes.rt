//! Hyperplanes through four vertices. Coordinates are at most 1,023, so those of a normal are below 2^36 and all heights below 2^49.
ghost use Rattle.std.specs.Prelude.{◌≡◌, ◌≢◌, ◌^◌, ◌<◌, true, false, ◌≤ℤ◌, [], ◌∷◌, All, slice_index_or, pos};
ghost use Rattle.ntfe_nums.specs.Vectors.{vector, numbers, origin, difference, dot, det3, normal, AreAffinelyIndependent};
ghost use Rattle.ntfe_nums.specs.Sizes.{AreWithin};
ghost use Rattle.ntfe_model.specs.Pairs.{IsSmall};
ghost use Rattle.ntfe_model.specs.Reflexive.{IsOnOneSide};
ghost use Rattle.reflexive_pair.specs.Sides.{NoneAbove, NoneBelow};

use ntfe_model::Vec4;
use ntfe_nums::{short_normal, short_product};

/// The vector from one point to another.
#[inline(always)]
fn edge(from: &Vec4, to: &Vec4) -> [i64; 4]
    requires first { IsSmall from.now }
    requires second { IsSmall to.now }
    ensures value { result ≡ numbers (difference to.now from.now) }
    ensures small { AreWithin (2 ^ 11) result }
{
    let a = from.coordinates();
    let b = to.coordinates();
    [b[0] - a[0], b[1] - a[1], b[2] - a[2], b[3] - a[3]]
}

/// The normal of the hyperplane through four points, which is 0 where they are affinely dependent.
#[inline(always)]
fn normal_of(a: &Vec4, b: &Vec4, c: &Vec4, d: &Vec4) -> [i64; 4]
    requires first { IsSmall a.now }
    requires second { IsSmall b.now }
    requires third { IsSmall c.now }
    requires fourth { IsSmall d.now }
    ensures value { vector result ≡ normal a.now b.now c.now d.now }
    ensures large { AreWithin (2 ^ 36) result }
{
    let u = edge(a, b);
    let v = edge(a, c);
    let w = edge(a, d);
    short_normal(&u, &v, &w)
}

/// The scalar product of a normal and a point.
#[inline(always)]
fn height(n: &[i64; 4], x: &Vec4) -> i64
    requires large { AreWithin (2 ^ 36) n.now }
    requires small { IsSmall x.now }
    ensures { result ≡ dot (vector n.now) x.now }
{
    short_product(n, x.coordinates())
}

/// Whether x is higher than a along the normal.
#[inline(always)]
fn is_above(n: &[i64; 4], a: &Vec4, x: &Vec4) -> bool
    requires large { AreWithin (2 ^ 36) n.now }
    requires first { IsSmall a.now }
    requires second { IsSmall x.now }
    ensures when_true { result ≡ true → ¬ (dot (vector n.now) x.now ≤ℤ dot (vector n.now) a.now) }
    ensures when_false { result ≡ false → dot (vector n.now) x.now ≤ℤ dot (vector n.now) a.now }
{
    height(n, x) > height(n, a)
}

/// Whether no point of the list is higher than a along the normal.
fn has_none_above(n: &[i64; 4], a: &Vec4, list: &[Vec4]) -> bool
    requires large { AreWithin (2 ^ 36) n.now }
    requires small { IsSmall a.now }
    requires small_list { All IsSmall list.now }
    ensures when_true { result ≡ true → NoneAbove (vector n.now) a.now list.now }
    ensures when_false { result ≡ false → ¬ (NoneAbove (vector n.now) a.now list.now) }
{
    for x in list {
        if is_above(n, a, x) {
            return false;
        }
    }
    true
}

/// Whether a is higher along the normal than no point of the list.
fn has_none_below(n: &[i64; 4], a: &Vec4, list: &[Vec4]) -> bool
    requires large { AreWithin (2 ^ 36) n.now }
    requires small { IsSmall a.now }
    requires small_list { All IsSmall list.now }
    ensures when_true { result ≡ true → NoneBelow (vector n.now) a.now list.now }
    ensures when_false { result ≡ false → ¬ (NoneBelow (vector n.now) a.now list.now) }
{
    for x in list {
        if is_above(n, x, a) {
            return false;
        }
    }
    true
}

/// Whether all four numbers are 0.
fn is_zero(n: &[i64; 4]) -> bool
    ensures when_true { result ≡ true → vector n.now ≡ origin }
    ensures when_false { result ≡ false → vector n.now ≢ origin }
{
    n[0] == 0 && n[1] == 0 && n[2] == 0 && n[3] == 0
}

/// Whether the list lies on one side of the hyperplane through four affinely independent points.
pub fn span_facet(a: &Vec4, b: &Vec4, c: &Vec4, d: &Vec4, list: &[Vec4]) -> bool
    requires first { IsSmall a.now }
    requires second { IsSmall b.now }
    requires third { IsSmall c.now }
    requires fourth { IsSmall d.now }
    requires small_list { All IsSmall list.now }
    ensures independent { result ≡ true → AreAffinelyIndependent a.now b.now c.now d.now }
    ensures one_side { result ≡ true → IsOnOneSide a.now b.now c.now d.now list.now }
    ensures when_false { result ≡ false → AreAffinelyIndependent a.now b.now c.now d.now → ¬ (IsOnOneSide a.now b.now c.now d.now list.now) }
{
    let n = normal_of(a, b, c, d);
    if is_zero(&n) {
        return false;
    }
    if has_none_above(&n, a, list) {
        return true;
    }
    has_none_below(&n, a, list)
}
