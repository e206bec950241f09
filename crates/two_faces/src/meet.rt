//! Whether two facets meet in a two-face.
ghost use Rattle.std.specs.Prelude.{◌≡◌, ◌&&◌, true, false, All, Any};
ghost use Rattle.ntfe_model.specs.Pairs.{IsSmall};
ghost use Rattle.ntfe_model.specs.Points.{is_tight as tight_at};
ghost use Rattle.two_faces.specs.Meets.{IsOnBoth, IsThird, IsSecond, IsFirst};

use crate::plane::span_plane;
use ntfe_model::{Vec4, is_tight};

/// Whether both dual vertices are tight on x.
pub fn is_on_both(m: &Vec4, n: &Vec4, x: &Vec4) -> bool
    requires first { IsSmall m.now }
    requires second { IsSmall n.now }
    requires place { IsSmall x.now }
    ensures value { result ≡ (tight_at m.now x.now && tight_at n.now x.now) }
    ensures when_true { result ≡ true → IsOnBoth m.now n.now x.now }
    ensures when_false { result ≡ false → ¬ (IsOnBoth m.now n.now x.now) }
{
    is_tight(m, x) && is_tight(n, x)
}

/// Whether c lies on both facets, and off the line through a and b.
fn is_third(m: &Vec4, n: &Vec4, a: &Vec4, b: &Vec4, c: &Vec4) -> bool
    requires first { IsSmall m.now }
    requires second { IsSmall n.now }
    requires a { IsSmall a.now }
    requires b { IsSmall b.now }
    requires c { IsSmall c.now }
    ensures when_true { result ≡ true → IsThird m.now n.now a.now b.now c.now }
    ensures when_false { result ≡ false → ¬ (IsThird m.now n.now a.now b.now c.now) }
{
    is_on_both(m, n, c) && span_plane(a, b, c)
}

fn has_third(vertices: &[Vec4], m: &Vec4, n: &Vec4, a: &Vec4, b: &Vec4) -> bool
    requires vertices { All IsSmall vertices.now }
    requires first { IsSmall m.now }
    requires second { IsSmall n.now }
    requires a { IsSmall a.now }
    requires b { IsSmall b.now }
    ensures when_true { result ≡ true → Any (IsThird m.now n.now a.now b.now) vertices.now }
    ensures when_false { result ≡ false → All (λ c. ¬ (IsThird m.now n.now a.now b.now c)) vertices.now }
{
    for c in vertices {
        if is_third(m, n, a, b, c) {
            return true;
        }
    }
    false
}

fn is_second(vertices: &[Vec4], m: &Vec4, n: &Vec4, a: &Vec4, b: &Vec4) -> bool
    requires vertices { All IsSmall vertices.now }
    requires first { IsSmall m.now }
    requires second { IsSmall n.now }
    requires a { IsSmall a.now }
    requires b { IsSmall b.now }
    ensures when_true { result ≡ true → IsSecond m.now n.now vertices.now a.now b.now }
    ensures when_false { result ≡ false → ¬ (IsSecond m.now n.now vertices.now a.now b.now) }
{
    is_on_both(m, n, b) && has_third(vertices, m, n, a, b)
}

fn has_second(vertices: &[Vec4], m: &Vec4, n: &Vec4, a: &Vec4) -> bool
    requires vertices { All IsSmall vertices.now }
    requires first { IsSmall m.now }
    requires second { IsSmall n.now }
    requires a { IsSmall a.now }
    ensures when_true { result ≡ true → Any (IsSecond m.now n.now vertices.now a.now) vertices.now }
    ensures when_false { result ≡ false → All (λ b. ¬ (IsSecond m.now n.now vertices.now a.now b)) vertices.now }
{
    for b in vertices {
        if is_second(vertices, m, n, a, b) {
            return true;
        }
    }
    false
}

fn is_first(vertices: &[Vec4], m: &Vec4, n: &Vec4, a: &Vec4) -> bool
    requires vertices { All IsSmall vertices.now }
    requires first { IsSmall m.now }
    requires second { IsSmall n.now }
    requires a { IsSmall a.now }
    ensures when_true { result ≡ true → IsFirst m.now n.now vertices.now a.now }
    ensures when_false { result ≡ false → ¬ (IsFirst m.now n.now vertices.now a.now) }
{
    is_on_both(m, n, a) && has_second(vertices, m, n, a)
}

/// Whether three affinely independent vertices lie on both facets.
pub fn meet_in_two_face(vertices: &[Vec4], m: &Vec4, n: &Vec4) -> bool
    requires vertices { All IsSmall vertices.now }
    requires first { IsSmall m.now }
    requires second { IsSmall n.now }
    ensures when_true { result ≡ true → Any (IsFirst m.now n.now vertices.now) vertices.now }
    ensures when_false { result ≡ false → All (λ a. ¬ (IsFirst m.now n.now vertices.now a)) vertices.now }
{
    for a in vertices {
        if is_first(vertices, m, n, a) {
            return true;
        }
    }
    false
}
