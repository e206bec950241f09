//! Whether three vectors span a plane.
ghost use Rattle.std.specs.Prelude.{◌≡◌, ◌<◌, ◌+◌, true, false, pos};
ghost use Rattle.ntfe_nums.specs.Vectors.{area};
ghost use Rattle.ntfe_model.specs.Pairs.{IsSmall};
ghost use Rattle.ntfe_model.specs.Points.{SpanPlane};

use ntfe_model::Vec4;

/// Whether the area of three vectors is not 0 in the coordinates at these two places, from 0 to 3.
fn has_area(a: &Vec4, b: &Vec4, c: &Vec4, p: usize, q: usize) -> bool
    requires first { IsSmall a.now }
    requires second { IsSmall b.now }
    requires third { IsSmall c.now }
    requires places { p < q }
    requires known { q < 4 }
    ensures when_true { result ≡ true → SpanPlane a.now b.now c.now }
    ensures when_false { result ≡ false → area (p + 1, q + 1) a.now b.now c.now ≡ pos 0 }
{
    let a = a.coordinates();
    let b = b.coordinates();
    let c = c.coordinates();
    (b[p] - a[p]) * (c[q] - a[q]) - (b[q] - a[q]) * (c[p] - a[p]) != 0
}

/// Whether three vectors are affinely independent.
pub fn span_plane(a: &Vec4, b: &Vec4, c: &Vec4) -> bool
    requires first { IsSmall a.now }
    requires second { IsSmall b.now }
    requires third { IsSmall c.now }
    ensures when_true { result ≡ true → SpanPlane a.now b.now c.now }
    ensures when_false { result ≡ false → ¬ (SpanPlane a.now b.now c.now) }
{
    if has_area(a, b, c, 0, 1) {
        return true;
    }
    if has_area(a, b, c, 0, 2) {
        return true;
    }
    if has_area(a, b, c, 0, 3) {
        return true;
    }
    if has_area(a, b, c, 1, 2) {
        return true;
    }
    if has_area(a, b, c, 1, 3) {
        return true;
    }
    has_area(a, b, c, 2, 3)
}
