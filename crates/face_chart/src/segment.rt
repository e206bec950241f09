//! Whether a point lies on a segment.
ghost use Rattle.std.specs.Prelude.{◌≡◌, ◌≢◌, ◌<◌, ◌≤◌, ◌^◌, true, false, pos, ◌*ℤ◌, unsigned_abs, slice_index_or};
ghost use Rattle.ntfe_nums.specs.Sizes.{AreWithin};
ghost use Rattle.ntfe_nums.specs.Vectors.{vector, numbers, dot, difference as vector_difference};
ghost use Rattle.ntfe_model.specs.Pairs.{IsSmall};
ghost use Rattle.ntfe_model.specs.Charts.{IsOnSegment};
ghost use Rattle.face_chart.specs.Steps.{IsSmallShare};

use ntfe_model::Vec4;
use ntfe_nums::dot4;

/// The share s of n, at which a point may stand on a segment.
#[derive(Clone, Copy, Drop)]
pub struct Share {
    pub n: i64,
    pub s: i64,
}

/// The difference of two places. Takes no memory.
pub fn difference(b: &Vec4, a: &Vec4) -> [i64; 4]
    requires first { IsSmall b.now }
    requires second { IsSmall a.now }
    ensures value { result ≡ numbers (vector_difference b.now a.now) }
    ensures small { AreWithin 2046 result }
{
    let b = b.coordinates();
    let a = a.coordinates();
    [b[0] - a[0], b[1] - a[1], b[2] - a[2], b[3] - a[3]]
}

/// The scalar product of two differences. Takes no memory.
pub fn product(d: &[i64; 4], e: &[i64; 4]) -> i64
    requires first { AreWithin 2046 d.now }
    requires second { AreWithin 2046 e.now }
    ensures value { result ≡ dot (vector d.now) (vector e.now) }
    ensures size { unsigned_abs result ≤ 2 ^ 24 }
{
    dot4(d, e)
}

/// Whether n e = s d, in the coordinate at this place from 0.
fn is_share_at(share: &Share, e: &[i64; 4], d: &[i64; 4], i: usize) -> bool
    requires share { IsSmallShare share.now }
    requires first { AreWithin 2046 e.now }
    requires second { AreWithin 2046 d.now }
    requires known { i < 4 }
    ensures when_true { result ≡ true → share.now.n *ℤ slice_index_or e.now i (pos 0) ≡ share.now.s *ℤ slice_index_or d.now i (pos 0) }
    ensures when_false { result ≡ false → share.now.n *ℤ slice_index_or e.now i (pos 0) ≢ share.now.s *ℤ slice_index_or d.now i (pos 0) }
{
    share.n * e[i] == share.s * d[i]
}

/// Whether x lies on the segment from a to another place b. With d = b - a and e = x - a, the share
/// can be no other than d e of d d. Takes no memory.
pub fn is_on_segment(a: &Vec4, b: &Vec4, x: &Vec4) -> bool
    requires a { IsSmall a.now }
    requires b { IsSmall b.now }
    requires x { IsSmall x.now }
    requires distinct { a.now ≢ b.now }
    ensures when_true { result ≡ true → IsOnSegment a.now b.now x.now }
    ensures when_false { result ≡ false → ¬ (IsOnSegment a.now b.now x.now) }
{
    let d = difference(b, a);
    let e = difference(x, a);
    let n = product(&d, &d);
    let s = product(&d, &e);
    if s < 0 {
        return false;
    }
    if n < s {
        return false;
    }
    let share = Share { n, s };
    for i in 0..4 {
        if !is_share_at(&share, &e, &d, i) {
            return false;
        }
    }
    true
}
