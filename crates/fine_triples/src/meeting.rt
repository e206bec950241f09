//! Whether two segments meet in a point that is an end of neither.
ghost use Rattle.std.specs.Prelude.{◌≡◌, ◌<◌, true, false, pos};
ghost use Rattle.ntfe_nums.specs.Sizes.{AreWithin};
ghost use Rattle.ntfe_nums.specs.Vectors.{vector, difference as vector_difference};
ghost use Rattle.ntfe_model.specs.Pairs.{IsSmall};
ghost use Rattle.fine_triples.specs.Meetings.{DoMeetInside, gram, first_share, second_share};
ghost use Rattle.fine_triples.specs.ShareNumbers.{AreSmallShares, AreInside, IsMetAt};

use face_chart::{difference, product};
use ntfe_model::Vec4;

/// The parts s and t of n at which two segments can meet: n times the point is n - s times the first
/// end and s times the second, and so with t on the other segment.
#[derive(Clone, Copy, Drop)]
pub struct Shares {
    pub n: i64,
    pub s: i64,
    pub t: i64,
}

/// The shares of segments with the differences d and e of their ends, whose first ends differ by r.
/// They follow from the scalar products by d and by e.
fn shares_of(d: &[i64; 4], e: &[i64; 4], r: &[i64; 4]) -> Shares
    requires first { AreWithin 2046 d.now }
    requires second { AreWithin 2046 e.now }
    requires between { AreWithin 2046 r.now }
    ensures n { result.n ≡ gram (vector d.now) (vector e.now) }
    ensures s { result.s ≡ first_share (vector d.now) (vector e.now) (vector r.now) }
    ensures t { result.t ≡ second_share (vector d.now) (vector e.now) (vector r.now) }
    ensures small { AreSmallShares result }
{
    let dd = product(d, d);
    let ee = product(e, e);
    let de = product(d, e);
    let dr = product(d, r);
    let er = product(e, r);
    Shares {
        n: dd * ee - de * de,
        s: dr * ee - er * de,
        t: dr * de - er * dd,
    }
}

/// Whether both shares are more than nothing and less than the whole.
fn are_inside(shares: &Shares) -> bool
    requires { AreSmallShares shares.now }
    ensures when_true { result ≡ true → AreInside shares.now }
    ensures when_false { result ≡ false → ¬ (AreInside shares.now) }
{
    0 < shares.s && shares.s < shares.n && 0 < shares.t && shares.t < shares.n
}

/// Whether the shares give one point, in the coordinate at this place from 0.
fn is_met_at(shares: &Shares, d: &[i64; 4], e: &[i64; 4], r: &[i64; 4], i: usize) -> bool
    requires shares { AreSmallShares shares.now }
    requires first { AreWithin 2046 d.now }
    requires second { AreWithin 2046 e.now }
    requires between { AreWithin 2046 r.now }
    requires known { i < 4 }
    ensures when_true { result ≡ true → IsMetAt shares.now d.now e.now r.now i }
    ensures when_false { result ≡ false → ¬ (IsMetAt shares.now d.now e.now r.now i) }
{
    shares.s * d[i] - shares.t * e[i] == shares.n * r[i]
}

/// Whether the segments from a to b and from c to f meet in a point that is an end of neither. Of
/// parallel segments it says no.
pub fn do_meet_inside(a: &Vec4, b: &Vec4, c: &Vec4, f: &Vec4) -> bool
    requires a { IsSmall a.now }
    requires b { IsSmall b.now }
    requires c { IsSmall c.now }
    requires f { IsSmall f.now }
    ensures when_true { result ≡ true → DoMeetInside a.now b.now c.now f.now }
    ensures when_false { result ≡ false → DoMeetInside a.now b.now c.now f.now → gram (vector_difference b.now a.now) (vector_difference f.now c.now) ≡ pos 0 }
{
    let d = difference(b, a);
    let e = difference(f, c);
    let r = difference(c, a);
    let shares = shares_of(&d, &e, &r);
    if !are_inside(&shares) {
        return false;
    }
    for i in 0..4 {
        if !is_met_at(&shares, &d, &e, &r, i) {
            return false;
        }
    }
    true
}
