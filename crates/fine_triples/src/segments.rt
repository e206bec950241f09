//! Whether two segments of a face cross.
ghost use Rattle.std.specs.Prelude.{◌≡◌, ◌↔◌, true, false, IsTrue};
ghost use Rattle.ntfe_model.specs.Pairs.{IsSmall};
ghost use Rattle.ntfe_model.specs.Charts.{IsOf, place};
ghost use Rattle.ntfe_model.specs.Triangulations.{DoCross};
ghost use Rattle.fine_triples.specs.Meetings.{IsInside, HasInsideEnd, AreOneSegment};

use crate::meeting::do_meet_inside;
use face_chart::{Chart, is_on_segment, is_same_place};
use ntfe_model::Vec4;

/// Whether x lies inside the segment from a to b.
fn is_inside(a: &Vec4, b: &Vec4, x: &Vec4) -> bool
    requires a { IsSmall a.now }
    requires b { IsSmall b.now }
    requires x { IsSmall x.now }
    ensures when_true { result ≡ true → IsInside a.now b.now x.now }
    ensures when_false { result ≡ false → ¬ (IsInside a.now b.now x.now) }
{
    if is_same_place(a, b) {
        return false;
    }
    if is_same_place(x, a) {
        return false;
    }
    if is_same_place(x, b) {
        return false;
    }
    is_on_segment(a, b, x)
}

/// Whether an end of one of the segments from a to b and from c to f lies inside the other.
fn has_inside_end(a: &Vec4, b: &Vec4, c: &Vec4, f: &Vec4) -> bool
    requires a { IsSmall a.now }
    requires b { IsSmall b.now }
    requires c { IsSmall c.now }
    requires f { IsSmall f.now }
    ensures when_true { result ≡ true → HasInsideEnd a.now b.now c.now f.now }
    ensures when_false { result ≡ false → ¬ (HasInsideEnd a.now b.now c.now f.now) }
{
    is_inside(a, b, c) || is_inside(a, b, f) || is_inside(c, f, a) || is_inside(c, f, b)
}

/// Whether the segments from a to b and from c to f are one, from one place to another.
fn are_one_segment(a: &Vec4, b: &Vec4, c: &Vec4, f: &Vec4) -> bool
    ensures when_true { result ≡ true → AreOneSegment a.now b.now c.now f.now }
    ensures when_false { result ≡ false → ¬ (AreOneSegment a.now b.now c.now f.now) }
{
    if is_same_place(a, b) {
        return false;
    }
    if is_same_place(a, c) && is_same_place(b, f) {
        return true;
    }
    is_same_place(a, f) && is_same_place(b, c)
}

/// Whether two segments between points of the face, by their numbers from 1, meet in a point that is
/// not an end of both. The two points of a segment may be one. Takes no memory.
pub fn crosses(chart: &Chart, one: (u32, u32), other: (u32, u32)) -> bool
    requires first { IsOf chart.now one.0 }
    requires second { IsOf chart.now one.1 }
    requires third { IsOf chart.now other.0 }
    requires fourth { IsOf chart.now other.1 }
    ensures { IsTrue result ↔ DoCross (place chart.now one.0) (place chart.now one.1) (place chart.now other.0) (place chart.now other.1) }
{
    let a = chart.place(one.0);
    let b = chart.place(one.1);
    let c = chart.place(other.0);
    let f = chart.place(other.1);
    if has_inside_end(a, b, c, f) {
        return true;
    }
    if are_one_segment(a, b, c, f) {
        return true;
    }
    do_meet_inside(a, b, c, f)
}
