//! The ridges of a member of a star: three of its four points.
ghost use Rattle.std.specs.Prelude.{◌≢◌, ◌<◌, Contains};
ghost use Rattle.star_builder.specs.Fours.{members_of};
ghost use Rattle.star_builder.specs.Ridges.{IsRidge, IsJoined};

use crate::four::Four;

/// The numbers of three points, counted from 1 and rising.
#[derive(Clone, Copy, Drop)]
pub struct Ridge {
    pub a: u32,
    pub b: u32,
    pub c: u32,
}

/// The other three points of the four.
pub fn ridge_of(four: Four, without: u32) -> Ridge
    requires ab { four.a < four.b }
    requires bc { four.b < four.c }
    requires cd { four.c < four.d }
    requires without { Contains (members_of four) without }
    ensures { IsRidge (members_of four) without result }
{
    if without == four.a {
        return Ridge {
            a: four.b,
            b: four.c,
            c: four.d,
        };
    }
    if without == four.b {
        return Ridge {
            a: four.a,
            b: four.c,
            c: four.d,
        };
    }
    let c = if without == four.c { four.d } else { four.c };
    Ridge {
        a: four.a,
        b: four.b,
        c,
    }
}

/// The ridge and one more point.
pub fn join(ridge: Ridge, p: u32) -> Four
    requires ab { ridge.a < ridge.b }
    requires bc { ridge.b < ridge.c }
    requires not_a { p ≢ ridge.a }
    requires not_b { p ≢ ridge.b }
    requires not_c { p ≢ ridge.c }
    ensures { IsJoined ridge p result }
{
    let Ridge { a, b, c } = ridge;
    if p < a {
        return Four {
            a: p,
            b: a,
            c: b,
            d: c,
        };
    }
    if p < b {
        return Four {
            a,
            b: p,
            c: b,
            d: c,
        };
    }
    if p < c {
        return Four { a, b, c: p, d: c };
    }
    Four { a, b, c, d: p }
}
