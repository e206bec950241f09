//! Oriented triples, their sides and their points.
ghost use Rattle.std.specs.Prelude.{◌≡◌, ◌↔◌, IsTrue, Contains, MatchOption};
ghost use Rattle.ntfe_model.specs.Triangulations.{HasSide, IsRotationOf, IsSameTriple, IsSide};
ghost use Rattle.ntfe_model.specs.declared.triangle.Triangle.{Triangle};

use ntfe_model::Triangle;

/// Whether the step from x to y is a side of the triple.
pub fn has_side(triple: &Triangle, x: u32, y: u32) -> bool
    ensures { IsTrue result ↔ HasSide triple.now x y }
{
    triple.a == x && triple.b == y
        || triple.b == x && triple.c == y
        || triple.c == x && triple.a == y
}

/// Whether two triples differ by rotation alone.
pub fn is_same(one: &Triangle, other: &Triangle) -> bool
    ensures { IsTrue result ↔ IsSameTriple one.now other.now }
{
    one.a == other.a && one.b == other.b && one.c == other.c
        || one.b == other.a && one.c == other.b && one.a == other.c
        || one.c == other.a && one.a == other.b && one.b == other.c
}

/// Whether the step from x to y is a side of some of the triples.
pub fn is_side(triples: &[Triangle], x: u32, y: u32) -> bool
    ensures { IsTrue result ↔ IsSide triples.now x y }
{
    triples.iter().any(|triple| has_side(triple, x, y))
}

/// The third point of a triple with the side from x to y.
fn third_of(triple: &Triangle, x: u32, y: u32) -> Option<u32>
    ensures { MatchOption result (¬ (HasSide triple.now x y)) (λ z. IsRotationOf triple.now x y z) }
{
    if triple.a == x && triple.b == y {
        return Some(triple.c);
    }
    if triple.b == x && triple.c == y {
        return Some(triple.a);
    }
    if triple.c == x && triple.a == y {
        return Some(triple.b);
    }
    None
}

/// The third point of the first triple with the side from x to y.
pub fn third_point(triples: &[Triangle], x: u32, y: u32) -> u32
    requires { IsSide triples.now x y }
    ensures { (t : Triangle) × Contains triples.now t × IsRotationOf t x y result }
{
    for triple in triples {
        if let Some(z) = third_of(triple, x, y) {
            return z;
        }
    }
    unreachable!()
}
