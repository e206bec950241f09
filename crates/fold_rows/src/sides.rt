//! The third points of the triples of a list.
ghost use Rattle.std.specs.Prelude.{◌≡◌, ◌⊎◌, ℕ, true, false, IfOk, MatchOption};
ghost use Rattle.ntfe_model.specs.Triangulations.{HasSide, IsRotationOf, IsSide};
ghost use Rattle.fold_rows.specs.Rows.{HasPoint, AreAround, IsThird};

use ntfe_model::Triangle;
use std::alloc::{AllocError, Global};

/// Whether the triple has the corner a.
fn has_point(t: &Triangle, a: u32) -> bool
    ensures when_true { result ≡ true → HasPoint t.now a }
    ensures when_false { result ≡ false → ¬ (HasPoint t.now a) }
{
    t.a == a || t.b == a || t.c == a
}

/// The triples with the corner a.
pub fn around(alloc: Global, triangles: &[Triangle], a: u32) -> Result<Vec<Triangle>, AllocError>
    ensures { IfOk result (λ v. AreAround triangles.now a v.items) }
{
    let mut near = Vec::new(alloc);
    for t in triangles {
        if has_point(t, a) {
            near.push(*t)?;
        }
    }
    Ok(near)
}

/// The third point of the triple, if it has the side from a to b.
fn third_of(t: &Triangle, a: u32, b: u32) -> Option<u32>
    ensures { MatchOption result (¬ (HasSide t.now a b)) (λ c. IsRotationOf t.now a b c) }
{
    if t.a == a && t.b == b {
        return Some(t.c);
    }
    if t.b == a && t.c == b {
        return Some(t.a);
    }
    if t.c == a && t.a == b {
        return Some(t.b);
    }
    None
}

/// The third point of a triple with the side from a to b.
pub fn third_point(triangles: &[Triangle], a: u32, b: u32) -> Option<u32>
    ensures { MatchOption result (¬ (IsSide triangles.now a b)) (λ c. IsThird triangles.now a b c) }
{
    for t in triangles {
        if let Some(c) = third_of(t, a, b) {
            return Some(c);
        }
    }
    None
}
