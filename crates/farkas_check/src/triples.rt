//! The triples at an edge.
ghost use Rattle.std.specs.Prelude.{◌≡◌, ◌⊎◌, ℕ, true, false};
ghost use Rattle.ntfe_model.specs.Triangulations.{IsRotationOf};
ghost use Rattle.ntfe_model.specs.Choices.{AreOpposite};
ghost use Rattle.farkas_check.specs.Folds.{HasTriple, HasThirds};

use ntfe_model::{Fold, Triangle};

/// Whether the triple is a, b, c up to rotation.
fn is_rotation(t: &Triangle, a: u32, b: u32, c: u32) -> bool
    ensures when_true { result ≡ true → IsRotationOf t.now a b c }
    ensures when_false { result ≡ false → ¬ (IsRotationOf t.now a b c) }
{
    if t.a == a && t.b == b && t.c == c {
        return true;
    }
    if t.b == a && t.c == b && t.a == c {
        return true;
    }
    t.c == a && t.a == b && t.b == c
}

/// Whether some triple of the list is a, b, c up to rotation.
fn has_triple(triangles: &[Triangle], a: u32, b: u32, c: u32) -> bool
    ensures when_true { result ≡ true → HasTriple triangles.now a b c }
    ensures when_false { result ≡ false → ¬ (HasTriple triangles.now a b c) }
{
    for t in triangles {
        if is_rotation(t, a, b, c) {
            return true;
        }
    }
    false
}

/// Whether c is the third point of a triple with the side from a to b, and d that of one with its
/// reverse.
fn is_opposite(triangles: &[Triangle], a: u32, b: u32, c: u32, d: u32) -> bool
    ensures when_true { result ≡ true → AreOpposite triangles.now a b c d }
    ensures when_false { result ≡ false → ¬ (AreOpposite triangles.now a b c d) }
{
    has_triple(triangles, a, b, c) && has_triple(triangles, b, a, d)
}

/// Whether c and d are the third points of the triples with the edge from a to b, in either order.
pub fn has_thirds(triangles: &[Triangle], fold: &Fold) -> bool
    ensures when_true { result ≡ true → HasThirds triangles.now fold.now }
    ensures when_false { result ≡ false → ¬ (HasThirds triangles.now fold.now) }
{
    is_opposite(triangles, fold.a, fold.b, fold.c, fold.d)
        || is_opposite(triangles, fold.a, fold.b, fold.d, fold.c)
}
