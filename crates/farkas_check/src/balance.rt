//! Whether the third points balance the ends of the edge.
ghost use Rattle.std.specs.Prelude.{◌≡◌, ◌≤◌, true, false, length, unsigned_abs};
ghost use Rattle.ntfe_nums.specs.Vectors.{vector_sum, multiple};
ghost use Rattle.ntfe_model.specs.Pairs.{IsSmall};
ghost use Rattle.ntfe_model.specs.Choices.{IsSmallFold};
ghost use Rattle.farkas_check.specs.Folds.{HasSmallPoints, IsBalanced};

use ntfe_model::{Fold, Point, Vec4};

/// Whether c + d = alpha a + beta b.
fn is_sum(a: &Vec4, b: &Vec4, c: &Vec4, d: &Vec4, alpha: i64, beta: i64) -> bool
    requires a { IsSmall a.now }
    requires b { IsSmall b.now }
    requires c { IsSmall c.now }
    requires d { IsSmall d.now }
    requires alpha { unsigned_abs alpha ≤ 4094 }
    requires beta { unsigned_abs beta ≤ 4094 }
    ensures when_true { result ≡ true → vector_sum c.now d.now ≡ vector_sum (multiple alpha a.now) (multiple beta b.now) }
    ensures when_false { result ≡ false → ¬ (vector_sum c.now d.now ≡ vector_sum (multiple alpha a.now) (multiple beta b.now)) }
{
    let a = a.coordinates();
    let b = b.coordinates();
    let c = c.coordinates();
    let d = d.coordinates();
    for i in 0..4 {
        if c[i] + d[i] != alpha * a[i] + beta * b[i] {
            return false;
        }
    }
    true
}

/// Whether the fold's points balance: c + d = alpha a + beta b.
pub fn is_balanced(points: &[Point], fold: &Fold) -> bool
    requires points { HasSmallPoints points.now fold.now }
    requires small { IsSmallFold fold.now }
    ensures when_true { result ≡ true → IsBalanced points.now fold.now }
    ensures when_false { result ≡ false → ¬ (IsBalanced points.now fold.now) }
{
    let a = &points[fold.a as usize - 1].place;
    let b = &points[fold.b as usize - 1].place;
    let c = &points[fold.c as usize - 1].place;
    let d = &points[fold.d as usize - 1].place;
    is_sum(a, b, c, d, fold.alpha, fold.beta)
}
