//! Whether the terms cancel at every point.
ghost use Rattle.std.specs.Prelude.{◌≡◌, ◌+◌, ◌^◌, ◌<◌, ◌≤◌, ℕ, true, false, pos, ◌*ℤ◌, length, unsigned_abs, All};
ghost use Rattle.ntfe_model.specs.Certificates.{where_equal, fold_coefficient, total_coefficient};
ghost use Rattle.ntfe_model.specs.Choices.{IsSmallFold};

use ntfe_model::{Fold, Term};

/// The factor where the points are the same, else 0.
fn factor_at(j: u32, k: u32, factor: i64) -> i64
    ensures { result ≡ where_equal j k factor }
{
    if j == k { factor } else { 0 }
}

/// The coefficient of a point in the fold.
fn coefficient(fold: &Fold, point: u32) -> i64
    requires { IsSmallFold fold.now }
    ensures value { result ≡ fold_coefficient fold.now point }
    ensures size { unsigned_abs result ≤ 8190 }
{
    let third = factor_at(fold.c, point, 1);
    let fourth = factor_at(fold.d, point, 1);
    let first = factor_at(fold.a, point, fold.alpha);
    let second = factor_at(fold.b, point, fold.beta);
    third + fourth - first - second
}

/// The coefficient of a point in the term: in its fold, so many times.
fn weighed(term: &Term, point: u32) -> i128
    requires { IsSmallFold term.now.fold }
    ensures value { result ≡ term.now.times *ℤ fold_coefficient term.now.fold point }
    ensures size { unsigned_abs result ≤ 2 ^ 76 }
{
    let one = coefficient(&term.fold, point);
    i128::from(term.times) * i128::from(one)
}

/// The coefficient of a point in the sum of the terms.
fn total(terms: &[Term], point: u32) -> i128
    requires small { All (λ t. IsSmallFold t.fold) terms.now }
    requires few { length terms.now < 2 ^ 32 }
    ensures { result ≡ total_coefficient terms.now point }
{
    let mut sum = 0i128;
    for term in terms {
        sum += weighed(term, point);
    }
    sum
}

/// Whether the terms cancel at the points from 1 to this number.
pub fn are_cancelling(terms: &[Term], points: u32) -> bool
    requires small { All (λ t. IsSmallFold t.fold) terms.now }
    requires few { length terms.now < 2 ^ 32 }
    ensures when_true { result ≡ true → (k : ℕ) → 1 ≤ k → k ≤ points → total_coefficient terms.now k ≡ pos 0 }
    ensures when_false { result ≡ false → ¬ ((k : ℕ) → 1 ≤ k → k ≤ points → total_coefficient terms.now k ≡ pos 0) }
{
    for k in 0..points {
        if total(terms, k + 1) != 0 {
            return false;
        }
    }
    true
}
