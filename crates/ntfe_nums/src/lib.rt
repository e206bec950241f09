//! Exact whole numbers: scalar products, determinants and normals.
#![tactic(auto)]

ghost use Rattle.std.specs.Prelude.{◌≡◌, ◌≢◌, ◌^◌, ◌≤◌, ◌<◌, ◌↔◌, [], ◌∷◌, slice_index_or, neg_ℤ, ◌+ℤ◌, unsigned_abs, MatchOption};
ghost use Rattle.std.specs.Int.{IsGcd};
ghost use Rattle.ntfe_nums.specs.Vectors.{Vector, vector, numbers, origin, difference, dot, normal, side_of, AreAffinelyIndependent, det2, det3, det4 as determinant, cofactors};
ghost use Rattle.ntfe_nums.specs.Sizes.{AreWithin};

mod planes;

pub use planes::{short_normal, short_product};

/// The scalar product of two small vectors.
pub fn dot4(a: &[i64; 4], b: &[i64; 4]) -> i64
    requires first { AreWithin (2 ^ 20) a.now }
    requires second { AreWithin (2 ^ 20) b.now }
    ensures { result ≡ dot (vector a.now) (vector b.now) }
{
    a[0] * b[0] + a[1] * b[1] + a[2] * b[2] + a[3] * b[3]
}

/// The determinant of two rows.
fn minor2(a: i128, b: i128, c: i128, d: i128) -> i128
    requires small { AreWithin (2 ^ 21) (a ∷ b ∷ c ∷ d ∷ []) }
    ensures { result ≡ det2 a b c d }
{
    a * d - b * c
}

/// The determinant of three rows.
#[allow(clippy::too_many_arguments)]
fn minor3(a: i128, b: i128, c: i128, d: i128, e: i128, f: i128, g: i128, h: i128, i: i128) -> i128
    requires small { AreWithin (2 ^ 21) (a ∷ b ∷ c ∷ d ∷ e ∷ f ∷ g ∷ h ∷ i ∷ []) }
    ensures { result ≡ det3 a b c d e f g h i }
{
    let first = minor2(e, f, h, i);
    let second = minor2(d, f, g, i);
    let third = minor2(d, e, g, h);
    a * first - b * second + c * third
}

/// The coefficients of the last row in the determinant of four rows.
fn cofactors4(u: &[i128; 4], v: &[i128; 4], w: &[i128; 4]) -> [i128; 4]
    requires first { AreWithin (2 ^ 21) u.now }
    requires second { AreWithin (2 ^ 21) v.now }
    requires third { AreWithin (2 ^ 21) w.now }
    ensures value { vector result ≡ cofactors (vector u.now) (vector v.now) (vector w.now) }
    ensures large { AreWithin (2 ^ 66) result }
{
    let first = minor3(u[1], u[2], u[3], v[1], v[2], v[3], w[1], w[2], w[3]);
    let second = minor3(u[0], u[2], u[3], v[0], v[2], v[3], w[0], w[2], w[3]);
    let third = minor3(u[0], u[1], u[3], v[0], v[1], v[3], w[0], w[1], w[3]);
    let fourth = minor3(u[0], u[1], u[2], v[0], v[1], v[2], w[0], w[1], w[2]);
    [-first, second, -third, fourth]
}

/// The same numbers in wider words.
fn wide(a: &[i64; 4]) -> [i128; 4]
    requires { AreWithin (2 ^ 20) a.now }
    ensures value { result ≡ numbers (vector a.now) }
    ensures small { AreWithin (2 ^ 21) result }
{
    [a[0] as i128, a[1] as i128, a[2] as i128, a[3] as i128]
}

/// The difference of two vectors, in wider words.
fn wide_difference(b: &[i64; 4], a: &[i64; 4]) -> [i128; 4]
    requires first { AreWithin (2 ^ 20) b.now }
    requires second { AreWithin (2 ^ 20) a.now }
    ensures value { result ≡ numbers (difference (vector b.now) (vector a.now)) }
    ensures small { AreWithin (2 ^ 21) result }
{
    let b = wide(b);
    let a = wide(a);
    [b[0] - a[0], b[1] - a[1], b[2] - a[2], b[3] - a[3]]
}

/// The scalar product of a large and a small vector.
fn dot_wide(n: &[i128; 4], x: &[i128; 4]) -> i128
    requires large { AreWithin (2 ^ 66) n.now }
    requires small { AreWithin (2 ^ 21) x.now }
    ensures { result ≡ dot (vector n.now) (vector x.now) }
{
    n[0] * x[0] + n[1] * x[1] + n[2] * x[2] + n[3] * x[3]
}

/// The determinant of four small rows.
pub fn det4(rows: &[[i64; 4]; 4]) -> i128
    requires first { AreWithin (2 ^ 20) (slice_index_or rows.now 0 []) }
    requires second { AreWithin (2 ^ 20) (slice_index_or rows.now 1 []) }
    requires third { AreWithin (2 ^ 20) (slice_index_or rows.now 2 []) }
    requires fourth { AreWithin (2 ^ 20) (slice_index_or rows.now 3 []) }
    ensures { result ≡ determinant (vector (slice_index_or rows.now 0 [])) (vector (slice_index_or rows.now 1 [])) (vector (slice_index_or rows.now 2 [])) (vector (slice_index_or rows.now 3 [])) }
{
    let u = wide(&rows[0]);
    let v = wide(&rows[1]);
    let w = wide(&rows[2]);
    let x = wide(&rows[3]);
    let n = cofactors4(&u, &v, &w);
    dot_wide(&n, &x)
}

/// The normal n and the constant k of the hyperplane through four points: n·x + k is the determinant of b - a, c - a,
/// d - a and x - a for every x. The normal is 0 exactly where the four points are affinely dependent.
pub fn normal4(a: &[i64; 4], b: &[i64; 4], c: &[i64; 4], d: &[i64; 4]) -> ([i128; 4], i128)
    requires first { AreWithin (2 ^ 20) a.now }
    requires second { AreWithin (2 ^ 20) b.now }
    requires third { AreWithin (2 ^ 20) c.now }
    requires fourth { AreWithin (2 ^ 20) d.now }
    ensures plane { (x : Vector) → dot (vector result.0) x +ℤ result.1 ≡ side_of (vector a.now) (vector b.now) (vector c.now) (vector d.now) x }
    ensures independent { (vector result.0 ≢ origin) ↔ AreAffinelyIndependent (vector a.now) (vector b.now) (vector c.now) (vector d.now) }
    ensures normal { vector result.0 ≡ normal (vector a.now) (vector b.now) (vector c.now) (vector d.now) }
    ensures constant { result.1 ≡ neg_ℤ (dot (vector result.0) (vector a.now)) }
    ensures large { AreWithin (2 ^ 66) result.0 }
    ensures level { AreWithin (2 ^ 90) (result.1 ∷ []) }
{
    let u = wide_difference(b, a);
    let v = wide_difference(c, a);
    let w = wide_difference(d, a);
    let n = cofactors4(&u, &v, &w);
    let at = wide(a);
    let level = dot_wide(&n, &at);
    (n, -level)
}

/// The greatest common divisor; that of 0 and 0 is 0.
pub fn gcd(a: u128, b: u128) -> u128
    ensures { IsGcd a b result }
{
    let mut x = a;
    let mut y = b;
    while y != 0 {
        if x <= u128::from(u64::MAX) && y <= u128::from(u64::MAX) {
            return u128::from(short_gcd(x as u64, y as u64));
        }
        (x, y) = (y, x % y);
    }
    x
}

/// The greatest common divisor of two words.
fn short_gcd(a: u64, b: u64) -> u64
    ensures { IsGcd a b result }
{
    let mut x = a;
    let mut y = b;
    while y != 0 {
        (x, y) = (y, x % y);
    }
    x
}

/// The number in a shorter word; `None` exactly where its size is at least 2^width.
pub fn narrow(x: i128, width: u8) -> Option<i64>
    requires low { 1 ≤ width }
    requires high { width ≤ 62 }
    ensures { MatchOption result (2 ^ width ≤ unsigned_abs x) (λ z. (unsigned_abs x < 2 ^ width) × (z ≡ x)) }
{
    if x.unsigned_abs() >> width == 0 {
        Some(x as i64)
    } else {
        None
    }
}

#[cfg(test)]
mod tests {
    use super::*;

    #[test]
    fn products_and_determinants(rt: HostRuntime) {
        let rows = [[1, 2, 3, 4], [5, 6, 7, 9], [2, -1, 3, 0], [4, 1, -2, 8]];
        assert_eq!(rt; dot4(&rows[0], &rows[3]), 32);
        assert_eq!(rt; det4(&rows), -315);
        let unit = [[1, 0, 0, 0], [0, 1, 0, 0], [0, 0, 1, 0], [0, 0, 0, 1]];
        assert_eq!(rt;
            normal4(&unit[0], &unit[1], &unit[2], &unit[3]),
            ([-1, -1, -1, -1], 1)
        );
        let square = [[0, 0, 0, 0], [1, 0, 0, 0], [0, 1, 0, 0], [1, 1, 0, 0]];
        assert_eq!(rt;
            normal4(&square[0], &square[1], &square[2], &square[3]),
            ([0; 4], 0)
        );
    }

    #[test]
    fn divisors(rt: HostRuntime) {
        assert_eq!(rt; gcd(0, 0), 0);
        assert_eq!(rt; gcd(12, 18), 6);
        assert_eq!(rt; gcd(1 << 100, 3 << 90), 1 << 90);
    }

    #[test]
    fn narrows(rt: HostRuntime) {
        assert_eq!(rt; narrow(-3, 2), Some(-3));
        assert_eq!(rt; narrow(4, 2), None);
        assert_eq!(rt; narrow(-4, 2), None);
    }
}
