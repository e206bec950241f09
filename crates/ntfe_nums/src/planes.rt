//! Normals of vectors with coordinates of at most 2^11 in size, in words of 64 bits.
ghost use Rattle.std.specs.Prelude.{◌≡◌, ◌^◌, ◌<◌, ◌≤◌, pos, [], ◌∷◌, slice_index_or, unsigned_abs};
ghost use Rattle.ntfe_nums.specs.Vectors.{vector, dot, det3, cofactors};
ghost use Rattle.ntfe_nums.specs.Sizes.{AreWithin};

/// The determinant of three columns of three rows.
#[inline(always)]
fn minor(u: &[i64; 4], v: &[i64; 4], w: &[i64; 4], i: usize, j: usize, k: usize) -> i64
    requires first { AreWithin (2 ^ 11) u.now }
    requires second { AreWithin (2 ^ 11) v.now }
    requires third { AreWithin (2 ^ 11) w.now }
    requires column_i { i < 4 }
    requires column_j { j < 4 }
    requires column_k { k < 4 }
    ensures value { result ≡ det3 (slice_index_or u.now i (pos 0)) (slice_index_or u.now j (pos 0)) (slice_index_or u.now k (pos 0)) (slice_index_or v.now i (pos 0)) (slice_index_or v.now j (pos 0)) (slice_index_or v.now k (pos 0)) (slice_index_or w.now i (pos 0)) (slice_index_or w.now j (pos 0)) (slice_index_or w.now k (pos 0)) }
    ensures size { AreWithin (2 ^ 36) (result ∷ []) }
{
    w[k] * (u[i] * v[j] - u[j] * v[i]) - w[j] * (u[i] * v[k] - u[k] * v[i])
        + w[i] * (u[j] * v[k] - u[k] * v[j])
}

/// The normal of three vectors: its scalar product with a fourth is the determinant of the four. It is 0 where they
/// are linearly dependent.
#[inline(always)]
pub fn short_normal(u: &[i64; 4], v: &[i64; 4], w: &[i64; 4]) -> [i64; 4]
    requires first { AreWithin (2 ^ 11) u.now }
    requires second { AreWithin (2 ^ 11) v.now }
    requires third { AreWithin (2 ^ 11) w.now }
    ensures value { vector result ≡ cofactors (vector u.now) (vector v.now) (vector w.now) }
    ensures large { AreWithin (2 ^ 36) result }
{
    let first = minor(u, v, w, 2, 1, 3);
    let second = minor(u, v, w, 0, 2, 3);
    let third = minor(u, v, w, 1, 0, 3);
    let fourth = minor(u, v, w, 0, 1, 2);
    [first, second, third, fourth]
}

/// The scalar product of such a normal and a point.
#[inline(always)]
pub fn short_product(n: &[i64; 4], x: &[i64; 4]) -> i64
    requires large { AreWithin (2 ^ 36) n.now }
    requires small { AreWithin 1023 x.now }
    ensures value { result ≡ dot (vector n.now) (vector x.now) }
    ensures size { unsigned_abs result ≤ 2 ^ 48 }
{
    n[0] * x[0] + n[1] * x[1] + n[2] * x[2] + n[3] * x[3]
}
