//! The factor of a fold at the second point of its edge.
ghost use Rattle.std.specs.Prelude.{◌≡◌, ◌≢◌, ℤ, pos, ◌<◌, ◌≤◌, unsigned_abs, slice_index_or};
ghost use Rattle.ntfe_nums.specs.Sizes.{AreWithin};
ghost use Rattle.ntfe_model.specs.Pairs.{IsSmall};
ghost use Rattle.fold_rows.specs.Rows.{IsBalance, AreBalanced, IsFactorAt};

use ntfe_model::Vec4;

/// The n with c + d = (2 - n) a + n b, in the coordinate at this place from 0, in which a and b differ.
fn factor_at(a: &[i64; 4], b: &[i64; 4], c: &[i64; 4], d: &[i64; 4], i: usize) -> i64
    requires a { AreWithin 1023 a.now }
    requires b { AreWithin 1023 b.now }
    requires c { AreWithin 1023 c.now }
    requires d { AreWithin 1023 d.now }
    requires known { i < 4 }
    requires distinct { slice_index_or a.now i (pos 0) ≢ slice_index_or b.now i (pos 0) }
    requires whole { (n : ℤ) × IsFactorAt a.now b.now c.now d.now i n }
    ensures value { (n : ℤ) → IsFactorAt a.now b.now c.now d.now i n → result ≡ n }
    ensures size { unsigned_abs result ≤ 4092 }
{
    (c[i] - a[i] + (d[i] - a[i])) / (b[i] - a[i])
}

/// The whole n with c + d = (2 - n) a + n b, where there is one.
pub fn factor(a: &Vec4, b: &Vec4, c: &Vec4, d: &Vec4) -> i64
    requires a { IsSmall a.now }
    requires b { IsSmall b.now }
    requires c { IsSmall c.now }
    requires d { IsSmall d.now }
    requires distinct { a.now ≢ b.now }
    requires balanced { AreBalanced a.now b.now c.now d.now }
    ensures value { IsBalance a.now b.now c.now d.now result }
    ensures size { unsigned_abs result ≤ 4092 }
{
    let a = a.coordinates();
    let b = b.coordinates();
    let c = c.coordinates();
    let d = d.coordinates();
    for i in 0..4 {
        if a[i] != b[i] {
            return factor_at(a, b, c, d, i);
        }
    }
    0
}
