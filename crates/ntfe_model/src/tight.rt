//! Which dual vertices are tight on a vector.
ghost use Rattle.std.specs.Prelude.{◌≡◌, ℕ, ◌≤◌, true, false, length, All};
ghost use Rattle.ntfe_model.specs.Pairs.{IsSmall};
ghost use Rattle.ntfe_model.specs.Points.{is_tight as tight_at};
ghost use Rattle.ntfe_model.specs.Reflexive.{IsTight};
ghost use Rattle.ntfe_model.specs.TightBits.{AreTightBits};

use crate::vector::Vec4;
use ntfe_nums::dot4;

/// Whether m is tight on x: their scalar product is -1. Takes no memory.
pub fn is_tight(m: &Vec4, x: &Vec4) -> bool
    requires first { IsSmall m.now }
    requires second { IsSmall x.now }
    ensures test { result ≡ tight_at m.now x.now }
    ensures when_true { result ≡ true → IsTight m.now x.now }
    ensures when_false { result ≡ false → ¬ (IsTight m.now x.now) }
{
    dot4(m.coordinates(), x.coordinates()) == -1
}

/// The dual vertices that are tight on x: bit k stands for the one at place k, counted from 0. Takes no memory.
pub fn tight_bits(x: &Vec4, dual: &[Vec4]) -> u64
    requires small { IsSmall x.now }
    requires small_dual { All IsSmall dual.now }
    requires few { length dual.now ≤ 64 }
    ensures { AreTightBits x.now dual.now (length dual.now) result }
{
    let mut bits = 0u64;
    for (k, m) in dual.iter().enumerate() {
        if is_tight(m, x) {
            bits |= 1 << k;
        }
    }
    bits
}
