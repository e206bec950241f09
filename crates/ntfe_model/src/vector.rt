//! Vectors of four whole numbers.
ghost use Rattle.std.specs.Prelude.{◌≡◌};
ghost use Rattle.ntfe_nums.specs.Vectors.{vector, numbers};

use std::marker::Model;

/// A vector of four coordinates.
#[derive(Clone, Copy, Drop, PartialEq, Eq)]
pub struct Vec4(pub [i64; 4]);

impl Model for Vec4 {
    ghost use Rattle.std.specs.Prelude.{◌≡◌, length};
    ghost use Rattle.std.proofs.Common.{ap};
    ghost use Rattle.ntfe_nums.specs.Vectors.{Vector, vector, numbers, numbers-vector};

    ghost Value = { Vector };

    ghost view = { λ s. vector s.0 };

    ghost invariant = { λ s. length s.0 ≡ 4 };

    ghost inverse = { λ v. record { 0 = numbers v } };

    ghost inverse_ok = { λ a h i. record { 0 = numbers-vector a.0 h i } };
}

impl Vec4 {
    /// The vector with these coordinates.
    pub fn new(x: [i64; 4]) -> Vec4
        ensures { result ≡ vector x }
    {
        Vec4(x)
    }

    /// Lends the coordinates.
    pub fn coordinates(&self) -> &[i64; 4]
        ensures value { vector result.now ≡ self.now }
        ensures list { result.now ≡ numbers self.now }
    {
        &self.0
    }
}
