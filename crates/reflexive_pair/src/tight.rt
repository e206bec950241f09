//! Vectors whose scalar product is -1.
ghost use Rattle.std.specs.Prelude.{◌≡◌, ◌<◌, ◌+◌, true, false, length, All, MatchOption};
ghost use Rattle.ntfe_nums.specs.Vectors.{dot, AreLinearlyIndependent};
ghost use Rattle.ntfe_model.specs.Lists.{IsLeast};
ghost use Rattle.ntfe_model.specs.Pairs.{IsSmall};
ghost use Rattle.ntfe_model.specs.Reflexive.{at, IsTight, AreTightFour, IsTightOnFour, IsTightOnNoFour};
ghost use Rattle.reflexive_pair.specs.RuledOut.{AreTightOnFour};

use crate::fours::{FourTest, first_four};
use ntfe_model::{Vec4, is_tight};
use ntfe_nums::{det4, dot4};

/// The scalar product.
pub fn product(m: &Vec4, v: &Vec4) -> i64
    requires first { IsSmall m.now }
    requires second { IsSmall v.now }
    ensures { result ≡ dot m.now v.now }
{
    dot4(m.coordinates(), v.coordinates())
}

/// Whether four vectors are linearly independent.
fn are_independent(a: &Vec4, b: &Vec4, c: &Vec4, d: &Vec4) -> bool
    requires first { IsSmall a.now }
    requires second { IsSmall b.now }
    requires third { IsSmall c.now }
    requires fourth { IsSmall d.now }
    ensures when_true { result ≡ true → AreLinearlyIndependent a.now b.now c.now d.now }
    ensures when_false { result ≡ false → ¬ (AreLinearlyIndependent a.now b.now c.now d.now) }
{
    let rows = [
        *a.coordinates(),
        *b.coordinates(),
        *c.coordinates(),
        *d.coordinates(),
    ];
    det4(&rows) != 0
}

/// The test of four places that `tip` is tight there, on independent vectors.
#[derive(Drop)]
struct TightTest<'a> {
    tip: &'a Vec4,
    list: &'a [Vec4],
    ghost small_tip: { IsSmall tip.now },
    ghost small_list: { All IsSmall list.now },
}

impl FourTest for TightTest<'_> {
    ghost places = { λ s. length s.list.now };

    ghost admitted = { λ s i. IsTight s.tip.now (at s.list.now i) };

    ghost passed = { λ s. AreTightFour s.tip.now s.list.now };

    ghost failed = { λ s i j k l. ¬ (AreTightFour s.tip.now s.list.now i j k l) };

    fn len(&self) -> usize {
        self.list.len()
    }

    fn admits(&self, place: usize) -> bool {
        is_tight(self.tip, &self.list[place])
    }

    fn passes(&self, i: usize, j: usize, k: usize, l: usize) -> bool {
        are_independent(&self.list[i], &self.list[j], &self.list[k], &self.list[l])
    }
}

/// Whether `tip` is tight on four independent vectors of the list.
fn is_tight_on_four(tip: &Vec4, list: &[Vec4]) -> bool
    requires small_tip { IsSmall tip.now }
    requires small_list { All IsSmall list.now }
    ensures when_true { result ≡ true → IsTightOnFour tip.now list.now }
    ensures when_false { result ≡ false → ¬ (IsTightOnFour tip.now list.now) }
{
    let test = TightTest { tip, list };
    first_four(&test).is_some()
}

/// The first place of `tips` whose entry is tight on no four independent vectors of the list.
pub fn first_tight_on_no_four(tips: &[Vec4], list: &[Vec4]) -> Option<usize>
    requires small_tips { All IsSmall tips.now }
    requires small_list { All IsSmall list.now }
    ensures { MatchOption result
        (AreTightOnFour tips.now list.now)
        (λ i. (i < length tips.now) × IsLeast (IsTightOnNoFour tips.now list.now) (i + 1)) }
{
    for (i, tip) in tips.iter().enumerate() {
        if !is_tight_on_four(tip, list) {
            return Some(i);
        }
    }
    None
}
