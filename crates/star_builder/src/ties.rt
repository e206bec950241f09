//! Ties of heights, broken along the order of pushing.
ghost use Rattle.std.specs.Prelude.{◌≡◌, ◌≢◌, ◌^◌, ◌<◌, ◌≤◌, ◌<ℤ◌, ℕ, pos, true, false, [], ◌∷◌, map, unsigned_abs};
ghost use Rattle.ntfe_nums.specs.Sizes.{AreWithin};
ghost use Rattle.ntfe_model.specs.Stars.{IsFirstPositive, push_coefficient, order_of};
ghost use Rattle.ntfe_model.specs.declared.nogood.Push.TheVariants.{Up, Down};
ghost use Rattle.star_builder.specs.Fours.{IsApart};

use crate::four::Four;
use crate::frame::Combination;

/// Whether a point that is pushed before the mixed one takes part in the combination.
fn decides(is_before: bool, share: &i128) -> bool
    requires small { unsigned_abs share.now ≤ 2 ^ 48 }
    ensures when_true { result ≡ true → (is_before ≡ true) × (share.now ≢ pos 0) }
    ensures when_false { result ≡ false → is_before ≡ true → share.now ≡ pos 0 }
{
    is_before && *share != 0
}

/// Whether a point is above four others that its height does not tell it from, where lesser numbers are pushed
/// first: the first of the five that takes part in the combination decides.
pub fn is_above_up(m: &Combination, four: Four, p: u32) -> bool
    requires within { AreWithin (2 ^ 48) (m.now.size ∷ m.now.first ∷ m.now.second ∷ m.now.third ∷ m.now.fourth ∷ []) }
    requires size { pos 0 <ℤ m.now.size }
    requires apart { IsApart four p }
    ensures when_true { result ≡ true → (n : ℕ) → four.d ≤ n → p ≤ n → IsFirstPositive (map (push_coefficient m.now.size (four.a, m.now.first) (four.b, m.now.second) (four.c, m.now.third) (four.d, m.now.fourth) p) (order_of Up n)) }
    ensures when_false { result ≡ false → (n : ℕ) → four.d ≤ n → p ≤ n → ¬ (IsFirstPositive (map (push_coefficient m.now.size (four.a, m.now.first) (four.b, m.now.second) (four.c, m.now.third) (four.d, m.now.fourth) p) (order_of Up n))) }
{
    if decides(four.a < p, &m.first) {
        return m.first < 0;
    }
    if decides(four.b < p, &m.second) {
        return m.second < 0;
    }
    if decides(four.c < p, &m.third) {
        return m.third < 0;
    }
    if decides(four.d < p, &m.fourth) {
        return m.fourth < 0;
    }
    true
}

/// The same where greater numbers are pushed first.
pub fn is_above_down(m: &Combination, four: Four, p: u32) -> bool
    requires within { AreWithin (2 ^ 48) (m.now.size ∷ m.now.first ∷ m.now.second ∷ m.now.third ∷ m.now.fourth ∷ []) }
    requires size { pos 0 <ℤ m.now.size }
    requires apart { IsApart four p }
    ensures when_true { result ≡ true → (n : ℕ) → four.d ≤ n → p ≤ n → IsFirstPositive (map (push_coefficient m.now.size (four.a, m.now.first) (four.b, m.now.second) (four.c, m.now.third) (four.d, m.now.fourth) p) (order_of Down n)) }
    ensures when_false { result ≡ false → (n : ℕ) → four.d ≤ n → p ≤ n → ¬ (IsFirstPositive (map (push_coefficient m.now.size (four.a, m.now.first) (four.b, m.now.second) (four.c, m.now.third) (four.d, m.now.fourth) p) (order_of Down n))) }
{
    if decides(p < four.d, &m.fourth) {
        return m.fourth < 0;
    }
    if decides(p < four.c, &m.third) {
        return m.third < 0;
    }
    if decides(p < four.b, &m.second) {
        return m.second < 0;
    }
    if decides(p < four.a, &m.first) {
        return m.first < 0;
    }
    true
}
