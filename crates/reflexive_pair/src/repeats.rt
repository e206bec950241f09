//! Entries of a list that are equal.
ghost use Rattle.std.specs.Prelude.{◌≡◌, ◌≢◌, ◌<◌, ◌+◌, true, false, length, MatchOption};
ghost use Rattle.ntfe_model.specs.Lists.{IsLeast2};
ghost use Rattle.ntfe_model.specs.Reflexive.{HasNoRepeat, IsRepeated};
ghost use Rattle.reflexive_pair.specs.Firsts.{DiffersBelow, IsFirstRepeatOf};

use ntfe_model::Vec4;

/// Whether two vectors are equal.
fn is_same(a: &Vec4, b: &Vec4) -> bool
    ensures when_true { result ≡ true → a.now ≡ b.now }
    ensures when_false { result ≡ false → a.now ≢ b.now }
{
    a.coordinates() == b.coordinates()
}

/// The first later place with the same entry as this place.
fn first_repeat_of(list: &[Vec4], i: usize) -> Option<usize>
    requires { i < length list.now }
    ensures { MatchOption result
        (DiffersBelow list.now i (length list.now))
        (IsFirstRepeatOf list.now i) }
{
    for j in i + 1..list.len() {
        if is_same(&list[i], &list[j]) {
            return Some(j);
        }
    }
    None
}

/// The first two places, in lexicographic order, with the same entry.
pub fn first_repeat(list: &[Vec4]) -> Option<(usize, usize)>
    ensures { MatchOption result
        (HasNoRepeat list.now)
        (λ r. (r.0 < length list.now) × (r.1 < length list.now) × IsLeast2 (IsRepeated list.now) (r.0 + 1) (r.1 + 1)) }
{
    for i in 0..list.len() {
        if let Some(j) = first_repeat_of(list, i) {
            return Some((i, j));
        }
    }
    None
}
