//! The first four places of a list that pass a test.
ghost use Rattle.std.specs.Prelude.{◌≡◌, ℕ, ◌<◌, true, false, MatchOption};
ghost use Rattle.reflexive_pair.specs.Fours.{IsAmong, NoFourth, NoThird, NoSecond, NoFirst, IsFourth, IsThird, IsSecond, IsFirst};

/// A test of four places of a list, which looks at each place alone before it looks at four together.
pub trait FourTest {
    /// How many places there are.
    ghost places: { Self → ℕ };

    /// What is known of a place that may be among the four.
    ghost admitted: { Self → ℕ → Type 0 };

    /// What is known where the test passes.
    ghost passed: { Self → ℕ → ℕ → ℕ → ℕ → Type 0 };

    /// What is known where it fails.
    ghost failed: { Self → ℕ → ℕ → ℕ → ℕ → Type 0 };

    fn len(&self) -> usize
        ensures { result ≡ places self.now };

    fn admits(&self, place: usize) -> bool
        requires { place < places self.now }
        ensures when_true { result ≡ true → admitted self.now place }
        ensures when_false { result ≡ false → (i j k l : ℕ) → IsAmong place i j k l → failed self.now i j k l };

    fn passes(&self, i: usize, j: usize, k: usize, l: usize) -> bool
        requires first { i < j }
        requires second { j < k }
        requires third { k < l }
        requires fourth { l < places self.now }
        requires admitted_first { admitted self.now i }
        requires admitted_second { admitted self.now j }
        requires admitted_third { admitted self.now k }
        requires admitted_fourth { admitted self.now l }
        ensures when_true { result ≡ true → passed self.now i j k l }
        ensures when_false { result ≡ false → failed self.now i j k l };
}

fn fourth<T: FourTest>(test: &T, i: usize, j: usize, k: usize) -> Option<usize>
    requires first { i < j }
    requires second { j < k }
    requires admitted_first { T.admitted test.now i }
    requires admitted_second { T.admitted test.now j }
    requires admitted_third { T.admitted test.now k }
    ensures { MatchOption result
        (NoFourth (T.failed test.now) i j k (T.places test.now))
        (IsFourth (T.passed test.now) (T.failed test.now) i j k (T.places test.now)) }
{
    let count = test.len();
    if k >= count {
        return None;
    }
    for l in k + 1..count {
        if test.admits(l) && test.passes(i, j, k, l) {
            return Some(l);
        }
    }
    None
}

fn third<T: FourTest>(test: &T, i: usize, j: usize) -> Option<(usize, usize)>
    requires places { i < j }
    requires admitted_first { T.admitted test.now i }
    requires admitted_second { T.admitted test.now j }
    ensures { MatchOption result
        (NoThird (T.failed test.now) i j (T.places test.now))
        (IsThird (T.passed test.now) (T.failed test.now) i j (T.places test.now)) }
{
    let count = test.len();
    if j >= count {
        return None;
    }
    for k in j + 1..count {
        if test.admits(k) {
            if let Some(l) = fourth(test, i, j, k) {
                return Some((k, l));
            }
        }
    }
    None
}

fn second<T: FourTest>(test: &T, i: usize) -> Option<(usize, usize, usize)>
    requires { T.admitted test.now i }
    ensures { MatchOption result
        (NoSecond (T.failed test.now) i (T.places test.now))
        (IsSecond (T.passed test.now) (T.failed test.now) i (T.places test.now)) }
{
    let count = test.len();
    if i >= count {
        return None;
    }
    for j in i + 1..count {
        if test.admits(j) {
            if let Some((k, l)) = third(test, i, j) {
                return Some((j, k, l));
            }
        }
    }
    None
}

/// The first four rising places, in lexicographic order, that pass the test.
pub fn first_four<T: FourTest>(test: &T) -> Option<(usize, usize, usize, usize)>
    ensures { MatchOption result
        (NoFirst (T.failed test.now) (T.places test.now))
        (IsFirst (T.passed test.now) (T.failed test.now) (T.places test.now)) }
{
    let count = test.len();
    for i in 0..count {
        if test.admits(i) {
            if let Some((j, k, l)) = second(test, i) {
                return Some((i, j, k, l));
            }
        }
    }
    None
}
