//! Whether the terms of a nogood are folds of its parts.
ghost use Rattle.std.specs.Prelude.{◌≡◌, ℕ, true, false, All};
ghost use Rattle.ntfe_model.specs.Certificates.{IsTermOf};
ghost use Rattle.farkas_check.specs.Parts.{KeepsParts};

use crate::folds::is_fold;
use ntfe_model::{Book, Geometry, Nogood, Term};

/// The least multiplier of a term.
const LEAST_TIMES: i64 = 1;

/// Whether the term names a part, a fold of its item, and a multiplier of at least 1.
fn is_term<B: Book>(term: &Term, nogood: &Nogood, geometry: &Geometry, book: &B) -> bool
    requires shape { B.shape book.now ≡ geometry.now }
    requires kept { KeepsParts (B.keeps book.now) geometry.now nogood.now }
    ensures when_true { result ≡ true → IsTermOf geometry.now nogood.now term.now }
    ensures when_false { result ≡ false → ¬ (IsTermOf geometry.now nogood.now term.now) }
{
    if term.times < LEAST_TIMES {
        return false;
    }
    let parts = nogood.parts.as_slice();
    let place = term.part as usize;
    if place >= parts.len() {
        return false;
    }
    is_fold(&parts[place], &term.fold, geometry, book)
}

/// Whether all terms are such.
pub fn are_terms<B: Book>(nogood: &Nogood, geometry: &Geometry, book: &B) -> bool
    requires shape { B.shape book.now ≡ geometry.now }
    requires kept { KeepsParts (B.keeps book.now) geometry.now nogood.now }
    ensures when_true { result ≡ true → All (IsTermOf geometry.now nogood.now) nogood.now.terms }
    ensures when_false { result ≡ false → ¬ (All (IsTermOf geometry.now nogood.now) nogood.now.terms) }
{
    for term in nogood.terms.as_slice() {
        if !is_term(term, nogood, geometry, book) {
            return false;
        }
    }
    true
}
