//! Whether a form is a fold of an item.
ghost use Rattle.std.specs.Prelude.{◌≡◌, ◌≤◌, ℕ, true, false, unsigned_abs};
ghost use Rattle.ntfe_model.specs.Choices.{IsSmallFold};
ghost use Rattle.farkas_check.specs.Parts.{KeepsPart, IsFoldOfPart};

use crate::balance::is_balanced;
use crate::triples::has_thirds;
use ntfe_model::{Book, Fold, Geometry, Part};

/// No factor of a fold is larger, since the coordinates of points are of size at most 1023. So the
/// sums of the terms are exact.
const FACTOR_LIMIT: u64 = 4094;

/// Whether both factors are small.
fn has_small_factors(fold: &Fold) -> bool
    ensures when_true { result ≡ true → IsSmallFold fold.now }
    ensures when_false { result ≡ false → ¬ (IsSmallFold fold.now) }
{
    fold.alpha.unsigned_abs() <= FACTOR_LIMIT && fold.beta.unsigned_abs() <= FACTOR_LIMIT
}

/// Whether the form is a fold of the part's item, which the book keeps.
pub fn is_fold<B: Book>(part: &Part, fold: &Fold, geometry: &Geometry, book: &B) -> bool
    requires shape { B.shape book.now ≡ geometry.now }
    requires kept { KeepsPart (B.keeps book.now) geometry.now part.now }
    ensures when_true { result ≡ true → IsFoldOfPart geometry.now part.now fold.now }
    ensures when_false { result ≡ false → ¬ (IsFoldOfPart geometry.now part.now fold.now) }
{
    let points = geometry.points();
    let Some(item) = book.kept(part.face, part.item) else {
        return false;
    };
    if fold.a >= fold.b || fold.c >= fold.d {
        return false;
    }
    if !has_small_factors(fold) {
        return false;
    }
    if fold.alpha + fold.beta != 2 {
        return false;
    }
    if !has_thirds(item.triangles.as_slice(), fold) {
        return false;
    }
    is_balanced(points, fold)
}
