//! Whether the parts of a nogood rise, and whether a book keeps their items.
ghost use Rattle.std.specs.Prelude.{◌≡◌, ◌<◌, ◌≤◌, ℕ, true, false, All, AllPairs};
ghost use Rattle.farkas_check.specs.Parts.{KeepsPart, HasItemOf};

use ntfe_model::{Book, Geometry, ITEM_LIMIT, Part};

/// Whether the two-faces of the parts rise.
pub fn are_rising(parts: &[Part]) -> bool
    ensures when_true { result ≡ true → AllPairs (λ p q. p.face < q.face) parts.now }
    ensures when_false { result ≡ false → ¬ (AllPairs (λ p q. p.face < q.face) parts.now) }
{
    for i in 1..parts.len() {
        if parts[i].face <= parts[i - 1].face {
            return false;
        }
    }
    true
}

/// Whether the book keeps the part's item.
fn is_kept<B: Book>(part: &Part, geometry: &Geometry, book: &B) -> bool
    requires { B.shape book.now ≡ geometry.now }
    ensures when_true { result ≡ true → KeepsPart (B.keeps book.now) geometry.now part.now }
    ensures exists { result ≡ true → HasItemOf geometry.now part.now }
    ensures when_false { result ≡ false → ¬ (KeepsPart (B.keeps book.now) geometry.now part.now) }
{
    if part.face as usize >= geometry.faces().len() {
        return false;
    }
    if part.item > ITEM_LIMIT {
        return false;
    }
    book.kept(part.face, part.item).is_some()
}

/// Whether the book keeps the items of all parts.
pub fn are_kept<B: Book>(parts: &[Part], geometry: &Geometry, book: &B) -> bool
    requires { B.shape book.now ≡ geometry.now }
    ensures when_true { result ≡ true → All (KeepsPart (B.keeps book.now) geometry.now) parts.now }
    ensures exist { result ≡ true → All (HasItemOf geometry.now) parts.now }
    ensures when_false { result ≡ false → ¬ (All (KeepsPart (B.keeps book.now) geometry.now) parts.now) }
{
    for part in parts {
        if !is_kept(part, geometry, book) {
            return false;
        }
    }
    true
}
