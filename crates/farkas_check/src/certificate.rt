//! Whether a nogood is a certificate.
ghost use Rattle.std.specs.Prelude.{◌≡◌, ◌↔◌, ℕ, IsTrue};
ghost use mathlib.Core.List.{List as Items};
ghost use Rattle.ntfe_model.specs.Certificates.{IsCertificate, IsBlockedBy};
ghost use Rattle.ntfe_model.specs.Choices.{IsExtendable};
ghost use Rattle.ntfe_model.specs.Keys.{BeginsWith};
ghost use Rattle.farkas_check.specs.Parts.{KeepsParts};

use crate::parts::{are_kept, are_rising};
use crate::terms::are_terms;
use crate::totals::are_cancelling;
use ntfe_model::{Book, Geometry, Nogood};

/// Whether the nogood is a certificate of the geometry, the items of whose parts the book keeps: the
/// parts rise by two-face, there is a term, each term is a positive multiple of a fold of its part's
/// item, and the terms cancel at every point. So where it is, no extendable choice begins with a key
/// that it blocks. Takes no memory.
pub fn verify<B: Book>(nogood: &Nogood, geometry: &Geometry, book: &B) -> bool
    requires { B.shape book.now ≡ geometry.now }
    ensures verdict { IsTrue result ↔ (KeepsParts (B.keeps book.now) geometry.now nogood.now × IsCertificate geometry.now nogood.now) }
    ensures refutes { IsTrue result → (key choice : Items ℕ) → IsBlockedBy key nogood.now → BeginsWith key choice → ¬ (IsExtendable geometry.now choice) }
{
    let points = geometry.points();
    let parts = nogood.parts.as_slice();
    let terms = nogood.terms.as_slice();
    if terms.is_empty() || terms.len() > u32::MAX as usize {
        return false;
    }
    if !are_rising(parts) {
        return false;
    }
    if !are_kept(parts, geometry, book) {
        return false;
    }
    if !are_terms(nogood, geometry, book) {
        return false;
    }
    are_cancelling(terms, points.len() as u32)
}
