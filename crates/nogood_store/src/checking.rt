//! Whether a nogood is a certificate, whose parts are fetched first.
ghost use Rattle.std.specs.Prelude.{◌≡◌, IfOk, MatchBool, All};
ghost use Rattle.ntfe_model.specs.Books.{KeepsAll};
ghost use Rattle.ntfe_model.specs.Certificates.{IsCertificate};
ghost use Rattle.farkas_check.specs.Parts.{KeepsPart};
ghost use Rattle.nogood_store.specs.Receipts.{MayPassOver};
ghost use Rattle.nogood_store.specs.Parts.{IsFetched, HasUnfetched};

use farkas_check::verify;
use ntfe_model::{Book, Geometry, ITEM_LIMIT, Nogood, Part};
use std::alloc::AllocError;

/// Fetches the part's item. False where there is no such two-face or item, or its number is over the item limit.
fn fetch_part<B: Book>(part: &Part, geometry: &Geometry, book: &mut B) -> Result<bool, AllocError>
    requires { B.shape book.old ≡ geometry.now }
    ensures shape { B.shape book.new ≡ geometry.now }
    ensures kept { KeepsAll (B.keeps book.old) (B.keeps book.new) }
    ensures fetched { IfOk result (IsFetched (B.keeps book.new) geometry.now part.now) }
{
    if part.face as usize >= geometry.faces().len() || part.item > ITEM_LIMIT {
        return Ok(false);
    }
    book.fetch(part.face, part.item)
}

/// Fetches the items of the parts, up to the first that there is not.
fn fetch_parts<B: Book>(
    parts: &[Part],
    geometry: &Geometry,
    book: &mut B,
) -> Result<bool, AllocError>
    requires { B.shape book.old ≡ geometry.now }
    ensures shape { B.shape book.new ≡ geometry.now }
    ensures kept { KeepsAll (B.keeps book.old) (B.keeps book.new) }
    ensures fetched { IfOk result (λ all. MatchBool all (All (KeepsPart (B.keeps book.new) geometry.now) parts.now) (HasUnfetched geometry.now parts.now)) }
{
    for part in parts {
        if !fetch_part(part, geometry, book)? {
            return Ok(false);
        }
    }
    Ok(true)
}

/// Whether the nogood is a certificate of the geometry, none of whose parts has a number over the item limit. Its
/// parts are fetched for this.
pub fn is_certificate<B: Book>(
    nogood: &Nogood,
    geometry: &Geometry,
    book: &mut B,
) -> Result<bool, AllocError>
    requires { B.shape book.old ≡ geometry.now }
    ensures shape { B.shape book.new ≡ geometry.now }
    ensures kept { KeepsAll (B.keeps book.old) (B.keeps book.new) }
    ensures certificate { IfOk result (λ is. MatchBool is (IsCertificate geometry.now nogood.now) (MayPassOver geometry.now nogood.now)) }
{
    if !fetch_parts(nogood.parts.as_slice(), geometry, book)? {
        return Ok(false);
    }
    Ok(verify(nogood, geometry, book))
}
