//! Whether a certificate blocks a key.
ghost use Rattle.std.specs.Prelude.{◌≡◌, ℕ, ◌<◌, ◌⊎◌, ◌↔◌, length, slice_index, IsTrue};
ghost use Rattle.ntfe_model.specs.Certificates.{IsBlockedBy};
ghost use Rattle.nogood_set.specs.Blocking.{IsAtMost};

use ntfe_model::{Nogood, Part};

/// Whether the part is in the head.
fn has_part(head: &[u32], part: &Part) -> bool
    ensures { IsTrue result ↔ ((part.now.face < length head.now) × (slice_index head.now part.now.face ≡ part.now.item)) }
{
    let face = part.face as usize;
    face < head.len() && head[face] == part.item
}

/// Whether each part of the certificate is in the head.
pub fn is_blocked(head: &[u32], nogood: &Nogood) -> bool
    ensures { IsTrue result ↔ IsBlockedBy head.now nogood.now }
{
    nogood
        .parts
        .as_slice()
        .iter()
        .all(|part| has_part(head, part))
}

/// The lesser of two places, as far as there are any.
pub fn first_of(one: Option<usize>, other: Option<usize>) -> Option<usize>
    ensures either { (result ≡ one) ⊎ (result ≡ other) }
    ensures least { (k : ℕ) → IsAtMost one k ⊎ IsAtMost other k → IsAtMost result k }
{
    match (one, other) {
        (Some(one), Some(other)) => Some(one.min(other)),
        (one, None) => one,
        (None, other) => other,
    }
}
