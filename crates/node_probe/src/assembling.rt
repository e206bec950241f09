//! A certificate of a head's folds and their multipliers.
ghost use Rattle.std.specs.Prelude.{◌≡◌, ◌<◌, ◌≤◌, ◌^◌, true, false, length, All, AllPairs, IfOk, OnOk};
ghost use Rattle.node_probe.specs.Refutations.{IsLastFace, AddsPart, IsAssembled};

use crate::head::HeadRows;
use ntfe_model::{Key, List, Nogood, Part, Term};
use std::alloc::{AllocError, Global};

/// Whether the last part is of this two-face.
fn is_last_face(parts: &[Part], face: u32) -> bool
    ensures when_true { result ≡ true → IsLastFace parts.now face }
    ensures when_false { result ≡ false → ¬ (IsLastFace parts.now face) }
{
    !parts.is_empty() && parts[parts.len() - 1].face == face
}

/// Adds the part, unless the last one is of its two-face.
fn add_part(parts: &mut Vec<Part>, part: Part) -> Result<(), AllocError>
    ensures { OnOk result (AddsPart parts.old.items part parts.new.items) }
{
    if is_last_face(parts.as_slice(), part.face) {
        return Ok(());
    }
    parts.push(part)?;
    Ok(())
}

/// The certificate of the rows with these multipliers, given by row numbers from 0. Its parts are the
/// items of the head that have a row among them.
pub fn certificate(
    alloc: Global,
    key: &Key,
    rows: &HeadRows,
    multipliers: &[(u32, i64)],
) -> Result<Nogood, AllocError>
    requires few { length key.now < 2 ^ 32 }
    requires count { length rows.now.faces.items ≡ length rows.now.folds.items }
    requires within { All (λ f. f < length key.now) rows.now.faces.items }
    requires faces { AllPairs (λ e f. e ≤ f) rows.now.faces.items }
    requires known { All (λ e. e.0 < length rows.now.folds.items) multipliers.now }
    requires rising { AllPairs (λ e f. e.0 < f.0) multipliers.now }
    ensures { IfOk result (λ n. IsAssembled key.now rows.now.folds.items rows.now.faces.items multipliers.now n.parts n.terms) }
{
    let numbers = key.0.as_slice();
    let mut parts = Vec::new(alloc);
    let mut terms = Vec::new(alloc);
    for entry in multipliers {
        let (row, times) = *entry;
        let row = row as usize;
        let face = rows.faces[row];
        let item = numbers[face as usize];
        add_part(&mut parts, Part { face, item })?;
        terms.push(Term {
            part: parts.len() as u32 - 1,
            fold: rows.folds[row],
            times,
        })?;
    }
    Ok(Nogood {
        parts: List::from_vec(parts),
        terms: List::from_vec(terms),
    })
}
