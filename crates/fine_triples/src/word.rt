//! The word of a fine triangulation.
ghost use Rattle.std.specs.Prelude.{◌≡◌, ◌↔◌, List as Items, IfOk};
ghost use Rattle.ntfe_model.specs.Triangulations.{IsFine, IsTripleOf};
ghost use Rattle.ntfe_model.specs.Words.{IsWordOf};
ghost use Rattle.ntfe_model.specs.declared.triangle.Triangle.{Triangle};

use crate::triples::third_point;
use crate::waiting::take_side;
use face_chart::Chart;
use ntfe_model::{List, Triangle};
use std::alloc::{AllocError, Global};

/// The word of a fine triangulation, and no other set of triples has it: the boundary steps wait at
/// first, and each number is the third point of the triple at the least step that waits.
///
/// # Errors
///
/// An `AllocError` where memory runs out.
pub fn word_of(
    alloc: Global,
    chart: &Chart,
    triangles: &[Triangle],
) -> Result<List<u32>, AllocError>
    requires { IsFine chart.now triangles.now }
    ensures word { IfOk result (λ w. IsWordOf chart.now triangles.now w) }
    ensures fixed { IfOk result (λ w. (us : Items Triangle) → IsWordOf chart.now us w → (t : Triangle) → IsTripleOf triangles.now t ↔ IsTripleOf us t) }
{
    let boundary = chart.boundary();
    let mut waiting = Vec::from_slice(alloc, boundary)?;
    let mut word = Vec::new(alloc);
    while !waiting.is_empty() {
        let (a, b) = waiting.remove(0);
        let c = third_point(triangles, a, b);
        word.push(c)?;
        take_side(&mut waiting, (b, c))?;
        take_side(&mut waiting, (c, a))?;
    }
    Ok(List::from_vec(word))
}
