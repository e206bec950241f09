//! The items of a geometry, shared by many workers.
ghost use Rattle.std.specs.Prelude.{◌≡◌, ◌<◌, ◌≤◌, length, map, IfOk};
ghost use Rattle.ntfe_model.specs.Charts.{patch_of, patch_at};
ghost use Rattle.shared_stream.specs.Hands.{IsHanded};

use crate::cells::Cells;
use crate::handed::Handed;
use face_chart::chart;
use ntfe_model::Geometry;
use std::alloc::{AllocError, Global};
use std::marker::Model;

/// The items of a geometry's two-faces in segments, each made once and then lent for the shelf's life. Workers share it
/// by reference, and none waits for another: where two make one segment at a time, that of the first to finish stays.
///
/// Beside the geometry and its charts an empty shelf takes about 600 bytes for each two-face and 16 for each of its points,
/// and then 512 bytes for each 16,384 items of a two-face that are asked for. From 4,096 items of a two-face on its segments
/// share tables of its unit triples, of at most 900 kilobytes.
#[derive(Drop)]
pub struct Shelf {
    geometry: Geometry,
    rows: Vec<Cells>,
}

impl Model for Shelf {
    ghost use Rattle.std.specs.Prelude.{◌≡◌, map};
    ghost use Rattle.ntfe_model.specs.Shapes.{Shape};
    ghost use Rattle.ntfe_model.specs.Charts.{patch_of};

    ghost Value = { Shape };

    ghost view = { λ s. s.geometry };

    ghost invariant = { λ s. s.rows.items ≡ map (patch_of s.geometry.points) s.geometry.faces };
}

/// The cells of each two-face, with no segment yet.
fn new_rows(alloc: Global, geometry: &Geometry) -> Result<Vec<Cells>, AllocError>
    ensures { IfOk result (λ v. v.items ≡ map (patch_of geometry.now.points) geometry.now.faces) }
{
    let mut rows = Vec::new(alloc);
    for face in 0..geometry.faces().len() {
        rows.push(Cells::new(alloc, chart(alloc, geometry, face as u32)?)?)?;
    }
    Ok(rows)
}

impl Shelf {
    /// The shelf of a geometry, with no segment yet.
    ///
    /// # Errors
    /// `AllocError` where memory is short.
    pub fn new(alloc: Global, geometry: &Geometry) -> Result<Shelf, AllocError>
        ensures { IfOk result (λ s. s ≡ geometry.now) }
    {
        let rows = new_rows(alloc, geometry)?;
        let geometry = geometry.try_clone(alloc)?;
        Ok(Shelf { geometry, rows })
    }

    /// The cells of a two-face. Takes no memory.
    pub(crate) fn row(&self, face: u32) -> &Cells
        requires { face < length self.now.faces }
        ensures { result.now ≡ patch_at self.now face }
    {
        &self.rows[face as usize]
    }

    /// The segment of a two-face, lent for the shelf's life. `Own` comes only where the cell held another segment, and
    /// `Past` exactly where the two-face has only so many segments, and the number is not below. Missing earlier
    /// segments are made on the way.
    ///
    /// # Errors
    /// `AllocError` where memory is short. Segments that were made stay.
    pub fn segment(&self, alloc: Global, face: u32, number: u32) -> Result<Handed<'_>, AllocError>
        requires face { face < length self.now.faces }
        requires number { number ≤ 4096 }
        ensures { IfOk result (IsHanded (patch_at self.now face) number) }
    {
        self.row(face).segment(alloc, number)
    }
}
