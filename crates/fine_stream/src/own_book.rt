//! The items of a geometry, each two-face on its own.
ghost use Rattle.std.specs.Prelude.{◌≡◌, ℕ, [], None, IfOk, All};
ghost use Rattle.fine_stream.specs.Rows.{HasRows};

use crate::row::Row;
use face_chart::chart;
use ntfe_model::{Book, Geometry, Triangulation};
use std::alloc::{AllocError, Global};
use std::marker::Model;

/// The items of a geometry's two-faces, each found once and then kept.
#[derive(Drop)]
pub struct OwnBook {
    geometry: Geometry,
    rows: Vec<Row>,
}

impl Model for OwnBook {
    ghost use Rattle.fine_stream.specs.Rows.{KeptItems, HasRows};

    ghost Value = { KeptItems };

    ghost view = { λ b. record { shape = b.geometry; rows = b.rows.items } };

    ghost invariant = { λ b. HasRows b.geometry b.rows.items };
}

/// A row for each two-face, with no item yet.
fn new_rows(alloc: Global, geometry: &Geometry) -> Result<Vec<Row>, AllocError>
    ensures rows { IfOk result (λ v. HasRows geometry.now v.items) }
    ensures items { IfOk result (λ v. All (λ r. r.items ≡ []) v.items) }
{
    let mut rows = Vec::new(alloc);
    for face in 0..geometry.faces().len() {
        rows.push(Row::new(alloc, chart(alloc, geometry, face as u32)?)?)?;
    }
    Ok(rows)
}

impl OwnBook {
    ghost use Rattle.fine_stream.specs.Rows.{kept_item};

    /// The book of a geometry, which keeps nothing yet.
    ///
    /// # Errors
    /// `AllocError` where memory is short.
    pub fn new(alloc: Global, geometry: &Geometry) -> Result<OwnBook, AllocError>
        ensures shape { IfOk result (λ b. b.shape ≡ geometry.now) }
        ensures nothing { IfOk result (λ b. (face number : ℕ) → kept_item b face number ≡ None) }
    {
        let rows = new_rows(alloc, geometry)?;
        let geometry = geometry.try_clone(alloc)?;
        Ok(OwnBook { geometry, rows })
    }
}

impl Book for OwnBook {
    ghost use Rattle.fine_stream.specs.Rows.{kept_item};

    ghost shape = { λ b. b.shape };

    ghost keeps = { λ b. kept_item b };

    fn fetch(&mut self, face: u32, number: u32) -> Result<bool, AllocError> {
        let row = &mut self.rows[face as usize];
        let found = row.fetch(number as usize)?;
        Ok(found)
    }

    fn kept(&self, face: u32, number: u32) -> Option<&Triangulation> {
        self.rows[face as usize].get(number as usize)
    }
}
