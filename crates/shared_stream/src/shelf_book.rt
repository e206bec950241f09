//! The items of a geometry, lent from a shelf.
ghost use Rattle.std.specs.Prelude.{◌≡◌, ℕ, ◌<◌, [], None, length, IfOk, All};
ghost use Rattle.shared_stream.specs.Held.{HasRows};

use crate::held::HeldSegments;
use crate::shelf::Shelf;
use ntfe_model::{Book, Geometry, Triangulation};
use std::alloc::{AllocError, Global};
use std::marker::Model;

/// The items of a geometry's two-faces, each lent from the shelf. A segment is kept here only where the shelf's cell held
/// another one.
#[derive(Drop)]
pub struct ShelfBook<'s> {
    shelf: &'s Shelf,
    rows: Vec<HeldSegments<'s>>,
}

impl<'s> Model for ShelfBook<'s> {
    ghost use Rattle.shared_stream.specs.Held.{LentItems, HasRows};

    ghost Value = { LentItems };

    ghost view = { λ b. record { shape = b.shelf.now; rows = b.rows.items } };

    ghost invariant = { λ b. HasRows b.shelf.now b.rows.items };
}

/// A row for each two-face, with no segment yet.
fn new_rows<'s>(
    alloc: Global,
    shelf: &'s Shelf,
    geometry: &Geometry,
) -> Result<Vec<HeldSegments<'s>>, AllocError>
    requires { shelf.now ≡ geometry.now }
    ensures rows { IfOk result (λ v. HasRows geometry.now v.items) }
    ensures nothing { IfOk result (λ v. All (λ r. r.stretches ≡ []) v.items) }
{
    let mut rows = Vec::new(alloc);
    for face in 0..geometry.faces().len() {
        rows.push(HeldSegments::new(alloc, shelf.row(face as u32)))?;
    }
    Ok(rows)
}

impl<'s> ShelfBook<'s> {
    ghost use Rattle.shared_stream.specs.Held.{lent_item};

    /// The book of the shelf's geometry, which keeps nothing yet.
    ///
    /// # Errors
    /// `AllocError` where memory is short.
    pub fn new(
        alloc: Global,
        shelf: &'s Shelf,
        geometry: &Geometry,
    ) -> Result<ShelfBook<'s>, AllocError>
        requires { shelf.now ≡ geometry.now }
        ensures shape { IfOk result (λ b. b.shape ≡ geometry.now) }
        ensures nothing { IfOk result (λ b. (face number : ℕ) → lent_item b face number ≡ None) }
    {
        let rows = new_rows(alloc, shelf, geometry)?;
        Ok(ShelfBook { shelf, rows })
    }
}

impl<'s> Book for ShelfBook<'s> {
    ghost use Rattle.shared_stream.specs.Held.{lent_item};

    ghost shape = { λ b. b.shape };

    ghost keeps = { λ b. lent_item b };

    fn fetch(&mut self, face: u32, number: u32) -> Result<bool, AllocError> {
        let row = &mut self.rows[face as usize];
        let found = row.fetch(number)?;
        Ok(found)
    }

    fn kept(&self, face: u32, number: u32) -> Option<&Triangulation> {
        self.rows[face as usize].item(number)
    }
}
