//! The folds of a head.
ghost use Rattle.std.specs.Prelude.{◌≡◌, [], ◌++◌, length, replicate, OnOk};

use ntfe_model::Fold;
use std::alloc::{AllocError, Global};

/// The folds of a head, with the two-face of each, from 0.
#[derive(Drop)]
pub struct HeadRows {
    pub folds: Vec<Fold>,
    pub faces: Vec<u32>,
}

impl HeadRows {
    /// No folds, without memory.
    pub fn new(alloc: Global) -> HeadRows
        ensures folds { result.folds.items ≡ [] }
        ensures faces { result.faces.items ≡ [] }
    {
        HeadRows {
            folds: Vec::new(alloc),
            faces: Vec::new(alloc),
        }
    }

    /// Drops the folds, and keeps the memory.
    pub fn clear(&mut self)
        ensures folds { self.new.folds.items ≡ [] }
        ensures faces { self.new.faces.items ≡ [] }
    {
        self.folds.clear();
        self.faces.clear();
    }
}

/// Adds the folds of a two-face.
pub fn add_rows(rows: &mut HeadRows, face: u32, folds: &[Fold]) -> Result<(), AllocError>
    ensures folds { OnOk result (rows.new.folds.items ≡ rows.old.folds.items ++ folds.now) }
    ensures faces { OnOk result (rows.new.faces.items ≡ rows.old.faces.items ++ replicate (length folds.now) face) }
{
    rows.folds.extend_from_slice(folds)?;
    for _fold in 0..folds.len() {
        rows.faces.push(face)?;
    }
    Ok(())
}
