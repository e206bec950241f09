//! The heights that the solver found on the way to a key, and whether they lift folds.
ghost use Rattle.std.specs.Prelude.{◌≡◌, true, false, pos, ◌<ℤ◌, All, OnOk, IfOk};
ghost use Rattle.ntfe_model.specs.Choices.{height, fold_value, IsSmallFold};
ghost use Rattle.node_probe.specs.Lifted.{LiftsAll, AreLifted};

use ntfe_model::Fold;
use std::alloc::{AllocError, Global};
use std::marker::Model;

/// The height of the point with this number, 0 where there is none.
fn height_of(heights: &[i64], point: u32) -> i64
    ensures { result ≡ height heights.now point }
{
    let place = point.saturating_sub(1) as usize;
    if place < heights.len() {
        heights[place]
    } else {
        0
    }
}

/// The value of the fold at the heights.
fn value_at(heights: &[i64], fold: &Fold) -> i128
    requires { IsSmallFold fold.now }
    ensures { result ≡ fold_value heights.now fold.now }
{
    let first = i128::from(fold.alpha) * i128::from(height_of(heights, fold.a));
    let second = i128::from(fold.beta) * i128::from(height_of(heights, fold.b));
    let third = i128::from(height_of(heights, fold.c));
    let fourth = i128::from(height_of(heights, fold.d));
    third + fourth - first - second
}

/// Whether the fold is positive at the heights.
fn lift(heights: &[i64], fold: &Fold) -> bool
    requires { IsSmallFold fold.now }
    ensures when_true { result ≡ true → pos 0 <ℤ fold_value heights.now fold.now }
    ensures when_false { result ≡ false → ¬ (pos 0 <ℤ fold_value heights.now fold.now) }
{
    value_at(heights, fold) > 0
}

/// Whether each fold is positive at the heights.
fn lift_all(heights: &[i64], folds: &[Fold]) -> bool
    requires { All IsSmallFold folds.now }
    ensures when_true { result ≡ true → LiftsAll heights.now folds.now }
    ensures when_false { result ≡ false → ¬ (LiftsAll heights.now folds.now) }
{
    for fold in folds {
        if !lift(heights, fold) {
            return false;
        }
    }
    true
}

/// Heights that lifted folds, none at first. Contracts see the list.
#[derive(Drop)]
pub struct KeptHeights {
    heights: Vec<i64>,
}

impl Model for KeptHeights {
    ghost use Rattle.std.specs.Prelude.{List, ℤ};

    ghost Value = { List ℤ };

    ghost view = { λ h. h.heights.items };
}

impl KeptHeights {
    ghost use Rattle.std.specs.Prelude.{[]};

    /// No heights yet.
    pub fn new(alloc: Global) -> KeptHeights
        ensures { result ≡ [] }
    {
        KeptHeights {
            heights: Vec::new(alloc),
        }
    }

    /// Keeps these heights in place of the others. It takes memory only where these are more than any before.
    ///
    /// # Errors
    /// `AllocError` where memory is short.
    pub fn keep(&mut self, heights: &[i64]) -> Result<(), AllocError>
        ensures { OnOk result (self.new ≡ heights.now) }
    {
        self.heights.clear();
        self.heights.extend_from_slice(heights)
    }

    /// The kept heights.
    pub fn as_slice(&self) -> &[i64]
        ensures { result.now ≡ self.now }
    {
        self.heights.as_slice()
    }
}

/// For each two-face, heights that lifted the folds of the last key that ended there and was lifted. Where
/// keys are probed one after the other, in lexicographic order, those of the two-face before are thus the
/// heights of a key's stem. Contracts see the lists.
#[derive(Drop)]
pub struct StemHeights {
    faces: Vec<KeptHeights>,
}

impl Model for StemHeights {
    ghost use Rattle.std.specs.Prelude.{List, ℤ};

    ghost Value = { List (List ℤ) };

    ghost view = { λ s. s.faces.items };
}

impl StemHeights {
    ghost use Rattle.std.specs.Prelude.{[], replicate, slice_set};

    /// No heights yet, for so many two-faces.
    ///
    /// # Errors
    /// `AllocError` where memory is short.
    pub fn new(alloc: Global, count: usize) -> Result<StemHeights, AllocError>
        ensures { IfOk result (λ s. s ≡ replicate count []) }
    {
        let mut faces = Vec::with_capacity(alloc, count)?;
        for _face in 0..count {
            faces.push(KeptHeights::new(alloc))?;
        }
        Ok(StemHeights { faces })
    }

    /// Keeps heights that lift a key which ends at this two-face, if there is such a one.
    ///
    /// # Errors
    /// `AllocError` where memory is short.
    pub fn keep(&mut self, face: usize, heights: &[i64]) -> Result<(), AllocError>
        ensures { OnOk result (self.new ≡ slice_set self.old face heights.now) }
    {
        if face < self.faces.len() {
            self.faces[face].keep(heights)?;
        }
        Ok(())
    }

    /// Whether the heights of the two-face before, one for each point, lift the folds of a key that ends at
    /// this two-face. Then they are kept for it too.
    ///
    /// # Errors
    /// `AllocError` where memory is short.
    pub fn lift(&mut self, face: usize, folds: &[Fold], points: usize) -> Result<bool, AllocError>
        requires { All IsSmallFold folds.now }
        ensures { IfOk result (λ lifted. lifted ≡ true → AreLifted points folds.now) }
    {
        if face == 0 || self.faces.len() <= face {
            return Ok(false);
        }
        let (stems, keys) = self.faces.split_at_mut(face);
        let heights = stems[face - 1].as_slice();
        if heights.len() != points || !lift_all(heights, folds) {
            return Ok(false);
        }
        keys[0].keep(heights)?;
        Ok(true)
    }
}
