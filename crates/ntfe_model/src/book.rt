//! The items of one geometry, fetched by their numbers.
ghost use Rattle.std.specs.Prelude.{◌≡◌, ◌<◌, ◌≤◌, ℕ, Option, None, Some, length, IfOk, MatchBool, MatchOption};
ghost use Rattle.ntfe_model.specs.Shapes.{Shape};
ghost use Rattle.ntfe_model.specs.Charts.{patch_at};
ghost use Rattle.ntfe_model.specs.Words.{IsItem, HasItem};
ghost use Rattle.ntfe_model.specs.Keys.{item_limit};
ghost use Rattle.ntfe_model.specs.Books.{KeepsItem, KeepsAll};
ghost use Rattle.ntfe_model.specs.declared.triangulation.Triangulation.{Triangulation};

use crate::triangulation::Triangulation;
use std::alloc::AllocError;

/// The item limit: items of a two-face from this number on are out of reach.
pub const ITEM_LIMIT: u32 = 1_048_576;

/// The items of one geometry's two-faces, which are kept as they are fetched. An item is the fine
/// triangulation of the two-face with this number, from 0, in order of words.
pub trait Book {
    /// The geometry.
    ghost shape: { Self → Shape };

    /// The item of a two-face and a number, where it was fetched.
    ghost keeps: { Self → ℕ → ℕ → Option Triangulation };

    /// Whether the two-face has an item of this number, which `kept` gives from now on. All that was
    /// kept stays, also where memory is short.
    ///
    /// # Errors
    /// `AllocError` where memory is short.
    fn fetch(&mut self, face: u32, number: u32) -> Result<bool, AllocError>
        requires face { face < length (shape self.old).faces }
        requires number { number ≤ item_limit (shape self.old) }
        ensures shape { shape self.new ≡ shape self.old }
        ensures kept { KeepsAll (keeps self.old) (keeps self.new) }
        ensures answer { IfOk result (λ found. MatchBool found (KeepsItem (keeps self.new) face number) (¬ (HasItem (shape self.old) face number))) };

    /// The item of this number; none where it was not fetched. Takes no memory.
    fn kept(&self, face: u32, number: u32) -> Option<&Triangulation>
        requires face { face < length (shape self.now).faces }
        requires number { number ≤ item_limit (shape self.now) }
        ensures value { MatchOption result (keeps self.now face number ≡ None) (λ x. keeps self.now face number ≡ Some x.now) }
        ensures item { MatchOption result (Unit {0}) (λ x. IsItem (patch_at (shape self.now) face) number x.now) };
}
