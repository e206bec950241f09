//! The items of a head, fetched.
ghost use Rattle.std.specs.Prelude.{◌≡◌, ◌<◌, ◌≤◌, ◌^◌, length, IfOk, MatchBool};
ghost use Rattle.ntfe_model.specs.Words.{HasItem};
ghost use Rattle.ntfe_model.specs.Books.{KeepsItem, KeepsAll};
ghost use Rattle.ntfe_model.specs.Keys.{item_limit, AllItemsExist, IsKey, IsEnd};
ghost use Rattle.node_probe.specs.Heads.{KeepsHead};

use ntfe_model::{Book, Key};
use std::alloc::AllocError;

/// Whether the two-face has an item of this number; the book then keeps it.
fn has_item<B: Book>(book: &mut B, face: u32, number: u32) -> Result<bool, AllocError>
    requires face { face < length (B.shape book.old).faces }
    requires number { number ≤ item_limit (B.shape book.old) }
    ensures shape { B.shape book.new ≡ B.shape book.old }
    ensures kept { KeepsAll (B.keeps book.old) (B.keeps book.new) }
    ensures answer { IfOk result (λ found. MatchBool found (KeepsItem (B.keeps book.new) face number × HasItem (B.shape book.old) face number) (¬ (HasItem (B.shape book.old) face number))) }
{
    if !book.fetch(face, number)? {
        return Ok(false);
    }
    Ok(book.kept(face, number).is_some())
}

/// Whether all items of the key's head exist; the book then keeps them.
pub fn fetch_head<B: Book>(book: &mut B, key: &Key) -> Result<bool, AllocError>
    requires key { IsKey (B.shape book.old) key.now }
    requires few { length key.now < 2 ^ 32 }
    ensures shape { B.shape book.new ≡ B.shape book.old }
    ensures kept { KeepsAll (B.keeps book.old) (B.keeps book.new) }
    ensures answer { IfOk result (λ found. MatchBool found (KeepsHead (B.keeps book.new) key.now × AllItemsExist (B.shape book.old) key.now) (IsEnd (B.shape book.old) key.now)) }
{
    let numbers = key.0.as_slice();
    for face in 0..numbers.len() {
        if !has_item(book, face as u32, numbers[face])? {
            return Ok(false);
        }
    }
    Ok(true)
}
