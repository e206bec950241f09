//! The next items of a stream.
ghost use Rattle.std.specs.Prelude.{◌≡◌, ℕ, IfOk};
ghost use Rattle.fine_stream.specs.Cursors.{StandsBefore};
ghost use Rattle.shared_stream.specs.Taken.{Takes};

use fine_stream::LentStream;
use ntfe_model::Triangulation;
use std::alloc::{AllocError, Global};

/// A segment has so many items, or as many as there are.
pub const SEGMENT_ITEMS: u32 = 256;

/// The next 256 items of a stream, or those of them that exist.
pub fn next_items(
    alloc: Global,
    stream: &mut LentStream<'_>,
) -> Result<Vec<Triangulation>, AllocError>
    ensures patch { stream.new.patch ≡ stream.old.patch }
    ensures items { IfOk result (λ v. (n : ℕ) → StandsBefore stream.old n → Takes stream.old.patch n stream.new v.items) }
{
    let mut items = Vec::new(alloc);
    for _turn in 0..SEGMENT_ITEMS {
        match stream.next()? {
            None => return Ok(items),
            Some(item) => items.push(item)?,
        }
    }
    Ok(items)
}
