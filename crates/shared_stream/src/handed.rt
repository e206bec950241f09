//! What a shelf hands out.

use crate::segment::Segment;

/// What a shelf hands out for a two-face and the number of a segment.
#[derive(Drop)]
pub enum Handed<'s> {
    /// The segment, lent for the shelf's life.
    Lent(&'s Segment),
    /// A new segment, only where the cell held another one, which is the second value.
    Own(Segment, &'s Segment),
    /// The two-face has only so many segments.
    Past { segments: u32 },
}
