//! The items of two-faces, lent from a shelf that many workers share.
#![tactic(auto)]

mod cells;
mod handed;
mod held;
mod segment;
mod shelf;
mod shelf_book;
mod taking;
#[cfg(test)]
mod tests;

pub use handed::Handed;
pub use segment::Segment;
pub use shelf::Shelf;
pub use shelf_book::ShelfBook;
