//! Equal values of lists whose items own memory.
ghost use Rattle.std.specs.Prelude.{◌≡◌, IfOk};

use crate::face::Face;
use crate::list::List;
use crate::point::Point;
use std::alloc::{AllocError, Global};

/// What can be made again, equal to the first.
pub trait Cloned {
    /// An equal value.
    fn cloned(&self, alloc: Global) -> Result<Self, AllocError>
        ensures { IfOk result (λ x. x ≡ self.now) };
}

impl Cloned for Point {
    fn cloned(&self, alloc: Global) -> Result<Point, AllocError> {
        let facets = self.facets.try_clone(alloc)?;
        Ok(Point {
            place: self.place,
            facets,
        })
    }
}

impl Cloned for Face {
    fn cloned(&self, alloc: Global) -> Result<Face, AllocError> {
        let points = self.points.try_clone(alloc)?;
        Ok(Face {
            first: self.first,
            second: self.second,
            points,
        })
    }
}

/// An equal list.
pub fn cloned_list<T: Cloned + Drop>(alloc: Global, items: &[T]) -> Result<List<T>, AllocError>
    ensures { IfOk result (λ l. l ≡ items.now) }
{
    let mut copies = Vec::with_capacity(alloc, items.len())?;
    for item in items {
        copies.push(item.cloned(alloc)?)?;
    }
    Ok(List::from_vec(copies))
}
