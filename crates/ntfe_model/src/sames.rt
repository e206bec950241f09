//! Whether parts of a geometry are equal.
ghost use Rattle.std.specs.Prelude.{◌≡◌, ◌↔◌, IsTrue};

use crate::face::Face;
use crate::point::Point;
use crate::vector::Vec4;

/// What can be compared with another of its kind.
pub trait Same {
    /// Whether the two are equal.
    fn is_same(&self, other: &Self) -> bool
        ensures { IsTrue result ↔ (self.now ≡ other.now) };
}

impl Same for Vec4 {
    fn is_same(&self, other: &Vec4) -> bool {
        self.coordinates() == other.coordinates()
    }
}

impl Same for Point {
    fn is_same(&self, other: &Point) -> bool {
        self.place.is_same(&other.place) && self.facets.as_slice() == other.facets.as_slice()
    }
}

impl Same for Face {
    fn is_same(&self, other: &Face) -> bool {
        self.first == other.first
            && self.second == other.second
            && self.points.as_slice() == other.points.as_slice()
    }
}

/// Whether two lists are equal.
pub fn are_same<T: Same>(items: &[T], others: &[T]) -> bool
    ensures { IsTrue result ↔ (items.now ≡ others.now) }
{
    if items.len() != others.len() {
        return false;
    }
    for (i, item) in items.iter().enumerate() {
        if !item.is_same(&others[i]) {
            return false;
        }
    }
    true
}
