//! Why there is no list of points.
use thiserror::Error;

/// Why a polytope's points are not listed.
#[derive(Debug, Drop, PartialEq, Eq, Error)]
pub enum PointFault {
    /// The vertices' bounding box has this many columns, which is over 16,777,216.
    #[error("the bounding box has {columns} columns")]
    TooWide { columns: u64 },
    /// There are this many points, which is over 400.
    #[error("there are {count} points")]
    TooMany { count: u64 },
    /// There was no memory.
    #[error("out of memory")]
    Memory,
}
