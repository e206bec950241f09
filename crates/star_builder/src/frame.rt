//! The frame of four points, and a point as an affine combination of the four and the origin.

/// What all combinations of four points need: the size of their determinant, and for each of the four the normal whose
/// product with a point is its barycentric coordinate, times the size.
#[derive(Clone, Copy, Drop)]
pub struct Frame {
    pub size: i64,
    pub first: [i64; 4],
    pub second: [i64; 4],
    pub third: [i64; 4],
    pub fourth: [i64; 4],
}

/// A point by its barycentric coordinates: size times it is the sum of the four points, each times its coordinate.
#[derive(Clone, Copy, Drop)]
pub struct Combination {
    pub size: i128,
    pub first: i128,
    pub second: i128,
    pub third: i128,
    pub fourth: i128,
}
