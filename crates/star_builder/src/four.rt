//! Four points by their numbers.

/// The numbers of four points, counted from 1.
#[derive(Clone, Copy, Drop)]
pub struct Four {
    pub a: u32,
    pub b: u32,
    pub c: u32,
    pub d: u32,
}
