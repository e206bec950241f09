//! A star triangulation.

use ntfe_model::List;

/// The simplices of a star triangulation, each without the origin: four point numbers, counted from 1 and rising.
#[derive(Drop)]
pub struct Star {
    pub simplices: List<[u32; 4]>,
}
