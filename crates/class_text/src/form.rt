//! What the text of a run depends on beside its classes.

use ntfe_model::{Pair, Push};

/// The pair, the order of pushing, whether stars are written, the numbers of points and of two-faces,
/// and the number of classes in blocks that were kept from an earlier output.
#[derive(Drop)]
pub struct TextForm {
    pub pair: Pair,
    pub push: Push,
    pub stars: bool,
    pub points: u32,
    pub faces: u32,
    pub kept: u64,
}
