//! A point across a ridge.

use crate::four::Four;
use crate::frame::Frame;

/// A point across the ridge, with the ridge and what all combinations of the four need.
#[derive(Clone, Copy, Drop)]
pub struct Candidate {
    pub point: u32,
    pub four: Four,
    pub frame: Frame,
}
