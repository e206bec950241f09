//! The folds of a fine triangulation of a two-face: one linear form in heights for each inner edge.
#![tactic(auto)]

mod edges;
mod factor;
mod sides;

pub use edges::folds;
