//! The chart of a two-face: its points, the turn of three of them, unit triples and boundary steps.
#![tactic(auto)]

mod charting;
mod charts;
mod segment;
mod span;
mod steps;
mod table;
mod units;

pub use charting::chart;
pub use charts::Chart;
pub use segment::{difference, is_on_segment, product};
pub use table::is_same_place;
