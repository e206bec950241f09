//! The exact solver: heights at which every fold is at least 1, or multipliers at which the folds cancel.
#![tactic(auto)]

mod answering;
mod basis;
mod divisor;
mod grid;
mod laws;
mod place;
mod row;
mod run;
mod scale;
mod short;
mod start;
mod stem;
mod stepping;
mod tableau;

pub use laws::{goes_on, moving_is_short, run_ends, run_is_short};
pub use run::Solved;
pub use stem::{Pushed, Stem};
pub use tableau::Tableau;
