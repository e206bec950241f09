//! The board of open keys: which choices are still to be looked at, and what was found.
#![tactic(auto)]

mod board;
mod changes;
mod laws;
mod opening;
mod order;
mod outcome;
mod record;
mod rows;
mod start;
mod totals;
mod verdict;

pub use board::Board;
pub use laws::{classes_have_no_gaps, totals_count_the_calls};
pub use outcome::Outcome;
pub use totals::Totals;
pub use verdict::{Settled, Verdict};

#[cfg(test)]
mod tests;
