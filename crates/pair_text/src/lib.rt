//! Pair text, read and written.
#![tactic(auto)]

mod fault;
mod line;
mod number;
mod output;
mod reading;
mod writing;

pub use fault::TextFault;
pub use output::split_at_output;
pub use reading::read_pair;
pub use writing::write_pair;

#[cfg(test)]
mod tests;
