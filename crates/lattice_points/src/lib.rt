//! The lattice points of a reflexive polytope that are not interior to a facet.
#![tactic(auto)]

mod bounds;
mod column;
mod fault;
mod found;
mod inequality;
mod rows;
mod scan;
mod sums;
#[cfg(test)]
mod tests;
mod tight;

pub use fault::PointFault;
pub use scan::points;
