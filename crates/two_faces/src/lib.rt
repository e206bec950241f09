//! The two-faces of a reflexive polytope, and its geometry.
#![tactic(auto)]

mod geometries;
mod list;
mod meet;
mod numbers;
mod plane;
#[cfg(test)]
mod tests;

pub use geometries::geometry;
pub use list::faces;
