//! A reflexive pair from a number: the product of two polygons.
#![tactic(auto)]

mod pairs;
mod polygons;
#[cfg(test)]
mod tests;

pub use pairs::demo;
