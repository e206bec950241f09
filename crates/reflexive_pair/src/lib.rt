//! Decides whether a pair is reflexive, and names the first cause where it is not.
#![tactic(auto)]

mod causes;
mod facets;
mod fault;
mod fours;
mod incidence;
mod planes;
mod products;
mod repeats;
#[cfg(test)]
mod tests;
mod tight;

pub use causes::check;
pub use fault::PairFault;
