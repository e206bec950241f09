//! Certificates, and the first of them that blocks a key.
#![tactic(auto)]

mod blocking;
mod set;
#[cfg(test)]
mod tests;

pub use set::NogoodSet;
