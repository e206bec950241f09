//! Whether a certificate is right: folds of items that cancel.
#![tactic(auto)]

mod balance;
mod certificate;
mod folds;
mod parts;
mod terms;
mod totals;
mod triples;

pub use certificate::verify;
