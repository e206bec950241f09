//! Certificates that many threads find, and share.
#![tactic(auto)]

mod checking;
mod reader;
mod refreshing;
mod store;
#[cfg(test)]
mod tests;

pub use reader::Reader;
pub use store::{Receipt, Store};
