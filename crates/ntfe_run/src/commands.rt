//! The commands, each with one function and one contract.

pub mod classes;
pub mod demo;
pub mod faces;
pub mod resume;
