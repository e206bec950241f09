//! What the words of the command line mean.
#![tactic(auto)]

mod command;
mod command_line;
mod fault;
mod given;
mod meaning;
mod number;
mod options;

pub use command::{Command, Options};
pub use fault::WordFault;
pub use meaning::read_words;

#[cfg(test)]
mod tests;
