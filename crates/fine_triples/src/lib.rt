//! Fine triangulations of a two-face, by their definition alone: plain and slow, for other programs to be compared with.
#![tactic(auto)]

mod conditions;
mod crossings;
mod fine;
mod meeting;
mod segments;
mod triples;
mod waiting;
mod word;

pub use fine::is_fine;
pub use segments::crosses;
pub use word::word_of;

#[cfg(test)]
mod tests;
