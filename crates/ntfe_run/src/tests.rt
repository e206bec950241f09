//! Rows that no clause shows: exact texts and statuses, and that the calls succeed. Most texts, messages and words are
//! compared by the cases that the built program is run on.

mod gates;
mod items;
mod layers;
mod pairs;
mod pool;
mod refusals;
mod runs;
mod solver;
mod stars;
mod store;
