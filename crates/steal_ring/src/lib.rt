//! A ring of work-stealing deques. Each worker has a seat with a deque of its own, to which it pushes keys and from
//! which it pops them; when it has none left, it steals from its right neighbour. This is work stealing after
//! Blumofe and Leiserson ("Scheduling multithreaded computations by work stealing", 1999), over the deque of Chase
//! and Lev ("Dynamic circular work-stealing deque", 2005) of `crossbeam_deque`.
//!
//! The owner takes from the same end as its thief, where the oldest key is: the oldest keys are the shortest, and have
//! the most work under them.
//!
//! What a `None` of `pop` or `steal` says: the deque took its step for an empty deque (`WasEmpty`), or one of the other
//! stated causes holds. A seat knows its own history alone, so `WasEmpty` names histories, that one among them, for
//! which the rule of the deque holds of an empty one. For a thief there always are such, so the clause can't say that
//! the deque held nothing, nor that the call tried. That both try is shown by the tests.
#![tactic(auto)]

mod closing;
mod conservation;
mod linking;
mod seat;
#[cfg(test)]
mod tests;
mod victim;

pub use closing::{Left, close};
pub use linking::Ring;
pub use seat::{PushFault, Seat};
