//! Where workers may be held.

/// What each worker passes before each of its turns, turn 0 included, and before it looks for work.
/// It changes nothing that a contract speaks of; tests hold workers with it.
pub trait Gate {
    /// Returns once the worker may begin this turn.
    fn at(&self, worker: u16, turn: u64);
}

/// Holds nobody.
#[derive(Clone, Copy, Drop, Debug)]
pub struct OpenGate;

impl Gate for OpenGate {
    fn at(&self, _worker: u16, _turn: u64) {}
}
