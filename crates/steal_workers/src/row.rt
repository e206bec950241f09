//! The outcomes that a server takes at once.
ghost use Rattle.std.specs.Prelude.{◌≡◌, ◌<◌, ◌≤◌, ◌↔◌, ◌++◌, [], ◌∷◌, length, IfOk, IsTrue, MatchBool, MatchOption};

use choice_board::Outcome;
use std::alloc::{AllocError, Global};
use std::collections::VecDeque;
use std::marker::Model;

/// How many outcomes a row has room for.
const ROOM: usize = 64;

/// Outcomes in the order in which a board handed them out. Its memory is taken when it is made, so it can be filled under
/// a lock. Contracts see the list.
#[derive(Drop)]
pub struct Row {
    outcomes: VecDeque<Outcome>,
}

impl Model for Row {
    ghost use Rattle.std.specs.Prelude.{◌≤◌, List};
    ghost use Rattle.std.specs.VecDeque.{deque_capacity};
    ghost use Rattle.choice_board.specs.declared.outcome.Outcome.{Outcome};

    ghost Value = { List Outcome };

    ghost view = { λ r. r.outcomes.items };

    ghost invariant = { λ r. 64 ≤ deque_capacity r.outcomes };
}

impl Row {
    /// An empty row.
    ///
    /// # Errors
    /// `AllocError` where memory is short.
    pub fn new(alloc: Global) -> Result<Row, AllocError>
        ensures { IfOk result (λ r. r ≡ []) }
    {
        let outcomes = VecDeque::with_capacity(alloc, ROOM)?;
        Ok(Row { outcomes })
    }

    /// Whether it has no outcome.
    pub fn is_empty(&self) -> bool
        ensures { IsTrue result ↔ (self.now ≡ []) }
    {
        self.outcomes.is_empty()
    }

    /// Whether it has no room left.
    pub fn is_full(&self) -> bool
        ensures { MatchBool result (64 ≤ length self.now) (length self.now < 64) }
    {
        self.outcomes.len() >= ROOM
    }

    /// Drops what it has.
    pub fn clear(&mut self)
        ensures { self.new ≡ [] }
    {
        self.outcomes.clear();
    }

    /// Puts an outcome behind the others. Takes no memory.
    pub fn push(&mut self, outcome: Outcome)
        requires { length self.old < 64 }
        ensures { self.new ≡ self.old ++ outcome ∷ [] }
    {
        if self.outcomes.push_back(outcome).is_err() {
            unreachable!();
        }
    }

    /// Takes out the first outcome.
    pub fn pop(&mut self) -> Option<Outcome>
        ensures { MatchOption result (self.old ≡ []) (λ o. self.old ≡ o ∷ self.new) }
    {
        self.outcomes.pop_front()
    }
}
