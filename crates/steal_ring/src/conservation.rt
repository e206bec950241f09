//! The rule of one deque: each key that was put into it was taken, or is in it.
ghost use Rattle.std.specs.Prelude.{◌≡◌, ◌++◌, ◌≤◌, ℕ, length};
ghost use Rattle.steal_ring.specs.Conservation.{history, weigh, WasEmpty};

use crossbeam_deque::protocol::{Join, Outcome, Protocol, Split};
use crossbeam_deque::{Pass, Stealer, Worker};
use ntfe_model::Key;
use std::alloc::Global;
use std::collections::LinkedList;

/// What was put and taken through one pass, and how many parts of the right to know the whole deque it has. Only
/// clauses speak of it: no value is made.
pub struct History {
    pub parts: u64,
    pub put: LinkedList<Key>,
    pub taken: LinkedList<Key>,
}

/// Each key that was put was taken or is in the deque, as often as it was put.
pub struct Conserved;

impl Protocol<Key, History> for Conserved {
    ghost use Rattle.std.specs.Prelude.{[]};
    ghost use Rattle.steal_ring.specs.Conservation.{history, IsConserved};

    ghost holds = { IsConserved };

    ghost first = { history 2 [] [] };

    ghost guest = { history 0 [] [] };
}

/// One part goes to a new pass, and comes back with its history.
pub struct OnePart;

impl Split<History> for OnePart {
    ghost use Rattle.std.specs.Prelude.{[], ◌-◌};
    ghost use Rattle.steal_ring.specs.Conservation.{history};

    ghost left = { λ v. history (v.parts - 1) v.put v.taken };

    ghost right = { λ v. history 1 [] [] };
}

impl Join<History> for OnePart {
    ghost use Rattle.std.specs.Prelude.{[], ◌+◌, ◌++◌};
    ghost use Rattle.steal_ring.specs.Conservation.{history};

    ghost both = { λ v w. history (v.parts + w.parts) (v.put ++ w.put) (v.taken ++ w.taken) };

    ghost spent = { history 0 [] [] };
}

/// The owner puts a key.
pub struct Puts;

impl Outcome<Key, History> for Puts {
    ghost then = { λ v xs w. w ≡ history v.parts (v.put ++ xs) v.taken };
}

/// The owner or a thief takes a key, or finds none.
pub struct Takes;

impl Outcome<Key, History> for Takes {
    ghost then = { λ v xs w. w ≡ history v.parts v.put (v.taken ++ xs) };

    ghost empty = { λ v. WasEmpty v };
}

/// A pass that has both parts takes a key, or finds that all were taken.
pub struct TakesRest;

impl Outcome<Key, History> for TakesRest {
    ghost then = { λ v xs w. (w ≡ history v.parts v.put (v.taken ++ xs)) × (length w.taken ≤ length w.put) };

    ghost empty = { λ v. (h : _ → ℕ) → weigh h v.put ≡ weigh h v.taken };
}

/// The end of a deque that its seat holds.
pub type Owner = Worker<Key, Global, History, Conserved>;

/// The end of a deque that the left neighbour's seat holds.
pub type Thief = Stealer<Key, Global, History, Conserved>;

/// What the left neighbour's seat knows of that deque.
pub type ThiefPass = Pass<Key, History, Global>;
