//! The deque from which a seat steals.
ghost use Rattle.std.specs.Prelude.{◌≡◌, ◌++◌, ◌∷◌, [], ◌<◌, ◌⊎◌, IfOk, IfSome, IfNone};
ghost use Rattle.crossbeam_deque.specs.Handles.{IsPassOf, view, worker_deque, worker_view, worker_flavor};
ghost use Rattle.steal_ring.specs.Conservation.{history, WasEmpty};
ghost use Rattle.steal_ring.specs.Seats.{VictimView};

use crate::conservation::{OnePart, Owner, Takes, Thief, ThiefPass};
use crossbeam_deque::Steal;
use ntfe_model::Key;
use std::alloc::{AllocError, Global};
use std::marker::Model;

/// The capacity of a new deque, in keys.
const FIRST_CAPACITY: usize = 16;

/// Another seat's deque, as a thief sees it.
#[derive(Drop)]
pub struct Victim {
    thief: Thief,
    pass: ThiefPass,
}

impl Model for Victim {
    ghost use Rattle.std.specs.Prelude.{◌≡◌, []};
    ghost use Rattle.crossbeam_deque.specs.Handles.{view as known, taken, IsPassOf, stealer_deque, stealer_flavor};
    ghost use Rattle.steal_ring.specs.Seats.{VictimView};

    ghost Value = { VictimView };

    ghost view = { λ v. record { deque = (stealer_deque v.thief).0; stolen = (known v.pass).taken; seen = taken v.pass } };

    ghost invariant = { λ v. (stealer_flavor v.thief ≡ 0) × IsPassOf (stealer_deque v.thief) v.pass × ((known v.pass).parts ≡ 1) × ((known v.pass).put ≡ []) };
}

/// An empty deque: its owner's end, and the same as a victim.
pub fn new_deque(alloc: Global) -> Result<(Owner, Victim), AllocError>
    ensures { IfOk result (λ r. (r.1.deque ≡ (worker_deque r.0).0) × (r.1.stolen ≡ []) × (worker_flavor r.0 ≡ 0) × (worker_view r.0 ≡ history 1 [] [])) }
{
    let mut own = Owner::fifo_as(alloc, FIRST_CAPACITY)?;
    let thief = own.stealer()?;
    let pass = own.another::<OnePart>();
    Ok((own, Victim { thief, pass }))
}

impl Victim {
    /// Tries once to take the deque's oldest key. Takes no memory.
    pub fn steal(&mut self) -> Option<Key>
        ensures some { IfSome result (λ key. self.new ≡ record self.old { stolen = self.old.stolen ++ key ∷ []; seen = self.new.seen }) }
        ensures none { IfNone result ((self.new ≡ record self.old { seen = self.new.seen }) × (WasEmpty (history 1 [] self.old.stolen) ⊎ (self.old.seen < self.new.seen))) }
    {
        match self.thief.steal_as::<Takes>(&mut self.pass) {
            Steal::Success(key) => Some(key),
            Steal::Empty => None,
            Steal::Retry => None,
        }
    }

    /// The pass over the deque, which its owner can join to its own.
    pub fn into_pass(self, own: &Owner) -> ThiefPass
        requires { self.deque ≡ (worker_deque own.now).0 }
        ensures { IsPassOf (worker_deque own.now) result × (view result ≡ history 1 [] self.stolen) }
    {
        let Victim { thief: _, pass } = self;
        let _ = own;
        pass
    }
}
