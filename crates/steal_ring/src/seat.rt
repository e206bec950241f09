//! A worker's seat.
ghost use Rattle.std.specs.Prelude.{◌≡◌, ◌++◌, ◌<◌, ◌∷◌, [], ◌⊎◌, ◌↔◌, true, OnOk, IfErr, IfSome, IfNone};
ghost use Rattle.steal_ring.specs.Conservation.{history, WasEmpty};
ghost use Rattle.steal_ring.specs.Seats.{SeatView, IsWorn, with_stolen, with_seen};
ghost use Rattle.steal_ring.specs.Faults.{HandsBack, IsWornFault};

use crate::conservation::{Owner, Puts, Takes};
use crate::victim::Victim;
use ntfe_model::Key;
use std::marker::Model;

/// Where a count of a seat stands still. No real run comes to it.
const COUNT_LIMIT: u64 = 1 << 59;

/// Why a key was not pushed, with the key.
#[derive(Drop)]
pub enum PushFault {
    /// A count of the seat stands at 2^59.
    Worn(Key),
    /// Memory is short.
    Memory(Key),
}

/// A worker's place in a ring: its own deque, and the deque of its right neighbour, from which it steals. It counts
/// the keys that it pushed, and those that it got by `pop` and `steal`. Where one of the counts stands at 2^59, `push`
/// answers `Worn`, and `pop` and `steal` answer `None`.
#[derive(Drop)]
pub struct Seat {
    pub(crate) number: u16,
    pub(crate) alone: bool,
    pub(crate) own: Owner,
    pub(crate) right: Victim,
    pub(crate) pushed: u64,
    pub(crate) got: u64,
}

impl Model for Seat {
    ghost use Rattle.std.specs.Prelude.{◌≡◌, ◌+◌, ◌≤◌, ◌^◌, length};
    ghost use Rattle.crossbeam_deque.specs.Handles.{worker_deque, worker_view, worker_flavor};
    ghost use Rattle.steal_ring.specs.Seats.{SeatView};

    ghost Value = { SeatView };

    ghost view = { λ s. record { number = s.number; alone = s.alone; own = (worker_deque s.own).0; right = s.right; put = (worker_view s.own).put; popped = (worker_view s.own).taken } };

    ghost invariant = { λ s. (worker_flavor s.own ≡ 0) × ((worker_view s.own).parts ≡ 1)
        × (s.pushed ≡ length (worker_view s.own).put) × (s.got ≡ length (worker_view s.own).taken + length s.right.stolen) × (s.pushed ≤ 2 ^ 59) × (s.got ≤ 2 ^ 59) };
}

impl Seat {
    /// The number of the seat in its ring, from 1.
    pub fn number(&self) -> u16
        ensures { result ≡ self.now.number }
    {
        self.number
    }

    /// Puts a key behind the others of the own deque. Waits for no other thread.
    ///
    /// # Errors
    /// `Worn` exactly where a count of the seat stands at 2^59, `Memory` where memory is short. The key comes back, and
    /// the seat is as before.
    pub fn push(&mut self, key: Key) -> Result<(), PushFault>
        ensures ok { OnOk result (self.new ≡ record self.old { put = self.old.put ++ key ∷ [] }) }
        ensures err { IfErr result (λ e. HandsBack e key × (IsWornFault e ↔ IsWorn self.old) × (self.new ≡ self.old)) }
    {
        if self.pushed >= COUNT_LIMIT || self.got >= COUNT_LIMIT {
            return Err(PushFault::Worn(key));
        }
        match self.own.push_as::<Puts>(key) {
            Ok(()) => {
                self.pushed += 1;
                Ok(())
            }
            Err(back) => Err(PushFault::Memory(back)),
        }
    }

    /// Takes the oldest key of the own deque. `None` only where the deque was empty at one moment of the call, or a
    /// count of the seat stands at 2^59. Takes no memory, and waits for no other thread.
    pub fn pop(&mut self) -> Option<Key>
        ensures some { IfSome result (λ key. self.new ≡ record self.old { popped = self.old.popped ++ key ∷ [] }) }
        ensures none { IfNone result ((self.new ≡ self.old) × (WasEmpty (history 1 self.old.put self.old.popped) ⊎ IsWorn self.old)) }
    {
        if self.pushed >= COUNT_LIMIT || self.got >= COUNT_LIMIT {
            return None;
        }
        let key = self.own.pop_as::<Takes>()?;
        self.got += 1;
        Some(key)
    }

    /// Tries once to take the oldest key of the right neighbour's deque. `None` only where that deque was empty at one
    /// moment of the call, another call overtook this one, so that the keys known to be taken from that deque rose, the
    /// ring has one seat, or a count of the seat stands at 2^59. Takes no memory, and waits for no other thread.
    pub fn steal(&mut self) -> Option<Key>
        ensures some { IfSome result (λ key. self.new ≡ with_stolen self.old key self.new.right.seen) }
        ensures none { IfNone result ((self.new ≡ with_seen self.old self.new.right.seen) × (WasEmpty (history 1 [] self.old.right.stolen) ⊎ (self.old.right.seen < self.new.right.seen) ⊎ (self.old.alone ≡ true) ⊎ IsWorn self.old)) }
    {
        if self.alone || self.pushed >= COUNT_LIMIT || self.got >= COUNT_LIMIT {
            return None;
        }
        let key = self.right.steal()?;
        self.got += 1;
        Some(key)
    }
}
