//! Closing a ring.
ghost use Rattle.std.specs.Prelude.{◌≡◌, ◌++◌, ◌+◌, ℕ, length, IfOk, OnOk};
ghost use Rattle.crossbeam_deque.specs.Handles.{worker_deque, worker_view, worker_flavor};
ghost use Rattle.steal_ring.specs.Conservation.{weigh};
ghost use Rattle.steal_ring.specs.Seats.{IsRing, all_put, all_got};

use crate::conservation::{OnePart, Owner, TakesRest};
use crate::seat::Seat;
use crate::victim::Victim;
use ntfe_model::{Key, List};
use std::alloc::{AllocError, Global};

/// What is left of a ring: the keys that were pushed and not taken, the number of keys that were pushed, and the number
/// of those that were popped or stolen.
#[derive(Drop)]
pub struct Left {
    pub keys: List<Key>,
    pub pushed: u64,
    pub taken: u64,
}

/// Moves what is left in a deque to `keys`. `victim` is the same deque, as its thief saw it.
fn drain(mut own: Owner, victim: Victim, keys: &mut Vec<Key>) -> Result<(), AllocError>
    requires { (worker_flavor own ≡ 0) × ((worker_view own).parts ≡ 1) × (victim.deque ≡ (worker_deque own).0) }
    ensures { OnOk result ((rest : _) × (keys.new.items ≡ keys.old.items ++ rest) × ((h : _ → ℕ) → weigh h (worker_view own).put ≡ weigh h (worker_view own).taken + weigh h victim.stolen + weigh h rest)) }
{
    let pass = victim.into_pass(&own);
    own.absorb::<OnePart>(pass);
    while let Some(key) = own.pop_as::<TakesRest>() {
        keys.push(key)?;
    }
    Ok(())
}

/// Takes a ring apart. Each key that was pushed was taken, or is in `keys`, as often as it was pushed: whatever the keys
/// weigh, those that were put weigh as much as those that were got and those that are left. Waits for no other thread.
///
/// # Errors
/// `AllocError` where memory is short. Nothing comes back then.
pub fn close(alloc: Global, seats: List<Seat>) -> Result<Left, AllocError>
    requires { IsRing seats }
    ensures keys { IfOk result (λ left. (h : _ → ℕ) → weigh h (all_put seats) ≡ weigh h (all_got seats) + weigh h left.keys) }
    ensures counts { IfOk result (λ left. (left.pushed ≡ length (all_put seats)) × (left.taken ≡ length (all_got seats)) × (left.pushed ≡ left.taken + length left.keys)) }
{
    let mut seats = seats.into_vec();
    let mut keys = Vec::new(alloc);
    let Some(last) = seats.pop() else {
        unreachable!()
    };
    let Seat {
        number: _,
        alone: _,
        mut own,
        right: victim,
        mut pushed,
        got: mut taken,
    } = last;
    while let Some(seat) = seats.pop() {
        let Seat {
            number: _,
            alone: _,
            own: left,
            right,
            pushed: put,
            got,
        } = seat;
        drain(own, right, &mut keys)?;
        own = left;
        pushed += put;
        taken += got;
    }
    drain(own, victim, &mut keys)?;
    Ok(Left {
        keys: List::from_vec(keys),
        pushed,
        taken,
    })
}
