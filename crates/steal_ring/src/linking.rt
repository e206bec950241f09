//! Making a ring.
ghost use Rattle.std.specs.Prelude.{◌≡◌, ◌≤◌, [], map, All, IfOk};
ghost use Rattle.std.specs.List.{range_with_len};
ghost use Rattle.steal_ring.specs.Seats.{got, IsRing};

use crate::seat::Seat;
use crate::victim::new_deque;
use ntfe_model::List;
use std::alloc::{AllocError, Global};

/// A ring of seats.
pub struct Ring;

impl Ring {
    /// So many seats, numbered from 1, from which no key was taken yet. Each steals from the next, and the last from
    /// the first; a seat that is alone steals from none.
    ///
    /// # Errors
    /// `AllocError` where memory is short.
    pub fn seats(alloc: Global, workers: u16) -> Result<List<Seat>, AllocError>
        requires { (1 ≤ workers) × (workers ≤ 16) }
        ensures ring { IfOk result IsRing }
        ensures numbers { IfOk result (λ s. map (λ x. x.number) s ≡ range_with_len 1 workers) }
        ensures fresh { IfOk result (All (λ s. (s.put ≡ []) × (got s ≡ []))) }
    {
        let mut seats = Vec::with_capacity(alloc, workers as usize)?;
        let (mut own, first) = new_deque(alloc)?;
        let mut number = 1;
        while number < workers {
            let (next, right) = new_deque(alloc)?;
            seats.push(Seat {
                number,
                alone: false,
                own,
                right,
                pushed: 0,
                got: 0,
            })?;
            own = next;
            number += 1;
        }
        seats.push(Seat {
            number,
            alone: workers == 1,
            own,
            right: first,
            pushed: 0,
            got: 0,
        })?;
        Ok(List::from_vec(seats))
    }
}
