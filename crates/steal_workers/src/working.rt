//! The turns of a worker.
ghost use Rattle.std.specs.Prelude.{◌≡◌, ◌<◌, false};
ghost use Rattle.steal_ring.specs.Seats.{IsSameSeat};
ghost use Rattle.steal_workers.specs.Pools.{probes_of};
ghost use Rattle.steal_workers.specs.Tallies.{IsSameTally};

use crate::pool::{Found, Pool};
use crate::tally::{Stake, Tally};
use crate::worker::Worker;
use io_edge::Gate;
use ntfe_model::Key;
use std::alloc::AllocError;
use std::sync::Wait;
use std::sync::ledger::Ledger;
use std::time::Duration;
use steal_ring::{PushFault, Seat};

/// How many microseconds a worker without a key waits, unless one is offered.
const IDLE_MICROS: u64 = 100;

/// How many keys a worker offers where its deque is empty.
const OFFERS: u32 = 2;

/// Puts the key into the worker's deque. It holds the key itself where that fails.
fn put_offer(seat: &mut Seat, worker: &mut Worker<'_, '_>, key: Key)
    ensures seat { IsSameSeat seat.old seat.new }
    ensures worker { worker.new ≡ worker.old }
{
    match seat.push(key) {
        Ok(()) => {}
        Err(PushFault::Worn(key)) | Err(PushFault::Memory(key)) => {
            let _ = worker.hold(key);
        }
    }
}

/// Takes back the offered keys that come before the one that the worker works next, so that it works what it holds
/// in order. True where an offered key is left.
fn take_back(seat: &mut Seat, worker: &mut Worker<'_, '_>) -> bool
    ensures seat { IsSameSeat seat.old seat.new }
    ensures worker { worker.new ≡ worker.old }
{
    let mut any = false;
    for _offer in 0..OFFERS {
        let Some(key) = seat.pop() else {
            break;
        };
        if worker.comes_first(&key) {
            let _ = worker.hold(key);
        } else {
            put_offer(seat, worker, key);
            any = true;
        }
    }
    any
}

/// Offers held keys to the neighbour. True where a key was offered.
fn offer(seat: &mut Seat, worker: &mut Worker<'_, '_>, room: u64) -> bool
    ensures seat { IsSameSeat seat.old seat.new }
    ensures worker { worker.new ≡ worker.old }
{
    let mut any = false;
    for _offer in 0..OFFERS {
        let Some(key) = worker.offered(room) else {
            break;
        };
        put_offer(seat, worker, key);
        any = true;
    }
    any
}

/// Takes a key from the own deque, else from the neighbour's.
fn take_offer(seat: &mut Seat) -> Option<Key>
    ensures { IsSameSeat seat.old seat.new }
{
    match seat.pop() {
        Some(key) => Some(key),
        None => seat.steal(),
    }
}

impl<'g, L: Ledger> Pool<'g, L> {
    /// Works over a seat, turn after turn: it probes keys that it holds, else one from its deque, else one that it
    /// steals, else, where no worker is busy, the least open key, and goes on with what they open, depth first; settles
    /// what it found; shares the short certificates that it found; and offers keys to its neighbour. It ends where the
    /// board has no least key, memory is short, or the locked board is not that of the pool. It may wait.
    ///
    /// It hands back the seat, with what it counted.
    pub fn work<R: Wait, G: Gate>(
        &self,
        rt: &R,
        seat: Seat,
        stake: Stake<L>,
        gate: &G,
    ) -> (Seat, Tally<L>)
        ensures seat { IsSameSeat seat result.0 }
        ensures worker { result.1.worker ≡ seat.number }
        ensures alone { result.1.alone ≡ false }
        ensures parts { result.1.parts ≡ 1 }
    {
        let mut seat = seat;
        let mut mine = Tally::new(seat.number(), stake);
        if self
            .work_to_the_end(rt, &mut seat, &mut mine, gate)
            .is_err()
        {
            mine.end_for_memory();
        }
        (seat, mine)
    }

    /// Makes what a worker needs, and takes its turns.
    fn work_to_the_end<R: Wait, G: Gate>(
        &self,
        rt: &R,
        seat: &mut Seat,
        mine: &mut Tally<L>,
        gate: &G,
    ) -> Result<(), AllocError>
        requires part { 0 < mine.old.parts }
        ensures seat { IsSameSeat seat.old seat.new }
        ensures tally { IsSameTally mine.old mine.new }
    {
        let mut worker = Worker::new(self.alloc, self.geometry, &self.shelf, self.width)?;
        self.enter(rt);
        let ended = self.take_turns(rt, seat, &mut worker, mine, gate);
        mine.count_blocked(worker.blocked());
        self.leave(rt, worker.told());
        ended
    }

    /// Takes turns until there is none left.
    fn take_turns<'s, R: Wait, G: Gate>(
        &'s self,
        rt: &R,
        seat: &mut Seat,
        worker: &mut Worker<'s, 'g>,
        mine: &mut Tally<L>,
        gate: &G,
    ) -> Result<(), AllocError>
        requires worker { worker.old ≡ probes_of self.now }
        requires part { 0 < mine.old.parts }
        ensures seat { IsSameSeat seat.old seat.new }
        ensures tally { IsSameTally mine.old mine.new }
    {
        let mut turn = 0_u64;
        for _ in rt.forever() {
            gate.at(mine.worker(), turn);
            turn = turn.saturating_add(1);
            if !self.take_turn(rt, seat, worker, mine)? {
                break;
            }
        }
        Ok(())
    }

    /// One turn. False where there is none left.
    fn take_turn<'s, R: Wait>(
        &'s self,
        rt: &R,
        seat: &mut Seat,
        worker: &mut Worker<'s, 'g>,
        mine: &mut Tally<L>,
    ) -> Result<bool, AllocError>
        requires worker { worker.old ≡ probes_of self.now }
        requires part { 0 < mine.old.parts }
        ensures worker { worker.new ≡ worker.old }
        ensures seat { IsSameSeat seat.old seat.new }
        ensures tally { IsSameTally mine.old mine.new }
    {
        match self.find_key(rt, seat, worker)? {
            Found::Key => self.work_held(rt, seat, worker, mine),
            Found::Nothing => Ok(true),
            Found::End => Ok(false),
        }
    }

    /// Finds a key for a worker that holds none. Where there is none, it waits a little.
    fn find_key<R: Wait>(
        &self,
        rt: &R,
        seat: &mut Seat,
        worker: &mut Worker<'_, 'g>,
    ) -> Result<Found, AllocError>
        ensures worker { worker.new ≡ worker.old }
        ensures seat { IsSameSeat seat.old seat.new }
    {
        let seen = self.offers.notifications();
        let found = if worker.is_idle() {
            if let Some(key) = take_offer(seat) {
                worker.hold(key)?;
                return Ok(Found::Key);
            }
            self.least_key(rt, worker)?
        } else if worker.told().is_held_back() {
            self.go_on(rt, worker)?
        } else {
            return Ok(Found::Key);
        };
        if let Found::Nothing = found {
            self.offers
                .sleep(rt, seen, Duration::from_micros(IDLE_MICROS));
        }
        Ok(found)
    }

    /// Works held keys, settles what was found, and offers others. False where no key is open any more, or the locked
    /// board is not that of the pool.
    fn work_held<'s, R: Wait>(
        &'s self,
        rt: &R,
        seat: &mut Seat,
        worker: &mut Worker<'s, 'g>,
        mine: &mut Tally<L>,
    ) -> Result<bool, AllocError>
        requires worker { worker.old ≡ probes_of self.now }
        requires part { 0 < mine.old.parts }
        ensures worker { worker.new ≡ worker.old }
        ensures seat { IsSameSeat seat.old seat.new }
        ensures tally { IsSameTally mine.old mine.new }
    {
        worker.refresh(&self.store)?;
        worker.work(rt, &self.store)?;
        let offers_left = take_back(seat, worker);
        let Some(news) = self.settle_found(rt, worker, mine)? else {
            return Ok(false);
        };
        if news.ready || !news.open {
            self.outcomes.notify_one();
        }
        let offered = !offers_left && offer(seat, worker, news.room);
        if offered || news.given {
            self.offers.notify_all();
        }
        Ok(news.open)
    }
}
