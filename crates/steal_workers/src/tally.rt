//! What each worker of a pool counts, with its share of one ledger.
ghost use Rattle.std.specs.Prelude.{◌≡◌, ◌<◌, ◌+◌, ◌-◌, ◌^◌, min, true};
ghost use Rattle.steal_workers.specs.Tallies.{no_counts, joined, IsSameTally};

use std::marker::Model;
use std::sync::ledger::{Book, Ledger, Share};

/// One part of a pool's ledger, on which nothing is booked.
#[derive(Drop)]
pub struct Stake<L: Ledger> {
    share: Share<L>,
}

impl<L: Ledger> Model for Stake<L> {
    ghost use Rattle.std.specs.Prelude.{◌≡◌, ℕ};

    ghost Value = { Unit {0} };

    ghost view = { λ s. tt };

    ghost invariant = { λ s. (s.share.parts ≡ 1) × (s.share.amount ≡ 0) };
}

impl<L: Ledger> Stake<L> {
    /// The stake of a share of one part.
    pub(crate) fn new(share: Share<L>) -> Stake<L>
        requires { (share.parts ≡ 1) × (share.amount ≡ 0) }
    {
        Stake { share }
    }
}

/// What a worker counted. `settled` is the number of keys that it settled, up to 2^64 - 1, and `blocked` that of the
/// probes that a certificate of the worker's set ended. `memory` is true where it ended for want of memory, and `alone`
/// where a server left the board of its pool. It holds a share of the pool's ledger, on which what it settled is booked.
#[derive(Drop)]
pub struct Tally<L: Ledger> {
    worker: u16,
    settled: u64,
    blocked: u64,
    memory: bool,
    alone: bool,
    share: Share<L>,
}

impl<L: Ledger> Model for Tally<L> {
    ghost use Rattle.std.specs.Prelude.{◌≡◌, ◌-◌, ◌^◌, min};
    ghost use Rattle.steal_workers.specs.Tallies.{Counts};

    ghost Value = { Counts };

    ghost view = { λ t. record { worker = t.worker; settled = t.settled; blocked = t.blocked; memory = t.memory; alone = t.alone; parts = t.share.parts; booked = t.share.amount } };

    ghost invariant = { λ t. t.settled ≡ min (2 ^ 64 - 1) t.share.amount };
}

impl<L: Ledger> Tally<L> {
    /// A tally of a worker that did nothing yet.
    pub(crate) fn new(worker: u16, stake: Stake<L>) -> Tally<L>
        ensures { result ≡ no_counts worker }
    {
        let Stake { share } = stake;
        Tally {
            worker,
            settled: 0,
            blocked: 0,
            memory: false,
            alone: false,
            share,
        }
    }

    /// The number of the worker: that of its seat, or 0 for a server.
    pub fn worker(&self) -> u16
        ensures { result ≡ self.now.worker }
    {
        self.worker
    }

    /// How many keys the worker settled on the board of its pool, up to 2^64 - 1.
    pub fn settled(&self) -> u64
        ensures value { result ≡ self.now.settled }
        ensures booked { result ≡ min (2 ^ 64 - 1) self.now.booked }
    {
        self.settled
    }

    /// How many probes were ended by a certificate of the worker's set, up to 2^64 - 1.
    pub fn blocked(&self) -> u64
        ensures { result ≡ self.now.blocked }
    {
        self.blocked
    }

    /// Whether the worker ended for want of memory.
    pub fn memory(&self) -> bool
        ensures { result ≡ self.now.memory }
    {
        self.memory
    }

    /// Whether a server left the board of its pool.
    pub fn alone(&self) -> bool
        ensures { result ≡ self.now.alone }
    {
        self.alone
    }

    /// Both together, as the first worker's. Takes no memory.
    pub fn join(self, other: Tally<L>) -> Tally<L>
        ensures { result ≡ joined self other }
    {
        let Tally {
            worker,
            settled,
            blocked,
            memory,
            alone,
            mut share,
        } = self;
        let Tally {
            worker: _,
            settled: more,
            blocked: more_blocked,
            memory: other_memory,
            alone: other_alone,
            share: rest,
        } = other;
        share.merge(rest);
        Tally {
            worker,
            settled: settled.saturating_add(more),
            blocked: blocked.saturating_add(more_blocked),
            memory: memory || other_memory,
            alone: alone || other_alone,
            share,
        }
    }

    /// Books one settled key.
    pub(crate) fn book(&mut self, book: &mut Book<L>)
        requires { 0 < self.old.parts }
        ensures total { book.new.total ≡ book.old.total + 1 }
        ensures same { IsSameTally self.old self.new }
    {
        book.add(&mut self.share, 1);
        self.settled = self.settled.saturating_add(1);
    }

    /// Tells the ledger of its share. Where the share has every part, what is booked on it is the whole.
    pub(crate) fn audit(&mut self, book: &mut Book<L>)
        ensures total { book.new.total ≡ book.old.total }
        ensures whole { self.old.parts ≡ L.parts → self.old.booked ≡ book.old.total }
        ensures same { self.new ≡ self.old }
    {
        book.audit(&mut self.share);
    }

    /// Counts so many more probes that a certificate ended.
    pub(crate) fn count_blocked(&mut self, more: u64)
        ensures { IsSameTally self.old self.new }
    {
        self.blocked = self.blocked.saturating_add(more);
    }

    /// The server leaves the board of its pool.
    pub(crate) fn leave_board(&mut self)
        ensures { self.new ≡ record self.old { alone = true } }
    {
        self.alone = true;
    }

    /// The worker ends for want of memory.
    pub(crate) fn end_for_memory(&mut self)
        ensures { self.new ≡ record self.old { memory = true } }
    {
        self.memory = true;
    }
}
