//! Gates that hold workers until others have come.

use io_edge::Gate;
use std::sync::atomic::{AtomicU64, Ordering};
use std::thread::yield_now;

/// How often a gate lets others run before it gives up.
const YIELDS_MOST: u32 = 1_000_000;

/// A place that a worker comes to.
#[derive(Drop)]
pub struct Mark {
    came: AtomicU64,
}

impl Mark {
    pub const fn new() -> Mark {
        Mark {
            came: AtomicU64::new(0),
        }
    }

    pub fn come(&self) {
        self.came.store(1, Ordering::SeqCst);
    }

    pub fn has_come(&self) -> bool {
        self.came.load(Ordering::SeqCst) == 1
    }

    /// Waits until a worker has come here. False where that takes too long.
    pub fn wait(&self) -> bool {
        for _turn in 0..YIELDS_MOST {
            if self.has_come() {
                return true;
            }
            yield_now();
        }
        false
    }
}

/// Holds the server before its first turn until worker 1 comes to its second.
#[derive(Drop)]
pub struct HeldServer {
    pub worker: Mark,
    pub gave_up: Mark,
}

impl Gate for HeldServer {
    fn at(&self, worker: u16, turn: u64) {
        if worker == 1 && turn == 1 {
            self.worker.come();
        }
        if worker == 0 && turn == 0 && !self.worker.wait() {
            self.gave_up.come();
        }
    }
}

/// Holds each of two workers before its first turn until the other is there.
#[derive(Drop)]
pub struct Meeting {
    pub first: Mark,
    pub second: Mark,
    pub gave_up: Mark,
}

impl Gate for Meeting {
    fn at(&self, worker: u16, turn: u64) {
        if turn > 0 {
            return;
        }
        let met = match worker {
            1 => {
                self.first.come();
                self.second.wait()
            }
            2 => {
                self.second.come();
                self.first.wait()
            }
            _ => true,
        };
        if !met {
            self.gave_up.come();
        }
    }
}
