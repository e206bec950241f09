//! What a key is settled with.
ghost use Rattle.std.specs.Prelude.{◌≡◌, ◌<◌, ◌≤◌, ◌^◌, ◌-◌, length, IfOk};
ghost use Rattle.ntfe_model.specs.Keys.{last_number};
ghost use Rattle.choice_board.specs.Verdicts.{opened_by};

use crate::opening::opened_keys;
use ntfe_model::{Heights, Key, List, Nogood};
use std::alloc::{AllocError, Global};

/// What was found out about a key.
#[derive(Drop)]
pub enum Verdict {
    /// Some item of the key does not exist.
    End,
    /// A certificate blocks the key.
    Pruned(Nogood),
    /// The key is an extendable choice, with these heights.
    Class(Heights),
    /// The key is a choice on which the solver's numbers are too wide.
    Wide { step: u64, number: i128 },
    /// The key's last number is the item limit, and its items exist.
    Far,
    /// A two-face is left, so the key is gone into.
    Descend,
}

impl Verdict {
    /// The keys that are opened where the key is closed with this verdict, from the least up.
    ///
    /// # Errors
    /// `AllocError` where memory is short.
    pub fn opened(&self, alloc: Global, key: &Key) -> Result<List<Key>, AllocError>
        requires some { 1 ≤ length key.now }
        requires small { last_number key.now < 2 ^ 32 - 1 }
        ensures { IfOk result (λ keys. keys ≡ opened_by key.now self.now) }
    {
        Ok(List::from_vec(opened_keys(alloc, key, self)?))
    }
}

/// What became of a verdict.
#[derive(Drop)]
pub enum Settled {
    /// The key was not open.
    Stale,
    /// The key is closed, and these keys were opened, from the least up.
    Taken { opened: List<Key> },
}
