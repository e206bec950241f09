//! Recorded outcomes.
use ntfe_model::{Choice, Heights, Key};

/// What was found at a key that is still to be told. A choice has the numbers of the key.
#[derive(Drop)]
pub enum Found {
    Class {
        choice: Choice,
        heights: Heights,
    },
    Wide {
        choice: Choice,
        step: u64,
        number: i128,
    },
    Far,
}

/// A key with what was found there. The key stays on the board when the rest is handed out.
#[derive(Drop)]
pub struct Record {
    pub key: Key,
    pub found: Found,
}

/// What ended the listing: a choice on which the solver was wide, or a key out of reach.
#[derive(Drop)]
pub enum Stop {
    Wide(Key),
    Far(Key),
}
