//! Changes of the board's rows that can't fail, once there is room.
ghost use Rattle.std.specs.Prelude.{◌≡◌, ◌≢◌, ◌+◌, ◌-◌, ◌^◌, ◌<◌, ◌≤◌, ◌⊎◌, ◌↔◌, ◌++◌, ℕ, List, length, Some, Contains, OnOk, vec_len, vec_capacity};
ghost use Rattle.std.specs.VecDeque.{deque_len, deque_capacity};
ghost use Rattle.ntfe_model.specs.Keys.{last_number};
ghost use Rattle.choice_board.specs.Making.{key_made, record_made, pruned_made};
ghost use Rattle.choice_board.specs.Rows.{IsFalling};
ghost use Rattle.choice_board.specs.declared.record.Record.{Record};

use crate::opening::{Made, raise};
use crate::record::Record;
use crate::rows::{insert_key, insert_record};
use ntfe_model::{Key, Nogood};
use std::alloc::AllocError;
use std::collections::VecDeque;

/// Where a key and an outcome were put last: the next ones mostly belong beside them.
#[derive(Clone, Copy, Drop)]
pub struct Near {
    pub key: usize,
    pub outcome: usize,
}

/// Makes room for one more entry in each row. All entries stay.
///
/// # Errors
/// `AllocError` where memory is short.
pub fn make_room(
    keys: &mut VecDeque<Key>,
    recorded: &mut VecDeque<Record>,
    pruned: &mut Vec<(Key, Nogood)>,
) -> Result<(), AllocError>
    ensures keys { keys.new.items ≡ keys.old.items }
    ensures recorded { recorded.new.items ≡ recorded.old.items }
    ensures pruned { pruned.new.items ≡ pruned.old.items }
    ensures keys_room { OnOk result (deque_len keys.new < deque_capacity keys.new) }
    ensures recorded_room { OnOk result (deque_len recorded.new < deque_capacity recorded.new) }
    ensures pruned_room { OnOk result (vec_len pruned.new < vec_capacity pruned.new) }
{
    keys.reserve(1)?;
    recorded.reserve(1)?;
    pruned.reserve(1)?;
    Ok(())
}

/// Puts the key, if there is one, into the row, which has room.
pub fn insert_new(row: &mut VecDeque<Key>, new: Option<Key>, near: &mut usize)
    requires falling { IsFalling (λ k. k) row.old.items }
    requires room { deque_len row.old < deque_capacity row.old }
    ensures falling { IsFalling (λ k. k) row.new.items }
    ensures items { (k : List ℕ) → Contains row.new.items k ↔ (Contains row.old.items k ⊎ (new ≡ Some k)) }
    ensures len { deque_len row.new ≤ deque_len row.old + 1 }
    ensures capacity { deque_capacity row.old ≤ deque_capacity row.new }
{
    if let Some(key) = new {
        insert_key(row, key, near);
    }
}

/// Puts the key where it belongs by what becomes of it. Each row has room, and no recorded outcome
/// has the key.
pub fn put(
    keys: &mut VecDeque<Key>,
    recorded: &mut VecDeque<Record>,
    pruned: &mut Vec<(Key, Nogood)>,
    key: Key,
    made: Made,
    near: &mut Near,
)
    requires some { 1 ≤ length key }
    requires small { last_number key < 2 ^ 32 - 1 }
    requires keys_falling { IsFalling (λ k. k) keys.old.items }
    requires keys_room { deque_len keys.old < deque_capacity keys.old }
    requires falling { IsFalling (λ r. r.key) recorded.old.items }
    requires recorded_room { deque_len recorded.old < deque_capacity recorded.old }
    requires pruned_room { vec_len pruned.old < vec_capacity pruned.old }
    requires fresh { (r : Record) → Contains recorded.old.items r → r.key ≢ key }
    ensures keys_falling { IsFalling (λ k. k) keys.new.items }
    ensures keys { (k : List ℕ) → Contains keys.new.items k ↔ (Contains keys.old.items k ⊎ (key_made key made ≡ Some k)) }
    ensures falling { IsFalling (λ r. r.key) recorded.new.items }
    ensures recorded { (r : Record) → Contains recorded.new.items r ↔ (Contains recorded.old.items r ⊎ (record_made key made ≡ Some r)) }
    ensures pruned { pruned.new.items ≡ pruned.old.items ++ pruned_made key made }
{
    match made {
        Made::Nothing => (),
        Made::Raised => insert_key(keys, raise(key), &mut near.key),
        Made::Told(found) => insert_record(recorded, Record { key, found }, &mut near.outcome),
        Made::Blocked(nogood) => pruned.push_reserved((key, nogood)),
    }
}
