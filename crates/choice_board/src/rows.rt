//! Rows of keys and of recorded outcomes, from the greatest down.
ghost use Rattle.std.specs.Prelude.{◌≡◌, ◌≢◌, ◌+◌, ◌<◌, ◌≤◌, ◌⊎◌, ◌↔◌, ℕ, List, Contains, MatchResult, slice_index_or};
ghost use Rattle.std.specs.VecDeque.{deque_len, deque_capacity};
ghost use Rattle.std.specs.List.{insert, remove};
ghost use Rattle.choice_board.specs.declared.record.Record.{Record};
ghost use Rattle.choice_board.specs.Rows.{IsFalling, IsFoundAt, IsPlaceFor};

use crate::record::Record;
use ntfe_model::Key;
use std::cmp::Ordering;
use std::collections::VecDeque;

/// Something that stands in a row by a list of numbers.
pub trait Keyed {
    ghost key_of: { Self → List ℕ };

    /// The numbers.
    fn numbers(&self) -> &[u32]
        ensures { result.now ≡ key_of self.now };
}

impl Keyed for Key {
    ghost key_of = { λ k. k };

    fn numbers(&self) -> &[u32] {
        self.0.as_slice()
    }
}

impl Keyed for Record {
    ghost key_of = { λ r. r.key };

    fn numbers(&self) -> &[u32] {
        self.key.numbers()
    }
}

/// Where a search between two places looks next: at the place where it is likely to end, then beside that, and then in the middle.
fn next_look(low: usize, high: usize, near: usize, looks: usize) -> usize
    requires { low < high }
    ensures low { low ≤ result }
    ensures high { result < high }
{
    match looks {
        0 => near.clamp(low, high - 1),
        1 if near < low => low,
        1 => high - 1,
        _ => low + (high - low) / 2,
    }
}

/// Where the numbers stand in the row, or else where they belong. Looks at `near` first, and then at what stands beside it.
pub fn find<T: Keyed>(row: &VecDeque<T>, numbers: &[u32], near: usize) -> Result<usize, usize>
    requires { IsFalling T.key_of row.now.items }
    ensures { MatchResult result (λ i. IsFoundAt T.key_of row.now.items numbers.now i) (λ i. IsPlaceFor T.key_of row.now.items numbers.now i) }
{
    let mut low = 0;
    let mut high = row.len();
    let mut looks = 0;
    while low < high {
        let place = next_look(low, high, near, looks);
        looks = looks.saturating_add(1);
        match numbers.cmp(row[place].numbers()) {
            Ordering::Less => low = place + 1,
            Ordering::Equal => return Ok(place),
            Ordering::Greater => high = place,
        }
    }
    Err(low)
}

/// Puts an item at a place of a row that has room.
fn insert_at<T: Drop>(row: &mut VecDeque<T>, place: usize, item: T)
    requires place { place ≤ deque_len row.old }
    requires room { deque_len row.old < deque_capacity row.old }
    ensures items { row.new.items ≡ insert row.old.items place item }
    ensures len { deque_len row.new ≡ deque_len row.old + 1 }
    ensures capacity { deque_capacity row.old ≤ deque_capacity row.new }
{
    match row.insert(place, item) {
        Ok(()) => (),
        Err(_) => unreachable!(),
    }
}

/// Takes the item at a place out of the row.
pub fn remove_at<T>(row: &mut VecDeque<T>, place: usize) -> T
    requires { place < deque_len row.old }
    ensures value { result ≡ slice_index_or row.old.items place result }
    ensures items { row.new.items ≡ remove row.old.items place }
    ensures len { deque_len row.new + 1 ≡ deque_len row.old }
    ensures capacity { deque_capacity row.new ≡ deque_capacity row.old }
{
    match row.remove(place) {
        Some(item) => item,
        None => unreachable!(),
    }
}

/// Puts a key into its place, which is looked for near the place that is given, and is noted there. A key that is there
/// already stays as it is.
pub fn insert_key(row: &mut VecDeque<Key>, key: Key, near: &mut usize)
    requires falling { IsFalling (λ k. k) row.old.items }
    requires room { deque_len row.old < deque_capacity row.old }
    ensures falling { IsFalling (λ k. k) row.new.items }
    ensures items { (k : List ℕ) → Contains row.new.items k ↔ ((k ≡ key) ⊎ Contains row.old.items k) }
    ensures len { deque_len row.new ≤ deque_len row.old + 1 }
    ensures capacity { deque_capacity row.old ≤ deque_capacity row.new }
{
    if let Err(place) = find(row, key.numbers(), *near) {
        *near = place;
        insert_at(row, place, key);
    }
}

/// Puts a recorded outcome into its place, which is looked for near the place that is given, and is noted there. None has its key.
pub fn insert_record(row: &mut VecDeque<Record>, told: Record, near: &mut usize)
    requires falling { IsFalling (λ r. r.key) row.old.items }
    requires room { deque_len row.old < deque_capacity row.old }
    requires fresh { (r : Record) → Contains row.old.items r → r.key ≢ told.key }
    ensures falling { IsFalling (λ r. r.key) row.new.items }
    ensures items { (r : Record) → Contains row.new.items r ↔ ((r ≡ told) ⊎ Contains row.old.items r) }
{
    match find(row, told.numbers(), *near) {
        Ok(_) => unreachable!(),
        Err(place) => {
            *near = place;
            insert_at(row, place, told);
        }
    }
}
