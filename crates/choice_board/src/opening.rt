//! What a verdict makes of a key.
ghost use Rattle.std.specs.Prelude.{◌≡◌, ◌<◌, ◌≤◌, ◌^◌, ◌-◌, length, IfOk};
ghost use Rattle.ntfe_model.specs.Keys.{last_number};
ghost use Rattle.choice_board.specs.Places.{raised, first_under};
ghost use Rattle.choice_board.specs.Verdicts.{opened_by, recorded_by, pruned_by};
ghost use Rattle.choice_board.specs.Making.{new_by, raised_by, key_made, record_made, pruned_made};

use crate::record::Found;
use crate::rows::Keyed;
use crate::verdict::Verdict;
use ntfe_model::{Choice, Heights, Key, List, Nogood};
use std::alloc::{AllocError, Global};

/// What becomes of a key that is closed.
#[derive(Drop)]
pub enum Made {
    /// It goes.
    Nothing,
    /// It is raised, and stays open.
    Raised,
    /// This is recorded at it.
    Told(Found),
    /// This blocks it.
    Blocked(Nogood),
}

/// The key with its last number raised by 1.
fn raised_key(alloc: Global, key: &Key) -> Result<Key, AllocError>
    requires some { 1 ≤ length key.now }
    requires small { last_number key.now < 2 ^ 32 - 1 }
    ensures { IfOk result (λ k. k ≡ raised key.now) }
{
    let numbers = key.numbers();
    let stem = numbers.len() - 1;
    let mut items = Vec::with_capacity(alloc, numbers.len())?;
    items.extend_from_slice(&numbers[..stem])?;
    items.push(numbers[stem] + 1)?;
    Ok(Key(List::from_vec(items)))
}

/// The key with its last number raised by 1, in its own memory.
pub fn raise(key: Key) -> Key
    requires some { 1 ≤ length key }
    requires small { last_number key < 2 ^ 32 - 1 }
    ensures { result ≡ raised key }
{
    let Key(numbers) = key;
    let mut items = numbers.into_vec();
    let stem = items.len() - 1;
    items[stem] += 1;
    Key(List::from_vec(items))
}

/// The key followed by 0.
fn key_under(alloc: Global, key: &Key) -> Result<Key, AllocError>
    ensures { IfOk result (λ k. k ≡ first_under key.now) }
{
    let numbers = key.numbers();
    let mut items = Vec::with_capacity(alloc, numbers.len() + 1)?;
    items.extend_from_slice(numbers)?;
    items.push(0)?;
    Ok(Key(List::from_vec(items)))
}

/// The keys that the verdict opens, from the least up.
pub fn opened_keys(alloc: Global, key: &Key, verdict: &Verdict) -> Result<Vec<Key>, AllocError>
    requires some { 1 ≤ length key.now }
    requires small { last_number key.now < 2 ^ 32 - 1 }
    ensures { IfOk result (λ v. v.items ≡ opened_by key.now verdict.now) }
{
    let keys = match verdict {
        Verdict::End | Verdict::Far => Vec::new(alloc),
        Verdict::Descend => vec![in alloc; key_under(alloc, key)?, raised_key(alloc, key)?]?,
        Verdict::Pruned(_) | Verdict::Class(_) | Verdict::Wide { .. } => {
            vec![in alloc; raised_key(alloc, key)?]?
        }
    };
    Ok(keys)
}

/// The key that the verdict opens beside the closed key, which may be raised in its own memory.
pub fn new_key(alloc: Global, key: &Key, verdict: &Verdict) -> Result<Option<Key>, AllocError>
    requires some { 1 ≤ length key.now }
    requires small { last_number key.now < 2 ^ 32 - 1 }
    ensures { IfOk result (λ o. o ≡ new_by key.now verdict.now) }
{
    let key = match verdict {
        Verdict::End | Verdict::Far => return Ok(None),
        Verdict::Descend => key_under(alloc, key)?,
        Verdict::Pruned(_) | Verdict::Class(_) | Verdict::Wide { .. } => raised_key(alloc, key)?,
    };
    Ok(Some(key))
}

/// A choice with the numbers of the key.
pub fn choice_of(alloc: Global, key: &Key) -> Result<Choice, AllocError>
    ensures { IfOk result (λ c. c ≡ key.now) }
{
    let items = Vec::from_slice(alloc, key.numbers())?;
    Ok(Choice(List::from_vec(items)))
}

/// The choice that a key is.
pub fn choice_from(key: Key) -> Choice
    ensures { result ≡ key }
{
    let Key(numbers) = key;
    Choice(numbers)
}

/// What becomes of the key by the verdict.
pub fn made_of(alloc: Global, key: &Key, verdict: Verdict) -> Result<Made, AllocError>
    ensures raised { IfOk result (λ m. key_made key.now m ≡ raised_by key.now verdict) }
    ensures recorded { IfOk result (λ m. record_made key.now m ≡ recorded_by key.now verdict) }
    ensures pruned { IfOk result (λ m. pruned_made key.now m ≡ pruned_by key.now verdict) }
{
    match verdict {
        Verdict::End => Ok(Made::Nothing),
        Verdict::Descend => Ok(Made::Raised),
        Verdict::Pruned(nogood) => Ok(Made::Blocked(nogood)),
        Verdict::Far => Ok(Made::Told(Found::Far)),
        Verdict::Class(heights) => {
            let choice = choice_of(alloc, key)?;
            Ok(Made::Told(Found::Class { choice, heights }))
        }
        Verdict::Wide { step, number } => {
            let choice = choice_of(alloc, key)?;
            Ok(Made::Told(Found::Wide {
                choice,
                step,
                number,
            }))
        }
    }
}
