//! The open keys of a new board.
ghost use Rattle.std.specs.Prelude.{◌≡◌, ◌+◌, ◌-◌, ◌<◌, ◌^◌, length, All, IfOk, MatchOption, ⊤};
ghost use Rattle.std.specs.Prelude.{map, None};
ghost use Rattle.std.specs.List.{range_with_len};
ghost use Rattle.choice_board.specs.Starts as starts;

use crate::rows::Keyed;
use ntfe_model::{Choice, Key, List};
use std::alloc::{AllocError, Global};

/// The first `place` numbers of the start, and then one more than the next.
fn key_past(alloc: Global, start: &[u32], place: usize) -> Result<Key, AllocError>
    requires place { place < length start.now }
    requires small { All (λ n. n < 2 ^ 32 - 1) start.now }
    ensures { IfOk result (λ k. k ≡ starts.key_past start.now place) }
{
    let mut items = Vec::with_capacity(alloc, place + 1)?;
    items.extend_from_slice(&start[..place])?;
    items.push(start[place] + 1)?;
    Ok(Key(List::from_vec(items)))
}

/// The keys above the start, from the greatest down.
fn keys_past(alloc: Global, start: &[u32]) -> Result<Vec<Key>, AllocError>
    requires { All (λ n. n < 2 ^ 32 - 1) start.now }
    ensures { IfOk result (λ v. v.items ≡ map (starts.key_past start.now) (range_with_len 0 (length start.now))) }
{
    let mut keys = Vec::with_capacity(alloc, start.len())?;
    for place in 0..start.len() {
        keys.push(key_past(alloc, start, place)?)?;
    }
    Ok(keys)
}

/// The key 0, where there are two-faces.
fn first_keys(alloc: Global, faces: usize) -> Result<Vec<Key>, AllocError>
    ensures { IfOk result (λ v. v.items ≡ starts.start_keys faces None) }
{
    let mut keys = Vec::new(alloc);
    if faces == 0 {
        return Ok(keys);
    }
    let mut items = Vec::new(alloc);
    items.push(0)?;
    keys.push(Key(List::from_vec(items)))?;
    Ok(keys)
}

/// The keys whose cones have all choices above the start, and no others.
pub fn start_keys(
    alloc: Global,
    faces: usize,
    start: &Option<Choice>,
) -> Result<Vec<Key>, AllocError>
    requires { MatchOption start.now ⊤ (λ s. All (λ n. n < 2 ^ 32 - 1) s) }
    ensures { IfOk result (λ v. v.items ≡ starts.start_keys faces start.now) }
{
    match start {
        None => first_keys(alloc, faces),
        Some(choice) => keys_past(alloc, choice.0.as_slice()),
    }
}
