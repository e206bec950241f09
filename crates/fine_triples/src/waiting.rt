//! The steps that wait while a word is read off.
ghost use Rattle.std.specs.Prelude.{◌≡◌, ℕ, ◌<◌, ◌≤◌, true, false, filter, not, length, OnOk, slice_index_or};
ghost use Rattle.std.specs.List.{list_any};
ghost use Rattle.ntfe_model.specs.Words.{is_before as comes_before, is_same_step, with_step, after_side};

use std::alloc::AllocError;

/// Whether two steps are one.
fn is_same(e: (u32, u32), f: (u32, u32)) -> bool
    ensures { result ≡ is_same_step e f }
{
    e.0 == f.0 && e.1 == f.1
}

/// Whether two steps differ.
fn is_other(e: (u32, u32), f: (u32, u32)) -> bool
    ensures { result ≡ not (is_same_step e f) }
{
    !is_same(e, f)
}

/// Whether the step e comes before the step f.
fn is_before(e: (u32, u32), f: (u32, u32)) -> bool
    ensures { result ≡ comes_before e f }
{
    e.0 < f.0 || e.0 == f.0 && e.1 < f.1
}

/// Whether a step waits.
fn waits(waiting: &[(u32, u32)], step: (u32, u32)) -> bool
    ensures { result ≡ list_any (is_same_step step) waiting.now }
{
    waiting.iter().any(|other| is_same(step, *other))
}

/// The place of the first step that a step comes before.
fn place_of(waiting: &[(u32, u32)], step: (u32, u32)) -> usize
    ensures within { result ≤ length waiting.now }
    ensures behind { (k : ℕ) → k < result → comes_before step (slice_index_or waiting.now k (0, 0)) ≡ false }
    ensures before { result < length waiting.now → comes_before step (slice_index_or waiting.now result (0, 0)) ≡ true }
{
    for (i, other) in waiting.iter().enumerate() {
        if is_before(step, *other) {
            return i;
        }
    }
    waiting.len()
}

/// Takes a step away.
fn remove(waiting: &mut Vec<(u32, u32)>, step: (u32, u32))
    ensures { waiting.new.items ≡ filter (λ f. not (is_same_step step f)) waiting.old.items }
{
    waiting.retain(|other| is_other(step, *other));
}

/// Adds a step in its place.
fn insert(waiting: &mut Vec<(u32, u32)>, step: (u32, u32)) -> Result<(), AllocError>
    ensures { OnOk result (waiting.new.items ≡ with_step step waiting.old.items) }
{
    let place = place_of(waiting, step);
    waiting.insert(place, step)?;
    Ok(())
}

/// A side comes: if it waits it is removed, else its reverse waits.
pub fn take_side(waiting: &mut Vec<(u32, u32)>, side: (u32, u32)) -> Result<(), AllocError>
    ensures { OnOk result (waiting.new.items ≡ after_side side waiting.old.items) }
{
    if waits(waiting, side) {
        remove(waiting, side);
        return Ok(());
    }
    insert(waiting, (side.1, side.0))
}
