//! Examples of what no geometry is needed for.
ghost use Rattle.std.specs.Prelude.{◌≡◌, IfOk};

use crate::changes::insert_new;
use crate::opening::{new_key, opened_keys, raise};
use crate::order::comes_first;
use crate::outcome::{Outcome, outcome_of};
use crate::record::Found;
use crate::rows::Keyed;
use crate::start::start_keys;
use crate::totals::Totals;
use crate::verdict::Verdict;
use ntfe_model::{Key, List};
use std::alloc::{AllocError, Global};
use std::collections::VecDeque;

fn key(alloc: Global, numbers: &[u32]) -> Result<Key, AllocError>
    ensures { IfOk result (λ k. k ≡ numbers.now) }
{
    Ok(Key(List::from_vec(Vec::from_slice(alloc, numbers)?)))
}

#[test]
fn nothing_is_open_without_two_faces(rt: HostRuntime) -> Result<(), AllocError> {
    let keys = start_keys(rt.alloc(), 0, &None)?;
    assert!(rt; keys.is_empty());
    Ok(())
}

#[test]
fn the_key_0_is_open(rt: HostRuntime) -> Result<(), AllocError> {
    let keys = start_keys(rt.alloc(), 3, &None)?;
    assert!(rt; keys.len() == 1 && keys[0].numbers() == [0].as_slice());
    Ok(())
}

#[test]
fn no_total_passes_its_most(rt: HostRuntime) {
    let full = Totals {
        settled: 1 << 63,
        stale: 1 << 63,
        classes: 0,
        pruned: 0,
        written: 4,
    };
    let after = full
        .with_stale()
        .with_taken(&Verdict::Descend)
        .with_written();
    assert_eq!(rt;
        (after.settled, after.stale, after.written),
        (1 << 63, 1 << 63, 5)
    );
}

#[test]
fn keys_stand_from_the_greatest_down(rt: HostRuntime) -> Result<(), AllocError> {
    let alloc = rt.alloc();
    let mut row = VecDeque::with_capacity(alloc, 2)?;
    let mut near = 0;
    insert_new(&mut row, Some(key(alloc, &[0, 7])?), &mut near);
    insert_new(&mut row, Some(key(alloc, &[1])?), &mut near);
    assert!(rt; row.len() == 2 && row[0].numbers() == [1].as_slice());
    Ok(())
}

#[test]
fn a_key_is_gone_into(rt: HostRuntime) -> Result<(), AllocError> {
    let alloc = rt.alloc();
    let opened = opened_keys(alloc, &key(alloc, &[2])?, &Verdict::Descend)?;
    assert!(rt; opened.len() == 2 && opened[0].numbers() == [2, 0].as_slice());
    assert!(rt; opened[1].numbers() == [3].as_slice());
    Ok(())
}

#[test]
fn a_key_that_is_gone_into_stays_raised(rt: HostRuntime) -> Result<(), AllocError> {
    let alloc = rt.alloc();
    let inner = key(alloc, &[5, 2])?;
    let mut row = VecDeque::with_capacity(alloc, 2)?;
    let mut near = 0;
    insert_new(
        &mut row,
        new_key(alloc, &inner, &Verdict::Descend)?,
        &mut near,
    );
    insert_new(&mut row, Some(raise(inner)), &mut near);
    assert!(rt; row.len() == 2 && row[0].numbers() == [5, 3].as_slice());
    Ok(())
}

#[test]
fn nothing_has_its_turn(rt: HostRuntime) {
    let alloc = rt.alloc();
    assert!(rt; !comes_first(&VecDeque::new(alloc), &VecDeque::new(alloc)));
}

#[test]
fn a_far_key_tells_its_two_face(rt: HostRuntime) -> Result<(), AllocError> {
    let alloc = rt.alloc();
    let outcome = outcome_of(&key(alloc, &[2, 1_048_576])?, Found::Far);
    assert!(rt; matches!(outcome, Outcome::Far { face: 1 }));
    Ok(())
}
