//! The store of certificates: what a reader adds to a set, and what it passes over.
ghost use Rattle.std.specs.Prelude.{◌≡◌, IfOk};

use crate::tests::layers::{geometry, three_squares};
use crate::tests::pairs::TT;
use fine_stream::OwnBook;
use nogood_set::NogoodSet;
use nogood_store::{Reader, Store};
use ntfe_model::{Geometry, Key, List, Nogood, Part};
use std::alloc::{AllocError, Global};
use std::sync::Wait;

/// Pushes a nogood. False where it does not come back by its receipt.
fn push<R: Wait>(rt: &R, store: &Store, nogood: Nogood) -> Result<bool, AllocError> {
    let count = nogood.terms.as_slice().len();
    match store.push(rt, nogood) {
        Ok(receipt) => Ok(store.read_own(&receipt).terms.as_slice().len() == count),
        Err((_, error)) => Err(error),
    }
}

/// Pushes items of three squares with each of these multiples of their folds.
fn push_each<R: Wait>(
    rt: &R,
    alloc: Global,
    store: &Store,
    times: &[&[i64]],
) -> Result<bool, AllocError> {
    for each in times {
        if !push(rt, store, three_squares(alloc, each)?)? {
            return Ok(false);
        }
    }
    Ok(true)
}

/// How many entries a new reader adds.
fn added<'s>(
    alloc: Global,
    store: &'s Store,
    geometry: &Geometry,
    set: &mut NogoodSet<'s>,
) -> Result<u32, AllocError> {
    let mut book = OwnBook::new(alloc, geometry)?;
    let mut reader = Reader::new(alloc);
    store.refresh(&mut reader, geometry, &mut book, set)
}

/// The entry of the set that blocks this key.
fn blocking(alloc: Global, set: &NogoodSet, numbers: &[u32]) -> Result<Option<usize>, AllocError> {
    let key = Key(List::from_vec(Vec::from_slice(alloc, numbers)?));
    Ok(set.blocks(&key))
}

/// Whether a reader adds so many entries of the store, of which the first blocks a key with these three items.
fn adds(alloc: Global, store: &Store, count: u32) -> Result<bool, AllocError> {
    let geometry = geometry(alloc, TT)?;
    let mut set = NogoodSet::new(alloc);
    let found = added(alloc, store, &geometry, &mut set)?;
    let refuted = blocking(alloc, &set, &[0, 0, 0, 0, 1])?;
    let other = blocking(alloc, &set, &[0, 0, 0, 0, 0])?;
    Ok(found == count && refuted == Some(0) && other == None)
}

#[test]
fn certificates_are_added_and_others_passed_over(rt: HostRuntime) -> Result<(), AllocError> {
    let store = Store::new(rt.alloc())?;
    let times: [&[i64]; 3] = [&[1, 1, 1], &[1, 1, 1], &[1, 1, 2]];
    assert!(rt; push_each(&rt, rt.alloc(), &store, &times)?);
    assert!(rt; adds(rt.alloc(), &store, 2)?);
    Ok(())
}

/// A nogood with an item that the two-face does not have.
fn item_too_many(alloc: Global) -> Result<Nogood, AllocError> {
    Ok(Nogood {
        parts: List::from_vec(vec![in alloc; Part { face: 2, item: 9 }]?),
        terms: List::from_vec(Vec::new(alloc)),
    })
}

#[test]
fn a_certificate_behind_three_that_are_none(rt: HostRuntime) -> Result<(), AllocError> {
    let store = Store::new(rt.alloc())?;
    assert!(rt; push(&rt, &store, item_too_many(rt.alloc())?)?);
    let times: [&[i64]; 3] = [&[], &[1, 1, 2], &[1, 1, 1]];
    assert!(rt; push_each(&rt, rt.alloc(), &store, &times)?);
    assert!(rt; adds(rt.alloc(), &store, 1)?);
    Ok(())
}
