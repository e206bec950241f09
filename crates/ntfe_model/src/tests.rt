//! What no clause says: that equal values can be made.

use crate::{Choice, Heights, Key, List, Nogood, Part, Triangle, Triangulation};
use std::alloc::AllocError;

#[test]
fn a_key_is_made_again(rt: HostRuntime) -> Result<(), AllocError> {
    let alloc = rt.alloc();
    let key = Key(List::from_vec(vec![in alloc; 5u32, 7]?)).try_clone(alloc)?;
    assert!(rt; key.0.as_slice() == [5, 7].as_slice());
    Ok(())
}

#[test]
fn a_choice_is_made_again(rt: HostRuntime) -> Result<(), AllocError> {
    let alloc = rt.alloc();
    let choice = Choice(List::from_vec(vec![in alloc; 5u32, 7]?)).try_clone(alloc)?;
    assert!(rt; choice.0.as_slice() == [5, 7].as_slice());
    Ok(())
}

#[test]
fn heights_are_made_again(rt: HostRuntime) -> Result<(), AllocError> {
    let alloc = rt.alloc();
    let heights = Heights(List::from_vec(vec![in alloc; -1i64]?)).try_clone(alloc)?;
    assert!(rt; heights.0.as_slice() == [-1].as_slice());
    Ok(())
}

#[test]
fn a_triangulation_is_made_again(rt: HostRuntime) -> Result<(), AllocError> {
    let alloc = rt.alloc();
    let triangle = Triangle { a: 4, b: 6, c: 5 };
    let triangulation = Triangulation {
        word: List::from_vec(vec![in alloc; 1u32]?),
        triangles: List::from_vec(vec![in alloc; triangle]?),
    };
    let triangulation = triangulation.try_clone(alloc)?;
    assert!(rt; triangulation.triangles.as_slice().len() == 1);
    Ok(())
}

#[test]
fn a_nogood_is_made_again(rt: HostRuntime) -> Result<(), AllocError> {
    let alloc = rt.alloc();
    let nogood = Nogood {
        parts: List::from_vec(vec![in alloc; Part { face: 2, item: 0 }]?),
        terms: List::from_vec(Vec::new(alloc)),
    };
    let nogood = nogood.try_clone(alloc)?;
    assert!(rt; nogood.parts.as_slice().len() == 1 && nogood.terms.as_slice().is_empty());
    Ok(())
}
