//! The sizes of the five pairs.
ghost use Rattle.std.specs.Prelude.{◌≤◌};

use crate::demo;
use std::alloc::{AllocError, Global};
use std::test::Fail;

/// How many vertices the pair has, and how many dual vertices.
fn sizes(alloc: Global, number: u8) -> Result<(usize, usize), AllocError>
    requires low { 1 ≤ number }
    requires high { number ≤ 5 }
{
    let pair = demo(alloc, number)?;
    Ok((pair.vertices().len(), pair.dual().len()))
}

#[test]
fn the_first_pairs(rt: HostRuntime) -> Result<(), Fail> {
    assert_eq!(rt; sizes(rt.alloc(), 1)?, (9, 6));
    assert_eq!(rt; sizes(rt.alloc(), 2)?, (12, 7));
    assert_eq!(rt; sizes(rt.alloc(), 3)?, (12, 7));
    Ok(())
}

#[test]
fn the_last_pairs(rt: HostRuntime) -> Result<(), Fail> {
    assert_eq!(rt; sizes(rt.alloc(), 4)?, (15, 8));
    assert_eq!(rt; sizes(rt.alloc(), 5)?, (18, 9));
    Ok(())
}
