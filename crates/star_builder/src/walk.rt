//! The members of a star in one facet, by a walk over ridges.
ghost use Rattle.std.specs.Prelude.{◌≡◌, [], ◌∷◌, length, Contains, IfOk, OnOk};
ghost use Rattle.ntfe_model.specs.Stars.{IsMember, order_of};
ghost use Rattle.star_builder.specs.Walks.{IsMemberIn, IsStep, IsWalked};

use crate::beyond_ridge::beyond;
use ntfe_model::{Geometry, Heights, Push};
use std::alloc::{AllocError, Global};

/// Adds the member beyond the ridge that is without this point, where there is one that is not there.
fn cross_one(
    geometry: &Geometry,
    heights: &Heights,
    push: Push,
    member: &[u32; 4],
    without: u32,
    reached: &mut Vec<[u32; 4]>,
) -> Result<(), AllocError>
    requires heights { length heights.now ≡ length geometry.now.points }
    requires member { IsMember geometry.now.pair.dual geometry.now.points heights.now (order_of push (length geometry.now.points)) member.now }
    requires without { Contains member.now without }
    ensures { OnOk result (IsStep geometry.now.pair.dual geometry.now.points heights.now (order_of push (length geometry.now.points)) member.now (without ∷ []) reached.old.items reached.new.items) }
{
    let Some(other) = beyond(geometry, heights, push, member, without) else {
        return Ok(());
    };
    if reached.contains(&other) {
        return Ok(());
    }
    reached.push(other)?;
    Ok(())
}

/// Adds the members beyond all ridges of this one that are not there.
fn cross_all(
    geometry: &Geometry,
    heights: &Heights,
    push: Push,
    member: [u32; 4],
    reached: &mut Vec<[u32; 4]>,
) -> Result<(), AllocError>
    requires heights { length heights.now ≡ length geometry.now.points }
    requires member { IsMember geometry.now.pair.dual geometry.now.points heights.now (order_of push (length geometry.now.points)) member }
    ensures { OnOk result (IsStep geometry.now.pair.dual geometry.now.points heights.now (order_of push (length geometry.now.points)) member member reached.old.items reached.new.items) }
{
    for without in &member {
        cross_one(geometry, heights, push, &member, *without, reached)?;
    }
    Ok(())
}

/// All members of the facet, from this one on: each that is reached has its ridges crossed in turn.
pub fn reach(
    alloc: Global,
    geometry: &Geometry,
    heights: &Heights,
    push: Push,
    facet: u32,
    first: [u32; 4],
) -> Result<Vec<[u32; 4]>, AllocError>
    requires heights { length heights.now ≡ length geometry.now.points }
    requires first { IsMemberIn geometry.now.pair.dual geometry.now.points heights.now (order_of push (length geometry.now.points)) facet first }
    ensures { IfOk result (λ v. IsWalked geometry.now.pair.dual geometry.now.points heights.now (order_of push (length geometry.now.points)) facet (length v.items) v.items) }
{
    let mut reached = Vec::new(alloc);
    reached.push(first)?;
    for next in 0..usize::MAX {
        if next >= reached.len() {
            break;
        }
        let member = reached[next];
        cross_all(geometry, heights, push, member, &mut reached)?;
    }
    Ok(reached)
}
