//! Stars of heights on the pyramid: what they leave on its square, and what lies across their ridges.
ghost use Rattle.std.specs.Prelude.{◌≡◌, length, All};
ghost use Rattle.ntfe_model.specs.Stars.{IsMember, order_of};

use crate::tests::layers::geometry;
use crate::tests::pairs::PYRAMID;
use face_chart::chart;
use fine_triples::{is_fine, word_of};
use ntfe_model::{Geometry, Heights, List, Push};
use star_builder::{beyond, build, restrict};
use std::alloc::{AllocError, Global};

/// The word of what the star of the heights leaves on the first two-face.
fn word_left(alloc: Global, geometry: &Geometry, heights: &[i64]) -> Result<List<u32>, AllocError> {
    let heights = Heights(List::from_vec(Vec::from_slice(alloc, heights)?));
    if heights.0.as_slice().len() != geometry.points().len() || geometry.faces().is_empty() {
        return Err(AllocError);
    }
    let star = build(alloc, geometry, &heights, Push::Down)?;
    let left = restrict(alloc, &star, geometry, 0)?;
    let chart = chart(alloc, geometry, 0)?;
    if !is_fine(&chart, left.as_slice()) {
        return Err(AllocError);
    }
    word_of(alloc, &chart, left.as_slice())
}

/// Whether the star of these heights leaves these words on the square of the pyramid.
fn leaves(alloc: Global, height: i64, word: &[u32]) -> Result<bool, AllocError> {
    let geometry = geometry(alloc, PYRAMID)?;
    let left = word_left(alloc, &geometry, &[0, 0, 0, height, 0, 0, 0])?;
    Ok(left.as_slice() == word)
}

#[test]
fn what_stars_leave_on_a_square(rt: HostRuntime) -> Result<(), AllocError> {
    assert!(rt; leaves(rt.alloc(), 1, &[5, 7])?);
    assert!(rt; leaves(rt.alloc(), -1, &[7, 5])?);
    Ok(())
}

/// What lies across the ridge of a member that lacks this point of it; nothing where there is no such member.
fn across(
    geometry: &Geometry,
    heights: &Heights,
    members: &[[u32; 4]],
    member: [u32; 4],
    without: u32,
) -> Option<Option<[u32; 4]>>
    requires heights { length heights.now ≡ length geometry.now.points }
    requires members { All (IsMember geometry.now.pair.dual geometry.now.points heights.now (order_of Push.Up (length geometry.now.points))) members.now }
{
    for found in members {
        if *found == member && found.contains(&without) {
            return Some(beyond(geometry, heights, Push::Up, found, without));
        }
    }
    None
}

/// What lies across the ridge of a member of the pyramid's star with the fourth point lifted.
fn across_in_pyramid(
    alloc: Global,
    member: [u32; 4],
    without: u32,
) -> Result<Option<Option<[u32; 4]>>, AllocError> {
    let geometry = geometry(alloc, PYRAMID)?;
    let heights = Heights(List::from_vec(Vec::from_slice(alloc, &[0, 0, 0, 1, 0, 0, 0])?));
    if geometry.points().len() != 7 {
        return Ok(None);
    }
    let star = build(alloc, &geometry, &heights, Push::Up)?;
    let members = star.simplices.as_slice();
    Ok(across(&geometry, &heights, members, member, without))
}

#[test]
fn what_lies_across_ridges(rt: HostRuntime) -> Result<(), AllocError> {
    let inner = across_in_pyramid(rt.alloc(), [2, 4, 5, 6], 4)?;
    assert!(rt; inner == Some(Some([2, 5, 6, 7])));
    let outer = across_in_pyramid(rt.alloc(), [1, 2, 4, 5], 1)?;
    assert!(rt; outer == Some(None));
    Ok(())
}
