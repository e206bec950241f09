//! The list of the two-faces.
ghost use Rattle.std.specs.Prelude.{◌≡◌, ◌+◌, ◌<◌, ◌≤◌, length, IfOk, OnOk};
ghost use Rattle.ntfe_model.specs.Pairs.{IsBounded};
ghost use Rattle.ntfe_model.specs.Points.{ArePoints, AreFaces};
ghost use Rattle.two_faces.specs.Added.{AddsFaces};

use crate::meet::meet_in_two_face;
use crate::numbers::numbers_on_both;
use ntfe_model::{Face, List, Pair, Point};
use std::alloc::{AllocError, Global};

/// Adds the two-faces of the facet at this place with the facets after it.
fn add_faces(
    alloc: Global,
    pair: &Pair,
    points: &[Point],
    i: usize,
    list: &mut Vec<Face>,
) -> Result<(), AllocError>
    requires points { ArePoints pair.now points.now }
    requires few { length points.now ≤ 400 }
    requires place { i < length pair.now.dual }
    ensures { OnOk result (AddsFaces pair.now points.now (λ f g. f ≡ i + 1) list.old.items list.new.items) }
{
    let dual = pair.dual();
    for j in i + 1..dual.len() {
        if meet_in_two_face(pair.vertices(), &dual[i], &dual[j]) {
            let numbers = numbers_on_both(alloc, points, &dual[i], &dual[j])?;
            list.push(Face {
                first: i as u32 + 1,
                second: j as u32 + 1,
                points: List::from_vec(numbers),
            })?;
        }
    }
    Ok(())
}

/// The two-faces: the pairs i < j of dual vertices, from 1, with three affinely independent vertices
/// tight on both, in order, each with the numbers of the points on both, from 1 and rising.
///
/// The pair is meant to be reflexive; of another one these are the pairs with such vertices.
pub fn faces(alloc: Global, pair: &Pair, points: &[Point]) -> Result<List<Face>, AllocError>
    requires points { ArePoints pair.now points.now }
    requires few { length points.now ≤ 400 }
    ensures { IfOk result (λ fs. AreFaces pair.now points.now fs) }
{
    let mut list = Vec::new(alloc);
    for i in 0..pair.dual().len() {
        add_faces(alloc, pair, points, i, &mut list)?;
    }
    Ok(List::from_vec(list))
}
