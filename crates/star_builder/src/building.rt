//! The star of a list of heights.
ghost use Rattle.std.specs.Prelude.{◌≡◌, ◌+◌, ◌<◌, [], length, Contains, IfOk, OnOk};
ghost use Rattle.ntfe_model.specs.Shapes.{IsShape};
ghost use Rattle.ntfe_model.specs.Stars.{IsMember, IsStar, order_of};
ghost use Rattle.star_builder.specs.Walks.{AddsFacet, AreAdded, IsSearchOf};

use crate::facets::masks_of;
use crate::first_member::first_member;
use crate::search::Search;
use crate::star::Star;
use crate::walk::reach;
use ntfe_model::{Geometry, Heights, List, Push};
use std::alloc::{AllocError, Global};

/// Adds the members in the facet at this place: one of them, and all that a walk over ridges reaches from it.
fn add_facet(
    alloc: Global,
    geometry: &Geometry,
    heights: &Heights,
    search: &Search,
    facet: u32,
    simplices: &mut Vec<[u32; 4]>,
) -> Result<(), AllocError>
    requires shape { IsShape geometry.now }
    requires search { IsSearchOf geometry.now heights.now search.now }
    requires facet { facet < length search.now.dual.now }
    ensures { OnOk result (AddsFacet geometry.now.pair.dual geometry.now.points heights.now (order_of search.now.push (length geometry.now.points)) (facet + 1) simplices.old.items simplices.new.items) }
{
    let Some(first) = first_member(search, facet) else {
        return Ok(());
    };
    let reached = reach(alloc, geometry, heights, search.push, facet + 1, first)?;
    simplices.extend_from_slice(reached.as_slice())?;
    Ok(())
}

/// Adds all members, in the order in which they are reached.
fn add_all(
    alloc: Global,
    geometry: &Geometry,
    heights: &Heights,
    search: &Search,
    simplices: &mut Vec<[u32; 4]>,
) -> Result<(), AllocError>
    requires shape { IsShape geometry.now }
    requires search { IsSearchOf geometry.now heights.now search.now }
    requires none { simplices.old.items ≡ [] }
    ensures { OnOk result (AreAdded geometry.now.pair.dual geometry.now.points heights.now (order_of search.now.push (length geometry.now.points)) (length geometry.now.pair.dual) simplices.new.items) }
{
    for place in 0..search.dual.len() {
        add_facet(alloc, geometry, heights, search, place as u32, simplices)?;
    }
    Ok(())
}

/// The star of these heights over the origin, in lexicographic order: four independent points of a facet, by their
/// numbers from 1, belong to it where every other point of the facet is above them. The heights decide this, and
/// where they do not, the order in which the points are pushed: by rising numbers for `Up`, by falling ones for
/// `Down` (De Loera, Rambau and Santos, "Triangulations", sections 2.2 and 4.3).
///
/// Heights need no bound, and not every point need occur in the star. An error says that memory ran out.
pub fn build(
    alloc: Global,
    geometry: &Geometry,
    heights: &Heights,
    push: Push,
) -> Result<Star, AllocError>
    requires heights { length heights.now ≡ length geometry.now.points }
    ensures star { IfOk result (λ s. IsStar geometry.now.pair.dual geometry.now.points heights.now (order_of push (length geometry.now.points)) s.simplices) }
{
    let points = geometry.points();
    let dual = geometry.pair().dual();
    let masks = masks_of(alloc, points, dual)?;
    let search = Search {
        dual,
        points,
        heights: heights.0.as_slice(),
        push,
        masks: masks.as_slice(),
    };
    let mut simplices = Vec::new(alloc);
    add_all(alloc, geometry, heights, &search, &mut simplices)?;
    simplices.sort_unstable();
    simplices.dedup();
    Ok(Star {
        simplices: List::from_vec(simplices),
    })
}
