//! A member of a star in a facet: four rising numbers of points of the facet, the first in lexicographic order.
ghost use Rattle.std.specs.Prelude.{◌≡◌, ◌<◌, ◌≤◌, length, ⊤};
ghost use Rattle.ntfe_model.specs.Points.{place_of_point};
ghost use Rattle.ntfe_model.specs.Reflexive.{at, IsTight};
ghost use Rattle.star_builder.specs.Walks.{IsFound};

use crate::four::Four;
use crate::search::Search;

/// A member in the facet with these three points and a greater fourth.
fn with_three(search: &Search, facet: u32, a: u32, b: u32, c: u32) -> Option<[u32; 4]>
    requires facet { facet < length search.now.dual.now }
    requires first { 1 ≤ a }
    requires second { a < b }
    requires third { b < c }
    requires within { c ≤ length search.now.points.now }
    requires on_a { IsTight (at search.now.dual.now facet) (place_of_point search.now.points.now a) }
    requires on_b { IsTight (at search.now.dual.now facet) (place_of_point search.now.points.now b) }
    requires on_c { IsTight (at search.now.dual.now facet) (place_of_point search.now.points.now c) }
    ensures { IsFound search.now facet (λ i j k l. (i ≡ a) × (j ≡ b) × (k ≡ c)) result }
{
    for place in c as usize..search.points.len() {
        let d = place as u32 + 1;
        if search.is_on(facet, d) && search.is_member(Four { a, b, c, d }) {
            return Some([a, b, c, d]);
        }
    }
    None
}

/// A member in the facet with these two points and greater others.
fn with_two(search: &Search, facet: u32, a: u32, b: u32) -> Option<[u32; 4]>
    requires facet { facet < length search.now.dual.now }
    requires first { 1 ≤ a }
    requires second { a < b }
    requires within { b ≤ length search.now.points.now }
    requires on_a { IsTight (at search.now.dual.now facet) (place_of_point search.now.points.now a) }
    requires on_b { IsTight (at search.now.dual.now facet) (place_of_point search.now.points.now b) }
    ensures { IsFound search.now facet (λ i j k l. (i ≡ a) × (j ≡ b)) result }
{
    for place in b as usize..search.points.len() {
        let c = place as u32 + 1;
        if search.is_on(facet, c) {
            if let Some(member) = with_three(search, facet, a, b, c) {
                return Some(member);
            }
        }
    }
    None
}

/// A member in the facet with this point and greater others.
fn with_one(search: &Search, facet: u32, a: u32) -> Option<[u32; 4]>
    requires facet { facet < length search.now.dual.now }
    requires first { 1 ≤ a }
    requires within { a ≤ length search.now.points.now }
    requires on_a { IsTight (at search.now.dual.now facet) (place_of_point search.now.points.now a) }
    ensures { IsFound search.now facet (λ i j k l. i ≡ a) result }
{
    for place in a as usize..search.points.len() {
        let b = place as u32 + 1;
        if search.is_on(facet, b) {
            if let Some(member) = with_two(search, facet, a, b) {
                return Some(member);
            }
        }
    }
    None
}

/// A member in the facet.
pub fn first_member(search: &Search, facet: u32) -> Option<[u32; 4]>
    requires facet { facet < length search.now.dual.now }
    ensures { IsFound search.now facet (λ i j k l. ⊤) result }
{
    for place in 0..search.points.len() {
        let a = place as u32 + 1;
        if search.is_on(facet, a) {
            if let Some(member) = with_one(search, facet, a) {
                return Some(member);
            }
        }
    }
    None
}
