//! What a fine set asks, one condition after the other.
ghost use Rattle.std.specs.Prelude.{◌≡◌, ◌⊎◌, ◌↔◌, IsTrue, All, Contains};
ghost use Rattle.ntfe_model.specs.Charts.{IsOf};
ghost use Rattle.ntfe_model.specs.Triangulations.{IsSide};
ghost use Rattle.fine_triples.specs.FineConditions.{OnSides, IsUnitTriple, IsOnceBeside, IsOnceAmong, IsEdge, IsClosed};

use crate::triples::{has_side, is_same, is_side};
use face_chart::Chart;
use ntfe_model::Triangle;

/// Whether the number is that of a point of the face.
fn is_of(chart: &Chart, a: u32) -> bool
    ensures { IsTrue result ↔ IsOf chart.now a }
{
    chart.points().contains(&a)
}

/// Whether the triple is a unit triple of the face.
fn is_unit(chart: &Chart, triple: &Triangle) -> bool
    ensures { IsTrue result ↔ IsUnitTriple chart.now triple.now }
{
    if !is_of(chart, triple.a) {
        return false;
    }
    if !is_of(chart, triple.b) {
        return false;
    }
    if !is_of(chart, triple.c) {
        return false;
    }
    chart.unit(triple.a, triple.b, triple.c)
}

/// Whether the triples are unit triples of the face.
pub fn are_unit(chart: &Chart, triples: &[Triangle]) -> bool
    ensures { IsTrue result ↔ All (IsUnitTriple chart.now) triples.now }
{
    for triple in triples {
        if !is_unit(chart, triple) {
            return false;
        }
    }
    true
}

/// Whether the triples are one, or no directed side of the one is a side of the other.
fn is_once_beside(one: &Triangle, other: &Triangle) -> bool
    ensures { IsTrue result ↔ IsOnceBeside one.now other.now }
{
    if is_same(one, other) {
        return true;
    }
    !has_side(other, one.a, one.b)
        && !has_side(other, one.b, one.c)
        && !has_side(other, one.c, one.a)
}

/// Whether no directed side of the triple stands in another of the triples.
fn is_once_among(one: &Triangle, triples: &[Triangle]) -> bool
    ensures { IsTrue result ↔ IsOnceAmong triples.now one.now }
{
    for other in triples {
        if !is_once_beside(one, other) {
            return false;
        }
    }
    true
}

/// Whether no directed side stands in two triples.
pub fn are_once(triples: &[Triangle]) -> bool
    ensures { IsTrue result ↔ All (IsOnceAmong triples.now) triples.now }
{
    for one in triples {
        if !is_once_among(one, triples) {
            return false;
        }
    }
    true
}

/// Whether the step is a side, and its reverse is none.
fn is_edge(triples: &[Triangle], step: (u32, u32)) -> bool
    ensures { IsTrue result ↔ IsEdge triples.now step }
{
    is_side(triples, step.0, step.1) && !is_side(triples, step.1, step.0)
}

/// Whether each of the boundary steps is a side, and its reverse is none.
pub fn are_edges(triples: &[Triangle], boundary: &[(u32, u32)]) -> bool
    ensures { IsTrue result ↔ All (IsEdge triples.now) boundary.now }
{
    for step in boundary {
        if !is_edge(triples, *step) {
            return false;
        }
    }
    true
}

/// Whether the reverse of the side from x to y is a side, or the side is one of the boundary steps.
fn is_closed(triples: &[Triangle], boundary: &[(u32, u32)], x: u32, y: u32) -> bool
    ensures { IsTrue result ↔ IsClosed triples.now boundary.now x y }
{
    is_side(triples, y, x) || boundary.contains(&(x, y))
}

/// Whether this is so of each side of the triple.
fn is_closed_triple(triples: &[Triangle], boundary: &[(u32, u32)], one: &Triangle) -> bool
    ensures { IsTrue result ↔ OnSides (IsClosed triples.now boundary.now) one.now }
{
    if !is_closed(triples, boundary, one.a, one.b) {
        return false;
    }
    if !is_closed(triples, boundary, one.b, one.c) {
        return false;
    }
    is_closed(triples, boundary, one.c, one.a)
}

/// Whether the reverse of each side is a side, or the side is one of the boundary steps.
pub fn are_closed(triples: &[Triangle], boundary: &[(u32, u32)]) -> bool
    ensures { IsTrue result ↔ All (OnSides (IsClosed triples.now boundary.now)) triples.now }
{
    for one in triples {
        if !is_closed_triple(triples, boundary, one) {
            return false;
        }
    }
    true
}
