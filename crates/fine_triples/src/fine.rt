//! Whether a set of triples is a fine triangulation.
ghost use Rattle.std.specs.Prelude.{◌≡◌, ◌↔◌, IsTrue};
ghost use Rattle.ntfe_model.specs.Triangulations.{IsFine};

use crate::conditions::{are_closed, are_edges, are_once, are_unit};
use crate::crossings::all_keep_apart;
use face_chart::Chart;
use ntfe_model::Triangle;

/// Whether the triples, of numbers of points from 1, are a fine triangulation of the two-face: unit
/// triples with no directed side in two of them, whose sides without a reverse are the boundary steps,
/// and no two of whose sides cross. A number that is not of the face makes them none; a triple that is
/// repeated or rotated changes nothing. Takes no memory.
pub fn is_fine(chart: &Chart, triangles: &[Triangle]) -> bool
    ensures { IsTrue result ↔ IsFine chart.now triangles.now }
{
    let boundary = chart.boundary();
    if !are_unit(chart, triangles) {
        return false;
    }
    if !are_once(triangles) {
        return false;
    }
    if !are_edges(triangles, boundary) {
        return false;
    }
    if !are_closed(triangles, boundary) {
        return false;
    }
    all_keep_apart(chart, triangles)
}
