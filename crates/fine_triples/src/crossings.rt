//! Whether the sides of triples cross.
ghost use Rattle.std.specs.Prelude.{◌≡◌, ◌↔◌, IsTrue, All};
ghost use Rattle.ntfe_model.specs.Charts.{IsOf};
ghost use Rattle.ntfe_model.specs.Triangulations.{HaveSameEnds};
ghost use Rattle.fine_triples.specs.FineConditions.{OnSides, IsUnitTriple, KeepApart, KeepsApart};

use crate::segments::crosses;
use face_chart::Chart;
use ntfe_model::Triangle;

/// Whether two sides have the same two ends.
fn have_same_ends(one: (u32, u32), other: (u32, u32)) -> bool
    ensures { IsTrue result ↔ HaveSameEnds one.0 one.1 other.0 other.1 }
{
    one.0 == other.0 && one.1 == other.1 || one.0 == other.1 && one.1 == other.0
}

/// Whether two sides have the same two ends, or do not cross.
fn keep_apart(chart: &Chart, one: (u32, u32), other: (u32, u32)) -> bool
    requires first { IsOf chart.now one.0 }
    requires second { IsOf chart.now one.1 }
    requires third { IsOf chart.now other.0 }
    requires fourth { IsOf chart.now other.1 }
    ensures { IsTrue result ↔ KeepApart chart.now one.0 one.1 other.0 other.1 }
{
    if have_same_ends(one, other) {
        return true;
    }
    !crosses(chart, one, other)
}

/// Whether a side keeps apart from each side of a triple.
fn keeps_apart_beside(chart: &Chart, side: (u32, u32), triple: &Triangle) -> bool
    requires first { IsOf chart.now side.0 }
    requires second { IsOf chart.now side.1 }
    requires unit { IsUnitTriple chart.now triple.now }
    ensures { IsTrue result ↔ OnSides (KeepApart chart.now side.0 side.1) triple.now }
{
    if !keep_apart(chart, side, (triple.a, triple.b)) {
        return false;
    }
    if !keep_apart(chart, side, (triple.b, triple.c)) {
        return false;
    }
    keep_apart(chart, side, (triple.c, triple.a))
}

/// Whether a side keeps apart from each side of the triples.
fn keeps_apart(chart: &Chart, side: (u32, u32), triples: &[Triangle]) -> bool
    requires first { IsOf chart.now side.0 }
    requires second { IsOf chart.now side.1 }
    requires unit { All (IsUnitTriple chart.now) triples.now }
    ensures { IsTrue result ↔ KeepsApart chart.now triples.now side.0 side.1 }
{
    for triple in triples {
        if !keeps_apart_beside(chart, side, triple) {
            return false;
        }
    }
    true
}

/// Whether each side of the triple keeps apart from each side of the triples.
fn sides_keep_apart(chart: &Chart, triple: &Triangle, triples: &[Triangle]) -> bool
    requires known { IsUnitTriple chart.now triple.now }
    requires unit { All (IsUnitTriple chart.now) triples.now }
    ensures { IsTrue result ↔ OnSides (KeepsApart chart.now triples.now) triple.now }
{
    if !keeps_apart(chart, (triple.a, triple.b), triples) {
        return false;
    }
    if !keeps_apart(chart, (triple.b, triple.c), triples) {
        return false;
    }
    keeps_apart(chart, (triple.c, triple.a), triples)
}

/// Whether each side of the triples keeps apart from each.
pub fn all_keep_apart(chart: &Chart, triples: &[Triangle]) -> bool
    requires unit { All (IsUnitTriple chart.now) triples.now }
    ensures { IsTrue result ↔ All (OnSides (KeepsApart chart.now triples.now)) triples.now }
{
    for triple in triples {
        if !sides_keep_apart(chart, triple, triples) {
            return false;
        }
    }
    true
}
