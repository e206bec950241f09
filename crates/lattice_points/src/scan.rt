//! The way through the columns of the bounding box.
ghost use Rattle.std.specs.Prelude.{◌≡◌, ℤ, ◌+◌, ◌≤◌, ◌^◌, ◌↔◌, [], ◌∷◌, length, All, IfOk, IfErr, OnOk};
ghost use Rattle.ntfe_nums.specs.Sizes.{AreWithin};
ghost use Rattle.ntfe_nums.specs.Vectors.{Vector};
ghost use Rattle.ntfe_model.specs.Pairs.{IsBounded};
ghost use Rattle.ntfe_model.specs.Points.{IsInside, ArePoints};
ghost use Rattle.lattice_points.specs.Boxes.{IsWithin, AreBoundsOf, IsInSome, AreShortExtents};
ghost use Rattle.lattice_points.specs.Faults.{HasFewColumns, HasCause};
ghost use Rattle.lattice_points.specs.Lines.{place};
ghost use Rattle.lattice_points.specs.Inequalities.{AreSums};
ghost use Rattle.lattice_points.specs.Scans.{Adds, IsAnywhere, IsOnPlane, IsOnLine, IsInColumn};

use crate::bounds::{Bounds, Extent};
use crate::column::Line;
use crate::fault::PointFault;
use crate::found::Found;
use crate::rows::Rows;
use crate::sums::Sums;
use ntfe_model::{List, Pair, Point, Vec4};
use std::alloc::{AllocError, Global};

/// The most columns that are gone through.
const COLUMN_LIMIT: u64 = 16_777_216;

/// Looks at each place of one column that is in the polytope.
fn scan_column(
    alloc: Global,
    pair: &Pair,
    x1: i64,
    x2: i64,
    x3: i64,
    inside: Extent,
    found: &mut Found,
) -> Result<(), AllocError>
    requires bounded { IsBounded pair.now }
    requires inside { (x4 : ℤ) → IsWithin inside x4 ↔ IsInside pair.now (place x1 x2 x3 x4) }
    requires size { AreWithin (2 ^ 33) (inside.low ∷ inside.high ∷ []) }
    requires room { found.old.count ≤ 2 ^ 61 }
    ensures adds { OnOk result (Adds pair.now (IsInColumn x1 x2 x3) found.old found.new) }
    ensures most { OnOk result (found.new.count ≤ found.old.count + 2 ^ 11) }
{
    for x4 in inside.low..inside.high + 1 {
        found.look_at(alloc, pair, Vec4::new([x1, x2, x3, x4]))?;
    }
    Ok(())
}

/// Goes through the columns of one line whose third coordinate is in the extent.
fn scan_columns(
    alloc: Global,
    pair: &Pair,
    bounds: &Bounds,
    x1: i64,
    x2: i64,
    extent: Extent,
    found: &mut Found,
) -> Result<(), AllocError>
    requires bounded { IsBounded pair.now }
    requires bounds { AreBoundsOf pair.now.vertices bounds.now }
    requires first { IsWithin bounds.now.x1 x1 }
    requires second { IsWithin bounds.now.x2 x2 }
    requires all { (v : Vector) → IsInside pair.now v → IsOnLine x1 x2 v → IsWithin extent v.x3 }
    requires within { (x3 : ℤ) → IsWithin extent x3 → IsWithin bounds.now.x3 x3 }
    requires size { AreWithin (2 ^ 33) (extent.low ∷ extent.high ∷ []) }
    requires room { found.old.count ≤ 2 ^ 60 }
    ensures adds { OnOk result (Adds pair.now (IsOnLine x1 x2) found.old found.new) }
    ensures most { OnOk result (found.new.count ≤ found.old.count + 2 ^ 22) }
{
    let dual = pair.dual();
    let line = Line::new(dual, x1, x2);
    for x3 in extent.low..extent.high + 1 {
        let inside = line.interval(dual, x3, bounds.x4);
        scan_column(alloc, pair, x1, x2, x3, inside, found)?;
    }
    Ok(())
}

/// Goes through the columns of one line that the rows and the sums of inequalities leave.
fn scan_line(
    alloc: Global,
    pair: &Pair,
    bounds: &Bounds,
    sums: &Sums,
    rows: &Rows,
    x1: i64,
    x2: i64,
    found: &mut Found,
) -> Result<(), AllocError>
    requires bounded { IsBounded pair.now }
    requires sums { AreSums pair.now.dual sums.now }
    requires bounds { AreBoundsOf pair.now.vertices bounds.now }
    requires first { IsWithin bounds.now.x1 x1 }
    requires second { IsWithin bounds.now.x2 x2 }
    requires rows { (v : Vector) → IsInside pair.now v → IsOnLine x1 x2 v → IsInSome rows.now.extents.items v.x2 }
    requires short { AreShortExtents rows.now.extents.items }
    requires room { found.old.count ≤ 2 ^ 60 }
    ensures adds { OnOk result (Adds pair.now (IsOnLine x1 x2) found.old found.new) }
    ensures most { OnOk result (found.new.count ≤ found.old.count + 2 ^ 22) }
{
    if !rows.contains(x2) {
        return Ok(());
    }
    let extent = sums.third_extent(x1, x2, bounds.x3);
    if extent.is_empty() {
        return Ok(());
    }
    scan_columns(alloc, pair, bounds, x1, x2, extent, found)
}

/// Goes through the lines of one plane whose second coordinate is in the extent.
fn scan_lines(
    alloc: Global,
    pair: &Pair,
    bounds: &Bounds,
    sums: &Sums,
    rows: &Rows,
    x1: i64,
    extent: Extent,
    found: &mut Found,
) -> Result<(), AllocError>
    requires bounded { IsBounded pair.now }
    requires sums { AreSums pair.now.dual sums.now }
    requires bounds { AreBoundsOf pair.now.vertices bounds.now }
    requires first { IsWithin bounds.now.x1 x1 }
    requires all { (v : Vector) → IsInside pair.now v → IsOnPlane x1 v → IsWithin extent v.x2 }
    requires within { (x2 : ℤ) → IsWithin extent x2 → IsWithin bounds.now.x2 x2 }
    requires rows { (v : Vector) → IsInside pair.now v → IsOnPlane x1 v → IsInSome rows.now.extents.items v.x2 }
    requires short { AreShortExtents rows.now.extents.items }
    requires size { AreWithin (2 ^ 33) (extent.low ∷ extent.high ∷ []) }
    requires room { found.old.count ≤ 2 ^ 59 }
    ensures adds { OnOk result (Adds pair.now (IsOnPlane x1) found.old found.new) }
    ensures most { OnOk result (found.new.count ≤ found.old.count + 2 ^ 33) }
{
    for x2 in extent.low..extent.high + 1 {
        scan_line(alloc, pair, bounds, sums, rows, x1, x2, found)?;
    }
    Ok(())
}

/// Goes through the lines of one plane that the sums of inequalities leave.
fn scan_plane(
    alloc: Global,
    pair: &Pair,
    bounds: &Bounds,
    sums: &Sums,
    rows: &mut Rows,
    x1: i64,
    found: &mut Found,
) -> Result<(), AllocError>
    requires bounded { IsBounded pair.now }
    requires sums { AreSums pair.now.dual sums.now }
    requires bounds { AreBoundsOf pair.now.vertices bounds.now }
    requires first { IsWithin bounds.now.x1 x1 }
    requires room { found.old.count ≤ 2 ^ 59 }
    ensures adds { OnOk result (Adds pair.now (IsOnPlane x1) found.old found.new) }
    ensures most { OnOk result (found.new.count ≤ found.old.count + 2 ^ 33) }
{
    let extent = sums.second_extent(x1, bounds.x2);
    rows.go_to(sums, x1, extent, bounds.x3)?;
    scan_lines(alloc, pair, bounds, sums, rows, x1, extent, found)
}

/// Goes through the planes of the box.
fn scan_box(
    alloc: Global,
    pair: &Pair,
    bounds: &Bounds,
    sums: &Sums,
    rows: &mut Rows,
    found: &mut Found,
) -> Result<(), AllocError>
    requires bounded { IsBounded pair.now }
    requires sums { AreSums pair.now.dual sums.now }
    requires bounds { AreBoundsOf pair.now.vertices bounds.now }
    requires room { found.old.count ≤ 2 ^ 58 }
    ensures { OnOk result (Adds pair.now IsAnywhere found.old found.new) }
{
    for x1 in bounds.x1.low..bounds.x1.high + 1 {
        scan_plane(alloc, pair, bounds, sums, rows, x1, found)?;
    }
    Ok(())
}

/// Goes through the box, with sums of the dual vertices' inequalities.
fn scan_all(
    alloc: Global,
    pair: &Pair,
    bounds: &Bounds,
    found: &mut Found,
) -> Result<(), AllocError>
    requires bounded { IsBounded pair.now }
    requires bounds { AreBoundsOf pair.now.vertices bounds.now }
    requires room { found.old.count ≤ 2 ^ 58 }
    ensures { OnOk result (Adds pair.now IsAnywhere found.old found.new) }
{
    let sums = Sums::of(alloc, pair.vertices(), pair.dual())?;
    let mut rows = Rows::new(alloc);
    scan_box(alloc, pair, bounds, &sums, &mut rows, found)
}

/// The lattice points of the polytope that are tight on at least two dual vertices, in order of
/// coordinates, each with the numbers of these dual vertices, from 1 and rising.
///
/// `TooWide` comes exactly where the vertices' bounding box has over 16,777,216 columns, and
/// `TooMany` exactly where it has not and there are over 400 points. The pair is meant to be
/// reflexive; of another one these are the points of the box that no dual vertex shuts out.
pub fn points(alloc: Global, pair: &Pair) -> Result<List<Point>, PointFault>
    ensures points { IfOk result (λ xs. ArePoints pair.now xs) }
    ensures few { IfOk result (λ xs. length xs ≤ 400) }
    ensures narrow { OnOk result (HasFewColumns pair.now.vertices) }
    ensures cause { IfErr result (HasCause pair.now) }
{
    let bounds = Bounds::of(pair.vertices());
    let columns = bounds.columns();
    if columns > COLUMN_LIMIT {
        return Err(PointFault::TooWide { columns });
    }
    let mut found = Found::new(alloc);
    scan_all(alloc, pair, &bounds, &mut found).map_err(|_| PointFault::Memory)?;
    found.finish()
}
