//! The search for the first word that leads on to the end.
ghost use Rattle.std.specs.Prelude.{◌≡◌, ℕ, ◌<◌, ◌≤◌, true, false, List, Option, None, Some, length, drop, MatchBool, IfOk, OnOk};
ghost use Rattle.ntfe_model.specs.declared.triangle.Triangle.{Triangle};
ghost use Rattle.ntfe_model.specs.Charts.{IsOf};
ghost use Rattle.ntfe_model.specs.Charts.{AreApart};
ghost use Rattle.fine_stream.specs.Paths.{AreOf, IsPart};
ghost use Rattle.fine_stream.specs.Kept.{closing};
ghost use Rattle.fine_stream.specs.Places.{IsPlaceOf, ArePlaced, AreTables};
ghost use Rattle.fine_stream.specs.Found.{IsAfter, BeginsAfter, BeginsWith, Adds, AddsNone};

use crate::path::{Path, written};
use crate::sides::fits;
use crate::tables::{Candidate, Tables};
use face_chart::Chart;
use std::alloc::AllocError;

/// Whether the number comes after the limit, if there is one.
fn is_after(limit: Option<u32>, c: u32) -> bool
    ensures when_true { result ≡ true → IsAfter limit c }
    ensures when_false { result ≡ false → ¬ (IsAfter limit c) }
{
    match limit {
        None => true,
        Some(limit) => limit < c,
    }
}

/// Adds to the path the first word that begins after the limit and leads on to the end, where the steps
/// from `start` on wait. The answer is whether there is one.
#[cycle(first)]
pub fn add_first(
    chart: &Chart,
    tables: &Tables,
    start: usize,
    limit: Option<u32>,
    path: &mut Path,
) -> Result<bool, AllocError>
    requires start { start ≤ length path.old.steps.items }
    requires points { AreOf chart.now (drop start path.old.steps.items) }
    requires part { IsPart chart.now path.old.triangles.items }
    requires tables { AreTables chart.now tables.now }
    requires placed { ArePlaced tables.now path.old }
    ensures placed { OnOk result (ArePlaced tables.now path.new) }
    ensures answer { IfOk result (λ found. MatchBool found (Adds chart.now (drop start path.old.steps.items) (BeginsAfter limit) path.old path.new) (AddsNone chart.now (drop start path.old.steps.items) (BeginsAfter limit) path.old path.new)) }
{
    if start == path.steps.len() {
        return Ok(true);
    }
    // the points lie apart
    let _points = chart.points();
    let (a, b) = path.steps[start];
    for candidate in tables.candidates(a, b) {
        if add_with(chart, tables, start, limit, *candidate, path)? {
            return Ok(true);
        }
    }
    Ok(false)
}

/// Adds to the path the first word that begins with this number after the limit and leads on to the
/// end. The answer is whether there is one.
#[cycle(first)]
fn add_with(
    chart: &Chart,
    tables: &Tables,
    start: usize,
    limit: Option<u32>,
    candidate: Candidate,
    path: &mut Path,
) -> Result<bool, AllocError>
    requires apart { AreApart chart.now }
    requires start { start < length path.old.steps.items }
    requires points { AreOf chart.now (drop start path.old.steps.items) }
    requires point { IsOf chart.now candidate.point }
    requires place { IsPlaceOf tables.now.triples.items candidate.place (closing candidate.point (drop start path.old.steps.items)) }
    requires part { IsPart chart.now path.old.triangles.items }
    requires tables { AreTables chart.now tables.now }
    requires placed { ArePlaced tables.now path.old }
    ensures placed { OnOk result (ArePlaced tables.now path.new) }
    ensures answer { IfOk result (λ found. MatchBool found (Adds chart.now (drop start path.old.steps.items) (BeginsWith limit candidate.point) path.old path.new) (AddsNone chart.now (drop start path.old.steps.items) (BeginsWith limit candidate.point) path.old path.new)) }
{
    let c = candidate.point;
    if !is_after(limit, c) {
        return Ok(false);
    }
    let (a, b) = path.steps[start];
    let triangle = written(a, b, c);
    let row = tables.row(candidate.place);
    let triangles = path.triangles.as_slice();
    if !fits(chart, row, triangles, path.places.as_slice(), &triangle) {
        return Ok(false);
    }
    let next = path.steps.len();
    path.push(start, c, triangle, candidate.place)?;
    if add_first(chart, tables, next, None, path)? {
        return Ok(true);
    }
    path.pop(next);
    Ok(false)
}
