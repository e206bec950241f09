//! The folds of a triangulation, edge by edge.
ghost use Rattle.std.specs.Prelude.{◌≡◌, ◌≢◌, ◌<◌, ◌↔◌, ℤ, pos, ◌<ℤ◌, All, AllPairs, IfOk, OnOk, MatchOption, IfSome};
ghost use mathlib.Core.List.{List as Items};
ghost use Rattle.ntfe_model.specs.Charts.{spot_numbers, IsOf, place};
ghost use Rattle.ntfe_model.specs.Triangulations.{IsFine};
ghost use Rattle.ntfe_model.specs.Choices.{IsInnerEdge, IsFoldOf, AreFolds, IsRegularBy, fold_value, IsSmallFold};
ghost use Rattle.fold_rows.specs.Rows.{AreBalanced, AreUnits, unspelled, IsFoldBetween, AddsFolds};

use crate::factor::factor;
use crate::sides::{around, third_point};
use face_chart::Chart;
use ntfe_model::{Fold, List, Triangle, Triangulation};
use std::alloc::{AllocError, Global};

/// The fold of the edge from a to b, where c and d are the third points of its triples.
fn fold_between(chart: &Chart, a: u32, b: u32, c: u32, d: u32) -> Fold
    requires a { IsOf chart.now a }
    requires b { IsOf chart.now b }
    requires c { IsOf chart.now c }
    requires d { IsOf chart.now d }
    requires distinct { place chart.now a ≢ place chart.now b }
    requires balanced { AreBalanced (place chart.now a) (place chart.now b) (place chart.now c) (place chart.now d) }
    ensures value { IsFoldBetween chart.now a b c d result }
    ensures small { IsSmallFold result }
{
    let beta = factor(
        chart.place(a),
        chart.place(b),
        chart.place(c),
        chart.place(d),
    );
    let alpha = 2 - beta;
    if c < d {
        return Fold {
            a,
            b,
            c,
            d,
            alpha,
            beta,
        };
    }
    Fold {
        a,
        b,
        c: d,
        d: c,
        alpha,
        beta,
    }
}

/// The fold of the edge from a to b, where a is the lesser and both directions are sides.
fn fold_at(chart: &Chart, triangles: &[Triangle], a: u32, b: u32) -> Option<Fold>
    requires units { AreUnits chart.now triangles.now }
    ensures value { MatchOption result (¬ (IsInnerEdge triangles.now a b)) (λ r. IsFoldOf chart.now (unspelled triangles.now) r × (r.a ≡ a) × (r.b ≡ b)) }
    ensures small { IfSome result IsSmallFold }
{
    if a >= b {
        return None;
    }
    let c = third_point(triangles, a, b)?;
    let d = third_point(triangles, b, a)?;
    Some(fold_between(chart, a, b, c, d))
}

/// Adds the folds of the edges whose lesser point is a.
fn add_folds(
    alloc: Global,
    chart: &Chart,
    item: &Triangulation,
    a: u32,
    folds: &mut Vec<Fold>,
) -> Result<(), AllocError>
    requires fine { IsFine chart.now item.now.triangles }
    ensures { OnOk result (AddsFolds chart.now item.now (λ i j. i ≡ a) folds.old.items folds.new.items) }
{
    let near = around(alloc, item.triangles.as_slice(), a)?;
    for b in chart.points() {
        if let Some(fold) = fold_at(chart, near.as_slice(), a, *b) {
            folds.push(fold)?;
        }
    }
    Ok(())
}

/// The folds of an item: one for each inner edge (a, b), a < b, in order of edges. It is the form
/// `w(c) + w(d) - alpha w(a) - beta w(b)`, where c < d are the third points of the two triples on the
/// edge, and c + d = alpha a + beta b with alpha + beta = 2. The heights w put each other point of the
/// face above each triple exactly where all folds are positive.
///
/// # Errors
///
/// Where memory runs out.
pub fn folds(alloc: Global, chart: &Chart, item: &Triangulation) -> Result<List<Fold>, AllocError>
    requires { IsFine chart.now item.now.triangles }
    ensures folds { IfOk result (λ rs. AreFolds chart.now item.now rs) }
    ensures small { IfOk result (λ rs. All IsSmallFold rs) }
    ensures planes { IfOk result (λ rs. (w : Items ℤ) → All (λ r. pos 0 <ℤ fold_value w r) rs ↔ IsRegularBy chart.now w item.now) }
{
    let mut folds = Vec::new(alloc);
    for a in chart.points() {
        add_folds(alloc, chart, item, *a, &mut folds)?;
    }
    Ok(List::from_vec(folds))
}
