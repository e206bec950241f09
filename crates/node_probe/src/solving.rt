//! The solver on the folds of a head.
ghost use Rattle.std.specs.Prelude.{◌≡◌, ◌<◌, ◌≤◌, ℕ, true, length, IfOk, OnOk};
ghost use Rattle.ntfe_model.specs.Shapes.{IsShape};
ghost use Rattle.ntfe_model.specs.Keys.{IsKey};
ghost use Rattle.node_probe.specs.Heads.{AreHeadRows};
ghost use Rattle.node_probe.specs.Findings.{IsWithin, IsSolution};
ghost use Rattle.node_probe.specs.declared.finding.Finding.TheVariants.{Descend};

use crate::assembling::certificate;
use crate::finding::Finding;
use crate::fold_cache::FoldCache;
use crate::head::HeadRows;
use ntfe_model::{Geometry, Heights, Key, List};
use std::alloc::{AllocError, Global};
use strict_solver::{Solved, Tableau};

/// Takes a larger tableau where the rows are more than this one holds.
fn make_room(
    alloc: Global,
    tableau: &mut Tableau,
    rows: u32,
    columns: u32,
) -> Result<(), AllocError>
    requires columns { tableau.old.columns ≡ columns }
    requires few { columns ≤ 400 }
    ensures columns { tableau.new.columns ≡ tableau.old.columns }
    ensures rows { OnOk result (rows ≤ tableau.new.rows) }
{
    if tableau.rows() < rows {
        *tableau = Tableau::reserve(alloc, rows, columns)?;
    }
    Ok(())
}

/// Whether a two-face is left and heights that are kept lift the folds of the head. Then these can't
/// cancel, and the solver need not be asked.
fn is_lifted(
    geometry: &Geometry,
    key: &Key,
    rows: &HeadRows,
    cache: &mut FoldCache,
) -> Result<bool, AllocError>
    requires shape { IsShape geometry.now }
    requires key { IsKey geometry.now key.now }
    requires within { IsWithin geometry.now key.now }
    requires rows { AreHeadRows geometry.now key.now rows.now.folds.items rows.now.faces.items }
    ensures same { cache.new ≡ cache.old }
    ensures solution { IfOk result (λ lifted. lifted ≡ true → (width : ℕ) → IsSolution geometry.now width key.now Descend) }
{
    if key.0.as_slice().len() == geometry.faces().len() {
        return Ok(false);
    }
    cache.lift(key, rows.folds.as_slice(), geometry.points().len())
}

/// What the solver finds on the folds of a head. Heights that it finds are kept on the cache.
fn solve_head(
    alloc: Global,
    geometry: &Geometry,
    key: &Key,
    rows: &HeadRows,
    cache: &mut FoldCache,
    tableau: &mut Tableau,
    width: u8,
) -> Result<Finding, AllocError>
    requires shape { IsShape geometry.now }
    requires key { IsKey geometry.now key.now }
    requires within { IsWithin geometry.now key.now }
    requires rows { AreHeadRows geometry.now key.now rows.now.folds.items rows.now.faces.items }
    requires columns { tableau.old.columns ≡ length geometry.now.points }
    requires room { length rows.now.folds.items ≤ tableau.old.rows }
    requires low { 1 ≤ width }
    requires high { width ≤ 62 }
    ensures patches { cache.new ≡ cache.old }
    ensures columns { tableau.new.columns ≡ tableau.old.columns }
    ensures solution { IfOk result (IsSolution geometry.now width key.now) }
{
    let whole = key.0.as_slice().len() == geometry.faces().len();
    match tableau.solve(rows.folds.as_slice(), width) {
        Solved::Infeasible => {
            let nogood = certificate(alloc, key, rows, tableau.multipliers())?;
            Ok(Finding::Refuted(nogood))
        }
        Solved::Wide { step, number } if whole => Ok(Finding::Wide { step, number }),
        Solved::Feasible => {
            cache.keep_heights(key, tableau.heights())?;
            if !whole {
                return Ok(Finding::Descend);
            }
            let heights = Vec::from_slice(alloc, tableau.heights())?;
            Ok(Finding::Class(Heights(List::from_vec(heights))))
        }
        _ => Ok(Finding::Descend),
    }
}

/// What the folds of a head say of its key: where heights that are kept lift them and a two-face is left,
/// it is to be gone into; else what the solver finds.
pub fn judge_head(
    alloc: Global,
    geometry: &Geometry,
    columns: u32,
    key: &Key,
    rows: &HeadRows,
    cache: &mut FoldCache,
    tableau: &mut Tableau,
    width: u8,
) -> Result<Finding, AllocError>
    requires shape { IsShape geometry.now }
    requires key { IsKey geometry.now key.now }
    requires within { IsWithin geometry.now key.now }
    requires rows { AreHeadRows geometry.now key.now rows.now.folds.items rows.now.faces.items }
    requires points { columns ≡ length geometry.now.points }
    requires columns { tableau.old.columns ≡ columns }
    requires low { 1 ≤ width }
    requires high { width ≤ 62 }
    ensures patches { cache.new ≡ cache.old }
    ensures columns { tableau.new.columns ≡ tableau.old.columns }
    ensures solution { IfOk result (IsSolution geometry.now width key.now) }
{
    if is_lifted(geometry, key, rows, cache)? {
        return Ok(Finding::Descend);
    }
    make_room(alloc, tableau, rows.folds.len() as u32, columns)?;
    solve_head(alloc, geometry, key, rows, cache, tableau, width)
}
