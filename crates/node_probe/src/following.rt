//! What is found on the folds of a head, going on from those of the key before.
ghost use Rattle.std.specs.Prelude.{◌≡◌, ◌≤◌, ℕ, length, IfOk, MatchOption};
ghost use Rattle.ntfe_model.specs.Shapes.{IsShape};
ghost use Rattle.ntfe_model.specs.Keys.{IsKey};
ghost use Rattle.node_probe.specs.Heads.{AreHeadRows};
ghost use Rattle.node_probe.specs.Findings.{IsWithin};
ghost use Rattle.node_probe.specs.Followed.{IsJudgement};

use crate::assembling::certificate;
use crate::finding::Finding;
use crate::fold_cache::FoldCache;
use crate::head::HeadRows;
use crate::solving::judge_head;
use crate::stems::Stems;
use ntfe_model::{Geometry, Heights, Key, List};
use std::alloc::{AllocError, Global};
use strict_solver::{Pushed, Tableau};

/// What the stated run without a width finds on the folds of a head, or nothing where a number does not fit.
pub fn follow_head(
    alloc: Global,
    geometry: &Geometry,
    key: &Key,
    rows: &HeadRows,
    stems: &mut Stems,
) -> Result<Option<Finding>, AllocError>
    requires shape { IsShape geometry.now }
    requires key { IsKey geometry.now key.now }
    requires within { IsWithin geometry.now key.now }
    requires rows { AreHeadRows geometry.now key.now rows.now.folds.items rows.now.faces.items }
    requires columns { stems.old.columns ≡ length geometry.now.points }
    ensures columns { stems.new.columns ≡ stems.old.columns }
    ensures finding { IfOk result (λ o. MatchOption o (Unit {0}) (λ x. (width : ℕ) → IsJudgement geometry.now width key.now x)) }
{
    let numbers = key.0.as_slice();
    match stems.follow(numbers, rows)? {
        Pushed::Unknown => Ok(None),
        Pushed::Infeasible => {
            let nogood = certificate(alloc, key, rows, stems.multipliers())?;
            Ok(Some(Finding::Refuted(nogood)))
        }
        Pushed::Feasible => {
            if numbers.len() != geometry.faces().len() {
                stems.has_heights();
                return Ok(Some(Finding::Descend));
            }
            let mut heights = vec![in alloc; 0; geometry.points().len()]?;
            stems.write_heights(&mut heights);
            Ok(Some(Finding::Class(Heights(List::from_vec(heights)))))
        }
    }
}

/// The width at which the run without one is taken for the solver's: the greatest.
const GREATEST_WIDTH: u8 = 62;

/// What holds of the folds of a head. At the greatest width the run goes on from the key before, and the solver is asked only where a
/// number does not fit; at the others it is asked always.
pub fn judge_following(
    alloc: Global,
    geometry: &Geometry,
    columns: u32,
    key: &Key,
    rows: &HeadRows,
    cache: &mut FoldCache,
    stems: &mut Stems,
    tableau: &mut Tableau,
    width: u8,
) -> Result<Finding, AllocError>
    requires shape { IsShape geometry.now }
    requires key { IsKey geometry.now key.now }
    requires within { IsWithin geometry.now key.now }
    requires rows { AreHeadRows geometry.now key.now rows.now.folds.items rows.now.faces.items }
    requires points { columns ≡ length geometry.now.points }
    requires columns { tableau.old.columns ≡ columns }
    requires stems { stems.old.columns ≡ columns }
    requires low { 1 ≤ width }
    requires high { width ≤ 62 }
    ensures patches { cache.new ≡ cache.old }
    ensures columns { tableau.new.columns ≡ tableau.old.columns }
    ensures stems { stems.new.columns ≡ stems.old.columns }
    ensures judged { IfOk result (IsJudgement geometry.now width key.now) }
{
    if width == GREATEST_WIDTH {
        if let Some(finding) = follow_head(alloc, geometry, key, rows, stems)? {
            return Ok(finding);
        }
    }
    judge_head(alloc, geometry, columns, key, rows, cache, tableau, width)
}
