//! The solver and its stems on folds whose answers are known.
ghost use Rattle.std.specs.Prelude.{◌≤◌, length, unsigned_abs, IfOk, IfSome};
ghost use Rattle.strict_solver.specs.Starts.{IsFoldOver, AreFoldsOver};

use ntfe_model::Fold;
use std::alloc::Global;
use std::test::Fail;
use strict_solver::{Pushed, Solved, Stem, Tableau};

fn point(number: i64) -> Option<u32>
    ensures { IfSome result (λ p. (1 ≤ p) × (p ≤ 15)) }
{
    if number < 1 || number > 15 {
        return None;
    }
    Some(number as u32)
}

fn multiplier(number: i64) -> Option<i64>
    ensures { IfSome result (λ z. unsigned_abs z ≤ 4094) }
{
    if number < -4094 || number > 4094 {
        return None;
    }
    Some(number)
}

fn fold(row: &[i64; 6]) -> Option<Fold>
    ensures { IfSome result (λ f. IsFoldOver 15 f) }
{
    let [a, b, c, d, alpha, beta] = *row;
    Some(Fold {
        a: point(a)?,
        b: point(b)?,
        c: point(c)?,
        d: point(d)?,
        alpha: multiplier(alpha)?,
        beta: multiplier(beta)?,
    })
}

fn folds(alloc: Global, table: &[[i64; 6]]) -> Result<Vec<Fold>, Fail>
    ensures count { IfOk result (λ v. length v.items ≤ 27) }
    ensures folds { IfOk result (λ v. AreFoldsOver 15 v.items) }
{
    let mut list = Vec::new(alloc);
    for row in table {
        let Some(fold) = fold(row) else {
            return Err(Fail::new("a fold"));
        };
        list.push(fold)?;
    }
    if list.len() > 27 {
        return Err(Fail::new("the folds"));
    }
    Ok(list)
}

/// The folds of the first choice of a product of two triangles, which has fifteen points.
const FIRST_CHOICE: [[i64; 6]; 27] = [
    [8, 9, 10, 11, -1, 3],
    [9, 10, 8, 11, 3, -1],
    [9, 11, 8, 10, 3, -1],
    [12, 13, 14, 15, -1, 3],
    [13, 14, 12, 15, 3, -1],
    [13, 15, 12, 14, 3, -1],
    [11, 14, 10, 15, 1, 1],
    [10, 12, 8, 14, 1, 1],
    [11, 12, 8, 15, 1, 1],
    [1, 2, 3, 4, -1, 3],
    [2, 3, 1, 4, 3, -1],
    [2, 4, 1, 3, 3, -1],
    [4, 10, 3, 11, 1, 1],
    [3, 8, 1, 10, 1, 1],
    [4, 8, 1, 11, 1, 1],
    [4, 14, 3, 15, 1, 1],
    [3, 12, 1, 14, 1, 1],
    [4, 12, 1, 15, 1, 1],
    [3, 6, 10, 14, -1, 3],
    [6, 10, 3, 14, 3, -1],
    [6, 14, 3, 10, 3, -1],
    [4, 7, 11, 15, -1, 3],
    [7, 11, 4, 15, 3, -1],
    [7, 15, 4, 11, 3, -1],
    [1, 5, 8, 12, -1, 3],
    [5, 8, 1, 12, 3, -1],
    [5, 12, 1, 8, 3, -1],
];

#[test]
fn no_rows(rt: HostRuntime) -> Result<(), Fail> {
    let mut tableau = Tableau::reserve(rt.alloc(), 3, 5)?;
    assert_eq!(rt; tableau.rows(), 3);
    let Solved::Feasible = tableau.solve(&[], 62) else {
        return Err(Fail::new("no heights"));
    };
    assert_eq!(rt; tableau.heights(), [0, 0, 0, 0, 0].as_slice());
    Ok(())
}

#[test]
fn cancelling_folds(rt: HostRuntime) -> Result<(), Fail> {
    let rows = folds(
        rt.alloc(),
        &[
            [11, 14, 10, 15, 1, 1],
            [10, 12, 8, 14, 1, 1],
            [8, 15, 11, 12, 1, 1],
        ],
    )?;
    let mut tableau = Tableau::reserve(rt.alloc(), 27, 15)?;
    let wide = Solved::Wide {
        step: 1,
        number: -2,
    };
    assert_eq!(rt; tableau.solve(&rows, 1), wide);
    assert_eq!(rt; tableau.solve(&rows, 62), Solved::Infeasible);
    let Solved::Infeasible = tableau.solve(&rows, 2) else {
        return Err(Fail::new("no multipliers"));
    };
    assert_eq!(rt; tableau.multipliers(), [(0, 1), (1, 1), (2, 1)].as_slice());
    Ok(())
}

#[test]
fn folds_of_fifteen_faces(rt: HostRuntime) -> Result<(), Fail> {
    let rows = folds(rt.alloc(), &FIRST_CHOICE)?;
    let mut tableau = Tableau::reserve(rt.alloc(), 27, 15)?;
    let Solved::Feasible = tableau.solve(&rows, 62) else {
        return Err(Fail::new("no heights"));
    };
    assert_eq!(rt;
        tableau.heights(),
        [6, 3, 3, 1, 3, 1, 0, 3, 1, 1, 0, 1, 0, 0, 0].as_slice()
    );
    Ok(())
}

#[test]
fn going_on_with_cancelling_folds(rt: HostRuntime) -> Result<(), Fail> {
    let rows = folds(
        rt.alloc(),
        &[
            [11, 14, 10, 15, 1, 1],
            [10, 12, 8, 14, 1, 1],
            [8, 15, 11, 12, 1, 1],
        ],
    )?;
    let mut stem = Stem::new(rt.alloc(), 15)?;
    assert_eq!(rt; stem.extend(&rows, 0, rows.len())?, Pushed::Infeasible);
    assert_eq!(rt; stem.multipliers(), [(0, 1), (1, 1), (2, 1)].as_slice());
    assert_eq!(rt; stem.is_known(), false);
    Ok(())
}

#[test]
fn going_on_over_fifteen_faces(rt: HostRuntime) -> Result<(), Fail> {
    let rows = folds(rt.alloc(), &FIRST_CHOICE)?;
    let mut stem = Stem::new(rt.alloc(), 15)?;
    let Pushed::Feasible = stem.extend(&rows, 0, rows.len())? else {
        return Err(Fail::new("no heights"));
    };
    let mut heights = vec![in rt.alloc(); 0; 15]?;
    stem.write_heights(&mut heights);
    assert_eq!(rt;
        heights.as_slice(),
        [6, 3, 3, 1, 3, 1, 0, 3, 1, 1, 0, 1, 0, 0, 0].as_slice()
    );
    Ok(())
}
