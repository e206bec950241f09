//! The boundary steps of a two-face, by their definition.
ghost use Rattle.std.specs.Prelude.{◌≡◌, ◌≢◌, ◌<◌, true, false, AllPairs, IfOk, OnOk};
ghost use Rattle.ntfe_model.specs.Charts.{place, spot_numbers, IsOf, IsStep, AreSteps};
ghost use Rattle.face_chart.specs.Steps.{IsClear, AddsSteps};
ghost use Rattle.ntfe_model.specs.Charts.{AreApart};

use crate::segment::is_on_segment;
use crate::table::Table;
use std::alloc::{AllocError, Global};

/// Whether p neither lies to the right of the step from a to b, nor between its ends.
fn is_clear(table: &Table, a: u32, b: u32, p: u32) -> bool
    requires a { IsOf table.now a }
    requires b { IsOf table.now b }
    requires p { IsOf table.now p }
    requires distinct { place table.now a ≢ place table.now b }
    ensures when_true { result ≡ true → IsClear table.now a b p }
    ensures when_false { result ≡ false → ¬ (IsClear table.now a b p) }
{
    if table.area(a, b, p) < 0 {
        return false;
    }
    if p == a {
        return true;
    }
    if p == b {
        return true;
    }
    !is_on_segment(table.place(a), table.place(b), table.place(p))
}

/// Whether the step from a to b is a boundary step.
fn is_step(table: &Table, a: u32, b: u32) -> bool
    requires a { IsOf table.now a }
    requires b { IsOf table.now b }
    requires apart { AreApart table.now }
    ensures when_true { result ≡ true → IsStep table.now a b }
    ensures when_false { result ≡ false → ¬ (IsStep table.now a b) }
{
    if a == b {
        return false;
    }
    for p in table.points() {
        if !is_clear(table, a, b, *p) {
            return false;
        }
    }
    true
}

/// Adds the boundary steps that begin at a.
fn add_steps(table: &Table, a: u32, steps: &mut Vec<(u32, u32)>) -> Result<(), AllocError>
    requires a { IsOf table.now a }
    requires apart { AreApart table.now }
    requires rising { AllPairs (λ j k. j < k) (spot_numbers table.now) }
    ensures { OnOk result (AddsSteps table.now (λ j k. j ≡ a) steps.old.items steps.new.items) }
{
    for b in table.points() {
        if is_step(table, a, *b) {
            steps.push((a, *b))?;
        }
    }
    Ok(())
}

/// The boundary steps, in order.
pub fn boundary_steps(alloc: Global, table: &Table) -> Result<Vec<(u32, u32)>, AllocError>
    requires apart { AreApart table.now }
    requires rising { AllPairs (λ j k. j < k) (spot_numbers table.now) }
    ensures { IfOk result (λ v. AreSteps table.now v.items) }
{
    let mut steps = Vec::new(alloc);
    for a in table.points() {
        add_steps(table, *a, &mut steps)?;
    }
    Ok(steps)
}
