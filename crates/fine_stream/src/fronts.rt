//! The steps that wait.
ghost use Rattle.std.specs.Prelude.{◌≡◌, ◌++◌, ◌==◌, ◌&&◌, ◌||◌, nat_lt, not, filter, OnOk};
ghost use Rattle.ntfe_model.specs.Words.{is_same_step, with_step as with_waiting, after_side};
ghost use Rattle.std.specs.List.{list_any};

use std::alloc::AllocError;

/// Whether the step comes before the other.
fn is_before(e: (u32, u32), f: (u32, u32)) -> bool
    ensures { result ≡ nat_lt e.0 f.0 || ((e.0 == f.0) && nat_lt e.1 f.1) }
{
    e.0 < f.0 || e.0 == f.0 && e.1 < f.1
}

/// Adds the steps with one more, in its place.
fn add_with_step(
    e: (u32, u32),
    steps: &[(u32, u32)],
    out: &mut Vec<(u32, u32)>,
) -> Result<(), AllocError>
    ensures { OnOk result (out.new.items ≡ out.old.items ++ with_waiting e steps.now) }
{
    let mut placed = false;
    for f in steps {
        if !placed && is_before(e, *f) {
            out.push(e)?;
            placed = true;
        }
        out.push(*f)?;
    }
    if !placed {
        out.push(e)?;
    }
    Ok(())
}

/// Adds the steps without one.
fn add_without_step(
    e: (u32, u32),
    steps: &[(u32, u32)],
    out: &mut Vec<(u32, u32)>,
) -> Result<(), AllocError>
    ensures { OnOk result (out.new.items ≡ out.old.items ++ filter (λ f. not (is_same_step e f)) steps.now) }
{
    for f in steps {
        if !is_same(e, *f) {
            out.push(*f)?;
        }
    }
    Ok(())
}

/// Whether the steps are one.
fn is_same(e: (u32, u32), f: (u32, u32)) -> bool
    ensures { result ≡ is_same_step e f }
{
    e.0 == f.0 && e.1 == f.1
}

/// Whether the step is among the steps.
fn waits(e: (u32, u32), steps: &[(u32, u32)]) -> bool
    ensures { result ≡ list_any (is_same_step e) steps.now }
{
    steps.iter().any(|f| e.0 == f.0 && e.1 == f.1)
}

/// Adds the steps after a side came: if it waited it is removed, else its reverse waits.
pub fn add_after(
    e: (u32, u32),
    steps: &[(u32, u32)],
    out: &mut Vec<(u32, u32)>,
) -> Result<(), AllocError>
    ensures { OnOk result (out.new.items ≡ out.old.items ++ after_side e steps.now) }
{
    if waits(e, steps) {
        add_without_step(e, steps, out)
    } else {
        add_with_step((e.1, e.0), steps, out)
    }
}
