//! The product pair of two polygons.
ghost use Rattle.std.specs.Prelude.{◌≡◌, ◌≤◌, ◌++◌, map, flat_map, pos, IfOk};
ghost use Rattle.ntfe_model.specs.Pairs.{IsBounded};
ghost use Rattle.ntfe_model.specs.Reflexive.{IsReflexive};
ghost use Rattle.polygon_demo.specs.Limits.{IsSmallPair};
ghost use Rattle.polygon_demo.specs.Polygons.{joined, product, demo_pair};

use crate::polygons::numbered;
use ntfe_model::{Pair, Vec4};
use std::alloc::{AllocError, Global};

/// The point of the product over a point of each plane.
fn join(u: &(i64, i64), v: &(i64, i64)) -> Vec4
    ensures { result ≡ joined u.now v.now }
{
    Vec4::new([u.0, u.1, v.0, v.1])
}

/// Appends the points of the product over one point of the first plane.
fn append_over(out: &mut Vec<Vec4>, u: &(i64, i64), second: &[(i64, i64)]) -> Result<(), AllocError>
    ensures { IfOk result (λ _. out.new.items ≡ out.old.items ++ map (joined u.now) second.now) }
{
    for v in second {
        out.push(join(u, v))?;
    }
    Ok(())
}

/// Appends the points of the product over each two points, those of the second plane running faster.
fn append_products(
    out: &mut Vec<Vec4>,
    first: &[(i64, i64)],
    second: &[(i64, i64)],
) -> Result<(), AllocError>
    ensures { IfOk result (λ _. out.new.items ≡ out.old.items ++ flat_map (λ u. map (joined u) second.now) first.now) }
{
    for u in first {
        append_over(out, u, second)?;
    }
    Ok(())
}

/// The pair of the demo with this number: the product of polygon 1 and the polygon with the number.
/// It is reflexive, its box has at most 27 columns, and it has at most 81 points.
///
/// # Errors
///
/// Where there is no memory for it.
pub fn demo(alloc: Global, number: u8) -> Result<Pair, AllocError>
    requires low { 1 ≤ number }
    requires high { number ≤ 5 }
    ensures pair { IfOk result (λ p. p ≡ demo_pair number) }
    ensures reflexive { IfOk result IsReflexive }
    ensures small { IfOk result IsSmallPair }
{
    let first = numbered(1);
    let second = numbered(number);
    let origin = [(0, 0)];
    let mut vertices = Vec::new(alloc);
    append_products(&mut vertices, first.vertices, second.vertices)?;
    let mut dual = Vec::new(alloc);
    append_products(&mut dual, first.dual, &origin)?;
    append_products(&mut dual, &origin, second.dual)?;
    Ok(Pair::new(vertices, dual))
}
