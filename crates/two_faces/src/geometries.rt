//! A pair with its points and two-faces.
ghost use Rattle.std.specs.Prelude.{◌≡◌, IfOk, IfErr, OnOk};
ghost use Rattle.ntfe_model.specs.Reflexive.{IsReflexive};
ghost use Rattle.ntfe_model.specs.Shapes.{IsShape};
ghost use Rattle.lattice_points.specs.Faults.{HasFewColumns, HasCause};

use crate::list::faces;
use lattice_points::{PointFault, points};
use ntfe_model::{Geometry, Pair};
use std::alloc::Global;

/// The pair with its points and two-faces.
///
/// `TooWide` comes exactly where the vertices' bounding box has over 16,777,216 columns, and
/// `TooMany` exactly where it has not and there are over 400 points.
pub fn geometry(alloc: Global, pair: Pair) -> Result<Geometry, PointFault>
    requires { IsReflexive pair }
    ensures pair { IfOk result (λ g. g.pair ≡ pair) }
    ensures shape { IfOk result IsShape }
    ensures narrow { OnOk result (HasFewColumns pair.vertices) }
    ensures cause { IfErr result (HasCause pair) }
{
    let points = points(alloc, &pair)?;
    let faces = faces(alloc, &pair, points.as_slice()).map_err(|_| PointFault::Memory)?;
    Ok(Geometry::new(pair, points, faces))
}
