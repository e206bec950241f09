//! The points found so far.
ghost use Rattle.std.specs.Prelude.{◌≡◌, ◌+◌, ◌<◌, ◌≤◌, ◌^◌, [], IfOk, IfErr, OnOk, OnErr};
ghost use Rattle.ntfe_model.specs.Points.{IsInside};
ghost use Rattle.lattice_points.specs.Scans.{Adds};

use crate::fault::PointFault;
use crate::tight::tight_facets;
use ntfe_model::{List, Pair, Point, Vec4};
use std::alloc::{AllocError, Global};

/// The most points that are listed.
const POINT_LIMIT: u64 = 400;

/// How many points were found, and these points, while there are at most 400.
#[derive(Drop)]
pub struct Found {
    pub points: Vec<Point>,
    pub count: u64,
}

impl Found {
    /// Nothing found.
    pub fn new(alloc: Global) -> Found
        ensures points { result.points.items ≡ [] }
        ensures count { result.count ≡ 0 }
    {
        Found {
            points: Vec::new(alloc),
            count: 0,
        }
    }

    /// Takes a lattice point of the polytope, if it lies on two facets.
    pub fn look_at(&mut self, alloc: Global, pair: &Pair, place: Vec4) -> Result<(), AllocError>
        requires inside { IsInside pair.now place }
        requires room { self.old.count < 2 ^ 62 }
        ensures adds { OnOk result (Adds pair.now (λ v. v ≡ place) self.old self.new) }
        ensures most { OnOk result (self.new.count ≤ self.old.count + 1) }
    {
        let facets = tight_facets(alloc, pair.dual(), &place)?;
        if facets.len() < 2 {
            return Ok(());
        }
        self.count += 1;
        if self.count <= POINT_LIMIT {
            let facets = List::from_vec(facets);
            self.points.push(Point { place, facets })?;
        }
        Ok(())
    }

    /// The points, if there are not too many.
    pub fn finish(self) -> Result<List<Point>, PointFault>
        ensures points { IfOk result (λ xs. xs ≡ self.points.items) }
        ensures few { OnOk result (self.count ≤ 400) }
        ensures cause { IfErr result (λ e. e ≡ PointFault.TooMany self.count) }
        ensures over { OnErr result (400 < self.count) }
    {
        let Found { points, count } = self;
        if count > POINT_LIMIT {
            return Err(PointFault::TooMany { count });
        }
        Ok(List::from_vec(points))
    }
}
