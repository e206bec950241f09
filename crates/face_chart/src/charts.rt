//! The chart of a two-face.
ghost use Rattle.std.specs.Prelude.{◌≡◌, ◌<◌, ◌↔◌, AllPairs, IfOk, IsTrue};
ghost use Rattle.ntfe_model.specs.Charts.{spot_numbers, IsOf, place, turn, IsUnit, AreSteps};
ghost use Rattle.ntfe_model.specs.Charts.{AreApart};
ghost use Rattle.ntfe_model.specs.Pairs.{IsSmall};

use crate::steps::boundary_steps;
use crate::table::Table;
use crate::units::unit_area;
use ntfe_model::Vec4;
use std::alloc::{AllocError, Global};
use std::marker::Model;

/// The points of a two-face, and what is asked of them most often.
#[derive(Drop)]
pub struct Chart {
    table: Table,
    unit_area: i64,
    boundary: Vec<(u32, u32)>,
}

impl Model for Chart {
    ghost use Rattle.ntfe_model.specs.Charts.{Patch};

    ghost Value = { Patch };

    ghost use Rattle.face_chart.specs.Kept.{IsCharted};

    ghost view = { λ c. c.table };

    ghost invariant = { λ c. IsCharted c.table c.unit_area c.boundary.items };
}

impl Chart {
    /// The chart of the points of a table.
    pub(crate) fn from_table(alloc: Global, table: Table) -> Result<Chart, AllocError>
        requires apart { AreApart table }
        requires rising { AllPairs (λ j k. j < k) (spot_numbers table) }
        ensures { IfOk result (λ c. c ≡ table) }
    {
        let unit_area = unit_area(&table);
        let boundary = boundary_steps(alloc, &table)?;
        Ok(Chart {
            table,
            unit_area,
            boundary,
        })
    }

    /// The numbers of the points, from 1 and rising. No two points lie in one place. Takes no memory.
    pub fn points(&self) -> &[u32]
        ensures value { result.now ≡ spot_numbers self.now }
        ensures rising { AllPairs (λ j k. j < k) result.now }
        ensures apart { AreApart self.now }
    {
        self.table.points()
    }

    /// The place of a point of the face, by its number from 1. Takes no memory.
    pub fn place(&self, a: u32) -> &Vec4
        requires { IsOf self.now a }
        ensures value { result.now ≡ place self.now a }
        ensures small { IsSmall result.now }
    {
        self.table.place(a)
    }

    /// How three points of the face, by their numbers from 1, turn: 1 to the left, -1 to the right,
    /// and 0 where they lie on a line. Takes no memory.
    pub fn orient(&self, a: u32, b: u32, c: u32) -> i32
        requires a { IsOf self.now a }
        requires b { IsOf self.now b }
        requires c { IsOf self.now c }
        ensures { result ≡ turn self.now a b c }
    {
        let area = self.table.area(a, b, c);
        if area > 0 {
            return 1;
        }
        if area < 0 {
            return -1;
        }
        0
    }

    /// Whether three points of the face, by their numbers from 1, are a unit triple: they turn to the
    /// left, and each point of the face is reached from the first by whole multiples of the sides to
    /// the other two. Takes no memory.
    pub fn unit(&self, a: u32, b: u32, c: u32) -> bool
        requires a { IsOf self.now a }
        requires b { IsOf self.now b }
        requires c { IsOf self.now c }
        ensures { IsTrue result ↔ IsUnit self.now a b c }
    {
        let area = self.table.area(a, b, c);
        area > 0 && area == self.unit_area
    }

    /// The boundary steps, in order: the pairs (a, b) of points, by their numbers from 1, with no point
    /// of the face to the right of the step from a to b, and none between its ends. Takes no memory.
    pub fn boundary(&self) -> &[(u32, u32)]
        ensures { AreSteps self.now result.now }
    {
        self.boundary.as_slice()
    }

    /// Whether both have the same points at the same places. Takes no memory.
    pub fn same(&self, other: &Chart) -> bool
        ensures { IsTrue result ↔ (self.now ≡ other.now) }
    {
        self.table.same(&other.table)
    }

    /// An equal chart.
    pub fn try_clone(&self, alloc: Global) -> Result<Chart, AllocError>
        ensures { IfOk result (λ c. c ≡ self.now) }
    {
        let table = self.table.try_clone(alloc)?;
        let boundary = Vec::from_slice(alloc, self.boundary.as_slice())?;
        Ok(Chart {
            table,
            unit_area: self.unit_area,
            boundary,
        })
    }
}
