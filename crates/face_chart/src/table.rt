//! The points of a two-face with their places, found by number.
ghost use Rattle.std.specs.Prelude.{◌≡◌, ◌≢◌, true, false, ◌≤◌, ◌^◌, unsigned_abs, ◌↔◌, All, IfOk, IsTrue};
ghost use Rattle.ntfe_nums.specs.Vectors.{area};
ghost use Rattle.ntfe_model.specs.Pairs.{IsSmall};
ghost use Rattle.ntfe_model.specs.Charts.{spot_numbers, IsOf, place, axes};
ghost use Rattle.face_chart.specs.Tables.{patch, AreKnown};

use crate::span::axes_of;
use ntfe_model::{Flat, Vec4, flat_area, flatten};
use std::alloc::{AllocError, Global};
use std::marker::Model;

/// Whether two lists of numbers are equal.
fn are_same_numbers(a: &[u32], b: &[u32]) -> bool
    ensures when_true { result ≡ true → a.now ≡ b.now }
    ensures when_false { result ≡ false → a.now ≢ b.now }
{
    a == b
}

/// Whether two places are equal. Takes no memory.
pub fn is_same_place(a: &Vec4, b: &Vec4) -> bool
    ensures when_true { result ≡ true → a.now ≡ b.now }
    ensures when_false { result ≡ false → a.now ≢ b.now }
{
    a.coordinates() == b.coordinates()
}

/// The points of a two-face: their numbers, and by number the places and the two coordinates of all
/// points.
#[derive(Drop)]
pub struct Table {
    numbers: Vec<u32>,
    places: Vec<Vec4>,
    flat: Vec<Flat>,
}

impl Model for Table {
    ghost use Rattle.ntfe_model.specs.Charts.{Patch};

    ghost Value = { Patch };

    ghost use Rattle.face_chart.specs.Tables.{patch, IsTable};

    ghost view = { λ t. patch t.numbers.items t.places.items };

    ghost invariant = { λ t. IsTable t.numbers.items t.places.items t.flat.items };
}

impl Table {
    /// The table of the points with these numbers, from 1.
    pub fn new(alloc: Global, numbers: Vec<u32>, places: Vec<Vec4>) -> Result<Table, AllocError>
        requires known { AreKnown numbers.items places.items }
        requires small { All IsSmall places.items }
        ensures { IfOk result (λ t. t ≡ patch numbers.items places.items) }
    {
        let axes = axes_of(numbers.as_slice(), places.as_slice());
        let mut flat = Vec::with_capacity(alloc, places.len())?;
        for place in &places {
            flat.push(flatten(place, axes))?;
        }
        Ok(Table {
            numbers,
            places,
            flat,
        })
    }

    /// The numbers of the points.
    pub fn points(&self) -> &[u32]
        ensures { result.now ≡ spot_numbers self.now }
    {
        self.numbers.as_slice()
    }

    /// The place of a point.
    pub fn place(&self, a: u32) -> &Vec4
        requires { IsOf self.now a }
        ensures value { result.now ≡ place self.now a }
        ensures small { IsSmall result.now }
    {
        &self.places[a as usize - 1]
    }

    /// Twice the area of three points in the coordinates of the face.
    pub fn area(&self, a: u32, b: u32, c: u32) -> i64
        requires a { IsOf self.now a }
        requires b { IsOf self.now b }
        requires c { IsOf self.now c }
        ensures value { result ≡ area (axes self.now) (place self.now a) (place self.now b) (place self.now c) }
        ensures size { unsigned_abs result ≤ 2 ^ 24 }
    {
        let a = &self.flat[a as usize - 1];
        let b = &self.flat[b as usize - 1];
        let c = &self.flat[c as usize - 1];
        flat_area(a, b, c)
    }

    /// Whether both have the same points at the same places.
    pub fn same(&self, other: &Table) -> bool
        ensures { IsTrue result ↔ (self.now ≡ other.now) }
    {
        let numbers = self.numbers.as_slice();
        if !are_same_numbers(numbers, other.numbers.as_slice()) {
            return false;
        }
        let places = self.places.as_slice();
        let others = other.places.as_slice();
        for number in numbers {
            let place = *number as usize - 1;
            if !is_same_place(&places[place], &others[place]) {
                return false;
            }
        }
        true
    }

    /// An equal table.
    pub fn try_clone(&self, alloc: Global) -> Result<Table, AllocError>
        ensures { IfOk result (λ t. t ≡ self.now) }
    {
        let numbers = Vec::from_slice(alloc, self.numbers.as_slice())?;
        let places = Vec::from_slice(alloc, self.places.as_slice())?;
        let flat = Vec::from_slice(alloc, self.flat.as_slice())?;
        Ok(Table {
            numbers,
            places,
            flat,
        })
    }
}
