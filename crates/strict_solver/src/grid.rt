//! The grid of numbers that stands for the rows of the basic variables.
ghost use Rattle.std.specs.Prelude.{◌≡◌, ◌≢◌, ℕ, ◌+◌, ◌*◌, ◌<◌, ◌≤◌, pos, length, slice_get, slice_set, MatchOption, MatchBool};
ghost use Rattle.strict_solver.specs.Grids.{row_at, IsEliminated, IsPivotRow, AreRowsFor, AreEliminated, IsFirstWideRow};
ghost use Rattle.strict_solver.specs.Rows.{number, IsSolvedRow, AreNarrow, IsWideRow, IsLowRow};

use crate::place::Place;
use crate::row::{PivotRow, eliminate, first_wide_number, solve_for};
use crate::short::largest;

/// The rows of the basic variables, with a column for each of the others.
#[derive(Drop)]
pub struct Grid {
    /// The number of heights.
    pub columns: usize,
    /// The rows, one after the other.
    pub cells: Vec<i64>,
    /// Where each variable stands: first the heights, then the slacks.
    pub places: Vec<Place>,
    pub pivot: PivotRow,
    pub scratch: Vec<i128>,
}

/// A step with a wide number, and the first such number of it.
#[derive(Clone, Copy, Drop)]
pub struct WideStep {
    pub step: u64,
    pub number: i128,
}

/// Puts the pivot row into one row, unless that row is wide with it: then the answer is false, and the row stands in `scratch`.
fn eliminate_at(
    cells: &mut [i64],
    r: usize,
    pivot: &PivotRow,
    scratch: &mut [i128],
    width: u8,
) -> bool
    requires low { 1 ≤ width }
    requires high { width ≤ 62 }
    requires pivot { IsPivotRow (length scratch.old) pivot.now }
    requires room { r * length scratch.old + length scratch.old ≤ length cells.old }
    requires row { IsLowRow width (row_at (length scratch.old) cells.old r) }
    ensures kept { length cells.new ≡ length cells.old }
    ensures scratch { length scratch.new ≡ length scratch.old }
    ensures others { (q : ℕ) → q ≢ r → row_at (length scratch.old) cells.new q ≡ row_at (length scratch.old) cells.old q }
    ensures answer { MatchBool result
        (IsEliminated pivot.now (row_at (length scratch.old) cells.old r) (row_at (length scratch.old) cells.new r) × AreNarrow width (row_at (length scratch.old) cells.new r))
        (IsEliminated pivot.now (row_at (length scratch.old) cells.old r) scratch.new × IsWideRow width scratch.new) }
{
    let stride = scratch.len();
    let row = &mut cells[r * stride..r * stride + stride];
    if row[pivot.column] == 0 {
        return true;
    }
    eliminate(row, pivot, scratch, width)
}

/// Puts the pivot row into the other rows, in the order of the variables. The answer is the first wide number.
fn eliminate_rows(
    cells: &mut [i64],
    places: &[Place],
    pivot: &PivotRow,
    scratch: &mut [i128],
    width: u8,
) -> Option<i128>
    requires low { 1 ≤ width }
    requires high { width ≤ 62 }
    requires pivot { IsPivotRow (length scratch.old) pivot.now }
    requires rows { AreRowsFor width (length scratch.old) places.now pivot.now.row cells.old }
    ensures kept { length cells.new ≡ length cells.old }
    ensures scratch { length scratch.new ≡ length scratch.old }
    ensures answer { MatchOption result
        ((row_at (length scratch.old) cells.new pivot.now.row ≡ row_at (length scratch.old) cells.old pivot.now.row) × AreEliminated width (length scratch.old) places.now pivot.now cells.old cells.new)
        (λ z. IsFirstWideRow width (length scratch.old) places.now pivot.now cells.old z) }
{
    for place in places {
        if let Place::Row(r) = *place {
            if r != pivot.row && !eliminate_at(cells, r, pivot, scratch, width) {
                return first_wide_number(scratch, places, width);
            }
        }
    }
    None
}

impl Grid {
    ghost use Rattle.std.specs.Prelude.{not, ℤ, List, IfOk, MatchResult};
    ghost use Rattle.std.specs.List.{range_with_len};
    ghost use Rattle.std.specs.Ordering.{int_eq};
    ghost use Rattle.ntfe_model.specs.Solver.{IsPivot, coefficient_at, first_slack, first_negative as first_slack_below, first_entering as first_to_enter, IsWideTable};
    ghost use Rattle.strict_solver.specs.ShortRows.{IsLargest};
    ghost use Rattle.strict_solver.specs.Runs.{Stands, IsLoadedAt, IsSettled, HasLoaded};
    ghost use Rattle.strict_solver.specs.Grids.{lines_of, IsGrid, HasSameSize, IsPivotable, IsWidePivot};

    /// Solves a row for a column, and takes the solved row as the pivot row.
    fn take_pivot_row(&mut self, r: usize, p: usize)
        requires few { self.old.columns ≤ 400 }
        requires room { r * (self.old.columns + 2) + (self.old.columns + 2) ≤ length self.old.cells.items }
        requires row { AreNarrow 62 (row_at (self.old.columns + 2) self.old.cells.items r) }
        requires after { 2 ≤ p }
        requires within { p < self.old.columns + 2 }
        requires some { number (row_at (self.old.columns + 2) self.old.cells.items r) p ≢ pos 0 }
        requires count { length self.old.pivot.numbers.items ≡ self.old.columns + 2 }
        ensures columns { self.new.columns ≡ self.old.columns }
        ensures places { self.new.places ≡ self.old.places }
        ensures scratch { self.new.scratch ≡ self.old.scratch }
        ensures cells { length self.new.cells.items ≡ length self.old.cells.items }
        ensures solved { IsSolvedRow (row_at (self.old.columns + 2) self.old.cells.items r) p (row_at (self.old.columns + 2) self.new.cells.items r) }
        ensures others { (q : ℕ) → q ≢ r → row_at (self.old.columns + 2) self.new.cells.items q ≡ row_at (self.old.columns + 2) self.old.cells.items q }
        ensures row { self.new.pivot.row ≡ r }
        ensures column { self.new.pivot.column ≡ p }
        ensures denominator { self.new.pivot.denominator ≡ number (row_at (self.old.columns + 2) self.new.cells.items r) 0 }
        ensures numbers { self.new.pivot.numbers.items ≡ slice_set (row_at (self.old.columns + 2) self.new.cells.items r) 0 (pos 0) }
        ensures largest { IsLargest self.new.pivot.numbers.items self.new.pivot.largest }
    {
        let stride = self.columns + 2;
        let row = &mut self.cells[r * stride..r * stride + stride];
        solve_for(row, p);
        self.pivot.row = r;
        self.pivot.column = p;
        self.pivot.denominator = row[0];
        self.pivot.numbers.copy_from_slice(row);
        self.pivot.numbers[0] = 0;
        self.pivot.largest = largest(&self.pivot.numbers);
    }

    /// The pivot on the basic variable of a row and on the variable of a column. The answer is the first wide number of the table after it.
    fn exchange(
        &mut self,
        leaving: usize,
        entering: usize,
        r: usize,
        p: usize,
        width: u8,
    ) -> Option<i128>
        requires low { 1 ≤ width }
        requires high { width ≤ 62 }
        requires grid { IsGrid width self.old }
        requires leaves { slice_get self.old.places.items leaving ≡ Some (Place.Row r) }
        requires enters { slice_get self.old.places.items entering ≡ Some (Place.Column p) }
        requires some { number (row_at (self.old.columns + 2) self.old.cells.items r) p ≢ pos 0 }
        ensures size { HasSameSize self.old self.new }
        ensures answer { MatchOption result
            (IsGrid width self.new × IsPivot leaving entering (lines_of self.old) (lines_of self.new))
            (λ z. IsWidePivot width leaving entering (lines_of self.old) z) }
    {
        self.take_pivot_row(r, p);
        self.places[leaving] = Place::Column(p);
        self.places[entering] = Place::Row(r);
        eliminate_rows(
            &mut self.cells,
            &self.places,
            &self.pivot,
            &mut self.scratch,
            width,
        )
    }

    /// The pivot on a basic variable and another one. The answer is the first wide number of the table after it.
    pub fn pivot(&mut self, leaving: usize, entering: usize, width: u8) -> Option<i128>
        requires low { 1 ≤ width }
        requires high { width ≤ 62 }
        requires grid { IsGrid width self.old }
        requires can { IsPivotable leaving entering (lines_of self.old) }
        ensures size { HasSameSize self.old self.new }
        ensures answer { MatchOption result
            (IsGrid width self.new × IsPivot leaving entering (lines_of self.old) (lines_of self.new))
            (λ z. IsWidePivot width leaving entering (lines_of self.old) z) }
    {
        let Place::Row(r) = self.places[leaving] else {
            unreachable!();
        };
        let Place::Column(p) = self.places[entering] else {
            unreachable!();
        };
        self.exchange(leaving, entering, r, p, width)
    }

    /// A number of a row.
    pub fn cell(&self, r: usize, k: usize) -> &i64
        requires few { self.now.columns ≤ 400 }
        requires room { r * (self.now.columns + 2) + (self.now.columns + 2) ≤ length self.now.cells.items }
        requires within { k < self.now.columns + 2 }
        ensures { result.now ≡ number (row_at (self.now.columns + 2) self.now.cells.items r) k }
    {
        &self.cells[r * (self.columns + 2) + k]
    }

    /// The first basic slack that has a height.
    fn first_with(&self, height: usize) -> Option<usize>
        requires grid { IsGrid 62 self.now }
        requires height { height < self.now.columns }
        ensures { result ≡ first_slack self.now.columns (λ r. not (int_eq (coefficient_at r height) (pos 0))) (lines_of self.now) }
    {
        let Place::Column(p) = self.places[height] else {
            return None;
        };
        for x in self.columns..self.places.len() {
            if let Place::Row(r) = self.places[x] {
                if *self.cell(r, p) != 0 {
                    return Some(x);
                }
            }
        }
        None
    }

    /// The first basic slack that is negative.
    fn first_negative(&self) -> Option<usize>
        requires { IsGrid 62 self.now }
        ensures { result ≡ first_slack_below self.now.columns (lines_of self.now) }
    {
        for x in self.columns..self.places.len() {
            if let Place::Row(r) = self.places[x] {
                if *self.cell(r, 1) < 0 {
                    return Some(x);
                }
            }
        }
        None
    }

    /// The first slack that is not basic and has a positive coefficient in the row of a basic variable.
    fn first_entering(&self, leaving: usize) -> Option<usize>
        requires grid { IsGrid 62 self.now }
        requires within { leaving < length self.now.places.items }
        ensures { result ≡ first_to_enter self.now.columns (lines_of self.now) leaving }
    {
        let Place::Row(r) = self.places[leaving] else {
            return None;
        };
        for y in self.columns..self.places.len() {
            if let Place::Column(p) = self.places[y] {
                if *self.cell(r, p) > 0 {
                    return Some(y);
                }
            }
        }
        None
    }

    /// The loading: each height in turn takes the place of the first slack that has it. The answer is the number of pivots.
    pub fn load(&mut self, width: u8) -> Result<u64, WideStep>
        requires low { 1 ≤ width }
        requires high { width ≤ 62 }
        requires grid { IsGrid width self.old }
        ensures size { HasSameSize self.old self.new }
        ensures grid { IfOk result (λ _. IsGrid width self.new) }
        ensures run { (rs : List (List ℤ)) → Stands self.old.columns width rs (range_with_len 0 self.old.columns) 0 (lines_of self.old)
            → MatchResult result (λ step. IsLoadedAt self.old.columns width rs step (lines_of self.new)) (λ wide. IsWideTable self.old.columns rs width wide.step wide.number) }
    {
        let mut step = 0u64;
        for height in 0..self.columns {
            if let Some(slack) = self.first_with(height) {
                step = step.saturating_add(1);
                if let Some(number) = self.pivot(slack, height, width) {
                    return Err(WideStep { step, number });
                }
            }
        }
        Ok(step)
    }

    /// The moving, after so many pivots: the number of pivots at its end, and the slack that can't be mended.
    pub fn settle(&mut self, pivots: u64, width: u8) -> Result<(u64, Option<usize>), WideStep>
        requires low { 1 ≤ width }
        requires high { width ≤ 62 }
        requires grid { IsGrid width self.old }
        requires loaded { HasLoaded self.old.columns (lines_of self.old) }
        ensures size { HasSameSize self.old self.new }
        ensures grid { IfOk result (λ _. IsGrid width self.new) }
        ensures run { (rs : List (List ℤ)) → IsLoadedAt self.old.columns width rs pivots (lines_of self.old)
            → MatchResult result (λ r. IsSettled self.old.columns width rs r.0 r.1 (lines_of self.new)) (λ wide. IsWideTable self.old.columns rs width wide.step wide.number) }
    {
        let mut step = pivots;
        while let Some(leaving) = self.first_negative() {
            let Some(entering) = self.first_entering(leaving) else {
                return Ok((step, Some(leaving)));
            };
            step = step.saturating_add(1);
            if let Some(number) = self.pivot(leaving, entering, width) {
                return Err(WideStep { step, number });
            }
        }
        Ok((step, None))
    }
}
