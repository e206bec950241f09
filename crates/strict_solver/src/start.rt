//! The start of the solver: the rows of the folds.
ghost use Rattle.std.specs.Prelude.{◌≡◌, ℕ, ◌+◌, ◌-◌, ◌*◌, ◌^◌, ◌<◌, ◌≤◌, pos, ◌+ℤ◌, length, map, slice_index_or, unsigned_abs, neg_ℤ, vec_capacity, MatchOption, MatchBool, ◌≢◌};
ghost use Rattle.ntfe_model.specs.Certificates.{where_equal};
ghost use Rattle.strict_solver.specs.Rows.{number, AreNarrow, IsWideRow};
ghost use Rattle.strict_solver.specs.Starts.{IsFoldOver, IsStartRow};

use crate::grid::Grid;
use crate::place::Place;
use crate::row::{first_wide_number, store};
use ntfe_model::Fold;

/// Adds to the coefficient of a point.
fn add_at(row: &mut [i128], point: u32, value: i64)
    requires from { 1 ≤ point }
    requires within { point + 1 < length row.old }
    requires small { (k : ℕ) → unsigned_abs (number row.old k) ≤ 2 ^ 30 }
    requires value { unsigned_abs value ≤ 4094 }
    ensures count { length row.new ≡ length row.old }
    ensures each { (k : ℕ) → number row.new k ≡ number row.old k +ℤ where_equal (point + 1) k value }
    ensures size { (k : ℕ) → unsigned_abs (number row.new k) ≤ unsigned_abs (number row.old k) + 4094 }
{
    row[point as usize + 1] += i128::from(value);
}

/// The row t = -1 + .. of a slack without coefficients.
fn clear_row(row: &mut [i128])
    requires { 2 ≤ length row.old }
    ensures count { length row.new ≡ length row.old }
    ensures d { number row.new 0 ≡ pos 1 }
    ensures c { number row.new 1 ≡ neg_ℤ (pos 1) }
    ensures others { (k : ℕ) → 2 ≤ k → number row.new k ≡ pos 0 }
{
    for number in row.iter_mut() {
        *number = 0;
    }
    row[0] = 1;
    row[1] = -1;
}

/// The row t = -1 + .. of a fold.
fn write_fold(row: &mut [i128], fold: &Fold)
    requires two { 2 ≤ length row.old }
    requires fold { IsFoldOver (length row.old - 2) fold.now }
    ensures { IsStartRow (length row.old - 2) fold.now row.new }
{
    clear_row(row);
    add_at(row, fold.c, 1);
    add_at(row, fold.d, 1);
    add_at(row, fold.a, -fold.alpha);
    add_at(row, fold.b, -fold.beta);
}

impl Grid {
    ghost use Rattle.std.specs.Prelude.{ℤ, List, slice_get};
    ghost use Rattle.std.specs.List.{range_with_len};
    ghost use Rattle.ntfe_model.specs.Solver.{fold_row, IsWideTable};
    ghost use Rattle.strict_solver.specs.Grids.{row_at, lines_of, IsGrid, HasSameRoom};
    ghost use Rattle.strict_solver.specs.Runs.{Stands};
    ghost use Rattle.strict_solver.specs.Starts.{IsStartPlacing, HasRoomFor, AreFoldsOver};

    /// The places at the start: each height has its column, and each slack its row.
    fn place_all(&mut self, rows: usize)
        requires few { self.old.columns ≤ 400 }
        requires capacity { self.old.columns + rows ≤ vec_capacity self.old.places }
        ensures columns { self.new.columns ≡ self.old.columns }
        ensures cells { self.new.cells ≡ self.old.cells }
        ensures pivot { self.new.pivot ≡ self.old.pivot }
        ensures scratch { self.new.scratch ≡ self.old.scratch }
        ensures capacity { vec_capacity self.new.places ≡ vec_capacity self.old.places }
        ensures places { IsStartPlacing self.old.columns rows self.new.places.items }
    {
        self.places.clear();
        for k in 0..self.columns {
            self.places.push_reserved(Place::Column(k + 2));
        }
        for r in 0..rows {
            self.places.push_reserved(Place::Row(r));
        }
    }

    /// Writes the row of a fold, unless it is wide: then the answer is false, and the row stands in the scratch.
    fn open_row(&mut self, r: usize, fold: &Fold, width: u8) -> bool
        requires low { 1 ≤ width }
        requires high { width ≤ 62 }
        requires few { self.old.columns ≤ 400 }
        requires room { r * (self.old.columns + 2) + (self.old.columns + 2) ≤ length self.old.cells.items }
        requires scratch { length self.old.scratch.items ≡ self.old.columns + 2 }
        requires fold { IsFoldOver self.old.columns fold.now }
        ensures columns { self.new.columns ≡ self.old.columns }
        ensures places { self.new.places ≡ self.old.places }
        ensures pivot { self.new.pivot ≡ self.old.pivot }
        ensures cells { length self.new.cells.items ≡ length self.old.cells.items }
        ensures scratch { length self.new.scratch.items ≡ self.old.columns + 2 }
        ensures others { (q : ℕ) → q ≢ r → row_at (self.old.columns + 2) self.new.cells.items q ≡ row_at (self.old.columns + 2) self.old.cells.items q }
        ensures answer { MatchBool result
            (IsStartRow self.old.columns fold.now (row_at (self.old.columns + 2) self.new.cells.items r) × AreNarrow width (row_at (self.old.columns + 2) self.new.cells.items r))
            (IsStartRow self.old.columns fold.now self.new.scratch.items × IsWideRow width self.new.scratch.items) }
    {
        let stride = self.columns + 2;
        write_fold(&mut self.scratch, fold);
        store(
            &self.scratch,
            width,
            &mut self.cells[r * stride..r * stride + stride],
        )
    }

    /// The start: the rows of the folds. The answer is its first wide number.
    pub fn start(&mut self, folds: &[Fold], width: u8) -> Option<i128>
        requires low { 1 ≤ width }
        requires high { width ≤ 62 }
        requires room { HasRoomFor (length folds.now) self.old }
        requires folds { AreFoldsOver self.old.columns folds.now }
        ensures room { HasSameRoom self.old self.new }
        ensures places { length self.new.places.items ≡ self.old.columns + length folds.now }
        ensures answer { MatchOption result
            (IsGrid width self.new × Stands self.old.columns width (map (fold_row self.old.columns) folds.now) (range_with_len 0 self.old.columns) 0 (lines_of self.new))
            (λ z. IsWideTable self.old.columns (map (fold_row self.old.columns) folds.now) width 0 z) }
    {
        self.place_all(folds.len());
        for r in 0..folds.len() {
            if !self.open_row(r, &folds[r], width) {
                return first_wide_number(&self.scratch, &self.places, width);
            }
        }
        None
    }
}
