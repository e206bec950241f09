//! What a basis answers at the end of a run.
ghost use Rattle.std.specs.Prelude.{◌≡◌, ◌≢◌, ℕ, ◌+◌, ◌*◌, ◌^◌, ◌<◌, ◌≤◌, pos, length, unsigned_abs, OnOk};
ghost use Rattle.ntfe_model.specs.Solver.{multiplier_at, multipliers_of};
ghost use Rattle.strict_solver.specs.Rows.{number, AreNarrow, PlacesWithin, IsLowered, line_in};
ghost use Rattle.strict_solver.specs.Grids.{row_at};
ghost use Rattle.strict_solver.specs.Mixing.{AreNarrowRows};
ghost use Rattle.strict_solver.specs.Standing.{IsSized, HasHeights, HasSameSizes, HasOtherLine};

use crate::basis::Basis;
use crate::place::Place;
use crate::short::lower;
use std::alloc::AllocError;

/// Writes the denominator, and after it the constant of each row, and 0.
fn gather(cells: &[i64], denominator: i64, rows: usize, out: &mut [i64])
    requires room { length cells.now ≡ rows * (rows + 2) }
    requires few { rows ≤ 400 }
    requires count { length out.old ≡ rows + 2 }
    requires cells { AreNarrowRows rows (rows + 2) cells.now }
    requires denominator { unsigned_abs denominator < 2 ^ 30 }
    ensures count { length out.new ≡ length out.old }
    ensures first { number out.new 0 ≡ denominator }
    ensures each { (k : ℕ) → k < rows → number out.new (k + 1) ≡ number (row_at (rows + 2) cells.now k) 1 }
    ensures last { number out.new (rows + 1) ≡ pos 0 }
    ensures sizes { (k : ℕ) → unsigned_abs (number out.new k) < 2 ^ 30 }
{
    out[0] = denominator;
    for k in 0..rows {
        out[k + 1] = cells[k * (rows + 2) + 1];
    }
    out[rows + 1] = 0;
}

impl Basis {
    /// Writes the heights of the basis into the kept line: the denominator, and after it the heights' constants, divided by
    /// their greatest common divisor.
    pub fn write_heights(&mut self)
        requires { IsSized self.old }
        ensures others { HasOtherLine self.old self.new }
        ensures heights { HasHeights self.old self.new.line.items }
    {
        gather(&self.cells, self.denominator, self.columns, &mut self.line);
        lower(&mut self.line);
    }

    /// The multiplier of a row in the kept line, which is that of the slack of another row, or of this one.
    fn multiplier(&self, slack: usize, row: usize) -> i64
        requires line { AreNarrow 30 self.now.line.items }
        requires two { length self.now.line.items ≡ self.now.columns + 2 }
        requires within { PlacesWithin (self.now.columns + 2) self.now.places.items }
        requires row { self.now.columns + row < length self.now.places.items }
        requires few { self.now.columns ≤ 400 }
        ensures size { unsigned_abs result < 2 ^ 30 }
        ensures value { result ≡ multiplier_at self.now.columns (self.now.columns + slack) (line_in self.now.places.items self.now.line.items) row }
    {
        if row == slack {
            return self.line[0];
        }
        match self.places[self.columns + row] {
            Place::Column(p) => self.line[p].abs(),
            Place::Row(_) => 0,
        }
    }

    /// Brings the kept line of a row's slack to its lowest form, and writes the multipliers that are not 0, rows rising.
    ///
    /// # Errors
    /// `AllocError` where memory is short.
    pub fn write_multipliers(
        &mut self,
        slack: usize,
        rows: usize,
        multipliers: &mut Vec<(u32, i64)>,
    ) -> Result<(), AllocError>
        requires line { AreNarrow 30 self.old.line.items }
        requires some { number self.old.line.items 0 ≢ pos 0 }
        requires two { length self.old.line.items ≡ self.old.columns + 2 }
        requires within { PlacesWithin (self.old.columns + 2) self.old.places.items }
        requires rows { self.old.columns + rows ≤ length self.old.places.items }
        requires few { self.old.columns ≤ 400 }
        requires numbered { rows < 2 ^ 32 }
        ensures others { HasOtherLine self.old self.new }
        ensures lowered { IsLowered self.old.line.items self.new.line.items }
        ensures value { OnOk result (multipliers.new.items ≡ multipliers_of self.old.columns rows (self.old.columns + slack) (line_in self.old.places.items self.new.line.items)) }
    {
        lower(&mut self.line);
        multipliers.clear();
        for row in 0..rows {
            let times = self.multiplier(slack, row);
            if times > 0 {
                multipliers.push((row as u32, times))?;
            }
        }
        Ok(())
    }
}
