//! The end of the stated run on some rows, from which it goes on.
ghost use Rattle.std.specs.Prelude.{◌≡◌, ◌+◌, ◌*◌, ◌<◌, ◌≤◌, ◌++◌, ◌∷◌, ℕ, [], take, length, is_some, IfOk, OnOk};
ghost use Rattle.std.specs.Bool.{OnTrue};
ghost use Rattle.strict_solver.specs.Grids.{row_at};
ghost use Rattle.strict_solver.specs.Starts.{IsFoldOver};
ghost use Rattle.strict_solver.specs.Standing.{HasSameSizes};
ghost use Rattle.strict_solver.specs.Endings.{HasEffect};
ghost use Rattle.strict_solver.specs.Stems.{ArePlacedHeights, IsItself, HasMemory, IsKnownStem, IsSettled, IsCopy};
ghost use Rattle.strict_solver.specs.Pushes.{HasGoneOn};

use crate::basis::Basis;
use crate::place::Place;
use crate::stepping::{Effect, Ending};
use ntfe_model::Fold;
use std::alloc::{AllocError, Global};
use std::marker::Model;

/// What a further row does to a stem.
#[derive(Clone, Copy, Drop, PartialEq, Eq, Debug)]
pub enum Pushed {
    /// The run on the rows with it ends feasible, and the stem stands at its end.
    Feasible,
    /// The rows with it cancel.
    Infeasible,
    /// Nothing is known: a number did not fit.
    Unknown,
}

/// Where the stated run without a width ends on some rows. It goes on from there when a row comes after the others, and nothing
/// is done again. Its table has one denominator, and numbers below 2^30 in size: over N heights it takes N (N + 2) words.
#[derive(Drop)]
pub struct Stem {
    basis: Basis,
    folds: Vec<Fold>,
    /// How many rows it had when a number of its table last changed.
    settled: usize,
    known: bool,
    multipliers: Vec<(u32, i64)>,
}

impl Model for Stem {
    ghost use Rattle.std.specs.Prelude.{◌≡◌, true, cond, Some, None};
    ghost use Rattle.strict_solver.specs.Stems.{StemValue, HasMemory, IsKnownStem, IsSettled};

    ghost Value = { StemValue };

    ghost view = { λ s. record { columns = s.basis.columns; folds = cond s.known (Some s.folds.items) None; multipliers = s.multipliers.items } };

    ghost invariant = { λ s. HasMemory s.basis × (s.known ≡ true → IsKnownStem s.basis s.folds.items) × (s.known ≡ true → IsSettled s.basis s.folds.items s.settled) };
}

/// The places of the heights: each has its column.
fn place_heights(places: &mut Vec<Place>, columns: usize) -> Result<(), AllocError>
    requires { columns ≤ 400 }
    ensures { OnOk result (ArePlacedHeights columns places.new.items) }
{
    places.clear();
    for k in 0..columns {
        places.push(Place::Column(k + 2))?;
    }
    Ok(())
}

/// The row of a height that is not basic: it is itself, at its column.
fn make_itself(row: &mut [i64], column: usize)
    requires after { 2 ≤ column }
    requires within { column < length row.old }
    ensures count { length row.new ≡ length row.old }
    ensures row { IsItself column row.new }
{
    for number in row.iter_mut() {
        *number = 0;
    }
    row[0] = 1;
    row[column] = 1;
}

/// The rows of heights that are not basic: each is itself.
fn clear_rows(cells: &mut [i64], columns: usize)
    requires few { columns ≤ 400 }
    requires room { length cells.old ≡ columns * (columns + 2) }
    ensures count { length cells.new ≡ length cells.old }
    ensures rows { (k : ℕ) → k < columns → IsItself (k + 2) (row_at (columns + 2) cells.new k) }
{
    let stride = columns + 2;
    for k in 0..columns {
        make_itself(&mut cells[k * stride..k * stride + stride], k + 2);
    }
}

impl Basis {
    /// Stands at the end of the run on no rows.
    fn start(&mut self) -> Result<(), AllocError>
        requires { HasMemory self.old }
        ensures sizes { HasSameSizes self.old self.new }
        ensures stands { OnOk result (IsKnownStem self.new []) }
    {
        place_heights(&mut self.places, self.columns)?;
        clear_rows(&mut self.cells, self.columns);
        self.denominator = 1;
        Ok(())
    }

    /// Takes the numbers of another basis over as many heights.
    fn copy_from(&mut self, other: &Basis) -> Result<(), AllocError>
        requires memory { HasMemory self.old }
        requires others { HasMemory other.now }
        requires columns { other.now.columns ≡ self.old.columns }
        ensures sizes { HasSameSizes self.old self.new }
        ensures copied { OnOk result (IsCopy other.now self.new) }
    {
        self.denominator = other.denominator;
        self.cells.copy_from_slice(&other.cells);
        self.places.clear();
        self.places.extend_from_slice(&other.places)
    }
}

/// Whether the folds are equal.
fn is_same(fold: &Fold, other: &Fold) -> bool
    ensures { OnTrue result (fold.now ≡ other.now) }
{
    fold.a == other.a
        && fold.b == other.b
        && fold.c == other.c
        && fold.d == other.d
        && fold.alpha == other.alpha
        && fold.beta == other.beta
}

/// How many folds the lists begin with in common.
fn common_count(left: &[Fold], right: &[Fold]) -> usize
    ensures left { result ≤ length left.now }
    ensures right { result ≤ length right.now }
    ensures same { take result left.now ≡ take result right.now }
{
    let mut count = 0;
    while count < left.len() && count < right.len() && is_same(&left[count], &right[count]) {
        count += 1;
    }
    count
}

/// Goes on with one more row, whose effect is given.
fn push_row(
    basis: &mut Basis,
    folds: &mut Vec<Fold>,
    settled: &mut usize,
    multipliers: &mut Vec<(u32, i64)>,
    fold: &Fold,
    effect: Effect,
) -> Result<Pushed, AllocError>
    requires known { IsKnownStem basis.old folds.old.items }
    requires settled { IsSettled basis.old folds.old.items settled.old }
    requires fold { IsFoldOver basis.old.columns fold.now }
    requires effect { HasEffect basis.old fold.now effect }
    ensures sizes { HasSameSizes basis.old basis.new }
    ensures folds { IfOk result (λ p. folds.new.items ≡ folds.old.items ++ fold.now ∷ []) }
    ensures pushed { IfOk result (λ p. HasGoneOn basis.new folds.new.items settled.new multipliers.new.items p) }
{
    folds.push(*fold)?;
    if folds.len() >= 1 << 32 {
        return Ok(Pushed::Unknown);
    }
    match basis.go_on(folds, fold, effect)? {
        Ending::Feasible => {
            if effect.changes() {
                *settled = folds.len();
            }
            Ok(Pushed::Feasible)
        }
        Ending::Infeasible(row) => {
            basis.write_multipliers(row, folds.len(), multipliers)?;
            Ok(Pushed::Infeasible)
        }
        Ending::Unknown => Ok(Pushed::Unknown),
    }
}

impl Stem {
    ghost use Rattle.std.specs.Prelude.{List, ℤ, map, Some, None, IfSome, MatchBool};
    ghost use Rattle.ntfe_model.specs.declared.nogood.Fold.{Fold as FoldOf};
    ghost use Rattle.ntfe_model.specs.Solver.{fold_row, IsFeasible};
    ghost use Rattle.strict_solver.specs.Starts.{IsFoldOver, AreFoldsOver};
    ghost use Rattle.strict_solver.specs.Pushes.{HasPushed, HasExtended};

    /// A stem over so many heights, at no rows.
    ///
    /// # Errors
    /// `AllocError` where memory is short.
    pub fn new(alloc: Global, columns: u32) -> Result<Stem, AllocError>
        requires { columns ≤ 400 }
        ensures columns { IfOk result (λ s. s.columns ≡ columns) }
        ensures folds { IfOk result (λ s. s.folds ≡ Some []) }
    {
        let columns = columns as usize;
        let mut basis = Basis {
            columns,
            denominator: 1,
            cells: vec![in alloc; 0; columns * (columns + 2)]?,
            places: Vec::new(alloc),
            line: vec![in alloc; 0; columns + 2]?,
        };
        basis.start()?;
        Ok(Stem {
            basis,
            folds: Vec::new(alloc),
            settled: 0,
            known: true,
            multipliers: Vec::new(alloc),
        })
    }

    /// Goes back to no rows.
    ///
    /// # Errors
    /// `AllocError` where memory is short. Then nothing is known.
    pub fn start(&mut self) -> Result<(), AllocError>
        ensures columns { self.new.columns ≡ self.old.columns }
        ensures folds { OnOk result (self.new.folds ≡ Some []) }
    {
        self.known = false;
        self.folds.clear();
        self.settled = 0;
        self.basis.start()?;
        self.known = true;
        Ok(())
    }

    /// Stands where another one does that is known.
    fn stand_at(&mut self, basis: &Basis, folds: &[Fold], settled: usize) -> Result<(), AllocError>
        requires known { IsKnownStem basis.now folds.now }
        requires settled { IsSettled basis.now folds.now settled }
        requires columns { basis.now.columns ≡ self.old.columns }
        ensures columns { self.new.columns ≡ self.old.columns }
        ensures folds { OnOk result (self.new.folds ≡ Some folds.now) }
    {
        self.known = false;
        self.folds.clear();
        self.folds.extend_from_slice(folds)?;
        self.basis.copy_from(basis)?;
        self.settled = settled;
        self.known = true;
        Ok(())
    }

    /// Stands where the other one does.
    ///
    /// # Errors
    /// `AllocError` where memory is short. Then nothing is known.
    pub fn copy_from(&mut self, other: &Stem) -> Result<(), AllocError>
        requires { other.now.columns ≡ self.old.columns }
        ensures columns { self.new.columns ≡ self.old.columns }
        ensures folds { OnOk result (self.new.folds ≡ other.now.folds) }
    {
        if other.known {
            return self.stand_at(&other.basis, &other.folds, other.settled);
        }
        self.known = false;
        Ok(())
    }

    /// Whether it is known where the run ends.
    pub fn is_known(&self) -> bool
        ensures { result ≡ is_some self.now.folds }
    {
        self.known
    }

    /// Goes on with one more row. Where the rows cancel with it or a number does not fit, nothing is known afterwards.
    ///
    /// # Errors
    /// `AllocError` where memory is short. Then nothing is known.
    pub fn push(&mut self, fold: &Fold) -> Result<Pushed, AllocError>
        requires known { (fs : List FoldOf) × (self.old.folds ≡ Some fs) }
        requires fold { IsFoldOver self.old.columns fold.now }
        ensures columns { self.new.columns ≡ self.old.columns }
        ensures pushed { IfOk result (λ p. HasPushed self.old self.new fold.now p) }
    {
        let effect = self.basis.effect(fold);
        self.known = false;
        let pushed = push_row(
            &mut self.basis,
            &mut self.folds,
            &mut self.settled,
            &mut self.multipliers,
            fold,
            effect,
        )?;
        if let Pushed::Feasible = pushed {
            self.known = true;
        }
        Ok(pushed)
    }

    /// Goes on with one more row as `push` does. Where that changes a number, the spare stem first stands where this one did, and
    /// the second answer is true.
    ///
    /// # Errors
    /// `AllocError` where memory is short. Then nothing is known of this stem, or nothing of the spare one.
    pub fn push_aside(
        &mut self,
        fold: &Fold,
        spare: &mut Stem,
    ) -> Result<(Pushed, bool), AllocError>
        requires known { (fs : List FoldOf) × (self.old.folds ≡ Some fs) }
        requires fold { IsFoldOver self.old.columns fold.now }
        requires columns { spare.old.columns ≡ self.old.columns }
        ensures columns { self.new.columns ≡ self.old.columns }
        ensures spare { spare.new.columns ≡ self.old.columns }
        ensures pushed { IfOk result (λ r. HasPushed self.old self.new fold.now r.0) }
        ensures aside { IfOk result (λ r. MatchBool r.1 (spare.new.folds ≡ self.old.folds) (spare.new ≡ spare.old)) }
    {
        let effect = self.basis.effect(fold);
        let changes = effect.changes();
        if changes {
            spare.stand_at(&self.basis, &self.folds, self.settled)?;
        }
        self.known = false;
        let pushed = push_row(
            &mut self.basis,
            &mut self.folds,
            &mut self.settled,
            &mut self.multipliers,
            fold,
            effect,
        )?;
        if let Pushed::Feasible = pushed {
            self.known = true;
        }
        Ok((pushed, changes))
    }

    /// Takes the rows behind so many of them back, where these changed no number. The answer is false, and nothing is done, where
    /// they did, or where nothing is known.
    pub fn truncate(&mut self, count: usize) -> bool
        ensures columns { self.new.columns ≡ self.old.columns }
        ensures folds { MatchBool result ((fs : List FoldOf) × (self.old.folds ≡ Some fs) × (self.new.folds ≡ Some (take count fs))) (self.new ≡ self.old) }
    {
        if !self.known || count < self.settled {
            return false;
        }
        if count < self.folds.len() {
            self.basis.places.truncate(self.basis.columns + count);
            self.folds.truncate(count);
        }
        true
    }

    /// How many rows it had when a number last changed: `truncate` leaves no fewer.
    pub fn settled(&self) -> usize {
        self.settled
    }

    /// How many rows the given ones begin with that are its own.
    pub fn common(&self, folds: &[Fold]) -> usize
        ensures within { result ≤ length folds.now }
        ensures same { (fs : List FoldOf) → self.now.folds ≡ Some fs → take result fs ≡ take result folds.now }
    {
        common_count(&self.folds, folds)
    }

    /// The same as `common` tells, where the first so many rows are its own: these are not looked at, if it has as many.
    pub fn common_from(&self, folds: &[Fold], from: usize) -> usize
        ensures { result ≤ length folds.now }
    {
        if from > self.folds.len() || from > folds.len() {
            return common_count(&self.folds, folds);
        }
        from + common_count(&self.folds[from..], &folds[from..])
    }

    /// How many of the rows it stands for, where these are its rows as far as it has them.
    pub fn stands_for(&self, folds: &[Fold]) -> Option<usize>
        ensures within { IfSome result (λ n. n ≤ length folds.now) }
        ensures folds { IfSome result (λ n. self.now.folds ≡ Some (take n folds.now)) }
    {
        let count = self.folds.len();
        if self.known && common_count(&self.folds, folds) == count {
            Some(count)
        } else {
            None
        }
    }

    /// Goes on with these of the rows, one by one, until the rows cancel or a number does not fit.
    ///
    /// # Errors
    /// `AllocError` where memory is short. Then nothing is known.
    pub fn extend(&mut self, folds: &[Fold], from: usize, to: usize) -> Result<Pushed, AllocError>
        requires known { self.old.folds ≡ Some (take from folds.now) }
        requires from { from ≤ to }
        requires to { to ≤ length folds.now }
        requires folds { AreFoldsOver self.old.columns folds.now }
        ensures columns { self.new.columns ≡ self.old.columns }
        ensures extended { IfOk result (λ p. HasExtended self.new folds.now to p) }
    {
        for k in from..to {
            match self.push(&folds[k])? {
                Pushed::Feasible => {}
                Pushed::Infeasible => return Ok(Pushed::Infeasible),
                Pushed::Unknown => return Ok(Pushed::Unknown),
            }
        }
        Ok(Pushed::Feasible)
    }

    /// The multipliers that the last row found with which the rows cancel: row numbers from 0, rising.
    pub fn multipliers(&self) -> &[(u32, i64)]
        ensures { result.now ≡ self.now.multipliers }
    {
        &self.multipliers
    }

    /// A law: known rows have heights. The call does nothing: its contract is the law.
    pub fn has_heights(&self)
        requires { (fs : List FoldOf) × (self.now.folds ≡ Some fs) }
        ensures { (fs : List FoldOf) → self.now.folds ≡ Some fs → (heights : List ℤ) × IsFeasible self.now.columns (map (fold_row self.now.columns) fs) None heights }
    {
        let _ = &self.basis;
    }

    /// Writes the heights of the stated run.
    pub fn write_heights(&mut self, heights: &mut [i64])
        requires known { (fs : List FoldOf) × (self.old.folds ≡ Some fs) }
        requires count { length heights.old ≡ self.old.columns }
        ensures same { self.new ≡ self.old }
        ensures count { length heights.new ≡ self.old.columns }
        ensures heights { (fs : List FoldOf) → self.old.folds ≡ Some fs → IsFeasible self.old.columns (map (fold_row self.old.columns) fs) None heights.new }
    {
        self.basis.write_heights();
        for k in 0..heights.len() {
            heights[k] = self.basis.line[k + 1];
        }
    }
}
